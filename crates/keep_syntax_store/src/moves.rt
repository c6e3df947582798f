//! Numbers and places, moved from after one count to after another. None is answered exactly where a number is before
//! the first count, or no machine word holds it after the other; in a text that memory holds there is no such number.
ghost use Rattle.std.specs.Prelude.{SomeIff};
ghost use Rattle.keep_syntax_store.specs.Held as held;
ghost use Rattle.keep_syntax_store.specs.Lifted as spec;
ghost use Rattle.keep_syntax_store.specs.Rereading.{count_of};

use keep_types::{KeyPart, Owner, Span, Statement, ValueInfo};

/// What comes before a place: bytes, tokens, statements, key parts and values.
#[derive(Clone, Copy)]
pub struct Counts {
    pub at: usize,
    pub tokens: usize,
    pub statements: usize,
    pub keys: usize,
    pub values: usize,
}

/// What comes before a run, before what is after it, and before that once others are in the place of the run; and how
/// many bytes the text has.
#[derive(Clone, Copy)]
pub struct RunCounts {
    pub from: Counts,
    pub to: Counts,
    pub until: Counts,
    pub len: usize,
}

/// A number after `old`, moved to after `new`.
pub fn moved(number: usize, old: usize, new: usize) -> Option<usize>
    ensures { SomeIff result (held.IsHeld old new number) (spec.moved old new number) }
{
    number.checked_sub(old)?.checked_add(new)
}

fn moved_there(number: Option<usize>, old: usize, new: usize) -> Option<Option<usize>>
    ensures { SomeIff result (held.IsHeldThere old new number) (spec.moved_there old new number) }
{
    match number {
        Some(number) => Some(Some(moved(number, old, new)?)),
        None => Some(None),
    }
}

fn moved_span(span: Span, old: usize, new: usize) -> Option<Span>
    ensures { SomeIff result (held.IsHeldSpan old new span) (spec.moved_span old new span) }
{
    Some(Span {
        start: moved(span.start, old, new)?,
        end: moved(span.end, old, new)?,
    })
}

fn moved_owner(owner: Owner, old: &Counts, new: &Counts) -> Option<Owner>
    ensures { SomeIff result (held.IsHeldOwner (count_of old.now) (count_of new.now) owner)
        (spec.moved_owner (count_of old.now) (count_of new.now) owner) }
{
    Some(match owner {
        Owner::Line(number) => Owner::Line(moved(number, old.statements, new.statements)?),
        Owner::Inline(number) => Owner::Inline(moved(number, old.values, new.values)?),
        Owner::Item(number) => Owner::Item(moved(number, old.values, new.values)?),
    })
}

pub fn moved_key(part: KeyPart, old: &Counts, new: &Counts) -> Option<KeyPart>
    ensures { SomeIff result (held.IsHeldKey (count_of old.now) (count_of new.now) part)
        (spec.moved_key (count_of old.now) (count_of new.now) part) }
{
    Some(KeyPart {
        leaf: part.leaf,
        span: moved_span(part.span, old.at, new.at)?,
    })
}

pub fn moved_statement(statement: Statement, old: &Counts, new: &Counts) -> Option<Statement>
    ensures { SomeIff result (held.IsHeldStatement (count_of old.now) (count_of new.now) statement)
        (spec.moved_statement (count_of old.now) (count_of new.now) statement) }
{
    Some(Statement {
        kind: statement.kind,
        span: moved_span(statement.span, old.at, new.at)?,
        line: moved_span(statement.line, old.at, new.at)?,
        first_key: moved(statement.first_key, old.keys, new.keys)?,
        keys: statement.keys,
        value: moved_there(statement.value, old.values, new.values)?,
    })
}

pub fn moved_value(value: ValueInfo, old: &Counts, new: &Counts) -> Option<ValueInfo>
    ensures { SomeIff result (held.IsHeldValue (count_of old.now) (count_of new.now) value)
        (spec.moved_value (count_of old.now) (count_of new.now) value) }
{
    Some(ValueInfo {
        leaf: value.leaf,
        span: moved_span(value.span, old.at, new.at)?,
        whole: moved_span(value.whole, old.at, new.at)?,
        owner: moved_owner(value.owner, old, new)?,
        depth: value.depth,
        first_key: moved(value.first_key, old.keys, new.keys)?,
        keys: value.keys,
        comma_before: moved_there(value.comma_before, old.at, new.at)?,
        comma_after: moved_there(value.comma_after, old.at, new.at)?,
    })
}
