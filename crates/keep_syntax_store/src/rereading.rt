//! What is stored of a text with lines replaced: that of the lines before, of the new lines, and of the lines after,
//! each stored again. What comes before a place shows in the statements after it.
ghost use Rattle.std.specs.Prelude.{◌≡◌, ◌≤◌, length, drop, OnOk, IfOk};
ghost use Rattle.keep_syntax_store.specs.Flat.{flat};
ghost use Rattle.keep_syntax_store.specs.Rereading.{count_at};
ghost use Rattle.keep_syntax_store.specs.Rereading as spec;

use crate::moves::Counts;
use crate::parts::Parts;
use crate::starts::Starts;
use keep_types::Span;
use std::alloc::{AllocError, Global};

/// How many statements have a line that begins before a place.
fn statements_before(parts: &Parts, place: usize) -> usize
    requires { spec.LinesAscend 0 (flat parts.now).statements }
    ensures { result ≡ spec.statements_before place (flat parts.now).statements }
{
    let mut low = 0;
    let mut high = parts.statement_count();
    'halves: while low < high {
        let middle = low + (high - low) / 2;
        if parts.statement_at(middle).line.start < place {
            low = middle + 1;
        } else {
            high = middle;
        }
    }
    low
}

/// The number of the first value from a statement on.
fn first_value(parts: &Parts, from: usize) -> usize
    requires { from ≤ length (flat parts.now).statements }
    ensures { result ≡ spec.first_value (length (flat parts.now).values) (drop from (flat parts.now).statements) }
{
    let count = parts.statement_count();
    'statements: for number in from..count {
        if let Some(value) = parts.statement_at(number).value {
            return value;
        }
    }
    parts.value_count()
}

/// The number of the first key part from a statement on.
fn first_key(parts: &Parts, from: usize) -> usize
    requires { from ≤ length (flat parts.now).statements }
    ensures { result ≡ spec.first_key (length (flat parts.now).keys) (drop from (flat parts.now).statements) }
{
    if from < parts.statement_count() {
        parts.statement_at(from).first_key
    } else {
        parts.key_count()
    }
}

/// How much comes before the line that begins at a place.
pub fn counts_before(parts: &Parts, place: usize) -> Counts
    requires { spec.LinesAscend 0 (flat parts.now).statements }
    ensures { result ≡ spec.counts_before (flat parts.now) place }
{
    let statements = statements_before(parts, place);
    Counts {
        at: place,
        tokens: parts.tokens_before(place),
        statements,
        keys: first_key(parts, statements),
        values: first_value(parts, statements),
    }
}

/// All that is stored of a text that ends at a place.
pub fn counts_at(parts: &Parts, at: usize) -> Counts
    ensures { result ≡ spec.counts_at at (flat parts.now) }
{
    Counts {
        at,
        tokens: parts.stored_token_count(),
        statements: parts.statement_count(),
        keys: parts.key_count(),
        values: parts.value_count(),
    }
}

/// Stores also what is stored of other lines from one count to another, moved to after all that is stored. These lines
/// begin at the byte `at`.
pub fn append_moved(
    out: &mut Parts,
    other: &Parts,
    from: &Counts,
    to: &Counts,
    at: usize,
) -> Result<(), AllocError>
    requires { spec.IsPart from.now to.now (flat other.now) }
    ensures { OnOk result (flat out.new ≡ spec.joined (flat out.old)
        (spec.moved_flat (spec.count_of from.now) (count_at at (flat out.old))
        (spec.part_of from.now to.now (flat other.now)))) }
{
    let new = counts_at(out, at);
    out.append_tokens(other, from, to, at)?;
    out.append_entries(other, from, to, &new)
}

/// What comes before everything.
pub fn nothing() -> Counts
    ensures { result ≡ spec.nothing }
{
    Counts {
        at: 0,
        tokens: 0,
        statements: 0,
        keys: 0,
        values: 0,
    }
}

/// What is stored of a text of `len` bytes whose lines of a span are replaced: that of the lines before, that of the
/// new lines, which have `size` bytes and end at the byte `end`, and that of the lines after.
pub fn replaced_parts(
    alloc: Global,
    parts: &Parts,
    whole: Span,
    len: usize,
    fresh: &Parts,
    size: usize,
    end: usize,
) -> Result<Parts, AllocError>
    requires { spec.CanMove (flat parts.now) whole len }
    ensures { IfOk result (λ out. flat out ≡ spec.replaced_flat (flat parts.now) (flat fresh.now) whole len size end) }
{
    let mut out = Parts::new(alloc);
    append_moved(
        &mut out,
        parts,
        &nothing(),
        &counts_before(parts, whole.start),
        0,
    )?;
    append_moved(
        &mut out,
        fresh,
        &nothing(),
        &counts_at(fresh, size),
        whole.start,
    )?;
    if whole.end < len {
        append_moved(
            &mut out,
            parts,
            &counts_before(parts, whole.end),
            &counts_at(parts, len),
            end,
        )?;
    }
    Ok(out)
}

/// Where the lines of that text begin.
pub fn replaced_starts(
    alloc: Global,
    starts: &Starts,
    whole: Span,
    len: usize,
    fresh: &Starts,
    size: usize,
    end: usize,
) -> Result<Starts, AllocError>
    ensures { IfOk result (λ out. out ≡ spec.replaced_starts starts.now fresh.now whole len size end) }
{
    let from = starts.count_before(whole.start);
    let to = starts.count_before(whole.end);
    let after = starts.len().saturating_sub(to);
    let count = from.saturating_add(fresh.len()).saturating_add(after);
    let mut out = Starts::with_room(alloc, count)?;
    out.append_moved(starts, 0, from, 0, 0)?;
    if whole.end < len {
        out.append_moved(fresh, 0, fresh.count_before(size), 0, whole.start)?;
        out.append_moved(starts, to, starts.len(), whole.end, end)?;
    } else {
        out.append_moved(fresh, 0, fresh.len(), 0, whole.start)?;
    }
    Ok(out)
}
