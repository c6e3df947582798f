//! Statements as entries of a list: packed into 24 bytes, and moved.
mod shifting;

use crate::moves::{Counts, moved_statement};
use crate::packed_vec::Entry;
use crate::parts::if_there;
use crate::places::{lowered_span, raised_span};
use crate::widths::{LONG, SHORT, distance, either};
use keep_types::{Span, Statement, StatementKind};

/// A statement in 24 bytes. Of its line `before` bytes come before it and `after` after it, and `end` is its own end.
/// The number of its value is stored apart from what tells whether it is there.
#[derive(Clone, Copy)]
pub struct PackedStatement {
    kind: StatementKind,
    has_value: bool,
    keys: u16,
    before: u16,
    after: u16,
    line_start: u32,
    end: u32,
    first_key: u32,
    value: u32,
}

impl Entry for Statement {
    ghost use Rattle.keep_syntax_store.specs.Fits.{FitsStatement};
    ghost use Rattle.keep_syntax_store.specs.Flat.{unpacked_statement};
    ghost use Rattle.keep_syntax_store.specs.After as after;
    ghost use Rattle.keep_syntax_store.specs.Held as held;
    ghost use Rattle.keep_syntax_store.specs.Lifted as lifted;
    ghost use Rattle.keep_syntax_store.specs.Rereading.{count_of};
    ghost use Rattle.keep_syntax_store.specs.Blocks.{raise_statement};
    ghost use Rattle.keep_syntax_store.specs.Raising.{CanRaiseStatement};

    type Packed = PackedStatement;

    ghost unpacked = { unpacked_statement };

    ghost Fits = { FitsStatement };

    ghost IsHeld = { λ old new. held.IsHeldStatement (count_of old) (count_of new) };

    ghost moved = { λ old new. lifted.moved_statement (count_of old) (count_of new) };

    ghost IsAfter = { λ c. after.IsAfterStatement (count_of c) };

    ghost raise = { raise_statement };

    ghost CanRaise = { CanRaiseStatement };

    #[inline(always)]
    fn packed(&self) -> Option<PackedStatement> {
        let span = self.span;
        let line = self.line;
        let before = distance(line.start, span.start);
        let after = distance(span.end, line.end);
        if either(self.keys, either(before, after)) > SHORT {
            return None;
        }
        let value = self.value.unwrap_or(0);
        let numbers = either(self.first_key, value);
        if either(line.start, either(span.end, numbers)) > LONG {
            return None;
        }
        Some(PackedStatement {
            kind: self.kind,
            has_value: self.value.is_some(),
            keys: self.keys as u16,
            before: before as u16,
            after: after as u16,
            line_start: line.start as u32,
            end: span.end as u32,
            first_key: self.first_key as u32,
            value: value as u32,
        })
    }

    fn stand_in() -> PackedStatement {
        PackedStatement {
            kind: StatementKind::KeyVal,
            has_value: false,
            keys: 0,
            before: 0,
            after: 0,
            line_start: 0,
            end: 0,
            first_key: 0,
            value: 0,
        }
    }

    fn unpacked(stored: &PackedStatement) -> Statement {
        let line_start = stored.line_start as usize;
        let end = stored.end as usize;
        Statement {
            kind: stored.kind,
            span: Span {
                start: line_start + stored.before as usize,
                end,
            },
            line: Span {
                start: line_start,
                end: end + stored.after as usize,
            },
            first_key: stored.first_key as usize,
            keys: stored.keys as usize,
            value: if_there(stored.has_value, stored.value as usize),
        }
    }

    fn moved(&self, old: &Counts, new: &Counts) -> Option<Statement> {
        moved_statement(*self, old, new)
    }

    fn raised(self, by: usize) -> Statement {
        Statement {
            kind: self.kind,
            span: raised_span(self.span, by),
            line: raised_span(self.line, by),
            first_key: self.first_key,
            keys: self.keys,
            value: self.value,
        }
    }

    #[inline(always)]
    fn can_raise(stored: &PackedStatement, by: usize) -> bool {
        let line_start = (stored.line_start as usize).wrapping_add(by);
        let end = (stored.end as usize).wrapping_add(by);
        either(line_start, end) <= LONG
    }

    #[inline(always)]
    fn raise_packed(stored: &mut PackedStatement, by: usize) {
        let old = *stored;
        stored.line_start = (old.line_start as usize).wrapping_add(by) as u32;
        stored.end = (old.end as usize).wrapping_add(by) as u32;
    }

    fn lowered(self, block: Option<usize>) -> Statement {
        Statement {
            kind: self.kind,
            span: lowered_span(self.span, block),
            line: lowered_span(self.line, block),
            first_key: self.first_key,
            keys: self.keys,
            value: self.value,
        }
    }
}
