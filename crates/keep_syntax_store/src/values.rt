//! Values as entries of a list: packed into 40 bytes, moved, and changed as more of them is known.
ghost use Rattle.std.specs.Prelude.{◌≡◌, ◌<◌, ◌+◌, length};
ghost use Rattle.keep_syntax_store.specs.Blocks.{raise_value};
ghost use Rattle.keep_syntax_store.specs.PackedVec.{entries};
ghost use Rattle.keep_syntax_store.specs.Flat as spec;

mod shifting;

use crate::moves::{Counts, moved_value};
use crate::packed_vec::{BLOCK, Entry, PackedVec, block_move};
use crate::parts::{flag_and_number, if_there};
use crate::places::{lowered, lowered_span, lowered_there, raised_span, raised_there};
use crate::widths::{LONG, SHORT, distance, either};
use keep_types::{Leaf, Owner, Span, ValueInfo};

/// What a value is in, without its number.
#[derive(Clone, Copy)]
pub enum Within {
    Line,
    Inline,
    Item,
}

/// A value in 40 bytes. `anchor` is where the comma before it is, or where its keyval starts if there is none. The
/// keyval starts `gap` bytes after the anchor, and the value `lead` bytes after that. What becomes known later has a
/// word of its own: `end`, which is the end of its keyval too, and `after`. Numbers are stored apart from what tells
/// whether they are there and of what they are, so that all of that shares one word with the number of its keys.
#[derive(Clone, Copy)]
pub struct PackedValue {
    leaf: Leaf,
    within: Within,
    depth: u16,
    has_before: bool,
    has_after: bool,
    keys: u16,
    anchor: u32,
    owner: u32,
    first_key: u32,
    gap: u16,
    lead: u16,
    end: usize,
    after: usize,
}

/// What a value is in, and the number of that.
fn owner_parts(owner: Owner) -> (Within, usize)
    ensures { spec.owner_of result.0 result.1 ≡ owner }
{
    match owner {
        Owner::Line(number) => (Within::Line, number),
        Owner::Inline(number) => (Within::Inline, number),
        Owner::Item(number) => (Within::Item, number),
    }
}

/// The owner with this number.
fn owner_of(within: Within, number: usize) -> Owner
    ensures { result ≡ spec.owner_of within number }
{
    match within {
        Within::Line => Owner::Line(number),
        Within::Inline => Owner::Inline(number),
        Within::Item => Owner::Item(number),
    }
}

impl Entry for ValueInfo {
    ghost use Rattle.keep_syntax_store.specs.Fits.{FitsValue};
    ghost use Rattle.keep_syntax_store.specs.Flat.{unpacked_value};
    ghost use Rattle.keep_syntax_store.specs.After as after;
    ghost use Rattle.keep_syntax_store.specs.Held as held;
    ghost use Rattle.keep_syntax_store.specs.Lifted as lifted;
    ghost use Rattle.keep_syntax_store.specs.Rereading.{count_of};
    ghost use Rattle.keep_syntax_store.specs.Blocks.{raise_value};
    ghost use Rattle.keep_syntax_store.specs.Raising.{CanRaiseValue};

    type Packed = PackedValue;

    ghost unpacked = { unpacked_value };

    ghost Fits = { FitsValue };

    ghost IsHeld = { λ old new. held.IsHeldValue (count_of old) (count_of new) };

    ghost moved = { λ old new. lifted.moved_value (count_of old) (count_of new) };

    ghost IsAfter = { λ c. after.IsAfterValue (count_of c) };

    ghost raise = { raise_value };

    ghost CanRaise = { CanRaiseValue };

    /// The value in 40 bytes, if its numbers fit and it ends with its keyval.
    #[inline(always)]
    fn packed(&self) -> Option<PackedValue> {
        if self.span.end != self.whole.end {
            return None;
        }
        let (within, owner) = owner_parts(self.owner);
        let (has_after, after) = flag_and_number(self.comma_after);
        let anchor = self.comma_before.unwrap_or(self.whole.start);
        let gap = distance(anchor, self.whole.start);
        let lead = distance(self.whole.start, self.span.start);
        if either(self.keys, either(gap, lead)) > SHORT {
            return None;
        }
        if either(anchor, either(owner, self.first_key)) > LONG {
            return None;
        }
        Some(PackedValue {
            leaf: self.leaf,
            within,
            depth: self.depth,
            has_before: self.comma_before.is_some(),
            has_after,
            keys: self.keys as u16,
            anchor: anchor as u32,
            owner: owner as u32,
            first_key: self.first_key as u32,
            gap: gap as u16,
            lead: lead as u16,
            end: self.span.end,
            after,
        })
    }

    fn stand_in() -> PackedValue {
        PackedValue {
            leaf: Leaf::Ws,
            within: Within::Line,
            depth: 0,
            has_before: false,
            has_after: false,
            keys: 0,
            anchor: 0,
            owner: 0,
            first_key: 0,
            gap: 0,
            lead: 0,
            end: 0,
            after: 0,
        }
    }

    fn unpacked(stored: &PackedValue) -> ValueInfo {
        let anchor = stored.anchor as usize;
        let start = anchor + stored.gap as usize;
        ValueInfo {
            leaf: stored.leaf,
            span: Span {
                start: start + stored.lead as usize,
                end: stored.end,
            },
            whole: Span {
                start,
                end: stored.end,
            },
            owner: owner_of(stored.within, stored.owner as usize),
            depth: stored.depth,
            first_key: stored.first_key as usize,
            keys: stored.keys as usize,
            comma_before: if_there(stored.has_before, anchor),
            comma_after: if_there(stored.has_after, stored.after),
        }
    }

    fn moved(&self, old: &Counts, new: &Counts) -> Option<ValueInfo> {
        moved_value(*self, old, new)
    }

    fn raised(self, by: usize) -> ValueInfo {
        ValueInfo {
            leaf: self.leaf,
            span: raised_span(self.span, by),
            whole: raised_span(self.whole, by),
            owner: self.owner,
            depth: self.depth,
            first_key: self.first_key,
            keys: self.keys,
            comma_before: raised_there(self.comma_before, by),
            comma_after: raised_there(self.comma_after, by),
        }
    }

    #[inline(always)]
    fn can_raise(stored: &PackedValue, by: usize) -> bool {
        (stored.anchor as usize).wrapping_add(by) <= LONG
    }

    #[inline(always)]
    fn raise_packed(stored: &mut PackedValue, by: usize) {
        let old = *stored;
        stored.anchor = (old.anchor as usize).wrapping_add(by) as u32;
        stored.end = old.end.wrapping_add(by);
        stored.after = old.after.wrapping_add(by);
    }

    fn lowered(self, block: Option<usize>) -> ValueInfo {
        ValueInfo {
            leaf: self.leaf,
            span: lowered_span(self.span, block),
            whole: lowered_span(self.whole, block),
            owner: self.owner,
            depth: self.depth,
            first_key: self.first_key,
            keys: self.keys,
            comma_before: lowered_there(self.comma_before, block),
            comma_after: lowered_there(self.comma_after, block),
        }
    }
}

/// Only values are changed once they are stored, so these are not of every list.
impl PackedVec<ValueInfo, PackedValue> {
    /// Stores where the comma after a value is.
    pub fn set_comma(&mut self, number: usize, at: usize)
        requires { number < length (entries spec.unpacked_value raise_value self.old) }
        ensures change { spec.Changes (spec.with_comma at) number (entries spec.unpacked_value raise_value self.old)
            (entries spec.unpacked_value raise_value self.new) }
    {
        let after = lowered(at, block_move(&self.moves, number / BLOCK));
        if let Some(mut value) = self.unfit.find(number) {
            value.comma_after = Some(after);
            self.unfit.set(number, value);
        } else {
            let value = &mut self.packed[number];
            value.has_after = true;
            value.after = after;
        }
    }

    /// Stores where a value ends.
    pub fn set_end(&mut self, number: usize, end: usize)
        requires { number < length (entries spec.unpacked_value raise_value self.old) }
        ensures change { spec.Changes (spec.with_end end) number (entries spec.unpacked_value raise_value self.old)
            (entries spec.unpacked_value raise_value self.new) }
    {
        let end = lowered(end, block_move(&self.moves, number / BLOCK));
        if let Some(mut value) = self.unfit.find(number) {
            value.span.end = end;
            value.whole.end = end;
            self.unfit.set(number, value);
        } else {
            self.packed[number].end = end;
        }
    }
}
