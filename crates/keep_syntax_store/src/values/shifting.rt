//! Packed values whose numbers are moved.
ghost use Rattle.std.specs.Prelude.{◌≡◌};
ghost use Rattle.keep_syntax_store.specs.Shifting as spec;

use super::{PackedValue, Within};
use crate::moves::Counts;
use crate::shift::{Grow, Shift, Shifts, fits_u32, fits_usize};
use crate::widths::{SMALL, either_u32};

/// How many of what a value may be in come before.
fn owners_of(within: Within, counts: &Counts) -> usize
    ensures { result ≡ spec.owners_of within counts.now }
{
    match within {
        Within::Line => counts.statements,
        Within::Inline | Within::Item => counts.values,
    }
}

/// What is added to the number of what a value is in.
#[inline(always)]
fn owner_shift(within: Within, by: &Shifts) -> u32
    ensures { result ≡ spec.owner_shift within by.now }
{
    match within {
        Within::Line => by.statements,
        Within::Inline | Within::Item => by.values,
    }
}

impl Shift for PackedValue {
    ghost shifted = { spec.shifted_value };

    ghost CanShift = { spec.CanShiftValue };

    #[inline(always)]
    fn shift(&mut self, by: &Shifts) {
        self.anchor = self.anchor.wrapping_add(by.at);
        self.owner = self.owner.wrapping_add(owner_shift(self.within, by));
        self.first_key = self.first_key.wrapping_add(by.keys);
        self.end = self.end.wrapping_add(by.at_usize);
        if self.has_after {
            self.after = self.after.wrapping_add(by.at_usize);
        }
    }

    fn can_shift(self, old: &Counts, new: &Counts) -> bool {
        fits_u32(self.anchor, old.at, new.at)
            && fits_u32(
                self.owner,
                owners_of(self.within, old),
                owners_of(self.within, new),
            )
            && fits_u32(self.first_key, old.keys, new.keys)
            && fits_usize(self.end, old.at, new.at)
            && (!self.has_after || fits_usize(self.after, old.at, new.at))
    }
}

impl Grow for PackedValue {
    ghost IsSmallFrom = { spec.IsSmallValue };

    #[inline(always)]
    fn is_small_from(self, at: usize) -> bool {
        at <= self.anchor as usize && either_u32(self.owner, self.first_key) <= SMALL
    }

    #[inline(always)]
    fn joined(self, other: PackedValue) -> PackedValue {
        PackedValue {
            anchor: self.anchor.min(other.anchor),
            owner: either_u32(self.owner, other.owner),
            first_key: either_u32(self.first_key, other.first_key),
            ..self
        }
    }
}
