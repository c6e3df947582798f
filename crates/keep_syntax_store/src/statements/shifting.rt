//! Packed statements whose numbers are moved.
ghost use Rattle.keep_syntax_store.specs.Shifting as spec;

use super::PackedStatement;
use crate::moves::Counts;
use crate::shift::{Grow, Shift, Shifts, fits_u32};
use crate::widths::{SMALL, either_u32};

impl Shift for PackedStatement {
    ghost shifted = { spec.shifted_statement };

    ghost CanShift = { spec.CanShiftStatement };

    #[inline(always)]
    fn shift(&mut self, by: &Shifts) {
        self.line_start = self.line_start.wrapping_add(by.at);
        self.end = self.end.wrapping_add(by.at);
        self.first_key = self.first_key.wrapping_add(by.keys);
        if self.has_value {
            self.value = self.value.wrapping_add(by.values);
        }
    }

    fn can_shift(self, old: &Counts, new: &Counts) -> bool {
        fits_u32(self.line_start, old.at, new.at)
            && fits_u32(self.end, old.at, new.at)
            && fits_u32(self.first_key, old.keys, new.keys)
            && (!self.has_value || fits_u32(self.value, old.values, new.values))
    }
}

impl Grow for PackedStatement {
    ghost IsSmallFrom = { spec.IsSmallStatement };

    #[inline(always)]
    fn is_small_from(self, _at: usize) -> bool {
        either_u32(self.first_key, self.value) <= SMALL
    }

    #[inline(always)]
    fn joined(self, other: PackedStatement) -> PackedStatement {
        PackedStatement {
            first_key: either_u32(self.first_key, other.first_key),
            value: either_u32(self.value, other.value),
            ..self
        }
    }
}
