//! Packed key parts whose places are moved.
ghost use Rattle.keep_syntax_store.specs.Shifting as spec;

use super::PackedKeyPart;
use crate::moves::Counts;
use crate::shift::{Shift, Shifts, fits_u32};

impl Shift for PackedKeyPart {
    ghost shifted = { spec.shifted_key };

    ghost CanShift = { spec.CanShiftKey };

    #[inline(always)]
    fn shift(&mut self, by: &Shifts) {
        self.start = self.start.wrapping_add(by.at);
    }

    fn can_shift(self, old: &Counts, new: &Counts) -> bool {
        fits_u32(self.start, old.at, new.at)
    }
}
