//! Key parts as entries of a list: packed into 8 bytes, and moved.
mod shifting;

use crate::moves::{Counts, moved_key};
use crate::packed_vec::Entry;
use crate::places::{lowered_span, raised_span};
use crate::widths::{LONG, SHORT, distance};
use keep_types::{KeyPart, Leaf, Span};

/// A key part in 8 bytes: where it starts, and how many bytes it has.
#[derive(Clone, Copy)]
pub struct PackedKeyPart {
    start: u32,
    len: u16,
    leaf: Leaf,
}

impl Entry for KeyPart {
    ghost use Rattle.keep_syntax_store.specs.Fits.{FitsKey};
    ghost use Rattle.keep_syntax_store.specs.Flat.{unpacked_key_part};
    ghost use Rattle.keep_syntax_store.specs.After as after;
    ghost use Rattle.keep_syntax_store.specs.Held as held;
    ghost use Rattle.keep_syntax_store.specs.Lifted as lifted;
    ghost use Rattle.keep_syntax_store.specs.Rereading.{count_of};
    ghost use Rattle.keep_syntax_store.specs.Blocks.{raise_key};
    ghost use Rattle.keep_syntax_store.specs.Raising.{CanRaiseKey};

    type Packed = PackedKeyPart;

    ghost unpacked = { unpacked_key_part };

    ghost Fits = { FitsKey };

    ghost IsHeld = { λ old new. held.IsHeldKey (count_of old) (count_of new) };

    ghost moved = { λ old new. lifted.moved_key (count_of old) (count_of new) };

    ghost IsAfter = { λ c. after.IsAfterKey (count_of c) };

    ghost raise = { raise_key };

    ghost CanRaise = { CanRaiseKey };

    #[inline(always)]
    fn packed(&self) -> Option<PackedKeyPart> {
        let start = self.span.start;
        let len = distance(start, self.span.end);
        if len > SHORT || start > LONG {
            return None;
        }
        Some(PackedKeyPart {
            start: start as u32,
            len: len as u16,
            leaf: self.leaf,
        })
    }

    fn stand_in() -> PackedKeyPart {
        PackedKeyPart {
            start: 0,
            len: 0,
            leaf: Leaf::Ws,
        }
    }

    fn unpacked(stored: &PackedKeyPart) -> KeyPart {
        let start = stored.start as usize;
        KeyPart {
            leaf: stored.leaf,
            span: Span {
                start,
                end: start + stored.len as usize,
            },
        }
    }

    fn moved(&self, old: &Counts, new: &Counts) -> Option<KeyPart> {
        moved_key(*self, old, new)
    }

    fn raised(self, by: usize) -> KeyPart {
        KeyPart {
            leaf: self.leaf,
            span: raised_span(self.span, by),
        }
    }

    #[inline(always)]
    fn can_raise(stored: &PackedKeyPart, by: usize) -> bool {
        (stored.start as usize).wrapping_add(by) <= LONG
    }

    #[inline(always)]
    fn raise_packed(stored: &mut PackedKeyPart, by: usize) {
        let old = *stored;
        stored.start = (old.start as usize).wrapping_add(by) as u32;
    }

    fn lowered(self, block: Option<usize>) -> KeyPart {
        KeyPart {
            leaf: self.leaf,
            span: lowered_span(self.span, block),
        }
    }
}
