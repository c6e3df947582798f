//! Moves of blocks, brought into the packed entries in place, a block at a time.
ghost use Rattle.std.specs.Prelude.{◌≡◌, ◌<◌, ℕ, [], None, true, false, length, map, get_or, vec_len};
ghost use Rattle.std.specs.Bool.{Decides};
ghost use Rattle.std.specs.List.{AllByRecursion};
ghost use Rattle.keep_syntax_store.specs.PackedVec.{entries};

use crate::packed_vec::{BLOCK, Entry, PackedVec, block_move};

/// Whether all packed entries still fit once their places are moved on.
fn all_can_raise<T: Entry>(items: &[T::Packed], by: usize) -> bool
    ensures { Decides result (AllByRecursion (T.CanRaise by) items.now) }
{
    'items: for number in 0..items.len() {
        if !T::can_raise(&items[number], by) {
            return false;
        }
    }
    true
}

/// Moves the places of all packed entries on. A function of its own, since the compiler then knows how often the loop
/// runs, and takes several short entries at a time.
#[inline(never)]
fn raise_all<T: Entry>(items: &mut [T::Packed], by: usize)
    requires can { AllByRecursion (T.CanRaise by) items.old }
    ensures items { map T.unpacked items.new ≡ map (T.raise by) (map T.unpacked items.old) }
    ensures len { length items.new ≡ length items.old }
{
    'items: for number in 0..items.len() {
        T::raise_packed(&mut items[number], by);
    }
}

/// Moves the places of all packed entries on, if all still fit then.
#[inline(always)]
fn try_raise_all<T: Entry>(items: &mut [T::Packed], by: usize) -> bool
    ensures raised { result ≡ true → map T.unpacked items.new ≡ map (T.raise by) (map T.unpacked items.old) }
    ensures same { result ≡ false → items.new ≡ items.old }
    ensures len { length items.new ≡ length items.old }
{
    let can = all_can_raise::<T>(items, by);
    if can {
        raise_all::<T>(items, by);
    }
    can
}

/// Whether no block is moved.
fn are_still(moves: &[Option<usize>]) -> bool
    ensures { result ≡ true → (block : ℕ) → get_or moves.now block None ≡ None }
{
    'blocks: for block in 0..moves.len() {
        if moves[block].is_some() {
            return false;
        }
    }
    true
}

impl<T: Entry> PackedVec<T, T::Packed> {
    /// Brings the move of a block into its entries, if all still fit then.
    #[inline(always)]
    fn settle_block(&mut self, block: usize)
        requires there { block < vec_len self.old.moves }
        requires packed { self.old.unfit ≡ [] }
        ensures entries { entries T.unpacked T.raise self.new ≡ entries T.unpacked T.raise self.old }
        ensures packed { self.new.unfit ≡ [] }
        ensures len { vec_len self.new.moves ≡ vec_len self.old.moves }
    {
        if let Some(by) = block_move(&self.moves, block) {
            let len = self.packed.len();
            let start = block.saturating_mul(BLOCK).min(len);
            let end = start + BLOCK.min(len - start);
            if try_raise_all::<T>(&mut self.packed.as_mut_slice()[start..end], by) {
                self.moves[block] = None;
            }
        }
    }

    /// Brings the moves of blocks into the entries, without memory: if all are packed, those of the blocks whose
    /// entries still fit then.
    pub fn settle_in_place(&mut self)
        ensures { entries T.unpacked T.raise self.new ≡ entries T.unpacked T.raise self.old }
    {
        if self.unfit.is_empty() {
            'blocks: for block in 0..self.moves.len() {
                self.settle_block(block);
            }
            self.forget_still_blocks();
        }
    }

    /// Forgets that blocks aren't moved, if none is.
    fn forget_still_blocks(&mut self)
        ensures { entries T.unpacked T.raise self.new ≡ entries T.unpacked T.raise self.old }
    {
        if are_still(&self.moves) {
            self.moves.clear();
        }
    }
}
