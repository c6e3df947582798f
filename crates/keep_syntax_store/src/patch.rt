//! Entries of a list that change places with as many others; the blocks after them are moved.
ghost use Rattle.std.specs.Prelude.{◌≡◌, ℕ, ◌+◌, ◌<◌, ◌≤◌, ◌++◌, None, length, map, take, drop, get_or};
ghost use Rattle.std.specs.Prelude.{slice_range, IfOk, IfSome, OnOk};
ghost use Rattle.std.specs.List.{AllByRecursion};
ghost use Rattle.keep_syntax_store.specs.Blocks as blocks;
ghost use Rattle.keep_syntax_store.specs.Moving.{MovesRight, OnlyPlacesMove};
ghost use Rattle.keep_syntax_store.specs.Rereading as rereading;
ghost use Rattle.keep_syntax_store.specs.PackedVec as spec;

use crate::moves::RunCounts;
use crate::packed_vec::{BLOCK, Entry, PackedVec, block_move};
use crate::rereading::nothing;
use std::alloc::{AllocError, Global};
use std::mem;

/// Packed entries for the place of as many from a number on, and what each block is moved by then.
#[derive(Drop)]
pub struct Patch<P> {
    from: usize,
    run: Vec<P>,
    moves: Vec<Option<usize>>,
}

/// What a block is moved by that is moved once more.
fn moved_on(by: usize, block: Option<usize>) -> Option<usize>
    ensures { result ≡ blocks.moved_on by block }
{
    Some(match block {
        Some(more) => more.wrapping_add(by),
        None => by,
    })
}

/// What a block is moved by after an edit that rewrites the entries of those from `first` up to `after`.
#[inline(always)]
fn next_move(
    moves: &Vec<Option<usize>>,
    first: usize,
    after: usize,
    by: usize,
    block: usize,
) -> Option<usize>
    ensures { result ≡ blocks.move_after first after by moves.now.items block }
{
    let now = block_move(moves, block);
    if block < first {
        now
    } else if block < after {
        None
    } else {
        moved_on(by, now)
    }
}

/// What all blocks are moved by then, of which there are so many.
fn next_moves(
    alloc: Global,
    moves: &Vec<Option<usize>>,
    first: usize,
    after: usize,
    count: usize,
    by: usize,
) -> Result<Vec<Option<usize>>, AllocError>
    ensures { IfOk result (λ next. (block : ℕ) → block < count
        → get_or next.items block None ≡ blocks.move_after first after by moves.now.items block) }
{
    let mut next = Vec::with_capacity(alloc, count)?;
    'blocks: for block in 0..count {
        next.push_reserved(next_move(moves, first, after, by, block));
    }
    Ok(next)
}

/// The elements from a number on and as many others change places.
fn swap_range<T>(items: &mut [T], from: usize, run: &mut [T])
    requires { from + length run.old ≤ length items.old }
    ensures items { items.new ≡ spec.with_run items.old from run.old }
    ensures run { run.new ≡ slice_range items.old from (from + length run.old) }
    ensures len { length run.new ≡ length run.old }
{
    let to = from + run.len();
    items[from..to].swap_with_slice(run);
}

impl<T: Entry> PackedVec<T, T::Packed> {
    /// Adds entries of another list, all packed and in one block. They are copied as they are stored where that block
    /// is not moved, and this list has no moves and all of it is packed.
    fn append_as_stored(&mut self, other: &Self, from: usize, to: usize) -> Result<(), AllocError>
        requires { spec.IsPackedRun from to other.now }
        ensures { MovesRight T.IsAfter T.moved T.raise → OnOk result (spec.entries T.unpacked T.raise self.new
            ≡ spec.entries T.unpacked T.raise self.old
            ++ slice_range (spec.entries T.unpacked T.raise other.now) from to) }
    {
        if self.is_packed() && block_move(&other.moves, from / BLOCK).is_none() {
            self.packed.extend_from_slice(&other.packed[from..to])?;
            return Ok(());
        }
        self.append_same(other, from, to)
    }

    /// The entries of the blocks that a run is in, with other entries in the place of the run, and all blocks after
    /// them moved. None if one of the entries in these blocks isn't packed.
    pub fn patch(
        &self,
        alloc: Global,
        fresh: &Self,
        run: (usize, usize),
        counts: &RunCounts,
    ) -> Result<Option<Patch<T::Packed>>, AllocError>
        requires run { spec.IsRunOf run.0 run.1 (length (spec.entries T.unpacked T.raise fresh.now)) self.now }
        requires places { OnlyPlacesMove counts.now.len counts.now.to counts.now.until }
        requires after { AllByRecursion (T.IsAfter counts.now.to counts.now.len)
            (drop run.1 (spec.entries T.unpacked T.raise self.now)) }
        ensures { MovesRight T.IsAfter T.moved T.raise → IfOk result (λ made. IfSome made (λ c.
            spec.Gives T.unpacked T.raise self.now c (take run.0 (spec.entries T.unpacked T.raise self.now)
            ++ (map (T.moved rereading.nothing counts.now.from) (spec.entries T.unpacked T.raise fresh.now)
            ++ map (T.moved counts.now.to counts.now.until)
            (drop run.1 (spec.entries T.unpacked T.raise self.now)))))) }
    {
        let (from, to) = run;
        let first = from / BLOCK;
        let start = first * BLOCK;
        let after = to / BLOCK + 1;
        let count = self.packed.len();
        let end = to + (count - to).min(BLOCK - to % BLOCK);
        if !self.unfit.is_free(start, end) {
            return Ok(None);
        }
        let zero = nothing();
        let mut all = PackedVec::with_room(alloc, end - start)?;
        all.append_as_stored(self, start, from)?;
        all.append_moved(fresh, 0, fresh.len(), &zero, &counts.from)?;
        all.append_moved(self, to, end, &counts.to, &counts.until)?;
        if !all.is_packed() {
            return Ok(None);
        }
        let by = counts.until.at.wrapping_sub(counts.to.at);
        let moves = next_moves(alloc, &self.moves, first, after, count / BLOCK + 1, by)?;
        Ok(Some(Patch {
            from: start,
            run: all.packed,
            moves,
        }))
    }

    /// The entries of a patch and those in their place change places, and so do the moves of all blocks.
    pub fn exchange_patch(&mut self, patch: &mut Patch<T::Packed>)
        requires { spec.IsWithin self.old patch.old }
        ensures { spec.IsPatched self.old patch.old self.new patch.new }
    {
        swap_range(
            self.packed.as_mut_slice(),
            patch.from,
            patch.run.as_mut_slice(),
        );
        mem::swap(&mut self.moves, &mut patch.moves);
    }
}
