//! Lists of a text's entries, each stored in few bytes where it fits.
ghost use Rattle.std.specs.Prelude.{◌≡◌, ◌+◌, ◌<◌, ◌≤◌, ◌++◌, ◌∷◌, [], None, Some, length, map, get_or, slice_get};
ghost use Rattle.std.specs.Prelude.{slice_range, IfOk, IfSome, OnOk, SomeIff};
ghost use Rattle.std.specs.Bool.{Decides};
ghost use Rattle.keep_syntax_store.specs.Blocks.{raise_by};
ghost use Rattle.keep_syntax_store.specs.Moving.{MovesRight};
ghost use Rattle.keep_syntax_store.specs.PackedVec.{IsAllPacked, IsRunOf, entries};

use crate::moves::Counts;
use crate::shift::Shift;
use crate::unfit::Unfit;
use std::alloc::{AllocError, Global};

/// How many packed entries are in a block.
pub const BLOCK: usize = 16;

/// An entry of such a list: how it is packed into few bytes, and how it is moved.
pub trait Entry: Copy {
    ghost use Rattle.std.specs.Prelude.{ℕ};
    ghost use Rattle.keep_syntax_store.specs.declared.moves.Counts.{Counts};

    /// The entry in few bytes.
    type Packed: Shift;

    ghost unpacked: { Self.Packed → Self };

    ghost Fits: { Self → Type 0 };

    ghost IsHeld: { Counts → Counts → Self → Type 0 };

    ghost moved: { Counts → Counts → Self → Self };

    ghost IsAfter: { Counts → ℕ → Self → Type 0 };

    ghost raise: { ℕ → Self → Self };

    ghost CanRaise: { ℕ → Self.Packed → Type 0 };

    /// The entry in few bytes, if it fits.
    fn packed(&self) -> Option<Self::Packed>
        ensures stored { IfSome result (λ stored. unpacked stored ≡ self.now) }
        ensures unpacked { result ≡ None → Fits self.now → ⊥ };

    /// What stands among the packed entries for one that doesn't fit.
    fn stand_in() -> Self::Packed;

    /// The entry that was packed.
    fn unpacked(stored: &Self::Packed) -> Self
        ensures { result ≡ unpacked stored.now };

    /// The entry moved from after one count to after another; None exactly where machine words don't hold its numbers.
    fn moved(&self, old: &Counts, new: &Counts) -> Option<Self>
        ensures { SomeIff result (IsHeld old.now new.now self.now) (moved old.now new.now self.now) };

    /// The entry with its places moved on; its numbers stay.
    fn raised(self, by: usize) -> Self
        ensures { result ≡ raise by self };

    /// Whether the packed entry still fits once its places are moved on.
    fn can_raise(stored: &Self::Packed, by: usize) -> bool
        ensures { Decides result (CanRaise by stored.now) };

    /// Moves the places of the packed entry on.
    fn raise_packed(stored: &mut Self::Packed, by: usize)
        requires { CanRaise by stored.old }
        ensures { unpacked stored.new ≡ raise by (unpacked stored.old) };

    /// The entry that a block's move makes this one.
    fn lowered(self, block: Option<usize>) -> Self
        ensures { raise_by raise block result ≡ self };
}

/// Entries in text order. One that doesn't fit into few bytes is in `unfit` by its number, with a stand-in at its place
/// in `packed`, so no number is too large to be stored. The places of entries are moved a block at a time: `moves` has
/// a number for each block that is moved, and is empty while nothing was replaced.
#[derive(Drop)]
pub struct PackedVec<T, P> {
    pub(crate) packed: Vec<P>,
    pub(crate) unfit: Unfit<T>,
    pub(crate) moves: Vec<Option<usize>>,
}

impl<T: Entry> PackedVec<T, T::Packed> {
    /// None yet.
    pub fn new(alloc: Global) -> Self
        ensures { entries T.unpacked T.raise result ≡ [] }
    {
        PackedVec {
            packed: Vec::new(alloc),
            unfit: Unfit::new(alloc),
            moves: Vec::new(alloc),
        }
    }

    /// None yet, with room for so many that are packed.
    pub fn with_room(alloc: Global, count: usize) -> Result<Self, AllocError>
        ensures { IfOk result (λ list. entries T.unpacked T.raise list ≡ []) }
    {
        Ok(PackedVec {
            packed: Vec::with_capacity(alloc, count)?,
            unfit: Unfit::new(alloc),
            moves: Vec::new(alloc),
        })
    }

    /// How many there are.
    pub fn len(&self) -> usize
        ensures { result ≡ length (entries T.unpacked T.raise self.now) }
    {
        self.packed.len()
    }

    /// The entry with this number.
    #[inline(always)]
    pub fn get(&self, number: usize) -> T
        requires { number < length (entries T.unpacked T.raise self.now) }
        ensures { slice_get (entries T.unpacked T.raise self.now) number ≡ Some result }
    {
        if !self.unfit.ends_by(number) {
            return self.get_among_unfit(number);
        }
        let entry = T::unpacked(&self.packed[number]);
        match block_move(&self.moves, number / BLOCK) {
            Some(by) => entry.raised(by),
            None => entry,
        }
    }

    /// The entry with this number, in whichever form it is stored.
    #[inline(never)]
    fn get_among_unfit(&self, number: usize) -> T
        requires { number < length (entries T.unpacked T.raise self.now) }
        ensures { slice_get (entries T.unpacked T.raise self.now) number ≡ Some result }
    {
        let entry = match self.unfit.find(number) {
            Some(entry) => entry,
            None => T::unpacked(&self.packed[number]),
        };
        match block_move(&self.moves, number / BLOCK) {
            Some(by) => entry.raised(by),
            None => entry,
        }
    }

    /// Adds one more.
    #[inline(always)]
    pub fn push(&mut self, entry: T) -> Result<(), AllocError>
        ensures { OnOk result (entries T.unpacked T.raise self.new
            ≡ entries T.unpacked T.raise self.old ++ entry ∷ []) }
    {
        if self.moves.is_empty() && self.unfit.ends_by(self.packed.len()) {
            if let Some(stored) = entry.packed() {
                self.packed.reserve(1)?;
                self.packed.push_reserved(stored);
                return Ok(());
            }
        }
        self.push_unfit(entry)
    }

    /// Adds one more that isn't packed.
    #[inline(never)]
    fn push_unfit(&mut self, entry: T) -> Result<(), AllocError>
        ensures { OnOk result (entries T.unpacked T.raise self.new
            ≡ entries T.unpacked T.raise self.old ++ entry ∷ []) }
    {
        let number = self.packed.len();
        let stored = entry.lowered(block_move(&self.moves, number / BLOCK));
        self.packed.reserve(1)?;
        self.unfit.push(number, stored)?;
        self.packed.push_reserved(T::stand_in());
        Ok(())
    }

    /// The packed form of the entry with this number, the move of its block brought in. None if it isn't packed, or
    /// doesn't fit once it is moved.
    #[inline(always)]
    fn settled(&self, number: usize) -> Option<T::Packed>
        requires { number < length (entries T.unpacked T.raise self.now) }
        ensures { IfSome result (λ stored.
            slice_get (entries T.unpacked T.raise self.now) number ≡ Some (T.unpacked stored)) }
    {
        if !self.unfit.lacks(number) {
            return None;
        }
        let stored = self.packed[number];
        match block_move(&self.moves, number / BLOCK) {
            Some(by) => raised_packed::<T>(stored, by),
            None => Some(stored),
        }
    }

    /// Adds the entry of another list with this number. It isn't unpacked where it is packed in both lists.
    #[inline(always)]
    fn push_same(&mut self, other: &Self, number: usize) -> Result<(), AllocError>
        requires { number < length (entries T.unpacked T.raise other.now) }
        ensures { OnOk result (entries T.unpacked T.raise self.new ≡ entries T.unpacked T.raise self.old
            ++ slice_range (entries T.unpacked T.raise other.now) number (number + 1)) }
    {
        if self.moves.is_empty() && self.unfit.ends_by(self.packed.len()) {
            if let Some(stored) = other.settled(number) {
                self.packed.reserve(1)?;
                self.packed.push_reserved(stored);
                return Ok(());
            }
        }
        self.push_unpacked(other, number)
    }

    /// Adds the entry of another list with this number, unpacked between the lists.
    #[inline(never)]
    fn push_unpacked(&mut self, other: &Self, number: usize) -> Result<(), AllocError>
        requires { number < length (entries T.unpacked T.raise other.now) }
        ensures { OnOk result (entries T.unpacked T.raise self.new ≡ entries T.unpacked T.raise self.old
            ++ slice_range (entries T.unpacked T.raise other.now) number (number + 1)) }
    {
        self.push(other.get(number))
    }

    /// Adds the entries of another list from number `from` up to number `to`, as they are.
    pub fn append_same(&mut self, other: &Self, from: usize, to: usize) -> Result<(), AllocError>
        requires order { from ≤ to }
        requires within { to ≤ length (entries T.unpacked T.raise other.now) }
        ensures { OnOk result (entries T.unpacked T.raise self.new ≡ entries T.unpacked T.raise self.old
            ++ slice_range (entries T.unpacked T.raise other.now) from to) }
    {
        'entries: for number in from..to {
            self.push_same(other, number)?;
        }
        Ok(())
    }

    /// Adds the entries of another list from number `from` up to number `to`, moved from after `old` to after `new`.
    pub fn append_moved(
        &mut self,
        other: &Self,
        from: usize,
        to: usize,
        old: &Counts,
        new: &Counts,
    ) -> Result<(), AllocError>
        requires order { from ≤ to }
        requires within { to ≤ length (entries T.unpacked T.raise other.now) }
        ensures { OnOk result (entries T.unpacked T.raise self.new ≡ entries T.unpacked T.raise self.old
            ++ map (T.moved old.now new.now) (slice_range (entries T.unpacked T.raise other.now) from to)) }
    {
        'entries: for number in from..to {
            let Some(entry) = other.get(number).moved(old, new) else {
                return Err(AllocError);
            };
            self.push(entry)?;
        }
        Ok(())
    }

    /// Whether the entries from a number up to another are so many.
    pub fn is_run(&self, from: usize, to: usize, count: usize) -> bool
        ensures { Decides result (IsRunOf from to count self.now) }
    {
        from <= to && to - from == count && to <= self.packed.len()
    }

    /// Whether all are packed, and no block is moved.
    #[inline(always)]
    pub fn is_packed(&self) -> bool
        ensures { Decides result (IsAllPacked self.now) }
    {
        self.unfit.is_empty() && self.moves.is_empty()
    }

    /// Brings the moves of blocks into the entries. After a refusal the same is stored.
    pub fn settle(&mut self, alloc: Global) -> Result<(), AllocError>
        ensures { MovesRight T.IsAfter T.moved T.raise
            → entries T.unpacked T.raise self.new ≡ entries T.unpacked T.raise self.old }
    {
        self.settle_in_place();
        if !self.moves.is_empty() {
            let count = self.len();
            let mut all = PackedVec::with_room(alloc, count)?;
            all.append_same(self, 0, count)?;
            *self = all;
        }
        Ok(())
    }
}

/// The packed entry with its places moved on, if it fits then.
#[inline(always)]
fn raised_packed<T: Entry>(mut stored: T::Packed, by: usize) -> Option<T::Packed>
    ensures { IfSome result (λ moved_on. T.unpacked moved_on ≡ T.raise by (T.unpacked stored)) }
{
    if !T::can_raise(&stored, by) {
        return None;
    }
    T::raise_packed(&mut stored, by);
    Some(stored)
}

/// By how much a block is moved.
#[inline(always)]
pub fn block_move(moves: &Vec<Option<usize>>, block: usize) -> Option<usize>
    ensures { result ≡ get_or moves.now.items block None }
{
    if block < moves.len() {
        moves[block]
    } else {
        None
    }
}
