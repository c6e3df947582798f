//! The entries of a list that don't fit into few bytes, each kept apart with its number.
ghost use Rattle.std.specs.Prelude.{◌≡◌, ◌≢◌, ◌<◌, ◌++◌, [], ◌∷◌, None, Some, true, length, slice_get, option_map};
ghost use Rattle.std.specs.Prelude.{IfSome, OnOk};
ghost use Rattle.std.specs.Bool.{Decides};
ghost use Rattle.keep_syntax_store.specs.Unfit as spec;
ghost use Rattle.keep_syntax_store.specs.declared.unfit.Numbered.{Numbered};

use std::alloc::{AllocError, Global};
use std::marker::Model;

/// An entry, and its number in the list.
#[derive(Clone, Copy)]
pub struct Numbered<T> {
    pub number: usize,
    pub entry: T,
}

/// Entries by ascending numbers, all of which are before `end`.
#[derive(Drop)]
pub struct Unfit<T> {
    items: Vec<Numbered<T>>,
    end: usize,
}

impl<T> Model for Unfit<T> {
    ghost use Rattle.std.specs.Prelude.{List};
    ghost use Rattle.keep_syntax_store.specs.declared.unfit.Numbered.{Numbered};
    ghost use Rattle.keep_syntax_store.specs.Unfit.{Ascend};

    ghost Value = { List (Numbered T) };

    ghost view = { λ u. u.items.items };

    ghost invariant = { λ u. Ascend 0 u.items.items u.end };
}

impl<T: Copy> Unfit<T> {
    /// None yet.
    pub fn new(alloc: Global) -> Self
        ensures { result ≡ [] }
    {
        Unfit {
            items: Vec::new(alloc),
            end: 0,
        }
    }

    /// Whether there is none.
    #[inline(always)]
    pub fn is_empty(&self) -> bool
        ensures { Decides result (self.now ≡ []) }
    {
        self.items.is_empty()
    }

    /// Whether none has this number or a later one.
    #[inline(always)]
    pub fn ends_by(&self, number: usize) -> bool
        ensures { result ≡ true → spec.AreBefore number self.now }
    {
        self.end <= number
    }

    /// Whether none has this number.
    #[inline(always)]
    pub fn lacks(&self, number: usize) -> bool
        ensures { result ≡ true → spec.found number self.now ≡ None }
    {
        self.ends_by(number) || self.place_of(number).is_none()
    }

    /// The entry with this number.
    #[inline(always)]
    pub fn find(&self, number: usize) -> Option<T>
        ensures { result ≡ spec.found number self.now }
    {
        if self.end <= number {
            None
        } else {
            self.search(number)
        }
    }

    /// The entry with this number, by a binary search.
    #[inline(never)]
    fn search(&self, number: usize) -> Option<T>
        ensures { result ≡ spec.found number self.now }
    {
        match self.place_of(number) {
            Some(place) => Some(self.items[place].entry),
            None => None,
        }
    }

    /// How many have a number before this one.
    fn count_before(&self, number: usize) -> usize
        ensures { spec.CountsBefore number self.now result }
    {
        self.items
            .as_slice()
            .partition_point(|item| item.number < number)
    }

    /// Where in this list the entry with a number stands.
    fn place_of(&self, number: usize) -> Option<usize>
        ensures some { IfSome result (λ place.
            option_map (λ (u : Numbered T). u.number) (slice_get self.now place) ≡ Some number) }
        ensures none { result ≡ None → spec.found number self.now ≡ None }
    {
        let len = self.items.len();
        let back = self.end.wrapping_sub(number);
        if back > 0 && back <= len && self.items[len - back].number == number {
            // all after it are there too, as at the end of a text of 4 GiB or more
            return Some(len - back);
        }
        let place = self.count_before(number);
        if place < self.items.len() && self.items[place].number == number {
            Some(place)
        } else {
            None
        }
    }

    /// Whether none has a number from `from` on and before `to`.
    pub fn is_free(&self, from: usize, to: usize) -> bool
        ensures { result ≡ true → spec.IsFree from to self.now }
    {
        let place = self.count_before(from);
        place >= self.items.len() || to <= self.items[place].number
    }

    /// Adds one more, whose number is after all others.
    pub fn push(&mut self, number: usize, entry: T) -> Result<(), AllocError>
        ensures more { OnOk result (self.new ≡ self.old ++ spec.numbered number entry ∷ []) }
        ensures before { OnOk result (spec.AreBefore number self.old) }
    {
        let Some(end) = number.checked_add(1) else {
            return Err(AllocError);
        };
        if number < self.end {
            return Err(AllocError);
        }
        self.items.push(Numbered { number, entry })?;
        self.end = end;
        Ok(())
    }

    /// Stores another entry in place of the one with this number.
    pub fn set(&mut self, number: usize, entry: T)
        requires { spec.found number self.old ≢ None }
        ensures { spec.IsChangedAt number entry self.old self.new }
    {
        if let Some(place) = self.place_of(number) {
            self.items[place].entry = entry;
        }
    }
}
