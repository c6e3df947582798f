//! The paths of arrays of tables, by which most paths are known to be in none of them and above none.
ghost use Rattle.std.specs.Prelude.{◌≡◌, IfNone, IsTrue, List, None, OnOk};
ghost use Rattle.keep_edit_runs.specs.KnownArrays.{GoesOn, HasBeginning, HasPath, IsKnown};
ghost use Rattle.keep_edit_runs.specs.Seen.{number_of};
ghost use Rattle.keep_edit_spec.specs.Runs.{AreApart};
ghost use Rattle.keep_path.specs.Path.{Part, strip};

use crate::outline::Steps;
use crate::seen::{number_of, write_step};
use std::alloc::{AllocError, Global};
use std::collections::{HashMap, HashSet};
use std::hash::{FoldHasher, Hasher};

/// The paths of arrays in a list, by numbers that stand for them. Paths with other numbers are other paths. There are
/// at most 1,000, so that paths made to collide take little time.
#[derive(Drop)]
pub struct KnownArrays {
    // where each is in the list
    places: HashMap<u64, usize>,
    // all that their paths begin with, and they themselves
    beginnings: HashSet<u64>,
}

impl KnownArrays {
    /// None yet. It takes no memory.
    pub fn new(alloc: Global) -> KnownArrays
        ensures { (path : List Part) → (¬ HasPath result path) × (¬ HasBeginning result path) }
    {
        KnownArrays {
            places: HashMap::new(alloc),
            beginnings: HashSet::new(alloc),
        }
    }

    /// Adds the path of an array, which is at this place of the list.
    ///
    /// # Errors
    ///
    /// Out of memory.
    pub fn add(&mut self, array: &Steps, place: usize) -> Result<(), AllocError>
        ensures added { OnOk result (IsKnown self.new array.now) }
        ensures others { GoesOn self.old self.new }
    {
        let mut hasher = FoldHasher::default();
        for number in 0..array.len() {
            self.add_beginning(hasher.finish())?;
            write_step(&mut hasher, array, number);
        }
        self.add_beginning(hasher.finish())?;
        self.add_place(hasher.finish(), place)
    }

    /// Adds the number of what the path of an array begins with.
    ///
    /// # Errors
    ///
    /// Out of memory.
    fn add_beginning(&mut self, number: u64) -> Result<(), AllocError>
        ensures added { OnOk result ((path : List Part) → number ≡ number_of path → HasBeginning self.new path) }
        ensures others { GoesOn self.old self.new }
    {
        self.beginnings.insert(number)?;
        Ok(())
    }

    /// Adds the number of the path of an array.
    ///
    /// # Errors
    ///
    /// Out of memory.
    fn add_place(&mut self, number: u64, place: usize) -> Result<(), AllocError>
        ensures added { OnOk result ((path : List Part) → number ≡ number_of path → HasPath self.new path) }
        ensures others { GoesOn self.old self.new }
    {
        self.places.insert(number, place)?;
        Ok(())
    }

    /// Where in the list an array may be whose path this is. None where none is.
    pub fn at(&self, path: &Steps) -> Option<usize>
        ensures { IfNone result (¬ HasPath self.now path.now) }
    {
        self.place_of(number_of(path))
    }

    /// Where in the list an array may be at which a path is, or below which. None where none is.
    pub fn above(&self, path: &Steps) -> Option<usize>
        ensures { IfNone result ((array : List Part) → IsKnown self.now array → strip array path.now ≡ None) }
    {
        let mut hasher = FoldHasher::default();
        for number in 0..path.len() {
            if let Some(place) = self.place_of(hasher.finish()) {
                return Some(place);
            }
            write_step(&mut hasher, path, number);
        }
        self.place_of(hasher.finish())
    }

    /// Whether a path is known to be apart from those of all these arrays.
    pub fn are_apart(&self, path: &Steps) -> bool
        ensures { IsTrue result → (array : List Part) → IsKnown self.now array → AreApart array path.now }
    {
        self.above(path).is_none() && !self.beginnings.contains(&number_of(path))
    }

    /// Where in the list an array may be whose path has this number. None where none is.
    fn place_of(&self, number: u64) -> Option<usize>
        ensures { IfNone result ((path : List Part) → number ≡ number_of path → ¬ HasPath self.now path) }
    {
        Some(*self.places.get(&number)?)
    }
}
