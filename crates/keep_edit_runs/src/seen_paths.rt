//! The paths of edits of any kinds that are made at once, by which most are known to leave alone those before them.
ghost use Rattle.std.specs.Prelude.{◌≡◌, ◌+◌, ℕ, IfOk, IsTrue, List, OnOk, map, take};
ghost use Rattle.keep_edit_runs.specs.declared.outline.Outline.{Outline};
ghost use Rattle.keep_edit_plan.specs.Headers.{key_texts};
ghost use Rattle.keep_edit_runs.specs.Runs.{Allows, LeavesAlone, outlined};
ghost use Rattle.keep_edit_runs.specs.Seen.{number_of};
ghost use Rattle.keep_edit_runs.specs.SeenPaths.{BeginsInKey, GoesOn, HasBeginning, HasEnd, HasKey, HasKeyBeginning};
ghost use Rattle.keep_edit_runs.specs.SeenPaths.{HasKeyEnd, HasKeys, HasName, HasNew, HasPath, IsArraySeen, IsSeen};
ghost use Rattle.keep_edit_runs.specs.SeenPaths.{LacksAbove, MissesNames, MissesPath, keys_hashed, keys_number};
ghost use Rattle.keep_edit_spec.specs.ElementRuns.{IsElsewhere};
ghost use Rattle.keep_path.specs.Path.{Part, beside, key};

use crate::outline::{Outline, Steps};
use crate::seen::{number_beside, number_of, write_step};
use keep_rules::Step;
use std::alloc::{AllocError, Global};
use std::collections::HashSet;
use std::hash::{FoldHasher, Hasher};

/// Gives a hasher the step of a path with that number, if it is a key, after those before it.
fn write_key(hasher: &mut FoldHasher, path: &Steps, number: usize)
    requires { hasher.old ≡ keys_hashed (take number path.now) }
    ensures { hasher.new ≡ keys_hashed (take (number + 1) path.now) }
{
    if let Some(Step::Key(key)) = path.step(number) {
        hasher.write(key.as_bytes());
    }
}

/// A hasher that was given the keys of the first steps of a path.
fn keys_hashed(path: &Steps, count: usize) -> FoldHasher
    ensures { result ≡ keys_hashed (take count path.now) }
{
    let mut hasher = FoldHasher::default();
    for number in 0..count {
        write_key(&mut hasher, path, number);
    }
    hasher
}

/// The number of the keys of a path.
pub fn number_of_keys(path: &Steps) -> u64
    ensures { result ≡ keys_number path.now }
{
    keys_hashed(path, path.len()).finish()
}

/// That of the keys of a header.
pub fn number_of_header(keys: &[String]) -> u64
    ensures { result ≡ keys_number (map key (key_texts keys.now)) }
{
    let mut hasher = FoldHasher::default();
    for key in keys {
        hasher.write(key.as_bytes());
    }
    hasher.finish()
}

/// That of the path with another key in place of its last step.
fn number_of_keys_beside(path: &Steps, key: &str) -> u64
    ensures { result ≡ keys_number (beside path.now key.now) }
{
    let mut hasher = keys_hashed(path, path.len().saturating_sub(1));
    hasher.write(key.as_bytes());
    hasher.finish()
}

/// Whether the first step of a path is a key.
pub fn begins_in_key(path: &Steps) -> bool
    ensures { IsTrue result → BeginsInKey path.now }
{
    matches!(path.step(0), Some(Step::Key(_)))
}

/// The paths of edits and the keys of headers, each by a number that stands for it; and a path by that of its keys,
/// too, as headers have no other steps. Where the numbers are others, so are the paths, or the keys.
#[derive(Drop)]
pub struct SeenPaths<'a> {
    // those of paths and headers, and of the new paths of renames
    ends: HashSet<u64>,
    // those of all that these begin with, too
    beginnings: HashSet<u64>,
    // the keys of paths
    keys: HashSet<&'a str>,
    // the new keys of renames
    names: HashSet<&'a str>,
}

impl<'a> SeenPaths<'a> {
    /// No paths yet.
    pub fn new(alloc: Global) -> SeenPaths<'a> {
        SeenPaths {
            ends: HashSet::new(alloc),
            beginnings: HashSet::new(alloc),
            keys: HashSet::new(alloc),
            names: HashSet::new(alloc),
        }
    }

    /// Adds the paths of an edit. Returns whether they could be added: those of an edit whose path or header begins in
    /// no key are not.
    ///
    /// # Errors
    ///
    /// Out of memory.
    pub fn add(&mut self, outline: &Outline<'a>) -> Result<bool, AllocError>
        ensures seen { IfOk result (λ added. IsTrue added → IsSeen self.new outline.now) }
        ensures others { (other : Outline) → IsSeen self.old other → IsSeen self.new other }
    {
        match outline {
            Outline::Insert(path) | Outline::Remove(path) | Outline::Set(path) => {
                self.add_keys(path)?;
                self.add_path(path)
            }
            Outline::Rename(path, key) => {
                self.add_new(path, key)?;
                self.add_path(path)
            }
            Outline::Table(keys) | Outline::Element(keys) => self.add_names(keys),
        }
    }

    /// Adds a path, with each that it begins with. Returns whether it begins in a key.
    ///
    /// # Errors
    ///
    /// Out of memory.
    fn add_path(&mut self, path: &Steps) -> Result<bool, AllocError>
        ensures added { IfOk result (λ added. IsTrue added → HasPath self.new path.now) }
        ensures others { GoesOn self.old self.new }
    {
        if !begins_in_key(path) {
            return Ok(false);
        }
        let mut hasher = FoldHasher::default();
        for number in 0..path.len() {
            write_step(&mut hasher, path, number);
            self.add_beginning(hasher.finish())?;
        }
        self.add_end(hasher.finish())?;
        self.add_end(number_of_keys(path))?;
        Ok(true)
    }

    /// Adds the keys of a header in the same way. Returns whether there is one.
    ///
    /// # Errors
    ///
    /// Out of memory.
    fn add_names(&mut self, keys: &[String]) -> Result<bool, AllocError>
        ensures added { IfOk result (λ added. IsTrue added → HasPath self.new (map key (key_texts keys.now))) }
        ensures others { GoesOn self.old self.new }
    {
        if keys.is_empty() {
            return Ok(false);
        }
        let mut hasher = FoldHasher::default();
        for key in keys {
            hasher.write(key.as_bytes());
            self.add_beginning(hasher.finish())?;
        }
        self.add_end(hasher.finish())?;
        Ok(true)
    }

    /// Adds the keys of a path.
    ///
    /// # Errors
    ///
    /// Out of memory.
    fn add_keys(&mut self, path: &Steps<'a>) -> Result<(), AllocError>
        ensures added { OnOk result (HasKeys self.new path.now) }
        ensures others { GoesOn self.old self.new }
    {
        for number in 0..path.len() {
            let Some(Step::Key(key)) = path.step(number) else {
                continue;
            };
            self.add_key(key.as_str())?;
        }
        Ok(())
    }

    /// Adds the new path of a rename and its new key.
    ///
    /// # Errors
    ///
    /// Out of memory.
    fn add_new(&mut self, path: &Steps, key: &'a str) -> Result<(), AllocError>
        ensures added { OnOk result (HasNew self.new path.now key.now) }
        ensures others { GoesOn self.old self.new }
    {
        let number = number_beside(path, key);
        self.add_end(number)?;
        self.add_beginning(number)?;
        self.add_end(number_of_keys_beside(path, key))?;
        self.add_name(key)
    }

    /// Adds the number of a path or header, or of a new path, or of the keys of one.
    ///
    /// # Errors
    ///
    /// Out of memory.
    fn add_end(&mut self, number: u64) -> Result<(), AllocError>
        ensures added { OnOk result ((path : List Part) → number ≡ number_of path → HasEnd self.new path) }
        ensures keys { OnOk result ((path : List Part) → number ≡ keys_number path → HasKeyEnd self.new path) }
        ensures others { GoesOn self.old self.new }
    {
        self.ends.insert(number)?;
        Ok(())
    }

    /// Adds that of what one of these begins with.
    ///
    /// # Errors
    ///
    /// Out of memory.
    fn add_beginning(&mut self, number: u64) -> Result<(), AllocError>
        ensures added { OnOk result ((path : List Part) → number ≡ number_of path → HasBeginning self.new path) }
        ensures others { GoesOn self.old self.new }
    {
        self.beginnings.insert(number)?;
        Ok(())
    }

    /// Adds a key of a path.
    ///
    /// # Errors
    ///
    /// Out of memory.
    fn add_key(&mut self, key: &'a str) -> Result<(), AllocError>
        ensures added { OnOk result (HasKey self.new key.now) }
        ensures others { GoesOn self.old self.new }
    {
        self.keys.insert(key)?;
        Ok(())
    }

    /// Adds a new key.
    ///
    /// # Errors
    ///
    /// Out of memory.
    fn add_name(&mut self, key: &'a str) -> Result<(), AllocError>
        ensures added { OnOk result (HasName self.new key.now) }
        ensures others { GoesOn self.old self.new }
    {
        self.names.insert(key)?;
        Ok(())
    }

    /// Whether an edit is known by its paths to be left alone by each one whose paths were added, and to be elsewhere
    /// than in each array that was.
    pub fn leave_alone(&self, outline: &Outline) -> bool
        ensures alone { IsTrue result → (other : Outline) → IsSeen self.now other → LeavesAlone other outline.now }
        ensures elsewhere { IsTrue result
            → (array : List Part) → IsArraySeen self.now array → IsElsewhere array (outlined outline.now) }
    {
        match outline {
            Outline::Insert(path) | Outline::Remove(path) | Outline::Set(path) => {
                self.misses_path(path) && self.misses_names(path)
            }
            Outline::Rename(path, key) => self.misses_path(path) && self.misses_new(path, key),
            Outline::Table(keys) | Outline::Element(keys) => self.misses_keys(keys),
        }
    }

    /// Whether each edit whose paths were added is known by these to be elsewhere than in an array.
    pub fn are_elsewhere(&self, array: &Steps) -> bool
        ensures { IsTrue result
            → (other : Outline) → IsSeen self.now other → IsElsewhere array.now (outlined other) }
    {
        self.misses_path(array) && self.misses_names(array)
    }

    /// Whether each edit whose paths were added is known by these to allow the new key of a rename, the path of which
    /// may be one of them.
    pub fn allow(&self, outline: &Outline) -> bool
        ensures { IsTrue result → (other : Outline) → IsSeen self.now other → Allows other outline.now }
    {
        match outline {
            Outline::Rename(path, key) => self.lacks_ends_above(path) && self.misses_new(path, key),
            _ => false,
        }
    }

    /// Whether none of these is above a path.
    fn lacks_ends_above(&self, path: &Steps) -> bool
        ensures { IsTrue result → LacksAbove self.now path.now }
    {
        let mut hasher = FoldHasher::default();
        for number in 0..path.len().saturating_sub(1) {
            write_step(&mut hasher, path, number);
            if !self.lacks_end(hasher.finish()) {
                return false;
            }
        }
        true
    }

    /// Whether none of these begins with a path, nor the path with one of these, and no header begins with its keys.
    fn misses_path(&self, path: &Steps) -> bool
        ensures { IsTrue result → MissesPath self.now path.now }
    {
        if !begins_in_key(path) {
            return false;
        }
        let mut hasher = FoldHasher::default();
        for number in 0..path.len() {
            write_step(&mut hasher, path, number);
            if !self.lacks_end(hasher.finish()) {
                return false;
            }
        }
        self.lacks_beginning(hasher.finish()) && self.lacks_beginning(number_of_keys(path))
    }

    /// The same of the keys of a header.
    fn misses_keys(&self, keys: &[String]) -> bool
        ensures { IsTrue result → MissesPath self.now (map key (key_texts keys.now)) }
    {
        if keys.is_empty() {
            return false;
        }
        let mut hasher = FoldHasher::default();
        for key in keys {
            hasher.write(key.as_bytes());
            if !self.lacks_end(hasher.finish()) {
                return false;
            }
        }
        self.lacks_beginning(hasher.finish())
    }

    /// Whether no key of a path is the new key of a rename.
    fn misses_names(&self, path: &Steps) -> bool
        ensures { IsTrue result → MissesNames self.now path.now }
    {
        for number in 0..path.len() {
            if let Some(Step::Key(key)) = path.step(number) {
                if self.names.contains(key.as_str()) {
                    return false;
                }
            }
        }
        true
    }

    /// Whether none of these begins with a path, nor is any key of it the new key of a rename.
    pub fn lack_key(&self, path: &Steps) -> bool
        ensures { IsTrue result → ¬ HasBeginning self.now path.now × MissesNames self.now path.now }
    {
        self.lacks_beginning(number_of(path)) && self.misses_names(path)
    }

    /// Whether the path that a rename makes is none of these, nor one that they begin with, no header begins with its
    /// keys, and its new key is none of theirs.
    fn misses_new(&self, path: &Steps, key: &str) -> bool
        ensures path { IsTrue result → ¬ HasBeginning self.now (beside path.now key.now) }
        ensures keys { IsTrue result → ¬ HasKeyBeginning self.now (beside path.now key.now) }
        ensures key { IsTrue result → ¬ HasKey self.now key.now }
    {
        self.lacks_beginning(number_beside(path, key))
            && self.lacks_beginning(number_of_keys_beside(path, key))
            && !self.keys.contains(key)
    }

    /// Whether the number is that of none of these.
    fn lacks_end(&self, number: u64) -> bool
        ensures { IsTrue result → (path : List Part) → number ≡ number_of path → ¬ HasEnd self.now path }
    {
        !self.ends.contains(&number)
    }

    /// Whether it is that of nothing that these begin with.
    fn lacks_beginning(&self, number: u64) -> bool
        ensures path { IsTrue result → (path : List Part) → number ≡ number_of path → ¬ HasBeginning self.now path }
        ensures keys { IsTrue result
            → (path : List Part) → number ≡ keys_number path → ¬ HasKeyBeginning self.now path }
    {
        !self.beginnings.contains(&number)
    }
}
