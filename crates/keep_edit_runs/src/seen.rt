//! The paths of edits of one kind that are made at once, by which most are known to leave alone those before them.
ghost use Rattle.std.specs.Prelude.{◌≡◌, ◌+◌, ◌≤◌, ℕ, All, IfOk, IsTrue, List, OnOk, length, map, take, true};
ghost use Rattle.keep_edit_runs.specs.declared.outline.Outline.{Outline};
ghost use Rattle.keep_edit_runs.specs.Runs.{Allows, LeavesAlone, outlined};
ghost use Rattle.keep_edit_runs.specs.Seen.{GoesOn, HasPath, IsSeen, hashed, number_of};
ghost use Rattle.keep_edit_plan.specs.Headers.{key_texts};
ghost use Rattle.keep_edit_spec.specs.Runs.{is_insert};
ghost use Rattle.keep_path.specs.Path.{Part, beside, key};

use crate::alike::leave_alone_within;
use crate::outline::{Outline, Steps};
use keep_rules::Step;
use std::alloc::{AllocError, Global};
use std::collections::HashSet;
use std::hash::{FoldHasher, Hasher};

/// Gives a hasher the step of a path with that number, after those before it.
pub fn write_step(hasher: &mut FoldHasher, path: &Steps, number: usize)
    requires { hasher.old ≡ hashed (take number path.now) }
    ensures { hasher.new ≡ hashed (take (number + 1) path.now) }
{
    match path.step(number) {
        Some(Step::Key(key)) => hasher.write(key.as_bytes()),
        Some(Step::Index(index)) => hasher.write_usize(*index),
        None => {}
    }
}

/// A hasher that was given the first steps of a path.
fn hashed(path: &Steps, count: usize) -> FoldHasher
    ensures { result ≡ hashed (take count path.now) }
{
    let mut hasher = FoldHasher::default();
    for number in 0..count {
        write_step(&mut hasher, path, number);
    }
    hasher
}

/// The number that stands for a path.
pub fn number_of(path: &Steps) -> u64
    ensures { result ≡ number_of path.now }
{
    hashed(path, path.len()).finish()
}

/// That of the path with another key in place of its last step.
pub fn number_beside(path: &Steps, key: &str) -> u64
    ensures { result ≡ number_of (beside path.now key.now) }
{
    let mut hasher = hashed(path, path.len().saturating_sub(1));
    hasher.write(key.as_bytes());
    hasher.finish()
}

/// That of the keys of a header.
fn number_of_keys(keys: &[String]) -> u64
    ensures { result ≡ number_of (map key (key_texts keys.now)) }
{
    let mut hasher = FoldHasher::default();
    for key in keys {
        hasher.write(key.as_bytes());
    }
    hasher.finish()
}

/// The paths that tell apart edits of one kind, each by a number that stands for it: those of inserts, renames and
/// headers of tables, and the new ones of renames. Paths with other numbers are other paths. There are at most 2,000,
/// so that paths made to collide take little time. Elements with as many keys leave one another alone, whatever these
/// are.
#[derive(Drop)]
pub struct SeenKeys<'a> {
    first: Outline<'a>,
    paths: HashSet<u64>,
    /// Whether all elements that were added have as many keys as the first.
    are_alike: bool,
}

impl<'a> SeenKeys<'a> {
    /// No paths yet, for edits of the kind of this one.
    pub fn new(alloc: Global, first: Outline<'a>) -> SeenKeys<'a> {
        SeenKeys {
            first,
            paths: HashSet::new(alloc),
            are_alike: true,
        }
    }

    /// Adds the paths of an edit. Returns whether they could be added: those of an edit of another kind are not.
    ///
    /// # Errors
    ///
    /// Out of memory.
    pub fn add(&mut self, outline: &Outline) -> Result<bool, AllocError>
        ensures seen { IfOk result (λ added. IsTrue added → IsSeen self.new outline.now) }
        ensures others { (other : Outline) → IsSeen self.old other → IsSeen self.new other }
    {
        match (&self.first, outline) {
            (Outline::Insert(_), Outline::Insert(path)) => self.add_number(number_of(path)),
            (Outline::Rename(_, _), Outline::Rename(path, key)) => {
                self.add_number(number_of(path))?;
                self.add_number(number_beside(path, key))
            }
            (Outline::Table(_), Outline::Table(keys)) => self.add_number(number_of_keys(keys)),
            (Outline::Element(keys), Outline::Element(more)) => {
                self.are_alike = self.are_alike && keys.len() == more.len();
                Ok(true)
            }
            (Outline::Remove(_), Outline::Remove(_)) | (Outline::Set(_), Outline::Set(_)) => {
                Ok(true)
            }
            _ => Ok(false),
        }
    }

    /// Adds the number of a path.
    ///
    /// # Errors
    ///
    /// Out of memory.
    fn add_number(&mut self, number: u64) -> Result<bool, AllocError>
        ensures added { OnOk result ((path : List Part) → number ≡ number_of path → HasPath self.new path) }
        ensures others { GoesOn self.old self.new }
    {
        self.paths.insert(number)?;
        Ok(true)
    }

    /// Whether an edit is known by its paths to leave alone each one whose paths were added.
    pub fn leaves_alone(&self, outline: &Outline) -> bool
        ensures { IsTrue result → (other : Outline) → IsSeen self.now other → LeavesAlone other outline.now }
    {
        match (&self.first, outline) {
            (Outline::Insert(_), Outline::Insert(path)) => self.lacks(number_of(path)),
            (Outline::Rename(_, _), Outline::Rename(path, key)) => {
                self.lacks(number_beside(path, key)) && self.lacks_all_above(path)
            }
            (Outline::Table(_), Outline::Table(keys)) => self.lacks(number_of_keys(keys)),
            (Outline::Element(keys), Outline::Element(more)) => {
                self.are_alike && keys.len() == more.len()
            }
            (Outline::Remove(_), Outline::Remove(_)) | (Outline::Set(_), Outline::Set(_)) => true,
            _ => false,
        }
    }

    /// Whether an edit is known to be left alone by each of some whose paths were added, by its paths or as they are
    /// compared, within so many pairs. Then its paths are added.
    pub fn keep_alone(&mut self, left: &mut usize, outlines: &[Outline], outline: &Outline) -> bool
        requires { All (IsSeen self.old) outlines.now }
        ensures alone { IsTrue result → All (λ y. LeavesAlone y outline.now) outlines.now }
        ensures seen { IsTrue result → IsSeen self.new outline.now }
        ensures others { (other : Outline) → IsSeen self.old other → IsSeen self.new other }
    {
        if outline.has_long_path()
            || !(self.leaves_alone(outline) || leave_alone_within(left, outlines, outline))
        {
            return false;
        }
        self.add(outline).unwrap_or(false)
    }

    /// Whether each edit whose paths were added is known by these to allow the new key of a rename, the path of which
    /// may be one of them.
    pub fn allow(&self, outline: &Outline) -> bool
        ensures { IsTrue result → (other : Outline) → IsSeen self.now other → Allows other outline.now }
    {
        match (&self.first, outline) {
            (Outline::Rename(_, _), Outline::Rename(path, key)) => {
                self.lacks(number_beside(path, key)) && self.lacks_all_above(&path.parent())
            }
            _ => false,
        }
    }

    /// Whether the edits whose paths were added are inserts.
    pub fn is_of_inserts(&self) -> bool
        ensures { IsTrue result → (other : Outline) → IsSeen self.now other → is_insert (outlined other) ≡ true }
    {
        matches!(self.first, Outline::Insert(_))
    }

    /// Whether the path of a number is none of these.
    fn lacks(&self, number: u64) -> bool
        ensures { IsTrue result → (path : List Part) → number ≡ number_of path → ¬ HasPath self.now path }
    {
        !self.paths.contains(&number)
    }

    /// Whether none of these is a path or one above it.
    fn lacks_all_above(&self, path: &Steps) -> bool
        ensures { IsTrue result → (n : ℕ) → n ≤ length path.now → ¬ HasPath self.now (take n path.now) }
    {
        let mut hasher = FoldHasher::default();
        for number in 0..path.len() {
            if !self.lacks(hasher.finish()) {
                return false;
            }
            write_step(&mut hasher, path, number);
        }
        self.lacks(hasher.finish())
    }
}
