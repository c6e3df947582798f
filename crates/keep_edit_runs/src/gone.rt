//! The elements of arrays of tables that removes in a row take, one after another.
//!
//! Each array has the numbers of its own. An element of one leads back no path but those in its array, and no array is
//! at another or below it: so each path is led back by the numbers of one array at most, and the order in which
//! elements of two arrays went does not matter.
ghost use Rattle.std.specs.Prelude.{◌≡◌, ◌≢◌, ◌↔◌, ◌<◌, ◌++◌, ◌∷◌, [], ℕ, IfNone, IfSome, IsNone, IsTrue, None, Some};
ghost use Rattle.std.specs.Prelude.{◌+◌, All, drop, length, slice_get, take};
ghost use Rattle.std.specs.Bool.{Decides};
ghost use Rattle.std.specs.List.{HoldsAt};
ghost use Rattle.keep_path.specs.Path.{index, last_part, strip};
ghost use Rattle.keep_edit_spec.specs.AddedItems.{item_path};
ghost use Rattle.keep_edit_spec.specs.ElementRuns.{changed_path};
ghost use Rattle.keep_edit_spec.specs.RemovedHeaders.{first_path};
ghost use Rattle.keep_edit_runs.specs.Gone.{AreKnown, IsGoneWith, element_paths, first_number};

use crate::alike::{is_same, is_within};
use crate::known_arrays::KnownArrays;
use crate::outline::{Steps, index_at};
use keep_edit_plan::{first_steps, push_step};
use keep_rules::Path;
use std::alloc::Global;
use std::marker::Model;

/// An array of tables, and the numbers that elements of it had when they went, one after another.
#[derive(Drop)]
struct GoneArray {
    array: Path,
    numbers: Vec<usize>,
}

impl Model for GoneArray {
    ghost use Rattle.keep_edit_runs.specs.Gone.{GoneNumbers};

    ghost Value = { GoneNumbers };

    ghost view = { λ g. record { array = g.array; numbers = g.numbers.items } };
}

impl GoneArray {
    /// An array of which one element went; None where memory was refused.
    fn of_one(alloc: Global, array: &Steps, number: usize) -> Option<GoneArray>
        ensures { IfSome result (λ gone. gone ≡ record { array = array.now; numbers = number ∷ [] }) }
    {
        let array = array.to_path(alloc)?;
        let mut numbers = Vec::new(alloc);
        numbers.push(number).ok()?;
        Some(GoneArray { array, numbers })
    }

    /// Whether a path is at the array's or below it.
    fn is_above(&self, path: &Steps) -> bool
        ensures { Decides result (strip self.now.array path.now ≢ None) }
    {
        is_within(path, &Steps::of(&self.array))
    }

    /// Whether a path is the array's.
    fn is_at(&self, path: &Steps) -> bool
        ensures { Decides result (path.now ≡ self.now.array) }
    {
        is_same(path, &Steps::of(&self.array))
    }

    /// Adds the number of an element, which goes after them. Returns whether it was added: it is not where memory was
    /// refused.
    fn add(&mut self, number: usize) -> bool
        ensures array { self.new.array ≡ self.old.array }
        ensures added { IsTrue result → self.new.numbers ≡ self.old.numbers ++ number ∷ [] }
    {
        self.numbers.push(number).is_ok()
    }

    /// The path that an element of the array, or what is below one, had before they went. None where the path is that
    /// of the array, and where memory was refused.
    fn first_path(&self, alloc: Global, path: &Path) -> Option<Path>
        requires { strip self.now.array path.now ≢ None }
        ensures { IfSome result (λ first. first ≡ first_path (element_paths self.now.array self.now.numbers) path.now) }
    {
        let at = self.array.len();
        let number = index_at(path, at)?;
        let first = first_number(self.numbers.as_slice(), number)?;
        with_index(alloc, path, at, first)
    }
}

/// Elements of arrays of tables, each by the number that it had when it went. Contracts see their paths.
#[derive(Drop)]
pub struct GoneElements {
    arrays: Vec<GoneArray>,
    known: KnownArrays,
}

impl Model for GoneElements {
    ghost use Rattle.std.specs.Prelude.{List};
    ghost use Rattle.keep_path.specs.Path.{Part};
    ghost use Rattle.keep_edit_runs.specs.Gone.{AreArraysApart, AreKnown, gone_paths};

    ghost Value = { List (List Part) };

    ghost view = { λ g. gone_paths g.arrays.items };

    ghost invariant = { λ g. AreArraysApart g.arrays.items × AreKnown g.known g.arrays.items };
}

impl GoneElements {
    /// None yet. It takes no memory.
    pub fn new(alloc: Global) -> GoneElements
        ensures { result ≡ [] }
    {
        GoneElements {
            arrays: Vec::new(alloc),
            known: KnownArrays::new(alloc),
        }
    }

    /// Where among the arrays this one may be; None where none of these is an element of it.
    pub fn place_of(&self, array: &Steps) -> Option<usize>
        ensures { IfNone result ((n : ℕ) → All (λ path. path ≢ item_path array.now n) self.now) }
    {
        self.known.at(array)
    }

    /// Whether a path is elsewhere than at one of their arrays or below it: so it was the same before they went.
    pub fn leave(&self, path: &Path) -> bool
        ensures { IsTrue result → first_path self.now path.now ≡ path.now }
    {
        array_above(self.arrays.as_slice(), &self.known, &Steps::of(path)).is_none()
    }

    /// The path that an element of one of their arrays, or what is below one, had before they went. None for any other
    /// path, and where memory was refused.
    pub fn first_path(&self, alloc: Global, path: &Path) -> Option<Path>
        ensures { IfSome result (λ first. first ≡ first_path self.now path.now) }
    {
        let at = array_above(self.arrays.as_slice(), &self.known, &Steps::of(path))?;
        self.arrays[at].first_path(alloc, path)
    }

    /// Adds the node of a path, which goes after them. Returns whether it was added: an element whose array is not
    /// apart from theirs and none of them is not, and none where memory was refused.
    pub fn add(&mut self, alloc: Global, path: &Path) -> bool
        ensures { IsTrue result → IsGoneWith self.old path.now self.new }
    {
        let Some(number) = last_index(path) else {
            return true;
        };
        let array = Steps::before_last(path);
        match array_above(self.arrays.as_slice(), &self.known, &array) {
            Some(at) => self.arrays[at].is_at(&array) && self.arrays[at].add(number),
            None => self.add_array(alloc, &array, number),
        }
    }

    /// Adds an element of an array that is none of theirs. Returns whether it was added.
    fn add_array(&mut self, alloc: Global, array: &Steps, number: usize) -> bool
        ensures { IsTrue result → IsGoneWith self.old (item_path array.now number) self.new }
    {
        if !self.known.are_apart(array) {
            return false;
        }
        let Some(gone) = GoneArray::of_one(alloc, array, number) else {
            return false;
        };
        let Ok(()) = self.known.add(array, self.arrays.len()) else {
            return false;
        };
        let Ok(()) = self.arrays.push(gone) else {
            return false;
        };
        true
    }
}

/// The number of the array at which a path is, or below which; None where there is none.
fn array_above(arrays: &[GoneArray], known: &KnownArrays, path: &Steps) -> Option<usize>
    requires { AreKnown known.now arrays.now }
    ensures found { IfSome result (λ n. n < length arrays.now) }
    ensures above { IfSome result (HoldsAt (λ gone. strip gone.array path.now ≢ None) arrays.now) }
    ensures none { IsNone result → All (λ gone. strip gone.array path.now ≡ None) arrays.now }
{
    let number = known.above(path)?;
    if number < arrays.len() && arrays[number].is_above(path) {
        return Some(number);
    }
    first_above(arrays, path)
}

/// The same, where each array is looked at.
fn first_above(arrays: &[GoneArray], path: &Steps) -> Option<usize>
    ensures found { IfSome result (λ n. n < length arrays.now) }
    ensures above { IfSome result (HoldsAt (λ gone. strip gone.array path.now ≢ None) arrays.now) }
    ensures none { IsNone result → All (λ gone. strip gone.array path.now ≡ None) arrays.now }
{
    for (number, gone) in arrays.iter().enumerate() {
        if gone.is_above(path) {
            return Some(number);
        }
    }
    None
}

/// The number that an element had before those with these numbers went, one after another. None where it is too great.
fn first_number(numbers: &[usize], number: usize) -> Option<usize>
    ensures { IfSome result (λ n. n ≡ first_number numbers.now number) }
{
    let mut before = number;
    for later in (0..numbers.len()).rev() {
        if numbers[later] <= before {
            before = before.checked_add(1)?;
        }
    }
    Some(before)
}

/// The path with another number in place of the one that is that step. None where memory was refused.
fn with_index(alloc: Global, path: &Path, at: usize, number: usize) -> Option<Path>
    requires { (n : ℕ) × (slice_get path.now at ≡ Some (index n)) }
    ensures { IfSome result (λ other. other ≡ take at path.now ++ index number ∷ drop (at + 1) path.now) }
{
    let len = path.len();
    let Ok(mut other) = first_steps(alloc, path, at) else {
        return None;
    };
    let Ok(()) = other.push_index(number) else {
        return None;
    };
    for later in at + 1..len {
        let Ok(()) = push_step(&mut other, path.step(later)?) else {
            return None;
        };
    }
    Some(other)
}

/// The array of the element at a path; None where the path does not end in a number.
pub fn array_of(path: &Path) -> Option<Steps<'_>>
    ensures { IfSome result (λ array. array ≡ changed_path path.now) }
{
    last_index(path)?;
    Some(Steps::before_last(path))
}

/// The number that is the last step of a path; None where a key is, and where it has none.
fn last_index(path: &Path) -> Option<usize>
    ensures { (n : ℕ) → (result ≡ Some n) ↔ (last_part path.now ≡ Some (index n)) }
{
    let len = path.len();
    if len == 0 {
        return None;
    }
    index_at(path, len - 1)
}
