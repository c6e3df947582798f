//! What edits do, as far as it tells which others they leave alone.
ghost use Rattle.std.specs.Prelude.{◌≡◌, ◌↔◌, ℕ, IfSome, List, None, Some, false, length, option_copied, option_map};
ghost use Rattle.std.specs.Prelude.{slice_get, take};
ghost use Rattle.keep_edit_runs.specs.KindsRun.{IsOfHeader};
ghost use Rattle.keep_edit_runs.specs.Runs.{no_value, outline, outlined, writes_anew};
ghost use Rattle.keep_edit_spec.specs.Edits as law;
ghost use Rattle.keep_edit_spec.specs.Runs.{is_header};
ghost use Rattle.keep_path.specs.Path.{Part, index, without_last};
ghost use Rattle.keep_path.specs.Step.{part_of};

use keep_edit_plan::{Edit, first_steps};
use keep_rules::{Path, Step};
use std::alloc::Global;
use std::marker::Model;

/// No edit of a longer path, in bytes, is made at once with others where its path is compared, so that this takes no
/// longer.
const LONGEST_PATH: usize = 128;

/// The first steps of a path. Contracts see their parts.
#[derive(Drop)]
pub struct Steps<'a> {
    path: &'a Path,
    count: usize,
}

impl<'a> Model for Steps<'a> {
    ghost use Rattle.std.specs.Prelude.{◌≤◌, List, length, take};
    ghost use Rattle.keep_path.specs.Path.{Part};

    ghost Value = { List Part };

    ghost view = { λ s. take s.count s.path.now };

    ghost invariant = { λ s. s.count ≤ length s.path.now };
}

impl<'a> Steps<'a> {
    /// All steps of a path.
    pub fn of(path: &'a Path) -> Steps<'a>
        ensures { result ≡ path.now }
    {
        Steps {
            path,
            count: path.len(),
        }
    }

    /// All steps of a path but the last.
    pub fn before_last(path: &'a Path) -> Steps<'a>
        ensures { result ≡ without_last path.now }
    {
        Steps {
            path,
            count: path.len().saturating_sub(1),
        }
    }

    /// So many steps of a path from the first on, or all where it has fewer.
    pub fn first(path: &'a Path, count: usize) -> Steps<'a>
        ensures { result ≡ take count path.now }
    {
        Steps {
            path,
            count: count.min(path.len()),
        }
    }

    /// The number of steps.
    pub fn len(&self) -> usize
        ensures { result ≡ length self.now }
    {
        self.count
    }

    /// The step with that number, from 0; None from `len()` on.
    pub fn step(&self, number: usize) -> Option<&'a Step>
        ensures { option_map part_of (option_copied result) ≡ slice_get self.now number }
    {
        if number < self.count {
            self.path.step(number)
        } else {
            None
        }
    }

    /// The same steps.
    pub fn same(&self) -> Steps<'a>
        ensures { result ≡ self.now }
    {
        Steps {
            path: self.path,
            count: self.count,
        }
    }

    /// All steps of the path of which these are the first.
    pub fn whole(&self) -> Steps<'a>
        ensures { take (length self.now) result ≡ self.now }
    {
        Steps::of(self.path)
    }

    /// All of these but the last.
    pub fn parent(&self) -> Steps<'a>
        ensures { result ≡ without_last self.now }
    {
        Steps {
            path: self.path,
            count: self.count.saturating_sub(1),
        }
    }

    /// A path of these steps; None where memory was refused.
    pub fn to_path(&self, alloc: Global) -> Option<Path>
        ensures { IfSome result (λ path. path ≡ self.now) }
    {
        first_steps(alloc, self.path, self.count).ok()
    }

    /// Whether their path would take long to compare with others.
    pub fn are_long(&self) -> bool {
        self.path.encoded_len() > LONGEST_PATH
    }
}

/// The number that is the step of a path with that number; None where another step is there, or none.
pub fn index_at(path: &Path, number: usize) -> Option<usize>
    ensures { (n : ℕ) → (result ≡ Some n) ↔ (slice_get path.now number ≡ Some (index n)) }
{
    match path.step(number)? {
        Step::Key(_) => None,
        Step::Index(n) => Some(*n),
    }
}

/// How an edit of a document is seen by those that are made at once with it.
#[derive(Clone, Copy)]
pub enum SeenAs {
    /// As what it is.
    Itself,
    /// It is of an entry of a value, and is seen as the set of that value.
    Entry,
    /// It inserts a line, and is seen as the insert of the path's first steps, so many: the last is the first new key.
    FirstKey(usize),
}

/// What an edit does, with its path or keys. An edit of an entry of a value sets that value, if it is seen so, and an
/// insert of several keys inserts the first.
#[derive(Drop)]
pub enum Outline<'a> {
    Insert(Steps<'a>),
    Remove(Steps<'a>),
    Set(Steps<'a>),
    Rename(Steps<'a>, &'a str),
    Table(&'a [String]),
    Element(&'a [String]),
}

impl<'a> Outline<'a> {
    /// That of an edit, which is seen so.
    pub fn of(edit: &'a Edit, seen: SeenAs) -> Outline<'a>
        ensures { outlined result ≡ outline edit.now seen }
    {
        match (edit, seen) {
            (
                Edit::Insert(path, _)
                | Edit::Remove(path)
                | Edit::Set(path, _)
                | Edit::Rename(path, _),
                SeenAs::Entry,
            ) => Outline::Set(Steps::before_last(path)),
            (Edit::Insert(path, _), SeenAs::FirstKey(count)) => {
                Outline::Insert(Steps::first(path, count))
            }
            (Edit::Insert(path, _), SeenAs::Itself) => Outline::Insert(Steps::of(path)),
            (Edit::Remove(path), _) => Outline::Remove(Steps::of(path)),
            (Edit::Set(path, _), _) => Outline::Set(Steps::of(path)),
            (Edit::Rename(path, key), _) => Outline::Rename(Steps::of(path), key.as_str()),
            (Edit::Table(keys), _) => Outline::Table(keys.as_slice()),
            (Edit::Element(keys), _) => Outline::Element(keys.as_slice()),
        }
    }

    /// Whether it writes a line or a header with a newline of its own.
    pub fn writes_anew(&self) -> bool
        ensures { result ≡ writes_anew self.now }
    {
        matches!(
            self,
            Outline::Insert(_) | Outline::Table(_) | Outline::Element(_)
        )
    }

    /// The keys of a header that it appends.
    pub fn header_keys(&self) -> Option<&'a [String]>
        ensures keys { IfSome result (IsOfHeader self.now) }
        ensures other { result ≡ None → is_header (outlined self.now) ≡ false }
    {
        match self {
            Outline::Table(keys) | Outline::Element(keys) => Some(*keys),
            _ => None,
        }
    }

    /// The table into which it inserts a key.
    pub fn new_table(&self) -> Option<Steps<'a>>
        ensures { IfSome result (λ table. (first : List Part)
            × ((outlined self.now ≡ law.insert first no_value) × (table ≡ without_last first))) }
    {
        match self {
            Outline::Insert(first) => Some(first.parent()),
            _ => None,
        }
    }

    /// Whether it has a path that would take long to compare with those of its kind.
    pub fn has_long_path(&self) -> bool {
        match self {
            Outline::Insert(path) | Outline::Rename(path, _) => path.are_long(),
            _ => false,
        }
    }

    /// Whether it has a path that would take long to compare with any.
    pub fn has_long_path_among_all(&self) -> bool {
        match self {
            Outline::Remove(path) | Outline::Set(path) => path.are_long(),
            _ => self.has_long_path(),
        }
    }

    /// Whether this is of the same kind as another.
    pub fn is_like(&self, other: &Outline) -> bool {
        matches!(
            (self, other),
            (Outline::Insert(_), Outline::Insert(_))
                | (Outline::Remove(_), Outline::Remove(_))
                | (Outline::Set(_), Outline::Set(_))
                | (Outline::Rename(_, _), Outline::Rename(_, _))
                | (Outline::Table(_), Outline::Table(_))
                | (Outline::Element(_), Outline::Element(_))
        )
    }
}
