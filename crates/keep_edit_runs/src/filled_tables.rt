//! Tables and elements of arrays of tables that edits of a list append, with keys that they insert into the last of
//! them, as far as they are gone through. All is written at the end of the text.
//!
//! A table is new if no header before it is of that table or of one below it, and no key that was inserted is on its
//! way, nor an array of which an element came. So all that the keys of each header begin with is kept, the path of each
//! key, and that of each array. An element is one more of an array of which one came, or its keys are apart from those
//! of all headers before it. A key is new in the last table or element if its path is none of those that came into it.
ghost use Rattle.std.specs.Prelude.{◌≡◌, ◌<◌, ℕ, IfSome, IsTrue, [], None, false, length, map, slice_get};
ghost use Rattle.keep_edit_plan.specs.Headers.{key_texts};
ghost use Rattle.keep_edit_plan.specs.TextEdits.{IsOrdered, change_of};
ghost use Rattle.keep_edit_spec.specs.FilledTables.{element_at};
ghost use Rattle.keep_edit_runs.specs.LastElements.{last_at};
ghost use Rattle.keep_edit_runs.specs.FilledTables.{IsElementAdded, IsKeyAdded, IsKeyKept, IsNextElement, IsOwnKept};
ghost use Rattle.keep_edit_runs.specs.FilledTables.{IsTableAdded, last_path};
ghost use Rattle.keep_path.specs.Path.{key, without_last};

use crate::alike::are_same_keys;
use crate::at_once::Run;
use crate::last_elements::{LastElement, LastElements};
use crate::outline::{Steps, index_at};
use crate::seen_headers::SeenHeaders;
use crate::seen_paths::number_of_keys;
use keep_edit_plan::{Edit, NewElement, TextEdit, TextEdits};
use keep_rules::{Path, Step};
use std::alloc::Global;
use std::collections::HashSet;

/// A table, or an element of an array of tables, whose header was appended.
#[derive(Clone, Copy)]
pub struct Opened<'a> {
    /// The keys of the header.
    pub keys: &'a [String],
    /// The number of the element; None of a table.
    pub element: Option<usize>,
}

/// Such tables and elements, with what their headers and keys change in the text.
#[derive(Drop)]
pub struct FilledTables<'a> {
    changes: TextEdits,
    /// The last one; None before the first.
    last: Option<Opened<'a>>,
    /// The paths of the keys that were inserted into the last one, each by a number that stands for its keys.
    own: HashSet<u64>,
    /// Of each array of which an element came, the last one.
    arrays: LastElements<'a>,
    /// The headers, and in place of tables whose headers come with a line the keys and the arrays.
    seen: SeenHeaders,
}

impl<'a> FilledTables<'a> {
    /// No tables yet. It takes no memory.
    pub fn new(alloc: Global) -> FilledTables<'a>
        ensures none { (result.changes ≡ []) × (result.last ≡ None) }
        ensures no_arrays { (n : ℕ) → last_at result.arrays n ≡ None }
    {
        FilledTables {
            changes: TextEdits::new(alloc),
            last: None,
            own: HashSet::new(alloc),
            arrays: LastElements::new(alloc),
            seen: SeenHeaders::new(alloc),
        }
    }

    /// What they change, and the number of the first edit after them.
    pub fn up_to(self, end: usize) -> Run
        ensures { (result.changes ≡ self.entry.changes) × (result.end ≡ end) }
    {
        Run {
            changes: self.changes,
            end,
        }
    }

    /// Adds a table with these keys, whose header is this change. Returns whether it was added: not one that is not
    /// known to be new after those before it, nor any where memory was refused. Then no change was added.
    pub fn add_table(&mut self, keys: &'a [String], header: TextEdit) -> bool
        requires { IsOrdered header }
        ensures added { IsTrue result → IsTableAdded self.old keys.entry (change_of header) self.new }
        ensures refused { result ≡ false → self.new.changes ≡ self.old.changes }
    {
        if self.seen.has_appended(keys) || !self.seen.append(keys) {
            return false;
        }
        self.own.clear();
        self.last = Some(Opened {
            keys,
            element: None,
        });
        self.changes.add(header).unwrap_or(false)
    }

    /// Adds an element of the array of tables with these keys, with its header and the number that it would have before
    /// all others. Returns whether it was added: not one that is neither of an array of which one came nor known to be
    /// apart from all before it, nor any where memory was refused. Then no change was added.
    pub fn add_element(&mut self, keys: &'a [String], element: NewElement) -> bool
        requires { IsOrdered element.header }
        ensures added { IsTrue result
            → IsElementAdded self.old keys.entry element.number (change_of element.header) self.new }
        ensures refused { result ≡ false → self.new.changes ≡ self.old.changes }
    {
        let Some(number) = self.next_number(keys, element.number) else {
            return false;
        };
        if !self.arrays.keep(LastElement { keys, number }) {
            return false;
        }
        self.own.clear();
        self.last = Some(Opened {
            keys,
            element: Some(number),
        });
        self.changes.add(element.header).unwrap_or(false)
    }

    /// The number of an element of the array of tables with these keys: that after the last one of that array, if one
    /// came; else the one that it would have before all others, if the keys are known to be apart from those of all
    /// before it, and then they are kept. None for any other, and where memory was refused.
    fn next_number(&mut self, keys: &[String], first: usize) -> Option<usize>
        ensures next { IfSome result (IsNextElement self.old (key_texts keys.now) first self.new.seen) }
        ensures rest { (self.new.changes ≡ self.old.changes) × (self.new.arrays ≡ self.old.arrays) }
    {
        if let Some(last) = self.arrays.of(keys) {
            if !are_same_keys(last.keys, keys) {
                return None;
            }
            return last.number.checked_add(1);
        }
        if self.seen.append_array(keys) {
            Some(first)
        } else {
            None
        }
    }

    /// Adds a key with this path, whose line is this change. Returns whether it was added: not one that is not of the
    /// last table or element, or not known to be new there, nor any where memory was refused. Then no change was added.
    pub fn add_key(&mut self, path: &Path, line: TextEdit) -> bool
        requires { IsOrdered line }
        ensures added { IsTrue result → IsKeyAdded self.old path.now (change_of line) self.new }
        ensures refused { result ≡ false → self.new.changes ≡ self.old.changes }
    {
        let Some(last) = self.last else {
            return false;
        };
        if !last.has_key(path) || !self.keep_key(&Steps::of(path)) {
            return false;
        }
        self.changes.add(line).unwrap_or(false)
    }

    /// Keeps the path of a key. Returns whether it was kept: not one that the last one may have, nor any where memory
    /// was refused.
    fn keep_key(&mut self, path: &Steps) -> bool
        ensures kept { IsTrue result → IsKeyKept self.old path.now self.new }
        ensures rest { (self.new.changes ≡ self.old.changes) × (self.new.last ≡ self.old.last)
            × (self.new.arrays ≡ self.old.arrays) }
    {
        self.keep_own(path) && self.seen.bring(path)
    }

    /// Keeps the path of a key as one of the last one's. Returns whether it was kept: not one that the last one may
    /// have, nor any where memory was refused.
    fn keep_own(&mut self, path: &Steps) -> bool
        ensures kept { IsTrue result → IsOwnKept self.old path.now self.new }
        ensures rest { (self.new.changes ≡ self.old.changes) × (self.new.last ≡ self.old.last)
            × ((self.new.arrays ≡ self.old.arrays) × (self.new.seen ≡ self.old.seen)) }
    {
        let number = number_of_keys(path);
        !self.own.contains(&number) && self.own.insert(number).is_ok()
    }
}

impl<'a> Opened<'a> {
    /// Whether a path is that of a key in it.
    fn has_key(&self, path: &Path) -> bool
        ensures { IsTrue result → without_last path.now ≡ last_path self.now }
    {
        match self.element {
            None => is_key_of(path, self.keys),
            Some(number) => match element_with_key(path, self.keys) {
                Some(own) => own == number,
                None => false,
            },
        }
    }
}

/// Whether a path is that of a key in the table with these keys.
pub fn is_key_of(path: &Path, keys: &[String]) -> bool
    ensures { IsTrue result → without_last path.now ≡ map key (key_texts keys.now) }
{
    path.len() == keys.len() + 1 && begins_with_keys(path, keys)
}

/// The number of the element of the array of tables with these keys in which a path is that of a key; None if it is
/// that of none.
pub fn element_with_key(path: &Path, keys: &[String]) -> Option<usize>
    ensures { IfSome result (λ number. without_last path.now ≡ element_at (key_texts keys.now) number) }
{
    if path.len() != keys.len() + 2 || !begins_with_keys(path, keys) {
        return None;
    }
    index_at(path, keys.len())
}

/// Whether the first steps of a path are these keys, if it has more.
fn begins_with_keys(path: &Path, keys: &[String]) -> bool
    ensures { IsTrue result → (n : ℕ) → n < length keys.now
        → slice_get path.now n ≡ slice_get (map key (key_texts keys.now)) n }
{
    for number in 0..keys.len() {
        let Some(Step::Key(own)) = path.step(number) else {
            return false;
        };
        if own.as_str() != keys[number].as_str() {
            return false;
        }
    }
    true
}

/// Whether an edit inserts a key into the table that a header makes, or into some element of its array of tables.
pub fn is_key_below(edit: &Edit, header: &Edit) -> bool {
    match (header, edit) {
        (Edit::Table(keys), Edit::Insert(path, _)) => is_key_of(path, keys.as_slice()),
        (Edit::Element(keys), Edit::Insert(path, _)) => {
            element_with_key(path, keys.as_slice()).is_some()
        }
        _ => false,
    }
}
