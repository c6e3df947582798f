//! Edits of a list that are made at once, as far as they are gone through.
ghost use Rattle.std.specs.Prelude.{◌≡◌, ◌++◌, ◌∷◌, [], All, IfSome, IsTrue, List, None, Some, false};
ghost use Rattle.std.specs.Prelude.{true};
ghost use Rattle.keep_edit_spec.specs.Edits.{insert};
ghost use Rattle.keep_edit_spec.specs.LinesInPlace.{IsPutBefore};
ghost use Rattle.keep_edit_spec.specs.TextChanges.{IsBeside, with_change};
ghost use Rattle.keep_edit_spec.specs.declared.line_kind.LineKind.TheVariants.{OfDotted};
ghost use Rattle.keep_edit_plan.specs.TextEdits.{HasChange, HasInstead, IsOrdered, IsPutAhead, IsReplaced, change_of};
ghost use Rattle.keep_path.specs.Path.{Part, beside};
ghost use Rattle.keep_edit_runs.specs.Newlines.{LeavesBy};
ghost use Rattle.keep_edit_runs.specs.Runs.{IsRenamedBy, IsSetBy, no_value, outlined};

use crate::alike::{is_new_path, is_same};
use crate::newline::Newline;
use crate::outline::{Outline, Steps};
use crate::seen::{number_beside, number_of};
use keep_edit_plan::{TextEdit, TextEdits};
use keep_edit_spec::LineKind;
use std::alloc::Global;
use std::collections::HashMap;

/// Edits in a row that are made at once: what they change in the text, and the number of the first edit after them.
#[derive(Drop)]
pub struct Run {
    pub changes: TextEdits,
    pub end: usize,
}

/// What an edit that is made at once with others changes in the text.
#[derive(Drop)]
pub struct RunEdit {
    pub change: TextEdit,
    /// The kind of the line that it adds, if it adds one.
    pub line: Option<LineKind>,
}

impl RunEdit {
    /// That of an edit which adds no line.
    pub fn other(change: TextEdit) -> RunEdit
        ensures { (result.change ≡ change) × (result.line ≡ None) }
    {
        RunEdit { change, line: None }
    }
}

/// Edits that are made at once: what each does, and what they change in the text. One that sets a value again has no
/// outline of its own here, and its change comes in the place of the earlier one.
#[derive(Drop)]
pub struct AtOnce<'a> {
    pub outlines: Vec<Outline<'a>>,
    pub changes: TextEdits,
    /// Whether they leave the document's first newline, as far as is known.
    pub leave_newline: bool,
    /// The number of the outline whose change begins at a byte. It only tells where to look.
    numbers: HashMap<usize, usize>,
    /// The same of the rename whose new path has a number.
    renames: HashMap<u64, usize>,
    /// The number in the list of the edit that gave the value of an added line, by that of the line's path. It only
    /// tells where to look, too.
    values: HashMap<u64, usize>,
}

impl<'a> AtOnce<'a> {
    /// No edits yet. It takes no memory.
    pub fn new(alloc: Global) -> AtOnce<'a>
        ensures { (result.outlines.items ≡ []) × (result.changes ≡ []) }
    {
        AtOnce {
            outlines: Vec::new(alloc),
            changes: TextEdits::new(alloc),
            leave_newline: true,
            numbers: HashMap::new(alloc),
            renames: HashMap::new(alloc),
            values: HashMap::new(alloc),
        }
    }

    /// What they change, and the number of the first edit after them.
    pub fn up_to(self, end: usize) -> Run
        ensures { (result.changes ≡ self.entry.changes) × (result.end ≡ end) }
    {
        Run {
            changes: self.changes,
            end,
        }
    }

    /// What one of these edits changes of the text, if it is known to set the value at a path, which begins at this
    /// byte.
    pub fn setting(&self, path: &Steps, start: usize) -> Option<&TextEdit>
        ensures change { IfSome result (λ edit. HasChange self.now.changes (change_of edit.now)) }
        ensures set { IfSome result (λ _. IsSetBy self.now.outlines.items path.now) }
    {
        let number = *self.numbers.get(&start)?;
        let Outline::Set(other) = self.outlines.get(number)? else {
            return None;
        };
        if !is_same(other, path) {
            return None;
        }
        self.changes.beginning_at(start)
    }

    /// The path and the new key of one of these edits, if it is known to be a rename of which a path is the new one.
    pub fn renaming(&self, path: &Steps) -> Option<(Steps<'a>, &'a str)>
        ensures by { IfSome result (λ first. IsRenamedBy self.now.outlines.items first.0 first.1.now) }
        ensures new { IfSome result (λ first. beside first.0 first.1.now ≡ path.now) }
    {
        let number = *self.renames.get(&number_of(path))?;
        let Outline::Rename(first, name) = self.outlines.get(number)? else {
            return None;
        };
        if !is_new_path(path, first, name) {
            return None;
        }
        Some((first.same(), *name))
    }

    /// The number that stands for a path at which one of these edits adds a line, and the number in the list of the
    /// edit that gave its value, as far as is known.
    pub fn giving(&self, path: &Steps) -> Option<(u64, usize)> {
        if self.values.is_empty() {
            return None;
        }
        let number = number_of(path);
        Some((number, *self.values.get(&number)?))
    }

    /// Puts a change in the place of one that replaces the same bytes. Returns whether there is one; if not, nothing
    /// has changed.
    pub fn overwrite(&mut self, newline: Newline, change: TextEdit) -> bool
        ensures changes { IsTrue result → IsReplaced self.old.changes (change_of change) self.new.changes }
        ensures outlines { self.new.outlines.items ≡ self.old.outlines.items }
        ensures newline { self.new.leave_newline ≡ true
            → (self.old.leave_newline ≡ true) × (IsTrue result → LeavesBy newline (change_of change)) }
        ensures refused { result ≡ false → self.new.changes ≡ self.old.changes }
    {
        let is_left = newline.is_left_by(&change);
        if !self.changes.overwrite(change) {
            return false;
        }
        self.leave_newline = self.leave_newline && is_left;
        true
    }

    /// Adds an edit that comes in the place of another, with its change in the place of that one's. Returns whether it
    /// does; if not, no change has come in the place of one.
    pub fn rename(
        &mut self,
        newline: Newline,
        number: usize,
        outline: Outline<'a>,
        change: TextEdit,
    ) -> bool
        ensures changes { IsTrue result → IsReplaced self.old.changes (change_of change) self.new.changes }
        ensures outlines { IsTrue result → self.new.outlines.items ≡ self.old.outlines.items ++ outline.entry ∷ [] }
        ensures newline { IsTrue result → self.new.leave_newline ≡ true
            → (self.old.leave_newline ≡ true) × LeavesBy newline (change_of change) }
        ensures refused { result ≡ false → self.new.changes ≡ self.old.changes }
    {
        if !self.add_outline(number, outline) {
            return false;
        }
        self.overwrite(newline, change)
    }

    /// Puts a change in the place of another, by the edit with this number in the list: it gives another value to the
    /// line at a path, for which a number stands. Returns whether the other is there; if not, no change has come in the
    /// place of one.
    pub fn exchange(
        &mut self,
        newline: Newline,
        number: usize,
        path: u64,
        earlier: &TextEdit,
        change: TextEdit,
    ) -> bool
        ensures changes { IsTrue result
            → HasInstead self.old.changes (change_of earlier.now) (change_of change) self.new.changes }
        ensures outlines { self.new.outlines.items ≡ self.old.outlines.items }
        ensures newline { IsTrue result → self.new.leave_newline ≡ true
            → (self.old.leave_newline ≡ true) × LeavesBy newline (change_of change) }
        ensures refused { result ≡ false → self.new.changes ≡ self.old.changes }
    {
        self.values.insert(path, number).is_ok() && self.put_instead(newline, earlier, change)
    }

    /// Adds what stands for an edit that gives another key to a line, with its change in the place of that line's. The
    /// edit with this number in the list gave the line's value. Returns whether the other change is there; if not, no
    /// change has come in the place of one.
    pub fn rename_line(
        &mut self,
        newline: Newline,
        giving: usize,
        outline: Outline<'a>,
        earlier: &TextEdit,
        change: TextEdit,
    ) -> bool
        ensures changes { IsTrue result
            → HasInstead self.old.changes (change_of earlier.now) (change_of change) self.new.changes }
        ensures outlines { IsTrue result → self.new.outlines.items ≡ self.old.outlines.items ++ outline.entry ∷ [] }
        ensures newline { IsTrue result → self.new.leave_newline ≡ true
            → (self.old.leave_newline ≡ true) × LeavesBy newline (change_of change) }
        ensures refused { result ≡ false → self.new.changes ≡ self.old.changes }
    {
        self.add_outline(giving, outline) && self.put_instead(newline, earlier, change)
    }

    /// Puts a change in the place of another. Returns whether the other is there; if not, no change has come in the
    /// place of one.
    fn put_instead(&mut self, newline: Newline, earlier: &TextEdit, change: TextEdit) -> bool
        ensures changes { IsTrue result
            → HasInstead self.old.changes (change_of earlier.now) (change_of change) self.new.changes }
        ensures outlines { self.new.outlines.items ≡ self.old.outlines.items }
        ensures newline { IsTrue result → self.new.leave_newline ≡ true
            → (self.old.leave_newline ≡ true) × LeavesBy newline (change_of change) }
        ensures refused { result ≡ false → self.new.changes ≡ self.old.changes }
    {
        let is_left = newline.is_left_by(&change);
        if !self.changes.exchange(earlier, change) {
            return false;
        }
        if !is_left {
            self.leave_newline = false;
        }
        true
    }

    /// Adds what an edit does, which has this number in the list. Returns whether it was added; it is not where memory
    /// is refused.
    fn add_outline(&mut self, number: usize, outline: Outline<'a>) -> bool
        ensures outlines { IsTrue result → self.new.outlines.items ≡ self.old.outlines.items ++ outline.entry ∷ [] }
        ensures changes { self.new.changes ≡ self.old.changes }
        ensures newline { self.new.leave_newline ≡ self.old.leave_newline }
    {
        let own = self.outlines.len();
        let noted = match &outline {
            Outline::Rename(path, key) => self
                .renames
                .insert(number_beside(path, key), own)
                .is_ok(),
            Outline::Insert(path) => self.values.insert(number_of(&path.whole()), number).is_ok(),
            _ => true,
        };
        noted && self.outlines.push(outline).is_ok()
    }

    /// Adds what an edit does that adds a line by this change, which has this number in the list. Returns whether it
    /// was added: it is not if the change is not known to leave the first newline, nor where memory is refused.
    fn add_line_outline(
        &mut self,
        newline: Newline,
        number: usize,
        outline: Outline<'a>,
        line: &TextEdit,
    ) -> bool
        ensures left { IsTrue result → LeavesBy newline (change_of line.now) }
        ensures outlines { IsTrue result → self.new.outlines.items ≡ self.old.outlines.items ++ outline.entry ∷ [] }
        ensures changes { self.new.changes ≡ self.old.changes }
        ensures newline { self.new.leave_newline ≡ self.old.leave_newline }
    {
        newline.is_left_by(line) && self.add_outline(number, outline)
    }

    /// Adds a change of an edit that has no outline. Returns whether it was added: one that overlaps another is not,
    /// nor is any where memory is refused. Then no change was added.
    pub fn add_change(&mut self, newline: Newline, change: TextEdit) -> bool
        requires { IsOrdered change }
        ensures changes { IsTrue result → All (λ c. IsBeside c (change_of change)) self.old.changes
            × (self.new.changes ≡ with_change self.old.changes (change_of change)) }
        ensures outlines { self.new.outlines.items ≡ self.old.outlines.items }
        ensures newline { IsTrue result → self.new.leave_newline ≡ true
            → (self.old.leave_newline ≡ true) × LeavesBy newline (change_of change) }
        ensures refused { result ≡ false → self.new.changes ≡ self.old.changes }
    {
        self.leave_newline = self.leave_newline && newline.is_left_by(&change);
        self.changes.add(change).unwrap_or(false)
    }

    /// Adds an edit, which has this number in the list. Returns whether it was added: one whose change overlaps another
    /// is not, nor is any where memory is refused. Then no change was added.
    pub fn add(
        &mut self,
        newline: Newline,
        number: usize,
        outline: Outline<'a>,
        change: TextEdit,
    ) -> bool
        requires { IsOrdered change }
        ensures changes { IsTrue result → All (λ c. IsBeside c (change_of change)) self.old.changes
            × (self.new.changes ≡ with_change self.old.changes (change_of change)) }
        ensures outlines { IsTrue result → self.new.outlines.items ≡ self.old.outlines.items ++ outline.entry ∷ [] }
        ensures newline { IsTrue result → self.new.leave_newline ≡ true
            → (self.old.leave_newline ≡ true) × LeavesBy newline (change_of change) }
        ensures refused { result ≡ false → self.new.changes ≡ self.old.changes }
    {
        let start = change.place.start;
        let own = self.outlines.len();
        if self.numbers.insert(start, own).is_err() || !self.add_outline(number, outline) {
            return false;
        }
        self.add_change(newline, change)
    }

    /// Adds an edit that adds a line, which has this number in the list, with its change before the last of those that
    /// begin where it does, so many. Returns whether it was added: it is not where no or fewer begin there, or the last
    /// one takes bytes, nor if it is not known to leave the first newline, nor where memory is refused. Then no change
    /// was added.
    pub fn add_ahead(
        &mut self,
        newline: Newline,
        number: usize,
        outline: Outline<'a>,
        change: TextEdit,
        count: usize,
    ) -> bool
        ensures changes { IsTrue result → IsPutAhead self.old.changes (change_of change) count self.new.changes }
        ensures outlines { IsTrue result → self.new.outlines.items ≡ self.old.outlines.items ++ outline.entry ∷ [] }
        ensures left { IsTrue result → LeavesBy newline (change_of change) }
        ensures newline { self.new.leave_newline ≡ self.old.leave_newline }
        ensures refused { result ≡ false → self.new.changes ≡ self.old.changes }
    {
        self.add_line_outline(newline, number, outline, &change)
            && self.changes.add_ahead(change, count).unwrap_or(false)
    }

    /// Adds an edit that adds a line, which has this number in the list, with its change right before the one that
    /// takes bytes from its place on. Returns whether it was added: it is not where none does, nor if it is not known
    /// to leave the first newline, nor where memory is refused. Then no change was added.
    pub fn add_before(
        &mut self,
        newline: Newline,
        number: usize,
        outline: Outline<'a>,
        change: TextEdit,
    ) -> bool
        ensures changes { IsTrue result → IsPutBefore self.old.changes (change_of change) self.new.changes }
        ensures outlines { IsTrue result → self.new.outlines.items ≡ self.old.outlines.items ++ outline.entry ∷ [] }
        ensures left { IsTrue result → LeavesBy newline (change_of change) }
        ensures newline { self.new.leave_newline ≡ self.old.leave_newline }
        ensures refused { result ≡ false → self.new.changes ≡ self.old.changes }
    {
        self.add_line_outline(newline, number, outline, &change)
            && self.changes.add_before(change).unwrap_or(false)
    }

    /// Whether an edit adds a line to a table that dotted keys make, where a change takes bytes from its place on: the
    /// line comes before that.
    pub fn comes_before(&self, outline: &Outline, made: &RunEdit) -> bool
        ensures line { IsTrue result → made.now.line ≡ Some OfDotted }
        ensures insert { IsTrue result → (first : List Part) × (outlined outline.now ≡ insert first no_value) }
    {
        let (Outline::Insert(_), Some(LineKind::OfDotted)) = (outline, made.line) else {
            return false;
        };
        let start = made.change.place.start;
        match self.changes.beginning_at(start) {
            Some(next) => next.place.end > start,
            None => false,
        }
    }
}
