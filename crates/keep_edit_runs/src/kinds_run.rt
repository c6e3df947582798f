//! A run of edits of several kinds that are made at once, as far as they are gone through.
ghost use Rattle.std.specs.Prelude.{◌≡◌, ◌⊎◌, [], All, IsTrue, List, false};
ghost use Rattle.keep_edit_spec.specs.Edits.{remove};
ghost use Rattle.keep_edit_spec.specs.ElementRuns.{IsElsewhere};
ghost use Rattle.keep_edit_runs.specs.Again.{outlines_of};
ghost use Rattle.keep_edit_runs.specs.GoneBetween.{AreElsewhere};
ghost use Rattle.keep_edit_runs.specs.KindsRun.{AreSeen, DoesAgain, IsAlone, IsAppended, IsRunOn, IsRunUpTo};
ghost use Rattle.keep_edit_runs.specs.KindsRun.{IsUnchanged, KeepsArray, LetsAgainBefore, LetsChange, StartsAt};
ghost use Rattle.keep_edit_runs.specs.KindsRun.{with_paths};
ghost use Rattle.keep_edit_plan.specs.Reading.{ProfiledText};
ghost use Rattle.keep_edit_runs.specs.Newlines.{IsNewlineOf, LeavesBy, LeavesEndBy};
ghost use Rattle.keep_edit_runs.specs.Runs.{LeavesAlone, outlined};
ghost use Rattle.keep_path.specs.Path.{Part};

use crate::added_lines::AddedLines;
use crate::again::Again;
use crate::alike::{are_elsewhere, leave_alone_within};
use crate::at_once::{AtOnce, Run, RunEdit};
use crate::gone_between::GoneBetween;
use crate::newline::Newline;
use crate::opened::OpenValues;
use crate::outline::{Outline, Steps};
use crate::seen_paths::SeenPaths;
use crate::tail::Tail;
use keep_edit_plan::{DocumentRef, Planner, TextEdit, TextEdits};
use keep_edit_spec::LineKind;
use keep_syntax::Span;
use std::alloc::Global;

/// Edits of several kinds that are made at once, and what tells whether the next one is made with them.
#[derive(Drop)]
pub struct KindsRun<'a> {
    pub so_far: AtOnce<'a>,
    pub opened: OpenValues,
    pub planner: Planner<'a>,
    pub paths: SeenPaths<'a>,
    pub lines: AddedLines<'a>,
    pub gone: GoneBetween<'a>,
    /// What comes at the end of the text, after all that the other edits change.
    pub tail: Tail<'a>,
    /// How many pairs of edits may still be compared.
    pub left: usize,
}

impl<'a> KindsRun<'a> {
    /// No edits of a document yet. It takes no memory.
    pub fn new(alloc: Global, document: DocumentRef<'a>, left: usize) -> KindsRun<'a>
        ensures { StartsAt document.entry result }
    {
        KindsRun {
            so_far: AtOnce::new(alloc),
            opened: OpenValues::new(alloc),
            planner: Planner::new(alloc, document),
            paths: SeenPaths::new(alloc),
            lines: AddedLines::new(alloc),
            gone: GoneBetween::new(alloc),
            tail: Tail::new(alloc),
            left,
        }
    }

    /// What they change in a text of so many bytes, and the number of the first edit after them; no edits from number
    /// `first` on where memory is refused.
    pub fn up_to(self, alloc: Global, first: usize, end: usize, len: usize) -> Run
        ensures { IsRunUpTo self.entry first end len result }
    {
        let tail = self.tail;
        let mut run = self.so_far.up_to(end);
        if tail.is_empty() {
            return run;
        }
        if let Ok(new) = tail.text(alloc) {
            let place = Span {
                start: len,
                end: len,
            };
            if run.changes.add(TextEdit { place, new }).unwrap_or(false) {
                return run;
            }
        }
        Run {
            changes: TextEdits::new(alloc),
            end: first,
        }
    }

    /// Puts the change of an edit, which has this number in the list, in the place of an earlier one. Returns whether
    /// it did; if not, no change has come in the place of one. A key is renamed again, and an inserted value set or
    /// its key renamed, only where nothing comes at the end of the text.
    pub fn put_again(&mut self, newline: Newline, number: usize, again: Again<'a>) -> bool
        ensures done { IsTrue result → DoesAgain (LeavesBy newline) self.old again.entry self.new }
        ensures run { (now : ProfiledText) → IsNewlineOf now newline → IsRunOn now self.old → IsTrue result
            → IsRunOn now self.new }
        ensures refused { result ≡ false → IsUnchanged self.old self.new }
    {
        self.lets_again(newline, &again)
            && self.paths.allow_again(newline, &again)
            && self.so_far.put_again(newline, &self.lines, number, again)
    }

    /// Whether what is done again may come before what is at the end of the text.
    fn lets_again(&self, newline: Newline, again: &Again) -> bool
        ensures before { IsTrue result → LetsAgainBefore (LeavesBy newline) self.now.tail.blocks.items again.now }
        ensures none { IsTrue result → (outlines_of again.now ≡ []) ⊎ (self.now.tail.outlines.items ≡ []) }
    {
        if self.tail.is_empty() {
            return true;
        }
        match again {
            Again::Value(change) => newline.is_left_by(change),
            Again::Key(_, _) | Again::Line(_, _, _) | Again::LineKey(_, _, _, _) => false,
        }
    }

    /// Whether a change of a text of so many bytes can come before what is at the end of the text: it leaves the first
    /// newline, and takes no byte right before the end, if it is no new line.
    pub fn lets_change(
        &self,
        newline: Newline,
        outline: &Outline,
        change: &TextEdit,
        len: usize,
    ) -> bool
        ensures { IsTrue result
            → LetsChange (LeavesBy newline) self.now.tail.blocks.items len (outlined outline.now) change.now }
    {
        if self.tail.is_empty() {
            return true;
        }
        newline.is_left_by(change)
            && (matches!(outline, Outline::Insert(_)) || change.place.end < len)
    }

    /// The same of what an element's remove takes.
    pub fn lets_section(&self, newline: Newline, change: &TextEdit, len: usize) -> bool
        ensures { IsTrue result → (path : List Part)
            → LetsChange (LeavesBy newline) self.now.tail.blocks.items len (remove path) change.now }
    {
        self.tail.is_empty() || (newline.is_left_by(change) && change.place.end < len)
    }

    /// Appends a header with these keys, as it is written, behind all that is at the end of the text. Returns whether
    /// it did: not one that is not known to leave the first newline, or is of a table whose header comes with a line,
    /// nor any where memory was refused. Then what is at the end of the text is the same.
    pub fn append(
        &mut self,
        newline: Newline,
        outline: Outline<'a>,
        keys: &'a [String],
        change: TextEdit,
    ) -> bool
        requires { AreSeen self.old }
        ensures appended { IsTrue result
            → IsAppended (LeavesEndBy newline) self.old outline.entry keys.entry change self.new }
        ensures refused { result ≡ false → IsUnchanged self.old self.new }
    {
        newline.is_left_at_end(change.new.as_str())
            && self.lines.keep_last(keys)
            && self.tail.add(outline, keys, change.new)
    }

    /// Whether an insert that would bring the header of its table has to come below an appended header, as far as is
    /// known: where that header was not brought before it.
    pub fn comes_below(&self, outline: &Outline, made: &RunEdit) -> bool {
        match (outline, made.line) {
            (Outline::Insert(first), Some(LineKind::WithHeader)) => {
                self.lines.has_header_through(&first.parent())
                    && !self.lines.brings_table(outline, made.change.place.start)
            }
            _ => false,
        }
    }

    /// Whether an edit is known to be left alone by those before it and elsewhere than in the arrays of which elements
    /// went: an element is where one with the same keys was appended before it.
    pub fn is_left_alone(&mut self, outline: &Outline) -> bool
        requires { AreSeen self.old }
        ensures alone { IsTrue result → IsAlone self.old outline.now }
        ensures rest { self.new ≡ with_paths self.old self.old.paths self.new.left }
    {
        if self.tail.has_element_like(outline) {
            return true;
        }
        if outline.has_long_path_among_all() || !self.tail.leave_alone(&mut self.left, outline) {
            return false;
        }
        self.paths.leave_alone(outline) || self.are_alone_by_all(outline)
    }

    /// The same where it is compared with each of those and each of the arrays, as far as so many pairs may be.
    fn are_alone_by_all(&mut self, outline: &Outline) -> bool
        ensures alone { IsTrue result → All (λ y. LeavesAlone y outline.now) self.old.so_far.outlines.items }
        ensures elsewhere { IsTrue result
            → All (λ array. IsElsewhere array (outlined outline.now)) self.old.gone.arrays.items }
        ensures rest { self.new ≡ with_paths self.old self.old.paths self.new.left }
    {
        self.gone.leave_alone(outline)
            && leave_alone_within(&mut self.left, self.so_far.outlines.as_slice(), outline)
    }

    /// Adds an array of which an element goes, unless it is found to be there, if the edits are elsewhere than in it.
    /// Returns whether it is there then: none is added where memory was refused.
    pub fn keep_array(&mut self, array: Steps<'a>) -> bool
        requires seen { AreSeen self.old }
        requires elsewhere { AreElsewhere self.old.gone.arrays.items self.old.so_far.outlines.items }
        ensures kept { IsTrue result → KeepsArray self.old array.entry self.new }
        ensures changes { self.new.so_far ≡ self.old.so_far }
        ensures tail { self.new.tail ≡ self.old.tail }
    {
        if self.gone.has_array(&array) {
            return self.tail.are_elsewhere(&array);
        }
        if !(self.paths.are_elsewhere(&array)
            || are_elsewhere(&array, self.so_far.outlines.as_slice()))
        {
            return false;
        }
        if !self.tail.are_elsewhere(&array) {
            return false;
        }
        let path = Outline::Remove(array.same());
        self.paths.add(&path).unwrap_or(false) && self.gone.arrays.push(array).is_ok()
    }
}
