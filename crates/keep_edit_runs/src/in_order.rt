//! Edits that are made at once, with the lines that they add in order.
ghost use Rattle.std.specs.Prelude.{◌≡◌, ◌≤◌, ◌++◌, ◌∷◌, [], All, IfSome, IsTrue, false, true};
ghost use Rattle.keep_edit_plan.specs.TextEdits.{IsOrdered, change_of};
ghost use Rattle.keep_edit_runs.specs.Newlines.{LeavesHere};
ghost use Rattle.keep_edit_runs.specs.Runs.{AddsLineAlone, IsAddedFollowing, IsAddedInOrder};

use crate::added_lines::AddedLines;
use crate::at_once::{AtOnce, RunEdit};
use crate::before::Before;
use crate::outline::Outline;
use keep_edit_plan::{Edit, TextEdit};
use keep_edit_spec::LineKind;
use keep_syntax::Span;

impl Before<'_> {
    /// Adds an edit, which has this number in the list, in order with the lines so far: behind all others where its
    /// change begins; or, if no element went, before those that have to come behind it there, or what another takes
    /// from there on, or its line alone behind that of a header of its table. Returns whether it was added; if not, no
    /// change was.
    pub(crate) fn add_in_order<'a>(
        &self,
        so_far: &mut AtOnce<'a>,
        lines: &mut AddedLines<'a>,
        number: usize,
        edit: &Edit,
        outline: Outline<'a>,
        made: RunEdit,
        is_none_gone: bool,
    ) -> bool
        requires { IsOrdered made.change }
        ensures added { IsTrue result → IsAddedInOrder self.now edit.now lines.old so_far.old.changes outline.entry
            (change_of made.change) made.line is_none_gone lines.new so_far.new.changes }
        ensures outlines { IsTrue result
            → so_far.new.outlines.items ≡ so_far.old.outlines.items ++ outline.entry ∷ [] }
        ensures newline { IsTrue result → so_far.new.leave_newline ≡ true → (so_far.old.leave_newline ≡ true)
            × (All (LeavesHere self.now) so_far.old.changes → All (LeavesHere self.now) so_far.new.changes) }
        ensures refused { result ≡ false → so_far.new.changes ≡ so_far.old.changes }
    {
        let place = made.change.place;
        if matches!(made.line, Some(LineKind::WithHeader))
            && lines.brings_table(&outline, place.start)
        {
            return is_none_gone && self.add_behind(so_far, lines, number, edit, outline, place);
        }
        let is_at_end = place.start == self.text.len();
        match lines.count_behind(&outline, &made, is_at_end) {
            Some(0) if so_far.comes_before(&outline, &made) => {
                is_none_gone
                    && lines.keep_line(so_far, &outline, &made)
                    && so_far.add_before(self.newline, number, outline, made.change)
            }
            Some(0) => {
                lines.keep_line(so_far, &outline, &made)
                    && so_far.add(self.newline, number, outline, made.change)
            }
            Some(count) => {
                is_none_gone
                    && lines.keep_ahead(so_far, &outline, &made, is_at_end)
                    && so_far.add_ahead(self.newline, number, outline, made.change, count)
            }
            None => false,
        }
    }

    /// Adds an edit that would bring the header of its table to this place, where that of an earlier one comes: its
    /// line alone, behind that, if no header is appended there and it leaves the first newline. Returns whether it was
    /// added; if not, no change was.
    fn add_behind<'a>(
        &self,
        so_far: &mut AtOnce<'a>,
        lines: &mut AddedLines<'a>,
        number: usize,
        edit: &Edit,
        outline: Outline<'a>,
        place: Span,
    ) -> bool
        requires { place.start ≤ place.end }
        ensures added { IsTrue result → IsAddedFollowing self.now edit.now lines.old so_far.old.changes outline.entry
            place.start lines.new so_far.new.changes }
        ensures outlines { IsTrue result
            → so_far.new.outlines.items ≡ so_far.old.outlines.items ++ outline.entry ∷ [] }
        ensures newline { IsTrue result → so_far.new.leave_newline ≡ true → (so_far.old.leave_newline ≡ true)
            × (All (LeavesHere self.now) so_far.old.changes → All (LeavesHere self.now) so_far.new.changes) }
        ensures refused { result ≡ false → so_far.new.changes ≡ so_far.old.changes }
    {
        if place.start == self.text.len() && lines.has_appended() {
            return false;
        }
        let Some(line) = self.line_alone(edit) else {
            return false;
        };
        line.place == place
            && self.newline.is_left_by(&line)
            && lines.keep_behind(so_far, &outline, place.start)
            && so_far.add(self.newline, number, outline, line)
    }

    /// The line alone of an insert that would bring the header of its table.
    pub(crate) fn line_alone(&self, edit: &Edit) -> Option<TextEdit>
        ensures { IfSome result (AddsLineAlone self.now edit.now) }
    {
        let Edit::Insert(path, value) = edit else {
            return None;
        };
        self.as_ref().brought_line(self.alloc(), path, value)
    }
}
