//! How an edit is seen by those that are made at once with it, and what it changes of the text.
ghost use Rattle.std.specs.Prelude.{◌≡◌, ◌+◌, ◌<◌, [], IfSome, None, Some, false, take};
ghost use Rattle.keep_edit_runs.specs.Runs.{IsSeenAs, MakesInRunHere, MakesItselfHere, outline};
ghost use Rattle.keep_edit_runs.specs.declared.outline.SeenAs.TheVariants.{Entry};

use crate::alike::is_same;
use crate::at_once::RunEdit;
use crate::before::Before;
use crate::holders::path_of;
use crate::opened::OpenValues;
use crate::outline::{Outline, SeenAs, Steps};
use keep_edit_plan::{Edit, Planner, TextEdit};
use memchr::memchr;

/// Whether the second edit is there, and both are inserts or removes whose paths differ in their last step alone. Of
/// entries, they are of one value.
fn is_in_holder_of(edit: &Edit, next: Option<&Edit>) -> bool {
    let (
        Edit::Insert(path, _) | Edit::Remove(path),
        Some(Edit::Insert(other, _) | Edit::Remove(other)),
    ) = (edit, next) else {
        return false;
    };
    is_same(&Steps::before_last(path), &Steps::before_last(other))
}

impl Before<'_> {
    /// How an edit is seen by those that are made at once with it.
    pub(crate) fn seen_as(&self, edit: &Edit) -> SeenAs
        ensures { IsSeenAs self.now edit.now result }
    {
        match edit {
            Edit::Insert(path, _) => {
                let len = path.len();
                let reach = self.as_ref().reach(path);
                let first_key = reach.steps + 1;
                if reach.is_value && first_key == len {
                    SeenAs::Entry
                } else {
                    SeenAs::FirstKey(first_key)
                }
            }
            Edit::Remove(path) if self.holder_span(path).is_some() => SeenAs::Entry,
            _ => SeenAs::Itself,
        }
    }

    /// The same among edits of several kinds: a set or a rename of an entry of a short value is seen as the set of that
    /// value.
    pub(crate) fn seen_among_kinds(&self, edit: &Edit) -> SeenAs
        ensures { IsSeenAs self.now edit.now result }
    {
        match edit {
            Edit::Set(path, _) | Edit::Rename(path, _) if self.has_short_holder(path) => {
                SeenAs::Entry
            }
            _ => self.seen_as(edit),
        }
    }

    /// The outline of an edit of this document.
    pub(crate) fn outline_of<'a>(&self, edit: &'a Edit) -> Outline<'a> {
        Outline::of(edit, self.seen_as(edit))
    }

    /// What an edit changes of the text in a run, by itself, or as the set of the value that holds its entry. None if
    /// that value is long and the next edit would end the run to read it anew: to do so for each of many takes longer
    /// than they take alone.
    pub(crate) fn change_in_run(
        &self,
        planner: &mut Planner,
        opened: &mut OpenValues,
        edit: &Edit,
        next: Option<&Edit>,
        seen: SeenAs,
    ) -> Option<RunEdit>
        requires planner { planner.old ≡ self.now }
        requires seen { IsSeenAs self.now edit.now seen }
        ensures made { IfSome result
            (λ made. MakesInRunHere self.now edit.now (outline edit.now seen) made.change made.line) }
        ensures planner { planner.new ≡ planner.old }
    {
        let SeenAs::Entry = seen else {
            return self.change_by_itself(planner, edit);
        };
        if self.leaves_long_reading(edit, next) {
            return None;
        }
        if let Some(change) = self.change_by_places(opened, edit) {
            return Some(RunEdit::other(change));
        }
        let change = self.as_ref().change_of_holder(self.alloc(), edit)?;
        Some(RunEdit::other(change))
    }

    /// What an edit that is seen as itself changes of the text in a run.
    pub(crate) fn change_by_itself(&self, planner: &mut Planner, edit: &Edit) -> Option<RunEdit>
        requires { planner.old ≡ self.now }
        ensures made { IfSome result (λ made. MakesItselfHere self.now edit.now made.change made.line) }
        ensures planner { planner.new ≡ planner.old }
    {
        if let Edit::Insert(path, value) = edit {
            let line = planner.line(self.alloc(), path, value)?;
            return Some(RunEdit {
                change: line.text_edit,
                line: Some(line.kind),
            });
        }
        let change = self.as_ref().change_by(self.alloc(), edit)?;
        Some(RunEdit::other(change))
    }

    /// What an edit of an entry changes of the text, as the set of the value that holds the entry, if the places of
    /// that value's entries tell it.
    fn change_by_places(&self, opened: &mut OpenValues, edit: &Edit) -> Option<TextEdit>
        ensures { IfSome result (λ change. MakesInRunHere self.now edit.now (outline edit.now Entry) change None) }
    {
        let path = path_of(edit)?;
        let span = self.holder_span(path)?;
        let was = self.text.get(span.start..span.end)?;
        let value = opened.after(self.alloc(), span.start, was, edit)?;
        self.set_of_holder(path, value, span)
    }

    /// Whether the next edit may have a long value read anew, if this one is made in a run: it removes an entry of the
    /// same value, in which there may be an array or an inline table.
    fn leaves_long_reading(&self, edit: &Edit, next: Option<&Edit>) -> bool {
        let (Edit::Insert(path, _) | Edit::Remove(path), Some(Edit::Remove(_))) = (edit, next)
        else {
            return false;
        };
        if !is_in_holder_of(edit, next) {
            return false;
        }
        let Some(span) = self.holder_span(path) else {
            return false;
        };
        let inside = self
            .text
            .as_bytes()
            .get(span.start.saturating_add(1)..span.end)
            .unwrap_or(&[]);
        self.is_long(inside.len())
            && (memchr(b'[', inside).is_some() || memchr(b'{', inside).is_some())
    }
}
