//! Values that are set again by a later edit of those that are made at once.
ghost use Rattle.std.specs.Prelude.{◌<◌, IfSome, None, Some};
ghost use Rattle.keep_edit_runs.specs.Runs.{SetsAgainHere};
ghost use Rattle.keep_edit_runs.specs.ValueAfter.{MakesValue};

use crate::at_once::AtOnce;
use crate::before::Before;
use crate::holders::path_of;
use crate::opened::OpenValues;
use crate::outline::Steps;
use crate::value_after::value_after;
use keep_edit_plan::{Edit, TextEdit};
use keep_rules::ValueText;

impl Before<'_> {
    /// What an edit changes of the text, if it sets a value that these edits are known to set, or is of an entry of
    /// one: that comes in the place of what they change there.
    pub(crate) fn change_again(
        &self,
        so_far: &AtOnce,
        opened: &mut OpenValues,
        edit: &Edit,
    ) -> Option<TextEdit>
        ensures { IfSome result
            (SetsAgainHere self.now edit.now so_far.now.outlines.items so_far.now.changes) }
    {
        if let Some(change) = self.value_again(so_far, edit) {
            return Some(change);
        }
        self.entry_again(so_far, opened, edit)
    }

    /// The same of a set of such a value.
    fn value_again(&self, so_far: &AtOnce, edit: &Edit) -> Option<TextEdit>
        ensures { IfSome result
            (SetsAgainHere self.now edit.now so_far.now.outlines.items so_far.now.changes) }
    {
        let Edit::Set(path, _) = edit else {
            return None;
        };
        let id = self.index.find(path)?;
        let start = self.index.value_span(id, self.syntax)?.start;
        so_far.setting(&Steps::of(path), start)?;
        self.as_ref().change_by(self.alloc(), edit)
    }

    /// The same of an edit of an entry: the value that holds it is set to what the edit makes of the value that it was
    /// set to before.
    fn entry_again(&self, so_far: &AtOnce, opened: &mut OpenValues, edit: &Edit) -> Option<TextEdit>
        ensures { IfSome result
            (SetsAgainHere self.now edit.now so_far.now.outlines.items so_far.now.changes) }
    {
        let path = path_of(edit)?;
        let start = self.holder_span(path)?.start;
        let earlier = so_far.setting(&Steps::before_last(path), start)?;
        let value = self.value_made(opened, start, earlier.new.as_str(), edit)?;
        self.set_of_holder(path, value, earlier.place)
    }

    /// What an edit of an entry makes of the value with this text, which begins at this byte. None where only a reading
    /// tells it and the text is long, and where memory was refused.
    fn value_made(
        &self,
        opened: &mut OpenValues,
        start: usize,
        was: &str,
        edit: &Edit,
    ) -> Option<ValueText>
        ensures { IfSome result (λ value. MakesValue self.now.profile was.now edit.now value) }
    {
        let alloc = self.alloc();
        if let Some(value) = opened.after(alloc, start, was, edit) {
            return Some(value);
        }
        if self.is_long(was.len()) {
            return None;
        }
        let new = value_after(alloc, self.profile, was, edit)?;
        ValueText::read_in(alloc, new.as_str(), self.profile).ok()
    }
}
