//! What an edit changes of a text, where that is known of it after others that leave it alone.
ghost use Rattle.std.specs.Prelude.{IfSome};
ghost use Rattle.keep_syntax.specs.Tree as tree;
ghost use Rattle.keep_edit_spec.specs.Edits.{remove};
ghost use Rattle.keep_edit_spec.specs.Runs.{MakesChange};
ghost use Rattle.keep_edit_plan.specs.Answers.{IsSpanOf};
ghost use Rattle.keep_edit_plan.specs.Reading.{IsTextOfTree, limit};
ghost use Rattle.keep_edit_plan.specs.TextEdits.{IsPlannedHere, MakesChangeHere, change_of};

use crate::append::ends_in_newline;
use crate::document::DocumentRef;
use crate::edit::Edit;
use crate::text_edit::TextEdit;
use keep_rules::Path;
use std::alloc::Global;

impl<'a> DocumentRef<'a> {
    /// What an edit changes of the text, if it makes the same change after other such edits that leave it alone: a
    /// remove that takes a line, leaves it with its comment, or takes a table with its header, a set, a rename, and a
    /// header after a newline. None for any other edit, where it is refused, and where memory was refused. (`Planner`
    /// knows the lines of inserts.)
    pub fn change_by(&self, alloc: Global, edit: &Edit) -> Option<TextEdit>
        ensures { IfSome result (MakesChangeHere self.now edit.now) }
    {
        match edit {
            Edit::Insert(_, _) => None,
            Edit::Remove(path) => self.removal(alloc, path),
            Edit::Set(_, _) | Edit::Rename(_, _) => self.planned(alloc, edit),
            Edit::Table(_) | Edit::Element(_) => {
                if !ends_in_newline(self.text) {
                    return None;
                }
                self.planned(alloc, edit)
            }
        }
    }

    /// What a remove changes of its line, or the table that it takes with its header.
    fn removal(&self, alloc: Global, path: &Path) -> Option<TextEdit>
        ensures removed { (s : tree.Document) → IsTextOfTree self.now s
            → IfSome result (λ made. MakesChange self.now.profile limit s (remove path.now) (change_of made)) }
        ensures within { IfSome result (λ made. IsSpanOf self.now.text made.place) }
    {
        if let Some(line) = self.line_removal(alloc, path) {
            return Some(line);
        }
        self.removed_table(alloc, path)
    }

    /// What the plan of an edit writes; None where it is refused, and where memory was refused.
    pub(crate) fn planned(&self, alloc: Global, edit: &Edit) -> Option<TextEdit>
        ensures { IfSome result (IsPlannedHere self.now edit.now) }
    {
        let plan = self.plan(alloc, edit).ok()?;
        Some(plan.text_edit)
    }
}
