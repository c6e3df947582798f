//! Tables and elements of arrays of tables that edits of a list remove with their headers, which are made at once.
ghost use Rattle.std.specs.Prelude.{◌+◌, ◌<◌, ◌≤◌, All, IfSome, None, Some, false, length, take};
ghost use Rattle.keep_syntax.specs.Tree as tree;
ghost use Rattle.keep_edit_plan.specs.Answers.{IsSpanOf};
ghost use Rattle.keep_edit_plan.specs.Reading.{IsTextOfTree, limit};
ghost use Rattle.keep_edit_runs.specs.Runs.{MakeChanges, RemovesHeaderHere};
ghost use Rattle.keep_edit_plan.specs.TextEdits.{IsChangeIn, change_of};
ghost use Rattle.keep_edit_spec.specs.RemovedHeaders.{RemovesHeader, first_path};

use crate::at_once::Run;
use crate::before::Before;
use crate::gone::GoneElements;
use crate::runs::MOST_AT_ONCE;
use keep_edit_plan::{Edit, TextEdit, TextEdits};
use keep_rules::Path;

impl Before<'_> {
    /// What the edits from number `first` on take from the text, as far as they are removes of tables and of elements
    /// of arrays of tables with their headers, with the number of the next.
    pub(crate) fn sections_run(&self, edits: &[Edit], first: usize) -> Run
        requires { first < length edits.now }
        ensures few { (first ≤ result.end) × (result.end ≤ length edits.now) }
        ensures made { MakeChanges edits.now first result.end self.now result.changes }
        ensures within { All (IsChangeIn self.now.text) result.changes }
    {
        let changes = self.sections_by(edits, first);
        Run {
            end: first + changes.len(),
            changes,
        }
    }

    /// What the edits from number `first` on take from the text, as far as they are removes of tables and of elements
    /// of arrays of tables with their headers, each beside those before it. Where memory is refused, there are fewer.
    fn sections_by(&self, edits: &[Edit], first: usize) -> TextEdits
        requires { first < length edits.now }
        ensures few { first + length result ≤ length edits.now }
        ensures made { MakeChanges edits.now first (first + length result) self.now result }
        ensures within { All (IsChangeIn self.now.text) result }
    {
        let mut sections = TextEdits::new(self.alloc());
        let mut gone = GoneElements::new(self.alloc());
        let end = edits.len().min(first.saturating_add(MOST_AT_ONCE));
        for number in first..end {
            let Some(section) = self.section_by(&mut gone, &edits[number]) else {
                return sections;
            };
            if !sections.add(section).unwrap_or(false) {
                return sections;
            }
        }
        sections
    }

    /// What an edit takes from the text after those elements went, if it is the remove of a table or an element with
    /// its header. Then that is gone too.
    pub(crate) fn section_by(&self, gone: &mut GoneElements, edit: &Edit) -> Option<TextEdit>
        ensures { IfSome result (RemovesHeaderHere self.now gone.old gone.new edit.now) }
    {
        let Edit::Remove(path) = edit else {
            return None;
        };
        let section = self.section_at(gone, path)?;
        if !gone.add(self.alloc(), path) {
            return None;
        }
        Some(section)
    }

    /// What the remove of a path takes from the text after those elements went, if a table or an element goes with its
    /// header.
    fn section_at(&self, gone: &GoneElements, path: &Path) -> Option<TextEdit>
        ensures removed { (s : tree.Document) → IsTextOfTree self.now s
            → IfSome result (λ made. RemovesHeader self.now.profile limit s (first_path gone.now path.now)
            (change_of made)) }
        ensures within { IfSome result (λ made. IsSpanOf self.now.text made.place) }
    {
        if gone.leave(path) {
            return self.as_ref().removed_section(self.alloc(), path);
        }
        let first = gone.first_path(self.alloc(), path)?;
        self.as_ref().removed_section(self.alloc(), &first)
    }
}
