//! Inserts of a list whose line is taken away again by the very next edit: such a pair leaves the document as it is.
ghost use Rattle.std.specs.Prelude.{◌≡◌, ◌<◌, ◌≤◌, All, IfSome, IsTrue, [], length};
ghost use Rattle.keep_edit_plan.specs.TextEdits.{IsChangeIn};
ghost use Rattle.keep_edit_runs.specs.Runs.{MakeChanges};
ghost use Rattle.keep_edit_runs.specs.Undone.{IsUndoneHere};

use crate::alike::is_same;
use crate::at_once::Run;
use crate::before::Before;
use crate::outline::Steps;
use keep_edit_plan::{Edit, Planner, TextEdits};
use keep_edit_spec::LineKind;

impl Before<'_> {
    /// The edits from number `first` on that leave the document as it is, in pairs. None if the first two do not.
    pub(crate) fn undone_run(&self, edits: &[Edit], first: usize) -> Option<Run>
        requires { first < length edits.now }
        ensures few { IfSome result (λ run. (first < run.end) × (run.end ≤ length edits.now)) }
        ensures made { IfSome result (λ run. MakeChanges edits.now first run.end self.now run.changes) }
        ensures within { IfSome result (λ run. All (IsChangeIn self.now.text) run.changes) }
    {
        let end = self.after_undone(edits, first);
        if end == first {
            return None;
        }
        Some(Run {
            changes: TextEdits::new(self.alloc()),
            end,
        })
    }

    /// The number of the edit after those from number `first` on that leave the document as it is, in pairs: an insert
    /// that adds a line, and the remove of that line.
    fn after_undone(&self, edits: &[Edit], first: usize) -> usize
        requires { first ≤ length edits.now }
        ensures few { (first ≤ result) × (result ≤ length edits.now) }
        ensures made { MakeChanges edits.now first result self.now [] }
    {
        let mut planner = Planner::new(self.alloc(), self.as_ref());
        let mut end = first;
        while edits.len() - end >= 2 {
            if !self.is_undone(&mut planner, &edits[end], &edits[end + 1]) {
                return end;
            }
            end += 2;
        }
        end
    }

    /// Whether an insert adds a line that the next edit takes away. It is not told where memory was refused.
    fn is_undone(&self, planner: &mut Planner, edit: &Edit, next: &Edit) -> bool
        requires { planner.old ≡ self.now }
        ensures undone { IsTrue result → IsUndoneHere self.now edit.now next.now }
        ensures planner { planner.new ≡ planner.old }
    {
        let (Edit::Insert(path, value), Edit::Remove(gone)) = (edit, next) else {
            return false;
        };
        if !is_same(&Steps::of(gone), &Steps::of(path)) {
            return false;
        }
        match planner.line(self.alloc(), path, value) {
            Some(line) => line.kind != LineKind::WithHeader,
            None => false,
        }
    }
}
