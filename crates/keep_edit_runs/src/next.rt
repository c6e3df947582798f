//! How a list of edits goes on: some are made at once, or one by one.
ghost use Rattle.std.specs.Prelude.{◌<◌, ◌≤◌, All, IfSome, length};
ghost use Rattle.keep_edit_plan.specs.TextEdits.{IsChangeIn};
ghost use Rattle.keep_edit_runs.specs.Next.{GoesOnTo, end_of};
ghost use Rattle.keep_edit_runs.specs.Runs.{MakeChanges};

use crate::at_once::Run;
use crate::before::Before;
use keep_edit_plan::Edit;

/// How a list goes on from one of its edits.
#[derive(Drop)]
pub enum Next {
    /// These are made at once. If they change nothing, the document is as it was.
    AtOnce(Run),
    /// Those up to the one with this number are made one by one.
    OneByOne { end: usize },
}

impl Before<'_> {
    /// How a list goes on from the edit with number `first`, where those before it are made: by what takes less time.
    pub fn next(&self, edits: &[Edit], first: usize) -> Next
        requires { first < length edits.now }
        ensures further { (first < end_of result) × (end_of result ≤ length edits.now) }
        ensures made { GoesOnTo edits.now first self.now result }
    {
        if let Some(run) = self.undone_run(edits, first) {
            return Next::AtOnce(run);
        }
        if let Some(few) = self.too_few(&edits[first..]) {
            return Next::OneByOne { end: first + few };
        }
        let run = self.changes_at_once(edits, first);
        self.run_or_each(edits, first, run)
    }

    /// The same where no more is asked of the document after the list than its text. That text needs no reading, so the
    /// last edits are made at once wherever they can be.
    pub fn next_for_text(&self, edits: &[Edit], first: usize) -> Next
        requires { first < length edits.now }
        ensures further { (first < end_of result) × (end_of result ≤ length edits.now) }
        ensures made { GoesOnTo edits.now first self.now result }
    {
        if let Some(run) = self.undone_run(edits, first) {
            return Next::AtOnce(run);
        }
        if let Some(few) = self.too_few(&edits[first..]) {
            if first + few < edits.len() {
                return Next::OneByOne { end: first + few };
            }
        }
        let run = self.changes_at_once(edits, first);
        if run.end == edits.len() {
            return Next::AtOnce(run);
        }
        self.run_or_each(edits, first, run)
    }

    /// The edits of a run at once, if that takes less time than to make them one by one; else they are made so, or the
    /// first edit alone where it has none.
    fn run_or_each(&self, edits: &[Edit], first: usize, run: Run) -> Next
        requires few { (first < length edits.now) × (first ≤ run.end) × (run.end ≤ length edits.now) }
        requires made { MakeChanges edits.now first run.end self.now run.changes }
        requires within { All (IsChangeIn self.now.text) run.changes }
        ensures further { (first < end_of result) × (end_of result ≤ length edits.now) }
        ensures made { GoesOnTo edits.now first self.now result }
    {
        if run.end > first && self.is_worth_reading(&edits[first..run.end]) {
            return Next::AtOnce(run);
        }
        Next::OneByOne {
            end: run.end.max(first + 1),
        }
    }

    /// The first edits of a list, as far as they are made at once; None where it takes less time to make them one by
    /// one on a copy.
    pub fn first_run(&self, edits: &[Edit]) -> Option<Run>
        requires { 0 < length edits.now }
        ensures few { IfSome result (λ run. run.end ≤ length edits.now) }
        ensures made { IfSome result (λ run. MakeChanges edits.now 0 run.end self.now run.changes) }
        ensures within { IfSome result (λ run. All (IsChangeIn self.now.text) run.changes) }
    {
        if !self.is_worth_reading(edits) {
            return None;
        }
        let run = self.changes_at_once(edits, 0);
        if !self.is_worth_reading(&edits[..run.end]) {
            return None;
        }
        Some(run)
    }
}
