//! Edits of one kind that are made at once.
ghost use Rattle.std.specs.Prelude.{◌+◌, ◌<◌, ◌≤◌, All, Some, length};
ghost use Rattle.keep_edit_runs.specs.Runs.{MakeChanges, outline};
ghost use Rattle.keep_edit_plan.specs.TextEdits.{IsChangeIn};

use crate::added_lines::AddedLines;
use crate::at_once::{AtOnce, Run};
use crate::before::Before;
use crate::opened::OpenValues;
use crate::outline::Outline;
use crate::runs::MOST_AT_ONCE;
use crate::seen::SeenKeys;
use keep_edit_plan::{Edit, Planner};

impl Before<'_> {
    /// What the edits from number `first` on change in the text, as far as all are of one kind and each makes its
    /// change beside those before it, or does again what one of them does. Where memory is refused, there are fewer.
    pub(crate) fn changes_by(&self, edits: &[Edit], first: usize) -> Run
        requires { first < length edits.now }
        ensures few { (first ≤ result.end) × (result.end ≤ length edits.now) }
        ensures made { MakeChanges edits.now first result.end self.now result.changes }
        ensures within { All (IsChangeIn self.now.text) result.changes }
    {
        let end = edits.len().min(first.saturating_add(MOST_AT_ONCE));
        let room = self.room_for_paths(edits, first, end);
        let mut so_far = AtOnce::new(self.alloc());
        let mut opened = OpenValues::new(self.alloc());
        let mut planner = Planner::new(self.alloc(), self.as_ref());
        let mut keys = SeenKeys::new(self.alloc(), self.outline_of(&edits[first]));
        let mut lines = AddedLines::new(self.alloc());
        let mut left = self.most_pairs();
        for number in first..end {
            let edit = &edits[number];
            if let Some(again) = self.again(
                &so_far,
                &mut opened,
                &mut planner,
                edits,
                edit,
                room.get(number - first),
            ) {
                if !keys.allow_again(self.newline, &again) {
                    return so_far.up_to(number);
                }
                if !so_far.put_again(self.newline, &lines, number, again) {
                    return so_far.up_to(number);
                }
                continue;
            }
            let seen = self.seen_as(edit);
            let outline = Outline::of(edit, seen);
            if !keys.keep_alone(&mut left, so_far.outlines.as_slice(), &outline) {
                return so_far.up_to(number);
            }
            let next = edits.get(number + 1);
            let Some(made) = self.change_in_run(&mut planner, &mut opened, edit, next, seen) else {
                return so_far.up_to(number);
            };
            if !self.add_in_order(&mut so_far, &mut lines, number, edit, outline, made, true) {
                return so_far.up_to(number);
            }
        }
        so_far.up_to(end)
    }
}
