//! A value that is set after an edit of those that are made at once has inserted it on a line of its own.
ghost use Rattle.std.specs.Prelude.{◌≡◌, IfSome};
ghost use Rattle.keep_edit_runs.specs.Again.{InsertsAgainHere};

use crate::at_once::AtOnce;
use crate::before::Before;
use crate::outline::Steps;
use keep_edit_plan::{Edit, Planner, TextEdit};

impl Before<'_> {
    /// The line that these edits are known to add at a path, and the line with the value that an edit sets there. With
    /// them the number that stands for the path. None where there is none, and where memory was refused.
    ///
    /// Whether the first is what one of them adds is told by its change: no other edit makes the same.
    pub(crate) fn line_again(
        &self,
        so_far: &AtOnce,
        planner: &mut Planner,
        edits: &[Edit],
        edit: &Edit,
    ) -> Option<(u64, TextEdit, TextEdit)>
        requires { planner.old ≡ self.now }
        ensures line { IfSome result (λ again. InsertsAgainHere self.now edit.now again.1 again.2) }
        ensures planner { planner.new ≡ planner.old }
    {
        let Edit::Set(path, value) = edit else {
            return None;
        };
        let (number, giving) = so_far.giving(&Steps::of(path))?;
        let (Edit::Insert(_, given) | Edit::Set(_, given)) = edits.get(giving)? else {
            return None;
        };
        let alloc = self.alloc();
        let earlier = planner.line(alloc, path, given)?;
        let line = planner.line(alloc, path, value)?;
        if earlier.kind != line.kind {
            return None;
        }
        Some((number, earlier.text_edit, line.text_edit))
    }
}
