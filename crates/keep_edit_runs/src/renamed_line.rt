//! A key that is renamed after an edit of those that are made at once has added its line.
ghost use Rattle.std.specs.Prelude.{◌≡◌, IfSome};
ghost use Rattle.keep_edit_runs.specs.Again.{RenamesLineHere};
ghost use Rattle.keep_path.specs.Path.{beside};

use crate::alike::is_new_path;
use crate::at_once::AtOnce;
use crate::before::Before;
use crate::outline::{Outline, Steps};
use keep_edit_plan::{Edit, Planner, TextEdit, first_steps};
use keep_rules::Path;
use std::alloc::Global;
use std::cell::OnceCell;

/// A path with another key in place of its last step, which is kept in the room for it. None where that is taken, and
/// where memory was refused.
fn path_beside<'a>(
    alloc: Global,
    path: &Path,
    name: &str,
    room: &'a OnceCell<Path>,
) -> Option<&'a Path>
    ensures { IfSome result (λ new. beside path.now name.now ≡ new.now) }
{
    let mut beside = first_steps(alloc, path, path.len().saturating_sub(1)).ok()?;
    beside.push_key(name).ok()?;
    room.set(beside).ok()?;
    let new = room.get()?;
    if !is_new_path(&Steps::of(new), &Steps::of(path), name) {
        return None;
    }
    Some(new)
}

impl Before<'_> {
    /// Room for the new paths of edits from number `first` on, up to number `end`, one for each edit: that of a rename
    /// is in no edit. There is none where none of them is a rename; where memory is refused, there is less.
    pub(crate) fn room_for_paths(
        &self,
        edits: &[Edit],
        first: usize,
        end: usize,
    ) -> Vec<OnceCell<Path>> {
        let mut room = Vec::new(self.alloc());
        let own = edits.get(first..end).unwrap_or(&[]);
        if !own.iter().any(|edit| matches!(edit, Edit::Rename(_, _))) {
            return room;
        }
        for _ in own {
            if room.push(OnceCell::new()).is_err() {
                return room;
            }
        }
        room
    }

    /// The line that these edits are known to add at a path, and the same with the key to which an edit renames that
    /// path's: both end a body, and no other key of them is new. With them what stands for the edit, and the number in
    /// the list of the one that gave the value. None where there is none or no room for the new path, and where memory
    /// was refused.
    ///
    /// Whether the first is what one of them adds is told by its change: no other edit makes the same.
    pub(crate) fn line_key_again<'a>(
        &self,
        so_far: &AtOnce,
        planner: &mut Planner,
        edits: &[Edit],
        edit: &'a Edit,
        room: Option<&'a OnceCell<Path>>,
    ) -> Option<(Outline<'a>, usize, TextEdit, TextEdit)>
        requires { planner.old ≡ self.now }
        ensures line { IfSome result (λ again. RenamesLineHere self.now edit.now again.0 again.2 again.3) }
        ensures planner { planner.new ≡ planner.old }
    {
        let Edit::Rename(path, name) = edit else {
            return None;
        };
        let (_, giving) = so_far.giving(&Steps::of(path))?;
        let (Edit::Insert(_, given) | Edit::Set(_, given)) = edits.get(giving)? else {
            return None;
        };
        if self.as_ref().reach(path).steps != path.len().saturating_sub(1) {
            return None;
        }
        let alloc = self.alloc();
        let new = path_beside(alloc, path, name.as_str(), room?)?;
        let steps = Steps::of(new);
        if steps.are_long() {
            return None;
        }
        let earlier = planner.added_line(alloc, path, given)?;
        let line = planner.added_line(alloc, new, given)?;
        Some((Outline::Insert(steps), giving, earlier, line))
    }
}
