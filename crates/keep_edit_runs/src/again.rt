//! Edits of those that are made at once that do again what one before them did.
ghost use Rattle.std.specs.Prelude.{◌≡◌, ◌++◌, All, IfSome, IsTrue, false, true};
ghost use Rattle.keep_edit_plan.specs.TextEdits.{change_of};
ghost use Rattle.keep_edit_runs.specs.Again.{AllowAgain, IsAgainHere, IsPutAgain, LetsAgain, edit_of};
ghost use Rattle.keep_edit_runs.specs.Again.{outlines_of};
ghost use Rattle.keep_edit_runs.specs.Newlines.{LeavesBy};
ghost use Rattle.keep_edit_runs.specs.Seen.{IsSeen};
ghost use Rattle.keep_edit_runs.specs.SeenPaths as paths;
ghost use Rattle.keep_edit_runs.specs.declared.outline.Outline.{Outline};

use crate::added_lines::AddedLines;
use crate::at_once::AtOnce;
use crate::before::Before;
use crate::newline::Newline;
use crate::opened::OpenValues;
use crate::outline::Outline;
use crate::seen::SeenKeys;
use crate::seen_paths::SeenPaths;
use keep_edit_plan::{Edit, Planner, TextEdit};
use keep_rules::Path;
use std::cell::OnceCell;

/// What an edit does that an earlier one did, with its change of the text, which comes in the place of that one's.
#[derive(Drop)]
pub enum Again<'a> {
    /// It sets a value that an edit sets, or is of an entry of such a value.
    Value(TextEdit),
    /// It renames a key that an edit renames. What stands for it renames the first key to the last one.
    Key(Outline<'a>, TextEdit),
    /// It sets a value that an edit inserts, at the path for which a number stands: that edit's change, and its own,
    /// which inserts this value.
    Line(u64, TextEdit, TextEdit),
    /// It renames the key of a line that an edit adds. What stands for it inserts the line's value at the new path, and
    /// the edit with this number in the list gave that: that line's change, and its own, which adds this line.
    LineKey(Outline<'a>, usize, TextEdit, TextEdit),
}

impl Before<'_> {
    /// What an edit does again that these edits, some of a list, are known to do. If it renames the key of a line, the
    /// new path is kept in the room for it.
    pub(crate) fn again<'a>(
        &self,
        so_far: &AtOnce<'a>,
        opened: &mut OpenValues,
        planner: &mut Planner,
        edits: &[Edit],
        edit: &'a Edit,
        room: Option<&'a OnceCell<Path>>,
    ) -> Option<Again<'a>>
        requires { planner.old ≡ self.now }
        ensures again { IfSome result
            (IsAgainHere self.now edit.now so_far.now.outlines.items so_far.now.changes) }
        ensures planner { planner.new ≡ planner.old }
    {
        if let Some(change) = self.change_again(so_far, opened, edit) {
            return Some(Again::Value(change));
        }
        if let Some((outline, change)) = self.rename_again(so_far, edit) {
            return Some(Again::Key(outline, change));
        }
        if let Some((number, earlier, change)) = self.line_again(so_far, planner, edits, edit) {
            return Some(Again::Line(number, earlier, change));
        }
        let (outline, giving, earlier, change) = self.line_key_again(
            so_far, planner, edits, edit, room,
        )?;
        Some(Again::LineKey(outline, giving, earlier, change))
    }
}

impl<'a> AtOnce<'a> {
    /// Puts the change of an edit, which has this number in the list, in the place of an earlier one. Returns whether
    /// it did; if not, no change has come in the place of one. A line is put in the place of none where lines come
    /// behind headers, since one of these may be like that of an earlier edit.
    pub fn put_again(
        &mut self,
        newline: Newline,
        lines: &AddedLines,
        number: usize,
        again: Again<'a>,
    ) -> bool
        ensures lines { IsTrue result → LetsAgain lines.now again.entry }
        ensures changes { IsTrue result → IsPutAgain again.entry self.old.changes self.new.changes }
        ensures outlines { IsTrue result
            → self.new.outlines.items ≡ self.old.outlines.items ++ outlines_of again.entry }
        ensures newline { IsTrue result → self.new.leave_newline ≡ true
            → (self.old.leave_newline ≡ true) × LeavesBy newline (change_of (edit_of again.entry)) }
        ensures refused { result ≡ false → self.new.changes ≡ self.old.changes }
    {
        match again {
            Again::Value(change) => self.overwrite(newline, change),
            Again::Key(outline, change) => self.rename(newline, number, outline, change),
            Again::Line(path, earlier, change) => {
                lines.has_no_follower() && self.exchange(newline, number, path, &earlier, change)
            }
            Again::LineKey(outline, giving, earlier, change) => {
                lines.has_no_follower()
                    && self.rename_line(newline, giving, outline, &earlier, change)
            }
        }
    }
}

impl<'a> SeenKeys<'a> {
    /// Whether each edit whose paths were added is known to allow what is done again. Then those of what stands for it
    /// are added, too.
    pub fn allow_again(&mut self, newline: Newline, again: &Again) -> bool
        ensures allowed { IsTrue result → AllowAgain (LeavesBy newline) (IsSeen self.old) again.now }
        ensures seen { IsTrue result → All (IsSeen self.new) (outlines_of again.now) }
        ensures others { (other : Outline) → IsSeen self.old other → IsSeen self.new other }
    {
        match again {
            Again::Value(_) => true,
            Again::Key(outline, _) => self.allow(outline) && self.add(outline).unwrap_or(false),
            Again::Line(_, _, change) => self.is_of_inserts() || newline.is_left_by(change),
            Again::LineKey(outline, _, _, change) => {
                (self.is_of_inserts() || newline.is_left_by(change))
                    && self.leaves_alone(outline)
                    && self.add(outline).unwrap_or(false)
            }
        }
    }
}

impl<'a> SeenPaths<'a> {
    /// The same.
    pub fn allow_again(&mut self, newline: Newline, again: &Again<'a>) -> bool
        ensures allowed { IsTrue result → AllowAgain (LeavesBy newline) (paths.IsSeen self.old) again.now }
        ensures seen { IsTrue result → All (paths.IsSeen self.new) (outlines_of again.now) }
        ensures others { (other : Outline) → paths.IsSeen self.old other → paths.IsSeen self.new other }
    {
        match again {
            Again::Value(_) => true,
            Again::Key(outline, _) => self.allow(outline) && self.add(outline).unwrap_or(false),
            Again::Line(_, _, change) => newline.is_left_by(change),
            Again::LineKey(outline, _, _, change) => {
                newline.is_left_by(change)
                    && self.leave_alone(outline)
                    && self.add(outline).unwrap_or(false)
            }
        }
    }
}
