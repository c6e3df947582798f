//! Edits of several kinds that are made at once, and elements of arrays of tables that go among them.
ghost use Rattle.std.specs.Prelude.{◌≡◌, ◌+◌, ◌<◌, ◌≤◌, [], All, IfSome, IsTrue, None, Some, false, length, true};
ghost use Rattle.keep_edit_runs.specs.GoneBetween.{AreElsewhere};
ghost use Rattle.keep_edit_runs.specs.KindsRun.{AddsAny, AreSeen, FindsElement, GoesOn, IsAddedBefore, IsInsertedBelow};
ghost use Rattle.keep_edit_runs.specs.KindsRun.{IsAddedInPlace, IsPlacedAmong, IsRunOn, IsTextBelow, IsUnchanged};
ghost use Rattle.keep_edit_runs.specs.KindsRun.{TakesOne, with_paths};
ghost use Rattle.keep_edit_runs.specs.Newlines.{LeavesHere};
ghost use Rattle.keep_edit_runs.specs.Runs.{IsSeenAs, MakeChanges, outline};
ghost use Rattle.keep_edit_plan.specs.TextEdits.{IsChangeIn, IsFreed, IsOrdered};

use crate::at_once::{Run, RunEdit};
use crate::before::Before;
use crate::gone::array_of;
use crate::kinds_run::KindsRun;
use crate::outline::{Outline, SeenAs};
use crate::runs::MOST_AT_ONCE;
use crate::tail::Tail;
use keep_edit_plan::{Edit, TextEdit};
use keep_edit_spec::LineKind;
use keep_rules::Path;
use std::cell::OnceCell;

/// To copy so many bytes counts as to compare one pair of edits.
const BYTES_A_PAIR: usize = 64;

/// Whether an edit that is seen so removes an element of an array of tables, if its path is there.
fn is_of_element(edit: &Edit, seen: SeenAs) -> bool {
    match (edit, seen) {
        (Edit::Remove(path), SeenAs::Itself) => array_of(path).is_some(),
        _ => false,
    }
}

impl Before<'_> {
    /// What the edits from number `first` on change in the text, as far as they leave one another alone, of whatever
    /// kinds, and each makes its change beside those before it, or does again what one of them does; or appends a
    /// header, or comes below one; or removes an element of an array of tables, and all others are elsewhere than in
    /// the array. Where memory is refused, there are fewer.
    pub(crate) fn changes_of_kinds(&self, edits: &[Edit], first: usize) -> Run
        requires { first < length edits.now }
        ensures few { (first ≤ result.end) × (result.end ≤ length edits.now) }
        ensures made { MakeChanges edits.now first result.end self.now result.changes }
        ensures within { All (IsChangeIn self.now.text) result.changes }
    {
        let end = edits.len().min(first.saturating_add(MOST_AT_ONCE));
        let room = self.room_for_paths(edits, first, end);
        let mut run = KindsRun::new(self.alloc(), self.as_ref(), self.most_pairs());
        let len = self.text.len();
        for number in first..end {
            if !self.goes_on(&mut run, edits, number, room.get(number - first)) {
                return run.up_to(self.alloc(), first, number, len);
            }
        }
        run.up_to(self.alloc(), first, end, len)
    }

    /// Whether a run goes on with the edit that has this number: its change is made with the others then. If it does
    /// not, they have not changed. It does not with a header below which a key comes next: from that on, new tables and
    /// elements with their keys are made at once, and no run of another kind could go on past that key.
    fn goes_on<'a>(
        &self,
        run: &mut KindsRun<'a>,
        edits: &'a [Edit],
        number: usize,
        room: Option<&'a OnceCell<Path>>,
    ) -> bool
        requires few { number < length edits.now }
        requires run { IsRunOn self.now run.old }
        requires elsewhere { AreElsewhere run.old.gone.arrays.items run.old.so_far.outlines.items }
        requires within { All (IsChangeIn self.now.text) run.old.so_far.changes }
        ensures done { IsTrue result → GoesOn self.now run.old edits.now number run.new }
        ensures run { IsTrue result → IsRunOn self.now run.new }
        ensures refused { result ≡ false → IsUnchanged run.old run.new }
    {
        let edit = &edits[number];
        if self.is_filled_next(edit, edits.get(number + 1)) {
            return false;
        }
        let seen = self.seen_among_kinds(edit);
        if is_of_element(edit, seen) {
            return self.take_element(run, edit);
        }
        if run.gone.is_empty() {
            let again = self.again(
                &run.so_far,
                &mut run.opened,
                &mut run.planner,
                edits,
                edit,
                room,
            );
            if let Some(again) = again {
                return run.put_again(self.newline, number, again);
            }
        }
        self.add_to(run, number, edit, edits.get(number + 1), seen)
    }

    /// Adds an edit, which has this number in the list, to a run, if the others leave it alone and it makes its own
    /// change beside theirs. Returns whether it was added; if not, no change was added.
    fn add_to<'a>(
        &self,
        run: &mut KindsRun<'a>,
        number: usize,
        edit: &'a Edit,
        next: Option<&Edit>,
        seen: SeenAs,
    ) -> bool
        requires seen { IsSeenAs self.now edit.now seen }
        requires run { IsRunOn self.now run.old }
        requires within { All (IsChangeIn self.now.text) run.old.so_far.changes }
        ensures added { IsTrue result → AddsAny self.now run.old edit.now run.new }
        ensures run { IsTrue result → IsRunOn self.now run.new }
        ensures refused { result ≡ false → IsUnchanged run.old run.new }
    {
        let outline = Outline::of(edit, seen);
        if !run.is_left_alone(&outline) {
            return false;
        }
        let Some(made) = self.change_in_run(&mut run.planner, &mut run.opened, edit, next, seen)
        else {
            return false;
        };
        if !self.keeps_place_in(run, &outline, made.change.place.start) {
            return self.add_in_place(run, number, outline, made);
        }
        if let Some(keys) = outline.header_keys() {
            return run.append(self.newline, outline, keys, made.change);
        }
        if run.comes_below(&outline, &made) {
            return self.put_below(run, edit, outline, made);
        }
        self.add_before(run, number, edit, outline, made)
    }

    /// Adds an edit in order with the others and their lines, before what comes at the end of the text. Returns whether
    /// it was added; if not, no change was.
    fn add_before<'a>(
        &self,
        run: &mut KindsRun<'a>,
        number: usize,
        edit: &Edit,
        outline: Outline<'a>,
        made: RunEdit,
    ) -> bool
        requires ordered { IsOrdered made.change }
        ensures added { IsTrue result
            → IsAddedBefore self.now run.old edit.now outline.entry made.change made.line run.new }
        ensures refused { result ≡ false → IsUnchanged run.old run.new }
    {
        if !run.lets_change(self.newline, &outline, &made.change, self.text.len())
            || !run.paths.add(&outline).unwrap_or(false)
        {
            return false;
        }
        let is_none_gone = run.gone.is_empty();
        let (so_far, lines) = (&mut run.so_far, &mut run.lines);
        self.add_in_order(so_far, lines, number, edit, outline, made, is_none_gone)
    }

    /// Adds a line at the end of a body behind all others where it begins, in the place of what one of the edits takes
    /// up to there, if that is behind a line that says something, and no element went. Returns whether it was added; if
    /// not, no change was.
    fn add_in_place<'a>(
        &self,
        run: &mut KindsRun<'a>,
        number: usize,
        outline: Outline<'a>,
        made: RunEdit,
    ) -> bool
        requires ordered { IsOrdered made.change }
        requires run { IsRunOn self.now run.old }
        requires within { All (IsChangeIn self.now.text) run.old.so_far.changes }
        ensures added { IsTrue result
            → IsAddedInPlace self.now run.old outline.entry made.change made.line run.new }
        ensures refused { result ≡ false → IsUnchanged run.old run.new }
    {
        let (Outline::Insert(_), Some(LineKind::LastInBody)) = (&outline, made.line) else {
            return false;
        };
        let at = made.change.place.start;
        if !self.newline.is_left_by(&made.change) || !self.frees_place_in(run, at) {
            return false;
        }
        if at == self.text.len() && run.lines.has_appended() {
            return false;
        }
        if !run.lets_change(self.newline, &outline, &made.change, self.text.len())
            || !run.paths.add(&outline).unwrap_or(false)
        {
            return false;
        }
        run.lines.keep_line(&run.so_far, &outline, &made)
            && run.so_far.add(self.newline, number, outline, made.change)
    }

    /// Whether one of the edits of a run frees a place for a new line, where no element went, and all leave the first
    /// newline. The text before the place is copied for that, which counts as comparing pairs.
    fn frees_place_in(&self, run: &mut KindsRun, at: usize) -> bool
        requires run { IsRunOn self.now run.old }
        requires within { All (IsChangeIn self.now.text) run.old.so_far.changes }
        ensures newline { IsTrue result → All (LeavesHere self.now) run.old.so_far.changes }
        ensures freed { IsTrue result → IsFreed self.now.text run.old.so_far.changes at }
        ensures none { IsTrue result → run.old.gone.arrays.items ≡ [] }
        ensures rest { run.new ≡ with_paths run.old run.old.paths run.new.left }
    {
        if !run.gone.is_empty() || !run.so_far.leave_newline {
            return false;
        }
        let Some(left) = run.left.checked_sub(at / BYTES_A_PAIR) else {
            return false;
        };
        run.left = left;
        run.so_far.changes.free_place(self.alloc(), self.text, at)
    }

    /// Adds an insert that would bring the header of its table below an appended header: its line alone where others
    /// into the table came, or else with its table's header below the last that goes through the table. Returns whether
    /// it was added; if not, what comes at the end of the text is the same.
    fn put_below<'a>(
        &self,
        run: &mut KindsRun<'a>,
        edit: &Edit,
        outline: Outline<'a>,
        made: RunEdit,
    ) -> bool
        requires ordered { IsOrdered made.change }
        requires seen { AreSeen run.old }
        ensures put { IsTrue result
            → IsInsertedBelow self.now run.old edit.now outline.entry made.change made.line run.new }
        ensures refused { result ≡ false → IsUnchanged run.old run.new }
    {
        let Some(table) = outline.new_table() else {
            return false;
        };
        let Some(block) = run.tail.block_for(&table) else {
            return false;
        };
        let Some(text) = self.text_below(&run.tail, block, edit, &made) else {
            return false;
        };
        let at = made.change.place.start;
        if run.so_far.changes.take_up_to(at) || !run.so_far.changes.leave(&made.change) {
            return false;
        }
        run.lines.keep_below(at, &table) && run.tail.put_below(block, outline, table, text.as_str())
    }

    /// What an insert that would bring the header of its table writes below the header with this number. None where it
    /// is not known to leave the first newline, or brings no header, and where memory was refused.
    fn text_below(&self, tail: &Tail, block: usize, edit: &Edit, made: &RunEdit) -> Option<String>
        ensures { IfSome result (λ text. IsTextBelow self.now tail.now.blocks.items block edit.now made.now text) }
    {
        let Some(LineKind::WithHeader) = made.line else {
            return None;
        };
        if !self.newline.is_left_at_end(made.change.new.as_str()) {
            return None;
        }
        if !tail.has_lines_below(block) {
            return String::from_str(self.alloc(), made.change.new.as_str()).ok();
        }
        let line = self.line_alone(edit)?;
        if !self.newline.is_left_at_end(line.new.as_str()) {
            return None;
        }
        Some(line.new)
    }

    /// Whether an edit writes no line and no header, or the one that it writes at a byte can come there after a run's
    /// changes as before them: these leave the first newline. A header can if none of them takes the byte before it. So
    /// can a line, or it comes in the place of one that is taken.
    pub(crate) fn keeps_place_in(&self, run: &KindsRun, outline: &Outline, at: usize) -> bool
        requires run { IsRunOn self.now run.now }
        requires within { All (IsChangeIn self.now.text) run.now.so_far.changes }
        ensures { IsTrue result → IsPlacedAmong self.now run.now.so_far.changes outline.now at }
    {
        if !outline.writes_anew() {
            return true;
        }
        let changes = &run.so_far.changes;
        run.so_far.leave_newline
            && match outline {
                Outline::Insert(_) => changes.allows_line_at(self.text, at),
                _ => !changes.take_up_to(at),
            }
    }

    /// Adds what an edit takes from the text after those of a run, if it is the remove of an element, and the edits are
    /// elsewhere than in its array. Then that is gone too. Returns whether it is; if not, no change was added.
    fn take_element<'a>(&self, run: &mut KindsRun<'a>, edit: &'a Edit) -> bool
        requires run { IsRunOn self.now run.old }
        requires elsewhere { AreElsewhere run.old.gone.arrays.items run.old.so_far.outlines.items }
        ensures taken { IsTrue result → TakesOne self.now run.old edit.now run.new }
        ensures run { IsTrue result → IsRunOn self.now run.new }
        ensures refused { result ≡ false → IsUnchanged run.old run.new }
    {
        let Some(change) = self.element_by(run, edit) else {
            return false;
        };
        run.so_far.add_change(self.newline, change)
    }

    /// What an edit takes from the text after those of a run, if it is the remove of an element, and the edits are
    /// elsewhere than in its array. Then that is gone too.
    fn element_by<'a>(&self, run: &mut KindsRun<'a>, edit: &'a Edit) -> Option<TextEdit>
        requires seen { AreSeen run.old }
        requires elsewhere { AreElsewhere run.old.gone.arrays.items run.old.so_far.outlines.items }
        ensures found { IfSome result (λ change. FindsElement self.now run.old edit.now change run.new) }
        ensures edits { run.new.so_far ≡ run.old.so_far }
        ensures tail { run.new.tail ≡ run.old.tail }
    {
        let Edit::Remove(path) = edit else {
            return None;
        };
        if !run.keep_array(array_of(path)?) {
            return None;
        }
        let change = self.section_by(&mut run.gone.elements, edit)?;
        if !run.lets_section(self.newline, &change, self.text.len()) {
            return None;
        }
        Some(change)
    }
}
