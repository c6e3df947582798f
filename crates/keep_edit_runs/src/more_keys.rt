//! Edits of several kinds that are made at once, among them inserts of further keys: they go into a table which the
//! dotted keys of an insert right before them make. Each makes its change behind those before it where it begins.
ghost use Rattle.std.specs.Prelude.{◌≡◌, ◌<◌, ◌≤◌, All, IfSome, IsTrue, Some, false, length, take};
ghost use Rattle.keep_edit_plan.specs.TextEdits.{IsChangeIn, IsOrdered};
ghost use Rattle.keep_edit_runs.specs.KindsRun.{AreSeen, IsAlone, IsRunOn, with_paths};
ghost use Rattle.keep_edit_runs.specs.MoreKeys.{AddsBehind, AddsInside, GoesOnWithKeys, IsAddedLast, IsKeyOf};
ghost use Rattle.keep_edit_runs.specs.MoreKeys.{IsKnownTable, IsMoreKey, IsPlainRun, LetsKeysIn, MakesTable};
ghost use Rattle.keep_edit_runs.specs.MoreKeys.{path_to_new};
ghost use Rattle.keep_edit_runs.specs.Runs.{MakeChanges};
ghost use Rattle.keep_edit_spec.specs.MoreKeys.{GoOnApart};

use crate::alike::is_same;
use crate::at_once::{Run, RunEdit};
use crate::before::Before;
use crate::kinds_run::KindsRun;
use crate::outline::{Outline, SeenAs, Steps};
use crate::runs::MOST_AT_ONCE;
use keep_edit_plan::Edit;
use keep_edit_spec::LineKind;
use keep_rules::{Path, Step};

/// A table that the dotted keys of an insert make.
#[derive(Clone, Copy)]
pub struct NewTable<'a> {
    /// The path of the insert, which goes on from the table.
    pub path: &'a Path,
    /// How many of its steps lead to the table.
    pub count: usize,
    /// The kind of the line that it adds, without a header.
    pub kind: LineKind,
}

/// Whether two paths that are the same in so many steps go on from there, each by another key.
fn go_on_apart(path: &Path, other: &Path, count: usize) -> bool
    ensures { IsTrue result → take count path.now ≡ take count other.now
        → GoOnApart (take count path.now) path.now other.now }
{
    match (path.step(count), other.step(count)) {
        (Some(Step::Key(own)), Some(Step::Key(next))) => own.as_str() != next.as_str(),
        _ => false,
    }
}

/// The table that the dotted keys of an insert make, which others see so, and which adds a line of that kind.
fn new_table<'a>(edit: &'a Edit, seen: SeenAs, line: Option<LineKind>) -> Option<NewTable<'a>>
    ensures { IfSome result (MakesTable edit.now seen line) }
{
    match (edit, seen, line) {
        (_, _, Some(LineKind::WithHeader)) => None,
        (Edit::Insert(path, _), SeenAs::FirstKey(count), Some(kind)) => {
            Some(NewTable { path, count, kind })
        }
        _ => None,
    }
}

/// Whether a line is of that kind, which has no header.
fn is_of_kind(line: Option<LineKind>, kind: LineKind) -> bool
    ensures { IsTrue result → line ≡ Some kind }
{
    matches!(
        (line, kind),
        (Some(LineKind::LastInBody), LineKind::LastInBody)
            | (Some(LineKind::OfDotted), LineKind::OfDotted)
    )
}

impl<'a> KindsRun<'a> {
    /// Whether an insert of a key of a table is known to be left alone by those before it, which let keys of the table
    /// in. By the paths that were seen it takes no comparing with each of those.
    fn lets_key(&mut self, table: NewTable, outline: &Outline) -> bool
        requires seen { AreSeen self.old × IsPlainRun self.old }
        requires lets { All (LetsKeysIn (path_to_new table)) self.old.so_far.outlines.items }
        requires key { IsKeyOf table outline.now }
        ensures alone { IsTrue result → IsAlone self.old outline.now }
        ensures rest { self.new ≡ with_paths self.old self.old.paths self.new.left }
    {
        let Outline::Insert(path) = outline else {
            return false;
        };
        self.paths.lack_key(path) || self.is_left_alone(outline)
    }
}

impl Before<'_> {
    /// What the edits from number `first` on change in the text, as far as they leave one another alone, of whatever
    /// kinds, and each makes its change behind those before it where it begins, or inserts a further key into a table
    /// that the one before it made so. Where memory is refused, there are fewer.
    pub(crate) fn changes_with_more_keys(&self, edits: &[Edit], first: usize) -> Run
        requires { first < length edits.now }
        ensures few { (first ≤ result.end) × (result.end ≤ length edits.now) }
        ensures made { MakeChanges edits.now first result.end self.now result.changes }
        ensures within { All (IsChangeIn self.now.text) result.changes }
    {
        let mut run = KindsRun::new(self.alloc(), self.as_ref(), self.most_pairs());
        let mut table = None;
        let end = edits.len().min(first.saturating_add(MOST_AT_ONCE));
        for number in first..end {
            if !self.goes_on_with_keys(&mut run, &mut table, edits, number) {
                return run.so_far.up_to(number);
            }
        }
        run.so_far.up_to(end)
    }

    /// Whether such edits go on with the one that has this number: its change is made with the others then. If it does
    /// not, they have not changed.
    fn goes_on_with_keys<'a>(
        &self,
        run: &mut KindsRun<'a>,
        table: &mut Option<NewTable<'a>>,
        edits: &'a [Edit],
        number: usize,
    ) -> bool
        requires few { number < length edits.now }
        requires run { IsRunOn self.now run.old × IsPlainRun run.old }
        requires table { IfSome table.old (IsKnownTable self.now run.old) }
        requires within { All (IsChangeIn self.now.text) run.old.so_far.changes }
        ensures done { IsTrue result
            → GoesOnWithKeys self.now run.old table.old edits.now number run.new table.new }
        ensures refused { result ≡ false → run.new.so_far.changes ≡ run.old.so_far.changes }
    {
        let edit = &edits[number];
        if let Some(own) = *table {
            if self.is_more_key(own, edit) {
                return self.add_more_key(run, own, number, edit);
            }
        }
        self.add_plainly(run, table, number, edit, edits.get(number + 1))
    }

    /// Whether an edit inserts a further key into a table that an insert's dotted keys make.
    fn is_more_key(&self, table: NewTable, edit: &Edit) -> bool
        ensures { IsTrue result → IsMoreKey self.now table.entry edit.now }
    {
        let Edit::Insert(path, _) = edit else {
            return false;
        };
        let SeenAs::FirstKey(count) = self.seen_as(edit) else {
            return false;
        };
        count == table.count
            && is_same(&Steps::first(table.path, count), &Steps::first(path, count))
            && go_on_apart(table.path, path, count)
    }

    /// Adds an insert of such a further key, which has this number in the list: its line comes right behind the others
    /// of the table, and so is known as one at the end of a body. Returns whether it was added; if not, no change was.
    fn add_more_key<'a>(
        &self,
        run: &mut KindsRun<'a>,
        table: NewTable,
        number: usize,
        edit: &'a Edit,
    ) -> bool
        requires run { IsRunOn self.now run.old × IsPlainRun run.old }
        requires more { IsMoreKey self.now table edit.now }
        requires lets { IsKnownTable self.now run.old table }
        ensures added { IsTrue result → AddsInside self.now run.old table.entry edit.now run.new }
        ensures lets { IsTrue result → IsKnownTable self.now run.new table.entry }
        ensures run { IsTrue result → IsRunOn self.now run.new × IsPlainRun run.new }
        ensures refused { result ≡ false → run.new.so_far.changes ≡ run.old.so_far.changes }
    {
        let Edit::Insert(path, _) = edit else {
            return false;
        };
        if table.count >= path.len() {
            return false;
        }
        let outline = Outline::Insert(Steps::first(path, table.count + 1));
        if !run.lets_key(table, &outline) {
            return false;
        }
        let Some(made) = self.change_by_itself(&mut run.planner, edit) else {
            return false;
        };
        if !is_of_kind(made.line, table.kind) {
            return false;
        }
        let last = RunEdit {
            change: made.change,
            line: Some(LineKind::LastInBody),
        };
        self.add_last(run, number, edit, outline, last)
    }

    /// Adds an edit, which has this number in the list, if the others leave it alone and it makes its own change behind
    /// theirs. Returns whether it was added; if not, no change was.
    fn add_plainly<'a>(
        &self,
        run: &mut KindsRun<'a>,
        table: &mut Option<NewTable<'a>>,
        number: usize,
        edit: &'a Edit,
        next: Option<&Edit>,
    ) -> bool
        requires run { IsRunOn self.now run.old × IsPlainRun run.old }
        requires within { All (IsChangeIn self.now.text) run.old.so_far.changes }
        ensures added { IsTrue result → AddsBehind self.now run.old edit.now run.new table.new }
        ensures table { IsTrue result → IfSome table.new (IsKnownTable self.now run.new) }
        ensures run { IsTrue result → IsRunOn self.now run.new × IsPlainRun run.new }
        ensures refused { result ≡ false → run.new.so_far.changes ≡ run.old.so_far.changes }
    {
        let seen = self.seen_among_kinds(edit);
        let outline = Outline::of(edit, seen);
        if !run.is_left_alone(&outline) {
            return false;
        }
        let Some(made) = self.change_in_run(&mut run.planner, &mut run.opened, edit, next, seen)
        else {
            return false;
        };
        if !self.keeps_place_in(run, &outline, made.change.place.start) {
            return false;
        }
        *table = new_table(edit, seen, made.line);
        self.add_last(run, number, edit, outline, made)
    }

    /// Adds an edit behind all others where its change begins. Returns whether it was added; if not, no change was.
    fn add_last<'a>(
        &self,
        run: &mut KindsRun<'a>,
        number: usize,
        edit: &Edit,
        outline: Outline<'a>,
        made: RunEdit,
    ) -> bool
        requires ordered { IsOrdered made.change }
        ensures added { IsTrue result
            → IsAddedLast self.now run.old outline.entry made.change made.line run.new }
        ensures refused { result ≡ false → run.new.so_far.changes ≡ run.old.so_far.changes }
    {
        if !run.paths.add(&outline).unwrap_or(false) {
            return false;
        }
        let (so_far, lines) = (&mut run.so_far, &mut run.lines);
        self.add_in_order(so_far, lines, number, edit, outline, made, false)
    }
}
