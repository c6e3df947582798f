//! Edits of a list in a row that each make their change elsewhere, and leave one another alone, or do again what one of
//! them does: each is known by the document before all of them, so they are made at once.
ghost use Rattle.std.specs.Prelude.{◌+◌, ◌<◌, ◌≤◌, All, IfSome, None, Some, false, length};
ghost use Rattle.keep_edit_runs.specs.Runs.{MakeChanges};
ghost use Rattle.keep_edit_plan.specs.TextEdits.{IsChangeIn};

use crate::alike::is_same;
use crate::at_once::Run;
use crate::before::Before;
use crate::outline::Outline;
use keep_edit_plan::Edit;
use keep_rules::Origin;

/// No more edits than these are made at once.
pub(crate) const MOST_AT_ONCE: usize = 1000;

/// So many pairs of edits are compared in a run, and one more for each byte of the text: to compare more takes longer
/// than to read the text anew.
const PAIRS: usize = 5000;

/// So many edits of one kind, and one more for each hundred bytes of the text, are made at once, though more of several
/// kinds might be.
const MANY_OF_ONE_KIND: usize = 32;

/// Whether each of these edits is a remove.
fn are_removes(edits: &[Edit]) -> bool {
    edits.iter().all(|edit| matches!(edit, Edit::Remove(_)))
}

impl Before<'_> {
    /// What the edits from number `first` on change in the text, as far as they can be made at once: inserts of the
    /// next items of one array, or new tables and elements with keys in them, or edits of one kind, or of several where
    /// those are few or end at an element that is removed; or, if these end at a further key of a new table, edits of
    /// several kinds with such keys among them.
    pub(crate) fn changes_at_once(&self, edits: &[Edit], first: usize) -> Run
        requires { first < length edits.now }
        ensures few { (first ≤ result.end) × (result.end ≤ length edits.now) }
        ensures made { MakeChanges edits.now first result.end self.now result.changes }
        ensures within { All (IsChangeIn self.now.text) result.changes }
    {
        let run = self.changes_without_keys(edits, first);
        if !self.is_of_new_table(edits, run.end) {
            return run;
        }
        let with_keys = self.changes_with_more_keys(edits, first);
        if with_keys.end > run.end {
            with_keys
        } else {
            run
        }
    }

    /// The same without further keys of new tables.
    fn changes_without_keys(&self, edits: &[Edit], first: usize) -> Run
        requires { first < length edits.now }
        ensures few { (first ≤ result.end) × (result.end ≤ length edits.now) }
        ensures made { MakeChanges edits.now first result.end self.now result.changes }
        ensures within { All (IsChangeIn self.now.text) result.changes }
    {
        let items = self.items_by(edits, first);
        if items.len() > 1 {
            return Run {
                end: first + items.len(),
                changes: items,
            };
        }
        if let Some(filled) = self.filled_run(edits, first) {
            return filled;
        }
        let run = self.changes_by(edits, first);
        match self.others_by(edits, first, run.end) {
            Some(others) if others.end > run.end => others,
            _ => run,
        }
    }

    /// The same beyond the edit with number `end`, which ends those of one kind: as far as they are of several kinds,
    /// or remove tables and elements with their headers. None where neither is tried, as those of one kind are enough.
    fn others_by(&self, edits: &[Edit], first: usize, end: usize) -> Option<Run>
        requires few { (first < length edits.now) × (first ≤ end) × (end ≤ length edits.now) }
        ensures few { IfSome result (λ run. (first ≤ run.end) × (run.end ≤ length edits.now)) }
        ensures made { IfSome result (λ run. MakeChanges edits.now first run.end self.now run.changes) }
        ensures within { IfSome result (λ run. All (IsChangeIn self.now.text) run.changes) }
    {
        let next = edits.get(end);
        if end == first || self.removes_element(next) {
            return Some(self.changes_with_elements(edits, first));
        }
        if !self.is_other_kind(&edits[first], next) || self.are_enough(&edits[first..end]) {
            return None;
        }
        Some(self.changes_of_kinds(edits, first))
    }

    /// Whether edits of one kind are made at once without looking how far those of several kinds go. They are many, for
    /// the text: to look for more takes longer than to read it anew.
    fn are_enough(&self, edits: &[Edit]) -> bool {
        edits.len() >= MANY_OF_ONE_KIND + self.text.len() / 100 && self.is_worth_reading(edits)
    }

    /// What the edits from number `first` on change in the text, as far as they are of several kinds, or as far as they
    /// remove tables and elements with their headers, whichever is further. Where all of them are removes, the latter
    /// is tried first, and else the former; the other one is not where the first goes as far as a run may.
    fn changes_with_elements(&self, edits: &[Edit], first: usize) -> Run
        requires { first < length edits.now }
        ensures few { (first ≤ result.end) × (result.end ≤ length edits.now) }
        ensures made { MakeChanges edits.now first result.end self.now result.changes }
        ensures within { All (IsChangeIn self.now.text) result.changes }
    {
        let last = edits.len().min(first.saturating_add(MOST_AT_ONCE));
        if !are_removes(&edits[first..last]) {
            let kinds = self.changes_of_kinds(edits, first);
            if kinds.end == last {
                return kinds;
            }
            let sections = self.sections_run(edits, first);
            return if sections.end > kinds.end {
                sections
            } else {
                kinds
            };
        }
        let sections = self.sections_run(edits, first);
        if sections.end == first || sections.end == last {
            return sections;
        }
        let kinds = self.changes_of_kinds(edits, first);
        if kinds.end > sections.end {
            kinds
        } else {
            sections
        }
    }

    /// Whether the edit with that number inserts a further key into a table that the dotted keys of the insert before
    /// it make.
    fn is_of_new_table(&self, edits: &[Edit], number: usize) -> bool {
        let Some(before) = number.checked_sub(1) else {
            return false;
        };
        match (edits.get(before), edits.get(number)) {
            (Some(before), Some(edit)) => {
                match (self.outline_of(before), self.outline_of(edit)) {
                    (Outline::Insert(first), Outline::Insert(other)) => is_same(&first, &other),
                    _ => false,
                }
            }
            _ => false,
        }
    }

    /// How many pairs of edits may be compared in a run.
    pub(crate) fn most_pairs(&self) -> usize {
        PAIRS + self.text.len()
    }

    /// Whether the second edit is there and of another kind.
    fn is_other_kind(&self, edit: &Edit, other: Option<&Edit>) -> bool {
        match other {
            Some(other) => !self.outline_of(edit).is_like(&self.outline_of(other)),
            None => false,
        }
    }

    /// Whether an edit is there and removes an element of an array of tables.
    fn removes_element(&self, edit: Option<&Edit>) -> bool {
        let Some(Edit::Remove(path)) = edit else {
            return false;
        };
        matches!(self.origin_of(path), Some(Origin::Element(_)))
    }
}
