//! Edits of a list that append tables or elements and insert keys into the last of these, which are made at once: all
//! is written at the end of the text.
ghost use Rattle.std.specs.Prelude.{◌≡◌, ◌<◌, ◌≤◌, All, IfSome, IsTrue, false, length};
ghost use Rattle.keep_edit_plan.specs.TextEdits.{IsChangeIn};
ghost use Rattle.keep_edit_runs.specs.FilledTables.{FillsHere};
ghost use Rattle.keep_edit_runs.specs.Runs.{MakeChanges};

use crate::at_once::Run;
use crate::before::Before;
use crate::filled_tables::{FilledTables, is_key_below};
use crate::runs::MOST_AT_ONCE;
use keep_edit_plan::Edit;

/// The number of the first edit from number `first` on that appends no header, if one before it does and it inserts a
/// key into the last table, or into an element of the last array of tables. It looks at no more edits than are made at
/// once.
pub fn key_after_headers(edits: &[Edit], first: usize) -> Option<usize> {
    for number in first..edits.len().min(first.saturating_add(MOST_AT_ONCE)) {
        match &edits[number] {
            Edit::Table(_) | Edit::Element(_) => {}
            edit if number > first && is_key_below(edit, &edits[number - 1]) => return Some(number),
            _ => return None,
        }
    }
    None
}

impl Before<'_> {
    /// What the edits from number `first` on write at the end of the text, as far as they append tables that are new
    /// there, or elements, and insert keys into the last of these. None where they don't begin with headers and a key
    /// of the last one, or don't get to that key.
    pub(crate) fn filled_run(&self, edits: &[Edit], first: usize) -> Option<Run>
        requires { first < length edits.now }
        ensures few { IfSome result (λ run. (first ≤ run.end) × (run.end ≤ length edits.now)) }
        ensures made { IfSome result (λ run. MakeChanges edits.now first run.end self.now run.changes) }
        ensures within { IfSome result (λ run. All (IsChangeIn self.now.text) run.changes) }
    {
        let key = key_after_headers(edits, first)?;
        let run = self.filled_by(edits, first);
        if run.end > key { Some(run) } else { None }
    }

    /// What the edits from number `first` on write at the end of the text, as far as they append tables that are new
    /// there, or elements, and insert keys into the last of these. Where memory is refused, there are fewer.
    fn filled_by(&self, edits: &[Edit], first: usize) -> Run
        requires { first < length edits.now }
        ensures few { (first ≤ result.end) × (result.end ≤ length edits.now) }
        ensures made { MakeChanges edits.now first result.end self.now result.changes }
        ensures within { All (IsChangeIn self.now.text) result.changes }
    {
        let mut tables = FilledTables::new(self.alloc());
        let end = edits.len().min(first.saturating_add(MOST_AT_ONCE));
        for number in first..end {
            if !self.fills(&mut tables, &edits[number]) {
                return tables.up_to(number);
            }
        }
        tables.up_to(end)
    }

    /// Adds what an edit writes at the end of the text, if it appends a table that is new there after those before it,
    /// or an element, or inserts a new key into the last of these. Returns whether it was added; if not, no change was
    /// added.
    fn fills<'a>(&self, tables: &mut FilledTables<'a>, edit: &'a Edit) -> bool
        ensures filled { IsTrue result → FillsHere self.now tables.old edit.now tables.new }
        ensures refused { result ≡ false → tables.new.changes ≡ tables.old.changes }
    {
        match edit {
            Edit::Table(keys) => {
                let Some(header) = self.as_ref().new_table(self.alloc(), keys.as_slice()) else {
                    return false;
                };
                tables.add_table(keys.as_slice(), header)
            }
            Edit::Element(keys) => {
                let Some(element) = self.as_ref().new_element(self.alloc(), keys.as_slice()) else {
                    return false;
                };
                tables.add_element(keys.as_slice(), element)
            }
            Edit::Insert(path, value) => {
                let Some(line) = self.as_ref().key_line(self.alloc(), path, value) else {
                    return false;
                };
                tables.add_key(path, line)
            }
            _ => false,
        }
    }

    /// Whether an edit appends a table or an element into which the next one inserts a key: not into an element that is
    /// there already.
    pub(crate) fn is_filled_next(&self, edit: &Edit, next: Option<&Edit>) -> bool {
        match next {
            Some(next @ Edit::Insert(path, _)) => {
                is_key_below(next, edit)
                    && self.as_ref().reach(path).steps.saturating_add(1) < path.len()
            }
            _ => false,
        }
    }
}
