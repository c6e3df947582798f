//! Items that edits of a list insert into one array, one after the other, which are made at once.
ghost use Rattle.std.specs.Prelude.{◌≡◌, ◌+◌, ◌<◌, ◌≤◌, ℕ, All, IfSome, List, None, Some, false, length};
ghost use Rattle.std.specs.Bool.{Decides};
ghost use Rattle.keep_edit_runs.specs.Runs.{AddsItemHere, MakeChanges};
ghost use Rattle.keep_edit_plan.specs.TextEdits.{IsChangeIn};
ghost use Rattle.keep_edit_spec.specs.AddedItems.{item_path};
ghost use Rattle.keep_path.specs.Path.{Part};

use crate::alike::agree;
use crate::before::Before;
use crate::outline::{Steps, index_at};
use crate::runs::MOST_AT_ONCE;
use keep_edit_plan::{Edit, TextEdit, TextEdits};
use keep_rules::Path;

/// Whether a path is that of the item so many numbers after the one of another path, in the same array.
fn is_item_after(path: &Path, item: &Path, before: usize) -> bool
    ensures { (array : List Part) (n : ℕ) → item.now ≡ item_path array n
        → Decides result (path.now ≡ item_path array (n + before)) }
{
    let len = item.len();
    if len == 0 || path.len() != len {
        return false;
    }
    if !agree(&Steps::of(path), &Steps::of(item), len - 1) {
        return false;
    }
    let (Some(own), Some(number)) = (index_at(path, len - 1), index_at(item, len - 1)) else {
        return false;
    };
    own >= number && own - number == before
}

impl Before<'_> {
    /// What the edits from number `first` on add to the text, as far as they are inserts of the next items of one
    /// array. Where memory is refused, there are fewer.
    pub(crate) fn items_by(&self, edits: &[Edit], first: usize) -> TextEdits
        requires { first < length edits.now }
        ensures few { first + length result ≤ length edits.now }
        ensures made { MakeChanges edits.now first (first + length result) self.now result }
        ensures within { All (IsChangeIn self.now.text) result }
    {
        let mut items = TextEdits::new(self.alloc());
        let Edit::Insert(path, _) = &edits[first] else {
            return items;
        };
        let end = edits.len().min(first.saturating_add(MOST_AT_ONCE));
        for number in first..end {
            let Some(item) = self.item_by(&edits[number], path, number - first) else {
                return items;
            };
            if !items.add(item).unwrap_or(false) {
                return items;
            }
        }
        items
    }

    /// What an edit adds to the text, if it is the insert of the item so many numbers after the one of a path, which is
    /// the next of its array.
    fn item_by(&self, edit: &Edit, path: &Path, before: usize) -> Option<TextEdit>
        ensures { IfSome result (AddsItemHere self.now edit.now path.now before) }
    {
        let Edit::Insert(own, value) = edit else {
            return None;
        };
        if !is_item_after(own, path, before) {
            return None;
        }
        self.as_ref().added_item(self.alloc(), path, before, value)
    }
}
