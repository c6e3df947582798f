//! A key that is renamed again by a later edit of those that are made at once.
ghost use Rattle.std.specs.Prelude.{◌≡◌, IfSome, IsTrue, string_bytes};
ghost use Rattle.keep_token.specs.Encoded.{encoded_key};
ghost use Rattle.keep_edit_runs.specs.Runs.{RenamesAgainHere};

use crate::at_once::AtOnce;
use crate::before::Before;
use crate::outline::{Outline, Steps};
use keep_edit_plan::{Edit, TextEdit};
use keep_token::encode_key;
use std::alloc::Global;

/// Whether a text is a key as it is written. It is not told where memory was refused.
fn is_written(alloc: Global, text: &str, key: &str) -> bool
    ensures { IsTrue result → text.now ≡ encoded_key key.now }
{
    match encode_key(alloc, key) {
        Ok(written) => written.as_str() == text,
        Err(_) => false,
    }
}

impl Before<'_> {
    /// What an edit does, and what it changes of the text, if it renames a key again that these edits are known to
    /// rename: the first key is renamed, and that comes in the place of what they change there.
    pub(crate) fn rename_again<'a>(
        &self,
        so_far: &AtOnce<'a>,
        edit: &'a Edit,
    ) -> Option<(Outline<'a>, TextEdit)>
        ensures { IfSome result (λ again. RenamesAgainHere self.now edit.now so_far.now.outlines.items
            so_far.now.changes again.0 again.1) }
    {
        let Edit::Rename(path, key) = edit else {
            return None;
        };
        let (first, name) = so_far.renaming(&Steps::of(path))?;
        if name == key.as_str() {
            return None;
        }
        let alloc = self.alloc();
        let own = String::from_str(alloc, key.as_str()).ok()?;
        let whole = first.to_path(alloc)?;
        let change = self.as_ref().change_by(alloc, &Edit::Rename(whole, own))?;
        let earlier = so_far.changes.beginning_at(change.place.start)?;
        if earlier.place != change.place || !is_written(alloc, earlier.new.as_str(), name) {
            return None;
        }
        Some((Outline::Rename(first, key.as_str()), change))
    }
}
