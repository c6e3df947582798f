//! The values that hold entries: an edit of an entry is made as the set of the value that holds it.
ghost use Rattle.std.specs.Prelude.{◌≡◌, ◌+◌, ◌++◌, ◌∷◌, ◌<◌, [], IfSome, None, Some, length};
ghost use Rattle.keep_edit_runs.specs.Runs.{SetsHolderHere};
ghost use Rattle.keep_edit_runs.specs.ValueAfter.{HasPath};
ghost use Rattle.keep_path.specs.Path.{Part};

use crate::before::Before;
use keep_edit_plan::{Edit, TextEdit, first_steps};
use keep_rules::{Path, ValueText};
use keep_syntax::Span;
use std::alloc::Global;

/// A value of no more bytes is read anew for an edit of an entry of it where the entries' places don't tell what it
/// makes, whatever the length of the text.
const SHORT_VALUE: usize = 1000;

/// Among edits of several kinds a set or a rename of an entry of a value of no more bytes is made as the set of that
/// value, so that its entries may come and go, too. By itself it would take less.
const SHORT_HOLDER: usize = 200;

/// The path of an edit; None where it has keys.
pub(crate) fn path_of(edit: &Edit) -> Option<&Path>
    ensures { IfSome result (λ path. HasPath edit.now path.now) }
{
    match edit {
        Edit::Insert(path, _) | Edit::Remove(path) | Edit::Set(path, _) | Edit::Rename(path, _) => {
            Some(path)
        }
        Edit::Table(_) | Edit::Element(_) => None,
    }
}

/// The path from which the last step of a path leads; None where it has no step, and where memory was refused.
fn holder_path(alloc: Global, path: &Path) -> Option<Path>
    ensures { IfSome result (λ holder. (part : Part) × (path.now ≡ holder ++ part ∷ [])) }
{
    let len = path.len();
    if len == 0 {
        return None;
    }
    first_steps(alloc, path, len - 1).ok()
}

impl Before<'_> {
    /// The set of the value from which the last step of a path leads, if that replaces this place of the text. None
    /// where it is not there, and where memory was refused.
    pub(crate) fn set_of_holder(
        &self,
        path: &Path,
        value: ValueText,
        place: Span,
    ) -> Option<TextEdit>
        ensures made { IfSome result (SetsHolderHere self.now path.now value) }
        ensures place { IfSome result (λ change. change.place ≡ place) }
    {
        let alloc = self.alloc();
        let holder = holder_path(alloc, path)?;
        let change = self.as_ref().change_by(alloc, &Edit::Set(holder, value))?;
        if change.place != place {
            return None;
        }
        Some(change)
    }

    /// Where the value is from which the last step of a path leads; None where there is none.
    pub(crate) fn holder_span(&self, path: &Path) -> Option<Span> {
        let id = self.index.find_first(path, path.len().checked_sub(1)?)?;
        self.index.value_span(id, self.syntax)
    }

    /// Whether it is a short value.
    pub(crate) fn has_short_holder(&self, path: &Path) -> bool {
        match self.holder_span(path) {
            Some(span) => span.end.saturating_sub(span.start) <= SHORT_HOLDER,
            None => false,
        }
    }

    /// Whether a value of so many bytes is long: to read it anew for each edit of an entry of it takes longer than to
    /// make the edit alone.
    pub(crate) fn is_long(&self, len: usize) -> bool {
        len > SHORT_VALUE.max(self.text.len() / 64)
    }
}
