//! Edits that are written into the bytes of a text, and undone there.
ghost use Rattle.std.specs.Prelude.{◌≡◌, ℕ, List, string_bytes};
ghost use Rattle.keep_edit_plan.specs.Answers.{IsSpanOf};
ghost use Rattle.keep_edit.specs.Patches.{CanPutBack, IsPutIn};

use keep_edit_plan::{TextEdit, part_at};
use keep_syntax::Span;
use std::alloc::AllocError;

/// Writes what an edit writes, and returns the bytes that it replaces: `put_back` takes no memory. The only error is
/// out of memory, and then the text is as before.
pub(crate) fn put_in(text: &mut String, edited: &TextEdit) -> Result<String, AllocError>
    requires { IsSpanOf (string_bytes text.old) edited.now.place }
    ensures { IsPutIn edited.now text.old text.new result }
{
    let alloc = *text.allocator();
    let replaced_bytes = String::from_str(alloc, part_at(text.as_str(), edited.place))?;
    let Span { start, end } = edited.place;
    let new = edited.new.as_str();
    text.reserve(new.len())?;
    text.replace_range(start..end, new)?;
    Ok(replaced_bytes)
}

/// Undoes `put_in`: writes the replaced bytes in the place of what the edit wrote. It takes no memory.
pub(crate) fn put_back(text: &mut String, edited: &TextEdit, replaced_bytes: &str)
    requires { (before : List ℕ) × CanPutBack edited.now before replaced_bytes.now text.old }
    ensures { (before : List ℕ) → CanPutBack edited.now before replaced_bytes.now text.old
        → string_bytes text.new ≡ before }
{
    let start = edited.place.start;
    let end = start + edited.new.as_str().len();
    if text.replace_range(start..end, replaced_bytes).is_err() {
        unreachable!();
    }
}
