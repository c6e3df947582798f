//! What an edit of an entry makes of the value that holds the entry, whatever document the value is in.
ghost use Rattle.std.specs.Prelude.{◌≡◌, ◌++◌, ◌∷◌, [], codes, IfOk, IfSome, string_bytes};
ghost use Rattle.keep_path.specs.Path.{key};
ghost use Rattle.keep_path.specs.Step.{part_of};
ghost use Rattle.keep_edit_plan.specs.Reading.{IsAccepted, text_in};
ghost use Rattle.keep_edit_plan.specs.TextEdits.{MakesSetHere};
ghost use Rattle.keep_edit_runs.specs.ValueAfter.{IsAlone, IsAlonePath, MakesValue};

use keep_edit_plan::{DocumentRef, Edit, TextEdit};
use keep_rules::{Index, Path, Step, ValueText};
use keep_syntax::{Limits, STANDARD_DEPTH, Syntax};
use keep_token::Profile;
use std::alloc::{AllocError, Global};

/// The text of a value after an edit of an entry in it: an item of an array, or a keyval of an inline table. The edit
/// is made by a document that has no more than the value. None for any other edit, where it is refused there, and where
/// memory was refused.
pub fn value_after(alloc: Global, profile: Profile, was: &str, edit: &Edit) -> Option<String>
    ensures { IfSome result (λ new. MakesValue profile was.now edit.now (string_bytes new)) }
{
    let alone = edit_alone(alloc, edit)?;
    let text = text_alone(alloc, was).ok()?;
    let TextEdit { place, new } = change_in(alloc, text.as_str(), profile, &alone)?;
    if place.start != 4 || place.end != text.len() {
        return None;
    }
    Some(new)
}

/// What an edit of an entry changes in the document of a text, as the set of the value that holds it. None where the
/// text is no document's or the edit is refused, and where memory was refused.
fn change_in(alloc: Global, text: &str, profile: Profile, edit: &Edit) -> Option<TextEdit>
    ensures read { IfSome result (λ made. IsAccepted (text_in profile text.now)) }
    ensures made { IfSome result (MakesSetHere (text_in profile text.now) edit.now) }
{
    let limits = Limits {
        depth: STANDARD_DEPTH,
        profile,
    };
    let syntax = Syntax::read(alloc, text, limits).ok()?;
    let index = Index::build(alloc, text, &syntax).ok()?;
    DocumentRef::new(text, profile, &syntax, &index).change_of_holder(alloc, edit)
}

/// The text of a document that has no more than this value, at the root's key `v`. The only error is out of memory.
fn text_alone(alloc: Global, value: &str) -> Result<String, AllocError>
    ensures { IfOk result (λ text. string_bytes text ≡ codes "v = " ++ value.now) }
{
    let mut text = String::with_capacity(alloc, value.len().saturating_add(4))?;
    text.push_str("v = ")?;
    text.push_str(value)?;
    Ok(text)
}

/// The edit of the same entry where the value that holds it is the one at the root's key `v`. None for an edit of no
/// entry, and where memory was refused.
fn edit_alone(alloc: Global, edit: &Edit) -> Option<Edit>
    ensures { IfSome result (IsAlone edit.now) }
{
    match edit {
        Edit::Insert(path, value) => {
            let alone = path_alone(alloc, path)?;
            Some(Edit::Insert(alone, same_value(alloc, value)?))
        }
        Edit::Set(path, value) => {
            let alone = path_alone(alloc, path)?;
            Some(Edit::Set(alone, same_value(alloc, value)?))
        }
        Edit::Rename(path, name) => {
            let alone = path_alone(alloc, path)?;
            let name = String::from_str(alloc, name.as_str()).ok()?;
            Some(Edit::Rename(alone, name))
        }
        Edit::Remove(path) => Some(Edit::Remove(path_alone(alloc, path)?)),
        _ => None,
    }
}

/// The same value, read once more. None where memory was refused.
fn same_value(alloc: Global, value: &ValueText) -> Option<ValueText>
    ensures { IfSome result (λ same. same ≡ value.now) }
{
    ValueText::read_in(alloc, value.as_str(), Profile::Wide).ok()
}

/// The path of the entry with the last step of a path in the value at the root's key `v`. None for the root's path,
/// and where memory was refused.
fn path_alone(alloc: Global, path: &Path) -> Option<Path>
    ensures { IfSome result (IsAlonePath path.now) }
{
    let last = path.len().checked_sub(1)?;
    let step = path.step(last)?;
    entry_path(alloc, step).ok()
}

/// The path of an entry with this step in the value at the root's key `v`. The only error is out of memory.
fn entry_path(alloc: Global, step: &Step) -> Result<Path, AllocError>
    ensures { IfOk result (λ path. path ≡ key (codes "v") ∷ part_of step.now ∷ []) }
{
    let mut path = Path::new(alloc);
    path.push_key("v")?;
    match step {
        Step::Key(text) => path.push_key(text.as_str())?,
        Step::Index(number) => path.push_index(*number)?,
    }
    Ok(path)
}
