//! Which edits of a list leave one another alone, by their paths and keys.
ghost use Rattle.std.specs.Prelude.{◌≡◌, ◌≢◌, ◌≤◌, All, IfSome, IsTrue, None, length, map, min, option_map, take};
ghost use Rattle.std.specs.Bool.{Decides};
ghost use Rattle.keep_edit_runs.specs.Runs.{LeavesAlone, outlined, rest_after, rest_from};
ghost use Rattle.keep_edit_spec.specs.AppendedHeaders.{AreSameOrApart};
ghost use Rattle.keep_edit_spec.specs.ElementRuns.{IsElsewhere};
ghost use Rattle.keep_edit_spec.specs.RenamedKeys.{ArePathsApart};
ghost use Rattle.keep_edit_spec.specs.Runs.{AreApart, IsNoStep, PassesBy, PassesByPaths};
ghost use Rattle.keep_edit_plan.specs.Headers.{key_texts};
ghost use Rattle.keep_path.specs.Path.{beside, key, strip};

use crate::outline::{Outline, Steps};
use keep_rules::Step;

/// Whether two paths agree in so many steps from the first on. The last of them are compared first: paths of one list
/// often begin alike.
pub fn agree(path: &Steps, other: &Steps, count: usize) -> bool
    requires { (count ≤ length path.now) × (count ≤ length other.now) }
    ensures { Decides result (take count path.now ≡ take count other.now) }
{
    for number in (0..count).rev() {
        let (Some(own), Some(step)) = (path.step(number), other.step(number)) else {
            return false;
        };
        if !own.is(step) {
            return false;
        }
    }
    true
}

/// Whether these are the same path.
pub fn is_same(path: &Steps, other: &Steps) -> bool
    ensures { Decides result (path.now ≡ other.now) }
{
    path.len() == other.len() && agree(path, other, path.len())
}

/// Whether a path is at another or below it.
pub fn is_within(path: &Steps, above: &Steps) -> bool
    ensures { Decides result (strip above.now path.now ≢ None) }
{
    above.len() <= path.len() && agree(path, above, above.len())
}

/// Whether two paths are the same once each has another key in place of its last step.
fn is_renamed_alike(path: &Steps, key: &str, other: &Steps, other_key: &str) -> bool
    ensures { Decides result (beside path.now key.now ≡ beside other.now other_key.now) }
{
    let parents = path.len().saturating_sub(1);
    key == other_key && parents == other.len().saturating_sub(1) && agree(path, other, parents)
}

/// Whether a path is the new one of a rename.
pub fn is_new_path(path: &Steps, first: &Steps, name: &str) -> bool
    ensures { IsTrue result → beside first.now name.now ≡ path.now }
{
    let Some(Step::Key(own)) = path.step(path.len().saturating_sub(1)) else {
        return false;
    };
    is_renamed_alike(first, name, path, own.as_str())
}

/// Whether a rename of the second path can be made as if the first were not renamed before it.
fn are_renamed_apart(path: &Steps, key: &str, other: &Steps, other_key: &str) -> bool
    ensures { Decides result (ArePathsApart path.now key.now other.now other_key.now) }
{
    !is_within(other, path) && !is_renamed_alike(path, key, other, other_key)
}

/// Whether neither of two paths is the other or below it.
pub fn are_apart(path: &Steps, other: &Steps) -> bool
    ensures { Decides result (AreApart path.now other.now) }
{
    !agree(path, other, path.len().min(other.len()))
}

/// Whether no step of a path is this key.
fn lacks_step(path: &Steps, key: &str) -> bool
    ensures { Decides result (IsNoStep key.now path.now) }
{
    for number in 0..path.len() {
        if let Some(Step::Key(own)) = path.step(number) {
            if own.as_str() == key {
                return false;
            }
        }
    }
    true
}

/// Whether two lists of keys agree as far as both go. The last of these are compared first, as in `agree`.
fn keys_agree(keys: &[String], more: &[String]) -> bool
    ensures { Decides result (take (min (length keys.now) (length more.now)) (key_texts keys.now)
        ≡ take (min (length keys.now) (length more.now)) (key_texts more.now)) }
{
    for number in (0..keys.len().min(more.len())).rev() {
        if keys[number].as_str() != more[number].as_str() {
            return false;
        }
    }
    true
}

/// Whether these are the same keys.
pub fn are_same_keys(keys: &[String], more: &[String]) -> bool
    ensures { Decides result (key_texts keys.now ≡ key_texts more.now) }
{
    keys.len() == more.len() && keys_agree(keys, more)
}

/// Whether these are the same keys, or neither are the first of the others.
fn are_same_or_apart(keys: &[String], more: &[String]) -> bool
    ensures { Decides result (AreSameOrApart (key_texts keys.now) (key_texts more.now)) }
{
    keys.len() == more.len() || !keys_agree(keys, more)
}

/// Whether neither of two lists of keys are the first of the other.
fn are_keys_apart(keys: &[String], more: &[String]) -> bool
    ensures { Decides result (AreApart (map key (key_texts keys.now)) (map key (key_texts more.now))) }
{
    !keys_agree(keys, more)
}

/// How many keys come before the rest of some, where these begin with the keys of so many steps of a path; None where
/// they don't.
fn keys_on_path(keys: &[String], path: &Steps, count: usize) -> Option<usize>
    requires { count ≤ length path.now }
    ensures rest { option_map (rest_from keys.now) result ≡ rest_after keys.now (take count path.now) }
    ensures few { IfSome result (λ n. n ≤ length keys.now) }
{
    let mut next = 0;
    for number in 0..count {
        let Some(Step::Key(own)) = path.step(number) else {
            continue;
        };
        if next == keys.len() || keys[next].as_str() != own.as_str() {
            return None;
        }
        next += 1;
    }
    Some(next)
}

/// Whether no header of these keys is that of a path, or of a table below it.
pub fn passes_by(keys: &[String], path: &Steps) -> bool
    ensures { Decides result (PassesBy (key_texts keys.now) path.now) }
{
    keys_on_path(keys, path, path.len()).is_none()
}

/// The same of the path with another key in place of its last step.
fn passes_by_renamed(keys: &[String], path: &Steps, key: &str) -> bool
    ensures { Decides result (PassesBy (key_texts keys.now) (beside path.now key.now)) }
{
    match keys_on_path(keys, path, path.len().saturating_sub(1)) {
        Some(next) => next == keys.len() || keys[next].as_str() != key,
        None => true,
    }
}

/// Whether a header of these keys passes by all paths of an edit.
fn passes_by_paths(keys: &[String], outline: &Outline) -> bool
    ensures { Decides result (PassesByPaths (key_texts keys.now) (outlined outline.now)) }
{
    match outline {
        Outline::Insert(path) | Outline::Remove(path) | Outline::Set(path) => passes_by(keys, path),
        Outline::Rename(path, key) => {
            passes_by(keys, path) && passes_by_renamed(keys, path, key)
        }
        Outline::Table(_) | Outline::Element(_) => false,
    }
}

/// Whether an edit leaves alone another, which comes after it.
#[inline(always)]
fn leaves_alone(outline: &Outline, other: &Outline) -> bool
    ensures { Decides result (LeavesAlone outline.now other.now) }
{
    match (outline, other) {
        (Outline::Remove(_), Outline::Remove(_)) | (Outline::Set(_), Outline::Set(_)) => true,
        (Outline::Insert(path), Outline::Insert(other)) => !is_same(path, other),
        (Outline::Rename(path, key), Outline::Rename(other, other_key)) => {
            are_renamed_apart(path, key, other, other_key)
        }
        (Outline::Table(keys), Outline::Table(more)) => !are_same_keys(keys, more),
        (Outline::Element(keys), Outline::Element(more)) => are_same_or_apart(keys, more),
        (Outline::Table(keys), Outline::Element(more))
        | (Outline::Element(keys), Outline::Table(more)) => are_keys_apart(keys, more),
        (
            Outline::Table(keys) | Outline::Element(keys),
            Outline::Insert(_) | Outline::Remove(_) | Outline::Set(_) | Outline::Rename(_, _),
        ) => passes_by_paths(keys, other),
        (
            Outline::Insert(_) | Outline::Remove(_) | Outline::Set(_) | Outline::Rename(_, _),
            Outline::Table(keys) | Outline::Element(keys),
        ) => passes_by_paths(keys, outline),
        (
            Outline::Rename(path, key),
            Outline::Insert(other) | Outline::Remove(other) | Outline::Set(other),
        ) => are_apart(path, other) && lacks_step(other, key),
        (
            Outline::Insert(path) | Outline::Remove(path) | Outline::Set(path),
            Outline::Rename(other, key),
        ) => are_apart(path, other) && lacks_step(path, key),
        (Outline::Insert(path), Outline::Remove(other) | Outline::Set(other))
        | (Outline::Remove(path), Outline::Insert(other) | Outline::Set(other))
        | (Outline::Set(path), Outline::Insert(other) | Outline::Remove(other)) => {
            are_apart(path, other)
        }
    }
}

/// Whether an edit is elsewhere than at a path and below it, and not on the way there.
pub fn is_elsewhere(path: &Steps, outline: &Outline) -> bool
    ensures { Decides result (IsElsewhere path.now (outlined outline.now)) }
{
    match outline {
        Outline::Insert(other) | Outline::Remove(other) | Outline::Set(other) => {
            are_apart(path, other)
        }
        Outline::Rename(other, key) => are_apart(path, other) && lacks_step(path, key),
        Outline::Table(keys) | Outline::Element(keys) => passes_by(keys, path),
    }
}

/// Whether each of these edits is elsewhere than at a path and below it, and not on the way there.
pub fn are_elsewhere(path: &Steps, outlines: &[Outline]) -> bool
    ensures { IsTrue result → All (λ o. IsElsewhere path.now (outlined o)) outlines.now }
{
    for outline in outlines {
        if !is_elsewhere(path, outline) {
            return false;
        }
    }
    true
}

/// Whether these edits and another that comes after them all append elements, with as many keys each: of such lists
/// none is the beginning of another.
fn are_elements_alike(outlines: &[Outline], other: &Outline) -> bool
    ensures { IsTrue result → All (λ e. LeavesAlone e other.now) outlines.now }
{
    let Outline::Element(more) = other else {
        return false;
    };
    for outline in outlines {
        let Outline::Element(keys) = outline else {
            return false;
        };
        if keys.len() != more.len() {
            return false;
        }
    }
    true
}

/// Whether each of these edits leaves alone another that comes after them.
pub fn all_leave_alone(outlines: &[Outline], other: &Outline) -> bool
    ensures { Decides result (All (λ e. LeavesAlone e other.now) outlines.now) }
{
    for outline in outlines {
        if !leaves_alone(outline, other) {
            return false;
        }
    }
    true
}

/// Whether each of these edits is found to leave alone another that comes after them. Where that takes comparing their
/// keys or paths, none is if there are more of them than `left`, how many pairs may still be compared; else they are
/// taken from that.
pub fn leave_alone_within(left: &mut usize, outlines: &[Outline], other: &Outline) -> bool
    ensures { IsTrue result → All (λ e. LeavesAlone e other.now) outlines.now }
{
    if are_elements_alike(outlines, other) {
        return true;
    }
    if outlines.len() > *left {
        return false;
    }
    *left -= outlines.len();
    all_leave_alone(outlines, other)
}
