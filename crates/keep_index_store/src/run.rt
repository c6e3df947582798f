//! Runs: children whose numbers are consecutive, stored as how many they are and the first of them.
ghost use Rattle.std.specs.Prelude.{◌≡◌, ◌≤◌, ◌<◌, ◌+◌, ◌-◌, ◌^◌, ◌++◌, ◌∷◌, [], IfNone, IfOk, IfSome, IsSome};
ghost use Rattle.std.specs.Prelude.{◌≢◌, ◌⊎◌, All, map, slice_get, slice_index_or};
ghost use Rattle.keep_path.specs.NodeInfos as spec;
ghost use Rattle.keep_index_store.specs.Below.{shifted_by};
ghost use Rattle.keep_index_store.specs.Moved.{IsApart, moved_number};
ghost use Rattle.keep_index_store.specs.Replacing.{CanShift};
ghost use Rattle.keep_index_store.specs.Runs.{consecutive};

use crate::renumbering::earlier_number;
use crate::replaced::shifted;
use crate::shift::Shift;
use std::alloc::{AllocError, Global};

/// The run with one child more, if that is still a run: if the child is the next node, or the first child.
pub fn longer(len: u32, first: usize, child: usize) -> Option<(u32, usize)>
    requires { first + len ≤ 2 ^ 64 }
    ensures run { IfSome result (λ run. consecutive run.1 run.0 ≡ consecutive first len ++ child ∷ []) }
    ensures fits { IfSome result (λ run. run.1 + run.0 ≤ 2 ^ 64) }
    ensures empty { len ≡ 0 → IsSome result }
    ensures next { first + len ≡ child → len + 1 < 2 ^ 32 → IsSome result }
{
    if len == 0 {
        return Some((1, child));
    }
    if child < first || child - first != len as usize {
        return None;
    }
    Some((len.checked_add(1)?, first))
}

/// The children of a run and one more, in a vector.
pub fn with_child(
    alloc: Global,
    len: u32,
    first: usize,
    child: usize,
) -> Result<Vec<usize>, AllocError>
    requires { first + len ≤ 2 ^ 64 }
    ensures { IfOk result (λ children. children.items ≡ consecutive first len ++ child ∷ []) }
{
    let len = len as usize;
    let mut children = Vec::with_capacity(alloc, len + 1)?;
    for number in 0..len {
        children.push(first + number)?;
    }
    children.push(child)?;
    Ok(children)
}

/// The child of a run that was added after that many others.
pub fn child_at(len: u32, first: usize, number: usize) -> Option<usize>
    requires { first + len ≤ 2 ^ 64 }
    ensures { result ≡ slice_get (consecutive first len) number }
{
    if number < len as usize {
        Some(first + number)
    } else {
        None
    }
}

/// The last child of a run.
pub fn last_child(len: u32, first: usize) -> Option<usize>
    requires { first + len ≤ 2 ^ 64 }
    ensures some { IfSome result (λ id. (0 < len) × (id ≡ slice_index_or (consecutive first len) (len - 1) 0)) }
    ensures none { IfNone result (len ≡ 0) }
{
    if len == 0 {
        return None;
    }
    Some(first + (len as usize - 1))
}

/// The first child of a run once the last node, which is `last`, has the number `at`. No child is the node before that
/// where the next child is that one, so the run stays a run.
pub fn first_then(len: u32, first: usize, last: usize, at: usize) -> usize
    requires within { 0 < len → first + len ≤ last }
    requires fits { first + len ≤ 2 ^ 64 }
    requires apart { IsApart at (consecutive first len) }
    ensures run { consecutive result len ≡ map (moved_number last at) (consecutive first len) }
    ensures fits { result + len ≤ 2 ^ 64 }
{
    if len > 0 && first >= at {
        first + 1
    } else {
        first
    }
}

/// The first child of a run once the node `at`, which is no child of it, is gone. All children come before that node,
/// or all after it, so the run stays a run.
pub fn first_earlier(len: u32, first: usize, at: usize) -> usize
    requires fits { first + len ≤ 2 ^ 64 }
    requires apart { All (λ id. id ≢ at) (consecutive first len) }
    ensures run { consecutive result len ≡ map (spec.earlier_number at) (consecutive first len) }
    ensures fits { result + len ≤ 2 ^ 64 }
{
    earlier_number(at, first)
}

/// The first child of a run where the numbers of nodes are moved. All children come before the first number that is
/// moved, or none does, so the run stays a run.
pub fn first_shifted(len: u32, first: usize, by: Shift) -> usize
    requires fits { first + len ≤ 2 ^ 64 }
    requires can { All (CanShift by) (consecutive first len) }
    requires sides { All (λ id. id < by.from) (consecutive first len)
        ⊎ All (λ id. by.from ≤ id) (consecutive first len) }
    ensures run { consecutive result len ≡ map (shifted_by by) (consecutive first len) }
    ensures fits { result + len ≤ 2 ^ 64 }
{
    if len == 0 {
        return first;
    }
    shifted(first, by)
}
