//! The texts of nodes' paths, written straight from the nodes.
ghost use Rattle.std.specs.Prelude.{◌≡◌, ◌+◌, ◌<◌, ◌≤◌, ◌⊎◌, ◌∷◌, ◌++◌, List, ℕ, IsOk, OnErr, OnOk, if◌then◌else◌};
ghost use Rattle.std.specs.Prelude.{length, string_bytes, string_capacity, take, vec_capacity};
ghost use Rattle.keep_token.specs.Encoded.{encoded_key};
ghost use Rattle.keep_path.specs.PathText.{encoded_path};
ghost use Rattle.keep_index_store.specs.Trie.{parent_at, path_at};
ghost use Rattle.keep_rules.specs.Lookup.{AreAncestors, HasNode, IsBelowRoot};
ghost use Rattle.keep_rules.specs.PathRooms.{HasRoom};

use keep_index_store::Tree;
use keep_path::push_index;
use std::alloc::{AllocError, Global};
use std::marker::Model;

/// Room for the numbers of the nodes from one up to the root. It grows, and is used again. Contracts see how many it
/// has room for.
#[derive(Drop)]
pub struct PathRoom {
    nodes: Vec<usize>,
}

impl Model for PathRoom {
    ghost use Rattle.std.specs.Prelude.{ℕ, vec_capacity};

    ghost Value = { ℕ };

    ghost view = { λ r. vec_capacity r.nodes };
}

impl PathRoom {
    /// No room yet. It takes no memory.
    pub fn new(alloc: Global) -> PathRoom
        ensures { result ≡ 0 }
    {
        PathRoom {
            nodes: Vec::new(alloc),
        }
    }
}

/// Adds the text of a node's path. No path is made: it takes memory only where `out` or `room` has no room for it. If
/// memory runs out, the text is unchanged.
pub fn push_path(
    out: &mut String,
    room: &mut PathRoom,
    nodes: &Tree,
    id: usize,
) -> Result<(), AllocError>
    requires { HasNode nodes.now.trie id }
    ensures pushed { OnOk result
        (string_bytes out.new ≡ string_bytes out.old ++ encoded_path (path_at nodes.now.trie id)) }
    ensures refused { OnErr result (string_bytes out.new ≡ string_bytes out.old) }
    ensures grown { (string_capacity out.old ≤ string_capacity out.new) × (room.old ≤ room.new) }
    ensures enough { OnOk result (length (path_at nodes.now.trie id) ≤ room.new) }
    ensures fits { HasRoom room.old out.old (path_at nodes.now.trie id) → IsOk result }
{
    let len = out.len();
    if let Err(refused) = push_steps(out, &mut room.nodes, nodes, id) {
        out.truncate(len);
        return Err(refused);
    }
    Ok(())
}

/// Adds the text of a node's path, step by step. If memory runs out, the text has grown by the first steps.
fn push_steps(
    out: &mut String,
    ancestors: &mut Vec<usize>,
    nodes: &Tree,
    id: usize,
) -> Result<(), AllocError>
    requires { HasNode nodes.now.trie id }
    ensures pushed { OnOk result
        (string_bytes out.new ≡ string_bytes out.old ++ encoded_path (path_at nodes.now.trie id)) }
    ensures grown { take (length (string_bytes out.old)) (string_bytes out.new) ≡ string_bytes out.old }
    ensures room { (string_capacity out.old ≤ string_capacity out.new)
        × (vec_capacity ancestors.old ≤ vec_capacity ancestors.new) }
    ensures enough { OnOk result (length (path_at nodes.now.trie id) ≤ vec_capacity ancestors.new) }
    ensures full { OnErr result ((vec_capacity ancestors.old < length (path_at nodes.now.trie id))
        ⊎ (string_capacity out.old
        < length (string_bytes out.old) + length (encoded_path (path_at nodes.now.trie id)))) }
{
    climb(ancestors, nodes, id)?;
    while let Some(node) = ancestors.pop() {
        push_last_step(out, nodes, node)?;
    }
    Ok(())
}

/// Puts the numbers of a node and its ancestors, up to below the root, in the place of those that are there.
pub fn climb(ancestors: &mut Vec<usize>, nodes: &Tree, id: usize) -> Result<(), AllocError>
    requires { HasNode nodes.now.trie id }
    ensures ancestors { OnOk result (AreAncestors nodes.now.trie id ancestors.new.items 0) }
    ensures room { vec_capacity ancestors.old ≤ vec_capacity ancestors.new }
    ensures enough { OnOk result (length (path_at nodes.now.trie id) ≤ vec_capacity ancestors.new) }
    ensures full { OnErr result (vec_capacity ancestors.old < length (path_at nodes.now.trie id)) }
{
    ancestors.clear();
    let mut node = id;
    while node != 0 {
        ancestors.push(node)?;
        node = nodes.parent(node);
    }
    Ok(())
}

/// Adds the last step of a node's path, after the text of its parent's path. If memory runs out, the text has grown by
/// a prefix of the step.
fn push_last_step(out: &mut String, nodes: &Tree, id: usize) -> Result<(), AllocError>
    requires { IsBelowRoot nodes.now.trie id }
    ensures pushed { (before : List ℕ)
        → string_bytes out.old ≡ before ++ encoded_path
        (path_at nodes.now.trie (parent_at nodes.now.trie id))
        → OnOk result (string_bytes out.new ≡ before ++ encoded_path (path_at nodes.now.trie id)) }
    ensures grown { take (length (string_bytes out.old)) (string_bytes out.new) ≡ string_bytes out.old }
    ensures room { string_capacity out.old ≤ string_capacity out.new }
    ensures full { (before : List ℕ)
        → string_bytes out.old ≡ before ++ encoded_path
        (path_at nodes.now.trie (parent_at nodes.now.trie id))
        → OnErr result
        (string_capacity out.old < length before + length (encoded_path (path_at nodes.now.trie id))) }
{
    match nodes.key(id) {
        Some(key) => push_key(out, key, nodes.parent(id) == 0),
        None => push_index(out, nodes.number(id)),
    }
}

/// Adds a key as it is written, after a dot where it is not a path's first step. If memory runs out, the text has grown
/// by a prefix of them.
fn push_key(out: &mut String, key: &str, is_first: bool) -> Result<(), AllocError>
    ensures pushed { OnOk result
        (string_bytes out.new ≡ string_bytes out.old
        ++ (if is_first then encoded_key key.now else 0x2E ∷ encoded_key key.now)) }
    ensures grown { take (length (string_bytes out.old)) (string_bytes out.new) ≡ string_bytes out.old }
    ensures room { string_capacity out.old ≤ string_capacity out.new }
    ensures full { OnErr result (string_capacity out.old
        < length (string_bytes out.old)
        + length (if is_first then encoded_key key.now else 0x2E ∷ encoded_key key.now)) }
{
    if !is_first {
        out.push_str(".")?;
    }
    keep_token::push_key(out, key)
}
