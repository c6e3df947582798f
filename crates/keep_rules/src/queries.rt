//! Looking up nodes by steps, and paths by nodes.
ghost use Rattle.std.specs.Prelude.{◌≡◌, ◌<◌, IfOk, OnOk, length};
ghost use Rattle.keep_rules.specs.Lookup.{HasNode, IsBelowRoot};
ghost use Rattle.keep_path.specs.Step.{part_of};
ghost use Rattle.keep_index_store.specs.Tree.{IsChild};
ghost use Rattle.keep_index_store.specs.Trie.{by_key, holds_at, parent_at, path_at};

use crate::path_text::climb;
use keep_index_store::Tree;
use keep_path::{Path, Step};
use std::alloc::{AllocError, Global};

/// The node below another by one step.
pub fn child_by(nodes: &Tree, id: usize, step: &Step) -> Option<usize>
    requires { id < length nodes.now.trie }
    ensures { IsChild nodes.now.trie id (part_of step.now) result }
{
    match step {
        Step::Key(text) => nodes.child(id, text.as_str()),
        Step::Index(number) => nodes.item(id, *number),
    }
}

/// The path of a node.
pub fn path_to(alloc: Global, nodes: &Tree, id: usize) -> Result<Path, AllocError>
    requires rooted { holds_at nodes.now.trie 0 ≡ by_key }
    requires node { HasNode nodes.now.trie id }
    ensures { IfOk result (λ path. path ≡ path_at nodes.now.trie id) }
{
    let mut path = Path::new(alloc);
    let mut ancestors = Vec::new(alloc);
    climb(&mut ancestors, nodes, id)?;
    while let Some(node) = ancestors.pop() {
        push_step(&mut path, nodes, node)?;
    }
    Ok(path)
}

/// Adds the last step of a node's path to the path of its parent.
fn push_step(path: &mut Path, nodes: &Tree, id: usize) -> Result<(), AllocError>
    requires rooted { holds_at nodes.now.trie 0 ≡ by_key }
    requires node { IsBelowRoot nodes.now.trie id }
    requires above { path.old ≡ path_at nodes.now.trie (parent_at nodes.now.trie id) }
    ensures { OnOk result (path.new ≡ path_at nodes.now.trie id) }
{
    match nodes.key(id) {
        Some(key) => path.push_key(key),
        None => path.push_index(nodes.number(id)),
    }
}
