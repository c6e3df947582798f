//! The nodes, where one that has no children goes.
ghost use Rattle.std.specs.Prelude.{◌≡◌, ◌<◌, All, AllPairs, length, map, true};
ghost use Rattle.std.specs.List.{remove};
ghost use Rattle.keep_index_store.specs.Children.{child_ids, holds_of, named};
ghost use Rattle.keep_index_store.specs.Moved.{EndsLate, stored_at};
ghost use Rattle.keep_index_store.specs.Removed.{HasNoItem, HasStoredLink, IsLeaf, removed_nodes};
ghost use Rattle.keep_index_store.specs.Removed.{with_earlier_children, without_key};
ghost use Rattle.keep_index_store.specs.Trie.{by_key};

use super::{Node, Nodes};
use crate::links::ParentLink;

/// Gives the children of each node the numbers that they have once the node `at` is gone.
fn renumber_children_earlier(list: &mut [Node], at: usize)
    requires apart { All (λ n. HasNoItem at n.children) list.old }
    requires ends { All (λ n. EndsLate at (child_ids n.children)) list.old }
    ensures { list.new ≡ map (with_earlier_children at) list.old }
{
    for node in list.iter_mut() {
        node.children.renumber_earlier(at);
    }
}

/// Takes away the node `at`, which has the parent link `gone`, and its key from the children of its parent, and gives
/// the children of each node the numbers that they have then.
fn remove_node(list: &mut Vec<Node>, at: usize, gone: ParentLink)
    requires within { (gone.parent < length list.old.items) × (at < length list.old.items) }
    requires holds { holds_of (stored_at list.old.items gone.parent).children ≡ by_key }
    requires counted { gone.number < length (named (stored_at list.old.items gone.parent).children) }
    requires each { All (λ n. HasNoItem at n.children) list.old.items }
    requires ascend { All (λ n. AllPairs (λ a b. a < b) (child_ids n.children)) list.old.items }
    ensures { list.new.items ≡ remove (map (with_earlier_children at) (without_key list.old.items gone)) at }
{
    let above = &mut list[gone.parent];
    above.children.remove_key(gone.number);
    renumber_children_earlier(list.as_mut_slice(), at);
    list.remove(at);
}

impl Nodes {
    /// Whether both numbers of each parent link are stored in 32 bits.
    pub fn has_small_links(&self) -> bool
        ensures { result ≡ true → All HasStoredLink self.now.items }
    {
        self.links.is_packed()
    }

    /// Takes away a node, and its key from the children of its parent. Each node after it has the number before its
    /// own, and so each child after it there. It takes no memory.
    pub fn remove(&mut self, at: usize)
        requires leaf { IsLeaf self.old.items at }
        requires small { All HasStoredLink self.old.items }
        ensures { self.new.items ≡ removed_nodes self.old.items at }
    {
        let gone = self.links.remove(at);
        remove_node(&mut self.list, at, gone);
    }
}
