//! The tree with one key less, that of a line: its node goes from between the others, and so do those in its value.
ghost use Rattle.std.specs.Prelude.{◌≡◌, ℕ, ◌<◌, OnErr, OnOk, false, length, map, true};
ghost use Rattle.std.specs.List.{remove};
ghost use Rattle.keep_path.specs.NodeInfos.{root_infos, without_node};
ghost use Rattle.keep_path.specs.NodesBelow.{AreBelow, with_value};
ghost use Rattle.keep_index_store.specs.Below.{IsRunBelow, replaced_below, totals_in, with_shifted_facts};
ghost use Rattle.keep_index_store.specs.DotsLess.{LeavesTables};
ghost use Rattle.keep_index_store.specs.Removed.{removed_nodes};
ghost use Rattle.keep_index_store.specs.Renumbering.{numbers_of};
ghost use Rattle.keep_index_store.specs.Stored.{IsStored};
ghost use Rattle.keep_index_store.specs.Tree.{IsKeyLeaf, node_infos};
ghost use Rattle.keep_index_store.specs.Trie.{IsTrie, holdings_of, holds_at, paths_of};

use super::replacing::{ValueShifts, take_in, value_shifts};
use super::{NotInPlace, Tree};
use crate::children::Holds;
use crate::nodes::Nodes;
use crate::renumbering::LineNumbers;
use crate::shift::Totals;
use keep_types::Kind;

/// Takes away the node `id` and the `gone` nodes after it, which are below it: these give place to what is below the
/// root of another tree, which is nothing, and numbers are moved; then the node goes. Says whether it was done: not
/// where memory is refused, or a number would not fit where it is stored. Then nothing is changed.
fn take_out(nodes: &mut Nodes, id: usize, gone: usize, inside: Nodes, by: ValueShifts) -> bool
    requires run { IsRunBelow nodes.old.items id gone }
    requires stored { IsStored inside.items }
    requires alone { length inside.items ≡ 1 }
    ensures removed { result ≡ true → nodes.new.items ≡ removed_nodes
        (replaced_below (map (with_shifted_facts by.beside) nodes.old.items) id gone
        (map (with_shifted_facts by.inside) inside.items)) id }
    ensures refused { result ≡ false → nodes.new ≡ nodes.old }
{
    if !take_in(nodes, id, gone, inside, by) {
        return false;
    }
    nodes.remove(id);
    true
}

impl Tree {
    /// Takes away the node of a line, which a key names and which has no children. Each node after it has the number
    /// before its own; and each has the numbers in its facts that it has once the line is gone. It takes no memory.
    ///
    /// # Errors
    ///
    /// `NotInPlace` where the node is the root, or an item, or an element, or has children; and where the parent of
    /// some node is not stored in 8 bytes. Then nothing is changed.
    pub fn remove_key(&mut self, id: usize, line: LineNumbers) -> Result<(), NotInPlace>
        requires { id < length self.old.trie }
        ensures removed { OnOk result
            (node_infos self.new ≡ without_node (node_infos self.old) id (numbers_of line)) }
        ensures holdings { OnOk result (holdings_of self.new.trie ≡ remove (holdings_of self.old.trie) id) }
        ensures trie { OnOk result (IsTrie self.new.trie) }
        ensures root { holds_at self.new.trie 0 ≡ holds_at self.old.trie 0 }
        ensures refused { OnErr result (self.new ≡ self.old) }
    {
        if !self.is_leaf(id) || !self.nodes.has_small_links() {
            return Err(NotInPlace);
        }
        self.nodes.remove(id);
        self.renumber_earlier(line);
        Ok(())
    }

    /// Takes away the node of a line, as `remove_key` does, and all nodes below it: those in its value, or those of the
    /// keys by which it continues. The document had `old` values and key parts, and has `bare` with the line, where it
    /// has one key and nothing in its value.
    ///
    /// # Errors
    ///
    /// `NotInPlace` where the node is no child by key, or is neither that of a value nor that of a key from which one
    /// keyval continues by dots; where the nodes below it do not follow it; where a number would not fit where it is
    /// stored or the parent of some node is not stored in 8 bytes; and where memory was refused. Then nothing is
    /// changed.
    pub fn remove_value(
        &mut self,
        id: usize,
        line: LineNumbers,
        old: Totals,
        bare: Totals,
    ) -> Result<(), NotInPlace>
        requires { id < length self.old.trie }
        ensures removed { OnOk result ((gone : ℕ) (k : Kind) → AreBelow (paths_of self.old.trie) id gone
            → node_infos self.new ≡ without_node
            (with_value (node_infos self.old) id gone (totals_in old) (totals_in bare) root_infos k)
            id (numbers_of line)) }
        ensures tables { OnOk result (LeavesTables id old bare self.old self.new) }
        ensures trie { IsTrie self.new.trie }
        ensures root { holds_at self.new.trie 0 ≡ holds_at self.old.trie 0 }
        ensures refused { OnErr result (self.new ≡ self.old) }
    {
        let Some(gone) = self.nodes.run_below(id) else {
            return Err(NotInPlace);
        };
        let Some(by) = value_shifts(self.info(id), old, bare) else {
            return Err(NotInPlace);
        };
        let Ok(root) = Tree::new(self.allocator(), "", Holds::Nothing) else {
            return Err(NotInPlace);
        };
        let Tree { nodes: inside } = root;
        if !take_out(&mut self.nodes, id, gone, inside, by) {
            return Err(NotInPlace);
        }
        self.nodes.renumber_earlier(line);
        Ok(())
    }

    /// Whether a node is a child by key, and has no children.
    fn is_leaf(&self, id: usize) -> bool
        requires { id < length self.now.trie }
        ensures { result ≡ true → IsKeyLeaf self.now.trie id }
    {
        0 < id && self.child_count(id) == 0 && self.takes_keys(self.parent(id))
    }
}
