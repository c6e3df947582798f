//! The tree of the nodes.
ghost use Rattle.std.specs.Prelude.{◌≡◌, ◌≢◌, ◌<◌, ◌-◌, ◌∷◌, ◌++◌, [], ℕ, length, None, Some, IfNone, IfSome, IfOk};
ghost use Rattle.std.specs.Prelude.{OnErr, OnOk, Contains, slice_get, slice_index_or, slice_set};
ghost use Rattle.std.specs.Bool.{Decides};
ghost use Rattle.keep_index_store.specs.Children.{holding};
ghost use Rattle.keep_index_store.specs.Facts.{joined_info, info_of};
ghost use Rattle.keep_index_store.specs.Growth.{Grows, Restates};
ghost use Rattle.keep_index_store.specs.Tree.{IsChild, IsRoot, info_at, node_infos};
ghost use Rattle.keep_index_store.specs.Trie.{IsTrie, by_key, by_index, children_of, holds_at, holdings_of, parent_at};
ghost use Rattle.keep_index_store.specs.Trie.{part_at, paths_of, path_at, state_at};
ghost use Rattle.keep_path.specs.NodeInfos.{with_path};
ghost use Rattle.keep_path.specs.Path.{EndsInKey, beside, key, index};

mod dots;
mod dots_less;
mod inserting;
mod inserting_value;
mod joining;
mod removing;
mod renumbering;
mod replacing;

use crate::children::Holds;
use crate::facts::NodeFacts;
use crate::nodes::Nodes;
pub use inserting::NotInPlace;
pub use inserting_value::NewValue;
pub use joining::{HeaderFacts, Join};
use keep_types::{Kind, NodeInfo, Origin, Role};
use std::alloc::{AllocError, Global};
use std::marker::Model;

/// The nodes of a document as a tree of steps, with the facts about each. The root is there from the start, as the
/// first of them.
#[derive(Drop)]
pub struct Tree {
    nodes: Nodes,
}

impl Model for Tree {
    ghost use Rattle.keep_index_store.specs.Tree.{TrieInfos};

    ghost Value = { TrieInfos };

    ghost use Rattle.keep_index_store.specs.Stored.{IsStored};
    ghost use Rattle.keep_index_store.specs.Tree.{tree_of};

    ghost view = { λ t. tree_of t.nodes.items };

    ghost invariant = { λ t. IsStored t.nodes.items };
}

impl Tree {
    /// The root alone, which may have these children. `text` gives the seed of the maps of keys.
    pub fn new(alloc: Global, text: &str, holds: Holds) -> Result<Tree, AllocError>
        ensures { IfOk result (IsRoot (holding holds)) }
    {
        Tree::of_root(Nodes::new(alloc, text), holds)
    }

    /// The root alone, for the text of these nodes with other lines. The seed comes of theirs and of the lines, so the
    /// rest of the text is not hashed once more.
    pub fn renewed(&self, alloc: Global, lines: &str, holds: Holds) -> Result<Tree, AllocError>
        ensures { IfOk result (IsRoot (holding holds)) }
    {
        Tree::of_root(self.nodes.renewed(alloc, lines), holds)
    }

    /// The root alone, where there is no node yet.
    fn of_root(mut nodes: Nodes, holds: Holds) -> Result<Tree, AllocError>
        requires { nodes.items ≡ [] }
        ensures { IfOk result (IsRoot (holding holds)) }
    {
        let facts = NodeFacts::unnamed(Kind::Table, Origin::Root);
        nodes.push(0, 0, facts, holds)?;
        Ok(Tree { nodes })
    }

    /// How many nodes there are.
    pub fn len(&self) -> usize
        ensures nodes { result ≡ length self.now.trie }
        ensures facts { result ≡ length self.now.infos }
    {
        self.nodes.len()
    }

    /// The allocator of the nodes.
    pub fn allocator(&self) -> Global {
        self.nodes.allocator()
    }

    /// The parent of a node, which is an earlier one.
    pub fn parent(&self, id: usize) -> usize
        requires { id < length self.now.trie }
        ensures parent { result ≡ parent_at self.now.trie id }
        ensures earlier { 0 < id → result < id }
    {
        self.nodes.parent(id)
    }

    /// The number of a node among the children of its parent.
    pub fn number(&self, id: usize) -> usize
        requires later { 0 < id }
        requires within { id < length self.now.trie }
        ensures { (n : ℕ) → part_at self.now.trie id ≡ index n → result ≡ n }
    {
        self.nodes.number(id)
    }

    /// The key of a node in the table that is its parent; None below an array or an array of tables.
    pub fn key(&self, id: usize) -> Option<&str>
        requires later { 0 < id }
        requires within { id < length self.now.trie }
        ensures some { IfSome result (λ text. part_at self.now.trie id ≡ key text.now) }
        ensures none { IfNone result ((n : ℕ) × (part_at self.now.trie id ≡ index n)) }
        ensures above { IfNone result (holds_at self.now.trie (parent_at self.now.trie id) ≢ by_key) }
        ensures trie { IsTrie self.now.trie }
    {
        self.nodes
            .key_at(self.nodes.parent(id), self.nodes.number(id))
    }

    /// The facts about a node.
    pub fn info(&self, id: usize) -> NodeInfo
        requires { id < length self.now.trie }
        ensures { slice_get self.now.infos id ≡ Some result }
    {
        self.nodes.facts(id).info()
    }

    /// The role that represents those of the marks at a node, if there are any.
    pub fn role(&self, id: usize) -> Option<Role>
        requires { id < length self.now.trie }
        ensures { result ≡ state_at self.now.trie id }
    {
        self.nodes.role(id)
    }

    /// Whether the children of a node are by keys, if there are any.
    pub fn takes_keys(&self, id: usize) -> bool
        requires { id < length self.now.trie }
        ensures { Decides result (holds_at self.now.trie id ≡ by_key) }
    {
        self.nodes.takes_keys(id)
    }

    /// The child of a node by a key.
    pub fn child(&self, id: usize, text: &str) -> Option<usize>
        requires { id < length self.now.trie }
        ensures { IsChild self.now.trie id (key text.now) result }
    {
        self.nodes.child(id, text)
    }

    /// The item or element with that number.
    pub fn item(&self, id: usize, number: usize) -> Option<usize>
        requires { id < length self.now.trie }
        ensures { IsChild self.now.trie id (index number) result }
    {
        self.nodes.item(id, number)
    }

    /// The last item or element.
    pub fn last_item(&self, id: usize) -> Option<usize>
        requires { id < length self.now.trie }
        ensures some { IfSome result
            (λ last. (0 < length (children_of self.now.trie id))
            × (last ≡ slice_index_or (children_of self.now.trie id)
            (length (children_of self.now.trie id) - 1) 0)) }
        ensures none { IfNone result
            (holds_at self.now.trie id ≡ by_index → length (children_of self.now.trie id) ≡ 0) }
        ensures within { IfSome result (λ last. last < length self.now.trie) }
        ensures listed { IfSome result (λ last. holds_at self.now.trie id ≡ by_index) }
    {
        self.nodes.last_item(id)
    }

    /// How many children a node has.
    pub fn child_count(&self, id: usize) -> usize
        requires { id < length self.now.trie }
        ensures { result ≡ length (children_of self.now.trie id) }
    {
        self.nodes.child_count(id)
    }

    /// The child of a node that was added after that many others. In an array or an array of tables it is the item or
    /// element with that number.
    pub fn child_at(&self, id: usize, number: usize) -> Option<usize>
        requires { id < length self.now.trie }
        ensures met { result ≡ slice_get (children_of self.now.trie id) number }
        ensures indexed { (k : ℕ) → IsChild self.now.trie id (index number) (Some k) → result ≡ Some k }
    {
        self.nodes.child_at(id, number)
    }

    /// Adds a new node below a table, where no node has its path yet. If memory runs out, nothing is changed.
    pub fn add_key(
        &mut self,
        parent: usize,
        text: &str,
        role: Role,
        facts: NodeFacts,
        holds: Holds,
    ) -> Result<usize, AllocError>
        requires parent { (parent < length self.old.trie) × (holds_at self.old.trie parent ≡ by_key) }
        requires fresh { Contains (paths_of self.old.trie) (path_at self.old.trie parent ++ key text.now ∷ []) → ⊥ }
        ensures grows { OnOk result (Grows self.old.trie self.new.trie parent
            (path_at self.old.trie parent ++ key text.now ∷ []) (Some role) (holding holds)) }
        ensures infos { OnOk result (self.new.infos ≡ self.old.infos ++ info_of facts ∷ []) }
        ensures last { IfOk result (λ id. id ≡ length self.old.trie) }
        ensures refused { OnErr result (self.new ≡ self.old) }
    {
        let id = self.nodes.len();
        let role = Some(role);
        self.nodes
            .add_key(parent, text, NodeFacts { role, ..facts }, holds)?;
        Ok(id)
    }

    /// Adds a new item to an array, or a new element to an array of tables, after those that are there. If memory runs
    /// out, nothing is changed.
    pub fn add_item(
        &mut self,
        parent: usize,
        facts: NodeFacts,
        holds: Holds,
    ) -> Result<usize, AllocError>
        requires within { parent < length self.old.trie }
        requires listed { holds_at self.old.trie parent ≡ by_index }
        ensures grows { OnOk result (Grows self.old.trie self.new.trie parent
            (path_at self.old.trie parent ++ index (length (children_of self.old.trie parent)) ∷ []) None
            (holding holds)) }
        ensures infos { OnOk result (self.new.infos ≡ self.old.infos ++ info_of facts ∷ []) }
        ensures last { IfOk result (λ id. id ≡ length self.old.trie) }
        ensures refused { OnErr result (self.new ≡ self.old) }
    {
        let id = self.nodes.len();
        let number = self.nodes.child_count(parent);
        let role = None;
        self.nodes
            .push(parent, number, NodeFacts { role, ..facts }, holds)?;
        if let Err(refused) = self.nodes.link_item(parent, id) {
            self.nodes.pop();
            return Err(refused);
        }
        Ok(id)
    }

    /// Gives a node another role, and joins the facts from one more mention to its own. If memory runs out, nothing is
    /// changed.
    pub fn set_role(&mut self, id: usize, role: Role, more: NodeFacts) -> Result<(), AllocError>
        requires { id < length self.old.trie }
        ensures restates { OnOk result (Restates self.old.trie self.new.trie id role) }
        ensures infos { OnOk result
            (self.new.infos ≡ slice_set self.old.infos id (joined_info (info_at self.old id) (info_of more))) }
        ensures refused { OnErr result (self.new ≡ self.old) }
    {
        self.nodes.join_facts(id, Some(role), more)
    }

    /// Joins the facts from one more mention of each of two nodes to their own; their roles stay. If memory runs out,
    /// nothing is changed.
    pub fn add_facts_to_both(
        &mut self,
        first: usize,
        more: NodeFacts,
        second: usize,
        further: NodeFacts,
    ) -> Result<(), AllocError>
        requires first { first < length self.old.trie }
        requires second { second < length self.old.trie }
        ensures same { OnOk result (self.new.trie ≡ self.old.trie) }
        ensures infos { OnOk result (self.new.infos ≡ slice_set
            (slice_set self.old.infos first (joined_info (info_at self.old first) (info_of more))) second
            (joined_info (info_at self.old second) (info_of further))) }
        ensures refused { OnErr result (self.new ≡ self.old) }
    {
        self.nodes.join_both(first, more, second, further)
    }

    /// Gives a node another kind, and leaves all else as it is. It takes no memory.
    pub fn set_kind(&mut self, id: usize, kind: Kind)
        requires { id < length self.old.trie }
        ensures same { self.new.trie ≡ self.old.trie }
        ensures infos { self.new.infos ≡ slice_set self.old.infos id (record (info_at self.old id) { kind = kind }) }
    {
        self.nodes.set_kind(id, kind);
    }

    /// Gives a node another key in place of its last one, where no node has that path yet: so the path of each node
    /// below it changes too, and nothing else does. It takes memory for the key, and a map may grow as for one key
    /// more; if memory runs out, nothing is changed.
    pub fn set_key(&mut self, id: usize, text: &str) -> Result<(), AllocError>
        requires node { (id < length self.old.trie) × EndsInKey (path_at self.old.trie id) }
        requires fresh { Contains (paths_of self.old.trie) (beside (path_at self.old.trie id) text.now) → ⊥ }
        ensures moved { OnOk result (node_infos self.new ≡ with_path (node_infos self.old) (path_at self.old.trie id)
            (beside (path_at self.old.trie id) text.now)) }
        ensures trie { OnOk result (IsTrie self.new.trie) }
        ensures holdings { OnOk result (holdings_of self.new.trie ≡ holdings_of self.old.trie) }
        ensures refused { OnErr result (self.new ≡ self.old) }
    {
        let parent = self.nodes.parent(id);
        let number = self.nodes.number(id);
        self.nodes.set_child_key(parent, number, text)
    }
}
