//! The tree where a header comes at the end: it goes through nodes that are there, and one node is new.
ghost use Rattle.std.specs.Prelude.{◌≡◌, ◌<◌, ◌+◌, ◌^◌, ◌∷◌, ◌++◌, [], Contains, IfOk, List, OnErr, OnOk, Option};
ghost use Rattle.std.specs.Prelude.{length, map, None, string_bytes};
ghost use Rattle.std.specs.List.{AllByRecursion};
ghost use Rattle.keep_index_store.specs.Children.{holding};
ghost use Rattle.keep_index_store.specs.Facts.{info_of};
ghost use Rattle.keep_index_store.specs.Growth.{Grows};
ghost use Rattle.keep_index_store.specs.Joined.{AreAscending, AreJoined, HasRole, joined_all, with_all_infos};
ghost use Rattle.keep_index_store.specs.KeysBelow.{AddsKeys, first_key, own_holding};
ghost use Rattle.keep_index_store.specs.Trie.{by_index, by_key, children_of, holds_at, path_at, paths_of, states_of};
ghost use Rattle.keep_path.specs.Path.{key, index};

use super::Tree;
use crate::children::Holds;
use crate::facts::NodeFacts;
use crate::packed::PackedFacts;
use keep_types::Role;
use std::alloc::AllocError;

/// The facts from one more mention of the node `id`.
#[derive(Clone, Copy)]
pub struct Join {
    pub id: usize,
    pub facts: NodeFacts,
}

/// The facts about the nodes that a header names and that are not there yet: those of the first of its leading keys, of
/// which each further one is the next key part; those of its last key; and, if that is an array of tables, those of
/// its element.
#[derive(Clone, Copy)]
pub struct HeaderFacts {
    pub through: NodeFacts,
    pub own: NodeFacts,
    pub element: Option<NodeFacts>,
}

impl HeaderFacts {
    /// What children the node of the last key may have.
    pub(crate) fn holds(self) -> Holds
        ensures { holding result ≡ own_holding self.element }
    {
        match self.element {
            None => Holds::Keys,
            Some(_) => Holds::Items,
        }
    }
}

impl Tree {
    /// Joins these facts to those of their nodes, whose roles stay. If memory runs out, nothing is changed.
    pub fn join_all(&mut self, joins: &[Join]) -> Result<(), AllocError>
        requires joins { AreAscending 0 (length self.old.trie) joins.now }
        ensures same { self.new.trie ≡ self.old.trie }
        ensures infos { OnOk result (self.new.infos ≡ joined_all self.old.infos joins.now) }
        ensures refused { OnErr result (self.new ≡ self.old) }
    {
        let joined = self.joined_all(joins)?;
        self.set_all(joined);
        Ok(())
    }

    /// Joins these facts to those of their nodes, whose roles stay, and adds a table for each of the leading keys, and
    /// a table, or an array of tables with one element, for the last one. Each comes below the one before it, and the
    /// first below `parent`, where no node has its path yet. If memory runs out, nothing is changed.
    pub fn join_and_add_keys(
        &mut self,
        joins: &[Join],
        parent: usize,
        leading: &[String],
        last: &str,
        facts: HeaderFacts,
    ) -> Result<(), AllocError>
        requires joins { AreAscending 0 (length self.old.trie) joins.now }
        requires parent { (parent < length self.old.trie) × (holds_at self.old.trie parent ≡ by_key) }
        requires fresh { Contains (paths_of self.old.trie)
            (path_at self.old.trie parent ++ key (first_key (map string_bytes leading.now) last.now) ∷ []) → ⊥ }
        requires counted { facts.through.key + length leading.now < 2 ^ 64 }
        ensures added { OnOk result
            (AddsKeys self.old self.new joins.now parent (map string_bytes leading.now) last.now facts) }
        ensures refused { OnErr result (self.new ≡ self.old) }
    {
        let joined = self.joined_all(joins)?;
        self.add_keys(parent, leading, last, facts)?;
        self.set_all(joined);
        Ok(())
    }

    /// Adds a table for each of the leading keys, and a table, or an array of tables with one element, for the last
    /// one. Each comes below the one before it, and the first below `parent`, where no node has its path yet. If memory
    /// runs out, nothing is changed.
    fn add_keys(
        &mut self,
        parent: usize,
        leading: &[String],
        last: &str,
        facts: HeaderFacts,
    ) -> Result<(), AllocError>
        requires parent { (parent < length self.old.trie) × (holds_at self.old.trie parent ≡ by_key) }
        requires fresh { Contains (paths_of self.old.trie)
            (path_at self.old.trie parent ++ key (first_key (map string_bytes leading.now) last.now) ∷ []) → ⊥ }
        requires counted { facts.through.key + length leading.now < 2 ^ 64 }
        ensures added { OnOk result
            (AddsKeys self.old self.new [] parent (map string_bytes leading.now) last.now facts) }
        ensures states { OnOk result ((more : List (Option Role))
            × (states_of self.new.trie ≡ states_of self.old.trie ++ more)) }
        ensures refused { OnErr result (self.new ≡ self.old) }
    {
        self.nodes.add_keys(parent, leading, last, facts)
    }

    /// Joins these facts to those of their nodes, whose roles stay, and adds a new item to an array, or a new element
    /// to an array of tables, after those that are there. If memory runs out, nothing is changed.
    pub fn join_and_add_item(
        &mut self,
        joins: &[Join],
        parent: usize,
        facts: NodeFacts,
        holds: Holds,
    ) -> Result<usize, AllocError>
        requires joins { AreAscending 0 (length self.old.trie) joins.now }
        requires parent { (parent < length self.old.trie) × (holds_at self.old.trie parent ≡ by_index) }
        ensures grows { OnOk result (Grows self.old.trie self.new.trie parent
            (path_at self.old.trie parent ++ index (length (children_of self.old.trie parent)) ∷ []) None
            (holding holds)) }
        ensures infos { OnOk result (self.new.infos ≡ joined_all self.old.infos joins.now ++ info_of facts ∷ []) }
        ensures refused { OnErr result (self.new ≡ self.old) }
    {
        let joined = self.joined_all(joins)?;
        let id = self.add_item(parent, facts, holds)?;
        self.set_all(joined);
        Ok(id)
    }

    /// The joined facts of each of these nodes, with its number. The only error is out of memory.
    fn joined_all(&self, joins: &[Join]) -> Result<Vec<(usize, PackedFacts)>, AllocError>
        requires { AreAscending 0 (length self.now.trie) joins.now }
        ensures roles { IfOk result (λ all. AllByRecursion (HasRole self.now.trie) all.items) }
        ensures infos { IfOk result (λ all. AreJoined self.now.infos joins.now all.items) }
    {
        self.nodes.joined_all(joins)
    }

    /// Gives each of these nodes those facts in place of its own; its role stays. It takes no memory.
    fn set_all(&mut self, all: Vec<(usize, PackedFacts)>)
        requires { AllByRecursion (HasRole self.old.trie) all.items }
        ensures same { self.new.trie ≡ self.old.trie }
        ensures infos { self.new.infos ≡ with_all_infos self.old.infos all.items }
    {
        self.nodes.set_all(all);
    }
}
