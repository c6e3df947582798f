//! Nodes that come below one another, each by its key: those that a header at the end names and that are not there yet.
ghost use Rattle.std.specs.Prelude.{◌≡◌, ◌<◌, ◌≤◌, ◌^◌, ◌+◌, ◌-◌, [], ℕ, List, None, OnErr, OnOk, length, map};
ghost use Rattle.std.specs.Prelude.{string_bytes, take};
ghost use Rattle.std.specs.List.{remove};
ghost use Rattle.keep_index_store.specs.AllNodes.{Node, node_at, with_children};
ghost use Rattle.keep_index_store.specs.Children.{Keyed, child_ids, child_named, holds_of, named};
ghost use Rattle.keep_index_store.specs.KeysBelow.{HasBegun, first_key, with_element_below, with_header_below};
ghost use Rattle.keep_index_store.specs.KeysBelow.{with_keys_below};
ghost use Rattle.keep_index_store.specs.Trie.{by_index, by_key};

use super::Nodes;
use crate::children::Holds;
use crate::facts::NodeFacts;
use crate::tree::HeaderFacts;
use std::alloc::AllocError;

impl Nodes {
    /// Adds a table for each of the leading keys, each below the one before it and the first below `parent`, and below
    /// these a table, or an array of tables with one element, by the last key. If memory runs out, nothing is changed.
    pub fn add_keys(
        &mut self,
        parent: usize,
        leading: &[String],
        last: &str,
        facts: HeaderFacts,
    ) -> Result<(), AllocError>
        requires within { parent < length self.old.items }
        requires keyed { holds_of (node_at self.old.items parent).children ≡ by_key }
        requires fresh { child_named (node_at self.old.items parent).children
            (first_key (map string_bytes leading.now) last.now) ≡ None }
        requires counted { facts.through.key + length leading.now < 2 ^ 64 }
        ensures ok { OnOk result (self.new.items
            ≡ with_header_below self.old.items parent facts (map string_bytes leading.now) last.now) }
        ensures err { OnErr result (self.new.items ≡ self.old.items) }
    {
        let count = self.len();
        let added = self.add_all(parent, leading, last, facts);
        if added.is_err() {
            self.take_back(parent, count);
        }
        added
    }

    /// Adds these nodes, or those before the first for which memory is refused.
    fn add_all(
        &mut self,
        parent: usize,
        leading: &[String],
        last: &str,
        facts: HeaderFacts,
    ) -> Result<(), AllocError>
        requires within { parent < length self.old.items }
        requires keyed { holds_of (node_at self.old.items parent).children ≡ by_key }
        requires fresh { child_named (node_at self.old.items parent).children
            (first_key (map string_bytes leading.now) last.now) ≡ None }
        requires counted { facts.through.key + length leading.now < 2 ^ 64 }
        ensures ok { OnOk result (self.new.items
            ≡ with_header_below self.old.items parent facts (map string_bytes leading.now) last.now) }
        ensures begun { HasBegun self.old.items self.new.items parent
            (first_key (map string_bytes leading.now) last.now) }
    {
        self.add_each(parent, leading, last, facts)?;
        match facts.element {
            None => Ok(()),
            Some(element) => self.add_element(self.len() - 1, element),
        }
    }

    /// Adds these nodes but for the element, or those before the first for which memory is refused.
    fn add_each(
        &mut self,
        parent: usize,
        leading: &[String],
        last: &str,
        facts: HeaderFacts,
    ) -> Result<(), AllocError>
        requires within { parent < length self.old.items }
        requires keyed { holds_of (node_at self.old.items parent).children ≡ by_key }
        requires fresh { child_named (node_at self.old.items parent).children
            (first_key (map string_bytes leading.now) last.now) ≡ None }
        requires counted { facts.through.key + length leading.now < 2 ^ 64 }
        ensures ok { OnOk result (self.new.items
            ≡ with_keys_below self.old.items parent facts (map string_bytes leading.now) last.now) }
        ensures begun { HasBegun self.old.items self.new.items parent
            (first_key (map string_bytes leading.now) last.now) }
    {
        let mut at = parent;
        for (i, name) in leading.iter().enumerate() {
            let id = self.len();
            let table = NodeFacts {
                key: facts.through.key + i,
                ..facts.through
            };
            self.add_key(at, name.as_str(), table, Holds::Keys)?;
            at = id;
        }
        self.add_key(at, last, facts.own, facts.holds())
    }

    /// Adds the first element of an array of tables. If memory runs out, nothing is changed.
    fn add_element(&mut self, array: usize, facts: NodeFacts) -> Result<(), AllocError>
        requires within { array < length self.old.items }
        requires listed { holds_of (node_at self.old.items array).children ≡ by_index }
        requires bare { child_ids (node_at self.old.items array).children ≡ [] }
        ensures ok { OnOk result (self.new.items ≡ with_element_below self.old.items array facts) }
        ensures err { OnErr result (self.new.items ≡ self.old.items) }
    {
        let id = self.len();
        self.push(array, 0, facts, Holds::Keys)?;
        if let Err(refused) = self.link_item(array, id) {
            self.pop();
            return Err(refused);
        }
        Ok(())
    }

    /// Takes away the nodes from `count` on: none, or the last child of `parent` and others below it.
    fn take_back(&mut self, parent: usize, count: usize)
        requires { (before : List Node) × (text : List ℕ) × HasBegun before self.old.items parent text
            × (length before ≡ count) }
        ensures { (before : List Node) (text : List ℕ) → HasBegun before self.old.items parent text
            → length before ≡ count → self.new.items ≡ before }
    {
        if self.len() == count {
            return;
        }
        self.unlink_last(parent);
        self.truncate(count);
    }

    /// Takes away the last key of a table.
    fn unlink_last(&mut self, id: usize)
        requires within { id < length self.old.items }
        requires keyed { holds_of (node_at self.old.items id).children ≡ by_key }
        requires some { 0 < length (named (node_at self.old.items id).children) }
        ensures { self.new.items ≡ with_children self.old.items id
            (Keyed (remove (named (node_at self.old.items id).children)
            (length (named (node_at self.old.items id).children) - 1))) }
    {
        let last = self.child_count(id) - 1;
        let above = &mut self.list[id];
        above.children.remove_key(last);
    }

    /// Takes away the nodes from `count` on, which are among the children of none that stays.
    fn truncate(&mut self, count: usize)
        ensures { self.new.items ≡ take count self.old.items }
    {
        while self.len() > count {
            self.pop();
        }
    }
}
