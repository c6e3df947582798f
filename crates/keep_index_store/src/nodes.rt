//! The nodes, in the order in which they are first met.
ghost use Rattle.std.specs.Prelude.{◌≡◌, ◌<◌, ◌-◌, ◌∷◌, ◌++◌, [], length, None, IfNone, IfSome, IfOk, OnErr, OnOk};
ghost use Rattle.std.specs.Prelude.{slice_get, slice_index_or, option_copied, option_map, take};
ghost use Rattle.std.specs.Bool.{Decides};
ghost use Rattle.keep_index_store.specs.AllNodes.{node_at, with_children, with_facts, and_key, and_item, with_key};
ghost use Rattle.keep_index_store.specs.AllNodes.{HasSmallLink, with_key_below};
ghost use Rattle.keep_index_store.specs.Children.{holding, no_children, holds_of, named, child_ids, child_named};
ghost use Rattle.keep_index_store.specs.Children.{child_numbered};
ghost use Rattle.keep_index_store.specs.Facts.{joined_facts};
ghost use Rattle.std.specs.Prelude.{◌+◌, ◌≤◌, ◌^◌, ℕ, All, map, true, vec_len};
ghost use Rattle.keep_index_store.specs.Moved.{CanMove, IsLast, moved_nodes, reordered};
ghost use Rattle.keep_index_store.specs.Moved.{stored_at, with_last_at, with_last_key, with_moved_children};
ghost use Rattle.keep_index_store.specs.declared.nodes.Node.{Node as StoredNode};
ghost use Rattle.keep_index_store.specs.Stored.{IsStored};
ghost use Rattle.keep_index_store.specs.Trie.{by_key, by_index};

mod adding;
mod below;
mod dots;
mod dots_less;
mod joining;
mod removing;
mod renumbering;
mod replacing;
mod shifting;
mod taking_in;

use crate::children::{Children, Holds};
use crate::facts::NodeFacts;
use crate::links::{NewPlace, ParentLink, ParentLinks};
use crate::moved::move_last_to;
use crate::packed::PackedFacts;
use crate::seed::Seed;
use keep_types::{Kind, Role};
use std::alloc::{AllocError, Global};
use std::marker::Model;

/// A node: its children, and the facts about it. The root is the first.
#[derive(Drop)]
pub struct Node {
    children: Children,
    facts: PackedFacts,
}

impl Node {
    /// A node with no children.
    #[inline(always)]
    fn new(alloc: Global, facts: NodeFacts, holds: Holds) -> Result<Node, AllocError>
        ensures children { IfOk result (λ node. node.children ≡ no_children (holding holds)) }
        ensures facts { IfOk result (λ node. node.facts ≡ facts) }
    {
        Ok(Node {
            children: Children::none(holds),
            facts: PackedFacts::of(alloc, facts)?,
        })
    }
}

/// Gives the children of each node the numbers that they have once the last node has the number `at`.
fn renumber_children(list: &mut [Node], last: usize, at: usize)
    requires { All (λ n. CanMove last at n.children) list.old }
    ensures { list.new ≡ map (with_moved_children last at) list.old }
{
    for node in list.iter_mut() {
        node.children.renumber(last, at);
    }
}

/// Moves the last node, and the last key of its parent, to where they go, and gives the children of each node the
/// numbers that they have then.
fn move_last_node(list: &mut Vec<Node>, place: NewPlace)
    requires within { (place.above < length list.old.items) × (place.at < length list.old.items) }
    requires holds { holds_of (stored_at list.old.items place.above).children ≡ by_key }
    requires place { place.number < length (named (stored_at list.old.items place.above).children) }
    requires each { All (λ n. CanMove (length list.old.items - 1) place.at n.children)
        (with_last_key list.old.items place) }
    ensures moved { (none : StoredNode) → list.new.items
        ≡ map (with_moved_children (length list.old.items - 1) place.at)
        (with_last_at none (with_last_key list.old.items place) place.at) }
    ensures len { vec_len list.new ≡ vec_len list.old }
{
    let last = list.len() - 1;
    let above = &mut list[place.above];
    above.children.move_last_key(place.number);
    renumber_children(list.as_mut_slice(), last, place.at);
    move_last_to(list, place.at);
}

/// All nodes. Their parent links are stored in a separate vector, since marks and look-ups never ask for them; the
/// root's link is never followed.
#[derive(Drop)]
pub struct Nodes {
    list: Vec<Node>,
    links: ParentLinks,
    seed: Seed,
}

impl Model for Nodes {
    ghost use Rattle.std.specs.Prelude.{◌≡◌, length};
    ghost use Rattle.keep_index_store.specs.AllNodes.{AllNodes};

    ghost Value = { AllNodes };

    ghost use Rattle.keep_index_store.specs.NodeRows.{all_nodes};

    ghost view = { λ n. all_nodes n.list.items n.links };

    ghost invariant = { λ n. length n.links ≡ length n.list.items };
}

impl Nodes {
    /// No node yet. `text` gives the seed of the maps of their keys.
    pub fn new(alloc: Global, text: &str) -> Nodes
        ensures { result.items ≡ [] }
    {
        Nodes {
            list: Vec::new(alloc),
            links: ParentLinks::new(alloc),
            seed: Seed::of(text),
        }
    }

    /// No node yet, for the text of these with other lines. The seed comes of theirs and of the lines, so the rest of
    /// the text is not hashed once more.
    pub fn renewed(&self, alloc: Global, lines: &str) -> Nodes
        ensures { result.items ≡ [] }
    {
        Nodes {
            list: Vec::new(alloc),
            links: ParentLinks::new(alloc),
            seed: self.seed.after(lines),
        }
    }

    /// How many nodes there are.
    pub fn len(&self) -> usize
        ensures { result ≡ length self.now.items }
    {
        self.list.len()
    }

    /// The allocator of the nodes.
    pub fn allocator(&self) -> Global {
        *self.list.allocator()
    }

    /// The parent of a node.
    pub fn parent(&self, id: usize) -> usize
        requires { id < length self.now.items }
        ensures { result ≡ (node_at self.now.items id).parent }
    {
        self.links.get(id).parent
    }

    /// The number of a node among the children of its parent.
    pub fn number(&self, id: usize) -> usize
        requires { id < length self.now.items }
        ensures { result ≡ (node_at self.now.items id).number }
    {
        self.links.get(id).number
    }

    /// The facts about a node.
    pub fn facts(&self, id: usize) -> NodeFacts
        requires { id < length self.now.items }
        ensures { result ≡ (node_at self.now.items id).facts }
    {
        self.list[id].facts.unpack()
    }

    /// The role that represents those of the marks at a node, if there are any.
    pub fn role(&self, id: usize) -> Option<Role>
        requires { id < length self.now.items }
        ensures { result ≡ (node_at self.now.items id).facts.role }
    {
        self.list[id].facts.role()
    }

    /// Whether the children of a node are by keys, if there are any.
    pub fn takes_keys(&self, id: usize) -> bool
        requires { id < length self.now.items }
        ensures { Decides result (holds_of (node_at self.now.items id).children ≡ by_key) }
    {
        self.list[id].children.takes_keys()
    }

    /// The child of a node by a key.
    pub fn child(&self, id: usize, text: &str) -> Option<usize>
        requires { id < length self.now.items }
        ensures { result ≡ child_named (node_at self.now.items id).children text.now }
    {
        self.list[id].children.child(text)
    }

    /// The item or element with that number.
    pub fn item(&self, id: usize, number: usize) -> Option<usize>
        requires { id < length self.now.items }
        ensures { result ≡ child_numbered (node_at self.now.items id).children number }
    {
        self.list[id].children.item(number)
    }

    /// The last item or element.
    pub fn last_item(&self, id: usize) -> Option<usize>
        requires { id < length self.now.items }
        ensures some { IfSome result
            (λ last. (0 < length (child_ids (node_at self.now.items id).children))
            × (last ≡ slice_index_or (child_ids (node_at self.now.items id).children)
            (length (child_ids (node_at self.now.items id).children) - 1) 0)) }
        ensures none { IfNone result
            (holds_of (node_at self.now.items id).children ≡ by_index
            → length (child_ids (node_at self.now.items id).children) ≡ 0) }
        ensures listed { IfSome result (λ last. holds_of (node_at self.now.items id).children ≡ by_index) }
    {
        self.list[id].children.last_item()
    }

    /// How many children a node has.
    pub fn child_count(&self, id: usize) -> usize
        requires { id < length self.now.items }
        ensures { result ≡ length (child_ids (node_at self.now.items id).children) }
    {
        self.list[id].children.len()
    }

    /// The child of a node that was added after that many others.
    pub fn child_at(&self, id: usize, number: usize) -> Option<usize>
        requires { id < length self.now.items }
        ensures { result ≡ slice_get (child_ids (node_at self.now.items id).children) number }
    {
        self.list[id].children.at(number)
    }

    /// The key of that child, if it has one.
    pub fn key_at(&self, id: usize, number: usize) -> Option<&str>
        requires { id < length self.now.items }
        ensures { option_copied result
            ≡ option_map (λ e. e.0) (slice_get (named (node_at self.now.items id).children) number) }
    {
        self.list[id].children.key_at(number)
    }

    /// Adds a node with no children, which is not yet among the children of its parent. If memory runs out, nothing is
    /// changed.
    #[inline(always)]
    pub fn push(
        &mut self,
        parent: usize,
        number: usize,
        facts: NodeFacts,
        holds: Holds,
    ) -> Result<(), AllocError>
        ensures ok { OnOk result (self.new.items ≡ self.old.items
            ++ record { parent = parent; number = number; children = no_children (holding holds); facts = facts }
            ∷ []) }
        ensures err { OnErr result (self.new.items ≡ self.old.items) }
    {
        let alloc = self.allocator();
        self.list.reserve(1)?;
        let node = Node::new(alloc, facts, holds)?;
        self.links.push(ParentLink { parent, number })?;
        self.list.push_reserved(node);
        Ok(())
    }

    /// Takes away the last node, which is not among the children of its parent.
    pub fn pop(&mut self)
        ensures { self.new.items ≡ take (length self.old.items - 1) self.old.items }
    {
        self.list.pop();
        self.links.pop();
    }

    /// Whether both numbers of each parent link can be greater by one in 32 bits, and those of one more child. It reads
    /// the root's link alone: any other parent is an earlier node, and a node has fewer siblings than there are nodes.
    pub fn can_grow_below(&self, parent: usize) -> bool
        requires within { parent < length self.now.items }
        requires stored { IsStored self.now.items }
        ensures each { result ≡ true → All HasSmallLink self.now.items }
        ensures next { result ≡ true → (parent < 2 ^ 32 - 1)
            × (length (child_ids (node_at self.now.items parent).children) < 2 ^ 32 - 1) }
    {
        let max = u32::MAX as usize;
        self.len() < max && self.parent(0) < max && self.number(0) < max
    }

    /// Adds a node with no children below a table, by a key that is not there yet. If memory runs out, nothing is
    /// changed.
    pub fn add_key(
        &mut self,
        parent: usize,
        text: &str,
        facts: NodeFacts,
        holds: Holds,
    ) -> Result<(), AllocError>
        requires within { parent < length self.old.items }
        requires keyed { holds_of (node_at self.old.items parent).children ≡ by_key }
        requires fresh { child_named (node_at self.old.items parent).children text.now ≡ None }
        ensures ok { OnOk result
            (self.new.items ≡ with_key_below self.old.items parent text.now (holding holds) facts) }
        ensures err { OnErr result (self.new.items ≡ self.old.items) }
    {
        let id = self.len();
        let number = self.child_count(parent);
        self.push(parent, number, facts, holds)?;
        if let Err(refused) = self.link_key(parent, text, id) {
            self.pop();
            return Err(refused);
        }
        Ok(())
    }

    /// Adds a node to the children of a table, by a key that is not there yet. If memory runs out, nothing is changed.
    pub fn link_key(&mut self, id: usize, text: &str, child: usize) -> Result<(), AllocError>
        requires within { id < length self.old.items }
        requires holds { holds_of (node_at self.old.items id).children ≡ by_key }
        requires fresh { child_named (node_at self.old.items id).children text.now ≡ None }
        ensures ok { OnOk result (self.new.items ≡ with_children self.old.items id
            (and_key (node_at self.old.items id).children text.now child)) }
        ensures err { OnErr result (self.new.items ≡ self.old.items) }
    {
        let alloc = self.allocator();
        let above = &mut self.list[id];
        above.children.add_key(alloc, self.seed, text, child)
    }

    /// Gives a child of a table another key, which no child there has yet.
    pub fn set_child_key(&mut self, id: usize, number: usize, text: &str) -> Result<(), AllocError>
        requires within { id < length self.old.items }
        requires holds { holds_of (node_at self.old.items id).children ≡ by_key }
        requires counted { number < length (named (node_at self.old.items id).children) }
        requires fresh { child_named (node_at self.old.items id).children text.now ≡ None }
        ensures ok { OnOk result (self.new.items ≡ with_children self.old.items id
            (with_key (node_at self.old.items id).children number text.now)) }
        ensures err { OnErr result (self.new.items ≡ self.old.items) }
    {
        let alloc = self.allocator();
        let above = &mut self.list[id];
        above.children.set_key(alloc, number, text)
    }

    /// Adds a node to the children of an array or an array of tables. If memory runs out, nothing is changed.
    pub fn link_item(&mut self, id: usize, child: usize) -> Result<(), AllocError>
        requires within { id < length self.old.items }
        requires holds { holds_of (node_at self.old.items id).children ≡ by_index }
        ensures ok { OnOk result (self.new.items ≡ with_children self.old.items id
            (and_item (node_at self.old.items id).children child)) }
        ensures err { OnErr result (self.new.items ≡ self.old.items) }
    {
        let alloc = self.allocator();
        let above = &mut self.list[id];
        above.children.add_item(alloc, child)
    }

    /// How many children of a node that has one come before the first from `at` on, of all but the last. Children
    /// ascend, so it looks at few of them.
    pub fn children_before(&self, id: usize, at: usize) -> usize
        requires within { id < length self.now.items }
        requires some { 0 < length (child_ids (node_at self.now.items id).children) }
        requires stored { IsStored self.now.items }
        ensures within { result < length (child_ids (node_at self.now.items id).children) }
        ensures before { (k : ℕ) → k < result
            → slice_index_or (child_ids (node_at self.now.items id).children) k 0 < at }
        ensures stops { result + 1 < length (child_ids (node_at self.now.items id).children)
            → at ≤ slice_index_or (child_ids (node_at self.now.items id).children) result 0 }
    {
        let mut low = 0;
        let mut high = self.child_count(id) - 1;
        while low < high {
            let middle = low + (high - low) / 2;
            let Some(child) = self.child_at(id, middle) else {
                unreachable!()
            };
            if child >= at {
                high = middle;
            } else {
                low = middle + 1;
            }
        }
        low
    }

    /// Gives the last node the number `at`, and each from there on the next number; among the children of its parent it
    /// comes after `place` others. It takes no memory.
    pub fn move_last(&mut self, at: usize, place: usize)
        requires last { IsLast self.old.items at place }
        requires small { All HasSmallLink self.old.items }
        ensures { self.new.items ≡ moved_nodes (reordered self.old.items place) at }
    {
        let link = self.links.get(self.list.len() - 1);
        let place = NewPlace {
            at,
            above: link.parent,
            before: link.number,
            number: place,
        };
        self.links.move_last(place);
        move_last_node(&mut self.list, place);
    }

    /// Joins the facts from one more mention of a node to its own; its role is now this one. If memory runs out,
    /// nothing is changed.
    pub fn join_facts(
        &mut self,
        id: usize,
        role: Option<Role>,
        more: NodeFacts,
    ) -> Result<(), AllocError>
        requires { id < length self.old.items }
        ensures ok { OnOk result (self.new.items ≡ with_facts self.old.items id
            (record (joined_facts (node_at self.old.items id).facts more) { role = role })) }
        ensures err { OnErr result (self.new.items ≡ self.old.items) }
    {
        let alloc = self.allocator();
        let node = &mut self.list[id];
        node.facts.join(alloc, role, more)
    }

    /// Joins the facts from one more mention of each of two nodes to their own; their roles stay. The second's are made
    /// before the first's change, so if memory runs out, nothing is changed.
    pub fn join_both(
        &mut self,
        first: usize,
        more: NodeFacts,
        second: usize,
        further: NodeFacts,
    ) -> Result<(), AllocError>
        requires first { first < length self.old.items }
        requires second { second < length self.old.items }
        ensures ok { OnOk result (self.new.items ≡ with_facts
            (with_facts self.old.items first (joined_facts (node_at self.old.items first).facts more)) second
            (joined_facts (node_at self.old.items second).facts further)) }
        ensures err { OnErr result (self.new.items ≡ self.old.items) }
    {
        let role = self.role(first);
        let joined = self.joined_facts(second, further)?;
        self.join_facts(first, role, more)?;
        self.set_facts(second, joined);
        Ok(())
    }

    /// The facts of a node, joined with those from one more mention of it. The only error is out of memory.
    fn joined_facts(&self, id: usize, more: NodeFacts) -> Result<PackedFacts, AllocError>
        requires { id < length self.now.items }
        ensures { IfOk result (λ joined. joined ≡ joined_facts (node_at self.now.items id).facts more) }
    {
        self.list[id].facts.joined(self.allocator(), more)
    }

    /// Gives a node these facts in place of its own.
    fn set_facts(&mut self, id: usize, facts: PackedFacts)
        requires { id < length self.old.items }
        ensures { self.new.items ≡ with_facts self.old.items id facts }
    {
        let node = &mut self.list[id];
        node.facts = facts;
    }

    /// Gives a node another kind.
    pub fn set_kind(&mut self, id: usize, kind: Kind)
        requires { id < length self.old.items }
        ensures { self.new.items ≡ with_facts self.old.items id
            (record (node_at self.old.items id).facts { kind = kind }) }
    {
        let node = &mut self.list[id];
        node.facts.set_kind(kind);
    }
}
