//! The nodes, where those below one of them give place to those of another tree.
ghost use Rattle.std.specs.Prelude.{◌≡◌, ◌+◌, ◌-◌, ◌<◌, ◌^◌, All, false, length, map, true};
ghost use Rattle.keep_index_store.specs.AllNodes.{node_at};
ghost use Rattle.keep_index_store.specs.Below.{CanReplaceBelow, replaced_below, with_shifted_facts};
ghost use Rattle.keep_index_store.specs.Removed.{HasStoredLink};
ghost use Rattle.keep_index_store.specs.Replacing.{shift_of};

use super::Nodes;
use super::taking_in::{make_ready, replace_nodes};
use crate::links::{ParentLinks, replace_links};
use crate::shift::{NumberShifts, Shift};
use std::mem;

/// How the numbers of the nodes beside the replaced ones are moved. There are `len` nodes, and the `gone` ones after
/// the node `id` give place to those of a tree of `inside` nodes, without its root.
fn numbers_beside(len: usize, id: usize, gone: usize, inside: usize) -> Shift
    requires within { id + gone < len }
    requires some { 0 < inside }
    requires few { len + inside < 2 ^ 32 }
    ensures { result ≡ shift_of len id gone inside }
{
    Shift {
        from: id + 1 + gone,
        old: len,
        new: (len - gone) + (inside - 1),
    }
}

impl Nodes {
    /// Whether the numbers of these nodes and of others that come among them are stored in 32 bits, and still are then.
    /// That of a root's parent, which is never followed, is 0 then.
    pub fn can_take_in(&self, inside: &Nodes) -> bool
        ensures links { result ≡ true → All HasStoredLink self.now.items }
        ensures inside_links { result ≡ true → All HasStoredLink inside.now.items }
        ensures few { result ≡ true → length self.now.items + length inside.now.items < 2 ^ 32 }
        ensures root { result ≡ true → (node_at self.now.items 0).parent ≡ 0 }
        ensures inside_root { result ≡ true → (node_at inside.now.items 0).parent ≡ 0 }
    {
        let max = u32::MAX as usize;
        self.has_small_links()
            && inside.has_small_links()
            && self.len() <= max
            && inside.len() <= max - self.len()
            && self.is_rooted()
            && inside.is_rooted()
    }

    /// Whether there is a root, and its parent link names the root.
    fn is_rooted(&self) -> bool
        ensures { result ≡ true → (node_at self.now.items 0).parent ≡ 0 }
    {
        0 < self.len() && self.parent(0) == 0
    }

    /// The `gone` nodes after the node `id` give place to those of another tree, without its root, whose children that
    /// node has then; and the numbers of values and of key parts of the others are moved. Says whether it was done: not
    /// where memory is refused, or a number would not fit where it is stored. Then nothing is changed.
    pub fn replace_below(&mut self, id: usize, gone: usize, inside: Nodes, by: NumberShifts) -> bool
        requires { CanReplaceBelow self.old.items id gone inside.items }
        ensures replaced { result ≡ true
            → self.new.items ≡ replaced_below (map (with_shifted_facts by) self.old.items) id gone inside.items }
        ensures links { result ≡ true → All HasStoredLink self.new.items }
        ensures refused { result ≡ false → self.new ≡ self.old }
    {
        let alloc = self.allocator();
        let Nodes { list, links, .. } = inside;
        let beside = numbers_beside(self.len(), id, gone, list.len());
        let mut all_links = mem::replace(&mut self.links, ParentLinks::new(alloc)).into_packed();
        if !make_ready(&mut self.list, &mut all_links, list.len(), by) {
            self.links = ParentLinks::of_packed(alloc, all_links);
            return false;
        }
        replace_links(&mut all_links, id, gone, links.into_packed(), beside);
        replace_nodes(&mut self.list, id, gone, list, beside);
        self.links = ParentLinks::of_packed(alloc, all_links);
        true
    }
}
