//! The nodes below one of them, where they all follow it.
ghost use Rattle.std.specs.Prelude.{◌≡◌, ◌⊎◌, ℕ, ◌+◌, ◌<◌, ◌≤◌, IfSome, length, true};
ghost use Rattle.keep_index_store.specs.AllNodes.{node_at};
ghost use Rattle.keep_index_store.specs.Below.{HasChildrenBefore, IsRunBelow};
ghost use Rattle.keep_index_store.specs.Stored.{IsStored};

use super::Nodes;

impl Nodes {
    /// How many nodes are below a node. None where it is no child by key, or where they do not all follow it.
    pub fn run_below(&self, id: usize) -> Option<usize>
        requires stored { IsStored self.now.items }
        requires within { id < length self.now.items }
        ensures run { IfSome result (λ gone. IsRunBelow self.now.items id gone) }
    {
        if id == 0 || !self.takes_keys(self.parent(id)) {
            return None;
        }
        let end = self.end_below(id);
        if !self.none_below_after(id, end) {
            return None;
        }
        Some(end - id - 1)
    }

    /// The number after those of the nodes that follow a node one after another and whose parents are that one or
    /// follow it, or after its own where there is none.
    fn end_below(&self, id: usize) -> usize
        requires { id < length self.now.items }
        ensures order { id < result }
        ensures within { result ≤ length self.now.items }
        ensures below { (j : ℕ) → id < j → j < result → id ≤ (node_at self.now.items j).parent }
    {
        let len = self.len();
        let mut end = id + 1;
        while end < len && self.parent(end) >= id {
            end += 1;
        }
        end
    }

    /// Whether no node from `end` on has one from `id` up to `end` as its parent. Each node stores its children, so it
    /// asks these alone.
    fn none_below_after(&self, id: usize, end: usize) -> bool
        requires stored { IsStored self.now.items }
        requires within { end ≤ length self.now.items }
        ensures { result ≡ true → (j : ℕ) → 0 < j → end ≤ j → j < length self.now.items
            → ((node_at self.now.items j).parent < id) ⊎ (end ≤ (node_at self.now.items j).parent) }
    {
        for node in id..end {
            if !self.has_children_before(node, end) {
                return false;
            }
        }
        true
    }

    /// Whether each child of a node has a number before `end`. They are in order, so the last of them is compared.
    fn has_children_before(&self, id: usize, end: usize) -> bool
        requires stored { IsStored self.now.items }
        requires within { id < length self.now.items }
        ensures { result ≡ true → HasChildrenBefore self.now.items id end }
    {
        let Some(number) = self.child_count(id).checked_sub(1) else {
            return true;
        };
        let Some(child) = self.child_at(id, number) else {
            unreachable!()
        };
        child < end
    }
}
