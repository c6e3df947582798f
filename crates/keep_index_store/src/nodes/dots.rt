//! The facts about a table of dotted keys, where one keyval more continues from it.
ghost use Rattle.std.specs.Prelude.{◌≡◌, ◌+◌, ◌<◌, ◌^◌, length};
ghost use Rattle.keep_index_store.specs.AllNodes.{node_at, with_facts};
ghost use Rattle.keep_index_store.specs.Dots.{with_mention};

use super::Nodes;

impl Nodes {
    /// One mention more of a node, by a keyval whose value has that number. It takes no memory.
    pub fn mention(&mut self, id: usize, value: usize)
        requires within { id < length self.old.items }
        requires room { (node_at self.old.items id).facts.marks + 1 < 2 ^ 16 }
        requires small { value < 2 ^ 32 }
        ensures { self.new.items ≡ with_facts self.old.items id (with_mention value (node_at self.old.items id).facts) }
    {
        let node = &mut self.list[id];
        node.facts.mention(value);
    }
}
