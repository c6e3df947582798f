//! The facts about a table of dotted keys, where one keyval less continues from it.
ghost use Rattle.std.specs.Prelude.{◌≡◌, ◌<◌, ◌^◌, length};
ghost use Rattle.keep_index_store.specs.AllNodes.{node_at, with_facts};
ghost use Rattle.keep_index_store.specs.DotsLess.{without_mention};

use super::Nodes;

impl Nodes {
    /// One mention less of a node; the last keyval that continues from it has a value with that number. It takes no
    /// memory.
    pub fn take_mention(&mut self, id: usize, value: usize)
        requires within { id < length self.old.items }
        requires some { 0 < (node_at self.old.items id).facts.marks }
        requires small { value < 2 ^ 32 }
        ensures { self.new.items ≡ with_facts self.old.items id
            (without_mention value (node_at self.old.items id).facts) }
    {
        let node = &mut self.list[id];
        node.facts.take_mention(value);
    }
}
