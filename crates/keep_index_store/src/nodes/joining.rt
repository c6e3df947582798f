//! Facts from one more mention of each of some nodes, joined with their own: first they are made, and then they are
//! stored.
ghost use Rattle.std.specs.Prelude.{◌≡◌, ◌<◌, IfOk, length};
ghost use Rattle.std.specs.List.{AllByRecursion};
ghost use Rattle.keep_index_store.specs.Joined.{AreAscending, each_joined, with_all_facts};

use super::Nodes;
use crate::packed::PackedFacts;
use crate::tree::Join;
use std::alloc::AllocError;

impl Nodes {
    /// The joined facts of each of these nodes, with its number. The only error is out of memory.
    pub fn joined_all(&self, joins: &[Join]) -> Result<Vec<(usize, PackedFacts)>, AllocError>
        requires { AreAscending 0 (length self.now.items) joins.now }
        ensures { IfOk result (λ all. all.items ≡ each_joined self.now.items joins.now) }
    {
        let mut all = Vec::with_capacity(self.allocator(), joins.len())?;
        for join in joins {
            let joined = self.joined_facts(join.id, join.facts)?;
            all.push((join.id, joined))?;
        }
        Ok(all)
    }

    /// Gives each of these nodes those facts in place of its own. It takes no memory.
    pub fn set_all(&mut self, mut all: Vec<(usize, PackedFacts)>)
        requires { AllByRecursion (λ e. e.0 < length self.old.items) all.items }
        ensures { self.new.items ≡ with_all_facts self.old.items all.items }
    {
        while let Some((id, facts)) = all.pop() {
            self.set_facts(id, facts);
        }
    }
}
