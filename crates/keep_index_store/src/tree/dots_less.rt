//! The tree where a line goes that goes on from tables of dotted keys: they have one mention less.
ghost use Rattle.std.specs.Prelude.{◌≡◌, ◌<◌, All, length, true};
ghost use Rattle.keep_path.specs.NodesBelow as below;
ghost use Rattle.keep_index_store.specs.DotsLess.{AreGivers, CanGive, HasSmallValue, all_less_mentioned};
ghost use Rattle.keep_index_store.specs.DotsLess.{greatest_value, less_mentioned};
ghost use Rattle.keep_index_store.specs.Tree.{info_at};
ghost use Rattle.keep_index_store.specs.Trie.{children_of};

use super::Tree;
use keep_types::{NodeInfo, Origin};

/// Whether it is a table of dotted keys that has more mentions than one.
fn can_give(info: &NodeInfo) -> bool
    ensures { result ≡ true → CanGive info.now }
{
    match info.origin {
        Origin::Dotted(_) => info.marks > 1,
        _ => false,
    }
}

/// The number of a node's value, or of that of the last keyval that continues from it; 0 where it has neither.
fn value_of(info: &NodeInfo) -> usize
    ensures { result ≡ below.value_of info.now }
{
    match info.origin {
        Origin::Value(value) | Origin::Dotted(value) => value,
        _ => 0,
    }
}

impl Tree {
    /// Whether a node and those above it, so many, are tables of dotted keys below the root that other lines mention,
    /// too.
    pub fn are_shared_tables(&self, last: usize, count: usize) -> bool
        requires { last < length self.now.trie }
        ensures { result ≡ true → AreGivers self.now last count }
    {
        // The invariant of a tree is known to the proof from where a field of it is looked at.
        let _nodes = &self.nodes;
        let mut id = last;
        for number in 0..count {
            if id == 0 || !can_give(&self.info(id)) {
                return false;
            }
            id = self.parent(id);
        }
        true
    }

    /// Whether the numbers of values have 32 bits at most.
    pub fn has_small_values(&self) -> bool
        ensures { result ≡ true → All HasSmallValue self.now.infos }
    {
        for id in 0..self.len() {
            if value_of(&self.info(id)) > u32::MAX as usize {
                return false;
            }
        }
        true
    }

    /// One mention less of a table of dotted keys and of those above it, so many, each of which has more than one: the
    /// last keyval that continues from it is then the last of its children. All else stays. It takes no memory.
    pub fn take_mentions(&mut self, last: usize, count: usize)
        requires within { last < length self.old.trie }
        requires tables { AreGivers self.old last count }
        requires small { All HasSmallValue self.old.infos }
        ensures same { self.new.trie ≡ self.old.trie }
        ensures taken { self.new ≡ all_less_mentioned last count self.old }
    {
        // The invariant of a tree is known to the proof from where a field of it is looked at.
        let _nodes = &self.nodes;
        let mut id = last;
        for number in 0..count {
            self.take_mention(id);
            id = self.parent(id);
        }
    }

    /// One mention less of a table.
    fn take_mention(&mut self, id: usize)
        requires within { id < length self.old.trie }
        requires gives { CanGive (info_at self.old id) }
        requires small { All HasSmallValue self.old.infos }
        ensures { self.new ≡ less_mentioned id self.old }
    {
        let value = self.last_value(id);
        self.nodes.take_mention(id, value);
    }

    /// The greatest number of a value that is known of a node's children.
    fn last_value(&self, id: usize) -> usize
        requires { id < length self.now.trie }
        ensures { result ≡ greatest_value self.now.infos (children_of self.now.trie id) }
    {
        // The invariant of a tree is known to the proof from where a field of it is looked at.
        let _nodes = &self.nodes;
        let mut last = 0;
        for number in 0..self.child_count(id) {
            let Some(child) = self.child_at(id, number) else {
                unreachable!()
            };
            last = last.max(value_of(&self.info(child)));
        }
        last
    }
}
