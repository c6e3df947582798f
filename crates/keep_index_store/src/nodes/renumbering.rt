//! The facts about all nodes, where a line comes or goes: their numbers change in place.
ghost use Rattle.std.specs.Prelude.{◌≡◌, ◌<◌, ◌≤◌, ◌++◌, IfNone, IfSome, drop, length, map, take};
ghost use Rattle.keep_path.specs.NodeInfos.{later_number, earlier_number};
ghost use Rattle.keep_index_store.specs.Renumbering.{NodesCanGrow, StoredCanGrow, renumbered_node, renumbered_stored};

use super::{Node, Nodes};
use crate::renumbering::{LeastNumbers, LineNumbers};

/// Changes the numbers of the nodes to those once the line is there, up to the first node that has one which can't be
/// greater by one. How many are changed.
fn renumber_first_later(nodes: &mut [Node], line: LineNumbers) -> usize
    ensures within { result ≤ length nodes.old }
    ensures changed { nodes.new
        ≡ map (renumbered_stored later_number line) (take result nodes.old) ++ drop result nodes.old }
    ensures full { result < length nodes.old → StoredCanGrow nodes.old → ⊥ }
{
    let least = LeastNumbers::of(line);
    'nodes: for id in 0..nodes.len() {
        if nodes[id].facts.renumber_later(&least).is_none() {
            return id;
        }
    }
    nodes.len()
}

/// Changes the numbers of all nodes to those once the line is there. None, if one can't be greater by one where it is
/// stored: then each node before it gets its numbers back.
fn renumber_all_later(nodes: &mut [Node], line: LineNumbers) -> Option<()>
    ensures later { IfSome result (λ _. nodes.new ≡ map (renumbered_stored later_number line) nodes.old) }
    ensures unchanged { IfNone result (nodes.new ≡ nodes.old) }
    ensures full { IfNone result (StoredCanGrow nodes.old → ⊥) }
{
    let changed = renumber_first_later(nodes, line);
    if changed < nodes.len() {
        renumber_all_earlier(&mut nodes[..changed], line);
        return None;
    }
    Some(())
}

/// Changes the numbers of all nodes to those once the line is gone.
fn renumber_all_earlier(nodes: &mut [Node], line: LineNumbers)
    ensures { nodes.new ≡ map (renumbered_stored earlier_number line) nodes.old }
{
    let least = LeastNumbers::of(line);
    'nodes: for id in 0..nodes.len() {
        nodes[id].facts.renumber_earlier(&least);
    }
}

impl Nodes {
    /// Changes the numbers of all nodes to those once the line is there. It takes no memory. None, if one can't be
    /// greater by one where it is stored: then nothing is changed.
    pub fn renumber_later(&mut self, line: LineNumbers) -> Option<()>
        ensures later { IfSome result (λ _. self.new.items ≡ map (renumbered_node later_number line) self.old.items) }
        ensures unchanged { IfNone result (self.new ≡ self.old) }
        ensures full { IfNone result (NodesCanGrow self.old.items → ⊥) }
    {
        renumber_all_later(self.list.as_mut_slice(), line)
    }

    /// Changes the numbers of all nodes to those once the line is gone. It takes no memory.
    pub fn renumber_earlier(&mut self, line: LineNumbers)
        ensures { self.new.items ≡ map (renumbered_node earlier_number line) self.old.items }
    {
        renumber_all_earlier(self.list.as_mut_slice(), line);
    }
}
