//! The facts about all nodes, where their numbers of values and of key parts are moved in place.
ghost use Rattle.std.specs.Prelude.{◌≡◌, false, map, true};
ghost use Rattle.keep_index_store.specs.Below.{with_shifted_facts, with_shifted_stored};
ghost use Rattle.keep_index_store.specs.Dots.{IsLowering};
ghost use Rattle.keep_index_store.specs.Shifting.{AllCanShift};

use super::{Node, Nodes};
use crate::shift::{FirstNumbers, NumberShifts};

/// Whether the numbers of all nodes have 32 bits at most once they are moved. One that is not moved may be tested as if
/// it were.
fn can_shift_all(nodes: &[Node], by: NumberShifts) -> bool
    ensures { result ≡ true → AllCanShift by nodes.now }
{
    for node in nodes {
        if !node.facts.can_shift(by) {
            return false;
        }
    }
    true
}

/// Moves the numbers of all nodes, which then have 32 bits at most.
fn shift_each(nodes: &mut [Node], by: NumberShifts)
    requires { AllCanShift by nodes.old }
    ensures { nodes.new ≡ map (with_shifted_stored by) nodes.old }
{
    let first = FirstNumbers::of(by);
    for node in nodes.iter_mut() {
        node.facts.shift(&first);
    }
}

/// Moves the numbers of all nodes, none of which is greater then.
fn lower_each(nodes: &mut [Node], by: NumberShifts)
    requires { IsLowering by }
    ensures { nodes.new ≡ map (with_shifted_stored by) nodes.old }
{
    let first = FirstNumbers::of(by);
    for node in nodes.iter_mut() {
        node.facts.lower(&first);
    }
}

/// Moves the numbers of all nodes, and says whether it was done: not where one could have more than 32 bits. Then
/// nothing is changed. It takes no memory, and does not go over the nodes where no number is moved.
pub fn shift_all(nodes: &mut [Node], by: NumberShifts) -> bool
    ensures shifted { result ≡ true → nodes.new ≡ map (with_shifted_stored by) nodes.old }
    ensures unchanged { result ≡ false → nodes.new ≡ nodes.old }
{
    if by.moves_nothing() {
        return true;
    }
    let fits = can_shift_all(nodes, by);
    if fits {
        shift_each(nodes, by);
    }
    fits
}

impl Nodes {
    /// Moves the numbers in the facts about all nodes, and says whether it was done: not where one could have more than
    /// 32 bits. Then nothing is changed. It takes no memory.
    pub fn shift_numbers(&mut self, by: NumberShifts) -> bool
        ensures shifted { result ≡ true → self.new.items ≡ map (with_shifted_facts by) self.old.items }
        ensures unchanged { result ≡ false → self.new ≡ self.old }
    {
        shift_all(self.list.as_mut_slice(), by)
    }

    /// Moves the numbers in the facts about all nodes, none of which is greater then. It takes no memory.
    pub fn lower_numbers(&mut self, by: NumberShifts)
        requires { IsLowering by }
        ensures { self.new.items ≡ map (with_shifted_facts by) self.old.items }
    {
        lower_each(self.list.as_mut_slice(), by);
    }
}
