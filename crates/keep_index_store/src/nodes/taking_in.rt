//! The nodes as they are stored, where one of them and those below it give place to those of another tree.
ghost use Rattle.std.specs.Prelude.{◌≡◌, ◌+◌, ◌<◌, ◌≤◌, All, drop, false, length, map, suc, take, true};
ghost use Rattle.std.specs.Prelude.{vec_capacity, vec_len};
ghost use Rattle.keep_index_store.specs.Below.{shift_inside, with_shifted_stored};
ghost use Rattle.keep_index_store.specs.Moved.{stored_at};
ghost use Rattle.keep_index_store.specs.Replacing.{CanShiftChildren, replaced_stored, with_shifted_children};

use super::Node;
use super::shifting::shift_all;
use crate::links::PackedLink;
use crate::shift::{NumberShifts, Shift};
use crate::splicing::splice_in;
use std::mem;

/// Makes room for more nodes and links, and then moves the numbers in the facts of all nodes. Says whether it was done:
/// not where memory is refused, or a number would not fit where it is stored. Then nothing is changed.
pub fn make_ready(
    list: &mut Vec<Node>,
    links: &mut Vec<PackedLink>,
    more: usize,
    by: NumberShifts,
) -> bool
    ensures shifted { result ≡ true → list.new.items ≡ map (with_shifted_stored by) list.old.items }
    ensures unchanged { result ≡ false → list.new.items ≡ list.old.items }
    ensures links { links.new.items ≡ links.old.items }
    ensures len { (vec_len list.new ≡ vec_len list.old) × (vec_len links.new ≡ vec_len links.old) }
    ensures room { result ≡ true → vec_len list.new + more ≤ vec_capacity list.new }
    ensures room_for_links { result ≡ true → vec_len links.new + more ≤ vec_capacity links.new }
{
    if list.reserve(more).is_err() || links.reserve(more).is_err() {
        return false;
    }
    shift_all(list.as_mut_slice(), by)
}

/// Moves the numbers of the children of each node, unless as many nodes come as go.
fn shift_children(list: &mut [Node], by: Shift)
    requires { All (λ n. CanShiftChildren by n.children) list.old }
    ensures { list.new ≡ map (with_shifted_children by) list.old }
{
    if by.old == by.new {
        return;
    }
    for node in list.iter_mut() {
        node.children.shift(&by);
    }
}

/// Moves the numbers of the children of the nodes before `id` and of those from `after` on.
fn shift_beside(list: &mut [Node], id: usize, after: usize, by: Shift)
    requires within { (id ≤ after) × (after ≤ length list.old) }
    requires before { All (λ n. CanShiftChildren by n.children) (take id list.old) }
    requires after { All (λ n. CanShiftChildren by n.children) (drop after list.old) }
    ensures before { take id list.new ≡ map (with_shifted_children by) (take id list.old) }
    ensures after { drop after list.new ≡ map (with_shifted_children by) (drop after list.old) }
    ensures own { id < after → stored_at list.new id ≡ stored_at list.old id }
{
    shift_children(&mut list[..id], by);
    shift_children(&mut list[after..], by);
}

/// The node `id` and the `gone` nodes after it give place to those of another tree, whose root has the facts of the
/// node; and the numbers of all children are moved. It takes no memory.
pub fn replace_nodes(
    list: &mut Vec<Node>,
    id: usize,
    gone: usize,
    mut inside: Vec<Node>,
    beside: Shift,
)
    requires within { (id + gone < vec_len list.old) × (0 < vec_len inside) }
    requires room { vec_len list.old + vec_len inside ≤ vec_capacity list.old }
    requires before { All (λ n. CanShiftChildren beside n.children) (take id list.old.items) }
    requires after { All (λ n. CanShiftChildren beside n.children) (drop (suc id + gone) list.old.items) }
    requires inside { All (λ n. CanShiftChildren (shift_inside id) n.children) inside.items }
    ensures { list.new.items ≡ replaced_stored beside id gone list.old.items inside.items }
{
    shift_beside(list.as_mut_slice(), id, id + gone + 1, beside);
    shift_children(
        inside.as_mut_slice(),
        Shift {
            from: 0,
            old: 0,
            new: id,
        },
    );
    let node = &mut list[id];
    let root = &mut inside[0];
    mem::swap(&mut node.facts, &mut root.facts);
    splice_in(list, id, gone + 1, inside);
}
