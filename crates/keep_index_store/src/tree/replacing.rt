//! The tree where a value gives place to another: the nodes in it go, and those in the new one come.
ghost use Rattle.std.specs.Prelude.{◌≡◌, ℕ, ◌<◌, All, IfSome, OnErr, OnOk, false, length, map, true};
ghost use Rattle.keep_index_store.specs.Below.{IsRunBelow, replaced_below, totals_in, with_shifted_facts};
ghost use Rattle.keep_index_store.specs.Removed.{HasStoredLink};
ghost use Rattle.keep_index_store.specs.Stored.{IsStored, trie_of};
ghost use Rattle.keep_index_store.specs.Tree.{node_infos, tree_of};
ghost use Rattle.keep_index_store.specs.Trie.{IsTrie, holds_at, paths_of};
ghost use Rattle.keep_index_store.specs.ValueShifts.{shifts_beside, shifts_inside};
ghost use Rattle.keep_path.specs.NodesBelow.{AreBelow, with_value};

use super::{NotInPlace, Tree};
use crate::nodes::Nodes;
use crate::shift::{NumberShifts, Shift, Totals};
use keep_types::{Kind, NodeInfo, Origin};

/// How numbers are moved where a value gives place to another: of the nodes in the new one, and of those beside it.
#[derive(Clone, Copy)]
pub struct ValueShifts {
    pub inside: NumberShifts,
    pub beside: NumberShifts,
}

/// How numbers are moved where what is below the node with these facts gives place to other nodes: a node of a value,
/// or of a key from which one keyval continues by dots. None where it is neither, or has no key, or where a number has
/// more bits than it can have.
pub fn value_shifts(own: NodeInfo, old: Totals, new: Totals) -> Option<ValueShifts>
    ensures inside { IfSome result (λ by. by.inside ≡ shifts_inside own) }
    ensures beside { IfSome result (λ by. by.beside ≡ shifts_beside own old new) }
{
    let (Some(key), Origin::Value(value) | Origin::Dotted(value)) = (own.key, own.origin) else {
        return None;
    };
    let next_key = key.checked_add(1)?;
    let next_value = value.checked_add(1)?;
    Some(ValueShifts {
        inside: NumberShifts {
            values: Shift {
                from: 0,
                old: 0,
                new: value,
            },
            keys: Shift {
                from: 0,
                old: 0,
                new: next_key,
            },
        },
        beside: NumberShifts {
            values: Shift {
                from: next_value,
                old: old.values,
                new: new.values,
            },
            keys: Shift {
                from: next_key,
                old: old.keys,
                new: new.keys,
            },
        },
    })
}

/// The `gone` nodes after the node `id` give place to those of another tree below its root, and numbers are moved. Says
/// whether it was done: not where memory is refused, or a number would not fit where it is stored. Then nothing is
/// changed.
pub fn take_in(
    nodes: &mut Nodes,
    id: usize,
    gone: usize,
    mut inside: Nodes,
    by: ValueShifts,
) -> bool
    requires run { IsRunBelow nodes.old.items id gone }
    requires stored { IsStored inside.items }
    ensures taken { result ≡ true
        → nodes.new.items ≡ replaced_below (map (with_shifted_facts by.beside) nodes.old.items) id gone
        (map (with_shifted_facts by.inside) inside.items) }
    ensures links { result ≡ true → All HasStoredLink nodes.new.items }
    ensures refused { result ≡ false → nodes.new ≡ nodes.old }
{
    if !inside.shift_numbers(by.inside) || !nodes.can_take_in(&inside) {
        return false;
    }
    nodes.replace_below(id, gone, inside, by.beside)
}

/// The nodes below a node give place to those of another tree below its root, and the node has this kind, as
/// `Tree::replace_below` says. Says whether it was done; if not, nothing is changed.
pub fn replace_value(
    nodes: &mut Nodes,
    id: usize,
    inside: Tree,
    kind: Kind,
    old: Totals,
    new: Totals,
) -> bool
    requires stored { IsStored nodes.old.items }
    requires within { id < length nodes.old.items }
    ensures replaced { result ≡ true → (gone : ℕ) → AreBelow (paths_of (trie_of nodes.old.items)) id gone
        → node_infos (tree_of nodes.new.items) ≡ with_value (node_infos (tree_of nodes.old.items)) id gone
        (totals_in old) (totals_in new) (node_infos inside) kind }
    ensures stored { IsStored nodes.new.items }
    ensures root { holds_at (trie_of nodes.new.items) 0 ≡ holds_at (trie_of nodes.old.items) 0 }
    ensures refused { result ≡ false → nodes.new ≡ nodes.old }
{
    let Some(gone) = nodes.run_below(id) else {
        return false;
    };
    let Some(by) = value_shifts(nodes.facts(id).info(), old, new) else {
        return false;
    };
    let Tree { nodes: inside } = inside;
    if !take_in(nodes, id, gone, inside, by) {
        return false;
    }
    nodes.set_kind(id, kind);
    true
}

impl Tree {
    /// The nodes below a node give place to those of another tree below its root, and the node has this kind. It is
    /// that of a value with a key, and the other tree has the nodes of a value alone, whose values have numbers from 1
    /// on, and its key parts from 0 on; or it is that of a key from which one keyval continues by dots, and the other
    /// tree has the nodes of its further keys alone, whose value has the number 0. The document had `old` values and
    /// key parts, and now has `new`: numbers of what comes after the value are moved by that.
    ///
    /// # Errors
    ///
    /// `NotInPlace` where the node is no child by key, or is neither that of a value nor that of such a key; where the
    /// nodes below it do not follow it; where a number would not fit where it is stored; and where memory was refused.
    /// Then nothing is changed.
    pub fn replace_below(
        &mut self,
        id: usize,
        inside: Tree,
        kind: Kind,
        old: Totals,
        new: Totals,
    ) -> Result<(), NotInPlace>
        requires { id < length self.old.trie }
        ensures replaced { OnOk result ((gone : ℕ) → AreBelow (paths_of self.old.trie) id gone → node_infos self.new
            ≡ with_value (node_infos self.old) id gone (totals_in old) (totals_in new) (node_infos inside) kind) }
        ensures trie { OnOk result (IsTrie self.new.trie) }
        ensures root { holds_at self.new.trie 0 ≡ holds_at self.old.trie 0 }
        ensures refused { OnErr result (self.new ≡ self.old) }
    {
        if !replace_value(&mut self.nodes, id, inside, kind, old, new) {
            return Err(NotInPlace);
        }
        Ok(())
    }
}
