//! The keys of a line that goes: the nodes of those that no other line names, and the tables that it passed.
ghost use Rattle.std.specs.Prelude.{◌≡◌, ℕ, ◌<◌, ◌∷◌, ◌++◌, [], IfSome, List, OnErr, OnOk, Some, length, map};
ghost use Rattle.keep_types.specs.declared.node.Kind.{Kind};
ghost use Rattle.keep_index_store.specs.Below.{totals_in};
ghost use Rattle.keep_index_store.specs.Renumbering.{numbers_of};
ghost use Rattle.keep_index_store.specs.Tree.{node_infos};
ghost use Rattle.keep_index_store.specs.Trie.{IsTrie, holds_at, path_at, paths_of};
ghost use Rattle.keep_meaning.specs.DotsLess.{without_dots};
ghost use Rattle.keep_meaning.specs.Nodes.{node_number};
ghost use Rattle.keep_path.specs.Dots as dots;
ghost use Rattle.keep_path.specs.Dots.{without_keys};
ghost use Rattle.keep_path.specs.KeysAlone.{paths_below};
ghost use Rattle.keep_path.specs.NodesBelow.{AreBelow, one_more};
ghost use Rattle.keep_path.specs.Path.{Part, key};

use super::lines::with_line;
use super::new_keys::{after_parts, totals_after_parts};
use keep_index_store::{LineNumbers, NotInPlace, Totals, Tree};

/// How many values and key parts a document has with the line, if it has that many keys before the one whose node goes,
/// and after that none and nothing in its value.
fn bare_totals(passed: usize, totals: Totals) -> Option<Totals>
    ensures { IfSome result (λ bare. totals_in bare ≡ one_more (dots.totals_after_parts passed (totals_in totals))) }
{
    with_line(totals_after_parts(passed, totals)?)
}

/// Takes away the node of the first key that only the line names, with all nodes below it, and a mention of each table
/// that the line passed. Where it is refused, all is as before: what can be refused comes before the node goes.
pub(crate) fn remove_past(
    nodes: &mut Tree,
    id: usize,
    passed: usize,
    line: LineNumbers,
    old: Totals,
    new: Totals,
) -> Result<(), NotInPlace>
    requires within { id < length nodes.old.trie }
    requires trie { IsTrie nodes.old.trie }
    ensures removed { OnOk result ((base : List Part) (keys : List (List ℕ)) (first : List ℕ) (ids : List ℕ)
        → path_at nodes.old.trie id ≡ (base ++ map key keys) ++ key first ∷ [] → length keys ≡ passed
        → map (node_number (paths_of nodes.old.trie)) (paths_below base keys) ≡ map Some ids
        → (gone : ℕ) (k : Kind) → AreBelow (paths_of nodes.old.trie) id gone
        → node_infos nodes.new ≡ without_dots ids (without_keys (node_infos nodes.old) id gone passed
        (numbers_of line) (totals_in old) (totals_in new) k)) }
    ensures trie { IsTrie nodes.new.trie }
    ensures root { holds_at nodes.new.trie 0 ≡ holds_at nodes.old.trie 0 }
    ensures refused { OnErr result (nodes.new ≡ nodes.old) }
{
    let Some(own) = after_parts(passed, line) else {
        return Err(NotInPlace);
    };
    let Some(bare) = bare_totals(passed, new) else {
        return Err(NotInPlace);
    };
    if id == 0 || bare.values > old.values {
        return Err(NotInPlace);
    }
    let last = nodes.parent(id);
    if !nodes.are_shared_tables(last, passed) || !nodes.has_small_values() {
        return Err(NotInPlace);
    }
    nodes.remove_value(id, own, old, bare)?;
    nodes.take_parts(line.key, passed);
    nodes.take_mentions(last, passed);
    Ok(())
}
