//! The keys of a new line: the nodes of the further ones alone, and those of the new ones among the others.
ghost use Rattle.std.specs.Prelude.{◌≡◌, ℕ, ◌<◌, ◌≤◌, ◌∷◌, ◌++◌, [], IfOk, IfSome, List, OnErr, OnOk, Some, drop};
ghost use Rattle.std.specs.Prelude.{length, map, slice_get};
ghost use Rattle.keep_index_store.specs.Below.{totals_in};
ghost use Rattle.keep_index_store.specs.Dots.{IsTaker};
ghost use Rattle.keep_index_store.specs.Renumbering.{numbers_of};
ghost use Rattle.keep_index_store.specs.Tree.{node_infos};
ghost use Rattle.keep_index_store.specs.Trie.{IsTrie, holds_at, path_at};
ghost use Rattle.keep_meaning.specs.KeysMore.{keys_with_value};
ghost use Rattle.keep_meaning.specs.Meaning.{body_fact};
ghost use Rattle.keep_meaning.specs.Nodes.{fact_kind, node_number};
ghost use Rattle.keep_meaning.specs.OtherValues.{nodes_in_value};
ghost use Rattle.keep_path.specs.Dots as dots;
ghost use Rattle.keep_path.specs.Dots.{with_dots, with_keys, with_parts_from};
ghost use Rattle.keep_path.specs.KeysAlone.{keys_alone, paths_below};
ghost use Rattle.keep_path.specs.Path.{Part, key};
ghost use Rattle.keep_rules.specs.PassedTables.{ArePassed};
ghost use Rattle.keep_rules.specs.ValueTexts.{IsTextOfValue};
ghost use Rattle.keep_syntax.specs.Tree.{Value};

use super::lines::with_line;
use super::values::nodes_of_value;
use crate::value::ValueText;
use keep_index_store::{Holds, LineNumbers, NewValue, NodeFacts, NotInPlace, Totals, Tree};
use keep_path::{Path, Step};
use keep_types::{Kind, Origin, Role};
use std::alloc::Global;

/// The keys of a new line that name new nodes: the steps of a path from a number on. So many steps right before these
/// are keys of the line, too: they are passed, since they name tables of dotted keys that are there.
#[derive(Clone, Copy)]
pub struct NewKeys<'a> {
    pub path: &'a Path,
    pub from: usize,
    pub passed: usize,
}

/// Where the nodes of a line's new keys come: the first of them below a table, and with the number `at`. Key parts of
/// the line have the numbers of `line` and those after it.
#[derive(Clone, Copy)]
pub(crate) struct KeyPlace {
    pub parent: usize,
    pub at: usize,
    pub line: LineNumbers,
}

/// The numbers after so many key parts of the line.
pub(crate) fn after_parts(count: usize, line: LineNumbers) -> Option<LineNumbers>
    ensures { IfSome result (λ after. numbers_of after ≡ dots.after_parts count (numbers_of line)) }
{
    let key = line.key.checked_add(count)?;
    Some(LineNumbers { key, ..line })
}

/// How many values and key parts a document has after so many key parts of the line.
pub(crate) fn totals_after_parts(count: usize, totals: Totals) -> Option<Totals>
    ensures { IfSome result (λ after. totals_in after ≡ dots.totals_after_parts count (totals_in totals)) }
{
    let keys = totals.keys.checked_add(count)?;
    Some(Totals { keys, ..totals })
}

/// The key that a step of a path is. `NotInPlace` where it is an index, or there is none.
pub(crate) fn key_at(path: &Path, number: usize) -> Result<&str, NotInPlace>
    ensures { IfOk result (λ text. slice_get path.now number ≡ Some (key text.now)) }
{
    match path.step(number) {
        Some(Step::Key(text)) => Ok(text.as_str()),
        _ => Err(NotInPlace),
    }
}

/// The nodes of a path's keys from a number on, alone: each is below the one before it, the first of them below a root,
/// and the last one is that of a value of this kind, with nothing in it. `NotInPlace` where one of these steps is an
/// index, and where memory was refused.
fn nodes_of_keys(alloc: Global, path: &Path, from: usize, kind: Kind) -> Result<Tree, NotInPlace>
    requires { from < length path.now }
    ensures { IfOk result (λ tree. (keys : List (List ℕ)) → drop from path.now ≡ map key keys
        → node_infos tree ≡ keys_alone keys kind) }
{
    let Ok(mut nodes) = Tree::new(alloc, "", Holds::Keys) else {
        return Err(NotInPlace);
    };
    let last = path.len() - 1;
    for number in from..last {
        let text = key_at(path, number)?;
        let above = number - from;
        let facts = NodeFacts::named(Kind::Table, above, Origin::Dotted(0));
        let Ok(_) = nodes.add_key(above, text, Role::Dotted, facts, Holds::Keys) else {
            return Err(NotInPlace);
        };
    }
    let text = key_at(path, last)?;
    let above = last - from;
    let line = LineNumbers {
        statement: 0,
        value: 0,
        key: above,
    };
    nodes.append_key(above, text, line, kind)?;
    Ok(nodes)
}

/// The same with those of a value below the last of them. `NotInPlace` where `nodes_of_keys` refuses, and where memory
/// was refused.
pub(crate) fn nodes_with_value(
    alloc: Global,
    path: &Path,
    from: usize,
    value: &ValueText,
) -> Result<Tree, NotInPlace>
    requires { from < length path.now }
    ensures { IfOk result (λ tree. (keys : List (List ℕ)) → drop from path.now ≡ map key keys
        → (v : Value) → IsTextOfValue value.now v
        → node_infos tree ≡ keys_with_value keys (fact_kind (body_fact v.body)) (nodes_in_value v)) }
{
    let kind = value.kind();
    let mut nodes = nodes_of_keys(alloc, path, from, kind)?;
    let Some(last) = nodes.len().checked_sub(1) else {
        return Err(NotInPlace);
    };
    let inside = nodes_of_value(alloc, value)?;
    let alone = Totals { values: 0, keys: 0 };
    nodes.replace_below(last, inside, kind, alone, alone)?;
    Ok(nodes)
}

/// Adds the nodes of the new keys, as if the line had no others. Its numbers are those of its first new key part, and
/// `old` are the totals that the document has before that part.
fn add_new_keys(
    nodes: &mut Tree,
    place: KeyPlace,
    keys: NewKeys<'_>,
    kind: Kind,
    old: Totals,
    new: Totals,
) -> Result<(), NotInPlace>
    requires parent { place.parent < length nodes.old.trie }
    requires place { place.at ≤ length nodes.old.infos }
    requires trie { IsTrie nodes.old.trie }
    ensures added { OnOk result ((first : List ℕ) (further : List (List ℕ))
        → drop keys.entry.from keys.entry.path.now ≡ map key (first ∷ further)
        → node_infos nodes.new ≡ with_keys (node_infos nodes.old) place.at (numbers_of place.line)
        (path_at nodes.old.trie place.parent ++ key first ∷ []) further kind (totals_in old) (totals_in new)) }
    ensures takers { OnOk result ((many id : ℕ) → id < place.at → IsTaker many nodes.old.infos id
        → IsTaker many nodes.new.infos id) }
    ensures trie { IsTrie nodes.new.trie }
    ensures root { holds_at nodes.new.trie 0 ≡ holds_at nodes.old.trie 0 }
    ensures refused { OnErr result (node_infos nodes.new ≡ node_infos nodes.old) }
{
    let NewKeys { path, from, .. } = keys;
    let KeyPlace { parent, at, line } = place;
    let first = key_at(path, from)?;
    if path.len().saturating_sub(1) <= from {
        return nodes.insert_key(parent, first, line, kind, at);
    }
    let Some(bare) = with_line(old) else {
        return Err(NotInPlace);
    };
    let inside = nodes_of_keys(nodes.allocator(), path, from + 1, kind)?;
    let given = NewValue {
        inside,
        kind: Kind::Table,
        old: bare,
        new,
    };
    nodes.insert_table(parent, first, line, at, given)
}

/// Adds the nodes of the new keys, and a mention of each table that is passed. Where it is refused, all is as before:
/// what can be refused comes before the mentions, and key parts that were moved are moved back.
pub(crate) fn insert_past(
    nodes: &mut Tree,
    place: KeyPlace,
    keys: NewKeys<'_>,
    kind: Kind,
    old: Totals,
    new: Totals,
) -> Result<(), NotInPlace>
    requires parent { place.parent < length nodes.old.trie }
    requires place { place.at ≤ length nodes.old.infos }
    requires trie { IsTrie nodes.old.trie }
    ensures inserted { OnOk result ((first : List ℕ) (further : List (List ℕ))
        → drop keys.entry.from keys.entry.path.now ≡ map key (first ∷ further)
        → (base : List Part) (passed : List (List ℕ)) (ids : List ℕ)
        → path_at nodes.old.trie place.parent ≡ base ++ map key passed → length passed ≡ keys.entry.passed
        → map (node_number (node_infos nodes.old).paths) (paths_below base passed) ≡ map Some ids
        → node_infos nodes.new ≡ with_dots place.line.value ids
        (with_keys (with_parts_from place.line.key keys.entry.passed (node_infos nodes.old)) place.at
        (dots.after_parts keys.entry.passed (numbers_of place.line))
        (path_at nodes.old.trie place.parent ++ key first ∷ []) further kind
        (dots.totals_after_parts keys.entry.passed (totals_in old)) (totals_in new))) }
    ensures passed { OnOk result ((base : List Part) (passed : List (List ℕ))
        → path_at nodes.old.trie place.parent ≡ base ++ map key passed → length passed ≡ keys.entry.passed
        → (ids : List ℕ) × ArePassed (node_infos nodes.old) place.at (paths_below base passed) ids) }
    ensures trie { IsTrie nodes.new.trie }
    ensures root { holds_at nodes.new.trie 0 ≡ holds_at nodes.old.trie 0 }
    ensures refused { OnErr result (node_infos nodes.new ≡ node_infos nodes.old) }
{
    let KeyPlace { parent, at, line } = place;
    if at <= parent || line.value > u32::MAX as usize {
        return Err(NotInPlace);
    }
    let Some(own) = after_parts(keys.passed, line) else {
        return Err(NotInPlace);
    };
    let Some(before) = totals_after_parts(keys.passed, old) else {
        return Err(NotInPlace);
    };
    let tables = nodes.passed_tables(parent, keys.passed)?;
    nodes.add_parts(line.key, keys.passed)?;
    let first = KeyPlace { line: own, ..place };
    match add_new_keys(nodes, first, keys, kind, before, new) {
        Ok(()) => {
            nodes.mention_tables(tables.as_slice(), line.value);
            Ok(())
        }
        Err(refused) => {
            nodes.take_parts(line.key, keys.passed);
            Err(refused)
        }
    }
}
