//! The index where a line comes or goes: it changes in place.
ghost use Rattle.std.specs.Prelude.{◌≡◌, ◌<◌, ◌≤◌, ◌∷◌, ◌++◌, [], ℕ, IfSome, List, OnErr, OnOk, Some, drop, length};
ghost use Rattle.std.specs.Prelude.{map};
ghost use Rattle.keep_types.specs.declared.node.Kind.{Kind};
ghost use Rattle.keep_types.specs.declared.node.Kind.TheVariants as kinds;
ghost use Rattle.keep_syntax.specs.Tree.{Value};
ghost use Rattle.keep_index_store.specs.Below.{totals_in};
ghost use Rattle.keep_index_store.specs.Renumbering.{numbers_of};
ghost use Rattle.keep_meaning.specs.DotsLess.{without_dots};
ghost use Rattle.keep_meaning.specs.KeysMore.{keys_with_value};
ghost use Rattle.keep_meaning.specs.LinesMore as spec;
ghost use Rattle.keep_meaning.specs.Meaning.{body_fact};
ghost use Rattle.keep_meaning.specs.Nodes.{fact_kind, node_number};
ghost use Rattle.keep_meaning.specs.OtherValues.{nodes_in_value};
ghost use Rattle.keep_path.specs.Dots.{after_parts, totals_after_parts, with_dots, with_keys, with_parts_from};
ghost use Rattle.keep_path.specs.Dots.{without_keys};
ghost use Rattle.keep_path.specs.KeysAlone.{paths_below};
ghost use Rattle.keep_path.specs.NodeInfos.{line_info, root_infos, with_last, with_node, with_table, without_node};
ghost use Rattle.keep_path.specs.NodesBelow.{AreBelow, with_value};
ghost use Rattle.keep_path.specs.Path.{Part, key};
ghost use Rattle.keep_rules.specs.LinePlaces.{IsPlaceOf, one_more};
ghost use Rattle.keep_rules.specs.Lookup.{path_numbered};
ghost use Rattle.keep_rules.specs.PassedTables.{ArePassed};
ghost use Rattle.keep_rules.specs.ValueTexts.{IsTextOfValue};

use super::new_keys::{KeyPlace, NewKeys, insert_past, key_at, nodes_with_value};
use super::old_keys::remove_past;
use super::values::nodes_of_value;
use super::{Index, NodeId};
use crate::value::ValueText;
use keep_index_store::{LineNumbers, NewValue, NotInPlace, Totals, Tree};
use keep_path::Path;
use keep_types::{Kind, NodeInfo, Origin};

/// Whether the node is first met at the line or after it, by the facts about it.
fn is_met_from(info: &NodeInfo, line: LineNumbers) -> bool
    ensures { result ≡ spec.is_met_from (numbers_of line) info.now }
{
    match info.key {
        Some(key) => line.key <= key,
        None => match info.origin {
            Origin::Value(value) => line.value <= value,
            Origin::Element(statement) => line.statement <= statement,
            _ => false,
        },
    }
}

/// The number of the first node that is met at the line or after it, if all from there on are and none before: a search
/// by halves.
fn first_met_from(nodes: &Tree, line: LineNumbers) -> usize
    ensures place { (at : ℕ) → IsPlaceOf (numbers_of line) nodes.now.infos at → result ≡ at }
    ensures within { result ≤ length nodes.now.infos }
{
    let mut low = 0;
    let mut high = nodes.len();
    while low < high {
        let middle = low + (high - low) / 2;
        if is_met_from(&nodes.info(middle), line) {
            high = middle;
        } else {
            low = middle + 1;
        }
    }
    low
}

/// How many values and key parts a document has with one line more, of one key part and with nothing in its value.
pub(crate) fn with_line(totals: Totals) -> Option<Totals>
    ensures { IfSome result (λ more. totals_in more ≡ one_more (totals_in totals)) }
{
    Some(Totals {
        values: totals.values.checked_add(1)?,
        keys: totals.keys.checked_add(1)?,
    })
}

impl Index {
    /// One line more defines a key of the table `parent`, decoded, with a value of this kind, in which nothing is
    /// nested. Its node comes before the first that is met after the line, so each from there on has the next number.
    /// `line` has the numbers of the line in the syntax, and the facts about all others have their numbers with it. It
    /// takes the memory of one node and its key.
    ///
    /// # Errors
    ///
    /// `NotInPlace` where `parent` takes no keys or has this one, where a number would not fit where it is stored, and
    /// where memory was refused; then nothing has changed, and the index has to be built anew.
    pub fn insert_line(
        &mut self,
        parent: NodeId,
        text: &str,
        line: LineNumbers,
        kind: Kind,
    ) -> Result<(), NotInPlace>
        requires { parent.0 < length self.old.paths }
        ensures inserted { OnOk result ((at : ℕ) → IsPlaceOf (numbers_of line) self.old.infos at
            → self.new ≡ with_node self.old at (numbers_of line)
            (path_numbered self.old parent.0 ++ key text.now ∷ []) kind) }
        ensures refused { OnErr result (self.new ≡ self.old) }
    {
        let at = first_met_from(&self.nodes, line);
        self.nodes.insert_key(parent.0, text, line, kind, at)
    }

    /// One line more is the last of the document, and defines a key of the table `parent`, decoded, with a value of
    /// this kind, in which nothing is nested. Its node is the last, and the facts about all others stay. `line` has the
    /// numbers of the line in the syntax. It takes the memory of one node and its key, and goes over no other node.
    ///
    /// # Errors
    ///
    /// `NotInPlace` where `parent` takes no keys or has this one, and where memory was refused; then nothing has
    /// changed, and the index has to be built anew.
    pub fn append_line(
        &mut self,
        parent: NodeId,
        text: &str,
        line: LineNumbers,
        kind: Kind,
    ) -> Result<(), NotInPlace>
        requires { parent.0 < length self.old.paths }
        ensures appended { OnOk result (self.new ≡ with_last self.old
            (path_numbered self.old parent.0 ++ key text.now ∷ []) (line_info (numbers_of line) kind)) }
        ensures refused { OnErr result (self.new ≡ self.old) }
    {
        self.nodes.append_key(parent.0, text, line, kind)
    }

    /// One line more defines a key of the table `parent`, decoded, with this value: its nodes come as `insert_line` and
    /// `set_value` tell it. The document had `old` values and key parts in all, and now has `new`. It takes the memory
    /// of the new nodes and of a key, and reads the value's text once more.
    ///
    /// # Errors
    ///
    /// Those of `insert_line` and `set_value`; then nothing has changed, and the index has to be built anew.
    pub fn insert_value(
        &mut self,
        parent: NodeId,
        text: &str,
        line: LineNumbers,
        value: &ValueText,
        old: Totals,
        new: Totals,
    ) -> Result<(), NotInPlace>
        requires { parent.0 < length self.old.paths }
        ensures inserted { OnOk result ((at : ℕ) → IsPlaceOf (numbers_of line) self.old.infos at
            → (v : Value) → IsTextOfValue value.now v → self.new ≡ with_value (with_node self.old at (numbers_of line)
            (path_numbered self.old parent.0 ++ key text.now ∷ []) (fact_kind (body_fact v.body))) at 0
            (one_more (totals_in old)) (totals_in new) (nodes_in_value v) (fact_kind (body_fact v.body))) }
        ensures refused { OnErr result (self.new ≡ self.old) }
    {
        let Some(bare) = with_line(old) else {
            return Err(NotInPlace);
        };
        let inside = nodes_of_value(self.nodes.allocator(), value)?;
        let at = first_met_from(&self.nodes, line);
        let kind = value.kind();
        let given = NewValue {
            inside,
            kind,
            old: bare,
            new,
        };
        self.nodes.insert_value(parent.0, text, line, at, given)
    }

    /// One line more defines keys below the table `parent`: its key goes on by dots, and its value is of this kind,
    /// with nothing nested in it. The first keys of the line, `keys.passed` of them, name tables of dotted keys that
    /// are there, of which `parent` is the last: each has one mention more, and has this line as the last that goes on
    /// from it, unless a later one does. The node of the first new key comes before the first that is met after the
    /// line, those of the others each after the one before it, and all but the last are tables. `line` has the numbers
    /// of the line's statement, of its value and of its first key part in the syntax, and the facts about all others
    /// have their numbers with the line. The document had `old` values and key parts in all, and now has `new`. It
    /// takes the memory of the new nodes and their keys, and of the passed tables' numbers.
    ///
    /// # Errors
    ///
    /// `NotInPlace` where `parent` takes no keys or has the first new one, where there is none or one of the steps is
    /// an index, where a node that is passed is no table of dotted keys, or has more mentions than 16 bits count, or
    /// there are fewer below the root, where a number would not fit where it is stored, and where memory was refused;
    /// then nothing has changed, and the index has to be built anew.
    pub fn insert_keys(
        &mut self,
        parent: NodeId,
        keys: NewKeys<'_>,
        line: LineNumbers,
        kind: Kind,
        old: Totals,
        new: Totals,
    ) -> Result<(), NotInPlace>
        requires { parent.0 < length self.old.paths }
        ensures inserted { OnOk result ((at : ℕ) → IsPlaceOf (numbers_of line) self.old.infos at
            → (first : List ℕ) (further : List (List ℕ))
            → drop keys.entry.from keys.entry.path.now ≡ map key (first ∷ further)
            → (base : List Part) (passed : List (List ℕ)) (ids : List ℕ)
            → path_numbered self.old parent.0 ≡ base ++ map key passed → length passed ≡ keys.entry.passed
            → map (node_number self.old.paths) (paths_below base passed) ≡ map Some ids
            → self.new ≡ with_dots line.value ids
            (with_keys (with_parts_from line.key keys.entry.passed self.old) at
            (after_parts keys.entry.passed (numbers_of line)) (path_numbered self.old parent.0 ++ key first ∷ [])
            further kind (totals_after_parts keys.entry.passed (totals_in old)) (totals_in new))) }
        ensures passed { OnOk result ((at : ℕ) → IsPlaceOf (numbers_of line) self.old.infos at
            → (base : List Part) (passed : List (List ℕ))
            → path_numbered self.old parent.0 ≡ base ++ map key passed → length passed ≡ keys.entry.passed
            → (ids : List ℕ) × ArePassed self.old at (paths_below base passed) ids) }
        ensures refused { OnErr result (self.new ≡ self.old) }
    {
        let at = first_met_from(&self.nodes, line);
        let place = KeyPlace {
            parent: parent.0,
            at,
            line,
        };
        insert_past(&mut self.nodes, place, keys, kind, old, new)
    }

    /// One line more defines keys below the table `parent`, with this value: the steps of the path from that number on,
    /// of which there are two at least, and all of which are new. Their nodes come as `insert_keys` tells it, and below
    /// the last of them those in the value. The document had `old` values and key parts in all, and now has `new`. It
    /// takes the memory of the new nodes and their keys, and reads the value's text once more.
    ///
    /// # Errors
    ///
    /// `NotInPlace` where `insert_keys` refuses, where one key alone is new, and where memory was refused; then nothing
    /// has changed, and the index has to be built anew.
    pub fn insert_keys_value(
        &mut self,
        parent: NodeId,
        path: &Path,
        from: usize,
        line: LineNumbers,
        value: &ValueText,
        old: Totals,
        new: Totals,
    ) -> Result<(), NotInPlace>
        requires { parent.0 < length self.old.paths }
        ensures inserted { OnOk result ((at : ℕ) → IsPlaceOf (numbers_of line) self.old.infos at
            → (first : List ℕ) (further : List (List ℕ)) → drop from path.now ≡ map key (first ∷ further)
            → (v : Value) → IsTextOfValue value.now v
            → self.new ≡ with_value (with_table self.old at (numbers_of line)
            (path_numbered self.old parent.0 ++ key first ∷ [])) at 0 (one_more (totals_in old)) (totals_in new)
            (keys_with_value further (fact_kind (body_fact v.body)) (nodes_in_value v)) kinds.Table) }
        ensures refused { OnErr result (self.new ≡ self.old) }
    {
        let text = key_at(path, from)?;
        if path.len().saturating_sub(1) <= from {
            return Err(NotInPlace);
        }
        let Some(bare) = with_line(old) else {
            return Err(NotInPlace);
        };
        let inside = nodes_with_value(self.nodes.allocator(), path, from + 1, value)?;
        let at = first_met_from(&self.nodes, line);
        let given = NewValue {
            inside,
            kind: Kind::Table,
            old: bare,
            new,
        };
        self.nodes.insert_table(parent.0, text, line, at, given)
    }

    /// The line of a node goes: a keyval of one key part, with a value in which nothing is nested. Each node after it
    /// has the number before its own. `line` has the numbers of the line in the syntax, and the facts about all others
    /// have their numbers without it. It takes no memory.
    ///
    /// # Errors
    ///
    /// `NotInPlace` where the node is the root, or is no child by key, or has children, and where a number is not
    /// stored in 32 bits; then nothing has changed, and the index has to be built anew.
    pub fn remove_line(&mut self, node: NodeId, line: LineNumbers) -> Result<(), NotInPlace>
        requires { node.0 < length self.old.paths }
        ensures removed { OnOk result (self.new ≡ without_node self.old node.0 (numbers_of line)) }
        ensures refused { OnErr result (self.new ≡ self.old) }
    {
        self.nodes.remove_key(node.0, line)
    }

    /// The line of a node goes: a keyval of one key part, and all nodes in its value with it; or a keyval that goes on
    /// from the node by dots, the only one that does, and the nodes of its further keys. The document had `old` values
    /// and key parts in all, and now has `new`.
    ///
    /// # Errors
    ///
    /// Those of `remove_line`, but that the node may have children, and `NotInPlace` where the nodes below it do not
    /// follow it, or memory was refused; then nothing has changed, and the index has to be built anew.
    pub fn remove_value(
        &mut self,
        node: NodeId,
        line: LineNumbers,
        old: Totals,
        new: Totals,
    ) -> Result<(), NotInPlace>
        requires { node.0 < length self.old.paths }
        ensures removed { OnOk result ((gone : ℕ) (k : Kind) → AreBelow self.old.paths node.0 gone
            → self.new ≡ without_node (with_value self.old node.0 gone (totals_in old) (one_more (totals_in new))
            root_infos k) node.0 (numbers_of line)) }
        ensures refused { OnErr result (self.new ≡ self.old) }
    {
        let Some(bare) = with_line(new) else {
            return Err(NotInPlace);
        };
        self.nodes.remove_value(node.0, line, old, bare)
    }

    /// A line goes whose first keys, that many, name tables of dotted keys from which other lines go on, too; the next
    /// key is the first that names this node, and no other line names it. The node goes with all nodes below it, and
    /// each of the tables has one mention less. `line` has the numbers of the line in the syntax, and as that of a key
    /// part the one of its first key. The document had `old` values and key parts in all, and now has `new`.
    ///
    /// # Errors
    ///
    /// Those of `remove_value`, and `NotInPlace` where one of the nodes above is no table of dotted keys that another
    /// line goes on from, where the document would have more values than before, and where the number of a value has
    /// more than 32 bits; then nothing has changed, and the index has to be built anew.
    pub fn remove_keys(
        &mut self,
        node: NodeId,
        passed: usize,
        line: LineNumbers,
        old: Totals,
        new: Totals,
    ) -> Result<(), NotInPlace>
        requires { node.0 < length self.old.paths }
        ensures removed { OnOk result ((base : List Part) (keys : List (List ℕ)) (first : List ℕ) (ids : List ℕ)
            → path_numbered self.old node.0 ≡ (base ++ map key keys) ++ key first ∷ [] → length keys ≡ passed
            → map (node_number self.old.paths) (paths_below base keys) ≡ map Some ids
            → (gone : ℕ) (k : Kind) → AreBelow self.old.paths node.0 gone
            → self.new ≡ without_dots ids (without_keys self.old node.0 gone passed (numbers_of line) (totals_in old)
            (totals_in new) k)) }
        ensures refused { OnErr result (self.new ≡ self.old) }
    {
        remove_past(&mut self.nodes, node.0, passed, line, old, new)
    }
}
