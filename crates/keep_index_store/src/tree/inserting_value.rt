//! The tree with one key more, that of a line, and with the nodes of its value or of its further keys below it.
ghost use Rattle.std.specs.Prelude.{◌≡◌, ◌<◌, ◌∷◌, ◌++◌, [], OnErr, OnOk, false, length, true};
ghost use Rattle.keep_path.specs.NodeInfos.{with_node, with_table};
ghost use Rattle.keep_path.specs.NodesBelow.{with_value};
ghost use Rattle.keep_path.specs.Path.{key};
ghost use Rattle.keep_index_store.specs.Below.{totals_in};
ghost use Rattle.keep_index_store.specs.Facts.{info_of};
ghost use Rattle.keep_index_store.specs.Inserted.{HasPlace, with_line_node, with_one};
ghost use Rattle.keep_index_store.specs.Renumbering.{numbers_of};
ghost use Rattle.keep_index_store.specs.Tree.{node_infos};
ghost use Rattle.keep_index_store.specs.Trie.{IsTrie, holds_at, path_at};

use super::inserting::{dotted_facts, holds_of, insert_leaf, line_facts};
use super::replacing::replace_value;
use super::{NotInPlace, Tree};
use crate::facts::NodeFacts;
use crate::renumbering::LineNumbers;
use crate::shift::Totals;
use keep_types::Kind;

/// A value that comes in the place of another: its nodes, alone, its kind, and how many values and key parts the
/// document had and has. Also the further keys of a line, whose nodes come below that of the first, which is a table.
#[derive(Drop)]
pub struct NewValue {
    pub inside: Tree,
    pub kind: Kind,
    pub old: Totals,
    pub new: Totals,
}

impl Tree {
    /// Adds the node of a line, as `insert_key` does, and below it the nodes of its value, as `replace_below` does:
    /// `value.old` is how many values and key parts the document has with the line and nothing in its value.
    ///
    /// # Errors
    ///
    /// `NotInPlace` where `insert_key` or `replace_below` refuses; then the nodes are as before.
    pub fn insert_value(
        &mut self,
        parent: usize,
        text: &str,
        line: LineNumbers,
        at: usize,
        value: NewValue,
    ) -> Result<(), NotInPlace>
        requires { parent < length self.old.trie }
        ensures inserted { OnOk result (node_infos self.new ≡ with_value
            (with_node (node_infos self.old) at (numbers_of line) (path_at self.old.trie parent ++ key text.now ∷ [])
            value.kind) at 0 (totals_in value.old) (totals_in value.new) (node_infos value.inside) value.kind) }
        ensures trie { IsTrie self.new.trie }
        ensures root { holds_at self.new.trie 0 ≡ holds_at self.old.trie 0 }
        ensures refused { OnErr result (node_infos self.new ≡ node_infos self.old) }
    {
        self.insert_line_node(parent, text, line, at, line_facts(line, value.kind), value)
    }

    /// Adds the node of the first of a line's keys, from which the keyval continues by dots, and below it the nodes of
    /// the others, as `replace_below` does: `value.old` is how many values and key parts the document has with the line
    /// and the first of its keys alone. The numbers of the line are those of its first key.
    ///
    /// # Errors
    ///
    /// `NotInPlace` where `insert_key` or `replace_below` refuses; then the nodes are as before.
    pub fn insert_table(
        &mut self,
        parent: usize,
        text: &str,
        line: LineNumbers,
        at: usize,
        value: NewValue,
    ) -> Result<(), NotInPlace>
        requires { parent < length self.old.trie }
        ensures inserted { OnOk result (node_infos self.new ≡ with_value
            (with_table (node_infos self.old) at (numbers_of line) (path_at self.old.trie parent ++ key text.now ∷ []))
            at 0 (totals_in value.old) (totals_in value.new) (node_infos value.inside) value.kind) }
        ensures trie { IsTrie self.new.trie }
        ensures root { holds_at self.new.trie 0 ≡ holds_at self.old.trie 0 }
        ensures refused { OnErr result (node_infos self.new ≡ node_infos self.old) }
    {
        self.insert_line_node(parent, text, line, at, dotted_facts(line), value)
    }

    /// Adds a node of a line with these facts, and below it the nodes of its value or of its further keys. Each other
    /// node has the numbers in its facts that it has once the line is there. Where it is refused, all is as before.
    fn insert_line_node(
        &mut self,
        parent: usize,
        text: &str,
        line: LineNumbers,
        at: usize,
        facts: NodeFacts,
        value: NewValue,
    ) -> Result<(), NotInPlace>
        requires { parent < length self.old.trie }
        ensures inserted { OnOk result (node_infos self.new ≡ with_value
            (with_line_node (node_infos self.old) at (numbers_of line)
            (path_at self.old.trie parent ++ key text.now ∷ []) (info_of facts)) at 0 (totals_in value.old)
            (totals_in value.new) (node_infos value.inside) value.kind) }
        ensures trie { IsTrie self.new.trie }
        ensures root { holds_at self.new.trie 0 ≡ holds_at self.old.trie 0 }
        ensures refused { OnErr result (node_infos self.new ≡ node_infos self.old) }
    {
        // The invariant of a tree is known to the proof from where a field of it is looked at.
        let _nodes = &self.nodes;
        if !self.has_place(parent, text, at) || self.renumber_later(line).is_none() {
            return Err(NotInPlace);
        }
        if !self.insert_with_value(parent, text, facts, at, value) {
            self.renumber_earlier(line);
            return Err(NotInPlace);
        }
        Ok(())
    }

    /// Adds a node with these facts, and below it the nodes of its value or of its further keys. Says whether it was
    /// done: where those are refused, the node is taken out again.
    fn insert_with_value(
        &mut self,
        parent: usize,
        text: &str,
        facts: NodeFacts,
        at: usize,
        value: NewValue,
    ) -> bool
        requires { HasPlace self.old.trie parent text.now at }
        ensures inserted { result ≡ true → node_infos self.new ≡ with_value
            (with_one (node_infos self.old) at (path_at self.old.trie parent ++ key text.now ∷ []) (info_of facts))
            at 0 (totals_in value.old) (totals_in value.new) (node_infos value.inside) value.kind }
        ensures trie { IsTrie self.new.trie }
        ensures root { holds_at self.new.trie 0 ≡ holds_at self.old.trie 0 }
        ensures refused { result ≡ false → node_infos self.new ≡ node_infos self.old }
    {
        let holds = holds_of(value.kind);
        if !insert_leaf(&mut self.nodes, parent, text, facts, holds, at) {
            return false;
        }
        let NewValue {
            inside,
            kind,
            old,
            new,
        } = value;
        if !replace_value(&mut self.nodes, at, inside, kind, old, new) {
            self.nodes.remove(at);
            return false;
        }
        true
    }
}
