//! The tree with one key more, that of a line: its node comes between those that are there.
ghost use Rattle.std.specs.Prelude.{◌≡◌, ◌<◌, ◌∷◌, ◌++◌, [], OnErr, OnOk, false, length, true};
ghost use Rattle.std.specs.List.{insert};
ghost use Rattle.keep_path.specs.NodeInfos.{dotted_info, line_info, with_last, with_node};
ghost use Rattle.keep_path.specs.Path.{key};
ghost use Rattle.keep_index_store.specs.Children.{holding};
ghost use Rattle.keep_index_store.specs.Facts.{info_of};
ghost use Rattle.keep_index_store.specs.Inserted.{HasPlace, IsInserted, SplitsNoItems, holding_of};
ghost use Rattle.keep_index_store.specs.Renumbering.{numbers_of};
ghost use Rattle.keep_index_store.specs.Stored.{IsStored, trie_of};
ghost use Rattle.keep_index_store.specs.Tree.{node_infos};
ghost use Rattle.keep_index_store.specs.Trie.{IsTrie, by_key, holdings_of, holds_at, path_at, paths_of};

use super::Tree;
use crate::children::Holds;
use crate::facts::NodeFacts;
use crate::nodes::Nodes;
use crate::renumbering::LineNumbers;
use keep_types::{Kind, Origin, Role};

/// The nodes can't be changed in place, and are as before: they have to be made anew.
#[derive(Clone, Copy, Debug, PartialEq, Eq)]
pub struct NotInPlace;

/// What children the node of a line may have.
pub fn holds_of(kind: Kind) -> Holds
    ensures { holding result ≡ holding_of kind }
{
    match kind {
        Kind::Array => Holds::Items,
        Kind::Inline | Kind::Table => Holds::Keys,
        _ => Holds::Nothing,
    }
}

/// The facts about the node of a line, whose value has this kind.
pub fn line_facts(line: LineNumbers, kind: Kind) -> NodeFacts
    ensures { info_of result ≡ line_info (numbers_of line) kind }
{
    NodeFacts {
        role: Some(Role::Value),
        ..NodeFacts::named(kind, line.key, Origin::Value(line.value))
    }
}

/// The facts about the node of a line's key from which its keyval continues by dots.
pub fn dotted_facts(line: LineNumbers) -> NodeFacts
    ensures { info_of result ≡ dotted_info (numbers_of line) }
{
    NodeFacts {
        role: Some(Role::Dotted),
        ..NodeFacts::named(Kind::Table, line.key, Origin::Dotted(line.value))
    }
}

/// Adds a node with no children below a table, with the number `at`, and says whether it was done: not where memory is
/// refused or a parent link does not fit into 8 bytes. Then nothing is changed.
pub fn insert_leaf(
    nodes: &mut Nodes,
    parent: usize,
    text: &str,
    facts: NodeFacts,
    holds: Holds,
    at: usize,
) -> bool
    requires stored { IsStored nodes.old.items }
    requires place { HasPlace (trie_of nodes.old.items) parent text.now at }
    ensures inserted { result ≡ true → IsInserted nodes.old.items nodes.new.items at
        (path_at (trie_of nodes.old.items) parent ++ key text.now ∷ []) (holding holds) (info_of facts) }
    ensures refused { result ≡ false → nodes.new ≡ nodes.old }
{
    if !nodes.can_grow_below(parent) || nodes.add_key(parent, text, facts, holds).is_err() {
        return false;
    }
    let place = nodes.children_before(parent, at);
    nodes.move_last(at, place);
    true
}

impl Tree {
    /// Adds the node of a line, which a key of the table `parent` names and which has no children. It has the number
    /// `at`, so each node from there on has the next number; and each has the numbers in its facts that it has once the
    /// line is there.
    ///
    /// # Errors
    ///
    /// `NotInPlace` where `parent` takes no keys, or has this one, or is no node before `at`; where a number would not
    /// fit where it is stored; and where memory was refused. Then nothing is changed.
    pub fn insert_key(
        &mut self,
        parent: usize,
        text: &str,
        line: LineNumbers,
        kind: Kind,
        at: usize,
    ) -> Result<(), NotInPlace>
        requires { parent < length self.old.trie }
        ensures inserted { OnOk result (node_infos self.new ≡ with_node (node_infos self.old) at (numbers_of line)
            (path_at self.old.trie parent ++ key text.now ∷ []) kind) }
        ensures holdings { OnOk result
            (holdings_of self.new.trie ≡ insert (holdings_of self.old.trie) at (holding_of kind)) }
        ensures trie { OnOk result (IsTrie self.new.trie) }
        ensures root { holds_at self.new.trie 0 ≡ holds_at self.old.trie 0 }
        ensures refused { OnErr result (self.new ≡ self.old) }
    {
        if !self.has_place(parent, text, at) || self.renumber_later(line).is_none() {
            return Err(NotInPlace);
        }
        let facts = line_facts(line, kind);
        if !self.insert_node(parent, text, facts, holds_of(kind), at) {
            self.renumber_earlier(line);
            return Err(NotInPlace);
        }
        Ok(())
    }

    /// Adds the node of a line that is the last of its document, which a key of the table `parent` names and which has
    /// no children. It is the last node, and the facts about all others stay.
    ///
    /// # Errors
    ///
    /// `NotInPlace` where `parent` takes no keys, or has this one, and where memory was refused. Then nothing is
    /// changed.
    pub fn append_key(
        &mut self,
        parent: usize,
        text: &str,
        line: LineNumbers,
        kind: Kind,
    ) -> Result<(), NotInPlace>
        requires { parent < length self.old.trie }
        ensures appended { OnOk result (node_infos self.new ≡ with_last (node_infos self.old)
            (path_at self.old.trie parent ++ key text.now ∷ []) (line_info (numbers_of line) kind)) }
        ensures holdings { OnOk result
            (holdings_of self.new.trie ≡ holdings_of self.old.trie ++ holding_of kind ∷ []) }
        ensures trie { OnOk result (IsTrie self.new.trie) }
        ensures root { holds_at self.new.trie 0 ≡ holds_at self.old.trie 0 }
        ensures refused { OnErr result (self.new ≡ self.old) }
    {
        if !self.takes_keys(parent) || self.child(parent, text).is_some() {
            return Err(NotInPlace);
        }
        let facts = line_facts(line, kind);
        match self.add_key(parent, text, Role::Value, facts, holds_of(kind)) {
            Ok(_) => Ok(()),
            Err(_) => Err(NotInPlace),
        }
    }

    /// Whether a node can come below a table by this key, under that number.
    pub(super) fn has_place(&self, parent: usize, text: &str, at: usize) -> bool
        requires { parent < length self.now.trie }
        ensures { result ≡ true → HasPlace self.now.trie parent text.now at }
    {
        let count = self.len();
        parent < at
            && at <= count
            && self.takes_keys(parent)
            && self.child(parent, text).is_none()
            && (at == count || self.splits_no_items(at))
    }

    /// Whether the node before that number and the node of it are no items of one array, and no elements of one array
    /// of tables.
    fn splits_no_items(&self, at: usize) -> bool
        requires later { 0 < at }
        requires within { at < length self.now.trie }
        ensures { result ≡ true → SplitsNoItems self.now.trie at }
    {
        let above = self.parent(at);
        self.parent(at - 1) != above || self.takes_keys(above)
    }

    /// Adds a node with no children below a table, with the number `at`, and says whether it was done: not where memory
    /// is refused or a parent link does not fit into 8 bytes. Then nothing is changed.
    fn insert_node(
        &mut self,
        parent: usize,
        text: &str,
        facts: NodeFacts,
        holds: Holds,
        at: usize,
    ) -> bool
        requires { HasPlace self.old.trie parent text.now at }
        ensures paths { result ≡ true → paths_of self.new.trie
            ≡ insert (paths_of self.old.trie) at (path_at self.old.trie parent ++ key text.now ∷ []) }
        ensures holdings { result ≡ true
            → holdings_of self.new.trie ≡ insert (holdings_of self.old.trie) at (holding holds) }
        ensures infos { result ≡ true → self.new.infos ≡ insert self.old.infos at (info_of facts) }
        ensures trie { result ≡ true → IsTrie self.new.trie }
        ensures refused { result ≡ false → self.new ≡ self.old }
    {
        insert_leaf(&mut self.nodes, parent, text, facts, holds, at)
    }
}
