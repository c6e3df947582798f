//! The nodes of a document, and what can be asked of them.
ghost use Rattle.std.specs.Prelude.{◌≡◌, ℕ, ◌+◌, ◌-◌, ◌<◌, ◌≤◌, ◌∷◌, ◌++◌, [], None, Some, IfOk, IsNone};
ghost use Rattle.std.specs.Prelude.{OnErr, OnOk, if◌then◌else◌, List, length, nat_lt, slice_get};
ghost use Rattle.std.specs.Prelude.{string_bytes, string_capacity, take, IsOk};
ghost use Rattle.std.specs.Option.{option_and_then};
ghost use Rattle.keep_syntax.specs.declared.syntax.Syntax as syntax;
ghost use Rattle.keep_syntax.specs.Contract.{IsSyntaxOf};
ghost use Rattle.keep_syntax.specs.Numbered as numbered;
ghost use Rattle.keep_syntax.specs.Tree.{Document, Value};
ghost use Rattle.keep_rules.specs.Lookup.{FindsNode, children_numbered, nth_child, number_of, path_numbered};
ghost use Rattle.keep_rules.specs.PathRooms.{HasRoom};
ghost use Rattle.keep_meaning.specs.Nodes.{node_number, nodes_in, key_span_of, value_span_of};
ghost use Rattle.keep_index_store.specs.Tree.{IsRoot};
ghost use Rattle.keep_index_store.specs.Trie.{by_key};
ghost use Rattle.keep_path.specs.NodeInfos.{with_kind, with_path};
ghost use Rattle.keep_path.specs.Path.{EndsInKey, Part, beside, key, index};
ghost use Rattle.keep_path.specs.Step.{part_of};
ghost use Rattle.keep_path.specs.PathText.{encoded_path};
ghost use Rattle.keep_rules.specs.ReadDocuments.{IsBuilt, IsChecked, IsIndexOf, WasRead, WasReadAlone};

mod headers;
mod lines;
mod new_keys;
mod old_keys;
mod values;

use crate::path_text::{PathRoom, push_path};
use crate::queries::{child_by, path_to};
use crate::read::{read_document, read_value_alone};
use crate::spans::{key_span_at, value_span_at};
use keep_index_store::{Holds, Tree};
use keep_path::{Path, Step};
use keep_syntax::{ReadFault, Span, Syntax, ValueSyntax};
use keep_types::{Kind, NodeInfo, Origin};
pub use new_keys::NewKeys;
use std::alloc::{AllocError, Global};
use std::marker::Model;

/// A node's number in the order of first meeting, the root's being 0.
#[derive(Clone, Copy, Debug, PartialEq, Eq)]
pub struct NodeId(pub usize);

/// The nodes of a document: the root table, and each table, array of tables and value below it, down to the items of
/// arrays and the pairs of inline tables. They are in the order in which the text, read from its start, first meets
/// them: a key part that only leads on to further ones meets its table too. So each comes after its parent.
#[derive(Drop)]
pub struct Index {
    nodes: Tree,
}

impl Model for Index {
    ghost use Rattle.std.specs.Prelude.{◌≡◌};
    ghost use Rattle.keep_path.specs.NodeInfos.{NodeInfos};

    ghost Value = { NodeInfos };

    ghost use Rattle.keep_index_store.specs.Tree.{node_infos};
    ghost use Rattle.keep_index_store.specs.Trie.{IsTrie, by_key, holds_at};

    ghost view = { λ i. node_infos i.nodes };

    ghost invariant = { λ i. IsTrie i.nodes.trie × (holds_at i.nodes.trie 0 ≡ by_key) };
}

impl Index {
    /// Reads the definitions of a document (TOML 1.0.0: Keys, Table, Inline Table, Array of Tables): the nodes that its
    /// headers, key parts and values name, if of any two key parts that name one path the earlier allows the later.
    /// `syntax` is what was read of that text. The nodes are no more than the bytes of the text and one.
    ///
    /// # Errors
    ///
    /// `Define` where the document breaks the rules: with the start of the first key part that an earlier one does not
    /// allow, in bytes from the start of the text, and the reason. `Memory` where memory was refused. No other.
    pub fn build(alloc: Global, text: &str, syntax: &Syntax) -> Result<Index, ReadFault>
        requires { (d : Document) × WasRead text.now syntax.now d }
        ensures { IsBuilt text.now syntax.now result }
    {
        // The seed is for keys, and a text without statements has none.
        let hashed = if syntax.statement_count() == 0 {
            ""
        } else {
            text
        };
        let root = Tree::new(alloc, hashed, Holds::Keys)?;
        Index::read(root, text, syntax)
    }

    /// Reads the definitions of a document as `build` does, where this is the index of the same document with other
    /// text in the place of `lines`. The maps of the new index have a seed that comes of this one's and of the lines,
    /// so the rest of the text is not hashed once more.
    ///
    /// # Errors
    ///
    /// Those of `build`.
    pub fn rebuilt(
        &self,
        alloc: Global,
        text: &str,
        lines: &str,
        syntax: &Syntax,
    ) -> Result<Index, ReadFault>
        requires { (d : Document) × WasRead text.now syntax.now d }
        ensures { IsBuilt text.now syntax.now result }
    {
        let root = self.nodes.renewed(alloc, lines, Holds::Keys)?;
        Index::read(root, text, syntax)
    }

    /// Reads the definitions of a document as `build` promises, where the root is the only node so far.
    fn read(root: Tree, text: &str, syntax: &Syntax) -> Result<Index, ReadFault>
        requires read { (d : Document) × WasRead text.now syntax.now d }
        requires root { IsRoot by_key root }
        ensures { IsBuilt text.now syntax.now result }
    {
        let nodes = read_document(root, text, syntax)?;
        Ok(Index { nodes })
    }

    /// Whether the key parts in a value alone keep the definition rules (TOML 1.0.0: Keys, Inline Table). `syntax` is
    /// what was read of that text.
    ///
    /// # Errors
    ///
    /// `Define` where the value breaks the rules: with the start of the first key part that an earlier one does not
    /// allow, in bytes from the start of the text, and the reason. `Memory` where memory was refused. No other.
    pub fn check_value(alloc: Global, text: &str, syntax: &ValueSyntax) -> Result<(), ReadFault>
        requires { (v : Value) × WasReadAlone text.now syntax.now v }
        ensures { IsChecked text.now syntax.now result }
    {
        read_value_alone(alloc, text, syntax)
    }

    /// How many nodes there are: one at least, the root table, and at most one more than the text that was read has
    /// bytes.
    pub fn node_count(&self) -> usize
        ensures counted { result ≡ length self.now.paths }
        ensures few { (bytes : List ℕ) (s : syntax.Syntax) (d : Document) → WasRead bytes s d → IsIndexOf d self.now
            → result ≤ length bytes + 1 }
    {
        self.nodes.len()
    }

    /// The node with that number; None from `node_count()` on.
    pub fn node_at(&self, number: usize) -> Option<NodeId>
        ensures { FindsNode self.now (if nat_lt number (length self.now.paths) then Some number else None) result }
    {
        if number < self.nodes.len() {
            Some(NodeId(number))
        } else {
            None
        }
    }

    /// The path of the node: its keys, decoded, and the numbers of items and elements. The only error is out of memory.
    pub fn path_of(&self, alloc: Global, id: NodeId) -> Result<Path, AllocError>
        requires { id.0 < length self.now.paths }
        ensures { IfOk result (λ path. path ≡ path_numbered self.now id.0) }
    {
        path_to(alloc, &self.nodes, id.0)
    }

    /// Adds the text of the node's path, as `Path::encode` writes it. No path is made: beside the text it takes the
    /// memory of the node numbers from the node up to the root. The only error is that memory was refused; then `out`
    /// has the text that it had.
    pub fn push_path_text(&self, id: NodeId, out: &mut String) -> Result<(), AllocError>
        requires { id.0 < length self.now.paths }
        ensures pushed { OnOk result
            (string_bytes out.new ≡ string_bytes out.old ++ encoded_path (path_numbered self.now id.0)) }
        ensures refused { OnErr result (string_bytes out.new ≡ string_bytes out.old) }
    {
        let mut room = PathRoom::new(*out.allocator());
        self.push_path_within(id, &mut room, out)
    }

    /// Adds the text of the node's path as `push_path_text` does, and takes memory only where `room` and `out` have no
    /// room for it.
    pub fn push_path_within(
        &self,
        id: NodeId,
        room: &mut PathRoom,
        out: &mut String,
    ) -> Result<(), AllocError>
        requires { id.0 < length self.now.paths }
        ensures pushed { OnOk result
            (string_bytes out.new ≡ string_bytes out.old ++ encoded_path (path_numbered self.now id.0)) }
        ensures refused { OnErr result (string_bytes out.new ≡ string_bytes out.old) }
        ensures grown { (string_capacity out.old ≤ string_capacity out.new) × (room.old ≤ room.new) }
        ensures enough { OnOk result (length (path_numbered self.now id.0) ≤ room.new) }
        ensures fits { HasRoom room.old out.old (path_numbered self.now id.0) → IsOk result }
    {
        push_path(out, room, &self.nodes, id.0)
    }

    /// The node of that path; None where the document has none there. It takes no memory, and one look-up for each
    /// step.
    pub fn find(&self, path: &Path) -> Option<NodeId>
        ensures { FindsNode self.now (node_number self.now.paths path.now) result }
    {
        self.find_first(path, path.len())
    }

    /// The node to which the first `n` steps of the path lead, or all where it has fewer; None where the document has
    /// none there.
    pub fn find_first(&self, path: &Path, n: usize) -> Option<NodeId>
        ensures { FindsNode self.now (node_number self.now.paths (take n path.now)) result }
    {
        let mut id = 0;
        for number in 0..n.min(path.len()) {
            id = child_by(&self.nodes, id, path.step(number)?)?;
        }
        Some(NodeId(id))
    }

    /// The node to which one more step leads from a node; None where the document has none there, and then none at a
    /// longer path that begins so.
    pub fn step(&self, id: NodeId, step: &Step) -> Option<NodeId>
        requires { id.0 < length self.now.paths }
        ensures node { FindsNode self.now
            (node_number self.now.paths (path_numbered self.now id.0 ++ part_of step.now ∷ [])) result }
        ensures none { IsNone result → (more : List Part)
            → node_number self.now.paths (path_numbered self.now id.0 ++ part_of step.now ∷ more) ≡ None }
    {
        child_by(&self.nodes, id.0, step).map(NodeId)
    }

    /// The node of a table's key, decoded; None where the table has no such key, or where the node is no table.
    pub fn child(&self, id: NodeId, text: &str) -> Option<NodeId>
        requires { id.0 < length self.now.paths }
        ensures { FindsNode self.now
            (node_number self.now.paths (path_numbered self.now id.0 ++ key text.now ∷ [])) result }
    {
        self.nodes.child(id.0, text).map(NodeId)
    }

    /// The node of a path with this key, decoded, in place of its last step; None if the document has none there. For
    /// the root's path it is a key of the root.
    pub fn sibling(&self, path: &Path, text: &str) -> Option<NodeId>
        ensures { FindsNode self.now
            (node_number self.now.paths (take (length path.now - 1) path.now ++ key text.now ∷ [])) result }
    {
        let nodes = &self.nodes;
        let parent = self.find_first(path, path.len().saturating_sub(1))?;
        nodes.child(parent.0, text).map(NodeId)
    }

    /// How many nodes are one step below: a table's keys, an array's items or the elements of an array of tables; 0
    /// for any other value.
    pub fn child_count(&self, id: NodeId) -> usize
        requires { id.0 < length self.now.paths }
        ensures { result ≡ length (children_numbered self.now id.0) }
    {
        self.nodes.child_count(id.0)
    }

    /// The node one step below that is met after `n` others there; None from `child_count(id)` on. In an array or an
    /// array of tables it is the item or element of index `n`.
    pub fn child_at(&self, id: NodeId, n: usize) -> Option<NodeId>
        requires { id.0 < length self.now.paths }
        ensures node { FindsNode self.now (nth_child self.now id.0 n) result }
        ensures indexed { (k : ℕ) → node_number self.now.paths (path_numbered self.now id.0 ++ index n ∷ []) ≡ Some k
            → number_of result ≡ Some k }
    {
        self.nodes.child_at(id.0, n).map(NodeId)
    }

    /// The facts about the node: what it is, and where it comes from.
    pub fn node(&self, id: NodeId) -> NodeInfo
        requires { id.0 < length self.now.paths }
        ensures { slice_get self.now.infos id.0 ≡ Some result }
    {
        self.nodes.info(id.0)
    }

    /// Where the first key part that names the node is, in bytes from the start of the text; None for the root, an item
    /// and an element, which no key part names. `syntax` is what was read of the document.
    pub fn key_span(&self, id: NodeId, syntax: &Syntax) -> Option<Span>
        requires within { id.0 < length self.now.paths }
        ensures { (d : Document) → IsSyntaxOf syntax.now d → IsIndexOf d self.now
            → result ≡ option_and_then (key_span_of (numbered.parts d)) (slice_get (nodes_in d) id.0) }
    {
        key_span_at(syntax, self.node(id).key?)
    }

    /// Where the node's value is, in bytes from the start of the text; None for a node that is no value: the root, the
    /// table of a header or of dotted keys, an array of tables and an element. `syntax` is what was read of the
    /// document.
    pub fn value_span(&self, id: NodeId, syntax: &Syntax) -> Option<Span>
        requires within { id.0 < length self.now.paths }
        ensures { (d : Document) → IsSyntaxOf syntax.now d → IsIndexOf d self.now
            → result ≡ option_and_then (value_span_of (numbered.values d)) (slice_get (nodes_in d) id.0) }
    {
        let Origin::Value(number) = self.node(id).origin else {
            return None;
        };
        value_span_at(syntax, number)
    }

    /// The node is of another kind from now on: that of a value in place of one, where neither has a value in it. It
    /// takes no memory.
    pub fn set_kind(&mut self, id: NodeId, kind: Kind)
        requires within { id.0 < length self.old.paths }
        ensures { self.new ≡ with_kind self.old id.0 kind }
    {
        self.nodes.set_kind(id.0, kind);
    }

    /// The last key of the node's path is this one from now on, decoded. The paths of the nodes below it change too;
    /// all other paths, the numbers of the nodes and the facts about them stay. It takes the memory of the key, and
    /// what the map of a table with many keys takes for one key more; no node is made.
    ///
    /// # Errors
    ///
    /// The only error is that memory was refused; then nothing has changed.
    pub fn set_key(&mut self, id: NodeId, text: &str) -> Result<(), AllocError>
        requires within { id.0 < length self.old.paths }
        requires keyed { EndsInKey (path_numbered self.old id.0) }
        requires fresh { node_number self.old.paths (beside (path_numbered self.old id.0) text.now) ≡ None }
        ensures moved { OnOk result (self.new ≡ with_path self.old (path_numbered self.old id.0)
            (beside (path_numbered self.old id.0) text.now)) }
        ensures refused { OnErr result (self.new ≡ self.old) }
    {
        self.nodes.set_key(id.0, text)
    }
}
