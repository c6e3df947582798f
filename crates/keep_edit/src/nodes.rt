//! Nodes of a document, found once, of which several things can be asked.
ghost use Rattle.std.specs.Prelude.{◌≡◌, [], ◌∷◌, ◌++◌, IfOk, List, Some, option_map};
ghost use Rattle.keep_syntax.specs.Tree as tree;
ghost use Rattle.keep_path.specs.Path.{Part, key};
ghost use Rattle.keep_edit_plan.specs.Plans.{IsNodeOf};
ghost use Rattle.keep_edit.specs.Answers.{str_value_of};
ghost use Rattle.keep_edit.specs.Children.{child_count_of};
ghost use Rattle.keep_edit.specs.NodeRefs.{FindsItem, FindsItemNumber, FindsNode, IsNodeAt};
ghost use Rattle.keep_edit.specs.Reading.{IsTextOfTree};
ghost use Rattle.keep_edit.specs.StrTexts.{text_of_str};

use crate::document::Document;
use crate::str_text::StrText;
use keep_rules::{NodeId, Path, Step};
use std::alloc::{AllocError, Global};

/// A node that was found in a document. What is below it can be asked without its path, so many questions go down a
/// path that they share once.
#[derive(Clone, Copy)]
pub struct NodeRef<'d> {
    document: &'d Document,
    node: NodeId,
}

impl Document {
    /// The node of a path; None where it names none. It takes no memory.
    pub fn node(&self, path: &Path) -> Option<NodeRef<'_>>
        ensures { (s : tree.Document) → IsTextOfTree self.now s → FindsNode s path.now result }
    {
        let node = self.index.find(path)?;
        Some(NodeRef {
            document: self,
            node,
        })
    }

    // The number of the item of a node, as `NodeRef::item` finds it.
    fn item_below(&self, node: NodeId, number: usize) -> Option<NodeId>
        ensures { (s : tree.Document) (path : List Part) → IsTextOfTree self.now s → IsNodeOf path s node
            → FindsItemNumber s path number result }
    {
        let id = self.index.node_at(node.0)?;
        self.index.step(id, &Step::Index(number))
    }

    // How many nodes are one step below a node.
    fn count_below(&self, node: NodeId) -> usize
        ensures { (s : tree.Document) (path : List Part) → IsTextOfTree self.now s → IsNodeOf path s node
            → Some result ≡ child_count_of path s }
    {
        match self.index.node_at(node.0) {
            Some(id) => self.index.child_count(id),
            None => 0,
        }
    }

    // What the string at a key of a node means, as `NodeRef::str_text` gives it.
    fn text_below(
        &self,
        alloc: Global,
        node: NodeId,
        text: &str,
    ) -> Result<Option<StrText<'_>>, AllocError>
        ensures { (s : tree.Document) (path : List Part) → IsTextOfTree self.now s → IsNodeOf path s node
            → IfOk result (λ found. option_map text_of_str found ≡ str_value_of (path ++ key text.now ∷ []) s) }
    {
        let Some(id) = self.index.node_at(node.0) else {
            return Ok(None);
        };
        self.text_found(alloc, self.as_ref().value_number_below(id, text))
    }
}

impl<'d> NodeRef<'d> {
    /// The item of that number, where this is an array, or the element, where it is an array of tables; None where
    /// there is no such one.
    pub fn item(&self, number: usize) -> Option<NodeRef<'d>>
        ensures { (s : tree.Document) (path : List Part) → IsNodeAt s path self.now → FindsItem s path number result }
    {
        let node = self.document.item_below(self.node, number)?;
        Some(NodeRef {
            document: self.document,
            node,
        })
    }

    /// How many nodes are one step below, as `Document::child_count` says.
    pub fn child_count(&self) -> usize
        ensures { (s : tree.Document) (path : List Part) → IsNodeAt s path self.now
            → Some result ≡ child_count_of path s }
    {
        self.document.count_below(self.node)
    }

    /// What the string at a key of this node, decoded, means; None where something else is there, or nothing. It takes
    /// memory only for a string with escapes or of several lines, and running out of it is the only error.
    pub fn str_text(&self, alloc: Global, text: &str) -> Result<Option<StrText<'d>>, AllocError>
        ensures { (s : tree.Document) (path : List Part) → IsNodeAt s path self.now
            → IfOk result (λ found. option_map text_of_str found ≡ str_value_of (path ++ key text.now ∷ []) s) }
    {
        self.document.text_below(alloc, self.node, text)
    }
}
