//! A document that was read, as its edits look at it.
ghost use Rattle.std.specs.Prelude.{◌≡◌, ◌<◌, [], ◌∷◌, ◌++◌, length};
ghost use Rattle.keep_syntax.specs.Tree as tree;
ghost use Rattle.keep_meaning.specs.Meaning.{mentions_in};
ghost use Rattle.keep_meaning.specs.Nodes.{node_paths};
ghost use Rattle.keep_path.specs.Path.{key};
ghost use Rattle.keep_edit_plan.specs.Answers.{IsFound, path_at};
ghost use Rattle.keep_edit_plan.specs.Plans.{IsValueFound};
ghost use Rattle.keep_edit_plan.specs.Reading.{Holds, IsTextOfTree, text_in};

use keep_edit_spec::EditFault;
use keep_rules::{Index, NodeId, Origin, Path};
use keep_syntax::Syntax;
use keep_token::Profile;
use std::marker::Model;

/// A document that was read: its text, the profile that it was read in, and the syntax and the index that were read of
/// it.
#[derive(Drop)]
pub struct DocumentRef<'a> {
    pub(crate) text: &'a str,
    pub(crate) profile: Profile,
    pub(crate) syntax: &'a Syntax,
    pub(crate) index: &'a Index,
}

impl<'a> Model for DocumentRef<'a> {
    ghost use Rattle.keep_edit_plan.specs.Reading.{Holds, ProfiledText, text_in};

    ghost Value = { ProfiledText };

    ghost view = { λ d. text_in d.profile d.text.now };

    ghost invariant = { λ d. Holds (text_in d.profile d.text.now) d.syntax.now d.index.now };
}

impl<'a> DocumentRef<'a> {
    /// The document of a text, by the syntax and the index that were read of it in that profile.
    pub fn new(
        text: &'a str,
        profile: Profile,
        syntax: &'a Syntax,
        index: &'a Index,
    ) -> DocumentRef<'a>
        requires { Holds (text_in profile text.now) syntax.now index.now }
        ensures { result ≡ text_in profile text.now }
    {
        DocumentRef {
            text,
            profile,
            syntax,
            index,
        }
    }

    /// The number of the value at a path, among those of the syntax. It takes no memory.
    ///
    /// # Errors
    ///
    /// `NotFound` if the path names no node; `NotValue` if the node has no value with a text of its own.
    pub fn value_number(&self, path: &Path) -> Result<usize, EditFault>
        ensures { (s : tree.Document) → IsTextOfTree self.now s → IsFound path.now s result }
    {
        // The invariant of a document is known to the proof from where a field of it is looked at.
        let _text = self.text;
        let (_, number) = self.value_node(path)?;
        Ok(number)
    }

    /// The number of the value at a key of a node, decoded, among those of the syntax. It takes no memory.
    ///
    /// # Errors
    ///
    /// Those of `value_number` at the path of that key.
    pub fn value_number_below(&self, node: NodeId, text: &str) -> Result<usize, EditFault>
        requires { (s : tree.Document) → IsTextOfTree self.now s → node.0 < length (node_paths (mentions_in s)) }
        ensures { (s : tree.Document) → IsTextOfTree self.now s
            → IsFound (path_at s node.0 ++ key text.now ∷ []) s result }
    {
        let Some(child) = self.index.child(node, text) else {
            return Err(EditFault::NotFound);
        };
        let Origin::Value(number) = self.index.node(child).origin else {
            return Err(EditFault::NotValue);
        };
        Ok(number)
    }

    /// The node of a path, and the number of its value. It takes no memory.
    ///
    /// # Errors
    ///
    /// Those of `value_number`.
    pub(crate) fn value_node(&self, path: &Path) -> Result<(NodeId, usize), EditFault>
        ensures { (s : tree.Document) → IsTextOfTree self.now s → IsValueFound path.now s result }
    {
        let Some(node) = self.index.find(path) else {
            return Err(EditFault::NotFound);
        };
        match self.index.node(node).origin {
            Origin::Value(number) => Ok((node, number)),
            _ => Err(EditFault::NotValue),
        }
    }
}
