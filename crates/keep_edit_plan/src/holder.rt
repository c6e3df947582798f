//! The node below which a new value comes.
ghost use Rattle.std.specs.Prelude.{◌≡◌, ◌⊎◌, suc, ◌<◌, ◌≤◌, length};
ghost use Rattle.keep_syntax.specs.Tree as tree;
ghost use Rattle.keep_path.specs.Path.{AreUtf8};
ghost use Rattle.keep_meaning.specs.Meaning.{mentions_in};
ghost use Rattle.keep_edit_spec.specs.Look.{holder};
ghost use Rattle.keep_edit_plan.specs.Reading.{IsAccepted, IsTextOfTree};
ghost use Rattle.keep_edit_plan.specs.Holding.{brackets_of, is_value_origin, IsFurther, IsHolder, IsOnWalk};
ghost use Rattle.keep_edit_plan.specs.Inserting.{origin_of};

use crate::document::DocumentRef;
use keep_rules::{Kind, NodeId, Origin, Path};

/// The node of a prefix of a path, and what the steps to it pass.
#[derive(Clone, Copy)]
pub(crate) struct Holder {
    pub(crate) id: NodeId,
    /// How many steps lead to it.
    pub(crate) len: usize,
    /// How many steps lead to the table of which dotted keys lead on to it: all of them if none do.
    pub(crate) base: usize,
    /// Whether that table is written as a value, in braces.
    pub(crate) braced: bool,
    /// How many of the nodes from the root to it are arrays or inline tables.
    pub(crate) depth: usize,
}

/// How far the steps of a path lead that are before its last.
#[derive(Clone, Copy, Debug, PartialEq, Eq)]
pub struct Reach {
    /// How many of them lead to what is there.
    pub steps: usize,
    /// Whether that is written as a value.
    pub is_value: bool,
}

impl<'a> DocumentRef<'a> {
    /// How far a path leads, its last step left out. It takes no memory.
    pub fn reach(&self, path: &Path) -> Reach
        ensures steps { (s : tree.Document) → IsTextOfTree self.now s
            → result.steps ≡ length (holder path.now (mentions_in s)) }
        ensures value { (s : tree.Document) → IsTextOfTree self.now s
            → result.is_value ≡ is_value_origin (origin_of (holder path.now (mentions_in s)) s) }
        ensures few { (result.steps ≡ 0) ⊎ (result.steps < length path.now) }
    {
        let _text = self.text;
        let holder = self.holder_of(path);
        let origin = self.index.node(holder.id).origin;
        Reach {
            steps: holder.len,
            is_value: is_value(origin),
        }
    }

    /// The longest prefix of a path, the whole path left out, that names a node. It takes no memory.
    pub(crate) fn holder_of(&self, path: &Path) -> Holder
        requires { IsAccepted self.now }
        ensures holder { (s : tree.Document) → IsTextOfTree self.now s → IsHolder path.now s result }
        ensures utf8 { AreUtf8 path.now }
    {
        let mut holder = Holder {
            id: NodeId(0),
            len: 0,
            base: 0,
            braced: false,
            depth: 0,
        };
        for len in 1..path.len() {
            let Some(next) = self.further(path, holder, len) else {
                return holder;
            };
            holder = next;
        }
        holder
    }

    /// One step further along a path, to its first `len` steps; None if they lead to no node.
    fn further(&self, path: &Path, holder: Holder, len: usize) -> Option<Holder>
        requires next { len ≡ suc holder.len }
        requires walk { (s : tree.Document) × IsTextOfTree self.now s × IsOnWalk path.now s holder }
        requires more { holder.len < length path.now }
        ensures { (s : tree.Document) → IsTextOfTree self.now s → IsOnWalk path.now s holder
            → IsFurther path.now s holder result }
    {
        let id = self.index.step(holder.id, path.step(holder.len)?)?;
        let node = self.index.node(id);
        let depth = holder.depth + brackets(node.kind);
        match node.origin {
            Origin::Dotted(_) => Some(Holder {
                id,
                len,
                depth,
                ..holder
            }),
            origin => Some(Holder {
                id,
                len,
                base: len,
                braced: is_value(origin),
                depth,
            }),
        }
    }
}

/// How many arrays or inline tables a node of this kind is.
fn brackets(kind: Kind) -> usize
    ensures count { result ≡ brackets_of kind }
    ensures few { result ≤ 1 }
{
    match kind {
        Kind::Array | Kind::Inline => 1,
        _ => 0,
    }
}

/// Whether a node is written as a value.
fn is_value(origin: Origin) -> bool
    ensures { result ≡ is_value_origin origin }
{
    matches!(origin, Origin::Value(_))
}
