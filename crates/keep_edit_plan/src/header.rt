//! Headers at the end of a document: whether the definition rules let them be there.
ghost use Rattle.std.specs.Prelude.{◌≡◌, ◌<◌, ◌∷◌, ◌++◌, [], length};
ghost use Rattle.keep_syntax.specs.Tree as tree;
ghost use Rattle.keep_rules.specs.Lookup.{path_numbered};
ghost use Rattle.keep_rules.specs.ReadDocuments.{IsIndexOf};
ghost use Rattle.keep_path.specs.Path.{key};
ghost use Rattle.keep_edit_plan.specs.Headers.{role_of, may_follow, opening, closing, key_texts, conflict_from};
ghost use Rattle.keep_edit_plan.specs.Headers.{ConflictIs, EntersAt};

use keep_meaning::why_of;
use keep_rules::{Index, NodeId, Origin, Why};
use keep_types::Role;

/// The header of a table, or of an element of an array of tables.
#[derive(Clone, Copy)]
pub enum Header {
    Table,
    Element,
}

impl Header {
    /// What comes before its keys.
    pub(crate) fn opening(self) -> &'static str
        ensures { result.now ≡ opening self }
    {
        match self {
            Header::Table => "[",
            Header::Element => "[[",
        }
    }

    /// What comes after its keys.
    pub(crate) fn closing(self) -> &'static str
        ensures { result.now ≡ closing self }
    {
        match self {
            Header::Table => "]",
            Header::Element => "]]",
        }
    }

    /// What its last key does.
    fn role(self) -> Role
        ensures { result ≡ role_of self }
    {
        match self {
            Header::Table => Role::Define,
            Header::Element => Role::Element,
        }
    }

    /// Whether its last key can follow the origin of a node: after headers that only go through it, or after other
    /// elements.
    fn may_follow(self, origin: Origin) -> bool
        ensures { result ≡ may_follow self origin }
    {
        match self {
            Header::Table => matches!(origin, Origin::Through(_)),
            Header::Element => matches!(origin, Origin::Tables),
        }
    }
}

/// Whether a header with these keys can come after the document of this index. It takes no memory, and looks up one
/// node a key.
///
/// # Errors
///
/// The reason for refusing the first of its key parts that the document's key parts do not allow.
pub(crate) fn check_header(index: &Index, keys: &[String], header: Header) -> Result<(), Why>
    requires { (s : tree.Document) × IsIndexOf s index.now }
    ensures { (s : tree.Document) → IsIndexOf s index.now
        → ConflictIs (conflict_from s [] (key_texts keys.now) (role_of header)) result }
{
    let Some((last, prefix)) = keys.split_last() else {
        return Ok(());
    };
    let mut at = NodeId(0);
    for name in prefix {
        let Some(next) = enter(index, at, name.as_str())? else {
            return Ok(());
        };
        at = next;
    }
    check_last(index, at, last.as_str(), header)
}

/// The node where a header continues from a key of a node: the last element of an array of tables, else the key's own
/// node. None if there is none, so that no key part is there or below.
fn enter(index: &Index, at: NodeId, name: &str) -> Result<Option<NodeId>, Why>
    requires { at.0 < length index.now.paths }
    ensures { (s : tree.Document) → IsIndexOf s index.now
        → EntersAt s index.now (path_numbered index.now at.0 ++ key name.now ∷ []) result }
{
    let Some(id) = index.child(at, name) else {
        return Ok(None);
    };
    match index.node(id).origin {
        Origin::Value(_) => Err(why_of(Role::Through)),
        Origin::Tables => {
            let count = index.child_count(id);
            Ok(index.child_at(id, count.saturating_sub(1)))
        }
        _ => Ok(Some(id)),
    }
}

/// Whether a header's last key can be at a node.
fn check_last(index: &Index, at: NodeId, name: &str, header: Header) -> Result<(), Why>
    requires { at.0 < length index.now.paths }
    ensures { (s : tree.Document) → IsIndexOf s index.now
        → ConflictIs (conflict_from s (path_numbered index.now at.0) (name.now ∷ []) (role_of header)) result }
{
    let Some(id) = index.child(at, name) else {
        return Ok(());
    };
    if header.may_follow(index.node(id).origin) {
        Ok(())
    } else {
        Err(why_of(header.role()))
    }
}
