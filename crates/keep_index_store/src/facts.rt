//! The facts about a node.
ghost use Rattle.std.specs.Prelude.{◌≡◌, ℕ, None, nat_le};
ghost use Rattle.keep_index_store.specs.Facts.{joined_info, joined_facts, later_kind, info_of, rank, named_info};
ghost use Rattle.keep_index_store.specs.Facts.{unnamed_info, passed_info, origin_of};

use keep_types::{Kind, NodeInfo, Origin, Role};

/// Where a node comes from, without the number of the value or statement. In the order of their ranks, so that two are
/// compared as they are.
#[derive(Clone, Copy)]
pub enum OriginKind {
    Root,
    Through,
    Dotted,
    Header,
    Element,
    Tables,
    Value,
}

/// The facts about a node so far, beside its path and its children. The number of its place is a field of its own, so
/// that all fields that are no numbers share one word.
#[derive(Clone, Copy)]
pub struct NodeFacts {
    /// The role that represents those of the marks here, if there are any.
    pub role: Option<Role>,
    pub kind: Kind,
    /// It is an element that some header goes past.
    pub passed: bool,
    pub origin: OriginKind,
    /// How many key parts name it.
    pub marks: usize,
    /// The number of the first key part that names it, or 0 if none does.
    pub key: usize,
    /// The number of the value or statement that the place names, if it names one.
    pub number: usize,
}

impl NodeFacts {
    /// The facts from the key part with that number, which names a node.
    pub fn named(kind: Kind, key: usize, origin: Origin) -> NodeFacts
        ensures info { info_of result ≡ named_info kind key origin }
        ensures key { result.key ≡ key }
    {
        let (origin, number) = origin_parts(origin);
        NodeFacts {
            role: None,
            kind,
            passed: false,
            origin,
            marks: 1,
            key,
            number,
        }
    }

    /// The facts from an item or an element, which no key part names.
    pub fn unnamed(kind: Kind, origin: Origin) -> NodeFacts
        ensures info { info_of result ≡ unnamed_info kind origin }
        ensures role { result.role ≡ None }
    {
        let (origin, number) = origin_parts(origin);
        NodeFacts {
            role: None,
            kind,
            passed: false,
            origin,
            marks: 0,
            key: 0,
            number,
        }
    }

    /// The facts from a header that goes past an element.
    pub fn passed() -> NodeFacts
        ensures { info_of result ≡ passed_info }
    {
        NodeFacts {
            passed: true,
            ..NodeFacts::unnamed(Kind::Table, Origin::Root)
        }
    }

    /// The facts as the callers of the library see them.
    pub fn info(&self) -> NodeInfo
        ensures { result ≡ info_of self.now }
    {
        NodeInfo {
            kind: self.kind,
            key: if self.marks == 0 {
                None
            } else {
                Some(self.key)
            },
            marks: self.marks,
            passed: self.passed,
            origin: origin_of(self.origin, self.number),
        }
    }

    /// These facts joined with those from one more mention of the node, which gives it no value.
    pub fn joined_with(self, more: NodeFacts) -> NodeFacts
        ensures facts { result ≡ joined_facts self more }
        ensures info { info_of result ≡ joined_info (info_of self) (info_of more) }
        ensures role { result.role ≡ self.role }
    {
        let later = if yields_to(self.origin, more.origin) {
            more
        } else {
            self
        };
        NodeFacts {
            role: self.role,
            kind: later_kind(self.kind, more.kind),
            passed: self.passed || more.passed,
            origin: later.origin,
            // No document has so many key parts that this is less than the sum.
            marks: self.marks.saturating_add(more.marks),
            key: if self.marks == 0 { more.key } else { self.key },
            number: later.number,
        }
    }
}

/// Which place it is, and the number that it names, or 0.
fn origin_parts(origin: Origin) -> (OriginKind, usize)
    ensures { origin_of result.0 result.1 ≡ origin }
{
    match origin {
        Origin::Root => (OriginKind::Root, 0),
        Origin::Value(number) => (OriginKind::Value, number),
        Origin::Header(number) => (OriginKind::Header, number),
        Origin::Element(number) => (OriginKind::Element, number),
        Origin::Dotted(number) => (OriginKind::Dotted, number),
        Origin::Through(number) => (OriginKind::Through, number),
        Origin::Tables => (OriginKind::Tables, 0),
    }
}

/// The place of that kind, with the number that it names.
fn origin_of(kind: OriginKind, number: usize) -> Origin
    ensures { result ≡ origin_of kind number }
{
    match kind {
        OriginKind::Root => Origin::Root,
        OriginKind::Value => Origin::Value(number),
        OriginKind::Header => Origin::Header(number),
        OriginKind::Element => Origin::Element(number),
        OriginKind::Dotted => Origin::Dotted(number),
        OriginKind::Through => Origin::Through(number),
        OriginKind::Tables => Origin::Tables,
    }
}

/// The kind of a node after one more mention: an array of tables, if one of the two kinds is that.
pub fn later_kind(old: Kind, more: Kind) -> Kind
    ensures { result ≡ later_kind old more }
{
    if more == Kind::Tables { more } else { old }
}

/// Whether a later place replaces an older one: it does, if its rank is not the lower.
pub fn yields_to(old: OriginKind, more: OriginKind) -> bool
    ensures { (m n : ℕ) → result ≡ nat_le (rank (origin_of old m)) (rank (origin_of more n)) }
{
    rank_of(old) <= rank_of(more)
}

/// The rank of a place: of two places the one of the higher rank is stored.
fn rank_of(kind: OriginKind) -> u8
    ensures { (number : ℕ) → result ≡ rank (origin_of kind number) }
{
    match kind {
        OriginKind::Root => 0,
        OriginKind::Through => 1,
        OriginKind::Dotted => 2,
        OriginKind::Header => 3,
        OriginKind::Element => 4,
        OriginKind::Tables => 5,
        OriginKind::Value => 6,
    }
}
