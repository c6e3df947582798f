//! The facts about a node.

/// What a node is.
#[derive(Clone, Copy, Debug, PartialEq, Eq)]
pub enum Kind {
    Str,
    Integer,
    Float,
    Boolean,
    OffsetDateTime,
    LocalDateTime,
    LocalDate,
    LocalTime,
    Array,
    Inline,
    Table,
    Tables,
}

/// Where a node comes from: numbers of values and statements.
#[derive(Clone, Copy, Debug, PartialEq, Eq)]
pub enum Origin {
    Root,
    Value(usize),
    Header(usize),
    Element(usize),
    Dotted(usize),
    Through(usize),
    Tables,
}

/// The facts about a node, by the numbers of the syntax and not by places, which move with every edit before them.
/// `key` is the number of the first key part that names it, and `origin` has that of its value, if it has one; `passed`
/// means that it is an element and that some header passes it.
#[derive(Clone, Copy, Debug, PartialEq, Eq)]
pub struct NodeInfo {
    pub kind: Kind,
    pub key: Option<usize>,
    pub marks: usize,
    pub passed: bool,
    pub origin: Origin,
}
