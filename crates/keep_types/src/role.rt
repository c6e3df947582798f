//! The roles of key parts.

/// What a key part does at its path.
#[derive(Clone, Copy, Debug, PartialEq, Eq)]
pub enum Role {
    /// Of a header, not the last, at no array of tables.
    Through,
    /// Of a header, not the last, at an array of tables.
    Past,
    /// The last of `[..]`.
    Define,
    /// The last of `[[..]]`.
    Element,
    /// Of a keyval, not the last.
    Dotted,
    /// The last of a keyval.
    Value,
}
