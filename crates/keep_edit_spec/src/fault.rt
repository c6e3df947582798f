use keep_syntax::Why;
use thiserror::Error;

/// Why an edit is refused: the first that holds. They are tested in this order, but for `Memory`, which comes last. A
/// refused edit changes nothing.
#[derive(Clone, Copy, Debug, PartialEq, Eq, Error)]
pub enum EditFault {
    /// The path names no node.
    #[error("NotFound")]
    NotFound,
    /// The path of what would be new names a node already.
    #[error("Exists")]
    Exists,
    /// The node has no value with a text of its own.
    #[error("NotValue")]
    NotValue,
    /// What would hold the new key is no table.
    #[error("NotTable")]
    NotTable,
    /// The path does not end in a key, or there is no key.
    #[error("NotKey")]
    NotKey,
    /// What the edit would take hold of is written in several places of the text.
    #[error("Scattered")]
    Scattered,
    /// The new header would break a rule of definition.
    #[error("Conflict {why:?}")]
    Conflict { why: Why },
    /// More brackets would be open than the limit allows.
    #[error("TooDeep")]
    TooDeep,
    /// Memory was refused.
    #[error("Memory")]
    Memory,
    /// The document was read as TOML v1.0.0, and the value is none of that grammar.
    #[error("Profile")]
    Profile,
}
