use thiserror::Error;

/// What is wrong where a leaf has to come.
#[derive(Clone, Copy, Debug, PartialEq, Eq)]
pub enum What {
    /// A key part has to come here, and none begins.
    KeyPart,
    /// A backslash begins no escape.
    Escape,
    /// A control character, or a carriage return without a line feed.
    Control,
    /// A string has no end.
    Unclosed,
    /// A word that begins as an integer is none.
    Integer,
    /// A word that begins as a float is none.
    Float,
    /// A word that begins as a date or a time is none.
    DateTime,
    /// A word that is no value.
    Word,
    /// What is here fits no rule.
    Structure,
}

/// The first fault, and its place in bytes from the start of the text.
#[derive(Clone, Copy, Debug, PartialEq, Eq, Error)]
#[error("syntax at {at}: {what:?}")]
pub struct LeafFault {
    pub at: usize,
    pub what: What,
}
