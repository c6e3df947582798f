//! What is known of a text: spans, statements, key parts, values, and where entries begin.
use crate::leaf::Leaf;

/// The bytes `start..end` of the text.
#[derive(Clone, Copy, Debug, PartialEq, Eq)]
pub struct Span {
    pub start: usize,
    pub end: usize,
}

#[derive(Clone, Copy, Debug, PartialEq, Eq)]
pub enum StatementKind {
    /// `keyval`.
    KeyVal,
    /// `std-table`: the header of a table.
    Header,
    /// `array-table`: the header of an element of an array of tables.
    Element,
}

/// A keyval or a header.
#[derive(Clone, Copy, Debug, PartialEq, Eq)]
pub struct Statement {
    pub kind: StatementKind,
    /// The keyval or the header.
    pub span: Span,
    /// From the start of its line, after a byte order mark, past its newline if it has one, over all lines of its
    /// value.
    pub line: Span,
    /// How many key parts come before `span`.
    pub first_key: usize,
    /// How many key parts it has, those inside its value left out.
    pub keys: usize,
    /// The number of a keyval's value.
    pub value: Option<usize>,
}

/// `simple-key`: a part of a key.
#[derive(Clone, Copy, Debug, PartialEq, Eq)]
pub struct KeyPart {
    pub leaf: Leaf,
    pub span: Span,
}

/// What a value is in.
#[derive(Clone, Copy, Debug, PartialEq, Eq)]
pub enum Owner {
    /// The statement with this number.
    Line(usize),
    /// The inline table of this value number.
    Inline(usize),
    /// The array of this value number.
    Item(usize),
}

/// A scalar, an array or an inline table.
#[derive(Clone, Copy, Debug, PartialEq, Eq)]
pub struct ValueInfo {
    /// An array's is `ArrayOpen`, an inline table's `InlineOpen`.
    pub leaf: Leaf,
    pub span: Span,
    /// The keyval, or for an array's item the value.
    pub whole: Span,
    pub owner: Owner,
    /// How many arrays and inline tables are round it.
    pub depth: u16,
    /// How many key parts come before `whole`.
    pub first_key: usize,
    /// How many key parts its own key has.
    pub keys: usize,
    /// Where the comma before it is, in its array or inline table.
    pub comma_before: Option<usize>,
    /// Where the comma after it is.
    pub comma_after: Option<usize>,
}

/// Where entries begin: the byte, how many values and key parts come before, what they are in, how many arrays
/// and inline tables are round them, and where the comma before them is.
#[derive(Clone, Copy, Debug, PartialEq, Eq)]
pub struct Start {
    pub at: usize,
    pub values: usize,
    pub parts: usize,
    pub owner: Owner,
    pub depth: u16,
    pub comma: Option<usize>,
}
