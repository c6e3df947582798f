//! The table of subcommands: what `clap` is given, what the words ask for, and what help shows. By `rows` of `words.rt`
//! it is the list of the definitions (`specs/Table`).
use crate::help;
use crate::help::Help;

/// What a subcommand asks.
#[derive(Clone, Copy)]
pub enum Ask {
    Check,
    CheckWide,
    List,
    Get,
    Text,
    Edit(Op),
    Apply,
    ApplyWide,
}

/// The operation of an edit. A script names it as its subcommand is named.
#[derive(Clone, Copy)]
pub enum Op {
    Set,
    Insert,
    Rename,
    Remove,
    Table,
    Element,
}

/// What a word of a subcommand is.
#[derive(Clone, Copy)]
pub enum Word {
    /// A path's text.
    Path,
    /// A value's text.
    Value,
    /// A key, as plain text.
    Key,
    /// The text of a path without an index.
    Keys,
    /// A script's text.
    Script,
    /// A script's text, with values of the wide profile.
    WideScript,
}

/// A row: the subcommand's name, what it asks, what its words are in their order, and what help says of it. A
/// subcommand has at most two words. (A struct with references has no name in definitions, so this is a tuple.)
pub type Subcommand = (&'static str, Ask, &'static [Word], Help);

/// All subcommands.
pub static SUBCOMMANDS: [Subcommand; 13] = [
    ("check", Ask::Check, &[], help::CHECK),
    ("check-wide", Ask::CheckWide, &[], help::CHECK_WIDE),
    ("list", Ask::List, &[], help::LIST),
    ("get", Ask::Get, &[Word::Path], help::GET),
    ("text", Ask::Text, &[Word::Path], help::TEXT),
    (
        "set",
        Ask::Edit(Op::Set),
        &[Word::Path, Word::Value],
        help::SET,
    ),
    (
        "insert",
        Ask::Edit(Op::Insert),
        &[Word::Path, Word::Value],
        help::INSERT,
    ),
    (
        "rename",
        Ask::Edit(Op::Rename),
        &[Word::Path, Word::Key],
        help::RENAME,
    ),
    ("remove", Ask::Edit(Op::Remove), &[Word::Path], help::REMOVE),
    ("table", Ask::Edit(Op::Table), &[Word::Keys], help::TABLE),
    (
        "element",
        Ask::Edit(Op::Element),
        &[Word::Keys],
        help::ELEMENT,
    ),
    ("apply", Ask::Apply, &[Word::Script], help::APPLY),
    (
        "apply-wide",
        Ask::ApplyWide,
        &[Word::WideScript],
        help::APPLY_WIDE,
    ),
];
