//! What help shows. No contract speaks of it.

use crate::subcommand::Word;

/// The program's name in help and usage, whatever its file is called.
pub const PROGRAM: &str = "keep-toml";

pub const ABOUT: &str =
    "Reads a TOML v1.0.0 document from standard input, and edits it while every other byte stays.";

pub const AFTER: &str = "Examples:
  keep-toml get package.version < Cargo.toml
  keep-toml set package.version '\"1.2.0\"' < Cargo.toml > new.toml

Exit statuses: 0 done; 1 the document or the edit is refused; 2 the words can't be read;
3 reading or writing failed, or the input is too long; 4 out of memory.";

/// The help of a subcommand: what it does, in a line, and examples.
pub type Help = (&'static str, &'static str);

pub const CHECK: Help = (
    "Tell whether the input is a document, and how large",
    "Example:
  keep-toml check < Cargo.toml                    ok tokens=1024 nodes=96",
);

pub const CHECK_WIDE: Help = (
    "Do the same in the wide profile, which allows more than TOML v1.0.0",
    "The wide profile allows newlines, comments and a last comma in inline tables, the escapes \\e and \\xHH,
and times without seconds.

Example:
  keep-toml check-wide < draft.toml",
);

pub const LIST: Help = (
    "List all paths with their kinds",
    "Example:
  keep-toml list < Cargo.toml | cut -f 1",
);

pub const GET: Help = (
    "Print the value at a path, as it is written",
    "Examples:
  keep-toml get package.version < Cargo.toml      \"1.2.0\"
  keep-toml get 'bin[0].name' < Cargo.toml",
);

pub const TEXT: Help = (
    "Print what the string at a path means, and nothing added",
    "Example:
  version=$(keep-toml text package.version < Cargo.toml)",
);

pub const SET: Help = (
    "Replace the value at a path",
    "Examples:
  keep-toml set package.version '\"1.2.0\"' < Cargo.toml > new.toml
  keep-toml set -- offset -7 < in.toml",
);

pub const INSERT: Help = (
    "Insert a value at a path where nothing is, or before an item of an array",
    "Examples:
  keep-toml insert package.license '\"MIT\"' < Cargo.toml > new.toml
  keep-toml insert 'keywords[0]' '\"toml\"' < Cargo.toml > new.toml",
);

pub const RENAME: Help = (
    "Give the last key of a path another name",
    "Example:
  keep-toml rename dependencies.clap clap4 < Cargo.toml > new.toml",
);

pub const REMOVE: Help = (
    "Remove what is at a path",
    "Examples:
  keep-toml remove dependencies.clap < Cargo.toml > new.toml
  keep-toml remove 'bin[0]' < Cargo.toml > new.toml",
);

pub const TABLE: Help = (
    "Write the header [KEYS] of a new table at the end",
    "Example:
  keep-toml table profile.release < Cargo.toml > new.toml",
);

pub const ELEMENT: Help = (
    "Write the header [[KEYS]] of a new element of an array of tables at the end",
    "Example:
  keep-toml element bin < Cargo.toml > new.toml",
);

pub const APPLY: Help = (
    "Apply the edits of a script in their order, or none of them",
    "A script is a TOML document: [[edit]] for each edit, with its op (set, insert, rename, remove, table
or element), its path and its value or key, all as strings.

Example:
  keep-toml apply '[[edit]]
  op = \"set\"
  path = \"package.version\"
  value = \"\\\"1.2.0\\\"\"' < Cargo.toml > new.toml",
);

pub const APPLY_WIDE: Help = (
    "Do the same in the wide profile, for the document and the script's values",
    "The wide profile is that of check-wide. The script itself is TOML v1.0.0.

Example:
  keep-toml apply-wide \"$(cat edits.toml)\" < draft.toml > new.toml",
);

/// The name of a word in help, and what it is.
pub fn of_word(word: Word) -> Help {
    match word {
        Word::Path => (
            "PATH",
            "Keys as in TOML with dots between them, and [n] for an item: package.version, bin[0].name",
        ),
        Word::Value => (
            "VALUE",
            "A TOML value: 2, '\"text\"', '[1, 2]', '{ x = 1 }'",
        ),
        Word::Keys => (
            "KEYS",
            "Keys as in TOML with dots between them: dependencies, servers.alpha",
        ),
        Word::Script | Word::WideScript => (
            "SCRIPT",
            "The text of a script: [[edit]] with op, path and value or key, for each edit",
        ),
        Word::Key => (
            "KEY",
            "A key as plain text: it is quoted where it has to be",
        ),
    }
}
