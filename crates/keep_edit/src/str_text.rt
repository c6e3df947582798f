//! What the strings of a document mean. (TOML v1.0.0, "String")
ghost use Rattle.std.specs.Prelude.{◌≡◌, IfOk, IsTrue, string_bytes};
ghost use Rattle.keep_types.specs.declared.leaf.Profile.TheVariants.{Wide};
ghost use Rattle.keep_token.specs.Leaves.{IsLeaf};
ghost use Rattle.keep_meaning.specs.Meaning.{string_value};
ghost use Rattle.keep_edit.specs.StrTexts.{is_quoted, text_of_str};

use keep_token::{Leaf, decode_string};
use std::alloc::{AllocError, Global};

/// What a string means: as it is written in the document, or a copy in which its escapes are replaced.
#[derive(Drop)]
pub enum StrText<'d> {
    /// The bytes of the document, without quotation marks.
    Plain(&'d str),
    /// A copy.
    Decoded(String),
}

impl StrText<'_> {
    /// The text.
    pub fn as_str(&self) -> &str
        ensures { result.now ≡ text_of_str self.now }
    {
        match self {
            StrText::Plain(text) => text,
            StrText::Decoded(text) => text.as_str(),
        }
    }

    /// The text as a string of its own. The only error is out of memory.
    pub fn into_string(self, alloc: Global) -> Result<String, AllocError>
        ensures { IfOk result (λ text. string_bytes text ≡ text_of_str self.entry) }
    {
        match self {
            StrText::Plain(text) => String::from_str(alloc, text),
            StrText::Decoded(text) => Ok(text),
        }
    }
}

/// What a string that is spelled so means. It takes memory only where there are escapes or several lines, and running
/// out of it is the only error.
pub(crate) fn str_text<'d>(
    alloc: Global,
    leaf: Leaf,
    spelled: &'d str,
) -> Result<StrText<'d>, AllocError>
    requires kind { IsTrue (is_quoted leaf) }
    requires leaf { IsLeaf Wide leaf spelled.now }
    ensures { IfOk result (λ text. text_of_str text ≡ string_value leaf spelled.now) }
{
    match leaf {
        Leaf::Basic if !spelled.as_bytes().contains(&b'\\') => {
            Ok(StrText::Plain(&spelled[1..spelled.len() - 1]))
        }
        Leaf::Literal => Ok(StrText::Plain(&spelled[1..spelled.len() - 1])),
        _ => Ok(StrText::Decoded(decode_string(alloc, leaf, spelled)?)),
    }
}
