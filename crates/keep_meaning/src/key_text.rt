//! The decoded texts of key parts.
ghost use Rattle.std.specs.Prelude.{◌≡◌, IfOk, IsTrue};
ghost use Rattle.keep_types.specs.declared.leaf.Profile.TheVariants.{Wide};
ghost use Rattle.keep_token.specs.Leaves.{IsLeaf, is_key_leaf};
ghost use Rattle.keep_meaning.specs.KeyText.{IsKeyAt, part_text, text_of_key};
ghost use Rattle.keep_meaning.specs.Meaning.{string_value};

use keep_syntax::KeyPart;
use keep_token::{Leaf, decode_string};
use std::alloc::{AllocError, Global};

/// The decoded text of a key part: as it is written in the document, or a copy with its escapes replaced.
#[derive(Drop)]
pub enum KeyText<'a> {
    /// The bytes of the document, without quotation marks.
    Plain(&'a str),
    /// A copy.
    Decoded(String),
}

impl KeyText<'_> {
    /// The decoded text.
    pub fn as_str(&self) -> &str
        ensures { result.now ≡ text_of_key self.now }
    {
        match self {
            KeyText::Plain(text) => text,
            KeyText::Decoded(text) => text.as_str(),
        }
    }
}

/// The decoded text of a key part of the document. It takes memory only where the part has escapes, and running out of
/// it is the only error.
#[inline(always)]
pub fn key_text<'a>(alloc: Global, text: &'a str, part: KeyPart) -> Result<KeyText<'a>, AllocError>
    requires { IsKeyAt text.now part }
    ensures { IfOk result (λ key. text_of_key key ≡ part_text text.now part) }
{
    decoded_key(alloc, part.leaf, &text[part.span.start..part.span.end])
}

/// The decoded text of a key part that is spelled so.
#[inline(always)]
fn decoded_key<'a>(alloc: Global, leaf: Leaf, spelled: &'a str) -> Result<KeyText<'a>, AllocError>
    requires kind { IsTrue (is_key_leaf leaf) }
    requires leaf { IsLeaf Wide leaf spelled.now }
    ensures { IfOk result (λ key. text_of_key key ≡ string_value leaf spelled.now) }
{
    match leaf {
        Leaf::BareKey => Ok(KeyText::Plain(spelled)),
        Leaf::Basic if spelled.as_bytes().contains(&b'\\') => {
            Ok(KeyText::Decoded(decode_string(alloc, leaf, spelled)?))
        }
        _ => Ok(KeyText::Plain(&spelled[1..spelled.len() - 1])),
    }
}
