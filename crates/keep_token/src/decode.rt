//! What string leaves mean.
ghost use Rattle.std.specs.Prelude.{◌≡◌, ◌==◌, ◌≤◌, not, length, IfOk, IsTrue};
ghost use Rattle.std.specs.List.{prefix_len};
ghost use Rattle.std.specs.String.{string_bytes};
ghost use Rattle.keep_token.specs.Decoding.{GivesBody, IsBody};
ghost use Rattle.keep_token.specs.Leaves.{IsLeaf, Means, is_string_leaf};
ghost use Rattle.keep_token.specs.Strings as strings;
ghost use Rattle.keep_types.specs.declared.leaf.Leaf.TheVariants as kind;
ghost use Rattle.keep_types.specs.declared.leaf.Profile.TheVariants.{Wide};

use crate::escape::{line_end_len, read_escape};
use crate::strings::newline_len;
use keep_types::{Leaf, Profile};
use std::alloc::{AllocError, Global};

/// What a string leaf or a key part means: its text without the quotation marks, with each escape replaced by its
/// character.
///
/// TOML v1.0.0, "String". It allocates once, at most as many bytes as the text has.
///
/// # Errors
///
/// Out of memory.
pub fn decode_string(alloc: Global, leaf: Leaf, text: &str) -> Result<String, AllocError>
    requires kind { IsTrue (is_string_leaf leaf) }
    requires leaf { IsLeaf Wide leaf text.now }
    ensures { IfOk result (λ s. Means Wide leaf text.now (string_bytes s)) }
{
    match leaf {
        Leaf::BareKey => String::from_str(alloc, text),
        Leaf::Basic => decode_basic(alloc, text),
        Leaf::Literal => decode_literal(alloc, text),
        Leaf::MlBasic => decode_ml_basic(alloc, text),
        Leaf::MlLiteral => decode_ml_literal(alloc, text),
        _ => unreachable!(),
    }
}

fn decode_basic(alloc: Global, text: &str) -> Result<String, AllocError>
    requires { strings.Basic Wide text.now }
    ensures { IfOk result (λ s. Means Wide kind.Basic text.now (string_bytes s)) }
{
    unescape(alloc, &text[1..text.len() - 1])
}

fn decode_literal(alloc: Global, text: &str) -> Result<String, AllocError>
    requires { strings.Literal text.now }
    ensures { IfOk result (λ s. Means Wide kind.Literal text.now (string_bytes s)) }
{
    String::from_str(alloc, &text[1..text.len() - 1])
}

fn decode_ml_basic(alloc: Global, text: &str) -> Result<String, AllocError>
    requires { strings.MlBasic Wide text.now }
    ensures { IfOk result (λ s. Means Wide kind.MlBasic text.now (string_bytes s)) }
{
    let start = 3 + newline_len(&text.as_bytes()[3..]);
    unescape(alloc, &text[start..text.len() - 3])
}

fn decode_ml_literal(alloc: Global, text: &str) -> Result<String, AllocError>
    requires { strings.MlLiteral text.now }
    ensures { IfOk result (λ s. Means Wide kind.MlLiteral text.now (string_bytes s)) }
{
    let start = 3 + newline_len(&text.as_bytes()[3..]);
    String::from_str(alloc, &text[start..text.len() - 3])
}

/// How many bytes come before the first backslash.
fn plain_run(bytes: &[u8]) -> usize
    ensures len { result ≡ prefix_len (λ byte. not (byte == 0x5C)) bytes.now }
    ensures within { result ≤ length bytes.now }
{
    bytes.iter().take_while(|byte| **byte != b'\\').count()
}

/// What a basic string means by its body: each escape is replaced, and each line-ending backslash left out.
fn unescape(alloc: Global, body: &str) -> Result<String, AllocError>
    requires { IsBody body.now }
    ensures { IfOk result (λ s. GivesBody body.now (string_bytes s)) }
{
    let bytes = body.as_bytes();
    let mut value = String::with_capacity(alloc, body.len())?;
    let mut at = 0;
    loop {
        let stop = at + plain_run(&bytes[at..]);
        value.push_str(&body[at..stop])?;
        if stop == body.len() {
            return Ok(value);
        }
        let after = &bytes[stop + 1..];
        if let Some(escape) = read_escape(after, Profile::Wide) {
            value.push(escape.value)?;
            at = stop + escape.len;
        } else if let Some(len) = line_end_len(after) {
            at = stop + len;
        } else {
            unreachable!()
        }
    }
}
