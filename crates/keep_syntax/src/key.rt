//! Keys. (TOML v1.0.0, "Keys"; toml.abnf: `key`, `keyval-sep`)
ghost use Rattle.std.specs.Prelude.{IsCharBoundary};
ghost use Rattle.keep_syntax.specs.Growth as spec;

use crate::fault::ReadFault;
use crate::gap::space;
use crate::text::{byte_at, punctuation, syntax_fault_at};
use keep_syntax_store::Parts;
use keep_token::{Leaf, Profile, scan_key};
use keep_types::{KeyPart, Span};

/// `simple-key`: the key part at the byte `at`, and where it ends.
fn key_part(text: &str, at: usize, profile: Profile, out: &mut Parts) -> Result<usize, ReadFault>
    requires { IsCharBoundary text.now at }
    ensures { spec.KeyPartRead profile text.now at (spec.flat out.old) (spec.flat out.new) result }
{
    let (leaf, end) = scan_key(text, at, profile)?;
    out.push_token(leaf, at)?;
    let span = Span { start: at, end };
    out.push_key(KeyPart { leaf, span })?;
    Ok(end)
}

/// `*( dot-sep simple-key )`: the further parts of a key from the byte `at` on, and the gap after the key; where that
/// ends.
fn dotted_rest(text: &str, at: usize, profile: Profile, out: &mut Parts) -> Result<usize, ReadFault>
    requires { IsCharBoundary text.now at }
    ensures { spec.FurtherRead profile text.now at (spec.flat out.old) (spec.flat out.new) result }
{
    let mut here = at;
    'parts: loop {
        let dot = space(text, here, out)?;
        if byte_at(text, dot) != b'.' {
            return Ok(dot);
        }
        let after = punctuation(text, dot, 1, Leaf::Dot, out)?;
        let begin = space(text, after, out)?;
        here = key_part(text, begin, profile, out)?;
    }
}

/// `key`: the key at the byte `at`, and the gap after it; where that ends.
pub fn key(text: &str, at: usize, profile: Profile, out: &mut Parts) -> Result<usize, ReadFault>
    requires { IsCharBoundary text.now at }
    ensures { spec.KeyRead profile text.now at (spec.flat out.old) (spec.flat out.new) result }
{
    let end = key_part(text, at, profile, out)?;
    dotted_rest(text, end, profile, out)
}

/// `key keyval-sep`: the key at the byte `at`, the equals sign and the gaps round it; where the value begins.
pub fn key_and_equals(
    text: &str,
    at: usize,
    profile: Profile,
    out: &mut Parts,
) -> Result<usize, ReadFault>
    requires { IsCharBoundary text.now at }
    ensures { spec.NameRead profile text.now at (spec.flat out.old) (spec.flat out.new) result }
{
    let equals = key(text, at, profile, out)?;
    if byte_at(text, equals) != b'=' {
        return Err(syntax_fault_at(text, equals));
    }
    let after = punctuation(text, equals, 1, Leaf::Equals, out)?;
    space(text, after, out)
}
