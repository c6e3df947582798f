//! Single bytes of a text.
ghost use Rattle.std.specs.Prelude.{◌≡◌, ◌+◌, ◌-◌, ◌<◌, ◌≤◌, length, slice_index, IsCharBoundary};
ghost use Rattle.keep_syntax.specs.Growth as spec;

use crate::fault::ReadFault;
use keep_syntax_store::Parts;
use keep_token::{Leaf, What};

/// The byte at a place, or 0 past the end.
pub fn byte_at(text: &str, at: usize) -> u8
    ensures { result ≡ slice_index text.now at }
{
    match text.as_bytes().get(at) {
        Some(byte) => *byte,
        None => 0,
    }
}

/// Stores a token of `len` bytes, the last of them an ASCII one, and returns where it ends.
#[inline(always)]
pub fn punctuation(
    text: &str,
    at: usize,
    len: usize,
    leaf: Leaf,
    out: &mut Parts,
) -> Result<usize, ReadFault>
    requires bound { IsCharBoundary text.now at }
    requires some { 0 < len }
    requires within { at + len ≤ length text.now }
    requires ascii { slice_index text.now (at + len - 1) < 128 }
    ensures { spec.PunctuationRead text.now at len leaf (spec.flat out.old) (spec.flat out.new) result }
{
    out.push_token(leaf, at)?;
    Ok(at + len)
}

// a control character of the standard, but for a carriage return
fn is_control(byte: u8) -> bool {
    byte <= 0x08 || byte == 0x0B || byte == 0x0C || (0x0E <= byte && byte <= 0x1F) || byte == 0x7F
}

/// The fault of a text that fits no rule of the grammar from the byte `at` on.
pub fn syntax_fault_at(text: &str, at: usize) -> ReadFault
    ensures { spec.IsSyntax result }
{
    let byte = byte_at(text, at);
    let lone = byte == b'\r' && byte_at(text, at.saturating_add(1)) != b'\n';
    let what = if at < text.len() && (lone || is_control(byte)) {
        What::Control
    } else {
        What::Structure
    };
    ReadFault::Syntax { at, what }
}
