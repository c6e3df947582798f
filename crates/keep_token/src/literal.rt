//! Literal strings.
ghost use Rattle.std.specs.Prelude.{◌≡◌, ◌<◌, ◌≤◌, length, Some, None, IfErr, IfOk, IfSome, MatchResult};
ghost use Rattle.keep_token.specs.PieceLens.{piece_len};
ghost use Rattle.keep_token.specs.Pieces as pieces;

use crate::blocks::run_in_blocks;
use crate::bytes::{byte_at, is_literal, literal_run};
use crate::fault::LeafFault;
use crate::strings::{fault_at, marks_run, newline_len};

/// The length of the literal string that begins the bytes, with both apostrophes.
///
/// TOML v1.0.0, ABNF: `literal-string`.
///
/// # Errors
///
/// The first fault from left to right, its place counted from the first apostrophe.
pub(crate) fn literal_len(bytes: &[u8]) -> Result<usize, LeafFault>
    requires { 0 < length bytes.now }
    ensures found { MatchResult result
        (λ len. pieces.literal_at bytes.now ≡ Some len)
        (λ fault. pieces.literal_at bytes.now ≡ None) }
    ensures within { IfOk result (λ len. len ≤ length bytes.now) }
    ensures place { IfErr result (λ fault. fault.at ≤ length bytes.now) }
{
    let at = 1 + literal_run(&bytes[1..]);
    if byte_at(bytes, at) == b'\'' {
        Ok(at + 1)
    } else {
        Err(fault_at(bytes, at))
    }
}

/// The length of the multi-line literal string that begins the bytes, with all its apostrophes.
///
/// TOML v1.0.0, ABNF: `ml-literal-string`.
///
/// # Errors
///
/// The first fault from left to right, its place counted from the first apostrophe.
pub(crate) fn ml_literal_len(bytes: &[u8]) -> Result<usize, LeafFault>
    requires { 3 ≤ length bytes.now }
    ensures found { MatchResult result
        (λ len. pieces.ml_literal_at bytes.now ≡ Some len)
        (λ fault. pieces.ml_literal_at bytes.now ≡ None) }
    ensures within { IfOk result (λ len. len ≤ length bytes.now) }
    ensures place { IfErr result (λ fault. fault.at ≤ length bytes.now) }
{
    let mut at = 3;
    loop {
        at += run_in_blocks(&bytes[at..], b'\n', b'\'', b'\'');
        let marks = marks_run(&bytes[at..], b'\'');
        if marks >= 3 {
            return Ok(at + marks.min(5));
        }
        match ml_piece_len(&bytes[at..]) {
            Some(len) => at += len,
            None => return Err(fault_at(bytes, at)),
        }
    }
}

/// The length of the piece that begins the bytes: a newline or one byte.
///
/// TOML v1.0.0, ABNF: `mll-content`.
fn ml_piece_len(bytes: &[u8]) -> Option<usize>
    ensures len { result ≡ piece_len (pieces.ml_literal_piece bytes.now) }
    ensures within { IfSome result (λ len. (0 < len) × (len ≤ length bytes.now)) }
{
    let first = byte_at(bytes, 0);
    if is_literal(first) || first == b'\'' {
        return Some(1);
    }
    match newline_len(bytes) {
        0 => None,
        newline => Some(newline),
    }
}
