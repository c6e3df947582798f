//! Basic strings.
ghost use Rattle.std.specs.Prelude.{◌≡◌, ◌<◌, ◌≤◌, length, Some, None, IfErr, IfOk, IfSome, MatchResult};
ghost use Rattle.keep_token.specs.PieceLens.{piece_len};
ghost use Rattle.keep_token.specs.Pieces as pieces;

use crate::blocks::run_in_blocks;
use crate::bytes::{basic_run, byte_at, is_basic};
use crate::escape::{line_end_len, read_escape};
use crate::fault::LeafFault;
use crate::strings::{fault_at, marks_run, newline_len};
use keep_types::Profile;

/// The length of the basic string that begins the bytes, with both quotation marks.
///
/// TOML v1.0.0, ABNF: `basic-string`.
///
/// # Errors
///
/// The first fault from left to right, its place counted from the first quotation mark.
pub(crate) fn basic_len(bytes: &[u8], profile: Profile) -> Result<usize, LeafFault>
    requires { 0 < length bytes.now }
    ensures found { MatchResult result
        (λ len. pieces.basic_at profile bytes.now ≡ Some len)
        (λ fault. pieces.basic_at profile bytes.now ≡ None) }
    ensures within { IfOk result (λ len. len ≤ length bytes.now) }
    ensures place { IfErr result (λ fault. fault.at ≤ length bytes.now) }
{
    let mut at = 1;
    loop {
        at += basic_run(&bytes[at..]);
        let stop = byte_at(bytes, at);
        if stop == b'"' {
            return Ok(at + 1);
        }
        if stop != b'\\' {
            return Err(fault_at(bytes, at));
        }
        match read_escape(&bytes[at + 1..], profile) {
            Some(escape) => at += escape.len,
            None => return Err(fault_at(bytes, at)),
        }
    }
}

/// The length of the multi-line basic string that begins the bytes, with all its quotation marks.
///
/// TOML v1.0.0, ABNF: `ml-basic-string`.
///
/// # Errors
///
/// The first fault from left to right, its place counted from the first quotation mark.
pub(crate) fn ml_basic_len(bytes: &[u8], profile: Profile) -> Result<usize, LeafFault>
    requires { 3 ≤ length bytes.now }
    ensures found { MatchResult result
        (λ len. pieces.ml_basic_at profile bytes.now ≡ Some len)
        (λ fault. pieces.ml_basic_at profile bytes.now ≡ None) }
    ensures within { IfOk result (λ len. len ≤ length bytes.now) }
    ensures place { IfErr result (λ fault. fault.at ≤ length bytes.now) }
{
    let mut at = 3;
    loop {
        at += run_in_blocks(&bytes[at..], b'\n', b'"', b'\\');
        let marks = marks_run(&bytes[at..], b'"');
        if marks >= 3 {
            return Ok(at + marks.min(5));
        }
        match ml_piece_len(&bytes[at..], profile) {
            Some(len) => at += len,
            None => return Err(fault_at(bytes, at)),
        }
    }
}

/// The length of the piece that begins the bytes: an escape, a line-ending backslash, a newline or one byte.
///
/// TOML v1.0.0, ABNF: `mlb-content`.
fn ml_piece_len(bytes: &[u8], profile: Profile) -> Option<usize>
    ensures len { result ≡ piece_len (pieces.ml_basic_piece profile bytes.now) }
    ensures within { IfSome result (λ len. (0 < len) × (len ≤ length bytes.now)) }
{
    let first = byte_at(bytes, 0);
    if first == b'\\' {
        let after = &bytes[1..];
        return match read_escape(after, profile) {
            Some(escape) => Some(escape.len),
            None => line_end_len(after),
        };
    }
    if is_basic(first) || first == b'"' {
        return Some(1);
    }
    match newline_len(bytes) {
        0 => None,
        newline => Some(newline),
    }
}
