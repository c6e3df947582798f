//! What the four kinds of strings share: quotation marks, newlines, and the fault where no piece begins.
ghost use Rattle.std.specs.Prelude.{◌≡◌, ◌≤◌, ◌==◌, length};
ghost use Rattle.std.specs.List.{prefix_len};
ghost use Rattle.keep_token.specs.Pieces as pieces;

use crate::bytes::{byte_at, is_ws};
use crate::fault::{LeafFault, What};

/// How many quotation marks, or apostrophes, come first.
pub(crate) fn marks_run(bytes: &[u8], mark: u8) -> usize
    ensures len { result ≡ prefix_len (λ byte. byte == mark) bytes.now }
    ensures within { result ≤ length bytes.now }
{
    bytes.iter().take_while(|byte| **byte == mark).count()
}

/// The length of the `newline` at the start, LF or CR LF, or 0.
pub(crate) fn newline_len(bytes: &[u8]) -> usize
    ensures len { result ≡ pieces.newline_len bytes.now }
    ensures within { result ≤ length bytes.now }
{
    let first = byte_at(bytes, 0);
    if first == b'\n' {
        1
    } else if first == b'\r' && byte_at(bytes, 1) == b'\n' {
        2
    } else {
        0
    }
}

/// How far tabs, spaces and newlines go: `*( wschar / newline )`.
pub(crate) fn blank_len(bytes: &[u8]) -> usize
    ensures len { result ≡ pieces.blank_len bytes.now }
    ensures within { result ≤ length bytes.now }
{
    let mut at = 0;
    while at < bytes.len() {
        if is_ws(bytes[at]) {
            at += 1;
        } else {
            let newline = newline_len(&bytes[at..]);
            if newline == 0 {
                return at;
            }
            at += newline;
        }
    }
    at
}

/// The fault at `at`, where the string can neither continue nor end. Places count from the string's start.
pub(crate) fn fault_at(bytes: &[u8], at: usize) -> LeafFault
    requires { at ≤ length bytes.now }
    ensures { result.at ≤ length bytes.now }
{
    let what = match bytes.get(at) {
        Some(b'\\') => What::Escape,
        Some(_) if newline_len(&bytes[at..]) == 0 => What::Control,
        _ => {
            return LeafFault {
                at: 0,
                what: What::Unclosed,
            };
        }
    };
    LeafFault { at, what }
}

/// The fault at the start of the bytes, where none of what may come there begins: a control comes before all else.
pub(crate) fn fault_here(bytes: &[u8], what: What) -> LeafFault
    ensures { result.at ≡ 0 }
{
    let what = if is_control(bytes) {
        What::Control
    } else {
        what
    };
    LeafFault { at: 0, what }
}

// Whether a control character comes first, or a carriage return without a line feed.
fn is_control(bytes: &[u8]) -> bool {
    match bytes.first() {
        Some(b'\t' | b'\n') => false,
        Some(b'\r') => newline_len(bytes) == 0,
        Some(byte) => *byte < 0x20 || *byte == 0x7F,
        None => false,
    }
}
