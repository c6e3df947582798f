//! Classes of bytes, and runs of them.
ghost use Rattle.std.specs.Prelude.{◌≡◌, ◌≤◌, length, slice_index};
ghost use Rattle.std.specs.List.{list_all, prefix_len};
ghost use Rattle.std.specs.Char.{is_ascii_digit};
ghost use Rattle.keep_token.specs.Abnf as abnf;
ghost use Rattle.keep_token.specs.Numbers as numbers;
ghost use Rattle.keep_token.specs.Strings as strings;
ghost use Rattle.keep_token.specs.Words as words;

use crate::blocks::{run_by_blocks, ws_by_blocks};

const COMMENT: u8 = 1;

const BARE: u8 = 2;

const WORD: u8 = 4;

const BASIC: u8 = 8;

const LITERAL: u8 = 16;

/// The classes that each byte is of: the sum of `COMMENT`, `BARE`, `WORD`, `BASIC` and `LITERAL`.
#[rattlefmt::skip]
static CLASSES: [u8; 256] = [
     0,  0,  0,  0,  0,  0,  0,  0,  0, 25,  0,  0,  0,  0,  0,  0,
     0,  0,  0,  0,  0,  0,  0,  0,  0,  0,  0,  0,  0,  0,  0,  0,
    25, 25, 17, 25, 25, 25, 25,  9, 25, 25, 25, 29, 25, 31, 29, 25,
    31, 31, 31, 31, 31, 31, 31, 31, 31, 31, 29, 25, 25, 25, 25, 25,
    25, 31, 31, 31, 31, 31, 31, 31, 31, 31, 31, 31, 31, 31, 31, 31,
    31, 31, 31, 31, 31, 31, 31, 31, 31, 31, 31, 25, 17, 25, 25, 31,
    25, 31, 31, 31, 31, 31, 31, 31, 31, 31, 31, 31, 31, 31, 31, 31,
    31, 31, 31, 31, 31, 31, 31, 31, 31, 31, 31, 25, 25, 25, 25,  0,
    25, 25, 25, 25, 25, 25, 25, 25, 25, 25, 25, 25, 25, 25, 25, 25,
    25, 25, 25, 25, 25, 25, 25, 25, 25, 25, 25, 25, 25, 25, 25, 25,
    25, 25, 25, 25, 25, 25, 25, 25, 25, 25, 25, 25, 25, 25, 25, 25,
    25, 25, 25, 25, 25, 25, 25, 25, 25, 25, 25, 25, 25, 25, 25, 25,
    25, 25, 25, 25, 25, 25, 25, 25, 25, 25, 25, 25, 25, 25, 25, 25,
    25, 25, 25, 25, 25, 25, 25, 25, 25, 25, 25, 25, 25, 25, 25, 25,
    25, 25, 25, 25, 25, 25, 25, 25, 25, 25, 25, 25, 25, 25, 25, 25,
    25, 25, 25, 25, 25, 25, 25, 25, 25, 25, 25, 25, 25, 25, 25, 25,
];

/// The byte at `index`, or 0 past the end.
pub(crate) fn byte_at(bytes: &[u8], index: usize) -> u8
    ensures { result ≡ slice_index bytes.now index }
{
    match bytes.get(index) {
        Some(byte) => *byte,
        None => 0,
    }
}

/// `wschar`
pub(crate) fn is_ws(byte: u8) -> bool
    ensures { result ≡ abnf.is_ws byte }
{
    byte == b' ' || byte == b'\t'
}

/// A byte of a comment: a tab, or no control character.
pub(crate) fn is_comment(byte: u8) -> bool
    ensures { result ≡ abnf.is_comment byte }
{
    CLASSES[usize::from(byte)] & COMMENT != 0
}

/// A byte of `unquoted-key`.
pub(crate) fn is_bare(byte: u8) -> bool
    ensures { result ≡ abnf.is_bare byte }
{
    CLASSES[usize::from(byte)] & BARE != 0
}

/// A byte of a number, a date, a time or a truth value.
pub(crate) fn is_word(byte: u8) -> bool
    ensures { result ≡ abnf.is_word byte }
{
    CLASSES[usize::from(byte)] & WORD != 0
}

/// `basic-unescaped`
pub(crate) fn is_basic(byte: u8) -> bool
    ensures { result ≡ strings.is_basic byte }
{
    CLASSES[usize::from(byte)] & BASIC != 0
}

/// `literal-char`
pub(crate) fn is_literal(byte: u8) -> bool
    ensures { result ≡ strings.is_literal byte }
{
    CLASSES[usize::from(byte)] & LITERAL != 0
}

/// `minus` or `plus`
pub(crate) fn is_sign(byte: u8) -> bool
    ensures { result ≡ numbers.is_sign byte }
{
    byte == b'+' || byte == b'-'
}

/// The letter of an exponent.
pub(crate) fn is_e(byte: u8) -> bool
    ensures { result ≡ words.is_e byte }
{
    byte == b'e' || byte == b'E'
}

/// Whether each byte is a digit.
pub(crate) fn are_digits(bytes: &[u8]) -> bool
    ensures { result ≡ list_all is_ascii_digit bytes.now }
{
    bytes.iter().all(|byte| byte.is_ascii_digit())
}

/// How many bytes of white space come first, byte by byte.
#[inline(never)]
fn ws_tail(bytes: &[u8]) -> usize
    ensures len { result ≡ prefix_len abnf.is_ws bytes.now }
    ensures within { result ≤ length bytes.now }
{
    bytes.iter().take_while(|byte| is_ws(**byte)).count()
}

/// How many bytes of white space come first.
pub(crate) fn ws_run(bytes: &[u8]) -> usize
    ensures len { result ≡ prefix_len abnf.is_ws bytes.now }
    ensures within { result ≤ length bytes.now }
{
    match ws_by_blocks(bytes) {
        Ok(len) => len,
        Err(at) => at + ws_tail(&bytes[at..]),
    }
}

/// How many bytes of a comment come first.
pub(crate) fn comment_run(bytes: &[u8]) -> usize
    ensures len { result ≡ prefix_len abnf.is_comment bytes.now }
    ensures within { result ≤ length bytes.now }
{
    bytes.iter().take_while(|byte| is_comment(**byte)).count()
}

/// How many bytes of a bare key come first.
pub(crate) fn bare_run(bytes: &[u8]) -> usize
    ensures len { result ≡ prefix_len abnf.is_bare bytes.now }
    ensures within { result ≤ length bytes.now }
{
    bytes.iter().take_while(|byte| is_bare(**byte)).count()
}

/// How many bytes of a word come first.
pub(crate) fn word_run(bytes: &[u8]) -> usize
    ensures len { result ≡ prefix_len abnf.is_word bytes.now }
    ensures within { result ≤ length bytes.now }
{
    bytes.iter().take_while(|byte| is_word(**byte)).count()
}

/// How many bytes at the start stand for themselves in a basic string, byte by byte.
fn basic_tail(bytes: &[u8]) -> usize
    ensures len { result ≡ prefix_len strings.is_basic bytes.now }
    ensures within { result ≤ length bytes.now }
{
    bytes.iter().take_while(|byte| is_basic(**byte)).count()
}

/// How many bytes at the start stand for themselves in a basic string.
pub(crate) fn basic_run(bytes: &[u8]) -> usize
    ensures len { result ≡ prefix_len strings.is_basic bytes.now }
    ensures within { result ≤ length bytes.now }
{
    match run_by_blocks(bytes, b'\t', b'"', b'\\') {
        Ok(len) => len,
        Err(at) => at + basic_tail(&bytes[at..]),
    }
}

/// How many bytes at the start stand for themselves in a literal string, byte by byte.
fn literal_tail(bytes: &[u8]) -> usize
    ensures len { result ≡ prefix_len strings.is_literal bytes.now }
    ensures within { result ≤ length bytes.now }
{
    bytes.iter().take_while(|byte| is_literal(**byte)).count()
}

/// How many bytes at the start stand for themselves in a literal string.
pub(crate) fn literal_run(bytes: &[u8]) -> usize
    ensures len { result ≡ prefix_len strings.is_literal bytes.now }
    ensures within { result ≤ length bytes.now }
{
    match run_by_blocks(bytes, b'\t', b'\'', b'\'') {
        Ok(len) => len,
        Err(at) => at + literal_tail(&bytes[at..]),
    }
}
