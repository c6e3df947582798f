//! What a backslash begins.
ghost use Rattle.std.specs.Prelude.{◌≡◌, ◌+◌, ◌<◌, ◌≤◌, true, false, length, IfSome, MatchOption};
ghost use Rattle.std.specs.List.{list_all};
ghost use Rattle.std.specs.Char.{is_digit};
ghost use Rattle.keep_token.specs.Numbers as numbers;
ghost use Rattle.keep_token.specs.Pieces as pieces;
ghost use Rattle.keep_token.specs.PieceLens.{IsEscape, piece_len};
ghost use Rattle.keep_token.specs.Strings as strings;

use crate::bytes::ws_run;
use crate::strings::{blank_len, newline_len};
use keep_types::Profile;

/// An escape of a basic string.
#[derive(Clone, Copy)]
pub(crate) struct Escape {
    /// Its length in bytes, with the backslash.
    pub(crate) len: usize,
    /// The character that it stands for.
    pub(crate) value: char,
}

/// What a letter stands for after a backslash. `\e` is Wide's own.
///
/// TOML v1.0.0, ABNF: `escape-seq-char`.
fn letter_value(letter: u8, profile: Profile) -> Option<char>
    ensures { MatchOption result
        (strings.letter_value profile letter ≡ 0)
        (λ value. (0 < value) × (value < 0x80) × (strings.letter_value profile letter ≡ value)) }
{
    match letter {
        b'"' => Some('"'),
        b'\\' => Some('\\'),
        b'b' => Some('\u{8}'),
        b'f' => Some('\u{C}'),
        b'n' => Some('\n'),
        b'r' => Some('\r'),
        b't' => Some('\t'),
        b'e' if profile == Profile::Wide => Some('\u{1B}'),
        _ => None,
    }
}

/// How many digits a letter asks for after a backslash, or 0. `\x` is Wide's own.
fn digit_count(letter: u8, profile: Profile) -> usize
    ensures count { result ≡ strings.digit_count profile letter }
    ensures most { result ≤ 8 }
{
    match letter {
        b'u' => 4,
        b'U' => 8,
        b'x' if profile == Profile::Wide => 2,
        _ => 0,
    }
}

/// The number that at most eight hexadecimal digits write.
fn hex_value(digits: &[u8]) -> Option<u32>
    requires { length digits.now ≤ 8 }
    ensures { MatchOption result
        (list_all (λ c. is_digit c 16) digits.now ≡ false)
        (λ value. (list_all (λ c. is_digit c 16) digits.now ≡ true) × (value ≡ numbers.sum_of_digits 16 digits.now)) }
{
    let mut value: u32 = 0;
    for digit in digits {
        value = value * 16 + char::from(*digit).to_digit(16)?;
    }
    Some(value)
}

/// The escape whose backslash comes before the bytes: its letter is known, and its digits write a Unicode scalar value.
///
/// TOML v1.0.0, ABNF: `escaped`.
pub(crate) fn read_escape(bytes: &[u8], profile: Profile) -> Option<Escape>
    ensures escape { IsEscape result (pieces.escape_at profile bytes.now) }
    ensures within { IfSome result (λ e. (0 < e.len) × (e.len ≤ 1 + length bytes.now)) }
{
    let (letter, after) = bytes.split_first()?;
    if let Some(value) = letter_value(*letter, profile) {
        return Some(Escape { len: 2, value });
    }
    let count = digit_count(*letter, profile);
    if count == 0 {
        return None;
    }
    let digits = after.get(..count)?;
    let value = char::from_u32(hex_value(digits)?)?;
    Some(Escape {
        len: 2 + count,
        value,
    })
}

/// The length of the line-ending backslash that comes before the bytes, with all tabs, spaces and newlines that it
/// takes.
///
/// TOML v1.0.0, ABNF: `mlb-escaped-nl`.
pub(crate) fn line_end_len(bytes: &[u8]) -> Option<usize>
    ensures len { result ≡ piece_len (pieces.line_end_at bytes.now) }
    ensures within { IfSome result (λ len. (0 < len) × (len ≤ 1 + length bytes.now)) }
{
    let white = ws_run(bytes);
    let newline = newline_len(&bytes[white..]);
    if newline == 0 {
        return None;
    }
    let ended = white + newline;
    Some(1 + ended + blank_len(&bytes[ended..]))
}
