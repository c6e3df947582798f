//! Words: scalars without quotation marks.
ghost use Rattle.std.specs.Prelude.{◌≡◌, ◌≤◌, length};
ghost use Rattle.std.specs.Char.{is_ascii_digit};
ghost use Rattle.keep_token.specs.Leaves as leaves;
ghost use Rattle.keep_token.specs.Words as words;

use crate::bytes::{are_digits, byte_at, is_e, is_sign, word_run};
use crate::dates::{has_date_shape, is_date, is_date_time, is_offset_date_time, is_time};
use crate::fault::What;
use crate::numbers::{is_boolean, is_float, is_integer};
use keep_types::{Leaf, Profile};

/// How many bytes the word at the start has. A space between a date and a time is a byte of it.
pub(crate) fn word_len(bytes: &[u8]) -> usize
    ensures len { result ≡ leaves.word_len bytes.now }
    ensures within { result ≤ length bytes.now }
{
    let run = word_run(bytes);
    let after = &bytes[run..];
    if has_date_shape(&bytes[..run])
        && byte_at(after, 0) == b' '
        && byte_at(after, 1).is_ascii_digit()
    {
        run + 1 + word_run(&after[1..])
    } else {
        run
    }
}

/// The kind of a word, or `None` where it is of no kind.
#[tactic(auto, unfolding(crate::specs::Words::word_leaf))]
pub(crate) fn word_leaf(bytes: &[u8], profile: Profile) -> Option<Leaf>
    ensures { result ≡ words.word_leaf profile bytes.now }
{
    if is_boolean(bytes) {
        Some(Leaf::Boolean)
    } else if is_integer(bytes) {
        Some(Leaf::Integer)
    } else if is_float(bytes) {
        Some(Leaf::Float)
    } else if is_date(bytes) {
        Some(Leaf::LocalDate)
    } else if is_time(bytes, profile) {
        Some(Leaf::LocalTime)
    } else if is_date_time(bytes, profile) {
        Some(Leaf::LocalDateTime)
    } else if is_offset_date_time(bytes, profile) {
        Some(Leaf::OffsetDateTime)
    } else {
        None
    }
}

/// What a word that is of no kind looks like.
pub(crate) fn word_fault(bytes: &[u8]) -> What {
    match bytes {
        [a, b, c, d, b'-', ..] if are_digits(&[*a, *b, *c, *d]) => What::DateTime,
        [a, b, b':', ..] if are_digits(&[*a, *b]) => What::DateTime,
        [sign, digit, ..] if is_sign(*sign) && digit.is_ascii_digit() => number_fault(bytes),
        [digit, ..] if digit.is_ascii_digit() => number_fault(bytes),
        _ => What::Word,
    }
}

/// What a word looks like that is of no kind, and begins with a digit or a sign and a digit.
fn number_fault(bytes: &[u8]) -> What {
    match bytes {
        [b'0', b'x' | b'o' | b'b', ..] => What::Integer,
        bytes if bytes.iter().any(|byte| *byte == b'.' || is_e(*byte)) => What::Float,
        _ => What::Integer,
    }
}
