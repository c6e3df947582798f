//! Integers, floats and truth values: what is one, and an integer's value.
ghost use Rattle.std.specs.Prelude.{◌≡◌, ◌<◌, ◌≤◌, ◌↔◌, ◌^◌, pos, FitsSigned, SomeIff, IsSome, IfSome, IsTrue, length};
ghost use Rattle.std.specs.Int.{w64};
ghost use Rattle.std.specs.List.{prefix_len};
ghost use Rattle.std.specs.Char.{is_ascii_digit};
ghost use Rattle.keep_token.specs.Numbers as numbers;
ghost use Rattle.keep_token.specs.Words as words;

use crate::blocks::{BLOCK, digits_in_blocks};
use crate::bytes::{are_digits, is_e, is_sign};

/// The number that digits of a base write, with an underscore at most between two of them, where it is below 2^64.
fn digits_value(digits: &[u8], base: u32) -> Option<u64>
    requires low { 2 ≤ base }
    requires high { base ≤ 16 }
    ensures { SomeIff result
        (IsTrue (numbers.is_digits (numbers.is_in_base base) digits.now)
        × (numbers.digits_value base digits.now < 2 ^ 64))
        (numbers.digits_value base digits.now) }
{
    let mut value = 0u64;
    let mut rest = digits;
    loop {
        let (digit, more) = rest.split_first()?;
        let digit = char::from(*digit).to_digit(base)?;
        value = value
            .checked_mul(u64::from(base))?
            .checked_add(u64::from(digit))?;
        rest = match more {
            [] => return Some(value),
            [b'_', digits @ ..] => digits,
            digits => digits,
        };
    }
}

/// `unsigned-dec-int`: no 0 before another digit.
fn unsigned_value(digits: &[u8]) -> Option<u64>
    ensures { SomeIff result
        (IsTrue (numbers.is_unsigned digits.now) × (numbers.digits_value 10 digits.now < 2 ^ 64))
        (numbers.digits_value 10 digits.now) }
{
    match digits {
        [b'0', _, ..] => None,
        digits => digits_value(digits, 10),
    }
}

/// `unsigned-dec-int`, in 64 bits with a sign.
fn positive_value(digits: &[u8]) -> Option<i64>
    ensures { SomeIff result
        (IsTrue (numbers.is_unsigned digits.now) × FitsSigned w64 (pos (numbers.digits_value 10 digits.now)))
        (pos (numbers.digits_value 10 digits.now)) }
{
    0i64.checked_add_unsigned(unsigned_value(digits)?)
}

/// `dec-int`, in 64 bits.
fn decimal_value(bytes: &[u8]) -> Option<i64>
    requires { numbers.base_of bytes.now ≡ 10 }
    ensures { SomeIff result (numbers.Integer bytes.now) (numbers.integer_value bytes.now) }
{
    match bytes {
        [b'-', digits @ ..] => 0i64.checked_sub_unsigned(unsigned_value(digits)?),
        [b'+', digits @ ..] => positive_value(digits),
        digits => positive_value(digits),
    }
}

/// The number that digits of a base write, in 64 bits with a sign.
fn based_value(digits: &[u8], base: u32) -> Option<i64>
    requires low { 2 ≤ base }
    requires high { base ≤ 16 }
    ensures { SomeIff result
        (IsTrue (numbers.is_digits (numbers.is_in_base base) digits.now)
        × FitsSigned w64 (pos (numbers.digits_value base digits.now)))
        (pos (numbers.digits_value base digits.now)) }
{
    0i64.checked_add_unsigned(digits_value(digits, base)?)
}

/// `integer`, in 64 bits with a sign.
fn integer_value(bytes: &[u8]) -> Option<i64>
    ensures { SomeIff result (numbers.Integer bytes.now) (numbers.integer_value bytes.now) }
{
    match bytes {
        [b'0', b'x', digits @ ..] => based_value(digits, 16),
        [b'0', b'o', digits @ ..] => based_value(digits, 8),
        [b'0', b'b', digits @ ..] => based_value(digits, 2),
        decimal => decimal_value(decimal),
    }
}

/// The value of an integer's text, or `None` where the text is no integer in 64 bits.
///
/// TOML v1.0.0, "Integer".
pub fn integer_of(text: &str) -> Option<i64>
    ensures found { IsSome result ↔ numbers.Integer text.now }
    ensures value { IfSome result (λ n. n ≡ numbers.integer_value text.now) }
{
    integer_value(text.as_bytes())
}

/// Whether it is a decimal number of so few digits, the first of them no 0, that it fits into 64 bits. Most are.
fn is_short_decimal(bytes: &[u8]) -> bool
    ensures { result ≡ words.is_short_decimal bytes.now }
{
    match bytes {
        [] => false,
        [first, ..] => *first != b'0' && bytes.len() <= 18 && are_digits(bytes),
    }
}

/// TOML v1.0.0, "Integer": in 64 bits with a sign.
pub(crate) fn is_integer(bytes: &[u8]) -> bool
    ensures { result ≡ words.is_integer bytes.now }
{
    if is_short_decimal(bytes) {
        return true;
    }
    integer_value(bytes).is_some()
}

/// The rest in which digits are still to be tested. Of digits in a row only the last can come before an underscore, so
/// it begins at the last one that is found in whole blocks.
#[inline(always)]
fn rest_from_last_digit(bytes: &[u8]) -> &[u8]
    ensures { numbers.is_digits is_ascii_digit result.now ≡ numbers.is_digits is_ascii_digit bytes.now }
{
    if bytes.len() < BLOCK {
        return bytes;
    }
    let in_a_row = digits_in_blocks(bytes);
    &bytes[in_a_row.saturating_sub(1)..]
}

fn is_digits(bytes: &[u8]) -> bool
    ensures { result ≡ numbers.is_digits is_ascii_digit bytes.now }
{
    let mut rest = rest_from_last_digit(bytes);
    loop {
        match rest {
            [] => return false,
            [digit] => return digit.is_ascii_digit(),
            [digit, b'_', more @ ..] => {
                if !digit.is_ascii_digit() {
                    return false;
                }
                rest = more;
            }
            [digit, more @ ..] => {
                if !digit.is_ascii_digit() {
                    return false;
                }
                rest = more;
            }
        }
    }
}

fn is_unsigned(bytes: &[u8]) -> bool
    ensures { result ≡ numbers.is_unsigned bytes.now }
{
    is_digits(bytes) && (bytes.len() == 1 || bytes[0] != b'0')
}

/// `dec-int`, of any size.
fn is_decimal(bytes: &[u8]) -> bool
    ensures { result ≡ numbers.is_decimal bytes.now }
{
    match bytes {
        [] => false,
        [sign, digits @ ..] => {
            if is_sign(*sign) {
                is_unsigned(digits)
            } else {
                is_unsigned(bytes)
            }
        }
    }
}

/// `float-exp-part`: zeros may lead. Not inlined, so that the test for an exponent's letter is: most numbers have none.
#[inline(never)]
fn is_signed_digits(bytes: &[u8]) -> bool
    ensures { result ≡ words.is_signed_digits bytes.now }
{
    match bytes {
        [] => false,
        [sign, digits @ ..] => {
            if is_sign(*sign) {
                is_digits(digits)
            } else {
                is_digits(bytes)
            }
        }
    }
}

/// `exp`
fn is_exponent(bytes: &[u8]) -> bool
    ensures { result ≡ words.is_exponent bytes.now }
{
    match bytes {
        [] => false,
        [letter, digits @ ..] => is_e(*letter) && is_signed_digits(digits),
    }
}

/// `frac [ exp ]`
fn is_fraction(bytes: &[u8]) -> bool
    ensures { result ≡ words.is_fraction bytes.now }
{
    match bytes {
        [] => false,
        [point, part @ ..] => *point == b'.' && (is_digits(part) || has_exponent(part)),
    }
}

/// Digits and an exponent.
fn has_exponent(bytes: &[u8]) -> bool
    ensures { result ≡ words.has_exponent bytes.now }
{
    let len = part_run(bytes);
    is_digits(&bytes[..len]) && is_exponent(&bytes[len..])
}

/// How many bytes come before an exponent.
fn part_run(bytes: &[u8]) -> usize
    ensures len { result ≡ prefix_len words.is_part bytes.now }
    ensures within { result ≤ length bytes.now }
{
    bytes.iter().take_while(|byte| !is_e(**byte)).count()
}

/// How many bytes come before a fraction or an exponent.
fn whole_run(bytes: &[u8]) -> usize
    ensures len { result ≡ prefix_len words.is_whole bytes.now }
    ensures within { result ≤ length bytes.now }
{
    bytes
        .iter()
        .take_while(|byte| !(**byte == b'.' || is_e(**byte)))
        .count()
}

/// `float-int-part ( exp / frac [ exp ] )`
fn is_number(bytes: &[u8]) -> bool
    ensures { result ≡ words.is_number bytes.now }
{
    let len = whole_run(bytes);
    let after = &bytes[len..];
    is_decimal(&bytes[..len]) && (is_exponent(after) || is_fraction(after))
}

/// `inf` or `nan`
fn is_three(bytes: &[u8]) -> bool
    ensures { result ≡ words.is_three bytes.now }
{
    matches!(bytes, [b'i', b'n', b'f'] | [b'n', b'a', b'n'])
}

/// `special-float`
fn is_special(bytes: &[u8]) -> bool
    ensures { result ≡ words.is_special bytes.now }
{
    match bytes {
        [] => false,
        [sign, name @ ..] => {
            if is_sign(*sign) {
                is_three(name)
            } else {
                is_three(bytes)
            }
        }
    }
}

/// TOML v1.0.0, "Float".
pub(crate) fn is_float(bytes: &[u8]) -> bool
    ensures { result ≡ words.is_float bytes.now }
{
    is_number(bytes) || is_special(bytes)
}

/// TOML v1.0.0, "Boolean".
pub(crate) fn is_boolean(bytes: &[u8]) -> bool
    ensures { result ≡ words.is_boolean bytes.now }
{
    matches!(
        bytes,
        [b't', b'r', b'u', b'e'] | [b'f', b'a', b'l', b's', b'e']
    )
}
