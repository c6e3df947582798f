//! Whether a word is a date, a time, or both.
ghost use Rattle.std.specs.Prelude.{◌≡◌, ◌<◌, true, length};
ghost use Rattle.std.specs.Char.{is_ascii_digit};
ghost use Rattle.keep_token.specs.Dates as calendar;
ghost use Rattle.keep_token.specs.Leaves as leaves;
ghost use Rattle.keep_token.specs.Words as words;

use crate::bytes::{are_digits, is_sign};
use keep_types::Profile;

/// The number that two digits write.
fn pair(tens: u8, ones: u8) -> u16
    requires tens { is_ascii_digit tens ≡ true }
    requires ones { is_ascii_digit ones ≡ true }
    ensures { result ≡ words.pair tens ones }
{
    (tens - b'0') as u16 * 10 + (ones - b'0') as u16
}

fn is_leap(year: u16) -> bool
    ensures { result ≡ calendar.is_leap year }
{
    year % 4 == 0 && year % 100 != 0 || year % 400 == 0
}

fn month_length(year: u16, month: u16) -> u16
    ensures { result ≡ calendar.month_length year month }
{
    if month == 2 {
        if is_leap(year) { 29 } else { 28 }
    } else if month == 4 || month == 6 || month == 9 || month == 11 {
        30
    } else {
        31
    }
}

/// Whether ten bytes are digits where a date has digits, and dashes where it has dashes.
pub(crate) fn has_date_shape(bytes: &[u8]) -> bool
    ensures { result ≡ leaves.has_date_shape bytes.now }
{
    match bytes {
        [a, b, c, d, first, e, f, second, g, h] => {
            are_digits(&[*a, *b, *c, *d])
                && *first == b'-'
                && are_digits(&[*e, *f])
                && *second == b'-'
                && are_digits(&[*g, *h])
        }
        _ => false,
    }
}

/// Whether the calendar has this day.
fn is_day(year: u16, month: u16, day: u16) -> bool
    ensures { result ≡ words.is_day year month day }
{
    (1..=12).contains(&month) && 1 <= day && day <= month_length(year, month)
}

/// TOML v1.0.0, `full-date`: YYYY-MM-DD, a day of the calendar.
pub(crate) fn is_date(bytes: &[u8]) -> bool
    ensures { result ≡ words.is_date bytes.now }
{
    if !has_date_shape(bytes) {
        return false;
    }
    let year = pair(bytes[0], bytes[1]) * 100 + pair(bytes[2], bytes[3]);
    let month = pair(bytes[5], bytes[6]);
    let day = pair(bytes[8], bytes[9]);
    is_day(year, month, day)
}

/// hh:mm
fn is_minutes(bytes: &[u8]) -> bool
    ensures { result ≡ words.is_minutes bytes.now }
{
    match bytes {
        [a, b, colon, c, d] => {
            are_digits(&[*a, *b])
                && *colon == b':'
                && are_digits(&[*c, *d])
                && pair(*a, *b) < 24
                && pair(*c, *d) < 60
        }
        _ => false,
    }
}

/// Nothing, or a point and digits.
fn is_second_fraction(bytes: &[u8]) -> bool
    ensures { result ≡ words.is_second_fraction bytes.now }
{
    match bytes {
        [] => true,
        [point, digits @ ..] => *point == b'.' && !digits.is_empty() && are_digits(digits),
    }
}

/// What comes after hh:mm: the seconds, of which a minute may have 61, and their fraction.
fn is_time_end(bytes: &[u8]) -> bool
    ensures { result ≡ words.is_time_end bytes.now }
{
    match bytes {
        [colon, tens, ones, fraction @ ..] => {
            *colon == b':'
                && are_digits(&[*tens, *ones])
                && pair(*tens, *ones) <= 60
                && is_second_fraction(fraction)
        }
        _ => false,
    }
}

/// Whether a time may end after hh:mm.
fn is_short(bytes: &[u8], profile: Profile) -> bool
    ensures { result ≡ words.is_short profile bytes.now }
{
    match profile {
        Profile::Strict => false,
        Profile::Wide => bytes.is_empty(),
    }
}

/// TOML v1.0.0, `partial-time`: hh:mm:ss and a fraction of the second. In `Profile::Wide` the seconds may be left out.
pub(crate) fn is_time(bytes: &[u8], profile: Profile) -> bool
    ensures { result ≡ words.is_time profile bytes.now }
{
    if bytes.len() < 5 {
        return false;
    }
    let end = &bytes[5..];
    is_minutes(&bytes[..5]) && (is_time_end(end) || is_short(end, profile))
}

fn is_between_date_and_time(byte: u8) -> bool
    ensures { result ≡ words.is_between_date_and_time byte }
{
    byte == b'T' || byte == b't' || byte == b' '
}

/// TOML v1.0.0, `local-date-time`: a date, T, t or a space, and a time.
pub(crate) fn is_date_time(bytes: &[u8], profile: Profile) -> bool
    ensures { result ≡ words.is_date_time profile bytes.now }
{
    if bytes.len() <= 10 {
        return false;
    }
    is_date(&bytes[..10]) && is_between_date_and_time(bytes[10]) && is_time(&bytes[11..], profile)
}

fn is_zulu(byte: u8) -> bool
    ensures { result ≡ words.is_zulu byte }
{
    byte == b'Z' || byte == b'z'
}

/// A date and a time, and Z or z.
fn ends_in_zulu(bytes: &[u8], profile: Profile) -> bool
    requires { 0 < length bytes.now }
    ensures { result ≡ words.ends_in_zulu profile bytes.now }
{
    let end = bytes.len() - 1;
    is_zulu(bytes[end]) && is_date_time(&bytes[..end], profile)
}

/// A date and a time, a sign, hours and minutes.
fn ends_in_minutes(bytes: &[u8], profile: Profile) -> bool
    requires { 5 < length bytes.now }
    ensures { result ≡ words.ends_in_minutes profile bytes.now }
{
    let sign = bytes.len() - 6;
    let minutes = bytes.len() - 5;
    is_sign(bytes[sign]) && is_minutes(&bytes[minutes..]) && is_date_time(&bytes[..sign], profile)
}

/// The bytes of the shortest date with a time, as in 1979-05-27T07:32.
const SHORTEST_DATE_TIME: usize = 16;

/// TOML v1.0.0, `offset-date-time`: a date and a time, and Z or the offset from it in hours and minutes.
pub(crate) fn is_offset_date_time(bytes: &[u8], profile: Profile) -> bool
    ensures { result ≡ words.is_offset_date_time profile bytes.now }
{
    if bytes.len() < SHORTEST_DATE_TIME {
        return false;
    }
    ends_in_zulu(bytes, profile) || ends_in_minutes(bytes, profile)
}
