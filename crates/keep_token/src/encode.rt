//! How strings, keys and whole numbers are written.
ghost use Rattle.std.specs.Prelude.{◌≡◌, ◌+◌, ◌++◌, ◌<◌, ◌≤◌, false, length, min, option_copied, take, IfOk, OnErr};
ghost use Rattle.std.specs.Prelude.{OnOk, string_bytes, string_capacity};
ghost use Rattle.std.specs.Fmt.{signed_decimal};
ghost use Rattle.std.specs.List.{flat_map, list_all, prefix_len};
ghost use Rattle.keep_token.specs.Abnf.{is_bare};
ghost use Rattle.keep_token.specs.Encoded.{digit, encoded_byte, encoded_string, encoded_key, encoded_key_leaf};
ghost use Rattle.keep_token.specs.Encoded.{is_bare_text};
ghost use Rattle.keep_token.specs.Leaves.{IsLeaf, Means};
ghost use Rattle.keep_token.specs.Numbers.{integer_value};
ghost use Rattle.keep_types.specs.declared.leaf.Leaf.TheVariants as leaf;
ghost use Rattle.keep_types.specs.declared.leaf.Profile.TheVariants.{Strict};
ghost use Rattle.keep_token.specs.Escapes.{is_plain, short_escape, escape_by_number};

use crate::bytes::is_bare;
use std::alloc::{AllocError, Global};

/// The text as a basic string, with its quotation marks.
///
/// TOML v1.0.0, "String". Quotation marks, backslashes and control characters are escaped, by a letter where there is
/// one; all else is written as it is. The only error is out of memory.
pub fn encode_string(alloc: Global, text: &str) -> Result<String, AllocError>
    ensures text { IfOk result (λ s. string_bytes s ≡ encoded_string text.now) }
    ensures leaf { IfOk result (λ s. IsLeaf Strict leaf.Basic (string_bytes s)) }
    ensures means { IfOk result (λ s. Means Strict leaf.Basic (string_bytes s) text.now) }
{
    let mut out = String::from_str(alloc, "\"")?;
    push_escaped(&mut out, text)?;
    out.push_str("\"")?;
    Ok(out)
}

/// The text as a key: bare where it can be, else as a basic string.
///
/// TOML v1.0.0, "Keys". The only error is out of memory.
pub fn encode_key(alloc: Global, text: &str) -> Result<String, AllocError>
    ensures text { IfOk result (λ s. string_bytes s ≡ encoded_key text.now) }
    ensures leaf { IfOk result (λ s. IsLeaf Strict (encoded_key_leaf text.now) (string_bytes s)) }
    ensures means { IfOk result (λ s. Means Strict (encoded_key_leaf text.now) (string_bytes s) text.now) }
{
    if can_be_bare(text) {
        String::from_str(alloc, text)
    } else {
        encode_string(alloc, text)
    }
}

/// Adds the text as a key, as `encode_key` writes it, and takes no memory but for the room of `out`.
///
/// TOML v1.0.0, "Keys". The only error is out of memory: `out` has no room for the key, and has grown by a prefix
/// of it.
pub fn push_key(out: &mut String, text: &str) -> Result<(), AllocError>
    ensures pushed { OnOk result (string_bytes out.new ≡ string_bytes out.old ++ encoded_key text.now) }
    ensures grown { take (length (string_bytes out.old)) (string_bytes out.new) ≡ string_bytes out.old }
    ensures room { string_capacity out.old ≤ string_capacity out.new }
    ensures full { OnErr result
        (string_capacity out.old < length (string_bytes out.old) + length (encoded_key text.now)) }
{
    if can_be_bare(text) {
        return out.push_str(text);
    }
    out.push_str("\"")?;
    push_escaped(out, text)?;
    out.push_str("\"")
}

/// The number in decimal digits, after `-` where it is below 0.
///
/// TOML v1.0.0, "Integer". The only error is out of memory.
pub fn encode_int(alloc: Global, value: i64) -> Result<String, AllocError>
    ensures text { IfOk result (λ s. string_bytes s ≡ signed_decimal value) }
    ensures leaf { IfOk result (λ s. IsLeaf Strict leaf.Integer (string_bytes s)) }
    ensures value { IfOk result (λ s. integer_value (string_bytes s) ≡ value) }
{
    let mut buffer = itoa::Buffer::new();
    String::from_str(alloc, buffer.format(value))
}

/// The length of what `encode_key` writes, in bytes, or `usize::MAX`, whichever is less. It takes no memory.
pub fn encoded_key_len(text: &str) -> usize
    ensures { result ≡ min (length (encoded_key text.now)) usize.MAX }
{
    if can_be_bare(text) {
        text.len()
    } else {
        escaped_len(text.as_bytes()).saturating_add(2)
    }
}

/// Whether the text is an `unquoted-key`.
#[tactic(auto, using(crate::proofs::EncodedLaws::bare_text_of))]
fn can_be_bare(text: &str) -> bool
    ensures { result ≡ is_bare_text text.now }
{
    !text.is_empty() && all_bare(text.as_bytes())
}

/// Whether each byte can be in an `unquoted-key`.
fn all_bare(bytes: &[u8]) -> bool
    ensures { result ≡ list_all is_bare bytes.now }
{
    bytes.iter().all(|&byte| is_bare(byte))
}

/// Adds the text with its escapes. Runs of plain bytes are copied whole.
fn push_escaped(out: &mut String, text: &str) -> Result<(), AllocError>
    ensures pushed { OnOk result (string_bytes out.new ≡ string_bytes out.old ++ flat_map encoded_byte text.now) }
    ensures grown { take (length (string_bytes out.old)) (string_bytes out.new) ≡ string_bytes out.old }
    ensures room { string_capacity out.old ≤ string_capacity out.new }
    ensures full { OnErr result
        (string_capacity out.old < length (string_bytes out.old) + length (flat_map encoded_byte text.now)) }
{
    let mut rest = text;
    'rest: loop {
        let plain = plain_len(rest.as_bytes());
        out.push_str(&rest[..plain])?;
        if plain == rest.len() {
            return Ok(());
        }
        push_escape(out, rest.as_bytes()[plain])?;
        rest = &rest[plain + 1..];
    }
}

/// The number of bytes before the first that is escaped.
fn plain_len(bytes: &[u8]) -> usize
    ensures { result ≡ prefix_len is_plain bytes.now }
{
    bytes.iter().take_while(|&&byte| is_plain(byte)).count()
}

/// A byte that is written as it is.
fn is_plain(byte: u8) -> bool
    ensures { result ≡ is_plain byte }
{
    byte >= 0x20 && byte != b'"' && byte != b'\\' && byte != 0x7F
}

/// Adds the escape of a byte.
fn push_escape(out: &mut String, byte: u8) -> Result<(), AllocError>
    requires { is_plain byte ≡ false }
    ensures pushed { OnOk result (string_bytes out.new ≡ string_bytes out.old ++ encoded_byte byte) }
    ensures grown { take (length (string_bytes out.old)) (string_bytes out.new) ≡ string_bytes out.old }
    ensures room { string_capacity out.old ≤ string_capacity out.new }
    ensures full { OnErr result
        (string_capacity out.old < length (string_bytes out.old) + length (encoded_byte byte)) }
{
    match short_escape(byte) {
        Some(escape) => out.push_str(escape),
        None => push_number(out, byte),
    }
}

/// The escape by a letter, for the bytes that have one.
fn short_escape(byte: u8) -> Option<&'static str>
    ensures { option_copied result ≡ short_escape byte }
{
    match byte {
        b'"' => Some("\\\""),
        b'\\' => Some("\\\\"),
        0x08 => Some("\\b"),
        b'\t' => Some("\\t"),
        b'\n' => Some("\\n"),
        0x0C => Some("\\f"),
        b'\r' => Some("\\r"),
        _ => None,
    }
}

/// Adds the escape by a byte's number, `\u00XX`.
fn push_number(out: &mut String, byte: u8) -> Result<(), AllocError>
    requires { byte < 128 }
    ensures pushed { OnOk result (string_bytes out.new ≡ string_bytes out.old ++ escape_by_number byte) }
    ensures grown { take (length (string_bytes out.old)) (string_bytes out.new) ≡ string_bytes out.old }
    ensures room { string_capacity out.old ≤ string_capacity out.new }
    ensures full { OnErr result (string_capacity out.old < length (string_bytes out.old) + 6) }
{
    out.push_str("\\u00")?;
    out.push(hex_digit(byte / 16))?;
    out.push(hex_digit(byte % 16))
}

/// An upper-case hexadecimal digit.
fn hex_digit(value: u8) -> char
    requires { value < 16 }
    ensures value { result ≡ digit value }
    ensures ascii { result < 128 }
{
    if value < 10 {
        char::from(b'0' + value)
    } else {
        char::from(b'A' + (value - 10))
    }
}

/// The length of the bytes with their escapes, or `usize::MAX`, whichever is less.
fn escaped_len(bytes: &[u8]) -> usize
    ensures { result ≡ min (length (flat_map encoded_byte bytes.now)) usize.MAX }
{
    let mut len: usize = 0;
    for byte in bytes {
        len = len.saturating_add(encoded_byte_len(*byte));
    }
    len
}

/// How many bytes a byte takes in a basic string.
fn encoded_byte_len(byte: u8) -> usize
    ensures { result ≡ length (encoded_byte byte) }
{
    if is_plain(byte) {
        return 1;
    }
    match short_escape(byte) {
        Some(escape) => escape.len(),
        None => 6,
    }
}
