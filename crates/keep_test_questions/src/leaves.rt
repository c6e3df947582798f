//! Questions about leaves.
use crate::row::{Answer, Row, unknown};
use keep_syntax::Limits;
use keep_token::{
    Leaf, LeafFault, Profile, decode_string, encode_int, encode_key, encode_string,
    encoded_key_len, integer_of, scan_gap, scan_key, scan_scalar, text_of,
};
use std::alloc::Global;

pub fn answer(alloc: Global, row: &Row) -> Answer {
    match row.question() {
        "gap" => gap(alloc, row.text(0), row.number(1)),
        "key" => key(alloc, row.text(0), row.number(1), row.limits(2)),
        "scalar" => scalar(alloc, row.text(0), row.number(1), row.limits(2)),
        "text" => text(alloc, row.bytes(0)),
        "integer" => format!(in alloc; "{:?}", integer_of(row.text(0))),
        "decode" => decoded(alloc, row.text(0)),
        "write string" => encode_string(alloc, row.text(0)),
        "write key" => written_key(alloc, row.text(0)),
        "write integer" => written_integer(alloc, row.text(0)),
        _ => unknown(alloc),
    }
}

// The gap at a place, its kind and its end.
fn gap(alloc: Global, text: &str, at: usize) -> Answer {
    if !text.is_char_boundary(at) {
        return String::from_str(alloc, "no place");
    }
    format!(in alloc; "{:?}", scan_gap(text, at))
}

fn key(alloc: Global, text: &str, at: usize, limits: Limits) -> Answer {
    if !text.is_char_boundary(at) {
        return String::from_str(alloc, "no place");
    }
    found(alloc, scan_key(text, at, limits.profile))
}

fn scalar(alloc: Global, text: &str, at: usize, limits: Limits) -> Answer {
    if !text.is_char_boundary(at) {
        return String::from_str(alloc, "no place");
    }
    found(alloc, scan_scalar(text, at, limits.profile))
}

// The kind of a leaf and its end, or the fault.
fn found(alloc: Global, leaf: Result<(Leaf, usize), LeafFault>) -> Answer {
    match leaf {
        Ok((leaf, end)) => format!(in alloc; "{leaf:?} {end}"),
        Err(fault) => fault.to_string(alloc),
    }
}

// The text that bytes are, or the length of their longest prefix that is text.
fn text(alloc: Global, bytes: &[u8]) -> Answer {
    format!(in alloc; "{:?}", text_of(bytes))
}

// What a string or a key part means, read as one that begins the text and takes all of it.
fn decoded(alloc: Global, text: &str) -> Answer {
    if !text.is_char_boundary(0) {
        return String::from_str(alloc, "no place");
    }
    if let Ok((leaf, end)) = scan_scalar(text, 0, Profile::Wide)
        && end == text.len()
        && (leaf == Leaf::MlBasic || leaf == Leaf::MlLiteral)
    {
        return decode_string(alloc, leaf, text);
    }
    match scan_key(text, 0, Profile::Wide) {
        Ok((leaf, end)) if end == text.len() => decode_string(alloc, leaf, text),
        _ => String::from_str(alloc, "no string"),
    }
}

// A key as it is written, after its length.
fn written_key(alloc: Global, text: &str) -> Answer {
    let key = encode_key(alloc, text)?;
    format!(in alloc; "{} {key}", encoded_key_len(text))
}

fn written_integer(alloc: Global, text: &str) -> Answer {
    match text.parse::<i64>() {
        Ok(value) => encode_int(alloc, value),
        Err(_) => String::from_str(alloc, "no integer"),
    }
}
