//! Values: scalars, arrays and inline tables. (TOML v1.0.0, "Array", "Inline Table"; toml.abnf: `val`)
//!
//! A loop goes along the entries of an array or an inline table, and a recursion down into it, so a document's depth
//! alone bounds the native stack.
ghost use Rattle.std.specs.Prelude.{◌≡◌, ◌+◌, ◌<◌, ◌^◌, length, slice_index, IsCharBoundary};
ghost use Rattle.keep_syntax.specs.Growth as spec;
ghost use Rattle.keep_syntax.specs.Reading.{open_byte, close_byte};

use crate::fault::ReadFault;
use crate::gap::{gap_in, is_free};
use crate::info::{Brackets, Limits};
use crate::key::key_and_equals;
use crate::text::{byte_at, punctuation, syntax_fault_at};
use keep_syntax_store::Parts;
use keep_token::{Leaf, Profile, What, scan_scalar};
use keep_types::{Owner, Start};

/// A string, a number, a date, a time or a truth value at the byte `at`, and where it ends.
fn scalar(
    text: &str,
    at: usize,
    profile: Profile,
    keys: usize,
    start: &Start,
    out: &mut Parts,
) -> Result<usize, ReadFault>
    requires { IsCharBoundary text.now at }
    ensures { spec.ScalarRead profile text.now at keys start.now (spec.flat out.old) (spec.flat out.new) result }
{
    let (leaf, end) = scan_scalar(text, at, profile)?;
    out.push_token(leaf, at)?;
    out.push_value(leaf, at, end, keys, start)?;
    Ok(end)
}

fn open_leaf(brackets: Brackets) -> Leaf
    ensures { result ≡ spec.open_leaf brackets }
{
    match brackets {
        Brackets::Array => Leaf::ArrayOpen,
        Brackets::Inline => Leaf::InlineOpen,
    }
}

fn close_leaf(brackets: Brackets) -> Leaf
    ensures { result ≡ spec.close_leaf brackets }
{
    match brackets {
        Brackets::Array => Leaf::ArrayClose,
        Brackets::Inline => Leaf::InlineClose,
    }
}

fn close_byte(brackets: Brackets) -> u8
    ensures { result ≡ close_byte brackets }
{
    match brackets {
        Brackets::Array => b']',
        Brackets::Inline => b'}',
    }
}

/// What is in the value with this number.
fn owner_in(brackets: Brackets, number: usize) -> Owner
    ensures { result ≡ spec.owner_in brackets number }
{
    match brackets {
        Brackets::Array => Owner::Item(number),
        Brackets::Inline => Owner::Inline(number),
    }
}

/// A keyval's name in an inline table, and nothing in an array; where the value begins.
fn entry_key(
    text: &str,
    at: usize,
    profile: Profile,
    brackets: Brackets,
    out: &mut Parts,
) -> Result<usize, ReadFault>
    requires { IsCharBoundary text.now at }
    ensures { spec.NamedRead profile brackets text.now at (spec.flat out.old) (spec.flat out.new) result }
{
    match brackets {
        Brackets::Array => Ok(at),
        Brackets::Inline => key_and_equals(text, at, profile, out),
    }
}

/// What follows the value with this number that ends at `at`: its gap, and a comma with the gap after it unless the
/// bracket closes. Where that ends, and where the comma is.
fn after_entry(
    text: &str,
    at: usize,
    profile: Profile,
    brackets: Brackets,
    number: usize,
    out: &mut Parts,
) -> Result<(usize, Option<usize>), ReadFault>
    requires bound { IsCharBoundary text.now at }
    requires number { number < length (spec.flat out.old).values }
    ensures { spec.AfterRead profile brackets text.now at number (spec.flat out.old) (spec.flat out.new) result }
{
    let end = gap_in(text, at, profile, brackets, out)?;
    let byte = byte_at(text, end);
    if byte == b',' {
        let after = punctuation(text, end, 1, Leaf::Comma, out)?;
        out.set_comma(number, end);
        let next = gap_in(text, after, profile, brackets, out)?;
        if !is_free(profile, brackets) && byte_at(text, next) == close_byte(brackets) {
            return Err(ReadFault::Syntax {
                at: next,
                what: What::KeyPart,
            });
        }
        Ok((next, Some(end)))
    } else if byte == close_byte(brackets) {
        Ok((end, None))
    } else {
        Err(syntax_fault_at(text, end))
    }
}

/// `val`: the value at the byte `at`, and where it ends. It has `keys` key parts of its own, and is in entries that
/// begin at `start`; `limits` says how many more brackets may be opened.
#[cycle(nesting)]
pub fn value(
    text: &str,
    at: usize,
    limits: Limits,
    keys: usize,
    start: &Start,
    out: &mut Parts,
) -> Result<usize, ReadFault>
    requires bound { IsCharBoundary text.now at }
    requires values { start.now.values ≡ length (spec.flat out.old).values }
    requires parts { start.now.parts + keys ≡ length (spec.flat out.old).keys }
    requires depth { start.now.depth + limits.depth < 2 ^ 16 }
    ensures { spec.ValueRead limits.profile limits.depth text.now at keys start.now (spec.flat out.old)
        (spec.flat out.new) result }
{
    let byte = byte_at(text, at);
    if byte == b'[' {
        bracket(text, at, limits, Brackets::Array, keys, start, out)
    } else if byte == b'{' {
        bracket(text, at, limits, Brackets::Inline, keys, start, out)
    } else {
        scalar(text, at, limits.profile, keys, start, out)
    }
}

/// `array` or `inline-table`: the one whose bracket is at the byte `at`, and where it ends.
#[cycle(nesting)]
fn bracket(
    text: &str,
    at: usize,
    limits: Limits,
    brackets: Brackets,
    keys: usize,
    start: &Start,
    out: &mut Parts,
) -> Result<usize, ReadFault>
    requires opens { slice_index text.now at ≡ open_byte brackets }
    requires bound { IsCharBoundary text.now at }
    requires values { start.now.values ≡ length (spec.flat out.old).values }
    requires parts { start.now.parts + keys ≡ length (spec.flat out.old).keys }
    requires depth { start.now.depth + limits.depth < 2 ^ 16 }
    ensures { spec.BracketRead brackets limits.profile limits.depth text.now at keys start.now (spec.flat out.old)
        (spec.flat out.new) result }
{
    if limits.depth == 0 {
        return Err(ReadFault::TooDeep { at });
    }
    let number = out.value_count();
    let open = punctuation(text, at, 1, open_leaf(brackets), out)?;
    out.push_value(open_leaf(brackets), at, at, keys, start)?;
    let first = gap_in(text, open, limits.profile, brackets, out)?;
    let nested = Start {
        at: first,
        values: out.value_count(),
        parts: out.key_count(),
        owner: owner_in(brackets, number),
        depth: start.depth + 1,
        comma: None,
    };
    let inner = Limits {
        depth: limits.depth - 1,
        profile: limits.profile,
    };
    let close = entries(text, inner, brackets, &nested, out)?;
    let end = punctuation(text, close, 1, close_leaf(brackets), out)?;
    out.set_end(number, end);
    Ok(end)
}

/// The items or keyvals from `start` on, up to the closing bracket, and where that is.
#[cycle(nesting)]
fn entries(
    text: &str,
    limits: Limits,
    brackets: Brackets,
    start: &Start,
    out: &mut Parts,
) -> Result<usize, ReadFault>
    requires bound { IsCharBoundary text.now start.now.at }
    requires values { start.now.values ≡ length (spec.flat out.old).values }
    requires parts { start.now.parts ≡ length (spec.flat out.old).keys }
    requires depth { start.now.depth + limits.depth < 2 ^ 16 }
    ensures { spec.EntriesRead brackets limits.profile limits.depth text.now start.now (spec.flat out.old)
        (spec.flat out.new) result }
{
    let mut here = *start;
    'items: while byte_at(text, here.at) != close_byte(brackets) {
        let (at, comma) = item(text, limits, brackets, &here, out)?;
        here = Start {
            at,
            values: out.value_count(),
            parts: out.key_count(),
            owner: here.owner,
            depth: here.depth,
            comma,
        };
        if comma.is_none() {
            break;
        }
    }
    Ok(here.at)
}

/// An item or a keyval with what follows it up to the next or the closing bracket; where that ends, and where the comma
/// after it is.
#[cycle(nesting)]
fn item(
    text: &str,
    limits: Limits,
    brackets: Brackets,
    start: &Start,
    out: &mut Parts,
) -> Result<(usize, Option<usize>), ReadFault>
    requires bound { IsCharBoundary text.now start.now.at }
    requires values { start.now.values ≡ length (spec.flat out.old).values }
    requires parts { start.now.parts ≡ length (spec.flat out.old).keys }
    requires depth { start.now.depth + limits.depth < 2 ^ 16 }
    ensures { spec.ItemRead brackets limits.profile limits.depth text.now start.now (spec.flat out.old)
        (spec.flat out.new) result }
{
    let begin = entry_key(text, start.at, limits.profile, brackets, out)?;
    let keys = out.key_count() - start.parts;
    let end = value(text, begin, limits, keys, start, out)?;
    after_entry(text, end, limits.profile, brackets, start.values, out)
}
