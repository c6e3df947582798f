//! Lines: keyvals, headers, comments and newlines. (TOML v1.0.0, "Key/Value Pair", "Table", "Array of Tables";
//! toml.abnf: `expression`)
ghost use Rattle.std.specs.Prelude.{◌≡◌, ◌+◌, ◌==◌, false, length, slice_index, IsCharBoundary, Ok};
ghost use Rattle.keep_syntax_store.specs.Flat as spec;
ghost use Rattle.keep_syntax_store.specs.Flat.{Flat};
ghost use Rattle.keep_syntax.specs.Growth.{SpaceRead};
ghost use Rattle.keep_syntax.specs.FlatLines as lines_spec;
ghost use Rattle.keep_syntax.specs.Reading.{is_line_end};

use crate::fault::ReadFault;
use crate::gap::space;
use crate::info::Limits;
use crate::key::{key, key_and_equals};
use crate::text::{byte_at, punctuation, syntax_fault_at};
use crate::value::value;
use keep_syntax_store::{Parts, Starts};
use keep_token::{Leaf, scan_gap};
use keep_types::{Owner, Span, Start, Statement, StatementKind};

/// A statement but for its places: how many key parts it has, and the number of a keyval's value.
#[derive(Clone, Copy)]
pub struct Head {
    kind: StatementKind,
    keys: usize,
    value: Option<usize>,
}

/// Whether the content of a line cannot begin with this byte: a newline, a comment, and 0 for the text's end. Most
/// contents begin with a byte above all of these, so that is the first test.
fn is_line_end(byte: u8) -> bool
    ensures { result ≡ is_line_end byte }
{
    if byte > b'#' {
        false
    } else if byte > b'\r' {
        byte == b'#'
    } else {
        byte == 0 || byte == b'\n' || byte == b'\r'
    }
}

/// `keyval` from `start` on, and where it ends.
fn keyval(
    text: &str,
    limits: Limits,
    start: &Start,
    out: &mut Parts,
) -> Result<(usize, Head), ReadFault>
    requires bound { IsCharBoundary text.now start.now.at }
    requires values { start.now.values ≡ length (spec.flat out.old).values }
    requires parts { start.now.parts ≡ length (spec.flat out.old).keys }
    requires depth { start.now.depth ≡ 0 }
    requires begins { (is_line_end (slice_index text.now start.now.at) ≡ false)
        × ((slice_index text.now start.now.at == 0x5B) ≡ false) }
    ensures { lines_spec.ContentRead limits.profile limits.depth text.now start.now (spec.flat out.old)
        (spec.flat out.new) result }
{
    let begin = key_and_equals(text, start.at, limits.profile, out)?;
    let keys = out.key_count() - start.parts;
    let end = value(text, begin, limits, keys, start, out)?;
    let head = Head {
        kind: StatementKind::KeyVal,
        keys,
        value: Some(start.values),
    };
    Ok((end, head))
}

/// `std-table`: the header of a table from `start` on, and where it ends.
fn header(
    text: &str,
    limits: Limits,
    start: &Start,
    out: &mut Parts,
) -> Result<(usize, Head), ReadFault>
    requires bound { IsCharBoundary text.now start.now.at }
    requires parts { start.now.parts ≡ length (spec.flat out.old).keys }
    requires opens { slice_index text.now start.now.at ≡ 0x5B }
    requires once { (slice_index text.now (start.now.at + 1) == 0x5B) ≡ false }
    ensures { lines_spec.ContentRead limits.profile limits.depth text.now start.now (spec.flat out.old)
        (spec.flat out.new) result }
{
    let after = punctuation(text, start.at, 1, Leaf::HeadOpen, out)?;
    let begin = space(text, after, out)?;
    let close = key(text, begin, limits.profile, out)?;
    if byte_at(text, close) != b']' {
        return Err(syntax_fault_at(text, close));
    }
    let head = Head {
        kind: StatementKind::Header,
        keys: out.key_count() - start.parts,
        value: None,
    };
    let end = punctuation(text, close, 1, Leaf::HeadClose, out)?;
    Ok((end, head))
}

/// `array-table`: the header of an element of an array of tables from `start` on, and where it ends.
fn element(
    text: &str,
    limits: Limits,
    start: &Start,
    out: &mut Parts,
) -> Result<(usize, Head), ReadFault>
    requires bound { IsCharBoundary text.now start.now.at }
    requires parts { start.now.parts ≡ length (spec.flat out.old).keys }
    requires opens { slice_index text.now start.now.at ≡ 0x5B }
    requires twice { slice_index text.now (start.now.at + 1) ≡ 0x5B }
    ensures { lines_spec.ContentRead limits.profile limits.depth text.now start.now (spec.flat out.old)
        (spec.flat out.new) result }
{
    let after = punctuation(text, start.at, 2, Leaf::ElemOpen, out)?;
    let begin = space(text, after, out)?;
    let close = key(text, begin, limits.profile, out)?;
    if byte_at(text, close) != b']' || byte_at(text, close + 1) != b']' {
        return Err(syntax_fault_at(text, close));
    }
    let head = Head {
        kind: StatementKind::Element,
        keys: out.key_count() - start.parts,
        value: None,
    };
    let end = punctuation(text, close, 2, Leaf::ElemClose, out)?;
    Ok((end, head))
}

/// The keyval or header from `start` on, and where it ends.
fn statement_head(
    text: &str,
    limits: Limits,
    start: &Start,
    out: &mut Parts,
) -> Result<(usize, Head), ReadFault>
    requires bound { IsCharBoundary text.now start.now.at }
    requires values { start.now.values ≡ length (spec.flat out.old).values }
    requires parts { start.now.parts ≡ length (spec.flat out.old).keys }
    requires depth { start.now.depth ≡ 0 }
    requires begins { is_line_end (slice_index text.now start.now.at) ≡ false }
    ensures { lines_spec.ContentRead limits.profile limits.depth text.now start.now (spec.flat out.old)
        (spec.flat out.new) result }
{
    if byte_at(text, start.at) != b'[' {
        keyval(text, limits, start, out)
    } else if byte_at(text, start.at + 1) == b'[' {
        element(text, limits, start, out)
    } else {
        header(text, limits, start, out)
    }
}

/// `comment` at the byte `at`, if there is one, and where it ends.
#[inline(always)]
fn comment(text: &str, at: usize, out: &mut Parts) -> Result<usize, ReadFault>
    requires { IsCharBoundary text.now at }
    ensures { lines_spec.CommentRead text.now at (spec.flat out.old) (spec.flat out.new) result }
{
    if byte_at(text, at) != b'#' {
        return Ok(at);
    }
    match scan_gap(text, at) {
        Some((_, end)) => {
            out.push_token(Leaf::Comment, at)?;
            Ok(end)
        }
        None => Ok(at),
    }
}

/// `newline` at the byte `at`, and where it ends.
#[inline(always)]
fn newline(text: &str, at: usize, out: &mut Parts) -> Result<usize, ReadFault>
    requires { IsCharBoundary text.now at }
    ensures { lines_spec.NewlineRead text.now at (spec.flat out.old) (spec.flat out.new) result }
{
    let byte = byte_at(text, at);
    if byte == b'\n' {
        punctuation(text, at, 1, Leaf::Newline, out)
    } else if byte == b'\r' && byte_at(text, at + 1) == b'\n' {
        punctuation(text, at, 2, Leaf::Newline, out)
    } else {
        Err(syntax_fault_at(text, at))
    }
}

/// The line feed at the byte `at`. Where the next line begins.
#[inline(always)]
fn line_feed(text: &str, at: usize, out: &mut Parts) -> Result<Option<usize>, ReadFault>
    requires bound { IsCharBoundary text.now at }
    requires feed { slice_index text.now at ≡ 0x0A }
    ensures { lines_spec.NewlineOrEndRead text.now at (spec.flat out.old) (spec.flat out.new) result }
{
    let next = punctuation(text, at, 1, Leaf::Newline, out)?;
    Ok(Some(next))
}

/// A newline at the byte `at`, or the end of the text. Where the next line begins, or `None` if the text ends. A
/// function of its own, since few lines end without a line feed alone.
#[inline(never)]
fn rare_end(text: &str, at: usize, out: &mut Parts) -> Result<Option<usize>, ReadFault>
    requires { IsCharBoundary text.now at }
    ensures { lines_spec.NewlineOrEndRead text.now at (spec.flat out.old) (spec.flat out.new) result }
{
    if at == text.len() {
        return Ok(None);
    }
    let next = newline(text, at, out)?;
    Ok(Some(next))
}

/// A newline at the byte `at`, or the end of the text. Where the next line begins, or `None` if the text ends.
#[inline(always)]
fn newline_or_end(text: &str, at: usize, out: &mut Parts) -> Result<Option<usize>, ReadFault>
    requires { IsCharBoundary text.now at }
    ensures { lines_spec.NewlineOrEndRead text.now at (spec.flat out.old) (spec.flat out.new) result }
{
    if byte_at(text, at) == b'\n' {
        line_feed(text, at, out)
    } else {
        rare_end(text, at, out)
    }
}

/// `[ comment ]` at the byte `at`, and the newline after it. Where the next line begins, or `None` if the text ends.
#[inline(always)]
fn line_end(text: &str, at: usize, out: &mut Parts) -> Result<Option<usize>, ReadFault>
    requires { IsCharBoundary text.now at }
    ensures { lines_spec.EndRead text.now at (spec.flat out.old) (spec.flat out.new) result }
{
    let end = comment(text, at, out)?;
    newline_or_end(text, end, out)
}

/// The statement at the byte `begin` of a line that begins at the byte `at`, and the rest of the line. Where the next
/// line begins, or `None` if the text ends.
fn statement(
    text: &str,
    at: usize,
    begin: usize,
    limits: Limits,
    out: &mut Parts,
) -> Result<Option<usize>, ReadFault>
    requires bound { IsCharBoundary text.now begin }
    requires begins { is_line_end (slice_index text.now begin) ≡ false }
    ensures { (first : Flat) → SpaceRead text.now at first (spec.flat out.old) (Ok begin)
        → lines_spec.LineRead limits.profile limits.depth text.now at first (spec.flat out.new) result }
{
    let first_key = out.key_count();
    let start = Start {
        at: begin,
        values: out.value_count(),
        parts: first_key,
        owner: Owner::Line(out.statement_count()),
        depth: 0,
        comma: None,
    };
    let (close, head) = statement_head(text, limits, &start, out)?;
    let after = space(text, close, out)?;
    let next = line_end(text, after, out)?;
    out.push_statement(Statement {
        kind: head.kind,
        span: Span {
            start: begin,
            end: close,
        },
        line: Span {
            start: at,
            end: next.unwrap_or(text.len()),
        },
        first_key,
        keys: head.keys,
        value: head.value,
    })?;
    Ok(next)
}

/// `expression` and its newline: the line at the byte `at`. Where the next line begins, or `None` if the text ends.
/// Most lines have a statement, and most of the others are empty, so it is tested in that order.
#[inline(always)]
fn line(text: &str, at: usize, limits: Limits, out: &mut Parts) -> Result<Option<usize>, ReadFault>
    requires { IsCharBoundary text.now at }
    ensures { lines_spec.LineRead limits.profile limits.depth text.now at (spec.flat out.old)
        (spec.flat out.new) result }
{
    let begin = space(text, at, out)?;
    let byte = byte_at(text, begin);
    if !is_line_end(byte) {
        statement(text, at, begin, limits, out)
    } else if byte == b'\n' {
        line_feed(text, begin, out)
    } else {
        line_end(text, begin, out)
    }
}

/// All lines from the byte `begin` on, and in `starts` where each of them begins.
pub fn lines(
    text: &str,
    begin: usize,
    limits: Limits,
    out: &mut Parts,
    starts: &mut Starts,
) -> Result<(), ReadFault>
    requires { IsCharBoundary text.now begin }
    ensures { lines_spec.LinesRead limits.profile limits.depth text.now begin (spec.flat out.old)
        (spec.flat out.new) starts.old starts.new result }
{
    let mut at = begin;
    starts.push(at)?;
    'lines: while let Some(next) = line(text, at, limits, out)? {
        starts.push(next)?;
        at = next;
    }
    Ok(())
}
