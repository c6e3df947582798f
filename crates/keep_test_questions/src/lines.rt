//! Questions about the lines of a document: which of them a span touches, and the syntax of the text with these
//! replaced.
ghost use Rattle.std.specs.Prelude.{◌≡◌, ◌≤◌, ◌⊎◌, IsTrue, length, slice_index};
ghost use Rattle.keep_syntax.specs.Tree.{Document};
ghost use Rattle.keep_syntax.specs.Grammar.{Reads};
ghost use Rattle.keep_syntax.specs.WholeLines.{empty_line};
ghost use Rattle.keep_syntax.specs.Contract as spec;

use crate::growths::{begin_count, end_count};
use crate::row::{Answer, Row};
use crate::syntax::report_of;
use keep_syntax::{Limits, Span, Syntax};
use std::alloc::{AllocError, Global};

/// The words are a text, the limits, and the start and end of a span. `touched` is answered by the whole lines that the
/// span touches, and its growths are counted. For `reread` two more words are the lines that replace these, and what is
/// asked of the syntax of the text with these lines, as in the group `syntax`; for `reread again` it is read once more
/// where memory was refused.
pub fn answer(alloc: Global, row: &Row) -> Answer {
    let text = row.text(0);
    let limits = row.limits(1);
    match Syntax::read(alloc, text, limits) {
        Ok(syntax) => of_span(alloc, row, text, limits, &syntax),
        Err(fault) => fault.to_string(alloc),
    }
}

fn of_span(alloc: Global, row: &Row, text: &str, limits: Limits, syntax: &Syntax) -> Answer
    requires { spec.IsReadOf limits.profile limits.depth text.now syntax.now }
{
    let span = Span {
        start: row.number(2),
        end: row.number(3),
    };
    if !is_in(text, span) {
        return String::from_str(alloc, "no such span");
    }
    match row.question() {
        "touched" => {
            begin_count(alloc);
            let whole = syntax.lines(span);
            end_count(alloc);
            touched(alloc, whole)
        }
        _ => replaced(alloc, row, text, limits, syntax, span),
    }
}

// The syntax of the text with the lines of a span replaced, and what is known of it.
fn replaced(
    alloc: Global,
    row: &Row,
    text: &str,
    limits: Limits,
    syntax: &Syntax,
    span: Span,
) -> Answer
    requires read { spec.IsReadOf limits.profile limits.depth text.now syntax.now }
    requires in_text { spec.IsSpanIn syntax.now span }
{
    let lines = row.text(4);
    let new = match Syntax::read(alloc, lines, limits) {
        Ok(new) => new,
        Err(fault) => return fault.to_string(alloc),
    };
    let whole = syntax.lines(span);
    if has_mark(lines) {
        return String::from_str(alloc, "a byte order mark begins no lines");
    }
    if whole.end != text.len() && !are_closed(lines, limits, &new) {
        return String::from_str(alloc, "no newline ends these lines");
    }
    reread(alloc, row, limits, syntax, whole, lines)
}

fn reread(
    alloc: Global,
    row: &Row,
    limits: Limits,
    syntax: &Syntax,
    whole: Span,
    lines: &str,
) -> Answer
    requires { spec.MayReread limits.profile limits.depth syntax.now whole lines.now }
{
    let found = syntax.reread(alloc, whole, lines, limits);
    if found.is_err() && row.question() == "reread again" {
        let found = syntax.reread(alloc, whole, lines, limits);
        let stated = report_of_reread(alloc, row, found)?;
        return format!(in alloc; "refused and made again: {stated}");
    }
    report_of_reread(alloc, row, found)
}

fn report_of_reread(alloc: Global, row: &Row, found: Result<Syntax, AllocError>) -> Answer {
    let syntax = found?;
    report_of(alloc, row.text(5), &syntax)
}

// Whether a span is in a text, and not in its byte order mark.
fn is_in(text: &str, span: Span) -> bool
    ensures after { IsTrue result → (3 ≤ span.start) ⊎ (slice_index text.now 0 ≡ 0xEF → ⊥) }
    ensures order { IsTrue result → span.start ≤ span.end }
    ensures within { IsTrue result → span.end ≤ length text.now }
{
    let is_after_mark = 3 <= span.start || !has_mark(text);
    is_after_mark && span.start <= span.end && span.end <= text.len()
}

// Whether a text may begin with a byte order mark.
fn has_mark(text: &str) -> bool
    ensures { slice_index text.now 0 ≡ 0xEF → IsTrue result }
{
    let bytes = text.as_bytes();
    !bytes.is_empty() && bytes[0] == 0xEF
}

// Whether lines that were read end in a newline, or have no bytes: so other lines can come after them.
fn are_closed(lines: &str, limits: Limits, new: &Syntax) -> bool
    requires read { spec.IsReadOf limits.profile limits.depth lines.now new.now }
    requires plain { slice_index lines.now 0 ≡ 0xEF → ⊥ }
    ensures { IsTrue result → (m : Document) → Reads limits.profile limits.depth lines.now m
        → spec.IsSyntaxOf new.now m → m.last ≡ empty_line }
{
    let end = lines.len();
    new.lines(Span { start: end, end }).start == end
}

fn touched(alloc: Global, whole: Span) -> Answer {
    format!(in alloc; "{}..{}", whole.start, whole.end)
}
