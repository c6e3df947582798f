//! Questions to syntax and paths that take no memory: what each asks is between two marks, which a heap that counts its
//! growths reads.
use crate::lines;
use crate::paths::push_step;
use crate::row::{Answer, Row, unknown};
use keep_path::Path;
use keep_syntax::{Limits, Syntax, Tokens, ValueSyntax};
use std::alloc::{AllocError, Global};
use std::fmt::Write;

// A request of so many bytes, which no machine has, begins the count; one byte more ends it.
const BEGIN: usize = 0x4000_0000_0000_0000;

const END: usize = 0x4000_0000_0000_0001;

/// Begins the count of growths.
pub fn begin_count(alloc: Global) {
    mark(alloc, BEGIN);
}

/// Ends it.
pub fn end_count(alloc: Global) {
    mark(alloc, END);
}

// Asks for a block that no machine has.
fn mark(alloc: Global, bytes: usize) {
    let _ = Vec::<u8>::with_capacity(alloc, bytes);
}

/// What an answer is written into, so that reporting it takes no memory either.
pub fn room(alloc: Global) -> Answer {
    String::with_capacity(alloc, 4096)
}

/// The first word is a text: of a document for `syntax` and `touched`, of a value for `alone`, of a path for `path`.
/// For `touched` there are the words of the group `lines` too.
pub fn answer(alloc: Global, row: &Row) -> Answer {
    match row.question() {
        "syntax" => of_document(alloc, row.text(0)),
        "touched" => lines::answer(alloc, row),
        "alone" => of_value(alloc, row.text(0)),
        "path" => of_path(alloc, row.text(0)),
        _ => unknown(alloc),
    }
}

fn of_document(alloc: Global, text: &str) -> Answer {
    match Syntax::read(alloc, text, Limits::STANDARD) {
        Ok(syntax) => {
            let mut out = room(alloc)?;
            begin_count(alloc);
            let stated = tell_syntax(&mut out, &syntax, syntax.tokens(text));
            end_count(alloc);
            stated?;
            Ok(out)
        }
        Err(fault) => fault.to_string(alloc),
    }
}

// How many tokens there are, and where each begins; then so of statements, key parts and values.
fn tell_syntax(out: &mut String, syntax: &Syntax, tokens: Tokens<'_>) -> Result<(), AllocError> {
    write!(out, "{}:", syntax.token_count())?;
    for token in tokens {
        write!(out, " {}", token.at)?;
    }
    write!(out, "; {}:", syntax.statement_count())?;
    for number in 0..syntax.statement_count() {
        write!(out, " {}", syntax.statement(number).span.start)?;
    }
    write!(out, "; {}:", syntax.key_count())?;
    for number in 0..syntax.key_count() {
        write!(out, " {}", syntax.key_part(number).span.start)?;
    }
    write!(out, "; {}:", syntax.value_count())?;
    for number in 0..syntax.value_count() {
        write!(out, " {}", syntax.value(number).span.start)?;
    }
    Ok(())
}

fn of_value(alloc: Global, text: &str) -> Answer {
    match ValueSyntax::read(alloc, text, Limits::STANDARD) {
        Ok(syntax) => {
            let mut out = room(alloc)?;
            begin_count(alloc);
            let stated = tell_value(&mut out, &syntax);
            end_count(alloc);
            stated?;
            Ok(out)
        }
        Err(fault) => fault.to_string(alloc),
    }
}

// The depth; then how many key parts there are, and where each begins, and so of values.
fn tell_value(out: &mut String, syntax: &ValueSyntax) -> Result<(), AllocError> {
    write!(out, "{}; {}:", syntax.depth(), syntax.key_count())?;
    for number in 0..syntax.key_count() {
        write!(out, " {}", syntax.key_part(number).span.start)?;
    }
    write!(out, "; {}:", syntax.value_count())?;
    for number in 0..syntax.value_count() {
        write!(out, " {}", syntax.value(number).span.start)?;
    }
    Ok(())
}

fn of_path(alloc: Global, text: &str) -> Answer {
    match Path::read(alloc, text) {
        Ok(path) => {
            let mut out = room(alloc)?;
            begin_count(alloc);
            let first_index = Path::first_index(text);
            let stated = tell_path(&mut out, alloc, &path, first_index);
            end_count(alloc);
            stated?;
            Ok(out)
        }
        Err(fault) => fault.to_string(alloc),
    }
}

// The steps, as in the group `path`, the length of the text, the place of the first index, and how many steps a new
// path has.
fn tell_path(
    out: &mut String,
    alloc: Global,
    path: &Path,
    first_index: Option<usize>,
) -> Result<(), AllocError> {
    for number in 0..path.len() {
        push_step(out, path.step(number))?;
    }
    write!(
        out,
        " {} {first_index:?} {}",
        path.encoded_len(),
        Path::new(alloc).len()
    )
}
