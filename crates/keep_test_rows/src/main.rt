//! Answers rows about the libraries below: a line of standard input has a name, the answer that is wanted, a question
//! and its words. A row with another answer is printed, and then how many rows passed and failed; the status is 1 if
//! one failed. The rows in the file `stdin` come from outside: no answer in them was taken from this program.
#![tactic(auto)]

mod documents;
mod edits;
mod growths;
mod index;
mod lists;
mod values;

use keep_edit::Profile;
use keep_test_questions::{Answer, Row, leaves, lines, paths, syntax, unknown};
use std::alloc::{AllocError, Global};
use std::io;
use std::io::{BufRead, BufReader};
use std::process::ExitCode;

fn main(rt: HostRuntime) -> io::Result<ExitCode> {
    let mut passed = 0u64;
    let mut failed = 0u64;
    for line in BufReader::new(rt.alloc(), rt.stdin())?.lines(rt.alloc()) {
        match failure_of(rt.alloc(), line?.as_str())? {
            Verdict::NoRow => {}
            Verdict::Passed => passed = passed.saturating_add(1),
            Verdict::Failed(text) => {
                failed = failed.saturating_add(1);
                println!(rt; "{text}")?;
            }
        }
    }
    println!(rt; "{passed} passed, {failed} failed")?;
    Ok(ExitCode::from(u8::from(failed > 0)))
}

/// What is found of a line.
#[derive(Drop)]
enum Verdict {
    /// It is empty or a comment.
    NoRow,
    Passed,
    /// With what is printed.
    Failed(String),
}

fn failure_of(alloc: Global, line: &str) -> io::Result<Verdict> {
    if line.is_empty() || line.starts_with('#') {
        return Ok(Verdict::NoRow);
    }
    let row = Row::read(alloc, line)?;
    Ok(verdict_of(alloc, &row, answer(alloc, &row))?)
}

fn verdict_of(alloc: Global, row: &Row, found: Answer) -> Result<Verdict, AllocError> {
    let found = found?;
    if found.as_bytes() == row.wanted() {
        return Ok(Verdict::Passed);
    }
    let text = format!(in alloc; "{}: {found:?}", row.name())?;
    Ok(Verdict::Failed(text))
}

fn answer(alloc: Global, row: &Row) -> Answer {
    match row.group() {
        "leaf" => leaves::answer(alloc, row),
        "syntax" => syntax::answer(alloc, row),
        "lines" => lines::answer(alloc, row),
        "value" => values::answer(alloc, row, Profile::Strict),
        "wide value" => values::answer(alloc, row, Profile::Wide),
        "path" => paths::answer(alloc, row),
        "index" => index::answer(alloc, row),
        "document" => documents::answer(alloc, row, Profile::Strict),
        "wide document" => documents::answer(alloc, row, Profile::Wide),
        "edit" => edits::answer(alloc, row, Profile::Strict),
        "wide edit" => edits::answer(alloc, row, Profile::Wide),
        "edits" => lists::answer(alloc, row, Profile::Strict),
        "wide edits" => lists::answer(alloc, row, Profile::Wide),
        "quiet" => growths::answer(alloc, row),
        _ => unknown(alloc),
    }
}
