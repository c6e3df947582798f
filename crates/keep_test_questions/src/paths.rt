//! Questions about paths.
use crate::row::{Answer, Row, unknown};
use keep_path::{Path, PathFault, Step};
use std::alloc::{AllocError, Global};
use std::fmt::Write;

/// The word is the text of a path; for `is key` then the number of a step and a key; for `built` the words are steps,
/// those of digits alone being indexes.
pub fn answer(alloc: Global, row: &Row) -> Answer {
    match row.question() {
        "built" => built(alloc, path_of(alloc, row, 0, row.word_count())),
        "built again" => built_again(alloc, row),
        "faults" => faults(alloc),
        "first index" => first_index(alloc, row.text(0)),
        _ => asked(alloc, row, Path::read(alloc, row.text(0))),
    }
}

fn asked(alloc: Global, row: &Row, path: Result<Path, PathFault>) -> Answer {
    match path {
        Ok(path) => stated(alloc, row, &path),
        Err(fault) => fault.to_string(alloc),
    }
}

fn stated(alloc: Global, row: &Row, path: &Path) -> Answer {
    match row.question() {
        "read" => report_of(alloc, path),
        "is key" => is_key(alloc, path, row.number(1), row.text(2)),
        _ => unknown(alloc),
    }
}

// The steps of a path, each key in angle brackets, each index in parentheses, then its text and the length of that.
fn report_of(alloc: Global, path: &Path) -> Answer {
    let mut out = String::new(alloc);
    for number in 0..path.len() {
        push_step(&mut out, path.step(number))?;
    }
    let text = path.encode(alloc)?;
    write!(out, " {text} {}", path.encoded_len())?;
    Ok(out)
}

/// Writes a step: a key in angle brackets, an index in parentheses.
pub(crate) fn push_step(out: &mut String, step: Option<&Step>) -> Result<(), AllocError> {
    match step {
        Some(Step::Key(key)) => write!(out, "<{key}>"),
        Some(Step::Index(index)) => write!(out, "({index})"),
        None => out.push_str("none"),
    }
}

// Whether the step of a number is this key.
fn is_key(alloc: Global, path: &Path, number: usize, key: &str) -> Answer {
    let found = path.step(number).map(|step| step.is_key(key));
    format!(in alloc; "{found:?}")
}

fn first_index(alloc: Global, text: &str) -> Answer {
    match Path::read(alloc, text) {
        Ok(_) => format!(in alloc; "{:?}", Path::first_index(text)),
        Err(fault) => fault.to_string(alloc),
    }
}

fn built(alloc: Global, path: Result<Path, AllocError>) -> Answer {
    let path = path?;
    report_of(alloc, &path)
}

// Builds the path of a row, and each push for which memory was refused is made again. What it answered comes first.
fn built_again(alloc: Global, row: &Row) -> Answer {
    let mut out = String::new(alloc);
    let mut path = Path::new(alloc);
    for word in 0..row.word_count() {
        out.push_str(pushed(alloc, &mut path, row.text(word))?)?;
    }
    out.push_str(report_of(alloc, &path)?.as_str())?;
    Ok(out)
}

fn pushed(alloc: Global, path: &mut Path, word: &str) -> Result<&'static str, AllocError> {
    let before = report_of(alloc, path)?;
    if push_word(path, word).is_ok() {
        return Ok("");
    }
    let after = report_of(alloc, path)?;
    push_word(path, word)?;
    Ok(if after.as_str() == before.as_str() {
        "refused and made again: "
    } else {
        "changed by a refused push: "
    })
}

/// The path whose steps are these words of a row.
pub fn path_of(alloc: Global, row: &Row, first: usize, end: usize) -> Result<Path, AllocError> {
    let mut path = Path::new(alloc);
    for word in first..end {
        push_word(&mut path, row.text(word))?;
    }
    Ok(path)
}

fn push_word(path: &mut Path, word: &str) -> Result<(), AllocError> {
    match word.parse::<usize>() {
        Ok(index) if path.len() > 0 => path.push_index(index),
        _ => path.push_key(word),
    }
}

// How the faults of paths print.
fn faults(alloc: Global) -> Answer {
    format!(in alloc; "{}, {}", PathFault::BadPath { at: 3 }, PathFault::Memory)
}
