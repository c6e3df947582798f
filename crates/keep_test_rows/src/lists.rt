//! Lists of edits.
use crate::documents::read;
use crate::edits::{is_as_read, keys_of};
use keep_edit::{Document, Edit, EditFault, Path, Profile, ReadFault, Splice, ValueText};
use keep_test_questions::{Answer, Row, unknown};
use std::alloc::{AllocError, Global};
use std::fmt::Write;

/// The words are the bytes of a document, and then for each edit its name, its path, and a value, a key or nothing. The
/// document and the values are read in the profile. The answer is a line, `done` or the number of the edit that is
/// refused with its fault, and then the text of the document. For `all again` a list for which memory was refused is
/// made again. For `splices` the answer is a line for each edit, made one after another: the splice (from, to, bytes
/// added, bytes scanned) or the fault.
pub fn answer(alloc: Global, row: &Row, profile: Profile) -> Answer {
    match row.question() {
        "all" | "all again" | "splices" => edited(
            alloc,
            row,
            profile,
            edits_of(alloc, row, profile),
        ),
        _ => unknown(alloc),
    }
}

fn edited(
    alloc: Global,
    row: &Row,
    profile: Profile,
    edits: Result<Option<Vec<Edit>>, ReadFault>,
) -> Answer {
    match edits {
        Ok(Some(edits)) => listed_as(alloc, row, profile, edits.as_slice()),
        Ok(None) => String::from_str(alloc, "no such edit"),
        Err(fault) => fault.to_string(alloc),
    }
}

fn listed_as(alloc: Global, row: &Row, profile: Profile, edits: &[Edit]) -> Answer {
    match row.question() {
        "all again" => again(alloc, row, profile, edits),
        "splices" => splices(alloc, row, profile, edits),
        _ => compared(alloc, row, profile, edits),
    }
}

fn splices(alloc: Global, row: &Row, profile: Profile, edits: &[Edit]) -> Answer {
    match read(alloc, row.bytes(0), profile) {
        Ok(mut document) => splice_lines(alloc, &mut document, edits),
        Err(fault) => fault.to_string(alloc),
    }
}

fn splice_lines(alloc: Global, document: &mut Document, edits: &[Edit]) -> Answer {
    let mut out = String::new(alloc);
    for edit in edits {
        push_splice(&mut out, document.apply(edit))?;
    }
    Ok(out)
}

fn push_splice(out: &mut String, done: Result<Splice, EditFault>) -> Result<(), AllocError> {
    match done {
        Ok(it) => writeln!(out, "{} {} {} {}", it.start, it.end, it.added, it.scanned),
        Err(fault) => writeln!(out, "{fault}"),
    }
}

fn again(alloc: Global, row: &Row, profile: Profile, edits: &[Edit]) -> Answer {
    match read(alloc, row.bytes(0), profile) {
        Ok(mut document) => listed_again(alloc, &mut document, edits, row.text(0)),
        Err(fault) => fault.to_string(alloc),
    }
}

fn listed_again(alloc: Global, document: &mut Document, edits: &[Edit], before: &str) -> Answer {
    match document.apply_all(edits) {
        Err((_, EditFault::Memory)) => made_again(alloc, document, edits, before),
        done => stated(alloc, done, document.text()),
    }
}

fn made_again(alloc: Global, document: &mut Document, edits: &[Edit], before: &str) -> Answer {
    let is_preserved = document.text() == before;
    let done = document.apply_all(edits);
    let outcome = stated(alloc, done, document.text())?;
    format!(in alloc; "{}{outcome}", again_of(is_preserved))
}

fn again_of(is_preserved: bool) -> &'static str {
    if is_preserved {
        "refused and made again: "
    } else {
        "changed by a refused list: "
    }
}

fn compared(alloc: Global, row: &Row, profile: Profile, edits: &[Edit]) -> Answer {
    let expected = one_by_one(alloc, row, profile, edits)?;
    at_once(alloc, row, profile, edits, expected.as_str())
}

// What comes of the edits one by one. After a refusal the text is to be as before.
fn one_by_one(alloc: Global, row: &Row, profile: Profile, edits: &[Edit]) -> Answer {
    match read(alloc, row.bytes(0), profile) {
        Ok(mut document) => folded(alloc, &mut document, edits, row.text(0)),
        Err(fault) => fault.to_string(alloc),
    }
}

fn folded(alloc: Global, document: &mut Document, edits: &[Edit], before: &str) -> Answer {
    let done = fold(document, edits);
    let text = if done.is_ok() {
        document.text()
    } else {
        before
    };
    stated(alloc, done, text)
}

// What comes of the list, and a doubt where something else was expected.
fn at_once(alloc: Global, row: &Row, profile: Profile, edits: &[Edit], expected: &str) -> Answer {
    match read(alloc, row.bytes(0), profile) {
        Ok(mut document) => listed(alloc, &mut document, edits, expected),
        Err(fault) => fault.to_string(alloc),
    }
}

fn listed(alloc: Global, document: &mut Document, edits: &[Edit], expected: &str) -> Answer {
    let done = document.apply_all(edits);
    let outcome = stated(alloc, done, document.text())?;
    doubted(alloc, document, outcome.as_str(), expected)
}

fn doubted(alloc: Global, document: &Document, outcome: &str, expected: &str) -> Answer {
    let is_whole = is_as_read(alloc, document)?;
    let doubt = doubt_of(outcome == expected, is_whole);
    format!(in alloc; "{outcome}{doubt}")
}

fn stated(alloc: Global, done: Result<(), (usize, EditFault)>, text: &str) -> Answer {
    match done {
        Ok(()) => format!(in alloc; "done\n{text}"),
        Err((number, fault)) => format!(in alloc; "{number} {fault}\n{text}"),
    }
}

fn doubt_of(agrees: bool, is_whole: bool) -> &'static str {
    match (agrees, is_whole) {
        (true, true) => "",
        (false, _) => ", but one by one the edits answer otherwise",
        (true, false) => ", but the document tells otherwise",
    }
}

// What comes of the edits one by one. The text that each is to give is asked for before it is made.
fn fold(document: &mut Document, edits: &[Edit]) -> Result<(), (usize, EditFault)> {
    for number in 0..edits.len() {
        if let Err(fault) = made(document, &edits[number]) {
            return Err((number, fault));
        }
    }
    Ok(())
}

// Makes an edit. Where it does not give the text or the fault that was given before, that is reported as out of memory.
fn made(document: &mut Document, edit: &Edit) -> Result<(), EditFault> {
    let stated = document.text_applied(edit);
    let done = document.apply(edit);
    if !agrees(&stated, &done, document) {
        return Err(EditFault::Memory);
    }
    done.map(|_| ())
}

// Whether an edit gave the text that it was to give, or the same fault.
fn agrees(
    stated: &Result<String, EditFault>,
    done: &Result<Splice, EditFault>,
    document: &Document,
) -> bool {
    match (stated, done) {
        (Ok(text), Ok(_)) => text.as_str() == document.text(),
        (Err(fault), Err(other)) => fault == other,
        _ => false,
    }
}

// The edits of a row; None where one is none.
fn edits_of(alloc: Global, row: &Row, profile: Profile) -> Result<Option<Vec<Edit>>, ReadFault> {
    let mut edits = Vec::new(alloc);
    for word in (1..row.word_count()).step_by(3) {
        let Some(edit) = edit_of(alloc, row, word, profile)? else {
            return Ok(None);
        };
        edits.push(edit)?;
    }
    Ok(Some(edits))
}

// The edit whose name is this word of a row.
fn edit_of(
    alloc: Global,
    row: &Row,
    word: usize,
    profile: Profile,
) -> Result<Option<Edit>, ReadFault> {
    match Path::read(alloc, row.text(word.saturating_add(1))) {
        Ok(path) => named(
            alloc,
            row.text(word),
            path,
            row.text(word.saturating_add(2)),
            profile,
        ),
        Err(_) => Ok(None),
    }
}

fn named(
    alloc: Global,
    name: &str,
    path: Path,
    text: &str,
    profile: Profile,
) -> Result<Option<Edit>, ReadFault> {
    match name {
        "set" => set(path, ValueText::read_in(alloc, text, profile)),
        "insert" => insert(path, ValueText::read_in(alloc, text, profile)),
        "rename" => rename(path, String::from_str(alloc, text)),
        "remove" => Ok(Some(Edit::Remove(path))),
        "table" => table(keys_of(alloc, &path)),
        "element" => element(keys_of(alloc, &path)),
        _ => Ok(None),
    }
}

fn set(path: Path, value: Result<ValueText, ReadFault>) -> Result<Option<Edit>, ReadFault> {
    Ok(Some(Edit::Set(path, value?)))
}

fn insert(path: Path, value: Result<ValueText, ReadFault>) -> Result<Option<Edit>, ReadFault> {
    Ok(Some(Edit::Insert(path, value?)))
}

fn rename(path: Path, key: Result<String, AllocError>) -> Result<Option<Edit>, ReadFault> {
    Ok(Some(Edit::Rename(path, key?)))
}

fn table(keys: Result<Vec<String>, AllocError>) -> Result<Option<Edit>, ReadFault> {
    Ok(Some(Edit::Table(keys?)))
}

fn element(keys: Result<Vec<String>, AllocError>) -> Result<Option<Edit>, ReadFault> {
    Ok(Some(Edit::Element(keys?)))
}
