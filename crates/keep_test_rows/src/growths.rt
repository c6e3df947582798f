//! Questions that take no memory: what each asks is between two marks, which a heap that counts its growths reads.
use crate::edits::keys_of;
use crate::index;
use keep_edit::{Document, EditFault, Path, Profile, ValueText};
use keep_test_questions::growths::{begin_count, end_count, room};
use keep_test_questions::{Answer, Row, growths};
use std::alloc::{AllocError, Global};
use std::fmt::Write;

/// The words are a text, a path and a value: for `value` the text of a value, for `index` that of a document and a path
/// in it; for questions to a document and for edits its text, a path, and the value or the key that the edit gives.
/// Values are read in the wide profile, and all else in TOML v1.0.0.
pub fn answer(alloc: Global, row: &Row) -> Answer {
    match row.question() {
        "syntax" | "touched" | "alone" | "path" => growths::answer(alloc, row),
        "index" => index::answer(alloc, row),
        "value" => of_value(alloc, row.text(0)),
        _ => of_document(alloc, row),
    }
}

fn of_value(alloc: Global, text: &str) -> Answer {
    match ValueText::read_in(alloc, text, Profile::Wide) {
        Ok(value) => {
            let mut out = room(alloc)?;
            begin_count(alloc);
            let stated = tell_value(&mut out, &value);
            end_count(alloc);
            stated?;
            Ok(out)
        }
        Err(fault) => fault.to_string(alloc),
    }
}

// The text, the profile, the kind, the depth, and whether TOML v1.0.0 allows it.
fn tell_value(out: &mut String, value: &ValueText) -> Result<(), AllocError> {
    let allowed = value.is_allowed_in(Profile::Strict);
    write!(
        out,
        "{} {:?} {:?}",
        value.as_str(),
        value.profile(),
        value.kind()
    )?;
    write!(out, " {} {allowed}", value.depth())
}

fn of_document(alloc: Global, row: &Row) -> Answer {
    match Document::read(alloc, row.bytes(0)) {
        Ok(mut document) => asked(alloc, &mut document, row),
        Err(fault) => fault.to_string(alloc),
    }
}

fn asked(alloc: Global, document: &mut Document, row: &Row) -> Answer {
    match ValueText::read_in(alloc, row.text(2), Profile::Wide) {
        Ok(value) => asked_with(alloc, document, row, &value),
        Err(fault) => fault.to_string(alloc),
    }
}

fn asked_with(alloc: Global, document: &mut Document, row: &Row, value: &ValueText) -> Answer {
    match Path::read(alloc, row.text(1)) {
        Ok(path) => asked_at(alloc, document, row.question(), &path, value),
        Err(_) => String::from_str(alloc, "no path"),
    }
}

fn asked_at(
    alloc: Global,
    document: &mut Document,
    question: &str,
    path: &Path,
    value: &ValueText,
) -> Answer {
    let keys = keys_of(alloc, path)?;
    let mut out = room(alloc)?;
    begin_count(alloc);
    let stated = match question {
        "table" => write!(out, "{:?}", document.append_table(keys.as_slice())),
        "element" => write!(out, "{:?}", document.append_element(keys.as_slice())),
        "text_with_table" => tell_text(&mut out, document.text_with_table(keys.as_slice())),
        "text_with_element" => tell_text(&mut out, document.text_with_element(keys.as_slice())),
        question => tell_edit(&mut out, alloc, document, question, path, value),
    };
    end_count(alloc);
    stated?;
    Ok(out)
}

// The key that `rename` gives is the text of the value.
fn tell_edit(
    out: &mut String,
    alloc: Global,
    document: &mut Document,
    question: &str,
    path: &Path,
    value: &ValueText,
) -> Result<(), AllocError> {
    match question {
        "set" => write!(out, "{:?}", document.set(path, value)),
        "insert" => write!(out, "{:?}", document.insert(path, value)),
        "rename" => write!(out, "{:?}", document.rename(path, value.as_str())),
        "remove" => write!(out, "{:?}", document.remove(path)),
        "no edits" => write!(out, "{:?}", document.apply_all(&[])),
        "text_with" => tell_text(out, document.text_with(path, value)),
        "text_inserted" => tell_text(out, document.text_inserted(path, value)),
        "text_renamed" => tell_text(out, document.text_renamed(path, value.as_str())),
        "text_removed" => tell_text(out, document.text_removed(path)),
        question => tell(out, alloc, document, question, path),
    }
}

fn tell_text(out: &mut String, stated: Result<String, EditFault>) -> Result<(), AllocError> {
    match stated {
        Ok(text) => out.push_str(text.as_str()),
        Err(fault) => write!(out, "{fault}"),
    }
}

// Of these `string` alone takes memory, for the text that it answers.
fn tell(
    out: &mut String,
    alloc: Global,
    document: &Document,
    question: &str,
    path: &Path,
) -> Result<(), AllocError> {
    match question {
        "get" => write!(out, "{:?}", document.get(path)),
        "kind" => write!(out, "{:?}", document.kind(path)),
        "integer" => write!(out, "{:?}", document.int_value(path)),
        "text" => write!(out, "{}", document.text().len()),
        "tokens" => write!(out, "{}", last_place(document)),
        "counts" => write!(out, "{:?}", document.counts()),
        "children" => write!(out, "{:?}", document.child_count(path)),
        "profile" => write!(out, "{:?}", document.profile()),
        "string" => write!(out, "{:?}", document.str_value(alloc, path)),
        _ => out.push_str("no such question"),
    }
}

// Where the last token begins.
fn last_place(document: &Document) -> usize {
    let mut last = 0;
    for token in document.tokens() {
        last = token.at;
    }
    last
}
