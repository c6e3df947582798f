//! Questions about the texts of values.
use crate::edits::set;
use keep_edit::{Document, Path, PathFault, Profile, ReadFault, ValueText};
use keep_test_questions::{Answer, Row, unknown};
use std::alloc::{AllocError, Global};

/// The word is a text. A text that is no value of the profile is answered by its fault.
pub fn answer(alloc: Global, row: &Row, profile: Profile) -> Answer {
    let text = row.text(0);
    match row.question() {
        "read" => read_text(alloc, read(alloc, text, profile)),
        "profile" => profile_of(alloc, read(alloc, text, profile)),
        "string" => written(alloc, ValueText::of_str(alloc, text)),
        "integer" => integer(alloc, text),
        "boolean" => written(alloc, ValueText::of_bool(alloc, text == "true")),
        _ => unknown(alloc),
    }
}

fn read(alloc: Global, text: &str, profile: Profile) -> Result<ValueText, ReadFault> {
    match profile {
        Profile::Strict => ValueText::read(alloc, text),
        Profile::Wide => ValueText::read_in(alloc, text, Profile::Wide),
    }
}

fn read_text(alloc: Global, value: Result<ValueText, ReadFault>) -> Answer {
    match value {
        Ok(value) => String::from_str(alloc, value.as_str()),
        Err(fault) => fault.to_string(alloc),
    }
}

// The profile of a value's text, whatever profile it is read in.
fn profile_of(alloc: Global, value: Result<ValueText, ReadFault>) -> Answer {
    match value {
        Ok(value) => format!(in alloc; "{:?}", value.profile()),
        Err(fault) => fault.to_string(alloc),
    }
}

fn integer(alloc: Global, text: &str) -> Answer {
    match text.parse::<i64>() {
        Ok(value) => written(alloc, ValueText::of_int(alloc, value)),
        Err(_) => String::from_str(alloc, "no integer"),
    }
}

// The text of a value, and what comes of setting a key to it: the splice, and the text of the document.
fn written(alloc: Global, value: Result<ValueText, AllocError>) -> Answer {
    let value = value?;
    match Document::read(alloc, b"a = 1\n") {
        Ok(mut document) => set_key(alloc, &mut document, &value),
        Err(fault) => fault.to_string(alloc),
    }
}

fn set_key(alloc: Global, document: &mut Document, value: &ValueText) -> Answer {
    let done = set_at(alloc, document, Path::read(alloc, "a"), value)?;
    format!(in alloc; "{}\n{done}{}", value.as_str(), document.text())
}

fn set_at(
    alloc: Global,
    document: &mut Document,
    path: Result<Path, PathFault>,
    value: &ValueText,
) -> Answer {
    match path {
        Ok(path) => set(alloc, document, &path, value),
        Err(fault) => fault.to_string(alloc),
    }
}
