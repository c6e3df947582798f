//! Edits of documents.
use crate::documents::{facts_of, has_facts, has_facts_of, read};
use keep_edit::{Document, EditFault, Path, Profile, ReadFault, Splice, Step, ValueText};
use keep_test_questions::{Answer, Row, unknown};
use std::alloc::{AllocError, Global};

/// The words are the bytes of a document, then paths in turn with values (keys for `rename`, nothing for `remove`,
/// `table` and `element`). The document is read in the profile, a value in Strict, or for `set wide` in Wide. The
/// answer is a line for each edit, and then the text of the document.
pub fn answer(alloc: Global, row: &Row, profile: Profile) -> Answer {
    match read(alloc, row.bytes(0), profile) {
        Ok(document) => edited(alloc, row, document),
        Err(fault) => fault.to_string(alloc),
    }
}

fn edited(alloc: Global, row: &Row, mut document: Document) -> Answer {
    let lines = edit_lines(alloc, row, &mut document);
    with_text(lines, document.into_text())
}

fn with_text(lines: Answer, text: String) -> Answer {
    let mut out = lines?;
    out.push_str(text.as_str())?;
    Ok(out)
}

fn edit_lines(alloc: Global, row: &Row, document: &mut Document) -> Answer {
    let mut out = String::new(alloc);
    for word in (1..row.word_count()).step_by(2) {
        let line = edit(alloc, document, row, word)?;
        out.push_str(line.as_str())?;
    }
    Ok(out)
}

// The edit of the path that is this word of a row, and the word after it.
fn edit(alloc: Global, document: &mut Document, row: &Row, word: usize) -> Answer {
    let text = row.text(word.saturating_add(1));
    match Path::read(alloc, row.text(word)) {
        Ok(path) => edit_at(alloc, document, row.question(), &path, text),
        Err(_) => String::from_str(alloc, "no path\n"),
    }
}

fn edit_at(
    alloc: Global,
    document: &mut Document,
    question: &str,
    path: &Path,
    text: &str,
) -> Answer {
    match question {
        "set" => set_to(alloc, document, path, ValueText::read(alloc, text)),
        "set wide" => set_wide(alloc, document, path, text),
        "insert" => insert_to(alloc, document, path, ValueText::read(alloc, text)),
        "rename" => rename(alloc, document, path, text),
        "remove" => remove(alloc, document, path),
        "table" => append_table(alloc, document, keys_of(alloc, path)),
        "element" => append_element(alloc, document, keys_of(alloc, path)),
        _ => unknown(alloc),
    }
}

fn set_wide(alloc: Global, document: &mut Document, path: &Path, text: &str) -> Answer {
    let value = ValueText::read_in(alloc, text, Profile::Wide);
    set_to(alloc, document, path, value)
}

fn set_to(
    alloc: Global,
    document: &mut Document,
    path: &Path,
    value: Result<ValueText, ReadFault>,
) -> Answer {
    match value {
        Ok(value) => set(alloc, document, path, &value),
        Err(fault) => format!(in alloc; "{fault}\n"),
    }
}

/// What comes of setting a path to a value, in a line: the splice (from, to, bytes added) or the fault, and whether
/// `text_with` or a document that is read afresh tells otherwise.
pub fn set(alloc: Global, document: &mut Document, path: &Path, value: &ValueText) -> Answer {
    let before = before(alloc, document, document.text_with(path, value))?;
    let done = document.set(path, value);
    outcome(alloc, document, &before, done)
}

fn insert_to(
    alloc: Global,
    document: &mut Document,
    path: &Path,
    value: Result<ValueText, ReadFault>,
) -> Answer {
    match value {
        Ok(value) => insert(alloc, document, path, &value),
        Err(fault) => format!(in alloc; "{fault}\n"),
    }
}

fn insert(alloc: Global, document: &mut Document, path: &Path, value: &ValueText) -> Answer {
    let before = before(alloc, document, document.text_inserted(path, value))?;
    let done = document.insert(path, value);
    outcome(alloc, document, &before, done)
}

fn rename(alloc: Global, document: &mut Document, path: &Path, key: &str) -> Answer {
    let before = before(alloc, document, document.text_renamed(path, key))?;
    let done = document.rename(path, key);
    outcome(alloc, document, &before, done)
}

fn remove(alloc: Global, document: &mut Document, path: &Path) -> Answer {
    let before = before(alloc, document, document.text_removed(path))?;
    let done = document.remove(path);
    outcome(alloc, document, &before, done)
}

fn append_table(
    alloc: Global,
    document: &mut Document,
    keys: Result<Vec<String>, AllocError>,
) -> Answer {
    let keys = keys?;
    let before = before(alloc, document, document.text_with_table(keys.as_slice()))?;
    let done = document.append_table(keys.as_slice());
    outcome(alloc, document, &before, done)
}

fn append_element(
    alloc: Global,
    document: &mut Document,
    keys: Result<Vec<String>, AllocError>,
) -> Answer {
    let keys = keys?;
    let before = before(alloc, document, document.text_with_element(keys.as_slice()))?;
    let done = document.append_element(keys.as_slice());
    outcome(alloc, document, &before, done)
}

/// The keys of a path, without its indexes.
pub fn keys_of(alloc: Global, path: &Path) -> Result<Vec<String>, AllocError> {
    let mut keys = Vec::new(alloc);
    for number in 0..path.len() {
        if let Some(Step::Key(text)) = path.step(number) {
            keys.push(text.clone()?)?;
        }
    }
    Ok(keys)
}

// What is known before an edit: the text that it is to give, or its fault, and the facts of the document.
#[derive(Drop)]
struct Earlier {
    text: String,
    facts: String,
}

fn before(
    alloc: Global,
    document: &Document,
    text: Result<String, EditFault>,
) -> Result<Earlier, AllocError> {
    let text = text_or_fault(alloc, text)?;
    let facts = facts_of(alloc, document)?;
    Ok(Earlier { text, facts })
}

fn text_or_fault(alloc: Global, text: Result<String, EditFault>) -> Answer {
    match text {
        Ok(text) => Ok(text),
        Err(fault) => fault.to_string(alloc),
    }
}

fn outcome(
    alloc: Global,
    document: &Document,
    before: &Earlier,
    done: Result<Splice, EditFault>,
) -> Answer {
    match done {
        Ok(splice) => made(alloc, document, before, splice),
        Err(fault) => refused(alloc, document, before, fault),
    }
}

fn made(alloc: Global, document: &Document, before: &Earlier, splice: Splice) -> Answer {
    let agrees = before.text.as_str() == document.text();
    let doubt = doubt_of(agrees, is_as_read(alloc, document)?);
    format!(in alloc; "{} {} {}{doubt}\n", splice.start, splice.end, splice.added)
}

fn refused(alloc: Global, document: &Document, before: &Earlier, fault: EditFault) -> Answer {
    let name = fault.to_string(alloc)?;
    let agrees = before.text.as_str() == name.as_str();
    let doubt = doubt_of(agrees, has_facts(alloc, document, before.facts.as_str())?);
    format!(in alloc; "{name}{doubt}\n")
}

fn doubt_of(agrees: bool, is_whole: bool) -> &'static str {
    match (agrees, is_whole) {
        (true, true) => "",
        (false, _) => ", but the text alone is told otherwise",
        (true, false) => ", but the document tells otherwise",
    }
}

/// Whether a document has the facts of one that is read from its text.
pub fn is_as_read(alloc: Global, document: &Document) -> Result<bool, AllocError> {
    match read(alloc, document.text().as_bytes(), document.profile()) {
        Ok(afresh) => has_facts_of(alloc, document, &afresh),
        Err(_) => Ok(false),
    }
}
