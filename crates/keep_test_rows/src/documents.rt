//! Questions about documents.
use keep_edit::{Document, Entry, NodeRef, Path, Profile, ReadFault};
use keep_test_questions::paths::path_of;
use keep_test_questions::syntax::push_tokens;
use keep_test_questions::{Answer, Row, unknown};
use std::alloc::{AllocError, Global};
use std::fmt::Write;

/// The first word is the bytes of a document. What is no document of the profile is answered by its fault.
pub fn answer(alloc: Global, row: &Row, profile: Profile) -> Answer {
    match read(alloc, row.bytes(0), profile) {
        Ok(document) => report_of(alloc, &document, row),
        Err(fault) => fault.to_string(alloc),
    }
}

/// The document of these bytes by the grammar of a profile.
pub fn read(alloc: Global, bytes: &[u8], profile: Profile) -> Result<Document, ReadFault> {
    match profile {
        Profile::Strict => Document::read(alloc, bytes),
        Profile::Wide => Document::read_in(alloc, bytes, Profile::Wide),
    }
}

// Whether a document has all the facts that it has where it is read in Strict.
fn as_in_strict(alloc: Global, document: &Document) -> Answer {
    match Document::read(alloc, document.text().as_bytes()) {
        Ok(strict) => seen(alloc, has_facts_of(alloc, document, &strict)),
        Err(fault) => fault.to_string(alloc),
    }
}

fn seen(alloc: Global, same: Result<bool, AllocError>) -> Answer {
    let same = same?;
    format!(in alloc; "{same}")
}

/// Whether a document has the facts of another.
pub fn has_facts_of(
    alloc: Global,
    document: &Document,
    other: &Document,
) -> Result<bool, AllocError> {
    let facts = facts_of(alloc, document)?;
    has_facts(alloc, other, facts.as_str())
}

/// Whether these are the facts of a document.
pub fn has_facts(alloc: Global, document: &Document, facts: &str) -> Result<bool, AllocError> {
    let found = facts_of(alloc, document)?;
    Ok(found.as_str() == facts)
}

fn report_of(alloc: Global, document: &Document, row: &Row) -> Answer {
    match row.question() {
        "text" => String::from_str(alloc, document.text()),
        "counts" => format!(in alloc; "{:?}", document.counts()),
        "list" => list(alloc, document),
        "get by steps" => got_by_steps(alloc, document, row),
        "as in strict" => as_in_strict(alloc, document),
        "keys of item" | "string in item" => in_item(alloc, document, row),
        question => report_at(alloc, document, question, row.text(1)),
    }
}

// The paths of all nodes but the root with their kinds, each on its line.
fn list(alloc: Global, document: &Document) -> Answer {
    let mut out = String::new(alloc);
    for entry in document.list(alloc)? {
        push_entry(alloc, &mut out, &entry)?;
    }
    Ok(out)
}

fn push_entry(alloc: Global, out: &mut String, entry: &Entry) -> Result<(), AllocError> {
    let path = entry.path.encode(alloc)?;
    writeln!(out, "{path} {:?}", entry.kind)
}

fn got_by_steps(alloc: Global, document: &Document, row: &Row) -> Answer {
    let path = path_of(alloc, row, 1, row.word_count())?;
    got(alloc, document, &path)
}

// What is asked at the path that a text tells.
fn report_at(alloc: Global, document: &Document, question: &str, path: &str) -> Answer {
    let Ok(path) = Path::read(alloc, path) else {
        return String::from_str(alloc, "no path");
    };
    match question {
        "kind" => format!(in alloc; "{:?}", document.kind(&path)),
        "integer" => format!(in alloc; "{:?}", document.int_value(&path)),
        "get" => got(alloc, document, &path),
        "string" => string(alloc, document, &path),
        _ => unknown(alloc),
    }
}

fn got(alloc: Global, document: &Document, path: &Path) -> Answer {
    match document.get(path) {
        Ok(text) => String::from_str(alloc, text),
        Err(fault) => fault.to_string(alloc),
    }
}

// What is asked of the item of a number at a path.
fn in_item(alloc: Global, document: &Document, row: &Row) -> Answer {
    let Ok(path) = Path::read(alloc, row.text(1)) else {
        return String::from_str(alloc, "no path");
    };
    match item_at(document, &path, row.number(2)) {
        Some(item) if row.question() == "keys of item" => {
            format!(in alloc; "{}", item.child_count())
        }
        Some(item) => marked(alloc, string_below(alloc, item, row.text(3))?),
        None => String::from_str(alloc, "no item"),
    }
}

// The string at a key of a node.
fn string_below(alloc: Global, node: NodeRef, key: &str) -> Result<Option<String>, AllocError> {
    match node.str_text(alloc, key)? {
        Some(text) => Ok(Some(text.into_string(alloc)?)),
        None => Ok(None),
    }
}

fn item_at<'d>(document: &'d Document, path: &Path, number: usize) -> Option<NodeRef<'d>> {
    document.node(path)?.item(number)
}

// The string at a path.
fn string(alloc: Global, document: &Document, path: &Path) -> Answer {
    marked(alloc, document.str_value(alloc, path)?)
}

// A string in angle brackets, or `none`.
fn marked(alloc: Global, found: Option<String>) -> Answer {
    match found {
        Some(text) => format!(in alloc; "<{text}>"),
        None => String::from_str(alloc, "none"),
    }
}

/// The facts of a document: its counts, its tokens and its nodes.
pub fn facts_of(alloc: Global, document: &Document) -> Answer {
    let mut out = format!(in alloc; "{:?}\n", document.counts())?;
    push_tokens(&mut out, document.tokens())?;
    push_nodes(alloc, &mut out, document)?;
    Ok(out)
}

fn push_nodes(alloc: Global, out: &mut String, document: &Document) -> Result<(), AllocError> {
    for entry in document.list(alloc)? {
        push_node(alloc, out, document, &entry)?;
    }
    Ok(())
}

// A node: its path, its kind, and its value as it is written, as an integer and as a string.
fn push_node(
    alloc: Global,
    out: &mut String,
    document: &Document,
    entry: &Entry,
) -> Result<(), AllocError> {
    let path = entry.path.encode(alloc)?;
    let written = document.get(&entry.path);
    let integer = document.int_value(&entry.path);
    write!(out, "{path} {:?} {written:?} {integer:?} ", entry.kind)?;
    let string = string(alloc, document, &entry.path)?;
    writeln!(out, "{string}")
}
