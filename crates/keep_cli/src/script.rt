//! Scripts: lists of edits as a document.
ghost use Rattle.std.specs.Prelude.{◌≡◌, ◌⊎◌, [], ℕ, IfOk, IfSome, MatchResult, option_map};
ghost use Rattle.keep_syntax.specs.Tree as tree;
ghost use Rattle.keep_edit.specs.Children.{child_count_of};
ghost use Rattle.keep_edit.specs.NodeRefs.{IsNodeAt};
ghost use Rattle.keep_edit.specs.Reading.{IsTextOfTree};
ghost use Rattle.keep_edit.specs.StrTexts.{text_of_str};
ghost use Rattle.keep_args.specs.Table.{edit_words};
ghost use Rattle.keep_cli.specs.EditWords.{words_for, Makes};
ghost use Rattle.keep_cli.specs.Script as spec;
ghost use Rattle.keep_cli.specs.Script.{IsEntry, IsScript, IsScriptFault, IsTreeFault};
ghost use Rattle.keep_cli.specs.Scripting as steps;
ghost use Rattle.keep_cli.specs.Scripting.{AreTexts, AreTextsOf, IsElement, IsFaultAt, IsTextsFault, StatesEdits};

use crate::edit::{WordFault, edit_of};
use crate::fault::{EntryWhy, UseFault};
use keep_args::{Op, Word, edit_named};
use keep_edit::{Document, Edit, Kind, NodeRef, Path, Profile, ReadFault, StrText};
use std::alloc::{AllocError, Global};

// The texts of an element beside its op's. The third is empty where the op asks for none.
#[derive(Drop)]
struct Texts<'d> {
    path: StrText<'d>,
    third: StrText<'d>,
}

/// The edits of a script, whose values are read in a profile. It is a document whose only top-level key is `edit`, an
/// array of tables; or one without any key. An element has the string `op`, which is `set`, `insert`, `rename`,
/// `remove`, `table` or `element`, the string `path`, for `set` and `insert` the string `value`, for `rename` the
/// string `key`, and no other key.
///
/// # Errors
///
/// `Script` if the text is no document; else `Shape` if its top level is another; else `Entry` with the number of the
/// first element that states no edit, and the first reason why, in the order of `EntryWhy`; `Memory` where a growth was
/// refused.
pub fn script_of(alloc: Global, text: &str, profile: Profile) -> Result<Vec<Edit>, UseFault>
    ensures { MatchResult result (λ edits. IsScript profile text.now edits.items)
        (λ fault. (fault ≡ UseFault.Memory) ⊎ IsScriptFault profile text.now fault) }
{
    let document = match Document::read(alloc, text.as_bytes()) {
        Ok(document) => document,
        Err(ReadFault::Memory) => return Err(UseFault::Memory),
        Err(fault) => return Err(UseFault::Script(fault)),
    };
    edits_of(alloc, &document, profile)
}

// The edits of a script's document.
fn edits_of(alloc: Global, document: &Document, profile: Profile) -> Result<Vec<Edit>, UseFault>
    ensures { (s : tree.Document) → IsTextOfTree document.now s
        → MatchResult result (λ edits. StatesEdits profile s edits.items)
        (λ fault. (fault ≡ UseFault.Memory) ⊎ IsTreeFault profile s fault) }
{
    let mut path = Path::new(alloc);
    let keys = document.child_count(&path);
    path.push_key("edit")?;
    let Some(count) = element_count(document, &path, keys) else {
        return Err(UseFault::Shape);
    };
    let mut edits = Vec::new(alloc);
    let Some(array) = document.node(&path) else {
        return Ok(edits);
    };
    for index in 0..count {
        let edit = entry_of(alloc, &array, index, profile)?;
        match edits.push(edit) {
            Ok(()) => {}
            Err(_) => return Err(UseFault::Memory),
        }
    }
    Ok(edits)
}

// How many elements a script has, by the path of `edit` and the number of top-level keys; None where its top level is
// not a script's.
fn element_count(document: &Document, path: &Path, keys: Option<usize>) -> Option<usize>
    requires { path.now ≡ spec.edit_path }
    ensures { (s : tree.Document) → IsTextOfTree document.now s → keys ≡ child_count_of [] s
        → result ≡ spec.element_count s }
{
    counted(keys, document.kind(path), document.child_count(path))
}

// How many elements `edit` has, by the number of top-level keys and the kind of `edit`.
fn counted(keys: Option<usize>, kind: Option<Kind>, elements: Option<usize>) -> Option<usize>
    ensures { result ≡ spec.counted keys kind elements }
{
    match keys {
        Some(0) => Some(0),
        Some(1) => match kind {
            Some(Kind::Tables) => elements,
            _ => None,
        },
        _ => None,
    }
}

// The edit of the element of a number of the array that `edit` is.
fn entry_of(
    alloc: Global,
    array: &NodeRef,
    index: usize,
    profile: Profile,
) -> Result<Edit, UseFault>
    ensures { (s : tree.Document) → IsNodeAt s spec.edit_path array.now
        → MatchResult result (IsEntry profile s index)
        (λ fault. (fault ≡ UseFault.Memory) ⊎ IsFaultAt profile s index fault) }
{
    let Some(element) = array.item(index) else {
        let why = EntryWhy::Op;
        return Err(UseFault::Entry { index, why });
    };
    let Some((op, words)) = op_of(alloc, &element)? else {
        let why = EntryWhy::Op;
        return Err(UseFault::Entry { index, why });
    };
    let Some(texts) = texts_of(alloc, &element, op, words)? else {
        let why = EntryWhy::Keys;
        return Err(UseFault::Entry { index, why });
    };
    edit_from(alloc, index, profile, op, &texts)
}

// The op of an element, and what its words are; None where it has no string `op`, or an unknown one.
fn op_of(alloc: Global, element: &NodeRef) -> Result<Option<(Op, &'static [Word])>, AllocError>
    ensures op { (s : tree.Document) (n : ℕ) → IsElement s n element.now
        → IfOk result (λ found. option_map (λ edit. edit.0) found ≡ spec.op_of s n) }
    ensures words { IfOk result (λ found. IfSome found (λ edit. edit.1.now ≡ edit_words edit.0)) }
{
    match element.str_text(alloc, "op")? {
        Some(name) => Ok(edit_named(name.as_str())),
        None => Ok(None),
    }
}

// The key at which an element has a word of its op.
fn word_key(word: Word) -> &'static str
    ensures { result.now ≡ spec.word_key word }
{
    match word {
        Word::Value => "value",
        Word::Key => "key",
        Word::Path | Word::Keys | Word::Script | Word::WideScript => "path",
    }
}

// The key at which an element has the second of such words, if there is one.
fn third_key(words: &[Word]) -> Option<&'static str>
    ensures { option_map (λ name. name.now) result ≡ steps.third_key words.now }
{
    words.get(1).map(|word| word_key(*word))
}

// The words of an element as its op takes them; None where its keys are not those of its op, or no strings.
fn texts_of<'d>(
    alloc: Global,
    element: &NodeRef<'d>,
    op: Op,
    words: &[Word],
) -> Result<Option<Texts<'d>>, AllocError>
    requires { words.now ≡ edit_words op }
    ensures { (s : tree.Document) (n : ℕ) → IsElement s n element.now
        → IfOk result (AreTextsOf s n (edit_words op)) }
{
    texts_at(alloc, element, words)
}

// The texts at `path` and at the key of the second of such words, if there is one; None where these are not the keys
// beside `op`, or no strings.
fn texts_at<'d>(
    alloc: Global,
    element: &NodeRef<'d>,
    words: &[Word],
) -> Result<Option<Texts<'d>>, AllocError>
    ensures { (s : tree.Document) (n : ℕ) → IsElement s n element.now
        → IfOk result (AreTexts s n (steps.third_key words.now)) }
{
    let third = third_key(words);
    let many = if third.is_some() { 3 } else { 2 };
    if element.child_count() != many {
        return Ok(None);
    }
    let Some(path) = element.str_text(alloc, "path")? else {
        return Ok(None);
    };
    let Some(name) = third else {
        let third = StrText::Plain("");
        return Ok(Some(Texts { path, third }));
    };
    match element.str_text(alloc, name)? {
        Some(third) => Ok(Some(Texts { path, third })),
        None => Ok(None),
    }
}

// The edit that an op makes of the texts of the element of a number.
fn edit_from(
    alloc: Global,
    index: usize,
    profile: Profile,
    op: Op,
    texts: &Texts,
) -> Result<Edit, UseFault>
    ensures { MatchResult result
        (Makes profile op (words_for op (text_of_str texts.now.path) (text_of_str texts.now.third)))
        (λ fault. (fault ≡ UseFault.Memory) ⊎ IsTextsFault profile op index
        (words_for op (text_of_str texts.now.path) (text_of_str texts.now.third)) fault) }
{
    match edit_of(
        alloc,
        profile,
        op,
        texts.path.as_str(),
        texts.third.as_str(),
    ) {
        Ok(edit) => Ok(edit),
        Err(fault) => match why_of(fault) {
            Some(why) => Err(UseFault::Entry { index, why }),
            None => Err(UseFault::Memory),
        },
    }
}

// The reason that a word is for an element.
fn why_of(fault: WordFault) -> Option<EntryWhy>
    ensures { result ≡ spec.why_of fault }
{
    match fault {
        WordFault::Path { .. } => Some(EntryWhy::Path),
        WordFault::Value(_) => Some(EntryWhy::Value),
        WordFault::Memory => None,
    }
}
