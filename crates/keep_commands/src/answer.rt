//! The answer to a command.
ghost use Rattle.std.specs.Prelude.{◌≡◌, ◌⊎◌, ◌++◌, codes, IfOk, MatchResult, string_bytes};
ghost use Rattle.keep_syntax.specs.Tree as tree;
ghost use Rattle.keep_edit.specs.Reading.{IsTextOfTree, text_in};
ghost use Rattle.keep_commands.specs.Answer.{counts_line, profile_of, IsRefusal, IsText};
ghost use Rattle.keep_edit.specs.Lists.{AreWithin};
ghost use Rattle.keep_commands.specs.Written.{AreBytesOf, IsAfter, IsAnswer, IsTextAfterLast};
ghost use Rattle.keep_commands.specs.Answer as spec;

use crate::command::Command;
use crate::edited::Edited;
use crate::fault::RunFault;
use crate::lines::Lines;
use keep_edit::{Counts, Document, Edit, EditFault, LastEdits, Path, Profile, ReadFault};
use std::alloc::{AllocError, Global};
use std::mem;

fn counts_text(alloc: Global, counts: Counts) -> Result<String, AllocError>
    ensures { IfOk result (λ text. string_bytes text ≡ counts_line counts) }
{
    format!(in alloc; "ok tokens={} nodes={}\n", counts.tokens, counts.nodes)
}

fn line_of(alloc: Global, value: &str) -> Result<String, AllocError>
    ensures { IfOk result (λ text. string_bytes text ≡ value.now ++ codes "\n") }
{
    let mut text = String::with_capacity(alloc, value.len().saturating_add(1))?;
    text.push_str(value)?;
    text.push_str("\n")?;
    Ok(text)
}

fn of_read(fault: ReadFault) -> RunFault
    ensures { result ≡ spec.of_read fault }
{
    match fault {
        ReadFault::Memory => RunFault::Memory,
        fault => RunFault::Document(fault),
    }
}

fn of_edit(index: usize, fault: EditFault) -> RunFault
    ensures { result ≡ spec.of_edit index fault }
{
    match fault {
        EditFault::Memory => RunFault::Memory,
        fault => RunFault::Edit { index, fault },
    }
}

fn check_line(alloc: Global, document: &Document) -> Result<Answer, RunFault>
    ensures check { MatchResult result (IsAnswer Command.Check document.now) (λ fault. fault ≡ RunFault.Memory) }
    ensures wide { IfOk result (IsAnswer Command.CheckWide document.now) }
{
    Ok(Answer::Text(counts_text(alloc, document.counts())?))
}

fn list(alloc: Global, document: Document) -> Result<Answer, RunFault>
    ensures { MatchResult result (IsAnswer Command.List document) (λ fault. fault ≡ RunFault.Memory) }
{
    Ok(Answer::Lines(Lines::new(alloc, document)?))
}

fn value_line(alloc: Global, document: &Document, path: &Path) -> Result<Answer, RunFault>
    ensures { MatchResult result (IsAnswer (Command.Get path.now) document.now)
        (λ fault. (fault ≡ RunFault.Memory) ⊎ IsRefusal (Command.Get path.now) document.now fault) }
{
    match document.get(path) {
        Ok(value) => Ok(Answer::Text(line_of(alloc, value)?)),
        Err(fault) => Err(of_edit(0, fault)),
    }
}

fn string_text(alloc: Global, document: &Document, path: &Path) -> Result<Answer, RunFault>
    ensures { MatchResult result (IsAnswer (Command.Text path.now) document.now)
        (λ fault. (fault ≡ RunFault.Memory) ⊎ IsRefusal (Command.Text path.now) document.now fault) }
{
    match document.str_value(alloc, path)? {
        Some(text) => Ok(Answer::Text(text)),
        None if document.kind(path).is_none() => Err(of_edit(0, EditFault::NotFound)),
        None => Err(of_edit(0, EditFault::NotValue)),
    }
}

/// What becomes of a document's memory once the answer is made.
#[derive(Clone, Copy)]
pub enum Rest {
    /// It is freed.
    Freed,
    /// It is left as it is. The program ends with its answer: to take the document apart piece by piece would only cost
    /// time.
    Left,
}

fn put_away(document: Document, rest: Rest) {
    match rest {
        Rest::Freed => {}
        Rest::Left => mem::forget(document),
    }
}

/// The answer to a command: the bytes that the program writes.
#[derive(Drop)]
pub enum Answer {
    /// A text.
    Text(String),
    /// The lines of all nodes of a document but the root.
    Lines(Lines),
    /// The text of a document after an edit.
    Edited(Edited),
}

// The answer as one text.
fn text_of(alloc: Global, answer: Answer) -> Result<String, AllocError>
    ensures { IfOk result (λ text. AreBytesOf answer (string_bytes text)) }
{
    match answer {
        Answer::Text(text) => Ok(text),
        Answer::Lines(mut lines) => lines.text(alloc),
        Answer::Edited(edited) => edited.text(alloc),
    }
}

// The text after the edits in order, or the first refusal. Nothing is asked of the document after the last ones: they
// are not made in it, and the text is not read once more.
fn after_edits(
    alloc: Global,
    document: Document,
    edits: &[Edit],
    rest: Rest,
) -> Result<Answer, RunFault>
    ensures { (s : tree.Document) → IsTextOfTree document s
        → MatchResult result (λ answer. IsAfter s edits.now document answer)
        (spec.Refused document.profile edits.now s) }
{
    if edits.is_empty() {
        return Ok(Answer::Text(document.into_text()));
    }
    let mut changed = document;
    match changed.apply_but_last(edits) {
        Ok(last) => Ok(after_last(alloc, changed, last, rest)?),
        Err((index, fault)) => {
            put_away(changed, rest);
            Err(of_edit(index, fault))
        }
    }
}

// The text of a document after the last edits of a list. The only error is out of memory.
fn after_last(
    alloc: Global,
    document: Document,
    last: LastEdits,
    rest: Rest,
) -> Result<Answer, AllocError>
    requires { AreWithin document.text last }
    ensures { IfOk result (IsTextAfterLast document.text last) }
{
    match last {
        LastEdits::One(edit) => Ok(Answer::Edited(Edited::new(document, edit))),
        LastEdits::AtOnce(changes) => {
            let text = changes.text_after(alloc, document.text());
            put_away(document, rest);
            Ok(Answer::Text(text?))
        }
    }
}

// The profile that a command reads the document in.
fn profile_for(command: &Command) -> Profile
    ensures { result ≡ profile_of command.now }
{
    match command {
        Command::CheckWide | Command::ApplyWide(_) => Profile::Wide,
        _ => Profile::Strict,
    }
}

/// What the program writes for a command and the bytes of its input, and leaves the document's memory as it is.
pub fn answer_to(alloc: Global, command: &Command, bytes: Vec<u8>) -> Result<Answer, RunFault>
    ensures { MatchResult result (IsAnswer command.now (text_in (profile_of command.now) bytes.items))
        (λ fault. (fault ≡ RunFault.Memory)
        ⊎ IsRefusal command.now (text_in (profile_of command.now) bytes.items) fault) }
{
    decide(alloc, command, profile_for(command), bytes, Rest::Left)
}

/// The answer to a command and the bytes of a document in a profile, as one text.
pub fn answer_in(
    alloc: Global,
    command: &Command,
    profile: Profile,
    bytes: Vec<u8>,
    rest: Rest,
) -> Result<String, RunFault>
    ensures { MatchResult result (λ text. IsText command.now (text_in profile bytes.items) (string_bytes text))
        (λ fault. (fault ≡ RunFault.Memory) ⊎ IsRefusal command.now (text_in profile bytes.items) fault) }
{
    match decide(alloc, command, profile, bytes, rest) {
        Ok(answer) => Ok(text_of(alloc, answer)?),
        Err(fault) => Err(fault),
    }
}

// The answer to a command and the bytes of a document in a profile.
fn decide(
    alloc: Global,
    command: &Command,
    profile: Profile,
    bytes: Vec<u8>,
    rest: Rest,
) -> Result<Answer, RunFault>
    ensures { MatchResult result (IsAnswer command.now (text_in profile bytes.items))
        (λ fault. (fault ≡ RunFault.Memory) ⊎ IsRefusal command.now (text_in profile bytes.items) fault) }
{
    let document = match Document::read_owned_in(alloc, bytes, profile) {
        Ok(document) => document,
        Err(fault) => return Err(of_read(fault)),
    };
    let answer = match command {
        Command::Check | Command::CheckWide => check_line(alloc, &document),
        Command::List => return list(alloc, document),
        Command::Get(path) => value_line(alloc, &document, path),
        Command::Text(path) => string_text(alloc, &document, path),
        Command::Apply(edits) => return after_edits(alloc, document, edits.as_slice(), rest),
        Command::ApplyWide(edits) => return after_edits(alloc, document, edits.as_slice(), rest),
    };
    put_away(document, rest);
    answer
}
