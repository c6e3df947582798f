//! Faults as numbers: what `out` says in words.
ghost use Rattle.std.specs.Prelude.{◌≡◌};
ghost use Rattle.keep_c.specs.Numbers as spec;

use keep_cli::{EntryWhy, RunFault, UseFault};
use keep_edit::{EditFault, ReadFault, Why};
use keep_token::What;

/// A fault as numbers, which `keep_toml.h` names. A number that a fault has not is `NONE`, or for a reason 0.
#[repr(C)]
#[derive(Clone, Copy)]
pub struct KeepTomlFault {
    /// What is at fault: the document, an edit, a word ..
    pub kind: u32,
    /// Why.
    pub reason: u32,
    /// The place in bytes from the start of the document or of the word.
    pub at: usize,
    /// The number of the edit, from 0.
    pub edit: usize,
}

const NONE: usize = usize::MAX;

const DOCUMENT: u32 = 1;

const EDIT: u32 = 2;

const TEXT: u32 = 3;

const PATH: u32 = 4;

const VALUE: u32 = 5;

const SCRIPT: u32 = 6;

const ROOM: u32 = 7;

const MEMORY: u32 = 8;

// The fault of that kind alone.
fn of_kind(kind: u32) -> KeepTomlFault
    ensures { result ≡ spec.of_kind kind }
{
    KeepTomlFault {
        kind,
        reason: 0,
        at: NONE,
        edit: NONE,
    }
}

// The fault of a kind at a place, for that reason.
fn at_place(kind: u32, reason: u32, at: usize) -> KeepTomlFault
    ensures { result ≡ spec.at_place kind reason at }
{
    KeepTomlFault {
        kind,
        reason,
        at,
        edit: NONE,
    }
}

// The fault of a kind in an edit, for that reason.
fn in_edit(kind: u32, reason: u32, edit: usize) -> KeepTomlFault
    ensures { result ≡ spec.in_edit kind reason edit }
{
    KeepTomlFault {
        kind,
        reason,
        at: NONE,
        edit,
    }
}

/// There is no fault.
pub fn no_fault() -> KeepTomlFault
    ensures { result ≡ spec.no_fault }
{
    of_kind(0)
}

/// The answer has no room.
pub fn no_room() -> KeepTomlFault
    ensures { result ≡ spec.no_room }
{
    of_kind(ROOM)
}

/// A word is no text.
pub fn no_text() -> KeepTomlFault
    ensures { result ≡ spec.no_text }
{
    of_kind(TEXT)
}

/// A growth was refused.
pub fn no_memory() -> KeepTomlFault
    ensures { result ≡ spec.no_memory }
{
    of_kind(MEMORY)
}

/// The numbers of a word's fault.
pub fn of_use(fault: &UseFault) -> KeepTomlFault
    ensures { result ≡ spec.use_numbers fault.now }
{
    match fault {
        UseFault::Words(_) => of_kind(TEXT),
        UseFault::Path { at } => at_place(PATH, 0, *at),
        UseFault::Value(fault) => of_read(VALUE, *fault),
        UseFault::Script(fault) => of_read(SCRIPT, *fault),
        UseFault::Shape => at_place(SCRIPT, 55, NONE),
        UseFault::Entry { index, why } => in_edit(SCRIPT, entry_reason(*why), *index),
        UseFault::Memory => of_kind(MEMORY),
    }
}

/// The numbers of a refusal.
pub fn of_run(fault: &RunFault) -> KeepTomlFault
    ensures { result ≡ spec.run_numbers fault.now }
{
    match fault {
        RunFault::Document(fault) => of_read(DOCUMENT, *fault),
        RunFault::Edit { index, fault } => in_edit(EDIT, edit_reason(*fault), *index),
        RunFault::Read | RunFault::TooLong | RunFault::Write { .. } => of_kind(0),
        RunFault::Memory => of_kind(MEMORY),
    }
}

// The numbers of why a text of a kind can't be read.
fn of_read(kind: u32, fault: ReadFault) -> KeepTomlFault
    ensures { result ≡ spec.read_numbers kind fault }
{
    match fault {
        ReadFault::Utf8 { at } => at_place(kind, 1, at),
        ReadFault::TooDeep { at } => at_place(kind, 2, at),
        ReadFault::Syntax { at, what } => at_place(kind, syntax_reason(what), at),
        ReadFault::Define { at, why } => at_place(kind, rule_reason(why), at),
        ReadFault::Memory => of_kind(MEMORY),
    }
}

fn syntax_reason(what: What) -> u32
    ensures { result ≡ spec.syntax_reason what }
{
    match what {
        What::KeyPart => 11,
        What::Escape => 12,
        What::Control => 13,
        What::Unclosed => 14,
        What::Integer => 15,
        What::Float => 16,
        What::DateTime => 17,
        What::Word => 18,
        What::Structure => 19,
    }
}

fn rule_reason(why: Why) -> u32
    ensures { result ≡ spec.rule_reason why }
{
    match why {
        Why::NotATable => 21,
        Why::DefinedTwice => 22,
        Why::NotAnArray => 23,
        Why::NotByDots => 24,
        Why::DuplicateKey => 25,
    }
}

fn edit_reason(fault: EditFault) -> u32
    ensures { result ≡ spec.edit_reason fault }
{
    match fault {
        EditFault::NotFound => 31,
        EditFault::Exists => 32,
        EditFault::NotValue => 33,
        EditFault::NotTable => 34,
        EditFault::NotKey => 35,
        EditFault::Scattered => 36,
        EditFault::TooDeep => 37,
        EditFault::Profile => 38,
        EditFault::Conflict { why } => conflict_reason(why),
        EditFault::Memory => 0,
    }
}

fn conflict_reason(why: Why) -> u32
    ensures { result ≡ spec.conflict_reason why }
{
    match why {
        Why::NotATable => 41,
        Why::DefinedTwice => 42,
        Why::NotAnArray => 43,
        Why::NotByDots => 44,
        Why::DuplicateKey => 45,
    }
}

fn entry_reason(why: EntryWhy) -> u32
    ensures { result ≡ spec.entry_reason why }
{
    match why {
        EntryWhy::Op => 51,
        EntryWhy::Keys => 52,
        EntryWhy::Path => 53,
        EntryWhy::Value => 54,
    }
}
