//! Documents for programs in C, and in languages that call C: a call for each subcommand, with the program's answer.
//!
//! A call is given the document and its words, and writes its answer into the caller's buffer. It keeps nothing.
//! A `profile` of 0 is Strict, and any other number Wide: by it the document is read, and the value that `set` or
//! `insert` is given. The statuses, of which `specs/Answer` says what each means:
//!
//! | | |
//! |---|---|
//! | 0 | done: the buffer begins with the answer, of which `size` is the length |
//! | 1 | the document or the edit is refused |
//! | 2 | a word can't be read |
//! | 3 | the answer, of which `size` is the length, has no room in the buffer, which is as it was |
//! | 4 | out of memory; the buffer is as it was |
//!
//! `fault` gets the numbers of the fault (`specs/Numbers`).
#![tactic(auto)]

ghost use Rattle.std.specs.Prelude.{◌≡◌, ◌∷◌, []};
ghost use Rattle.keep_edit.specs.Reading.{text_in};
ghost use Rattle.keep_args.specs.declared.subcommand.Ask.TheVariants as ask;
ghost use Rattle.keep_args.specs.declared.subcommand.Op.TheVariants as op;
ghost use Rattle.keep_c.specs.Answer.{IsAnswer, profile_named};

mod answer;
mod call;
mod fault;
mod numbers;

use answer::put;
use call::{answer_with, answer_with_two, answer_without};
use keep_cli::{Ask, Op};
use numbers::KeepTomlFault;
use std::alloc::Global;

/// The number of this set of calls. It changes where a caller has to be compiled anew.
#[unsafe(no_mangle)]
pub extern "C" fn keep_toml_interface() -> u32
    ensures { result ≡ 1 }
{
    1
}

/// Whether the bytes are a document, and how large: `ok tokens=T nodes=N` and a newline.
#[unsafe(no_mangle)]
pub extern "C" fn keep_toml_check(
    alloc: Global,
    profile: u8,
    document: &[u8],
    out: &mut [u8],
    size: &mut usize,
    fault: &mut KeepTomlFault,
) -> u8
    ensures { IsAnswer ask.Check ([]) (text_in (profile_named profile) document.now)
        out.old out.new size.new fault.new result }
{
    put(
        alloc,
        answer_without(alloc, Ask::Check, profile, document),
        out,
        size,
        fault,
    )
}

/// A line for each node but the root: its path, a tab, its kind.
#[unsafe(no_mangle)]
pub extern "C" fn keep_toml_list(
    alloc: Global,
    profile: u8,
    document: &[u8],
    out: &mut [u8],
    size: &mut usize,
    fault: &mut KeepTomlFault,
) -> u8
    ensures { IsAnswer ask.List ([]) (text_in (profile_named profile) document.now)
        out.old out.new size.new fault.new result }
{
    put(
        alloc,
        answer_without(alloc, Ask::List, profile, document),
        out,
        size,
        fault,
    )
}

/// The text of the value at a path as it is written, and a newline.
#[unsafe(no_mangle)]
pub extern "C" fn keep_toml_get(
    alloc: Global,
    profile: u8,
    document: &[u8],
    path: &[u8],
    out: &mut [u8],
    size: &mut usize,
    fault: &mut KeepTomlFault,
) -> u8
    ensures { IsAnswer ask.Get (path.now ∷ []) (text_in (profile_named profile) document.now)
        out.old out.new size.new fault.new result }
{
    put(
        alloc,
        answer_with(alloc, Ask::Get, profile, document, path),
        out,
        size,
        fault,
    )
}

/// What the string at a path means.
#[unsafe(no_mangle)]
pub extern "C" fn keep_toml_text(
    alloc: Global,
    profile: u8,
    document: &[u8],
    path: &[u8],
    out: &mut [u8],
    size: &mut usize,
    fault: &mut KeepTomlFault,
) -> u8
    ensures { IsAnswer ask.Text (path.now ∷ []) (text_in (profile_named profile) document.now)
        out.old out.new size.new fault.new result }
{
    put(
        alloc,
        answer_with(alloc, Ask::Text, profile, document, path),
        out,
        size,
        fault,
    )
}

/// The document with another value in place of the one at a path.
#[unsafe(no_mangle)]
pub extern "C" fn keep_toml_set(
    alloc: Global,
    profile: u8,
    document: &[u8],
    path: &[u8],
    value: &[u8],
    out: &mut [u8],
    size: &mut usize,
    fault: &mut KeepTomlFault,
) -> u8
    ensures { IsAnswer (ask.Edit op.Set) (path.now ∷ value.now ∷ []) (text_in (profile_named profile) document.now)
        out.old out.new size.new fault.new result }
{
    put(
        alloc,
        answer_with_two(alloc, Ask::Edit(Op::Set), profile, document, path, value),
        out,
        size,
        fault,
    )
}

/// The document with a value at a path where nothing is, or as an item of an array.
#[unsafe(no_mangle)]
pub extern "C" fn keep_toml_insert(
    alloc: Global,
    profile: u8,
    document: &[u8],
    path: &[u8],
    value: &[u8],
    out: &mut [u8],
    size: &mut usize,
    fault: &mut KeepTomlFault,
) -> u8
    ensures { IsAnswer (ask.Edit op.Insert) (path.now ∷ value.now ∷ []) (text_in (profile_named profile) document.now)
        out.old out.new size.new fault.new result }
{
    put(
        alloc,
        answer_with_two(alloc, Ask::Edit(Op::Insert), profile, document, path, value),
        out,
        size,
        fault,
    )
}

/// The document with another key in place of the last key of a path.
#[unsafe(no_mangle)]
pub extern "C" fn keep_toml_rename(
    alloc: Global,
    profile: u8,
    document: &[u8],
    path: &[u8],
    key: &[u8],
    out: &mut [u8],
    size: &mut usize,
    fault: &mut KeepTomlFault,
) -> u8
    ensures { IsAnswer (ask.Edit op.Rename) (path.now ∷ key.now ∷ []) (text_in (profile_named profile) document.now)
        out.old out.new size.new fault.new result }
{
    put(
        alloc,
        answer_with_two(alloc, Ask::Edit(Op::Rename), profile, document, path, key),
        out,
        size,
        fault,
    )
}

/// The document without the node of a path.
#[unsafe(no_mangle)]
pub extern "C" fn keep_toml_remove(
    alloc: Global,
    profile: u8,
    document: &[u8],
    path: &[u8],
    out: &mut [u8],
    size: &mut usize,
    fault: &mut KeepTomlFault,
) -> u8
    ensures { IsAnswer (ask.Edit op.Remove) (path.now ∷ []) (text_in (profile_named profile) document.now)
        out.old out.new size.new fault.new result }
{
    put(
        alloc,
        answer_with(alloc, Ask::Edit(Op::Remove), profile, document, path),
        out,
        size,
        fault,
    )
}

/// The document with the header of a table at its end.
#[unsafe(no_mangle)]
pub extern "C" fn keep_toml_table(
    alloc: Global,
    profile: u8,
    document: &[u8],
    keys: &[u8],
    out: &mut [u8],
    size: &mut usize,
    fault: &mut KeepTomlFault,
) -> u8
    ensures { IsAnswer (ask.Edit op.Table) (keys.now ∷ []) (text_in (profile_named profile) document.now)
        out.old out.new size.new fault.new result }
{
    put(
        alloc,
        answer_with(alloc, Ask::Edit(Op::Table), profile, document, keys),
        out,
        size,
        fault,
    )
}

/// The document with the header of an element of an array of tables at its end.
#[unsafe(no_mangle)]
pub extern "C" fn keep_toml_element(
    alloc: Global,
    profile: u8,
    document: &[u8],
    keys: &[u8],
    out: &mut [u8],
    size: &mut usize,
    fault: &mut KeepTomlFault,
) -> u8
    ensures { IsAnswer (ask.Edit op.Element) (keys.now ∷ []) (text_in (profile_named profile) document.now)
        out.old out.new size.new fault.new result }
{
    put(
        alloc,
        answer_with(alloc, Ask::Edit(Op::Element), profile, document, keys),
        out,
        size,
        fault,
    )
}

/// The document after all edits of a script, whose values are of Strict.
#[unsafe(no_mangle)]
pub extern "C" fn keep_toml_apply(
    alloc: Global,
    profile: u8,
    document: &[u8],
    script: &[u8],
    out: &mut [u8],
    size: &mut usize,
    fault: &mut KeepTomlFault,
) -> u8
    ensures { IsAnswer ask.Apply (script.now ∷ []) (text_in (profile_named profile) document.now)
        out.old out.new size.new fault.new result }
{
    put(
        alloc,
        answer_with(alloc, Ask::Apply, profile, document, script),
        out,
        size,
        fault,
    )
}

/// The document after all edits of a script, whose values are of Wide.
#[unsafe(no_mangle)]
pub extern "C" fn keep_toml_apply_wide(
    alloc: Global,
    profile: u8,
    document: &[u8],
    script: &[u8],
    out: &mut [u8],
    size: &mut usize,
    fault: &mut KeepTomlFault,
) -> u8
    ensures { IsAnswer ask.ApplyWide (script.now ∷ []) (text_in (profile_named profile) document.now)
        out.old out.new size.new fault.new result }
{
    put(
        alloc,
        answer_with(alloc, Ask::ApplyWide, profile, document, script),
        out,
        size,
        fault,
    )
}
