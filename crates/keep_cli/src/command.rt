//! The words that ask for commands.
ghost use Rattle.std.specs.Prelude.{◌≡◌, ◌⊎◌, ◌∷◌, [], Some, IfOk, MatchResult};
ghost use Rattle.std.specs.Prelude.{length, map, slice_get, string_bytes, unwrap_or};
ghost use Rattle.keep_types.specs.declared.leaf.Profile.TheVariants.{Strict};
ghost use Rattle.keep_args.specs.Chosen.{wanted_of_chosen};
ghost use Rattle.keep_args.specs.Table.{edit_words, words_of};
ghost use Rattle.keep_args.specs.Wanted.{IsWhole, wanted_of};
ghost use Rattle.keep_commands.specs.OwnValues.{HasOwnValues};
ghost use Rattle.keep_cli.specs.Uses.{Asks, IsApplied, IsCommand, IsUseFault, IsWordFault};

use crate::edit::{edit_of, path_of};
use crate::fault::UseFault;
use crate::script::script_of;
use keep_args::{Ask, Chosen, Op, chosen_of};
use keep_commands::command::Command;
use keep_edit::{Edit, Profile};
use std::alloc::Global;

/// The command that the words ask for. The first word is the program's name.
///
/// # Errors
///
/// `Words` where `clap` refuses the words; else the fault of the first word, from the left, that can't be read;
/// `Memory` where a growth was refused.
pub fn command_of(alloc: Global, words: &[String]) -> Result<Command, UseFault>
    ensures asked { MatchResult result (Asks (wanted_of (map string_bytes words.now)))
        (λ fault. (fault ≡ UseFault.Memory) ⊎ IsUseFault (wanted_of (map string_bytes words.now)) fault) }
    ensures values { IfOk result HasOwnValues }
{
    let chosen = chosen_of(alloc, words)?;
    command_from(alloc, &chosen)
}

fn command_from(alloc: Global, chosen: &Chosen) -> Result<Command, UseFault>
    requires { IsWhole (wanted_of_chosen chosen.now) }
    ensures asked { MatchResult result (Asks (Some (wanted_of_chosen chosen.now)))
        (λ fault. (fault ≡ UseFault.Memory) ⊎ IsUseFault (Some (wanted_of_chosen chosen.now)) fault) }
    ensures values { IfOk result HasOwnValues }
{
    command_by(
        alloc,
        Profile::Strict,
        chosen.row.1,
        chosen.words.as_slice(),
    )
}

/// The command of a subcommand and its words, which are as many as it has. A value is read by the profile.
///
/// # Errors
///
/// The fault of the first word, from the left, that can't be read; `Memory` where a growth was refused.
pub fn command_by(
    alloc: Global,
    profile: Profile,
    ask: Ask,
    words: &[String],
) -> Result<Command, UseFault>
    requires { length words.now ≡ length (words_of ask) }
    ensures asked { MatchResult result (IsCommand profile ask (map string_bytes words.now))
        (λ fault. (fault ≡ UseFault.Memory) ⊎ IsWordFault profile ask (map string_bytes words.now) fault) }
    ensures values { profile ≡ Strict → IfOk result HasOwnValues }
{
    match ask {
        Ask::Check => Ok(Command::Check),
        Ask::CheckWide => Ok(Command::CheckWide),
        Ask::List => Ok(Command::List),
        Ask::Get => get_of(alloc, words[0].as_str()),
        Ask::Text => text_of(alloc, words[0].as_str()),
        Ask::Edit(op) => edit_by(alloc, profile, op, words),
        Ask::Apply => apply_of(alloc, words[0].as_str()),
        Ask::ApplyWide => apply_wide_of(alloc, words[0].as_str()),
    }
}

fn get_of(alloc: Global, path: &str) -> Result<Command, UseFault>
    ensures asked { MatchResult result (IsCommand Strict Ask.Get (path.now ∷ []))
        (λ fault. (fault ≡ UseFault.Memory) ⊎ IsWordFault Strict Ask.Get (path.now ∷ []) fault) }
    ensures values { IfOk result HasOwnValues }
{
    Ok(Command::Get(path_of(alloc, path)?))
}

fn text_of(alloc: Global, path: &str) -> Result<Command, UseFault>
    ensures asked { MatchResult result (IsCommand Strict Ask.Text (path.now ∷ []))
        (λ fault. (fault ≡ UseFault.Memory) ⊎ IsWordFault Strict Ask.Text (path.now ∷ []) fault) }
    ensures values { IfOk result HasOwnValues }
{
    Ok(Command::Text(path_of(alloc, path)?))
}

// The command of the edit that an operation makes of its words.
fn edit_by(alloc: Global, profile: Profile, op: Op, words: &[String]) -> Result<Command, UseFault>
    requires { length words.now ≡ length (edit_words op) }
    ensures asked { MatchResult result (IsCommand profile (Ask.Edit op) (map string_bytes words.now))
        (λ fault. (fault ≡ UseFault.Memory)
        ⊎ IsWordFault profile (Ask.Edit op) (map string_bytes words.now) fault) }
    ensures values { profile ≡ Strict → IfOk result HasOwnValues }
{
    let first = word_or_none(words, 0);
    let second = word_or_none(words, 1);
    let edit = edit_of(alloc, profile, op, first, second)?;
    one_edit(alloc, edit)
}

// The word of a number; the empty one where there are no more.
fn word_or_none(words: &[String], number: usize) -> &str
    ensures { result.now ≡ unwrap_or (slice_get (map string_bytes words.now) number) [] }
{
    match words.get(number) {
        Some(word) => word.as_str(),
        None => "",
    }
}

fn apply_of(alloc: Global, script: &str) -> Result<Command, UseFault>
    ensures asked { MatchResult result (IsCommand Strict Ask.Apply (script.now ∷ []))
        (λ fault. (fault ≡ UseFault.Memory) ⊎ IsWordFault Strict Ask.Apply (script.now ∷ []) fault) }
    ensures values { IfOk result HasOwnValues }
{
    let edits = script_of(alloc, script, Profile::Strict)?;
    Ok(Command::Apply(edits))
}

fn apply_wide_of(alloc: Global, script: &str) -> Result<Command, UseFault>
    ensures asked { MatchResult result (IsCommand Strict Ask.ApplyWide (script.now ∷ []))
        (λ fault. (fault ≡ UseFault.Memory) ⊎ IsWordFault Strict Ask.ApplyWide (script.now ∷ []) fault) }
    ensures values { IfOk result HasOwnValues }
{
    let edits = script_of(alloc, script, Profile::Wide)?;
    Ok(Command::ApplyWide(edits))
}

// The command of a single edit. The only error is out of memory.
fn one_edit(alloc: Global, edit: Edit) -> Result<Command, UseFault>
    ensures { MatchResult result (IsApplied edit) (λ fault. fault ≡ UseFault.Memory) }
{
    match vec![in alloc; edit] {
        Ok(edits) => Ok(Command::Apply(edits)),
        Err(_) => Err(UseFault::Memory),
    }
}
