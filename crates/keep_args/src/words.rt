//! The words of the command line, read by `clap`.
ghost use Rattle.std.specs.Prelude.{◌≡◌, ◌⊎◌, ◌<◌, get_or, true, false, IfOk, IfSome, MatchResult, map, option_map};
ghost use Rattle.std.specs.Prelude.{[], length, string_bytes, take};
ghost use Rattle.clap.specs.Words.{app_of, rule_of, found_of, rows_of, subcommand_rows_of};
ghost use Rattle.clap.specs.Simple.{with_subcommand};
ghost use Rattle.clap.specs.declared.builder.command.Command.TheViews.{out-Command as fields_of};
ghost use Rattle.keep_args.specs.App.{program_app, app_with, leaf_of, word_rule};
ghost use Rattle.keep_args.specs.Table.{edit_words, first_row, row_of, table};
ghost use Rattle.keep_args.specs.Chosen.{IsChosen, IsUnchosen, read_rows, row_or_first, wanted_of_chosen, wanted_with};
ghost use Rattle.keep_args.specs.Chosen.{word_in, words_in};
ghost use Rattle.keep_args.specs.Wanted as spec;
ghost use Rattle.keep_args.specs.Wanted.{IsWhole, wanted_of};

use crate::fault::ChoiceFault;
use crate::help;
use crate::help::PROGRAM;
use crate::subcommand::{Ask, Op, SUBCOMMANDS, Subcommand, Word};
use clap::error::ErrorKind;
use clap::{Arg, ArgMatches, Command};
use std::alloc::{AllocError, Global};

/// A subcommand and its words.
#[derive(Drop)]
pub struct Chosen {
    pub row: Subcommand,
    pub words: Vec<String>,
}

// The words of a subcommand are named by their places. Help shows other names.
const PLACES: [&str; 2] = ["first", "second"];

/// The subcommand that the words name, and its words. The first word is the program's name.
///
/// # Errors
///
/// `Words` with the answer of `clap`; `Memory` where a growth was refused.
pub fn chosen_of<'a>(alloc: Global, words: &'a [String]) -> Result<Chosen, ChoiceFault>
    ensures whole { IfOk result (λ chosen. IsWhole (wanted_of_chosen chosen)) }
    ensures asked { MatchResult result (IsChosen (wanted_of (map string_bytes words.now)))
        (λ fault. (fault ≡ ChoiceFault.Memory) ⊎ IsUnchosen (wanted_of (map string_bytes words.now)) fault) }
{
    let Ok(command) = keep_command(alloc) else {
        return Err(ChoiceFault::Memory);
    };
    let matches = match command.try_get_matches_from(words) {
        Ok(matches) => matches,
        Err(error) if error.kind() == ErrorKind::OutOfMemory => return Err(ChoiceFault::Memory),
        Err(error) => return Err(ChoiceFault::Words(error)),
    };
    match chosen_in(alloc, &matches) {
        Ok(chosen) => Ok(chosen),
        Err(AllocError) => Err(ChoiceFault::Memory),
    }
}

// What the words are matched against: one level of subcommands, each with required words.
fn keep_command<'a>(alloc: Global) -> Result<Command<'a>, AllocError>
    ensures { IfOk result (λ c. app_of c ≡ program_app) }
{
    let mut command = top_command(alloc)?;
    for number in 0..rows().len() {
        command = with_row(alloc, command, row_at(number))?;
    }
    Ok(command)
}

// The rows of all subcommands. No other function names the table: a check goes through all of it for each one that
// does.
fn rows() -> &'static [Subcommand]
    ensures { map row_of result.now ≡ table }
{
    &SUBCOMMANDS
}

// The row of a number.
fn row_at(number: usize) -> &'static Subcommand
    requires { number < length table }
    ensures { row_of result.now ≡ get_or table number first_row }
{
    &rows()[number]
}

// The program without its subcommands.
fn top_command<'a>(alloc: Global) -> Result<Command<'a>, AllocError>
    ensures { IfOk result (λ c. app_of c ≡ app_with []) }
{
    Command::new(alloc, PROGRAM)
        .version("0.1.0")
        .about(help::ABOUT)
        .after_help(help::AFTER)
        .subcommand_required(true)
        .disable_help_subcommand(true)
        .bin_name(PROGRAM)
}

// A further subcommand.
fn with_row<'a>(
    alloc: Global,
    command: Command<'a>,
    row: &Subcommand,
) -> Result<Command<'a>, AllocError>
    ensures { IfOk result (λ c. app_of c ≡ with_subcommand (app_of command.entry) (leaf_of (row_of row.now))) }
{
    let inner = row_command(alloc, row)?;
    command.subcommand(inner)
}

// The command of a row.
fn row_command<'a>(alloc: Global, row: &Subcommand) -> Result<Command<'a>, AllocError>
    ensures shape { IfOk result (λ c. (app_of c).top ≡ leaf_of (row_of row.now)) }
    ensures local { IfOk result (λ c. (fields_of c).has_globals ≡ false) }
{
    let (name, _, words, (about, examples)) = *row;
    let mut inner = Command::new(alloc, name).about(about).after_help(examples);
    for place in 0..words.len().min(PLACES.len()) {
        inner = inner.arg(word(alloc, PLACES[place], words[place]))?;
    }
    Ok(inner)
}

// A required word, and how help shows it.
fn word<'a>(alloc: Global, id: &'a str, word: Word) -> Arg<'a>
    ensures rule { rule_of result ≡ word_rule id.entry.now }
    ensures local { result.global ≡ false }
{
    let (label, help) = help::of_word(word);
    Arg::new(alloc, id)
        .value_name(label)
        .help(help)
        .required(true)
}

fn chosen_in(alloc: Global, matches: &ArgMatches<'_>) -> Result<Chosen, AllocError>
    ensures { IfOk result (λ c. wanted_of_chosen c ≡ read_rows (subcommand_rows_of matches.now)) }
{
    let Some((name, inner)) = matches.subcommand() else {
        return chosen_first(alloc);
    };
    chosen_with(alloc, row_named(name), inner)
}

// What is used for no subcommand, and is never taken.
fn chosen_first(alloc: Global) -> Result<Chosen, AllocError>
    ensures { IfOk result (λ c. wanted_of_chosen c ≡ wanted_with [] first_row) }
{
    Ok(Chosen {
        row: *row_at(0),
        words: Vec::new(alloc),
    })
}

// The row of a name. A name that was taken has one.
fn row_named(name: &str) -> &'static Subcommand
    ensures { row_of result.now ≡ row_or_first name.now }
{
    for number in 0..rows().len() {
        let row = row_at(number);
        if row.0 == name {
            return row;
        }
    }
    row_at(0)
}

/// The operation of the edit that the subcommand of this name makes, and what its words are in their order; None where
/// no subcommand has the name, or it makes no edit.
pub fn edit_named(name: &str) -> Option<(Op, &'static [Word])>
    ensures op { option_map (λ edit. edit.0) result ≡ spec.op_named name.now }
    ensures words { IfSome result (λ edit. edit.1.now ≡ edit_words edit.0) }
{
    let row = row_named(name);
    match op_in(row.1) {
        Some(op) => Some((op, row.2)),
        None => None,
    }
}

// The operation of an edit; None where no edit is asked.
fn op_in(ask: Ask) -> Option<Op>
    ensures { result ≡ spec.op_in ask }
{
    match ask {
        Ask::Edit(op) => Some(op),
        _ => None,
    }
}

fn chosen_with(
    alloc: Global,
    row: &Subcommand,
    matches: &ArgMatches<'_>,
) -> Result<Chosen, AllocError>
    ensures { IfOk result (λ c. wanted_of_chosen c ≡ wanted_with (rows_of (found_of matches.now)) (row_of row.now)) }
{
    let mut words = Vec::new(alloc);
    for place in 0..row.2.len().min(PLACES.len()) {
        words.push(String::from_str(alloc, word_of(matches, PLACES[place]))?)?;
    }
    Ok(Chosen { row: *row, words })
}

// The word of an argument. A command that was taken has all of its words.
#[tactic(auto, using(crate::proofs::Rows::word_met))]
fn word_of<'a>(matches: &ArgMatches<'a>, id: &str) -> &'a str
    ensures { result.now ≡ word_in id.now (rows_of (found_of matches.now)) }
{
    match matches.get_str(id) {
        Some(text) => text,
        None => "",
    }
}
