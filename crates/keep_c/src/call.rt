//! The calls: what the program answers to these words and this document.
ghost use Rattle.std.specs.Prelude.{◌≡◌, ◌∷◌, [], MatchResult, length, map, string_bytes};
ghost use Rattle.keep_args.specs.Table.{words_of};
ghost use Rattle.keep_edit.specs.Reading.{text_in};
ghost use Rattle.keep_c.specs.Answer.{Answers, IsNoWord, profile_named};

use crate::fault::{Fault, of_run, of_use};
use keep_cli::{Ask, Rest, answer_in, command_by};
use keep_token::{Profile, text_of};
use std::alloc::Global;

// The profile that a number names.
fn profile_of(number: u8) -> Profile
    ensures { result ≡ profile_named number }
{
    if number == 0 {
        Profile::Strict
    } else {
        Profile::Wide
    }
}

fn word_of(alloc: Global, bytes: &[u8]) -> Result<String, Fault>
    ensures { MatchResult result (λ text. string_bytes text ≡ bytes.now) (IsNoWord bytes.now) }
{
    match text_of(bytes) {
        Ok(text) => Ok(String::from_str(alloc, text)?),
        Err(_) => Err(Fault::NotText),
    }
}

// The answer to words that are text, as many as the subcommand has.
fn answer_of(
    alloc: Global,
    ask: Ask,
    profile: Profile,
    document: &[u8],
    words: Vec<String>,
) -> Result<String, Fault>
    requires { length words.items ≡ length (words_of ask) }
    ensures { Answers ask (map string_bytes words.items) (text_in profile document.now) result }
{
    let command = match command_by(alloc, profile, ask, words.as_slice()) {
        Ok(command) => command,
        Err(given) => return Err(of_use(given)),
    };
    let bytes = Vec::from_slice(alloc, document)?;
    match answer_in(alloc, &command, profile, bytes, Rest::Freed) {
        Ok(text) => Ok(text),
        Err(given) => Err(of_run(given)),
    }
}

/// The answer to a subcommand that has no word.
pub fn answer_without(
    alloc: Global,
    ask: Ask,
    profile: u8,
    document: &[u8],
) -> Result<String, Fault>
    requires { length (words_of ask) ≡ 0 }
    ensures { Answers ask [] (text_in (profile_named profile) document.now) result }
{
    answer_of(alloc, ask, profile_of(profile), document, Vec::new(alloc))
}

/// The answer to a subcommand that has one word.
pub fn answer_with(
    alloc: Global,
    ask: Ask,
    profile: u8,
    document: &[u8],
    word: &[u8],
) -> Result<String, Fault>
    requires { length (words_of ask) ≡ 1 }
    ensures { Answers ask (word.now ∷ []) (text_in (profile_named profile) document.now) result }
{
    let word = word_of(alloc, word)?;
    let Ok(words) = vec![in alloc; word] else {
        return Err(Fault::Memory);
    };
    answer_of(alloc, ask, profile_of(profile), document, words)
}

/// The answer to a subcommand that has two words.
pub fn answer_with_two(
    alloc: Global,
    ask: Ask,
    profile: u8,
    document: &[u8],
    first: &[u8],
    second: &[u8],
) -> Result<String, Fault>
    requires { length (words_of ask) ≡ 2 }
    ensures { Answers ask (first.now ∷ second.now ∷ []) (text_in (profile_named profile) document.now) result }
{
    let first = word_of(alloc, first)?;
    let second = word_of(alloc, second)?;
    let Ok(words) = vec![in alloc; first, second] else {
        return Err(Fault::Memory);
    };
    answer_of(alloc, ask, profile_of(profile), document, words)
}
