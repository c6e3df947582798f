//! The edit that an operation makes of its words, wherever these come from.
ghost use Rattle.std.specs.Prelude.{◌≡◌, ◌⊎◌, IfOk, MatchResult};
ghost use Rattle.keep_types.specs.declared.leaf.Profile.TheVariants.{Strict};
ghost use Rattle.keep_args.specs.declared.subcommand.Word.TheVariants as Word;
ghost use Rattle.keep_edit.specs.Headers.{key_texts};
ghost use Rattle.keep_cli.specs.declared.edit.WordFault.TheVariants as word_fault;
ghost use Rattle.keep_cli.specs.EditWords.{words_for, IsGivenValue, IsKeysIn, IsKeysText, IsOnlyPath};
ghost use Rattle.keep_cli.specs.EditWords.{IsUnreadable, Makes, MakesNone};

use keep_args::Op;
use keep_edit::{Edit, Path, PathFault, Profile, ReadFault, Step, ValueText};
use std::alloc::{AllocError, Global};

/// Why words make no edit: the first of them that can't be read.
#[derive(Debug, Drop)]
pub enum WordFault {
    /// A path can't be read at this byte of its word; or its first index is there, where only keys may be.
    Path { at: usize },
    /// A value can't be read. This is never `ReadFault::Memory`.
    Value(ReadFault),
    /// A growth was refused.
    Memory,
}

impl From<AllocError> for WordFault {
    ghost from_gives = { λ _ fault. fault ≡ word_fault.Memory };

    fn from(_e: AllocError) -> WordFault {
        WordFault::Memory
    }
}

/// The edit that an operation makes of its words. If it has one word, the second is not looked at. A value is read by
/// the profile.
///
/// # Errors
///
/// The fault of the first word that can't be read; `Memory` where a growth was refused.
pub fn edit_of(
    alloc: Global,
    profile: Profile,
    op: Op,
    first: &str,
    second: &str,
) -> Result<Edit, WordFault>
    ensures { MatchResult result (Makes profile op (words_for op first.now second.now))
        (λ fault. (fault ≡ WordFault.Memory) ⊎ MakesNone profile op (words_for op first.now second.now) fault) }
{
    match op {
        Op::Set => {
            let path = path_of(alloc, first)?;
            let value = value_of(alloc, profile, second)?;
            Ok(Edit::Set(path, value))
        }
        Op::Insert => {
            let path = path_of(alloc, first)?;
            let value = value_of(alloc, profile, second)?;
            Ok(Edit::Insert(path, value))
        }
        Op::Rename => {
            let path = path_of(alloc, first)?;
            let key = String::from_str(alloc, second)?;
            Ok(Edit::Rename(path, key))
        }
        Op::Remove => Ok(Edit::Remove(path_of(alloc, first)?)),
        Op::Table => Ok(Edit::Table(keys_of(alloc, first)?)),
        Op::Element => Ok(Edit::Element(keys_of(alloc, first)?)),
    }
}

/// The path of a word.
pub fn path_of(alloc: Global, text: &str) -> Result<Path, WordFault>
    ensures { MatchResult result (IsOnlyPath text.now)
        (λ fault. (fault ≡ WordFault.Memory) ⊎ IsUnreadable Strict Word.Path text.now fault) }
{
    match Path::read(alloc, text) {
        Ok(path) => Ok(path),
        Err(PathFault::BadPath { at }) => Err(WordFault::Path { at }),
        Err(PathFault::Memory) => Err(WordFault::Memory),
    }
}

fn value_of(alloc: Global, profile: Profile, text: &str) -> Result<ValueText, WordFault>
    ensures { MatchResult result (IsGivenValue profile text.now)
        (λ fault. (fault ≡ WordFault.Memory) ⊎ IsUnreadable profile Word.Value text.now fault) }
{
    match ValueText::read_in(alloc, text, profile) {
        Ok(value) => Ok(value),
        Err(ReadFault::Memory) => Err(WordFault::Memory),
        Err(fault) => Err(WordFault::Value(fault)),
    }
}

// The keys of a path without an index.
fn keys_of(alloc: Global, text: &str) -> Result<Vec<String>, WordFault>
    ensures { MatchResult result (λ keys. IsKeysText text.now (key_texts keys.items))
        (λ fault. (fault ≡ WordFault.Memory) ⊎ IsUnreadable Strict Word.Keys text.now fault) }
{
    let path = path_of(alloc, text)?;
    match keys_in(alloc, path)? {
        Some(keys) => Ok(keys),
        None => match Path::first_index(text) {
            Some(at) => Err(WordFault::Path { at }),
            None => unreachable!(),
        },
    }
}

// The keys of a path, which are not copied; None where it has an index.
fn keys_in(alloc: Global, path: Path) -> Result<Option<Vec<String>>, AllocError>
    ensures { IfOk result (IsKeysIn path) }
{
    let steps = path.into_steps();
    let mut keys = Vec::with_capacity(alloc, steps.len())?;
    for step in steps {
        let Step::Key(text) = step else {
            return Ok(None);
        };
        keys.push(text)?;
    }
    Ok(Some(keys))
}
