//! The words of a command line that a fake environment gives.
use keep_args::{GivenFault, given_words};
use std::alloc::Global;
use std::env::{Env, FillError};
use std::test::Fail;

// The words of a command line, as bytes.
#[derive(Drop)]
struct Line<'a> {
    words: &'a [&'a [u8]],
}

impl Env for Line<'_> {
    fn arg(&self, i: usize, buf: &mut [u8]) -> Result<usize, FillError> {
        let Some(word) = self.words.get(i) else {
            return Err(FillError::NotPresent);
        };
        if word.len() > buf.len() {
            return Err(FillError::TooLong);
        }
        buf[..word.len()].copy_from_slice(word);
        Ok(word.len())
    }

    fn var(&self, _: &str, _: &mut [u8]) -> Result<usize, FillError> {
        Err(FillError::NotPresent)
    }

    fn var_at(&self, _: usize, _: &mut [u8]) -> Result<usize, FillError> {
        Err(FillError::NotPresent)
    }
}

// Whether these words of a command line are read as those.
fn gives(alloc: Global, words: &[&[u8]], wanted: &[&[u8]]) -> Result<bool, GivenFault> {
    let given = given_words(alloc, &Line { words })?;
    Ok(are(given.as_slice(), wanted))
}

fn are(words: &[String], wanted: &[&[u8]]) -> bool {
    for number in 0..words.len().min(wanted.len()) {
        if words[number].as_bytes() != wanted[number] {
            return false;
        }
    }
    words.len() == wanted.len()
}

#[test]
fn the_name_by_which_the_program_was_called_is_not_read(rt: HostRuntime) -> Result<(), Fail> {
    const NAMES: &[&[u8]] = &[b"keep_toml", b"\xFF/keep", b""];
    const WANTED: &[&[u8]] = &[b"keep-toml", b"get", b"a"];
    for &name in NAMES {
        let words = [name, b"get".as_slice(), b"a".as_slice()];
        assert!(rt; gives(rt.alloc(), &words, WANTED)?, "{name:?}");
    }
    Ok(())
}

#[test]
fn a_word_that_is_not_text_is_refused(rt: HostRuntime) {
    const WORDS: &[&[u8]] = &[b"keep-toml", b"get", b"a\xFF"];
    assert!(rt; matches!(gives(rt.alloc(), WORDS, WORDS), Err(GivenFault::NotText)));
}

#[test]
fn long_words_are_read_whole(rt: HostRuntime) -> Result<(), Fail> {
    const LENGTHS: &[usize] = &[0, 1, 511, 512, 513, 5_000];
    for &len in LENGTHS {
        assert!(rt; gives_long(rt.alloc(), len)?, "{len}");
    }
    Ok(())
}

// Whether a word of this length is read whole.
fn gives_long(alloc: Global, len: usize) -> Result<bool, GivenFault> {
    let long = vec![in alloc; b'x'; len]?;
    let words = [b"keep-toml".as_slice(), long.as_slice()];
    gives(alloc, &words, &words)
}

#[test]
fn a_line_without_any_word_gives_the_name_alone(rt: HostRuntime) -> Result<(), Fail> {
    const NAME: &[&[u8]] = &[b"keep-toml"];
    assert!(rt; gives(rt.alloc(), &[], NAME)?);
    Ok(())
}
