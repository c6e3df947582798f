//! The words that the command line gives.

use crate::help::PROGRAM;
use std::alloc::{AllocError, Global};
use std::env::{Env, FillError};

/// Why the words cannot be read.
#[derive(Debug, Drop)]
pub enum GivenFault {
    /// A word is not UTF-8.
    NotText,
    /// A growth was refused.
    Memory,
}

impl From<AllocError> for GivenFault {
    fn from(_e: AllocError) -> GivenFault {
        GivenFault::Memory
    }
}

/// The program's name as help shows it, and the words after the one by which it was called. That one is not read: it
/// may be any path, and need not be text.
pub fn given_words(alloc: Global, env: &impl Env) -> Result<Vec<String>, GivenFault> {
    let mut words = Vec::new(alloc);
    words
        .push(String::from_str(alloc, PROGRAM)?)
        .map_err(AllocError::from)?;
    for number in 1..usize::MAX {
        match word_at(alloc, env, number)? {
            Some(word) => words.push(word).map_err(AllocError::from)?,
            None => break,
        }
    }
    Ok(words)
}

// The most bytes of a word for which is asked at first.
const ROOM: usize = 512;

// How many times as many are asked for next where a word is longer. What fits of it is copied in vain each time, so
// this is more than two. The fifth buffer has 128 KiB, for the longest word of Linux.
const GROWTH: usize = 4;

// The word of a number; None after the last. The buffer in which it fits is kept: of a word with more than `ROOM` bytes
// it has less than `GROWTH` times as many.
fn word_at(alloc: Global, env: &impl Env, number: usize) -> Result<Option<String>, GivenFault> {
    let mut room = ROOM;
    for _ in 0..usize::BITS {
        let mut bytes = vec![in alloc; 0u8; room]?;
        match env.arg(number, bytes.as_mut_slice()) {
            Ok(len) => {
                bytes.truncate(len);
                return match String::from_utf8(bytes) {
                    Ok(word) => Ok(Some(word)),
                    Err(_) => Err(GivenFault::NotText),
                };
            }
            Err(FillError::NotPresent) => return Ok(None),
            Err(FillError::TooLong) => room = room.saturating_mul(GROWTH),
        }
    }
    Err(GivenFault::Memory)
}
