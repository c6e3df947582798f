//! Why the words of the command line ask for nothing.
ghost use Rattle.std.specs.Prelude.{◌≡◌};
ghost use Rattle.keep_cli.specs.Status.{of_word, use_fault_of, use_status};
ghost use Rattle.keep_cli.specs.declared.fault.UseFault.TheVariants as use_fault;

use crate::edit::WordFault;
use keep_args::{ChoiceFault, ClapError};
use keep_edit::ReadFault;
use std::alloc::AllocError;
use thiserror::Error;

/// Why the words of the command line ask for nothing.
#[derive(Debug, Drop, Error)]
pub enum UseFault {
    /// What `clap` refuses, and its help.
    #[error(transparent)]
    Words(ClapError),
    /// A path can't be read at this byte of its word.
    #[error("path at {at}")]
    Path { at: usize },
    /// A value can't be read. This is never `ReadFault::Memory`.
    #[error("value: {0}")]
    Value(ReadFault),
    /// A script is no document. This is never `ReadFault::Memory`.
    #[error("script: {0}")]
    Script(ReadFault),
    /// A script has another top level than `edit`, an array of tables, alone.
    #[error("script: shape")]
    Shape,
    /// The element with this number of a script, from 0, states no edit.
    #[error("script: edit {index}: {why}")]
    Entry { index: usize, why: EntryWhy },
    /// A growth was refused.
    #[error("out of memory")]
    Memory,
}

/// Why an element of a script states no edit: the first that holds.
#[derive(Clone, Copy, Debug, PartialEq, Eq, Error)]
pub enum EntryWhy {
    /// It has no `op`, or one that is no string, or unknown.
    #[error("Op")]
    Op,
    /// Its keys are not exactly those of its op, or no strings.
    #[error("Keys")]
    Keys,
    /// Its path can't be read, or has an index where it is a header's.
    #[error("Path")]
    Path,
    /// Its value can't be read.
    #[error("Value")]
    Value,
}

impl UseFault {
    /// The exit status of the program.
    pub fn status(&self) -> u8
        ensures { result ≡ use_status self.now }
    {
        match self {
            UseFault::Words(_) | UseFault::Path { .. } | UseFault::Value(_) => 2,
            UseFault::Script(_) | UseFault::Shape | UseFault::Entry { .. } => 2,
            UseFault::Memory => 4,
        }
    }
}

impl From<ChoiceFault> for UseFault {
    ghost from_gives = { λ from fault. fault ≡ use_fault_of from };

    fn from(fault: ChoiceFault) -> UseFault {
        match fault {
            ChoiceFault::Words(error) => UseFault::Words(error),
            ChoiceFault::Memory => UseFault::Memory,
        }
    }
}

impl From<WordFault> for UseFault {
    ghost from_gives = { λ from fault. fault ≡ of_word from };

    fn from(fault: WordFault) -> UseFault {
        match fault {
            WordFault::Path { at } => UseFault::Path { at },
            WordFault::Value(given) => UseFault::Value(given),
            WordFault::Memory => UseFault::Memory,
        }
    }
}

impl From<AllocError> for UseFault {
    ghost from_gives = { λ _ fault. fault ≡ use_fault.Memory };

    fn from(_e: AllocError) -> UseFault {
        UseFault::Memory
    }
}
