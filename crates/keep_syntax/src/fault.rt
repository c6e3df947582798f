ghost use Rattle.std.specs.Prelude.{◌≡◌};
ghost use Rattle.keep_syntax.specs.declared.fault.ReadFault.TheVariants.{Memory, Syntax};

use keep_token::{LeafFault, What};
use std::alloc::{AllocError, AllocFailed};
use thiserror::Error;

/// Which rule of definition a key part breaks.
#[derive(Clone, Copy, Debug, PartialEq, Eq)]
pub enum Why {
    /// The path goes through a value, or names one as a table.
    NotATable,
    /// A table is defined a second time.
    DefinedTwice,
    /// An element is added to what is no array of tables.
    NotAnArray,
    /// Dotted keys go into a table that they did not make.
    NotByDots,
    /// A key has a value already.
    DuplicateKey,
}

/// Why a text could not be read. Places are bytes from the start of the text.
#[derive(Clone, Copy, Debug, PartialEq, Eq, Error)]
pub enum ReadFault {
    /// The bytes from `at` on are not UTF-8.
    #[error("not UTF-8 at {at}")]
    Utf8 { at: usize },
    /// What is at `at` fits no rule of the grammar.
    #[error("syntax at {at}: {what:?}")]
    Syntax { at: usize, what: What },
    /// The bracket at `at` is inside as many arrays and inline tables as the limit allows.
    #[error("too deep at {at}")]
    TooDeep { at: usize },
    /// The key part at `at` breaks a rule of definition.
    #[error("definition at {at}: {why:?}")]
    Define { at: usize, why: Why },
    /// Memory was refused.
    #[error("out of memory")]
    Memory,
}

impl From<LeafFault> for ReadFault {
    ghost from_gives = { λ fault e. e ≡ Syntax fault.at fault.what };

    fn from(fault: LeafFault) -> ReadFault {
        ReadFault::Syntax {
            at: fault.at,
            what: fault.what,
        }
    }
}

impl From<AllocError> for ReadFault {
    ghost from_gives = { λ _ e. e ≡ Memory };

    fn from(_e: AllocError) -> ReadFault {
        ReadFault::Memory
    }
}

impl<T: Drop> From<AllocFailed<T>> for ReadFault {
    ghost from_gives = { λ _ e. e ≡ Memory };

    fn from(_e: AllocFailed<T>) -> ReadFault {
        ReadFault::Memory
    }
}
