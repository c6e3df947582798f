//! Why a run stops.
ghost use Rattle.std.specs.Prelude.{◌≡◌};
ghost use Rattle.keep_commands.specs.Status.{run_status};
ghost use Rattle.keep_commands.specs.declared.fault.RunFault.TheVariants.{Memory};

use crate::run::LONGEST_INPUT;
use keep_edit::{EditFault, ReadFault};
use std::alloc::AllocError;
use thiserror::Error;

/// Why a run stops.
#[derive(Debug, Drop, Error)]
pub enum RunFault {
    /// The input failed.
    #[error("read failed")]
    Read,
    /// The input is longer than `LONGEST_INPUT`.
    #[error("input longer than {most} bytes", most = LONGEST_INPUT)]
    TooLong,
    /// The input is no document. This is never `ReadFault::Memory`.
    #[error(transparent)]
    Document(ReadFault),
    /// The edit with this number, from 0, is refused. This is never `EditFault::Memory`.
    #[error("edit {index}: {fault}")]
    Edit { index: usize, fault: EditFault },
    /// The output failed, and took so many bytes before.
    #[error("write failed after {written} bytes")]
    Write { written: usize },
    /// A growth was refused.
    #[error("out of memory")]
    Memory,
}

impl From<AllocError> for RunFault {
    ghost from_gives = { λ _ fault. fault ≡ Memory };

    fn from(_e: AllocError) -> RunFault {
        RunFault::Memory
    }
}

impl RunFault {
    /// The exit status of the program.
    pub fn status(&self) -> u8
        ensures { result ≡ run_status self.now }
    {
        match self {
            RunFault::Document(_) | RunFault::Edit { .. } => 1,
            RunFault::Read | RunFault::TooLong | RunFault::Write { .. } => 3,
            RunFault::Memory => 4,
        }
    }
}
