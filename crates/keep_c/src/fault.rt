//! Why a call gives no answer.
ghost use Rattle.std.specs.Prelude.{◌≡◌};
ghost use Rattle.keep_c.specs.declared.fault.Fault.TheVariants as fault;
ghost use Rattle.keep_c.specs.Answer.{numbers_of, of_run, of_use, status_of};

use crate::numbers;
use crate::numbers::KeepTomlFault;
use keep_cli::{RunFault, UseFault};
use std::alloc::AllocError;
use thiserror::Error;

/// Why a call gives no answer. The `Memory` of the program's faults is never inside.
#[derive(Debug, Drop, Error)]
pub enum Fault {
    /// A word is no text.
    #[error("a word is not UTF-8")]
    NotText,
    /// A word can't be read.
    #[error(transparent)]
    Use(UseFault),
    /// The document or the edit is refused.
    #[error(transparent)]
    Run(RunFault),
    /// A growth was refused.
    #[error("out of memory")]
    Memory,
}

impl From<AllocError> for Fault {
    ghost from_gives = { λ _ given. given ≡ fault.Memory };

    fn from(_e: AllocError) -> Fault {
        Fault::Memory
    }
}

impl Fault {
    /// The status of the call.
    pub fn status(&self) -> u8
        ensures { result ≡ status_of self.now }
    {
        match self {
            Fault::Run(_) => 1,
            Fault::NotText | Fault::Use(_) => 2,
            Fault::Memory => 4,
        }
    }

    /// The numbers of the fault.
    pub fn numbers(&self) -> KeepTomlFault
        ensures { result ≡ numbers_of self.now }
    {
        match self {
            Fault::NotText => numbers::no_text(),
            Fault::Use(given) => numbers::of_use(given),
            Fault::Run(given) => numbers::of_run(given),
            Fault::Memory => numbers::no_memory(),
        }
    }
}

/// The fault of a call that the fault of its words is.
pub fn of_use(given: UseFault) -> Fault
    ensures { result ≡ of_use given }
{
    match given {
        UseFault::Memory => Fault::Memory,
        given => Fault::Use(given),
    }
}

/// The fault of a call that the fault of its command is.
pub fn of_run(given: RunFault) -> Fault
    ensures { result ≡ of_run given }
{
    match given {
        RunFault::Memory => Fault::Memory,
        given => Fault::Run(given),
    }
}
