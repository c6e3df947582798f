//! Why the words of the command line choose no subcommand.
pub use clap::Error as ClapError;
use thiserror::Error;

/// Why the words choose no subcommand.
#[derive(Debug, Drop, Error)]
pub enum ChoiceFault {
    /// What `clap` refuses, and its help.
    #[error(transparent)]
    Words(ClapError),
    /// A growth was refused.
    #[error("out of memory")]
    Memory,
}
