//! The words of the command line: which subcommand they name, and with which words.
#![tactic(auto)]

mod fault;
mod given;
mod help;
mod subcommand;
mod words;

pub use fault::{ChoiceFault, ClapError};
pub use given::{GivenFault, given_words};
pub use subcommand::{Ask, Op, SUBCOMMANDS, Subcommand, Word};
pub use words::{Chosen, chosen_of, edit_named};
