//! From words to a command: what the words of the command line ask for, and the edits of scripts. It offers what the
//! program needs of the crates below.
#![tactic(auto)]

mod command;
mod edit;
mod fault;
mod script;

pub use command::{command_by, command_of};
pub use fault::{EntryWhy, UseFault};
pub use keep_args::{Ask, GivenFault, Op, given_words};
pub use keep_commands::answer::{Rest, answer_in};
pub use keep_commands::command::Command;
pub use keep_commands::counted::Counted;
pub use keep_commands::fault::RunFault;
pub use keep_commands::run::{Done, run};
pub use script::script_of;
