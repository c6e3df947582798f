//! Commands, the answers to them, and the run from an input to an output.
#![tactic(auto)]

pub mod answer;
pub mod command;
pub mod counted;
pub mod edited;
pub mod fault;
pub mod lines;
pub mod run;
mod write;
