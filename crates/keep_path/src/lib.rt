//! Paths into a document: lists of keys and indices, and their texts.
#![tactic(auto)]

mod fault;
mod index_text;
mod path;
mod reading;
mod step;

pub use fault::PathFault;
pub use path::Path;
pub use step::{Step, push_index};
