//! The nodes of a document as they are stored: a tree of steps, with the facts of each node.
#![tactic(auto)]

mod children;
mod facts;
mod key_map;
mod links;
mod moved;
mod nodes;
mod packed;
mod removed;
mod renumbering;
mod replaced;
mod run;
mod seed;
mod shift;
mod splicing;
mod stored_key;
mod tree;

pub use children::Holds;
pub use facts::{NodeFacts, OriginKind};
pub use renumbering::LineNumbers;
pub use shift::Totals;
pub use tree::{HeaderFacts, Join, NewValue, NotInPlace, Tree};
