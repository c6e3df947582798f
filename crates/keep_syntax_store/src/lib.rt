//! What is stored of a text: its tokens, statements, key parts and values, each exactly once, in few bytes.
#![tactic(auto)]

mod exchange;
mod keys;
mod moves;
mod packed_vec;
mod parts;
mod patch;
mod places;
mod replacing;
mod rereading;
mod settling;
mod shift;
mod starts;
mod statements;
mod unfit;
mod values;
mod widths;

pub use moves::moved;
pub use parts::Parts;
pub use replacing::{Gone, replace_parts, restore_parts};
pub use rereading::{replaced_parts, replaced_starts};
pub use starts::{Places, Starts};
