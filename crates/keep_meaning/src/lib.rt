//! What a document means, by definition: which paths its key parts name, what its keys and scalars mean, the definition
//! rules, and the nodes with the facts about each. The code here is what these definitions need: the table of roles,
//! and a key part's decoded text.
#![tactic(auto)]

pub mod key_text;
pub mod laws;
mod role;

pub use role::{allows, state_after, why_of};
