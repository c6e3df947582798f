//! What an edit does to a document, and what holds of it then: definitions and laws, and no code that edits.
#![tactic(auto)]

mod fault;
pub mod laws;
mod line_kind;
mod splice;

pub use fault::EditFault;
pub use line_kind::LineKind;
pub use splice::Splice;
