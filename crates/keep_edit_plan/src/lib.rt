//! For each edit of a document, decided from what was read of it: the refusal, or else its plan, which is what it
//! writes and where, and what that changes of the index. Nothing is changed here, and the new text is not read. Where
//! an edit is done is found from the index and the syntax, and the bytes round that place.
#![tactic(auto)]

mod append;
mod change;
mod document;
mod edit;
mod header;
mod holder;
mod holder_set;
mod insert;
mod inside;
mod new_table;
mod newline;
mod open_value;
mod plan;
mod planner;
mod remove;
mod rename;
mod said;
mod set;
mod text_edit;
mod text_edits;
mod totals;

pub use document::DocumentRef;
pub use edit::Edit;
pub use header::Header;
pub use holder::Reach;
pub use holder_set::{first_steps, push_step};
pub use new_table::NewElement;
pub use open_value::OpenValue;
pub use plan::{IndexChange, Plan};
pub use planner::{AddedLine, Planner};
pub use text_edit::{TextEdit, part_at};
pub use text_edits::TextEdits;
pub use totals::totals_of;
