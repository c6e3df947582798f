//! Edits of a list in a row that are made at once: which they are, by the document before all of them, and what they
//! change in its text.
//!
//! [`Before::next`] tells of a document how a list goes on from one of its edits. Those that leave one another alone,
//! or do again what one of them does, are found by their paths, without making any of them: each makes the change that
//! it makes of the document before all. So the text is changed once and read once after them.
//!
//! **What a caller can promise.** With the changes of a run (`specs/Runs`, `MakeChanges`) the text is the one after its
//! edits, made in their order (`specs/Lists`, `AreMade`): none of them is refused.
//!
//! **What it does not promise.** Which edits are made at once: that costs time alone.
#![tactic(auto)]

mod added_lines;
mod again;
mod alike;
mod at_once;
mod before;
mod counts;
mod dotted_tables;
mod filled;
mod filled_tables;
mod gone;
mod gone_between;
mod holders;
mod in_order;
mod in_run;
mod inserted;
mod items;
mod kinds;
mod kinds_run;
mod known_arrays;
mod last_elements;
mod more_keys;
mod newline;
mod next;
mod one_kind;
mod opened;
mod outline;
mod renamed;
mod renamed_line;
mod runs;
mod sections;
mod seen;
mod seen_headers;
mod seen_paths;
mod set_again;
mod tail;
mod undone;
mod value_after;
mod worth;

pub use at_once::Run;
pub use before::Before;
pub use next::Next;
