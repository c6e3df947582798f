//! Documents: reading them, asking what they hold, and editing them in place.
//!
//! A [`Document`] is a text that was read as TOML. An edit changes one value, key or section of it and leaves every
//! other byte; after a refusal the document is as before. A program that names this crate in `crates.txt` needs no
//! crate below it by name, since all types that it meets are offered here:
//!
//! ```
//! use keep_edit::{Document, EditFault, Path, ValueText};
//! use std::alloc::Global;
//!
//! // Sets the version of a package, or inserts it where there is none.
//! fn put_version(alloc: Global, document: &mut Document, version: &str) -> Result<(), EditFault> {
//!     let Ok(path) = Path::read(alloc, "package.version") else {
//!         return Err(EditFault::Memory);
//!     };
//!     let Ok(value) = ValueText::of_str(alloc, version) else {
//!         return Err(EditFault::Memory);
//!     };
//!     match document.set(&path, &value) {
//!         Err(EditFault::NotFound) => document.insert(&path, &value)?,
//!         splice => splice?,
//!     };
//!     Ok(())
//! }
//! ```
//!
//! `Document::read(alloc, bytes)` gives the document, and `document.text()` its text. On a document whose last line is
//! `name = "demo"` in `[package]`, the call with `1.0.0` adds the line `version = "1.0.0"` after it.
//!
//! **What a caller can promise.** `specs/Reading` says what is read (`IsAccepted`, `IsTextOfTree`), `specs/Answers`
//! what is answered and what an edit makes of the text (`EditDone`), `specs/Lists` the same of a list of edits.
//! keep_commands shows how contracts cite them.
//!
//! **What it costs.** Reading goes over the text once. Of a new text an edit scans the lines that it touches: in a
//! document of 1 MB a `set` of a scalar by a scalar and a `rename` take some 0.4 % of a reading, an `insert` or a
//! `remove` of a line 4 %, and 8 % where it has several keys. The index is built anew, which takes half a reading,
//! where a list or an inline table comes to a table of dotted keys that is there, or goes from one that other lines
//! make too; where the first line of such a table goes; where an `insert` brings a header; and where a table or an
//! element goes. Of a list of edits `apply_all` makes many in a row at once that leave one another alone, and reads the
//! text anew after them. Who wants no more than the new text calls `text_with` and its like, which read nothing anew,
//! and for a list `apply_but_last`, which reads nothing after the last edits. A question that answers without an
//! allocator takes no memory.
//!
//! **What it does not promise.** Time; how much memory is taken; that memory is there. Out of memory is a fault of its
//! own (`Memory`, or `AllocError`), after which nothing that was borrowed has changed.
#![tactic(auto)]

mod changes;
mod document;
mod edits;
mod index_change;
mod lines;
mod lists;
mod nodes;
mod patch;
mod planned;
mod str_text;

pub use document::{Counts, Document, Entry};
pub use keep_edit_plan::{Edit, TextEdit, TextEdits};
pub use keep_edit_spec::{EditFault, Splice};
pub use keep_rules::{Kind, Path, PathFault, PathRoom, Step, ValueText, Why};
pub use keep_syntax::{ReadFault, Span, Token, Tokens};
pub use keep_token::Profile;
pub use lists::LastEdits;
pub use nodes::NodeRef;
pub use str_text::StrText;
