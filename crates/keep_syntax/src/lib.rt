//! The syntax of a TOML document, without loss: its tokens, statements, key parts and values, each exactly once.
#![tactic(auto)]

mod alone;
mod depth;
mod fault;
mod gap;
mod info;
mod key;
pub mod laws;
mod line;
mod reread;
mod syntax;
mod text;
mod tokens;
mod value;
mod whole;

pub use alone::ValueSyntax;
pub use fault::{ReadFault, Why};
pub use info::{Brackets, Limits, STANDARD_DEPTH, Token, TokenPlace};
pub use keep_syntax_store::Parts;
pub use keep_types::{KeyPart, Owner, Span, Start, Statement, StatementKind, ValueInfo};
pub use syntax::{Replaced, Syntax};
pub use tokens::Tokens;
