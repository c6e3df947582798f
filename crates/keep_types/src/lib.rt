//! The words that all layers share: the kinds of leaves and the two profiles; what is known of a text (spans,
//! statements, key parts, values and what they are in); what is known of a node (its kind, its origin, the role of a
//! key part). It knows no layer.
#![tactic(auto)]

mod kind;
mod leaf;
mod node;
mod role;
mod syntax;

pub use kind::kind_of;
pub use leaf::{Leaf, Profile};
pub use node::{Kind, NodeInfo, Origin};
pub use role::Role;
pub use syntax::{KeyPart, Owner, Span, Start, Statement, StatementKind, ValueInfo};
