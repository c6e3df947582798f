//! Reading a document by the definition rules: the paths of its values and tables, whether the rules hold, and which
//! nodes there are.
#![tactic(auto)]

mod define;
mod definitions;
mod descend;
mod index;
mod keys;
pub mod laws;
mod path_text;
mod queries;
mod read;
mod spans;
mod value;

pub use index::{Index, NewKeys, NodeId};
pub use keep_index_store::{LineNumbers, NotInPlace, Totals};
pub use keep_path::{Path, PathFault, Step};
pub use keep_syntax::Why;
pub use keep_types::{Kind, NodeInfo, Origin, Role, kind_of};
pub use path_text::PathRoom;
pub use value::ValueText;
