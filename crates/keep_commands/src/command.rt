//! The commands.
use keep_edit::{Edit, Path};

/// What the program is asked.
#[derive(Debug, Drop)]
pub enum Command {
    /// Whether the input is a document, and how large.
    Check,
    /// What the command before it does, in the profile Wide.
    CheckWide,
    /// All nodes but the root, with their kinds.
    List,
    /// The text of the value at a path, as it is written.
    Get(Path),
    /// What the string at a path means.
    Text(Path),
    /// The document after these edits, in order.
    Apply(Vec<Edit>),
    /// What the command before it does, in the profile Wide.
    ApplyWide(Vec<Edit>),
}
