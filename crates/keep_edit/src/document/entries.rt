//! The entries of a document, one by one.
ghost use Rattle.std.specs.Prelude.{◌≡◌, ◌≤◌, length, IfOk, IfSome, IsOk, OnErr, OnOk, slice_get, string_bytes};
ghost use Rattle.std.specs.Prelude.{string_capacity};
ghost use Rattle.keep_syntax.specs.Tree as tree;
ghost use Rattle.keep_edit.specs.Answers.{entries_of, AddsEntryPath, HasEntryRoom};
ghost use Rattle.keep_edit.specs.Children.{child_count_of};
ghost use Rattle.keep_edit.specs.Reading.{IsAccepted, IsTextOfTree};

use crate::document::Document;
use keep_rules::{Kind, NodeId, Path, PathRoom};
use std::alloc::AllocError;

impl Document {
    /// Adds the text of the path of an entry to `out`, as `Path::encode` writes it, and reports the entry's kind. The
    /// entries are those of `list`, by their numbers there from 0 on; from their number on this is None, and adds
    /// nothing. No entry and no path is made, so a list of all paths takes little more memory than its text.
    ///
    /// The only error is that memory was refused; then `out` has the text that it had.
    pub fn push_entry_path(
        &self,
        number: usize,
        out: &mut String,
    ) -> Result<Option<Kind>, AllocError>
        ensures entry { (s : tree.Document) → IsTextOfTree self.now s
            → IfOk result (λ kind. AddsEntryPath (slice_get (entries_of s) number) kind (string_bytes out.old)
            (string_bytes out.new)) }
        ensures refused { OnErr result (string_bytes out.new ≡ string_bytes out.old) }
        ensures accepted { IsAccepted self.now }
    {
        let mut room = PathRoom::new(*out.allocator());
        self.push_entry_path_within(number, &mut room, out)
    }

    /// Adds the text of the path of an entry as `push_entry_path` does, and takes memory only where `room` and `out`
    /// have no room for it.
    pub fn push_entry_path_within(
        &self,
        number: usize,
        room: &mut PathRoom,
        out: &mut String,
    ) -> Result<Option<Kind>, AllocError>
        ensures entry { (s : tree.Document) → IsTextOfTree self.now s
            → IfOk result (λ kind. AddsEntryPath (slice_get (entries_of s) number) kind (string_bytes out.old)
            (string_bytes out.new)) }
        ensures refused { OnErr result (string_bytes out.new ≡ string_bytes out.old) }
        ensures accepted { IsAccepted self.now }
        ensures grown { (string_capacity out.old ≤ string_capacity out.new) × (room.old ≤ room.new) }
        ensures enough { (s : tree.Document) → IsTextOfTree self.now s
            → IfSome (slice_get (entries_of s) number) (λ e. OnOk result (length e.path ≤ room.new)) }
        ensures fits { (s : tree.Document) → IsTextOfTree self.now s
            → HasEntryRoom room.old out.old (slice_get (entries_of s) number) → IsOk result }
    {
        let last = self.index.node_count().saturating_sub(1);
        if number >= last {
            return Ok(None);
        }
        // The root is no entry.
        let id = NodeId(number + 1);
        self.index.push_path_within(id, room, out)?;
        Ok(Some(self.index.node(id).kind))
    }

    /// How many nodes are one step below a path: the keys of a table, the items of an array or the elements of an array
    /// of tables, and 0 where another value is. None where the path names no node. It takes no memory.
    pub fn child_count(&self, path: &Path) -> Option<usize>
        ensures count { (s : tree.Document) → IsTextOfTree self.now s → result ≡ child_count_of path.now s }
        ensures accepted { IsAccepted self.now }
    {
        let id = self.index.find(path)?;
        Some(self.index.child_count(id))
    }
}
