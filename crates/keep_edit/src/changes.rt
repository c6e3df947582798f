//! The edits of a document, each by its plan.
ghost use Rattle.std.specs.Prelude.{◌≡◌, OnErr};
ghost use Rattle.keep_types.specs.declared.leaf.Profile.TheVariants.{Wide};
ghost use Rattle.keep_syntax.specs.Tree as tree;
ghost use Rattle.keep_edit_spec.specs.Edits.{set, insert, rename, remove, append_table, append_element};
ghost use Rattle.keep_edit.specs.Reading.{IsAccepted, IsAcceptedValue, IsTextOfTree, IsTextOfValue};
ghost use Rattle.keep_edit.specs.Answers.{EditDone, EditReported};
ghost use Rattle.keep_edit.specs.Headers.{key_texts};

use crate::document::Document;
use keep_edit_plan::Header::{Element, Table};
use keep_edit_spec::{EditFault, Splice};
use keep_rules::{Path, ValueText};

impl Document {
    /// Writes a value in place of the one that is at a path. Every other byte is kept. After a refusal the document is
    /// as before. The document's own allocator gives the memory.
    ///
    /// # Errors
    ///
    /// The first that holds: `NotFound` where the path names no node; `NotValue` where the node has no value with a
    /// text of its own; `TooDeep` where arrays and inline tables would enclose one another deeper than the standard
    /// depth; `Profile` where the document was read in Strict and the value is none of Strict's grammar; else `Memory`
    /// where memory was refused.
    pub fn set(&mut self, path: &Path, value: &ValueText) -> Result<Splice, EditFault>
        ensures done { (s : tree.Document) → IsTextOfTree self.old s → (v : tree.Value) → IsTextOfValue value.now v
            → EditDone s (set path.now v) self.old self.new result }
        ensures accepted { IsAccepted self.old }
        ensures value { IsAcceptedValue Wide value.now }
        ensures read { IsAccepted self.new }
        ensures refused { OnErr result (self.new ≡ self.old) }
    {
        self.apply_plan(self.as_ref().set_plan(self.alloc(), path, value))
    }

    /// The text that the document has after `set`. The document stays as it is, and nothing is read anew.
    ///
    /// # Errors
    ///
    /// Those of `set`.
    pub fn text_with(&self, path: &Path, value: &ValueText) -> Result<String, EditFault>
        ensures stated { (s : tree.Document) → IsTextOfTree self.now s → (v : tree.Value) → IsTextOfValue value.now v
            → EditReported s (set path.now v) self.now result }
        ensures accepted { IsAccepted self.now }
        ensures value { IsAcceptedValue Wide value.now }
    {
        self.text_by_plan(self.as_ref().set_plan(self.alloc(), path, value))
    }

    /// Writes a value at a new path: as an item of an array before the item that is there, or after the last; as a
    /// keyval after the last of a body, of an inline table, or of those that continue from the same table by dots; or
    /// below a new header. The keys of the path that the table does not have yet are written with dots. Every other
    /// byte is kept. After a refusal the document is as before. The document's own allocator gives the memory.
    ///
    /// # Errors
    ///
    /// The first that holds: `NotFound` if the path ends in an index past the last item, or a part of it that is new
    /// has an index; `Exists` if the path names a node, unless it is an item; `NotTable` if the longest prefix that
    /// names a node is no table; `TooDeep` if arrays and inline tables would enclose one another deeper than the
    /// standard depth; `Profile` if the document was read in Strict and the value is none of Strict's grammar; else
    /// `Memory` if memory was refused.
    pub fn insert(&mut self, path: &Path, value: &ValueText) -> Result<Splice, EditFault>
        ensures done { (s : tree.Document) → IsTextOfTree self.old s → (v : tree.Value) → IsTextOfValue value.now v
            → EditDone s (insert path.now v) self.old self.new result }
        ensures accepted { IsAccepted self.old }
        ensures value { IsAcceptedValue Wide value.now }
        ensures read { IsAccepted self.new }
        ensures refused { OnErr result (self.new ≡ self.old) }
    {
        self.apply_plan(self.as_ref().insert_plan(self.alloc(), path, value))
    }

    /// The text that the document has after `insert`. The document stays as it is, and nothing is read anew.
    ///
    /// # Errors
    ///
    /// Those of `insert`.
    pub fn text_inserted(&self, path: &Path, value: &ValueText) -> Result<String, EditFault>
        ensures stated { (s : tree.Document) → IsTextOfTree self.now s → (v : tree.Value) → IsTextOfValue value.now v
            → EditReported s (insert path.now v) self.now result }
        ensures accepted { IsAccepted self.now }
        ensures value { IsAcceptedValue Wide value.now }
    {
        self.text_by_plan(self.as_ref().insert_plan(self.alloc(), path, value))
    }

    /// Writes another key in place of the last key of a path: bare if it can be, else as a basic string. Every other
    /// byte is kept. After a refusal the document is as before. The document's own allocator gives the memory.
    ///
    /// # Errors
    ///
    /// The first that holds: `NotFound` if the path names no node; `Exists` if the new key names a node under the same
    /// parent, also if it is the old key; `NotKey` if the path is the root or ends in an index; `Scattered` if not
    /// exactly one key part names the path; else `Memory` if memory was refused.
    pub fn rename(&mut self, path: &Path, key: &str) -> Result<Splice, EditFault>
        ensures done { (s : tree.Document) → IsTextOfTree self.old s
            → EditDone s (rename path.now key.now) self.old self.new result }
        ensures accepted { IsAccepted self.old }
        ensures read { IsAccepted self.new }
        ensures refused { OnErr result (self.new ≡ self.old) }
    {
        self.apply_plan(self.as_ref().rename_plan(self.alloc(), path, key))
    }

    /// The text that the document has after `rename`. The document stays as it is, and nothing is read anew.
    ///
    /// # Errors
    ///
    /// Those of `rename`.
    pub fn text_renamed(&self, path: &Path, key: &str) -> Result<String, EditFault>
        ensures stated { (s : tree.Document) → IsTextOfTree self.now s
            → EditReported s (rename path.now key.now) self.now result }
        ensures accepted { IsAccepted self.now }
    {
        self.text_by_plan(self.as_ref().rename_plan(self.alloc(), path, key))
    }

    /// Removes the node of a path: a keyval with its line, of which a comment after it stays; an item of an array, or a
    /// keyval in braces, with one comma; a table or an element with its header and body. Every other byte is kept.
    /// After a refusal the document is as before. The document's own allocator gives the memory.
    ///
    /// # Errors
    ///
    /// The first that holds: `NotFound` if the path names no node; `NotKey` if it is the root; `Scattered` if neither a
    /// value nor one header with its body is the whole node, as for a table that dotted keys define, or that a header
    /// goes through; else `Memory` if memory was refused.
    pub fn remove(&mut self, path: &Path) -> Result<Splice, EditFault>
        ensures done { (s : tree.Document) → IsTextOfTree self.old s
            → EditDone s (remove path.now) self.old self.new result }
        ensures accepted { IsAccepted self.old }
        ensures read { IsAccepted self.new }
        ensures refused { OnErr result (self.new ≡ self.old) }
    {
        self.apply_plan(self.as_ref().remove_plan(self.alloc(), path))
    }

    /// The text that the document has after `remove`. The document stays as it is, and nothing is read anew.
    ///
    /// # Errors
    ///
    /// Those of `remove`.
    pub fn text_removed(&self, path: &Path) -> Result<String, EditFault>
        ensures stated { (s : tree.Document) → IsTextOfTree self.now s
            → EditReported s (remove path.now) self.now result }
        ensures accepted { IsAccepted self.now }
    {
        self.text_by_plan(self.as_ref().remove_plan(self.alloc(), path))
    }

    /// Writes the header `[..]` of a table at the end of the text, after a blank line. Every other byte is kept. After
    /// a refusal the document is as before. The document's own allocator gives the memory.
    ///
    /// # Errors
    ///
    /// The first that holds: `NotKey` if there are no keys; `Conflict` with the reason if the document's key parts do
    /// not allow one of the header's; else `Memory` if memory was refused.
    pub fn append_table(&mut self, keys: &[String]) -> Result<Splice, EditFault>
        ensures done { (s : tree.Document) → IsTextOfTree self.old s
            → EditDone s (append_table (key_texts keys.now)) self.old self.new result }
        ensures accepted { IsAccepted self.old }
        ensures read { IsAccepted self.new }
        ensures refused { OnErr result (self.new ≡ self.old) }
    {
        self.apply_plan(self.as_ref().append_plan(self.alloc(), keys, Table))
    }

    /// The text that the document has after `append_table`. The document stays as it is, and nothing is read anew.
    ///
    /// # Errors
    ///
    /// Those of `append_table`.
    pub fn text_with_table(&self, keys: &[String]) -> Result<String, EditFault>
        ensures stated { (s : tree.Document) → IsTextOfTree self.now s
            → EditReported s (append_table (key_texts keys.now)) self.now result }
        ensures accepted { IsAccepted self.now }
    {
        self.text_by_plan(self.as_ref().append_plan(self.alloc(), keys, Table))
    }

    /// Writes the header `[[..]]` of an element of an array of tables at the end of the text, after a blank line. Every
    /// other byte is kept. After a refusal the document is as before. The document's own allocator gives the memory.
    ///
    /// # Errors
    ///
    /// Those of `append_table`.
    pub fn append_element(&mut self, keys: &[String]) -> Result<Splice, EditFault>
        ensures done { (s : tree.Document) → IsTextOfTree self.old s
            → EditDone s (append_element (key_texts keys.now)) self.old self.new result }
        ensures accepted { IsAccepted self.old }
        ensures read { IsAccepted self.new }
        ensures refused { OnErr result (self.new ≡ self.old) }
    {
        self.apply_plan(self.as_ref().append_plan(self.alloc(), keys, Element))
    }

    /// The text that the document has after `append_element`. The document stays as it is, and nothing is read anew.
    ///
    /// # Errors
    ///
    /// Those of `append_table`.
    pub fn text_with_element(&self, keys: &[String]) -> Result<String, EditFault>
        ensures stated { (s : tree.Document) → IsTextOfTree self.now s
            → EditReported s (append_element (key_texts keys.now)) self.now result }
        ensures accepted { IsAccepted self.now }
    {
        self.text_by_plan(self.as_ref().append_plan(self.alloc(), keys, Element))
    }
}
