//! Edits as values, and the plan of each.
ghost use Rattle.std.specs.Prelude.{IfOk};
ghost use Rattle.keep_syntax.specs.Tree as tree;
ghost use Rattle.keep_edit_spec.specs.Edits as law;
ghost use Rattle.keep_edit_plan.specs.Given.{IsEdit};
ghost use Rattle.keep_edit_plan.specs.Plans.{EditPlanned, IsPlanOf};
ghost use Rattle.keep_edit_plan.specs.Reading.{IsAccepted, IsTextOfTree};

use crate::document::DocumentRef;
use crate::header::Header;
use crate::plan::Plan;
use keep_edit_spec::EditFault;
use keep_rules::{Path, ValueText};
use std::alloc::Global;

/// An edit of a document, with what it is given.
#[derive(Debug, Drop)]
pub enum Edit {
    /// A value in place of the one at a path.
    Set(Path, ValueText),
    /// A value at a path that names no node, or before an item of an array.
    Insert(Path, ValueText),
    /// Another key in place of the last key of a path.
    Rename(Path, String),
    /// The node of a path is removed.
    Remove(Path),
    /// The header of a table at the end.
    Table(Vec<String>),
    /// The header of an element of an array of tables at the end.
    Element(Vec<String>),
}

impl<'a> DocumentRef<'a> {
    /// The plan of an edit: what is written, and where, and what that changes of the index.
    ///
    /// # Errors
    ///
    /// The refusal of the edit, whatever memory there is; else `Memory` if memory was refused.
    pub fn plan<'e>(&self, alloc: Global, edit: &'e Edit) -> Result<Plan<'e>, EditFault>
        ensures planned { (s : tree.Document) → IsTextOfTree self.now s → (e : law.Edit) → IsEdit edit.now e
            → EditPlanned s e self.now result }
        ensures of_edit { IfOk result (IsPlanOf self.now) }
        ensures of { IsAccepted self.now }
        ensures edit { (e : law.Edit) × IsEdit edit.now e }
    {
        match edit {
            Edit::Set(path, value) => self.set_plan(alloc, path, value),
            Edit::Insert(path, value) => self.insert_plan(alloc, path, value),
            Edit::Rename(path, key) => self.rename_plan(alloc, path, key.as_str()),
            Edit::Remove(path) => self.remove_plan(alloc, path),
            Edit::Table(keys) => self.append_plan(alloc, keys.as_slice(), Header::Table),
            Edit::Element(keys) => self.append_plan(alloc, keys.as_slice(), Header::Element),
        }
    }
}
