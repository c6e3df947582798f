//! Renaming keys.
ghost use Rattle.std.specs.Prelude.{◌≡◌, not, ◌&&◌, IfOk};
ghost use Rattle.keep_syntax.specs.Tree as tree;
ghost use Rattle.keep_meaning.specs.Nodes.{is_root};
ghost use Rattle.keep_edit_spec.specs.Edits.{rename};
ghost use Rattle.keep_edit_spec.specs.Refusals.{ends_in_index};
ghost use Rattle.keep_edit_plan.specs.Reading.{IsAccepted, IsTextOfTree};
ghost use Rattle.keep_edit_plan.specs.Plans.{EditPlanned, IsKeyFound, IsPlanOf};

use crate::document::DocumentRef;
use crate::plan::{IndexChange, Plan};
use crate::text_edit::TextEdit;
use keep_edit_spec::EditFault;
use keep_rules::{NodeId, Path, Step};
use keep_syntax::Span;
use keep_token::encode_key;
use std::alloc::Global;

impl<'a> DocumentRef<'a> {
    /// The plan by which another key comes in place of the last key of a path.
    ///
    /// # Errors
    ///
    /// The refusal of the edit, whatever memory there is; else `Memory` if memory was refused.
    pub fn rename_plan<'k>(
        &self,
        alloc: Global,
        path: &Path,
        key: &'k str,
    ) -> Result<Plan<'k>, EditFault>
        ensures planned { (s : tree.Document) → IsTextOfTree self.now s
            → EditPlanned s (rename path.now key.now) self.now result }
        ensures of_edit { IfOk result (IsPlanOf self.now) }
        ensures of { IsAccepted self.now }
    {
        // The invariant of a document is known to the proof from where a field of it is looked at.
        let _text = self.text;
        let (node, place) = self.key_to_rename(path, key)?;
        let Ok(new) = encode_key(alloc, key) else {
            return Err(EditFault::Memory);
        };
        Ok(Plan {
            text_edit: TextEdit { place, new },
            index_change: Some(IndexChange::Key { node, key }),
        })
    }

    /// The node of a path, and where its key is that a new one replaces. It takes no memory.
    fn key_to_rename(&self, path: &Path, key: &str) -> Result<(NodeId, Span), EditFault>
        ensures { (s : tree.Document) → IsTextOfTree self.now s → IsKeyFound path.now key.now s self.now result }
    {
        let Some(id) = self.index.find(path) else {
            return Err(EditFault::NotFound);
        };
        if !ends_in_key(path) {
            return Err(EditFault::NotKey);
        }
        if self.index.sibling(path, key).is_some() {
            return Err(EditFault::Exists);
        }
        let node = self.index.node(id);
        match self.index.key_span(id, self.syntax) {
            Some(span) if node.marks == 1 => Ok((id, span)),
            _ => Err(EditFault::Scattered),
        }
    }
}

/// Whether a path ends in a key: it is not the root's, and does not end in an index.
fn ends_in_key(path: &Path) -> bool
    ensures { result ≡ (not (is_root path.now) && not (ends_in_index path.now)) }
{
    match path.step(path.len().saturating_sub(1)) {
        Some(Step::Key(_)) => true,
        Some(Step::Index(_)) => false,
        None => false,
    }
}
