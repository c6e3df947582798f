//! What an edit inside the value of a line changes of the index.
ghost use Rattle.std.specs.Prelude.{IfSome};
ghost use Rattle.keep_syntax.specs.Tree as tree;
ghost use Rattle.keep_edit_spec.specs.Edits.{Edit, edited_document};
ghost use Rattle.keep_edit_plan.specs.IndexChanges.{IsIndexChange};
ghost use Rattle.keep_edit_plan.specs.InsideValues.{IsInside};
ghost use Rattle.keep_edit_plan.specs.Reading.{IsTextOfTree};

use crate::document::DocumentRef;
use crate::plan::IndexChange;
use crate::totals::totals_of;
use keep_rules::{Origin, Path};

impl<'a> DocumentRef<'a> {
    /// What an edit inside the value of a line changes of the index: at the node of the line's key there is another
    /// value. That is the first node with a value on the way along the path. It takes no memory.
    pub(crate) fn inside_change(&self, path: &Path) -> Option<IndexChange<'static>>
        ensures { (s : tree.Document) → IsTextOfTree self.now s → (e : Edit) → IsInside path.now s e
            → IfSome result (IsIndexChange s (edited_document s e)) }
    {
        for len in 1..path.len() {
            let node = self.index.find_first(path, len)?;
            if let Origin::Value(value) = self.index.node(node).origin {
                let totals = totals_of(self.syntax);
                return Some(IndexChange::Inside {
                    node,
                    value,
                    totals,
                });
            }
        }
        None
    }
}
