//! Setting values.
ghost use Rattle.std.specs.Prelude.{◌≡◌, IfOk, IfSome, None, is_some, true};
ghost use Rattle.keep_types.specs.declared.leaf.Profile.TheVariants.{Wide};
ghost use Rattle.keep_syntax.specs.Tree as tree;
ghost use Rattle.std.specs.Bool.{Decides};
ghost use Rattle.keep_path.specs.Path.{EndsInKey};
ghost use Rattle.keep_edit_spec.specs.Edits.{set, edited_document};
ghost use Rattle.keep_edit_plan.specs.Answers.{refusal_in};
ghost use Rattle.keep_edit_plan.specs.IndexChanges.{IsIndexChange};
ghost use Rattle.keep_edit_plan.specs.Plans.{EditPlanned, IsNodeOf, IsPlanOf, SaysIndexChange};
ghost use Rattle.keep_edit_plan.specs.Reading.{IsAccepted, IsAcceptedValue, IsTextOfTree, IsTextOfValue};

use crate::document::DocumentRef;
use crate::plan::{IndexChange, Plan, plan_at};
use crate::totals::totals_of;
use keep_edit_spec::EditFault;
use keep_rules::{NodeId, Path, Step, ValueText};
use keep_syntax::STANDARD_DEPTH;
use std::alloc::Global;

/// Whether the last step of a path is a key.
pub(crate) fn ends_in_key(path: &Path) -> bool
    ensures { Decides result (EndsInKey path.now) }
{
    match path.step(path.len().saturating_sub(1)) {
        Some(Step::Key(_)) => true,
        Some(Step::Index(_)) => false,
        None => false,
    }
}

impl<'a> DocumentRef<'a> {
    /// The plan by which a value comes in place of the one at a path.
    ///
    /// # Errors
    ///
    /// The refusal of the edit, whatever memory there is; else `Memory` if memory was refused.
    pub fn set_plan<'v>(
        &self,
        alloc: Global,
        path: &Path,
        value: &'v ValueText,
    ) -> Result<Plan<'v>, EditFault>
        ensures planned { (s : tree.Document) → IsTextOfTree self.now s → (v : tree.Value) → IsTextOfValue value.now v
            → EditPlanned s (set path.now v) self.now result }
        ensures of_edit { IfOk result (IsPlanOf self.now) }
        ensures of { IsAccepted self.now }
        ensures value { IsAcceptedValue Wide value.now }
    {
        // The invariant of a document is known to the proof from where a field of it is looked at.
        let _text = self.text;
        let new = value.as_str();
        let (node, number) = self.value_node(path)?;
        let found = self.syntax.value(number);
        if found.depth + value.depth() > STANDARD_DEPTH {
            return Err(EditFault::TooDeep);
        }
        if !value.is_allowed_in(self.profile) {
            return Err(EditFault::Profile);
        }
        plan_at(alloc, found.span, new, self.value_change(path, node, value))
    }

    /// What a value in place of that of the node of a path changes of the index. It takes no memory.
    fn value_change<'v>(
        &self,
        path: &Path,
        node: NodeId,
        value: &'v ValueText,
    ) -> Option<IndexChange<'v>>
        requires { (s : tree.Document) × IsTextOfTree self.now s × IsNodeOf path.now s node }
        ensures change { (s : tree.Document) → IsTextOfTree self.now s → IsNodeOf path.now s node → (v : tree.Value)
            → IsTextOfValue value.now v → refusal_in self.now s (set path.now v) ≡ None
            → IfSome result (IsIndexChange s (edited_document s (set path.now v))) }
        ensures some { (s : tree.Document) → IsTextOfTree self.now s → IsNodeOf path.now s node → (v : tree.Value)
            → IsTextOfValue value.now v → SaysIndexChange s (set path.now v) → is_some result ≡ true }
    {
        if value.depth() == 0 && self.index.child_count(node) == 0 {
            let kind = value.kind();
            return Some(IndexChange::Kind { node, kind });
        }
        if !ends_in_key(path) {
            return self.inside_change(path);
        }
        let totals = totals_of(self.syntax);
        Some(IndexChange::Value {
            node,
            value,
            totals,
        })
    }
}
