//! Items that inserts add, by the document before them.
ghost use Rattle.std.specs.Prelude.{IfSome};
ghost use Rattle.keep_types.specs.declared.leaf.Profile.TheVariants.{Wide};
ghost use Rattle.keep_syntax.specs.Tree as tree;
ghost use Rattle.keep_edit_spec.specs.AddedItems.{AddsNextItem};
ghost use Rattle.keep_edit_plan.specs.Answers.{IsSpanOf};
ghost use Rattle.keep_edit_plan.specs.TextEdits.{change_of};
ghost use Rattle.keep_edit_plan.specs.Reading.{IsAcceptedValue, IsTextOfTree, IsTextOfValue, limit};

use super::{Spot, after_bracket, room_for};
use crate::document::DocumentRef;
use crate::text_edit::TextEdit;
use keep_rules::{Path, ValueText};
use keep_syntax::Span;
use std::alloc::Global;

/// Room for the comma and the space before an item, in bytes.
const COMMA_ROOM: usize = 2;

impl<'a> DocumentRef<'a> {
    /// What an insert of a value adds to the text, if the path is that of the next item of an array, after all others.
    /// If so many other items are added before it, as its next ones, it is what the insert of the value after those
    /// adds, at the same place of this text. None for any other path, where the value can't be an item there, and where
    /// memory was refused.
    pub fn added_item(
        &self,
        alloc: Global,
        path: &Path,
        before: usize,
        value: &ValueText,
    ) -> Option<TextEdit>
        ensures added { (s : tree.Document) → IsTextOfTree self.now s → (v : tree.Value)
            → IsTextOfValue value.now v
            → IfSome result (λ made. AddsNextItem self.now.profile limit s path.now before v (change_of made)) }
        ensures within { IfSome result (λ made. IsSpanOf self.now.text made.place) }
        ensures value { IsAcceptedValue Wide value.now }
    {
        // The invariants of a document and of a value are known to the proof from where they are looked at.
        let _text = self.text;
        let given = value.as_str();
        let insertion = self.insertion(path, value).ok()?;
        if insertion.from != path.len() {
            return None;
        }
        let (is_first, at) = match insertion.spot {
            Spot::AfterEntry(entry) => (false, self.syntax.value(entry).span.end),
            Spot::InEmpty(brackets) => (
                true,
                after_bracket(self.text, self.syntax.value(brackets).span.start),
            ),
            _ => return None,
        };
        let mut added = room_for(alloc, value, COMMA_ROOM)?;
        if before > 0 || !is_first {
            added.push_str(", ").ok()?;
        }
        added.push_str(given).ok()?;
        Some(TextEdit {
            place: Span { start: at, end: at },
            new: added,
        })
    }
}
