//! Headers that inserts bring for their tables, by the document before them.
ghost use Rattle.std.specs.Prelude.{IfSome};
ghost use Rattle.keep_types.specs.declared.leaf.Profile.TheVariants.{Wide};
ghost use Rattle.keep_syntax.specs.Tree as tree;
ghost use Rattle.keep_edit_spec.specs.BroughtHeaders.{BringsHeader};
ghost use Rattle.keep_edit_plan.specs.Answers.{IsSpanOf};
ghost use Rattle.keep_edit_plan.specs.Reading.{IsAcceptedValue, IsTextOfTree, IsTextOfValue, limit};
ghost use Rattle.keep_edit_plan.specs.TextEdits.{change_of};

use super::{Spot, room_for};
use crate::append::HEADER_ROOM;
use crate::document::DocumentRef;
use crate::text_edit::TextEdit;
use keep_rules::{Path, ValueText};
use keep_syntax::Span;
use std::alloc::Global;

impl<'a> DocumentRef<'a> {
    /// What an insert adds to the text that brings the header of its table, after the body of the last header that
    /// goes through the table, if a newline ends the line before. None for any other insert, where it is refused, and
    /// where memory was refused.
    pub fn brought_header(&self, alloc: Global, path: &Path, value: &ValueText) -> Option<TextEdit>
        ensures added { (s : tree.Document) → IsTextOfTree self.now s → (v : tree.Value)
            → IsTextOfValue value.now v
            → IfSome result (λ made. BringsHeader self.now.profile limit s path.now v (change_of made)) }
        ensures within { IfSome result (λ made. IsSpanOf self.now.text made.place) }
        ensures value { IsAcceptedValue Wide value.now }
    {
        // The invariants of a document and of a value are known to the proof from where they are looked at.
        let _text = self.text;
        let _given = value.as_str();
        let insertion = self.insertion(path, value).ok()?;
        let Spot::NewSection(header) = insertion.spot else {
            return None;
        };
        let at = self.body_end(Some(header));
        if self.is_open(at) {
            return None;
        }
        let mut section = room_for(alloc, value, HEADER_ROOM)?;
        self.push_section(&mut section, at, path, insertion.from, value)
            .ok()?;
        Some(TextEdit {
            place: Span { start: at, end: at },
            new: section,
        })
    }
}
