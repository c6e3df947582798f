//! Lines of inserts into tables whose headers have come, by the document before them.
ghost use Rattle.std.specs.Prelude.{IfSome};
ghost use Rattle.keep_types.specs.declared.leaf.Profile.TheVariants.{Wide};
ghost use Rattle.keep_syntax.specs.Tree as tree;
ghost use Rattle.keep_edit_spec.specs.BroughtHeaders.{BringsLine};
ghost use Rattle.keep_edit_plan.specs.Answers.{IsSpanOf};
ghost use Rattle.keep_edit_plan.specs.Reading.{IsAcceptedValue, IsTextOfTree, IsTextOfValue, limit};
ghost use Rattle.keep_edit_plan.specs.TextEdits.{change_of};

use super::{LINE_ROOM, Spot, room_for};
use crate::document::DocumentRef;
use crate::text_edit::TextEdit;
use keep_rules::{Path, ValueText};
use keep_syntax::Span;
use std::alloc::Global;

impl<'a> DocumentRef<'a> {
    /// The line alone of an insert that brings the header of its table, at the same place: what it adds once the header
    /// has come there. None where `brought_header` gives none, too.
    pub fn brought_line(&self, alloc: Global, path: &Path, value: &ValueText) -> Option<TextEdit>
        ensures added { (s : tree.Document) → IsTextOfTree self.now s → (v : tree.Value)
            → IsTextOfValue value.now v
            → IfSome result (λ made. BringsLine self.now.profile limit s path.now v (change_of made)) }
        ensures within { IfSome result (λ made. IsSpanOf self.now.text made.place) }
        ensures value { IsAcceptedValue Wide value.now }
    {
        // The invariants of a document and of a value are known to the proof from where they are looked at.
        let _text = self.text;
        let _given = value.as_str();
        let insertion = self.insertion(path, value).ok()?;
        let Spot::NewSection(header) = insertion.spot else {
            return None;
        };
        let at = self.body_end(Some(header));
        if self.is_open(at) {
            return None;
        }
        let mut line = room_for(alloc, value, LINE_ROOM)?;
        self.push_line(&mut line, at, path, insertion.from, value)
            .ok()?;
        Some(TextEdit {
            place: Span { start: at, end: at },
            new: line,
        })
    }
}
