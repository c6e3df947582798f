//! Lines that inserts add to tables which dotted keys make, by the document before them.
ghost use Rattle.std.specs.Prelude.{IfSome};
ghost use Rattle.keep_types.specs.declared.leaf.Profile.TheVariants.{Wide};
ghost use Rattle.keep_syntax.specs.Tree as tree;
ghost use Rattle.keep_edit_spec.specs.DottedLines.{AddsDotted};
ghost use Rattle.keep_edit_plan.specs.Answers.{IsSpanOf};
ghost use Rattle.keep_edit_plan.specs.Reading.{IsAcceptedValue, IsTextOfTree, IsTextOfValue, limit};
ghost use Rattle.keep_edit_plan.specs.TextEdits.{change_of};

use super::{LINE_ROOM, Spot, room_for};
use crate::document::DocumentRef;
use crate::text_edit::TextEdit;
use keep_rules::{Path, ValueText};
use keep_syntax::Span;
use std::alloc::Global;

impl<'a> DocumentRef<'a> {
    /// The line that an insert adds to a table which dotted keys make, after the last line whose key leads through it,
    /// if a newline ends that line. None for any other insert, where it is refused, and where memory was refused.
    pub fn added_dotted_line(
        &self,
        alloc: Global,
        path: &Path,
        value: &ValueText,
    ) -> Option<TextEdit>
        ensures added { (s : tree.Document) → IsTextOfTree self.now s → (v : tree.Value)
            → IsTextOfValue value.now v
            → IfSome result (λ made. AddsDotted self.now.profile limit s path.now v (change_of made)) }
        ensures within { IfSome result (λ made. IsSpanOf self.now.text made.place) }
        ensures value { IsAcceptedValue Wide value.now }
    {
        // The invariants of a document and of a value are known to the proof from where they are looked at.
        let _text = self.text;
        let _given = value.as_str();
        let insertion = self.insertion(path, value).ok()?;
        let Spot::AfterLine(keyval) = insertion.spot else {
            return None;
        };
        let at = self.keyval_end(keyval);
        if self.is_open(at) {
            return None;
        }
        let mut line = room_for(alloc, value, LINE_ROOM)?;
        self.push_line(&mut line, at, path, insertion.from, value)
            .ok()?;
        Some(TextEdit {
            place: Span { start: at, end: at },
            new: line,
        })
    }
}
