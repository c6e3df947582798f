//! What removes change of their lines, by the document before them.
ghost use Rattle.std.specs.Prelude.{IfSome};
ghost use Rattle.keep_syntax.specs.Tree as tree;
ghost use Rattle.keep_edit_spec.specs.Edits.{remove};
ghost use Rattle.keep_edit_spec.specs.Runs.{MakesChange};
ghost use Rattle.keep_edit_plan.specs.Answers.{IsSpanOf};
ghost use Rattle.keep_edit_plan.specs.Reading.{IsTextOfTree, limit};
ghost use Rattle.keep_edit_plan.specs.TextEdits.{change_of};

use super::{Piece, line_cut};
use crate::document::DocumentRef;
use crate::text_edit::{TextEdit, part_at};
use keep_rules::Path;
use keep_syntax::{Owner, Span};
use std::alloc::Global;

impl<'a> DocumentRef<'a> {
    /// What a remove changes of its line, if it is of a value with a line of its own that has a newline: it takes the
    /// line, or leaves it with its comment. None for any other remove, where it is refused, and where memory was
    /// refused.
    pub(crate) fn line_removal(&self, alloc: Global, path: &Path) -> Option<TextEdit>
        ensures taken { (s : tree.Document) → IsTextOfTree self.now s
            → IfSome result (λ made. MakesChange self.now.profile limit s (remove path.now) (change_of made)) }
        ensures within { IfSome result (λ made. IsSpanOf self.now.text made.place) }
    {
        // The invariant of a document is known to the proof from where a field of it is looked at.
        let bytes = self.text.as_bytes();
        let Ok((_, Piece::Value(number))) = self.piece(path) else {
            return None;
        };
        let value = self.syntax.value(number);
        let Owner::Line(line) = value.owner else {
            return None;
        };
        let statement = self.syntax.statement(line);
        let end = statement.line.end;
        if bytes[end - 1] != b'\n' {
            return None;
        }
        // What the edit leaves after its cut is put back: the comment, with the newline, or nothing.
        let cut = line_cut(bytes, statement, value).span;
        let rest = part_at(
            self.text,
            Span {
                start: cut.end,
                end,
            },
        );
        Some(TextEdit {
            place: Span {
                start: cut.start,
                end,
            },
            new: String::from_str(alloc, rest).ok()?,
        })
    }
}
