//! The tables and elements that removes take with their headers, by the document before them.
ghost use Rattle.std.specs.Prelude.{IfSome};
ghost use Rattle.keep_syntax.specs.Tree as tree;
ghost use Rattle.keep_edit_spec.specs.RemovedHeaders.{RemovesHeader};
ghost use Rattle.keep_edit_spec.specs.RemovedSections.{RemovesSection};
ghost use Rattle.keep_edit_plan.specs.Answers.{IsSpanOf};
ghost use Rattle.keep_edit_plan.specs.Reading.{IsTextOfTree, limit};
ghost use Rattle.keep_edit_plan.specs.TextEdits.{change_of};

use super::{Piece, section_cut};
use crate::append::ends_in_newline;
use crate::document::DocumentRef;
use crate::set::ends_in_key;
use crate::text_edit::TextEdit;
use keep_rules::Path;
use std::alloc::Global;

impl<'a> DocumentRef<'a> {
    /// What a remove takes, if it is of a table that a header defines, or of an element that a header begins, and the
    /// text ends in a newline: the header with its body. None for any other remove, and where it is refused. It takes
    /// no memory.
    pub fn removed_section(&self, alloc: Global, path: &Path) -> Option<TextEdit>
        ensures removed { (s : tree.Document) → IsTextOfTree self.now s
            → IfSome result (λ made. RemovesHeader self.now.profile limit s path.now (change_of made)) }
        ensures within { IfSome result (λ made. IsSpanOf self.now.text made.place) }
    {
        // The invariant of a document is known to the proof from where a field of it is looked at.
        let text = self.text;
        let Ok((_, Piece::Section(number))) = self.piece(path) else {
            return None;
        };
        if !ends_in_newline(text) {
            return None;
        }
        Some(TextEdit {
            place: section_cut(self.syntax, number).span,
            new: String::new(alloc),
        })
    }

    /// The same of a table alone, whose path ends in a key: an element's path ends in an index.
    pub(crate) fn removed_table(&self, alloc: Global, path: &Path) -> Option<TextEdit>
        ensures removed { (s : tree.Document) → IsTextOfTree self.now s
            → IfSome result (λ made. RemovesSection self.now.profile limit s path.now (change_of made)) }
        ensures within { IfSome result (λ made. IsSpanOf self.now.text made.place) }
    {
        if !ends_in_key(path) {
            return None;
        }
        self.removed_section(alloc, path)
    }
}
