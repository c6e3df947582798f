//! The newline that a document is written with.
ghost use Rattle.std.specs.Prelude.{◌≡◌, IfSome};
ghost use Rattle.keep_syntax.specs.Tree as tree;
ghost use Rattle.keep_edit_spec.specs.Lines.{newline_of};
ghost use Rattle.keep_edit_plan.specs.Newlines.{IsFirstLineEnd};
ghost use Rattle.keep_edit_plan.specs.Reading.{IsTextOfTree};

use crate::document::DocumentRef;
use keep_syntax::Span;
use keep_token::Leaf;

impl<'a> DocumentRef<'a> {
    /// The text of the document's first newline, which edits write too: a line feed, alone or after a carriage return.
    /// It is a line feed if the document has none. No token after the first newline is looked at.
    pub(crate) fn newline(&self) -> &str
        ensures { (s : tree.Document) → IsTextOfTree self.now s → result.now ≡ (newline_of s).text }
    {
        for token in self.syntax.tokens(self.text) {
            if let Leaf::Newline = token.leaf {
                return token.text;
            }
        }
        "\n"
    }

    /// Where the document's first line ends, behind its newline, as a byte offset. None if no line comes after it.
    pub fn first_line_end(&self) -> Option<usize>
        ensures { IfSome result (λ end. (s : tree.Document) → IsTextOfTree self.now s → IsFirstLineEnd s end) }
    {
        let len = self.text.len();
        let start = self.lines_start();
        if start >= len {
            return None;
        }
        let end = start + 1;
        let line = self.syntax.lines(Span { start, end });
        if line.end < len { Some(line.end) } else { None }
    }
}
