//! The text of a document after an edit that is not made in it.
ghost use Rattle.std.specs.Prelude.{◌≡◌, ◌++◌, ◌≤◌, length, IfOk, string_bytes};
ghost use Rattle.keep_edit.specs.Answers.{text_after, IsSpanOf};

use keep_edit::{Document, TextEdit};
use std::alloc::{AllocError, Global};
use std::marker::Model;

/// The text of a document after an edit: the text before it, what it writes, and the text after it. So it takes no
/// memory of its own.
#[derive(Drop)]
pub struct Edited {
    document: Document,
    edit: TextEdit,
}

impl Model for Edited {
    ghost use Rattle.std.specs.Prelude.{List, ℕ};
    ghost use Rattle.keep_edit.specs.Answers.{text_after, IsSpanOf};

    ghost Value = { List ℕ };

    ghost view = { λ e. text_after e.document.text e.edit };

    ghost invariant = { λ e. IsSpanOf e.document.text e.edit.place };
}

impl Edited {
    /// The text of a document after what an edit writes.
    pub fn new(document: Document, edit: TextEdit) -> Edited
        requires { IsSpanOf document.text edit.place }
        ensures { result ≡ text_after document.text edit }
    {
        Edited { document, edit }
    }

    /// The text in three pieces, of which each may be empty.
    pub fn pieces(&self) -> (&str, &str, &str)
        ensures pieces { result.0.now ++ (result.1.now ++ result.2.now) ≡ self.now }
        ensures fits { length self.now ≤ usize.MAX }
    {
        let text = self.document.text();
        let place = self.edit.place;
        (
            &text[..place.start],
            self.edit.new.as_str(),
            &text[place.end..],
        )
    }

    /// The text in one piece. The only error is out of memory.
    pub fn text(&self, alloc: Global) -> Result<String, AllocError>
        ensures { IfOk result (λ text. string_bytes text ≡ self.now) }
    {
        self.edit.text_after(alloc, self.document.text())
    }
}
