//! A document that was read, as edits of a list look at it that are made at once.
ghost use Rattle.std.specs.Prelude.{◌≡◌};
ghost use Rattle.keep_edit_plan.specs.Reading.{Holds, text_in};
ghost use Rattle.keep_edit_runs.specs.Newlines.{IsNewlineOf};

use crate::newline::{Newline, is_plain};
use keep_edit_plan::DocumentRef;
use keep_rules::Index;
use keep_syntax::Syntax;
use keep_token::Profile;
use std::alloc::Global;
use std::marker::Model;

/// The document before edits that are made at once: its text, the profile that it was read in, the syntax and the index
/// that were read of it, and the allocator of all that is made for the edits.
#[derive(Drop)]
pub struct Before<'a> {
    alloc: Global,
    pub(crate) text: &'a str,
    pub(crate) profile: Profile,
    pub(crate) syntax: &'a Syntax,
    pub(crate) index: &'a Index,
    pub(crate) newline: Newline,
}

impl<'a> Model for Before<'a> {
    ghost use Rattle.keep_edit_plan.specs.Reading.{Holds, ProfiledText, text_in};
    ghost use Rattle.keep_edit_runs.specs.Newlines.{IsNewlineOf};

    ghost Value = { ProfiledText };

    ghost view = { λ d. text_in d.profile d.text.now };

    ghost invariant = { λ d. Holds (text_in d.profile d.text.now) d.syntax.now d.index.now
        × IsNewlineOf (text_in d.profile d.text.now) d.newline };
}

/// What leaves the first newline of a document with this text.
fn newline_in(text: &str, document: DocumentRef) -> Newline
    requires { text.now ≡ document.text }
    ensures { IsNewlineOf document.entry result }
{
    if is_plain(text) {
        return Newline::LineFeed;
    }
    match document.first_line_end() {
        Some(end) => Newline::After(end),
        None => Newline::Unknown,
    }
}

impl<'a> Before<'a> {
    /// The document of a text, by the syntax and the index that were read of it in that profile.
    pub fn new(
        alloc: Global,
        text: &'a str,
        profile: Profile,
        syntax: &'a Syntax,
        index: &'a Index,
    ) -> Before<'a>
        requires { Holds (text_in profile text.now) syntax.now index.now }
        ensures { result ≡ text_in profile text.now }
    {
        let newline = newline_in(text, DocumentRef::new(text, profile, syntax, index));
        Before {
            alloc,
            text,
            profile,
            syntax,
            index,
            newline,
        }
    }

    /// The document as each edit looks at it.
    pub(crate) fn as_ref(&self) -> DocumentRef<'_>
        ensures { result ≡ self.now }
    {
        DocumentRef::new(self.text, self.profile, self.syntax, self.index)
    }

    /// The allocator of what is made for the edits.
    pub(crate) fn alloc(&self) -> Global {
        self.alloc
    }
}
