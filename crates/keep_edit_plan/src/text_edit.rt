//! What an edit writes, and the text with it.
ghost use Rattle.std.specs.Prelude.{◌≡◌, IfOk, string_bytes};
ghost use Rattle.keep_meaning.specs.KeyText.{text_at};
ghost use Rattle.keep_edit_plan.specs.Answers.{IsSpanOf, text_after};

use keep_syntax::Span;
use std::alloc::{AllocError, Global};

/// What an edit writes into a text, and where: every other byte stays.
#[derive(Drop)]
pub struct TextEdit {
    /// The bytes of the old text that are replaced.
    pub place: Span,
    /// What replaces them.
    pub new: String,
}

impl TextEdit {
    /// The text after the edit, in one allocation. The only error is out of memory.
    pub fn text_after(&self, alloc: Global, old: &str) -> Result<String, AllocError>
        requires { IsSpanOf old.now self.now.place }
        ensures { IfOk result (λ text. string_bytes text ≡ text_after old.now self.now) }
    {
        let Span { start, end } = self.place;
        let new = self.new.as_str();
        let mut out = String::with_capacity(
            alloc,
            (old.len() - (end - start)).saturating_add(new.len()),
        )?;
        out.push_str(&old[..start])?;
        out.push_str(new)?;
        out.push_str(&old[end..])?;
        Ok(out)
    }
}

/// The part of a text that is at a span.
pub fn part_at(text: &str, span: Span) -> &str
    requires { IsSpanOf text.now span }
    ensures { result.now ≡ text_at text.now span }
{
    &text[span.start..span.end]
}
