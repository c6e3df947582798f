//! Reading a document, and what is known of it then.
ghost use Rattle.std.specs.Prelude.{◌≡◌, ℕ, ◌+◌, ◌<◌, ◌≤◌, List, length, slice_get, IfOk, IfErr, MatchResult, Some};
ghost use Rattle.std.specs.List.{AllByRecursion};
ghost use Rattle.keep_types.specs.declared.leaf.Profile.{Profile};
ghost use Rattle.keep_syntax.specs.declared.fault.ReadFault.TheVariants.{Memory};
ghost use Rattle.keep_syntax.specs.Tree.{Document, text};
ghost use Rattle.keep_syntax.specs.Grammar.{Reads};
ghost use Rattle.keep_syntax.specs.Nesting.{IsWithin};
ghost use Rattle.keep_syntax.specs.WholeLines.{touched, replaced};
ghost use Rattle.keep_syntax.specs.Contract as spec;

mod rereading;

use crate::fault::ReadFault;
use crate::info::Limits;
use crate::reread::new_lines;
use crate::tokens::Tokens;
use crate::whole::read_lines;
use keep_syntax_store::{Parts, Starts, replaced_parts};
use keep_types::{KeyPart, Span, Statement, ValueInfo};
pub use rereading::Replaced;
use std::alloc::{AllocError, Global};

/// What was read of a document: its tokens, statements, key parts and values, each in text order.
#[derive(Drop)]
pub struct Syntax {
    parts: Parts,
    /// Where each line begins.
    lines: Starts,
    /// How many bytes the text has.
    len: usize,
}

impl Syntax {
    /// Reads a document. (toml.abnf: `toml`)
    ///
    /// # Errors
    ///
    /// `Syntax` if the text is no document, `TooDeep` if a value has more brackets open than the limit allows,
    /// whichever is met first, and `Memory`.
    pub fn read(alloc: Global, text: &str, limits: Limits) -> Result<Syntax, ReadFault>
        ensures found { IfOk result (spec.IsReadOf limits.profile limits.depth text.now) }
        ensures only { (d : Document) → Reads limits.profile limits.depth text.now d
            → MatchResult result (λ s. spec.IsSyntaxOf s d) (λ e. e ≡ Memory) }
        ensures faults { IfErr result (spec.IsFaultOf limits.profile limits.depth text.now) }
        ensures of_text { IfOk result (λ s. spec.IsTextOf s text.now) }
        ensures within { IfOk result (λ s. AllByRecursion (IsWithin limits.depth) (spec.values_of s)) }
        ensures few { IfOk result (λ s. length (spec.tokens_of s text.now) ≤ length text.now + 1) }
    {
        let (parts, lines) = read_lines(alloc, text, limits)?;
        Ok(Syntax {
            parts,
            lines,
            len: text.len(),
        })
    }

    /// How many tokens there are, `End` counted: at most one more than the text that was read has bytes.
    pub fn token_count(&self) -> usize
        ensures counted { (bytes : List ℕ) → result ≡ length (spec.tokens_of self.now bytes) }
        ensures few { (profile : Profile) (limit : ℕ) (bytes : List ℕ) → spec.IsReadOf profile limit bytes self.now
            → result ≤ length bytes + 1 }
    {
        self.parts.stored_token_count() + 1
    }

    /// The tokens of the text that was read.
    pub fn tokens<'a>(&'a self, text: &'a str) -> Tokens<'a>
        requires { spec.IsTextOf self.now text.now }
        ensures { spec.left result ≡ spec.tokens_of self.now text.now }
    {
        Tokens::new(&self.parts, text)
    }

    /// How many statements there are.
    pub fn statement_count(&self) -> usize
        ensures { result ≡ length (spec.statements_of self.now) }
    {
        self.parts.statement_count()
    }

    /// The statement with this number, from 0.
    #[inline(always)]
    pub fn statement(&self, number: usize) -> Statement
        requires { number < length (spec.statements_of self.now) }
        ensures { slice_get (spec.statements_of self.now) number ≡ Some result }
    {
        self.parts.statement_at(number)
    }

    /// How many key parts there are.
    pub fn key_count(&self) -> usize
        ensures { result ≡ length (spec.parts_of self.now) }
    {
        self.parts.key_count()
    }

    /// The key part with this number, from 0.
    pub fn key_part(&self, number: usize) -> KeyPart
        requires { number < length (spec.parts_of self.now) }
        ensures { slice_get (spec.parts_of self.now) number ≡ Some result }
    {
        self.parts.key_part(number)
    }

    /// How many values there are.
    pub fn value_count(&self) -> usize
        ensures { result ≡ length (spec.values_of self.now) }
    {
        self.parts.value_count()
    }

    /// The value with this number, from 0. A value comes before those inside it. Its depth is at most the limit to
    /// which the text was read, and less than the limit for an array or an inline table.
    #[inline(always)]
    pub fn value(&self, number: usize) -> ValueInfo
        requires { number < length (spec.values_of self.now) }
        ensures stored { slice_get (spec.values_of self.now) number ≡ Some result }
        ensures within { (profile : Profile) (limit : ℕ) (bytes : List ℕ) → spec.IsReadOf profile limit bytes self.now
            → IsWithin limit result }
    {
        self.parts.value(number)
    }

    /// The lines that a span touches: from the last line start at or before its start to the first line start at or
    /// after its end, or to the end of the text. The newlines inside a value end no line.
    pub fn lines(&self, span: Span) -> Span
        requires { spec.IsSpanIn self.now span }
        ensures { (d : Document) → spec.IsSyntaxOf self.now d → result ≡ touched d span }
    {
        Span {
            start: self.lines.last_to(span.start, 0),
            end: self.lines.first_from(span.end, self.len),
        }
    }

    /// The syntax of the text with whole lines replaced by others. Only these are read; what is stored of all other
    /// lines is moved.
    ///
    /// # Errors
    ///
    /// `AllocError` if memory runs out.
    pub fn reread(
        &self,
        alloc: Global,
        whole: Span,
        lines: &str,
        limits: Limits,
    ) -> Result<Syntax, AllocError>
        requires { spec.MayReread limits.profile limits.depth self.now whole lines.now }
        ensures read { (d m : Document) → spec.IsSyntaxOf self.now d
            → spec.CanReplace limits.profile limits.depth d whole lines.now m
            → IfOk result (λ s. spec.IsSyntaxOf s (replaced d whole m)) }
        ensures of_text { (d m : Document) → spec.IsSyntaxOf self.now d
            → spec.CanReplace limits.profile limits.depth d whole lines.now m
            → IfOk result (λ s. spec.IsTextOf s (spec.put_at whole lines.now (text d))) }
    {
        match self.with_lines(alloc, whole, lines, limits) {
            Ok(syntax) => Ok(syntax),
            Err(_) => Err(AllocError),
        }
    }

    /// Puts the parts of both syntaxes together.
    fn with_lines(
        &self,
        alloc: Global,
        whole: Span,
        lines: &str,
        limits: Limits,
    ) -> Result<Syntax, ReadFault>
        requires { spec.MayReread limits.profile limits.depth self.now whole lines.now }
        ensures { (d m : Document) → spec.IsSyntaxOf self.now d
            → spec.CanReplace limits.profile limits.depth d whole lines.now m
            → IfOk result (λ s. spec.IsSyntaxOf s (replaced d whole m)) }
    {
        let new = new_lines(alloc, &self.lines, self.len, whole, lines, limits)?;
        let parts = replaced_parts(
            alloc,
            &self.parts,
            whole,
            self.len,
            &new.parts,
            new.size,
            new.end,
        )?;
        Ok(Syntax {
            parts,
            lines: new.starts,
            len: new.len,
        })
    }

    /// What is stored of the text, each part by its number.
    pub fn parts(&self) -> &Parts
        ensures { result.now ≡ self.now.parts }
    {
        &self.parts
    }
}
