//! Lines of a syntax replaced in place, and put back.
ghost use Rattle.std.specs.Prelude.{OnOk, OnErr, IfOk};
ghost use Rattle.keep_syntax.specs.Tree.{Document, text};
ghost use Rattle.keep_syntax.specs.WholeLines.{replaced};
ghost use Rattle.keep_syntax.specs.Contract as spec;
ghost use Rattle.keep_syntax.specs.Undoing as undoing;

use super::Syntax;
use crate::fault::ReadFault;
use crate::info::Limits;
use crate::reread::new_lines;
use keep_syntax_store::{Gone, Starts, replace_parts, restore_parts};
use keep_types::Span;
use std::alloc::AllocError;
use std::mem;

/// What [`Syntax::replace`] replaced, for [`Syntax::restore`].
#[derive(Drop)]
pub struct Replaced {
    parts: Gone,
    lines: Starts,
    len: usize,
}

impl Syntax {
    ghost use Rattle.keep_syntax.specs.declared.syntax.Syntax.{Syntax};

    /// Puts lines in the place of whole lines, in place: only the new lines are read, and what is stored of the lines
    /// after them is moved. After a refusal the same is stored as before.
    ///
    /// # Errors
    ///
    /// `AllocError` if memory runs out.
    pub fn replace(
        &mut self,
        whole: Span,
        lines: &str,
        limits: Limits,
    ) -> Result<Replaced, AllocError>
        requires { spec.MayReread limits.profile limits.depth self.old whole lines.now }
        ensures read { (d m : Document) → spec.IsSyntaxOf self.old d
            → spec.CanReplace limits.profile limits.depth d whole lines.now m
            → OnOk result (spec.IsSyntaxOf self.new (replaced d whole m)) }
        ensures of_text { (d m : Document) → spec.IsSyntaxOf self.old d
            → spec.CanReplace limits.profile limits.depth d whole lines.now m
            → OnOk result (spec.IsTextOf self.new (spec.put_at whole lines.now (text d))) }
        ensures refused { OnErr result (undoing.IsSame self.new self.old) }
        ensures undo { IfOk result (λ r. undoing.Undoes r self.old self.new) }
    {
        match self.put_lines(whole, lines, limits) {
            Ok(replaced) => Ok(replaced),
            Err(_) => Err(AllocError),
        }
    }

    /// Puts the parts of both syntaxes together.
    fn put_lines(&mut self, whole: Span, lines: &str, limits: Limits) -> Result<Replaced, ReadFault>
        requires { spec.MayReread limits.profile limits.depth self.old whole lines.now }
        ensures read { (d m : Document) → spec.IsSyntaxOf self.old d
            → spec.CanReplace limits.profile limits.depth d whole lines.now m
            → OnOk result (spec.IsSyntaxOf self.new (replaced d whole m)) }
        ensures refused { OnErr result (undoing.IsSame self.new self.old) }
        ensures undo { IfOk result (λ r. undoing.Undoes r self.old self.new) }
    {
        let alloc = self.parts.allocator();
        let new = new_lines(alloc, &self.lines, self.len, whole, lines, limits)?;
        let parts = replace_parts(
            alloc,
            &mut self.parts,
            new.parts,
            whole,
            self.len,
            new.size,
            new.end,
        )?;
        Ok(Replaced {
            parts,
            lines: mem::replace(&mut self.lines, new.starts),
            len: mem::replace(&mut self.len, new.len),
        })
    }

    /// Puts back what was replaced. It takes no memory.
    pub fn restore(&mut self, replaced: Replaced)
        requires { undoing.CanUndo replaced self.old }
        ensures { (before : Syntax) → undoing.Undoes replaced before self.old → undoing.IsSame self.new before }
    {
        restore_parts(&mut self.parts, replaced.parts);
        self.lines = replaced.lines;
        self.len = replaced.len;
    }
}
