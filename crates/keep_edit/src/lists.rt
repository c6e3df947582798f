//! Lists of edits, as far as they are gone through: some edits are made at once, the others one by one.
ghost use Rattle.std.specs.Prelude.{◌≡◌, ◌<◌, ◌≤◌, All, IfErr, IfOk, IfSome, MatchResult, length, take};
ghost use Rattle.keep_syntax.specs.Tree as tree;
ghost use Rattle.keep_edit_plan.specs.TextEdits.{IsChangeIn};
ghost use Rattle.keep_edit_runs.specs.Runs.{MakeChanges, changed_text};
ghost use Rattle.keep_edit.specs.Lists.{AllWritten, AreMade, AreWithin, StopsAt};
ghost use Rattle.keep_edit.specs.Reading.{IsTextOfTree, ProfiledText};

use crate::document::Document;
use keep_edit_plan::{Edit, TextEdit, TextEdits};
use keep_edit_runs::{Before, Next, Run};
use keep_edit_spec::EditFault;

/// What the last edits of a list change in the text of the document after those before them.
#[derive(Drop)]
pub enum LastEdits {
    /// The last edit alone.
    One(TextEdit),
    /// Edits that are made at once.
    AtOnce(TextEdits),
}

impl Document {
    /// The document as edits of a list look at it that are made at once.
    fn before(&self) -> Before<'_>
        ensures { result ≡ self.now }
    {
        Before::new(
            self.alloc(),
            self.text.as_str(),
            self.profile,
            &self.syntax,
            &self.index,
        )
    }

    /// Makes the edits in their order, each on the document after those before it, up to the last ones, and returns
    /// what these then change in the text: as many as are made at once, or the last one. They are not made in the
    /// document, and the text after them is not read. After a refusal the edits before the refused one are made. The
    /// document's own allocator gives the memory.
    ///
    /// # Errors
    ///
    /// The number, from 0, of the first edit that is refused, and why: as `apply` refuses it on the document after
    /// those before it.
    pub fn apply_but_last(&mut self, edits: &[Edit]) -> Result<LastEdits, (usize, EditFault)>
        requires { 0 < length edits.now }
        ensures done { (s : tree.Document) → IsTextOfTree self.old s → AllWritten s edits.now self.old self.new result }
        ensures within { IfOk result (AreWithin self.new.text) }
        ensures number { IfErr result (λ stop. stop.0 < length edits.now) }
    {
        // The invariant of a document is known to the proof from where a field of it is looked at.
        let _text = &self.text;
        let last = edits.len() - 1;
        let mut first = 0;
        while first < last {
            match self.before().next_for_text(edits, first) {
                Next::AtOnce(run) => {
                    if run.end > last {
                        return Ok(LastEdits::AtOnce(run.changes));
                    }
                    first = self.apply_run(edits, first, &run)?;
                }
                Next::OneByOne { end } => {
                    first = self.apply_up_to(edits, first, end.min(last))?;
                }
            }
        }
        match self.text_edit(&edits[last]) {
            Ok(edit) => Ok(LastEdits::One(edit)),
            Err(fault) => Err((last, fault)),
        }
    }

    /// Makes the edit with number `first`, and maybe some after it, in their order. Returns the number of the next.
    ///
    /// # Errors
    ///
    /// The number of the first edit that is refused, and why, or `Memory`.
    pub(crate) fn apply_some(
        &mut self,
        edits: &[Edit],
        first: usize,
    ) -> Result<usize, (usize, EditFault)>
        requires { first < length edits.now }
        ensures done { (s : tree.Document) (old : ProfiledText) → AreMade s (take first edits.now) old self.old
            → MatchResult result (λ next. AreMade s (take next edits.now) old self.new)
            (λ stop. StopsAt s edits.now old.profile stop.0 stop.1) }
        ensures next { IfOk result (λ next. (first < next) × (next ≤ length edits.now)) }
        ensures number { IfErr result (λ stop. stop.0 < length edits.now) }
    {
        match self.before().next(edits, first) {
            Next::AtOnce(run) => self.apply_run(edits, first, &run),
            Next::OneByOne { end } => self.apply_up_to(edits, first, end),
        }
    }

    /// Makes the edits of a run, which begin with number `first`: at once, and one by one where memory is refused for
    /// that. Returns the number of the next.
    ///
    /// # Errors
    ///
    /// Those of `apply_some`.
    fn apply_run(
        &mut self,
        edits: &[Edit],
        first: usize,
        run: &Run,
    ) -> Result<usize, (usize, EditFault)>
        requires few { (first ≤ run.now.end) × (run.now.end ≤ length edits.now) }
        requires made { MakeChanges edits.now first run.now.end self.old run.now.changes }
        requires within { All (IsChangeIn self.old.text) run.now.changes }
        ensures done { (s : tree.Document) (old : ProfiledText) → AreMade s (take first edits.now) old self.old
            → MatchResult result (λ next. AreMade s (take next edits.now) old self.new)
            (λ stop. StopsAt s edits.now old.profile stop.0 stop.1) }
        ensures next { IfOk result (λ next. next ≡ run.now.end) }
        ensures number { IfErr result (λ stop. stop.0 < length edits.now) }
    {
        if run.changes.len() == 0 {
            return Ok(run.end);
        }
        let Some(document) = self.with_changes(&run.changes) else {
            return self.apply_up_to(edits, first, run.end);
        };
        *self = document;
        Ok(run.end)
    }

    /// The document after the first edits, as many as are made at once, and the number of the next; None where none
    /// are. This one stays as it is.
    pub(crate) fn after_first(&self, edits: &[Edit]) -> Option<(Document, usize)>
        requires { 0 < length edits.now }
        ensures made { IfSome result (λ after. (s : tree.Document) (old : ProfiledText)
            → AreMade s (take 0 edits.now) old self.now → AreMade s (take after.1 edits.now) old after.0) }
        ensures next { IfSome result (λ after. after.1 ≤ length edits.now) }
    {
        let run = self.before().first_run(edits)?;
        Some((self.with_changes(&run.changes)?, run.end))
    }

    /// Makes the edits from number `first` up to that with number `end`, one by one. Returns that number.
    ///
    /// # Errors
    ///
    /// Those of `apply_some`.
    fn apply_up_to(
        &mut self,
        edits: &[Edit],
        first: usize,
        end: usize,
    ) -> Result<usize, (usize, EditFault)>
        requires { (first ≤ end) × (end ≤ length edits.now) }
        ensures done { (s : tree.Document) (old : ProfiledText) → AreMade s (take first edits.now) old self.old
            → MatchResult result (λ next. AreMade s (take next edits.now) old self.new)
            (λ stop. StopsAt s edits.now old.profile stop.0 stop.1) }
        ensures next { IfOk result (λ next. next ≡ end) }
        ensures number { IfErr result (λ stop. stop.0 < length edits.now) }
    {
        for index in first..end {
            if let Err(fault) = self.apply(&edits[index]) {
                return Err((index, fault));
            }
        }
        Ok(end)
    }

    /// The document of the text with these changes, which is read anew. None where memory was refused.
    fn with_changes(&self, changes: &TextEdits) -> Option<Document>
        requires { All (IsChangeIn self.now.text) changes.now }
        ensures { IfSome result (λ document. document ≡ changed_text self.now changes.now) }
    {
        let text = changes.text_after(self.alloc(), self.text.as_str()).ok()?;
        Document::of_text(self.alloc(), text, self.profile).ok()
    }
}
