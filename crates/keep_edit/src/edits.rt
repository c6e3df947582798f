//! Edits that are given as values: one, and lists of them.
ghost use Rattle.std.specs.Prelude.{◌≡◌, ◌⊎◌, ◌<◌, ◌≤◌, length, take, IfErr, IfOk, MatchResult, OnErr};
ghost use Rattle.keep_syntax.specs.Tree as tree;
ghost use Rattle.keep_edit_spec.specs.Edits as law;
ghost use Rattle.keep_edit_spec.specs.declared.fault.EditFault.TheVariants.{Memory};
ghost use Rattle.keep_edit.specs.Reading.{IsAccepted, IsTextOfTree, ProfiledText};
ghost use Rattle.keep_edit.specs.Answers.{EditDone, EditReported, EditWritten, IsSpanOf};
ghost use Rattle.keep_edit.specs.Lists.{IsEdit, AllDone, AreMade, EachDone, IsNotCopied, StopsAt};

use crate::document::Document;
use keep_edit_plan::{Edit, TextEdit};
use keep_edit_spec::{EditFault, Splice};

impl Document {
    /// Makes an edit. After a refusal the document is as before. The document's own allocator gives the memory.
    ///
    /// # Errors
    ///
    /// Those of the method of that edit.
    pub fn apply(&mut self, edit: &Edit) -> Result<Splice, EditFault>
        ensures done { (s : tree.Document) → IsTextOfTree self.old s → (e : law.Edit) → IsEdit edit.now e
            → EditDone s e self.old self.new result }
        ensures accepted { IsAccepted self.old }
        ensures edit { (e : law.Edit) × IsEdit edit.now e }
        ensures read { IsAccepted self.new }
        ensures refused { OnErr result (self.new ≡ self.old) }
    {
        self.apply_plan(self.as_ref().plan(self.alloc(), edit))
    }

    /// The text that the document has after `apply`. The document stays as it is, and nothing is read anew.
    ///
    /// # Errors
    ///
    /// Those of `apply`.
    pub fn text_applied(&self, edit: &Edit) -> Result<String, EditFault>
        ensures stated { (s : tree.Document) → IsTextOfTree self.now s → (e : law.Edit) → IsEdit edit.now e
            → EditReported s e self.now result }
        ensures accepted { IsAccepted self.now }
        ensures edit { (e : law.Edit) × IsEdit edit.now e }
    {
        self.text_by_plan(self.as_ref().plan(self.alloc(), edit))
    }

    /// What `apply` writes into the text, and where. The document stays as it is: the new text is not made, and nothing
    /// is read anew.
    ///
    /// # Errors
    ///
    /// Those of `apply`.
    pub fn text_edit(&self, edit: &Edit) -> Result<TextEdit, EditFault>
        ensures stated { (s : tree.Document) → IsTextOfTree self.now s → (e : law.Edit) → IsEdit edit.now e
            → EditWritten s e self.now result }
        ensures within { IfOk result (λ made. IsSpanOf self.now.text made.place) }
        ensures accepted { IsAccepted self.now }
        ensures edit { (e : law.Edit) × IsEdit edit.now e }
    {
        let plan = self.as_ref().plan(self.alloc(), edit)?;
        Ok(plan.text_edit)
    }

    /// Makes all edits in their order, each on the document after those before it; or none of them: after a refusal the
    /// document is as before. More than one are made on a copy, which is read of the document's text once; then each
    /// edit reads the lines that it touches. Where many come in a row that leave one another alone, they are made at
    /// once, and the text is read anew after them: of the first edits this is the copy. An empty list takes no memory.
    /// The document's own allocator gives the memory.
    ///
    /// # Errors
    ///
    /// The number, from 0, of the first edit that is refused, and why: as `apply` refuses it on the document after
    /// those before it. `Memory` comes with the number of the edit where memory was refused, or with 0 where it was
    /// refused for the copy. The number is less than the list's length, so an empty list is always made.
    pub fn apply_all(&mut self, edits: &[Edit]) -> Result<(), (usize, EditFault)>
        ensures done { (s : tree.Document) → IsTextOfTree self.old s → AllDone s edits.now self.old self.new result }
        ensures accepted { IsAccepted self.old }
        ensures read { IsAccepted self.new }
        ensures refused { OnErr result (self.new ≡ self.old) }
        ensures number { IfErr result (λ stop. stop.0 < length edits.now) }
    {
        // The invariant of a document is known to the proof from where a field of it is looked at.
        let _text = &self.text;
        if edits.is_empty() {
            return Ok(());
        }
        if edits.len() == 1 {
            return self.apply_only(edits);
        }
        *self = self.after_each(edits)?;
        Ok(())
    }

    /// Makes the only edit of a list. A refused edit changes nothing, so there is no copy.
    fn apply_only(&mut self, edits: &[Edit]) -> Result<(), (usize, EditFault)>
        requires { length edits.now ≡ 1 }
        ensures done { (s : tree.Document) → IsTextOfTree self.old s → EachDone s edits.now self.old self.new result }
        ensures read { IsAccepted self.new }
        ensures refused { OnErr result (self.new ≡ self.old) }
        ensures number { IfErr result (λ stop. stop.0 < length edits.now) }
    {
        match self.apply(&edits[0]) {
            Ok(_) => Ok(()),
            Err(fault) => Err((0, fault)),
        }
    }

    /// The document after the edits in their order, made on a copy; or the first that is refused.
    fn after_each(&self, edits: &[Edit]) -> Result<Document, (usize, EditFault)>
        requires { 0 < length edits.now }
        ensures done { (s : tree.Document) → IsTextOfTree self.now s → MatchResult result (AreMade s edits.now self.now)
            (λ stop. StopsAt s edits.now self.now.profile stop.0 stop.1 ⊎ IsNotCopied edits.now stop.0 stop.1) }
        ensures number { IfErr result (λ stop. stop.0 < length edits.now) }
        ensures of { IsAccepted self.now }
    {
        let (mut document, next) = match self.begun(edits) {
            Ok(begun) => begun,
            Err(fault) => return Err((0, fault)),
        };
        document.apply_from(edits, next)?;
        Ok(document)
    }

    /// A copy on which as many of the first edits are made as are made at once, and the number of the next. The only
    /// error is out of memory.
    fn begun(&self, edits: &[Edit]) -> Result<(Document, usize), EditFault>
        requires { 0 < length edits.now }
        ensures made { IfOk result (λ begun. (s : tree.Document) (old : ProfiledText)
            → AreMade s (take 0 edits.now) old self.now → AreMade s (take begun.1 edits.now) old begun.0) }
        ensures next { IfOk result (λ begun. begun.1 ≤ length edits.now) }
        ensures memory { IfErr result (λ fault. fault ≡ Memory) }
        ensures of { IsAccepted self.now }
    {
        // The invariant of a document is known to the proof from where a field of it is looked at.
        let _text = &self.text;
        if let Some(begun) = self.after_first(edits) {
            return Ok(begun);
        }
        Ok((self.copied()?, 0))
    }

    /// Makes the edits from number `first` on in their order, up to the first that is refused.
    fn apply_from(&mut self, edits: &[Edit], first: usize) -> Result<(), (usize, EditFault)>
        requires { first ≤ length edits.now }
        ensures done { (s : tree.Document) (old : ProfiledText) → AreMade s (take first edits.now) old self.old
            → EachDone s edits.now old self.new result }
        ensures number { IfErr result (λ stop. stop.0 < length edits.now) }
    {
        let mut next = first;
        while next < edits.len() {
            next = self.apply_some(edits, next)?;
        }
        Ok(())
    }
}
