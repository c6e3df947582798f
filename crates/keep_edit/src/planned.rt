//! What was planned of an edit is done here to a document's own text, syntax and index.
ghost use Rattle.std.specs.Prelude.{◌≡◌, IfErr, IfOk, IfSome, MatchResult, OnErr, OnOk, string_bytes};
ghost use Rattle.keep_syntax.specs.declared.fault.ReadFault.TheVariants.{Memory};
ghost use Rattle.keep_syntax.specs.Tree as tree;
ghost use Rattle.keep_edit_spec.specs.Edits.{Edit};
ghost use Rattle.keep_edit_spec.specs.declared.fault.EditFault.TheVariants as law;
ghost use Rattle.keep_path.specs.NodeInfos.{NodeInfos};
ghost use Rattle.keep_rules.specs.ReadDocuments.{IsIndexOf};
ghost use Rattle.keep_edit_plan.specs.Answers.{text_after};
ghost use Rattle.keep_edit_plan.specs.IndexChanges.{CanChange, IsChanged};
ghost use Rattle.keep_edit_plan.specs.Plans.{EditPlanned, IsIndexChanged, IsPlanOf};
ghost use Rattle.keep_edit.specs.Reading.{IsAccepted, IsReadAs, IsTextOfTree, ProfiledText, text_in};
ghost use Rattle.keep_edit.specs.Answers.{EditDone, EditReported};
ghost use Rattle.keep_edit.specs.Places.{IsMovedIn, IsOfEdit, IsPatched, IsTaken};

use crate::document::Document;
use crate::index_change::{NewText, change_index};
use crate::lines::put_lines;
use crate::patch::{put_back, put_in};
use keep_edit_plan::{IndexChange, Plan, TextEdit};
use keep_edit_spec::{EditFault, Splice};
use keep_rules::Index;
use keep_syntax::{ReadFault, Span, Syntax};
use keep_token::Profile;
use std::alloc::Global;

impl Document {
    /// Does an edit by the plan that was made of it for this document. After a refusal the document is as before.
    ///
    /// # Errors
    ///
    /// The refusal that the plan is; else `Memory` if memory was refused.
    pub(crate) fn apply_plan(
        &mut self,
        planned: Result<Plan<'_>, EditFault>,
    ) -> Result<Splice, EditFault>
        requires { IfOk planned (IsPlanOf self.old) }
        ensures done { (s : tree.Document) → IsTextOfTree self.old s → (e : Edit)
            → EditPlanned s e self.old planned.entry → EditDone s e self.old self.new result }
        ensures accepted { IsAccepted self.old → IsAccepted self.new }
        ensures refused { OnErr result (self.new ≡ self.old) }
    {
        let plan = planned?;
        self.replaced(plan)
    }

    /// The text after an edit, by the plan that was made of it for this document.
    ///
    /// # Errors
    ///
    /// Those of `apply_plan`.
    pub(crate) fn text_by_plan(
        &self,
        planned: Result<Plan<'_>, EditFault>,
    ) -> Result<String, EditFault>
        requires { IfOk planned (IsPlanOf self.now) }
        ensures { (s : tree.Document) → IsTextOfTree self.now s → (e : Edit)
            → EditPlanned s e self.now planned.entry → EditReported s e self.now result }
    {
        let plan = planned?;
        self.text_after(&plan.text_edit)
    }

    /// The text after an edit of the document. The only error is out of memory.
    fn text_after(&self, edited: &TextEdit) -> Result<String, EditFault>
        requires { IsOfEdit self.now edited.now }
        ensures { MatchResult result (λ text. string_bytes text ≡ text_after self.now.text edited.now)
            (λ fault. fault ≡ law.Memory) }
    {
        match edited.text_after(self.alloc(), self.text.as_str()) {
            Ok(text) => Ok(text),
            Err(_) => Err(EditFault::Memory),
        }
    }

    /// Does an edit by its plan, in place. Of the text after it only the lines are scanned that the edit touches. The
    /// index is built anew, unless the plan tells what the edit changes in it, and that can be made where it is. The
    /// only error is out of memory, and then the document is as before.
    fn replaced(&mut self, plan: Plan<'_>) -> Result<Splice, EditFault>
        requires { IsPlanOf self.old plan }
        ensures moved { IsMovedIn plan.entry.text_edit self.old self.new result }
        ensures read { IsAccepted self.new }
    {
        let alloc = *self.text.allocator();
        let profile = self.profile;
        let Plan {
            text_edit,
            index_change,
        } = plan;
        let Ok(replaced_bytes) = put_in(&mut self.text, &text_edit) else {
            return Err(EditFault::Memory);
        };
        let text = self.text.as_str();
        let (syntax, index) = (&mut self.syntax, &mut self.index);
        match reread(
            alloc,
            text,
            profile,
            syntax,
            index,
            &text_edit,
            index_change,
        ) {
            Ok(scanned) => {
                let Span { start, end } = text_edit.place;
                let added = text_edit.new.as_str().len();
                Ok(Splice {
                    start,
                    end,
                    added,
                    scanned,
                })
            }
            Err(fault) => {
                put_back(&mut self.text, &text_edit, replaced_bytes.as_str());
                Err(fault)
            }
        }
    }

    /// The document once more, read of its text. The only error is out of memory.
    pub(crate) fn copied(&self) -> Result<Document, EditFault>
        ensures copy { MatchResult result (λ copy. copy ≡ self.now) (λ f. f ≡ law.Memory) }
        ensures of { IsAccepted self.now }
    {
        let alloc = *self.text.allocator();
        let Ok(bytes) = String::from_str(alloc, self.text.as_str()) else {
            return Err(EditFault::Memory);
        };
        match Document::of_text(alloc, bytes, self.profile) {
            Ok(document) => Ok(document),
            Err(fault) => Err(growth_refused(fault)),
        }
    }
}

/// Makes of the syntax and the index of a document those of the text after an edit, and reports how many bytes are
/// scanned: those of the lines that the edit touches. The only error is out of memory, and then both are as before.
fn reread(
    alloc: Global,
    text: &str,
    profile: Profile,
    syntax: &mut Syntax,
    index: &mut Index,
    edited: &TextEdit,
    change: Option<IndexChange<'_>>,
) -> Result<usize, EditFault>
    requires { (old : ProfiledText) × IsPatched old edited.now syntax.old index.old (text_in profile text.now)
        × IfSome change (IsIndexChanged old edited.now) }
    ensures { (old : ProfiledText) → IsPatched old edited.now syntax.old index.old (text_in profile text.now)
        → IfSome change.entry (IsIndexChanged old edited.now)
        → IsTaken old edited.now syntax.new index.new result }
{
    let Span { start, end } = edited.place;
    let whole = syntax.lines(edited.place);
    let last = whole.end - (end - start) + edited.new.as_str().len();
    let lines = &text[whole.start..last];
    let Ok(replaced) = put_lines(syntax, whole, lines, profile) else {
        return Err(EditFault::Memory);
    };
    let new = NewText {
        text,
        profile,
        syntax,
    };
    match renew(alloc, new, lines, index, change) {
        Ok(()) => Ok(last - whole.start),
        Err(fault) => {
            syntax.restore(replaced);
            Err(fault)
        }
    }
}

/// Makes of the index of a document that of the text after an edit: by the change, if there is one and it can be made
/// where the index is; else it is built anew. `lines` are the lines of the text that are new. The only error is out of
/// memory, and then it is as before.
fn renew(
    alloc: Global,
    new: NewText<'_>,
    lines: &str,
    index: &mut Index,
    change: Option<IndexChange<'_>>,
) -> Result<(), EditFault>
    requires read { (d : tree.Document) × IsReadAs new.profile new.text.now new.syntax.now d }
    requires can { IfSome change (CanChange index.old) }
    ensures new { (d : tree.Document) → IsReadAs new.entry.profile new.entry.text.now new.entry.syntax.now d
        → IfSome change.entry (λ c. (u : NodeInfos) → IsChanged index.old d c u → IsIndexOf d u)
        → OnOk result (IsIndexOf d index.new) }
    ensures old { OnErr result (index.new ≡ index.old) }
    ensures memory { IfErr result (λ f. f ≡ law.Memory) }
{
    if let Some(change) = change {
        if change_index(index, change, new) {
            return Ok(());
        }
    }
    match index.rebuilt(alloc, new.text, lines, new.syntax) {
        Ok(built) => {
            *index = built;
            Ok(())
        }
        Err(fault) => Err(growth_refused(fault)),
    }
}

/// A text that is known to be a document's is refused only where memory runs out.
fn growth_refused(fault: ReadFault) -> EditFault
    requires { fault ≡ Memory }
    ensures { result ≡ law.Memory }
{
    match fault {
        ReadFault::Memory => EditFault::Memory,
        _ => unreachable!(),
    }
}
