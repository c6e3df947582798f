//! Edits of entries, as sets of the values that hold the entries.
ghost use Rattle.std.specs.Prelude.{◌≡◌, ◌≢◌, ◌≤◌, ◌++◌, ◌∷◌, [], ℕ, List, IfOk, IfSome, OnOk, string_bytes, take};
ghost use Rattle.std.specs.Prelude.{true};
ghost use Rattle.keep_path.specs.Path.{AreUtf8, Part, index};
ghost use Rattle.keep_path.specs.Step.{part_of};
ghost use Rattle.keep_meaning.specs.Marks.{Mention};
ghost use Rattle.keep_meaning.specs.Nodes.{fact_at, kind_at};
ghost use Rattle.keep_edit_spec.specs.Changed.{put};
ghost use Rattle.keep_edit_spec.specs.EntryEdits.{CanHold};
ghost use Rattle.keep_edit_plan.specs.Answers.{IsSpanOf, text_after};
ghost use Rattle.keep_edit_plan.specs.Places.{place_at};
ghost use Rattle.keep_edit_plan.specs.TextEdits.{IsSetOfHolder, MakesSetHere};

use crate::document::DocumentRef;
use crate::edit::Edit;
use crate::text_edit::TextEdit;
use keep_rules::{Kind, Path, Step, ValueText};
use keep_syntax::Span;
use std::alloc::{AllocError, Global};

impl<'a> DocumentRef<'a> {
    /// What an edit of an entry changes of the text, as the set of the value that holds the entry: the whole text of
    /// that value is replaced. None for any other edit, where it is refused, and where memory was refused.
    pub fn change_of_holder(&self, alloc: Global, edit: &Edit) -> Option<TextEdit>
        ensures { IfSome result (MakesSetHere self.now edit.now) }
    {
        match edit {
            Edit::Insert(path, _) => self.holder_set(alloc, edit, path),
            Edit::Set(path, _) => self.holder_set(alloc, edit, path),
            Edit::Rename(path, _) => self.holder_set(alloc, edit, path),
            Edit::Remove(path) => {
                self.value_node(path).ok()?;
                self.holder_set(alloc, edit, path)
            }
            _ => None,
        }
    }

    /// What an edit at a path changes of the text, as the set of the value from which the last step leads: None
    /// where an entry of that step can't be in it.
    fn holder_set(&self, alloc: Global, edit: &Edit, path: &Path) -> Option<TextEdit>
        ensures set { IfSome result (IsSetOfHolder self.now edit.now path.now) }
        ensures utf8 { AreUtf8 path.now }
    {
        let last = path.len().checked_sub(1)?;
        let holder = first_steps(alloc, path, last).ok()?;
        let (node, number) = self.value_node(&holder).ok()?;
        if !can_hold(self.index.node(node).kind, path.step(last)?) {
            return None;
        }
        let entry = self.planned(alloc, edit)?;
        let span = self.syntax.value(number).span;
        if entry.place.start < span.start || span.end < entry.place.end {
            return None;
        }
        let new = part_after(alloc, self.text, span, &entry).ok()?;
        let value = ValueText::read_in(alloc, new.as_str(), self.profile).ok()?;
        self.planned(alloc, &Edit::Set(holder, value))
    }
}

/// The first `n` steps of a path, or all where it has fewer. The only error is out of memory.
pub fn first_steps(alloc: Global, path: &Path, n: usize) -> Result<Path, AllocError>
    ensures { IfOk result (λ first. first ≡ take n path.now) }
{
    let mut first = Path::new(alloc);
    for number in 0..n.min(path.len()) {
        let Some(step) = path.step(number) else {
            return Ok(first);
        };
        push_step(&mut first, step)?;
    }
    Ok(first)
}

/// Adds a step at the end; an index is not the first. The only error is out of memory.
pub fn push_step(path: &mut Path, step: &Step) -> Result<(), AllocError>
    requires { (n : ℕ) → part_of step.now ≡ index n → path.old ≢ [] }
    ensures { OnOk result (path.new ≡ path.old ++ part_of step.now ∷ []) }
{
    match step {
        Step::Key(text) => path.push_key(text.as_str()),
        Step::Index(number) => path.push_index(*number),
    }
}

/// Whether a value of this kind can have an entry of that step: an array has items, an inline table keyvals.
fn can_hold(kind: Kind, step: &Step) -> bool
    ensures { result ≡ true → (path : List Part) (ms : List Mention) → kind ≡ kind_at path ms
        → CanHold (fact_at path ms) (part_of step.now) }
{
    matches!(
        (kind, step),
        (Kind::Array, Step::Index(_)) | (Kind::Inline, Step::Key(_))
    )
}

/// The part of a text at a span, after an edit inside the span. The only error is out of memory.
fn part_after(alloc: Global, text: &str, span: Span, edit: &TextEdit) -> Result<String, AllocError>
    requires span { IsSpanOf text.now span }
    requires edit { IsSpanOf text.now edit.now.place }
    requires inside { (span.start ≤ edit.now.place.start) × (edit.now.place.end ≤ span.end) }
    ensures { IfOk result (λ part. put text.now (place_at span (string_bytes part)) ≡ text_after text.now edit.now) }
{
    let Span { start, end } = edit.place;
    let new = edit.new.as_str();
    let mut part = String::with_capacity(
        alloc,
        ((span.end - span.start) - (end - start)).saturating_add(new.len()),
    )?;
    part.push_str(&text[span.start..start])?;
    part.push_str(new)?;
    part.push_str(&text[end..span.end])?;
    Ok(part)
}
