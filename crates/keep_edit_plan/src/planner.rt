//! Inserts of lines into one document that are planned one after another.
ghost use Rattle.std.specs.Prelude.{◌≡◌, ◌<◌, ℕ, IfSome, Some, length};
ghost use Rattle.keep_types.specs.declared.leaf.Profile.TheVariants.{Wide};
ghost use Rattle.keep_syntax.specs.Numbered as numbered;
ghost use Rattle.keep_syntax.specs.Tree as tree;
ghost use Rattle.keep_edit_spec.specs.AddedLines.{AddsLine};
ghost use Rattle.keep_edit_spec.specs.InsertKinds.{AddsAs};
ghost use Rattle.keep_edit_plan.specs.Answers.{IsSpanOf};
ghost use Rattle.keep_edit_plan.specs.PutLines.{body_end_of};
ghost use Rattle.keep_edit_plan.specs.Reading.{IsAcceptedValue, IsTextOfTree, IsTextOfValue, limit};
ghost use Rattle.keep_edit_plan.specs.TextEdits.{change_of};

use crate::document::DocumentRef;
use crate::insert::{LINE_ROOM, Spot, room_for};
use crate::text_edit::TextEdit;
use keep_edit_spec::LineKind;
use keep_rules::{Path, ValueText};
use keep_syntax::Span;
use std::alloc::Global;
use std::marker::Model;

/// A body of no more bytes is gone through each time.
const LONG_BODY: usize = 2000;
/// The ends of so many bodies are kept.
const MOST_BODIES: usize = 16;

/// Where a body ends, as a byte offset: that of the header with this statement number, or of the root.
#[derive(Clone, Copy, Debug, PartialEq, Eq)]
pub(crate) struct BodyEnd {
    pub(crate) header: Option<usize>,
    pub(crate) at: usize,
}

/// A line that an insert adds.
#[derive(Drop)]
pub struct AddedLine {
    /// Where it comes, and its text, with the header if it brings one.
    pub text_edit: TextEdit,
    pub kind: LineKind,
}

/// Plans inserts of lines into one document, one after another, each by that document alone. It keeps where long bodies
/// end, so that many lines which come at the end of one go through it once.
#[derive(Drop)]
pub struct Planner<'a> {
    document: DocumentRef<'a>,
    ends: Vec<BodyEnd>,
}

impl<'a> Model for Planner<'a> {
    ghost use Rattle.std.specs.Prelude.{All};
    ghost use Rattle.keep_edit_plan.specs.PutLines.{IsBodyEnd};
    ghost use Rattle.keep_edit_plan.specs.Reading.{ProfiledText};

    ghost Value = { ProfiledText };

    ghost view = { λ p. p.document };

    ghost invariant = { λ p. All (IsBodyEnd p.document) p.ends.items };
}

impl<'a> Planner<'a> {
    /// One that has planned no edit yet. It takes no memory.
    pub fn new(alloc: Global, document: DocumentRef<'a>) -> Planner<'a>
        ensures { result ≡ document.entry }
    {
        Planner {
            document,
            ends: Vec::new(alloc),
        }
    }

    /// The line that an insert adds, if it adds one at the end of a body, as `added_line` does, or to a table that
    /// dotted keys make, or with the header that it brings. None for any other insert, where it is refused, and where
    /// memory was refused.
    pub fn line(&mut self, alloc: Global, path: &Path, value: &ValueText) -> Option<AddedLine>
        ensures added { (s : tree.Document) → IsTextOfTree self.old s → (v : tree.Value)
            → IsTextOfValue value.now v → IfSome result (λ made.
            AddsAs made.kind self.old.profile limit s path.now v (change_of made.text_edit)) }
        ensures within { IfSome result (λ made. IsSpanOf self.old.text made.text_edit.place) }
        ensures value { IsAcceptedValue Wide value.now }
        ensures same { self.new ≡ self.old }
    {
        if let Some(text_edit) = self.added_line(alloc, path, value) {
            return Some(AddedLine {
                text_edit,
                kind: LineKind::LastInBody,
            });
        }
        if let Some(text_edit) = self.document.added_dotted_line(alloc, path, value) {
            return Some(AddedLine {
                text_edit,
                kind: LineKind::OfDotted,
            });
        }
        let text_edit = self.document.brought_header(alloc, path, value)?;
        Some(AddedLine {
            text_edit,
            kind: LineKind::WithHeader,
        })
    }

    /// The line that an insert adds, if it adds one at the end of the body of the root, of a table or of an element,
    /// after a line that a newline ends; where no line is before it, the value has to be a scalar. None for any other
    /// insert, where it is refused, and where memory was refused.
    pub fn added_line(&mut self, alloc: Global, path: &Path, value: &ValueText) -> Option<TextEdit>
        ensures added { (s : tree.Document) → IsTextOfTree self.old s → (v : tree.Value)
            → IsTextOfValue value.now v
            → IfSome result (λ made. AddsLine self.old.profile limit s path.now v (change_of made)) }
        ensures within { IfSome result (λ made. IsSpanOf self.old.text made.place) }
        ensures value { IsAcceptedValue Wide value.now }
        ensures same { self.new ≡ self.old }
    {
        // The invariants of a document and of a value are known to the proof from where they are looked at.
        let _text = self.document.text;
        let _given = value.as_str();
        let insertion = self.document.insertion(path, value).ok()?;
        let Spot::AfterBody(header) = insertion.spot else {
            return None;
        };
        let at = self.body_end(header);
        if self.document.is_open(at) || value.depth() > 0 && at == self.document.lines_start() {
            return None;
        }
        let mut line = room_for(alloc, value, LINE_ROOM)?;
        self.document
            .push_line(&mut line, at, path, insertion.from, value)
            .ok()?;
        Some(TextEdit {
            place: Span { start: at, end: at },
            new: line,
        })
    }

    /// Where a body ends, as `DocumentRef::body_end` tells it.
    fn body_end(&mut self, header: Option<usize>) -> usize
        requires { (s : tree.Document) × IsTextOfTree self.old s
            × ((h : ℕ) → header ≡ Some h → h < length (numbered.statements s)) }
        ensures end { (s : tree.Document) → IsTextOfTree self.old s → result ≡ body_end_of s header }
        ensures same { self.new ≡ self.old }
    {
        if let Some(at) = self.kept_end(header) {
            return at;
        }
        let at = self.document.body_end(header);
        if self.ends.len() < MOST_BODIES && self.is_long(header, at) {
            // Where memory is refused, it is gone through again.
            let _kept = self.ends.push(BodyEnd { header, at });
        }
        at
    }

    /// Whether a body that ends at a byte offset takes long to go through.
    fn is_long(&self, header: Option<usize>, at: usize) -> bool {
        let start = match header {
            Some(number) if number < self.document.syntax.statement_count() => {
                self.document.syntax.statement(number).line.start
            }
            _ => 0,
        };
        at.saturating_sub(start) > LONG_BODY
    }

    /// Where a body ends, if that is kept.
    fn kept_end(&self, header: Option<usize>) -> Option<usize>
        ensures { (s : tree.Document) → IsTextOfTree self.now s → IfSome result (λ at. at ≡ body_end_of s header) }
    {
        for end in &self.ends {
            if end.header == header {
                return Some(end.at);
            }
        }
        None
    }
}
