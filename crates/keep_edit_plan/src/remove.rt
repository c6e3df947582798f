//! Removing nodes.
ghost use Rattle.std.specs.Prelude.{◌≡◌, ◌⊎◌, ℕ, ◌≤◌, ◌<◌, List, length, drop, Ok, IfOk};
ghost use Rattle.std.specs.List.{prefix_len};
ghost use Rattle.keep_token.specs.Abnf as abnf;
ghost use Rattle.keep_syntax.specs.Numbered.{span};
ghost use Rattle.keep_syntax.specs.Contract.{statements_of};
ghost use Rattle.keep_syntax.specs.Tree as tree;
ghost use Rattle.keep_meaning.specs.KeyText.{text_at};
ghost use Rattle.keep_path.specs.Path.{Part};
ghost use Rattle.keep_edit_spec.specs.Edits.{remove};
ghost use Rattle.keep_edit_spec.specs.Insertion as insertion;
ghost use Rattle.keep_edit_spec.specs.Removal as removal;
ghost use Rattle.keep_edit_plan.specs.Plans.{EditPlanned, IsPlanOf};
ghost use Rattle.keep_edit_plan.specs.Reading.{IsAccepted, IsTextOfTree};
ghost use Rattle.keep_edit_plan.specs.Removing.{cut_place, KeepsNothing, KeepsGap, IsEntryIn, IsCutAt, IsRemovalOf};
ghost use Rattle.keep_edit_plan.specs.Removing.{IsRemovalFound};

mod change;
mod line;
mod section;

use crate::document::DocumentRef;
use crate::plan::{Plan, plan_at};
use crate::text_edit::part_at;
use keep_edit_spec::EditFault;
use keep_rules::{NodeId, Origin, Path};
use keep_syntax::{Owner, Span, Statement, StatementKind, Syntax, ValueInfo};
use std::alloc::Global;

/// What is removed with a node.
#[derive(Clone, Copy)]
pub(crate) enum Piece {
    /// The value with this number, with its key.
    Value(usize),
    /// The header with this number among the statements, with its body.
    Section(usize),
}

/// The bytes of a span go, but for those of a part of it, which are put back.
#[derive(Clone, Copy)]
pub(crate) struct Cut {
    pub(crate) span: Span,
    pub(crate) preserved: Span,
}

impl<'a> DocumentRef<'a> {
    /// The plan that removes the node of a path: where the text is cut, and what is put back there.
    ///
    /// # Errors
    ///
    /// The refusal of the edit, whatever memory there is; else `Memory` if memory was refused.
    pub fn remove_plan(&self, alloc: Global, path: &Path) -> Result<Plan<'static>, EditFault>
        ensures planned { (s : tree.Document) → IsTextOfTree self.now s
            → EditPlanned s (remove path.now) self.now result }
        ensures of_edit { IfOk result (IsPlanOf self.now) }
        ensures of { IsAccepted self.now }
    {
        let text = self.text;
        let (node, piece) = self.piece(path)?;
        let cut = self.cut(piece);
        let change = self.removal_change(path, node, piece);
        plan_at(alloc, cut.span, part_at(text, cut.preserved), change)
    }

    /// The node of a path and what is removed with it, or why it can't be. It takes no memory.
    fn piece(&self, path: &Path) -> Result<(NodeId, Piece), EditFault>
        ensures { (s : tree.Document) → IsTextOfTree self.now s → IsRemovalFound self.now.profile path.now s result }
    {
        if path.len() == 0 {
            return Err(EditFault::NotKey);
        }
        let Some(id) = self.index.find(path) else {
            return Err(EditFault::NotFound);
        };
        let node = self.index.node(id);
        match node.origin {
            Origin::Value(number) => Ok((id, Piece::Value(number))),
            Origin::Header(number) => {
                if node.marks == 1 {
                    Ok((id, Piece::Section(number)))
                } else {
                    Err(EditFault::Scattered)
                }
            }
            Origin::Element(number) => {
                if node.passed {
                    Err(EditFault::Scattered)
                } else {
                    Ok((id, Piece::Section(number)))
                }
            }
            _ => Err(EditFault::Scattered),
        }
    }

    /// Where the text is cut to take a piece out. It goes over the piece at most.
    fn cut(&self, piece: Piece) -> Cut
        requires { (path : List Part) × (s : tree.Document) × IsTextOfTree self.now s
            × IsRemovalOf self.now.profile path s (Ok piece) }
        ensures { (path : List Part) (s : tree.Document) → IsTextOfTree self.now s
            → IsRemovalOf self.now.profile path s (Ok piece) → IsCutAt path s self.now.text result }
    {
        let bytes = self.text.as_bytes();
        match piece {
            Piece::Value(number) => {
                let value = self.syntax.value(number);
                match value.owner {
                    Owner::Line(line) => line_cut(bytes, self.syntax.statement(line), value),
                    _ => entry_cut(bytes, value),
                }
            }
            Piece::Section(number) => section_cut(self.syntax, number),
        }
    }
}

/// The cut of a keyval's line: up to a comment after the value, else with its newline.
fn line_cut(bytes: &[u8], statement: Statement, value: ValueInfo) -> Cut
    requires { value.span.end ≤ length bytes.now }
    ensures place { cut_place bytes.now result ≡ removal.line_place bytes.now statement value }
    ensures preserved { KeepsNothing result }
{
    let end = past_space(bytes, value.span.end);
    if end < bytes.len() && bytes[end] == b'#' {
        let start = statement.span.start;
        Cut {
            span: Span { start, end },
            preserved: Span { start, end: start },
        }
    } else {
        let Span { start, end } = statement.line;
        Cut {
            span: Span { start, end },
            preserved: Span { start, end: start },
        }
    }
}

/// The cut of an item of an array, or of a keyval in braces: with the comma after it and the white space that follows,
/// else with the comma before it, else alone. The gap before the comma, or after it, stays if it holds a comment.
fn entry_cut(bytes: &[u8], value: ValueInfo) -> Cut
    requires { IsEntryIn bytes.now value }
    ensures place { cut_place bytes.now result ≡ removal.entry_place bytes.now value }
    ensures preserved { KeepsGap value result }
{
    let whole = value.whole.start;
    let end = value.span.end;
    if let Some(comma) = value.comma_after {
        let gap = Span {
            start: end,
            end: comma,
        };
        Cut {
            span: Span {
                start: whole,
                end: past_space(bytes, comma + 1),
            },
            preserved: preserved_gap(bytes, gap, whole),
        }
    } else if let Some(comma) = value.comma_before {
        let gap = Span {
            start: comma + 1,
            end: whole,
        };
        Cut {
            span: Span { start: comma, end },
            preserved: preserved_gap(bytes, gap, comma),
        }
    } else {
        Cut {
            span: Span { start: whole, end },
            preserved: Span {
                start: whole,
                end: whole,
            },
        }
    }
}

/// A gap, if it holds a comment; else nothing, at the byte `at`.
fn preserved_gap(bytes: &[u8], gap: Span, at: usize) -> Span
    requires ordered { gap.start ≤ gap.end }
    requires nested { gap.end ≤ length bytes.now }
    ensures text { text_at bytes.now result ≡ removal.preserved_text (text_at bytes.now gap) }
    ensures is { (result ≡ gap) ⊎ (result ≡ span at at) }
{
    if bytes[gap.start..gap.end].contains(&b'#') {
        gap
    } else {
        Span { start: at, end: at }
    }
}

/// The cut of a header with its body.
fn section_cut(syntax: &Syntax, number: usize) -> Cut
    requires { number < length (statements_of syntax.now) }
    ensures place { (bytes : List ℕ)
        → cut_place bytes result ≡ removal.section_place (drop number (statements_of syntax.now)) }
    ensures preserved { KeepsNothing result }
{
    let start = syntax.statement(number).line.start;
    Cut {
        span: Span {
            start,
            end: section_end(syntax, number),
        },
        preserved: Span { start, end: start },
    }
}

/// Where the body of a header ends, as a byte offset: at the end of the line of its last keyval, else of its own line.
pub(crate) fn section_end(syntax: &Syntax, number: usize) -> usize
    requires { number < length (statements_of syntax.now) }
    ensures { result ≡ insertion.section_end (drop number (statements_of syntax.now)) }
{
    let end = syntax.statement(number).line.end;
    body_end(syntax, number + 1, end)
}

/// Where a body ends that begins at `at`, before the statement with number `first`: at the end of the line of its last
/// keyval, if it has one.
pub(crate) fn body_end(syntax: &Syntax, first: usize, at: usize) -> usize
    ensures { result ≡ removal.body_end at (drop first (statements_of syntax.now)) }
{
    let mut end = at;
    for next in first..syntax.statement_count() {
        let statement = syntax.statement(next);
        match statement.kind {
            StatementKind::KeyVal => end = statement.line.end,
            _ => return end,
        }
    }
    end
}

/// Where the white space ends that begins at a byte.
pub(crate) fn past_space(bytes: &[u8], at: usize) -> usize
    requires { at ≤ length bytes.now }
    ensures end { result ≡ removal.past_space bytes.now at }
    ensures within { result ≤ length bytes.now }
{
    at + space_run(&bytes[at..])
}

/// How many bytes of white space come first.
fn space_run(bytes: &[u8]) -> usize
    ensures len { result ≡ prefix_len abnf.is_ws bytes.now }
    ensures within { result ≤ length bytes.now }
{
    bytes.iter().take_while(|byte| is_space(**byte)).count()
}

/// `wschar`.
fn is_space(byte: u8) -> bool
    ensures { result ≡ abnf.is_ws byte }
{
    byte == b' ' || byte == b'\t'
}
