//! What an edit changes of the index, where it need not be built anew.
ghost use Rattle.std.specs.Prelude.{◌≡◌, ℕ, ◌<◌, IfSome, false, length, true};
ghost use Rattle.keep_syntax.specs.Tree as tree;
ghost use Rattle.keep_meaning.specs.Meaning.{body_fact};
ghost use Rattle.keep_meaning.specs.Nodes.{fact_kind};
ghost use Rattle.keep_meaning.specs.OtherValues.{nodes_in_value, totals_of};
ghost use Rattle.keep_meaning.specs.StatementsMore.{AreNumbersAtEnd, said_next};
ghost use Rattle.keep_path.specs.NodesBelow.{AreBelow, with_value};
ghost use Rattle.keep_edit_spec.specs.KeyvalLines.{IsLineValue};
ghost use Rattle.keep_rules.specs.MentionInfos.{with_mentions};
ghost use Rattle.keep_rules.specs.ReadDocuments.{IsIndexOf};
ghost use Rattle.keep_edit_plan.specs.Headers.{key_texts, statement_of};
ghost use Rattle.keep_edit_plan.specs.IndexChanges.{CanChange, IsChanged, totals_in};
ghost use Rattle.keep_edit.specs.Reading.{IsReadAs, IsTextOfValue};

use keep_edit_plan::{Header, IndexChange, totals_of};
use keep_rules::{Index, NodeId, Totals};
use keep_syntax::{Span, Syntax};
use keep_token::Profile;

/// A value that is a greater part of its text than one in so many is not read once more: to build the index anew costs
/// no more.
const GREATEST_PART: usize = 2;

/// The text after an edit, and the syntax that was read of it.
#[derive(Clone, Copy)]
pub(crate) struct NewText<'a> {
    pub(crate) text: &'a str,
    pub(crate) profile: Profile,
    pub(crate) syntax: &'a Syntax,
}

/// Whether a change of an index was made where it is. If not, the index is as before: memory was refused, nodes can't
/// come between the others or go from there, or a value is most of its text.
pub(crate) fn change_index(index: &mut Index, change: IndexChange<'_>, new: NewText<'_>) -> bool
    requires { CanChange index.old change }
    ensures changed { (d : tree.Document) → IsReadAs new.entry.profile new.entry.text.now new.entry.syntax.now d
        → result ≡ true → IsChanged index.old d change.entry index.new }
    ensures refused { result ≡ false → index.new ≡ index.old }
{
    match change {
        IndexChange::Kind { node, kind } => {
            index.set_kind(node, kind);
            true
        }
        IndexChange::Key { node, key } => index.set_key(node, key).is_ok(),
        IndexChange::Value {
            node,
            value,
            totals,
        } => index
            .set_value(node, value, totals, totals_of(new.syntax))
            .is_ok(),
        IndexChange::Inside {
            node,
            value,
            totals,
        } => set_inside(index, node, value, totals, new),
        IndexChange::AddedLine {
            parent,
            key,
            line,
            kind,
        } => index.insert_line(parent, key, line, kind).is_ok(),
        IndexChange::AppendedLine {
            parent,
            key,
            line,
            kind,
        } => index.append_line(parent, key, line, kind).is_ok(),
        IndexChange::RemovedLine { node, line } => index.remove_line(node, line).is_ok(),
        IndexChange::AddedValue {
            parent,
            key,
            line,
            value,
            totals,
        } => index
            .insert_value(parent, key, line, value, totals, totals_of(new.syntax))
            .is_ok(),
        IndexChange::AddedKeys {
            parent,
            keys,
            line,
            kind,
            totals,
        } => index
            .insert_keys(parent, keys, line, kind, totals, totals_of(new.syntax))
            .is_ok(),
        IndexChange::AddedKeysValue {
            parent,
            path,
            from,
            line,
            value,
            totals,
        } => {
            let now = totals_of(new.syntax);
            index
                .insert_keys_value(parent, path, from, line, value, totals, now)
                .is_ok()
        }
        IndexChange::RemovedValue { node, line, totals } => index
            .remove_value(node, line, totals, totals_of(new.syntax))
            .is_ok(),
        IndexChange::RemovedKeys {
            node,
            passed,
            line,
            totals,
        } => index
            .remove_keys(node, passed, line, totals, totals_of(new.syntax))
            .is_ok(),
        IndexChange::AppendedHeader {
            header,
            keys,
            statement,
            key,
        } => append_header(index, header, keys, statement, key),
    }
}

/// Whether the nodes of a header that comes after the document, as the statement with that number, were added. If not,
/// the index is as before.
fn append_header(
    index: &mut Index,
    header: Header,
    keys: &[String],
    statement: usize,
    key: usize,
) -> bool
    requires { (d : tree.Document) × IsIndexOf d index.old × AreNumbersAtEnd d statement key }
    ensures changed { result ≡ true → (d : tree.Document) → IsIndexOf d index.old → AreNumbersAtEnd d statement key
        → index.new ≡ with_mentions index.old (said_next d (statement_of header (key_texts keys.now))) }
    ensures refused { result ≡ false → index.new ≡ index.old }
{
    match header {
        Header::Table => index.append_table(keys, statement, key).is_ok(),
        Header::Element => index.append_element(keys, statement, key).is_ok(),
    }
}

/// Whether the nodes in the value of a line, which has that number, were made those of the new text. If not, the index
/// is as before.
fn set_inside(index: &mut Index, node: NodeId, number: usize, old: Totals, new: NewText<'_>) -> bool
    requires { node.0 < length index.old.paths }
    ensures changed { (d : tree.Document) → IsReadAs new.entry.profile new.entry.text.now new.entry.syntax.now d
        → result ≡ true → (v : tree.Value) → IsLineValue d number v → (gone : ℕ) → AreBelow index.old.paths node.0 gone
        → index.new ≡ with_value index.old node.0 gone (totals_in old) (totals_of d) (nodes_in_value v)
        (fact_kind (body_fact v.body)) }
    ensures refused { result ≡ false → index.new ≡ index.old }
{
    let Some(part) = line_part(new, number) else {
        return false;
    };
    index
        .set_text(node, part, new.profile, old, totals_of(new.syntax))
        .is_ok()
}

/// The text of the value of a line, by its number. None where it is most of the whole text.
fn line_part(new: NewText<'_>, number: usize) -> Option<&str>
    ensures { (d : tree.Document) → IsReadAs new.entry.profile new.entry.text.now new.entry.syntax.now d
        → (v : tree.Value) → IsLineValue d number v → IfSome result (λ part. IsTextOfValue part.now v) }
{
    if number >= new.syntax.value_count() {
        return None;
    }
    let Span { start, end } = new.syntax.value(number).span;
    let part = new.text.get(start..end)?;
    if part.len() > new.text.len() / GREATEST_PART {
        return None;
    }
    Some(part)
}
