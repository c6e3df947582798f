//! What is decided of an edit: what it writes, and what it changes of the index.
ghost use Rattle.keep_edit_plan.specs.Plans.{IsPlanAt};

use crate::header::Header;
use crate::text_edit::TextEdit;
use keep_edit_spec::EditFault;
use keep_rules::{Kind, LineNumbers, NewKeys, NodeId, Path, Totals, ValueText};
use keep_syntax::Span;
use std::alloc::Global;

/// A change of an index that can be made where it is.
#[derive(Clone, Copy)]
pub enum IndexChange<'a> {
    /// One node has another kind.
    Kind {
        node: NodeId,
        kind: Kind,
    },
    /// The path of one node has another last key, and so do the paths of all nodes below it.
    Key {
        node: NodeId,
        key: &'a str,
    },
    /// Another value, with a key, in the place of that of a node; the document had so many values and key parts.
    Value {
        node: NodeId,
        value: &'a ValueText,
        totals: Totals,
    },
    /// The value of a line has other values in it, at this node and with this number; the document had so many values
    /// and key parts.
    Inside {
        node: NodeId,
        value: usize,
        totals: Totals,
    },
    /// A line comes with these numbers: below a table there is one node more, by this key, with nothing below it.
    AddedLine {
        parent: NodeId,
        key: &'a str,
        line: LineNumbers,
        kind: Kind,
    },
    /// A line comes with these numbers, as the last statement: below a table there is one node more, by this key, which
    /// is the last of all, with nothing below it.
    AppendedLine {
        parent: NodeId,
        key: &'a str,
        line: LineNumbers,
        kind: Kind,
    },
    /// The line with these numbers goes, and with it this node, below which there is nothing.
    RemovedLine {
        node: NodeId,
        line: LineNumbers,
    },
    /// A line comes with these numbers: below a table there is one node more, by this key, and below it those of this
    /// value; the document had so many values and key parts.
    AddedValue {
        parent: NodeId,
        key: &'a str,
        line: LineNumbers,
        value: &'a ValueText,
        totals: Totals,
    },
    /// A line comes with these numbers: below a table there is one node more, by the first of these keys that is new,
    /// and below it those of the others, the last with a value of this kind, in which nothing is. The tables of dotted
    /// keys that its keys pass have one keyval more. The document had so many values and key parts.
    AddedKeys {
        parent: NodeId,
        keys: NewKeys<'a>,
        line: LineNumbers,
        kind: Kind,
        totals: Totals,
    },
    /// A line comes with these numbers and this value: below a table there is one node more, by the step with that
    /// number of this path, below it those of the steps after that, and below the last of them those in the value. The
    /// document had so many values and key parts.
    AddedKeysValue {
        parent: NodeId,
        path: &'a Path,
        from: usize,
        line: LineNumbers,
        value: &'a ValueText,
        totals: Totals,
    },
    /// The line with these numbers goes, and with it this node, that of the first of its keys, and all below it; the
    /// document had so many values and key parts.
    RemovedValue {
        node: NodeId,
        line: LineNumbers,
        totals: Totals,
    },
    /// The line with these numbers goes, and with it this node, that of the first of its keys that is not passed, and
    /// all below it. So many keys are passed: the tables of dotted keys that they name have one keyval less. The
    /// document had so many values and key parts.
    RemovedKeys {
        node: NodeId,
        passed: usize,
        line: LineNumbers,
        totals: Totals,
    },
    /// A header comes as the last statement, with this number, and its first key part with that one.
    AppendedHeader {
        header: Header,
        keys: &'a [String],
        statement: usize,
        key: usize,
    },
}

/// What an edit does to a document.
#[derive(Drop)]
pub struct Plan<'a> {
    pub text_edit: TextEdit,
    /// All that changes of the index; None if the index has to be built anew.
    pub index_change: Option<IndexChange<'a>>,
}

/// The plan by which these bytes replace those of a span. The only error is out of memory.
pub(crate) fn plan_at<'a>(
    alloc: Global,
    place: Span,
    new: &str,
    index_change: Option<IndexChange<'a>>,
) -> Result<Plan<'a>, EditFault>
    ensures { IsPlanAt place new.now index_change.entry result }
{
    let Ok(new) = String::from_str(alloc, new) else {
        return Err(EditFault::Memory);
    };
    Ok(Plan {
        text_edit: TextEdit { place, new },
        index_change,
    })
}
