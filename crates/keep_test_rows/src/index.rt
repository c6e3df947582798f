//! Questions about the nodes of a document by the definition rules.
ghost use Rattle.std.specs.Prelude.{◌<◌, length};

use keep_rules::{Index, Kind, NodeId, Origin, Path, Step};
use keep_syntax::{Limits, ReadFault, Span, Syntax, ValueSyntax};
use keep_test_questions::growths::{begin_count, end_count, room};
use keep_test_questions::{Answer, Row, unknown};
use std::alloc::{AllocError, Global};
use std::fmt::Write;

/// What is known of a node, with its places in the text, as rows write it.
#[derive(Clone, Copy, Debug)]
struct NodeInfo {
    kind: Kind,
    value_span: Option<Span>,
    key_span: Option<Span>,
    marks: usize,
    passed: bool,
    origin: Origin,
}

/// The first word is the text of a document, or for `value` of a value. What the rules refuse is answered by its fault.
pub fn answer(alloc: Global, row: &Row) -> Answer {
    match row.question() {
        "value" => verdict(alloc, value_check(alloc, row.text(0))),
        _ => document(alloc, row, index_of(alloc, row.text(0))),
    }
}

fn value_check(alloc: Global, text: &str) -> Result<(), ReadFault> {
    let syntax = ValueSyntax::read(alloc, text, Limits::STANDARD)?;
    Index::check_value(alloc, text, &syntax)
}

fn verdict(alloc: Global, checked: Result<(), ReadFault>) -> Answer {
    match checked {
        Ok(()) => String::from_str(alloc, "ok"),
        Err(fault) => fault.to_string(alloc),
    }
}

fn index_of(alloc: Global, text: &str) -> Result<(Syntax, Index), ReadFault> {
    let syntax = Syntax::read(alloc, text, Limits::STANDARD)?;
    let index = Index::build(alloc, text, &syntax)?;
    Ok((syntax, index))
}

fn document(alloc: Global, row: &Row, read: Result<(Syntax, Index), ReadFault>) -> Answer {
    match read {
        Ok((syntax, index)) => report_of(alloc, &syntax, &index, row),
        Err(fault) => fault.to_string(alloc),
    }
}

fn report_of(alloc: Global, syntax: &Syntax, index: &Index, row: &Row) -> Answer {
    match row.question() {
        "count" => format!(in alloc; "{}", index.node_count()),
        "paths" => paths(alloc, index),
        "node" => node(alloc, syntax, index, row.text(1)),
        "index" => counted(alloc, syntax, index, row.text(1)),
        "first" => first(alloc, index, row.text(1), row.number(2)),
        question => report_of_node(alloc, index, question, row),
    }
}

// What is asked of the node of the number that the second word tells.
fn report_of_node(alloc: Global, index: &Index, question: &str, row: &Row) -> Answer {
    let Some(id) = index.node_at(row.number(1)) else {
        return String::from_str(alloc, "no node");
    };
    match question {
        "children" => format!(in alloc; "{}", index.child_count(id)),
        "child" => seen(alloc, index.child(id, row.text(2))),
        "nth child" => seen(alloc, index.child_at(id, row.number(2))),
        _ => unknown(alloc),
    }
}

fn seen(alloc: Global, id: Option<NodeId>) -> Answer {
    match id {
        Some(NodeId(number)) => format!(in alloc; "{number}"),
        None => String::from_str(alloc, "none"),
    }
}

// The paths of all nodes in order, each on its line.
fn paths(alloc: Global, index: &Index) -> Answer {
    let mut out = String::new(alloc);
    for number in 0..index.node_count() {
        if let Some(id) = index.node_at(number) {
            push_path(alloc, &mut out, index.path_of(alloc, id))?;
        }
    }
    Ok(out)
}

fn push_path(
    alloc: Global,
    out: &mut String,
    path: Result<Path, AllocError>,
) -> Result<(), AllocError> {
    push_line(out, path?.encode(alloc))
}

fn push_line(out: &mut String, line: Answer) -> Result<(), AllocError> {
    out.push_str(line?.as_str())?;
    out.push_str("\n")
}

// What is known of the node at a path.
fn node(alloc: Global, syntax: &Syntax, index: &Index, path: &str) -> Answer {
    let Ok(path) = Path::read(alloc, path) else {
        return String::from_str(alloc, "no path");
    };
    match index.find(&path) {
        Some(id) => format!(in alloc; "{:?}", info(syntax, index, id)),
        None => String::from_str(alloc, "none"),
    }
}

fn info(syntax: &Syntax, index: &Index, id: NodeId) -> NodeInfo
    requires { id.0 < length index.now.paths }
{
    let node = index.node(id);
    NodeInfo {
        kind: node.kind,
        value_span: index.value_span(id, syntax),
        key_span: index.key_span(id, syntax),
        marks: node.marks,
        passed: node.passed,
        origin: node.origin,
    }
}

// The node at the first steps of a path.
fn first(alloc: Global, index: &Index, path: &str, count: usize) -> Answer {
    let Ok(path) = Path::read(alloc, path) else {
        return String::from_str(alloc, "no path");
    };
    seen(alloc, index.find_first(&path, count))
}

// What takes no memory, between two marks.
fn counted(alloc: Global, syntax: &Syntax, index: &Index, path: &str) -> Answer {
    let Ok(path) = Path::read(alloc, path) else {
        return String::from_str(alloc, "no path");
    };
    let mut out = room(alloc)?;
    begin_count(alloc);
    let stated = tell(&mut out, syntax, index, &path);
    end_count(alloc);
    stated?;
    Ok(out)
}

// How many nodes there are; those of a path, of its first step, and with the key `k` in place of its last step.
fn tell(out: &mut String, syntax: &Syntax, index: &Index, path: &Path) -> Result<(), AllocError> {
    write!(out, "{};", index.node_count())?;
    push_node(out, index.find(path))?;
    push_node(out, index.find_first(path, 1))?;
    push_node(out, index.sibling(path, "k"))?;
    match index.find(path) {
        Some(id) => tell_node(out, syntax, index, id, path.step(0)),
        None => Ok(()),
    }
}

// What is known of a node: its children, the last of them, those with the key `k` and at a step, and its kind and
// spans.
fn tell_node(
    out: &mut String,
    syntax: &Syntax,
    index: &Index,
    id: NodeId,
    step: Option<&Step>,
) -> Result<(), AllocError>
    requires { id.0 < length index.now.paths }
{
    let count = index.child_count(id);
    write!(out, "; {count}")?;
    push_node(out, index.child_at(id, count.saturating_sub(1)))?;
    push_node(out, index.child(id, "k"))?;
    if let Some(step) = step {
        push_node(out, index.step(id, step))?;
    }
    let info = info(syntax, index, id);
    write!(
        out,
        "; {:?} {:?} {:?}",
        info.kind, info.value_span, info.key_span
    )
}

fn push_node(out: &mut String, id: Option<NodeId>) -> Result<(), AllocError> {
    match id {
        Some(NodeId(number)) => write!(out, " {number}"),
        None => out.push_str(" none"),
    }
}
