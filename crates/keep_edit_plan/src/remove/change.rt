//! What a removal changes of the index.
ghost use Rattle.std.specs.Prelude.{IfSome, IsTrue, Ok, take};
ghost use Rattle.keep_syntax.specs.Tree as tree;
ghost use Rattle.keep_edit_spec.specs.Edits.{edited_document, remove};
ghost use Rattle.keep_edit_plan.specs.IndexChanges.{IsIndexChange};
ghost use Rattle.keep_edit_plan.specs.Reading.{IsTextOfTree};
ghost use Rattle.keep_edit_plan.specs.Removing.{IsDottedBefore, IsFirstAlone, IsKeysRemoval, IsRemovalFound};

use super::Piece;
use crate::document::DocumentRef;
use crate::plan::IndexChange;
use crate::totals::totals_of;
use keep_rules::{LineNumbers, NodeId, Origin, Path};
use keep_syntax::Owner;

/// The node of one of a path's steps, and how many steps come before that one.
#[derive(Clone, Copy)]
struct FirstAlone {
    node: NodeId,
    before: usize,
}

impl<'a> DocumentRef<'a> {
    /// What a removal changes of the index, if that is another value of a line, or one line less: with one key, or with
    /// several, of which nothing else names one. It takes no memory.
    pub(crate) fn removal_change(
        &self,
        path: &Path,
        node: NodeId,
        piece: Piece,
    ) -> Option<IndexChange<'static>>
        requires { (s : tree.Document) × IsTextOfTree self.now s
            × IsRemovalFound self.now.profile path.now s (Ok (node, piece)) }
        ensures { (s : tree.Document) → IsTextOfTree self.now s
            → IsRemovalFound self.now.profile path.now s (Ok (node, piece))
            → IfSome result (IsIndexChange s (edited_document s (remove path.now))) }
    {
        let Piece::Value(number) = piece else {
            return None;
        };
        match self.syntax.value(number).owner {
            Owner::Line(_) => self.removed_line(path, node, piece),
            _ => self.inside_change(path),
        }
    }

    /// What a removal changes of the index, if that is one line less: with one key, or with several, of which nothing
    /// else names one. It takes no memory.
    fn removed_line(&self, path: &Path, node: NodeId, piece: Piece) -> Option<IndexChange<'static>>
        requires { (s : tree.Document) × IsTextOfTree self.now s
            × IsRemovalFound self.now.profile path.now s (Ok (node, piece)) }
        ensures { (s : tree.Document) → IsTextOfTree self.now s
            → IsRemovalFound self.now.profile path.now s (Ok (node, piece))
            → IfSome result (IsIndexChange s (edited_document s (remove path.now))) }
    {
        let Piece::Value(number) = piece else {
            return None;
        };
        let value = self.syntax.value(number);
        let Owner::Line(statement) = value.owner else {
            return None;
        };
        let line = LineNumbers {
            statement,
            value: number,
            key: value.first_key,
        };
        if value.keys != 1 {
            return self.removed_keys(path, line, value.keys);
        }
        if self.index.child_count(node) == 0 {
            return Some(IndexChange::RemovedLine { node, line });
        }
        let totals = totals_of(self.syntax);
        Some(IndexChange::RemovedValue { node, line, totals })
    }

    /// What a removal changes of the index, if that is a line less with so many keys, several, of which nothing else
    /// names one. The keys before that one are passed: their tables of dotted keys have to stay such tables, and to be
    /// met before the line. It takes no memory.
    fn removed_keys(
        &self,
        path: &Path,
        line: LineNumbers,
        keys: usize,
    ) -> Option<IndexChange<'static>>
        requires { (s : tree.Document) × IsTextOfTree self.now s
            × IsKeysRemoval self.now.profile path.now s line keys }
        ensures { (s : tree.Document) → IsTextOfTree self.now s
            → IsKeysRemoval self.now.profile path.now s line keys
            → IfSome result (IsIndexChange s (edited_document s (remove path.now))) }
    {
        let totals = totals_of(self.syntax);
        let body = path.len().saturating_sub(keys);
        let first = self.first_alone(path, body)?;
        if first.before == body {
            return Some(IndexChange::RemovedValue {
                node: first.node,
                line,
                totals,
            });
        }
        if !self.is_dotted_before(path, first.before, line.key) {
            return None;
        }
        Some(IndexChange::RemovedKeys {
            node: first.node,
            passed: first.before - body,
            line,
            totals,
        })
    }

    /// The first node on the way of a path, after so many of its steps, that one key part alone names. It takes no
    /// memory.
    fn first_alone(&self, path: &Path, body: usize) -> Option<FirstAlone>
        ensures { (s : tree.Document) → IsTextOfTree self.now s → IfSome result (IsFirstAlone path.now s body) }
    {
        for before in body..path.len() {
            let node = self.index.find_first(path, before + 1)?;
            if self.index.node(node).marks == 1 {
                return Some(FirstAlone { node, before });
            }
        }
        None
    }

    /// Whether the first node one step below the table to which so many steps of a path lead is named before the key
    /// part with this number, and is a value or a table of dotted keys. It takes no memory.
    fn is_dotted_before(&self, path: &Path, len: usize, key: usize) -> bool
        ensures { (s : tree.Document) → IsTextOfTree self.now s → IsTrue result
            → IsDottedBefore (take len path.now) s key }
    {
        let Some(table) = self.index.find_first(path, len) else {
            return false;
        };
        let Some(child) = self.index.child_at(table, 0) else {
            return false;
        };
        let info = self.index.node(child);
        let Some(first) = info.key else {
            return false;
        };
        match info.origin {
            Origin::Value(_) | Origin::Dotted(_) => first < key,
            _ => false,
        }
    }
}
