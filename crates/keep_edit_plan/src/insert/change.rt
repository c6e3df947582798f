//! What an insertion changes of the index.
ghost use Rattle.std.specs.Prelude.{◌≢◌, ◌-◌, IfSome, Ok, length};
ghost use Rattle.keep_syntax.specs.Tree as tree;
ghost use Rattle.keep_path.specs.Path.{AreUtf8};
ghost use Rattle.keep_edit_spec.specs.Edits.{edited_document, insert};
ghost use Rattle.keep_edit_plan.specs.IndexChanges.{IsIndexChange};
ghost use Rattle.keep_edit_plan.specs.Inserting.{IsInsertionOf};
ghost use Rattle.keep_edit_plan.specs.Reading.{IsTextOfTree, IsTextOfValue};

use super::{Insertion, Spot};
use crate::document::DocumentRef;
use crate::plan::IndexChange;
use crate::totals::totals_of;
use keep_rules::{NewKeys, Path, Step, ValueText};

impl<'a> DocumentRef<'a> {
    /// What an insertion changes of the index, if that is another value of a line, or one line more: of new keys alone,
    /// or after passed ones and with nothing in its value. It takes no memory.
    pub(crate) fn insertion_change<'p>(
        &self,
        path: &'p Path,
        insertion: Insertion,
        value: &'p ValueText,
    ) -> Option<IndexChange<'p>>
        requires aimed { (s : tree.Document) × IsTextOfTree self.now s
            × ((v : tree.Value) × IsTextOfValue value.now v
            × IsInsertionOf self.now.profile path.now v s (Ok insertion)) }
        requires utf8 { AreUtf8 path.now }
        ensures { (s : tree.Document) → IsTextOfTree self.now s → (v : tree.Value) → IsTextOfValue value.now v
            → IsInsertionOf self.now.profile path.now v s (Ok insertion)
            → IfSome result (IsIndexChange s (edited_document s (insert path.now v))) }
    {
        // The invariant of a document is known to the proof from where a field of it is looked at.
        let _text = self.text;
        match insertion.spot {
            Spot::BeforeItem(_) | Spot::AfterEntry(_) | Spot::InEmpty(_) => self.inside_change(
                path,
            ),
            Spot::AfterBody(_) => self.line_change(path, insertion, value),
            Spot::AfterLine(_) => self.dots_change(path, insertion, value),
            Spot::NewSection(_) => None,
        }
    }

    /// What an insertion changes of the index, if that is one line more. It takes no memory.
    fn line_change<'p>(
        &self,
        path: &'p Path,
        insertion: Insertion,
        value: &'p ValueText,
    ) -> Option<IndexChange<'p>>
        requires { (s : tree.Document) × IsTextOfTree self.now s × ((v : tree.Value) × IsTextOfValue value.now v
            × IsInsertionOf self.now.profile path.now v s (Ok insertion)) }
        ensures { (s : tree.Document) → IsTextOfTree self.now s → (v : tree.Value) → IsTextOfValue value.now v
            → IsInsertionOf self.now.profile path.now v s (Ok insertion)
            → IfSome result (IsIndexChange s (edited_document s (insert path.now v))) }
    {
        let Spot::AfterBody(header) = insertion.spot else {
            return None;
        };
        let from = insertion.from;
        if path.len().saturating_sub(from) != 1 {
            return self.keys_change(path, insertion, value);
        }
        let Step::Key(key) = path.step(from)? else {
            return None;
        };
        let parent = self.index.find_first(path, from)?;
        let key = key.as_str();
        let line = self.line_numbers(header);
        if value.depth() == 0 {
            let kind = value.kind();
            let is_last = line.statement == self.syntax.statement_count();
            return Some(if is_last {
                IndexChange::AppendedLine {
                    parent,
                    key,
                    line,
                    kind,
                }
            } else {
                IndexChange::AddedLine {
                    parent,
                    key,
                    line,
                    kind,
                }
            });
        }
        let totals = totals_of(self.syntax);
        Some(IndexChange::AddedValue {
            parent,
            key,
            line,
            value,
            totals,
        })
    }

    /// What an insertion changes of the index, if that is one line more, with several keys. It takes no memory.
    fn keys_change<'p>(
        &self,
        path: &'p Path,
        insertion: Insertion,
        value: &'p ValueText,
    ) -> Option<IndexChange<'p>>
        requires aimed { (s : tree.Document) × IsTextOfTree self.now s
            × ((v : tree.Value) × IsTextOfValue value.now v
            × IsInsertionOf self.now.profile path.now v s (Ok insertion)) }
        requires several { length path.now - insertion.from ≢ 1 }
        requires utf8 { AreUtf8 path.now }
        ensures { (s : tree.Document) → IsTextOfTree self.now s → (v : tree.Value) → IsTextOfValue value.now v
            → IsInsertionOf self.now.profile path.now v s (Ok insertion)
            → IfSome result (IsIndexChange s (edited_document s (insert path.now v))) }
    {
        let Spot::AfterBody(header) = insertion.spot else {
            return None;
        };
        let keys = NewKeys {
            path,
            from: insertion.from,
            passed: 0,
        };
        let parent = self.index.find_first(path, keys.from)?;
        let numbers = self.line_numbers(header);
        let old = totals_of(self.syntax);
        if value.depth() == 0 {
            return Some(IndexChange::AddedKeys {
                parent,
                keys,
                line: numbers,
                kind: value.kind(),
                totals: old,
            });
        }
        Some(IndexChange::AddedKeysValue {
            parent,
            path,
            from: keys.from,
            line: numbers,
            value,
            totals: old,
        })
    }

    /// What an insertion changes of the index, if that is one line more after the last one that leads through a table
    /// of dotted keys, with nothing in its value. Its keys pass the tables from that line's body on. It takes no
    /// memory.
    fn dots_change<'p>(
        &self,
        path: &'p Path,
        insertion: Insertion,
        value: &'p ValueText,
    ) -> Option<IndexChange<'p>>
        requires aimed { (s : tree.Document) × IsTextOfTree self.now s
            × ((v : tree.Value) × IsTextOfValue value.now v
            × IsInsertionOf self.now.profile path.now v s (Ok insertion)) }
        requires utf8 { AreUtf8 path.now }
        ensures { (s : tree.Document) → IsTextOfTree self.now s → (v : tree.Value) → IsTextOfValue value.now v
            → IsInsertionOf self.now.profile path.now v s (Ok insertion)
            → IfSome result (IsIndexChange s (edited_document s (insert path.now v))) }
    {
        // The invariant of a document is known to the proof from where a field of it is looked at.
        let syntax = self.syntax;
        let Spot::AfterLine(keyval) = insertion.spot else {
            return None;
        };
        if value.depth() != 0 {
            return None;
        }
        let holder = self.holder_of(path);
        let keys = NewKeys {
            path,
            from: holder.len,
            passed: holder.len - insertion.from,
        };
        Some(IndexChange::AddedKeys {
            parent: holder.id,
            keys,
            line: self.numbers_past(keyval),
            kind: value.kind(),
            totals: totals_of(syntax),
        })
    }
}
