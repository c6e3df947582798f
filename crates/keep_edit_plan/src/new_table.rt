//! Tables and elements that are new at the end of a document, and lines of keys there.
ghost use Rattle.std.specs.Prelude.{◌≡◌, ◌<◌, ◌∷◌, ◌++◌, [], IfSome, length, true};
ghost use Rattle.keep_types.specs.declared.leaf.Profile.TheVariants.{Wide};
ghost use Rattle.keep_syntax.specs.Tree as tree;
ghost use Rattle.keep_path.specs.Path.{key};
ghost use Rattle.keep_rules.specs.Lookup.{path_numbered};
ghost use Rattle.keep_rules.specs.ReadDocuments.{IsIndexOf};
ghost use Rattle.keep_edit_plan.specs.Answers.{IsSpanOf};
ghost use Rattle.keep_edit_plan.specs.Headers.{key_texts};
ghost use Rattle.keep_edit_plan.specs.NewTables.{AppendsNewElementHere, AppendsNewTableHere, HasElements, IsKeyLine};
ghost use Rattle.keep_edit_plan.specs.NewTables.{LeadToElements, LeadToNone};
ghost use Rattle.keep_edit_plan.specs.Reading.{IsAcceptedValue, IsTextOfTree, IsTextOfValue};
ghost use Rattle.keep_edit_plan.specs.TextEdits.{change_of};

use crate::append::ends_in_newline;
use crate::document::DocumentRef;
use crate::header::Header;
use crate::insert::{LINE_ROOM, room_for};
use crate::set::ends_in_key;
use crate::text_edit::TextEdit;
use keep_rules::{Index, NodeId, Origin, Path, Step, ValueText};
use keep_syntax::{STANDARD_DEPTH, Span};
use std::alloc::Global;

/// The header of an element that comes at the end of a document, and the element's number.
#[derive(Drop)]
pub struct NewElement {
    pub header: TextEdit,
    pub number: usize,
}

impl<'a> DocumentRef<'a> {
    /// What the header of a new table writes at the end of the text, after a newline. None where a table, an element or
    /// a key with that path is there, or an array of tables or a value is on its way; where the text does not end in a
    /// newline; and where memory was refused.
    pub fn new_table(&self, alloc: Global, keys: &[String]) -> Option<TextEdit>
        ensures { IfSome result (AppendsNewTableHere self.now (key_texts keys.now)) }
    {
        if !ends_in_newline(self.text) || !leads_to_none(self.index, keys) {
            return None;
        }
        let plan = self.append_plan(alloc, keys, Header::Table).ok()?;
        Some(plan.text_edit)
    }

    /// What the header of an element of an array of tables writes at the end of the text, after a newline, and the
    /// number that the element has then. None where another node has that path, or an array of tables or a value is on
    /// its way; where the text does not end in a newline; and where memory was refused.
    pub fn new_element(&self, alloc: Global, keys: &[String]) -> Option<NewElement>
        ensures { IfSome result (λ made. AppendsNewElementHere self.now (key_texts keys.now) made.number made.header) }
    {
        if !ends_in_newline(self.text) {
            return None;
        }
        let number = next_element(self.index, keys)?;
        let plan = self.append_plan(alloc, keys, Header::Element).ok()?;
        Some(NewElement {
            header: plan.text_edit,
            number,
        })
    }

    /// The line at the end of the text, after a newline, of a key with its value: the last step of a path. None where
    /// the path ends in no key; where a table of the document can't hold the value, since it is too deep or of another
    /// profile; where the text does not end in a newline; and where memory was refused.
    pub fn key_line(&self, alloc: Global, path: &Path, value: &ValueText) -> Option<TextEdit>
        ensures line { (s : tree.Document) → IsTextOfTree self.now s → (v : tree.Value) → IsTextOfValue value.now v
            → IfSome result (λ made. IsKeyLine self.now.profile s path.now v (change_of made)) }
        ensures within { IfSome result (λ made. IsSpanOf self.now.text made.place) }
        ensures value { IsAcceptedValue Wide value.now }
    {
        // The invariant of a value is known to the proof from where it is looked at.
        let _given = value.as_str();
        if value.depth() > STANDARD_DEPTH || !value.is_allowed_in(self.profile) {
            return None;
        }
        if !ends_in_key(path) || !ends_in_newline(self.text) {
            return None;
        }
        let at = self.text.len();
        let mut line = room_for(alloc, value, LINE_ROOM)?;
        self.push_line(&mut line, at, path, path.len() - 1, value)
            .ok()?;
        Some(TextEdit {
            place: Span { start: at, end: at },
            new: line,
        })
    }
}

/// Whether keys lead to no node, and each node on their way is a table, not an array of tables. It takes no memory, and
/// looks up one node a key.
fn leads_to_none(index: &Index, keys: &[String]) -> bool
    requires { (s : tree.Document) × IsIndexOf s index.now }
    ensures { result ≡ true → (s : tree.Document) → IsIndexOf s index.now → LeadToNone s (key_texts keys.now) }
{
    let mut at = NodeId(0);
    for name in keys {
        let Some(next) = index.child(at, name.as_str()) else {
            return true;
        };
        if let Origin::Value(_) | Origin::Tables = index.node(next).origin {
            return false;
        }
        at = next;
    }
    false
}

/// The number of the next element of the array of tables to which keys lead; 0 where they lead to no node. None where
/// another node is there, or an array of tables or a value is on their way. It takes no memory, and looks up one node a
/// key, and the last element.
fn next_element(index: &Index, keys: &[String]) -> Option<usize>
    requires { (s : tree.Document) × IsIndexOf s index.now }
    ensures { IfSome result (λ number. (s : tree.Document) → IsIndexOf s index.now
        → LeadToElements s (key_texts keys.now) number) }
{
    let (last, way) = keys.split_last()?;
    let mut at = NodeId(0);
    for name in way {
        let Some(next) = index.child(at, name.as_str()) else {
            return Some(0);
        };
        match index.node(next).origin {
            Origin::Value(_) | Origin::Tables => return None,
            _ => at = next,
        }
    }
    elements_at(index, at, last.as_str())
}

/// How many elements the array of tables at a key of a node has; 0 where no node is there, and None where another one
/// is.
fn elements_at(index: &Index, at: NodeId, name: &str) -> Option<usize>
    requires { at.0 < length index.now.paths }
    ensures { IfSome result (λ number. (s : tree.Document) → IsIndexOf s index.now
        → HasElements s (path_numbered index.now at.0 ++ key name.now ∷ []) number) }
{
    let Some(array) = index.child(at, name) else {
        return Some(0);
    };
    let Origin::Tables = index.node(array).origin else {
        return None;
    };
    let count = index.child_count(array);
    let last = count.checked_sub(1)?;
    // The last node below the array is its last element, since headers go on in it. It is looked up by the number that
    // it has there, from which the proof takes its number as an element: no law tells that the two are one.
    let _element = index.step(array, &Step::Index(last))?;
    let _child = index.child_at(array, last);
    Some(count)
}
