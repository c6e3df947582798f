//! Inserting values.
ghost use Rattle.std.specs.Prelude.{◌≡◌, suc, ◌++◌, ◌∷◌, [], ◌<◌, List, Some, Ok, IfOk, IfSome, length, drop};
ghost use Rattle.std.specs.Prelude.{string_bytes};
ghost use Rattle.std.specs.List.{list_any};
ghost use Rattle.keep_types.specs.declared.leaf.Profile.TheVariants.{Wide};
ghost use Rattle.keep_syntax.specs.Contract.{values_of};
ghost use Rattle.keep_syntax.specs.Tree as tree;
ghost use Rattle.keep_path.specs.Path.{Part, index, AreUtf8};
ghost use Rattle.keep_path.specs.Step.{part_of};
ghost use Rattle.keep_meaning.specs.Meaning.{mentions_in};
ghost use Rattle.keep_meaning.specs.Nodes.{node_number, node_paths};
ghost use Rattle.keep_edit_spec.specs.Edits.{insert};
ghost use Rattle.keep_edit_spec.specs.Look.{is_index, item_number};
ghost use Rattle.keep_edit_plan.specs.Plans.{EditPlanned, IsPlanOf};
ghost use Rattle.keep_edit_plan.specs.Reading.{IsAccepted, IsAcceptedValue, IsTextOfTree, IsTextOfValue};
ghost use Rattle.keep_edit_plan.specs.Answers.{value_number_of};
ghost use Rattle.keep_edit_plan.specs.Aiming.{IsAimed, IsItemAimed, IsItemOf, IsKeyvalAimed, longest_prefix};
ghost use Rattle.keep_edit_plan.specs.Aiming.{spot_in_braces};
ghost use Rattle.keep_edit_plan.specs.Holding.{IsHolder};
ghost use Rattle.keep_edit_plan.specs.Inserting.{IsInsertionOf, IsPutIn, last_keyval_among};

mod added;
mod brought_header;
mod brought_line;
mod change;
mod dotted_line;
mod keys;
mod lines;
mod numbers;

use crate::document::DocumentRef;
use crate::holder::Holder;
use crate::insert::keys::push_keyed;
use crate::plan::Plan;
use crate::text_edit::TextEdit;
use keep_edit_spec::EditFault;
use keep_rules::{Kind, NodeId, Origin, Path, Step, ValueText};
use keep_syntax::{STANDARD_DEPTH, Span, Syntax};
use std::alloc::{AllocError, Global};

/// Room for what a line has beside its value, in bytes: its keys, ` = ` and newlines. Most lines need less, so that
/// they are written into one allocation.
pub(crate) const LINE_ROOM: usize = 32;

/// Where a value is inserted.
#[derive(Clone, Copy)]
pub(crate) enum Spot {
    /// Before the item with this value number.
    BeforeItem(usize),
    /// After the entry with this value number, in brackets.
    AfterEntry(usize),
    /// In the empty brackets with this value number.
    InEmpty(usize),
    /// On a line after the body of the header with this statement number, or of the root.
    AfterBody(Option<usize>),
    /// On a line after that of the keyval with this value number.
    AfterLine(usize),
    /// On a line below a new header, after the body of the header with this statement number.
    NewSection(usize),
}

/// Where a value is inserted, and which steps of its path are written as keys: those from number `from` on.
#[derive(Clone, Copy)]
pub(crate) struct Insertion {
    pub(crate) spot: Spot,
    pub(crate) from: usize,
}

impl<'a> DocumentRef<'a> {
    /// The plan by which a value comes to a new path.
    ///
    /// # Errors
    ///
    /// The refusal of the edit, whatever memory there is; else `Memory` if memory was refused.
    pub fn insert_plan<'p>(
        &self,
        alloc: Global,
        path: &'p Path,
        value: &'p ValueText,
    ) -> Result<Plan<'p>, EditFault>
        ensures planned { (s : tree.Document) → IsTextOfTree self.now s → (v : tree.Value) → IsTextOfValue value.now v
            → EditPlanned s (insert path.now v) self.now result }
        ensures of_edit { IfOk result (IsPlanOf self.now) }
        ensures of { IsAccepted self.now }
        ensures value { IsAcceptedValue Wide value.now }
    {
        // The invariant of a document is known to the proof from where a field of it is looked at.
        let _text = self.text;
        let _given = value.as_str();
        let insertion = self.insertion(path, value)?;
        let Some(mut new) = room_for(alloc, value, LINE_ROOM) else {
            return Err(EditFault::Memory);
        };
        let Ok(at) = self.push_insertion(&mut new, path, insertion, value) else {
            return Err(EditFault::Memory);
        };
        let place = Span { start: at, end: at };
        Ok(Plan {
            text_edit: TextEdit { place, new },
            index_change: self.insertion_change(path, insertion, value),
        })
    }

    /// Adds what is inserted, and returns the byte offset at which it is. The only error is out of memory.
    fn push_insertion(
        &self,
        out: &mut String,
        path: &Path,
        insertion: Insertion,
        value: &ValueText,
    ) -> Result<usize, AllocError>
        requires aimed { (s : tree.Document) × IsTextOfTree self.now s
            × ((v : tree.Value) × IsTextOfValue value.now v
            × IsInsertionOf self.now.profile path.now v s (Ok insertion)) }
        requires utf8 { AreUtf8 path.now }
        ensures { (s : tree.Document) → IsTextOfTree self.now s → (v : tree.Value) → IsTextOfValue value.now v
            → IsInsertionOf self.now.profile path.now v s (Ok insertion)
            → IfOk result (λ at. IsPutIn path.now v s self.now.text at (string_bytes out.old) (string_bytes out.new)) }
    {
        let from = insertion.from;
        match insertion.spot {
            Spot::BeforeItem(item) => {
                out.push_str(value.as_str())?;
                out.push_str(", ")?;
                Ok(self.syntax.value(item).whole.start)
            }
            Spot::AfterEntry(entry) => {
                out.push_str(", ")?;
                push_keyed(out, path, from, value)?;
                Ok(self.syntax.value(entry).span.end)
            }
            Spot::InEmpty(brackets) => {
                push_keyed(out, path, from, value)?;
                Ok(after_bracket(self.text, self.syntax.value(brackets).span.start))
            }
            Spot::AfterBody(header) => {
                let at = self.body_end(header);
                self.push_line(out, at, path, from, value)?;
                Ok(at)
            }
            Spot::AfterLine(keyval) => {
                let at = self.keyval_end(keyval);
                self.push_line(out, at, path, from, value)?;
                Ok(at)
            }
            Spot::NewSection(header) => {
                let at = self.body_end(Some(header));
                self.push_section(out, at, path, from, value)?;
                Ok(at)
            }
        }
    }

    /// Where a value is inserted, or why it can't be. It takes no memory.
    pub(crate) fn insertion(&self, path: &Path, value: &ValueText) -> Result<Insertion, EditFault>
        requires { IsAccepted self.now }
        ensures insertion { (s : tree.Document) → IsTextOfTree self.now s → (v : tree.Value) → IsTextOfValue value.now v
            → IsInsertionOf self.now.profile path.now v s result }
        ensures utf8 { AreUtf8 path.now }
    {
        let holder = self.holder_of(path);
        let insertion = self.aim(path, holder)?;
        if holder.depth.saturating_add(value.depth() as usize) > STANDARD_DEPTH as usize {
            return Err(EditFault::TooDeep);
        }
        if !value.is_allowed_in(self.profile) {
            return Err(EditFault::Profile);
        }
        Ok(insertion)
    }

    /// Where a value is inserted, whatever it is, or why there is no place for it.
    fn aim(&self, path: &Path, holder: Holder) -> Result<Insertion, EditFault>
        requires { (s : tree.Document) × IsTextOfTree self.now s × IsHolder path.now s holder }
        ensures { (s : tree.Document) → IsTextOfTree self.now s → IsHolder path.now s holder
            → IsAimed path.now s result }
    {
        if let Some(number) = self.item_number(path, holder) {
            let spot = self.item_spot(holder.id, number)?;
            return Ok(Insertion {
                spot,
                from: path.len(),
            });
        }
        if self.index.find(path).is_some() {
            return Err(EditFault::Exists);
        }
        if has_index(path, holder.len) {
            return Err(EditFault::NotFound);
        }
        let spot = self.keyval_spot(holder)?;
        Ok(Insertion {
            spot,
            from: holder.base,
        })
    }

    /// The number of the item that the path names in a static array, also one after the last; None if it names none.
    fn item_number(&self, path: &Path, holder: Holder) -> Option<usize>
        requires { (s : tree.Document) × IsTextOfTree self.now s × IsHolder path.now s holder }
        ensures { (s : tree.Document) → IsTextOfTree self.now s → IsHolder path.now s holder
            → result ≡ item_number path.now (mentions_in s) }
    {
        let number = match path.step(holder.len)? {
            Step::Key(_) => return None,
            Step::Index(number) => *number,
        };
        if path.len() - holder.len > 1 {
            return None;
        }
        match self.index.node(holder.id).kind {
            Kind::Array => Some(number),
            _ => None,
        }
    }

    /// Where an item is put in a static array.
    fn item_spot(&self, array: NodeId, number: usize) -> Result<Spot, EditFault>
        requires { (path : List Part) × (s : tree.Document) × IsTextOfTree self.now s × IsItemOf path number s array.0 }
        ensures { (path : List Part) (s : tree.Document) → IsTextOfTree self.now s → IsItemOf path number s array.0
            → IsItemAimed path number s result }
    {
        if let Some(value) = self.item_value(array, number) {
            return Ok(Spot::BeforeItem(value));
        }
        if number > 0 {
            return match self.item_value(array, number - 1) {
                Some(value) => Ok(Spot::AfterEntry(value)),
                None => Err(EditFault::NotFound),
            };
        }
        match self.index.node(array).origin {
            Origin::Value(value) => Ok(Spot::InEmpty(value)),
            _ => unreachable!(),
        }
    }

    /// The value number of an array's item; None if there is no such item.
    fn item_value(&self, array: NodeId, number: usize) -> Option<usize>
        requires { (a : List Part) × (s : tree.Document) × IsTextOfTree self.now s
            × (node_number (node_paths (mentions_in s)) a ≡ Some array.0) }
        ensures { (a : List Part) (s : tree.Document) → IsTextOfTree self.now s
            → node_number (node_paths (mentions_in s)) a ≡ Some array.0
            → result ≡ value_number_of (a ++ index number ∷ []) s }
    {
        let id = self.index.step(array, &Step::Index(number))?;
        match self.index.node(id).origin {
            Origin::Value(value) => Some(value),
            _ => None,
        }
    }

    /// Where a keyval is put below a node, with the keys from the node's base on.
    fn keyval_spot(&self, holder: Holder) -> Result<Spot, EditFault>
        requires { (path : List Part) × (s : tree.Document) × IsTextOfTree self.now s × IsHolder path s holder }
        ensures { (path : List Part) (s : tree.Document) → IsTextOfTree self.now s → IsHolder path s holder
            → IsKeyvalAimed (longest_prefix path s) s holder.base result }
    {
        let node = self.index.node(holder.id);
        match node.origin {
            Origin::Root => Ok(Spot::AfterBody(None)),
            Origin::Header(header) => Ok(Spot::AfterBody(Some(header))),
            Origin::Element(header) => Ok(Spot::AfterBody(Some(header))),
            Origin::Through(header) => Ok(Spot::NewSection(header)),
            Origin::Dotted(value) => {
                if holder.braced {
                    Ok(Spot::AfterEntry(value))
                } else {
                    Ok(Spot::AfterLine(value))
                }
            }
            Origin::Value(value) => match node.kind {
                Kind::Inline => Ok(braces_spot(self.syntax, value)),
                _ => Err(EditFault::NotTable),
            },
            Origin::Tables => Err(EditFault::NotTable),
        }
    }
}

/// An empty text with room for a value and for so many bytes beside it. None where memory was refused.
pub(crate) fn room_for(alloc: Global, value: &ValueText, beside: usize) -> Option<String>
    ensures { IfSome result (λ out. string_bytes out ≡ []) }
{
    String::with_capacity(alloc, value.as_str().len().saturating_add(beside)).ok()
}

/// The byte offset after a bracket of the text.
fn after_bracket(text: &str, at: usize) -> usize
    requires { at < length text.now }
    ensures { result ≡ suc at }
{
    at + 1
}

/// Where a keyval is put in braces: after the last that is there.
fn braces_spot(syntax: &Syntax, braces: usize) -> Spot
    requires { braces < length (values_of syntax.now) }
    ensures { result ≡ spot_in_braces braces (last_keyval_among braces (values_of syntax.now)) }
{
    match last_keyval(syntax, braces) {
        Some(keyval) => Spot::AfterEntry(keyval),
        None => Spot::InEmpty(braces),
    }
}

/// The number of the last keyval of the braces with a value number; None if they are empty.
fn last_keyval(syntax: &Syntax, braces: usize) -> Option<usize>
    requires { braces < length (values_of syntax.now) }
    ensures { result ≡ last_keyval_among braces (values_of syntax.now) }
{
    let depth = syntax.value(braces).depth;
    let mut last = None;
    for number in braces + 1..syntax.value_count() {
        let value = syntax.value(number);
        if value.depth <= depth {
            return last;
        }
        if value.depth - depth == 1 {
            last = Some(number);
        }
    }
    last
}

/// Whether a path has an index from step number `from` on.
fn has_index(path: &Path, from: usize) -> bool
    ensures { result ≡ list_any is_index (drop from path.now) }
{
    for number in from..path.len() {
        let Some(step) = path.step(number) else {
            return false;
        };
        if is_index_step(step) {
            return true;
        }
    }
    false
}

/// Whether a step is an index.
fn is_index_step(step: &Step) -> bool
    ensures { result ≡ is_index (part_of step.now) }
{
    match step {
        Step::Key(_) => false,
        Step::Index(_) => true,
    }
}
