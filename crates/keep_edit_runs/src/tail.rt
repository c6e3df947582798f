//! What edits that are made at once write at the end of the text: headers that they append, and inserts that come below
//! one of these, each into a table that headers go through and none defines. All other edits of the run are as if they
//! had been made first.
ghost use Rattle.std.specs.Prelude.{◌≡◌, [], All, IfOk, IfSome, IsTrue, Some, false, is_some, slice_get};
ghost use Rattle.std.specs.Prelude.{string_bytes};
ghost use Rattle.std.specs.Bool.{Decides};
ghost use Rattle.keep_edit_plan.specs.Headers.{key_texts};
ghost use Rattle.keep_edit_runs.specs.Runs.{LeavesAlone, outlined};
ghost use Rattle.keep_edit_runs.specs.SeenPaths.{IsSeen};
ghost use Rattle.keep_edit_runs.specs.declared.tail.Block.{Block};
ghost use Rattle.keep_edit_runs.specs.Tail.{HasElementLike, HeaderIsAdded, IsBlockFor, IsBlockOf, IsLastThrough};
ghost use Rattle.keep_edit_runs.specs.Tail.{IsOutlineAdded, IsPutBelow, LetsTable, bytes_of, with_elements};
ghost use Rattle.keep_edit_spec.specs.ElementRuns.{IsElsewhere};
ghost use Rattle.keep_edit_spec.specs.HeadersBelow.{GoThrough};

use crate::alike::{
    are_elsewhere, are_same_keys, is_same, is_within, leave_alone_within, passes_by,
};
use crate::outline::{Outline, Steps};
use crate::seen_paths::{SeenPaths, number_of_header};
use keep_rules::Step;
use std::alloc::{AllocError, Global};
use std::collections::HashMap;

/// A header at the end of the text, and what comes below it there.
#[derive(Drop)]
pub struct Block<'a> {
    pub keys: &'a [String],
    pub text: String,
    /// The table into which the inserts below it go, if there are any.
    pub table: Option<Steps<'a>>,
}

/// The edits at the end of the text, and what they write there.
#[derive(Drop)]
pub struct Tail<'a> {
    pub outlines: Vec<Outline<'a>>,
    pub blocks: Vec<Block<'a>>,
    /// Their paths and keys, by which most edits are known to be left alone by them.
    pub paths: SeenPaths<'a>,
    /// Where the last element of each array of tables is among them, by the number that stands for its keys.
    pub elements: HashMap<u64, usize>,
}

impl<'a> Tail<'a> {
    /// No edits yet. It takes no memory.
    pub fn new(alloc: Global) -> Tail<'a>
        ensures { (result.outlines.items ≡ []) × (result.blocks.items ≡ []) }
    {
        Tail {
            outlines: Vec::new(alloc),
            blocks: Vec::new(alloc),
            paths: SeenPaths::new(alloc),
            elements: HashMap::new(alloc),
        }
    }

    /// Whether there are none.
    pub fn is_empty(&self) -> bool
        ensures { Decides result ((self.now.blocks.items ≡ []) × (self.now.outlines.items ≡ [])) }
    {
        self.blocks.is_empty() && self.outlines.is_empty()
    }

    /// Whether an edit appends an element, and one of them appends one with the same keys, as far as is known.
    pub fn has_element_like(&self, outline: &Outline) -> bool
        ensures { IsTrue result → HasElementLike self.now.outlines.items outline.now }
    {
        let Outline::Element(keys) = outline else {
            return false;
        };
        let Some(place) = self.elements.get(&number_of_header(keys)) else {
            return false;
        };
        match self.outlines.get(*place) {
            Some(Outline::Element(own)) => are_same_keys(own, keys),
            _ => false,
        }
    }

    /// Whether each of them is known to leave an edit alone, where at most so many pairs may still be compared.
    pub fn leave_alone(&self, left: &mut usize, outline: &Outline) -> bool
        requires { All (IsSeen self.now.paths) self.now.outlines.items }
        ensures { IsTrue result → All (λ y. LeavesAlone y outline.now) self.now.outlines.items }
    {
        self.outlines.is_empty()
            || self.paths.leave_alone(outline)
            || leave_alone_within(left, self.outlines.as_slice(), outline)
    }

    /// Whether each of them is found to be elsewhere than in an array.
    pub fn are_elsewhere(&self, array: &Steps) -> bool
        requires { All (IsSeen self.now.paths) self.now.outlines.items }
        ensures { IsTrue result → All (λ o. IsElsewhere array.now (outlined o)) self.now.outlines.items }
    {
        self.outlines.is_empty()
            || self.paths.are_elsewhere(array)
            || are_elsewhere(array, self.outlines.as_slice())
    }

    /// Adds a header, as it is written. Returns whether it was added; if not, nothing more is written.
    pub fn add(&mut self, outline: Outline<'a>, keys: &'a [String], text: String) -> bool
        requires { All (IsSeen self.old.paths) self.old.outlines.items }
        ensures added { IsTrue result → HeaderIsAdded self.old keys.entry text self.new }
        ensures outlines { IsTrue result → IsOutlineAdded self.old outline.entry self.new }
        ensures refused { result ≡ false → self.new.blocks.items ≡ self.old.blocks.items }
    {
        let block = Block {
            keys,
            text,
            table: None,
        };
        self.add_outline(outline) && self.blocks.push(block).is_ok()
    }

    /// Adds what an edit does, and its paths. Returns whether they were added.
    fn add_outline(&mut self, outline: Outline<'a>) -> bool
        requires { All (IsSeen self.old.paths) self.old.outlines.items }
        ensures outlines { IsTrue result → IsOutlineAdded self.old outline.entry self.new }
        ensures blocks { self.new.blocks.items ≡ self.old.blocks.items }
    {
        self.paths.add(&outline).unwrap_or(false)
            && self.keep_element(&outline)
            && self.outlines.push(outline).is_ok()
    }

    /// Keeps where the next edit comes among them, if it appends an element. Returns whether it is kept then; it is not
    /// where memory was refused.
    fn keep_element(&mut self, outline: &Outline) -> bool
        ensures { self.new ≡ with_elements self.old self.new.elements }
    {
        let Outline::Element(keys) = outline else {
            return true;
        };
        let place = self.outlines.len();
        self.elements.insert(number_of_header(keys), place).is_ok()
    }

    /// The number of the block below whose header an insert into a table comes: the one below which others into the
    /// table came, or else the last whose header goes through it. No header is the table's own, and no insert below
    /// another is into the table or one below it.
    pub fn block_for(&self, table: &Steps) -> Option<usize>
        ensures { IfSome result (IsBlockFor self.now.blocks.items table.now) }
    {
        let last = self.last_through(table)?;
        let number = self.block_of(table).unwrap_or(last);
        if !self.lets_table(number, table) {
            return None;
        }
        Some(number)
    }

    /// The number of the first block with inserts into a table.
    fn block_of(&self, table: &Steps) -> Option<usize>
        ensures { IfSome result (IsBlockOf self.now.blocks.items table.now) }
    {
        for number in 0..self.blocks.len() {
            if let Some(other) = &self.blocks[number].table {
                if is_same(other, table) {
                    return Some(number);
                }
            }
        }
        None
    }

    /// The number of the last block whose header goes through a table. None where none does, and where a header is of
    /// the table itself.
    fn last_through(&self, table: &Steps) -> Option<usize>
        ensures { IfSome result (IsLastThrough self.now.blocks.items table.now) }
    {
        let mut last = None;
        for number in 0..self.blocks.len() {
            let keys = self.blocks[number].keys;
            if passes_by(keys, table) {
                continue;
            }
            if !goes_through(keys, table) {
                return None;
            }
            last = Some(number);
        }
        last
    }

    /// Whether the inserts below the header with this number are into the table, and no others are into it or into one
    /// below it.
    fn lets_table(&self, number: usize, table: &Steps) -> bool
        ensures { IsTrue result → LetsTable self.now.blocks.items number table.now }
    {
        for place in 0..self.blocks.len() {
            let Some(other) = &self.blocks[place].table else {
                continue;
            };
            if place == number {
                if !is_same(other, table) {
                    return false;
                }
            } else if is_within(other, table) {
                return false;
            }
        }
        true
    }

    /// Whether inserts come below the header with this number.
    pub fn has_lines_below(&self, number: usize) -> bool
        ensures { (b : Block) → slice_get self.now.blocks.items number ≡ Some b → result ≡ is_some b.table }
    {
        match self.blocks.get(number) {
            Some(block) => block.table.is_some(),
            None => false,
        }
    }

    /// Adds what an insert into a table writes below the header with this number. Returns whether it was added; if not,
    /// nothing more is written.
    pub fn put_below(
        &mut self,
        number: usize,
        outline: Outline<'a>,
        table: Steps<'a>,
        text: &str,
    ) -> bool
        requires { All (IsSeen self.old.paths) self.old.outlines.items }
        ensures put { IsTrue result
            → IsPutBelow self.old.blocks.items number table.entry text.now self.new.blocks.items }
        ensures outlines { IsTrue result → IsOutlineAdded self.old outline.entry self.new }
        ensures refused { result ≡ false → bytes_of self.new.blocks.items ≡ bytes_of self.old.blocks.items }
    {
        if number >= self.blocks.len() || !self.add_outline(outline) {
            return false;
        }
        let block = &mut self.blocks[number];
        if block.text.push_str(text).is_err() {
            return false;
        }
        block.table = Some(table);
        true
    }

    /// All that is written, in its order.
    ///
    /// # Errors
    ///
    /// Out of memory.
    pub fn text(&self, alloc: Global) -> Result<String, AllocError>
        ensures { IfOk result (λ text. string_bytes text ≡ bytes_of self.now.blocks.items) }
    {
        let mut text = String::new(alloc);
        for block in self.blocks.iter() {
            text.push_str(block.text.as_str())?;
        }
        Ok(text)
    }
}

/// Whether a header of these keys goes through a table: its keys are those of the table's path, and more.
fn goes_through(keys: &[String], table: &Steps) -> bool
    ensures { IsTrue result → GoThrough (key_texts keys.now) table.now }
{
    if table.len() >= keys.len() {
        return false;
    }
    for number in 0..table.len() {
        match table.step(number) {
            Some(Step::Key(key)) if key.as_str() == keys[number].as_str() => {}
            _ => return false,
        }
    }
    true
}
