//! Edits of one text.
ghost use Rattle.std.specs.Prelude.{◌≡◌, ◌<◌, ◌≤◌, [], All, IfOk, IfSome, IsTrue, None, OnErr, Some, false};
ghost use Rattle.std.specs.Prelude.{if◌then◌else◌, length, map, slice_get, string_bytes};
ghost use Rattle.std.specs.Bool.{Decides};
ghost use Rattle.std.specs.List.{list_any};
ghost use Rattle.keep_edit_spec.specs.LinesInPlace.{IsPutBefore};
ghost use Rattle.keep_edit_spec.specs.Runs.{LeavesPlace, LetsCome, takes_up_to};
ghost use Rattle.keep_edit_spec.specs.TextChanges.{IsBeside, text_with, with_change};
ghost use Rattle.keep_edit_plan.specs.SaidSpans.{Leaves};
ghost use Rattle.keep_edit_plan.specs.TextEdits.{HasChange, HasInstead, HasRoom, IsChangeIn, IsFreed, IsOrdered};
ghost use Rattle.keep_edit_plan.specs.TextEdits.{IsPutAhead, IsReplaced, IsTextBefore, TakesAlone, change_of};

use crate::said::said_line;
use crate::text_edit::TextEdit;
use keep_syntax::Span;
use std::alloc::{AllocError, Global};
use std::marker::Model;

/// Edits of one text, in the order of their places; of those at one place, in the order in which they were added. None
/// overlaps another.
#[derive(Drop)]
pub struct TextEdits {
    edits: Vec<TextEdit>,
}

impl Model for TextEdits {
    ghost use Rattle.std.specs.Prelude.{All, List, map};
    ghost use Rattle.keep_edit_spec.specs.TextChanges.{Follow, TextChange};
    ghost use Rattle.keep_edit_plan.specs.TextEdits.{IsOrdered, change_of};

    ghost Value = { List TextChange };

    ghost view = { λ t. map change_of t.edits.items };

    ghost invariant = { λ t. Follow 0 (map change_of t.edits.items) × All IsOrdered t.edits.items };
}

impl TextEdits {
    /// No edit yet. It takes no memory.
    pub fn new(alloc: Global) -> TextEdits
        ensures { result ≡ [] }
    {
        TextEdits {
            edits: Vec::new(alloc),
        }
    }

    /// How many there are.
    pub fn len(&self) -> usize
        ensures { result ≡ length self.now }
    {
        self.edits.len()
    }

    /// Adds an edit, after those that begin where it does or before it. Returns whether it was added: one that overlaps
    /// another is not.
    ///
    /// # Errors
    ///
    /// Out of memory, for an edit that overlaps none. Then nothing has changed.
    pub fn add(&mut self, edit: TextEdit) -> Result<bool, AllocError>
        requires { IsOrdered edit }
        ensures beside { IfOk result (λ added. Decides added (All (λ c. IsBeside c (change_of edit)) self.old)) }
        ensures added { IfOk result (λ added. self.new
            ≡ (if added then with_change self.old (change_of edit) else self.old)) }
        ensures refused { OnErr result (self.new ≡ self.old) }
    {
        let Some(number) = self.number_for(&edit) else {
            return Ok(false);
        };
        match self.edits.insert(number, edit) {
            Ok(()) => Ok(true),
            Err(_) => Err(AllocError),
        }
    }

    /// Whether an edit overlaps none of these, so that it could be added.
    pub fn leave(&self, edit: &TextEdit) -> bool
        requires { IsOrdered edit.now }
        ensures { Decides result (All (λ c. IsBeside c (change_of edit.now)) self.now) }
    {
        self.number_for(edit).is_some()
    }

    /// The number that an edit would have among these, after those that begin where it does or before it; none if it
    /// overlaps one.
    fn number_for(&self, edit: &TextEdit) -> Option<usize>
        requires { IsOrdered edit.now }
        ensures room { IfSome result (HasRoom self.now (change_of edit.now)) }
        ensures none { result ≡ None → ¬ All (λ c. IsBeside c (change_of edit.now)) self.now }
    {
        let Span { start, end } = edit.place;
        let number = self
            .edits
            .partition_point(|other| other.place.start <= start);
        if number > 0 && self.edits[number - 1].place.end > start {
            return None;
        }
        if number < self.edits.len() && self.edits[number].place.start < end {
            return None;
        }
        Some(number)
    }

    /// Puts an edit that takes nothing before the last of those that begin where it does, so many. Returns whether it
    /// did: not where no or fewer edits begin there, or where the last one takes bytes.
    ///
    /// # Errors
    ///
    /// Out of memory. Then nothing has changed.
    pub fn add_ahead(&mut self, edit: TextEdit, count: usize) -> Result<bool, AllocError>
        ensures put { IfOk result (λ done. IsTrue done → IsPutAhead self.old (change_of edit) count self.new) }
        ensures other { IfOk result (λ done. done ≡ false → self.new ≡ self.old) }
        ensures refused { OnErr result (self.new ≡ self.old) }
    {
        let Span { start, end } = edit.place;
        let after = self
            .edits
            .partition_point(|there| there.place.start <= start);
        if start != end || count == 0 || count > after {
            return Ok(false);
        }
        let first = after - count;
        if self.edits[first].place.start != start || self.edits[after - 1].place != edit.place {
            return Ok(false);
        }
        match self.edits.insert(first, edit) {
            Ok(()) => Ok(true),
            Err(_) => Err(AllocError),
        }
    }

    /// Puts an edit that takes nothing before the one that takes bytes from its place on. Returns whether there is one;
    /// if not, nothing has changed.
    ///
    /// # Errors
    ///
    /// Out of memory. Then nothing has changed.
    pub fn add_before(&mut self, edit: TextEdit) -> Result<bool, AllocError>
        ensures put { IfOk result (λ done. IsTrue done → IsPutBefore self.old (change_of edit) self.new) }
        ensures other { IfOk result (λ done. done ≡ false → self.new ≡ self.old) }
        ensures refused { OnErr result (self.new ≡ self.old) }
    {
        let Span { start, end } = edit.place;
        let after = self
            .edits
            .partition_point(|there| there.place.start <= start);
        if start != end || after == 0 {
            return Ok(false);
        }
        let next = self.edits[after - 1].place;
        if next.start != start || next.end <= start {
            return Ok(false);
        }
        match self.edits.insert(after - 1, edit) {
            Ok(()) => Ok(true),
            Err(_) => Err(AllocError),
        }
    }

    /// Puts an edit in the place of one that replaces the same bytes, some at least. Returns whether there is one; if
    /// not, nothing has changed.
    pub fn overwrite(&mut self, edit: TextEdit) -> bool
        ensures replaced { IsTrue result → IsReplaced self.old (change_of edit) self.new }
        ensures other { result ≡ false → self.new ≡ self.old }
    {
        let start = edit.place.start;
        let number = self
            .edits
            .partition_point(|earlier| earlier.place.start <= start);
        if number == 0 || start >= edit.place.end || self.edits[number - 1].place != edit.place {
            return false;
        }
        self.edits[number - 1] = edit;
        true
    }

    /// Puts an edit in the place of one like this, which replaces the same bytes. Returns whether there is one; if not,
    /// nothing has changed.
    pub fn exchange(&mut self, earlier: &TextEdit, edit: TextEdit) -> bool
        ensures exchanged { IsTrue result
            → HasInstead self.old (change_of earlier.now) (change_of edit) self.new }
        ensures other { result ≡ false → self.new ≡ self.old }
    {
        if earlier.place != edit.place || edit.place.start > edit.place.end {
            return false;
        }
        let Some(number) = self.number_of(earlier) else {
            return false;
        };
        self.edits[number] = edit;
        true
    }

    /// The number of an edit like this.
    fn number_of(&self, edit: &TextEdit) -> Option<usize>
        ensures { IfSome result (λ number. slice_get self.now number ≡ Some (change_of edit.now)) }
    {
        let Span { start, end } = edit.place;
        let first = self
            .edits
            .partition_point(|other| other.place.start < start);
        for number in first..self.edits.len() {
            let other = &self.edits[number];
            if other.place.start != start {
                return None;
            }
            if other.place.end == end && other.new.as_str() == edit.new.as_str() {
                return Some(number);
            }
        }
        None
    }

    /// The last of the edits that begin at this byte.
    pub fn beginning_at(&self, start: usize) -> Option<&TextEdit>
        ensures { IfSome result (λ edit. HasChange self.now (change_of edit.now)) }
    {
        let after = self.edits.partition_point(|edit| edit.place.start <= start);
        if after == 0 || self.edits[after - 1].place.start != start {
            return None;
        }
        Some(&self.edits[after - 1])
    }

    /// Whether one of the edits replaces the byte before this place.
    pub fn take_up_to(&self, place: usize) -> bool
        ensures { result ≡ list_any (takes_up_to place) self.now }
    {
        self.taking_up_to(place).is_some()
    }

    /// Whether a new line can come at this place: no edit takes the byte before it, but for one that takes a line in
    /// whose place it comes.
    pub fn allows_line_at(&self, text: &str, place: usize) -> bool
        requires { All (IsChangeIn text.now) self.now }
        ensures { IsTrue result → All (LetsCome text.now self.now place) self.now }
    {
        match self.taking_up_to(place) {
            Some(edit) => self.frees_place(text, edit),
            None => true,
        }
    }

    /// The edit that replaces the byte before this place. Only the last that begins before the place can: each earlier
    /// one ends where that begins, or before.
    fn taking_up_to(&self, place: usize) -> Option<&TextEdit>
        ensures one { IfSome result (λ edit. TakesAlone place self.now (change_of edit.now)) }
        ensures other { result ≡ None → All (λ c. takes_up_to place c ≡ false) self.now }
    {
        let after = self.edits.partition_point(|edit| edit.place.start < place);
        if after == 0 || self.edits[after - 1].place.end != place {
            return None;
        }
        Some(&self.edits[after - 1])
    }

    /// Whether an edit writes nothing, and the line before its place says something and stays as it is, and nothing
    /// comes after that line.
    fn frees_place(&self, text: &str, edit: &TextEdit) -> bool
        requires { edit.now.place.start ≤ length text.now }
        ensures { IsTrue result → LeavesPlace text.now self.now (change_of edit.now) }
    {
        if edit.new.len() > 0 {
            return false;
        }
        match said_line(text, edit.place.start) {
            Some(line) => self.spare(line),
            None => false,
        }
    }

    /// Whether no edit takes one of these bytes, or writes between them or right after them.
    fn spare(&self, bytes: Span) -> bool
        requires { bytes.start < bytes.end }
        ensures { IsTrue result → All (Leaves bytes) self.now }
    {
        for edit in self.edits.iter() {
            let Span { start, end } = edit.place;
            if start < bytes.end && bytes.start < end {
                return false;
            }
            if start == end && end == bytes.end {
                return false;
            }
        }
        true
    }

    /// Whether one of the edits frees this place for a new line: it takes the bytes before the place and writes none,
    /// and with the others made a line that says something is right before those bytes. It is not known where memory is
    /// refused. It copies the text before the place.
    pub fn free_place(&self, alloc: Global, text: &str, place: usize) -> bool
        requires { All (IsChangeIn text.now) self.now }
        ensures { IsTrue result → IsFreed text.now self.now place }
    {
        let after = self
            .edits
            .partition_point(|begun| begun.place.start < place);
        if after == 0 {
            return false;
        }
        let edit = &self.edits[after - 1];
        if edit.place.end != place || edit.new.len() > 0 {
            return false;
        }
        match self.text_before(alloc, text, after - 1) {
            Ok(before) => said_line(before.as_str(), before.len()).is_some(),
            Err(_) => false,
        }
    }

    /// The text with the edits before the one with this number, up to where that begins. The only error is out of
    /// memory.
    fn text_before(&self, alloc: Global, text: &str, number: usize) -> Result<String, AllocError>
        requires within { All (IsChangeIn text.now) self.now }
        requires few { number < length self.now }
        ensures { IfOk result (λ new. IsTextBefore text.now self.now number (string_bytes new)) }
    {
        let to = self.edits[number].place.start;
        let mut out = String::with_capacity(alloc, to)?;
        let mut done = 0;
        for edit in self.edits[..number].iter() {
            out.push_str(&text[done..edit.place.start])?;
            out.push_str(edit.new.as_str())?;
            done = edit.place.end;
        }
        out.push_str(&text[done..to])?;
        Ok(out)
    }

    /// The text after the edits, in one allocation or a few. The only error is out of memory.
    pub fn text_after(&self, alloc: Global, text: &str) -> Result<String, AllocError>
        requires { All (IsChangeIn text.now) self.now }
        ensures { IfOk result (λ new. string_bytes new ≡ text_with 0 text.now self.now) }
    {
        let mut out = String::with_capacity(alloc, text.len())?;
        let mut from = 0;
        for edit in self.edits.iter() {
            out.push_str(&text[from..edit.place.start])?;
            out.push_str(edit.new.as_str())?;
            from = edit.place.end;
        }
        out.push_str(&text[from..])?;
        Ok(out)
    }
}
