//! An entry goes from an array or an inline table, with a comma beside it.
ghost use Rattle.std.specs.Prelude.{◌≡◌, ◌<◌, ◌++◌, IfSome, IsTrue, drop, length, slice_get, string_bytes, take};
ghost use Rattle.keep_path.specs.Path.{index, key};
ghost use Rattle.keep_path.specs.Step.{part_of};
ghost use Rattle.keep_edit_plan.specs.OpenValues.{TakesEntryText};
ghost use Rattle.keep_edit_plan.specs.OpenPlaces.{extent};
ghost use Rattle.keep_edit_plan.specs.TakenEntries.{HasNoComma, IsCommaRun, IsCutOf, IsCutWithComma, IsLastCut};
ghost use Rattle.keep_edit_plan.specs.TakenEntries.{IsLastGap, places_left};

use super::keys::number_of_key;
use super::putting::{bytes_of, place_at};
use super::{EntryPlace, OpenValue};
use crate::remove::past_space;
use keep_rules::{Kind, Step};
use keep_syntax::Span;

impl OpenValue {
    /// The value without an entry. None if there is none at the step, if an entry is an array or an inline table, if
    /// something is between the entry and the comma that goes with it, if the last entry, without a comma of its own,
    /// comes after a comment or before a comma in one, and where memory was refused.
    pub fn without_entry(self, step: &Step) -> Option<OpenValue>
        ensures { IfSome result (TakesEntryText self (part_of step.now)) }
    {
        match step {
            Step::Index(number) => self.without_item(*number),
            Step::Key(name) => self.without_key(name.as_str()),
        }
    }

    /// The array without an item.
    fn without_item(self, number: usize) -> Option<OpenValue>
        ensures { IfSome result (TakesEntryText self (index number)) }
    {
        let OpenValue {
            text,
            places,
            keys,
            kind,
            depth,
        } = self;
        let Kind::Array = kind else {
            return None;
        };
        if depth != 1 || number >= places.len() {
            return None;
        }
        let cut = cut_of(text.as_str(), &places, number)?;
        let text = without_bytes(text, cut)?;
        let places = without_place(places, number, cut)?;
        Some(OpenValue {
            text,
            places,
            keys,
            kind,
            depth,
        })
    }

    /// The inline table without the keyval whose key is this one alone.
    fn without_key(self, name: &str) -> Option<OpenValue>
        ensures { IfSome result (TakesEntryText self (key name.now)) }
    {
        let OpenValue {
            text,
            places,
            keys,
            kind,
            depth,
        } = self;
        let Kind::Inline = kind else {
            return None;
        };
        let alloc = *text.allocator();
        let number = number_of_key(alloc, text.as_str(), &places, name)?;
        if depth != 1 || number >= places.len() {
            return None;
        }
        let cut = cut_of(text.as_str(), &places, number)?;
        let text = without_bytes(text, cut)?;
        let places = without_place(places, number, cut)?;
        Some(OpenValue {
            text,
            places,
            keys,
            kind,
            depth,
        })
    }
}

/// What goes with an entry.
fn cut_of(text: &str, places: &[EntryPlace], number: usize) -> Option<Span>
    ensures { IfSome result (λ cut. IsCutOf text.now places.now number cut (places_left number cut places.now)) }
{
    match cut_with_comma(text, places, number) {
        Some(cut) => Some(cut),
        None => cut_last(text, places, number),
    }
}

/// An entry with the comma that comes directly after it, and the white space after that.
fn cut_with_comma(text: &str, places: &[EntryPlace], number: usize) -> Option<Span>
    ensures { IfSome result (λ cut. IsCutWithComma text.now places.now number cut (places_left number cut places.now)) }
{
    let here = place_at(places, number)?;
    let start = bytes_before(places, number)?
        .checked_add(here.gap)?
        .checked_add(1)?;
    let end = start.checked_add(here.len)?;
    let run = comma_run(text.as_bytes(), end)?;
    let end = end.checked_add(run)?;
    Some(Span { start, end })
}

/// The last entry with the comma before it and what comes between them, if another entry is before it. None if a comma
/// may come after it, or a comment is between.
fn cut_last(text: &str, places: &[EntryPlace], number: usize) -> Option<Span>
    ensures { IfSome result (λ cut. IsLastCut text.now places.now number cut (places_left number cut places.now)) }
{
    let here = place_at(places, number)?;
    if number.checked_add(1)? != places.len() {
        return None;
    }
    let before = bytes_before(places, number)?.checked_add(1)?;
    let start = before.checked_add(here.gap)?;
    let end = start.checked_add(here.len)?;
    let bytes = text.as_bytes();
    if number == 0 && has_no_comma(bytes, end) {
        return Some(Span { start, end });
    }
    if number == 0 || !is_last_gap(bytes, before, here) {
        return None;
    }
    Some(Span { start: before, end })
}

/// How many bytes the entries before one take.
fn bytes_before(places: &[EntryPlace], number: usize) -> Option<usize>
    ensures { IfSome result (λ bytes. bytes ≡ extent (take number places.now)) }
{
    if number > places.len() {
        return None;
    }
    bytes_of(&places[..number])
}

/// How many bytes a comma and the white space after it are, if a comma is there.
fn comma_run(bytes: &[u8], at: usize) -> Option<usize>
    ensures { IfSome result (λ run. IsCommaRun run (drop at bytes.now)) }
{
    if at >= bytes.len() || bytes[at] != b',' {
        return None;
    }
    Some(past_space(bytes, at + 1) - at)
}

/// Whether no comma comes from a place on.
fn has_no_comma(bytes: &[u8], at: usize) -> bool
    ensures { IsTrue result → HasNoComma (drop at bytes.now) }
{
    at < bytes.len() && !bytes[at..].contains(&b',')
}

/// Whether a comma is there, no comment comes in the gap, and no comma after the entry.
fn is_last_gap(bytes: &[u8], at: usize, here: EntryPlace) -> bool
    ensures { IsTrue result → IsLastGap here.gap here.len (drop at bytes.now) }
{
    if at >= bytes.len() || bytes[at] != b',' {
        return false;
    }
    let rest = &bytes[at..];
    if here.gap > rest.len() || rest[..here.gap].contains(&b'#') {
        return false;
    }
    match here.gap.checked_add(here.len) {
        Some(end) => has_no_comma(rest, end),
        None => false,
    }
}

/// The text without some bytes. None where a character would be cut, or memory was refused.
fn without_bytes(mut text: String, cut: Span) -> Option<String>
    ensures { IfSome result
        (λ now. string_bytes now ≡ take cut.start (string_bytes text) ++ drop cut.end (string_bytes text)) }
{
    if cut.start > cut.end || cut.end > text.len() {
        return None;
    }
    if !text.is_char_boundary(cut.start) || !text.is_char_boundary(cut.end) {
        return None;
    }
    text.replace_range(cut.start..cut.end, "").ok()?;
    Some(text)
}

/// The places without one, with which so many bytes go. What is left of the gap after it comes before the next.
fn without_place(mut places: Vec<EntryPlace>, number: usize, cut: Span) -> Option<Vec<EntryPlace>>
    requires { number < length places.items }
    ensures { IfSome result (λ left. left.items ≡ places_left number cut places.items) }
{
    let size = cut.end.checked_sub(cut.start)?;
    let gone = places.remove(number);
    if number >= places.len() {
        return Some(places);
    }
    let next = places[number];
    let bytes = gone.gap.checked_add(gone.len)?;
    let gap = bytes.checked_add(next.gap)?.checked_sub(size)?;
    places[number] = EntryPlace { gap, len: next.len };
    Some(places)
}
