//! An item comes into an array: before one of its items, or after the last.
ghost use Rattle.std.specs.Prelude.{◌≡◌, ◌+◌, ◌≤◌, ◌++◌, IfSome, IsTrue, length, slice_get, string_bytes};
ghost use Rattle.std.specs.List.{insert_slice};
ghost use Rattle.keep_edit_plan.specs.OpenPlaces.{CanBeNested, extent, item_text, place_of_new, with_place};
ghost use Rattle.keep_edit_plan.specs.OpenValues.{PutsItemText};

use super::{EntryPlace, OpenValue};
use keep_rules::{Kind, ValueText};
use keep_syntax::STANDARD_DEPTH;
use keep_types::Profile;

/// What is written between two items.
const SEPARATOR: &str = ", ";

impl OpenValue {
    /// The value with another item, which gets this number, and is after the last if so many are there. None if the
    /// value is no array, if fewer items are there, if the item is none of TOML v1.0.0 or would be too deep, and where
    /// memory was refused.
    pub fn with_item(self, number: usize, item: &ValueText) -> Option<OpenValue>
        ensures { IfSome result (PutsItemText self number item.now) }
    {
        if !can_be_nested(item) {
            return None;
        }
        let OpenValue {
            text,
            places,
            keys,
            kind,
            depth,
        } = self;
        let Kind::Array = kind else {
            return None;
        };
        if number > places.len() {
            return None;
        }
        let depth = depth.max(item.depth() + 1);
        let at = place_in(&places, number)?;
        let text = with_item_at(text, at, &places, number, item.as_str())?;
        let places = with_place_of(places, number, item.as_str().len())?;
        Some(OpenValue {
            text,
            places,
            keys,
            kind,
            depth,
        })
    }
}

/// Whether the value can be in an array or an inline table of TOML v1.0.0.
pub(super) fn can_be_nested(item: &ValueText) -> bool
    ensures { IsTrue result → CanBeNested item.now }
{
    let Profile::Strict = item.profile() else {
        return false;
    };
    item.depth() < STANDARD_DEPTH
}

/// How many bytes the entries take, each with what is before it. None if that is no number of a machine word.
pub(super) fn bytes_of(places: &[EntryPlace]) -> Option<usize>
    ensures { IfSome result (λ bytes. bytes ≡ extent places.now) }
{
    let mut bytes = 0_usize;
    for place in places {
        bytes = bytes.checked_add(place.gap)?.checked_add(place.len)?;
    }
    Some(bytes)
}

/// Where an item comes in that gets this number, from the start of the text.
pub(super) fn place_in(places: &[EntryPlace], number: usize) -> Option<usize>
    requires { number ≤ length places.now }
    ensures { IfSome result (λ at. at ≡ 1 + place_of_new number places.now) }
{
    let before = bytes_of(&places[..number])?;
    let gap = match places.get(number) {
        Some(next) => next.gap,
        None => 0,
    };
    before.checked_add(gap)?.checked_add(1)
}

/// The place of the entry with this number, if there is one.
pub(super) fn place_at(places: &[EntryPlace], number: usize) -> Option<EntryPlace>
    ensures { result ≡ slice_get places.now number }
{
    let place = places.get(number)?;
    Some(*place)
}

/// The places with one more, of an item of this length.
pub(super) fn with_place_of(
    mut places: Vec<EntryPlace>,
    number: usize,
    len: usize,
) -> Option<Vec<EntryPlace>>
    requires { number ≤ length places.items }
    ensures { IfSome result
        (λ now. now.items ≡ with_place number len places.items (slice_get places.items number)) }
{
    let separator = SEPARATOR.len();
    let Some(next) = place_at(&places, number) else {
        let gap = if number == 0 { 0 } else { separator };
        places.push(EntryPlace { gap, len }).ok()?;
        return Some(places);
    };
    places[number] = EntryPlace {
        gap: separator,
        len: next.len,
    };
    let new = EntryPlace { gap: next.gap, len };
    places.insert(number, new).ok()?;
    Some(places)
}

/// The text with more in it. None where a character would be cut, or memory was refused.
fn with_text(mut text: String, at: usize, new: &str) -> Option<String>
    ensures { IfSome result (λ now. (at ≤ length (string_bytes text))
        × (string_bytes now ≡ insert_slice (string_bytes text) at new.now)) }
{
    if !text.is_char_boundary(at) {
        return None;
    }
    text.insert_str(at, new).ok()?;
    Some(text)
}

/// The text with two more in it, one after the other.
fn with_texts(text: String, at: usize, first: &str, second: &str) -> Option<String>
    ensures { IfSome result
        (λ now. string_bytes now ≡ insert_slice (string_bytes text) at (first.now ++ second.now)) }
{
    let text = with_text(text, at, second)?;
    with_text(text, at, first)
}

/// The text with an item in it, and the comma between it and another item.
pub(super) fn with_item_at(
    text: String,
    at: usize,
    places: &[EntryPlace],
    number: usize,
    item: &str,
) -> Option<String>
    ensures { IfSome result (λ now. string_bytes now
        ≡ insert_slice (string_bytes text) at (item_text item.now places.now (slice_get places.now number))) }
{
    if place_at(places, number).is_some() {
        return with_texts(text, at, item, SEPARATOR);
    }
    if places.is_empty() {
        return with_text(text, at, item);
    }
    with_texts(text, at, SEPARATOR, item)
}
