//! Which entry of an inline table has a key, by the key parts that stand where the entries begin.
ghost use Rattle.std.specs.Prelude.{◌≡◌, IfSome, IsTrue, drop, slice_index};
ghost use Rattle.keep_meaning.specs.KeyText.{text_of_key};
ghost use Rattle.keep_edit_spec.specs.Removal.{past_space};
ghost use Rattle.keep_edit_plan.specs.OpenKeyvals.{AreOtherKeys, IsKeyedAt, IsOtherKey, IsOwnKey, KeyIs};

use super::EntryPlace;
use crate::remove::past_space;
use keep_meaning::key_text::{KeyText, key_text};
use keep_syntax::{KeyPart, Span};
use keep_token::scan_key;
use keep_types::Profile;
use std::alloc::Global;

/// Whether no entry's key begins with this one. False where memory was refused, too.
pub(super) fn are_other_keys(alloc: Global, text: &str, places: &[EntryPlace], name: &str) -> bool
    ensures { IsTrue result → AreOtherKeys name.now text.now 1 places.now }
{
    let mut end = 1_usize;
    for place in places {
        let Some(start) = end.checked_add(place.gap) else {
            return false;
        };
        let Some(next) = start.checked_add(place.len) else {
            return false;
        };
        if !is_other_key(alloc, text, start, name) {
            return false;
        }
        end = next;
    }
    true
}

/// What the key part at a byte means. None where there is none, and where memory was refused.
pub(super) fn key_at<'a>(alloc: Global, text: &'a str, at: usize) -> Option<KeyText<'a>>
    ensures { IfSome result (λ key. KeyIs (λ means. text_of_key key ≡ means) (drop at text.now)) }
{
    if !text.is_char_boundary(at) {
        return None;
    }
    let Ok((leaf, end)) = scan_key(text, at, Profile::Wide) else {
        return None;
    };
    let span = Span { start: at, end };
    match key_text(alloc, text, KeyPart { leaf, span }) {
        Ok(key) => Some(key),
        Err(_) => None,
    }
}

/// Whether the key part at a byte means something else.
fn is_other_key(alloc: Global, text: &str, at: usize, name: &str) -> bool
    ensures { IsTrue result → IsOtherKey name.now (drop at text.now) }
{
    match key_at(alloc, text, at) {
        Some(key) => key.as_str() != name,
        None => false,
    }
}

/// The number of the entry whose key is this one alone. None if there is none, and where memory was refused.
pub(super) fn number_of_key(
    alloc: Global,
    text: &str,
    places: &[EntryPlace],
    name: &str,
) -> Option<usize>
    ensures { IfSome result (λ number. IsKeyedAt name.now text.now 1 number places.now) }
{
    let mut end = 1_usize;
    let mut number = 0_usize;
    for place in places {
        let start = end.checked_add(place.gap)?;
        if !is_other_key(alloc, text, start, name) {
            return if is_own_key(alloc, text, start, name) {
                Some(number)
            } else {
                None
            };
        }
        end = start.checked_add(place.len)?;
        number += 1;
    }
    None
}

/// Whether the key part at a byte means this, and `=` comes after it. False where memory was refused, too.
fn is_own_key(alloc: Global, text: &str, at: usize, name: &str) -> bool
    ensures { IsTrue result → IsOwnKey name.now (drop at text.now) }
{
    if !text.is_char_boundary(at) {
        return false;
    }
    let Ok((leaf, end)) = scan_key(text, at, Profile::Wide) else {
        return false;
    };
    let span = Span { start: at, end };
    if !is_equals_after(text.as_bytes(), end) {
        return false;
    }
    match key_text(alloc, text, KeyPart { leaf, span }) {
        Ok(key) => key.as_str() == name,
        Err(_) => false,
    }
}

/// Whether `=` comes at a byte, or after the white space there.
fn is_equals_after(bytes: &[u8], at: usize) -> bool
    ensures { IsTrue result → slice_index bytes.now (past_space bytes.now at) ≡ 0x3D }
{
    if at > bytes.len() {
        return false;
    }
    let end = past_space(bytes, at);
    end < bytes.len() && bytes[end] == b'='
}
