//! A keyval comes into an inline table, after the last.
ghost use Rattle.std.specs.Prelude.{◌≡◌, ◌⊎◌, IfSome, IsTrue, string_bytes};
ghost use Rattle.keep_edit_plan.specs.KeyNumbers.{HasKey};
ghost use Rattle.keep_edit_plan.specs.OpenKeyvals.{AreOtherKeys, keyval_text};
ghost use Rattle.keep_edit_plan.specs.OpenValues.{PutsKeyvalText};

use super::key_numbers::KeyNumbers;
use super::keys::are_other_keys;
use super::putting::{can_be_nested, place_in, with_item_at, with_place_of};
use super::{EntryPlace, OpenValue};
use keep_rules::{Kind, ValueText};
use keep_token::push_key;
use std::alloc::Global;

/// Room for what a keyval has beside its key and its value, in bytes: ` = `, and the quotation marks of a key.
const KEYVAL_ROOM: usize = 5;

impl OpenValue {
    /// The value with a keyval more, after the last. None if the value is no inline table, if a key there begins with
    /// this one, if the keyval's value is none of TOML v1.0.0 or would be too deep, and where memory was refused.
    pub fn with_keyval(self, name: &str, value: &ValueText) -> Option<OpenValue>
        ensures { IfSome result (PutsKeyvalText self name.now value.now) }
    {
        if !can_be_nested(value) {
            return None;
        }
        let OpenValue {
            text,
            places,
            keys,
            kind,
            depth,
        } = self;
        let Kind::Inline = kind else {
            return None;
        };
        let alloc = *text.allocator();
        let keys = keys.or_read(alloc, text.as_str(), &places)?;
        if !is_new_key(alloc, &keys, text.as_str(), &places, name) {
            return None;
        }
        let keys = keys.with(name)?;
        let depth = depth.max(value.depth() + 1);
        let keyval = keyval_text(alloc, name, value.as_str())?;
        let number = places.len();
        let at = place_in(&places, number)?;
        let text = with_item_at(text, at, &places, number, keyval.as_str())?;
        let places = with_place_of(places, number, keyval.as_str().len())?;
        Some(OpenValue {
            text,
            places,
            keys,
            kind,
            depth,
        })
    }
}

/// Whether no entry's key begins with this one. False where memory was refused, too.
fn is_new_key(
    alloc: Global,
    keys: &KeyNumbers,
    text: &str,
    places: &[EntryPlace],
    name: &str,
) -> bool
    ensures { IsTrue result → (¬ HasKey keys.now name.now) ⊎ AreOtherKeys name.now text.now 1 places.now }
{
    keys.lack(name) || are_other_keys(alloc, text, places, name)
}

/// `KEY = VALUE`, with a bare key if it can be one. None where memory was refused.
fn keyval_text(alloc: Global, name: &str, value: &str) -> Option<String>
    ensures { IfSome result (λ text. string_bytes text ≡ keyval_text name.now value.now) }
{
    let room = name.len().saturating_add(value.len());
    let mut text = String::with_capacity(alloc, room.saturating_add(KEYVAL_ROOM)).ok()?;
    push_key(&mut text, name).ok()?;
    text.push_str(" = ").ok()?;
    text.push_str(value).ok()?;
    Some(text)
}
