//! Arrays and inline tables whose entries are known by their places: entries come and go, and no text is read.
ghost use Rattle.std.specs.Prelude.{◌≡◌, IfOk, IfSome, IsTrue, drop};
ghost use Rattle.keep_syntax.specs.Contract.{value_values_of};
ghost use Rattle.keep_edit_plan.specs.OpenPlaces.{IsBracket, places_of};

mod key_numbers;
mod keys;
mod keyvals;
mod putting;
mod taking;

use keep_rules::{Index, Kind, ValueText};
use keep_syntax::{Limits, STANDARD_DEPTH, ValueSyntax};
use keep_types::{Leaf, Profile, kind_of};
use key_numbers::KeyNumbers;
use std::alloc::{AllocError, Global};
use std::marker::Model;

/// Where an entry is, in bytes.
#[derive(Clone, Copy, Debug, PartialEq, Eq)]
pub(crate) struct EntryPlace {
    /// From the end of the value before it, or from the opening bracket.
    pub(crate) gap: usize,
    /// Up to the end of its value.
    pub(crate) len: usize,
}

/// The text of an array or an inline table of TOML v1.0.0 that obeys the rules of definition, and where its entries
/// are. The numbers of its keys are known from the first keyval on that comes in, if they are few.
#[derive(Debug, Drop)]
pub struct OpenValue {
    pub(crate) text: String,
    pub(crate) places: Vec<EntryPlace>,
    pub(crate) keys: KeyNumbers,
    pub(crate) kind: Kind,
    pub(crate) depth: u16,
}

impl Model for OpenValue {
    ghost use Rattle.std.specs.Prelude.{ℕ, List, string_bytes};
    ghost use Rattle.keep_edit_plan.specs.OpenValues.{HoldsOpen};

    ghost Value = { List ℕ };

    ghost view = { λ v. string_bytes v.text };

    ghost invariant = { λ v. HoldsOpen (string_bytes v.text) v.places.items v.keys v.kind v.depth };
}

/// Whether a value that begins with this leaf is an array or an inline table.
fn is_bracket(leaf: Leaf) -> bool
    ensures { IsTrue result → IsBracket leaf }
{
    matches!(leaf, Leaf::ArrayOpen | Leaf::InlineOpen)
}

/// Where the values directly inside one are. None where memory was refused.
fn places_in(alloc: Global, syntax: &ValueSyntax) -> Option<Vec<EntryPlace>>
    ensures { IfSome result (λ places. places.items ≡ places_of 1 (drop 1 (value_values_of syntax.now))) }
{
    let mut places = Vec::new(alloc);
    let mut end = 1;
    for number in 1..syntax.value_count() {
        let value = syntax.value(number);
        if value.depth == 1 {
            let gap = value.whole.start.checked_sub(end)?;
            let len = value.span.end.checked_sub(value.whole.start)?;
            places.push(EntryPlace { gap, len }).ok()?;
            end = value.span.end;
        }
    }
    Some(places)
}

impl OpenValue {
    /// Reads one value of TOML v1.0.0 and nothing else. None if the text is none, if it is a scalar, and where memory
    /// was refused.
    pub fn read(alloc: Global, text: &str) -> Option<OpenValue>
        ensures { IfSome result (λ value. value ≡ text.now) }
    {
        let limits = Limits {
            depth: STANDARD_DEPTH,
            profile: Profile::Strict,
        };
        let Ok(syntax) = ValueSyntax::read(alloc, text, limits) else {
            return None;
        };
        let leaf = syntax.value(0).leaf;
        if !is_bracket(leaf) {
            return None;
        }
        let Ok(()) = Index::check_value(alloc, text, &syntax) else {
            return None;
        };
        let places = places_in(alloc, &syntax)?;
        let Ok(text) = String::from_str(alloc, text) else {
            return None;
        };
        Some(OpenValue {
            text,
            places,
            keys: KeyNumbers::unknown(),
            kind: kind_of(leaf),
            depth: syntax.depth(),
        })
    }

    /// The text.
    pub fn as_str(&self) -> &str
        ensures { result.now ≡ self.now }
    {
        self.text.as_str()
    }

    /// The value with this text. The only error is out of memory.
    pub fn value(&self, alloc: Global) -> Result<ValueText, AllocError>
        ensures { IfOk result (λ value. value ≡ self.now) }
    {
        let text = String::from_str(alloc, self.text.as_str())?;
        Ok(ValueText::known(text, self.kind, self.depth))
    }
}
