//! The keys of an inline table by numbers that stand for them, by which a key is known not to be there.
ghost use Rattle.std.specs.Prelude.{◌≡◌, ◌⊎◌, ℕ, IfSome, IsTrue, List, drop};
ghost use Rattle.keep_edit_plan.specs.KeyNumbers.{HasKey, HasNumber, number_of};
ghost use Rattle.keep_edit_plan.specs.OpenKeyvals.{KeyIs, KeysAre};

use super::EntryPlace;
use super::keys::key_at;
use std::alloc::Global;
use std::collections::HashSet;
use std::hash::{FoldHasher, Hasher};

/// How many numbers there may be, so that keys made to collide take little time.
const MOST: usize = 2_000;

/// Numbers that stand for the first parts of an inline table's keys, if they are known. A key with another number is
/// another key. There may be more than the table has keys, of entries that went.
#[derive(Debug, Drop)]
pub(crate) struct KeyNumbers {
    known: Option<HashSet<u64>>,
}

/// The number that stands for a key.
fn number_of(key: &str) -> u64
    ensures { result ≡ number_of key.now }
{
    let mut hasher = FoldHasher::default();
    hasher.write(key.as_bytes());
    hasher.finish()
}

/// The number of the key part at a byte. None where there is none, and where memory was refused.
fn number_at(alloc: Global, text: &str, at: usize) -> Option<u64>
    ensures { IfSome result (λ number. KeyIs (λ key. number ≡ number_of key) (drop at text.now)) }
{
    match key_at(alloc, text, at) {
        Some(key) => Some(number_of(key.as_str())),
        None => None,
    }
}

/// The numbers of the key parts where the entries begin. None where there are none, and where memory was refused.
fn numbers_in(alloc: Global, text: &str, places: &[EntryPlace]) -> Option<HashSet<u64>>
    ensures { IfSome result (λ numbers. KeysAre (HasNumber numbers) text.now 1 places.now) }
{
    let mut numbers = HashSet::with_capacity(alloc, places.len()).ok()?;
    let mut end = 1_usize;
    for place in places {
        let start = end.checked_add(place.gap)?;
        let number = number_at(alloc, text, start)?;
        let Ok(_) = numbers.insert(number) else {
            return None;
        };
        end = start.checked_add(place.len)?;
    }
    Some(numbers)
}

impl KeyNumbers {
    /// Of keys that were not read.
    pub(super) fn unknown() -> KeyNumbers
        ensures { (key : List ℕ) → HasKey result key }
    {
        KeyNumbers { known: None }
    }

    /// These, or if they are not known those of the entries at these places, unless there are many. None where memory
    /// was refused.
    pub(super) fn or_read(
        self,
        alloc: Global,
        text: &str,
        places: &[EntryPlace],
    ) -> Option<KeyNumbers>
        ensures { IfSome result (λ keys. keys ≡ self ⊎ KeysAre (HasKey keys) text.now 1 places.now) }
    {
        if self.known.is_some() || places.len() > MOST {
            return Some(self);
        }
        let numbers = numbers_in(alloc, text, places)?;
        Some(KeyNumbers {
            known: Some(numbers),
        })
    }

    /// These with that of one more key. If there would be too many, they are not known any more. None where memory was
    /// refused.
    pub(super) fn with(self, key: &str) -> Option<KeyNumbers>
        ensures added { IfSome result (λ keys. HasKey keys key.now) }
        ensures others { IfSome result (λ keys. (other : List ℕ) → HasKey self other → HasKey keys other) }
    {
        let KeyNumbers { known } = self;
        let Some(mut numbers) = known else {
            return Some(KeyNumbers::unknown());
        };
        if numbers.len() >= MOST {
            return Some(KeyNumbers::unknown());
        }
        let Ok(_) = numbers.insert(number_of(key)) else {
            return None;
        };
        Some(KeyNumbers {
            known: Some(numbers),
        })
    }

    /// Whether a key is known to be none of these.
    pub(super) fn lack(&self, key: &str) -> bool
        ensures { IsTrue result → ¬ HasKey self.now key.now }
    {
        match &self.known {
            Some(numbers) => !numbers.contains(&number_of(key)),
            None => false,
        }
    }
}
