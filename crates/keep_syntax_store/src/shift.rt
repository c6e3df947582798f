//! Packed records whose numbers are moved in place.
ghost use Rattle.std.specs.Prelude.{◌≡◌, ℕ, ◌≤◌, ◌++◌, length, take, drop, map, vec_len, vec_capacity};
ghost use Rattle.std.specs.Bool.{Decides};
ghost use Rattle.std.specs.List.{AllByRecursion};
ghost use Rattle.keep_syntax_store.specs.Exchanging.{HasRoom, Exchanged};
ghost use Rattle.keep_syntax_store.specs.Shifting as spec;
ghost use Rattle.keep_syntax_store.specs.Shifting.{FitsMoved, shifted_to, last_u32, last_usize};

use crate::exchange::exchange;
use crate::moves::Counts;
use crate::widths::{LONG, SMALL};

/// What is added to numbers to move them from after one count to after another. A sum past the last number of a word
/// goes on at 0, so numbers can be moved back too. All are words of 32 bits, and that of places is one of 64 bits too.
#[derive(Clone, Copy)]
pub struct Shifts {
    pub at: u32,
    pub at_usize: usize,
    pub statements: u32,
    pub keys: u32,
    pub values: u32,
}

/// What is added to a number after `old` to move it to after `new`, in a word of 32 bits.
#[inline(always)]
fn step_u32(old: usize, new: usize) -> u32
    ensures { result ≡ spec.step_u32 old new }
{
    (new.wrapping_sub(old) % (1 << 32)) as u32
}

/// What is added to numbers after one count to move them to after another.
#[inline(always)]
fn shifts_between(old: &Counts, new: &Counts) -> Shifts
    ensures { result ≡ spec.shifts_between old.now new.now }
{
    Shifts {
        at: step_u32(old.at, new.at),
        at_usize: new.at.wrapping_sub(old.at),
        statements: step_u32(old.statements, new.statements),
        keys: step_u32(old.keys, new.keys),
        values: step_u32(old.values, new.values),
    }
}

/// What has numbers and places that are moved from after one count to after another.
pub trait Shift: Copy {
    ghost use Rattle.keep_syntax_store.specs.declared.moves.Counts.{Counts};

    ghost shifted: { Counts → Counts → Self → Self };

    ghost CanShift: { Counts → Counts → Self → Type 0 };

    /// Moves its numbers, where they fit.
    fn shift(&mut self, by: &Shifts)
        ensures { (old new : Counts) → by.now ≡ spec.shifts_between old new → CanShift old new self.old
            → self.new ≡ shifted old new self.old };

    /// Whether they fit where they are moved, and can be moved back.
    fn can_shift(self, old: &Counts, new: &Counts) -> bool
        ensures { Decides result (CanShift old.now new.now self) };
}

/// Whether all from a number on can be moved.
pub fn all_can_shift<T: Shift>(items: &[T], from: usize, old: &Counts, new: &Counts) -> bool
    ensures { Decides result (AllByRecursion (T.CanShift old.now new.now) (drop from items.now)) }
{
    'items: for number in from..items.len() {
        if !items[number].can_shift(old, new) {
            return false;
        }
    }
    true
}

/// Moves the numbers of all elements of a slice from a number on. A function of its own, since the compiler then knows
/// how often the loop runs, and takes several short elements at a time.
#[inline(never)]
fn shift_rest<T: Shift>(items: &mut [T], from: usize, old: &Counts, new: &Counts)
    requires within { from ≤ length items.old }
    requires can { AllByRecursion (T.CanShift old.now new.now) (drop from items.old) }
    ensures items { items.new ≡ take from items.old ++ map (T.shifted old.now new.now) (drop from items.old) }
    ensures len { length items.new ≡ length items.old }
{
    let by = shifts_between(old, new);
    'items: for number in from..items.len() {
        items[number].shift(&by);
    }
}

/// Moves the numbers of all from a number on, where they fit.
pub fn shift_from<T: Shift>(items: &mut Vec<T>, from: usize, old: &Counts, new: &Counts)
    requires within { from ≤ vec_len items.old }
    requires can { AllByRecursion (T.CanShift old.now new.now) (drop from items.old.items) }
    ensures items { items.new.items
        ≡ take from items.old.items ++ map (T.shifted old.now new.now) (drop from items.old.items) }
    ensures len { vec_len items.new ≡ vec_len items.old }
    ensures capacity { vec_capacity items.new ≡ vec_capacity items.old }
{
    shift_rest(items.as_mut_slice(), from, old, new);
}

/// The run `from..to` and another change places, and the numbers after it are moved. It takes no memory.
pub fn exchange_run<T: Shift>(
    items: &mut Vec<T>,
    from: usize,
    to: usize,
    run: &mut Vec<T>,
    old: &Counts,
    new: &Counts,
)
    requires room { HasRoom from to items.old run.old }
    requires can { AllByRecursion (T.CanShift old.now new.now) (drop to items.old.items) }
    ensures { Exchanged (T.shifted old.now new.now) from to items.old run.old items.new run.new }
{
    let end = from + run.len();
    exchange(items, from, to, run);
    shift_from(items, end, old, new);
}

/// Whether it fits, and comes after `old`.
pub fn fits_u32(number: u32, old: usize, new: usize) -> bool
    ensures { Decides result (FitsMoved last_u32 old new number) }
{
    let number = number as usize;
    old <= number && shifted_usize(number, old, new) <= u32::MAX as usize
}

/// What has numbers of 32 bits that grow as more comes before.
pub trait Grow: Copy {
    ghost use Rattle.std.specs.Prelude.{◌↔◌};

    ghost IsSmallFrom: { ℕ → Self → Type 0 };

    /// Whether its numbers have 31 bits, and it is stored with no place before this one.
    fn is_small_from(self, at: usize) -> bool
        ensures { Decides result (IsSmallFrom at self) };

    /// One that is small exactly if both are.
    fn joined(self, other: Self) -> Self
        ensures { (at : ℕ) → IsSmallFrom at result ↔ (IsSmallFrom at self × IsSmallFrom at other) };
}

/// Whether all from a number on are small, and stored with no place before this one. All are joined into one, which is
/// tested once: nearly always they are small, and a loop that does not stop is run over several elements at a time.
#[inline(never)]
pub fn all_are_small_from<T: Grow>(items: &[T], from: usize, at: usize) -> bool
    ensures { Decides result (AllByRecursion (T.IsSmallFrom at) (drop from items.now)) }
{
    if items.len() <= from {
        return true;
    }
    let mut all = items[from];
    'items: for number in from + 1..items.len() {
        all = all.joined(items[number]);
    }
    all.is_small_from(at)
}

/// Whether a text of `len` bytes is shorter than 4 GiB, also once what is after a place is moved to after another.
pub fn is_short(len: usize, old: usize, new: usize) -> bool
    ensures { Decides result (spec.IsShort len old new) }
{
    len <= LONG && shifted_usize(len, old, new) <= LONG
}

/// Whether numbers of 31 bits have 32 at the most once they are moved from after one count to after another.
pub fn grow_little(old: &Counts, new: &Counts) -> bool
    ensures { Decides result (spec.GrowLittle old.now new.now) }
{
    let most = SMALL as usize;
    new.statements.saturating_sub(old.statements) <= most
        && new.keys.saturating_sub(old.keys) <= most
        && new.values.saturating_sub(old.values) <= most
}

/// A number after `old`, moved to after `new`, or the greatest number where it does not fit.
fn shifted_usize(number: usize, old: usize, new: usize) -> usize
    ensures { result ≡ shifted_to last_usize old new number }
{
    number.saturating_sub(old).saturating_add(new)
}

/// Whether it fits, and comes after `old`.
pub fn fits_usize(number: usize, old: usize, new: usize) -> bool
    ensures { Decides result (FitsMoved last_usize old new number) }
{
    old <= number && number - old <= usize::MAX - new
}
