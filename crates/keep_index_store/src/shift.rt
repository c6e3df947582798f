//! How numbers are moved where the value of a document gives place to another.
ghost use Rattle.std.specs.Prelude.{◌≡◌, ℕ, ◌+◌, ◌-◌, ◌<◌, ◌^◌, min, true};
ghost use Rattle.keep_index_store.specs.declared.facts.NodeFacts.{NodeFacts};
ghost use Rattle.keep_index_store.specs.Below.{shifted_by, shifted_facts, value_shift};
ghost use Rattle.keep_index_store.specs.Dots.{IsLowering};
ghost use Rattle.keep_index_store.specs.Shifting.{CanShift, first_moved, first_number};

use crate::facts::{NodeFacts, OriginKind};
use std::marker::Model;

/// How numbers are moved, of which there were `old` in all and now are `new`: those before `from` stay as they are.
#[derive(Clone, Copy)]
pub struct Shift {
    pub from: usize,
    pub old: usize,
    pub new: usize,
}

/// How the numbers in the facts about nodes are moved: those of values, and those of key parts.
#[derive(Clone, Copy)]
pub struct NumberShifts {
    pub values: Shift,
    pub keys: Shift,
}

/// How many values and key parts a document has.
#[derive(Clone, Copy)]
pub struct Totals {
    pub values: usize,
    pub keys: usize,
}

impl Shift {
    /// What a number is once it is moved, or the largest there is where that is larger.
    #[inline(always)]
    pub(crate) fn apply(self, number: usize) -> usize
        ensures { result ≡ min (shifted_by self number) (2 ^ 64 - 1) }
    {
        if number < self.from {
            number
        } else if self.old <= self.new {
            number.saturating_add(self.new - self.old)
        } else {
            number.saturating_sub(self.old - self.new)
        }
    }

    /// The first number that is moved, or the largest there is where as many come as go: then none is.
    #[inline(always)]
    pub(crate) fn first(self) -> usize
        ensures { result ≡ first_moved self }
    {
        if self.old == self.new {
            usize::MAX
        } else {
            self.from
        }
    }

    /// What a number from the first on is once it is moved, if it has 32 bits at most then.
    #[inline(always)]
    pub(crate) fn moved(self, number: u32) -> u32
        requires { (number + self.new) - self.old < 2 ^ 32 }
        ensures { result ≡ (number + self.new) - self.old }
    {
        let grown = self.new.saturating_sub(self.old);
        let gone = self.old.saturating_sub(self.new);
        (number as usize + grown).saturating_sub(gone) as u32
    }

    /// Each number less than this has 32 bits at most once it is moved.
    #[inline(always)]
    pub(crate) fn limit(self) -> u32
        ensures { (number : ℕ) → number < result → shifted_by self number < 2 ^ 32 }
    {
        let grown = self.new.saturating_sub(self.old);
        (u32::MAX as usize).saturating_sub(grown) as u32
    }
}

impl NumberShifts {
    /// Whether there are as many numbers as before: then each stays as it is.
    #[inline(always)]
    pub(crate) fn moves_nothing(self) -> bool
        ensures { result ≡ true → (facts : NodeFacts) → shifted_facts self facts ≡ facts }
    {
        self.values.old == self.values.new && self.keys.old == self.keys.new
    }

    /// How the number that a place names is moved, if it is that of a value.
    #[inline(always)]
    pub(crate) fn value_shift(self, origin: OriginKind) -> Option<Shift>
        ensures { result ≡ value_shift self origin }
    {
        match origin {
            OriginKind::Value | OriginKind::Dotted => Some(self.values),
            OriginKind::Root
            | OriginKind::Header
            | OriginKind::Element
            | OriginKind::Through
            | OriginKind::Tables => None,
        }
    }
}

/// How numbers are moved, and for each kind of place the first number there that is moved, in the order of the kinds:
/// so that what a node's place is takes no test where the numbers of all nodes are moved.
#[derive(Drop)]
pub struct FirstNumbers {
    by: NumberShifts,
    by_origin: [usize; 7],
    key: usize,
}

impl Model for FirstNumbers {
    ghost use Rattle.std.specs.Prelude.{◌≡◌};
    ghost use Rattle.keep_index_store.specs.declared.shift.NumberShifts.{NumberShifts};
    ghost use Rattle.keep_index_store.specs.Shifting.{first_moved, first_numbers};

    ghost Value = { NumberShifts };

    ghost view = { λ first. first.by };

    ghost invariant = { λ first. (first.by_origin ≡ first_numbers first.by) × (first.key ≡ first_moved first.by.keys) };
}

impl FirstNumbers {
    /// Those of numbers that are moved so.
    pub(crate) fn of(by: NumberShifts) -> FirstNumbers
        ensures { result ≡ by }
    {
        let value = by.values.first();
        FirstNumbers {
            by,
            by_origin: [
                usize::MAX,
                usize::MAX,
                value,
                usize::MAX,
                usize::MAX,
                usize::MAX,
                value,
            ],
            key: by.keys.first(),
        }
    }

    /// The first number of a place of that kind that is moved; the largest there is, if none is.
    #[inline(always)]
    pub(crate) fn at(&self, origin: OriginKind) -> usize
        ensures { result ≡ first_number self.now origin }
    {
        self.by_origin[origin as usize]
    }

    /// The first number of a key part that is moved; the largest there is, if none is.
    #[inline(always)]
    pub(crate) fn key(&self) -> usize
        ensures { result ≡ first_moved self.now.keys }
    {
        self.key
    }

    /// How they are moved.
    #[inline(always)]
    pub(crate) fn shifts(&self) -> NumberShifts
        ensures { result ≡ self.now }
    {
        self.by
    }
}

impl NodeFacts {
    /// The facts with their numbers moved, if these have 32 bits at most then; else one has more here too.
    #[inline(always)]
    pub(crate) fn shifted(self, by: NumberShifts) -> NodeFacts
        ensures moved { CanShift by self → result ≡ shifted_facts by self }
        ensures small { result.key < 2 ^ 32 → result.number < 2 ^ 32 → CanShift by self }
        ensures lowered { IsLowering by → result ≡ shifted_facts by self }
    {
        NodeFacts {
            key: if self.marks == 0 {
                self.key
            } else {
                by.keys.apply(self.key)
            },
            number: match by.value_shift(self.origin) {
                Some(values) => values.apply(self.number),
                None => self.number,
            },
            ..self
        }
    }
}
