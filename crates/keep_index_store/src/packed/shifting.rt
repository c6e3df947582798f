//! The stored facts about a node, where their numbers of values and of key parts are moved in place.
ghost use Rattle.std.specs.Prelude.{◌≡◌, true};
ghost use Rattle.keep_index_store.specs.Below.{shifted_facts};
ghost use Rattle.keep_index_store.specs.Dots.{IsLowering};
ghost use Rattle.keep_index_store.specs.Shifting.{CanShift, ShortCanShift, shifted_short};

use super::{Form, LONG, PackedFacts, ShortFacts};
use crate::shift::{FirstNumbers, NumberShifts};

impl ShortFacts {
    /// Whether both numbers have 32 bits at most, moved or not. It does not ask which of them are moved.
    #[inline(always)]
    fn can_shift(&self, by: NumberShifts) -> bool
        ensures { result ≡ true → ShortCanShift by self.now }
    {
        self.key < by.keys.limit() && self.number < by.values.limit()
    }

    /// Moves the numbers, which then have 32 bits at most.
    #[inline(always)]
    fn shift(&mut self, by: &FirstNumbers)
        requires { ShortCanShift by.now self.old }
        ensures { self.new ≡ shifted_short by.now self.old }
    {
        if by.at(self.origin) <= self.number as usize {
            self.number = by.shifts().values.moved(self.number);
        }
        if by.key() <= self.key as usize && self.marks != 0 {
            self.key = by.shifts().keys.moved(self.key);
        }
    }

    /// Moves the numbers, none of which is greater then.
    #[inline(always)]
    fn lower(&mut self, by: &FirstNumbers)
        requires { IsLowering by.now }
        ensures { self.new ≡ shifted_short by.now self.old }
    {
        // The proof knows that numbers have 32 bits from where they are read.
        let _key = self.key as usize;
        let _number = self.number as usize;
        self.shift(by);
    }
}

impl PackedFacts {
    /// Whether the numbers have 32 bits at most once they are moved. In the packed form one that is not moved is tested
    /// as if it were.
    #[inline(always)]
    pub fn can_shift(&self, by: NumberShifts) -> bool
        ensures { result ≡ true → CanShift by self.now }
    {
        match &self.form {
            Form::Packed { short, .. } => short.can_shift(by),
            Form::Boxed(facts) => {
                let then = facts.shifted(by);
                then.key <= LONG && then.number <= LONG
            }
        }
    }

    /// Moves the numbers, which then have 32 bits at most, in the form that is there, so that it takes no memory.
    #[inline(always)]
    pub fn shift(&mut self, by: &FirstNumbers)
        requires { CanShift by.now self.old }
        ensures { self.new ≡ shifted_facts by.now self.old }
    {
        match &mut self.form {
            Form::Packed { short, .. } => short.shift(by),
            Form::Boxed(facts) => **facts = facts.shifted(by.shifts()),
        }
    }

    /// Moves the numbers, none of which is greater then, in the form that is there, so that it takes no memory.
    #[inline(always)]
    pub fn lower(&mut self, by: &FirstNumbers)
        requires { IsLowering by.now }
        ensures { self.new ≡ shifted_facts by.now self.old }
    {
        match &mut self.form {
            Form::Packed { short, .. } => short.lower(by),
            Form::Boxed(facts) => **facts = facts.shifted(by.shifts()),
        }
    }
}
