//! The stored facts about a node, where a line comes or goes: their numbers change in place.
ghost use Rattle.std.specs.Prelude.{◌≡◌, ◌≤◌, IfNone, IfSome, true};
ghost use Rattle.keep_path.specs.NodeInfos as spec;
ghost use Rattle.keep_index_store.specs.Facts.{info_of};
ghost use Rattle.keep_index_store.specs.Renumbering.{CanGrow, InfoCanGrow, ShortCanGrow};
ghost use Rattle.keep_index_store.specs.Renumbering.{renumbered_facts, renumbered_short};

use super::{Form, PackedFacts, ShortFacts};
use crate::renumbering::LeastNumbers;

/// What a number of 32 bits is once there is one more at `at`. None, if it can't be greater by one in 32 bits.
#[inline(always)]
fn later_number(at: usize, number: u32) -> Option<u32>
    ensures later { IfSome result (λ n. n ≡ spec.later_number at number) }
    ensures full { IfNone result (CanGrow number → ⊥) }
    ensures changes { IfNone result (at ≤ number) }
{
    if (number as usize) < at {
        Some(number)
    } else {
        number.checked_add(1)
    }
}

/// What a number of 32 bits is once that at `at` is gone.
#[inline(always)]
fn earlier_number(at: usize, number: u32) -> u32
    ensures { result ≡ spec.earlier_number at number }
{
    if at < number as usize {
        number - 1
    } else {
        number
    }
}

impl ShortFacts {
    /// Whether both numbers are less than the line's numbers: then they stay as they are, whether it comes or goes.
    #[inline(always)]
    fn is_before_line(&self, line: &LeastNumbers) -> bool
        ensures later { result ≡ true → renumbered_short spec.later_number line.now self.now ≡ self.now }
        ensures earlier { result ≡ true → renumbered_short spec.earlier_number line.now self.now ≡ self.now }
    {
        (self.key as usize) < line.key() && (self.number as usize) < line.at(self.origin)
    }

    /// Changes the numbers to those once the line is there. None, if one can't be greater by one in 32 bits: then
    /// nothing is changed.
    #[inline(always)]
    fn renumber_later(&mut self, line: &LeastNumbers) -> Option<()>
        ensures later { IfSome result (λ _. self.new ≡ renumbered_short spec.later_number line.now self.old) }
        ensures unchanged { IfNone result (self.new ≡ self.old) }
        ensures full { IfNone result (ShortCanGrow self.old → ⊥) }
    {
        if self.is_before_line(line) {
            return Some(());
        }
        let key = if self.marks == 0 {
            self.key
        } else {
            later_number(line.key(), self.key)?
        };
        self.number = later_number(line.at(self.origin), self.number)?;
        self.key = key;
        Some(())
    }

    /// Changes the numbers to those once the line is gone.
    #[inline(always)]
    fn renumber_earlier(&mut self, line: &LeastNumbers)
        ensures { self.new ≡ renumbered_short spec.earlier_number line.now self.old }
    {
        if self.is_before_line(line) {
            return;
        }
        if self.marks != 0 {
            self.key = earlier_number(line.key(), self.key);
        }
        self.number = earlier_number(line.at(self.origin), self.number);
    }
}

impl PackedFacts {
    /// Changes the numbers to those once the line is there, in the form that is there. None, if one can't be greater by
    /// one where it is stored: then nothing is changed.
    #[inline(always)]
    pub fn renumber_later(&mut self, line: &LeastNumbers) -> Option<()>
        ensures later { IfSome result (λ _. self.new ≡ renumbered_facts spec.later_number line.now self.old) }
        ensures unchanged { IfNone result (self.new ≡ self.old) }
        ensures full { IfNone result (InfoCanGrow (info_of self.old) → ⊥) }
    {
        match &mut self.form {
            Form::Packed { short, .. } => short.renumber_later(line),
            Form::Boxed(facts) => {
                **facts = facts.later(line.line())?;
                Some(())
            }
        }
    }

    /// Changes the numbers to those once the line is gone, in the form that is there.
    #[inline(always)]
    pub fn renumber_earlier(&mut self, line: &LeastNumbers)
        ensures { self.new ≡ renumbered_facts spec.earlier_number line.now self.old }
    {
        match &mut self.form {
            Form::Packed { short, .. } => short.renumber_earlier(line),
            Form::Boxed(facts) => **facts = facts.earlier(line.line()),
        }
    }
}
