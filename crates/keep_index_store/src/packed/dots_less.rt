//! The stored facts about a table of dotted keys, where one keyval less continues from it: they change in place.
ghost use Rattle.std.specs.Prelude.{◌≡◌, ◌-◌, ◌<◌, ◌^◌};
ghost use Rattle.keep_index_store.specs.DotsLess.{without_mention};

use super::{Form, PackedFacts, ShortFacts};

impl ShortFacts {
    /// One mention less; the last keyval that continues from it has a value with that number.
    #[inline(always)]
    fn take_mention(&mut self, value: u32)
        requires { 0 < self.old.marks }
        ensures { self.new ≡ record self.old { marks = self.old.marks - 1; number = value } }
    {
        self.marks -= 1;
        self.number = value;
    }
}

impl PackedFacts {
    /// One mention less; the last keyval that continues from it has a value with that number. The form that is there
    /// stays, so that it takes no memory.
    pub fn take_mention(&mut self, value: usize)
        requires some { 0 < self.old.marks }
        requires small { value < 2 ^ 32 }
        ensures { self.new ≡ without_mention value self.old }
    {
        match &mut self.form {
            Form::Packed { short, .. } => short.take_mention(value as u32),
            Form::Boxed(facts) => {
                facts.marks -= 1;
                facts.number = value;
            }
        }
    }
}
