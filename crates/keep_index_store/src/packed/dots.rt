//! The stored facts about a table of dotted keys, where one keyval more continues from it: they change in place.
ghost use Rattle.std.specs.Prelude.{◌≡◌, ◌+◌, ◌<◌, ◌^◌, max, suc};
ghost use Rattle.keep_index_store.specs.Dots.{with_mention};

use super::{Form, PackedFacts, ShortFacts};

impl ShortFacts {
    /// One mention more, by a keyval whose value has that number.
    #[inline(always)]
    fn mention(&mut self, value: u32)
        requires { self.old.marks + 1 < 2 ^ 16 }
        ensures { self.new ≡ record self.old { marks = suc self.old.marks; number = max value self.old.number } }
    {
        self.marks += 1;
        self.number = value.max(self.number);
    }
}

impl PackedFacts {
    /// One mention more, by a keyval whose value has that number, in the form that is there, so that it takes no
    /// memory.
    pub fn mention(&mut self, value: usize)
        requires room { self.old.marks + 1 < 2 ^ 16 }
        requires small { value < 2 ^ 32 }
        ensures { self.new ≡ with_mention value self.old }
    {
        match &mut self.form {
            Form::Packed { short, .. } => short.mention(value as u32),
            Form::Boxed(facts) => {
                facts.marks += 1;
                facts.number = value.max(facts.number);
            }
        }
    }
}
