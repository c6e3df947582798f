//! How many lines come at each byte, and of which lengths their tables are.
ghost use Rattle.std.specs.Prelude.{◌≡◌, ◌<◌, ℕ, IfSome, IsTrue, length};
ghost use Rattle.keep_edit_runs.specs.Counts.{IsOneMore, IsOneOfLength, count_at, shorter_at};

use std::alloc::Global;
use std::collections::HashMap;

/// How many lines come at each byte.
#[derive(Drop)]
pub struct Counts {
    counts: HashMap<usize, usize>,
}

impl Counts {
    /// None yet. It takes no memory.
    pub fn new(alloc: Global) -> Counts
        ensures { (at : ℕ) → count_at result at ≡ 0 }
    {
        Counts {
            counts: HashMap::new(alloc),
        }
    }

    /// How many come at a byte.
    pub fn at(&self, at: usize) -> usize
        ensures { result ≡ count_at self.now at }
    {
        match self.counts.get(&at) {
            Some(count) => *count,
            None => 0,
        }
    }

    /// Counts one more at a byte. Returns whether it is counted: it is not where memory was refused.
    pub fn add(&mut self, at: usize) -> bool
        ensures { IsTrue result → IsOneMore self.old at self.new }
    {
        match self.at(at).checked_add(1) {
            Some(more) => self.counts.insert(at, more).is_ok(),
            None => false,
        }
    }
}

/// How many lines come at each byte, by the lengths of their tables.
#[derive(Drop)]
pub struct LengthCounts {
    /// Those of each length, from 0 on.
    counts: Vec<Counts>,
    alloc: Global,
}

impl LengthCounts {
    /// None yet. It takes no memory.
    pub fn new(alloc: Global) -> LengthCounts
        ensures { (most at : ℕ) → shorter_at result most at ≡ 0 }
    {
        LengthCounts {
            counts: Vec::new(alloc),
            alloc,
        }
    }

    /// How many at a byte have fewer steps than so many. None where they are too many to be counted.
    pub fn shorter(&self, at: usize, most: usize) -> Option<usize>
        ensures { IfSome result (λ count. count ≡ shorter_at self.now most at) }
    {
        let counts = self.counts.as_slice();
        let mut sum: usize = 0;
        for number in 0..most.min(counts.len()) {
            sum = sum.checked_add(counts[number].at(at))?;
        }
        Some(sum)
    }

    /// Counts one more of a length at a byte. Returns whether it is counted: it is not where memory was refused.
    pub fn add(&mut self, at: usize, length: usize) -> bool
        ensures { IsTrue result → IsOneOfLength self.old length at self.new }
    {
        if !self.reach(length) {
            return false;
        }
        match self.counts.get_mut(length) {
            Some(counts) => counts.add(at),
            None => false,
        }
    }

    /// Has counts of a length, too. Returns whether it has; not where memory was refused.
    fn reach(&mut self, length: usize) -> bool
        ensures { (most at : ℕ) → shorter_at self.new most at ≡ shorter_at self.old most at }
    {
        for _ in self.counts.len()..length.saturating_add(1) {
            if self.counts.push(Counts::new(self.alloc)).is_err() {
                return false;
            }
        }
        true
    }
}
