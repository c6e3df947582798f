//! The tables that dotted keys make, of the lines that come at each byte.
ghost use Rattle.std.specs.Prelude.{◌≡◌, ℕ, IfSome, IsTrue, None, length};
ghost use Rattle.keep_edit_runs.specs.Counts.{shorter_at};
ghost use Rattle.keep_edit_runs.specs.DottedTables.{FitsAt, IsDottedMore, longest_at};

use crate::alike::is_within;
use crate::counts::LengthCounts;
use crate::outline::Steps;
use std::alloc::Global;
use std::collections::HashMap;

/// The tables that dotted keys make, of the lines at each byte: each is the longest of them or on the way to that.
#[derive(Drop)]
pub struct DottedTables<'a> {
    /// The longest table of the lines at a byte.
    longest: HashMap<usize, Steps<'a>>,
    /// How many lines come at a byte, by the lengths of their tables.
    lengths: LengthCounts,
}

impl<'a> DottedTables<'a> {
    /// No tables yet. It takes no memory.
    pub fn new(alloc: Global) -> DottedTables<'a>
        ensures tables { (at : ℕ) → longest_at result at ≡ None }
        ensures counts { (most at : ℕ) → shorter_at result.lengths most at ≡ 0 }
    {
        DottedTables {
            longest: HashMap::new(alloc),
            lengths: LengthCounts::new(alloc),
        }
    }

    /// How many lines at a byte are of tables with fewer steps than this one. None where they are too many to be
    /// counted.
    pub fn count_shorter(&self, at: usize, table: &Steps) -> Option<usize>
        ensures { IfSome result (λ count. count ≡ shorter_at self.now.lengths (length table.now) at) }
    {
        self.lengths.shorter(at, table.len())
    }

    /// Adds a line of a table at a byte. Returns whether it is added: it is not where the table is neither on the way
    /// to the longest there, nor that, nor below it; nor where memory was refused.
    pub fn add(&mut self, at: usize, table: Steps<'a>) -> bool
        ensures { IsTrue result → IsDottedMore self.old at table.entry self.new }
    {
        let length = table.len();
        let Some(is_longest) = self.is_longest(at, &table) else {
            return false;
        };
        if is_longest && self.longest.insert(at, table).is_err() {
            return false;
        }
        self.lengths.add(at, length)
    }

    /// Whether all tables of lines at a byte are on the way to this one; false if it is the longest of them or on the
    /// way to that. None if neither.
    fn is_longest(&self, at: usize, table: &Steps) -> Option<bool>
        ensures { IfSome result (FitsAt self.now at table.now) }
    {
        match self.longest.get(&at) {
            Some(longest) if is_within(longest, table) => Some(false),
            Some(longest) if !is_within(table, longest) => None,
            _ => Some(true),
        }
    }
}
