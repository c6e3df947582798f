//! The keys of headers that edits of a list append which are made at once, and of the tables whose headers come with a
//! line: no appended header is of such a table, and none goes through one whose header comes later in the list.
//! `FilledTables` keeps the paths of inserted keys in place of those of such tables, and those of arrays of tables;
//! there no header goes through one, wherever it comes.
ghost use Rattle.std.specs.Prelude.{◌≡◌, ◌<◌, ◌+◌, ℕ, IsTrue, List, false, length, map, take};
ghost use Rattle.keep_edit_plan.specs.Headers.{key_texts};
ghost use Rattle.keep_edit_runs.specs.SeenHeaders.{HasAppended, HasBrought, HasHeader, HasMore, HasTableOf};
ghost use Rattle.keep_edit_runs.specs.SeenHeaders.{IsArrayAppended};
ghost use Rattle.keep_edit_runs.specs.SeenHeaders.{IsBeginningAppended, IsHeaderAppended, IsHeaderAppendedLater};
ghost use Rattle.keep_edit_runs.specs.SeenHeaders.{IsHeaderBrought};
ghost use Rattle.keep_path.specs.Path.{Part, key};

use crate::outline::Steps;
use crate::seen_paths::{begins_in_key, number_of_header, number_of_keys};
use std::alloc::Global;
use std::collections::HashSet;
use std::hash::{FoldHasher, Hasher};

/// Those keys, by numbers that stand for them, as in `SeenPaths`. Where the numbers are others, so are the keys.
#[derive(Drop)]
pub struct SeenHeaders {
    // of headers that are appended, and of all that their keys begin with
    appended: HashSet<u64>,
    // of tables whose headers come with a line
    brought: HashSet<u64>,
}

impl SeenHeaders {
    /// No headers yet. It takes no memory.
    pub fn new(alloc: Global) -> SeenHeaders
        ensures { (path : List Part) → ¬ HasAppended result path × ¬ HasBrought result path }
    {
        SeenHeaders {
            appended: HashSet::new(alloc),
            brought: HashSet::new(alloc),
        }
    }

    /// Adds the keys of a header that is appended, with each list that they begin with. Returns whether they were
    /// added: not those of a table whose header comes with a line, or of one below such a table, and none where memory
    /// was refused.
    pub fn append(&mut self, keys: &[String]) -> bool
        ensures { IsTrue result → IsHeaderAppended self.old (map key (key_texts keys.now)) self.new }
    {
        let mut hasher = FoldHasher::default();
        for key in keys {
            hasher.write(key.as_bytes());
            if !self.append_beginning(hasher.finish()) {
                return false;
            }
        }
        true
    }

    /// Adds the keys of a header that is appended after the lines with headers so far, with each list that they begin
    /// with. Returns whether they were added: not those of a table whose header came with a line, nor any where memory
    /// was refused.
    pub fn append_later(&mut self, keys: &[String]) -> bool
        ensures { IsTrue result → IsHeaderAppendedLater self.old (map key (key_texts keys.now)) self.new }
    {
        !self.brought.contains(&number_of_header(keys)) && self.add_beginnings(keys)
    }

    /// Adds each list that the keys of an appended header begin with. Returns whether they were added: none is where
    /// memory was refused.
    fn add_beginnings(&mut self, keys: &[String]) -> bool
        ensures { IsTrue result → HasHeader self.new (map key (key_texts keys.now)) × HasMore self.old self.new }
    {
        let mut hasher = FoldHasher::default();
        for own in keys {
            hasher.write(own.as_bytes());
            if self.appended.insert(hasher.finish()).is_err() {
                return false;
            }
        }
        true
    }

    /// Adds the number of what the keys of an appended header begin with. Returns whether it was added: that of a table
    /// whose header comes with a line was not, nor was any where memory was refused.
    fn append_beginning(&mut self, number: u64) -> bool
        ensures { IsTrue result → IsBeginningAppended self.old number self.new }
    {
        !self.brought.contains(&number) && self.appended.insert(number).is_ok()
    }

    /// Adds the keys of a table whose header comes with a line. Returns whether they were added: not those that an
    /// appended header's keys begin with, nor any if the table's path begins in no key or memory was refused.
    pub fn bring(&mut self, table: &Steps) -> bool
        ensures { IsTrue result → IsHeaderBrought self.old table.now self.new }
    {
        if !begins_in_key(table) {
            return false;
        }
        let number = number_of_keys(table);
        !self.appended.contains(&number) && self.brought.insert(number).is_ok()
    }

    /// Adds the keys of a table whose header comes with a line below appended headers that go through it. Returns
    /// whether they were added: not if the table's path begins in no key or memory was refused.
    pub fn bring_below(&mut self, table: &Steps) -> bool
        ensures { IsTrue result → HasTableOf self.new table.now × HasMore self.old self.new }
    {
        begins_in_key(table) && self.brought.insert(number_of_keys(table)).is_ok()
    }

    /// Adds the keys of an array of tables of which an element's header is appended, as those of a header and as those
    /// that come with a line. Returns whether they were added: not where the keys of a header before it may begin with
    /// the first of these, nor where they begin with those of a table whose header comes with a line, nor any where
    /// memory was refused.
    pub fn append_array(&mut self, keys: &[String]) -> bool
        ensures { IsTrue result → IsArrayAppended self.old (map key (key_texts keys.now)) self.new }
    {
        if self.has_beginning(keys) || !self.append(keys) {
            return false;
        }
        self.brought.insert(number_of_header(keys)).is_ok()
    }

    /// Whether an appended header's keys may begin with the first of these.
    fn has_beginning(&self, keys: &[String]) -> bool
        ensures { result ≡ false → (n : ℕ) → n < length (map key (key_texts keys.now))
            → ¬ HasAppended self.now (take (n + 1) (map key (key_texts keys.now))) }
    {
        let mut hasher = FoldHasher::default();
        for name in keys {
            hasher.write(name.as_bytes());
            if self.appended.contains(&hasher.finish()) {
                return true;
            }
        }
        false
    }

    /// Whether these may be keys that an appended header's keys begin with; if not, no such header is that of a table
    /// with these keys, or of one below it.
    pub fn has_appended(&self, keys: &[String]) -> bool
        ensures { result ≡ false → ¬ HasAppended self.now (map key (key_texts keys.now)) }
    {
        self.appended.contains(&number_of_header(keys))
    }

    /// Whether these may be keys that an appended header's keys begin with, those of a table's path; if not, no such
    /// header is that of the table, or goes through it.
    pub fn has_appended_table(&self, table: &Steps) -> bool
        ensures { result ≡ false → ¬ HasAppended self.now table.now }
    {
        self.appended.contains(&number_of_keys(table))
    }
}
