//! The last element of each array of tables of which edits of a list that are made at once append elements.
ghost use Rattle.std.specs.Prelude.{◌≡◌, ℕ, IsTrue, None, map};
ghost use Rattle.keep_path.specs.Path.{key};
ghost use Rattle.keep_edit_plan.specs.Headers.{key_texts};
ghost use Rattle.keep_edit_runs.specs.LastElements.{IsLastKept, last_at};
ghost use Rattle.keep_edit_runs.specs.SeenPaths.{keys_number};

use crate::seen_paths::number_of_header;
use std::alloc::Global;
use std::collections::HashMap;

/// The last element that came of an array of tables.
#[derive(Clone, Copy)]
pub struct LastElement<'a> {
    /// The keys of the array.
    pub keys: &'a [String],
    /// Its number in the array.
    pub number: usize,
}

/// Those elements, each by a number that stands for its array's keys.
#[derive(Drop)]
pub struct LastElements<'a> {
    elements: HashMap<u64, LastElement<'a>>,
}

impl<'a> LastElements<'a> {
    /// No elements yet. It takes no memory.
    pub fn new(alloc: Global) -> LastElements<'a>
        ensures { (n : ℕ) → last_at result n ≡ None }
    {
        LastElements {
            elements: HashMap::new(alloc),
        }
    }

    /// What is kept by the number that stands for these keys: where it is of other keys, none is of these.
    pub fn of(&self, keys: &[String]) -> Option<LastElement<'a>>
        ensures { result ≡ last_at self.now (keys_number (map key (key_texts keys.now))) }
    {
        let last = self.elements.get(&number_of_header(keys))?;
        Some(*last)
    }

    /// Keeps an element as the last of its array. Returns whether it is kept; it is not where memory was refused.
    pub fn keep(&mut self, element: LastElement<'a>) -> bool
        ensures { IsTrue result → IsLastKept self.old element.entry self.new }
    {
        let number = number_of_header(element.keys);
        self.elements.insert(number, element).is_ok()
    }
}
