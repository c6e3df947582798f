//! The children of a table by their keys.
ghost use Rattle.std.specs.Prelude.{◌≡◌, ◌<◌, ◌≤◌, ◌+◌, ◌∷◌, ◌++◌, [], None, IfOk, OnErr, OnOk, bytes_eq, false};
ghost use Rattle.std.specs.Prelude.{All, length, map, option_copied, option_map, slice_get, true};
ghost use Rattle.std.specs.List.{remove};
ghost use Rattle.std.specs.Map.{lookup};
ghost use Rattle.indexmap.specs.IndexMap.{spare};
ghost use Rattle.keep_index_store.specs.Below.{shifted_by};
ghost use Rattle.keep_index_store.specs.KeyMaps.{with_key_at};
ghost use Rattle.keep_index_store.specs.Moved.{EndsLate, moved_number, with_last_at};
ghost use Rattle.keep_index_store.specs.Replacing.{CanShift};
ghost use Rattle.keep_path.specs.NodeInfos as spec;

use crate::moved::number_then;
use crate::renumbering::earlier_number;
use crate::replaced::shifted;
use crate::seed::Seed;
use crate::shift::Shift;
use crate::stored_key::StoredKey;
use indexmap::IndexMap;
use std::alloc::{AllocError, Global};
use std::marker::Model;
use std::mem;

/// The children of a table by their keys, decoded, in the order in which they were added.
#[derive(Drop)]
pub struct KeyMap {
    table: IndexMap<StoredKey, usize, Seed>,
}

impl Model for KeyMap {
    ghost use Rattle.std.specs.Prelude.{ℕ, List};

    ghost Value = { List (List ℕ × ℕ) };

    ghost view = { λ keys. keys.table.entries };
}

impl KeyMap {
    /// No child yet. It takes no memory.
    pub fn new(alloc: Global, seed: Seed) -> KeyMap
        ensures { result ≡ [] }
    {
        KeyMap {
            table: IndexMap::with_hasher(alloc, seed),
        }
    }

    /// The children of two keys. The first key is taken from where it is, and an empty one stays there. If memory runs
    /// out, it is not taken.
    pub fn two(
        alloc: Global,
        seed: Seed,
        first: &mut StoredKey,
        first_child: usize,
        key: StoredKey,
        child: usize,
    ) -> Result<Box<KeyMap>, AllocError>
        requires { bytes_eq key first.old ≡ false }
        ensures ok { IfOk result (λ map. map.value ≡ (first.old, first_child) ∷ (key, child) ∷ []) }
        ensures err { OnErr result (first.new ≡ first.old) }
    {
        let mut map = Box::new(alloc, KeyMap::new(alloc, seed))?;
        let mut table = IndexMap::with_capacity_and_hasher(alloc, 2, seed)?;
        let first = mem::replace(first, StoredKey::empty());
        push_reserved(&mut table, first, first_child);
        push_reserved(&mut table, key, child);
        *map = KeyMap { table };
        Ok(map)
    }

    /// How many children there are.
    pub fn len(&self) -> usize
        ensures { result ≡ length self.now }
    {
        self.table.len()
    }

    /// The child of that key.
    pub fn child(&self, text: &str) -> Option<usize>
        ensures { result ≡ lookup (bytes_eq text.now) self.now }
    {
        self.table.get(text).copied()
    }

    /// The child that was added after that many others.
    pub fn child_at(&self, number: usize) -> Option<usize>
        ensures { result ≡ slice_get (map (λ e. e.1) self.now) number }
    {
        child_in(&self.table, number)
    }

    /// The key of that child.
    pub fn key_at(&self, number: usize) -> Option<&str>
        ensures { option_copied result ≡ option_map (λ e. e.0) (slice_get self.now number) }
    {
        self.table.get_index(number).map(|(key, _)| key.as_str())
    }

    /// Adds a child by a key that has none yet. If memory runs out, the map is unchanged.
    pub fn add(&mut self, key: StoredKey, child: usize) -> Result<(), AllocError>
        requires { lookup (bytes_eq key) self.old ≡ None }
        ensures ok { OnOk result (self.new ≡ self.old ++ (key, child) ∷ []) }
        ensures err { OnErr result (self.new ≡ self.old) }
    {
        self.table.insert(key, child)?;
        Ok(())
    }

    /// Gives a child another key, which no child has yet. The new entry goes last, and from there to the place of the
    /// old one, so that all others keep theirs. If memory runs out, the map is unchanged.
    pub fn set_key(&mut self, number: usize, key: StoredKey) -> Result<(), AllocError>
        requires within { number < length self.old }
        requires fresh { lookup (bytes_eq key) self.old ≡ None }
        ensures ok { OnOk result (self.new ≡ with_key_at self.old number key) }
        ensures err { OnErr result (self.new ≡ self.old) }
    {
        let Some(node) = self.child_at(number) else {
            unreachable!()
        };
        self.table.insert(key, node)?;
        self.table.swap_remove_index(number);
        Ok(())
    }

    /// Moves the last child to that number. It takes no memory.
    pub fn move_last(&mut self, to: usize)
        requires { to < length self.old }
        ensures { self.new ≡ with_last_at ([], 0) self.old to }
    {
        let last = self.table.len() - 1;
        self.table.move_index(last, to);
    }

    /// Whether each child comes before `at`. If one does not, nor does the last, so it looks at that alone.
    fn ends_before(&self, at: usize) -> bool
        requires { EndsLate at (map (λ e. e.1) self.now) }
        ensures { result ≡ true → All (λ e. e.1 < at) self.now }
    {
        let Some(last) = self.len().checked_sub(1) else {
            return true;
        };
        let Some(child) = self.child_at(last) else {
            unreachable!()
        };
        child < at
    }

    /// Gives each child the number that it has once the last node has the number `at`.
    pub fn renumber(&mut self, last: usize, at: usize)
        requires within { All (λ e. e.1 ≤ last) self.old }
        requires place { at ≤ last }
        requires ends { EndsLate at (map (λ e. e.1) self.old) }
        ensures { self.new ≡ map (λ e. (e.0, moved_number last at e.1)) self.old }
    {
        if self.ends_before(at) {
            return;
        }
        for number in 0..self.table.len() {
            let child = &mut self.table[number];
            *child = number_then(*child, last, at);
        }
    }

    /// Takes away the child of that number and its key. The others stay in their order.
    pub fn remove(&mut self, number: usize)
        ensures { self.new ≡ remove self.old number }
    {
        self.table.shift_remove_index(number);
    }

    /// Gives each child the number that it has once the node `at` is gone.
    pub fn renumber_earlier(&mut self, at: usize)
        requires { EndsLate at (map (λ e. e.1) self.old) }
        ensures { self.new ≡ map (λ e. (e.0, spec.earlier_number at e.1)) self.old }
    {
        if self.ends_before(at) {
            return;
        }
        for number in 0..self.table.len() {
            let child = &mut self.table[number];
            *child = earlier_number(at, *child);
        }
    }

    /// Moves the number of each child.
    pub fn shift(&mut self, by: Shift)
        requires fit { All (λ e. CanShift by e.1) self.old }
        requires ends { EndsLate by.from (map (λ e. e.1) self.old) }
        ensures { self.new ≡ map (λ e. (e.0, shifted_by by e.1)) self.old }
    {
        if self.ends_before(by.from) {
            return;
        }
        for number in 0..self.table.len() {
            let child = &mut self.table[number];
            *child = shifted(*child, by);
        }
    }
}

/// Adds a key that is not there yet, and its child, where there is room: it takes no memory.
fn push_reserved(table: &mut IndexMap<StoredKey, usize, Seed>, key: StoredKey, child: usize)
    requires fresh { lookup (bytes_eq key) table.old.entries ≡ None }
    requires room { 0 < spare table.old }
    ensures pushed { table.new.entries ≡ table.old.entries ++ (key, child) ∷ [] }
    ensures room { spare table.old ≤ spare table.new + 1 }
{
    let Ok(_) = table.insert(key, child) else {
        unreachable!()
    };
}

/// The child of the key with that number.
fn child_in(table: &IndexMap<StoredKey, usize, Seed>, number: usize) -> Option<usize>
    ensures { result ≡ slice_get (map (λ e. e.1) table.now.entries) number }
{
    table.get_index(number).map(|(_, child)| *child)
}
