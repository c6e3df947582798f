//! The tree where a line comes that goes on from tables of dotted keys: they have one mention more, and the key parts
//! after it have greater numbers.
ghost use Rattle.std.specs.Prelude.{◌≡◌, ℕ, ◌+◌, ◌<◌, ◌^◌, ◌++◌, All, IfOk, List, OnErr, OnOk, length, map, slice_set};
ghost use Rattle.std.specs.Prelude.{true};
ghost use Rattle.keep_path.specs.Dots.{info_with_dots, with_dots, with_parts_from};
ghost use Rattle.keep_path.specs.KeysAlone.{paths_below};
ghost use Rattle.keep_path.specs.Path.{Part, key};
ghost use Rattle.keep_index_store.specs.Dots.{AreTakers, CanTake, IsPassed, without_parts};
ghost use Rattle.keep_index_store.specs.DotsLess.{AreGivers, HasSmallValue};
ghost use Rattle.keep_index_store.specs.Tree.{info_at, node_infos};
ghost use Rattle.keep_index_store.specs.Trie.{path_at};

use super::{NotInPlace, Tree};
use crate::shift::{NumberShifts, Shift};
use keep_types::{NodeInfo, Origin};

/// The most mentions that are counted in 16 bits.
const MOST_MARKS: usize = 0xffff;

/// Whether it is a table of dotted keys, of which so many mentions more can be counted in 16 bits.
fn can_take(info: &NodeInfo, many: usize) -> bool
    ensures { result ≡ true → CanTake many info.now }
{
    match info.origin {
        Origin::Dotted(_) => {
            0 < info.marks && info.marks <= MOST_MARKS && many <= MOST_MARKS - info.marks
        }
        _ => false,
    }
}

/// How numbers are moved where those of values stay.
fn part_shifts(keys: Shift) -> NumberShifts
    ensures { result ≡ record { values = record { from = 0; old = 0; new = 0 }; keys = keys } }
{
    NumberShifts {
        values: Shift {
            from: 0,
            old: 0,
            new: 0,
        },
        keys,
    }
}

impl Tree {
    /// The tables of dotted keys that a line goes on from: a node and those above it, so many, from the highest on. It
    /// takes memory for their numbers.
    ///
    /// # Errors
    ///
    /// `NotInPlace` where there are fewer below the root, where one of them is no table of dotted keys, or has so many
    /// mentions that 16 bits can't count `count` more, and where memory was refused.
    pub fn passed_tables(&self, last: usize, count: usize) -> Result<Vec<usize>, NotInPlace>
        requires { last < length self.now.trie }
        ensures counted { IfOk result (λ ids. length ids.items ≡ count) }
        ensures tables { IfOk result (λ ids. All (IsPassed count self.now.infos last) ids.items) }
        ensures paths { IfOk result (λ ids. (base : List Part) (passed : List (List ℕ))
            → path_at self.now.trie last ≡ base ++ map key passed → length passed ≡ count
            → map (path_at self.now.trie) ids.items ≡ paths_below base passed) }
    {
        // The invariant of a tree is known to the proof from where a field of it is looked at.
        let _nodes = &self.nodes;
        let mut tables = Vec::new(self.allocator());
        let mut id = last;
        for number in 0..count {
            if id == 0 || !can_take(&self.info(id), count) {
                return Err(NotInPlace);
            }
            let Ok(()) = tables.push(id) else {
                return Err(NotInPlace);
            };
            id = self.parent(id);
        }
        tables.reverse();
        Ok(tables)
    }

    /// One mention more of each of these tables, by a keyval whose value has that number: all else stays. It takes no
    /// memory.
    pub fn mention_tables(&mut self, tables: &[usize], value: usize)
        requires tables { AreTakers self.old.infos tables.now }
        requires small { value < 2 ^ 32 }
        ensures same { self.new.trie ≡ self.old.trie }
        ensures mentioned { node_infos self.new ≡ with_dots value tables.now (node_infos self.old) }
    {
        for id in tables {
            self.mention(*id, value);
        }
    }

    /// One mention more of a table, by a keyval whose value has that number.
    fn mention(&mut self, id: usize, value: usize)
        requires within { id < length self.old.infos }
        requires takes { CanTake 1 (info_at self.old id) }
        requires small { value < 2 ^ 32 }
        ensures same { self.new.trie ≡ self.old.trie }
        ensures infos { self.new.infos ≡ slice_set self.old.infos id (info_with_dots value (info_at self.old id)) }
    {
        self.nodes.mention(id, value);
    }

    /// Gives each key part from that number on the number that it has with so many more before it. It takes no memory.
    ///
    /// # Errors
    ///
    /// `NotInPlace` where a number would have more than 32 bits. Then nothing is changed.
    pub fn add_parts(&mut self, from: usize, more: usize) -> Result<(), NotInPlace>
        ensures added { OnOk result (node_infos self.new ≡ with_parts_from from more (node_infos self.old)) }
        ensures same { self.new.trie ≡ self.old.trie }
        ensures refused { OnErr result (self.new ≡ self.old) }
    {
        let by = part_shifts(Shift {
            from,
            old: 0,
            new: more,
        });
        if !self.nodes.shift_numbers(by) {
            return Err(NotInPlace);
        }
        Ok(())
    }

    /// Gives each key part after `gone` ones from that number on the number that it has without them. It takes no
    /// memory.
    pub fn take_parts(&mut self, from: usize, gone: usize)
        requires { from + gone < 2 ^ 64 }
        ensures taken { node_infos self.new ≡ without_parts from gone (node_infos self.old) }
        ensures same { self.new.trie ≡ self.old.trie }
        ensures tables { (id n : ℕ) → AreGivers self.old id n → AreGivers self.new id n }
        ensures small { All HasSmallValue self.old.infos → All HasSmallValue self.new.infos }
    {
        let by = part_shifts(Shift {
            from: from + gone,
            old: gone,
            new: 0,
        });
        self.nodes.lower_numbers(by);
    }
}
