//! The tree where a line comes or goes: its steps stay, and the numbers of all nodes change in place.
ghost use Rattle.std.specs.Prelude.{◌≡◌, map, IfNone, IfSome};
ghost use Rattle.std.specs.List.{AllByRecursion};
ghost use Rattle.keep_path.specs.NodeInfos.{renumbered, later_number, earlier_number};
ghost use Rattle.keep_index_store.specs.Renumbering.{InfoCanGrow, numbers_of};

use super::Tree;
use crate::renumbering::LineNumbers;

impl Tree {
    /// Changes the numbers in the facts about all nodes to those once the line is there: each that is not less than the
    /// line's of its sort is greater by one. It takes no memory. None, if a number is the greatest of the 32 or 64 bits
    /// in which it is stored: then nothing is changed.
    pub fn renumber_later(&mut self, line: LineNumbers) -> Option<()>
        ensures infos { IfSome result
            (λ _. self.new.infos ≡ map (renumbered later_number (numbers_of line)) self.old.infos) }
        ensures trie { self.new.trie ≡ self.old.trie }
        ensures unchanged { IfNone result (self.new ≡ self.old) }
        ensures full { IfNone result (AllByRecursion InfoCanGrow self.old.infos → ⊥) }
    {
        self.nodes.renumber_later(line)
    }

    /// Changes the numbers in the facts about all nodes to those once the line is gone: each that is greater than the
    /// line's of its sort is less by one. It takes no memory.
    pub fn renumber_earlier(&mut self, line: LineNumbers)
        ensures infos { self.new.infos ≡ map (renumbered earlier_number (numbers_of line)) self.old.infos }
        ensures trie { self.new.trie ≡ self.old.trie }
    {
        self.nodes.renumber_earlier(line);
    }
}
