//! Going down the keys of headers and of values, but for the last of them.
ghost use Rattle.keep_rules.specs.Outcomes.{DescendsDottedOrRefuses, DescendsHeaderOrRefuses};
ghost use Rattle.keep_rules.specs.Tables.{IsTable, RootIsTable};

use crate::definitions::{DefineFault, Definition, Definitions};
use crate::keys::Keys;
use keep_index_store::Holds;
use keep_types::{Kind, Origin, Role};

impl Definitions {
    /// Goes down a header's keys but the last, from the root, and gives the table that they lead to.
    pub fn descend_header(
        &mut self,
        keys: &Keys<'_>,
        statement: usize,
    ) -> Result<usize, DefineFault>
        requires { RootIsTable self.old.tree.trie }
        ensures { DescendsHeaderOrRefuses self.old.tree self.new.tree keys.now statement result }
    {
        let mut at = 0;
        for number in 0..keys.count() - 1 {
            let text = keys.part_text(self.tree.allocator(), number)?;
            let part = keys.part_number(number);
            at = self.enter_key(at, text.as_str(), part, statement)?;
        }
        Ok(at)
    }

    /// Goes down the keys but the last of the value with that number, from the table that it is in, and gives the table
    /// that they lead to.
    pub fn descend_dotted(
        &mut self,
        table: usize,
        keys: &Keys<'_>,
        value: usize,
    ) -> Result<usize, DefineFault>
        requires { IsTable self.old.tree.trie table }
        ensures { DescendsDottedOrRefuses self.old.tree self.new.tree table keys.now value result }
    {
        let mut at = table;
        for number in 0..keys.count() - 1 {
            let dotted = Definition {
                role: Role::Dotted,
                kind: Kind::Table,
                origin: Origin::Dotted(value),
                holds: Holds::Keys,
            };
            at = self.define_key(at, keys, number, dotted)?;
        }
        Ok(at)
    }
}
