//! The rules of defining: what a key part, an item and an element define, and what may not be defined again.
ghost use Rattle.std.specs.Prelude.{◌≡◌, ℕ, ◌+◌, ◌<◌, length, IfOk, OnErr, OnOk};
ghost use Rattle.keep_index_store.specs.Children.{holding};
ghost use Rattle.keep_index_store.specs.Facts.{info_of, named_info};
ghost use Rattle.keep_index_store.specs.Trie.{Holding, path_at};
ghost use Rattle.keep_meaning.specs.Marks.{passing_mentions};
ghost use Rattle.keep_rules.specs.AddedInfos.{HeaderAdds};
ghost use Rattle.keep_rules.specs.Defines.{DefinesItem};
ghost use Rattle.keep_rules.specs.Keys.{key_text_at};
ghost use Rattle.keep_rules.specs.Outcomes.{DefinesHeadOrRefuses, DefinesOrRefuses, DefinesValueOrRefuses};
ghost use Rattle.keep_rules.specs.Outcomes.{EntersOrRefuses, IsLastElementOf};
ghost use Rattle.keep_rules.specs.Represents.{IsKeyPath, IsLastElement, key_path};
ghost use Rattle.keep_rules.specs.Statements.{element_of, header_of};
ghost use Rattle.keep_rules.specs.Tables.{Fits, IsArray, IsTable, RootIsTable, is_tables};

use crate::definitions::{DefineFault, Definition, Definitions};
use crate::keys::Keys;
use keep_index_store::{Holds, NodeFacts};
use keep_meaning::{state_after, why_of};
use keep_types::{Kind, Origin, Role};
use std::alloc::AllocError;

impl Definitions {
    /// Defines the value of a keyval or of an inline table's pair, the value with that number and kind, which may have
    /// these children: the keys go down from the table at that node. TOML 1.0.0, Keys: "Defining a key multiple times
    /// is invalid."
    pub fn define_value(
        &mut self,
        table: usize,
        keys: &Keys<'_>,
        value: usize,
        kind: Kind,
        holds: Holds,
    ) -> Result<usize, DefineFault>
        requires { IsTable self.old.tree.trie table }
        ensures { DefinesValueOrRefuses self.old.tree self.new.tree table keys.now value kind (holding holds) result }
    {
        let last = keys.count() - 1;
        let parent = self.descend_dotted(table, keys, value)?;
        let role = Role::Value;
        let origin = Origin::Value(value);
        let definition = Definition {
            role,
            kind,
            origin,
            holds,
        };
        self.define_key(parent, keys, last, definition)
    }

    /// Defines an item of an array: the value with that number and kind, which may have these children.
    pub fn define_item(
        &mut self,
        array: usize,
        value: usize,
        kind: Kind,
        holds: Holds,
    ) -> Result<usize, AllocError>
        requires { IsArray self.old.tree.trie array }
        ensures ok { IfOk result (DefinesItem self.old.tree self.new.tree array value kind (holding holds)) }
        ensures unchanged { OnErr result (self.new.tree ≡ self.old.tree) }
    {
        let facts = NodeFacts::unnamed(kind, Origin::Value(value));
        self.tree.add_item(array, facts, holds)
    }

    /// Defines the table of the header `[..]` of that statement. TOML 1.0.0, Table: "Like keys, you cannot define a
    /// table more than once."
    pub fn define_table(&mut self, keys: &Keys<'_>, statement: usize) -> Result<usize, DefineFault>
        requires { RootIsTable self.old.tree.trie }
        ensures { DefinesHeadOrRefuses self.old.tree self.new.tree keys.now.first statement (header_of keys.now)
            result }
    {
        let last = keys.count() - 1;
        let parent = self.descend_header(keys, statement)?;
        let table = Definition {
            role: Role::Define,
            kind: Kind::Table,
            origin: Origin::Header(statement),
            holds: Holds::Keys,
        };
        self.define_key(parent, keys, last, table)
    }

    /// Begins the element of the header `[[..]]` of that statement. TOML 1.0.0, Array of Tables: "The first instance of
    /// that header defines the array and its first table element, and each subsequent instance creates and defines a
    /// new table element in that array."
    pub fn begin_element(&mut self, keys: &Keys<'_>, statement: usize) -> Result<usize, DefineFault>
        requires { RootIsTable self.old.tree.trie }
        ensures { DefinesHeadOrRefuses self.old.tree self.new.tree keys.now.first statement (element_of keys.now)
            result }
    {
        let last = keys.count() - 1;
        let parent = self.descend_header(keys, statement)?;
        let tables = Definition {
            role: Role::Element,
            kind: Kind::Tables,
            origin: Origin::Tables,
            holds: Holds::Items,
        };
        let id = self.define_key(parent, keys, last, tables)?;
        let element = NodeFacts::unnamed(Kind::Table, Origin::Element(statement));
        Ok(self.tree.add_item(id, element, Holds::Keys)?)
    }

    /// Enters a table for a header that goes on below it: the one that a key part of that text and number names in a
    /// table, or the last element of the array of tables that it names. TOML 1.0.0, Array of Tables: "Any reference to
    /// an array of tables points to the most recently defined table element of the array."
    pub fn enter_key(
        &mut self,
        parent: usize,
        text: &str,
        part: usize,
        statement: usize,
    ) -> Result<usize, DefineFault>
        requires { IsTable self.old.tree.trie parent }
        ensures { EntersOrRefuses self.old.tree self.new.tree parent text.now part statement result }
    {
        let through = NodeFacts::named(Kind::Table, part, Origin::Through(statement));
        let Some(child) = self.tree.child(parent, text) else {
            return self.define_text(parent, text, Role::Through, through, Holds::Keys);
        };
        let Some(last) = self.last_element(child) else {
            return self.define_again(child, Role::Through, through);
        };
        self.enter_element(child, last, part)?;
        Ok(last)
    }

    /// The last element of the array of tables at a node, if it is one.
    fn last_element(&self, id: usize) -> Option<usize>
        requires { id < length self.now.tree.trie }
        ensures { IsLastElementOf self.now.tree.trie id result }
    {
        if !names_tables(self.tree.role(id)) {
            return None;
        }
        self.tree.last_item(id)
    }

    /// Adds to an array of tables and to its last element that a header goes through them, by the key part with that
    /// number.
    fn enter_element(&mut self, tables: usize, last: usize, part: usize) -> Result<(), AllocError>
        requires { IsLastElement self.old.tree.trie (path_at self.old.tree.trie tables) tables last }
        ensures same { OnOk result (self.new.tree.trie ≡ self.old.tree.trie) }
        ensures facts { OnOk result ((statement : ℕ) → HeaderAdds self.old.tree self.new.tree part statement
            (λ headers. passing_mentions headers (path_at self.old.tree.trie tables))) }
        ensures unchanged { OnErr result (self.new.tree ≡ self.old.tree) }
    {
        let past = NodeFacts::named(Kind::Table, part, Origin::Root);
        let passed = NodeFacts::passed();
        self.tree.add_facts_to_both(tables, past, last, passed)
    }

    /// Defines what the key part with that number within the key names in a table.
    #[inline(always)]
    pub fn define_key(
        &mut self,
        parent: usize,
        keys: &Keys<'_>,
        number: usize,
        definition: Definition,
    ) -> Result<usize, DefineFault>
        requires table { IsTable self.old.tree.trie parent }
        requires low { number < length keys.now.texts }
        ensures { DefinesOrRefuses self.old.tree self.new.tree
            (key_path self.old.tree.trie parent (key_text_at keys.now number)) definition.role
            (holding definition.holds) (named_info definition.kind (keys.now.first + number) definition.origin)
            (keys.now.first + number) result }
    {
        let text = keys.part_text(self.tree.allocator(), number)?;
        let part = keys.part_number(number);
        let facts = NodeFacts::named(definition.kind, part, definition.origin);
        let role = definition.role;
        self.define_text(parent, text.as_str(), role, facts, definition.holds)
    }

    /// Defines what a key names in a table: adds these facts to its node, which may have these children if it is new.
    fn define_text(
        &mut self,
        parent: usize,
        text: &str,
        role: Role,
        facts: NodeFacts,
        holds: Holds,
    ) -> Result<usize, DefineFault>
        requires table { IsTable self.old.tree.trie parent }
        requires fits { Fits role (holding holds) }
        ensures { DefinesOrRefuses self.old.tree self.new.tree (key_path self.old.tree.trie parent text.now) role
            (holding holds) (info_of facts) facts.key result }
    {
        match self.tree.child(parent, text) {
            None => Ok(self.tree.add_key(parent, text, role, facts, holds)?),
            Some(child) => self.define_again(child, role, facts),
        }
    }

    /// Defines once more what has a node, if its role allows it, adds these facts to the node, and gives it.
    fn define_again(
        &mut self,
        id: usize,
        role: Role,
        facts: NodeFacts,
    ) -> Result<usize, DefineFault>
        requires within { id < length self.old.tree.trie }
        requires named { IsKeyPath (path_at self.old.tree.trie id) }
        ensures { (holds : Holding) → DefinesOrRefuses self.old.tree self.new.tree (path_at self.old.tree.trie id) role
            holds (info_of facts) facts.key result }
    {
        let Some(next) = state_after(self.tree.role(id), role) else {
            return Err(DefineFault::Refused {
                part: facts.key,
                why: why_of(role),
            });
        };
        self.tree.set_role(id, next, facts)?;
        Ok(id)
    }
}

/// Whether a path in this state is that of an array of tables.
fn names_tables(state: Option<Role>) -> bool
    ensures { result ≡ is_tables state }
{
    matches!(state, Some(Role::Element | Role::Past))
}
