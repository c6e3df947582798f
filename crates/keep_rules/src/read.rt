//! Reading all that a document, or a value alone, defines: its statements one after another, and of each its values.
ghost use Rattle.std.specs.Prelude.{◌≡◌, ◌<◌, ◌∷◌, ◌++◌, ℕ, [], List, Some, None, length, IfOk, OnOk};
ghost use Rattle.keep_index_store.specs.Children.{holding};
ghost use Rattle.keep_index_store.specs.Tree.{IsRoot, node_infos};
ghost use Rattle.keep_index_store.specs.Trie.{by_key};
ghost use Rattle.keep_meaning.specs.OtherValues.{nodes_in_value};
ghost use Rattle.keep_rules.specs.DefineFaults.{FaultMeets};
ghost use Rattle.keep_rules.specs.FlatValues.{leaf_holding};
ghost use Rattle.keep_rules.specs.Outcomes.{ReadsStatementOrRefuses, ReadsValueOrRefuses, ReadsValuesOrRefuses};
ghost use Rattle.keep_rules.specs.Plans.{AreNextValues, IsNextValue};
ghost use Rattle.keep_rules.specs.ReadDocuments.{IsChecked, IsFaultAt, IsReadDocument, WasRead, WasReadAlone};
ghost use Rattle.keep_rules.specs.ReadStatements.{HasReading, HasStatement};
ghost use Rattle.keep_rules.specs.Tables.{RootIsTable};
ghost use Rattle.keep_syntax.specs.Tree.{Document, Value};
ghost use Rattle.keep_syntax_store.specs.Flat.{flat};

use crate::definitions::{DefineFault, Definitions};
use crate::keys::Keys;
use keep_index_store::{Holds, Tree};
use keep_syntax::{
    Owner, Parts, ReadFault, Statement, StatementKind, Syntax, ValueInfo, ValueSyntax,
};
use keep_token::Leaf;
use keep_types::kind_of;
use std::alloc::{AllocError, Global};

/// Reads the statements of a document, and gives the nodes that they define, where the root is the only one so far.
pub fn read_document(root: Tree, text: &str, syntax: &Syntax) -> Result<Tree, ReadFault>
    requires read { (d : Document) × WasRead text.now syntax.now d }
    requires root { IsRoot by_key root }
    ensures { IsReadDocument text.now syntax.now result }
{
    let parts = syntax.parts();
    let mut definitions = Definitions { tree: root };
    let mut ids = Vec::new(definitions.tree.allocator());
    let mut body = 0;
    for number in 0..syntax.statement_count() {
        let statement = syntax.statement(number);
        body = match definitions.read_statement(&mut ids, text, parts, body, number, statement) {
            Ok(to) => to,
            Err(fault) => return Err(read_fault(parts, fault)),
        };
    }
    Ok(definitions.tree)
}

/// Reads the values in a value alone, and gives the nodes that they define, below the value's own node, the root.
pub fn value_tree(alloc: Global, text: &str, syntax: &ValueSyntax) -> Result<Tree, ReadFault>
    requires { (v : Value) × WasReadAlone text.now syntax.now v }
    ensures checked { IsChecked text.now syntax.now result }
    ensures nodes { IfOk result (λ tree. (v : Value) → WasReadAlone text.now syntax.now v
        → node_infos tree ≡ nodes_in_value v) }
{
    let parts = syntax.parts();
    let holds = holds_of_leaf(syntax.value(0).leaf);
    let root = Tree::new(alloc, text, holds)?;
    let mut definitions = Definitions { tree: root };
    match definitions.read_inside(text, parts) {
        Ok(()) => Ok(definitions.tree),
        Err(fault) => Err(read_fault(parts, fault)),
    }
}

/// Reads the values in a value alone, and keeps none of their nodes.
pub fn read_value_alone(alloc: Global, text: &str, syntax: &ValueSyntax) -> Result<(), ReadFault>
    requires { (v : Value) × WasReadAlone text.now syntax.now v }
    ensures { IsChecked text.now syntax.now result }
{
    value_tree(alloc, text, syntax)?;
    Ok(())
}

/// The fault, with the place of its key part in the text.
fn read_fault(parts: &Parts, fault: DefineFault) -> ReadFault
    requires { FaultMeets fault (λ part why. part < length (flat parts.now).keys) }
    ensures { IsFaultAt (flat parts.now).keys fault result }
{
    match fault {
        DefineFault::Refused { part, why } => ReadFault::Define {
            at: parts.key_part(part).span.start,
            why,
        },
        DefineFault::Memory => ReadFault::Memory,
    }
}

impl Definitions {
    /// Reads the statement with that number in the body at that node, and gives the node of the body after it. `ids` is
    /// a buffer for the nodes of the values in one statement.
    fn read_statement(
        &mut self,
        ids: &mut Vec<usize>,
        text: &str,
        parts: &Parts,
        body: usize,
        number: usize,
        statement: Statement,
    ) -> Result<usize, DefineFault>
        requires statement { HasStatement text.now (flat parts.now) statement }
        requires reading { HasReading self.old.tree.trie body }
        ensures { ReadsStatementOrRefuses text.now (flat parts.now) number statement self.old.tree body self.new.tree
            result }
    {
        match statement.value {
            Some(value) => self.read_keyval(ids, text, parts, body, value, statement),
            None => self.read_header(text, parts, number, statement),
        }
    }

    /// Reads the header with that number, and gives the node of the table that it defines or of the element that it
    /// begins.
    fn read_header(
        &mut self,
        text: &str,
        parts: &Parts,
        number: usize,
        statement: Statement,
    ) -> Result<usize, DefineFault>
        requires statement { HasStatement text.now (flat parts.now) statement }
        requires rooted { RootIsTable self.old.tree.trie }
        requires head { statement.value ≡ None }
        ensures { (body : ℕ) → ReadsStatementOrRefuses text.now (flat parts.now) number statement self.old.tree body
            self.new.tree result }
    {
        let keys = Keys {
            text,
            parts,
            first: statement.first_key,
            count: statement.keys,
        };
        match statement.kind {
            StatementKind::Element => self.begin_element(&keys, number),
            _ => self.define_table(&keys, number),
        }
    }

    /// Reads a keyval of the body at that node, whose value has the number `number`, and gives the node of the body.
    /// `ids` is a buffer for the nodes of the values in it.
    fn read_keyval(
        &mut self,
        ids: &mut Vec<usize>,
        text: &str,
        parts: &Parts,
        body: usize,
        number: usize,
        statement: Statement,
    ) -> Result<usize, DefineFault>
        requires statement { HasStatement text.now (flat parts.now) statement }
        requires reading { HasReading self.old.tree.trie body }
        requires valued { statement.value ≡ Some number }
        ensures { (n : ℕ) → ReadsStatementOrRefuses text.now (flat parts.now) n statement self.old.tree body
            self.new.tree result }
    {
        let value = parts.value(number);
        let keys = Keys {
            text,
            parts,
            first: statement.first_key,
            count: statement.keys,
        };
        let kind = kind_of(value.leaf);
        let holds = holds_of_leaf(value.leaf);
        let top = self.define_value(body, &keys, number, kind, holds)?;
        ids.clear();
        push_id(ids, body)?;
        push_id(ids, top)?;
        self.read_nested(ids, text, parts, number, number + 1)?;
        Ok(body)
    }

    /// Reads the values in a value alone, of which the root is the only node so far.
    fn read_inside(&mut self, text: &str, parts: &Parts) -> Result<(), DefineFault>
        requires { AreNextValues text.now (flat parts.now) self.old.tree.trie (0 ∷ []) 1 1 }
        ensures { (ids : List ℕ)
            × ReadsValuesOrRefuses text.now (flat parts.now) 1 1 self.old.tree (0 ∷ []) self.new.tree ids result }
    {
        let mut ids = Vec::new(self.tree.allocator());
        push_id(&mut ids, 0)?;
        self.read_nested(&mut ids, text, parts, 1, 1)
    }

    /// Reads the values from the number `from` on, up to the next that is the value of a line, and adds their nodes to
    /// those of the values so far, of which the second is that of the value number `base`.
    fn read_nested(
        &mut self,
        ids: &mut Vec<usize>,
        text: &str,
        parts: &Parts,
        base: usize,
        from: usize,
    ) -> Result<(), DefineFault>
        requires { AreNextValues text.now (flat parts.now) self.old.tree.trie ids.old.items base from }
        ensures { ReadsValuesOrRefuses text.now (flat parts.now) base from self.old.tree ids.old.items self.new.tree
            ids.new.items result }
    {
        for number in from..parts.value_count() {
            let value = parts.value(number);
            if let Owner::Line(_) = value.owner {
                return Ok(());
            }
            let id = self.read_value(ids.as_slice(), text, parts, base, number, value)?;
            push_id(ids, id)?;
        }
        Ok(())
    }

    /// Reads the value with that number, which is in an array or an inline table, and gives its node. `ids` are the
    /// nodes of the values so far; the second is that of the value number `base`.
    fn read_value(
        &mut self,
        ids: &[usize],
        text: &str,
        parts: &Parts,
        base: usize,
        number: usize,
        value: ValueInfo,
    ) -> Result<usize, DefineFault>
        requires { IsNextValue text.now (flat parts.now).keys self.old.tree.trie ids.now base number value }
        ensures { ReadsValueOrRefuses text.now (flat parts.now) base value self.old.tree ids.now self.new.tree number
            result }
    {
        let kind = kind_of(value.leaf);
        let holds = holds_of_leaf(value.leaf);
        match value.owner {
            Owner::Item(array) => {
                let at = ids[array + 1 - base];
                Ok(self.define_item(at, number, kind, holds)?)
            }
            Owner::Inline(table) => {
                let at = ids[table + 1 - base];
                let keys = Keys {
                    text,
                    parts,
                    first: value.first_key,
                    count: value.keys,
                };
                self.define_value(at, &keys, number, kind, holds)
            }
            Owner::Line(_) => unreachable!(),
        }
    }
}

/// Adds the node of one value more.
fn push_id(ids: &mut Vec<usize>, id: usize) -> Result<(), AllocError>
    ensures { OnOk result (ids.new.items ≡ ids.old.items ++ id ∷ []) }
{
    ids.push(id)?;
    Ok(())
}

/// What children a value's node may have.
fn holds_of_leaf(leaf: Leaf) -> Holds
    ensures { holding result ≡ leaf_holding leaf }
{
    match leaf {
        Leaf::ArrayOpen => Holds::Items,
        Leaf::InlineOpen => Holds::Keys,
        _ => Holds::Nothing,
    }
}
