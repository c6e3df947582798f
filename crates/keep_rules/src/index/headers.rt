//! The index where a header comes at the end of its document: it changes in place.
ghost use Rattle.std.specs.Prelude.{◌≡◌, ◌+◌, ◌<◌, ◌≤◌, ◌^◌, ◌∷◌, ◌++◌, [], ℕ, List, IfOk, IfSome, IsSome, None, OnErr};
ghost use Rattle.std.specs.Prelude.{OnOk, length, map, string_bytes, take};
ghost use Rattle.keep_types.specs.declared.node.Kind.TheVariants as kind;
ghost use Rattle.keep_types.specs.declared.node.Origin.TheVariants as origin;
ghost use Rattle.keep_syntax.specs.Tree.{Document};
ghost use Rattle.keep_index_store.specs.Facts.{info_of, named_info, unnamed_info};
ghost use Rattle.keep_index_store.specs.KeysBelow.{first_key};
ghost use Rattle.keep_index_store.specs.Tree.{node_infos};
ghost use Rattle.keep_index_store.specs.Trie.{IsTrie, by_index, children_of, holds_at, path_at};
ghost use Rattle.keep_meaning.specs.Marks.{element_header, header};
ghost use Rattle.keep_meaning.specs.StatementsMore.{AreNumbersAtEnd, said_next};
ghost use Rattle.keep_path.specs.Path.{index};
ghost use Rattle.keep_rules.specs.HeaderJoins.{AddsHeader, AreUpTo, IsTablesOf, IsThrough, PassesKeys, with_joins};
ghost use Rattle.keep_rules.specs.Lookup.{HasNode};
ghost use Rattle.keep_rules.specs.MentionInfos.{with_info, with_mentions};
ghost use Rattle.keep_rules.specs.ReadDocuments.{IsIndexOf};
ghost use Rattle.keep_rules.specs.Represents.{key_path};

use super::Index;
use keep_index_store::{HeaderFacts, Holds, Join, NodeFacts, NotInPlace, Tree};
use keep_types::{Kind, Origin, Role};

impl Index {
    /// A header `[..]` with these keys comes after the document, as the statement with that number, whose first key
    /// part has the number `key`. Keys from one on may have no node yet; else earlier headers go through the last
    /// one's.
    ///
    /// # Errors
    ///
    /// `NotInPlace` where a node that the header goes on from takes no keys, or there is no key; where a number would
    /// not fit; and where memory was refused. Then nothing has changed, and the index has to be built anew.
    pub fn append_table(
        &mut self,
        keys: &[String],
        statement: usize,
        key: usize,
    ) -> Result<(), NotInPlace>
        requires { (d : Document) × IsIndexOf d self.old × AreNumbersAtEnd d statement key }
        ensures stated { (d : Document) → IsIndexOf d self.old → AreNumbersAtEnd d statement key
            → OnOk result (self.new ≡ with_mentions self.old (said_next d (header (map string_bytes keys.now)))) }
        ensures refused { OnErr result (self.new ≡ self.old) }
    {
        let Some((last, leading)) = keys.split_last() else {
            return Err(NotInPlace);
        };
        let Some(part) = key.checked_add(leading.len()) else {
            return Err(NotInPlace);
        };
        let mut joins = Vec::new(self.nodes.allocator());
        let (at, count) = pass_keys(&self.nodes, &mut joins, leading, statement, key)?;
        if count == leading.len() {
            if let Some(child) = self.nodes.child(at, last.as_str()) {
                let table = NodeFacts::named(Kind::Table, part, Origin::Header(statement));
                push_join(&mut joins, child, table)?;
                return join_all(&mut self.nodes, &joins);
            }
        }
        let facts = table_facts(key + count, part, statement);
        add_header(
            &mut self.nodes,
            &joins,
            at,
            &leading[count..],
            last.as_str(),
            facts,
        )
    }

    /// A header `[[..]]` with these keys comes after the document, as the statement with that number, whose first key
    /// part has the number `key`. It begins a further element of an array of tables that is there, or the first one of
    /// one that is not; keys before that may have no node yet.
    ///
    /// # Errors
    ///
    /// `NotInPlace` where the last key has a node that is no array of tables, or a table that the header goes on in
    /// takes no keys, or there is no key; where a number would not fit; and where memory was refused. Then nothing has
    /// changed, and the index has to be built anew.
    pub fn append_element(
        &mut self,
        keys: &[String],
        statement: usize,
        key: usize,
    ) -> Result<(), NotInPlace>
        requires { (d : Document) × IsIndexOf d self.old × AreNumbersAtEnd d statement key }
        ensures stated { (d : Document) → IsIndexOf d self.old → AreNumbersAtEnd d statement key
            → OnOk result
            (self.new ≡ with_mentions self.old (said_next d (element_header (map string_bytes keys.now)))) }
        ensures refused { OnErr result (self.new ≡ self.old) }
    {
        let Some((last, leading)) = keys.split_last() else {
            return Err(NotInPlace);
        };
        let Some(part) = key.checked_add(leading.len()) else {
            return Err(NotInPlace);
        };
        let mut joins = Vec::new(self.nodes.allocator());
        let (at, count) = pass_keys(&self.nodes, &mut joins, leading, statement, key)?;
        if count < leading.len() || self.nodes.child(at, last.as_str()).is_none() {
            let facts = array_facts(key + count, part, statement);
            return add_header(
                &mut self.nodes,
                &joins,
                at,
                &leading[count..],
                last.as_str(),
                facts,
            );
        }
        let array = tables_below(&self.nodes, at, last.as_str())?;
        let tables = NodeFacts::named(Kind::Tables, part, Origin::Tables);
        push_join(&mut joins, array, tables)?;
        add_element(&mut self.nodes, &joins, array, statement)
    }
}

/// Goes down the leading keys of a header, from the root, as far as they have nodes: to which node, and by how many of
/// them. What the header joins to the facts about the nodes that it goes through is put into `joins`.
fn pass_keys(
    nodes: &Tree,
    joins: &mut Vec<Join>,
    keys: &[String],
    statement: usize,
    key: usize,
) -> Result<(usize, usize), NotInPlace>
    requires trie { IsTrie nodes.now.trie }
    requires none { joins.old.items ≡ [] }
    requires fits { key + length keys.now < 2 ^ 64 }
    ensures few { IfOk result (λ passed. passed.1 ≤ length keys.now) }
    ensures passes { IfOk result (λ passed. PassesKeys nodes.now joins.new.items statement key
        (map string_bytes (take passed.1 keys.now)) passed.0) }
{
    let mut at = 0;
    for (i, name) in keys.iter().enumerate() {
        let Some(child) = nodes.child(at, name.as_str()) else {
            return Ok((at, i));
        };
        at = pass_node(nodes, joins, child, key + i, statement)?;
    }
    Ok((at, keys.len()))
}

/// Goes through the node of one key more, which is the key part with that number: on from this node, or from the last
/// element of an array of tables.
fn pass_node(
    nodes: &Tree,
    joins: &mut Vec<Join>,
    child: usize,
    part: usize,
    statement: usize,
) -> Result<usize, NotInPlace>
    requires { HasNode nodes.now.trie child }
    ensures { (first : ℕ) (keys : List (List ℕ)) (at : ℕ) (text : List ℕ)
        → PassesKeys nodes.now joins.old.items statement first keys at
        → path_at nodes.now.trie child ≡ key_path nodes.now.trie at text → part ≡ first + length keys
        → IfOk result (PassesKeys nodes.now joins.new.items statement first (keys ++ text ∷ [])) }
{
    let Kind::Tables = nodes.info(child).kind else {
        let through = NodeFacts::named(Kind::Table, part, Origin::Through(statement));
        push_join(joins, child, through)?;
        return Ok(child);
    };
    let Some(last) = nodes.last_item(child) else {
        return Err(NotInPlace);
    };
    let past = NodeFacts::named(Kind::Table, part, Origin::Root);
    push_join(joins, child, past)?;
    push_join(joins, last, NodeFacts::passed())?;
    Ok(last)
}

/// Adds what is joined to the facts about one node more.
fn push_join(joins: &mut Vec<Join>, id: usize, facts: NodeFacts) -> Result<(), NotInPlace>
    ensures { OnOk result (joins.new.items ≡ joins.old.items ++ record { id = id; facts = facts } ∷ []) }
{
    if joins.push(Join { id, facts }).is_err() {
        return Err(NotInPlace);
    }
    Ok(())
}

/// Joins what a header says of nodes that are there to their facts.
fn join_all(nodes: &mut Tree, joins: &[Join]) -> Result<(), NotInPlace>
    requires trie { IsTrie nodes.old.trie }
    requires joins { (last : ℕ) × (last < length nodes.old.trie) × AreUpTo 0 last joins.now }
    ensures joined { OnOk result (node_infos nodes.new ≡ with_joins nodes.old joins.now) }
    ensures tree { IsTrie nodes.new.trie × (holds_at nodes.new.trie 0 ≡ holds_at nodes.old.trie 0) }
    ensures refused { OnErr result (nodes.new ≡ nodes.old) }
{
    if nodes.join_all(joins).is_err() {
        return Err(NotInPlace);
    }
    Ok(())
}

/// Joins what a header says of the nodes that it goes through to their facts, and adds a node for each of its further
/// keys, of which the first has none yet.
fn add_header(
    nodes: &mut Tree,
    joins: &[Join],
    at: usize,
    leading: &[String],
    last: &str,
    facts: HeaderFacts,
) -> Result<(), NotInPlace>
    requires node { HasNode nodes.old.trie at }
    requires joins { AreUpTo 0 at joins.now }
    requires fits { facts.through.key + length leading.now < 2 ^ 64 }
    ensures added { OnOk result (AddsHeader nodes.old nodes.new joins.now at (map string_bytes leading.now) last.now
        facts) }
    ensures tree { IsTrie nodes.new.trie × (holds_at nodes.new.trie 0 ≡ holds_at nodes.old.trie 0) }
    ensures refused { OnErr result (nodes.new ≡ nodes.old) }
{
    if !nodes.takes_keys(at) || nodes.child(at, first_of(leading, last)).is_some() {
        return Err(NotInPlace);
    }
    if nodes
        .join_and_add_keys(joins, at, leading, last, facts)
        .is_err()
    {
        return Err(NotInPlace);
    }
    Ok(())
}

/// The first of these keys.
fn first_of<'a>(leading: &'a [String], last: &'a str) -> &'a str
    ensures { result.now ≡ first_key (map string_bytes leading.now) last.now }
{
    match leading {
        [name, ..] => name.as_str(),
        [] => last,
    }
}

/// The facts about the new nodes of a header `[..]`, of which the first is named by the key part `first`, and its own
/// by `last`.
fn table_facts(first: usize, last: usize, statement: usize) -> HeaderFacts
    ensures through { IsThrough result first statement }
    ensures own { info_of result.own ≡ named_info kind.Table last (origin.Header statement) }
    ensures element { result.element ≡ None }
{
    HeaderFacts {
        through: through_facts(first, statement),
        own: NodeFacts {
            role: Some(Role::Define),
            ..NodeFacts::named(Kind::Table, last, Origin::Header(statement))
        },
        element: None,
    }
}

/// The facts about the new nodes of a header `[[..]]`, of which the first is named by the key part `first`, and the
/// array of tables by `last`.
fn array_facts(first: usize, last: usize, statement: usize) -> HeaderFacts
    ensures through { IsThrough result first statement }
    ensures own { info_of result.own ≡ named_info kind.Tables last origin.Tables }
    ensures element { IfSome result.element (λ f. info_of f ≡ unnamed_info kind.Table (origin.Element statement)) }
    ensures some { IsSome result.element }
{
    HeaderFacts {
        through: through_facts(first, statement),
        own: NodeFacts {
            role: Some(Role::Element),
            ..NodeFacts::named(Kind::Tables, last, Origin::Tables)
        },
        element: Some(NodeFacts::unnamed(Kind::Table, Origin::Element(statement))),
    }
}

/// The facts about a table that a header goes through, which is named by that key part.
fn through_facts(part: usize, statement: usize) -> NodeFacts
    ensures info { info_of result ≡ named_info kind.Table part (origin.Through statement) }
    ensures key { result.key ≡ part }
{
    NodeFacts {
        role: Some(Role::Through),
        ..NodeFacts::named(Kind::Table, part, Origin::Through(statement))
    }
}

/// The node of an array of tables, which a key of a node names and which has an element.
fn tables_below(nodes: &Tree, at: usize, text: &str) -> Result<usize, NotInPlace>
    requires { HasNode nodes.now.trie at }
    ensures { IfOk result (IsTablesOf nodes.now (key_path nodes.now.trie at text.now)) }
{
    let Some(array) = nodes.child(at, text) else {
        return Err(NotInPlace);
    };
    let Kind::Tables = nodes.info(array).kind else {
        return Err(NotInPlace);
    };
    let Some(last) = nodes.last_item(array) else {
        return Err(NotInPlace);
    };
    let Some(item) = nodes.item(array, nodes.child_count(array) - 1) else {
        return Err(NotInPlace);
    };
    if item != last {
        return Err(NotInPlace);
    }
    Ok(array)
}

/// Joins what a header says of the nodes that it goes through to their facts, and adds the node of its element.
fn add_element(
    nodes: &mut Tree,
    joins: &[Join],
    array: usize,
    statement: usize,
) -> Result<(), NotInPlace>
    requires node { HasNode nodes.old.trie array }
    requires listed { holds_at nodes.old.trie array ≡ by_index }
    requires joins { AreUpTo 0 array joins.now }
    ensures added { OnOk result (node_infos nodes.new ≡ with_info (with_joins nodes.old joins.now)
        (path_at nodes.old.trie array ++ index (length (children_of nodes.old.trie array)) ∷ [])
        (unnamed_info kind.Table (origin.Element statement))) }
    ensures tree { IsTrie nodes.new.trie × (holds_at nodes.new.trie 0 ≡ holds_at nodes.old.trie 0) }
    ensures refused { OnErr result (nodes.new ≡ nodes.old) }
{
    let element = NodeFacts::unnamed(Kind::Table, Origin::Element(statement));
    if nodes
        .join_and_add_item(joins, array, element, Holds::Keys)
        .is_err()
    {
        return Err(NotInPlace);
    }
    Ok(())
}
