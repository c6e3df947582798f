//! What is stored of a text: its tokens, statements, key parts and values, each in a flat vector in text order.
ghost use Rattle.std.specs.Prelude.{◌≡◌, ◌<◌, ◌≤◌, length, map, slice_get, slice_range, OnOk, Some};
ghost use Rattle.keep_syntax_store.specs.Left.{places_left};
ghost use Rattle.keep_syntax_store.specs.Lifted.{moved};
ghost use Rattle.keep_syntax_store.specs.Rereading as rereading;
ghost use Rattle.keep_syntax_store.specs.Flat as spec;

pub mod exchanging;
pub mod patching;

use crate::keys::PackedKeyPart;
use crate::moves::Counts;
use crate::packed_vec::PackedVec;
use crate::starts::{Places, Starts};
use crate::statements::PackedStatement;
use crate::values::PackedValue;
use keep_types::{KeyPart, Leaf, Span, Start, Statement, ValueInfo};
use std::alloc::{AllocError, Global};

/// The tokens but `End`, the statements, the key parts and the values of a text. A token ends where the next begins.
#[derive(Drop)]
pub struct Parts {
    kinds: Vec<Leaf>,
    starts: Starts,
    statements: PackedVec<Statement, PackedStatement>,
    keys: PackedVec<KeyPart, PackedKeyPart>,
    values: PackedVec<ValueInfo, PackedValue>,
}

/// A number that may be missing: whether it is there, and which.
pub fn flag_and_number(number: Option<usize>) -> (bool, usize)
    ensures { spec.if_there result.0 result.1 ≡ number }
{
    match number {
        Some(number) => (true, number),
        None => (false, 0),
    }
}

/// The number, if it is there.
pub fn if_there(there: bool, number: usize) -> Option<usize>
    ensures { result ≡ spec.if_there there number }
{
    if there { Some(number) } else { None }
}

impl Parts {
    /// Nothing yet.
    pub fn new(alloc: Global) -> Parts
        ensures { spec.flat result ≡ spec.empty }
    {
        Parts {
            kinds: Vec::new(alloc),
            starts: Starts::new(alloc),
            statements: PackedVec::new(alloc),
            keys: PackedVec::new(alloc),
            values: PackedVec::new(alloc),
        }
    }

    /// How many key parts are stored.
    pub fn key_count(&self) -> usize
        ensures { result ≡ length (spec.flat self.now).keys }
    {
        self.keys.len()
    }

    /// The key part with this number.
    pub fn key_part(&self, number: usize) -> KeyPart
        requires { number < length (spec.flat self.now).keys }
        ensures { slice_get (spec.flat self.now).keys number ≡ Some result }
    {
        self.keys.get(number)
    }

    /// How many values are stored.
    pub fn value_count(&self) -> usize
        ensures { result ≡ length (spec.flat self.now).values }
    {
        self.values.len()
    }

    /// The value with this number.
    #[inline(always)]
    pub fn value(&self, number: usize) -> ValueInfo
        requires { number < length (spec.flat self.now).values }
        ensures { slice_get (spec.flat self.now).values number ≡ Some result }
    {
        self.values.get(number)
    }

    /// Stores a token that begins at the byte `at`.
    #[inline(always)]
    pub fn push_token(&mut self, leaf: Leaf, at: usize) -> Result<(), AllocError>
        ensures ok { OnOk result (spec.flat self.new ≡ spec.with_token leaf at (spec.flat self.old)) }
    {
        self.kinds.push(leaf)?;
        self.starts.push(at)?;
        Ok(())
    }

    /// Stores a key part.
    #[inline(always)]
    pub fn push_key(&mut self, part: KeyPart) -> Result<(), AllocError>
        ensures ok { OnOk result (spec.flat self.new ≡ spec.with_key part (spec.flat self.old)) }
    {
        self.keys.push(part)?;
        Ok(())
    }

    /// Stores a statement.
    pub fn push_statement(&mut self, statement: Statement) -> Result<(), AllocError>
        ensures ok { OnOk result (spec.flat self.new ≡ spec.with_statement statement (spec.flat self.old)) }
    {
        self.statements.push(statement)?;
        Ok(())
    }

    /// Stores the tokens of another list from one count to another, moved to begin at the byte `at`.
    pub(crate) fn append_tokens(
        &mut self,
        other: &Parts,
        from: &Counts,
        to: &Counts,
        at: usize,
    ) -> Result<(), AllocError>
        requires order { from.now.tokens ≤ to.now.tokens }
        requires within { to.now.tokens ≤ length (spec.flat other.now).kinds }
        ensures { OnOk result (spec.flat self.new
            ≡ rereading.with_tokens (slice_range (spec.flat other.now).kinds from.now.tokens to.now.tokens)
            (map (moved from.now.at at) (slice_range (spec.flat other.now).starts from.now.tokens to.now.tokens))
            (spec.flat self.old)) }
    {
        self.kinds
            .extend_from_slice(&other.kinds[from.tokens..to.tokens])?;
        self.starts
            .append_moved(&other.starts, from.tokens, to.tokens, from.at, at)?;
        Ok(())
    }

    /// Stores the statements, key parts and values of another list from one count to another, moved to after `new`.
    pub(crate) fn append_entries(
        &mut self,
        other: &Parts,
        from: &Counts,
        to: &Counts,
        new: &Counts,
    ) -> Result<(), AllocError>
        requires { rereading.IsPart from.now to.now (spec.flat other.now) }
        ensures { OnOk result (spec.flat self.new ≡ rereading.with_entries (rereading.moved_flat
            (rereading.count_of from.now) (rereading.count_of new.now)
            (rereading.part_of from.now to.now (spec.flat other.now))) (spec.flat self.old)) }
    {
        self.statements.append_moved(&other.statements, from.statements, to.statements, from, new)?;
        self.keys
            .append_moved(&other.keys, from.keys, to.keys, from, new)?;
        self.values
            .append_moved(&other.values, from.values, to.values, from, new)
    }

    /// How many tokens begin before a place.
    pub(crate) fn tokens_before(&self, place: usize) -> usize
        ensures { result ≡ rereading.places_before place (spec.flat self.now).starts }
    {
        self.starts.count_before(place)
    }

    /// Stores a value that begins at the byte `at`, with so many key parts of its own before it, in entries that begin
    /// at `start`. The bytes `at..end` are known to be its own.
    #[inline(always)]
    pub fn push_value(
        &mut self,
        leaf: Leaf,
        at: usize,
        end: usize,
        keys: usize,
        start: &Start,
    ) -> Result<(), AllocError>
        ensures ok { OnOk result (spec.flat self.new
            ≡ spec.with_value (spec.begun leaf at end keys start.now) (spec.flat self.old)) }
    {
        self.values.push(ValueInfo {
            leaf,
            span: Span { start: at, end },
            whole: Span {
                start: start.at,
                end,
            },
            owner: start.owner,
            depth: start.depth,
            first_key: start.parts,
            keys,
            comma_before: start.comma,
            comma_after: None,
        })
    }

    /// Stores where the comma after a value is.
    pub fn set_comma(&mut self, number: usize, at: usize)
        requires { number < length (spec.flat self.old).values }
        ensures change { spec.ChangesValue (spec.with_comma at) number (spec.flat self.old) (spec.flat self.new) }
    {
        self.values.set_comma(number, at);
    }

    /// Stores where a value ends.
    pub fn set_end(&mut self, number: usize, end: usize)
        requires { number < length (spec.flat self.old).values }
        ensures change { spec.ChangesValue (spec.with_end end) number (spec.flat self.old) (spec.flat self.new) }
    {
        self.values.set_end(number, end);
    }

    /// How many tokens are stored.
    pub fn stored_token_count(&self) -> usize
        ensures { result ≡ length (spec.flat self.now).kinds }
    {
        self.kinds.len()
    }

    /// How many statements are stored.
    pub fn statement_count(&self) -> usize
        ensures { result ≡ length (spec.flat self.now).statements }
    {
        self.statements.len()
    }

    /// The statement with this number.
    #[inline(always)]
    pub fn statement_at(&self, number: usize) -> Statement
        requires { number < length (spec.flat self.now).statements }
        ensures { slice_get (spec.flat self.now).statements number ≡ Some result }
    {
        self.statements.get(number)
    }

    /// The kind of the token with this number.
    pub fn token_at(&self, number: usize) -> Leaf
        requires { number < length (spec.flat self.now).kinds }
        ensures { slice_get (spec.flat self.now).kinds number ≡ Some result }
    {
        self.kinds[number]
    }

    /// Where the tokens begin, one after another.
    pub fn token_starts(&self) -> Places<'_>
        ensures { places_left result ≡ (spec.flat self.now).starts }
    {
        self.starts.iter()
    }
}
