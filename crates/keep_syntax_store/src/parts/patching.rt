//! What is stored of some lines changes places with what is stored of as many statements, key parts and values. What is
//! after them is not rewritten: its blocks are moved.
ghost use Rattle.std.specs.Prelude.{◌≡◌, ◌≤◌, ◌++◌, take, drop, length, IfOk, IfSome};
ghost use Rattle.std.specs.Bool.{Decides};
ghost use Rattle.keep_syntax_store.specs.Flat.{flat};
ghost use Rattle.keep_syntax_store.specs.After.{AreAfter};
ghost use Rattle.keep_syntax_store.specs.InPlace as spec;
ghost use Rattle.keep_syntax_store.specs.Moving.{OnlyPlacesMove};

use super::Parts;
use crate::keys::PackedKeyPart;
use crate::moves::{Counts, RunCounts};
use crate::patch::Patch;
use crate::shift::fits_usize;
use crate::starts::Starts;
use crate::statements::PackedStatement;
use crate::values::PackedValue;
use keep_types::Leaf;
use std::alloc::{AllocError, Global};
use std::mem;

/// What changes places with what is stored: all tokens, and the entries of the blocks that are touched.
#[derive(Drop)]
pub struct PartsPatch {
    kinds: Vec<Leaf>,
    starts: Starts,
    statements: Patch<PackedStatement>,
    keys: Patch<PackedKeyPart>,
    values: Patch<PackedValue>,
}

/// Whether only places move from one count to another, and the end of a text of `len` bytes is held where it moves.
fn only_places_move(len: usize, old: &Counts, new: &Counts) -> bool
    ensures { Decides result (OnlyPlacesMove len old.now new.now) }
{
    let is_held = fits_usize(len, old.at, new.at);
    old.statements == new.statements && old.keys == new.keys && old.values == new.values && is_held
}

impl Parts {
    /// Whether the other parts have as many statements, key parts and values as the run, so that only places move.
    pub(crate) fn keeps_counts(&self, fresh: &Parts, counts: &RunCounts) -> bool
        ensures { Decides result (spec.KeepsCounts counts.now self.now fresh.now) }
    {
        let from = &counts.from;
        let to = &counts.to;
        let until = &counts.until;
        only_places_move(counts.len, to, until)
            && self
                .statements
                .is_run(from.statements, to.statements, fresh.statements.len())
            && self.keys.is_run(from.keys, to.keys, fresh.keys.len())
            && self
                .values
                .is_run(from.values, to.values, fresh.values.len())
    }

    /// The kinds of the tokens if those of other parts take the place of those from a number up to another.
    fn replaced_kinds(
        &self,
        alloc: Global,
        fresh: &Parts,
        from: usize,
        to: usize,
    ) -> Result<Vec<Leaf>, AllocError>
        requires order { from ≤ to }
        requires within { to ≤ length (flat self.now).kinds }
        ensures { IfOk result (λ kinds. kinds.items
            ≡ take from (flat self.now).kinds ++ ((flat fresh.now).kinds ++ drop to (flat self.now).kinds)) }
    {
        let kept = self.kinds.len() - (to - from);
        let mut kinds = Vec::with_capacity(alloc, kept.saturating_add(fresh.kinds.len()))?;
        kinds.extend_from_slice(&self.kinds[..from])?;
        kinds.extend_from_slice(fresh.kinds.as_slice())?;
        kinds.extend_from_slice(&self.kinds[to..])?;
        Ok(kinds)
    }

    /// What puts other parts in the place of a run, after which the text goes on at `counts.until`. None if an entry
    /// of the blocks that are rewritten isn't packed.
    pub(crate) fn patch(
        &self,
        alloc: Global,
        fresh: &Parts,
        counts: &RunCounts,
    ) -> Result<Option<PartsPatch>, AllocError>
        requires counts { spec.KeepsCounts counts.now self.now fresh.now }
        requires after { AreAfter counts.now.to counts.now.len (flat self.now) }
        requires order { counts.now.from.tokens ≤ counts.now.to.tokens }
        requires within { counts.now.to.tokens ≤ length (flat self.now).kinds }
        ensures { IfOk result (λ made. IfSome made (λ patch. spec.GivesParts self.now patch (spec.placed (flat self.now)
            (flat fresh.now) counts.now.from counts.now.to counts.now.until counts.now.until.at))) }
    {
        let from = &counts.from;
        let to = &counts.to;
        let statements = (from.statements, to.statements);
        let Some(statements) = self
            .statements
            .patch(alloc, &fresh.statements, statements, counts)?
        else {
            return Ok(None);
        };
        let Some(keys) = self
            .keys
            .patch(alloc, &fresh.keys, (from.keys, to.keys), counts)?
        else {
            return Ok(None);
        };
        let Some(values) = self
            .values
            .patch(alloc, &fresh.values, (from.values, to.values), counts)?
        else {
            return Ok(None);
        };
        Ok(Some(PartsPatch {
            kinds: self.replaced_kinds(alloc, fresh, from.tokens, to.tokens)?,
            starts: self.replaced_places(alloc, fresh, from, to, counts.until.at)?,
            statements,
            keys,
            values,
        }))
    }

    /// What is stored and a patch change places. It takes no memory.
    pub(crate) fn exchange_patch(&mut self, patch: &mut PartsPatch)
        requires { spec.FitsParts self.old patch.old }
        ensures { spec.ArePatched self.old patch.old self.new patch.new }
    {
        mem::swap(&mut self.kinds, &mut patch.kinds);
        mem::swap(&mut self.starts, &mut patch.starts);
        self.statements.exchange_patch(&mut patch.statements);
        self.keys.exchange_patch(&mut patch.keys);
        self.values.exchange_patch(&mut patch.values);
    }

    /// Brings the moves of blocks into the entries. The same is stored.
    pub(crate) fn settle(&mut self, alloc: Global) -> Result<(), AllocError>
        ensures { flat self.new ≡ flat self.old }
    {
        self.statements.settle(alloc)?;
        self.keys.settle(alloc)?;
        self.values.settle(alloc)
    }
}
