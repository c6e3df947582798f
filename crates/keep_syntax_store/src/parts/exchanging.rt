//! What is stored of some lines changes places with what is stored of others, in place.
ghost use Rattle.std.specs.Prelude.{◌≡◌, ◌+◌, ◌-◌, ◌≤◌, length, OnOk, IfOk, vec_len, vec_capacity};
ghost use Rattle.std.specs.Bool.{Decides};
ghost use Rattle.keep_syntax_store.specs.Flat.{flat};
ghost use Rattle.keep_syntax_store.specs.InPlace as spec;
ghost use Rattle.keep_syntax_store.specs.Rereading.{nothing};

use super::Parts;
use crate::moves::{Counts, RunCounts};
use crate::shift::{
    Shift, Shifts, all_are_small_from, all_can_shift, exchange_run, grow_little, is_short,
    shift_from,
};
use crate::starts::Starts;
use keep_types::Leaf;
use std::alloc::{AllocError, Global};
use std::mem;

impl Shift for Leaf {
    ghost use Rattle.std.specs.Prelude.{⊤};

    ghost shifted = { λ old new leaf. leaf };

    ghost CanShift = { λ old new leaf. ⊤ };

    #[inline(always)]
    fn shift(&mut self, _by: &Shifts) {}

    fn can_shift(self, _old: &Counts, _new: &Counts) -> bool {
        true
    }
}

/// Whether it is a range of so many elements.
fn is_range(from: usize, to: usize, len: usize) -> bool
    ensures { Decides result (spec.IsRange from to len) }
{
    from <= to && to <= len
}

/// No more elements wait in a run while it changes place with others: where more come after, they are turned where they
/// are.
const MOST_WAITING: usize = 4096;

/// Takes memory for the elements of a run, and in the run for those from a number up to another; and, where they are
/// few, for all from there on.
fn reserve_run<T>(
    items: &mut Vec<T>,
    run: &mut Vec<T>,
    from: usize,
    to: usize,
) -> Result<(), AllocError>
    requires { spec.IsRange from to (vec_len items.old) }
    ensures items { items.new.items ≡ items.old.items }
    ensures run { run.new.items ≡ run.old.items }
    ensures len { vec_len items.new ≡ vec_len items.old }
    ensures run_len { vec_len run.new ≡ vec_len run.old }
    ensures room { OnOk result (vec_len items.new + vec_len run.new ≤ vec_capacity items.new) }
    ensures room_for_run { OnOk result (to - from ≤ vec_capacity run.new) }
{
    items.reserve(run.len())?;
    let rest = items.len() - from;
    run.reserve(if rest <= MOST_WAITING {
        rest
    } else {
        to - from
    })
}

impl Parts {
    /// The memory that the parts are in.
    pub fn allocator(&self) -> Global {
        *self.kinds.allocator()
    }

    /// Whether all is packed.
    pub(crate) fn is_packed(&self) -> bool
        ensures { Decides result (spec.IsPacked self.now) }
    {
        self.statements.is_packed() && self.keys.is_packed() && self.values.is_packed()
    }

    /// Whether the numbers of all packed parts from a count on can be moved in place.
    pub(crate) fn can_shift(&self, from: &Counts, old: &Counts, new: &Counts) -> bool
        ensures { Decides result (spec.CanShift from.now old.now new.now self.now) }
    {
        all_can_shift(self.statements.packed.as_slice(), from.statements, old, new)
            && all_can_shift(self.keys.packed.as_slice(), from.keys, old, new)
            && all_can_shift(self.values.packed.as_slice(), from.values, old, new)
    }

    /// Whether what is after a run can be moved in place, given that its places are in the text: the text is shorter
    /// than 4 GiB, before and after, and its numbers have 31 bits. They have no more in such a text, where each entry
    /// takes two bytes or more.
    pub(crate) fn can_shift_rest(&self, counts: &RunCounts) -> bool
        ensures { Decides result (spec.CanShiftRest counts.now self.now) }
    {
        let old = &counts.to;
        let new = &counts.until;
        is_short(counts.len, old.at, new.at)
            && grow_little(old, new)
            && all_are_small_from(self.statements.packed.as_slice(), old.statements, old.at)
            && all_are_small_from(self.values.packed.as_slice(), old.values, old.at)
    }

    /// Whether there is so much, and the counts are in order.
    pub(crate) fn is_run(&self, from: &Counts, to: &Counts) -> bool
        ensures { Decides result (spec.IsRun from.now to.now self.now) }
    {
        is_range(from.tokens, to.tokens, self.kinds.len())
            && is_range(from.statements, to.statements, self.statements.packed.len())
            && is_range(from.keys, to.keys, self.keys.packed.len())
            && is_range(from.values, to.values, self.values.packed.len())
    }

    /// Whether there are tokens from one count to another.
    pub(crate) fn has_tokens(&self, from: &Counts, to: &Counts) -> bool
        ensures { Decides result (spec.IsRange from.now.tokens to.now.tokens (length (flat self.now).kinds)) }
    {
        is_range(from.tokens, to.tokens, self.kinds.len())
    }

    /// Moves all numbers, and puts other places of tokens there.
    pub(crate) fn shift_all(&mut self, old: &Counts, new: &Counts, starts: Starts)
        requires { spec.CanShift nothing old.now new.now self.old }
        ensures shifted { spec.IsShifted old.now new.now self.old self.new }
        ensures starts { self.new.starts ≡ starts }
    {
        shift_from(&mut self.statements.packed, 0, old, new);
        shift_from(&mut self.keys.packed, 0, old, new);
        shift_from(&mut self.values.packed, 0, old, new);
        self.starts = starts;
    }

    /// Takes all memory that an exchange needs, and changes nothing.
    pub(crate) fn reserve(
        &mut self,
        from: &Counts,
        to: &Counts,
        run: &mut Parts,
    ) -> Result<(), AllocError>
        requires { spec.IsRun from.now to.now self.old }
        ensures parts { spec.IsAsBefore self.old self.new }
        ensures run { spec.IsAsBefore run.old run.new }
        ensures room { OnOk result (spec.CanExchange from.now to.now self.new run.new) }
    {
        reserve_run(&mut self.kinds, &mut run.kinds, from.tokens, to.tokens)?;
        reserve_run(
            &mut self.statements.packed,
            &mut run.statements.packed,
            from.statements,
            to.statements,
        )?;
        reserve_run(
            &mut self.keys.packed,
            &mut run.keys.packed,
            from.keys,
            to.keys,
        )?;
        reserve_run(
            &mut self.values.packed,
            &mut run.values.packed,
            from.values,
            to.values,
        )
    }

    /// The parts from one count to another and those of `run` change places, and the numbers of those after are moved.
    /// It takes no memory.
    pub(crate) fn exchange(
        &mut self,
        from: &Counts,
        to: &Counts,
        run: &mut Parts,
        old: &Counts,
        new: &Counts,
    )
        requires room { spec.CanExchange from.now to.now self.old run.old }
        requires can { spec.CanShift to.now old.now new.now self.old }
        ensures { spec.IsExchanged from.now to.now old.now new.now self.old run.old self.new run.new }
    {
        exchange_run(
            &mut self.kinds,
            from.tokens,
            to.tokens,
            &mut run.kinds,
            old,
            new,
        );
        exchange_run(
            &mut self.statements.packed,
            from.statements,
            to.statements,
            &mut run.statements.packed,
            old,
            new,
        );
        exchange_run(
            &mut self.keys.packed,
            from.keys,
            to.keys,
            &mut run.keys.packed,
            old,
            new,
        );
        exchange_run(
            &mut self.values.packed,
            from.values,
            to.values,
            &mut run.values.packed,
            old,
            new,
        );
        mem::swap(&mut self.starts, &mut run.starts);
    }

    /// Where the tokens begin if those of other parts take the place of those from one count to another, and those
    /// after begin at the byte `end`.
    pub(crate) fn replaced_places(
        &self,
        alloc: Global,
        fresh: &Parts,
        from: &Counts,
        to: &Counts,
        end: usize,
    ) -> Result<Starts, AllocError>
        ensures { IfOk result (λ places. places ≡ spec.replaced_places (flat self.now)
            (flat fresh.now) from.now to.now end) }
    {
        let after = self.kinds.len().saturating_sub(to.tokens);
        let count = from
            .tokens
            .saturating_add(fresh.kinds.len())
            .saturating_add(after);
        let mut out = Starts::with_room(alloc, count)?;
        out.append_moved(&self.starts, 0, from.tokens, 0, 0)?;
        out.append_moved(&fresh.starts, 0, fresh.kinds.len(), 0, from.at)?;
        out.append_moved(&self.starts, to.tokens, self.kinds.len(), to.at, end)?;
        Ok(out)
    }
}
