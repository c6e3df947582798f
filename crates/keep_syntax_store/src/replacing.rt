//! Lines replaced in place: what is stored of them, and what was there before, to be put back.
ghost use Rattle.std.specs.Prelude.{◌≡◌, ℕ, SomeIff, OnOk, OnErr, IfOk, IfSome, Ok, None};
ghost use Rattle.std.specs.Bool.{Decides};
ghost use Rattle.keep_syntax_store.specs.Flat.{flat};
ghost use Rattle.keep_syntax_store.specs.After.{AreAfter};
ghost use Rattle.keep_syntax_store.specs.InPlace as spec;
ghost use Rattle.keep_syntax_store.specs.Rereading as rereading;

use crate::moves::{Counts, RunCounts};
use crate::parts::Parts;
use crate::parts::patching::PartsPatch;
use crate::rereading::{counts_at, counts_before, nothing, replaced_parts};
use keep_types::Span;
use std::alloc::{AllocError, Global};
use std::mem;

/// What was stored of lines that others replaced.
#[derive(Drop)]
pub enum Gone {
    /// As many statements, key parts and values were in its place.
    Lines(PartsPatch),
    /// It was there between the counts `from` and `to`; what replaced it ends at `until`.
    Run {
        run: Parts,
        from: Counts,
        to: Counts,
        until: Counts,
    },
    /// All that was stored.
    Whole(Parts),
}

/// The counts after what replaces a run; None exactly where machine words don't hold them.
fn counts_after(from: &Counts, all: &Counts, end: usize) -> Option<Counts>
    ensures { SomeIff result (spec.AreHeld from.now all.now) (spec.counts_after from.now all.now end) }
{
    Some(Counts {
        at: end,
        tokens: from.tokens.checked_add(all.tokens)?,
        statements: from.statements.checked_add(all.statements)?,
        keys: from.keys.checked_add(all.keys)?,
        values: from.values.checked_add(all.values)?,
    })
}

/// How much comes before what is after a span.
fn counts_through(parts: &Parts, whole: Span, len: usize) -> Counts
    requires { rereading.LinesAscend 0 (flat parts.now).statements }
    ensures { result ≡ spec.counts_through (flat parts.now) whole len }
{
    if whole.end < len {
        counts_before(parts, whole.end)
    } else {
        counts_at(parts, len)
    }
}

/// Whether the run can be replaced in place: all is packed, also after it is moved.
fn can_replace(parts: &Parts, fresh: &Parts, counts: &RunCounts) -> bool
    ensures { Decides result (spec.CanReplace counts.now parts.now fresh.now) }
{
    let zero = nothing();
    parts.is_packed()
        && fresh.is_packed()
        && parts.is_run(&counts.from, &counts.to)
        && parts.can_shift_rest(counts)
        && fresh.can_shift(&zero, &zero, &counts.from)
}

/// Puts other parts in place of a run of as many statements, key parts and values; what is after it is moved a block at
/// a time. None if their numbers differ, or not all is packed; then the same is stored.
fn replace_lines(
    alloc: Global,
    parts: &mut Parts,
    fresh: &Parts,
    counts: &RunCounts,
) -> Result<Option<Gone>, AllocError>
    requires { AreAfter counts.now.to counts.now.len (flat parts.old) }
    ensures done { IfOk result (λ made. IfSome made (λ _. flat parts.new ≡ spec.placed (flat parts.old)
        (flat fresh.now) counts.now.from counts.now.to counts.now.until counts.now.until.at)) }
    ensures undo { IfOk result (λ made. IfSome made (λ gone. spec.UndoesParts gone parts.old parts.new)) }
    ensures none { result ≡ Ok None → flat parts.new ≡ flat parts.old }
    ensures refused { OnErr result (flat parts.new ≡ flat parts.old) }
{
    if !parts.has_tokens(&counts.from, &counts.to) || !parts.keeps_counts(fresh, counts) {
        return Ok(None);
    }
    let Some(mut patch) = parts.patch(alloc, fresh, counts)? else {
        return Ok(None);
    };
    parts.exchange_patch(&mut patch);
    Ok(Some(Gone::Lines(patch)))
}

/// Puts other parts in place of a run, after which it ends at `until`.
fn replace_run(
    alloc: Global,
    parts: &mut Parts,
    mut fresh: Parts,
    from: Counts,
    to: Counts,
    until: Counts,
) -> Result<Gone, AllocError>
    requires in_place { spec.IsInPlace from to until parts.old fresh }
    requires until { (size : ℕ) × (until ≡ spec.counts_after from (rereading.counts_at size (flat fresh)) until.at) }
    ensures done { OnOk result (flat parts.new ≡ spec.placed (flat parts.old) (flat fresh) from to until until.at) }
    ensures undo { IfOk result (λ gone. spec.UndoesParts gone parts.old parts.new) }
    ensures refused { OnErr result (flat parts.new ≡ flat parts.old) }
{
    let places = parts.replaced_places(alloc, &fresh, &from, &to, until.at)?;
    fresh.shift_all(&nothing(), &from, places);
    parts.reserve(&from, &to, &mut fresh)?;
    parts.exchange(&from, &to, &mut fresh, &to, &until);
    Ok(Gone::Run {
        run: fresh,
        from,
        to,
        until,
    })
}

/// Stores anew what is stored with new lines in place of those of a span.
fn replace_whole(
    alloc: Global,
    parts: &mut Parts,
    fresh: &Parts,
    whole: Span,
    len: usize,
    size: usize,
    end: usize,
) -> Result<Gone, AllocError>
    requires { rereading.CanMove (flat parts.old) whole len }
    ensures done { OnOk result (flat parts.new
        ≡ rereading.replaced_flat (flat parts.old) (flat fresh.now) whole len size end) }
    ensures undo { IfOk result (λ gone. spec.UndoesParts gone parts.old parts.new) }
    ensures refused { OnErr result (flat parts.new ≡ flat parts.old) }
{
    let new = replaced_parts(alloc, parts, whole, len, fresh, size, end)?;
    Ok(Gone::Whole(mem::replace(parts, new)))
}

/// Puts the parts of new lines in place of those of a span, in a text of `len` bytes. The new lines have `size` bytes
/// and end at the byte `end`. After a refusal what is stored is the same.
pub fn replace_parts(
    alloc: Global,
    parts: &mut Parts,
    fresh: Parts,
    whole: Span,
    len: usize,
    size: usize,
    end: usize,
) -> Result<Gone, AllocError>
    requires can { rereading.CanMove (flat parts.old) whole len }
    requires after { AreAfter (spec.counts_through (flat parts.old) whole len) len (flat parts.old) }
    ensures done { OnOk result (flat parts.new
        ≡ rereading.replaced_flat (flat parts.old) (flat fresh) whole len size end) }
    ensures undo { IfOk result (λ gone. spec.UndoesParts gone parts.old parts.new) }
    ensures refused { OnErr result (flat parts.new ≡ flat parts.old) }
{
    let from = counts_before(parts, whole.start);
    let to = counts_through(parts, whole, len);
    let Some(until) = counts_after(&from, &counts_at(&fresh, size), end) else {
        return replace_whole(alloc, parts, &fresh, whole, len, size, end);
    };
    let counts = RunCounts {
        from,
        to,
        until,
        len,
    };
    if let Some(gone) = replace_lines(alloc, parts, &fresh, &counts)? {
        return Ok(gone);
    }
    parts.settle(alloc)?;
    if can_replace(parts, &fresh, &counts) {
        return replace_run(alloc, parts, fresh, from, to, until);
    }
    replace_whole(alloc, parts, &fresh, whole, len, size, end)
}

/// Puts back what was replaced. It takes no memory.
pub fn restore_parts(parts: &mut Parts, gone: Gone)
    requires { spec.CanUndoParts gone parts.old }
    ensures { (before : Parts) → spec.UndoesParts gone before parts.old → flat parts.new ≡ flat before }
{
    match gone {
        Gone::Lines(mut patch) => parts.exchange_patch(&mut patch),
        Gone::Run {
            mut run,
            from,
            to,
            until,
        } => parts.exchange(&from, &until, &mut run, &until, &to),
        Gone::Whole(all) => *parts = all,
    }
}
