//! Where each token begins, or each line, stored in one byte each.
ghost use Rattle.std.specs.Prelude.{◌≡◌, ℕ, ◌≢◌, ◌<◌, ◌≤◌, ◌+◌, ◌++◌, [], ◌∷◌, List, length, map, sum, take, drop};
ghost use Rattle.std.specs.Prelude.{slice_range, IfSome, IsNone, IfOk, OnOk, OnErr};
ghost use Rattle.std.specs.List.{AllByRecursion};
ghost use Rattle.keep_syntax_store.specs.declared.starts.TheConstants.{FAR};
ghost use Rattle.keep_syntax_store.specs.Lifted as lifted;
ghost use Rattle.keep_syntax_store.specs.Starts.{AllSmall, AreStarts, Ascend, Before, CanGoOn, CanGoTo, IsMilestone};
ghost use Rattle.keep_syntax_store.specs.Starts.{fars};
ghost use Rattle.keep_syntax_store.specs.Starts.{last_of, places_at, CanMoveOn, moved_on};

use crate::moves::moved;
use memchr::memchr;
use std::alloc::{AllocError, Global};
use std::marker::Model;

/// The step of a place that a byte cannot tell.
const FAR: u8 = 255;

/// How many near steps are taken at once. So few lead less far than 2 ^ 16, and numbers of 16 bits are summed fastest.
const MOST_NEAR: usize = 256;

/// So many near steps are passed at once where a place is sought. In the group that has it each is looked at.
const GROUP: usize = 64;

/// How many steps are copied at once where there are no milestones, and about how many there are from one milestone to
/// the next.
const BLOCK: usize = 1024;

/// A place that is known without the steps before it: so many `steps` lead to it, `far` of them far.
#[derive(Clone, Copy)]
struct Milestone {
    steps: usize,
    far: usize,
    place: usize,
}

/// Ascending places in a text, as byte offsets. Each is stored as its step: how far it comes after the one before, the
/// first after 0. Where that is 255 bytes or more, the step is `FAR`, and the place itself is in `far`. `last` is the
/// last place, or 0. Milestones ascend; those of a text that was read are missing, and each edit makes them.
#[derive(Drop)]
pub struct Starts {
    steps: Vec<u8>,
    far: Vec<usize>,
    last: usize,
    milestones: Vec<Milestone>,
}

impl Model for Starts {
    ghost use Rattle.std.specs.Prelude.{ℕ, List};
    ghost use Rattle.keep_syntax_store.specs.Starts.{AreStarts, places_at};

    ghost Value = { List ℕ };

    ghost view = { λ s. places_at 0 s.steps.items s.far.items };

    ghost invariant = { λ s. AreStarts s.steps.items s.far.items s.last s.milestones.items };
}

/// Stored places one after another; `at` is the one before them. The result of [`Starts::iter`].
#[derive(Clone, Copy)]
pub struct Places<'a> {
    at: usize,
    steps: &'a [u8],
    far: &'a [usize],
    ghost small: { AllSmall (places_at at steps.now far.now) },
    ghost matched: { length far.now ≡ fars steps.now },
}

/// The places from one milestone to another, and the milestones after the one up to the other.
#[derive(Clone, Copy)]
struct Between<'a> {
    low: Milestone,
    high: Milestone,
    places: Places<'a>,
    milestones: &'a [Milestone],
}

/// Near steps, each given by its byte, and how far they lead together.
#[derive(Clone, Copy)]
struct Near<'a> {
    steps: &'a [u8],
    distance: usize,
    ghost near: { fars steps.now ≡ 0 },
    ghost leads: { distance ≡ sum steps.now },
}

// how many steps stand before the first that is far
fn count_near(steps: &[u8]) -> usize
    ensures within { result ≤ length steps.now }
    ensures near { fars (take result steps.now) ≡ 0 }
{
    memchr(FAR, steps).unwrap_or(steps.len())
}

// how many steps are far
fn count_far(steps: &[u8]) -> usize
    ensures { result ≡ fars steps.now }
{
    let mut count = 0;
    let mut left = steps;
    'steps: while let Some(at) = memchr(FAR, left) {
        count += 1;
        left = &left[at + 1..];
    }
    count
}

// how far so few steps lead together
fn sum_of(steps: &[u8]) -> u16
    requires { length steps.now ≤ MOST_NEAR }
    ensures { result ≡ sum steps.now }
{
    let mut distance = 0;
    'steps: for step in steps {
        distance += *step as u16;
    }
    distance
}

// places, moved from after `old` to after `new`; a place before `old` is refused
fn moved_places(
    alloc: Global,
    places: &[usize],
    old: usize,
    new: usize,
) -> Result<Vec<usize>, AllocError>
    ensures { IfOk result (λ out. out.items ≡ map (lifted.moved old new) places.now) }
{
    let mut out = Vec::with_capacity(alloc, places.len())?;
    'places: for at in places {
        let Some(place) = moved(*at, old, new) else {
            return Err(AllocError);
        };
        out.push(place)?;
    }
    Ok(out)
}

// stores steps after others, and their far places, moved from after `old` to after `new`
fn push_steps(
    steps: &mut Vec<u8>,
    far: &mut Vec<usize>,
    run: &Places<'_>,
    old: usize,
    new: usize,
) -> Result<(), AllocError>
    ensures ok { OnOk result (steps.new.items ≡ steps.old.items ++ run.now.steps.now) }
    ensures far { OnOk result (far.new.items ≡ far.old.items ++ map (lifted.moved old new) run.now.far.now) }
    ensures err { OnErr result (steps.new.items ≡ steps.old.items) }
    ensures err_far { OnErr result (far.new.items ≡ far.old.items) }
{
    let mut run_far = moved_places(*far.allocator(), run.far, old, new)?;
    let count = steps.len();
    steps.extend_from_slice(run.steps)?;
    if let Err(refused) = far.append(&mut run_far) {
        // no far step without its place
        steps.truncate(count);
        return Err(refused.into());
    }
    Ok(())
}

// a milestone where what comes after `low` comes after `at`, if it is between `low` and `high`
fn moved_milestone(
    milestone: Milestone,
    low: Milestone,
    high: Milestone,
    at: Milestone,
) -> Option<Milestone>
    ensures from { IfSome result (λ _. low.steps ≤ milestone.steps) }
    ensures to { IfSome result (λ _. milestone.steps ≤ high.steps) }
    ensures moved { IfSome result (λ m. m ≡ moved_on low at milestone) }
{
    if high.steps < milestone.steps {
        return None;
    }
    Some(Milestone {
        steps: moved(milestone.steps, low.steps, at.steps)?,
        far: moved(milestone.far, low.far, at.far)?,
        place: moved(milestone.place, low.place, at.place)?,
    })
}

// the milestones between `low` and `high`, where what comes after `low` comes after `at`
fn moved_milestones(
    alloc: Global,
    milestones: &[Milestone],
    low: Milestone,
    high: Milestone,
    at: Milestone,
) -> Result<Vec<Milestone>, AllocError>
    ensures { (steps far : List ℕ) → AllByRecursion (CanMoveOn low high at steps far) milestones.now
        → IfOk result (λ out. AllByRecursion (IsMilestone steps far) out.items) }
{
    let mut out = Vec::with_capacity(alloc, milestones.len())?;
    'milestones: for milestone in milestones {
        if let Some(moved) = moved_milestone(*milestone, low, high, at) {
            out.push(moved)?;
        }
    }
    Ok(out)
}

// the milestone with a number, counted from 1, or else the beginning
fn milestone_at(milestones: &[Milestone], number: usize) -> Milestone
    ensures is { (steps far : List ℕ) → AllByRecursion (IsMilestone steps far) milestones.now
        → IsMilestone steps far result }
    ensures first { number ≡ 0 → result.steps ≡ 0 }
{
    if number > 0 && number <= milestones.len() {
        milestones[number - 1]
    } else {
        Milestone {
            steps: 0,
            far: 0,
            place: 0,
        }
    }
}

// the milestone so many steps after another
fn milestone_after(steps: &[u8], far: &[usize], known: Milestone, count: usize) -> Milestone
    requires known { IsMilestone steps.now far.now known }
    requires can { CanGoOn steps.now far.now known }
    requires within { known.steps + count ≤ length steps.now }
    ensures is { IsMilestone steps.now far.now result }
    ensures steps { result.steps ≡ known.steps + count }
{
    let number = known.steps + count;
    let left = Places::after(steps, far, known).without(count);
    Milestone {
        steps: number,
        far: known.far + count_far(&steps[known.steps..number]),
        place: left.at,
    }
}

// what is known of the place with a number: from the last milestone up to it, or from the end
fn milestone_to(
    steps: &[u8],
    far: &[usize],
    last: usize,
    milestones: &[Milestone],
    number: usize,
) -> Milestone
    requires stored { AreStarts steps.now far.now last milestones.now }
    requires within { number ≤ length steps.now }
    ensures is { IsMilestone steps.now far.now result }
    ensures steps { result.steps ≡ number }
{
    if number == steps.len() {
        return Milestone {
            steps: number,
            far: far.len(),
            place: last,
        };
    }
    let passed = milestones.partition_point(|milestone| milestone.steps <= number);
    let known = milestone_at(milestones, passed);
    if known.steps <= number {
        milestone_after(steps, far, known, number - known.steps)
    } else {
        milestone_after(steps, far, milestone_at(&[], 0), number)
    }
}

impl Starts {
    ghost use Rattle.keep_syntax_store.specs.Left.{AreBetween, IsPast, places_left};
    ghost use Rattle.keep_syntax_store.specs.Starts.{first_from, last_to};
    ghost use Rattle.keep_syntax_store.specs.Rereading.{places_before};

    /// No place yet.
    pub fn new(alloc: Global) -> Starts
        ensures { result ≡ [] }
    {
        Starts {
            steps: Vec::new(alloc),
            far: Vec::new(alloc),
            last: 0,
            milestones: Vec::new(alloc),
        }
    }

    /// No place yet, and memory for the steps of so many.
    pub(crate) fn with_room(alloc: Global, count: usize) -> Result<Starts, AllocError>
        ensures { IfOk result (λ starts. starts ≡ []) }
    {
        let mut starts = Starts::new(alloc);
        starts.steps.reserve(count)?;
        Ok(starts)
    }

    /// Stores one more place. After a refusal those before are stored. A place before the last one is refused: a text
    /// that is read from its start on has none. Room is made apart, so that what is left of a push is short enough to
    /// be no call.
    #[inline(always)]
    pub fn push(&mut self, at: usize) -> Result<(), AllocError>
        ensures ok { OnOk result (self.new ≡ self.old ++ at ∷ []) }
        ensures err { OnErr result (self.new ≡ self.old) }
    {
        let last = self.last;
        if at < last || at - last >= FAR as usize {
            return self.push_far(at);
        }
        self.steps.reserve(1)?;
        self.steps.push_reserved((at - last) as u8);
        self.last = at;
        Ok(())
    }

    /// Stores one more place, as `push` does, that the last one need not be near.
    #[inline(never)]
    fn push_far(&mut self, place: usize) -> Result<(), AllocError>
        ensures ok { OnOk result (self.new ≡ self.old ++ place ∷ []) }
        ensures err { OnErr result (self.new ≡ self.old) }
    {
        if place < self.last {
            return Err(AllocError);
        }
        self.steps.push(FAR)?;
        if let Err(refused) = self.far.push(place) {
            // no far step without its place
            self.steps.pop();
            return Err(refused.into());
        }
        self.last = place;
        Ok(())
    }

    /// All places.
    pub(crate) fn iter(&self) -> Places<'_>
        ensures left { places_left result ≡ self.now }
        ensures start { result.at ≡ 0 }
    {
        Places {
            at: 0,
            steps: self.steps.as_slice(),
            far: self.far.as_slice(),
        }
    }

    /// How many places lead up to the milestone with a number, counted from 1, and those after it. Without such a
    /// milestone it is the beginning.
    fn after_milestone(&self, number: usize) -> (usize, Places<'_>)
        ensures past { IsPast self.now result.0 result.1 }
        ensures within { result.0 ≤ length self.now }
    {
        let milestone = milestone_at(self.milestones.as_slice(), number);
        let left = Places::after(self.steps.as_slice(), self.far.as_slice(), milestone);
        (milestone.steps, left)
    }

    /// A number up to which all places are before `place`, and the places from there on.
    fn near_place(&self, place: usize) -> (usize, Places<'_>)
        ensures past { IsPast self.now result.0 result.1 }
        ensures within { result.0 ≤ length self.now }
        ensures before { Before place (take result.0 self.now) }
    {
        let passed = self
            .milestones
            .as_slice()
            .partition_point(|milestone| milestone.place < place);
        let (number, left) = self.after_milestone(passed);
        if left.at < place {
            (number, left)
        } else {
            (0, self.iter())
        }
    }

    /// The places from a number on.
    fn places_from(&self, number: usize) -> Places<'_>
        ensures past { IsPast self.now number result }
        ensures ascend { Ascend 0 self.now }
    {
        let passed = self
            .milestones
            .as_slice()
            .partition_point(|milestone| milestone.steps <= number);
        let (count, left) = self.after_milestone(passed);
        if count <= number {
            left.without(number - count)
        } else {
            self.iter().without(number)
        }
    }

    /// A later number, at most `to`, and the places from there on: the next milestone, or a block further where there
    /// is none so near.
    fn next_block<'a>(&'a self, left: &Places<'a>, number: usize, to: usize) -> (usize, Places<'a>)
        requires past { IsPast self.now number left.now }
        requires order { number < to }
        ensures past { IsPast self.now result.0 result.1 }
        ensures further { number < result.0 }
        ensures within { result.0 ≤ to }
    {
        let passed = self
            .milestones
            .as_slice()
            .partition_point(|milestone| milestone.steps <= number);
        let (next, after) = self.after_milestone(passed + 1);
        if number < next && next <= to && next - number <= 2 * BLOCK {
            (next, after)
        } else {
            let count = BLOCK.min(to - number);
            (number + count, left.without(count))
        }
    }

    /// The last of ascending places that is at most `place`, or else `low`. Near places are passed together where the
    /// last of them is at most `place`.
    pub fn last_to(&self, place: usize, low: usize) -> usize
        ensures { result ≡ last_to place low self.now }
    {
        if self.len() > 0 && self.last <= place {
            return self.last;
        }
        let (number, mut left) = self.near_place(place);
        let mut last = if number == 0 { low } else { left.at };
        'runs: while let Some(at) = left.advance() {
            if place < at {
                return last;
            }
            let after = left;
            left.take_near(GROUP);
            if place < left.at {
                // among those just passed: each is looked at
                return after.last_to(place, at);
            }
            last = left.at;
        }
        last
    }

    /// The first of ascending places that is at least `place`, or else `high`. Near places are passed together where
    /// the last of them is before it.
    pub fn first_from(&self, place: usize, high: usize) -> usize
        ensures { result ≡ first_from place high self.now }
    {
        if self.last < place {
            return high;
        }
        let (_, mut left) = self.near_place(place);
        'runs: while let Some(at) = left.advance() {
            if place <= at {
                return at;
            }
            let after = left;
            left.take_near(GROUP);
            if place <= left.at {
                // among those just passed: each is looked at
                return after.first_from(place, high);
            }
        }
        high
    }

    /// How many places there are.
    pub(crate) fn len(&self) -> usize
        ensures { result ≡ length self.now }
    {
        self.steps.len()
    }

    /// How many of ascending places are before `place`. Near places are counted together where the last of them is
    /// before it.
    pub(crate) fn count_before(&self, place: usize) -> usize
        ensures { result ≡ places_before place self.now }
    {
        let count = self.len();
        if self.last < place {
            return count;
        }
        let (mut number, mut left) = self.near_place(place);
        'runs: while let Some(at) = left.advance() {
            if place <= at {
                return number;
            }
            number += 1;
            let after = left;
            let near = left.take_near(count);
            if place - at <= near.distance {
                // among these: by groups
                return number + after.count_before(place);
            }
            number += near.steps.len();
        }
        number
    }

    /// Stores one more place, moved from after `old` to after `new`. A place before `old` is refused.
    fn push_moved(&mut self, at: usize, old: usize, new: usize) -> Result<(), AllocError>
        ensures ok { OnOk result (self.new ≡ self.old ++ lifted.moved old new at ∷ []) }
        ensures after { OnOk result (old ≤ at) }
    {
        match moved(at, old, new) {
            Some(place) => self.push(place),
            None => Err(AllocError),
        }
    }

    /// Stores also places after the last one, moved with it from after `old` to after `new`. The steps are copied as
    /// they are, since two places are as far from one another when both are moved. The last of them is `last`.
    fn push_run(
        &mut self,
        run: &Places<'_>,
        last: usize,
        old: usize,
        new: usize,
    ) -> Result<(), AllocError>
        requires joins { last_of 0 self.old ≡ lifted.moved old new run.now.at }
        requires after { old ≤ run.now.at }
        requires ascend { Ascend run.now.at (places_left run.now) }
        requires last { last ≡ last_of run.now.at (places_left run.now) }
        ensures { OnOk result (self.new ≡ self.old ++ map (lifted.moved old new) (places_left run.now)) }
    {
        let Some(last) = moved(last, old, new) else {
            return Err(AllocError);
        };
        push_steps(&mut self.steps, &mut self.far, run, old, new)?;
        self.last = last;
        Ok(())
    }

    /// Stores also the next `count` places that are left, moved from after `old` to after `new`. The last of them is
    /// `last`.
    fn append_block(
        &mut self,
        left: &Places<'_>,
        count: usize,
        last: usize,
        old: usize,
        new: usize,
    ) -> Result<(), AllocError>
        requires some { 0 < count }
        requires ascend { Ascend left.now.at (places_left left.now) }
        requires last { last ≡ last_of left.now.at (take count (places_left left.now)) }
        ensures { OnOk result (self.new ≡ self.old ++ map (lifted.moved old new) (take count (places_left left.now))) }
    {
        let mut left = *left;
        let Some(at) = left.advance() else {
            return Ok(());
        };
        self.push_moved(at, old, new)?;
        self.push_run(&left.first(count - 1), last, old, new)?;
        Ok(())
    }

    /// Stores the last place as a milestone, where there is none near it.
    fn push_milestone(&mut self) -> Result<(), AllocError>
        ensures { self.new ≡ self.old }
    {
        let passed = match self.milestones.last() {
            Some(milestone) => milestone.steps,
            None => 0,
        };
        if self.steps.len().saturating_sub(passed) < BLOCK / 2 {
            return Ok(());
        }
        self.milestones.push(Milestone {
            steps: self.steps.len(),
            far: self.far.len(),
            place: self.last,
        })?;
        Ok(())
    }

    /// Stores also the places from one milestone to another, moved with the last one from after `old` to after `new`,
    /// and the milestones up to the other. Nothing is counted anew: what comes after the one comes after the last
    /// place.
    fn push_between(
        &mut self,
        between: &Between<'_>,
        old: usize,
        new: usize,
    ) -> Result<(), AllocError>
        requires are { AreBetween between.now.low between.now.high between.now.places between.now.milestones.now }
        requires joins { last_of 0 self.old ≡ lifted.moved old new between.now.low.place }
        requires after { old ≤ between.now.low.place }
        ensures { OnOk result (self.new ≡ self.old ++ map (lifted.moved old new) (places_left between.now.places)) }
    {
        let Some(end) = moved(between.high.place, old, new) else {
            return Err(AllocError);
        };
        let place = self.last;
        let at = Milestone {
            steps: self.steps.len(),
            far: self.far.len(),
            place,
        };
        let alloc = *self.far.allocator();
        let mut milestones = moved_milestones(
            alloc,
            between.milestones,
            between.low,
            between.high,
            at,
        )?;
        push_steps(&mut self.steps, &mut self.far, &between.places, old, new)?;
        self.last = end;
        self.milestones.append(&mut milestones)?;
        Ok(())
    }

    /// The places from number `from` up to number `to`, with what is known at both, and the milestones between them.
    fn between(&self, from: usize, to: usize) -> Between<'_>
        requires { (from ≤ to) × (to ≤ length self.now) }
        ensures are { AreBetween result.low result.high result.places result.milestones.now }
        ensures low { result.low.place ≡ last_of 0 (take from self.now) }
        ensures places { places_left result.places ≡ slice_range self.now from to }
    {
        let steps = self.steps.as_slice();
        let far = self.far.as_slice();
        let milestones = self.milestones.as_slice();
        let low = milestone_to(steps, far, self.last, milestones, from);
        let high = milestone_to(steps, far, self.last, milestones, to);
        let first = milestones.partition_point(|milestone| milestone.steps <= from);
        let end = milestones.partition_point(|milestone| milestone.steps <= to);
        Between {
            low,
            high,
            places: Places::between(steps, far, low, high),
            milestones: &milestones[first..end.max(first)],
        }
    }

    /// How many places lead to the first milestone after number `from`, at most `to`.
    fn next_milestone(&self, from: usize, to: usize) -> usize
        requires { from ≤ to }
        ensures from { from ≤ result }
        ensures to { result ≤ to }
    {
        let milestones = self.milestones.as_slice();
        let passed = milestones.partition_point(|milestone| milestone.steps <= from);
        let next = milestone_at(milestones, passed + 1).steps;
        if from < next && next < to { next } else { to }
    }

    /// Up to which number no milestone comes after number `from`, at most `to`, if that is far; else `from`.
    fn end_of_gap(&self, from: usize, to: usize) -> usize
        requires { from ≤ to }
        ensures from { from ≤ result }
        ensures to { result ≤ to }
    {
        let end = self.next_milestone(from, to);
        if end - from > BLOCK + BLOCK / 2 {
            end
        } else {
            from
        }
    }

    /// Stores also the places of another list from number `from` up to number `to`, moved from after `old` to after
    /// `new`. They are copied at once, but where there are no milestones for long: there these are made.
    pub(crate) fn append_moved(
        &mut self,
        other: &Starts,
        from: usize,
        to: usize,
        old: usize,
        new: usize,
    ) -> Result<(), AllocError>
        ensures { OnOk result (self.new ≡ self.old ++ map (lifted.moved old new) (slice_range other.now from to)) }
    {
        let to = to.min(other.len());
        if to <= from {
            return Ok(());
        }
        let gap = other.end_of_gap(from, to);
        self.append_blocks(other, from, gap, old, new)?;
        self.append_run(other, gap, to, old, new)?;
        Ok(())
    }

    /// Stores also the places of another list from number `from` up to number `to`, moved from after `old` to after
    /// `new`: the first alone, since it is not so far after the last one as it was, and the others by one copy.
    fn append_run(
        &mut self,
        other: &Starts,
        from: usize,
        to: usize,
        old: usize,
        new: usize,
    ) -> Result<(), AllocError>
        requires { to ≤ length other.now }
        ensures { OnOk result (self.new ≡ self.old ++ map (lifted.moved old new) (slice_range other.now from to)) }
    {
        if to <= from {
            return Ok(());
        }
        let others = other.between(from + 1, to);
        self.push_moved(others.low.place, old, new)?;
        self.push_between(&others, old, new)?;
        self.push_milestone()?;
        Ok(())
    }

    /// Stores also the places of another list from number `from` up to number `to`, moved from after `old` to after
    /// `new`, a block of them after another.
    fn append_blocks(
        &mut self,
        other: &Starts,
        from: usize,
        to: usize,
        old: usize,
        new: usize,
    ) -> Result<(), AllocError>
        ensures { OnOk result (self.new ≡ self.old ++ map (lifted.moved old new) (slice_range other.now from to)) }
    {
        if to <= from {
            return Ok(());
        }
        let mut left = other.places_from(from);
        let mut number = from;
        'runs: while number < to {
            let (next, after) = other.next_block(&left, number, to);
            self.append_block(&left, next - number, after.at, old, new)?;
            self.push_milestone()?;
            left = after;
            number = next;
        }
        Ok(())
    }
}

impl<'a> Places<'a> {
    ghost use Rattle.std.specs.Iterator.{YieldsFirst};
    ghost use Rattle.keep_syntax_store.specs.Left.{places_left};
    ghost use Rattle.keep_syntax_store.specs.Starts.{first_from, last_to};
    ghost use Rattle.keep_syntax_store.specs.Rereading.{places_before};

    /// Those after a milestone.
    fn after(steps: &'a [u8], far: &'a [usize], milestone: Milestone) -> Places<'a>
        requires { CanGoOn steps.now far.now milestone }
        ensures at { result.at ≡ milestone.place }
        ensures left { places_left result
            ≡ places_at milestone.place (drop milestone.steps steps.now) (drop milestone.far far.now) }
    {
        Places {
            at: milestone.place,
            steps: &steps[milestone.steps..],
            far: &far[milestone.far..],
        }
    }

    /// Those from one milestone to another.
    fn between(steps: &'a [u8], far: &'a [usize], low: Milestone, high: Milestone) -> Places<'a>
        requires { CanGoTo steps.now far.now low high }
        ensures at { result.at ≡ low.place }
        ensures steps { result.steps.now ≡ slice_range steps.now low.steps high.steps }
        ensures far { result.far.now ≡ slice_range far.now low.far high.far }
    {
        Places {
            at: low.place,
            steps: &steps[low.steps..high.steps],
            far: &far[low.far..high.far],
        }
    }

    /// The next place, from which the near steps after it are counted.
    fn advance(&mut self) -> Option<usize>
        ensures first { YieldsFirst places_left self.old result self.new }
        ensures at { IfSome result (λ place. place ≡ self.new.at) }
        ensures none { IsNone result → self.new.at ≡ self.old.at }
    {
        let (step, steps) = self.steps.split_first()?;
        if *step == FAR {
            let (place, far) = self.far.split_first()?;
            self.at = *place;
            self.far = far;
        } else {
            self.at += *step as usize;
        }
        self.steps = steps;
        Some(self.at)
    }

    /// Goes past `count` places, or all where there are fewer.
    fn skip_places(&mut self, count: usize)
        ensures left { places_left self.new ≡ drop count (places_left self.old) }
        ensures last { self.new.at ≡ last_of self.old.at (take count (places_left self.old)) }
    {
        let mut number = 0;
        'runs: while number < count {
            let Some(_) = self.advance() else {
                return;
            };
            number += 1;
            let near = self.take_near(count - number);
            number += near.steps.len();
        }
    }

    /// Without the next `count` places.
    fn without(&self, count: usize) -> Places<'a>
        ensures left { places_left result ≡ drop count (places_left self.now) }
        ensures last { result.at ≡ last_of self.now.at (take count (places_left self.now)) }
    {
        let mut left = *self;
        left.skip_places(count);
        left
    }

    /// The next `count` places alone, or all where there are fewer.
    fn first(&self, count: usize) -> Places<'a>
        ensures at { result.at ≡ self.now.at }
        ensures first { places_left result ≡ take count (places_left self.now) }
    {
        let steps = &self.steps[..count.min(self.steps.len())];
        Places {
            at: self.at,
            steps,
            far: &self.far[..count_far(steps)],
        }
    }

    /// The last of ascending places that is at most `place`, or else `low`, one place after another.
    fn last_to(&self, place: usize, low: usize) -> usize
        ensures { result ≡ last_to place low (places_left self.now) }
    {
        let mut last = low;
        'places: for at in *self {
            if place < at {
                return last;
            }
            last = at;
        }
        last
    }

    /// The first of ascending places that is at least `place`, or else `high`, one place after another.
    fn first_from(&self, place: usize, high: usize) -> usize
        ensures { result ≡ first_from place high (places_left self.now) }
    {
        'places: for at in *self {
            if place <= at {
                return at;
            }
        }
        high
    }

    /// How many steps are left.
    fn step_count(&self) -> usize
        ensures { result ≡ length self.now.steps.now }
    {
        self.steps.len()
    }

    /// How many of ascending places are before `place`, a group of near ones after another.
    fn count_before(&self, place: usize) -> usize
        ensures { result ≡ places_before place (places_left self.now) }
    {
        let count = self.step_count();
        let mut left = *self;
        let mut number = 0;
        'runs: while let Some(at) = left.advance() {
            if place <= at {
                return number;
            }
            number += 1;
            let after = left;
            let group = left.take_near(GROUP);
            if place - at <= group.distance {
                // among these: each is looked at
                return number + after.count_each_before(place);
            }
            number += group.steps.len();
        }
        number
    }

    /// How many of ascending places are before `place`, one place after another.
    fn count_each_before(&self, place: usize) -> usize
        ensures { result ≡ places_before place (places_left self.now) }
    {
        let count = self.steps.len();
        let mut number = 0;
        'places: for at in *self {
            if place <= at {
                return number;
            }
            number += 1;
            prove!(number <= count);
        }
        number
    }

    /// The next steps as far as each of them is near, at most `most` and at most `MOST_NEAR`.
    fn near(&self, most: usize) -> Near<'a>
        ensures most { length result.steps.now ≤ most }
        ensures first { result.steps.now ≡ take (length result.steps.now) self.now.steps.now }
    {
        let ahead = &self.steps[..self.steps.len().min(most).min(MOST_NEAR)];
        let steps = &ahead[..count_near(ahead)];
        Near {
            steps,
            distance: sum_of(steps) as usize,
        }
    }

    /// Goes past the next steps as far as each of them is near, at most `most` and at most `MOST_NEAR`, and returns
    /// them.
    fn take_near(&mut self, most: usize) -> Near<'a>
        ensures most { length result.steps.now ≤ most }
        ensures left { places_left self.old ≡ places_at self.old.at result.steps.now [] ++ places_left self.new }
        ensures at { self.new.at ≡ self.old.at + sum result.steps.now }
    {
        let near = self.near(most);
        self.at += near.distance;
        self.steps = &self.steps[near.steps.len()..];
        near
    }
}

impl<'a> Iterator for Places<'a> {
    ghost use Rattle.std.specs.Iterator.{YieldsFirst, item_count};
    ghost use Rattle.keep_syntax_store.specs.Left.{places_left};

    type Item = usize;

    ghost next_gives = { YieldsFirst places_left };

    ghost remaining = { item_count places_left };

    fn next(&mut self) -> Option<usize> {
        self.advance()
    }
}
