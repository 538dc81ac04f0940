//! Runs of equal digits, and where they lie: a few in the value itself, the front of more in an allocation that is shared.
ghost use Rattle.std.specs.Prelude.{◌≡◌, ◌+◌, ◌-◌, ◌<◌, ◌≤◌, ◌^◌, ◌++◌, ◌∷◌, [], length, take, IsOk, IfOk, MatchOption, MatchResult};
ghost use Rattle.std.specs.Arc.{arc_value};
ghost use Rattle.locators.specs.Runs.{digits_with, kept_runs, run_digits, IsKept, LieInline, SharesLong};

use crate::{INLINE_RUNS, OutOfMemory};
use arrayvec::ArrayVec;
use std::alloc::Global;
use std::sync::Arc;

// Equal digits in a row, as many as `count` says.
#[derive(Debug, Clone, Copy, Default)]
pub(crate) struct Run {
    pub(crate) digit: u64,
    pub(crate) count: u64,
}

// Runs: all in the value itself, or a front of them shared and the last ones in the value.
#[derive(Debug, Drop)]
pub(crate) enum Runs {
    Inline(ArrayVec<Run, INLINE_RUNS>),
    Shared(Arc<Vec<Run>>, ArrayVec<Run, 2>),
}

// Both lists one after the other, if there is room.
fn join<const N: usize>(a: &[Run], b: &[Run]) -> Option<ArrayVec<Run, N>>
    ensures { MatchOption result (N < length a.now + length b.now)
        (λ runs. runs.items ≡ a.now ++ b.now) }
{
    let mut runs = ArrayVec::new();
    if runs.try_extend_from_slice(a).is_err() || runs.try_extend_from_slice(b).is_err() {
        return None;
    }
    Some(runs)
}

// What does not fit inline: all but the last run go into an allocation of their own.
fn share_front(alloc: Global, front: &[Run], own: &[Run], run: Run) -> Result<Runs, OutOfMemory>
    requires long { INLINE_RUNS ≤ length front.now + length own.now }
    ensures runs { IfOk result (λ runs. kept_runs runs ≡ front.now ++ own.now ++ run ∷ []) }
    ensures long { IfOk result SharesLong }
{
    let mut runs = Vec::with_capacity(alloc, front.len() + own.len())?;
    runs.extend_from_slice(front)?;
    runs.extend_from_slice(own)?;
    let mut last = ArrayVec::new();
    last.push(run);
    Ok(Runs::Shared(Arc::new(alloc, runs)?, last))
}

// A front that is shared, these runs behind it, and one more; what does not fit there gets a front of its own.
fn behind(
    alloc: Global,
    shares: &Arc<Vec<Run>>,
    front: &[Run],
    own: &[Run],
    run: Run,
) -> Result<Runs, OutOfMemory>
    requires same { front.now ≡ (arc_value shares.now).items }
    requires long { INLINE_RUNS ≤ length front.now }
    ensures runs { IfOk result (λ runs. kept_runs runs ≡ front.now ++ own.now ++ run ∷ []) }
    ensures long { IfOk result SharesLong }
{
    match join(own, &[run]) {
        Some(last) => Ok(Runs::Shared(Arc::try_clone(shares)?, last)),
        None => share_front(alloc, front, own, run),
    }
}

// The first `count` runs of a front that is shared and of those behind it, and one more.
fn part_behind(
    alloc: Global,
    shares: &Arc<Vec<Run>>,
    front: &[Run],
    last: &[Run],
    count: usize,
    run: Run,
) -> Result<Runs, OutOfMemory>
    requires same { front.now ≡ (arc_value shares.now).items }
    requires long { INLINE_RUNS ≤ length front.now }
    requires all_front { length front.now ≤ count }
    requires within { count ≤ length front.now + length last.now }
    ensures runs { IfOk result (λ runs. kept_runs runs
        ≡ take count (front.now ++ last.now) ++ run ∷ []) }
    ensures long { IfOk result SharesLong }
{
    let own = &last[..count - front.len()];
    behind(alloc, shares, front, own, run)
}

// The sum of two counts, which is refused where no count can be so great.
fn sum(a: u64, b: u64) -> Result<u64, OutOfMemory>
    ensures { MatchResult result (λ sum. sum ≡ a + b) (λ _. 2 ^ 64 ≤ a + b) }
{
    a.checked_add(b).ok_or(OutOfMemory)
}

// These runs and one more, inline if they fit.
fn lay(alloc: Global, own: &[Run], run: Run) -> Result<Runs, OutOfMemory>
    ensures runs { IfOk result (λ runs. kept_runs runs ≡ own.now ++ run ∷ []) }
    ensures long { IfOk result SharesLong }
    ensures short { length own.now < INLINE_RUNS → IsOk result }
{
    match join(own, &[run]) {
        Some(runs) => Ok(Runs::Inline(runs)),
        None => share_front(alloc, &[], own, run),
    }
}

impl Runs {
    // The run of one digit.
    pub(crate) fn one(digit: u64) -> Runs
        ensures runs { kept_runs result ≡ record { digit = digit; count = 1 } ∷ [] }
        ensures long { SharesLong result }
    {
        let mut runs = ArrayVec::new();
        runs.push(Run { digit, count: 1 });
        Runs::Inline(runs)
    }

    // The runs, in two parts.
    pub(crate) fn parts(&self) -> (&[Run], &[Run])
        ensures { result.0.now ++ result.1.now ≡ kept_runs self.now }
    {
        match self {
            Runs::Inline(runs) => (&[], runs.as_slice()),
            Runs::Shared(front, last) => (front.as_slice(), last.as_slice()),
        }
    }

    // How many runs there are.
    pub(crate) fn len(&self) -> usize
        ensures { result ≡ length (kept_runs self.now) }
    {
        let (front, last) = self.parts();
        front.len() + last.len()
    }

    // The same runs, of which those in the allocation are shared.
    pub(crate) fn share(&self) -> Result<Runs, OutOfMemory>
        requires { SharesLong self.now }
        ensures runs { IfOk result (λ runs. kept_runs runs ≡ kept_runs self.now) }
        ensures long { IfOk result SharesLong }
        ensures short { length (kept_runs self.now) ≤ INLINE_RUNS → IsOk result }
    {
        match self {
            Runs::Inline(runs) => {
                let runs = join(runs.as_slice(), &[]).ok_or(OutOfMemory)?;
                Ok(Runs::Inline(runs))
            }
            Runs::Shared(front, last) => {
                let last = join(last.as_slice(), &[]).ok_or(OutOfMemory)?;
                Ok(Runs::Shared(Arc::try_clone(front)?, last))
            }
        }
    }

    // The last of the first `count` runs, if there is one.
    fn before(&self, count: usize) -> Option<Run>
        requires { count ≤ length (kept_runs self.now) }
        ensures { MatchOption result (count ≡ 0)
            (λ run. (0 < count) × (take count (kept_runs self.now)
            ≡ take (count - 1) (kept_runs self.now) ++ run ∷ [])) }
    {
        if count == 0 {
            return None;
        }
        let (front, last) = self.parts();
        if count <= front.len() {
            Some(front[count - 1])
        } else {
            Some(last[count - front.len() - 1])
        }
    }

    // The first `count` runs, and one behind them.
    fn front_with(&self, alloc: Global, count: usize, run: Run) -> Result<Runs, OutOfMemory>
        requires within { count ≤ length (kept_runs self.now) }
        requires long { SharesLong self.now }
        ensures runs { IfOk result (λ runs. kept_runs runs
            ≡ take count (kept_runs self.now) ++ run ∷ []) }
        ensures long { IfOk result SharesLong }
        ensures short { count < INLINE_RUNS → IsOk result }
    {
        match self {
            Runs::Inline(runs) => lay(alloc, &runs.as_slice()[..count], run),
            Runs::Shared(front, _) if count < front.len() => lay(
                alloc,
                &front.as_slice()[..count],
                run,
            ),
            Runs::Shared(front, last) => {
                part_behind(alloc, front, front.as_slice(), last.as_slice(), count, run)
            }
        }
    }

    // The first `count` runs and behind them equal digits, as few runs as they are.
    pub(crate) fn with_run(
        &self,
        alloc: Global,
        count: usize,
        run: Run,
    ) -> Result<Runs, OutOfMemory>
        requires within { count ≤ length (kept_runs self.now) }
        requires some { 0 < run.count }
        requires kept { IsKept self.now }
        ensures digits { IfOk result (λ runs. run_digits (kept_runs runs)
            ≡ digits_with (kept_runs self.now) count run) }
        ensures kept { IfOk result IsKept }
        ensures short { LieInline (digits_with (kept_runs self.now) count run) → IsOk result }
    {
        match self.before(count) {
            None => self.front_with(alloc, count, run),
            Some(before) => self.with_more(alloc, count, before, run),
        }
    }

    // The same behind a run that is known.
    fn with_more(
        &self,
        alloc: Global,
        count: usize,
        before: Run,
        run: Run,
    ) -> Result<Runs, OutOfMemory>
        requires within { count ≤ length (kept_runs self.now) }
        requires before { 0 < count }
        requires last { take count (kept_runs self.now)
            ≡ take (count - 1) (kept_runs self.now) ++ before ∷ [] }
        requires some { 0 < run.count }
        requires kept { IsKept self.now }
        ensures digits { IfOk result (λ runs. run_digits (kept_runs runs)
            ≡ digits_with (kept_runs self.now) count run) }
        ensures kept { IfOk result IsKept }
        ensures short { LieInline (digits_with (kept_runs self.now) count run) → IsOk result }
    {
        if before.digit != run.digit {
            return self.front_with(alloc, count, run);
        }
        let total = sum(before.count, run.count)?;
        let both = Run {
            digit: run.digit,
            count: total,
        };
        self.front_with(alloc, count - 1, both)
    }
}
