//! Locators: names for the places of a list that others extend too, so ordered that between two names that these calls
//! made there is always room for one more.
//!
//! A locator is a list of digits, each a `u64`, and locators are ordered as lists are, by the first digit that differs.
//! [`Locator::between`] answers one that lies strictly between two others, so a text put between two texts gets a name
//! that says where it stands, and the names of all others stay as they are.
//!
//! # How long a locator grows
//!
//! | texts are put again and again | digits of the name of text number `n` |
//! |---|---|
//! | after the last one put, as when one types on | 1, also at `n` = 1,000,000 |
//! | the same, between two texts whose names have 1 digit | 2, also at `n` = 1,000,000 |
//! | before the last one put | `n` |
//! | between the last two put, in turn below and above | 1 + `n` / 2, rounded down |
//!
//! The test `grows_as_documented` of `buffer_tests` measures these numbers. A digit moves up by a 2^48th part of the way to the upper
//! neighbour's, so there is room for 2^48 texts one after another before a digit is added. It never
//! moves down, so a text put before the last one costs a digit.
//!
//! A locator keeps runs of equal digits once, with their count: those of the table have three runs at most. Up to
//! [`INLINE_RUNS`] runs lie in the value itself; the front of more is shared among those that begin alike.
#![tactic(auto)]

ghost use Rattle.std.specs.Prelude.{◌≡◌, ◌+◌, ◌^◌, ◌≤◌, ◌==◌, max, Some, length, refl, IsOk, IfOk, MatchOption};
ghost use Rattle.std.specs.Cmp as Cmp;
ghost use Rattle.std.specs.Cmp.Lexicographic.{pointwise, slice_cmp, nat_list_eq_equiv, nat_list_cmp_total, texts_po, texts_ties};
ghost use Rattle.std.specs.Ordering.{nat_cmp};
ghost use Rattle.locators.specs.Locator.{between_digits, least_digits, greatest_digits, IsLess, IsProper, EndsAboveZero};
ghost use Rattle.locators.specs.Reading.{digits_to, runs_ahead, AreFull, IsContinued};
ghost use Rattle.locators.specs.Runs.{count_runs, kept_runs, run_digits, IsKept, LieInline};

mod reader;
mod runs;

use crate::reader::{Ahead, Reader, meet, order, pass_same};
use crate::runs::{Run, Runs};
pub use std::alloc::AllocError as OutOfMemory;
use std::alloc::Global;
use std::cmp::Ordering;
use std::marker::Model;

/// How many runs of equal digits a locator holds with no allocation.
pub const INLINE_RUNS: usize = 3;

/// A name that says where its bearer stands among all others: a list of digits, ordered lexicographically.
///
/// Comparisons take no memory, and time by the runs of equal digits that they look at.
#[derive(Debug, Drop)]
pub struct Locator {
    runs: Runs,
}

impl Model for Locator {
    ghost use Rattle.std.specs.Prelude.{List, ℕ};

    ghost Value = { List ℕ };

    ghost use Rattle.locators.specs.Runs.{kept_runs, run_digits, IsKept};

    ghost view = { λ locator. run_digits (kept_runs locator.runs) };

    ghost invariant = { λ locator. IsKept locator.runs };
}

impl Locator {
    /// The least of the locators in use: `[0]`, below all that `between` answers. It takes no memory.
    pub fn least(_alloc: Global) -> Result<Locator, OutOfMemory>
        ensures digits { IfOk result (λ least. least ≡ least_digits) }
        ensures succeeds { IsOk result }
    {
        let runs = Runs::one(0);
        Ok(Locator { runs })
    }

    /// The greatest of the locators in use: `[u64::MAX]`. It takes no memory.
    pub fn greatest(_alloc: Global) -> Result<Locator, OutOfMemory>
        ensures digits { IfOk result (λ greatest. greatest ≡ greatest_digits) }
        ensures succeeds { IsOk result }
    {
        let runs = Runs::one(u64::MAX);
        Ok(Locator { runs })
    }

    /// A locator with the same digits. It does not allocate: what does not lie in the value is shared, and only the
    /// count of those that share it can be refused.
    pub fn copy(&self, _alloc: Global) -> Result<Locator, OutOfMemory>
        ensures digits { IfOk result (λ copy. copy ≡ self.now) }
        ensures short { count_runs self.now ≤ INLINE_RUNS → IsOk result }
    {
        let runs = self.runs.share()?;
        Ok(Locator { runs })
    }

    /// A locator between `a` and `b`, which it reads digit by digit, `a` continued by 0 and `b` by `u64::MAX`.
    ///
    /// Each digit is `x + ((y - x) >> 48)`, where `x` and `y` are the digits of `a` and `b` and the difference is 0
    /// where `y` is below `x`. The first digit above `x` is the last one. It takes memory only for more than
    /// [`INLINE_RUNS`] runs of equal digits, and time by the runs that it reads and gives.
    pub fn between(alloc: Global, a: &Locator, b: &Locator) -> Result<Locator, OutOfMemory>
        ensures digits { IfOk result (λ between. between ≡ between_digits a.now b.now) }

        // The locators that these calls make are proper ones, and `between` stays among them.
        ensures above { IfOk result (λ between. IsLess a.now between) }
        ensures below { IsProper a.now → IsProper b.now → IsLess a.now b.now
            → IfOk result (λ between. IsLess between b.now) }
        ensures ends { IfOk result EndsAboveZero }
        ensures grows_by_one { IfOk result (λ between. length between
            ≤ max (length a.now) (length b.now) + 1) }

        ensures short { LieInline (between_digits a.now b.now) → IsOk result }
    {
        let runs = runs_between(alloc, &a.runs, &b.runs)?;
        Ok(Locator { runs })
    }
}

// Where the digits between two others leave those of the first: behind so many of its runs and a part of the next
// comes the last digit.
#[derive(Clone, Copy)]
struct BranchPoint {
    count: usize,
    part: Run,
    digit: u64,
}

// Where `between` leaves the digits of `a`; none where there would be 2^64 digits or more.
fn branch_point(a: &Runs, b: &Runs) -> Option<BranchPoint>
    requires a_kept { IsKept a.now }
    requires b_kept { IsKept b.now }
    ensures { MatchOption result
        (2 ^ 64 ≤ length
        (between_digits (run_digits (kept_runs a.now)) (run_digits (kept_runs b.now))))
        (λ point. (point.count ≤ length (kept_runs a.now))
        × (digits_to (kept_runs a.now) point
        ≡ between_digits (run_digits (kept_runs a.now)) (run_digits (kept_runs b.now)))) }
{
    match meet(continuation(a, 0), continuation(b, u64::MAX)) {
        None => None,
        Some((met, digit)) => Some(BranchPoint {
            count: a.len() - met.ahead.len(),
            part: Run {
                digit: met.run.digit,
                count: met.taken,
            },
            digit,
        }),
    }
}

// The runs of `between`.
fn runs_between(alloc: Global, a: &Runs, b: &Runs) -> Result<Runs, OutOfMemory>
    requires a_kept { IsKept a.now }
    requires b_kept { IsKept b.now }
    ensures digits { IfOk result (λ runs. run_digits (kept_runs runs)
        ≡ between_digits (run_digits (kept_runs a.now)) (run_digits (kept_runs b.now))) }
    ensures kept { IfOk result IsKept }
    ensures short { LieInline
        (between_digits (run_digits (kept_runs a.now)) (run_digits (kept_runs b.now)))
        → IsOk result }
{
    let point = branch_point(a, b).ok_or(OutOfMemory)?;
    runs_to(alloc, a, point)
}

// The runs up to a place, and the digit behind it.
fn runs_to(alloc: Global, runs: &Runs, point: BranchPoint) -> Result<Runs, OutOfMemory>
    requires kept { IsKept runs.now }
    requires within { point.count ≤ length (kept_runs runs.now) }
    ensures digits { IfOk result (λ all. run_digits (kept_runs all)
        ≡ digits_to (kept_runs runs.now) point) }
    ensures kept { IfOk result IsKept }
    ensures short { LieInline (digits_to (kept_runs runs.now) point) → IsOk result }
{
    let one = Run {
        digit: point.digit,
        count: 1,
    };
    if point.part.count == 0 {
        return runs.with_run(alloc, point.count, one);
    }
    let front = runs.with_run(alloc, point.count, point.part)?;
    front.with_run(alloc, front.len(), one)
}

// The runs from the first digit on, and behind them one digit again and again.
fn continuation(runs: &Runs, digit: u64) -> Reader<'_>
    requires { IsKept runs.now }
    ensures { IsContinued (kept_runs runs.now) digit result }
{
    let (front, last) = runs.parts();
    let pad = Some(Run {
        digit,
        count: u64::MAX,
    });
    Reader::new(Ahead { front, last, pad })
}

// All runs.
fn whole(runs: &Runs) -> Ahead<'_>
    requires { IsKept runs.now }
    ensures full { AreFull (runs_ahead result) }
    ensures runs { runs_ahead result ≡ kept_runs runs.now }
{
    let (front, last) = runs.parts();
    Ahead {
        front,
        last,
        pad: None,
    }
}

impl PartialEq for Locator {
    ghost eq = { pointwise ◌==◌ };

    ghost laws = { Cmp.partial_equiv_from_equiv nat_list_eq_equiv };

    fn eq(&self, other: &Locator) -> bool {
        self.cmp(other).is_eq()
    }
}

impl Eq for Locator {
    ghost laws = { nat_list_eq_equiv };
}

impl PartialOrd for Locator {
    ghost partial_cmp = { λ a b. Some (slice_cmp nat_cmp a b) };

    ghost laws = { texts_po };

    fn partial_cmp(&self, other: &Locator) -> Option<Ordering> {
        Some(self.cmp(other))
    }
}

impl Ord for Locator {
    ghost cmp = { slice_cmp nat_cmp };

    ghost total = { nat_list_cmp_total };

    ghost matches_partial_cmp = { λ a b. refl };

    ghost matches_eq = { texts_ties };

    fn cmp(&self, other: &Locator) -> Ordering {
        let (mut a, mut b) = (whole(&self.runs), whole(&other.runs));
        pass_same(&mut a, &mut b);
        order(Reader::new(a), Reader::new(b))
    }
}

fn sends<X: Send>(_x: &X) {}

fn shares<X: Sync>(_x: &X) {}

/// Checked, and never run: a locator may go to another thread, and be shared with one.
fn crosses_threads(locator: &Locator) {
    sends(locator);
    shares(locator);
}
