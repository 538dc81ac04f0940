//! Runs read in order, from one place to the next.
ghost use Rattle.std.specs.Prelude.{◌≡◌, ◌+◌, ◌<◌, ◌≤◌, ◌++◌, [], None, replicate, length, min, MatchOption, option_to_list};
ghost use Rattle.std.specs.Cmp.Lexicographic.{slice_cmp};
ghost use Rattle.std.specs.Ordering.{nat_cmp};
ghost use Rattle.locators.specs.Locator.{middle, between_digits};
ghost use Rattle.locators.specs.Runs.{run_digits};
ghost use Rattle.locators.specs.Reading.{from_whole, digits_left, runs_ahead, AreFull, GoesOn, IsReady, IsStep, Meet};

use crate::runs::Run;
use std::cmp::Ordering;

// Runs that are still to be read: a front, what follows it, and one that comes after all others.
#[derive(Clone, Copy)]
pub(crate) struct Ahead<'a> {
    pub(crate) front: &'a [Run],
    pub(crate) last: &'a [Run],
    pub(crate) pad: Option<Run>,
}

impl Ahead<'_> {
    // Takes the first run.
    fn next(&mut self) -> Option<Run>
        ensures runs { runs_ahead self.old ≡ option_to_list result ++ runs_ahead self.new }
        ensures none { result ≡ None → runs_ahead self.old ≡ [] }
    {
        if let Some((run, rest)) = self.front.split_first() {
            self.front = rest;
            return Some(*run);
        }
        if let Some((run, rest)) = self.last.split_first() {
            self.last = rest;
            return Some(*run);
        }
        self.pad.take()
    }

    // How many runs are ahead.
    pub(crate) fn len(&self) -> usize
        ensures { result ≡ length (runs_ahead self.now) }
    {
        self.front.len() + self.last.len() + usize::from(self.pad.is_some())
    }
}

// A place in runs: what is left of the present one, how many of its digits were read, and the runs ahead.
#[derive(Clone, Copy)]
pub(crate) struct Reader<'a> {
    pub(crate) run: Run,
    pub(crate) taken: u64,
    pub(crate) ahead: Ahead<'a>,
}

impl<'a> Reader<'a> {
    // Before the first digit.
    pub(crate) fn new(mut ahead: Ahead<'a>) -> Reader<'a>
        requires { AreFull (runs_ahead ahead) }
        ensures ready { IsReady result }
        ensures left { digits_left result ≡ run_digits (runs_ahead ahead.entry) }
        ensures whole { 0 < length (runs_ahead ahead.entry)
            → from_whole result ≡ runs_ahead ahead.entry }
        ensures taken { result.taken ≡ 0 }
    {
        let run = ahead.next().unwrap_or_default();
        Reader {
            run,
            taken: 0,
            ahead,
        }
    }

    // Reads digits of the present run.
    fn skip(&mut self, count: u64)
        requires ready { IsReady self.old }
        requires within { count ≤ self.old.run.count }
        ensures ready { IsReady self.new }
        ensures left { digits_left self.old
            ≡ replicate count self.old.run.digit ++ digits_left self.new }
        ensures place { GoesOn self.old self.new }
    {
        self.run.count -= count;
        self.taken += count;
        if self.run.count == 0
            && let Some(run) = self.ahead.next()
        {
            self.run = run;
            self.taken = 0;
        }
    }
}

// Reads of both as many digits as stand in both present runs.
fn step(a: &mut Reader<'_>, b: &mut Reader<'_>)
    requires a_ready { IsReady a.old }
    requires b_ready { IsReady b.old }
    requires a_some { 0 < a.old.run.count }
    requires b_some { 0 < b.old.run.count }
    ensures { IsStep a.old b.old a.new b.new }
{
    let count = a.run.count.min(b.run.count);
    a.skip(count);
    b.skip(count);
}

// The first place at which there is room above the digit of `a`, and the digit there; none where the digits end before.
pub(crate) fn meet<'a>(mut a: Reader<'a>, mut b: Reader<'_>) -> Option<(Reader<'a>, u64)>
    requires a_ready { IsReady a }
    requires b_ready { IsReady b }
    ensures { MatchOption result
        (min (length (digits_left a.entry)) (length (digits_left b.entry))
        < length (between_digits (digits_left a.entry) (digits_left b.entry)))
        (λ met. Meet a.entry b.entry met.0 met.1) }
{
    'along: while a.run.count > 0 && b.run.count > 0 {
        let digit = digit_between(a.run.digit, b.run.digit);
        if a.run.digit < digit {
            return Some((a, digit));
        }
        step(&mut a, &mut b);
    }
    None
}

fn digit_between(low: u64, high: u64) -> u64
    ensures { result ≡ middle low high }
{
    low + (high.saturating_sub(low) >> 48)
}

// Passes the runs with which both fronts begin, one by one.
pub(crate) fn pass_same(a: &mut Ahead<'_>, b: &mut Ahead<'_>)
    requires a_full { AreFull (runs_ahead a.old) }
    requires b_full { AreFull (runs_ahead b.old) }
    ensures a_full { AreFull (runs_ahead a.new) }
    ensures b_full { AreFull (runs_ahead b.new) }
    ensures order { slice_cmp nat_cmp (run_digits (runs_ahead a.old))
        (run_digits (runs_ahead b.old))
        ≡ slice_cmp nat_cmp (run_digits (runs_ahead a.new)) (run_digits (runs_ahead b.new)) }
{
    'same: while let Some((run, behind)) = a.front.split_first() {
        match b.front.split_first() {
            Some((other, rest)) if run.digit == other.digit && run.count == other.count => {
                a.front = behind;
                b.front = rest;
            }
            _ => return,
        }
    }
}

// The order of the digits.
pub(crate) fn order(mut a: Reader<'_>, mut b: Reader<'_>) -> Ordering
    requires a_ready { IsReady a }
    requires b_ready { IsReady b }
    ensures { result ≡ slice_cmp nat_cmp (digits_left a.entry) (digits_left b.entry) }
{
    'equal: while a.run.count > 0 && b.run.count > 0 {
        if a.run.digit != b.run.digit {
            return a.run.digit.cmp(&b.run.digit);
        }
        step(&mut a, &mut b);
    }
    a.run.count.cmp(&b.run.count)
}
