//! Spans made from the ranges of folds.
ghost use Rattle.std.specs.Prelude.{◌≡◌, ◌-◌, [], ◌∷◌, ◌++◌, ℕ, List, map, IfOk, OnOk};
ghost use Rattle.std.specs.List.{All};
ghost use Rattle.fold_spans.specs.Marks.{marks};
ghost use Rattle.fold_spans.specs.Spans.{marks_of, text_sum, some_open, AreSpans};
ghost use Rattle.fold_spans.specs.Sweep.{range_of, IsWithin, HaveFolds, run_of, takes, with_range, span_of, swept, sweep};
ghost use Rattle.fold_spans.specs.declared.sweep.FoldRange.{FoldRange};

use crate::OutOfMemory;
use crate::span::{Numbers, Span};
use std::alloc::Global;
use std::mem;

/// The range of the text that a fold holds, in bytes, and the fold's number.
#[derive(Clone, Copy, Debug, PartialEq, Eq, PartialOrd, Ord)]
pub struct FoldRange {
    /// The first byte of the range.
    pub start: u64,
    /// The byte after its last; the range holds no byte if this is its start.
    pub end: u64,
    /// The number of the fold.
    pub number: u64,
}

// Ranges that go into one span: those of one ⋯, or those without bytes at one place.
#[derive(Drop)]
struct Run {
    start: u64,
    end: u64,
    folds: Numbers,
}

impl Run {
    // The run of one range.
    fn new(alloc: Global, range: &FoldRange) -> Result<Run, OutOfMemory>
        ensures { IfOk result (λ run. run ≡ run_of range.now) }
    {
        let folds = Numbers::one(alloc, range.number)?;
        Ok(Run {
            start: range.start,
            end: range.end,
            folds,
        })
    }

    // Whether the next range goes into the same span: it begins before the end of the ⋯, or has no bytes at the same place.
    fn takes(&self, range: &FoldRange) -> bool
        ensures { result ≡ takes self.now range.now }
    {
        if self.start < self.end {
            range.start < self.end
        } else {
            range.end == self.end
        }
    }

    // The next range goes into it.
    fn add(&mut self, range: &FoldRange) -> Result<(), OutOfMemory>
        ensures { OnOk result (self.new ≡ with_range self.old range.now) }
    {
        self.folds.push(range.number)?;
        self.end = self.end.max(range.end);
        Ok(())
    }

    fn into_span(self) -> Span
        ensures { result ≡ span_of self }
    {
        if self.start < self.end {
            Span::Fold {
                len: self.end - self.start,
                folds: self.folds,
            }
        } else {
            Span::Waiting { folds: self.folds }
        }
    }
}

// Adds the bytes `from..to` as they are, if there are any.
fn push_open(spans: &mut Vec<Span>, from: u64, to: u64) -> Result<(), OutOfMemory>
    ensures { OnOk result (spans.new.items ≡ spans.old.items ++ some_open (to - from)) }
{
    if from < to {
        spans.push(Span::Open { len: to - from })?;
    }
    Ok(())
}

// The spans up to a run, and the run.
#[derive(Drop)]
struct Sweep {
    spans: Vec<Span>,
    run: Run,
}

impl Sweep {
    // Goes on to the next range.
    fn add(&mut self, alloc: Global, range: &FoldRange) -> Result<(), OutOfMemory>
        ensures { OnOk result ((rest : List FoldRange) (end : ℕ)
            → self.new.spans.items ++ swept self.new.run rest end
            ≡ self.old.spans.items ++ swept self.old.run (range.now ∷ rest) end) }
    {
        if self.run.takes(range) {
            return self.run.add(range);
        }
        let next = Run::new(alloc, range)?;
        let run = mem::replace(&mut self.run, next);
        let end = run.end;
        self.spans.push(run.into_span())?;
        push_open(&mut self.spans, end, range.start)
    }

    // The spans up to the end of the text.
    fn finish(self, end: u64) -> Result<Vec<Span>, OutOfMemory>
        ensures { IfOk result (λ spans. spans.items ≡ self.spans.items ++ swept self.run [] end) }
    {
        let Sweep { mut spans, run } = self;
        let from = run.end;
        spans.push(run.into_span())?;
        push_open(&mut spans, from, end)?;
        Ok(spans)
    }
}

// The spans of sorted ranges, which are gone through once.
fn sorted_spans(
    alloc: Global,
    ranges: &[FoldRange],
    start: u64,
    end: u64,
) -> Result<Vec<Span>, OutOfMemory>
    ensures { IfOk result (λ spans. spans.items ≡ sweep start ranges.now end) }
{
    let mut spans = Vec::new(alloc);
    let Some((first, rest)) = ranges.split_first() else {
        push_open(&mut spans, start, end)?;
        return Ok(spans);
    };
    push_open(&mut spans, start, first.start)?;
    let run = Run::new(alloc, first)?;
    let mut sweep = Sweep { spans, run };
    for range in rest {
        sweep.add(alloc, range)?;
    }
    sweep.finish(end)
}

/// The spans of the bytes `start..end` of a text, of which these ranges are folded. All ranges lie in `start..end`, and none ends
/// before its start.
///
/// Ranges that share a byte make one ⋯, and ranges that only touch make two. A fold whose range holds no byte goes with the ⋯ that
/// it is strictly inside of, if there is one, and else waits at its place. O(n log n) for n ranges, which are sorted in place.
///
/// # Errors
///
/// Fails only if an allocation fails. The ranges are dropped.
pub fn spans_of(
    alloc: Global,
    mut ranges: Vec<FoldRange>,
    start: u64,
    end: u64,
) -> Result<Vec<Span>, OutOfMemory>
    requires { All (IsWithin start end) ranges.items }
    ensures marks { IfOk result (λ spans. marks_of spans.items
        ≡ marks (map range_of ranges.items) start (end - start)) }
    ensures folds { IfOk result (λ spans. HaveFolds start spans.items ranges.items) }
    ensures spans { IfOk result (λ spans. AreSpans spans.items) }
    ensures len { IfOk result (λ spans. text_sum spans.items ≡ end - start) }
{
    ranges.sort_unstable();
    sorted_spans(alloc, &ranges, start, end)
}
