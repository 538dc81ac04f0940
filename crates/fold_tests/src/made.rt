//! Ranges and spans that are made where their conditions hold.
ghost use Rattle.std.specs.Prelude.{◌≡◌, ◌≤◌, ◌^◌, length, IfOk};
ghost use Rattle.std.specs.List.{All};
ghost use Rattle.fold_spans.specs.Spans.{text_sum, AreSpans};
ghost use Rattle.fold_spans.specs.Sweep.{IsWithin};

use fold_spans::{FoldRange, OutOfMemory, Span, Spans};
use std::alloc::Global;

// The most bytes and spans of a text here.
pub(crate) const MOST: u64 = 1 << 20;

// The folds of these ranges, those that lie in a text of `len` bytes, with their numbers from 0 on.
pub(crate) fn ranges_of(
    alloc: Global,
    ranges: &[(u64, u64)],
    len: u64,
) -> Result<Vec<FoldRange>, OutOfMemory>
    ensures { IfOk result (λ folds. All (IsWithin 0 len) folds.items) }
{
    let mut folds = Vec::new(alloc);
    for &(start, end) in ranges {
        let number = folds.len() as u64;
        if start <= end && end <= len {
            folds.push(FoldRange { start, end, number })?;
        }
    }
    Ok(folds)
}

// Replaces some spans, where the run is one and all are few.
pub(crate) fn replace(
    alloc: Global,
    spans: &mut Spans,
    from: u64,
    to: u64,
    made: Vec<Span>,
) -> Result<bool, OutOfMemory>
    requires spans { AreSpans made.items }
    requires text { text_sum made.items ≤ 2 ^ 20 }
{
    spans.known();
    if from > to || to > spans.len() || spans.len() > MOST || spans.text_len() > MOST {
        return Ok(false);
    }
    if made.len() as u64 > MOST {
        return Ok(false);
    }
    spans.replace(alloc, from, to, made)?;
    Ok(true)
}
