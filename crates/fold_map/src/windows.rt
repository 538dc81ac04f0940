//! Windows of spans: the folds in them, and spans that are made again there.
ghost use Rattle.std.specs.Prelude.{◌≡◌, ◌+◌, ◌-◌, ◌≤◌, ◌^◌, ◌++◌, length, not, slice_range, IfOk, OnOk};
ghost use Rattle.std.specs.List.{All, filter};
ghost use Rattle.std.specs.Ordering.{nat_cmp};
ghost use Rattle.sum_tree.specs.Keyed.{item_of_key};
ghost use Rattle.fold_spans.specs.Spans.{folds_of, text_sum};
ghost use Rattle.fold_spans.specs.Sweep.{IsWithin};
ghost use Rattle.fold_map.specs.Numbered.{number_of, range_shares, AreFolds};
ghost use Rattle.fold_map.specs.Windows.{found_range, named_ranges, IsMadeAgain};

use crate::folds::Folds;
use crate::ranges::range_of;
use crate::{OutOfMemory, Snapshot};
use fold_spans::{FoldRange, Spans, Touching, spans_of};
use std::alloc::Global;

/// The most spans of a text.
const MOST: u64 = 1 << 40;

// Adds the range of the fold of a number, if there is one.
fn push_range(
    ranges: &mut Vec<FoldRange>,
    snapshot: &Snapshot,
    folds: &Folds,
    number: u64,
) -> Result<(), OutOfMemory>
    requires { AreFolds snapshot.now folds.now }
    ensures { OnOk result (ranges.new.items ≡ ranges.old.items
        ++ found_range snapshot.now (item_of_key nat_cmp number_of number folds.now)) }
{
    let Some(numbered) = folds.find(number) else {
        return Ok(());
    };
    ranges.push(range_of(snapshot, numbered))?;
    Ok(())
}

/// The ranges of the folds in a window, in the order of its spans: in O(log n) for each.
///
/// # Errors
///
/// Fails only if an allocation fails.
pub(crate) fn ranges_in(
    alloc: Global,
    snapshot: &Snapshot,
    folds: &Folds,
    spans: &Spans,
    window: &Touching,
) -> Result<Vec<FoldRange>, OutOfMemory>
    requires folds { AreFolds snapshot.now folds.now }
    requires order { window.now.from ≤ window.now.to }
    requires within { window.now.to ≤ length spans.now }
    ensures { IfOk result (λ rs. rs.items ≡ named_ranges snapshot.now folds.now
        (folds_of (slice_range spans.now window.now.from window.now.to))) }
{
    let numbers = spans.folds(alloc, window.from, window.to)?;
    let list = numbers.as_slice();
    let mut ranges = Vec::new(alloc);
    for number in list {
        push_range(&mut ranges, snapshot, folds, *number)?;
    }
    Ok(ranges)
}

/// Whether a range shares a byte with `s..e`.
pub(crate) fn shares(range: &FoldRange, s: u64, e: u64) -> bool
    ensures { result ≡ range_shares s e range.now }
{
    range.start.max(s) < range.end.min(e)
}

/// Takes out the ranges that share a byte with `s..e`. Does not allocate.
pub(crate) fn retain_apart(ranges: &mut Vec<FoldRange>, s: u64, e: u64)
    ensures { ranges.new.items ≡ filter (λ r. not (range_shares s e r)) ranges.old.items }
{
    ranges.retain(|range| !shares(range, s, e));
}

/// Puts spans in the place of those of a window: the spans of its bytes in the text from now on, with ranges that lie in them.
/// O(log n), and what is in the window; nodes that no other spans share are changed in place.
///
/// # Errors
///
/// Fails if an allocation fails, or if there are more than 2^40 spans.
pub(crate) fn make_again(
    alloc: Global,
    spans: &mut Spans,
    window: &Touching,
    ranges: Vec<FoldRange>,
) -> Result<(), OutOfMemory>
    requires order { window.now.from ≤ window.now.to }
    requires within { window.now.to ≤ length spans.old }
    requires ranges { All (IsWithin window.now.start window.now.end) ranges.items }
    requires room { text_sum spans.old + (window.now.end - window.now.start) ≤ 2 ^ 42 }
    ensures { OnOk result (IsMadeAgain window.now ranges.items spans.old spans.new) }
{
    let list = spans_of(alloc, ranges, window.start, window.end)?;
    spans.known();
    let kept = spans.len() - (window.to - window.from);
    if list.len() as u64 > MOST - kept {
        return Err(OutOfMemory);
    }
    spans.replace(alloc, window.from, window.to, list)
}

/// The spans after [`make_again`]; they share nodes with those that are given.
///
/// # Errors
///
/// Those of [`make_again`].
pub(crate) fn made_again(
    alloc: Global,
    spans: &Spans,
    window: &Touching,
    ranges: Vec<FoldRange>,
) -> Result<Spans, OutOfMemory>
    requires order { window.now.from ≤ window.now.to }
    requires within { window.now.to ≤ length spans.now }
    requires ranges { All (IsWithin window.now.start window.now.end) ranges.items }
    requires room { text_sum spans.now + (window.now.end - window.now.start) ≤ 2 ^ 42 }
    ensures { IfOk result (λ made. IsMadeAgain window.now ranges.items spans.now made) }
{
    let mut made = spans.share()?;
    make_again(alloc, &mut made, window, ranges)?;
    Ok(made)
}
