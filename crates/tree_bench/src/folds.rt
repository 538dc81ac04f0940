//! Works on the spans of a text with folds, of which only lengths matter.
ghost use Rattle.std.specs.Prelude.{◌≤◌, ◌^◌, IfOk};
ghost use Rattle.std.specs.List.{All};
ghost use Rattle.fold_spans.specs.Spans.{text_sum, AreSpans};
ghost use Rattle.fold_spans.specs.Sweep.{IsWithin};

use bench_reports::{Done, Report, step};
use fold_spans::{FoldRange, Span, Spans, Touching, spans_of};
use std::alloc::Global;
use sum_tree::OutOfMemory;

// The length of the text, in bytes.
const LEN: u64 = 1 << 26;

/// Works on `count` folds of a text of 64 MiB: makes their spans, looks bytes up, and replaces the spans that touch a
/// place.
pub fn works(report: &mut Report<'_>, count: u32) -> Done {
    time(report, &mut Spans::new(report.alloc(), LEN)?, count)
}

fn time(report: &mut Report<'_>, spans: &mut Spans, count: u32) -> Done {
    let alloc = report.alloc();
    report.begin();
    change(alloc, spans, spans.touching(0, LEN), count, 1)?;
    report.add("Folds", spans.len());
    let (len, n) = (spans.text_len().max(1), count as u64);
    report.sum("AtText", n, |x| spans.at_text(x % len).1.spans);
    let len = spans.shown_len().max(1);
    report.sum("AtShown", n, |x| spans.at_shown(x % len).1.spans);
    change_all(alloc, spans, count)?;
    report.add("TouchReplace", spans.shown_len());
    Ok(())
}

// Replaces the spans that touch a place n times, by those of one fold in their bytes or of none.
fn change_all(alloc: Global, spans: &mut Spans, n: u32) -> Done {
    let mut x = 1u64;
    for _ in 0..n {
        x = step(x);
        let at = (x >> 20) % LEN;
        change(alloc, spans, spans.touching(at, at), (x >> 63) as u32, x)?;
    }
    Ok(())
}

// Replaces a run of spans by those of `count` folds in their bytes, drawn by chance from x on.
fn change(alloc: Global, spans: &mut Spans, run: Touching, count: u32, x: u64) -> Done {
    if run.start > run.end || run.end > LEN {
        return Ok(());
    }
    let ranges = draw(alloc, run, count, x)?;
    let made = spans_of(alloc, ranges, run.start, run.end)?;
    replace(alloc, spans, run, made)
}

// Ranges of up to 255 bytes of a run, drawn by chance from x on.
fn draw(alloc: Global, run: Touching, n: u32, x: u64) -> Result<Vec<FoldRange>, OutOfMemory>
    ensures { IfOk result (λ ranges. All (IsWithin run.start run.end) ranges.items) }
{
    let mut ranges = Vec::new(alloc);
    let mut number = x;
    for _i in 0..n {
        number = step(number);
        let len = run.end.saturating_sub(run.start).max(1);
        let start = run.start.saturating_add((number >> 20) % len);
        let end = start.saturating_add((number >> 8) % 256).min(run.end);
        if run.start <= start && start <= end {
            ranges.push(FoldRange { start, end, number })?;
        }
    }
    Ok(ranges)
}

// Replaces a run of spans, if there is room for the others.
fn replace(alloc: Global, spans: &mut Spans, run: Touching, made: Vec<Span>) -> Done
    requires spans { AreSpans made.items }
    requires text { text_sum made.items ≤ 2 ^ 26 }
{
    spans.known();
    if run.from > run.to || run.to > spans.len() || spans.len() > LEN || spans.text_len() > LEN {
        return Ok(());
    }
    if made.len() as u64 > LEN {
        return Ok(());
    }
    spans.replace(alloc, run.from, run.to, made)
}
