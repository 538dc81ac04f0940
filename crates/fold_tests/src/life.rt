//! Spans after many replacements, against a list.
ghost use Rattle.std.specs.Prelude.{◌≤◌, ◌*◌, length, IfOk};
ghost use Rattle.fold_spans.specs.Spans.{span_len, text_sum, IsSpan, AreSpans};

use crate::made::replace;
use fold_spans::{Lengths, Numbers, OutOfMemory, Span, Spans, Touching};
use std::alloc::Global;

// A span as numbers: its lengths, and the number of its fold.
#[derive(Clone, Copy, PartialEq, Eq)]
struct Sketch {
    len: u64,
    shown: u64,
    fold: Option<u64>,
}

// The next of a row of numbers that look as if drawn by chance.
fn step(x: u64) -> u64 {
    x.wrapping_mul(6364136223846793005)
        .wrapping_add(1442695040888963407)
}

// The span that x draws.
fn sketch_of(x: u64) -> Sketch {
    let len = (x >> 40) % 9 + 1;
    let fold = Some(x >> 32);
    match x >> 62 {
        0 => Sketch {
            len: 0,
            shown: 0,
            fold,
        },
        1 => Sketch {
            len,
            shown: 3,
            fold,
        },
        _ => Sketch {
            len,
            shown: len,
            fold: None,
        },
    }
}

// The same as a span.
fn span_of(alloc: Global, x: u64) -> Result<Span, OutOfMemory>
    ensures span { IfOk result IsSpan }
    ensures short { IfOk result (λ span. span_len span ≤ 9) }
{
    let len = (x >> 40) % 9 + 1;
    let mut list = Vec::new(alloc);
    list.push(x >> 32)?;
    let folds = Numbers::new(list);
    Ok(match x >> 62 {
        0 => Span::Waiting { folds },
        1 => Span::Fold { len, folds },
        _ => Span::Open { len },
    })
}

// The spans that x and its followers draw.
fn spans_from(alloc: Global, x: u64, count: u64) -> Result<Vec<Span>, OutOfMemory>
    requires { count ≤ 9 }
    ensures spans { IfOk result (λ spans. AreSpans spans.items) }
    ensures short { IfOk result (λ spans. text_sum spans.items ≤ 81) }
{
    let mut spans = Vec::new(alloc);
    let mut at = x;
    for _i in 0..count {
        spans.push(span_of(alloc, at)?)?;
        at = step(at);
    }
    Ok(spans)
}

// The list with its spans `from..to` replaced by those that x and its followers draw.
fn list_with(
    alloc: Global,
    list: &[Sketch],
    (from, to): (usize, usize),
    (x, count): (u64, u64),
) -> Result<Vec<Sketch>, OutOfMemory> {
    let mut all = Vec::new(alloc);
    all.extend_from_slice(list.get(..from).unwrap_or(&[]))?;
    let mut at = x;
    for _i in 0..count {
        all.push(sketch_of(at))?;
        at = step(at);
    }
    all.extend_from_slice(list.get(to..).unwrap_or(&[]))?;
    Ok(all)
}

fn is_like(span: Option<&Span>, sketch: Sketch) -> bool {
    let Some(span) = span else {
        return false;
    };
    let lengths = span.len() == sketch.len && span.shown_len() == sketch.shown;
    lengths && span.folds().first().copied() == sketch.fold && span.folds().len() <= 1
}

fn are_like(spans: &Spans, list: &[Sketch]) -> bool {
    let mut all = spans.len() == list.len() as u64;
    for (i, &sketch) in list.iter().enumerate() {
        all &= is_like(spans.tree().get(i as u64), sketch);
    }
    all
}

// What lies before the span that has a byte, of the text or of what is shown, or before the end.
fn before(list: &[Sketch], offset: u64, in_text: bool) -> Lengths {
    let mut before = Lengths {
        spans: 0,
        text: 0,
        shown: 0,
    };
    for sketch in list {
        let text = before.text.saturating_add(sketch.len);
        let shown = before.shown.saturating_add(sketch.shown);
        if offset < if in_text { text } else { shown } {
            return before;
        }
        before = Lengths {
            spans: before.spans.saturating_add(1),
            text,
            shown,
        };
    }
    before
}

// Whether a span stands at an index, or none does.
fn stands(list: &[Sketch], index: u64, span: Option<&Span>) -> bool {
    match list.get(index as usize) {
        Some(&sketch) => is_like(span, sketch),
        None => span.is_none(),
    }
}

fn finds(spans: &Spans, list: &[Sketch], offset: u64) -> bool {
    let (text, in_text) = spans.at_text(offset);
    let (shown, in_shown) = spans.at_shown(offset);
    let places = in_text == before(list, offset, true) && in_shown == before(list, offset, false);
    places & stands(list, in_text.spans, text) & stands(list, in_shown.spans, shown)
}

// The run of the spans that meet start..=end, one by one.
fn run_of(list: &[Sketch], start: u64, end: u64) -> Touching {
    let mut run = Touching {
        from: 0,
        to: 0,
        start: 0,
        end: 0,
    };
    let mut at = 0u64;
    for (i, sketch) in list.iter().enumerate() {
        let next = at.saturating_add(sketch.len);
        let index = (i as u64).saturating_add(1);
        if next < start {
            run.from = index;
            run.start = next;
        }
        if at <= end {
            run.to = index;
            run.end = next;
        }
        at = next;
    }
    run
}

fn touches(spans: &Spans, list: &[Sketch], start: u64, len: u64) -> bool {
    let end = start.saturating_add(len);
    if start > end {
        return false;
    }
    spans.touching(start, end) == run_of(list, start, end)
}

// Whether the numbers of a run are those of the list.
fn has_folds(
    alloc: Global,
    spans: &Spans,
    list: &[Sketch],
    (from, to): (usize, usize),
) -> Result<bool, OutOfMemory> {
    if from > to || to as u64 > spans.len() {
        return Ok(false);
    }
    let folds = spans.folds(alloc, from as u64, to as u64)?;
    let mut own = Vec::new(alloc);
    for sketch in list.get(from..to).unwrap_or(&[]) {
        if let Some(number) = sketch.fold {
            own.push(number)?;
        }
    }
    Ok(folds.as_slice() == own.as_slice())
}

// The run that x draws of a list of `len` spans.
fn drawn_run(x: u64, len: usize) -> (usize, usize) {
    let from = (x >> 20) as usize % len.saturating_add(1);
    let to = from.saturating_add((x >> 50) as usize % 6).min(len);
    (from, to)
}

// One round: a run is replaced while another owner has the old spans.
fn round(
    alloc: Global,
    spans: &mut Spans,
    list: &mut Vec<Sketch>,
    x: u64,
) -> Result<bool, OutOfMemory> {
    let (from, to) = drawn_run(x, list.len());
    let count = if list.len() > 60 { 0 } else { (x >> 30) % 8 };
    let old = spans.share()?;
    let made = spans_from(alloc, step(x), count)?;
    let replaced = replace(alloc, spans, from as u64, to as u64, made)?;
    let kept = are_like(&old, list);
    *list = list_with(alloc, list, (from, to), (step(x), count))?;
    Ok(replaced & kept)
}

fn agrees(alloc: Global, spans: &Spans, list: &[Sketch], x: u64) -> Result<bool, OutOfMemory> {
    let offset = (x >> 10) % 300;
    let found = finds(spans, list, offset) & touches(spans, list, offset, (x >> 25) % 12);
    let run = drawn_run(x >> 5, list.len());
    Ok(are_like(spans, list) & found & has_folds(alloc, spans, list, run)?)
}

fn live(alloc: Global, rounds: u64) -> Result<bool, OutOfMemory> {
    let mut spans = Spans::new(alloc, 0)?;
    let mut list = Vec::new(alloc);
    let mut x = 1;
    let mut all = true;
    for _ in 0..rounds {
        x = step(x);
        all &= round(alloc, &mut spans, &mut list, x)?;
        all &= agrees(alloc, &spans, &list, step(x))?;
    }
    Ok(all)
}

#[test]
fn replaced_spans_are_a_list(rt: HostRuntime) {
    assert!(rt; live(rt.alloc(), 4000) == Ok(true));
}
