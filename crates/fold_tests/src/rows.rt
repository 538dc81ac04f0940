//! What texts with folded ranges show, by rows that were made outside.
use crate::made::{MOST, ranges_of, replace};
use fold_spans::{OutOfMemory, Span, Spans, spans_of};
use std::alloc::Global;
use tree_cursor::Bias;

// A text, the ranges of its folds, whose numbers count from 0, and what it shows: the spans with their lengths and their numbers, the
// place in what is shown of each place, and the way back, each to the left and to the right.
struct Row<'a> {
    name: &'a str,
    text: &'a str,
    ranges: &'a [(u64, u64)],
    shown: &'a str,
    spans: &'a [(u64, &'a [u64])],
    to_shown: &'a [(u64, u64)],
    to_text: &'a [(u64, u64)],
}

const ROWS: &[Row] = &[
    Row {
        name: "the example",
        text: "abcdef",
        ranges: &[(1, 3), (2, 4)],
        shown: "a⋯ef",
        spans: &[(1, &[]), (3, &[0, 1]), (2, &[])],
        to_shown: &[(0, 0), (1, 1), (1, 4), (1, 4), (4, 4), (5, 5), (6, 6)],
        to_text: &[(0, 0), (1, 1), (1, 4), (1, 4), (4, 4), (5, 5), (6, 6)],
    },
    Row {
        name: "no text",
        text: "",
        ranges: &[],
        shown: "",
        spans: &[],
        to_shown: &[(0, 0)],
        to_text: &[(0, 0)],
    },
    Row {
        name: "no text, folds wait",
        text: "",
        ranges: &[(0, 0), (0, 0)],
        shown: "",
        spans: &[(0, &[0, 1])],
        to_shown: &[(0, 0)],
        to_text: &[(0, 0)],
    },
    Row {
        name: "no folds",
        text: "ab",
        ranges: &[],
        shown: "ab",
        spans: &[(2, &[])],
        to_shown: &[(0, 0), (1, 1), (2, 2)],
        to_text: &[(0, 0), (1, 1), (2, 2)],
    },
    Row {
        name: "ranges that touch are two",
        text: "abcdefg",
        ranges: &[(1, 3), (3, 5)],
        shown: "a⋯⋯fg",
        spans: &[(1, &[]), (2, &[0]), (2, &[1]), (2, &[])],
        to_shown: &[
            (0, 0),
            (1, 1),
            (1, 4),
            (4, 4),
            (4, 7),
            (7, 7),
            (8, 8),
            (9, 9),
        ],
        to_text: &[
            (0, 0),
            (1, 1),
            (1, 3),
            (1, 3),
            (3, 3),
            (3, 5),
            (3, 5),
            (5, 5),
            (6, 6),
            (7, 7),
        ],
    },
    Row {
        name: "ranges nested",
        text: "abcdefg",
        ranges: &[(1, 6), (2, 4), (3, 3), (2, 6)],
        shown: "a⋯g",
        spans: &[(1, &[]), (5, &[0, 1, 3, 2]), (1, &[])],
        to_shown: &[
            (0, 0),
            (1, 1),
            (1, 4),
            (1, 4),
            (1, 4),
            (1, 4),
            (4, 4),
            (5, 5),
        ],
        to_text: &[(0, 0), (1, 1), (1, 6), (1, 6), (6, 6), (7, 7)],
    },
    Row {
        name: "ranges chained",
        text: "abcdefgh",
        ranges: &[(4, 6), (1, 3), (2, 5)],
        shown: "a⋯gh",
        spans: &[(1, &[]), (5, &[1, 2, 0]), (2, &[])],
        to_shown: &[
            (0, 0),
            (1, 1),
            (1, 4),
            (1, 4),
            (1, 4),
            (1, 4),
            (4, 4),
            (5, 5),
            (6, 6),
        ],
        to_text: &[(0, 0), (1, 1), (1, 6), (1, 6), (6, 6), (7, 7), (8, 8)],
    },
    Row {
        name: "a range twice",
        text: "abcd",
        ranges: &[(1, 3), (1, 3)],
        shown: "a⋯d",
        spans: &[(1, &[]), (2, &[0, 1]), (1, &[])],
        to_shown: &[(0, 0), (1, 1), (1, 4), (4, 4), (5, 5)],
        to_text: &[(0, 0), (1, 1), (1, 3), (1, 3), (3, 3), (4, 4)],
    },
    Row {
        name: "both ends",
        text: "abcd",
        ranges: &[(0, 2), (3, 4)],
        shown: "⋯c⋯",
        spans: &[(2, &[0]), (1, &[]), (1, &[1])],
        to_shown: &[(0, 0), (0, 3), (3, 3), (4, 4), (7, 7)],
        to_text: &[
            (0, 0),
            (0, 2),
            (0, 2),
            (2, 2),
            (3, 3),
            (3, 4),
            (3, 4),
            (4, 4),
        ],
    },
    Row {
        name: "all",
        text: "abcd",
        ranges: &[(0, 4)],
        shown: "⋯",
        spans: &[(4, &[0])],
        to_shown: &[(0, 0), (0, 3), (0, 3), (0, 3), (3, 3)],
        to_text: &[(0, 0), (0, 4), (0, 4), (4, 4)],
    },
    Row {
        name: "folds wait at both ends and between",
        text: "abc",
        ranges: &[(3, 3), (1, 1), (0, 0), (1, 1)],
        shown: "abc",
        spans: &[(0, &[2]), (1, &[]), (0, &[1, 3]), (2, &[]), (0, &[0])],
        to_shown: &[(0, 0), (1, 1), (2, 2), (3, 3)],
        to_text: &[(0, 0), (1, 1), (2, 2), (3, 3)],
    },
    Row {
        name: "a fold waits at both ends of a dots and inside it",
        text: "abcdef",
        ranges: &[(4, 4), (1, 1), (3, 3), (1, 4)],
        shown: "a⋯ef",
        spans: &[(1, &[]), (0, &[1]), (3, &[3, 2]), (0, &[0]), (2, &[])],
        to_shown: &[(0, 0), (1, 1), (1, 4), (1, 4), (4, 4), (5, 5), (6, 6)],
        to_text: &[(0, 0), (1, 1), (1, 4), (1, 4), (4, 4), (5, 5), (6, 6)],
    },
    Row {
        name: "a fold waits between two dots",
        text: "abcd",
        ranges: &[(0, 2), (2, 2), (2, 4)],
        shown: "⋯⋯",
        spans: &[(2, &[0]), (0, &[1]), (2, &[2])],
        to_shown: &[(0, 0), (0, 3), (3, 3), (3, 6), (6, 6)],
        to_text: &[(0, 0), (0, 2), (0, 2), (2, 2), (2, 4), (2, 4), (4, 4)],
    },
    Row {
        name: "characters of 2 to 4 bytes",
        text: "é€😀é",
        ranges: &[(2, 9), (5, 9)],
        shown: "é⋯é",
        spans: &[(2, &[]), (7, &[0, 1]), (2, &[])],
        to_shown: &[
            (0, 0),
            (1, 1),
            (2, 2),
            (2, 5),
            (2, 5),
            (2, 5),
            (2, 5),
            (2, 5),
            (2, 5),
            (5, 5),
            (6, 6),
            (7, 7),
        ],
        to_text: &[
            (0, 0),
            (1, 1),
            (2, 2),
            (2, 9),
            (2, 9),
            (9, 9),
            (10, 10),
            (11, 11),
        ],
    },
    Row {
        name: "dots in the text",
        text: "a⋯b⋯",
        ranges: &[(1, 4), (5, 8)],
        shown: "a⋯b⋯",
        spans: &[(1, &[]), (3, &[0]), (1, &[]), (3, &[1])],
        to_shown: &[
            (0, 0),
            (1, 1),
            (1, 4),
            (1, 4),
            (4, 4),
            (5, 5),
            (5, 8),
            (5, 8),
            (8, 8),
        ],
        to_text: &[
            (0, 0),
            (1, 1),
            (1, 4),
            (1, 4),
            (4, 4),
            (5, 5),
            (5, 8),
            (5, 8),
            (8, 8),
        ],
    },
    Row {
        name: "dots in the text that stay",
        text: "⋯ab⋯",
        ranges: &[(3, 5)],
        shown: "⋯⋯⋯",
        spans: &[(3, &[]), (2, &[0]), (3, &[])],
        to_shown: &[
            (0, 0),
            (1, 1),
            (2, 2),
            (3, 3),
            (3, 6),
            (6, 6),
            (7, 7),
            (8, 8),
            (9, 9),
        ],
        to_text: &[
            (0, 0),
            (1, 1),
            (2, 2),
            (3, 3),
            (3, 5),
            (3, 5),
            (5, 5),
            (6, 6),
            (7, 7),
            (8, 8),
        ],
    },
];

// The spans of a row's text.
fn spans_in(alloc: Global, row: &Row) -> Result<Spans, OutOfMemory> {
    let len = row.text.len() as u64;
    if len > MOST {
        return Spans::new(alloc, 0);
    }
    let ranges = ranges_of(alloc, row.ranges, len)?;
    let made = spans_of(alloc, ranges, 0, len)?;
    let mut spans = Spans::new(alloc, len)?;
    let all = spans.len();
    replace(alloc, &mut spans, 0, all, made)?;
    Ok(spans)
}

// Whether a span has these numbers and this length: an open one has no numbers, and a fold waits where there is no byte.
fn is_span(span: Option<&Span>, (len, folds): (u64, &[u64])) -> bool {
    match span {
        Some(Span::Open { len: own }) => *own == len && folds.is_empty(),
        Some(
            Span::Fold {
                len: own,
                folds: numbers,
            },
        ) => *own == len && numbers.as_slice() == folds,
        Some(Span::Waiting { folds: numbers }) => len == 0 && numbers.as_slice() == folds,
        None => false,
    }
}

fn has_spans(spans: &Spans, row: &Row) -> bool {
    let mut all = spans.len() == row.spans.len() as u64;
    for (i, &span) in row.spans.iter().enumerate() {
        all &= is_span(spans.tree().get(i as u64), span);
    }
    all
}

// The bytes that are shown for a span of the bytes from `at` on.
fn push_shown(shown: &mut Vec<u8>, span: &Span, text: &[u8], at: usize) -> Result<(), OutOfMemory> {
    match span {
        Span::Open { .. } => {
            let end = at.saturating_add(span.len() as usize);
            shown.extend_from_slice(text.get(at..end).unwrap_or(&[]))
        }
        Span::Fold { .. } => shown.extend_from_slice("⋯".as_bytes()),
        Span::Waiting { .. } => Ok(()),
    }
}

fn has_shown(alloc: Global, spans: &Spans, row: &Row) -> Result<bool, OutOfMemory> {
    let mut shown = Vec::new(alloc);
    let mut at = 0usize;
    for i in 0..spans.len() {
        if let Some(span) = spans.tree().get(i) {
            push_shown(&mut shown, span, row.text.as_bytes(), at)?;
            at = at.saturating_add(span.len() as usize);
        }
    }
    Ok(shown.as_slice() == row.shown.as_bytes() && spans.shown_len() == row.shown.len() as u64)
}

// The shown place of a place on both sides, where there is such a place.
fn to_shown(spans: &Spans, offset: u64) -> Option<(u64, u64)> {
    if offset > spans.text_len() {
        return None;
    }
    let left = spans.shown_place(offset, Bias::Left);
    Some((left, spans.shown_place(offset, Bias::Right)))
}

// The place of a shown place on both sides, where there is such a place.
fn to_text(spans: &Spans, offset: u64) -> Option<(u64, u64)> {
    if offset > spans.shown_len() {
        return None;
    }
    let left = spans.text_place(offset, Bias::Left);
    Some((left, spans.text_place(offset, Bias::Right)))
}

fn has_places(spans: &Spans, row: &Row) -> bool {
    let mut all = true;
    for (offset, &place) in row.to_shown.iter().enumerate() {
        all &= to_shown(spans, offset as u64) == Some(place);
    }
    for (offset, &place) in row.to_text.iter().enumerate() {
        all &= to_text(spans, offset as u64) == Some(place);
    }
    all
}

fn holds(alloc: Global, row: &Row) -> Result<bool, OutOfMemory> {
    let spans = spans_in(alloc, row)?;
    Ok(has_spans(&spans, row) & has_shown(alloc, &spans, row)? & has_places(&spans, row))
}

#[test]
fn texts_show_their_folds(rt: HostRuntime) {
    for row in ROWS {
        assert!(rt; holds(rt.alloc(), row) == Ok(true), "{}", row.name);
    }
}
