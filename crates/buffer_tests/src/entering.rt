//! Texts as they enter buffers that have LFs alone, and what such buffers refuse.
use crate::cases::{AMPLE, Case, open_lf, opened};
use crate::operations::Parts::{Counts, Pieces};
use crate::operations::{Change, Stamp, piece};
use crate::rows::assert_rows;
use crate::steps::Step::{Edit, Keep, Last, Settle, Take, Undo};
use crate::steps::{Step, comes, count_right};
use OpFault::{BadStamp, CarriageReturn, Overlap};
use Took::{Applied, Repeat, Waits};
use lamport_clock::Lamport;
use std::alloc::Global;
use std::process::Abort;
use text_buffer::{Base, Buffer, EditFault, Endings, Limits, NewFault, OpFault, Took, Unit, agree};

// Texts as they are handed in, and as they enter.
const TEXTS: &[(&str, &str)] = &[
    ("", ""),
    ("\r", "\n"),
    ("\r\n", "\n"),
    ("\n\r", "\n\n"),
    ("\r\r\n", "\n\n"),
    ("\r\n\r\n", "\n\n"),
    ("\ra", "\na"),
    ("a\r", "a\n"),
    ("a\r\n", "a\n"),
    ("é\r€\r\n😀\r", "é\n€\n😀\n"),
    ("\né\r\r", "\né\n\n"),
    ("\n\n", "\n\n"),
    ("aé€😀", "aé€😀"),
];

fn shows(rt: &impl Abort, buffer: &Buffer, text: &str) -> bool {
    buffer.text().expect(rt, "memory").as_str() == text
}

// Whether a buffer over a text keeps it as it is, beside one that has LFs alone.
fn stays(rt: &impl Abort, alloc: Global, lf: &Buffer, handed: &str) -> bool {
    let as_is = opened(rt, alloc, handed, AMPLE);
    agree(lf, &as_is);
    shows(rt, &as_is, handed) && as_is.endings() == Endings::AsIs
}

// Whether a base enters as it should, and stays as it is in a buffer of the other kind.
fn enters(rt: &impl Abort, alloc: Global, &(handed, entered): &(&str, &str)) -> bool {
    let lf = open_lf(rt, alloc, handed, AMPLE);
    let kept = stays(rt, alloc, &lf, handed);
    shows(rt, &lf, entered) && lf.endings() == Endings::Lf && kept
}

// Whether a buffer over a base that was made ready has LFs alone, and shows a text.
fn shows_over(rt: &impl Abort, alloc: Global, base: &Base, text: &str) -> bool {
    let buffer = Buffer::over(alloc, 9, base, AMPLE).expect(rt, "a buffer over a base");
    shows(rt, &buffer, text) && buffer.endings() == Endings::Lf
}

fn has_len(base: &Base, text: &str) -> bool {
    let known = base.endings() == Endings::Lf && base.is_empty() == text.is_empty();
    base.len() == text.len() as u64 && known
}

// Whether a base that is made ready enters as it should, for each of two buffers over it.
fn enters_ready(rt: &impl Abort, alloc: Global, &(handed, entered): &(&str, &str)) -> bool {
    let base = Base::new_lf(alloc, handed).expect(rt, "a base");
    let first = shows_over(rt, alloc, &base, entered);
    shows_over(rt, alloc, &base, entered) && first && has_len(&base, entered)
}

#[test]
fn a_base_enters(rt: HostRuntime) {
    assert_rows(&rt, rt.alloc(), TEXTS, enters);
    assert_rows(&rt, rt.alloc(), TEXTS, enters_ready);
}

// An edit of `[]` as it is handed in, the pieces of its operation, and the text after it.
type Entry = (&'static [Change], &'static [Change], &'static str);

const ENTRIES: &[Entry] = &[
    (&[(1, 1, "")], &[(1, 1, "")], "[]"),
    (&[(1, 1, "\r")], &[(1, 1, "\n")], "[\n]"),
    (&[(1, 1, "\r\n")], &[(1, 1, "\n")], "[\n]"),
    (&[(1, 1, "\n\r")], &[(1, 1, "\n\n")], "[\n\n]"),
    (&[(1, 1, "\r\r\n")], &[(1, 1, "\n\n")], "[\n\n]"),
    (&[(1, 1, "\r\n\r\n")], &[(1, 1, "\n\n")], "[\n\n]"),
    (
        &[(1, 1, "é\r€\r\n😀\r")],
        &[(1, 1, "é\n€\n😀\n")],
        "[é\n€\n😀\n]",
    ),
    (&[(1, 1, "a\n")], &[(1, 1, "a\n")], "[a\n]"),
    // Each text enters by itself.
    (
        &[(1, 1, "a\r"), (1, 1, "\nb")],
        &[(1, 1, "a\n"), (1, 1, "\nb")],
        "[a\n\nb]",
    ),
    (
        &[(0, 1, "\r"), (1, 2, "\r\n\r")],
        &[(0, 1, "\n"), (1, 2, "\n\n")],
        "\n\n\n",
    ),
];

const EDIT: Lamport = Lamport {
    value: 2,
    replica: 9,
};

// Whether each step comes out as it should.
fn all_come(rt: &impl Abort, alloc: Global, buffer: &mut Buffer, steps: &[Step]) -> bool {
    for &step in steps {
        if !comes(alloc, buffer, step).expect(rt, "memory") {
            return false;
        }
    }
    true
}

// Whether an edit comes to these pieces and this text, and its undo takes it back.
fn comes_to(rt: &impl Abort, alloc: Global, buffer: &mut Buffer, entry: &Entry) -> bool {
    let &(changes, made, text) = entry;
    let steps = [Edit(changes, Ok(2)), Last((2, 9), &[(1, 0)], Pieces(made))];
    let right = all_come(rt, alloc, buffer, &steps) && shows(rt, buffer, text);
    let undone = all_come(rt, alloc, buffer, &[Undo(&[EDIT], Ok(3))]);
    shows(rt, buffer, "[]") && right && undone
}

fn is_entered(rt: &impl Abort, alloc: Global, entry: &Entry) -> bool {
    comes_to(rt, alloc, &mut open_lf(rt, alloc, "[]", AMPLE), entry)
}

#[test]
fn new_texts_enter(rt: HostRuntime) {
    assert_rows(&rt, rt.alloc(), ENTRIES, is_entered);
}

const BASE: &[Stamp] = &[(1, 0)];

const BY_ONE: &[Stamp] = &[(1, 0), (2, 1)];

const RETURN: &[Change] = &[(0, 0, "\r")];

// The fault comes after those that an operation shows by itself, and before all others, whatever waits.
const RETURNS_ARE_REFUSED: Case = Case {
    name: "a CR is refused",
    base: "ab\r",
    limits: AMPLE,
    rows: &[
        (
            Take((2, 1), BASE, Pieces(RETURN), Err(CarriageReturn(0))),
            "ab\n",
        ),
        (
            Take(
                (2, 1),
                BASE,
                Pieces(&[(0, 0, "x\n"), (1, 1, "a\rb"), (1, 1, "\r")]),
                Err(CarriageReturn(1)),
            ),
            "ab\n",
        ),
        (Take((0, 1), BASE, Pieces(RETURN), Err(BadStamp)), "ab\n"),
        (
            Take(
                (2, 1),
                BASE,
                Pieces(&[(0, 2, "\r"), (1, 1, "x")]),
                Err(Overlap(1)),
            ),
            "ab\n",
        ),
        // It misses a cause, or ends past the text.
        (
            Take((9, 1), BY_ONE, Pieces(RETURN), Err(CarriageReturn(0))),
            "ab\n",
        ),
        (
            Take(
                (9, 1),
                BASE,
                Pieces(&[(9, 9, "\r\n")]),
                Err(CarriageReturn(0)),
            ),
            "ab\n",
        ),
        (Keep(0, &[]), "ab\n"),
        // Another operation of its stamp waits, then one is applied, and an equal one.
        (
            Take(
                (3, 1),
                BY_ONE,
                Pieces(&[]),
                Ok(Waits {
                    replica: 1,
                    value: 2,
                }),
            ),
            "ab\n",
        ),
        (
            Take((3, 1), BY_ONE, Pieces(RETURN), Err(CarriageReturn(0))),
            "ab\n",
        ),
        (
            Take((2, 1), BASE, Pieces(&[(0, 0, "x")]), Ok(Applied(2))),
            "xab\n",
        ),
        (
            Take((2, 1), BASE, Pieces(&[(0, 0, "x")]), Ok(Repeat)),
            "xab\n",
        ),
        (
            Take((2, 1), BASE, Pieces(RETURN), Err(CarriageReturn(0))),
            "xab\n",
        ),
        // Its author has gone on.
        (
            Take((4, 1), BASE, Pieces(RETURN), Err(CarriageReturn(0))),
            "xab\n",
        ),
        (
            Take((4, 2), BY_ONE, Counts(&[((2, 1), 1)]), Ok(Applied(1))),
            "ab\n",
        ),
        (Settle(0), "ab\n"),
        (Keep(0, &[]), "ab\n"),
    ],
};

// Texts enter whatever stands beside them, and offsets count what has entered.
const TEXTS_ENTER_ALONE: Case = Case {
    name: "each text enters alone",
    base: "a\r\nb",
    limits: AMPLE,
    rows: &[
        (Edit(&[(1, 1, "\r")], Ok(2)), "a\n\nb"),
        (Edit(&[(4, 4, "\n")], Ok(3)), "a\n\nb\n"),
        (Edit(&[(5, 5, "\r\n")], Ok(4)), "a\n\nb\n\n"),
        (
            Edit(&[(7, 7, "\r")], Err(EditFault::PastEnd(0, 6))),
            "a\n\nb\n\n",
        ),
        (
            Edit(&[(3, 2, "\r")], Err(EditFault::Reversed(0))),
            "a\n\nb\n\n",
        ),
        (Edit(&[(0, 6, "\r\r\n")], Ok(5)), "\n\n"),
        (Undo(&[EDIT], Ok(6)), "\n\n"),
    ],
};

const CASES: &[Case] = &[RETURNS_ARE_REFUSED, TEXTS_ENTER_ALONE];

fn count_case(rt: &impl Abort, alloc: Global, case: &Case) -> usize {
    let buffer = open_lf(rt, alloc, case.base, case.limits);
    count_right(rt, alloc, buffer, case.rows)
}

#[test]
fn calls_of_buffers_with_lfs_alone(rt: HostRuntime) {
    for case in CASES {
        let right = count_case(&rt, rt.alloc(), case);
        assert!(rt; right == case.rows.len(), "{}: row {right}", case.name);
    }
}

const FEW: Limits = Limits {
    bytes: 5,
    entries: 2,
};

// A base, and how many bytes pass the limit, as it came and once it has entered.
type Counted = (&'static str, Option<u64>, Option<u64>);

const BASES: &[Counted] = &[
    ("abcde", None, None),
    ("ab\r\nc\r\n", Some(7), None),
    ("ab\r\n\r\nc\r\n", Some(9), Some(6)),
    ("abcdef", Some(6), Some(6)),
];

// Why no buffer is made over a base.
fn fault_of(alloc: Global, endings: Endings, base: &str) -> Option<NewFault> {
    match endings {
        Endings::AsIs => Buffer::new(alloc, 9, base, FEW).err(),
        Endings::Lf => Buffer::new_lf(alloc, 9, base, FEW).err(),
    }
}

fn full(adds: u64) -> NewFault {
    NewFault::Full {
        unit: Unit::Bytes,
        held: 0,
        adds,
    }
}

fn is_counted<R: Abort>(_rt: &R, alloc: Global, &(base, came, entered): &Counted) -> bool {
    let as_is = fault_of(alloc, Endings::AsIs, base) == came.map(full);
    fault_of(alloc, Endings::Lf, base) == entered.map(full) && as_is
}

#[test]
fn a_base_is_counted_as_it_enters(rt: HostRuntime) {
    assert_rows(&rt, rt.alloc(), BASES, is_counted);
}

// A CR LF, and after it letters.
fn long_text(rt: &impl Abort, alloc: Global, letters: usize) -> String {
    let mut text = String::new(alloc);
    text.push_str("\r\n").expect(rt, "memory");
    for _ in 0..letters {
        text.push('x').expect(rt, "memory");
    }
    text
}

// Whether an edit that puts a CR LF and letters into an empty text leaves this length, or meets this fault.
fn is_put(
    rt: &impl Abort,
    alloc: Global,
    buffer: &mut Buffer,
    letters: usize,
    wanted: Result<u64, EditFault>,
) -> bool {
    let text = long_text(rt, alloc, letters);
    let change = piece(alloc, 0, 0, text.as_str()).expect(rt, "memory");
    match buffer.edit_uncounted(&[change]) {
        Ok(_made) => wanted == Ok(buffer.summary().len),
        Err(fault) => wanted == Err(fault),
    }
}

// How many letters there are after a CR LF, and the length or the fault, in a buffer that has LFs alone and in one that
// keeps what comes.
type Long = (usize, Result<u64, EditFault>, Result<u64, EditFault>);

const LONG: &[Long] = &[
    (65_534, Ok(65_535), Ok(65_536)),
    (65_535, Ok(65_536), Err(EditFault::TextLimit(65_537))),
    (
        65_536,
        Err(EditFault::TextLimit(65_537)),
        Err(EditFault::TextLimit(65_538)),
    ),
];

fn is_put_as_it_came(
    rt: &impl Abort,
    alloc: Global,
    letters: usize,
    wanted: Result<u64, EditFault>,
) -> bool {
    is_put(
        rt,
        alloc,
        &mut opened(rt, alloc, "", AMPLE),
        letters,
        wanted,
    )
}

fn are_put(rt: &impl Abort, alloc: Global, &(letters, lf, as_is): &Long) -> bool {
    let kept = is_put_as_it_came(rt, alloc, letters, as_is);
    is_put(rt, alloc, &mut open_lf(rt, alloc, "", AMPLE), letters, lf) && kept
}

#[test]
fn new_texts_are_counted_as_they_enter(rt: HostRuntime) {
    assert_rows(&rt, rt.alloc(), LONG, are_put);
}
