//! The lines of reports as they are written.
use crate::tally::{Host, Tally};
use lamport_clock::Lamport;
use op_model::{
    EditFault, OpFault, OutOfMemory, PlaceFault, SinceFault, Text, TextEdit, UndoFault, Unit,
};
use session_lines::{
    AnchorAnswer, FindAnswer, GiveAnswer, Numbers, OffsetAnswer, PointAnswer, QueryAnswer, Report,
    SinceAnswer, TextEdits, TextHead, WhereAnswer, write_line, write_text,
};
use std::alloc::Global;
use text_dims::{OffsetUtf16, Point, PointUtf16};

/// Writes the lines of each table.
pub fn test<R: Host>(rt: &R, tally: &mut Tally) {
    for (plain, want) in LINES {
        let is_right = writes_plain(rt.alloc(), *plain, want) == Ok(true);
        tally.note(rt, "writing", want, is_right);
    }
    for (owned, want) in OWNED {
        let is_right = writes_owned(rt.alloc(), *owned, want) == Ok(true);
        tally.note(rt, "writing", want, is_right);
    }
    for (head, want) in PARTS {
        let is_right = writes_parts(rt.alloc(), *head, want) == Ok(true);
        tally.note(rt, "writing in parts", want, is_right);
    }
}

fn writes_plain(alloc: Global, plain: Plain, want: &str) -> Result<bool, OutOfMemory> {
    writes(alloc, &plain_line(plain), want)
}

fn writes_owned(alloc: Global, owned: Owned, want: &str) -> Result<bool, OutOfMemory> {
    let line = owned_line(alloc, owned)?;
    writes(alloc, &line, want)
}

// Whether the line is written after another text.
fn writes(alloc: Global, line: &Report, want: &str) -> Result<bool, OutOfMemory> {
    let mut out = b"before\n".to_vec(alloc)?;
    write_line(alloc, &mut out, line)?;
    Ok(is_after(out.as_slice(), want))
}

// Whether one line was written after another text.
fn is_after(out: &[u8], want: &str) -> bool {
    match out.strip_prefix(b"before\n") {
        Some(line) => line.strip_suffix(b"\n") == Some(want.as_bytes()),
        None => false,
    }
}

const STAMP: Lamport = Lamport {
    value: 3,
    replica: 2,
};

const OTHER: Lamport = Lamport {
    value: 7,
    replica: 1,
};

const LAST: Lamport = Lamport {
    value: 4_294_967_294,
    replica: 7,
};

// A line that owns nothing.
#[derive(Clone, Copy)]
enum Plain {
    Made(Lamport),
    Edit(EditFault),
    Undo(UndoFault),
    Unnamed(u64),
    Settled(u64),
    Reopen(u64),
    Give(GiveAnswer),
    Op(OpFault),
    EmptyNeedle,
    Point(PointAnswer),
    Offset(OffsetAnswer),
    Replica,
}

fn plain_line(plain: Plain) -> Report {
    match plain {
        Plain::Made(stamp) => Report::Made { number: 12, stamp },
        Plain::Edit(fault) => Report::EditRefused { number: 3, fault },
        Plain::Undo(fault) => Report::UndoRefused { number: 4, fault },
        Plain::Unnamed(named) => Report::Unnamed { number: 4, named },
        Plain::Settled(count) => Report::Settled { replica: 2, count },
        Plain::Reopen(count) => Report::Reopen { replica: 3, count },
        Plain::Give(answer) => Report::Give {
            number: 12,
            replica: 1023,
            answer,
        },
        Plain::Op(fault) => Report::Refused {
            replica: 9,
            stamp: STAMP,
            fault,
        },
        Plain::EmptyNeedle => query_line(QueryAnswer::Find(FindAnswer::EmptyNeedle)),
        Plain::Point(answer) => query_line(QueryAnswer::Point(answer)),
        Plain::Offset(answer) => query_line(QueryAnswer::Offset(answer)),
        Plain::Replica => Report::Replica {
            replica: 1023,
            bytes: 3,
            rows: 2,
            applied: 4,
            waiting: 5,
            refused: 6,
        },
    }
}

// The line of query 12, answered on 34 operations.
fn query_line(answer: QueryAnswer) -> Report {
    Report::Query {
        number: 12,
        applied: 34,
        answer,
    }
}

const LINES: &[(Plain, &str)] = &[
    (Plain::Edit(EditFault::Reversed(0)), "3: reversed 0"),
    (Plain::Edit(EditFault::Overlap(1)), "3: overlap 1"),
    (Plain::Edit(EditFault::PastEnd(0, 2)), "3: pastend 0 2"),
    (Plain::Edit(EditFault::InsideChar(3)), "3: insidechar 3"),
    (
        Plain::Edit(EditFault::TextLimit(65_537)),
        "3: textlimit 65537",
    ),
    (Plain::Edit(EditFault::ClockEnd), "3: clockend"),
    (
        Plain::Edit(EditFault::Full {
            unit: Unit::Bytes,
            held: 3,
            adds: 4,
        }),
        "3: full bytes 3 4",
    ),
    (
        Plain::Edit(EditFault::Full {
            unit: Unit::Entries,
            held: 5,
            adds: 6,
        }),
        "3: full entries 5 6",
    ),
    (
        Plain::Undo(UndoFault::NoSuchEdit(OTHER)),
        "4: nosuchedit 7.1",
    ),
    (Plain::Undo(UndoFault::Twice(OTHER)), "4: twice 7.1"),
    (Plain::Undo(UndoFault::CountEnd(OTHER)), "4: countend 7.1"),
    (Plain::Undo(UndoFault::ClockEnd), "4: clockend"),
    (
        Plain::Undo(UndoFault::Full {
            unit: Unit::Entries,
            held: 5,
            adds: 6,
        }),
        "4: full entries 5 6",
    ),
    (Plain::Op(OpFault::BadStamp), "refused 9: 3.2 badstamp"),
    (Plain::Op(OpFault::NoBase), "refused 9: 3.2 nobase"),
    (
        Plain::Op(OpFault::TextLimit(65_537)),
        "refused 9: 3.2 textlimit 65537",
    ),
    (Plain::Op(OpFault::Reversed(0)), "refused 9: 3.2 reversed 0"),
    (Plain::Op(OpFault::Overlap(1)), "refused 9: 3.2 overlap 1"),
    (
        Plain::Op(OpFault::CarriageReturn(2)),
        "refused 9: 3.2 carriage 2",
    ),
    (
        Plain::Op(OpFault::Conflict(OTHER)),
        "refused 9: 3.2 conflict 7.1",
    ),
    (Plain::Op(OpFault::Forked(2)), "refused 9: 3.2 forked 2"),
    (
        Plain::Op(OpFault::OpenVersion(1)),
        "refused 9: 3.2 openversion 1",
    ),
    (
        Plain::Op(OpFault::PastEnd(0, 2)),
        "refused 9: 3.2 pastend 0 2",
    ),
    (
        Plain::Op(OpFault::InsideChar(3)),
        "refused 9: 3.2 insidechar 3",
    ),
    (
        Plain::Op(OpFault::NoSuchEdit(OTHER)),
        "refused 9: 3.2 nosuchedit 7.1",
    ),
    (
        Plain::Op(OpFault::Full {
            unit: Unit::Bytes,
            held: 3,
            adds: 4,
        }),
        "refused 9: 3.2 full bytes 3 4",
    ),
    (
        Plain::Op(OpFault::Full {
            unit: Unit::Entries,
            held: 5,
            adds: 6,
        }),
        "refused 9: 3.2 full entries 5 6",
    ),
    (
        Plain::Give(GiveAnswer::Applied(18_446_744_073_709_551_615)),
        "give 12 to 1023: applied 18446744073709551615",
    ),
    (
        Plain::Give(GiveAnswer::Waits {
            replica: 1,
            value: 2,
        }),
        "give 12 to 1023: waits 1 2",
    ),
    (Plain::Give(GiveAnswer::Repeat), "give 12 to 1023: repeat"),
    (Plain::Give(GiveAnswer::Nothing), "give 12 to 1023: nothing"),
    (
        Plain::Give(GiveAnswer::Refused(OpFault::BadStamp)),
        "give 12 to 1023: badstamp",
    ),
    (Plain::Made(LAST), "12: 4294967294.7"),
    (Plain::Unnamed(2), "4: nothing 2"),
    (Plain::Settled(3), "settled 2: 3"),
    (Plain::Reopen(0), "reopen 3: 0"),
    (Plain::Reopen(200_000), "reopen 3: 200000"),
    (Plain::EmptyNeedle, "find 12 at 34: empty needle"),
    (
        Plain::Point(PointAnswer::Point {
            point: Point { row: 1, column: 2 },
            utf16: OffsetUtf16(3),
            point_utf16: PointUtf16 { row: 1, column: 4 },
        }),
        "point 12 at 34: 1:2 3 1:4",
    ),
    (
        Plain::Point(PointAnswer::Clips { left: 2, right: 6 }),
        "point 12 at 34: none 2 6",
    ),
    (
        Plain::Offset(OffsetAnswer::Offset {
            offset: 18_446_744_073_709_551_615,
        }),
        "offset 12 at 34: 18446744073709551615",
    ),
    (
        Plain::Offset(OffsetAnswer::Clips {
            left: Point { row: 0, column: 2 },
            right: Point { row: 3, column: 6 },
        }),
        "offset 12 at 34: none 0:2 3:6",
    ),
    (
        Plain::Replica,
        "replica 1023: 3 bytes, 2 rows, 4 applied, 5 waiting, 6 refused",
    ),
];

// A line that owns a name, a text or a list.
#[derive(Clone, Copy)]
enum Owned {
    // The places where a needle stands.
    Starts(&'static [u64]),
    Anchor(AnchorAnswer),
    Where(WhereAnswer),
    Mark,
    Edits(&'static [TextEdit]),
    Since(SinceFault),
    Text(TextHead, &'static str),
}

fn owned_line(alloc: Global, owned: Owned) -> Result<Report, OutOfMemory> {
    match owned {
        Owned::Starts(starts) => starts_line(alloc, starts),
        Owned::Anchor(answer) => anchor_line(alloc, answer),
        Owned::Where(answer) => where_line(alloc, answer),
        Owned::Mark => mark_line(alloc),
        Owned::Edits(edits) => edits_line(alloc, edits),
        Owned::Since(fault) => since_line(alloc, SinceAnswer::Fault(fault)),
        Owned::Text(head, shown) => text_line(alloc, head, shown),
    }
}

fn text(alloc: Global, text: &str) -> Result<Text, OutOfMemory> {
    Ok(Text::new(String::from_str(alloc, text)?))
}

fn starts_line(alloc: Global, starts: &[u64]) -> Result<Report, OutOfMemory> {
    let starts = Numbers::new(starts.to_vec(alloc)?);
    Ok(query_line(QueryAnswer::Find(FindAnswer::Starts(starts))))
}

fn anchor_line(alloc: Global, answer: AnchorAnswer) -> Result<Report, OutOfMemory> {
    let name = text(alloc, "a\"\n")?;
    Ok(Report::Anchor { name, answer })
}

fn where_line(alloc: Global, answer: WhereAnswer) -> Result<Report, OutOfMemory> {
    let name = text(alloc, "")?;
    Ok(Report::Where {
        name,
        replica: 1023,
        answer,
    })
}

fn mark_line(alloc: Global) -> Result<Report, OutOfMemory> {
    let name = text(alloc, "\u{e9}")?;
    Ok(Report::Mark { name })
}

fn edits_line(alloc: Global, edits: &[TextEdit]) -> Result<Report, OutOfMemory> {
    let edits = TextEdits::new(edits.to_vec(alloc)?);
    since_line(alloc, SinceAnswer::Edits(edits))
}

fn since_line(alloc: Global, answer: SinceAnswer) -> Result<Report, OutOfMemory> {
    let name = text(alloc, "m")?;
    Ok(Report::Since {
        name,
        replica: 2,
        answer,
    })
}

fn text_line(alloc: Global, head: TextHead, shown: &str) -> Result<Report, OutOfMemory> {
    let text = text(alloc, shown)?;
    Ok(Report::Text { head, text })
}

const CURRENT: TextHead = TextHead::CurrentText {
    replica: 1,
    bytes: 13,
    row: 1,
    column: 10,
    rows: 2,
};

const CURRENT_LINE: &str =
    "text 1: 13 bytes, end 1:10, 2 rows, \"\u{e9}\\n\\\"\\\\\\u0001\u{7f}/\\b\\f\\r\\t\\u001f\"";

const OWNED: &[(Owned, &str)] = &[
    (Owned::Starts(&[]), "find 12 at 34: none"),
    (Owned::Starts(&[7]), "find 12 at 34: 7"),
    (
        Owned::Starts(&[127, 128, 129]),
        "find 12 at 34: 127 128 129",
    ),
    (
        Owned::Starts(&[0, 18_446_744_073_709_551_615]),
        "find 12 at 34: 0 18446744073709551615",
    ),
    (Owned::Anchor(AnchorAnswer::Set), "anchor \"a\\\"\\n\": set"),
    (
        Owned::Anchor(AnchorAnswer::Fault(PlaceFault::PastEnd(20))),
        "anchor \"a\\\"\\n\": pastend 20",
    ),
    (
        Owned::Anchor(AnchorAnswer::Fault(PlaceFault::InsideChar)),
        "anchor \"a\\\"\\n\": insidechar",
    ),
    (
        Owned::Where(WhereAnswer::Offset(0)),
        "where \"\" at 1023: 0",
    ),
    (
        Owned::Where(WhereAnswer::Offset(18_446_744_073_709_551_615)),
        "where \"\" at 1023: 18446744073709551615",
    ),
    (
        Owned::Where(WhereAnswer::Unknown),
        "where \"\" at 1023: unknown",
    ),
    (
        Owned::Where(WhereAnswer::Nothing),
        "where \"\" at 1023: nothing",
    ),
    (Owned::Mark, "mark \"\u{e9}\": set"),
    (Owned::Edits(&[]), "since \"m\" at 2: none"),
    (
        Owned::Edits(&[TextEdit {
            old: (1, 2),
            new: (3, 4),
        }]),
        "since \"m\" at 2: 1..2 -> 3..4",
    ),
    (
        Owned::Edits(&[
            TextEdit {
                old: (0, 0),
                new: (0, 10),
            },
            TextEdit {
                old: (5, 70),
                new: (15, 15),
            },
        ]),
        "since \"m\" at 2: 0..0 -> 0..10, 5..70 -> 15..15",
    ),
    (
        Owned::Since(SinceFault::Unseen(0)),
        "since \"m\" at 2: unseen 0",
    ),
    (
        Owned::Since(SinceFault::OpenVersion(65_535)),
        "since \"m\" at 2: openversion 65535",
    ),
    (
        Owned::Text(CURRENT, "\u{e9}\n\"\\\u{1}\u{7f}/\u{8}\u{c}\r\t\u{1f}"),
        CURRENT_LINE,
    ),
    (
        Owned::Text(TextHead::FinalText { replica: 2 }, ""),
        "final 2: \"\"",
    ),
];

// The first text, in parts.
const TEXT_PARTS: &[&str] = &[
    "\u{e9}\n",
    "\"\\\u{1}",
    "",
    "\u{7f}/",
    "\u{8}\u{c}\r\t\u{1f}",
];

const PARTS: &[(TextHead, &str)] = &[
    (CURRENT, CURRENT_LINE),
    (
        TextHead::FinalText { replica: 7 },
        "final 7: \"\u{e9}\\n\\\"\\\\\\u0001\u{7f}/\\b\\f\\r\\t\\u001f\"",
    ),
];

// Whether the line with that head and the text in parts is written after another text.
fn writes_parts(alloc: Global, head: TextHead, want: &str) -> Result<bool, OutOfMemory> {
    let mut out = b"before\n".to_vec(alloc)?;
    write_text(alloc, &mut out, head, TEXT_PARTS.iter().copied())?;
    Ok(is_after(out.as_slice(), want))
}
