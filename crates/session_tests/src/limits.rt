//! Inputs at the limits, which are made here.
use crate::calls::{AMPLE, Ends, Passing, Run, Wanted, comes_to};
use crate::tally::{Host, Tally};
use op_model::OutOfMemory;
use std::alloc::Global;
use std::sync::Wait;
use std::thread::Threads;

/// Runs each row.
pub fn test<R: Host>(rt: &R, tally: &mut Tally) {
    for row in ROWS {
        let is_right = ends_as_said(rt, rt.alloc(), row) == Ok(true);
        tally.note(rt, row.name, row.words, is_right);
    }
}

/// A text, and after it that many copies of a byte.
pub(crate) type Part = (&'static str, u8, usize);

/// The parts, one after another.
pub(crate) fn joined(alloc: Global, parts: &[Part]) -> Result<Vec<u8>, OutOfMemory> {
    let mut bytes = Vec::new(alloc);
    for (text, byte, count) in parts {
        bytes.extend_from_slice(text.as_bytes())?;
        push_copies(alloc, &mut bytes, *byte, *count)?;
    }
    Ok(bytes)
}

fn push_copies(
    alloc: Global,
    bytes: &mut Vec<u8>,
    byte: u8,
    count: usize,
) -> Result<(), OutOfMemory> {
    let copies = vec![in alloc; byte; count]?;
    bytes.extend_from_slice(&copies)?;
    Ok(())
}

// A run, and the first bytes that it writes, or all of them.
struct Row {
    name: &'static str,
    words: &'static str,
    input: &'static [Part],
    ends: Ends,
    output: &'static [Part],
    is_whole: bool,
}

const LIMIT: usize = 67_108_864;

const LINES: usize = 1_048_576;

// Reads give all that is asked for; writes are small.
const SHORT: Ends = Ends {
    status: 0,
    read: usize::MAX,
    write: 8,
    failing_read: 0,
    failing_write: 0,
    room: 200,
};

const NO_JSON: &[Part] = &[("session line 1: json\n", 0, 0)];

const ROWS: &[Row] = &[
    Row {
        name: "65,536 bytes are read at a time",
        words: "replay",
        input: &[("", b' ', 131_073)],
        ends: Ends {
            status: 3,
            failing_read: 4,
            ..SHORT
        },
        output: &[],
        is_whole: true,
    },
    Row {
        name: "the read after the last byte is the last one",
        words: "replay",
        input: &[("", b' ', 131_073)],
        ends: Ends {
            status: 5,
            failing_read: 5,
            ..SHORT
        },
        output: NO_JSON,
        is_whole: true,
    },
    Row {
        name: "as many bytes as there may be",
        words: "replay",
        input: &[("", b' ', LIMIT)],
        ends: Ends {
            status: 5,
            failing_read: 1026,
            ..SHORT
        },
        output: NO_JSON,
        is_whole: true,
    },
    Row {
        name: "one byte past the limit is read",
        words: "replay",
        input: &[("", b' ', LIMIT + 70_000)],
        ends: Ends {
            status: 3,
            failing_read: 1025,
            ..SHORT
        },
        output: &[],
        is_whole: true,
    },
    Row {
        name: "nothing more is read past the limit",
        words: "replay",
        input: &[("", b' ', LIMIT + 70_000)],
        ends: Ends {
            status: 6,
            failing_read: 1026,
            ..SHORT
        },
        output: &[("too large: bytes\n", 0, 0)],
        is_whole: true,
    },
    Row {
        name: "a write fails past the limit",
        words: "replay",
        input: &[("", b' ', LIMIT + 1)],
        ends: Ends {
            status: 4,
            failing_read: 1026,
            failing_write: 2,
            ..SHORT
        },
        output: &[("too larg", 0, 0)],
        is_whole: true,
    },
    Row {
        name: "as many lines as there may be",
        words: "replay",
        input: &[("", b'\n', LINES)],
        ends: Ends { status: 5, ..SHORT },
        output: NO_JSON,
        is_whole: true,
    },
    Row {
        name: "one line more than there may be",
        words: "replay",
        input: &[("", b'\n', LINES + 1)],
        ends: Ends { status: 6, ..SHORT },
        output: &[("too large: lines\n", 0, 0)],
        is_whole: true,
    },
    Row {
        name: "new texts of 65,537 and 65,536 bytes",
        words: "replay",
        input: &[
            (
                "[\"zedbuf\",1,\"ab\",[1,2]]\n[\"edit\",1,[[0,0,\"a",
                b'a',
                65_536,
            ),
            ("\"]]]\n[\"edit\",1,[[0,0,\"", b'a', 65_536),
            ("\"]]]\n", 0, 0),
        ],
        ends: AMPLE,
        output: &[(LONG_FRONT, b'a', 65_536), (LONG_BACK, 0, 0)],
        is_whole: true,
    },
    Row {
        name: "an operation whose new texts have 65,537 bytes",
        words: "replay --workers 0",
        input: &[(OPERATION, b'a', 65_537), ("\"]]]\n[\"give\",1,1]\n", 0, 0)],
        ends: AMPLE,
        output: &[(
            "1: 2.1\ngive 1 to 1: textlimit 65537\nreplica 1: 2 bytes, 1 rows, 0 applied, 0 waiting, 0 refused\nfinal 1: \"ab\"\n",
            0,
            0,
        )],
        is_whole: true,
    },
    // The new texts of all excerpts are counted together and as they are given, before a change that crosses.
    Row {
        name: "new texts of excerpts of 65,537 and 65,536 bytes",
        words: "replay",
        input: &[
            (
                "[\"zedbuf\",2,\"ab\",[1,2]]\n[\"excerpt\",\"m\",1,0,2]\n[\"excerpt\",\"m\",2,0,2]\n[\"medit\",\"m\",[[0,0,\"",
                b'a',
                32_768,
            ),
            ("\"],[3,3,\"", b'b', 32_769),
            ("\"]]]\n[\"medit\",\"m\",[[0,0,\"", b'a', 32_768),
            ("\"],[3,3,\"", b'b', 32_768),
            (
                "\"]]]\n[\"undo\",1,[3]]\n[\"undo\",2,[4]]\n[\"medit\",\"m\",[[0,0,\"",
                b'a',
                65_535,
            ),
            ("\\r\\n\"]]]\n[\"edit\",1,[[0,0,\"", b'a', 65_535),
            (
                "\\r\\n\"]]]\n[\"undo\",1,[9]]\n[\"medit\",\"m\",[[2,3,\"",
                b'a',
                65_537,
            ),
            ("\"]]]\n[\"medit\",\"m\",[[2,3,\"", b'a', 65_536),
            ("\"]]]\n[\"multi\",\"m\"]\n", 0, 0),
        ],
        ends: AMPLE,
        output: &[(LIMITED, 0, 0)],
        is_whole: true,
    },
    // What is written has a byte more than a session may have.
    Row {
        name: "as many bytes as there may be, without a last line feed",
        words: "migrate",
        input: &[("[\"zedbuf\",1,\"", b'a', LIMIT - 19), ("\",[1]]", 0, 0)],
        ends: Ends {
            room: LIMIT + 1,
            ..AMPLE
        },
        output: &[("[\"zedbuf\",2,\"", b'a', LIMIT - 19), ("\",[1]]\n", 0, 0)],
        is_whole: true,
    },
    // An `op` line may have more than a record, and a bad line after it is named first.
    Row {
        name: "a text that is too long for a record",
        words: "pack",
        input: &[(OPERATION, b'a', 65_537), ("\"]]]\n", 0, 0)],
        ends: Ends { status: 5, ..AMPLE },
        output: &[("session line 2: long\n", 0, 0)],
        is_whole: true,
    },
    Row {
        name: "a text that is too long for a record, before a bad line",
        words: "pack",
        input: &[(OPERATION, b'a', 65_537), ("\"]]]\n[1]\n", 0, 0)],
        ends: Ends { status: 5, ..AMPLE },
        output: &[("session line 3: shape\n", 0, 0)],
        is_whole: true,
    },
    Row {
        name: "as long a text as a record may have, packed",
        words: "pack",
        input: &[(OPERATION, b'a', 65_536), ("\"]]]\n", 0, 0)],
        ends: AMPLE,
        output: LONG_RECORD,
        is_whole: true,
    },
    Row {
        name: "as long a text as a record may have, unpacked",
        words: "unpack",
        input: LONG_RECORD,
        ends: AMPLE,
        output: &[
            ("[\"op\",[2,1],[[0,1]],[[0,0,\"", b'a', 65_536),
            ("\"]]]\n", 0, 0),
        ],
        is_whole: true,
    },
    Row {
        name: "as many pieces as a record may have",
        words: "unpack",
        input: &[(STAMPED, 0, 1), ("\x01\0\0", 0, 1_310_720)],
        ends: AMPLE,
        output: &[("[\"op\",[2,1],[],[[0,0,\"\"],[0,0,\"\"],", 0, 0)],
        is_whole: false,
    },
    Row {
        name: "one piece more than a record may have",
        words: "unpack",
        input: &[(STAMPED, 0, 1), ("\x01\0\x01", 0, 1_310_740)],
        ends: Ends { status: 5, ..AMPLE },
        output: &[("record at 11: long\n", 0, 0)],
        is_whole: true,
    },
    Row {
        name: "one line more than there may be, packed",
        words: "pack",
        input: &[("", b'\n', LINES + 1)],
        ends: Ends { status: 6, ..SHORT },
        output: &[("too large: lines\n", 0, 0)],
        is_whole: true,
    },
    // Records may have as many line feeds as they have bytes.
    Row {
        name: "more line feeds than a session may have lines",
        words: "unpack",
        input: &[("", b'\n', LINES + 1)],
        ends: Ends { status: 5, ..SHORT },
        output: &[("record at 0: kind\n", 0, 0)],
        is_whole: true,
    },
    Row {
        name: "as many bytes of records as there may be",
        words: "unpack",
        input: &[("", 0, LIMIT)],
        ends: Ends { status: 5, ..SHORT },
        output: &[("record at 0: kind\n", 0, 0)],
        is_whole: true,
    },
    Row {
        name: "more bytes of records than there may be",
        words: "unpack",
        input: &[("", 0, LIMIT + 1)],
        ends: Ends { status: 6, ..SHORT },
        output: &[("too large: bytes\n", 0, 0)],
        is_whole: true,
    },
    Row {
        name: NEEDLE,
        words: "replay --workers 0",
        input: LARGE,
        ends: AMPLE,
        output: FOUND,
        is_whole: false,
    },
    Row {
        name: NEEDLE,
        words: "replay --workers 2",
        input: LARGE,
        ends: AMPLE,
        output: FOUND,
        is_whole: false,
    },
];

const OPERATION: &str = "[\"zedbuf\",1,\"ab\",[1]]\n[\"op\",[2,1],[[0,1]],[[0,0,\"";

// The record of an edit up to its version, which is empty.
const STAMPED: &str = "\x01\0\0\0\x02\0\x01\0\0\0\0";

const LONG_RECORD: &[Part] = &[
    (
        "\x01\0\0\0\x02\0\x01\0\0\0\x01\0\0\0\0\0\x01\0\0\0\x01",
        0,
        0,
    ),
    ("\0\0\0\0\0\0\0\0\0\0\0\0\0\0\0\0\0\x01\0\0", b'a', 65_536),
];

const LONG_FRONT: &str = "1: textlimit 65537
2: 2.1
replica 1: 65538 bytes, 1 rows, 1 applied, 0 waiting, 0 refused
final 1: \"";

const LIMITED: &str = "excerpt \"m\": 0
excerpt \"m\": 1
medit \"m\": textlimit 65537
medit \"m\": 3 2.1, 4 2.2
5: 3.1
6: 3.2
medit \"m\": textlimit 65537
9: 4.1
10: 5.1
medit \"m\": textlimit 65537
medit \"m\": crosses 0
multi \"m\": 5 bytes, \"ab\\nab\"
replica 1: 2 bytes, 1 rows, 4 applied, 0 waiting, 0 refused
final 1: \"ab\"
replica 2: 2 bytes, 1 rows, 2 applied, 0 waiting, 0 refused
final 2: \"ab\"
";

const LONG_BACK: &str = "ab\"
replica 2: 2 bytes, 1 rows, 0 applied, 0 waiting, 0 refused
final 2: \"ab\"
";

// The needle is across the end of each of the first three quarters of the text, and at its end.
const NEEDLE: &str = "a needle in 1,048,577 bytes";

const LARGE: &[Part] = &[
    ("[\"zedbuf\",1,\"b", b'x', 262_142),
    ("ab", b'x', 262_142),
    ("ab", b'x', 262_142),
    ("ab", b'x', 262_142),
    ("ab\",[1]]\n[\"find\",1,\"ab\"]\n", 0, 0),
];

const FOUND: &[Part] = &[("find 1 at 0: 262143 524287 786431 1048575\n", 0, 0)];

fn ends_as_said<R: Threads + Wait + Sync>(
    rt: &R,
    alloc: Global,
    row: &Row,
) -> Result<bool, OutOfMemory> {
    let input = joined(alloc, row.input)?;
    let output = joined(alloc, row.output)?;
    let wanted = if row.is_whole {
        Wanted::Bytes(&output)
    } else {
        Wanted::Front(&output)
    };
    let run = Run {
        words: row.words,
        input: &input,
        ends: row.ends,
    };
    comes_to(rt, alloc, &Passing, run, wanted)
}
