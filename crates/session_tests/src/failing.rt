//! Runs in which a read or a write fails, each of them in a run of its own.
use crate::calls::{AMPLE, Ends, Passing, Run, Wanted, comes_to};
use crate::limits::{Part, joined};
use crate::tally::{Host, Tally};
use op_model::OutOfMemory;

// A run, and what it comes to where no call fails.
struct Row {
    name: &'static str,
    words: &'static str,
    input: &'static [Part],
    status: u64,
    output: &'static str,
    calls: &'static [Calls],
}

// How many bytes a call moves at most, the first read that fails in one of the runs, and how many reads and how many
// writes there are where no call fails.
type Calls = (usize, u64, u64, u64);

const HEADER: &[Part] = &[("[\"zedbuf\",1,\"ab\",[1,2]]\n", 0, 0)];

const EDITED: &str = "[\"zedbuf\",1,\"ab\",[1]]\n[\"edit\",1,[[1,1,\"X\"]]]\n";

// The record of its edit.
const RECORD: &str = "\x01\0\0\0\x02\0\x01\0\0\0\x01\0\0\0\0\0\x01\0\0\0\x01\0\0\0\
     \0\0\0\0\x01\0\0\0\0\0\0\0\x01\0\0\0\x01X";

const ROWS: &[Row] = &[
    Row {
        name: "a replay",
        words: "replay",
        input: HEADER,
        status: 0,
        output: "replica 1: 2 bytes, 1 rows, 0 applied, 0 waiting, 0 refused
final 1: \"ab\"
replica 2: 2 bytes, 1 rows, 0 applied, 0 waiting, 0 refused
final 2: \"ab\"
",
        calls: &[(1, 1, 25, 148), (7, 1, 5, 22), (8, 1, 4, 19)],
    },
    Row {
        name: "a check",
        words: "check",
        input: HEADER,
        status: 0,
        output: "session ok: 1 lines, 2 replicas, 0 operations, 0 queries\n",
        calls: &[(1, 1, 25, 57), (7, 1, 5, 9), (8, 1, 4, 8)],
    },
    Row {
        name: "a session that is migrated",
        words: "migrate",
        input: HEADER,
        status: 0,
        output: "[\"zedbuf\",2,\"ab\",[1,2]]\n",
        calls: &[(1, 1, 25, 24), (7, 1, 5, 4), (8, 1, 4, 3)],
    },
    Row {
        name: "a session that is packed",
        words: "pack",
        input: &[(EDITED, 0, 0)],
        status: 0,
        output: RECORD,
        calls: &[(1, 1, 46, 42), (7, 1, 8, 6), (8, 1, 7, 6)],
    },
    Row {
        name: "records that are unpacked",
        words: "unpack",
        input: &[(RECORD, 0, 0)],
        status: 0,
        output: "[\"op\",[2,1],[[0,1]],[[1,1,\"X\"]]]\n",
        calls: &[(1, 1, 43, 33), (7, 1, 7, 5), (8, 1, 7, 5)],
    },
    Row {
        name: "records with a fault",
        words: "unpack",
        input: &[(RECORD, 3, 1)],
        status: 5,
        output: "record at 42: kind\n",
        calls: &[(1, 1, 44, 19), (7, 1, 8, 3), (8, 1, 7, 3)],
    },
    // No input is read.
    Row {
        name: "a session that is made",
        words: "make --seed 1 --replicas 1 --edits 2",
        input: HEADER,
        status: 0,
        output: "made 5 lines, 2 operations
replica 1: 7 bytes, 3 rows, 2 applied, 0 waiting, 0 refused
texts equal
",
        calls: &[(1, 1, 0, 99), (7, 1, 0, 15), (8, 1, 0, 13)],
    },
    Row {
        name: "words that are no command",
        words: "jump",
        input: HEADER,
        status: 2,
        output: "usage: zedbuf replay [--workers N] | check | make --seed N --replicas N --edits N | migrate | pack | unpack\n",
        calls: &[(1, 1, 0, 108), (7, 1, 0, 16), (8, 1, 0, 14)],
    },
    Row {
        name: "an input that is no session",
        words: "replay",
        input: &[("[\"zedbuf\"]\n", 0, 0)],
        status: 5,
        output: "session line 1: header\n",
        calls: &[(1, 1, 12, 23), (7, 1, 3, 4), (8, 1, 3, 3)],
    },
    // A line more than there may be. The last reads fail, and not each, since each run reads all that is before them.
    Row {
        name: "too many lines",
        words: "replay",
        input: &[("", b'\n', 1_048_577)],
        status: 6,
        output: "too large: lines\n",
        calls: &[
            (1, 1_048_577, 1_048_578, 17),
            (7, 149_797, 149_798, 3),
            (8, 131_073, 131_074, 3),
        ],
    },
];

/// Runs each row with calls of each size: with each of its calls failing in turn, and with the one after the last
/// failing, which is not made.
pub fn test<R: Host>(rt: &R, tally: &mut Tally) {
    for row in ROWS {
        match joined(rt.alloc(), row.input) {
            Ok(input) => test_row(rt, tally, row, &input),
            Err(OutOfMemory) => tally.note(rt, "failing calls", row.name, false),
        }
    }
}

fn test_row<R: Host>(rt: &R, tally: &mut Tally, row: &Row, input: &[u8]) {
    for &(most, first, reads, writes) in row.calls {
        for number in first..reads.saturating_add(2) {
            let ends = read_ends(row, most, number, number <= reads);
            test_ends(rt, tally, row, input, ends);
        }
        for number in 1..writes.saturating_add(2) {
            let ends = write_ends(row, most, number, number <= writes);
            test_ends(rt, tally, row, input, ends);
        }
    }
}

// How a run ends whose read of this number fails, if it is made.
fn read_ends(row: &Row, most: usize, number: u64, is_made: bool) -> Ends {
    Ends {
        status: if is_made { 3 } else { row.status },
        read: most,
        failing_read: number,
        ..AMPLE
    }
}

// How a run ends whose write of this number fails, if it is made.
fn write_ends(row: &Row, most: usize, number: u64, is_made: bool) -> Ends {
    Ends {
        status: if is_made { 4 } else { row.status },
        write: most,
        failing_write: number,
        ..AMPLE
    }
}

fn test_ends<R: Host>(rt: &R, tally: &mut Tally, row: &Row, input: &[u8], ends: Ends) {
    let run = Run {
        words: row.words,
        input,
        ends,
    };
    let wanted = Wanted::Bytes(output_of(row, ends));
    let is_right = comes_to(rt, rt.alloc(), &Passing, run, wanted) == Ok(true);
    tally.note(rt, "failing calls", row.name, is_right);
}

// What is written where a run ends so: where a write fails, what those before it took.
fn output_of(row: &Row, ends: Ends) -> &'static [u8] {
    let output = row.output.as_bytes();
    let length = match ends.status {
        3 => 0,
        4 => (ends.failing_write as usize)
            .saturating_sub(1)
            .saturating_mul(ends.write),
        _ => output.len(),
    };
    output.get(..length).unwrap_or(output)
}
