//! Workers beside the editor: gates say which of them goes first, and keep who called them.
use crate::calls::{AMPLE, Run, Wanted, comes_to};
use crate::tally::{Host, Tally};
use op_model::OutOfMemory;
use session_replay::Gate;
use std::alloc::Global;
use std::sync::{Mutex, Wait};
use std::thread::{self, Threads};

// A call of a gate, with the number of the thread and that of the job or line.
#[derive(Clone, Copy, PartialEq)]
enum Call {
    // Before a job, or before a line.
    Hold(u32, u64),
    // After a job.
    Done(u32, u64),
    // No call of a gate: a thread that was held went on, since the call for which it waited did not come.
    GaveUp,
}

use Call::{Done, GaveUp, Hold};

// A call that is held, and the call for which it waits.
type Rule = (Call, Call);

// A gate that keeps its calls in their order, and holds those of its rules.
#[derive(Drop)]
struct Log {
    rules: &'static [Rule],
    calls: Mutex<Vec<Call>>,
}

// How often a thread that is held yields at most.
const TURNS: u64 = 10_000_000;

impl Log {
    fn push<R: Wait>(&self, rt: &R, call: Call) {
        let _ = self.calls.lock(rt).push(call);
    }

    fn has<R: Wait>(&self, rt: &R, call: Call) -> bool {
        self.calls.lock(rt).contains(&call)
    }

    // Keeps the call, and holds it until the call for which it waits was made.
    fn enter<R: Wait>(&self, rt: &R, call: Call) {
        self.push(rt, call);
        for (held, awaited) in self.rules {
            if *held == call {
                self.wait_for(rt, *awaited);
            }
        }
    }

    fn wait_for<R: Wait>(&self, rt: &R, awaited: Call) {
        for _ in 0..TURNS {
            if self.has(rt, awaited) {
                return;
            }
            thread::yield_now();
        }
        self.push(rt, GaveUp);
    }
}

impl Gate for Log {
    fn hold<R: Threads + Wait + Sync>(&self, rt: &R, worker: u32, job: u64) {
        self.enter(rt, Hold(worker, job));
    }

    fn done<R: Threads + Wait + Sync>(&self, rt: &R, worker: u32, job: u64) {
        self.enter(rt, Done(worker, job));
    }
}

// A session at a gate.
struct Case {
    name: &'static str,
    words: &'static str,
    rules: &'static [Rule],
    session: &'static str,
    report: &'static str,
    // The calls of each thread, in their order: those of the workers, and then those of the editor.
    calls: &'static [&'static [Call]],
}

const FIND_FIRST: &str = r#"["zedbuf",1,"ab",[1]]
["find",1,"a"]
["edit",1,[[2,2,"a"]]]
["find",1,"b"]
["text",1]
"#;

const EDIT_FIRST: &str = r#"["zedbuf",1,"ab",[1]]
["edit",1,[[2,2,"a"]]]
["find",1,"a"]
["find",1,"b"]
["text",1]
"#;

// The report of both, where the first find is answered with the edit.
const WITH_EDIT: &str = r#"1: 2.1
text 1: 3 bytes, end 0:3, 1 rows, "aba"
find 1 at 1: 0 2
find 2 at 1: 1
replica 1: 3 bytes, 1 rows, 1 applied, 0 waiting, 0 refused
final 1: "aba"
"#;

// The report of the first, where its first find is answered on the base.
const ON_BASE: &str = r#"1: 2.1
text 1: 3 bytes, end 0:3, 1 rows, "aba"
find 1 at 0: 0
find 2 at 1: 1
replica 1: 3 bytes, 1 rows, 1 applied, 0 waiting, 0 refused
final 1: "aba"
"#;

// A replica is reopened between a find of it and the edit after it.
const REOPEN: &str = r#"["zedbuf",2,"ab",[1]]
["edit",1,[[2,2,"a"]]]
["find",1,"a"]
["reopen",1]
["edit",1,[[3,3,"a"]]]
["find",1,"b"]
["text",1]
"#;

// Its report, where the first find is answered with both edits.
const AFTER_REOPEN: &str = r#"1: 2.1
reopen 1: 1
2: 3.1
text 1: 4 bytes, end 0:4, 1 rows, "abaa"
find 1 at 2: 0 2 3
find 2 at 2: 1
replica 1: 4 bytes, 1 rows, 2 applied, 0 waiting, 0 refused
final 1: "abaa"
"#;

// Its report, where the first find is answered with the first edit.
const BEFORE_REOPEN: &str = r#"1: 2.1
reopen 1: 1
2: 3.1
text 1: 4 bytes, end 0:4, 1 rows, "abaa"
find 1 at 1: 0 2
find 2 at 2: 1
replica 1: 4 bytes, 1 rows, 2 applied, 0 waiting, 0 refused
final 1: "abaa"
"#;

const BY_ONE: &[&[Call]] = &[
    &[Hold(0, 1), Done(0, 1), Hold(0, 2), Done(0, 2)],
    &[Hold(1, 2), Hold(1, 3), Hold(1, 4), Hold(1, 5)],
];

const BY_TWO: &[&[Call]] = &[
    &[Hold(0, 1), Done(0, 1)],
    &[Hold(1, 2), Done(1, 2)],
    &[Hold(2, 2), Hold(2, 3), Hold(2, 4), Hold(2, 5)],
];

const REOPEN_BY_ONE: &[&[Call]] = &[
    &[Hold(0, 1), Done(0, 1), Hold(0, 2), Done(0, 2)],
    &[
        Hold(1, 2),
        Hold(1, 3),
        Hold(1, 4),
        Hold(1, 5),
        Hold(1, 6),
        Hold(1, 7),
    ],
];

const REOPEN_BY_FOUR: &[&[Call]] = &[
    &[Hold(0, 1), Done(0, 1)],
    &[Hold(1, 2), Done(1, 2)],
    &[],
    &[],
    &[
        Hold(4, 2),
        Hold(4, 3),
        Hold(4, 4),
        Hold(4, 5),
        Hold(4, 6),
        Hold(4, 7),
    ],
];

const CASES: &[Case] = &[
    // One worker alone would answer the second find only after the first.
    Case {
        name: "a worker is held until another is done",
        words: "replay --workers 2",
        rules: &[(Hold(0, 1), Done(1, 2))],
        session: EDIT_FIRST,
        report: WITH_EDIT,
        calls: BY_TWO,
    },
    Case {
        name: "a worker is held until another is done with a later version",
        words: "replay --workers 2",
        rules: &[(Hold(0, 1), Done(1, 2))],
        session: FIND_FIRST,
        report: WITH_EDIT,
        calls: BY_TWO,
    },
    // The first find is answered on the base, which an editor that ends before its workers start misses.
    Case {
        name: "the editor is held until a worker is done",
        words: "replay --workers 2",
        rules: &[(Hold(2, 3), Done(0, 1))],
        session: FIND_FIRST,
        report: ON_BASE,
        calls: BY_TWO,
    },
    // The editor does not edit before the worker is held, and the worker is held until the edit is published.
    Case {
        name: "a worker is held before it answers",
        words: "replay --workers 1",
        rules: &[(Hold(1, 3), Hold(0, 1)), (Hold(0, 1), Hold(1, 5))],
        session: FIND_FIRST,
        report: WITH_EDIT,
        calls: BY_ONE,
    },
    // The editor does not edit before the worker is done, and the worker is held there until the edit is published.
    Case {
        name: "a worker is done once it has answered",
        words: "replay --workers 1",
        rules: &[(Hold(1, 3), Done(0, 1)), (Done(0, 1), Hold(1, 5))],
        session: FIND_FIRST,
        report: ON_BASE,
        calls: BY_ONE,
    },
    Case {
        name: "with 0 workers nobody calls the gate",
        words: "replay --workers 0",
        rules: &[],
        session: FIND_FIRST,
        report: ON_BASE,
        calls: &[],
    },
    // The worker is held until the edit after the reopening is published.
    Case {
        name: "a replica is reopened before its find is answered",
        words: "replay --workers 1",
        rules: &[(Hold(0, 1), Hold(1, 7))],
        session: REOPEN,
        report: AFTER_REOPEN,
        calls: REOPEN_BY_ONE,
    },
    Case {
        name: "a replica of four workers is reopened before its find is answered",
        words: "replay --workers 4",
        rules: &[(Hold(0, 1), Hold(4, 7))],
        session: REOPEN,
        report: AFTER_REOPEN,
        calls: REOPEN_BY_FOUR,
    },
    // The editor does not reopen the replica before the find is answered.
    Case {
        name: "a replica is reopened once its find is answered",
        words: "replay --workers 1",
        rules: &[(Hold(1, 4), Done(0, 1))],
        session: REOPEN,
        report: BEFORE_REOPEN,
        calls: REOPEN_BY_ONE,
    },
    Case {
        name: "a replica is reopened with 0 workers",
        words: "replay --workers 0",
        rules: &[],
        session: REOPEN,
        report: BEFORE_REOPEN,
        calls: &[],
    },
];

/// Tests each session at its gate.
pub fn test<R: Host>(rt: &R, tally: &mut Tally) {
    for case in CASES {
        let is_right = is_right(rt, rt.alloc(), case) == Ok(true);
        tally.note(rt, "gates", case.name, is_right);
    }
}

fn is_right<R: Threads + Wait + Sync>(
    rt: &R,
    alloc: Global,
    case: &Case,
) -> Result<bool, OutOfMemory> {
    let gate = Log {
        rules: case.rules,
        calls: Mutex::new(Vec::new(alloc)),
    };
    let run = Run {
        words: case.words,
        input: case.session.as_bytes(),
        ends: AMPLE,
    };
    let wanted = Wanted::Bytes(case.report.as_bytes());
    let is_reported = comes_to(rt, alloc, &gate, run, wanted)?;
    let calls = gate.calls.lock(rt);
    Ok(is_reported && are_calls(&calls, case.calls))
}

// Whether each thread made its calls, and no other.
fn are_calls(log: &[Call], threads: &[&[Call]]) -> bool {
    let mut count: usize = 0;
    let mut number: u32 = 0;
    for calls in threads {
        if !are_calls_of(log, number, calls) {
            return false;
        }
        number = number.saturating_add(1);
        count = count.saturating_add(calls.len());
    }
    log.len() == count
}

fn are_calls_of(log: &[Call], thread: u32, calls: &[Call]) -> bool {
    let mut rest = calls.iter();
    for call in log {
        let is_own = match call {
            Hold(worker, _) | Done(worker, _) => *worker == thread,
            GaveUp => false,
        };
        if is_own && rest.next() != Some(call) {
            return false;
        }
    }
    rest.next().is_none()
}
