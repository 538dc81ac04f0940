//! Each fault that an operation can meet, by each of its causes, when it is taken and while settling. After each the buffer answers
//! as before.
use crate::alike::answer_alike;
use crate::cases::opened;
use crate::fault_rows::{Asked, FIRST, ROWS, Row, SECOND, TEXT};
use crate::late_rows::{Late, WAITING};
use crate::rows::assert_rows;
use crate::steps::{Step, comes};
use std::alloc::Global;
use std::process::Abort;
use text_buffer::{Buffer, Limits};

// Whether each step comes out as it should.
fn plays(rt: &impl Abort, alloc: Global, buffer: &mut Buffer, steps: &[Step]) -> bool {
    for &step in steps {
        if !comes(alloc, buffer, step).expect(rt, "memory") {
            return false;
        }
    }
    true
}

// Whether an operation is answered so. The twin takes it as well, or where it is refused answers as the buffer.
fn answers(
    rt: &impl Abort,
    alloc: Global,
    buffer: &mut Buffer,
    twin: &mut Buffer,
    asked: Asked,
) -> bool {
    let ((at, seen, parts), want) = asked;
    let step = Step::Take(at, seen, parts, want);
    if !comes(alloc, buffer, step).expect(rt, "memory") {
        return false;
    }
    if want.is_err() {
        return answer_alike(rt, alloc, buffer, twin);
    }
    comes(alloc, twin, step).expect(rt, "memory")
}

// Whether each operation is answered so by a buffer and its twin that have played the same before.
fn answer(
    rt: &impl Abort,
    alloc: Global,
    buffer: &mut Buffer,
    twin: &mut Buffer,
    before: &[Step],
    asked: &[Asked],
) -> bool {
    let mut right = plays(rt, alloc, buffer, before);
    right = plays(rt, alloc, twin, before) && right;
    for &row in asked {
        right = answers(rt, alloc, buffer, twin, row) && right;
    }
    right
}

fn holds_in(
    rt: &impl Abort,
    alloc: Global,
    buffer: &mut Buffer,
    limits: Limits,
    before: &[Step],
    asked: &[Asked],
) -> bool {
    let mut twin = opened(rt, alloc, TEXT, limits);
    answer(rt, alloc, buffer, &mut twin, before, asked)
}

fn holds(rt: &impl Abort, alloc: Global, limits: Limits, before: &[Step], asked: &[Asked]) -> bool {
    let mut buffer = opened(rt, alloc, TEXT, limits);
    holds_in(rt, alloc, &mut buffer, limits, before, asked)
}

// Whether an operation has its answers at the first and at the second buffer.
fn is_answered(rt: &impl Abort, alloc: Global, row: &Row) -> bool {
    let &(limits, given, first, second) = row;
    holds(rt, alloc, limits, FIRST, &[(given, first)])
        && holds(rt, alloc, limits, SECOND, &[(given, second)])
}

#[test]
fn a_fault_leaves_the_buffer_as_it_was(rt: HostRuntime) {
    assert_rows(&rt, rt.alloc(), ROWS, is_answered);
}

// Whether those that wait are applied or refused so while the buffer settles.
fn settles(rt: &impl Abort, alloc: Global, row: &Late) -> bool {
    plays(
        rt,
        alloc,
        &mut opened(rt, alloc, TEXT, row.limits),
        row.settling,
    )
}

// Whether they are, and are answered so at once by a buffer that has what they waited for.
fn is_answered_late(rt: &impl Abort, alloc: Global, row: &Late) -> bool {
    settles(rt, alloc, row) && holds(rt, alloc, row.limits, row.before, row.at_once)
}

#[test]
fn a_fault_while_settling_is_the_one_at_once(rt: HostRuntime) {
    assert_rows(&rt, rt.alloc(), WAITING, is_answered_late);
}
