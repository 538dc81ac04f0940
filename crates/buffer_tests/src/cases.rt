//! Cases of buffers: a base, and steps over it.
ghost use Rattle.std.specs.Prelude.{◌≤◌, ◌^◌, ◌-◌};

use crate::steps::{Row, count_right};
use std::alloc::Global;
use std::process::Abort;
use sum_tree::OutOfMemory;
use text_buffer::{Base, Buffer, Limits};

/// Rows of steps in a buffer of replica 9.
pub(crate) struct Case {
    pub(crate) name: &'static str,
    pub(crate) base: &'static str,
    pub(crate) limits: Limits,
    pub(crate) rows: &'static [Row],
}

/// The greatest limits that a buffer may have, which nothing here passes.
pub(crate) const AMPLE: Limits = Limits {
    bytes: 1 << 40,
    entries: (1 << 40) - 1,
};

/// Limits, where a buffer may have them.
pub(crate) fn limits_of(limits: Limits) -> Limits
    ensures bytes { result.bytes ≤ 2 ^ 40 }
    ensures entries { result.entries ≤ 2 ^ 40 - 1 }
{
    if limits.bytes <= AMPLE.bytes && limits.entries <= AMPLE.entries {
        limits
    } else {
        AMPLE
    }
}

/// A buffer of replica 9. A base that is refused and a failed allocation end a test.
pub(crate) fn opened(rt: &impl Abort, alloc: Global, base: &str, limits: Limits) -> Buffer {
    Buffer::new(alloc, 9, base, limits_of(limits)).expect(rt, "a buffer")
}

/// A buffer of replica 9. A base that is refused counts as a failed allocation.
pub(crate) fn open(alloc: Global, base: &str, limits: Limits) -> Result<Buffer, OutOfMemory> {
    match Buffer::new(alloc, 9, base, limits_of(limits)) {
        Ok(buffer) => Ok(buffer),
        Err(_) => Err(OutOfMemory),
    }
}

/// A buffer of replica 9 that has LFs alone.
pub(crate) fn open_lf(rt: &impl Abort, alloc: Global, base: &str, limits: Limits) -> Buffer {
    Buffer::new_lf(alloc, 9, base, limits_of(limits)).expect(rt, "a buffer with LFs alone")
}

fn open_over(rt: &impl Abort, alloc: Global, base: &Base, limits: Limits) -> Buffer {
    Buffer::over(alloc, 9, base, limits_of(limits)).expect(rt, "a buffer over a base")
}

// How many rows of a case come out as they should in a buffer over a base that was made ready.
fn count_over(rt: &impl Abort, alloc: Global, base: &Base, case: &Case) -> usize {
    count_right(
        rt,
        alloc,
        open_over(rt, alloc, base, case.limits),
        case.rows,
    )
}

// The same in each of two buffers over one base, one after the other.
fn count_both(rt: &impl Abort, alloc: Global, base: &Base, case: &Case) -> usize {
    count_over(rt, alloc, base, case).min(count_over(rt, alloc, base, case))
}

fn count_twice(rt: &impl Abort, alloc: Global, case: &Case) -> usize {
    let base = Base::new(alloc, case.base).expect(rt, "a base");
    count_both(rt, alloc, &base, case)
}

// How many rows of a case come out as they should, in each of three buffers.
fn count_case(rt: &impl Abort, alloc: Global, case: &Case) -> usize {
    let own = count_right(
        rt,
        alloc,
        opened(rt, alloc, case.base, case.limits),
        case.rows,
    );
    own.min(count_twice(rt, alloc, case))
}

/// Asserts that all rows of each case come out as they should. The assertion names a case and its first row that does not.
pub(crate) fn assert_cases(rt: &impl Abort, alloc: Global, cases: &[Case]) {
    for case in cases {
        let right = count_case(rt, alloc, case);
        assert!(rt; right == case.rows.len(), "{}: row {right}", case.name);
    }
}
