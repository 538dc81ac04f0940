//! Tables that a test goes through, each row in turn.
use std::alloc::Global;
use std::process::Abort;

/// Asserts that each row of a table holds. The assertion names the index of the first one that does not.
pub(crate) fn assert_rows<R: Abort, T, F: Fn(&R, Global, &T) -> bool>(
    rt: &R,
    alloc: Global,
    rows: &[T],
    holds: F,
)
    requires { F.IsAlwaysCallable holds }
{
    for (i, row) in rows.iter().enumerate() {
        assert!(rt; holds(rt, alloc, row), "row {i}");
    }
}
