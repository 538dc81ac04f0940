//! Fragments made of rows.
use crate::operations::{Stamp, stamp, version};
use fragments::{Fragment, OutOfMemory, Stamps};
use locators::Locator;
use std::alloc::Global;
use std::process::Abort;
use sum_tree::SumTree;

/// A fragment but for its id: its edit, the number of its first cell, its text, whether it is shown, the edits that delete it,
/// and the undos of these and of its own edit.
pub(crate) type Run = (
    Stamp,
    u64,
    &'static str,
    bool,
    &'static [Stamp],
    &'static [Stamp],
);

fn stamps(rt: &impl Abort, alloc: Global, rows: &[Stamp]) -> Stamps {
    let mut stamps = Stamps::new(alloc);
    for &row in rows {
        stamps.insert(stamp(row)).expect(rt, "memory");
    }
    stamps
}

pub(crate) fn fragment(rt: &impl Abort, alloc: Global, id: Locator, run: &Run) -> Fragment {
    let deletions = stamps(rt, alloc, run.4);
    Fragment {
        id,
        stamp: stamp(run.0),
        offset: run.1,
        len: run.2.len() as u64,
        visible: run.3,
        deletions,
        max_undos: version(alloc, run.5).expect(rt, "memory"),
    }
}

// Adds a fragment where the tree is small.
fn add(alloc: Global, tree: &mut SumTree<Fragment>, fragment: Fragment) -> Result<(), OutOfMemory> {
    let count = tree.len();
    let sum = tree.summary();
    if count >= 1_000 {
        return Ok(());
    }
    if sum.visible >= 1_000_000 {
        return Ok(());
    }
    if sum.hidden >= 1_000_000 {
        return Ok(());
    }
    if fragment.len >= 1_000 {
        return Ok(());
    }
    tree.push(alloc, fragment)
}

// Adds a fragment with an id between the last one and the greatest, which is then the last.
fn add_run(
    rt: &impl Abort,
    alloc: Global,
    tree: &mut SumTree<Fragment>,
    last: &mut Locator,
    run: &Run,
) {
    let id = Locator::between(alloc, last, &Locator::greatest(alloc).expect(rt, "memory")).expect(
        rt, "memory",
    );
    *last = id.copy(alloc).expect(rt, "memory");
    add(alloc, tree, fragment(rt, alloc, id, run)).expect(rt, "memory");
}

fn add_runs(
    rt: &impl Abort,
    alloc: Global,
    tree: &mut SumTree<Fragment>,
    last: &mut Locator,
    runs: &[Run],
    times: u64,
) {
    for _time in 0..times {
        for run in runs {
            add_run(rt, alloc, tree, last, run);
        }
    }
}

/// The tree of these fragments, that many times over.
pub(crate) fn tree_of(
    rt: &impl Abort,
    alloc: Global,
    runs: &[Run],
    times: u64,
) -> SumTree<Fragment> {
    let mut last = Locator::least(alloc).expect(rt, "memory");
    let mut tree = SumTree::new(alloc).expect(rt, "memory");
    add_runs(rt, alloc, &mut tree, &mut last, runs, times);
    tree
}
