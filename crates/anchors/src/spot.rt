//! Where a byte of an edit stands among fragments.
ghost use Rattle.std.specs.Prelude.{◌≡◌, ◌≤◌, ◌<◌, ◌+◌, ◌^◌, List, IfSome};
ghost use Rattle.std.specs.List.{AllByRecursion};
ghost use Rattle.op_model.specs.Histories.{History};
ghost use Rattle.op_model.specs.Edits.{is_boundary};
ghost use Rattle.op_model.specs.Shown.{new_bytes};
ghost use Rattle.op_model.specs.Walked.{IsWhole};
ghost use Rattle.fragments.specs.declared.fragment.Fragment.{Fragment};
ghost use Rattle.fragments.specs.DeletedRuns.{IndexState};
ghost use Rattle.fragments.specs.Stand.{runs};
ghost use Rattle.anchors.specs.Spots.{spot_in, run_behind, begins, IsAround, IsCounted, IsRunAt, IsRunOf, IsWholeRun, OfEach, RunFits};
ghost use Rattle.anchors.specs.Standing.{StandFor};

use crate::before::{Before, Reaching};
use fragments::{Fragment, InsertionIndex};
use lamport_clock::{Lamport, is_same};
use locators::Locator;
use rope_chunks::Rope;
use sum_tree::SumTree;
use tree_cursor::FilterCursor;

/// Whether a cell is shown, and how many shown cells and how many of all stand before it.
#[derive(Clone, Copy)]
pub struct Spot {
    pub is_shown: bool,
    pub shown: u64,
    pub cells: u64,
}

/// The cells of a fragment: `len` of an edit from number `offset` on, and how many shown cells and how many of all stand before them.
#[derive(Clone, Copy)]
pub struct Run {
    pub stamp: Lamport,
    pub offset: u64,
    pub len: u64,
    pub is_shown: bool,
    pub shown: u64,
    pub cells: u64,
}

// The cells of a fragment, behind so many.
fn run_behind(fragment: &Fragment, before: Before) -> Run
    ensures { result ≡ run_behind fragment.now before.shown before.cells }
{
    Run {
        stamp: fragment.stamp,
        offset: fragment.offset,
        len: fragment.len,
        is_shown: fragment.visible,
        shown: before.shown,
        cells: before.cells,
    }
}

/// The spot of a cell in a run, where it has the cell.
pub fn spot_in(run: Run, stamp: Lamport, k: u64) -> Option<Spot>
    requires shown { run.shown + run.len < 2 ^ 64 }
    requires cells { run.cells + run.len < 2 ^ 64 }
    requires fewer { run.shown ≤ run.cells }
    ensures spot { result ≡ spot_in run stamp k }
    ensures counted { IfSome result IsCounted }
{
    if is_same(run.stamp, stamp) && run.offset <= k && k - run.offset < run.len {
        let before = k - run.offset;
        Some(Spot {
            is_shown: run.is_shown,
            shown: if run.is_shown {
                run.shown + before
            } else {
                run.shown
            },
            cells: run.cells + before,
        })
    } else {
        None
    }
}

// The cells of the fragment of an id, where one has the id: one descent, which compares one id with each child on the way.
fn run_at(tree: &SumTree<Fragment>, id: &Locator) -> Option<Run>
    ensures run { IsRunAt tree.now.items id.now result }
    ensures room { IfSome result RunFits }
    ensures whole { (h : History) → AllByRecursion (IsWhole h) (runs tree.now.items)
        → IfSome result (IsWholeRun h) }
{
    tree.known();
    let start = Before { shown: 0, cells: 0 };
    let Ok(mut found) = FilterCursor::new(tree, start, Reaching { id }) else {
        return None;
    };
    let Ok(next) = found.next() else {
        return None;
    };
    let Some(fragment) = next else {
        return None;
    };
    Some(run_behind(fragment, found.start()))
}

/// The cells of the fragment that has cell `k` of an edit, where one has it: a descent in the index and one in the tree.
pub fn run_of(
    tree: &SumTree<Fragment>,
    index: &InsertionIndex,
    stamp: Lamport,
    k: u64,
) -> Option<Run>
    ensures run { OfEach tree.now.items index.now (λ h. IsRunOf h stamp k result) }
    ensures room { IfSome result RunFits }
    ensures whole { (h : History) → AllByRecursion (IsWhole h) (runs tree.now.items)
        → IfSome result (IsWholeRun h) }
{
    let Some(id) = index.find(stamp, k) else {
        return None;
    };
    run_at(tree, id)
}

// Whether a rope may be cut at an offset.
fn is_boundary(rope: &Rope, i: u64) -> bool
    ensures { result ≡ is_boundary rope.now i }
{
    rope.is_char_boundary(i)
}

// Whether a character begins at a spot.
fn begins(visible: &Rope, hidden: &Rope, spot: Spot) -> bool
    requires { spot.shown ≤ spot.cells }
    ensures { result ≡ begins visible.now hidden.now spot }
{
    if spot.is_shown {
        is_boundary(visible, spot.shown)
    } else {
        is_boundary(hidden, spot.cells - spot.shown)
    }
}

/// Whether a character begins with cell `k` of an edit or ends before it, where a run has that cell or the one before it. A run
/// begins and ends between characters, so a rope is asked only inside it.
pub fn is_between(visible: &Rope, hidden: &Rope, run: Run, stamp: Lamport, k: u64) -> bool
    requires { RunFits run }
    ensures { (fs : List Fragment) → (w : IndexState) → (h : History)
        → StandFor fs w visible.now hidden.now h → IsAround h stamp k run
        → result ≡ is_boundary (new_bytes h stamp) k }
{
    if run.offset == k {
        return true;
    }
    match spot_in(run, stamp, k) {
        None => true,
        Some(spot) => begins(visible, hidden, spot),
    }
}
