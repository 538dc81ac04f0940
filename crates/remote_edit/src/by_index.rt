//! The fragments whose cells an edit inserted or deleted, found by the index.
ghost use Rattle.std.specs.Prelude.{◌≡◌, ◌+◌, ◌≤◌, true, length, slice_get, IfOk, OnOk};
ghost use Rattle.std.specs.Option.{option_copied};
ghost use Rattle.std.specs.List.{AllByRecursion};
ghost use Rattle.fragments.specs.DeletedRuns.{few_runs};
ghost use Rattle.remote_edit.specs.Finds.{IsFound, place_from, place_of, HaveAll, HaveCells, HaveRun, HaveConcerned};
ghost use Rattle.remote_edit.specs.Looks.{cell_looks, run_looks, edit_looks, undo_looks};

use crate::OutOfMemory;
use fragments::{DeletedRun, Fragment, FragmentSummary, Full, InsertionIndex};
use lamport_clock::Lamport;
use locators::Locator;
use std::alloc::Global;
use std::sync::ledger::Ledger;
use sum_tree::{Steps, SumTree};
use tree_cursor::{FilterCursor, Keep};

// Keeps the runs of fragments that may have one with this id or a greater one.
#[derive(Drop)]
struct FromId<'i> {
    id: &'i Locator,
}

impl<'i> Keep<FragmentSummary> for FromId<'i> {
    ghost use Rattle.remote_edit.specs.Finds.{is_from};
    ghost use Rattle.remote_edit.specs.FindLaws.{from_parts};

    ghost keeps = { λ k s. is_from k.id.now s };

    ghost parts = { λ k a b f g h. from_parts k.id.now a b h };

    fn keep(&self, s: &FragmentSummary) -> bool {
        match &s.last_id {
            None => false,
            Some(last) => !last.cmp(self.id).is_lt(),
        }
    }
}

/// The first fragment whose id is not less than this one, if there is one, and its index, or else the number of
/// fragments: if ids ascend, the fragment with this id. One descent. Does not allocate.
pub fn fragment_from<'a>(tree: &'a SumTree<Fragment>, id: &Locator) -> (Option<&'a Fragment>, u64)
    ensures fragment { option_copied result.0
        ≡ slice_get tree.now.items (place_from id.now tree.now.items) }
    ensures place { result.1 ≡ place_from id.now tree.now.items }
{
    tree.known();
    let Ok(mut found) = FilterCursor::new(tree, Full { bytes: 0 }, FromId { id }) else {
        unreachable!()
    };
    let Ok(fragment) = found.next() else {
        unreachable!()
    };
    (fragment, found.index())
}

// The index of the fragment that the index has for a cell, and the number of its first cell. One descent of the index
// and one of the tree, which count one step.
fn place_of<L: Ledger>(
    tree: &SumTree<Fragment>,
    index: &InsertionIndex,
    stamp: Lamport,
    cell: u64,
    steps: &mut Steps<L>,
) -> Option<(u64, u64)>
    ensures place { result ≡ place_of stamp cell index.now.entries tree.now.items }
    ensures cost { steps.new ≡ steps.old + 1 }
{
    steps.tick();
    let id = index.find(stamp, cell)?;
    let (found, place) = fragment_from(tree, id);
    let fragment = found?;
    Some((place, fragment.offset))
}

// Adds the places of the fragments that have one of the cells `from..=last` of an edit, the last one first.
fn find_cells<L: Ledger>(
    places: &mut Vec<u64>,
    tree: &SumTree<Fragment>,
    index: &InsertionIndex,
    stamp: Lamport,
    from: u64,
    last: u64,
    steps: &mut Steps<L>,
) -> Result<(), OutOfMemory>
    ensures kept { OnOk result (HaveAll places.old.items places.new.items) }
    ensures found { IsFound tree.now.items index.now
        → OnOk result (HaveCells tree.now.items stamp from last places.new.items) }
    ensures few { OnOk result (length places.new.items + steps.old
        ≤ length places.old.items + steps.new) }
    ensures cost { IsFound tree.now.items index.now
        → steps.new ≤ steps.old + cell_looks stamp from last tree.now.items }
{
    let mut cell = last;
    while let Some((place, first)) = place_of(tree, index, stamp, cell, steps) {
        places.push(place)?;
        if first <= from || cell < first {
            return Ok(());
        }
        cell = first - 1;
    }
    Ok(())
}

// Adds the places of the fragments that have cells which the edit inserted or deleted.
fn find_edit<L: Ledger>(
    places: &mut Vec<u64>,
    alloc: Global,
    tree: &SumTree<Fragment>,
    index: &InsertionIndex,
    edit: Lamport,
    steps: &mut Steps<L>,
) -> Result<(), OutOfMemory>
    requires { few_runs index.now.deletions ≡ true }
    ensures kept { OnOk result (HaveAll places.old.items places.new.items) }
    ensures found { IsFound tree.now.items index.now
        → OnOk result (HaveConcerned tree.now.items edit places.new.items) }
    ensures few { OnOk result (length places.new.items + steps.old
        ≤ length places.old.items + steps.new) }
    ensures cost { IsFound tree.now.items index.now
        → steps.new ≤ steps.old + edit_looks tree.now.items index.now.deletions edit }
{
    find_cells(places, tree, index, edit, 0, u64::MAX, steps)?;
    let runs = index.deleted_by(alloc, edit)?;
    for run in &runs {
        find_run(places, tree, index, run, steps)?;
    }
    Ok(())
}

// Adds the places of the fragments that have cells of a run.
fn find_run<L: Ledger>(
    places: &mut Vec<u64>,
    tree: &SumTree<Fragment>,
    index: &InsertionIndex,
    run: &DeletedRun,
    steps: &mut Steps<L>,
) -> Result<(), OutOfMemory>
    ensures kept { OnOk result (HaveAll places.old.items places.new.items) }
    ensures found { IsFound tree.now.items index.now
        → OnOk result (HaveRun tree.now.items run.now places.new.items) }
    ensures few { OnOk result (length places.new.items + steps.old
        ≤ length places.old.items + steps.new) }
    ensures cost { IsFound tree.now.items index.now
        → steps.new ≤ steps.old + run_looks tree.now.items run.now }
{
    let last = run.offset.saturating_add(run.len.saturating_sub(1));
    find_cells(places, tree, index, run.stamp, run.offset, last, steps)
}

/// The places of the fragments that have cells which one of the edits inserted or deleted, in any order. The index must
/// have all runs. One descent of the index and one of the tree for each, which count one step.
///
/// # Errors
///
/// Fails only if an allocation fails.
pub fn places_by_index<L: Ledger>(
    alloc: Global,
    tree: &SumTree<Fragment>,
    index: &InsertionIndex,
    edits: &[Lamport],
    steps: &mut Steps<L>,
) -> Result<Vec<u64>, OutOfMemory>
    requires { few_runs index.now.deletions ≡ true }
    ensures found { IsFound tree.now.items index.now → IfOk result (λ ps. AllByRecursion
        (λ t. HaveConcerned tree.now.items t ps.items) edits.now) }
    ensures few { IfOk result (λ ps. length ps.items + steps.old ≤ steps.new) }
    ensures cost { IsFound tree.now.items index.now
        → steps.new ≤ steps.old + undo_looks tree.now.items index.now.deletions edits.now }
{
    let mut places = Vec::new(alloc);
    for edit in edits {
        find_edit(&mut places, alloc, tree, index, *edit, steps)?;
    }
    Ok(places)
}
