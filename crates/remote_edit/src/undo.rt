//! The fragments that an undo shows and hides.
ghost use Rattle.std.specs.Prelude.{◌≡◌, ◌+◌, ◌*◌, ◌<◌, ◌≤◌, ◌∷◌, [], Some, false, true, length, slice_get, IfOk, OnOk};
ghost use Rattle.std.specs.List.{AllByRecursion, list_any, list_all};
ghost use Rattle.sum_tree.specs.Laws.{fold};
ghost use Rattle.sum_tree.specs.Spliced.{splice_list};
ghost use Rattle.lamport_clock.specs.Stamps.{same_stamp};
ghost use Rattle.undo_map.specs.Counts.{count_of, is_odd};
ghost use Rattle.fragments.specs.Summaries.{no_fragments, summaries, summary_of, SummaryFits};
ghost use Rattle.fragments.specs.DeletedRuns.{few_runs};
ghost use Rattle.remote_edit.specs.Marks.{is_shown};
ghost use Rattle.remote_edit.specs.Concern.{begins_by, may_concern};
ghost use Rattle.remote_edit.specs.Anew.{concerns, recount, anew, all_anew, changed_at};
ghost use Rattle.remote_edit.specs.Finds.{IsFound, is_place, HaveConcerned};
ghost use Rattle.remote_edit.specs.Looks.{undo_looks, seen_count};
ghost use Rattle.remote_edit.specs.Undoing.{StandWithUndo, MoveWithUndo, KeepCharactersWithUndo, IsMarked};

use crate::by_index::places_by_index;
use crate::undo_moves::undo_moves;
use crate::{OutOfMemory, Placed};
use fragments::{Fragment, FragmentSummary, Full, InsertionIndex, Span};
use lamport_clock::{Lamport, is_same};
use std::alloc::Global;
use std::marker::Brand;
use std::sync::ledger::{Blank, Ledger};
use sum_tree::{Item, Steps, SumTree};
use tree_cursor::{FilterCursor, Keep};
use undo_map::UndoMap;

// Keeps the runs of fragments that may have cells that one of the edits inserted or deletes: those that have seen it
// and have a stamp no later. What an edit deletes is earlier than the edit, so a run of later cells has nothing of it.
#[derive(Drop)]
struct MayConcern<'e> {
    edits: &'e [Lamport],
}

impl<'e> Keep<FragmentSummary> for MayConcern<'e> {
    ghost use Rattle.remote_edit.specs.SeesLaws.{concern_any_parts};
    ghost use Rattle.remote_edit.specs.Concern.{may_concern_any};

    ghost keeps = { λ k s. may_concern_any k.edits.now s };

    ghost parts = { λ k a b f g h. concern_any_parts k.edits.now a b h };

    fn keep(&self, s: &FragmentSummary) -> bool {
        self.edits.iter().any(|t| may_concern(s, *t))
    }
}

// Whether a run of fragments may have cells that the edit inserted or deletes.
fn may_concern(s: &FragmentSummary, edit: Lamport) -> bool
    ensures { result ≡ may_concern s.now edit }
{
    begins_by(s.span.as_slice(), edit) && s.greatest.sees(edit)
}

// Whether one of the stamps is no later than the edit's.
fn begins_by(spans: &[Span], edit: Lamport) -> bool
    ensures { result ≡ begins_by edit spans.now }
{
    spans.iter().any(|span| span.least <= edit.value)
}

// Whether an edit, no earlier than the cells of a fragment, inserted them or deletes them.
fn concerns(fragment: &Fragment, edit: Lamport) -> bool
    ensures { result ≡ concerns fragment.now edit }
{
    fragment.stamp.value <= edit.value
        && (is_same(edit, fragment.stamp) || stands_in(fragment.deletions.as_slice(), edit))
}

fn stands_in(stamps: &[Lamport], stamp: Lamport) -> bool
    ensures { result ≡ list_any (same_stamp stamp) stamps.now }
{
    stamps.iter().any(|other| is_same(stamp, *other))
}

// Whether one of the edits inserted the cells of a fragment or deletes them.
fn is_concerned(fragment: &Fragment, edits: &[Lamport]) -> bool
    ensures { result ≡ list_any (concerns fragment.now) edits.now }
{
    edits.iter().any(|t| concerns(fragment, *t))
}

fn all_are_undone(undos: &UndoMap, edits: &[Lamport]) -> bool
    ensures { result ≡ list_all (λ t. is_odd (count_of undos.now t)) edits.now }
{
    edits.iter().all(|t| undos.is_undone(*t))
}

// Whether the counts show a fragment.
fn is_shown(undos: &UndoMap, fragment: &Fragment) -> bool
    ensures { result ≡ is_shown undos.now fragment.now.stamp fragment.now.deletions }
{
    !undos.is_undone(fragment.stamp) && all_are_undone(undos, fragment.deletions.as_slice())
}

// The fragment shown or hidden by the counts, of which the undo `by` set some.
fn recount(
    alloc: Global,
    fragment: &Fragment,
    undos: &UndoMap,
    by: Lamport,
) -> Result<Fragment, OutOfMemory>
    ensures { IfOk result (λ f. f ≡ recount undos.now by fragment.now) }
{
    let mut anew = fragment.copy(alloc)?;
    anew.visible = is_shown(undos, fragment);
    anew.max_undos.observe(by)?;
    Ok(anew)
}

fn list_of(alloc: Global, fragment: Fragment) -> Result<Vec<Fragment>, OutOfMemory>
    ensures { IfOk result (λ v. v.items ≡ fragment ∷ []) }
{
    let mut list = Vec::with_capacity(alloc, 1)?;
    list.push(fragment)?;
    Ok(list)
}

// Replaces one fragment with another, and counts a step for each node made. An undo makes nodes of the tree only here.
fn replace<L: Ledger>(
    alloc: Global,
    fragments: &mut SumTree<Fragment>,
    i: u64,
    fragment: Fragment,
    steps: &mut Steps<L>,
) -> Result<(), OutOfMemory>
    requires within { i + 1 ≤ length fragments.old.items }
    requires fits { SummaryFits (fold no_fragments summaries summary_of
        (splice_list i (i + 1) (fragment ∷ []) fragments.old.items)) }
    ensures items { OnOk result (fragments.new.items
        ≡ splice_list i (i + 1) (fragment ∷ []) fragments.old.items) }
    ensures cost { steps.new ≤ steps.old + 96 }
{
    fragments.known();
    let one = list_of(alloc, fragment)?;
    fragments.exchange_counted(alloc, i, i + 1, one, steps)
}

// Replaces fragment i with what an undo of the edits makes of it.
fn put_anew<L: Ledger>(
    alloc: Global,
    fragments: &mut SumTree<Fragment>,
    i: u64,
    fragment: &Fragment,
    undos: &UndoMap,
    by: Lamport,
    edits: &[Lamport],
    steps: &mut Steps<L>,
) -> Result<(), OutOfMemory>
    requires within { i + 1 ≤ length fragments.old.items }
    requires stands { list_any (concerns fragment.now) edits.now ≡ false
        → slice_get fragments.old.items i ≡ Some fragment.now }
    requires fits { SummaryFits (fold no_fragments summaries summary_of
        (splice_list i (i + 1)
        (anew undos.now by edits.now fragment.now ∷ []) fragments.old.items)) }
    ensures items { OnOk result (fragments.new.items
        ≡ splice_list i (i + 1)
        (anew undos.now by edits.now fragment.now ∷ []) fragments.old.items) }
    ensures cost { steps.new ≤ steps.old + 96 }
{
    if !is_concerned(fragment, edits) {
        return Ok(());
    }
    let one = recount(alloc, fragment, undos, by)?;
    replace(alloc, fragments, i, one, steps)
}

// The fragments of a history with an undo of these edits, which concerns only fragments at these places. Looks at each
// of these places, which counts a step, and at no others.
fn with_undo<L: Ledger>(
    alloc: Global,
    tree: &SumTree<Fragment>,
    places: &[u64],
    undos: &UndoMap,
    by: Lamport,
    edits: &[Lamport],
    steps: &mut Steps<L>,
) -> Result<SumTree<Fragment>, OutOfMemory>
    ensures items { IfOk result (λ t. t.items
        ≡ changed_at (anew undos.now by edits.now) (is_place places.now) tree.now.items) }
    ensures seen { IfOk result (λ t. seen_count by t.items
        ≤ seen_count by tree.now.items + length places.now) }
    ensures cost { steps.new ≤ steps.old + 97 * length places.now }
{
    tree.known();
    let mut fragments = tree.share()?;
    for place in places {
        steps.tick();
        if let Some(fragment) = tree.get(*place) {
            put_anew(
                alloc,
                &mut fragments,
                *place,
                fragment,
                undos,
                by,
                edits,
                steps,
            )?;
        }
    }
    Ok(fragments)
}

// The places of the fragments that one of the edits inserted or deletes, and of some others, found by the sums.
fn places_by_sums(
    alloc: Global,
    tree: &SumTree<Fragment>,
    edits: &[Lamport],
) -> Result<Vec<u64>, OutOfMemory>
    ensures { IfOk result (λ ps. AllByRecursion
        (λ t. HaveConcerned tree.now.items t ps.items) edits.now) }
{
    tree.known();
    let mut places = Vec::new(alloc);
    let mut found = FilterCursor::new(tree, Full { bytes: 0 }, MayConcern { edits })?;
    while let Some(_fragment) = found.next()? {
        places.push(found.index())?;
    }
    Ok(places)
}

// The places of these fragments, found by the index, or by the sums if the index may lack runs.
fn places_for<L: Ledger>(
    alloc: Global,
    tree: &SumTree<Fragment>,
    index: &InsertionIndex,
    edits: &[Lamport],
    steps: &mut Steps<L>,
) -> Result<Vec<u64>, OutOfMemory>
    ensures found { IsFound tree.now.items index.now → IfOk result (λ ps. AllByRecursion
        (λ t. HaveConcerned tree.now.items t ps.items) edits.now) }
    ensures few { few_runs index.now.deletions ≡ true
        → IfOk result (λ ps. length ps.items + steps.old ≤ steps.new) }
    ensures cost { IsFound tree.now.items index.now → few_runs index.now.deletions ≡ true
        → steps.new ≤ steps.old + undo_looks tree.now.items index.now.deletions edits.now }
{
    if !index.has_all_runs() {
        return places_by_sums(alloc, tree, edits);
    }
    places_by_index(alloc, tree, index, edits, steps)
}

// What an undo makes of fragments, of which it concerns only those at these places.
fn mark_places<L: Ledger>(
    alloc: Global,
    tree: &SumTree<Fragment>,
    index: &InsertionIndex,
    places: &[u64],
    undos: &UndoMap,
    by: Lamport,
    edits: &[Lamport],
    steps: &mut Steps<L>,
) -> Result<Placed, OutOfMemory>
    ensures marked { IfOk result (λ p. IsMarked tree.now.items index.now undos.now by edits.now
        places.now p) }
    ensures cost { steps.new ≤ steps.old
        + (98 * length places.now + seen_count by tree.now.items) }
{
    let fragments = with_undo(alloc, tree, places, undos, by, edits, steps)?;
    let index = index.share()?;
    let moves = undo_moves(alloc, tree, &fragments, by, steps)?;
    Ok(Placed {
        fragments,
        index,
        moves,
    })
}

// The same, with a counter made from the blank.
fn mark_with<L: Ledger>(
    alloc: Global,
    tree: &SumTree<Fragment>,
    index: &InsertionIndex,
    places: &[u64],
    undos: &UndoMap,
    by: Lamport,
    edits: &[Lamport],
    blank: Blank,
) -> Result<Placed, OutOfMemory>
    requires name { blank.name ≡ L.name }
    requires parts { blank.parts ≡ L.parts }
    requires some { 0 < blank.parts }
    ensures { IfOk result (λ p. IsMarked tree.now.items index.now undos.now by edits.now
        places.now p) }
{
    let mut steps = Steps::<L>::new(blank);
    mark_places(alloc, tree, index, places, undos, by, edits, &mut steps)
}

/// Shows and hides the fragments that the undo `by` concerns: those that one of the edits inserted or deletes. The undo
/// counts must already have those of this undo. `edits` are the edits that it undoes or redoes, in any order; an edit
/// may be listed twice, and further edits change nothing that is shown.
///
/// An edit is later than what it deletes, so runs of fragments that have not seen it, or are all later than it, are
/// passed whole and stay shared; the index is not asked. The cost is O(k h), where h is the height of the tree and k
/// counts the fragments that one of the edits inserted or deletes, and those no later than one of the edits whose
/// neighbours the author of that edit has changed since. `mark_undo_by_index` looks at the first of these alone.
///
/// # Errors
///
/// Fails only if an allocation fails.
pub fn mark_undo(
    alloc: Global,
    tree: &SumTree<Fragment>,
    index: &InsertionIndex,
    undos: &UndoMap,
    by: Lamport,
    edits: &[Lamport],
) -> Result<Placed, OutOfMemory>
    ensures fragments { IfOk result (λ p. p.fragments.items
        ≡ all_anew undos.now by edits.now tree.now.items) }
    ensures index { IfOk result (λ p. p.index ≡ index.now) }
    ensures stands { IfOk result (λ p. StandWithUndo tree.now.items index.now undos.now by
        edits.now p.fragments.items p.index) }
    ensures moves { IfOk result (λ p. MoveWithUndo tree.now.items index.now undos.now by edits.now
        p.moves) }
    ensures characters { IfOk result (λ p. KeepCharactersWithUndo tree.now.items index.now
        undos.now by edits.now p.fragments.items p.moves) }
{
    let places = places_by_sums(alloc, tree, edits)?;
    mark_with::<Brand>(alloc, tree, index, &places, undos, by, edits, Blank::new(1))
}

/// Does what `mark_undo` does, if the index has these fragments and what is deleted of them: it finds the fragments that
/// the undo concerns by the index, looks at nothing else, and shares all else with the given tree. The cost is
/// O(k h + k log n), where k is the number of fragments that the undo concerns, h the height of the tree and n the
/// number of runs that edits deleted. If the index may lack runs, this is `mark_undo`.
///
/// # Errors
///
/// Fails only if an allocation fails.
pub fn mark_undo_by_index(
    alloc: Global,
    tree: &SumTree<Fragment>,
    index: &InsertionIndex,
    undos: &UndoMap,
    by: Lamport,
    edits: &[Lamport],
) -> Result<Placed, OutOfMemory>
    ensures fragments { IsFound tree.now.items index.now → IfOk result (λ p. p.fragments.items
        ≡ all_anew undos.now by edits.now tree.now.items) }
    ensures index { IfOk result (λ p. p.index ≡ index.now) }
    ensures stands { IfOk result (λ p. StandWithUndo tree.now.items index.now undos.now by
        edits.now p.fragments.items p.index) }
    ensures moves { IfOk result (λ p. MoveWithUndo tree.now.items index.now undos.now by edits.now
        p.moves) }
    ensures characters { IfOk result (λ p. KeepCharactersWithUndo tree.now.items index.now
        undos.now by edits.now p.fragments.items p.moves) }
{
    by_index_with::<Brand>(alloc, tree, index, undos, by, edits, Blank::new(1))
}

// The same, with a counter made from the blank.
fn by_index_with<L: Ledger>(
    alloc: Global,
    tree: &SumTree<Fragment>,
    index: &InsertionIndex,
    undos: &UndoMap,
    by: Lamport,
    edits: &[Lamport],
    blank: Blank,
) -> Result<Placed, OutOfMemory>
    requires name { blank.name ≡ L.name }
    requires parts { blank.parts ≡ L.parts }
    requires some { 0 < blank.parts }
    ensures fragments { IsFound tree.now.items index.now → IfOk result (λ p. p.fragments.items
        ≡ all_anew undos.now by edits.now tree.now.items) }
    ensures index { IfOk result (λ p. p.index ≡ index.now) }
    ensures stands { IfOk result (λ p. StandWithUndo tree.now.items index.now undos.now by
        edits.now p.fragments.items p.index) }
    ensures moves { IfOk result (λ p. MoveWithUndo tree.now.items index.now undos.now by edits.now
        p.moves) }
    ensures characters { IfOk result (λ p. KeepCharactersWithUndo tree.now.items index.now
        undos.now by edits.now p.fragments.items p.moves) }
{
    let mut steps = Steps::<L>::new(blank);
    mark_undo_counted(alloc, tree, index, undos, by, edits, &mut steps)
}

/// Does what `mark_undo_by_index` does, and counts a step for each look at a fragment and for each node of the tree that
/// is made, even if the call fails. A look is at most one descent of the index and one of each tree.
///
/// If the index has these fragments and all runs, there are at most 128 steps for each edit, for each run that it deleted,
/// and for each fragment that it inserted or deletes, and one for each fragment that has seen the undo already.
///
/// # Errors
///
/// Fails only if an allocation fails.
pub fn mark_undo_counted<L: Ledger>(
    alloc: Global,
    tree: &SumTree<Fragment>,
    index: &InsertionIndex,
    undos: &UndoMap,
    by: Lamport,
    edits: &[Lamport],
    steps: &mut Steps<L>,
) -> Result<Placed, OutOfMemory>
    ensures fragments { IsFound tree.now.items index.now → IfOk result (λ p. p.fragments.items
        ≡ all_anew undos.now by edits.now tree.now.items) }
    ensures index { IfOk result (λ p. p.index ≡ index.now) }
    ensures stands { IfOk result (λ p. StandWithUndo tree.now.items index.now undos.now by
        edits.now p.fragments.items p.index) }
    ensures moves { IfOk result (λ p. MoveWithUndo tree.now.items index.now undos.now by edits.now
        p.moves) }
    ensures characters { IfOk result (λ p. KeepCharactersWithUndo tree.now.items index.now
        undos.now by edits.now p.fragments.items p.moves) }
    ensures cost { IsFound tree.now.items index.now → few_runs index.now.deletions ≡ true
        → steps.new ≤ steps.old
        + 128 * undo_looks tree.now.items index.now.deletions edits.now
        + seen_count by tree.now.items }
{
    let places = places_for(alloc, tree, index, edits, steps)?;
    mark_places(alloc, tree, index, &places, undos, by, edits, steps)
}
