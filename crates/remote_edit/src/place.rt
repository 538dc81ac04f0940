//! Edits placed among fragments.
ghost use Rattle.std.specs.Prelude.{◌≡◌, ◌+◌, ◌*◌, ◌<◌, ◌≤◌, ◌^◌, length, IfOk};
ghost use Rattle.op_model.specs.Walked.{Ordered};
ghost use Rattle.op_model.specs.declared.operation.Operation.TheVariants.{Edit};
ghost use Rattle.remote_edit.specs.Placing.{MayPlace, ArePlaced, MoveWithEdit, KeepCharactersWithEdit, MayMake, IsMade};
ghost use Rattle.remote_edit.specs.Costs.{touch_count, touch_count_behind};
ghost use Rattle.remote_edit.specs.Fragments.{with_edit};
ghost use Rattle.remote_edit.specs.Starts.{AllSeen};

use crate::edit_moves::edit_moves;
use crate::offsets::full_pieces;
use crate::walk::walk_in;
use crate::{OutOfMemory, Placed};
use fragments::{Fragment, InsertionIndex};
use lamport_clock::{Lamport, Version};
use op_model::{EditOp, Piece};
use std::alloc::Global;
use std::marker::Brand;
use std::sync::ledger::{Blank, Ledger};
use sum_tree::{Steps, SumTree};
use undo_map::UndoMap;

/// Places an edit: the fragments and the index after it, and what it does to the shown and the hidden text. The
/// fragments, the index and the undo counts must stand for a lawful history in which the edit is good.
///
/// Each new text is inserted at the start of its range, after the fragments there of later edits that its author had
/// not seen, and what was shown to the author in the ranges is deleted. A piece without range and text changes and
/// splits nothing.
///
/// One walk over fragments and pieces: each piece costs a descent, the fragments in its range, and one change of the
/// tree. The moves are then read from the new fragments, which passes whole runs that have not seen the edit. The given
/// tree and index stay as they are, and share with the new ones all that does not change.
///
/// # Errors
///
/// Fails only if an allocation fails.
pub fn place_remote(
    alloc: Global,
    tree: &SumTree<Fragment>,
    index: &InsertionIndex,
    undos: &UndoMap,
    op: &EditOp,
) -> Result<Placed, OutOfMemory>
    requires { MayPlace tree.now.items index.now undos.now (Edit op.now) }
    ensures fragments { IfOk result (λ p. p.fragments.items
        ≡ with_edit undos.now tree.now.items op.now) }
    ensures stands { IfOk result (λ p. ArePlaced tree.now.items index.now undos.now
        (Edit op.now) p.fragments.items p.index) }
    ensures moves { IfOk result (λ p. MoveWithEdit tree.now.items index.now undos.now
        (Edit op.now) p.moves) }
    ensures characters { IfOk result (λ p. KeepCharactersWithEdit tree.now.items index.now
        undos.now (Edit op.now) p.fragments.items p.moves) }
{
    place_remote_into(alloc, tree.share()?, index.share()?, undos, op)
}

/// Does what `place_remote` does, to a tree and an index that it takes whole: what nothing else shares changes in
/// place.
///
/// # Errors
///
/// Fails only if an allocation fails. The tree and the index are dropped then.
pub fn place_remote_into(
    alloc: Global,
    tree: SumTree<Fragment>,
    index: InsertionIndex,
    undos: &UndoMap,
    op: &EditOp,
) -> Result<Placed, OutOfMemory>
    requires { MayPlace tree.items index undos.now (Edit op.now) }
    ensures fragments { IfOk result (λ p. p.fragments.items
        ≡ with_edit undos.now tree.items op.now) }
    ensures stands { IfOk result (λ p. ArePlaced tree.items index undos.now
        (Edit op.now) p.fragments.items p.index) }
    ensures moves { IfOk result (λ p. MoveWithEdit tree.items index undos.now
        (Edit op.now) p.moves) }
    ensures characters { IfOk result (λ p. KeepCharactersWithEdit tree.items index
        undos.now (Edit op.now) p.fragments.items p.moves) }
{
    place_with::<Brand>(alloc, tree, index, undos, op, Blank::new(1))
}

// The same, with a counter made from the blank.
fn place_with<L: Ledger>(
    alloc: Global,
    tree: SumTree<Fragment>,
    index: InsertionIndex,
    undos: &UndoMap,
    op: &EditOp,
    blank: Blank,
) -> Result<Placed, OutOfMemory>
    requires name { blank.name ≡ L.name }
    requires parts { blank.parts ≡ L.parts }
    requires some { 0 < blank.parts }
    requires may { MayPlace tree.items index undos.now (Edit op.now) }
    ensures fragments { IfOk result (λ p. p.fragments.items
        ≡ with_edit undos.now tree.items op.now) }
    ensures stands { IfOk result (λ p. ArePlaced tree.items index undos.now
        (Edit op.now) p.fragments.items p.index) }
    ensures moves { IfOk result (λ p. MoveWithEdit tree.items index undos.now
        (Edit op.now) p.moves) }
    ensures characters { IfOk result (λ p. KeepCharactersWithEdit tree.items index
        undos.now (Edit op.now) p.fragments.items p.moves) }
{
    let mut steps = Steps::<L>::new(blank);
    place_edit(alloc, tree, index, undos, op, &mut steps)
}

/// Does what `place_remote_into` does, and counts a step for each node of the tree that is made. If the edit has seen
/// all fragments, there are at most 256 for each piece and each fragment that the ranges touch.
pub fn place_edit<L: Ledger>(
    alloc: Global,
    tree: SumTree<Fragment>,
    index: InsertionIndex,
    undos: &UndoMap,
    op: &EditOp,
    steps: &mut Steps<L>,
) -> Result<Placed, OutOfMemory>
    requires { MayPlace tree.items index undos.now (Edit op.now) }
    ensures fragments { IfOk result (λ p. p.fragments.items
        ≡ with_edit undos.now tree.items op.now) }
    ensures stands { IfOk result (λ p. ArePlaced tree.items index undos.now
        (Edit op.now) p.fragments.items p.index) }
    ensures moves { IfOk result (λ p. MoveWithEdit tree.items index undos.now
        (Edit op.now) p.moves) }
    ensures characters { IfOk result (λ p. KeepCharactersWithEdit tree.items index
        undos.now (Edit op.now) p.fragments.items p.moves) }
    ensures cost { AllSeen op.now.version tree.items → Ordered 0 (2 ^ 40) op.now.pieces
        → steps.new ≤ steps.old + 256 * (length op.now.pieces
        + touch_count_behind 0 op.now.pieces tree.items) }
{
    let walk = walk_in(alloc, tree, index, undos, op, steps)?;
    let moves = edit_moves(alloc, &walk.tree, undos, op)?;
    Ok(Placed {
        fragments: walk.tree,
        index: walk.index,
        moves,
    })
}

/// Makes the edit of a replica from changes of its text, and places it. The ranges of the changes count bytes of the
/// text. The stamp and the version must be those of the replica's next operation, and the changes without fault.
///
/// Two descents for each change find the ranges among all bytes; then the edit is placed as by `place_remote`. The
/// texts are copied. Counts a step for each node of the tree that is made, even if the call fails.
///
/// # Errors
///
/// Fails only if an allocation fails.
pub fn place_local<L: Ledger>(
    alloc: Global,
    tree: &SumTree<Fragment>,
    index: &InsertionIndex,
    undos: &UndoMap,
    stamp: Lamport,
    version: Version,
    changes: &[Piece],
    steps: &mut Steps<L>,
) -> Result<(EditOp, Placed), OutOfMemory>
    requires { MayMake tree.now.items index.now undos.now stamp version changes.now }
    ensures made { IfOk result (λ r. IsMade tree.now.items index.now undos.now stamp version
        changes.now (Edit r.0)) }
    ensures fragments { IfOk result (λ r. r.1.fragments.items
        ≡ with_edit undos.now tree.now.items r.0) }
    ensures stands { IfOk result (λ r. ArePlaced tree.now.items index.now undos.now
        (Edit r.0) r.1.fragments.items r.1.index) }
    ensures moves { IfOk result (λ r. MoveWithEdit tree.now.items index.now undos.now
        (Edit r.0) r.1.moves) }
    ensures characters { IfOk result (λ r. KeepCharactersWithEdit tree.now.items index.now
        undos.now (Edit r.0) r.1.fragments.items r.1.moves) }
    ensures cost { steps.new ≤ steps.old + 256 * (length changes.now
        + touch_count tree.now.items changes.now + 1) * (tree.now.height + 1) }
{
    place_local_into(
        alloc,
        tree.share()?,
        index.share()?,
        undos,
        stamp,
        version,
        changes,
        steps,
    )
}

/// Does what `place_local` does, to a tree and an index that it takes whole: what nothing else shares changes in place.
///
/// # Errors
///
/// Fails only if an allocation fails. The tree and the index are dropped then.
pub fn place_local_into<L: Ledger>(
    alloc: Global,
    tree: SumTree<Fragment>,
    index: InsertionIndex,
    undos: &UndoMap,
    stamp: Lamport,
    version: Version,
    changes: &[Piece],
    steps: &mut Steps<L>,
) -> Result<(EditOp, Placed), OutOfMemory>
    requires { MayMake tree.items index undos.now stamp version changes.now }
    ensures made { IfOk result (λ r. IsMade tree.items index undos.now stamp version
        changes.now (Edit r.0)) }
    ensures fragments { IfOk result (λ r. r.1.fragments.items
        ≡ with_edit undos.now tree.items r.0) }
    ensures stands { IfOk result (λ r. ArePlaced tree.items index undos.now
        (Edit r.0) r.1.fragments.items r.1.index) }
    ensures moves { IfOk result (λ r. MoveWithEdit tree.items index undos.now
        (Edit r.0) r.1.moves) }
    ensures characters { IfOk result (λ r. KeepCharactersWithEdit tree.items index
        undos.now (Edit r.0) r.1.fragments.items r.1.moves) }
    ensures cost { steps.new ≤ steps.old + 256 * (length changes.now
        + touch_count tree.items changes.now + 1) * (tree.height + 1) }
{
    let pieces = full_pieces(alloc, &tree, changes)?;
    let op = EditOp {
        stamp,
        version,
        pieces,
    };
    let placed = place_edit(alloc, tree, index, undos, &op, steps)?;
    Ok((op, placed))
}
