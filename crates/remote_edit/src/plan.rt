//! Edits placed but for the change of the fragments.
ghost use Rattle.std.specs.Prelude.{◌≡◌, ℕ, ◌+◌, ◌*◌, ◌<◌, ◌≤◌, ◌^◌, ◌∷◌, [], true, length, IfOk, IfSome};
ghost use Rattle.op_model.specs.Walked.{Ordered};
ghost use Rattle.op_model.specs.declared.operation.Operation.TheVariants.{Edit};
ghost use Rattle.remote_edit.specs.Changes.{ChangeFew, IsPlacement};
ghost use Rattle.remote_edit.specs.Costs.{touch_count, touch_count_behind};
ghost use Rattle.remote_edit.specs.Placing.{MayPlace, MayMake, IsMade};
ghost use Rattle.remote_edit.specs.Starts.{AllSeen};
ghost use Rattle.remote_edit.specs.Walk.{changes};

use crate::edit_moves::range_moves;
use crate::offsets::full_pieces;
use crate::place::place_edit;
use crate::walk::{changes, gather_one, with_rest};
use crate::{Moves, OutOfMemory, TreeChange};
use fragments::{Fragment, InsertionIndex};
use lamport_clock::{Lamport, Version};
use op_model::{EditOp, Piece};
use std::alloc::Global;
use std::marker::Brand;
use std::sync::ledger::{Blank, Ledger};
use sum_tree::{Steps, SumTree};
use undo_map::UndoMap;

/// What an edit makes, as `Placed`, with the change of the fragments still to be made.
#[derive(Drop)]
pub struct Placement {
    pub change: TreeChange,
    pub index: InsertionIndex,
    pub moves: Moves,
}

// The piece of an edit, if it has one alone, and that has a range or a text.
fn only_piece(edit: &EditOp) -> Option<&Piece>
    ensures { IfSome result (λ p. (edit.now.pieces ≡ p.now ∷ []) × (changes p.now ≡ true)) }
{
    if let [piece] = edit.pieces.as_slice()
        && changes(piece)
    {
        return Some(piece);
    }
    None
}

// Plans an edit of one piece.
fn plan_piece(
    alloc: Global,
    tree: &SumTree<Fragment>,
    index: InsertionIndex,
    undos: &UndoMap,
    edit: &EditOp,
    piece: &Piece,
) -> Result<Placement, OutOfMemory>
    requires may { MayPlace tree.now.items index undos.now (Edit edit.now) }
    requires one { edit.now.pieces ≡ piece.now ∷ [] }
    requires changes { changes piece.now ≡ true }
    ensures placement { IfOk result
        (λ p. IsPlacement tree.now.items index undos.now edit.now p) }
    ensures cost { AllSeen edit.now.version tree.now.items → Ordered 0 (2 ^ 40) edit.now.pieces
        → IfOk result (λ p. (old new : ℕ) → ChangeFew p.change old new → new ≤ old + 256
        * (length edit.now.pieces + touch_count_behind 0 edit.now.pieces tree.now.items)) }
{
    let (before, gather) = gather_one(alloc, tree, index, undos, edit, piece)?;
    let from = gather.from;
    let to = gather.at.min(tree.len());
    let made = with_rest(gather.made, gather.back)?;
    let moves = range_moves(alloc, tree, undos, edit, before, from, to, &made)?;
    Ok(Placement {
        change: TreeChange::Range(from, to, made),
        index: gather.index,
        moves,
    })
}

// Plans an edit, and counts a step for each node of the tree that is made. Whatever the change then takes, there are at
// most 256 for each piece and each fragment that the ranges touch, if the edit has seen all fragments.
fn plan_edit<L: Ledger>(
    alloc: Global,
    tree: &SumTree<Fragment>,
    index: InsertionIndex,
    undos: &UndoMap,
    edit: &EditOp,
    steps: &mut Steps<L>,
) -> Result<Placement, OutOfMemory>
    requires { MayPlace tree.now.items index undos.now (Edit edit.now) }
    ensures placement { IfOk result
        (λ p. IsPlacement tree.now.items index undos.now edit.now p) }
    ensures cost { AllSeen edit.now.version tree.now.items → Ordered 0 (2 ^ 40) edit.now.pieces
        → steps.new ≤ steps.old + 256 * (length edit.now.pieces
        + touch_count_behind 0 edit.now.pieces tree.now.items) }
    ensures change { AllSeen edit.now.version tree.now.items → Ordered 0 (2 ^ 40) edit.now.pieces
        → IfOk result (λ p. (n : ℕ) → ChangeFew p.change steps.new n → n ≤ steps.old + 256
        * (length edit.now.pieces + touch_count_behind 0 edit.now.pieces tree.now.items)) }
{
    match only_piece(edit) {
        Some(piece) => plan_piece(alloc, tree, index, undos, edit, piece),
        None => plan_pieces(alloc, tree, index, undos, edit, steps),
    }
}

// The same for any edit: all changes are made of a tree that shares with this one what they leave as it is.
fn plan_pieces<L: Ledger>(
    alloc: Global,
    tree: &SumTree<Fragment>,
    index: InsertionIndex,
    undos: &UndoMap,
    edit: &EditOp,
    steps: &mut Steps<L>,
) -> Result<Placement, OutOfMemory>
    requires { MayPlace tree.now.items index undos.now (Edit edit.now) }
    ensures placement { IfOk result
        (λ p. IsPlacement tree.now.items index undos.now edit.now p) }
    ensures cost { AllSeen edit.now.version tree.now.items → Ordered 0 (2 ^ 40) edit.now.pieces
        → steps.new ≤ steps.old + 256 * (length edit.now.pieces
        + touch_count_behind 0 edit.now.pieces tree.now.items) }
    ensures change { IfOk result (λ p. (n : ℕ) → ChangeFew p.change steps.new n → n ≤ steps.new) }
{
    let placed = place_edit(alloc, tree.share()?, index, undos, edit, steps)?;
    Ok(Placement {
        change: TreeChange::Whole(placed.fragments),
        index: placed.index,
        moves: placed.moves,
    })
}

/// Plans an edit: does what `place_remote` does, under the same conditions, and leaves the change of the fragments to
/// be made. An edit of one piece makes no node of their tree.
///
/// # Errors
///
/// Fails only if an allocation fails.
pub fn plan_remote(
    alloc: Global,
    tree: &SumTree<Fragment>,
    index: &InsertionIndex,
    undos: &UndoMap,
    op: &EditOp,
) -> Result<Placement, OutOfMemory>
    requires { MayPlace tree.now.items index.now undos.now (Edit op.now) }
    ensures { IfOk result (λ p. IsPlacement tree.now.items index.now undos.now op.now p) }
{
    plan_with::<Brand>(alloc, tree, index.share()?, undos, op, Blank::new(1))
}

// The same, with a counter made from the blank.
fn plan_with<L: Ledger>(
    alloc: Global,
    tree: &SumTree<Fragment>,
    index: InsertionIndex,
    undos: &UndoMap,
    op: &EditOp,
    blank: Blank,
) -> Result<Placement, OutOfMemory>
    requires name { blank.name ≡ L.name }
    requires parts { blank.parts ≡ L.parts }
    requires some { 0 < blank.parts }
    requires may { MayPlace tree.now.items index undos.now (Edit op.now) }
    ensures { IfOk result (λ p. IsPlacement tree.now.items index undos.now op.now p) }
{
    let mut steps = Steps::<L>::new(blank);
    plan_edit(alloc, tree, index, undos, op, &mut steps)
}

/// Makes the edit of a replica and plans it: does what `place_local` does, under the same conditions, and leaves the
/// change of the fragments to be made. Whatever steps that change counts, all together are no more than those of
/// `place_local` may be.
///
/// # Errors
///
/// Fails only if an allocation fails.
pub fn plan_local<L: Ledger>(
    alloc: Global,
    tree: &SumTree<Fragment>,
    index: &InsertionIndex,
    undos: &UndoMap,
    stamp: Lamport,
    version: Version,
    changes: &[Piece],
    steps: &mut Steps<L>,
) -> Result<(EditOp, Placement), OutOfMemory>
    requires { MayMake tree.now.items index.now undos.now stamp version changes.now }
    ensures made { IfOk result (λ r. IsMade tree.now.items index.now undos.now stamp version
        changes.now (Edit r.0)) }
    ensures placement { IfOk result
        (λ r. IsPlacement tree.now.items index.now undos.now r.0 r.1) }
    ensures cost { steps.new ≤ steps.old + 256 * (length changes.now
        + touch_count tree.now.items changes.now + 1) * (tree.now.height + 1) }
    ensures change { IfOk result (λ r. (n : ℕ) → ChangeFew r.1.change steps.new n
        → n ≤ steps.old + 256 * (length changes.now
        + touch_count tree.now.items changes.now + 1) * (tree.now.height + 1)) }
{
    let pieces = full_pieces(alloc, tree, changes)?;
    let op = EditOp {
        stamp,
        version,
        pieces,
    };
    let placement = plan_edit(alloc, tree, index.share()?, undos, &op, steps)?;
    Ok((op, placement))
}
