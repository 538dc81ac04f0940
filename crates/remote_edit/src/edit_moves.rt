//! The moves that an edit makes in the shown and the hidden text.
ghost use Rattle.std.specs.Prelude.{◌≡◌, ◌+◌, ◌<◌, ◌≤◌, ◌||◌, [], length, take, drop, IfOk, OnOk};
ghost use Rattle.std.specs.List.{AllByRecursion, list_all};
ghost use Rattle.lamport_clock.specs.Stamps.{same_stamp};
ghost use Rattle.op_model.specs.Shown.{texts};
ghost use Rattle.undo_map.specs.Counts.{count_of, is_odd};
ghost use Rattle.sum_tree.specs.Spliced.{splice_list};
ghost use Rattle.remote_edit.specs.Marks.{is_shown};
ghost use Rattle.remote_edit.specs.Carried.{CarryOn};
ghost use Rattle.remote_edit.specs.Places.{IsAfter};
ghost use Rattle.remote_edit.specs.BeforeEdit.{without, before_edit, IsByCounts, Brings, IsUntouched, each_move};

use crate::among::{Change, moves_among};
use crate::{Move, Moves, OutOfMemory, Passed};
use fragments::{Fragment, FragmentSummary};
use lamport_clock::{Lamport, is_same};
use op_model::EditOp;
use std::alloc::Global;
use sum_tree::SumTree;
use tree_cursor::Keep;
use undo_map::UndoMap;

// Keeps the runs of fragments that may have cells that an edit inserted or deletes, or that an undo shows or hides:
// those that have seen it.
#[derive(Clone, Copy)]
pub(crate) struct SeesEdit {
    pub(crate) edit: Lamport,
}

impl Keep<FragmentSummary> for SeesEdit {
    ghost use Rattle.remote_edit.specs.SeesLaws.{sees_parts};
    ghost use Rattle.remote_edit.specs.Concern.{sees_edit};

    ghost keeps = { λ k s. sees_edit k.edit s };

    ghost parts = { λ k a b f g h. sees_parts k.edit a b h };

    fn keep(&self, s: &FragmentSummary) -> bool {
        s.greatest.sees(self.edit)
    }
}

// Whether all edits of a list except one are undone.
fn all_others_are_undone(undos: &UndoMap, edits: &[Lamport], edit: Lamport) -> bool
    ensures { result ≡ list_all (λ t. same_stamp edit t || is_odd (count_of undos.now t))
        edits.now }
{
    edits
        .iter()
        .all(|t| is_same(edit, *t) || undos.is_undone(*t))
}

// Whether a fragment was shown before an edit that the fragments already have.
fn was_shown_before(fragment: &Fragment, undos: &UndoMap, edit: Lamport) -> bool
    ensures { result ≡ is_shown undos.now fragment.now.stamp (without edit fragment.now.deletions) }
{
    let others = all_others_are_undone(undos, fragment.deletions.as_slice(), edit);
    !undos.is_undone(fragment.stamp) && others
}

// An edit that the fragments already have.
#[derive(Drop)]
struct Editing<'u> {
    undos: &'u UndoMap,
    edit: Lamport,
}

impl<'u> Change for Editing<'u> {
    ghost use Rattle.remote_edit.specs.BeforeEdit.{edit_move};

    ghost does = { λ e f. edit_move e.undos.now e.edit f };

    fn move_of(&self, fragment: &Fragment) -> Move {
        if is_same(self.edit, fragment.stamp) {
            return Move::Insert(fragment.len);
        }
        Move::of(
            was_shown_before(fragment, self.undos, self.edit),
            fragment.visible,
            fragment.len,
        )
    }
}

// The moves that an edit made in the two texts, read from fragments that already have it. Passes whole runs of
// fragments that have not seen the edit.
pub(crate) fn edit_moves(
    alloc: Global,
    tree: &SumTree<Fragment>,
    undos: &UndoMap,
    edit: &EditOp,
) -> Result<Moves, OutOfMemory>
    requires shown { AllByRecursion (IsByCounts undos.now) tree.now.items }
    requires brought { Brings edit.now.stamp 0 (length (texts edit.now.pieces)) tree.now.items }
    ensures { IfOk result (λ ms. CarryOn edit.now.stamp [] []
        (before_edit undos.now edit.now.stamp tree.now.items) 0 ms tree.now.items []
        (length (texts edit.now.pieces))) }
{
    let edit = edit.stamp;
    moves_among(alloc, tree, &SeesEdit { edit }, &Editing { undos, edit })
}

// Appends the moves that an edit makes of the bytes of fragments that already have it, one by one.
fn push_moves(
    moves: &mut Moves,
    fragments: &[Fragment],
    undos: &UndoMap,
    edit: Lamport,
) -> Result<(), OutOfMemory>
    ensures { OnOk result (moves.new ≡ each_move undos.now edit moves.old fragments.now) }
{
    let editing = Editing { undos, edit };
    for fragment in fragments {
        moves.push(editing.move_of(fragment))?;
    }
    Ok(())
}

// How many shown and hidden cells the fragments have after the next one, if they have `left` with it.
fn left_after(tree: &SumTree<Fragment>, at: u64, left: Passed) -> Passed
    requires within { at < length tree.now.items }
    requires left { IsAfter left (drop at tree.now.items) }
    ensures { IsAfter result (drop (at + 1) tree.now.items) }
{
    match tree.get(at) {
        Some(fragment) => left.without(fragment),
        None => left,
    }
}

// How many shown and hidden cells the fragments from index `to` on have, if those before index `from` have `before`.
fn left_from(tree: &SumTree<Fragment>, before: Passed, from: u64, to: u64) -> Passed
    requires order { from ≤ to }
    requires within { to ≤ length tree.now.items }
    requires before { IsAfter before (take from tree.now.items) }
    ensures { IsAfter result (drop to tree.now.items) }
{
    let all = tree.summary();
    let mut left = Passed {
        visible: all.visible - before.visible,
        hidden: all.hidden - before.hidden,
    };
    for at in from..to {
        left = left_after(tree, at, left);
    }
    left
}

/// The moves that an edit makes in the two texts, where these fragments come in the place of those in `from..to`, and
/// no other one has seen the edit. The fragments before the range have `before` cells. Fails only if an allocation
/// fails.
pub(crate) fn range_moves(
    alloc: Global,
    tree: &SumTree<Fragment>,
    undos: &UndoMap,
    edit: &EditOp,
    before: Passed,
    from: u64,
    to: u64,
    made: &[Fragment],
) -> Result<Moves, OutOfMemory>
    requires order { from ≤ to }
    requires within { to ≤ length tree.now.items }
    requires before { IsAfter before (take from tree.now.items) }
    requires untouched { AllByRecursion (IsUntouched undos.now edit.now.stamp) tree.now.items }
    requires brought { Brings edit.now.stamp 0 (length (texts edit.now.pieces))
        (splice_list from to made.now tree.now.items) }
    ensures { IfOk result (λ ms. CarryOn edit.now.stamp [] []
        (before_edit undos.now edit.now.stamp (splice_list from to made.now tree.now.items)) 0
        ms (splice_list from to made.now tree.now.items) []
        (length (texts edit.now.pieces))) }
{
    let mut moves = Moves::new(alloc);
    moves.keep(before.visible, before.hidden)?;
    push_moves(&mut moves, made, undos, edit.stamp)?;
    let after = left_from(tree, before, from, to);
    moves.keep(after.visible, after.hidden)?;
    Ok(moves)
}
