//! The moves that an undo makes in the shown and the hidden text.
ghost use Rattle.std.specs.Prelude.{◌≡◌, ◌+◌, ◌≤◌, IfOk};
ghost use Rattle.remote_edit.specs.Among.{moves_among};
ghost use Rattle.remote_edit.specs.UndoMoves.{was_visible, undo_move};
ghost use Rattle.remote_edit.specs.Concern.{sees_edit};
ghost use Rattle.remote_edit.specs.Looks.{seen_count};

use crate::among::{Change, moves_counted};
use crate::by_index::fragment_from;
use crate::edit_moves::SeesEdit;
use crate::{Move, Moves, OutOfMemory};
use fragments::Fragment;
use lamport_clock::Lamport;
use std::alloc::Global;
use std::sync::ledger::Ledger;
use sum_tree::{Steps, SumTree};

// Whether a fragment was shown before an undo, among the fragments `tree`.
fn was_visible(tree: &SumTree<Fragment>, fragment: &Fragment) -> bool
    ensures { result ≡ was_visible tree.now.items fragment.now }
{
    match fragment_from(tree, &fragment.id).0 {
        None => fragment.visible,
        Some(before) => before.visible,
    }
}

// An undo that changed these fragments.
#[derive(Drop)]
struct Undoing<'u> {
    tree: &'u SumTree<Fragment>,
}

impl<'u> Change for Undoing<'u> {
    ghost use Rattle.remote_edit.specs.UndoMoves.{undo_move};

    ghost does = { λ u f. undo_move u.tree.now.items f };

    fn move_of(&self, fragment: &Fragment) -> Move {
        Move::of(
            was_visible(self.tree, fragment),
            fragment.visible,
            fragment.len,
        )
    }
}

// The moves that the undo `by` made in the two texts, read from the fragments before it and after it. Passes whole runs of
// fragments that have not seen the undo, and counts a step for each one that has.
pub(crate) fn undo_moves<L: Ledger>(
    alloc: Global,
    before: &SumTree<Fragment>,
    after: &SumTree<Fragment>,
    by: Lamport,
    steps: &mut Steps<L>,
) -> Result<Moves, OutOfMemory>
    ensures moves { IfOk result (λ ms. ms
        ≡ moves_among (sees_edit by) (undo_move before.now.items) after.now.items) }
    ensures cost { steps.new ≤ steps.old + seen_count by after.now.items }
{
    moves_counted(
        alloc,
        after,
        &SeesEdit { edit: by },
        &Undoing { tree: before },
        steps,
    )
}
