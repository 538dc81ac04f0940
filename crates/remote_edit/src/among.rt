//! The moves of a walk over fragments, which passes whole runs of fragments that do not change.
ghost use Rattle.std.specs.Prelude.{◌≡◌, ◌+◌, ◌-◌, ◌<◌, ◌≤◌, IfOk, OnOk};
ghost use Rattle.fragments.specs.declared.fragment.Fragment.{Fragment};
ghost use Rattle.remote_edit.specs.declared.moves.Move.{Move};
ghost use Rattle.remote_edit.specs.declared.moves.Move.TheVariants.{Visible, Hidden};
ghost use Rattle.remote_edit.specs.Moves.{with_move};
ghost use Rattle.remote_edit.specs.Among.{moves_among, kept_count};

use crate::passed::Passed;
use crate::{Move, Moves, OutOfMemory};
use fragments::{Fragment, FragmentSummary};
use std::alloc::Global;
use std::marker::Brand;
use std::sync::ledger::{Blank, Ledger};
use sum_tree::{Steps, SumTree};
use tree_cursor::{FilterCursor, Keep};

/// A change of fragments: what becomes of the bytes of each.
pub trait Change {
    ghost does: { Self → Fragment → Move };

    /// What becomes of the bytes of a fragment. Does not allocate.
    fn move_of(&self, fragment: &Fragment) -> Move
        ensures { result ≡ does self.now fragment.now };
}

// A filter that is borrowed by the walk.
#[derive(Drop)]
struct Lent<'k, K> {
    keep: &'k K,
}

impl<'k, K: Keep<FragmentSummary>> Keep<FragmentSummary> for Lent<'k, K> {
    ghost keeps = { λ l s. K.keeps l.keep.now s };

    ghost parts = { λ l a b p q h. K.parts l.keep.now a b p q h };

    fn keep(&self, s: &FragmentSummary) -> bool {
        self.keep.keep(s)
    }
}

// Keeps the bytes between two places as they are.
fn keep(moves: &mut Moves, from: Passed, to: Passed) -> Result<(), OutOfMemory>
    requires visible { from.visible ≤ to.visible }
    requires hidden { from.hidden ≤ to.hidden }
    ensures { OnOk result (moves.new
        ≡ with_move (with_move moves.old (Visible (to.visible - from.visible)))
        (Hidden (to.hidden - from.hidden))) }
{
    moves.keep(to.visible - from.visible, to.hidden - from.hidden)
}

/// The moves that a change makes in the shown and the hidden text: the bytes of the fragments that the filter keeps are
/// moved as the change says, and those of the others stay.
///
/// Passes whole runs of fragments that the filter does not keep, so this is O(k h), where k is the number of fragments
/// that it keeps and h the height of the tree; there are at most three moves for each of the k.
///
/// # Errors
///
/// Fails only if an allocation fails.
pub fn moves_among<K: Keep<FragmentSummary>, C: Change>(
    alloc: Global,
    tree: &SumTree<Fragment>,
    may_change: &K,
    change: &C,
) -> Result<Moves, OutOfMemory>
    ensures { IfOk result (λ ms. ms
        ≡ moves_among (K.keeps may_change.now) (C.does change.now) tree.now.items) }
{
    moves_with::<K, C, Brand>(alloc, tree, may_change, change, Blank::new(1))
}

// The same, with a counter made from the blank.
fn moves_with<K: Keep<FragmentSummary>, C: Change, L: Ledger>(
    alloc: Global,
    tree: &SumTree<Fragment>,
    may_change: &K,
    change: &C,
    blank: Blank,
) -> Result<Moves, OutOfMemory>
    requires name { blank.name ≡ L.name }
    requires parts { blank.parts ≡ L.parts }
    requires some { 0 < blank.parts }
    ensures { IfOk result (λ ms. ms
        ≡ moves_among (K.keeps may_change.now) (C.does change.now) tree.now.items) }
{
    let mut steps = Steps::<L>::new(blank);
    moves_counted(alloc, tree, may_change, change, &mut steps)
}

// Does what `moves_among` does, and counts a step for each fragment that the filter keeps.
pub(crate) fn moves_counted<K: Keep<FragmentSummary>, C: Change, L: Ledger>(
    alloc: Global,
    tree: &SumTree<Fragment>,
    may_change: &K,
    change: &C,
    steps: &mut Steps<L>,
) -> Result<Moves, OutOfMemory>
    ensures moves { IfOk result (λ ms. ms
        ≡ moves_among (K.keeps may_change.now) (C.does change.now) tree.now.items) }
    ensures cost { steps.new ≤ steps.old + kept_count (K.keeps may_change.now) tree.now.items }
{
    tree.known();
    let mut moves = Moves::new(alloc);
    let mut at = Passed {
        visible: 0,
        hidden: 0,
    };
    let mut found = FilterCursor::new(tree, at, Lent { keep: may_change })?;
    while let Some(fragment) = found.next()? {
        steps.tick();
        let from = found.start();
        keep(&mut moves, at, from)?;
        moves.push(change.move_of(fragment))?;
        at = found.end();
    }
    let end = found.start();
    keep(&mut moves, at, end)?;
    Ok(moves)
}
