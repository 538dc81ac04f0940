//! What takes the texts back to those that a version saw.
ghost use Rattle.std.specs.Prelude.{IfOk};
ghost use Rattle.edits_since.specs.Back.{AreMovesBack, TakeCharacters};

use crate::OutOfMemory;
use crate::differ::{MayDiffer, was_in_text};
use fragments::Fragment;
use lamport_clock::Version;
use remote_edit::{Change, Move, Moves, moves_among};
use std::alloc::Global;
use sum_tree::SumTree;
use undo_map::UndoMap;

// The way back to the texts that a version saw.
#[derive(Drop)]
struct WayBack<'u> {
    undos: &'u UndoMap,
    version: &'u Version,
}

impl<'u> Change for WayBack<'u> {
    ghost use Rattle.edits_since.specs.Back.{move_back};

    ghost does = { λ b f. move_back b.undos.now b.version.now f };

    fn move_of(&self, fragment: &Fragment) -> Move {
        let was = was_in_text(fragment, self.undos, self.version);
        Move::of(fragment.visible, was, fragment.len)
    }
}

/// What takes the text now and the hidden text back to those that a version saw, where the fragments and the undo counts stand
/// for a history in which the version is closed. Where the fragments begin and end between characters, each move takes whole
/// characters.
///
/// Runs of fragments of which the version has seen all are passed over whole, as by [`since`](crate::since), and their bytes
/// stay. So there are at most three moves for each fragment that came, was deleted or was counted by an undo since, and the
/// cost is that of `since`. It fails only if an allocation fails.
pub fn moves_back(
    alloc: Global,
    tree: &SumTree<Fragment>,
    undos: &UndoMap,
    version: &Version,
) -> Result<Moves, OutOfMemory>
    ensures text { IfOk result (λ ms. AreMovesBack tree.now.items undos.now version.now ms) }
    ensures characters { IfOk result (λ ms. TakeCharacters tree.now.items undos.now version.now
        ms) }
{
    let back = WayBack { undos, version };
    moves_among(alloc, tree, &MayDiffer { version }, &back)
}
