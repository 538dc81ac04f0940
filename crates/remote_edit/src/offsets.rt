//! From offsets among the shown cells to offsets among all cells.
ghost use Rattle.std.specs.Prelude.{◌≡◌, ◌++◌, ◌≤◌, ◌^◌, map, IfOk};
ghost use Rattle.std.specs.List.{AllByRecursion};
ghost use Rattle.op_model.specs.Histories.{History};
ghost use Rattle.op_model.specs.Made.{full_piece};
ghost use Rattle.fragments.specs.Laws.{shown_len, cells_len};
ghost use Rattle.fragments.specs.Stand.{Tell};
ghost use Rattle.remote_edit.specs.Offsets.{full_in, piece_in, IsInText};

use crate::{OutOfMemory, Passed};
use fragments::{Fragment, Visible};
use op_model::{Piece, Pieces};
use std::alloc::Global;
use sum_tree::SumTree;
use tree_cursor::{Bias, look_up};

// The number of all cells before shown cell `offset`, or of all cells if the text ends there. One plain descent; does
// not allocate.
fn full_offset(tree: &SumTree<Fragment>, offset: u64) -> u64
    requires room { cells_len tree.now.items ≤ 2 ^ 40 }
    requires within { offset ≤ shown_len tree.now.items }
    ensures { result ≡ full_in tree.now.items offset }
{
    let start = Passed {
        visible: 0,
        hidden: 0,
    };
    let (_, before) = look_up(tree, start, &Visible { bytes: offset }, Bias::Right);
    offset + before.hidden
}

// A change whose range counts shown cells, with the same range counting all cells.
fn full_piece(alloc: Global, tree: &SumTree<Fragment>, change: &Piece) -> Result<Piece, OutOfMemory>
    requires room { cells_len tree.now.items ≤ 2 ^ 40 }
    requires range { IsInText tree.now.items change.now }
    ensures { IfOk result (λ p. p ≡ piece_in tree.now.items change.now) }
{
    let start = full_offset(tree, change.start);
    let end = if change.start == change.end {
        start
    } else {
        full_offset(tree, change.end - 1) + 1
    };
    let text = change.text.copy(alloc)?;
    Ok(Piece { start, end, text })
}

/// The changes of a text, whose ranges count bytes of the text, as pieces, whose ranges count all bytes of the history.
/// Two descents for each change; the texts are copied.
///
/// # Errors
///
/// Fails only if an allocation fails.
pub fn full_pieces(
    alloc: Global,
    tree: &SumTree<Fragment>,
    changes: &[Piece],
) -> Result<Pieces, OutOfMemory>
    requires room { cells_len tree.now.items ≤ 2 ^ 40 }
    requires ranges { AllByRecursion (IsInText tree.now.items) changes.now }
    ensures { IfOk result (λ ps. (h : History) → Tell tree.now.items h
        → ps ≡ map (full_piece h) changes.now) }
{
    let mut pieces = Vec::with_capacity(alloc, changes.len())?;
    for change in changes {
        pieces.push(full_piece(alloc, tree, change)?)?;
    }
    Ok(Pieces::new(pieces))
}
