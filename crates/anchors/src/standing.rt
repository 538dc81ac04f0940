//! Where a known anchor stands.
ghost use Rattle.std.specs.Prelude.{◌≡◌, ◌+◌, length, if◌then◌else◌};
ghost use Rattle.op_model.specs.Histories.{History};
ghost use Rattle.op_model.specs.declared.anchor.Anchor.TheVariants.{At};
ghost use Rattle.op_model.specs.declared.anchor.Bias.TheVariants.{Left, Right};
ghost use Rattle.anchors.specs.Spots.{IsCounted};
ghost use Rattle.anchors.specs.Standing.{StandFor, side, standing_of};

use crate::spot::{Spot, is_between, run_of, spot_in};
use fragments::{Fragment, InsertionIndex};
use lamport_clock::Lamport;
use op_model::{Anchor, Bias};
use rope_chunks::Rope;
use sum_tree::SumTree;

/// Where an anchor stands: how many shown cells are before it, how many of all, and on which side of that gap it keeps.
#[derive(Clone, Copy)]
pub struct Standing {
    pub place: u64,
    pub gap: u64,
    pub bias: Bias,
}

/// 0 for Left and 1 for Right, as Left comes first.
pub fn side(bias: Bias) -> u8
    ensures { result ≡ side bias }
{
    match bias {
        Bias::Left => 0,
        Bias::Right => 1,
    }
}

// Before the cell of a spot.
fn before_cell(spot: Spot) -> Standing
    ensures { result ≡ record { place = spot.shown; gap = spot.cells; bias = Right } }
{
    Standing {
        place: spot.shown,
        gap: spot.cells,
        bias: Bias::Right,
    }
}

// Behind the cell of a spot.
fn behind_cell(spot: Spot) -> Standing
    requires { IsCounted spot }
    ensures { result ≡ record {
      place = spot.shown + (if spot.is_shown then 1 else 0);
      gap = spot.cells + 1;
      bias = Left;
    } }
{
    Standing {
        place: if spot.is_shown {
            spot.shown + 1
        } else {
            spot.shown
        },
        gap: spot.cells + 1,
        bias: Bias::Left,
    }
}

// Where a Right anchor stands, where it is known.
fn right_standing(
    tree: &SumTree<Fragment>,
    index: &InsertionIndex,
    visible: &Rope,
    hidden: &Rope,
    stamp: Lamport,
    k: u64,
) -> Option<Standing>
    ensures { (h : History) → StandFor tree.now.items index.now visible.now hidden.now h
        → result ≡ standing_of h (At stamp k Right) }
{
    let Some(run) = run_of(tree, index, stamp, k) else {
        return None;
    };
    let Some(spot) = spot_in(run, stamp, k) else {
        return None;
    };
    if is_between(visible, hidden, run, stamp, k) {
        return Some(before_cell(spot));
    }
    None
}

// Where a Left anchor stands, where it is known.
fn left_standing(
    tree: &SumTree<Fragment>,
    index: &InsertionIndex,
    visible: &Rope,
    hidden: &Rope,
    stamp: Lamport,
    k: u64,
) -> Option<Standing>
    ensures { (h : History) → StandFor tree.now.items index.now visible.now hidden.now h
        → result ≡ standing_of h (At stamp k Left) }
{
    if k == 0 {
        return None;
    }
    let Some(run) = run_of(tree, index, stamp, k - 1) else {
        return None;
    };
    let Some(spot) = spot_in(run, stamp, k - 1) else {
        return None;
    };
    if is_between(visible, hidden, run, stamp, k) {
        return Some(behind_cell(spot));
    }
    None
}

// The end of the text.
fn end(visible: &Rope, hidden: &Rope) -> Standing
    ensures { result ≡ record {
      place = length visible.now;
      gap = length visible.now + length hidden.now;
      bias = Right;
    } }
{
    visible.known();
    hidden.known();
    Standing {
        place: visible.len(),
        gap: visible.len() + hidden.len(),
        bias: Bias::Right,
    }
}

/// Where an anchor stands, where it is known.
pub fn standing_of(
    tree: &SumTree<Fragment>,
    index: &InsertionIndex,
    visible: &Rope,
    hidden: &Rope,
    anchor: Anchor,
) -> Option<Standing>
    ensures { (h : History) → StandFor tree.now.items index.now visible.now hidden.now h
        → result ≡ standing_of h anchor }
{
    match anchor {
        Anchor::Least => Some(Standing {
            place: 0,
            gap: 0,
            bias: Bias::Left,
        }),
        Anchor::Greatest => Some(end(visible, hidden)),
        Anchor::At {
            stamp,
            offset,
            bias: Bias::Left,
        } => left_standing(tree, index, visible, hidden, stamp, offset),
        Anchor::At {
            stamp,
            offset,
            bias: Bias::Right,
        } => right_standing(tree, index, visible, hidden, stamp, offset),
    }
}
