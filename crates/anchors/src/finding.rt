//! Where anchors are, and their order.
ghost use Rattle.std.specs.Prelude.{◌≡◌, Some, IfOk, IfErr, if◌then◌else◌};
ghost use Rattle.std.specs.Result.{result_ok};
ghost use Rattle.op_model.specs.Histories.{History};
ghost use Rattle.op_model.specs.Anchors.{is_known, known_place, known_order};
ghost use Rattle.std.specs.Ordering.{nat_cmp, ordering_then};
ghost use Rattle.anchors.specs.Standing.{StandFor, side, standing_of};

use crate::standing::{Standing, side, standing_of};
use fragments::{Fragment, InsertionIndex};
use op_model::Anchor;
use rope_chunks::Rope;
use std::cmp::Ordering;
use sum_tree::SumTree;
use thiserror::Error;

/// An anchor that is not known: its edit is not there, or has no such byte, or no character begins or ends there.
#[derive(Clone, Copy, Debug, PartialEq, Eq, Error)]
#[error("the anchor is not known")]
pub struct UnknownAnchor {
    pub anchor: Anchor,
}

// Where an anchor stands; [`UnknownAnchor`] where it is not known.
fn known_standing(
    tree: &SumTree<Fragment>,
    index: &InsertionIndex,
    visible: &Rope,
    hidden: &Rope,
    anchor: Anchor,
) -> Result<Standing, UnknownAnchor>
    ensures standing { (h : History) → StandFor tree.now.items index.now visible.now hidden.now h
        → result_ok result ≡ standing_of h anchor }
    ensures known { IfOk result (λ s. (h : History)
        → StandFor tree.now.items index.now visible.now hidden.now h
        → Some s ≡ standing_of h anchor) }
    ensures unknown { IfErr result (λ e. e.anchor ≡ anchor) }
{
    match standing_of(tree, index, visible, hidden, anchor) {
        Some(standing) => Ok(standing),
        None => Err(UnknownAnchor { anchor }),
    }
}

/// The place of an anchor, a byte offset of the text; [`UnknownAnchor`] where it is not known.
///
/// The fragments and the index stand for a lawful history, and the ropes are its shown and its hidden text. It is a few
/// descents, in the index, in the tree and in one rope, and takes no memory.
pub fn resolve(
    tree: &SumTree<Fragment>,
    index: &InsertionIndex,
    visible: &Rope,
    hidden: &Rope,
    a: &Anchor,
) -> Result<u64, UnknownAnchor>
    ensures place { (h : History) → StandFor tree.now.items index.now visible.now hidden.now h
        → result_ok result ≡ known_place h a.now }
    ensures unknown { IfErr result (λ e. e.anchor ≡ a.now) }
{
    let standing = known_standing(tree, index, visible, hidden, *a)?;
    Ok(standing.place)
}

/// The order of two anchors, by their gaps among all bytes, hidden ones too, Left before Right in one gap; [`UnknownAnchor`]
/// with the first that is not known.
///
/// The condition and the cost are those of [`resolve`] for both.
pub fn compare(
    tree: &SumTree<Fragment>,
    index: &InsertionIndex,
    visible: &Rope,
    hidden: &Rope,
    a: &Anchor,
    b: &Anchor,
) -> Result<Ordering, UnknownAnchor>
    ensures order { (h : History) → StandFor tree.now.items index.now visible.now hidden.now h
        → result_ok result ≡ known_order h a.now b.now }
    ensures unknown { (h : History) → StandFor tree.now.items index.now visible.now hidden.now h
        → IfErr result (λ e. e.anchor ≡ (if is_known h a.now then b.now else a.now)) }
{
    let first = known_standing(tree, index, visible, hidden, *a)?;
    let second = known_standing(tree, index, visible, hidden, *b)?;
    Ok(order(first, second))
}

// The order of two anchors by where they stand.
fn order(a: Standing, b: Standing) -> Ordering
    ensures { result ≡ ordering_then (nat_cmp a.gap b.gap) (nat_cmp (side a.bias) (side b.bias)) }
{
    a.gap.cmp(&b.gap).then(side(a.bias).cmp(&side(b.bias)))
}
