//! Anchors made at offsets of a text.
ghost use Rattle.std.specs.Prelude.{◌≡◌, ◌<◌, ◌≤◌, ◌+◌, ◌^◌, Some, None, List, length, IfOk, IfSome, slice_get};
ghost use Rattle.std.specs.List.{AllByRecursion};
ghost use Rattle.std.specs.Option.{option_map};
ghost use Rattle.std.specs.Result.{result_err};
ghost use Rattle.op_model.specs.Domains.{IsProper};
ghost use Rattle.op_model.specs.Histories.{History};
ghost use Rattle.op_model.specs.Lawful.{Lawful};
ghost use Rattle.op_model.specs.Shown.{text};
ghost use Rattle.op_model.specs.Anchors.{place_fault, shown_cells, left_anchor, right_anchor, known_place};
ghost use Rattle.undo_map.specs.declared.entry.UndoEntry.{UndoEntry};
ghost use Rattle.fragments.specs.DeletedRuns.{IndexState};
ghost use Rattle.fragments.specs.Stand.{Stand};
ghost use Rattle.anchors.specs.Making.{cell_of, NextFits, made_anchor};
ghost use Rattle.anchors.specs.Standing.{StandFor};

use fragments::{Fragment, InsertionIndex, Visible};
use lamport_clock::Lamport;
use op_model::{Anchor, Bias, PlaceFault};
use rope_chunks::Rope;
use sum_tree::SumTree;
use tree_cursor::look_up;

/// A byte, by its edit and its number among all bytes of that edit.
#[derive(Clone, Copy)]
pub struct Byte {
    pub stamp: Lamport,
    pub k: u64,
}

// A shown byte, where the text is not at its end before it: one descent.
fn shown_byte(tree: &SumTree<Fragment>, o: u64) -> Option<Byte>
    ensures byte { (w : IndexState) → (u : List UndoEntry) → (h : History)
        → Stand tree.now.items w u h → Lawful h
        → option_map cell_of result ≡ slice_get (shown_cells h) o }
    ensures room { (w : IndexState) → (u : List UndoEntry) → (h : History)
        → Stand tree.now.items w u h → IfSome result NextFits }
{
    tree.known();
    let start = Visible { bytes: 0 };
    let target = Visible { bytes: o };
    let (found, before) = look_up(tree, start, &target, tree_cursor::Bias::Right);
    let Some(fragment) = found else {
        return None;
    };
    // No number of a byte passes u64.
    let k = fragment.offset.saturating_add(o - before.bytes);
    Some(Byte {
        stamp: fragment.stamp,
        k,
    })
}

// The anchor behind the byte before an offset.
fn left_anchor(tree: &SumTree<Fragment>, o: u64) -> Anchor
    ensures { (w : IndexState) → (u : List UndoEntry) → (h : History)
        → Stand tree.now.items w u h → Lawful h → o ≤ length (text h)
        → left_anchor h o ≡ Some result }
{
    if o == 0 {
        return Anchor::Least;
    }
    match shown_byte(tree, o - 1) {
        None => Anchor::Least,
        Some(byte) => Anchor::At {
            stamp: byte.stamp,
            offset: byte.k.saturating_add(1),
            bias: Bias::Left,
        },
    }
}

// The anchor before the byte at an offset.
fn right_anchor(tree: &SumTree<Fragment>, o: u64) -> Anchor
    ensures { (w : IndexState) → (u : List UndoEntry) → (h : History)
        → Stand tree.now.items w u h → Lawful h → o ≤ length (text h)
        → right_anchor h o ≡ Some result }
{
    match shown_byte(tree, o) {
        None => Anchor::Greatest,
        Some(byte) => Anchor::At {
            stamp: byte.stamp,
            offset: byte.k,
            bias: Bias::Right,
        },
    }
}

// Why no anchor is made at an offset.
fn place_fault(visible: &Rope, o: u64) -> Option<PlaceFault>
    ensures { (h : History) → visible.now ≡ text h → result ≡ place_fault h o }
{
    if visible.len() < o {
        return Some(PlaceFault::PastEnd(visible.len()));
    }
    if !visible.is_char_boundary(o) {
        return Some(PlaceFault::InsideChar);
    }
    None
}

/// The anchor at a byte offset of the text. Left keeps to the byte before it, Right to the byte behind it; at the start of
/// the text Left is [`Anchor::Least`], at its end Right is [`Anchor::Greatest`]. [`PlaceFault`] where the offset passes the
/// text or is inside a character.
///
/// The fragments and the index stand for a lawful history, and the ropes are its shown and its hidden text. It is one
/// descent in the rope and one in the tree, and takes no memory.
pub fn anchor_at(
    tree: &SumTree<Fragment>,
    index: &InsertionIndex,
    visible: &Rope,
    hidden: &Rope,
    o: u64,
    b: Bias,
) -> Result<Anchor, PlaceFault>
    ensures fault { (h : History) → StandFor tree.now.items index.now visible.now hidden.now h
        → result_err result ≡ place_fault h o }
    ensures anchor { IfOk result (λ a. (h : History)
        → StandFor tree.now.items index.now visible.now hidden.now h → made_anchor h o b ≡ Some a) }
    ensures place { IfOk result (λ a. (h : History)
        → StandFor tree.now.items index.now visible.now hidden.now h → AllByRecursion IsProper h
        → known_place h a ≡ Some o) }
{
    if let Some(fault) = place_fault(visible, o) {
        return Err(fault);
    }
    match b {
        Bias::Left => Ok(left_anchor(tree, o)),
        Bias::Right => Ok(right_anchor(tree, o)),
    }
}
