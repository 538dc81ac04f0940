//! Ranges of a rope's text: their faults, and the text with each of them replaced.
ghost use Rattle.std.specs.Prelude.{◌≡◌, ◌+◌, ◌^◌, ◌≤◌, None, length, IfOk};
ghost use Rattle.std.specs.List.{position};
ghost use Rattle.op_model.specs.Operations.{text_total};
ghost use Rattle.op_model.specs.Edits.{is_boundary, is_inside, piece_fault, replace_ranges};

use crate::OutOfMemory;
use op_model::{EditFault, Piece, first_overlap, first_past, first_reversed};
use rope_chunks::Rope;
use std::alloc::Global;

fn is_boundary(rope: &Rope, i: u64) -> bool
    ensures { result ≡ is_boundary rope.now i }
{
    rope.is_char_boundary(i)
}

fn inside_char(rope: &Rope, changes: &[Piece]) -> Option<usize>
    ensures { result ≡ position (is_inside rope.now) changes.now }
{
    changes.iter().position(|change| !(is_boundary(rope, change.start)
        && is_boundary(rope, change.end)))
}

/// The first fault of changes against the rope's text. Each end is one descent in the rope; no memory is taken.
pub fn piece_fault(rope: &Rope, changes: &[Piece]) -> Option<EditFault>
    ensures { result ≡ piece_fault rope.now changes.now }
{
    if let Some(i) = first_reversed(changes) {
        return Some(EditFault::Reversed(i as u64));
    }
    if let Some(i) = first_overlap(changes) {
        return Some(EditFault::Overlap(i as u64));
    }
    if let Some(i) = first_past(rope.len(), changes) {
        return Some(EditFault::PastEnd(i as u64, rope.len()));
    }
    if let Some(i) = inside_char(rope, changes) {
        return Some(EditFault::InsideChar(i as u64));
    }
    None
}

/// A rope with each range of the rope's text replaced, from the last to the first, so that the offsets of those before it
/// hold. Chunks that no range touches are shared. Each change is a descent for each of its ends and a splice.
pub fn replace_ranges(alloc: Global, rope: &Rope, changes: &[Piece]) -> Result<Rope, OutOfMemory>
    requires fit { piece_fault rope.now changes.now ≡ None }
    requires room { length rope.now + text_total changes.now ≤ 2 ^ 40 }
    ensures { IfOk result (λ r. r ≡ replace_ranges changes.now rope.now) }
{
    rope.known();
    let mut new = rope.share()?;
    for i in (0..changes.len()).rev() {
        let change = &changes[i];
        new.replace(alloc, change.start, change.end, change.text.as_str())?;
    }
    Ok(new)
}
