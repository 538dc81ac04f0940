//! Buffers, sets and operations made of tables.
ghost use Rattle.std.specs.Prelude.{◌≤◌};

use lamport_clock::Lamport;
use op_model::{Anchor, Bias, Piece, Text};
use selections::{
    OutOfMemory, PlacesFault, Ranges, Selection, SelectionOp, SelectionSets, SetFault,
};
use std::alloc::Global;
use std::process::Abort;
use text_buffer::{Buffer, Limits, Snapshot};

/// A range, in bytes.
pub(crate) type Range = (u64, u64);

/// A stamp's value and replica.
pub(crate) type Stamp = (u32, u16);

/// A range and the text in its place.
pub(crate) type Change = (u64, u64, &'static str);

pub(crate) fn stamp((value, replica): Stamp) -> Lamport {
    Lamport { value, replica }
}

const BASE: Lamport = Lamport {
    value: 1,
    replica: 0,
};

// The selection between two bytes of the base.
fn between((start, end): Range) -> Selection {
    Selection {
        start: Anchor::At {
            stamp: BASE,
            offset: start,
            bias: Bias::Right,
        },
        end: Anchor::At {
            stamp: BASE,
            offset: end,
            bias: Bias::Left,
        },
    }
}

fn selections_of(alloc: Global, ranges: &[Range]) -> Result<Vec<Selection>, OutOfMemory> {
    let mut selections = Vec::new(alloc);
    for &range in ranges {
        selections.push(between(range))?;
    }
    Ok(selections)
}

/// The buffer of replica 9 over a base.
pub(crate) fn open(rt: &impl Abort, alloc: Global, base: &str) -> Buffer {
    Buffer::new(alloc, 9, base, Limits::MOST).expect(rt, "a buffer")
}

/// The sets of a replica.
pub(crate) fn sets_of(rt: &impl Abort, alloc: Global, replica: u16) -> SelectionSets
    requires least { 1 ≤ replica }
    requires greatest { replica ≤ 1023 }
{
    SelectionSets::new(alloc, replica).expect(rt, "memory")
}

fn piece(alloc: Global, change: Change) -> Result<Piece, OutOfMemory> {
    let text = Text::new(String::from_str(alloc, change.2)?);
    Ok(Piece::new(change.0, change.1, text))
}

/// Makes an edit. Returns its stamp.
pub(crate) fn edit(rt: &impl Abort, alloc: Global, buffer: &mut Buffer, change: Change) -> Lamport {
    let piece = piece(alloc, change).expect(rt, "memory");
    buffer
        .edit_uncounted(&[piece])
        .expect(rt, "an edit")
        .stamp()
}

/// An operation that selects ranges of the base.
pub(crate) fn operation(
    alloc: Global,
    at: Stamp,
    ranges: &[Range],
) -> Result<SelectionOp, OutOfMemory> {
    Ok(SelectionOp {
        stamp: stamp(at),
        ranges: Ranges::new(selections_of(alloc, ranges)?),
    })
}

/// Selects ranges. Returns the value of the stamp of an operation that is kept, and 0 for one that is not.
pub(crate) fn select(
    sets: &mut SelectionSets,
    snapshot: &Snapshot,
    ranges: &[Range],
) -> Result<u32, SetFault> {
    match sets.set(snapshot, ranges) {
        Ok(op) => Ok(value_of_kept(sets, &op)),
        Err(fault) => Err(fault),
    }
}

fn value_of_kept(sets: &SelectionSets, op: &SelectionOp) -> u32 {
    match sets.get(op.stamp.replica) {
        Some(kept) if kept.same(op) => op.stamp.value,
        _ => 0,
    }
}

/// Whether these are the places of an author's selections.
pub(crate) fn are_at(
    sets: &SelectionSets,
    snapshot: &Snapshot,
    author: u16,
    want: Result<Option<&[Range]>, PlacesFault>,
) -> bool {
    match sets.places(snapshot, author) {
        Ok(Some(places)) => Ok(Some(places.as_slice())) == want,
        Ok(None) => Ok(None) == want,
        Err(fault) => Err(fault) == want,
    }
}

/// Whether these are the stamps of what is kept.
pub(crate) fn keeps(sets: &SelectionSets, want: &[Stamp]) -> bool {
    let kept = sets.authors();
    kept.len() == want.len() && kept.iter().zip(want).all(|(op, &at)| op.stamp == stamp(at))
}
