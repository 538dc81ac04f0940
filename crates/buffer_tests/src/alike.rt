//! Two buffers, and whether they answer alike, whatever they are asked.
use crate::operations::{pieces, version};
use applied_ops::Applied;
use deferred_ops::Deferred;
use op_model::{EditFault, Operation, Piece};
use std::alloc::Global;
use std::process::Abort;
use sum_tree::{OutOfMemory, SumTree};
use text_buffer::{Anchor, Bias, Buffer, PlaceFault, Snapshot};

/// Whether the same operations are applied in the same order.
pub(crate) fn apply_alike(a: &SumTree<Applied>, b: &SumTree<Applied>) -> bool {
    for i in 0..a.len() {
        match (a.get(i), b.get(i)) {
            (Some(x), Some(y)) if x.op().same(y.op()) => {}
            _ => return false,
        }
    }
    a.len() == b.len()
}

/// Whether the same operations wait.
pub(crate) fn wait_alike(a: &Deferred, b: &Deferred) -> bool {
    let mut t = None;
    for _ in 0..a.len() {
        match (a.after(t), b.after(t)) {
            (Some(x), Some(y)) if x.same(y) => t = Some(x.stamp()),
            _ => return false,
        }
    }
    a.len() == b.len()
}

fn hold_alike(a: &Buffer, b: &Buffer) -> bool {
    let versions = a.version().as_slice() == b.version().as_slice();
    let refused = a.refused() == b.refused();
    versions
        & refused
        & apply_alike(a.applied(), b.applied())
        & wait_alike(a.deferred(), b.deferred())
}

// The anchor at an offset, and its place.
fn anchor_and_place(
    snapshot: &Snapshot,
    offset: u64,
    bias: Bias,
) -> (Result<Anchor, PlaceFault>, Option<u64>) {
    let anchor = snapshot.anchor(offset, bias);
    let place = match anchor {
        Ok(anchor) => snapshot.resolve(&anchor).ok(),
        Err(_) => None,
    };
    (anchor, place)
}

// Whether the anchors at each offset of a text, and one past its end, have the same places.
fn place_alike(a: &Snapshot, b: &Snapshot, len: u64) -> bool {
    for offset in 0..len.saturating_add(2) {
        for bias in [Bias::Left, Bias::Right] {
            if anchor_and_place(a, offset, bias) != anchor_and_place(b, offset, bias) {
                return false;
            }
        }
    }
    true
}

fn change_alike(rt: &impl Abort, alloc: Global, a: &Snapshot, b: &Snapshot) -> bool {
    let base = version(alloc, &[(1, 0)]).expect(rt, "memory");
    match (a.since(&base), b.since(&base)) {
        (Ok(x), Ok(y)) => x.as_slice() == y.as_slice(),
        _ => false,
    }
}

fn looks_as(rt: &impl Abort, alloc: Global, a: &Snapshot, b: &Buffer) -> bool {
    let b = b.snapshot().expect(rt, "memory");
    change_alike(rt, alloc, a, &b) & place_alike(a, &b, a.text().len())
}

/// Whether the edits since the base are the same in two buffers, and the anchors at each offset have the same places.
pub(crate) fn look_alike(rt: &impl Abort, alloc: Global, a: &Buffer, b: &Buffer) -> bool {
    looks_as(rt, alloc, &a.snapshot().expect(rt, "memory"), b)
}

/// Whether two buffers show one text.
pub(crate) fn show_alike(a: &Buffer, b: &Buffer) -> Result<bool, OutOfMemory> {
    Ok(a.text()?.as_str() == b.text()?.as_str())
}

fn makes(buffer: &mut Buffer, changes: &[Piece], op: &Operation) -> bool {
    match buffer.edit_uncounted(changes) {
        Ok(made) => made.same(op),
        Err(_) => false,
    }
}

fn meets(buffer: &mut Buffer, changes: &[Piece], fault: EditFault) -> bool {
    buffer.edit_uncounted(changes).err() == Some(fault)
}

// Whether an edit is the same operation, or meets the same fault.
fn edits_alike(buffer: &mut Buffer, twin: &mut Buffer, changes: &[Piece]) -> bool {
    match buffer.edit_uncounted(changes) {
        Ok(op) => makes(twin, changes, &op),
        Err(fault) => meets(twin, changes, fault),
    }
}

// Whether the next edit is the same operation, or meets the same fault.
fn edit_alike(rt: &impl Abort, alloc: Global, buffer: &mut Buffer, twin: &mut Buffer) -> bool {
    let changes = pieces(alloc, &[(0, 0, "n")]).expect(rt, "memory");
    edits_alike(buffer, twin, changes.as_slice())
}

fn are_alike(rt: &impl Abort, alloc: Global, a: &Buffer, b: &Buffer) -> bool {
    let alike = hold_alike(a, b) & show_alike(a, b).expect(rt, "memory");
    look_alike(rt, alloc, a, b) & alike
}

/// Whether a buffer and its twin have the same text, version, operations (applied, waiting and refused), places of anchors and edits
/// since the base, and then make the same operation of an edit.
pub(crate) fn answer_alike(
    rt: &impl Abort,
    alloc: Global,
    buffer: &mut Buffer,
    twin: &mut Buffer,
) -> bool {
    let alike = are_alike(rt, alloc, buffer, twin);
    edit_alike(rt, alloc, buffer, twin) & alike
}
