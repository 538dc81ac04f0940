//! A replica: a buffer, and plain cells beside it, with which its text and its fragments are compared.
use crate::cells::{Cell, Cells};
use applied_ops::Applied;
use fragments::Fragment;
use lamport_clock::is_same;
use std::alloc::Global;
use std::process::Abort;
use sum_tree::SumTree;
use text_buffer::Buffer;

/// A buffer and the cells of its history.
#[derive(Drop)]
pub(crate) struct Replica {
    pub(crate) buffer: Buffer,
    cells: Cells,
}

impl Replica {
    pub(crate) fn new(alloc: Global, buffer: Buffer) -> Replica {
        let cells = Cells::new(alloc);
        Replica { buffer, cells }
    }

    /// Adds to the cells what was applied since the last call. Returns whether text and fragments are those of the cells then.
    pub(crate) fn agrees(&mut self, rt: &impl Abort, alloc: Global) -> bool {
        if is_long(self.buffer.fragments()) {
            return true;
        }
        apply_new(rt, alloc, &mut self.cells, self.buffer.applied());
        agree(rt, alloc, &self.buffer, &self.cells)
    }
}

// Whether there are more bytes, shown and hidden, than plain cells are for.
fn is_long(fragments: &SumTree<Fragment>) -> bool {
    let sum = fragments.summary();
    sum.visible.saturating_add(sum.hidden) > 1_000
}

fn apply_new(rt: &impl Abort, alloc: Global, cells: &mut Cells, applied: &SumTree<Applied>) {
    for i in cells.operations()..applied.len() {
        if let Some(applied) = applied.get(i) {
            cells.apply(rt, alloc, applied.op());
        }
    }
}

fn agree(rt: &impl Abort, alloc: Global, buffer: &Buffer, cells: &Cells) -> bool {
    let shown = cells.text(rt, alloc);
    let same = buffer.text().expect(rt, "memory").as_bytes() == shown.as_slice();
    same && are_of(buffer.fragments(), cells)
}

// Whether fragments are of these cells, cell by cell.
fn are_of(fragments: &SumTree<Fragment>, cells: &Cells) -> bool {
    let mut rest = cells.as_slice();
    for i in 0..fragments.len() {
        if let Some(fragment) = fragments.get(i) {
            match after(fragment, cells, rest) {
                Some(next) => rest = next,
                None => return false,
            }
        }
    }
    rest.is_empty()
}

// The cells after those of a fragment, where it is of the first ones.
fn after<'c>(fragment: &Fragment, all: &Cells, cells: &'c [Cell]) -> Option<&'c [Cell]> {
    let mut rest = cells;
    for k in 0..fragment.len {
        let Some((cell, next)) = rest.split_first() else {
            return None;
        };
        if !is_cell(fragment, k, cell, all.is_shown(cell)) {
            return None;
        }
        rest = next;
    }
    Some(rest)
}

// Whether cell k of a fragment is this one.
fn is_cell(fragment: &Fragment, k: u64, cell: &Cell, is_shown: bool) -> bool {
    is_same(fragment.stamp, cell.name.stamp)
        && fragment.offset.wrapping_add(k) == cell.name.number
        && fragment.visible == is_shown
        && fragment.deletions.as_slice() == cell.deletions.as_slice()
}
