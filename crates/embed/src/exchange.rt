//! Operations that go from one author to another, and what they change there.

use anyhow::Result;
use applied_ops::Applied;
use lamport_clock::Version;
use op_model::{Operation, TextEdit};
use std::alloc::Global;
use std::io::Print;
use text_buffer::Buffer;

/// Takes an operation, and says which ranges of the text it changed: those that an editor draws again.
pub fn take_shown(
    rt: &impl Print,
    alloc: Global,
    author: &mut Buffer,
    op: Operation,
) -> Result<()> {
    let before = author.version().copy(alloc)?;
    let _answer = author.take(op)?;
    show_changes(rt, author, &before)
}

// Says which ranges of the text changed since a version.
fn show_changes(rt: &impl Print, author: &Buffer, before: &Version) -> Result<()> {
    let snapshot = author.snapshot()?;
    let edits = snapshot.since(before)?;
    show_edits(rt, edits.as_slice())
}

fn show_edits(rt: &impl Print, edits: &[TextEdit]) -> Result<()> {
    for edit in edits {
        let (old, new) = (edit.old, edit.new);
        println!(rt; "bytes {}..{} are now {}..{}", old.0, old.1, new.0, new.1)?;
    }
    Ok(())
}

/// The operations that an author has applied and a version has not seen, in an order in which they can be taken.
///
/// A peer sends its version, which is a few numbers, and gets these.
pub fn lacking(alloc: Global, author: &Buffer, version: &Version) -> Result<Vec<Operation>> {
    let mut ops = Vec::new(alloc);
    for i in 0..author.applied().len() {
        match author.applied().get(i).map(Applied::op) {
            Some(op) if !version.sees(op.stamp()) => ops.push(op.copy(alloc)?)?,
            _ => {}
        }
    }
    Ok(ops)
}

/// Sends a peer what it lacks.
pub fn send_all(alloc: Global, author: &Buffer, peer: &mut Buffer) -> Result<()> {
    for op in lacking(alloc, author, peer.version())? {
        let _answer = peer.take(op)?;
    }
    Ok(())
}
