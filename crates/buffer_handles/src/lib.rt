//! Buffers and snapshots as a caller in C holds them, and the calls that it makes.
#![tactic(auto)]

mod anchoring;
mod buffer_handle;
mod calls;
mod laws;
mod parts;
mod positions;
mod reading;
mod replica;
mod saving;
mod snapshot_calls;
mod snapshot_handle;
mod taking;
mod waits;

pub use anchoring::{compare_anchors, make_anchor, resolve_anchor};
pub use buffer_handle::BufferHandle;
pub use c_values::{Answer, Change, Code, FlatAnchor, Refusal, Seen, Stamp, TextChange};
pub use calls::{
    close, edit, forget, open, record, records, refused, reopen, settle, snapshot, take, undo,
    version, waiting,
};
pub use laws::{handles_agree, replicas_agree};
pub use positions::{Kind, Position, write_position};
pub use reading::{find_in, read_edits, read_text, read_text_at};
pub use replica::Replica;
pub use saving::{records_since, write_version};
pub use snapshot_calls::{
    anchor_at, compare, edits_since, find, length, position_at, release, resolve, share, text,
    text_at,
};
pub use snapshot_handle::SnapshotHandle;
pub use taking::{settle_waiting, take_all, take_records};
use text_buffer::Snapshot;
pub use waits::{write_refused, write_waiting};

fn sends<T: Send>(_value: &T) {}

fn shares<T: Sync>(_value: &T) {}

fn moves<T: Send>(_value: &mut T) {}

/// What handles hold may be sent to threads and be shared by them, and handles may be sent to threads.
pub fn crosses_threads(
    replica: &Replica,
    snapshot: &Snapshot,
    buffer_handle: &mut BufferHandle,
    snapshot_handle: &mut SnapshotHandle,
) {
    sends(replica);
    shares(replica);
    sends(snapshot);
    shares(snapshot);
    moves(buffer_handle);
    moves(snapshot_handle);
}
