//! How the queue of a worker is made.
ghost use Rattle.std.specs.Prelude.{◌≡◌, ◌<◌, [], IfOk};

use crate::OutOfMemory;
use crate::desk::{Desk, Inbox};
use crate::queue::Queue;
use crate::steps::split;
use snapshot_pub::SnapReader;
use std::alloc::Global;
use std::marker::Brand;
use std::sync::Arc;

/// The queue of worker `number`, with room for `room` entries, and both its ends. The worker has these readers.
///
/// # Errors
///
/// `OutOfMemory` alone.
pub(crate) fn open_queue<Q: Drop>(
    alloc: Global,
    room: usize,
    readers: Vec<SnapReader>,
    number: u32,
) -> Result<(Inbox<Q>, Desk<Q>), OutOfMemory>
    requires { 0 < room }
    ensures inbox { IfOk result (λ r. r.0
        ≡ record { queue = r.1.queue; room = room; sent = []; readers = readers.items }) }
    ensures desk { IfOk result (λ r. r.1.readers ≡ readers.items) }
{
    let (queue, mut pass) = Queue::ruled(alloc, room)?;
    let theirs = split::<Brand, Q>(&queue, &mut pass, &readers);
    let queue = Arc::new(alloc, queue)?;
    let shared = Arc::try_clone(&queue)?;
    Ok((
        Inbox { queue, pass },
        Desk {
            queue: shared,
            pass: theirs,
            readers,
            number,
        },
    ))
}
