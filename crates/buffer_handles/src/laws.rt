//! The law of handles with the same operations.
ghost use Rattle.std.specs.Prelude.{◌≡◌, Some};
ghost use Rattle.op_model.specs.Histories.{SameSet};
ghost use Rattle.op_model.specs.Shown.{text};
ghost use Rattle.buffer_handles.specs.Replicas.{AgreeInside};

use crate::buffer_handle::BufferHandle;
use crate::replica::Replica;
use std::alloc::Global;
use text_buffer::agree;

/// Two replicas with the same operations, in whatever order, have the same text.
pub fn replicas_agree(a: &Replica, b: &Replica)
    ensures { SameSet a.now.buffer.history b.now.buffer.history
        → text a.now.buffer.history ≡ text b.now.buffer.history }
{
    agree(&a.buffer, &b.buffer);
}

fn agrees_with(alloc: Global, a: &Replica, b: &mut BufferHandle)
    ensures agree { AgreeInside (Some a.now) b.old.inside }
    ensures kept { b.new.inside ≡ b.old.inside }
{
    if let Some(replica) = b.take(alloc) {
        replicas_agree(a, &replica);
        *b = BufferHandle::of(replica);
    }
}

/// Two handles whose replicas have the same operations, in whatever order, hold the same text. They are left as they
/// were.
pub fn handles_agree(alloc: Global, a: &mut BufferHandle, b: &mut BufferHandle)
    ensures agree { AgreeInside a.old.inside b.old.inside }
    ensures first { a.new.inside ≡ a.old.inside }
    ensures second { b.new.inside ≡ b.old.inside }
{
    if let Some(replica) = a.take(alloc) {
        agrees_with(alloc, &replica, b);
        *a = BufferHandle::of(replica);
    }
}
