//! The handle of a snapshot.
ghost use Rattle.std.specs.Prelude.{◌≡◌, List, Some, None, Option, is_some, true, option_map};
ghost use Rattle.op_model.specs.declared.operation.Operation.{Operation};
ghost use Rattle.buffer_handles.specs.Handles.{snapshot_coded, owns_snapshot};

use crate::parts::Parts;
use std::alloc::Global;
use std::marker::Model;
use std::mem::replace;
use std::ptr::null_mut;
use text_buffer::Snapshot;

/// A snapshot on the heap, or nothing, as C holds it: a struct of one pointer, which is null where the handle is
/// closed. Contracts see what is inside. What is inside a handle
/// that is dropped while it is open stays on the heap.
#[repr(C)]
#[derive(Drop)]
pub struct SnapshotHandle {
    at: *mut u8,
    alloc: Global,
    pub ghost inside: { Option (List Operation) } by { snapshot_coded },
}

impl Model for SnapshotHandle {
    ghost also_owns = { λ h. owns_snapshot h.alloc h.at h.inside };
}

impl SnapshotHandle {
    /// A handle that is closed. Does not allocate.
    pub fn closed(alloc: Global) -> SnapshotHandle
        ensures { result.inside ≡ None }
    {
        SnapshotHandle {
            at: null_mut(),
            alloc,
        }
    }

    /// The handle of a snapshot, which is not moved. O(1); does not allocate.
    pub fn of(snapshot: Box<Snapshot>) -> SnapshotHandle
        ensures { result.inside ≡ Some snapshot.value }
    {
        SnapshotHandle::of_parts(Parts::of(snapshot))
    }

    /// Whether there is a snapshot inside. O(1); does not allocate. It takes a `&mut` since the type cannot be read
    /// through a `&`.
    pub fn is_open(&mut self) -> bool
        ensures open { result ≡ is_some self.old.inside }
        ensures kept { self.new ≡ self.old }
    {
        self.at != null_mut()
    }

    /// Takes the snapshot out, which leaves the handle closed; `None` if it is closed already. O(1); does not allocate.
    pub fn take(&mut self, alloc: Global) -> Option<Box<Snapshot>>
        ensures inside { option_map (λ b. b.value) result ≡ self.old.inside }
        ensures closed { self.new.inside ≡ None }
    {
        if !self.is_open() {
            return None;
        }
        Some(replace(self, SnapshotHandle::closed(alloc)).into_box())
    }

    // The snapshot of a handle that is open.
    fn into_box(self) -> Box<Snapshot>
        requires { is_some self.inside ≡ true }
        ensures { Some result.value ≡ self.inside }
    {
        self.into_parts().into_box()
    }

    fn of_parts(parts: Parts<Snapshot, Global>) -> SnapshotHandle
        ensures { result.inside ≡ Some parts.value }
    {
        let Parts { ptr, alloc } = parts;
        SnapshotHandle {
            at: ptr as *mut u8,
            alloc,
        }
    }

    fn into_parts(self) -> Parts<Snapshot, Global>
        requires { is_some self.inside ≡ true }
        ensures { self.inside ≡ Some result.value }
    {
        let SnapshotHandle { at, alloc } = self;
        Parts {
            ptr: at as *mut Snapshot,
            alloc,
        }
    }
}

unsafe impl Send for SnapshotHandle {}
