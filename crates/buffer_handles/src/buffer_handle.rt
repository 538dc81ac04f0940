//! The handle of a replica.
ghost use Rattle.std.specs.Prelude.{◌≡◌, Some, None, Option, is_some, true, option_map};
ghost use Rattle.buffer_handles.specs.declared.replica.Replica.{Replica};
ghost use Rattle.buffer_handles.specs.Handles.{replica_coded, owns_replica};

use crate::parts::Parts;
use crate::replica::Replica;
use std::alloc::Global;
use std::marker::Model;
use std::mem::replace;
use std::ptr::null_mut;

/// A replica on the heap, or nothing, as C holds it: a struct of one pointer, which is null where the handle is
/// closed. Contracts see what is inside. What is inside a handle
/// that is dropped while it is open stays on the heap.
#[repr(C)]
#[derive(Drop)]
pub struct BufferHandle {
    at: *mut u8,
    alloc: Global,
    pub ghost inside: { Option Replica } by { replica_coded },
}

impl Model for BufferHandle {
    ghost also_owns = { λ h. owns_replica h.alloc h.at h.inside };
}

impl BufferHandle {
    /// A handle that is closed. Does not allocate.
    pub fn closed(alloc: Global) -> BufferHandle
        ensures { result.inside ≡ None }
    {
        BufferHandle {
            at: null_mut(),
            alloc,
        }
    }

    /// The handle of a replica, which is not moved. O(1); does not allocate.
    pub fn of(replica: Box<Replica>) -> BufferHandle
        ensures { result.inside ≡ Some replica.value }
    {
        BufferHandle::of_parts(Parts::of(replica))
    }

    /// Whether there is a replica inside. O(1); does not allocate. It takes a `&mut` since the type cannot be read
    /// through a `&`.
    pub fn is_open(&mut self) -> bool
        ensures open { result ≡ is_some self.old.inside }
        ensures kept { self.new ≡ self.old }
    {
        self.at != null_mut()
    }

    /// Takes the replica out, which leaves the handle closed; `None` if it is closed already. O(1); does not allocate.
    pub fn take(&mut self, alloc: Global) -> Option<Box<Replica>>
        ensures inside { option_map (λ b. b.value) result ≡ self.old.inside }
        ensures closed { self.new.inside ≡ None }
    {
        if !self.is_open() {
            return None;
        }
        Some(replace(self, BufferHandle::closed(alloc)).into_box())
    }

    // The replica of a handle that is open.
    fn into_box(self) -> Box<Replica>
        requires { is_some self.inside ≡ true }
        ensures { Some result.value ≡ self.inside }
    {
        self.into_parts().into_box()
    }

    fn of_parts(parts: Parts<Replica, Global>) -> BufferHandle
        ensures { result.inside ≡ Some parts.value }
    {
        let Parts { ptr, alloc } = parts;
        BufferHandle {
            at: ptr as *mut u8,
            alloc,
        }
    }

    fn into_parts(self) -> Parts<Replica, Global>
        requires { is_some self.inside ≡ true }
        ensures { self.inside ≡ Some result.value }
    {
        let BufferHandle { at, alloc } = self;
        Parts {
            ptr: at as *mut Replica,
            alloc,
        }
    }
}

unsafe impl Send for BufferHandle {}
