//! Stamps, as C hands them in and gets them.
ghost use Rattle.std.specs.Prelude.{◌≡◌, map, IfOk};
ghost use Rattle.c_values.specs.Stamps.{lamport, stamp};

use lamport_clock::Lamport;
use op_model::OutOfMemory;
use std::alloc::Global;

/// The name of an operation: the value of its author's clock, and its author.
#[repr(C)]
#[derive(Clone, Copy)]
pub struct Stamp {
    /// The value of the author's clock.
    pub value: u32,
    /// The author's replica.
    pub replica: u16,
}

impl Stamp {
    /// The stamp as C gets it. O(1); does not allocate.
    pub fn of(t: Lamport) -> Stamp
        ensures { result ≡ stamp t }
    {
        Stamp {
            value: t.value,
            replica: t.replica,
        }
    }

    /// The stamp that C handed in. O(1); does not allocate.
    pub fn lamport(self) -> Lamport
        ensures { result ≡ lamport self }
    {
        Lamport {
            value: self.value,
            replica: self.replica,
        }
    }
}

/// The stamps, in their order. Linear in their number; allocates once.
///
/// # Errors
///
/// `OutOfMemory` if an allocation fails.
pub fn stamps_of(alloc: Global, stamps: &[Stamp]) -> Result<Vec<Lamport>, OutOfMemory>
    ensures { IfOk result (λ ts. ts.items ≡ map lamport stamps.now) }
{
    let mut made = Vec::with_capacity(alloc, stamps.len())?;
    for stamp in stamps {
        made.push(stamp.lamport())?;
    }
    Ok(made)
}
