//! Operations that were refused, as C gets them.
ghost use Rattle.std.specs.Prelude.{◌≡◌};
ghost use Rattle.c_values.specs.Refusals.{refusal};

use crate::answer::{Answer, op_refusal};
use crate::stamps::Stamp;
use lamport_clock::Lamport;
use op_model::OpFault;

/// An operation that waited and was refused at its turn.
#[repr(C)]
#[derive(Clone, Copy)]
pub struct Refusal {
    /// The stamp of the operation.
    pub stamp: Stamp,
    /// Why it was refused, against what was applied at its turn.
    pub why: Answer,
}

impl Refusal {
    /// The refusal of the operation of a stamp. O(1); does not allocate.
    pub fn of(stamp: Lamport, fault: OpFault) -> Refusal
        ensures { result ≡ refusal (stamp, fault) }
    {
        Refusal {
            stamp: Stamp::of(stamp),
            why: op_refusal(fault),
        }
    }
}
