//! What becomes of taken operations.
ghost use Rattle.std.specs.Prelude.{◌≡◌};

use lamport_clock::Lamport;
use op_model::OpFault;

/// What became of an operation that was taken and not refused.
#[derive(Clone, Copy, Debug, PartialEq, Eq)]
pub enum Took {
    /// An equal one is applied or waits. Nothing has changed.
    Repeat,
    /// It waits: of the replicas of which it has seen more than is applied this is the least, and this is the value that it has
    /// seen.
    Waits { replica: u16, value: u32 },
    /// It is applied, and so are operations that waited: this is how many were applied, at least 1.
    Applied(u64),
}

/// An operation that waited and was refused while settling: its stamp, and its fault at its turn.
#[derive(Clone, Copy, Debug, PartialEq, Eq)]
pub struct Refused {
    /// The stamp of the operation.
    pub stamp: Lamport,
    /// Why it was refused, against what was applied at its turn.
    pub fault: OpFault,
}
