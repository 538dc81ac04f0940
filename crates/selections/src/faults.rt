//! What the calls of sets answer, and why they refuse.
ghost use Rattle.std.specs.Prelude.{◌≡◌};
ghost use Rattle.selections.specs.declared.faults.SetFault.{SetFault};
ghost use Rattle.selections.specs.declared.faults.SelFault.{SelFault};
ghost use Rattle.selections.specs.declared.faults.PlacesFault.{PlacesFault};

use crate::OutOfMemory;
use lamport_clock::Lamport;
use std::alloc::AllocFailed;
use thiserror::Error;

/// Why ranges are not selected. Ranges are counted from 0.
#[derive(Clone, Copy, Debug, PartialEq, Eq, Error)]
pub enum SetFault {
    #[error("range {0} starts past its end")]
    Reversed(u64),
    /// The range, and the text's length in bytes.
    #[error("range {0} ends past the text's {1} bytes")]
    PastEnd(u64, u64),
    #[error("range {0} starts or ends inside a character")]
    InsideChar(u64),
    /// How many ranges there are.
    #[error("there are {0} ranges, more than 1024")]
    TooMany(u64),
    #[error("the clock stands at its end")]
    ClockEnd,
    #[error("out of memory")]
    OutOfMemory,
}

/// What became of a taken operation.
#[derive(Clone, Copy, Debug, PartialEq, Eq)]
pub enum SelTook {
    /// The equal one is kept.
    Repeat,
    /// A later one of the author is kept, with this stamp.
    Old(Lamport),
    /// It is kept now.
    Set,
}

/// Why an operation is not taken.
#[derive(Clone, Copy, Debug, PartialEq, Eq, Error)]
pub enum SelFault {
    #[error("the stamp or its author is none that a replica makes")]
    BadStamp,
    /// How many ranges it has.
    #[error("there are {0} ranges, more than 1024")]
    TooMany(u64),
    #[error("another operation has the stamp {0}")]
    Conflict(Lamport),
    #[error("out of memory")]
    OutOfMemory,
}

/// Why there are no places. Ranges are counted from 0.
#[derive(Clone, Copy, Debug, PartialEq, Eq, Error)]
pub enum PlacesFault {
    #[error("range {0} has an anchor that is not known")]
    Unknown(u64),
    #[error("out of memory")]
    OutOfMemory,
}

impl From<OutOfMemory> for SetFault {
    ghost from_gives = { λ _ e. e ≡ SetFault.OutOfMemory };

    fn from(_: OutOfMemory) -> Self {
        SetFault::OutOfMemory
    }
}

impl From<OutOfMemory> for SelFault {
    ghost from_gives = { λ _ e. e ≡ SelFault.OutOfMemory };

    fn from(_: OutOfMemory) -> Self {
        SelFault::OutOfMemory
    }
}

impl From<OutOfMemory> for PlacesFault {
    ghost from_gives = { λ _ e. e ≡ PlacesFault.OutOfMemory };

    fn from(_: OutOfMemory) -> Self {
        PlacesFault::OutOfMemory
    }
}

impl<T: Drop> From<AllocFailed<T>> for PlacesFault {
    ghost from_gives = { λ _ e. e ≡ PlacesFault.OutOfMemory };

    fn from(_: AllocFailed<T>) -> Self {
        PlacesFault::OutOfMemory
    }
}
