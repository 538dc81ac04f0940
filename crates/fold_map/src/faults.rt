//! Why a range is not folded, and why a map does not go on to a snapshot.

ghost use Rattle.std.specs.Prelude.{◌≡◌};
ghost use Rattle.fold_map.specs.declared.faults.FoldFault.{FoldFault};
ghost use Rattle.fold_map.specs.declared.faults.SyncFault.{SyncFault};

use crate::OutOfMemory;
use thiserror::Error;

/// Why a range is not folded or unfolded. Numbers count ranges from 0, and a call has one.
#[derive(Clone, Copy, Debug, PartialEq, Eq, Error)]
pub enum FoldFault {
    #[error("range {0} ends before it starts")]
    Reversed(u64),
    /// The range, and the length of the text in bytes.
    #[error("range {0} ends past the text's {1} bytes")]
    PastEnd(u64, u64),
    #[error("range {0} starts or ends inside a character")]
    InsideChar(u64),
    #[error("the range holds no byte")]
    EmptyRange,
    #[error("out of memory")]
    OutOfMemory,
}

/// Why a map does not go on to a snapshot.
#[derive(Clone, Copy, Debug, PartialEq, Eq, Error)]
pub enum SyncFault {
    /// The least replica of which the snapshot has less than the map's own.
    #[error("of replica {0} the snapshot has less than the map's")]
    Older(u16),
    #[error("out of memory")]
    OutOfMemory,
}

impl From<OutOfMemory> for FoldFault {
    ghost from_gives = { λ _ e. e ≡ FoldFault.OutOfMemory };

    fn from(_: OutOfMemory) -> Self {
        FoldFault::OutOfMemory
    }
}

impl From<OutOfMemory> for SyncFault {
    ghost from_gives = { λ _ e. e ≡ SyncFault.OutOfMemory };

    fn from(_: OutOfMemory) -> Self {
        SyncFault::OutOfMemory
    }
}
