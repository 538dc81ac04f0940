//! Why a search gives no places.
use crate::OutOfMemory;
use thiserror::Error;

/// Why a search gives no places.
#[derive(Clone, Copy, Debug, PartialEq, Eq, Error)]
pub enum FindFault {
    /// The needle has no bytes. It stands nowhere, or everywhere, so it is refused, whatever the text is.
    #[error("the needle is empty")]
    EmptyNeedle,
    /// There was no memory for the needle's table, for a part or for the places.
    #[error("out of memory")]
    OutOfMemory,
}

impl From<OutOfMemory> for FindFault {
    ghost use Rattle.std.specs.Prelude.{◌≡◌};
    ghost use Rattle.snapshot_search.specs.declared.fault.FindFault.{FindFault};

    ghost from_gives = { λ _ fault. fault ≡ FindFault.OutOfMemory };

    fn from(_: OutOfMemory) -> Self {
        FindFault::OutOfMemory
    }
}
