//! Why operations are not packed.
ghost use Rattle.std.specs.Prelude.{◌≡◌};
ghost use Rattle.record_lines.specs.declared.fault.PackFault.TheVariants as faults;

use op_model::OutOfMemory;
use std::alloc::AllocFailed;
use thiserror::Error;

/// Why operations are not packed.
#[derive(Clone, Copy, Debug, PartialEq, Eq, Error)]
pub enum PackFault {
    /// A number of the record of this line's operation passes 65,536.
    #[error("the operation of line {line} is too long for a record")]
    Long { line: u64 },
    /// An allocation failed.
    #[error("out of memory")]
    OutOfMemory,
}

impl From<OutOfMemory> for PackFault {
    ghost from_gives = { λ _ e. e ≡ faults.OutOfMemory };

    fn from(_: OutOfMemory) -> Self {
        PackFault::OutOfMemory
    }
}

impl<T: Drop> From<AllocFailed<T>> for PackFault {
    ghost from_gives = { λ _ e. e ≡ faults.OutOfMemory };

    fn from(_: AllocFailed<T>) -> Self {
        PackFault::OutOfMemory
    }
}
