//! Why a part of a text is no excerpt.
ghost use Rattle.std.specs.Prelude.{◌≡◌};
ghost use Rattle.multi_buffer.specs.declared.faults.PushFault.{PushFault};
ghost use Rattle.multi_buffer.specs.declared.faults.SplitFault.{SplitFault};

use crate::OutOfMemory;
use thiserror::Error;

/// Why a part of a text is no excerpt. Ranges are counted from 0, and a call has one.
#[derive(Clone, Copy, Debug, PartialEq, Eq, Error)]
pub enum PushFault {
    #[error("range {0} starts past its end")]
    Reversed(u64),
    /// The range, and the text's length in bytes.
    #[error("range {0} ends past the text's {1} bytes")]
    PastEnd(u64, u64),
    #[error("range {0} starts or ends inside a character")]
    InsideChar(u64),
    #[error("out of memory")]
    OutOfMemory,
}

impl From<OutOfMemory> for PushFault {
    ghost from_gives = { λ _ e. e ≡ PushFault.OutOfMemory };

    fn from(_: OutOfMemory) -> Self {
        PushFault::OutOfMemory
    }
}

/// Why changes of the text of all excerpts are not split. Changes are counted from 0.
#[derive(Clone, Copy, Debug, PartialEq, Eq, Error)]
pub enum SplitFault {
    #[error("change {0} starts past its end")]
    Reversed(u64),
    #[error("change {0} starts before the end of the one before it")]
    Overlap(u64),
    /// The change, and the text's length in bytes.
    #[error("change {0} ends past the text's {1} bytes")]
    PastEnd(u64, u64),
    #[error("change {0} starts or ends inside a character")]
    InsideChar(u64),
    /// How many bytes the new texts have together.
    #[error("the new texts have {0} bytes, more than 65536")]
    TextLimit(u128),
    #[error("no excerpt holds both ends of change {0}")]
    Crosses(u64),
    /// The change, and the index of the other excerpt.
    #[error("change {0} has a place in common with excerpt {1}")]
    Shared(u64, u32),
    #[error("out of memory")]
    OutOfMemory,
}

impl From<OutOfMemory> for SplitFault {
    ghost from_gives = { λ _ e. e ≡ SplitFault.OutOfMemory };

    fn from(_: OutOfMemory) -> Self {
        SplitFault::OutOfMemory
    }
}
