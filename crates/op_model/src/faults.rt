//! Why a local edit, a local undo or a taken operation is refused.
ghost use Rattle.std.specs.Prelude.{◌≡◌};
ghost use Rattle.op_model.specs.declared.faults.EditFault.{EditFault};
ghost use Rattle.op_model.specs.declared.faults.UndoFault.{UndoFault};
ghost use Rattle.op_model.specs.declared.faults.OpFault.{OpFault};
ghost use Rattle.op_model.specs.declared.faults.SinceFault.{SinceFault};

use crate::OutOfMemory;
use lamport_clock::{ClockEnd, Lamport};
use std::alloc::AllocFailed;
use std::fmt;
use thiserror::Error;

/// What a buffer's limits count: bytes of new texts, or entries (one for an operation, and one for each piece or
/// count).
#[derive(Clone, Copy, Debug, PartialEq, Eq)]
pub enum Unit {
    /// The bytes of new texts, including hidden ones, and those of the base.
    Bytes,
    /// One for each operation but the base, and one for each of its pieces or counts.
    Entries,
}

impl fmt::Display for Unit {
    fn fmt<W: fmt::Write>(&self, f: &mut fmt::Formatter<W>) -> fmt::Result {
        match self {
            Unit::Bytes => write!(f, "bytes"),
            Unit::Entries => write!(f, "entries"),
        }
    }
}

/// Why a local edit is refused. Pieces are counted from 0.
#[derive(Clone, Copy, Debug, PartialEq, Eq, Error)]
pub enum EditFault {
    #[error("piece {0} starts past its end")]
    Reversed(u64),
    #[error("piece {0} starts before the end of the one before it")]
    Overlap(u64),
    /// The piece, and the text's length in bytes.
    #[error("piece {0} ends past the text's {1} bytes")]
    PastEnd(u64, u64),
    #[error("piece {0} starts or ends inside a character")]
    InsideChar(u64),
    /// The bytes of all new texts together.
    #[error("the new texts have {0} bytes, more than 65536")]
    TextLimit(u128),
    #[error("the clock stands at its end")]
    ClockEnd,
    #[error("full: {held} {unit} are held, and {adds} more pass the limit")]
    Full { unit: Unit, held: u64, adds: u64 },
    #[error("out of memory")]
    OutOfMemory,
}

/// Why a local undo is refused.
#[derive(Clone, Copy, Debug, PartialEq, Eq, Error)]
pub enum UndoFault {
    #[error("{0} is no applied edit")]
    NoSuchEdit(Lamport),
    #[error("{0} is named twice")]
    Twice(Lamport),
    #[error("the undo count of {0} stands at its end")]
    CountEnd(Lamport),
    #[error("the clock stands at its end")]
    ClockEnd,
    #[error("full: {held} {unit} are held, and {adds} more pass the limit")]
    Full { unit: Unit, held: u64, adds: u64 },
    #[error("out of memory")]
    OutOfMemory,
}

/// Why a taken operation is refused. Pieces are counted from 0.
#[derive(Clone, Copy, Debug, PartialEq, Eq, Error)]
pub enum OpFault {
    #[error("the stamp, its author or its version is none that a replica makes")]
    BadStamp,
    #[error("the version has not seen the base")]
    NoBase,
    /// The bytes of all new texts together.
    #[error("the new texts have {0} bytes, more than 65536")]
    TextLimit(u128),
    #[error("piece {0} starts past its end")]
    Reversed(u64),
    #[error("piece {0} starts before the end of the one before it")]
    Overlap(u64),
    /// The first piece whose text has a CR.
    #[error("the text of piece {0} holds a carriage return")]
    CarriageReturn(u64),
    #[error("another operation has the stamp {0}")]
    Conflict(Lamport),
    /// The greatest value that is applied of the author.
    #[error("the author's operation of value {0} is applied, and this one has not seen it")]
    Forked(u32),
    #[error("what the version has of replica {0} is no operation whose causes it has seen")]
    OpenVersion(u16),
    /// The piece, and the length in bytes of the text that the version sees.
    #[error("piece {0} ends past the {1} bytes that its version sees")]
    PastEnd(u64, u64),
    #[error("piece {0} starts or ends inside a character")]
    InsideChar(u64),
    #[error("{0} is no edit that the version sees")]
    NoSuchEdit(Lamport),
    #[error("full: {held} {unit} are held, and {adds} more pass the limit")]
    Full { unit: Unit, held: u64, adds: u64 },
    #[error("out of memory")]
    OutOfMemory,
}

/// Why a list of operations does not open a buffer. Operations are counted from 0, the base.
#[derive(Clone, Copy, Debug, PartialEq, Eq, Error)]
pub enum OpenFault {
    #[error("the first operation is no base")]
    NotBase,
    /// The operation, and the fault that it meets after those before it.
    #[error("operation {0}: {1}")]
    Op(u64, OpFault),
    #[error("operation {0} stands in the list before")]
    Repeat(u64),
    /// The least replica of which the operation has seen more than the list has before it, and the value that it has
    /// seen.
    #[error("operation {i} has seen {value}.{replica}, which is not in the list before it")]
    Early { i: u64, replica: u16, value: u32 },
    #[error("out of memory")]
    OutOfMemory,
}

/// Why no anchor can be made at an offset.
#[derive(Clone, Copy, Debug, PartialEq, Eq, Error)]
pub enum PlaceFault {
    /// The text's length in bytes.
    #[error("the offset passes the text's {0} bytes")]
    PastEnd(u64),
    #[error("the offset is inside a character")]
    InsideChar,
}

/// Why there is no text at a version and there are no edits since it.
#[derive(Clone, Copy, Debug, PartialEq, Eq, Error)]
pub enum SinceFault {
    /// The least replica of which the version has seen more than is applied.
    #[error("of replica {0} the version has more than is applied")]
    Unseen(u16),
    /// The least replica at which the version is not closed.
    #[error("what the version has of replica {0} is no operation whose causes it has seen")]
    OpenVersion(u16),
    #[error("out of memory")]
    OutOfMemory,
}

impl From<OutOfMemory> for EditFault {
    ghost from_gives = { λ _ e. e ≡ EditFault.OutOfMemory };

    fn from(_: OutOfMemory) -> Self {
        EditFault::OutOfMemory
    }
}

impl<T: Drop> From<AllocFailed<T>> for EditFault {
    ghost from_gives = { λ _ e. e ≡ EditFault.OutOfMemory };

    fn from(_: AllocFailed<T>) -> Self {
        EditFault::OutOfMemory
    }
}

impl From<ClockEnd> for EditFault {
    ghost from_gives = { λ _ e. e ≡ EditFault.ClockEnd };

    fn from(_: ClockEnd) -> Self {
        EditFault::ClockEnd
    }
}

impl From<OutOfMemory> for UndoFault {
    ghost from_gives = { λ _ e. e ≡ UndoFault.OutOfMemory };

    fn from(_: OutOfMemory) -> Self {
        UndoFault::OutOfMemory
    }
}

impl<T: Drop> From<AllocFailed<T>> for UndoFault {
    ghost from_gives = { λ _ e. e ≡ UndoFault.OutOfMemory };

    fn from(_: AllocFailed<T>) -> Self {
        UndoFault::OutOfMemory
    }
}

impl From<ClockEnd> for UndoFault {
    ghost from_gives = { λ _ e. e ≡ UndoFault.ClockEnd };

    fn from(_: ClockEnd) -> Self {
        UndoFault::ClockEnd
    }
}

impl From<OutOfMemory> for OpFault {
    ghost from_gives = { λ _ e. e ≡ OpFault.OutOfMemory };

    fn from(_: OutOfMemory) -> Self {
        OpFault::OutOfMemory
    }
}

impl<T: Drop> From<AllocFailed<T>> for OpFault {
    ghost from_gives = { λ _ e. e ≡ OpFault.OutOfMemory };

    fn from(_: AllocFailed<T>) -> Self {
        OpFault::OutOfMemory
    }
}

impl From<OutOfMemory> for SinceFault {
    ghost from_gives = { λ _ e. e ≡ SinceFault.OutOfMemory };

    fn from(_: OutOfMemory) -> Self {
        SinceFault::OutOfMemory
    }
}

impl<T: Drop> From<AllocFailed<T>> for SinceFault {
    ghost from_gives = { λ _ e. e ≡ SinceFault.OutOfMemory };

    fn from(_: AllocFailed<T>) -> Self {
        SinceFault::OutOfMemory
    }
}
