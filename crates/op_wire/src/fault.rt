//! Why an operation has no record, and why bytes are no records.
ghost use Rattle.std.specs.Prelude.{◌≡◌};
ghost use Rattle.op_wire.specs.declared.fault.ReadError.TheVariants as read_errors;
ghost use Rattle.op_wire.specs.declared.fault.EncodeFault.TheVariants as encode_faults;
ghost use Rattle.op_wire.specs.declared.fault.Halt.TheVariants as halts;
ghost use Rattle.op_wire.specs.declared.fault.WireFault.TheVariants as wire_faults;

use op_model::OutOfMemory;
use std::alloc::AllocFailed;
use thiserror::Error;

/// Why an operation has no record.
#[derive(Clone, Copy, Debug, PartialEq, Eq, Error)]
pub enum EncodeFault {
    /// The first number of the record that passes 65,536: of entries, of pieces or of counts, or of the bytes of the
    /// edit's texts so far.
    #[error("a number of the record is {0}, more than 65536")]
    Long(u64),
    /// An allocation failed.
    #[error("out of memory")]
    OutOfMemory,
}

/// Why bytes are no records. `at` is an offset in the stream, in bytes: that of the faulty field, or of the record that
/// is cut off.
#[derive(Clone, Copy, Debug, PartialEq, Eq, Error)]
pub enum WireFault {
    /// A kind that is neither 1, an edit, nor 2, an undo.
    #[error("the record at byte {at} is neither an edit nor an undo")]
    Kind { at: u64 },
    /// A replica of a version that is not above the one before it.
    #[error("the replica at byte {at} is not above the one before it")]
    Order { at: u64 },
    /// The value 0 of an entry of a version.
    #[error("the value at byte {at} is 0")]
    Zero { at: u64 },
    /// A number of entries, of pieces or of counts above 65,536, or a length with which an edit's texts have more
    /// bytes.
    #[error("the number or length at byte {at} passes 65536")]
    Long { at: u64 },
    /// A text that is not UTF-8.
    #[error("the text at byte {at} is not UTF-8")]
    Utf8 { at: u64 },
    /// The stream ends inside the record that begins at `at`.
    #[error("the record at byte {at} is cut off")]
    Cut { at: u64 },
    /// An allocation failed.
    #[error("out of memory")]
    OutOfMemory,
}

/// What is wrong with a field.
#[derive(Clone, Copy)]
pub(crate) enum Word {
    Kind,
    Order,
    Zero,
    Long,
    Utf8,
}

/// Where reading a record stops.
#[derive(Clone, Copy)]
pub(crate) enum Stop {
    /// The bytes end inside a field.
    Short,
    /// A field is faulty. The number is that of the bytes from the field on.
    Bad(Word, usize),
}

/// Why no record was read.
#[derive(Clone, Copy)]
pub(crate) enum ReadError {
    OutOfMemory,
    Stopped(Stop),
}

/// Why reading records ends before the bytes do.
#[derive(Clone, Copy)]
pub(crate) enum Halt {
    OutOfMemory,
    /// A field is faulty: its word, the number of bytes from the field on, and that from its record on.
    Bad(Word, usize, usize),
}

impl From<OutOfMemory> for EncodeFault {
    ghost from_gives = { λ _ e. e ≡ encode_faults.OutOfMemory };

    fn from(_: OutOfMemory) -> Self {
        EncodeFault::OutOfMemory
    }
}

impl<T: Drop> From<AllocFailed<T>> for EncodeFault {
    ghost from_gives = { λ _ e. e ≡ encode_faults.OutOfMemory };

    fn from(_: AllocFailed<T>) -> Self {
        EncodeFault::OutOfMemory
    }
}

impl From<OutOfMemory> for ReadError {
    ghost from_gives = { λ _ e. e ≡ read_errors.OutOfMemory };

    fn from(_: OutOfMemory) -> Self {
        ReadError::OutOfMemory
    }
}

impl<T: Drop> From<AllocFailed<T>> for ReadError {
    ghost from_gives = { λ _ e. e ≡ read_errors.OutOfMemory };

    fn from(_: AllocFailed<T>) -> Self {
        ReadError::OutOfMemory
    }
}

impl<T: Drop> From<AllocFailed<T>> for Halt {
    ghost from_gives = { λ _ e. e ≡ halts.OutOfMemory };

    fn from(_: AllocFailed<T>) -> Self {
        Halt::OutOfMemory
    }
}

impl From<OutOfMemory> for WireFault {
    ghost from_gives = { λ _ e. e ≡ wire_faults.OutOfMemory };

    fn from(_: OutOfMemory) -> Self {
        WireFault::OutOfMemory
    }
}
