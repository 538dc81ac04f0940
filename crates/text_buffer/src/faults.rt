//! Why a buffer is not made.
ghost use Rattle.std.specs.Prelude.{◌≡◌, ◌≤◌, None, length};
ghost use Rattle.op_model.specs.Rules.{text_under};
ghost use Rattle.text_buffer.specs.Buffer.{length_fault};
ghost use Rattle.text_buffer.specs.declared.faults.NewFault.{NewFault};

use crate::entering::entered_len;
use crate::{Endings, OutOfMemory};
use op_model::Unit;
use std::alloc::AllocFailed;
use thiserror::Error;

/// Why a buffer is not made over a base.
#[derive(Clone, Copy, Debug, PartialEq, Eq, Error)]
pub enum NewFault {
    /// The base passes the limit of bytes.
    #[error("full: {held} {unit} are held, and {adds} more pass the limit")]
    Full { unit: Unit, held: u64, adds: u64 },
    #[error("out of memory")]
    OutOfMemory,
}

impl From<OutOfMemory> for NewFault {
    ghost from_gives = { λ _ e. e ≡ NewFault.OutOfMemory };

    fn from(_: OutOfMemory) -> Self {
        NewFault::OutOfMemory
    }
}

impl<T: Drop> From<AllocFailed<T>> for NewFault {
    ghost from_gives = { λ _ e. e ≡ NewFault.OutOfMemory };

    fn from(_: AllocFailed<T>) -> Self {
        NewFault::OutOfMemory
    }
}

/// A limit that would be passed: what is held of its unit, and what would be added.
#[derive(Clone, Copy)]
pub(crate) struct Excess {
    pub unit: Unit,
    pub held: u64,
    pub adds: u64,
}

/// The fault of a base of `len` bytes where no more than `most` may be held.
pub(crate) fn length_fault(most: u64, len: u64) -> Option<NewFault>
    ensures fault { result ≡ length_fault most len }
    ensures room { result ≡ None → len ≤ most }
{
    if most < len {
        return Some(NewFault::Full {
            unit: Unit::Bytes,
            held: 0,
            adds: len,
        });
    }
    None
}

/// The fault of a text as a base where no more than `most` bytes may be held. A text that is longer is read once under
/// `Lf`; does not allocate.
pub(crate) fn text_fault(endings: Endings, most: u64, text: &str) -> Option<NewFault>
    ensures fault { result ≡ length_fault most (length (text_under endings text.now)) }
    ensures room { result ≡ None → length (text_under endings text.now) ≤ most }
{
    if text.len() as u64 <= most {
        // No text is longer once it has entered.
        return None;
    }
    length_fault(most, entered_len(endings, text) as u64)
}
