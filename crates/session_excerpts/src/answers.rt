//! What a report says of the calls of a multibuffer.
ghost use Rattle.std.specs.Prelude.{◌≡◌};
ghost use Rattle.std.specs.Option.{option_copied};
ghost use Rattle.std.specs.Result.{result_ok};
ghost use Rattle.session_excerpts.specs.Answers.{excerpt_answer, pieces_at, refusal};

use crate::OutOfMemory;
use multi_buffer::{BufferPieces, PushFault, SplitFault};
use op_model::Pieces;
use session_more::{ExcerptAnswer, SplitRefusal};
use std::marker::Model;

/// The pieces of each replica that has some, seen as their list. They are in the header's order, and buffer I is the
/// replica with index I there.
#[derive(Drop)]
pub struct SplitParts {
    inner: Vec<BufferPieces>,
}

impl Model for SplitParts {
    ghost use Rattle.std.specs.Prelude.{List};
    ghost use Rattle.multi_buffer.specs.declared.parts.BufferPieces.{BufferPieces as Part};

    ghost Value = { List Part };

    ghost view = { λ p. p.inner.items };
}

impl SplitParts {
    /// The parts of a vector. Does not allocate.
    pub fn new(inner: Vec<BufferPieces>) -> SplitParts
        ensures { result ≡ inner.items }
    {
        SplitParts { inner }
    }

    /// The parts in their order. O(1); does not allocate.
    pub fn as_slice(&self) -> &[BufferPieces]
        ensures { result.now ≡ self.now }
    {
        &self.inner
    }

    /// The pieces of the replica with that index, if it has some. Linear in the number of replicas that have some; does
    /// not allocate.
    pub fn pieces_of(&self, replica: u32) -> Option<&Pieces>
        ensures { option_copied result ≡ pieces_at replica self.now }
    {
        let part = self.inner.iter().find(|part| part.buffer == replica)?;
        Some(&part.pieces)
    }
}

/// What changes of the text of excerpts are for the replicas.
#[derive(Drop)]
pub enum SplitAnswer {
    /// The pieces by which each replica is to be edited.
    Parts(SplitParts),
    /// Why no replica is edited.
    Refused(SplitRefusal),
}

/// What became of a range that was to be an excerpt.
pub fn excerpt_answer(put: Result<u32, PushFault>) -> Result<ExcerptAnswer, OutOfMemory>
    ensures { result_ok result ≡ excerpt_answer put }
{
    match put {
        Ok(index) => Ok(ExcerptAnswer::Index(index)),
        Err(PushFault::Reversed(i)) => Ok(ExcerptAnswer::Reversed(i)),
        Err(PushFault::PastEnd(i, len)) => Ok(ExcerptAnswer::PastEnd(i, len)),
        Err(PushFault::InsideChar(i)) => Ok(ExcerptAnswer::InsideChar(i)),
        Err(PushFault::OutOfMemory) => Err(OutOfMemory),
    }
}

/// Why changes are not split.
pub fn refusal(fault: SplitFault) -> Result<SplitRefusal, OutOfMemory>
    ensures { result_ok result ≡ refusal fault }
{
    match fault {
        SplitFault::Reversed(i) => Ok(SplitRefusal::Reversed(i)),
        SplitFault::Overlap(i) => Ok(SplitRefusal::Overlap(i)),
        SplitFault::PastEnd(i, len) => Ok(SplitRefusal::PastEnd(i, len)),
        SplitFault::InsideChar(i) => Ok(SplitRefusal::InsideChar(i)),
        SplitFault::TextLimit(total) => Ok(SplitRefusal::TextLimit(total)),
        SplitFault::Crosses(i) => Ok(SplitRefusal::Crosses(i)),
        SplitFault::Shared(i, excerpt) => Ok(SplitRefusal::Shared(i, excerpt)),
        SplitFault::OutOfMemory => Err(OutOfMemory),
    }
}
