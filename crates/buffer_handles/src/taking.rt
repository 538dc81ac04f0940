//! Operations that a buffer takes, one or many.
ghost use Rattle.std.specs.Prelude.{◌≡◌, ◌⊎◌, IfOk, OnErr, OnOk, map, unwrap_or};
ghost use Rattle.op_model.specs.Steps.Step.{Takes};
ghost use Rattle.text_buffer.specs.Buffer.{after_calls, after_take, answer_to};
ghost use Rattle.text_buffer.specs.Calls.{IsStopped, Reaches};
ghost use Rattle.buffer_handles.specs.Taking.{AreTaken, IsSettled, IsTaken, counts_answer, fault_of, first_fault, or_later};

use c_values::{Answer, Code, op_refusal, operations_of};
use op_model::{OpFault, Operation, OutOfMemory};
use std::alloc::Global;
use text_buffer::Buffer;

// The first fault, where one more is met.
fn first_of(first: Option<OpFault>, next: OpFault) -> OpFault
    ensures { result ≡ unwrap_or first next }
{
    match first {
        Some(fault) => fault,
        None => next,
    }
}

// Takes one more operation, and returns the first fault until then.
#[tactic(auto, using(crate::proofs::Takes::passed_over, crate::proofs::Takes::refused_first))]
fn take_next(
    buffer: &mut Buffer,
    op: Operation,
    first: Option<OpFault>,
) -> Result<Option<OpFault>, OutOfMemory>
    ensures new { OnOk result (buffer.new ≡ after_take buffer.old op) }
    ensures first { IfOk result (λ f. f ≡ or_later first (fault_of (answer_to buffer.old op))) }
    ensures stopped { OnErr result ((buffer.new ≡ buffer.old)
        ⊎ IsStopped (Takes op) buffer.old buffer.new) }
{
    match buffer.take(op) {
        Ok(_) => Ok(first),
        Err(OpFault::OutOfMemory) => Err(OutOfMemory),
        Err(fault) => Ok(Some(first_of(first, fault))),
    }
}

/// Takes operations one after the other, as [`Buffer::take`] does, and returns the first fault among them. One that is
/// refused changes nothing, and the others are taken.
///
/// # Errors
///
/// `OutOfMemory` if an allocation fails. Some of the operations are then taken; all of them may be taken again.
#[tactic(auto, using(crate::proofs::Takes::taking_begins, crate::proofs::Takes::taking_ends, crate::proofs::Takes::taking_stops))]
pub fn take_all(buffer: &mut Buffer, ops: Vec<Operation>) -> Result<Option<OpFault>, OutOfMemory>
    ensures taken { OnOk result (buffer.new ≡ after_calls (map Takes ops.items) buffer.old) }
    ensures fault { IfOk result (λ first. first ≡ first_fault buffer.old ops.items) }
    ensures stopped { OnErr result (Reaches buffer.old buffer.new) }
{
    let mut first = None;
    let mut ops = ops.into_iter();
    while let Some(op) = ops.next() {
        first = take_next(buffer, op, first)?;
    }
    Ok(first)
}

// What a buffer holds: the operations that are applied, and those that wait.
fn counts(buffer: &Buffer) -> Answer
    ensures { result ≡ counts_answer buffer.now }
{
    let applied = buffer.applied().len();
    let waiting = buffer.deferred().len();
    Answer::new(Code::Done, applied, waiting, 0)
}

/// Takes the operations of records, one or many, as [`take_all`] does. Where none is refused, the answer has the number
/// of operations that are applied, and of those that wait. Of one that is refused the answer is its fault, the first
/// one; the others are taken.
///
/// # Errors
///
/// `NoRecord` where the bytes are no records, and nothing is then taken; the faults of [`Buffer::take`]; `OutOfMemory` if
/// an allocation fails, and some of the operations are then taken.
pub fn take_records(alloc: Global, buffer: &mut Buffer, records: &[u8]) -> Answer
    ensures { IsTaken records.now buffer.old buffer.new result }
{
    match operations_of(alloc, records) {
        Ok(ops) => take_operations(buffer, ops),
        Err(answer) => answer,
    }
}

fn take_operations(buffer: &mut Buffer, ops: Vec<Operation>) -> Answer
    ensures { AreTaken ops.items buffer.old buffer.new result }
{
    match take_all(buffer, ops) {
        Ok(None) => counts(buffer),
        Ok(Some(fault)) => op_refusal(fault),
        Err(_) => Answer::bare(Code::OutOfMemory),
    }
}

/// Settles what waits, as [`Buffer::settle`] does. The answer has the number of operations that are applied, and of those
/// that wait.
///
/// # Errors
///
/// `OutOfMemory` if an allocation fails; what was applied by then stays applied.
pub fn settle_waiting(buffer: &mut Buffer) -> Answer
    ensures { IsSettled buffer.old buffer.new result }
{
    match buffer.settle() {
        Ok(_) => counts(buffer),
        Err(_) => Answer::bare(Code::OutOfMemory),
    }
}
