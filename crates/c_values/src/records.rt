//! Records of operations: what is written of a replica, and what is read.
ghost use Rattle.std.specs.Prelude.{◌≡◌, ◌≢◌, IfErr, IfOk, length};
ghost use Rattle.op_wire.specs.Spelling.{long_number, spelling};
ghost use Rattle.c_values.specs.Answers.{IsAnswer, IsRead};
ghost use Rattle.c_values.specs.Records.{AreRecords, IsNoRecord, record_unless, wire_refusal};
ghost use Rattle.c_values.specs.Room.{over};

use crate::answer::{Answer, Code};
use crate::room::write_front;
use op_model::Operation;
use op_wire::{EncodeFault, WireFault, WireReader, encode};
use std::alloc::Global;

/// Writes the record of an operation, as much of it as fits. The answer has its length in bytes. Linear in the record;
/// allocates once.
///
/// # Errors
///
/// `TooLong` where the operation has no record, `OutOfMemory` if an allocation fails.
pub fn write_record(alloc: Global, op: &Operation, into: &mut [u8]) -> Answer
    ensures answer { IsAnswer (record_unless (long_number op.now)
        (length (spelling op.now)) (length into.old)) result }
    ensures written { IsRead result → into.new ≡ over (spelling op.now) into.old }
{
    match encode(alloc, op) {
        Ok(record) => write_front(&record, into),
        Err(EncodeFault::Long(number)) => Answer::new(Code::TooLong, number, 0, 0),
        Err(EncodeFault::OutOfMemory) => Answer::bare(Code::OutOfMemory),
    }
}

fn refusal_of(fault: WireFault) -> Answer
    ensures { result ≡ wire_refusal fault }
{
    match fault {
        WireFault::Kind { at } => Answer::new(Code::NoRecord, at, 0, 0),
        WireFault::Order { at } => Answer::new(Code::NoRecord, at, 0, 0),
        WireFault::Zero { at } => Answer::new(Code::NoRecord, at, 0, 0),
        WireFault::Long { at } => Answer::new(Code::NoRecord, at, 0, 0),
        WireFault::Utf8 { at } => Answer::new(Code::NoRecord, at, 0, 0),
        WireFault::Cut { at } => Answer::new(Code::NoRecord, at, 0, 0),
        WireFault::OutOfMemory => Answer::bare(Code::OutOfMemory),
    }
}

/// The operations whose records the bytes are, one after the other. Linear in the bytes.
///
/// # Errors
///
/// `NoRecord` with the offset of the first faulty field, or of the record that is cut off. `OutOfMemory` if an
/// allocation fails.
#[tactic(auto, using(crate::proofs::NoRecords::feed_refused, crate::proofs::NoRecords::finish_refused))]
pub fn operations_of(alloc: Global, bytes: &[u8]) -> Result<Vec<Operation>, Answer>
    ensures ok { IfOk result (λ ops. AreRecords bytes.now ops.items) }
    ensures err { IfErr result (λ a. a.code ≢ 0) }
    ensures cause { IfErr result (IsNoRecord bytes.now) }
{
    let mut ops = Vec::new(alloc);
    let mut reader = WireReader::new(alloc);
    if let Err(fault) = reader.feed(bytes, &mut ops) {
        return Err(refusal_of(fault));
    }
    match reader.finish() {
        Ok(()) => Ok(ops),
        Err(fault) => Err(refusal_of(fault)),
    }
}
