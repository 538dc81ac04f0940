//! Operations as records.
ghost use Rattle.std.specs.Prelude.{◌≡◌, ◌++◌, map, false, Ok, IfErr, IfOk, OnErr, OnOk};
ghost use Rattle.op_wire.specs.Spelling.{spelling};
ghost use Rattle.record_lines.specs.Packing.{PackCause, PushCause, is_long, records_of};

use crate::fault::PackFault;
use op_model::Operation;
use op_wire::{EncodeFault, encode};
use std::alloc::Global;

/// Appends the record of an operation, which a line of a session made. Linear in the record, which is made apart and
/// then copied.
///
/// # Errors
///
/// `Long` with the line exactly if the operation is too long for a record; `OutOfMemory` if it is not and an allocation
/// fails. Nothing is appended then.
pub fn push_record(
    alloc: Global,
    out: &mut Vec<u8>,
    line: u64,
    operation: &Operation,
) -> Result<(), PackFault>
    ensures ok { OnOk result (out.new.items ≡ out.old.items ++ spelling operation.now) }
    ensures short { OnOk result (is_long operation.now ≡ false) }
    ensures fault { IfErr result (λ e. PushCause e line operation.now) }
    ensures err { OnErr result (out.new.items ≡ out.old.items) }
{
    match encode(alloc, operation) {
        Ok(record) => {
            out.extend_from_slice(record.as_slice())?;
            Ok(())
        }
        Err(EncodeFault::Long(_)) => Err(PackFault::Long { line }),
        Err(EncodeFault::OutOfMemory) => Err(PackFault::OutOfMemory),
    }
}

/// The records of operations, in their order, each operation with the number of the line that made it. Linear in the
/// records.
///
/// # Errors
///
/// `Long` exactly if an operation is too long for a record, with the line of the first; `OutOfMemory` if an allocation
/// fails.
pub fn pack(alloc: Global, operations: &[(u64, &Operation)]) -> Result<Vec<u8>, PackFault>
    ensures ok { IfOk result (λ v. records_of (map (λ p. (p.0, p.1.now)) operations.now)
        ≡ Ok v.items) }
    ensures fault { IfErr result (λ e. PackCause e (map (λ p. (p.0, p.1.now)) operations.now)) }
{
    let mut out = Vec::new(alloc);
    for &(line, operation) in operations {
        push_record(alloc, &mut out, line, operation)?;
    }
    Ok(out)
}
