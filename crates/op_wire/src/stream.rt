//! Records read one after the other.
ghost use Rattle.std.specs.Prelude.{◌≡◌, ◌++◌, ℕ, List, IfOk, Err};
ghost use Rattle.op_model.specs.declared.operation.Operation.{Operation};
ghost use Rattle.op_wire.specs.declared.fault.Word.{Word};
ghost use Rattle.op_wire.specs.Stream.{Appends, IsUnfinished, Halts};

use crate::fault::{Halt, ReadError, Stop};
use crate::reading::record_of;
use op_model::Operation;
use std::alloc::Global;

/// Appends the operations whose records the bytes begin with, and gives the rest. After an error the list has what it
/// had, and what was appended before.
pub(crate) fn records_of<'a>(
    alloc: Global,
    bytes: &'a [u8],
    into: &mut Vec<Operation>,
) -> Result<&'a [u8], Halt>
    ensures rest { IfOk result (λ rest. Appends bytes.now into.old.items into.new.items rest.now
        × IsUnfinished rest.now) }
    ensures bad { (w : Word) (n m : ℕ) → result ≡ Err (Halt.Bad w n m)
        → Halts bytes.now into.old.items into.new.items w n m }
    ensures kept { (ops : List Operation) × (into.new.items ≡ into.old.items ++ ops) }
{
    let mut rest = bytes;
    loop {
        match record_of(alloc, rest) {
            Ok((op, after)) => {
                into.push(op)?;
                rest = after;
            }
            Err(ReadError::Stopped(Stop::Short)) => return Ok(rest),
            Err(ReadError::Stopped(Stop::Bad(word, left))) => {
                return Err(Halt::Bad(word, left, rest.len()));
            }
            Err(ReadError::OutOfMemory) => return Err(Halt::OutOfMemory),
        }
    }
}
