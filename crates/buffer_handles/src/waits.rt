//! What waits, and what was refused of it.
ghost use Rattle.std.specs.Prelude.{◌≡◌, ◌++◌, ◌∷◌, [], IfOk, OnOk, length, map};
ghost use Rattle.c_values.specs.Answers.{IsAnswer, IsRead};
ghost use Rattle.c_values.specs.Refusals.{refusal};
ghost use Rattle.c_values.specs.Room.{over};
ghost use Rattle.c_values.specs.Stamps.{stamp};
ghost use Rattle.text_buffer.specs.Outcomes.{pair_of};
ghost use Rattle.buffer_handles.specs.Waiting.{flat_stamp, refused_answer, waiting_answer};

use c_values::{Answer, Code, Refusal, Stamp, write_front};
use deferred_ops::Deferred;
use lamport_clock::Lamport;
use std::alloc::Global;
use text_buffer::{Buffer, OutOfMemory, Refused};

fn push_stamp(stamps: &mut Vec<Stamp>, t: Lamport) -> Result<(), OutOfMemory>
    ensures { OnOk result (stamps.new.items ≡ stamps.old.items ++ stamp t ∷ []) }
{
    stamps.push(Stamp::of(t))?;
    Ok(())
}

// The stamps of what waits, the least first.
fn stamps_of_waiting(alloc: Global, waiting: &Deferred) -> Result<Vec<Stamp>, OutOfMemory>
    ensures { IfOk result (λ stamps. stamps.items ≡ map flat_stamp waiting.now) }
{
    let mut stamps = Vec::new(alloc);
    let mut last = None;
    let len = waiting.len();
    while (stamps.len() as u64) < len {
        match waiting.after(last) {
            Some(op) => {
                last = Some(op.stamp());
                push_stamp(&mut stamps, op.stamp())?;
            }
            None => unreachable!(),
        }
    }
    Ok(stamps)
}

/// Writes the stamps of the operations that wait, the least first, as many as fit. The answer has their number. Linear
/// in them, and a logarithmic look-up for each; allocates.
///
/// # Errors
///
/// `OutOfMemory` if an allocation fails.
pub fn write_waiting(alloc: Global, buffer: &Buffer, into: &mut [Stamp]) -> Answer
    ensures answer { IsAnswer (waiting_answer buffer.now (length into.old)) result }
    ensures written { IsRead result → into.new ≡ over (map flat_stamp buffer.now.waiting) into.old }
{
    match stamps_of_waiting(alloc, buffer.deferred()) {
        Ok(stamps) => write_front(&stamps, into),
        Err(_) => Answer::bare(Code::OutOfMemory),
    }
}

// The refusals, in their order.
fn refusals_of(alloc: Global, refused: &[Refused]) -> Result<Vec<Refusal>, OutOfMemory>
    ensures { IfOk result (λ made. made.items ≡ map refusal (map pair_of refused.now)) }
{
    let mut made = Vec::with_capacity(alloc, refused.len())?;
    for one in refused {
        made.push(Refusal::of(one.stamp, one.fault))?;
    }
    Ok(made)
}

/// Writes which of the operations that waited were refused at their turn, in the order of their turns, as many as fit.
/// The answer has their number. Linear in them; allocates once.
///
/// # Errors
///
/// `OutOfMemory` if an allocation fails.
pub fn write_refused(alloc: Global, buffer: &Buffer, into: &mut [Refusal]) -> Answer
    ensures answer { IsAnswer (refused_answer buffer.now (length into.old)) result }
    ensures written { IsRead result → into.new ≡ over (map refusal buffer.now.refused) into.old }
{
    match refusals_of(alloc, buffer.refused()) {
        Ok(refusals) => write_front(&refusals, into),
        Err(_) => Answer::bare(Code::OutOfMemory),
    }
}
