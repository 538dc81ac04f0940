//! The lines for streams and for operations that are refused.
ghost use Rattle.std.specs.Prelude.{◌≡◌, string_bytes, IfOk};
ghost use Rattle.record_lines.specs.Words.{fault_line, long_line};

use op_model::OutOfMemory;
use op_wire::WireFault;
use std::alloc::Global;

/// The line for a stream with that fault, with its line feed: the offset of the faulty field, or of the record that is
/// cut off, and the word of the fault.
///
/// # Errors
///
/// `OutOfMemory` if an allocation fails, and if the fault is `OutOfMemory`, since a stream has no such fault.
#[tactic(auto, unfolding(crate::specs::Words::fault_line))]
pub fn fault_line(alloc: Global, fault: WireFault) -> Result<String, OutOfMemory>
    ensures { IfOk result (λ s. string_bytes s ≡ fault_line fault) }
{
    match fault {
        WireFault::Kind { at } => format!(in alloc; "record at {at}: kind\n"),
        WireFault::Order { at } => format!(in alloc; "record at {at}: order\n"),
        WireFault::Zero { at } => format!(in alloc; "record at {at}: zero\n"),
        WireFault::Long { at } => format!(in alloc; "record at {at}: long\n"),
        WireFault::Utf8 { at } => format!(in alloc; "record at {at}: utf8\n"),
        WireFault::Cut { at } => format!(in alloc; "record at {at}: cut\n"),
        WireFault::OutOfMemory => Err(OutOfMemory),
    }
}

/// The line for a session in which the operation of this line is too long for a record, with its line feed.
///
/// # Errors
///
/// `OutOfMemory` if an allocation fails.
#[tactic(auto, unfolding(crate::specs::Words::long_line))]
pub fn long_line(alloc: Global, line: u64) -> Result<String, OutOfMemory>
    ensures { IfOk result (λ s. string_bytes s ≡ long_line line) }
{
    format!(in alloc; "session line {line}: long\n")
}
