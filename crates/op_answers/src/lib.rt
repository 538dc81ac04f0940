//! The answer to a taken operation: whether it is applied, waits, is a repeat or is refused; and the fault that a
//! local undo meets.
#![tactic(auto)]

mod found;
mod local_undo;
mod ranges;
mod twice;
mod verdict;

pub use found::open_replica;
pub use local_undo::listed_fault;
pub use op_model::{OpFault, OutOfMemory, UndoFault};
pub use verdict::{Verdict, judge};
