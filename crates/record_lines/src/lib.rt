//! Records as the lines of a session, and operations as records.
//!
//! [`unpack`] writes the operations of a stream of records as `op` and `uop` lines, which a session may have after its
//! header. [`pack`] makes the records of operations, each of a line of a session.
#![tactic(auto)]

mod fault;
mod laws;
mod lines;
mod packing;
mod unpacking;
mod words;

pub use fault::PackFault;
pub use laws::{
    lines_are_read, lines_are_session, records_unpack, unpacked_are_records, unpacks_to_one,
};
pub use op_model::OutOfMemory;
pub use packing::{pack, push_record};
pub use unpacking::unpack;
pub use words::{fault_line, long_line};
