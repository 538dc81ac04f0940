//! Sources and sinks: where bytes are read from and written to, with counts of what was given, ended and failed.
//!
//! [`Source`] and [`Sink`] are traits, which say what is left to be read and what was written, where they know it, and by
//! counts. Beside them are those in memory, some of whose calls fail by a list, and a whole read and a whole write.
#![tactic(auto)]

mod counts;
mod memory;
mod outside;
mod traffic;

pub use counts::ReadCounts;
pub use memory::{MemSink, MemSource, SureSink, SureSource};
pub use outside::{Failed, Sink, Source};
pub use std::alloc::AllocError as OutOfMemory;
pub use traffic::{InputFault, read_all, write_all};
