//! The top call of the program: the words of a command line and a session's bytes in, its report's bytes and a status
//! out.
//!
//! `run` does all that the program does. Its source and its sink are traits, which say what they mean by what they have
//! left or hold, where they know it, and by counts.
#![tactic(auto)]

mod beside;
mod laws;
mod sure;
mod text_query;
mod top;

pub use laws::{
    migrated_reports_alike, old_reports_stay, plain_with_workers, plain_without_queries,
    plain_without_workers, records_are_plain, refusals_are_plain,
};
pub use op_model::OutOfMemory;
pub use queries::Gate;
pub use session_io::{Failed, MemSink, MemSource, ReadCounts, Sink, Source, SureSink, SureSource};
pub use sure::run_on_bytes;
pub use top::{Status, run};
