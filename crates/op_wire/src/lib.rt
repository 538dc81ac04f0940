//! Records of operations: bytes for files and sockets.
//!
//! [`encode`] makes the record of an operation, and a [`WireReader`] reads a stream of records, in whatever pieces it
//! comes. The format is in docs/RECORDS.md.
#![tactic(auto)]

mod encoding;
mod fault;
mod fields;
mod laws;
mod ranges;
mod reader;
mod reading;
mod rest;
mod scan;
mod skim;
mod stream;

pub use encoding::encode;
pub use fault::{EncodeFault, WireFault};
pub use laws::{
    cuts_do_not_matter, faults_stay, none_prefixes, one_reading, one_split, pieces_are_read,
    read_is_spelled, records_are_streams, spelled_is_read, stops_have_none, streams_are_read,
    streams_are_records, turns_agree, turns_join, versions_are_short,
};
pub use op_model::OutOfMemory;
pub use reader::WireReader;

fn sends<T: Send>(_value: &T) {}

fn shares<T: Sync>(_value: &T) {}

/// Readers can be sent to threads and shared by them.
pub fn crosses_threads(reader: &WireReader) {
    sends(reader);
    shares(reader);
}
