//! Sources and sinks in memory, with calls that fail by a list, and some that never fail.
ghost use Rattle.std.specs.Prelude.{◌≡◌, ◌<◌, ◌≤◌, ◌+◌, ◌++◌, [], Some, None, drop, take, length, IfOk, vec_len, vec_capacity};

use crate::{Failed, OutOfMemory, ReadCounts, Sink, Source};
use std::alloc::Global;

/// A text in memory as a source.
#[derive(Drop)]
pub struct MemSource {
    bytes: Vec<u8>,
    at: usize,
    most: usize,
    failing: Vec<u64>,
    calls: u64,
    counts: ReadCounts,
    ghost within: { at ≤ vec_len bytes },
    ghost takes: { 0 < most },
}

impl MemSource {
    ghost use Rattle.session_io.specs.Memory.{source_left, source_counts};

    /// A source of these bytes that gives at most `most` of them a call, and fails at the calls listed, counted from 1.
    pub fn new(bytes: Vec<u8>, most: usize, failing: Vec<u64>) -> MemSource
        requires { 0 < most }
        ensures left { source_left result ≡ bytes.items }
        ensures counts { source_counts result ≡ record { given = 0; ends = 0; faults = 0 } }
    {
        MemSource {
            bytes,
            at: 0,
            most,
            failing,
            calls: 0,
            counts: ReadCounts::new(),
        }
    }

    /// What it has counted so far.
    pub fn counts(&self) -> ReadCounts
        ensures { result ≡ source_counts self.now }
    {
        self.counts
    }
}

impl Source for MemSource {
    ghost left = { λ s. Some (drop s.at s.bytes.items) };

    ghost given = { λ s. s.counts.given };

    ghost ends = { λ s. s.counts.ends };

    ghost faults = { λ s. s.counts.faults };

    fn read(&mut self, into: &mut [u8]) -> Result<usize, Failed> {
        self.calls = self.calls.saturating_add(1);
        if self.failing.contains(&self.calls) {
            self.counts.count_failure();
            return Err(Failed);
        }
        let count = copy_from(&self.bytes, self.at, into, self.most);
        self.at += count;
        self.counts.count_read(into.len(), count);
        Ok(count)
    }
}

// Copies the bytes from `at` on, at most `most` of them.
fn copy_from(bytes: &[u8], at: usize, into: &mut [u8], most: usize) -> usize
    requires within { at ≤ length bytes.now }
    requires some { 0 < most }
    ensures within { at + result ≤ length bytes.now }
    ensures room { result ≤ length into.new }
    ensures cut { drop at bytes.now ≡ take result into.new ++ drop (at + result) bytes.now }
    ensures end { result ≡ 0 → 0 < length into.new → drop (at + result) bytes.now ≡ [] }
{
    copy_front(&bytes[at..], into, most)
}

// Copies the first bytes of `rest`, at most that many.
fn copy_front(rest: &[u8], into: &mut [u8], most: usize) -> usize
    requires { 0 < most }
    ensures within { result ≤ length rest.now }
    ensures room { result ≤ length into.new }
    ensures bytes { take result into.new ≡ take result rest.now }
    ensures end { result ≡ 0 → 0 < length into.new → length rest.now ≡ 0 }
{
    let count = most.min(into.len()).min(rest.len());
    into[..count].copy_from_slice(&rest[..count]);
    count
}

/// A sink in memory.
#[derive(Drop)]
pub struct MemSink {
    bytes: Vec<u8>,
    room: usize,
    most: usize,
    failing: Vec<u64>,
    calls: u64,
    faults: u64,
    ghost within: { vec_len bytes ≤ room },
    ghost made: { room ≤ vec_capacity bytes },
    ghost takes: { 0 < most },
}

impl MemSink {
    ghost use Rattle.session_io.specs.Memory.{sink_bytes, sink_faults, sink_room, sink_most};

    /// A sink with room for this many bytes that takes at most `most` of them a call, and fails at the calls listed,
    /// counted from 1. A nonempty piece into full room is a failure too.
    pub fn new(
        alloc: Global,
        room: usize,
        most: usize,
        failing: Vec<u64>,
    ) -> Result<MemSink, OutOfMemory>
        requires { 0 < most }
        ensures written { IfOk result (λ s. sink_bytes s ≡ []) }
        ensures faults { IfOk result (λ s. sink_faults s ≡ 0) }
        ensures room { IfOk result (λ s. (sink_room s ≡ room) × (sink_most s ≡ most)) }
    {
        Ok(MemSink {
            bytes: Vec::with_capacity(alloc, room)?,
            room,
            most,
            failing,
            calls: 0,
            faults: 0,
        })
    }

    /// What was written.
    pub fn bytes(&self) -> &[u8]
        ensures { result.now ≡ sink_bytes self.now }
    {
        &self.bytes
    }

    /// How many writes failed.
    pub fn faults(&self) -> u64
        ensures { result ≡ sink_faults self.now }
    {
        self.faults
    }
}

impl Sink for MemSink {
    ghost written = { λ s. Some s.bytes.items };

    ghost faults = { λ s. s.faults };

    fn write(&mut self, piece: &[u8]) -> Result<usize, Failed> {
        self.calls = self.calls.saturating_add(1);
        let count = self.most.min(piece.len()).min(self.room - self.bytes.len());
        if self.failing.contains(&self.calls) || count == 0 && !piece.is_empty() {
            self.faults = self.faults.saturating_add(1);
            return Err(Failed);
        }
        match self.bytes.extend_from_slice(&piece[..count]) {
            Ok(()) => Ok(count),
            Err(OutOfMemory) => unreachable!(),
        }
    }
}

/// A text that never fails to be read.
#[derive(Drop)]
pub struct SureSource {
    bytes: Vec<u8>,
    at: usize,
    counts: ReadCounts,
    ghost within: { at ≤ vec_len bytes },
}

impl SureSource {
    ghost use Rattle.session_io.specs.Memory.{sure_left};

    /// A source of these bytes.
    pub fn new(bytes: Vec<u8>) -> SureSource
        ensures { sure_left result ≡ bytes.items }
    {
        SureSource {
            bytes,
            at: 0,
            counts: ReadCounts::new(),
        }
    }
}

impl Source for SureSource {
    ghost left = { λ s. Some (drop s.at s.bytes.items) };

    ghost given = { λ s. s.counts.given };

    ghost ends = { λ s. s.counts.ends };

    ghost faults = { λ _. 0 };

    fn read(&mut self, into: &mut [u8]) -> Result<usize, Failed> {
        let count = copy_from(&self.bytes, self.at, into, usize::MAX);
        self.at += count;
        self.counts.count_read(into.len(), count);
        Ok(count)
    }
}

/// A sink that takes each piece whole, and keeps none of it.
#[derive(Drop)]
pub struct SureSink;

impl Sink for SureSink {
    ghost written = { λ _. None };

    ghost faults = { λ _. 0 };

    fn write(&mut self, piece: &[u8]) -> Result<usize, Failed> {
        Ok(piece.len())
    }
}
