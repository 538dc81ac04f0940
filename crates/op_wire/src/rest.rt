//! The bytes of an unfinished record, and how far they were looked at.
ghost use Rattle.std.specs.Prelude.{◌≡◌, ◌≤◌, ◌++◌, List, [], length, drop, take, true, OnOk, OnErr};
ghost use Rattle.op_wire.specs.Stream.{IsUnfinished};

use crate::scan::{Stage, scan};
use op_model::OutOfMemory;
use std::alloc::Global;
use std::marker::Model;

/// The bytes after the last whole record. Contracts see them as their list.
#[derive(Drop)]
pub(crate) struct Rest {
    bytes: Vec<u8>,
    // Where the element begins that was looked at last, and what it is.
    at: usize,
    stage: Stage,
}

impl Model for Rest {
    ghost use Rattle.std.specs.Prelude.{List, ℕ, ◌≤◌, length, drop};
    ghost use Rattle.op_wire.specs.Stages.{IsSeen};

    ghost Value = { List ℕ };

    ghost view = { λ h. h.bytes.items };

    ghost invariant = { λ h. IsSeen h.bytes.items h.at h.stage };
}

impl Rest {
    pub(crate) fn new(alloc: Global) -> Rest
        ensures { result ≡ [] }
    {
        Rest {
            bytes: Vec::new(alloc),
            at: 0,
            stage: Stage::Start,
        }
    }

    pub(crate) fn allocator(&self) -> Global {
        *self.bytes.allocator()
    }

    pub(crate) fn as_slice(&self) -> &[u8]
        ensures { result.now ≡ self.now }
    {
        self.bytes.as_slice()
    }

    pub(crate) fn append(&mut self, piece: &[u8]) -> Result<(), OutOfMemory>
        ensures ok { OnOk result (self.new ≡ self.old ++ piece.now) }
        ensures err { OnErr result (self.new ≡ self.old) }
    {
        self.bytes.extend_from_slice(piece)?;
        Ok(())
    }

    /// Goes on to the element that is not whole yet. Where there is one, the bytes are unfinished; otherwise they may
    /// have a whole record, or a faulty field.
    pub(crate) fn look(&mut self) -> bool
        ensures same { self.new ≡ self.old }
        ensures unfinished { result ≡ true → IsUnfinished self.old }
    {
        let bytes = self.bytes.as_slice();
        let (_, ahead) = bytes.split_at(self.at);
        match scan(self.stage, ahead) {
            Some((stage, rest)) => {
                self.at = bytes.len() - rest.len();
                self.stage = stage;
                true
            }
            None => false,
        }
    }

    /// Goes on, if the bytes were looked at before.
    pub(crate) fn waits(&mut self) -> bool
        ensures same { self.new ≡ self.old }
        ensures unfinished { result ≡ true → IsUnfinished self.old }
    {
        if self.at == 0 {
            return false;
        }
        self.look()
    }

    /// Keeps the first bytes, which are looked at from the front again.
    pub(crate) fn truncate(&mut self, count: usize)
        ensures { self.new ≡ take count self.old }
    {
        self.bytes.truncate(count);
        self.at = 0;
        self.stage = Stage::Start;
    }

    /// Drops the first bytes. Those that are left are looked at from their front. Linear in them, and O(1) if none is
    /// dropped; does not allocate.
    pub(crate) fn drop_front(&mut self, count: usize)
        requires { count ≤ length self.old }
        ensures { self.new ≡ drop count self.old }
    {
        if count > 0 {
            let left = self.bytes.len() - count;
            self.bytes.copy_within(count.., 0);
            self.bytes.truncate(left);
            self.at = 0;
            self.stage = Stage::Start;
        }
    }
}
