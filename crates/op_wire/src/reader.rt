//! Records that come in pieces.
ghost use Rattle.std.specs.Prelude.{◌≡◌, ◌+◌, ◌<◌, ◌≤◌, ◌^◌, length, IfErr, OnOk};
ghost use Rattle.op_wire.specs.Stream.{HasRead, FeedCause, Fed, fresh, bytes_fed, fault_at, finished};

use crate::fault::{Halt, WireFault, Word};
use crate::rest::Rest;
use crate::stream::records_of;
use op_model::Operation;
use std::alloc::Global;
use std::marker::Model;

/// Reads records from bytes that come in pieces, however they are cut.
///
/// Contracts see it as the offset in the stream at which its rest begins, the rest, which is the bytes after the last
/// whole record, and the fault that it answered, if any. It holds the rest alone, and no more than what has come: what
/// a record claims allocates nothing before it has come. After a fault it holds nothing.
///
/// ```text
/// let mut reader = WireReader::new(alloc);
/// let mut ops = Vec::new(alloc);
/// reader.feed(first_piece, &mut ops)?;
/// reader.feed(second_piece, &mut ops)?;
/// reader.finish()?;
/// ```
#[derive(Drop)]
pub struct WireReader {
    start: u64,
    rest: Rest,
    fault: Option<WireFault>,
}

impl Model for WireReader {
    ghost use Rattle.op_wire.specs.Stream.{Fed};

    ghost Value = { Fed };

    ghost view = { λ r. record { start = r.start; rest = r.rest; fault = r.fault } };
}

fn fault_of(word: Word, at: u64) -> WireFault
    ensures { result ≡ fault_at word at }
{
    match word {
        Word::Kind => WireFault::Kind { at },
        Word::Order => WireFault::Order { at },
        Word::Zero => WireFault::Zero { at },
        Word::Long => WireFault::Long { at },
        Word::Utf8 => WireFault::Utf8 { at },
    }
}

impl WireReader {
    /// A reader that has been fed nothing. Does not allocate.
    pub fn new(alloc: Global) -> WireReader
        ensures { result ≡ fresh }
    {
        WireReader {
            start: 0,
            rest: Rest::new(alloc),
            fault: None,
        }
    }

    /// The bytes that came after the last whole record. O(1); does not allocate.
    pub fn held(&self) -> &[u8]
        ensures { result.now ≡ self.now.rest }
    {
        self.rest.as_slice()
    }

    /// Takes the next piece of the stream, which may be empty, and appends the operations whose records are whole now.
    /// The rest and the piece together are their records and the new rest. How the stream is cut into pieces does not
    /// matter. The condition is that fewer than 2^64 bytes are fed to one reader. Linear in the piece, and in the rest
    /// where a record begins or ends in the piece.
    ///
    /// # Errors
    ///
    /// The first faulty field, as soon as all its bytes have come, with its offset in the stream: `Kind`, `Order`,
    /// `Zero`, `Long` or `Utf8`. The operations before it are appended. From then on each feed and `finish` answer the
    /// same fault, and nothing is appended. `OutOfMemory` if an allocation fails: the reader and the list are then as
    /// before, and the same piece may be fed again.
    pub fn feed(&mut self, piece: &[u8], into: &mut Vec<Operation>) -> Result<(), WireFault>
        requires { bytes_fed self.old + length piece.now < 2 ^ 64 }
        ensures ok { OnOk result
            (HasRead self.old piece.now into.old.items into.new.items self.new) }
        ensures fault { IfErr result
            (λ e. FeedCause e self.old piece.now into.old.items into.new.items self.new) }
        ensures fed { bytes_fed self.new ≤ bytes_fed self.old + length piece.now }
    {
        if let Some(fault) = self.fault {
            return Err(fault);
        }
        let alloc = self.rest.allocator();
        let held = self.rest.as_slice().len();
        let before = into.len();
        self.rest.append(piece)?;
        if self.rest.waits() {
            return Ok(());
        }
        let bytes = self.rest.as_slice();
        let end = self.start + bytes.len() as u64;
        match records_of(alloc, bytes, into) {
            Ok(rest) => {
                let read = bytes.len() - rest.len();
                self.rest.drop_front(read);
                self.rest.look();
                self.start += read as u64;
                Ok(())
            }
            Err(Halt::OutOfMemory) => {
                self.rest.truncate(held);
                into.truncate(before);
                Err(WireFault::OutOfMemory)
            }
            Err(Halt::Bad(word, left, size)) => {
                let fault = fault_of(word, end - left as u64);
                self.start = end - size as u64;
                self.rest = Rest::new(alloc);
                self.fault = Some(fault);
                Err(fault)
            }
        }
    }

    /// Says whether the stream may end here: whether all bytes fed were whole records. Does not allocate.
    ///
    /// # Errors
    ///
    /// The fault that a feed answered; otherwise `Cut`, with the offset of the unfinished record, exactly if bytes of
    /// one are held.
    pub fn finish(&self) -> Result<(), WireFault>
        ensures { result ≡ finished self.now }
    {
        if let Some(fault) = self.fault {
            return Err(fault);
        }
        if !self.rest.as_slice().is_empty() {
            return Err(WireFault::Cut { at: self.start });
        }
        Ok(())
    }
}
