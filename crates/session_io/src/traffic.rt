//! Reading a source to its end, and writing a text whole.
ghost use Rattle.std.specs.Prelude.{◌≡◌, ◌<◌, ◌≤◌, ◌+◌, ◌^◌, ℕ, List, length, IfOk, IfSome, OnOk, OnErr, IsErrOf, vec_len};
ghost use Rattle.std.specs.Io.KnownBytes.{Appends};
ghost use Rattle.session_io.specs.Causes.{HasCause, Rose, RoseBy};
ghost use Rattle.session_io.specs.Traffic.{AppendsFront, Counts, Had, Moves, WasRead};
ghost use Rattle.session_io.specs.declared.traffic.InputFault.{InputFault};

use crate::{Failed, OutOfMemory, Sink, Source};
use std::alloc::{AllocFailed, Global};

/// How many bytes the source is asked for at a time.
const PIECE: usize = 65_536;

/// Why an input is not read whole.
#[derive(Clone, Copy, Debug, PartialEq, Eq)]
pub enum InputFault {
    Failed,
    TooLarge,
    OutOfMemory,
}

impl From<Failed> for InputFault {
    ghost from_gives = { λ _ e. e ≡ InputFault.Failed };

    fn from(_: Failed) -> Self {
        InputFault::Failed
    }
}

impl From<OutOfMemory> for InputFault {
    ghost from_gives = { λ _ e. e ≡ InputFault.OutOfMemory };

    fn from(_: OutOfMemory) -> Self {
        InputFault::OutOfMemory
    }
}

// The contract keeps the contents from the callers: written out they would be as many zeros.
fn buffer(alloc: Global, size: usize) -> Result<Vec<u8>, OutOfMemory>
    ensures { IfOk result (λ v. vec_len v ≡ size) }
{
    vec![in alloc; 0u8; size]
}

/// Reads a piece, and adds it to `all`.
fn read_piece<I: Source>(
    src: &mut I,
    piece: &mut [u8],
    all: &mut Vec<u8>,
) -> Result<usize, InputFault>
    requires { 0 < length piece.old }
    ensures ok { IfOk result (λ n. Moves (I.left src.old)
        (I.left src.new) all.old.items all.new.items n) }
    ensures counts { IfOk result (λ n. Counts (I.given src.old) (I.given src.new) (I.ends src.old)
        (I.ends src.new) (length piece.old) n) }
    ensures within { IfOk result (λ n. n ≤ length piece.old) }
    ensures large { IsErrOf result InputFault.TooLarge → ⊥ }
    ensures failed { IsErrOf result InputFault.Failed → Rose (I.faults src.old) (I.faults src.new) }
    ensures later { I.faults src.old ≤ I.faults src.new }
    ensures bounded { I.given src.new ≤ I.given src.old + length piece.old }
{
    let count = src.read(piece)?;
    all.extend_from_slice(&piece[..count])?;
    Ok(count)
}

/// All that the source has left, at most `limit` bytes. No more than one byte past the limit is taken.
///
/// # Errors
///
/// [`InputFault::TooLarge`] if there are more bytes, [`InputFault::Failed`] if a read fails, or `OutOfMemory`.
pub fn read_all<I: Source>(alloc: Global, src: &mut I, limit: usize) -> Result<Vec<u8>, InputFault>
    ensures whole { IfOk result (λ v. WasRead (I.left src.old) (I.left src.new) (I.given src.old)
        (I.given src.new) (I.ends src.old) (I.ends src.new) v.items) }
    ensures small { IfOk result (λ v. length v.items ≤ limit) }
    ensures large { IsErrOf result InputFault.TooLarge
        → (input : List ℕ) × Had (I.left src.old) input × (limit < length input) }
    ensures passed { IsErrOf result InputFault.TooLarge
        → RoseBy (limit + 1) (I.given src.old) (I.given src.new) }
    ensures failed { IsErrOf result InputFault.Failed → Rose (I.faults src.old) (I.faults src.new) }
    ensures later { I.faults src.old ≤ I.faults src.new }
    ensures bounded { I.given src.new ≤ I.given src.old + (limit + 1) }
{
    let mut all = Vec::new(alloc);
    let mut piece = buffer(alloc, PIECE)?;
    while all.len() <= limit {
        let room = (limit - all.len()).min(PIECE - 1) + 1;
        let count = read_piece(src, &mut piece[..room], &mut all)?;
        if count == 0 {
            return Ok(all);
        }
    }
    Err(InputFault::TooLarge)
}

/// Writes the text to its end.
///
/// # Errors
///
/// [`Failed`] if a write fails. A prefix of the text is then written.
pub fn write_all<O: Sink>(out: &mut O, text: &[u8]) -> Result<(), Failed>
    ensures ok { OnOk result (Appends (O.written out.old) (O.written out.new) text.now) }
    ensures err { OnErr result (AppendsFront (O.written out.old) (O.written out.new) text.now) }
    ensures cause { HasCause (O.faults out.old) (O.faults out.new) result }
{
    let mut done = 0;
    while done < text.len() {
        done += out.write(&text[done..])?;
    }
    Ok(())
}
