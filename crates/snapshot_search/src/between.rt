//! The places in a part of a rope's text at which a needle stands.
ghost use Rattle.std.specs.Prelude.{◌≡◌, ◌+◌, ◌<◌, ◌≤◌, ◌^◌, ℕ, length, take, IfOk, OnOk};
ghost use Rattle.std.specs.List.{concat};
ghost use Rattle.std.specs.Str.{IsCharBoundary};
ghost use Rattle.snapshot_search.specs.Starts.{starts_between};
ghost use Rattle.snapshot_search.specs.Progress.{Reads, Gathers, place_of};

use crate::OutOfMemory;
use crate::needle::Needle;
use crate::progress::Progress;
use rope_chunks::{Chunks, Rope};
use std::alloc::Global;

/// How many bytes of a text are searched at a time, where four needles are not more.
const WINDOW_BYTES: usize = 65_536;

/// The places from `from` on and below `to` at which the needle stands. `from` is a position.
///
/// The text is read from `from` on, and past `to` as far as a match reaches that begins before it.
pub(crate) fn find_between(
    alloc: Global,
    rope: &Rope,
    needle: &Needle<'_>,
    from: u64,
    to: u64,
) -> Result<Vec<u64>, OutOfMemory>
    requires start { IsCharBoundary rope.now from }
    requires order { from ≤ to }
    requires within { to ≤ length rope.now }
    ensures { IfOk result (λ found. found.items ≡ starts_between rope.now needle.now from to) }
{
    rope.known();
    let len = rope.len();
    let rest = rope.slice(alloc, from, len)?;
    let end = end_of(len, needle.len() as u64, to);
    let mut progress = Progress::new(alloc, from);
    read_chunks(alloc, &mut progress, needle, rest.chunks(), end - from)?;
    Ok(progress.found)
}

// Reads so many bytes of the chunks, by a window of the text: what is searched at a time is longer than a chunk.
fn read_chunks(
    alloc: Global,
    progress: &mut Progress,
    needle: &Needle<'_>,
    chunks: Chunks<'_>,
    count: u64,
) -> Result<(), OutOfMemory>
    requires matched { progress.old.matched < length needle.now }
    requires room { place_of progress.old + count < 2 ^ 63 }
    requires enough { count ≤ length (concat chunks) }
    ensures { OnOk result (Reads needle.now
        (take count (concat chunks.entry)) progress.old progress.new) }
{
    let most = WINDOW_BYTES.max(needle.len().saturating_mul(4));
    let mut window = Vec::new(alloc);
    let mut left = count;
    for chunk in chunks {
        if left == 0 {
            return progress.read(needle, &window);
        }
        let piece = front(chunk, left);
        gather(progress, needle, &mut window, piece, most)?;
        left -= piece.len() as u64;
    }
    progress.read(needle, &window)
}

// Puts a piece behind what is in the window, and reads the window where so many bytes or more are in it.
fn gather(
    progress: &mut Progress,
    needle: &Needle<'_>,
    window: &mut Vec<u8>,
    piece: &[u8],
    most: usize,
) -> Result<(), OutOfMemory>
    requires matched { progress.old.matched < length needle.now }
    requires room { place_of progress.old + length window.old.items + length piece.now < 2 ^ 63 }
    ensures { OnOk result (Gathers needle.now piece.now progress.old window.old.items progress.new
        window.new.items) }
{
    window.extend_from_slice(piece)?;
    if window.len() < most {
        return Ok(());
    }
    progress.read(needle, window)?;
    window.clear();
    Ok(())
}

// Where the matches end that begin below `to`, at the most.
fn end_of(len: u64, needle: u64, to: u64) -> u64
    requires some { 0 < needle }
    requires within { to ≤ len }
    ensures within { (to ≤ result) × (result ≤ len) × (result + 1 ≤ to + needle) }
    ensures reaches { (k : ℕ) → k < to → k + needle ≤ len → k + needle ≤ result }
{
    if len - to < needle {
        len
    } else {
        to + needle - 1
    }
}

// The bytes of a text, as many of them as are wanted at the most.
fn front(text: &str, most: u64) -> &[u8]
    ensures { result.now ≡ take most text.now }
{
    let bytes = text.as_bytes();
    if (bytes.len() as u64) < most {
        bytes
    } else {
        &bytes[..most as usize]
    }
}
