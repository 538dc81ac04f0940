//! A needle that is made ready to be looked for.
ghost use Rattle.std.specs.Prelude.{◌≡◌, ℕ, ◌+◌, ◌<◌, ◌≤◌, length, slice_index, IfOk};
ghost use Rattle.memchr.specs.Find.{FindsNeedle};
ghost use Rattle.snapshot_search.specs.Shifts.{AreFallbacks, IsFallback, Moves};

use crate::OutOfMemory;
use memchr::memmem::Finder;
use std::alloc::Global;
use std::marker::Model;

/// A needle with what a search for it needs. Contracts see it as its bytes, of which there is one at least.
#[derive(Drop)]
pub(crate) struct Needle<'n> {
    bytes: &'n [u8],
    finder: Finder<'n>,
    // How many bytes of the needle its first 1, 2, 3 .. bytes both begin and end with, of fewer than all.
    fallbacks: Vec<usize>,
}

impl<'n> Model for Needle<'n> {
    ghost use Rattle.std.specs.Prelude.{List, ℕ};

    ghost Value = { List ℕ };

    ghost view = { λ needle. needle.bytes.now };

    ghost use Rattle.snapshot_search.specs.Ready.{IsReady};

    ghost invariant = { λ needle. IsReady needle.bytes.now needle.finder needle.fallbacks.items };
}

impl<'n> Needle<'n> {
    /// Makes a needle ready. It takes time and memory as the needle's length.
    pub(crate) fn new(alloc: Global, bytes: &'n [u8]) -> Result<Needle<'n>, OutOfMemory>
        requires { 0 < length bytes.now }
        ensures { IfOk result (λ needle. needle ≡ bytes.now) }
    {
        let fallbacks = fallbacks_of(alloc, bytes)?;
        Ok(Needle {
            bytes,
            finder: Finder::new(bytes),
            fallbacks,
        })
    }

    /// How many bytes it has.
    pub(crate) fn len(&self) -> usize
        ensures len { result ≡ length self.now }
        ensures some { 0 < result }
    {
        self.bytes.len()
    }

    /// The first place in a piece of text at which it stands.
    pub(crate) fn first_in(&self, piece: &[u8]) -> Option<usize>
        ensures { FindsNeedle piece.now self.now 0 result }
    {
        self.finder.find(piece)
    }

    /// How many of its bytes stand up to a byte, where `matched` of them stood before it.
    pub(crate) fn next_match(&self, matched: usize, byte: u8) -> usize
        requires { matched < length self.now }
        ensures most { result ≤ matched + 1 }
        ensures moves { Moves self.now matched byte result }
    {
        next_match(self.bytes, &self.fallbacks, matched, byte)
    }

    /// How many of its bytes may stand up to the end of a match, as the front of one that overlaps it.
    pub(crate) fn overlap(&self) -> usize
        ensures { IsFallback self.now (length self.now) result }
    {
        self.fallbacks[self.bytes.len() - 1]
    }
}

// How many bytes of the needle stand up to a byte, where `matched` of them stood before it. `fallbacks` goes as far.
fn next_match(needle: &[u8], fallbacks: &[usize], matched: usize, byte: u8) -> usize
    requires within { matched < length needle.now }
    requires table { matched ≤ length fallbacks.now }
    requires fallbacks { AreFallbacks needle.now fallbacks.now }
    ensures most { result ≤ matched + 1 }
    ensures moves { Moves needle.now matched byte result }
{
    let mut kept = matched;
    while needle[kept] != byte {
        if kept == 0 {
            return 0;
        }
        kept = fallbacks[kept - 1];
    }
    kept + 1
}

// The fallbacks of the first 1, 2, 3 .. bytes of a needle.
fn fallbacks_of(alloc: Global, needle: &[u8]) -> Result<Vec<usize>, OutOfMemory>
    requires { 0 < length needle.now }
    ensures len { IfOk result (λ table. length table.items ≡ length needle.now) }
    ensures each { IfOk result (λ table. AreFallbacks needle.now table.items) }
{
    let mut table = Vec::with_capacity(alloc, needle.len())?;
    let mut matched = 0;
    table.push(matched)?;
    for i in 1..needle.len() {
        matched = next_match(needle, &table, matched, needle[i]);
        table.push(matched)?;
    }
    Ok(table)
}
