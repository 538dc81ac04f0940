//! How far a text was read, and what was found in it.
ghost use Rattle.std.specs.Prelude.{◌≡◌, ℕ, ◌+◌, ◌<◌, ◌≤◌, ◌^◌, ◌++◌, ◌∷◌, [], length, take, IfOk, OnOk};
ghost use Rattle.snapshot_search.specs.Shifts.{IsFallback};
ghost use Rattle.snapshot_search.specs.Progress.{Reads, place_of};

use crate::OutOfMemory;
use crate::needle::Needle;
use std::alloc::Global;

/// A search under way. The pieces of a text may be read as they come, in whatever sizes.
#[derive(Drop)]
pub(crate) struct Progress {
    // Where the bytes of the needle begin that are matched so far. No place before it is open.
    pub(crate) start: u64,
    // How many of them there are, up to where the text was read.
    pub(crate) matched: usize,
    // The places found, ascending.
    pub(crate) found: Vec<u64>,
}

impl Progress {
    /// The search that begins at a place.
    pub(crate) fn new(alloc: Global, start: u64) -> Progress
        ensures start { result.start ≡ start }
        ensures matched { result.matched ≡ 0 }
        ensures found { result.found.items ≡ [] }
    {
        Progress {
            start,
            matched: 0,
            found: Vec::new(alloc),
        }
    }

    /// Reads a piece of the text. The time is as the piece's length, however the needle is made.
    pub(crate) fn read(&mut self, needle: &Needle<'_>, piece: &[u8]) -> Result<(), OutOfMemory>
        requires matched { self.old.matched < length needle.now }
        requires room { place_of self.old + length piece.now < 2 ^ 64 }
        ensures { OnOk result (Reads needle.now piece.now self.old self.new) }
    {
        let mut at = 0;
        while at < piece.len() {
            at += self.read_front(needle, &piece[at..])?;
        }
        Ok(())
    }

    // Reads a piece as far as it is read in one way.
    fn read_front(&mut self, needle: &Needle<'_>, piece: &[u8]) -> Result<usize, OutOfMemory>
        requires matched { self.old.matched < length needle.now }
        requires some { 0 < length piece.now }
        requires room { place_of self.old + length piece.now < 2 ^ 64 }
        ensures on { IfOk result (λ n. (0 < n) × (n ≤ length piece.now)) }
        ensures reads { IfOk result (λ n. Reads needle.now (take n piece.now) self.old self.new) }
    {
        if self.matched == 0 {
            self.jump(needle, piece)
        } else {
            self.follow(needle, piece)
        }
    }

    // Reads a piece up to the end of the first match in it, or whole where there is none. Nothing is matched before it.
    fn jump(&mut self, needle: &Needle<'_>, piece: &[u8]) -> Result<usize, OutOfMemory>
        requires matched { self.old.matched ≡ 0 }
        requires some { 0 < length piece.now }
        requires room { place_of self.old + length piece.now < 2 ^ 64 }
        ensures on { IfOk result (λ n. (0 < n) × (n ≤ length piece.now)) }
        ensures reads { IfOk result (λ n. Reads needle.now (take n piece.now) self.old self.new) }
    {
        match needle.first_in(piece) {
            Some(place) => {
                self.hit(needle, self.start + place as u64)?;
                Ok(place + needle.len())
            }
            None => {
                let passed = piece.len().saturating_sub(needle.len() - 1);
                self.start += passed as u64;
                self.step_along(needle, &piece[passed..])?;
                Ok(piece.len())
            }
        }
    }

    // Reads a piece up to where nothing is matched, or whole.
    fn follow(&mut self, needle: &Needle<'_>, piece: &[u8]) -> Result<usize, OutOfMemory>
        requires matched { self.old.matched < length needle.now }
        requires some { 0 < length piece.now }
        requires room { place_of self.old + length piece.now < 2 ^ 64 }
        ensures on { IfOk result (λ n. (0 < n) × (n ≤ length piece.now)) }
        ensures reads { IfOk result (λ n. Reads needle.now (take n piece.now) self.old self.new) }
    {
        let mut at = 0;
        while at < piece.len() {
            self.step(needle, piece[at])?;
            at += 1;
            if self.matched == 0 {
                break;
            }
        }
        Ok(at)
    }

    // Reads a piece byte by byte.
    fn step_along(&mut self, needle: &Needle<'_>, piece: &[u8]) -> Result<(), OutOfMemory>
        requires matched { self.old.matched < length needle.now }
        requires room { place_of self.old + length piece.now < 2 ^ 64 }
        ensures { OnOk result (Reads needle.now piece.now self.old self.new) }
    {
        for byte in piece {
            self.step(needle, *byte)?;
        }
        Ok(())
    }

    // Reads one byte.
    fn step(&mut self, needle: &Needle<'_>, byte: u8) -> Result<(), OutOfMemory>
        requires matched { self.old.matched < length needle.now }
        requires room { place_of self.old + 1 < 2 ^ 64 }
        ensures { OnOk result (Reads needle.now (byte ∷ []) self.old self.new) }
    {
        let matched = needle.next_match(self.matched, byte);
        let start = self.start + (self.matched + 1 - matched) as u64;
        if matched == needle.len() {
            return self.hit(needle, start);
        }
        self.start = start;
        self.matched = matched;
        Ok(())
    }

    // Goes past a place where the whole needle stands.
    fn hit(&mut self, needle: &Needle<'_>, start: u64) -> Result<(), OutOfMemory>
        requires { start + length needle.now < 2 ^ 64 }
        ensures found { OnOk result (self.new.found.items ≡ self.old.found.items ++ start ∷ []) }
        ensures overlap { OnOk result (IsFallback needle.now (length needle.now) self.new.matched) }
        ensures place { OnOk result (place_of self.new ≡ start + length needle.now) }
    {
        self.found.push(start)?;
        self.matched = needle.overlap();
        self.start = start + (needle.len() - self.matched) as u64;
        Ok(())
    }
}
