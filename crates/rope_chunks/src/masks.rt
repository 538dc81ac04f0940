//! A chunk's bytes as masks.
ghost use Rattle.std.specs.Prelude.{◌≡◌, ℕ, ◌+◌, ◌<◌, ◌≤◌, Bool, List, ◌++◌, length, take};
ghost use Rattle.text_dims.specs.Counts.{begins_char, begins_wide, is_newline};
ghost use Rattle.text_dims.specs.Masks.{mask_of};
ghost use Rattle.rope_chunks.specs.Masks.{AreMasks};

use crate::chunk::Chunk;
use text_dims::{LANES, LaneMasks, is_char_start, units_at};

/// What the bytes of a chunk are. In each mask bit i is that of byte i, and no bit is set past the last byte.
#[derive(Clone, Copy, Debug, PartialEq, Eq)]
pub struct Masks {
    /// The bytes that begin a character.
    pub starts: u128,

    /// The bytes that begin a character of two UTF-16 units.
    pub wide: u128,

    /// The LFs.
    pub newlines: u128,
}

impl Chunk {
    /// Which bytes begin a character, which begin one of two UTF-16 units, and which are LFs. Does not allocate.
    pub fn masks(&self) -> Masks
        ensures starts { result.starts ≡ mask_of begins_char self.now }
        ensures wide { result.wide ≡ mask_of begins_wide self.now }
        ensures newlines { result.newlines ≡ mask_of is_newline self.now }
    {
        let bytes = self.as_str().as_bytes();
        let mut masks = Masks {
            starts: 0,
            wide: 0,
            newlines: 0,
        };
        let mut at = 0;
        while bytes.len() - at >= LANES {
            masks.push_lanes(bytes, at);
            at += LANES;
        }
        while at < bytes.len() {
            masks.push_byte(bytes, at);
            at += 1;
        }
        masks
    }
}

impl Masks {
    // Goes on by the 16 bytes from `at` on.
    #[inline(always)]
    fn push_lanes(&mut self, bytes: &[u8], at: usize)
        requires within { at + LANES ≤ length bytes.now }
        requires few { length bytes.now ≤ 128 }
        requires before { AreMasks self.old (take at bytes.now) }
        ensures { AreMasks self.new (take (at + 16) bytes.now) }
    {
        let lanes = LaneMasks::of(bytes, at);
        self.starts = with_bits(self.starts, at, lanes.starts);
        self.wide = with_bits(self.wide, at, lanes.wide);
        self.newlines = with_bits(self.newlines, at, lanes.newlines);
    }

    // Goes on by the byte at `at`.
    #[inline(always)]
    fn push_byte(&mut self, bytes: &[u8], at: usize)
        requires within { at < length bytes.now }
        requires few { length bytes.now ≤ 128 }
        requires before { AreMasks self.old (take at bytes.now) }
        ensures { AreMasks self.new (take (at + 1) bytes.now) }
    {
        let byte = bytes[at];
        self.starts = with_bits(self.starts, at, u64::from(is_char_start(byte)));
        self.wide = with_bits(self.wide, at, u64::from(units_at(byte) == 2));
        self.newlines = with_bits(self.newlines, at, u64::from(byte == b'\n'));
    }
}

// A mask of the first `at` bytes, with the bits of those that follow.
#[inline(always)]
fn with_bits(mask: u128, at: usize, bits: u64) -> u128
    requires { at < 128 }
    ensures { (p : ℕ → Bool) (xs ys : List ℕ) → length xs ≡ at → length xs + length ys ≤ 128
        → mask ≡ mask_of p xs → bits ≡ mask_of p ys → result ≡ mask_of p (xs ++ ys) }
{
    mask | (u128::from(bits) << at)
}
