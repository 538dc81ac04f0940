//! Sixteen bytes of a text at a time.
ghost use Rattle.std.specs.Prelude.{◌≡◌, ◌+◌, ◌≤◌, ◌%◌, ◌^◌, take, drop, length, count_ones};
ghost use Rattle.text_dims.specs.Counts.{begins_char, begins_wide, is_newline, char_count, utf16_count, newline_count};
ghost use Rattle.text_dims.specs.Masks.{mask_of, first_set};

use std::simd::prelude::*;

/// How many bytes are looked at together.
pub const LANES: usize = 16;

/// What 16 bytes of a text are. In each mask bit i is that of byte i.
#[derive(Clone, Copy)]
pub struct LaneMasks {
    /// The bytes that begin a character.
    pub starts: u64,

    /// The bytes that begin a character of two UTF-16 units.
    pub wide: u64,

    /// The LFs.
    pub newlines: u64,
}

impl LaneMasks {
    /// The masks of the 16 bytes from `at` on.
    #[inline]
    pub fn of(bytes: &[u8], at: usize) -> LaneMasks
        requires { at + LANES ≤ length bytes.now }
        ensures starts { result.starts ≡ mask_of begins_char (take 16 (drop at bytes.now)) }
        ensures wide { result.wide ≡ mask_of begins_wide (take 16 (drop at bytes.now)) }
        ensures newlines { result.newlines ≡ mask_of is_newline (take 16 (drop at bytes.now)) }
    {
        let lanes = u8x16::from_slice(&bytes[at..]);
        LaneMasks {
            starts: starts(lanes),
            wide: wide(lanes),
            newlines: newlines(lanes),
        }
    }
}

#[inline(always)]
fn starts(lanes: u8x16) -> u64
    ensures { result ≡ mask_of begins_char lanes }
{
    (lanes.simd_lt(u8x16::splat(128)) | lanes.simd_ge(u8x16::splat(192))).to_bitmask()
}

#[inline(always)]
fn wide(lanes: u8x16) -> u64
    ensures { result ≡ mask_of begins_wide lanes }
{
    lanes.simd_ge(u8x16::splat(240)).to_bitmask()
}

#[inline(always)]
fn newlines(lanes: u8x16) -> u64
    ensures { result ≡ mask_of is_newline lanes }
{
    lanes.simd_eq(u8x16::splat(b'\n')).to_bitmask()
}

/// Some bytes of a text among which is no LF.
#[derive(Clone, Copy)]
pub struct Run {
    /// How many bytes they are.
    pub len: usize,

    /// How many characters they begin.
    pub chars: u64,

    /// How many UTF-16 units these have.
    pub units: u64,
}

/// The 16 bytes from `at` on, or those of them that stand before the first LF.
#[inline(always)]
pub fn run_at(bytes: &[u8], at: usize) -> Run
    requires { at + LANES ≤ length bytes.now }
    ensures few { result.len ≤ 16 }
    ensures row { newline_count (take result.len (drop at bytes.now)) ≡ 0 }
    ensures chars { result.chars ≡ char_count (take result.len (drop at bytes.now)) }
    ensures units { result.units ≡ utf16_count (take result.len (drop at bytes.now)) }
{
    let masks = LaneMasks::of(bytes, at);
    let len = lowest(masks.newlines);
    let chars = ones_below(masks.starts, len);
    Run {
        len,
        chars,
        units: chars + ones_below(masks.wide, len),
    }
}

// How many lanes come before the first whose bit is set, 16 where none is.
#[inline(always)]
fn lowest(mask: u64) -> usize
    ensures { result ≡ first_set mask 16 }
{
    if mask == 0 {
        LANES
    } else {
        mask.trailing_zeros() as usize
    }
}

// How many of the lowest bits are set.
#[inline(always)]
fn ones_below(mask: u64, len: usize) -> u64
    requires { len ≤ 16 }
    ensures value { result ≡ count_ones (mask % 2 ^ len) }
    ensures few { result ≤ 16 }
{
    u64::from((mask & ((1 << len) - 1)).count_ones())
}
