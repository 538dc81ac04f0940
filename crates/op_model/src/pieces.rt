//! Tests of pieces that need no text, or only its length.
ghost use Rattle.std.specs.Prelude.{◌≡◌};
ghost use Rattle.std.specs.List.{position};
ghost use Rattle.op_model.specs.Domains.{AreUtf8};
ghost use Rattle.op_model.specs.Operations.{text_total};
ghost use Rattle.op_model.specs.Edits.{is_past, is_reversed, overlap_from};

use crate::Piece;

/// The index of the first piece that starts past its end. Linear in the pieces; does not allocate.
pub fn first_reversed(pieces: &[Piece]) -> Option<usize>
    ensures { result ≡ position is_reversed pieces.now }
{
    pieces.iter().position(|p| p.end < p.start)
}

/// The index of the first piece that starts before the end of the one before it. Linear in the pieces; does not
/// allocate.
pub fn first_overlap(pieces: &[Piece]) -> Option<usize>
    ensures { result ≡ overlap_from 0 0 pieces.now }
{
    let mut at = 0;
    for (i, p) in pieces.iter().enumerate() {
        if p.start < at {
            return Some(i);
        }
        at = p.end;
    }
    None
}

/// The index of the first piece that ends past a text of `len` bytes. Linear in the pieces; does not allocate.
pub fn first_past(len: u64, pieces: &[Piece]) -> Option<usize>
    ensures { result ≡ position (is_past len) pieces.now }
{
    pieces.iter().position(|p| len < p.end)
}

/// The most bytes that all new texts of an operation have together.
pub const TEXT_LIMIT: u128 = 65_536;

/// The number of bytes of all new texts. Linear in the pieces; does not allocate. For callers a clause says that the
/// texts are UTF-8.
pub fn text_total(pieces: &[Piece]) -> u128
    ensures total { result ≡ text_total pieces.now }
    ensures utf8 { AreUtf8 pieces.now }
{
    let mut sum = 0u128;
    for p in pieces {
        sum += p.text.as_str().len() as u128;
    }
    sum
}
