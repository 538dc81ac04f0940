//! Texts as they enter a buffer, by what it does with line endings.
ghost use Rattle.std.specs.Prelude.{◌≡◌, true, false, length, string_bytes, IfOk};
ghost use Rattle.std.specs.List.{list_any};
ghost use Rattle.op_model.specs.Operations.{text_total};
ghost use Rattle.op_model.specs.Rules.{has_return, lf, pieces_under, text_under};
ghost use Rattle.op_model.specs.declared.endings.Endings.TheVariants.{Lf};
ghost use Rattle.text_buffer.specs.Entering.{is_rewritten};

use crate::OutOfMemory;
use op_model::{Endings, Piece, Text, lf, lf_len, text_total};
use std::alloc::Global;

/// The number of bytes that a text has once it has entered. Linear in the text under `Lf`, constant time under `AsIs`;
/// does not allocate.
pub fn entered_len(endings: Endings, text: &str) -> usize
    ensures { result ≡ length (text_under endings text.now) }
{
    match endings {
        Endings::AsIs => text.len(),
        Endings::Lf => lf_len(text),
    }
}

/// A text as it enters. Linear in the text; allocates once.
///
/// # Errors
///
/// `OutOfMemory` if an allocation fails.
pub fn entered_text(alloc: Global, endings: Endings, text: &str) -> Result<String, OutOfMemory>
    ensures { IfOk result (λ t. string_bytes t ≡ text_under endings text.now) }
{
    if stays(endings, text) {
        return String::from_str(alloc, text);
    }
    lf(alloc, text)
}

// Whether a text enters as it is.
fn stays(endings: Endings, text: &str) -> bool
    ensures stays { result ≡ true → text_under endings text.now ≡ text.now }
    ensures changes { result ≡ false → text_under endings text.now ≡ lf text.now }
{
    match endings {
        Endings::AsIs => true,
        Endings::Lf => !text.contains('\r'),
    }
}

/// Whether one of the texts enters changed, which is so under `Lf` if it has a CR. Linear in the texts; does not
/// allocate.
pub fn is_rewritten(endings: Endings, pieces: &[Piece]) -> bool
    ensures { result ≡ is_rewritten endings pieces.now }
{
    match endings {
        Endings::AsIs => false,
        Endings::Lf => have_return(pieces),
    }
}

fn have_return(pieces: &[Piece]) -> bool
    ensures { result ≡ list_any has_return pieces.now }
{
    pieces.iter().any(has_return)
}

// Whether the text of a piece has a CR.
fn has_return(piece: &Piece) -> bool
    ensures { result ≡ has_return piece.now }
{
    piece.text.as_str().contains('\r')
}

// The number of bytes that all texts have once they have entered under `Lf`.
fn lf_total(pieces: &[Piece]) -> u128
    ensures { result ≡ text_total (pieces_under Lf pieces.now) }
{
    let mut sum = 0u128;
    for p in pieces {
        sum += lf_len(p.text.as_str()) as u128;
    }
    sum
}

/// The number of bytes that all texts have once they have entered; `rewrites` says whether one of them enters changed.
/// Linear in the texts; does not allocate.
pub fn entered_total(endings: Endings, pieces: &[Piece], rewrites: bool) -> u128
    requires { rewrites ≡ is_rewritten endings pieces.now }
    ensures { result ≡ text_total (pieces_under endings pieces.now) }
{
    if rewrites {
        return lf_total(pieces);
    }
    text_total(pieces)
}

/// The pieces as they enter under `Lf`, one text at a time. Linear in the texts.
///
/// # Errors
///
/// `OutOfMemory` if an allocation fails.
pub fn lf_pieces(alloc: Global, pieces: &[Piece]) -> Result<Vec<Piece>, OutOfMemory>
    ensures { IfOk result (λ ps. ps.items ≡ pieces_under Lf pieces.now) }
{
    let mut entered = Vec::with_capacity(alloc, pieces.len())?;
    for p in pieces {
        entered.push(Piece {
            start: p.start,
            end: p.end,
            text: Text::new(lf(alloc, p.text.as_str())?),
        })?;
    }
    Ok(entered)
}
