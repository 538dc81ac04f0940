//! The pieces of an edit, as C hands them in: ranges, and the bytes of all new texts in a row.
ghost use Rattle.std.specs.Prelude.{◌≡◌, ◌⊎◌, ◌++◌, [], ◌∷◌, IfErr, IfOk, OnOk, Ok, Err};
ghost use Rattle.c_values.specs.Answers.{out_of_memory};
ghost use Rattle.c_values.specs.Pieces.{change_piece, change_text, pieces_from, HasText};

use crate::answer::{Answer, Code};
use crate::texts::utf8_of;
use op_model::{OutOfMemory, Piece, Text};
use std::alloc::Global;

/// A range of a text, and how long the text is that takes its place.
#[repr(C)]
#[derive(Clone, Copy)]
pub struct Change {
    /// The start of the range, in bytes.
    pub start: u64,
    /// The end of the range, in bytes, which it does not include.
    pub end: u64,
    /// The length of the new text, in bytes.
    pub text_len: u64,
}

// The new text of a change, with which the bytes begin, and the bytes after it.
fn text_of<'a>(change: &Change, bytes: &'a [u8]) -> Result<(&'a str, &'a [u8]), Answer>
    ensures ok { IfOk result (λ x. HasText change.now bytes.now x.0.now x.1.now) }
    ensures err { IfErr result (λ a. change_text change.now bytes.now ≡ Err a) }
{
    if (bytes.len() as u64) < change.text_len {
        return Err(Answer::bare(Code::OutOfRange));
    }
    let (front, rest) = bytes.split_at(change.text_len as usize);
    match utf8_of(front) {
        Some(text) => Ok((text, rest)),
        None => Err(Answer::bare(Code::NotUtf8)),
    }
}

fn add_piece(
    alloc: Global,
    pieces: &mut Vec<Piece>,
    change: &Change,
    text: &str,
) -> Result<(), OutOfMemory>
    ensures { OnOk result (pieces.new.items
        ≡ pieces.old.items ++ change_piece change.now text.now ∷ []) }
{
    let text = Text::new(String::from_str(alloc, text)?);
    pieces.push(Piece::new(change.start, change.end, text))?;
    Ok(())
}

/// The pieces of changes whose new texts stand in a row. Linear in the changes and the texts.
///
/// # Errors
///
/// `OutOfRange` where the texts have fewer bytes than the changes say, or more; `NotUtf8` where one of them is not
/// UTF-8; the first of these. `OutOfMemory` if an allocation fails.
pub fn pieces_of(alloc: Global, changes: &[Change], texts: &[u8]) -> Result<Vec<Piece>, Answer>
    ensures ok { IfOk result (λ ps. pieces_from changes.now texts.now ≡ Ok ps.items) }
    ensures err { IfErr result (λ a. (pieces_from changes.now texts.now ≡ Err a)
        ⊎ (a ≡ out_of_memory)) }
{
    let mut pieces = Vec::new(alloc);
    let mut rest = texts;
    for change in changes {
        let (text, after) = text_of(change, rest)?;
        if add_piece(alloc, &mut pieces, change, text).is_err() {
            return Err(Answer::bare(Code::OutOfMemory));
        }
        rest = after;
    }
    if !rest.is_empty() {
        return Err(Answer::bare(Code::OutOfRange));
    }
    Ok(pieces)
}
