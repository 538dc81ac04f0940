//! Line endings: what a buffer does with them, and texts as they enter it.
ghost use Rattle.std.specs.Prelude.{◌≡◌, ◌≤◌, ◌<◌, ◌∷◌, ◌++◌, true, length, string_bytes, IfOk, IfNone, IfSome};
ghost use Rattle.std.specs.List.{position};
ghost use Rattle.op_model.specs.Rules.{lf, lf_after, has_return, rule_fault};

use crate::{OpFault, Operation, OutOfMemory, Piece};
use std::alloc::Global;

/// What a buffer does with the line endings of the texts that enter it.
#[derive(Clone, Copy, Debug, PartialEq, Eq)]
pub enum Endings {
    /// Texts enter unchanged.
    AsIs,
    /// Each CR LF, and each other CR, becomes one LF.
    Lf,
}

/// The number of bytes that a text has once each CR LF, and each other CR, is one LF. Linear in the text; does not
/// allocate.
pub fn lf_len(text: &str) -> usize
    ensures { result ≡ length (lf text.now) }
{
    let mut len = 0;
    let mut after_return = false;
    for b in text.as_bytes() {
        if !after_return || *b != b'\n' {
            len += 1;
        }
        after_return = *b == b'\r';
    }
    len
}

/// A text with each CR LF, and each other CR, as one LF. Linear in the text; allocates once.
///
/// # Errors
///
/// `OutOfMemory` if an allocation fails.
pub fn lf(alloc: Global, text: &str) -> Result<String, OutOfMemory>
    ensures { IfOk result (λ t. string_bytes t ≡ lf text.now) }
{
    let mut made = String::with_capacity(alloc, lf_len(text))?;
    let mut rest = text;
    while let Some((line, after)) = cut_return(rest) {
        made.push_str(line)?;
        made.push('\n')?;
        rest = after;
    }
    made.push_str(rest)?;
    Ok(made)
}

// The text before the first CR, and the text after the CR LF or CR; `None` if there is no CR.
fn cut_return(text: &str) -> Option<(&str, &str)>
    ensures none { IfNone result (lf text.now ≡ text.now) }
    ensures some { IfSome result (λ x. lf text.now ≡ x.0.now ++ 10 ∷ lf x.1.now) }
    ensures less { IfSome result (λ x. length x.1.now < length text.now) }
{
    let (line, after) = text.split_once('\r')?;
    Some((line, without_feed(after)))
}

// A text that follows a CR, without the LF that it begins with, if it does.
fn without_feed(text: &str) -> &str
    ensures lines { lf result.now ≡ lf_after true text.now }
    ensures less { length result.now ≤ length text.now }
{
    match text.strip_prefix('\n') {
        Some(rest) => rest,
        None => text,
    }
}

/// The index of the first piece whose text has a CR. Linear in the texts; does not allocate.
pub fn first_return(pieces: &[Piece]) -> Option<usize>
    ensures { result ≡ position has_return pieces.now }
{
    pieces.iter().position(has_return)
}

// Whether the text of a piece has a CR.
fn has_return(piece: &Piece) -> bool
    ensures { result ≡ has_return piece.now }
{
    piece.text.as_str().as_bytes().iter().any(|b| *b == b'\r')
}

/// The fault that a rule on line endings finds in an operation: under `Lf` the first piece whose text has a CR. Linear in
/// the texts; does not allocate.
pub fn rule_fault(endings: Endings, op: &Operation) -> Option<OpFault>
    ensures { result ≡ rule_fault endings op.now }
{
    match (endings, op) {
        (Endings::Lf, Operation::Edit(edit)) => {
            let index = first_return(edit.pieces.as_slice())?;
            Some(OpFault::CarriageReturn(index as u64))
        }
        _ => None,
    }
}
