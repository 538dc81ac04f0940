//! What an operation adds to what a buffer holds, and its first text.
ghost use Rattle.std.specs.Prelude.{◌≡◌};
ghost use Rattle.op_model.specs.Domains.{IsProper};
ghost use Rattle.op_model.specs.Operations.{bytes_of, entries_of, pieces_of};
ghost use Rattle.text_buffer.specs.Bases.{first_text};

use op_model::{Operation, text_total};

/// What an operation adds to the bytes and to the entries that a buffer holds. That its stamp's value is one of its type and its texts
/// are UTF-8 is a clause for callers.
pub fn size(op: &Operation) -> (u128, u64)
    ensures bytes { result.0 ≡ bytes_of op.now }
    ensures entries { result.1 ≡ entries_of op.now }
    ensures proper { IsProper op.now }
{
    let _stamp = op.stamp();
    match op {
        Operation::Edit(edit) => {
            let pieces = edit.pieces.as_slice();
            (text_total(pieces), 1 + pieces.len() as u64)
        }
        Operation::Undo(undo) => (0, 1 + undo.counts.as_slice().len() as u64),
    }
}

/// The text of an operation's first piece, which is the text of a base. Empty if there is no piece.
pub fn first_text(op: &Operation) -> &str
    ensures { result.now ≡ first_text (pieces_of op.now) }
{
    match op {
        Operation::Edit(edit) => match edit.pieces.as_slice() {
            [piece, ..] => piece.text.as_str(),
            [] => "",
        },
        Operation::Undo(_) => "",
    }
}
