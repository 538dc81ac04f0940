//! What the parts of every operation have, by their types. The functions do nothing.
ghost use Rattle.std.specs.Prelude.{◌<◌, ◌^◌};
ghost use Rattle.std.specs.List.{AllByRecursion};
ghost use Rattle.op_wire.specs.Spelling.{IsStamp, IsPiece, IsCount};

use lamport_clock::Lamport;
use op_model::{Piece, UndoCount};

/// The value and the replica of a stamp fit their fields.
pub(crate) fn stamp_fits(t: Lamport)
    ensures { IsStamp t }
{
    let _numbers = (t.value, t.replica);
}

fn range_fits(start: u64, end: u64)
    ensures { (start < 2 ^ 64) × (end < 2 ^ 64) }
{
    let _numbers = (start, end);
}

/// The ends of a piece fit their fields, and its text is UTF-8.
pub(crate) fn piece_fits(p: &Piece)
    ensures { IsPiece p.now }
{
    range_fits(p.start, p.end);
    let _text = p.text.as_str();
}

fn count_fits(c: UndoCount)
    ensures { IsCount c }
{
    stamp_fits(c.edit);
    let _number = c.count;
}

/// The numbers of each count fit their fields.
pub(crate) fn counts_fit(cs: &[UndoCount])
    ensures { AllByRecursion IsCount cs.now }
{
    for &c in cs {
        count_fits(c);
    }
}
