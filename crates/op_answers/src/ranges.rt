//! An edit's ranges against the bytes that its version sees.
ghost use Rattle.std.specs.Prelude.{◌≡◌};
ghost use Rattle.std.specs.List.{position};
ghost use Rattle.op_model.specs.Histories.{History, seen_history};
ghost use Rattle.op_model.specs.Shown.{full};
ghost use Rattle.op_model.specs.Edits.{is_inside};
ghost use Rattle.op_model.specs.Answers.{range_fault};
ghost use Rattle.op_model.specs.Lawful.{Lawful, IsClosed};
ghost use Rattle.seen_text.specs.Texts.{TellTexts};

use fragments::Fragment;
use lamport_clock::Version;
use op_model::{OpFault, Piece, first_past};
use rope_chunks::Rope;
use seen_text::{is_seen_boundary, seen_len};
use sum_tree::SumTree;

// Whether a piece starts or ends inside a character: an empty range is asked for one end.
fn is_inside(
    fragments: &SumTree<Fragment>,
    shown: &Rope,
    hidden: &Rope,
    version: &Version,
    piece: &Piece,
) -> bool
    ensures { (h : History) → TellTexts fragments.now.items shown.now hidden.now h
        → Lawful h → IsClosed h version.now
        → result ≡ is_inside (full (seen_history h version.now)) piece.now }
{
    if !is_seen_boundary(fragments, shown, hidden, version, piece.start) {
        return true;
    }
    if piece.start == piece.end {
        return false;
    }
    !is_seen_boundary(fragments, shown, hidden, version, piece.end)
}

// The first piece that starts or ends inside a character.
fn inside_char(
    fragments: &SumTree<Fragment>,
    shown: &Rope,
    hidden: &Rope,
    version: &Version,
    pieces: &[Piece],
) -> Option<usize>
    ensures { (h : History) → TellTexts fragments.now.items shown.now hidden.now h
        → Lawful h → IsClosed h version.now
        → result ≡ position (is_inside (full (seen_history h version.now))) pieces.now }
{
    for (i, piece) in pieces.iter().enumerate() {
        if is_inside(fragments, shown, hidden, version, piece) {
            return Some(i);
        }
    }
    None
}

/// The fault of pieces against the bytes that a version sees: one look-up for their number, and one for each end of a range.
pub fn range_fault(
    fragments: &SumTree<Fragment>,
    shown: &Rope,
    hidden: &Rope,
    version: &Version,
    pieces: &[Piece],
) -> Option<OpFault>
    ensures { (h : History) → TellTexts fragments.now.items shown.now hidden.now h
        → Lawful h → IsClosed h version.now
        → result ≡ range_fault (full (seen_history h version.now)) pieces.now }
{
    let len = seen_len(fragments, version);
    if let Some(i) = first_past(len, pieces) {
        return Some(OpFault::PastEnd(i as u64, len));
    }
    if let Some(i) = inside_char(fragments, shown, hidden, version, pieces) {
        return Some(OpFault::InsideChar(i as u64));
    }
    None
}
