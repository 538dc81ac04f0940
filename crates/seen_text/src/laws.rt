//! The law of what is seen, shown by a function that does nothing.
ghost use Rattle.seen_text.specs.Laws.{CellsBeginAsInTheirEdits};

/// A character begins with a cell among all bytes where one begins with it among the new bytes of its edit. So whether it does
/// there, as an anchor asks of its byte, is a question of [`crate::is_seen_boundary`].
pub fn cells_begin_as_in_their_edits()
    ensures { CellsBeginAsInTheirEdits }
{}
