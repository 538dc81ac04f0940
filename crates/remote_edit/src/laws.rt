//! Laws of moves and of whole fragments. Each function does nothing when it runs: its contract is the law.
ghost use Rattle.remote_edit.specs.Moves.{MovesCompose, JoinedMovesDoTheSame, KeptBytesCommute};
ghost use Rattle.remote_edit.specs.CarriedLaws.{CarriedTextsAreThose, BaseIsWhole};

/// Moves after others take the texts that those leave.
pub fn moves_compose()
    ensures { MovesCompose }
{}

/// A move that is merged with the last one does the same as a move of its own.
pub fn joined_moves_do_the_same()
    ensures { JoinedMovesDoTheSame }
{}

/// Shown and hidden bytes may be kept in either order.
pub fn kept_bytes_commute()
    ensures { KeptBytesCommute }
{}

/// Moves that carry the bytes of fragments to others take the texts of the one history to those of the other.
pub fn carried_texts_are_those()
    ensures { CarriedTextsAreThose }
{}

/// The fragment of a base begins and ends between characters.
pub fn base_is_whole()
    ensures { BaseIsWhole }
{}
