//! The laws of stamps and versions, shown by functions that do nothing.
ghost use Rattle.lamport_clock.specs.Laws.{JoinIsLeast, NoneUnseen};

/// A join is the least version that contains both.
pub fn join_is_least()
    ensures { JoinIsLeast }
{}

/// Nothing is missing exactly if one version lies within the other.
pub fn nothing_is_missing()
    ensures { NoneUnseen }
{}
