//! The laws of the undo counts of a history, shown by functions that do nothing.
ghost use Rattle.undo_map.specs.Laws.{CountsAreOfHistory, EntriesAreCounts, EntriesAreHeld};

/// The entries of a history count as the history does, now and at each version.
pub fn counts_are_of_history()
    ensures { CountsAreOfHistory }
{}

/// A map of a history has no more entries than its undos have counts.
pub fn entries_are_counts()
    ensures { EntriesAreCounts }
{}

/// A lawful history has no more undo counts than entries.
pub fn entries_are_held()
    ensures { EntriesAreHeld }
{}
