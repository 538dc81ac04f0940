//! The laws of the edits since a version, shown by a function that does nothing.
ghost use Rattle.edits_since.specs.Laws.{EditsTakeThenToNow};

/// The edits that `since` gives take the text then to the text now, and their ranges ascend and do not touch.
pub fn edits_take_then_to_now()
    ensures { EditsTakeThenToNow }
{}
