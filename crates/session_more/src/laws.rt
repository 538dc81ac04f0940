//! A law of sessions, as a function that does nothing.
ghost use Rattle.session_more.specs.Laws.{OldSessionsStay};

/// A text that is a session of the lines of `session_lines` is the same session here.
pub fn old_sessions_stay()
    ensures { OldSessionsStay }
{}
