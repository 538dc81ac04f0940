//! What a session that is made is, as a text.
ghost use Rattle.session_maker.specs.Laws.{MadeSessionsDecode};

/// The text of a session that is made, a header and lines of JSON, decodes to the session: it is as if it had been read. It is
/// so for each seed, for 1 to 16 replicas and for at most 20,000 edits, whatever state `S` the lines are worked on.
pub fn made_sessions_decode<S>()
    ensures { MadeSessionsDecode S }
{}
