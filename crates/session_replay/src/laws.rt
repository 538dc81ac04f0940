//! What the report of a session is, whatever the workers.
ghost use Rattle.session_replay.specs.Laws.{MigratedReportsAlike, OldReportsStay, PlainWithWorkers, PlainWithoutQueries, PlainWithoutWorkers, RecordsArePlain, RefusalsArePlain};

/// Without workers the output is the plain report: each query is answered at its place in the session. It is so for
/// every session, also where operations come late.
pub fn plain_without_workers()
    ensures { PlainWithoutWorkers }
{}

/// A session without queries has one report, the plain one.
pub fn plain_without_queries()
    ensures { PlainWithoutQueries }
{}

/// The plain report is one that any number of workers may give.
pub fn plain_with_workers()
    ensures { PlainWithWorkers }
{}

/// A session of the lines of `session_lines` alone reports what these lines report, whatever further kinds of lines
/// there are.
pub fn old_reports_stay()
    ensures { OldReportsStay }
{}

/// The session that `migrate` writes has the report of its input, byte for byte, where no workers answer queries: none of
/// its texts has a CR, so its buffers do the same whether they keep texts as they are or make each CR an LF.
pub fn migrated_reports_alike()
    ensures { MigratedReportsAlike }
{}

/// An input that is refused is answered with the line of the plain response to it.
pub fn refusals_are_plain()
    ensures { RefusalsArePlain }
{}

/// The records of a session, and the lines of records, are those of the plain response.
pub fn records_are_plain()
    ensures { RecordsArePlain }
{}
