//! The laws of packed and unpacked operations, shown by functions that do nothing.
ghost use Rattle.record_lines.specs.Laws.{LinesAreRead, LinesAreSession, RecordsUnpack, UnpackedAreRecords, UnpacksToOne};

/// Bytes unpack to one thing alone, the lines of operations or a fault: what a reader comes to that is fed all of them.
pub fn unpacks_to_one()
    ensures { UnpacksToOne }
{}

/// Records one after the other unpack to the lines of their operations.
pub fn records_unpack()
    ensures { RecordsUnpack }
{}

/// What unpacks to lines are the records of operations, and the lines are those of these.
pub fn unpacked_are_records()
    ensures { UnpackedAreRecords }
{}

/// The line of an operation that has a record is read as it, after any lines of a session. The condition is that texts
/// may have a CR, as they may unless the session is read to be migrated from version 1.
pub fn lines_are_read()
    ensures { LinesAreRead }
{}

/// After the header of a session, the lines of operations that have records are a session with these operations, if
/// there are no more lines than a session may have.
pub fn lines_are_session()
    ensures { LinesAreSession }
{}
