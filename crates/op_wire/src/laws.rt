//! The laws of records and of streams, shown by functions that do nothing.
ghost use Rattle.op_wire.specs.Laws.{SpelledIsRead, ReadIsSpelled, NonePrefixes, OneReading, FaultsStay, StopsHaveNone, VersionsAreShort, OneSplit, TurnsAgree, TurnsJoin, CutsDoNotMatter, StreamsAreRead, PiecesAreRead, RecordsAreStreams, StreamsAreRecords};

/// Bytes that begin with a record are read as its operation, whatever follows.
pub fn spelled_is_read()
    ensures { SpelledIsRead }
{}

/// What is read is spelled so, and has a spelling.
pub fn read_is_spelled()
    ensures { ReadIsSpelled }
{}

/// No record begins another.
pub fn none_prefixes()
    ensures { NonePrefixes }
{}

/// Records one after the other are those of one list of operations.
pub fn one_reading()
    ensures { OneReading }
{}

/// A faulty field stays the first one, whatever follows.
pub fn faults_stay()
    ensures { FaultsStay }
{}

/// Where reading stops, at an unfinished or a faulty field, there is no record.
pub fn stops_have_none()
    ensures { StopsHaveNone }
{}

/// A version has at most 65,536 entries, so a record is never refused for their number.
pub fn versions_are_short()
    ensures { VersionsAreShort }
{}

/// A stream is one list of records and one rest.
pub fn one_split()
    ensures { OneSplit }
{}

/// What a feed appends and leaves is determined, unless an allocation fails.
pub fn turns_agree()
    ensures { TurnsAgree }
{}

/// Two feeds come to what one feed of both pieces comes to.
pub fn turns_join()
    ensures { TurnsJoin }
{}

/// However a stream is cut into pieces, the same operations are read of it, and the reader is left the same.
pub fn cuts_do_not_matter()
    ensures { CutsDoNotMatter }
{}

/// A reader that is fed a whole stream, and then its end, comes to the operations of the stream, or to its first fault.
pub fn streams_are_read()
    ensures { StreamsAreRead }
{}

/// And so it does in whatever pieces the stream comes.
pub fn pieces_are_read()
    ensures { PiecesAreRead }
{}

/// Records one after the other are a stream of their operations.
pub fn records_are_streams()
    ensures { RecordsAreStreams }
{}

/// A stream that has no fault is the records of its operations.
pub fn streams_are_records()
    ensures { StreamsAreRecords }
{}
