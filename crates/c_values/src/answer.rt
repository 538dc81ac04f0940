//! The answers of calls, as numbers.
ghost use Rattle.std.specs.Prelude.{◌≡◌, ◌-◌, ◌^◌, min};
ghost use Rattle.c_values.specs.Answers.{answer, edit_refusal, number, op_refusal, open_refusal, place_refusal, since_refusal, stamp_answer, undo_refusal, unit_number};

use lamport_clock::Lamport;
use op_model::{EditFault, OpFault, OpenFault, PlaceFault, SinceFault, UndoFault, Unit};

/// What a call came to. The numbers of a fault are those of its word in a session, in their order; a stamp is two of
/// them, its value and its replica. What is not said is 0.
#[repr(C)]
#[derive(Clone, Copy)]
pub struct Answer {
    /// The number of a `Code`.
    pub code: u32,
    /// The number of the operation among those that were handed in, from 0, where a saved history is refused for it.
    pub index: u64,
    /// The first number.
    pub first: u64,
    /// The second number.
    pub second: u64,
    /// The third number.
    pub third: u64,
}

/// What a call came to, without its numbers.
#[derive(Clone, Copy)]
pub enum Code {
    /// The call did what it says.
    Done = 0,
    /// The piece `first`, from 0, starts past its end.
    Reversed = 1,
    /// The piece `first` starts before the end of the one before it.
    Overlap = 2,
    /// The piece `first`, or the place, ends past the text's `second` bytes.
    PastEnd = 3,
    /// The piece `first`, or the place, starts or ends inside a character.
    InsideChar = 4,
    /// The new texts have `first` bytes together, more than 65,536.
    TextLimit = 5,
    /// The clock stands at its end.
    ClockEnd = 6,
    /// Of bytes (`first` is 0) or entries (1) `second` are held, and `third` more pass the limit.
    Full = 7,
    /// The stamp `first`.`second` is no edit that is applied, or that the operation has seen.
    NoSuchEdit = 8,
    /// The edit `first`.`second` is named twice.
    Twice = 9,
    /// The undo count of the edit `first`.`second` stands at its end.
    CountEnd = 10,
    /// The stamp, its author or its version is none that a replica makes.
    BadStamp = 11,
    /// The version has not seen the base.
    NoBase = 12,
    /// Another operation has the stamp `first`.`second`.
    Conflict = 13,
    /// The author's operation of value `first` is applied, and this one has not seen it.
    Forked = 14,
    /// What the version has of replica `first` is no operation whose causes it has seen.
    OpenVersion = 15,
    /// The text of the piece `first` holds a carriage return.
    Carriage = 16,
    /// Of replica `first` the version has more than is applied.
    Unseen = 17,
    /// The first operation is no base.
    NotBase = 18,
    /// The operation `index` stands in the list before.
    Repeat = 19,
    /// The operation `index` has seen `first`.`second`, which is not in the list before it.
    Early = 20,
    /// An allocation failed.
    OutOfMemory = 100,
    /// A text is not UTF-8.
    NotUtf8 = 101,
    /// The bytes are no records: the field at byte `first` is faulty, or the last record is cut off.
    NoRecord = 102,
    /// There is too little room: `first` bytes or members are to be written, and the front that fits is.
    NoRoom = 103,
    /// The anchor is not known.
    Unknown = 104,
    /// An argument is out of its range.
    OutOfRange = 105,
    /// The handle is closed.
    Closed = 106,
    /// The handle is open already.
    Open = 107,
    /// The operation has no record: a number of it is `first`, more than 65,536.
    TooLong = 108,
    /// The text has no such place: it is past the end of the text or of its row, or inside a character.
    NoPlace = 109,
}

impl Code {
    /// The number of the code.
    pub fn number(self) -> u32
        ensures { result ≡ number self }
    {
        self as u32
    }
}

impl Answer {
    /// The answer of a code with its numbers.
    pub fn new(code: Code, first: u64, second: u64, third: u64) -> Answer
        ensures { result ≡ answer code first second third }
    {
        Answer {
            code: code.number(),
            index: 0,
            first,
            second,
            third,
        }
    }

    /// The answer of a code that has no numbers.
    pub fn bare(code: Code) -> Answer
        ensures { result ≡ answer code 0 0 0 }
    {
        Answer::new(code, 0, 0, 0)
    }

    /// The answer of a code that says something of a stamp.
    pub fn of_stamp(code: Code, stamp: Lamport) -> Answer
        ensures { result ≡ stamp_answer code stamp }
    {
        Answer::new(code, u64::from(stamp.value), u64::from(stamp.replica), 0)
    }

    // The same of an operation among others.
    fn at(self, index: u64) -> Answer
        ensures { result ≡ record self { index = index } }
    {
        Answer { index, ..self }
    }

    /// The answer where a limit would be passed.
    pub fn full(unit: Unit, held: u64, adds: u64) -> Answer
        ensures { result ≡ answer Code.Full (unit_number unit) held adds }
    {
        let unit = match unit {
            Unit::Bytes => 0,
            Unit::Entries => 1,
        };
        Answer::new(Code::Full, unit, held, adds)
    }
}

// The number, or the greatest one that fits.
fn narrowed(n: u128) -> u64
    ensures { result ≡ min n (2 ^ 64 - 1) }
{
    n.min(u128::from(u64::MAX)) as u64
}

/// The answer of a fault of an edit.
pub fn edit_refusal(fault: EditFault) -> Answer
    ensures { result ≡ edit_refusal fault }
{
    match fault {
        EditFault::Reversed(i) => Answer::new(Code::Reversed, i, 0, 0),
        EditFault::Overlap(i) => Answer::new(Code::Overlap, i, 0, 0),
        EditFault::PastEnd(i, len) => Answer::new(Code::PastEnd, i, len, 0),
        EditFault::InsideChar(i) => Answer::new(Code::InsideChar, i, 0, 0),
        EditFault::TextLimit(total) => Answer::new(Code::TextLimit, narrowed(total), 0, 0),
        EditFault::ClockEnd => Answer::bare(Code::ClockEnd),
        EditFault::Full { unit, held, adds } => Answer::full(unit, held, adds),
        EditFault::OutOfMemory => Answer::bare(Code::OutOfMemory),
    }
}

/// The answer of a fault of an undo.
pub fn undo_refusal(fault: UndoFault) -> Answer
    ensures { result ≡ undo_refusal fault }
{
    match fault {
        UndoFault::NoSuchEdit(edit) => Answer::of_stamp(Code::NoSuchEdit, edit),
        UndoFault::Twice(edit) => Answer::of_stamp(Code::Twice, edit),
        UndoFault::CountEnd(edit) => Answer::of_stamp(Code::CountEnd, edit),
        UndoFault::ClockEnd => Answer::bare(Code::ClockEnd),
        UndoFault::Full { unit, held, adds } => Answer::full(unit, held, adds),
        UndoFault::OutOfMemory => Answer::bare(Code::OutOfMemory),
    }
}

/// The answer of a fault of a taken operation.
pub fn op_refusal(fault: OpFault) -> Answer
    ensures { result ≡ op_refusal fault }
{
    match fault {
        OpFault::BadStamp => Answer::bare(Code::BadStamp),
        OpFault::NoBase => Answer::bare(Code::NoBase),
        OpFault::TextLimit(total) => Answer::new(Code::TextLimit, narrowed(total), 0, 0),
        OpFault::Reversed(i) => Answer::new(Code::Reversed, i, 0, 0),
        OpFault::Overlap(i) => Answer::new(Code::Overlap, i, 0, 0),
        OpFault::CarriageReturn(i) => Answer::new(Code::Carriage, i, 0, 0),
        OpFault::Conflict(stamp) => Answer::of_stamp(Code::Conflict, stamp),
        OpFault::Forked(value) => Answer::new(Code::Forked, u64::from(value), 0, 0),
        OpFault::OpenVersion(replica) => {
            Answer::new(Code::OpenVersion, u64::from(replica), 0, 0)
        }
        OpFault::PastEnd(i, len) => Answer::new(Code::PastEnd, i, len, 0),
        OpFault::InsideChar(i) => Answer::new(Code::InsideChar, i, 0, 0),
        OpFault::NoSuchEdit(stamp) => Answer::of_stamp(Code::NoSuchEdit, stamp),
        OpFault::Full { unit, held, adds } => Answer::full(unit, held, adds),
        OpFault::OutOfMemory => Answer::bare(Code::OutOfMemory),
    }
}

/// The answer of a fault of a saved history.
pub fn open_refusal(fault: OpenFault) -> Answer
    ensures { result ≡ open_refusal fault }
{
    match fault {
        OpenFault::NotBase => Answer::bare(Code::NotBase),
        OpenFault::Op(i, fault) => op_refusal(fault).at(i),
        OpenFault::Repeat(i) => Answer::bare(Code::Repeat).at(i),
        OpenFault::Early { i, replica, value } => {
            Answer::new(Code::Early, u64::from(value), u64::from(replica), 0).at(i)
        }
        OpenFault::OutOfMemory => Answer::bare(Code::OutOfMemory),
    }
}

/// The answer of a fault of a version.
pub fn since_refusal(fault: SinceFault) -> Answer
    ensures { result ≡ since_refusal fault }
{
    match fault {
        SinceFault::Unseen(replica) => Answer::new(Code::Unseen, u64::from(replica), 0, 0),
        SinceFault::OpenVersion(replica) => {
            Answer::new(Code::OpenVersion, u64::from(replica), 0, 0)
        }
        SinceFault::OutOfMemory => Answer::bare(Code::OutOfMemory),
    }
}

/// The answer of a fault of a place.
pub fn place_refusal(fault: PlaceFault) -> Answer
    ensures { result ≡ place_refusal fault }
{
    match fault {
        PlaceFault::PastEnd(len) => Answer::new(Code::PastEnd, 0, len, 0),
        PlaceFault::InsideChar => Answer::bare(Code::InsideChar),
    }
}
