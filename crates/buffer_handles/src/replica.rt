//! A replica: its buffer, and what its author made last.
ghost use Rattle.std.specs.Prelude.{◌≡◌, ◌≢◌, ◌⊎◌, Some, None, IfErr, IfOk, OnOk, length, true};
ghost use Rattle.op_model.specs.Opened.{open_fault};
ghost use Rattle.op_model.specs.Operations.{stamp_of};
ghost use Rattle.op_model.specs.Rules.{text_under};
ghost use Rattle.text_buffer.specs.Buffer.{base_under, new_fault, over_base};
ghost use Rattle.text_buffer.specs.Opening.{rules_of};
ghost use Rattle.c_values.specs.Answers.{IsAnswer, IsRead, IsRefusal, bare, stamp_answer};
ghost use Rattle.buffer_handles.specs.Records.{made_record, record_answer};
ghost use Rattle.c_values.specs.Room.{over};
ghost use Rattle.buffer_handles.specs.Waiting.{forget_answer, forgotten};
ghost use Rattle.buffer_handles.specs.Replicas.{IsReopenAnswer, IsReopened, allowed, edit_answer, edit_outcome, edited, new_refusal, open_answer, open_unless, opened, reopened, undo_answer, undo_outcome, undone, with_edit, with_undo};

use c_values::{
    Answer, Change, Code, Stamp, edit_refusal, open_refusal, operations_of, pieces_of, stamps_of,
    undo_refusal, utf8_of, write_front, write_record,
};
use lamport_clock::Lamport;
use op_model::{Endings, Limits, Operation, Piece};
use std::alloc::Global;
use text_buffer::{Buffer, NewFault};

/// A replica's buffer, and the last operation that its author made, which the other replicas take.
#[derive(Drop)]
pub struct Replica {
    /// The buffer.
    pub buffer: Buffer,
    /// The last operation that was made here, by an edit or an undo, if there is one.
    pub made: Option<Operation>,
}

fn new_refusal(fault: NewFault) -> Answer
    ensures { result ≡ new_refusal fault }
{
    match fault {
        NewFault::Full { unit, held, adds } => Answer::full(unit, held, adds),
        NewFault::OutOfMemory => Answer::bare(Code::OutOfMemory),
    }
}

// Whether a replica and the limits are ones that a buffer may have.
fn is_allowed(replica: u16, limits: Limits) -> bool
    ensures test { result ≡ allowed replica limits }
{
    1 <= replica
        && replica <= 1023
        && limits.bytes <= Limits::MOST.bytes
        && limits.entries <= Limits::MOST.entries
}

// The buffer of a replica over a base text, by what it does with line endings.
fn buffer_over(
    alloc: Global,
    replica: u16,
    base: &str,
    limits: Limits,
    endings: Endings,
) -> Result<Buffer, NewFault>
    requires { allowed replica limits ≡ true }
    ensures ok { OnOk result (new_fault limits (text_under endings base.now) ≡ None) }
    ensures new { IfOk result (λ b. b ≡ over_base replica (base_under endings base.now) limits) }
    ensures fault { IfErr result
        (λ e. (new_fault limits (text_under endings base.now) ≡ Some e)
        ⊎ ((new_fault limits (text_under endings base.now) ≡ None) × (e ≡ NewFault.OutOfMemory))) }
{
    match endings {
        Endings::AsIs => Buffer::new(alloc, replica, base, limits),
        Endings::Lf => Buffer::new_lf(alloc, replica, base, limits),
    }
}

impl Replica {
    /// Opens the buffer of a replica, 1 to 1023, over a base text, as [`Buffer::new`] does, or, where it is to have LFs
    /// alone, as [`Buffer::new_lf`] does. Linear in the base.
    ///
    /// # Errors
    ///
    /// `OutOfRange` where the replica or the limits are out of their ranges, `NotUtf8` where the base is not UTF-8,
    /// `Full`; the first of these. `OutOfMemory` if an allocation fails, and only where there is none of these.
    pub fn open(
        alloc: Global,
        replica: u16,
        base: &[u8],
        limits: Limits,
        endings: Endings,
    ) -> Result<Replica, Answer>
        ensures opened { IfOk result (λ r. r ≡ opened replica base.now limits endings) }
        ensures ok { IfOk result
            (λ _. open_answer replica base.now limits endings ≡ bare Code.Done) }
        ensures err { IfErr result (IsRefusal (open_answer replica base.now limits endings)) }
    {
        if !is_allowed(replica, limits) {
            return Err(Answer::bare(Code::OutOfRange));
        }
        let Some(text) = utf8_of(base) else {
            return Err(Answer::bare(Code::NotUtf8));
        };
        match buffer_over(alloc, replica, text, limits, endings) {
            Ok(buffer) => Ok(Replica { buffer, made: None }),
            Err(fault) => Err(new_refusal(fault)),
        }
    }

    /// Opens a saved history, as [`Buffer::open`] does: the records of its operations, the base first.
    ///
    /// # Errors
    ///
    /// `OutOfRange` where the replica or the limits are out of their ranges, `NoRecord` where the bytes are no records,
    /// the faults of [`Buffer::open`], with the index of the operation; the first of these. `OutOfMemory` if an allocation
    /// fails.
    #[tactic(auto, using(crate::proofs::Opens::reopen_out, crate::proofs::Opens::reopen_no_record, crate::proofs::Opens::reopen_history))]
    pub fn reopen(
        alloc: Global,
        replica: u16,
        records: &[u8],
        limits: Limits,
        endings: Endings,
    ) -> Result<Replica, Answer>
        ensures opened { IfOk result (IsReopened replica records.now limits endings) }
        ensures allowed { OnOk result (allowed replica limits ≡ true) }
        ensures err { IfErr result (λ a. a.code ≢ 0) }
        ensures cause { IfErr result (IsReopenAnswer replica records.now limits endings) }
    {
        if !is_allowed(replica, limits) {
            return Err(Answer::bare(Code::OutOfRange));
        }
        match operations_of(alloc, records) {
            Ok(ops) => Replica::with_operations(alloc, replica, ops, limits, endings),
            Err(answer) => Err(answer),
        }
    }

    // The replica that has applied a list of operations.
    fn with_operations(
        alloc: Global,
        replica: u16,
        ops: Vec<Operation>,
        limits: Limits,
        endings: Endings,
    ) -> Result<Replica, Answer>
        requires { allowed replica limits ≡ true }
        ensures opened { IfOk result (λ r. r ≡ reopened replica ops.items limits endings) }
        ensures good { OnOk result (open_fault (rules_of limits endings) ops.items ≡ None) }
        ensures err { IfErr result (λ a. a.code ≢ 0) }
        ensures cause { IfErr result
            (IsAnswer (open_unless (open_fault (rules_of limits endings) ops.items))) }
    {
        match Buffer::open(alloc, replica, ops, limits, endings) {
            Ok(buffer) => Ok(Replica { buffer, made: None }),
            Err(fault) => Err(open_refusal(fault)),
        }
    }

    /// Replaces ranges of the text, as [`Buffer::edit`] does. The answer has the stamp of the operation.
    pub fn edit(&mut self, alloc: Global, changes: &[Change], texts: &[u8]) -> Answer
        ensures answer { IsAnswer (edit_answer self.old changes.now texts.now) result }
        ensures done { result.code ≡ 0 → self.new ≡ edited self.old changes.now texts.now }
        ensures kept { result.code ≢ 0 → self.new ≡ self.old }
    {
        match pieces_of(alloc, changes, texts) {
            Ok(pieces) => self.edit_pieces(&pieces),
            Err(answer) => answer,
        }
    }

    fn edit_pieces(&mut self, pieces: &[Piece]) -> Answer
        ensures answer { IsAnswer (edit_outcome self.old.buffer pieces.now) result }
        ensures done { result.code ≡ 0 → self.new ≡ with_edit self.old pieces.now }
        ensures kept { result.code ≢ 0 → self.new ≡ self.old }
    {
        match self.buffer.edit_uncounted(pieces) {
            Ok(op) => self.keep(op),
            Err(fault) => edit_refusal(fault),
        }
    }

    // Keeps what was made last, and answers its stamp.
    fn keep(&mut self, op: Operation) -> Answer
        ensures answer { result ≡ stamp_answer Code.Done (stamp_of op) }
        ensures new { self.new ≡ record self.old { made = Some op } }
    {
        let answer = Answer::of_stamp(Code::Done, op.stamp());
        self.made = Some(op);
        answer
    }

    /// Undoes edits, or redoes those that are undone, as [`Buffer::undo`] does. The answer has the stamp of the
    /// operation.
    pub fn undo(&mut self, alloc: Global, edits: &[Stamp]) -> Answer
        ensures answer { IsAnswer (undo_answer self.old edits.now) result }
        ensures done { result.code ≡ 0 → self.new ≡ undone self.old edits.now }
        ensures kept { result.code ≢ 0 → self.new ≡ self.old }
    {
        match stamps_of(alloc, edits) {
            Ok(stamps) => self.undo_stamps(&stamps),
            Err(_) => Answer::bare(Code::OutOfMemory),
        }
    }

    fn undo_stamps(&mut self, edits: &[Lamport]) -> Answer
        ensures answer { IsAnswer (undo_outcome self.old.buffer edits.now) result }
        ensures done { result.code ≡ 0 → self.new ≡ with_undo self.old edits.now }
        ensures kept { result.code ≢ 0 → self.new ≡ self.old }
    {
        match self.buffer.undo(edits) {
            Ok(op) => self.keep(op),
            Err(fault) => undo_refusal(fault),
        }
    }

    /// Forgets the operation of a stamp, if it waits, as [`Buffer::forget`] does. The answer has the number of operations
    /// that were forgotten, 0 or 1. Logarithmic in what waits; does not allocate.
    pub fn forget(&mut self, stamp: &Stamp) -> Answer
        ensures answer { result ≡ forget_answer self.old stamp.now }
        ensures new { self.new ≡ forgotten self.old stamp.now }
    {
        match self.buffer.forget(stamp.lamport()) {
            Some(_) => Answer::new(Code::Done, 1, 0, 0),
            None => Answer::new(Code::Done, 0, 0, 0),
        }
    }

    /// Writes the record of the last operation that was made here, as much of it as fits; nothing where there is none.
    /// The answer has its length in bytes. Linear in the record; allocates once.
    ///
    /// # Errors
    ///
    /// `TooLong` where the operation has no record, `OutOfMemory` if an allocation fails.
    pub fn record(&self, alloc: Global, into: &mut [u8]) -> Answer
        ensures answer { IsAnswer (record_answer self.now.made (length into.old)) result }
        ensures written { IsRead result → into.new ≡ over (made_record self.now.made) into.old }
    {
        match &self.made {
            Some(op) => write_record(alloc, op, into),
            None => write_front(&[], into),
        }
    }
}
