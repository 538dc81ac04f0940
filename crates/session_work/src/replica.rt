//! A replica of a session: its buffer, and what it reports.
ghost use Rattle.std.specs.Prelude.{◌≡◌, ◌≤◌, ◌+◌, ◌^◌, ◌++◌, ◌==◌, [], ◌∷◌, length, map, slice_get, Some, None, IfOk, OnOk};
ghost use Rattle.std.specs.Option.{option_copied};
ghost use Rattle.std.specs.Result.{result_ok};
ghost use Rattle.op_model.specs.Operations.{stamp_of};
ghost use Rattle.op_model.specs.Shown.{text};
ghost use Rattle.text_dims.specs.Counts.{rows};
ghost use Rattle.session_lines.specs.Report.{line_text, report_text};
ghost use Rattle.session_lines.specs.declared.report.Report.{Report};
ghost use Rattle.text_buffer.specs.Buffer.{after_settle};
ghost use Rattle.text_buffer.specs.Document.{IsFront};
ghost use Rattle.text_buffer.specs.Outcomes.{pair_of};
ghost use Rattle.session_lines.specs.declared.report.Report.TheVariants.{Unnamed, UndoRefused};
ghost use Rattle.session_work.specs.Exchange.{undo_outcome_of};
ghost use Rattle.session_work.specs.Parts.{after_part, part_outcome, part_settled};
ghost use Rattle.session_work.specs.Work.{after_give, after_outcome, after_reopen, applied_count, at_end, counts_report, edit_outcome, give_answer, first_buffer, outcome_reports, refused_report, settled_reports, text_report, session_limit};

use crate::OutOfMemory;
use applied_ops::Applied;
use lamport_clock::Lamport;
use op_model::{EditFault, Limits, OpFault, Operation, Piece, Pieces, Text, UndoFault};
use session_lines::{GiveAnswer, Report, TextHead, write_line, write_text};
use session_more::PartAnswer;
use std::alloc::Global;
use std::marker::Model;
use sum_tree::SumTree;
use text_buffer::{
    Base, Buffer, NewFault, OpenFault, Refused, Snapshot, Took, applied_operations_open,
};

/// A replica, seen as its buffer.
#[derive(Drop)]
pub struct Replica {
    id: u16,
    buffer: Buffer,
}

impl Model for Replica {
    ghost use Rattle.text_buffer.specs.Buffer.{BufferState};

    ghost Value = { BufferState };

    ghost view = { λ r. r.buffer };

    ghost use Rattle.session_work.specs.ReplicaId.{GoesByBuffersId};

    ghost invariant = { GoesByBuffersId };
}

impl Replica {
    /// The replica with that id over a base, which it shares.
    pub fn new(alloc: Global, id: u16, base: &Base) -> Result<Replica, OutOfMemory>
        requires least { 1 ≤ id }
        requires greatest { id ≤ 1023 }
        requires base { length base.now.text ≤ session_limit }
        ensures { IfOk result (λ r. r ≡ first_buffer base.now id) }
    {
        match Buffer::over(alloc, id, base, Limits::MOST) {
            Ok(buffer) => Ok(Replica { id, buffer }),
            // the base is within every limit
            Err(NewFault::Full { .. }) => unreachable!(),
            Err(NewFault::OutOfMemory) => Err(OutOfMemory),
        }
    }

    /// Whether it has that id.
    pub fn has_id(&self, id: u16) -> bool
        ensures { result ≡ (self.now.replica == id) }
    {
        self.id == id
    }

    /// Edits its text, as the operation line with that number. Gives the operation, where one is made.
    pub fn edit(
        &mut self,
        alloc: Global,
        number: u64,
        pieces: &Pieces,
        out: &mut Vec<u8>,
    ) -> Result<Option<Operation>, OutOfMemory>
        ensures report { OnOk result (out.new.items
            ≡ out.old.items ++ report_text
            (outcome_reports number (edit_outcome number pieces.now self.old) self.old)) }
        ensures after { OnOk result (self.new
            ≡ after_outcome (edit_outcome number pieces.now self.old) self.old) }
        ensures id { self.new.replica ≡ self.old.replica }
        ensures grows { IsFront self.old.history self.new.history }
        ensures made { IfOk result (λ o. o ≡ result_ok (edit_outcome number pieces.now self.old)) }
    {
        match self.buffer.edit_uncounted(pieces.as_slice()) {
            Ok(operation) => self.report_and_settle(alloc, number, operation, out),
            Err(EditFault::OutOfMemory) => Err(OutOfMemory),
            Err(fault) => report_refusal(alloc, &Report::EditRefused { number, fault }, out),
        }
    }

    /// Undoes or redoes the edits with these stamps, as the operation line with that number, unless it names a number without an
    /// operation. Returns the undo, where one is made.
    pub fn undo(
        &mut self,
        alloc: Global,
        number: u64,
        unnamed: Option<u64>,
        edits: &[Lamport],
        out: &mut Vec<u8>,
    ) -> Result<Option<Operation>, OutOfMemory>
        ensures report { OnOk result (out.new.items
            ≡ out.old.items ++ report_text
            (outcome_reports number
            (undo_outcome_of number unnamed edits.now self.old) self.old)) }
        ensures after { OnOk result (self.new
            ≡ after_outcome (undo_outcome_of number unnamed edits.now self.old) self.old) }
        ensures id { self.new.replica ≡ self.old.replica }
        ensures grows { IsFront self.old.history self.new.history }
        ensures made { IfOk result (λ o. o ≡ result_ok
            (undo_outcome_of number unnamed edits.now self.old)) }
    {
        if let Some(named) = unnamed {
            return report_unnamed(alloc, number, named, out);
        }
        match self.buffer.undo(edits) {
            Ok(operation) => self.report_and_settle(alloc, number, operation, out),
            Err(UndoFault::OutOfMemory) => Err(OutOfMemory),
            Err(fault) => report_undo_fault(alloc, number, fault, out),
        }
    }

    // Reports the operation that was made, as the operation line with that number, and settles.
    fn report_and_settle(
        &mut self,
        alloc: Global,
        number: u64,
        operation: Operation,
        out: &mut Vec<u8>,
    ) -> Result<Option<Operation>, OutOfMemory>
        ensures report { OnOk result (out.new.items
            ≡ out.old.items ++ report_text
            (Report.Made number (stamp_of operation) ∷ settled_reports self.old)) }
        ensures after { OnOk result (self.new ≡ after_settle self.old) }
        ensures id { self.new.replica ≡ self.old.replica }
        ensures grows { IsFront self.old.history self.new.history }
        ensures made { IfOk result (λ o. o ≡ Some operation) }
    {
        let stamp = operation.stamp();
        write_line(alloc, out, &Report::Made { number, stamp })?;
        self.settle(alloc, out)?;
        Ok(Some(operation))
    }

    /// Edits its text by the pieces that it has of an edit of excerpts, if it has some, and settles. Reports the settling alone. Returns
    /// the operation, or what is said in its place.
    pub fn edit_part(
        &mut self,
        alloc: Global,
        pieces: Option<&Pieces>,
        settled: &mut Vec<u8>,
    ) -> Result<Result<Operation, PartAnswer>, OutOfMemory>
        ensures report { OnOk result (settled.new.items ≡ settled.old.items ++ report_text
            (part_settled (part_outcome (option_copied pieces.entry) self.old) self.old)) }
        ensures after { OnOk result (self.new
            ≡ after_part (part_outcome (option_copied pieces.entry) self.old) self.old) }
        ensures id { self.new.replica ≡ self.old.replica }
        ensures grows { IsFront self.old.history self.new.history }
        ensures outcome { IfOk result
            (λ o. o ≡ part_outcome (option_copied pieces.entry) self.old) }
    {
        let Some(pieces) = pieces else {
            return Ok(Err(PartAnswer::Nothing));
        };
        match self.buffer.edit_uncounted(pieces.as_slice()) {
            Ok(operation) => {
                self.settle(alloc, settled)?;
                Ok(Ok(operation))
            }
            Err(EditFault::OutOfMemory) => Err(OutOfMemory),
            Err(fault) => Ok(Err(PartAnswer::Refused(fault))),
        }
    }

    /// Settles, and reports it where that applied any.
    fn settle(&mut self, alloc: Global, out: &mut Vec<u8>) -> Result<(), OutOfMemory>
        ensures report { OnOk result (out.new.items
            ≡ out.old.items ++ report_text (settled_reports self.old)) }
        ensures after { OnOk result (self.new ≡ after_settle self.old) }
        ensures id { self.new.replica ≡ self.old.replica }
        ensures grows { IsFront self.old.history self.new.history }
    {
        let count = self.buffer.settle()?;
        if count == 0 {
            return Ok(());
        }
        let replica = self.id;
        write_line(alloc, out, &Report::Settled { replica, count })?;
        Ok(())
    }

    /// Takes the operation with a number, or nothing.
    pub fn give(&mut self, operation: Option<Operation>) -> Result<GiveAnswer, OutOfMemory>
        ensures answer { IfOk result (λ g. g ≡ give_answer operation self.old) }
        ensures after { OnOk result (self.new ≡ after_give operation self.old) }
        ensures id { self.new.replica ≡ self.old.replica }
        ensures grows { IsFront self.old.history self.new.history }
    {
        match operation {
            Some(operation) => self.take(operation),
            None => Ok(GiveAnswer::Nothing),
        }
    }

    fn take(&mut self, operation: Operation) -> Result<GiveAnswer, OutOfMemory>
        ensures answer { IfOk result (λ g. g ≡ give_answer (Some operation) self.old) }
        ensures after { OnOk result (self.new ≡ after_give (Some operation) self.old) }
        ensures id { self.new.replica ≡ self.old.replica }
        ensures grows { IsFront self.old.history self.new.history }
    {
        match self.buffer.take(operation) {
            Ok(Took::Applied(count)) => Ok(GiveAnswer::Applied(count)),
            Ok(Took::Waits { replica, value }) => Ok(GiveAnswer::Waits { replica, value }),
            Ok(Took::Repeat) => Ok(GiveAnswer::Repeat),
            Err(OpFault::OutOfMemory) => Err(OutOfMemory),
            Err(fault) => Ok(GiveAnswer::Refused(fault)),
        }
    }

    /// Opens its buffer with copies of what it has applied, which share the texts. What waits there or was refused is gone. Returns how
    /// many operations it has applied, the base not counted. Costs as much as applying them in turn.
    pub fn reopen(&mut self, alloc: Global) -> Result<u64, OutOfMemory>
        ensures count { IfOk result (λ count. count ≡ applied_count self.old.history) }
        ensures after { OnOk result (self.new ≡ after_reopen self.old) }
        ensures id { self.new.replica ≡ self.old.replica }
        ensures grows { IsFront self.old.history self.new.history }
    {
        let count = self.applied_len().saturating_sub(1);
        self.buffer = reopened_buffer(alloc, self.id, &self.buffer)?;
        Ok(count)
    }

    /// How many operations it has applied, the base among them.
    pub fn applied_len(&self) -> u64
        ensures { result ≡ length self.now.history }
    {
        self.buffer.applied().len()
    }

    /// The applied operation with that index, where there is one. The base has index 0. Logarithmic in their number.
    pub fn applied(&self, index: u64) -> Option<&Operation>
        ensures { option_copied result ≡ slice_get self.now.history index }
    {
        match self.buffer.applied().get(index) {
            Some(applied) => Some(applied.op()),
            None => None,
        }
    }

    /// What it is now.
    pub fn snapshot(&self) -> Result<Snapshot, OutOfMemory>
        ensures { IfOk result (λ s. s ≡ self.now.history) }
    {
        self.buffer.snapshot()
    }

    /// Its text.
    pub fn text(&self) -> Result<Text, OutOfMemory>
        ensures { IfOk result (λ t. t ≡ text self.now.history) }
    {
        Ok(Text::new(self.buffer.text()?))
    }

    // Writes the line with that head and its text, which goes there chunk by chunk.
    fn write_text(
        &self,
        alloc: Global,
        head: TextHead,
        out: &mut Vec<u8>,
    ) -> Result<(), OutOfMemory>
        ensures { OnOk result (out.new.items
            ≡ out.old.items ++ line_text (Report.Text head (text self.now.history))) }
    {
        let snapshot = self.snapshot()?;
        write_text(alloc, out, head, snapshot.text().chunks())?;
        Ok(())
    }

    /// Writes its text, with what is counted of it, as a line of a report.
    pub fn write_shown(&self, alloc: Global, out: &mut Vec<u8>) -> Result<(), OutOfMemory>
        ensures { OnOk result (out.new.items
            ≡ out.old.items ++ report_text (text_report self.now ∷ [])) }
    {
        let counted = self.buffer.summary();
        let head = TextHead::CurrentText {
            replica: self.id,
            bytes: counted.len,
            row: counted.lines.row,
            column: counted.lines.column,
            rows: self.row_count(),
        };
        self.write_text(alloc, head, out)?;
        Ok(())
    }

    /// How many bytes its text has.
    pub fn text_len(&self) -> u64
        ensures len { result ≡ length (text self.now.history) }
        ensures bound { result ≤ 2 ^ 40 }
    {
        self.buffer.known();
        self.buffer.summary().len
    }

    // How many rows its text has.
    fn row_count(&self) -> u64
        ensures { result ≡ length (rows (text self.now.history)) }
    {
        self.buffer.known();
        self.buffer.summary().lines.row + 1
    }

    /// What it counts at the end.
    pub fn counts(&self) -> Report
        ensures { result ≡ counts_report self.now }
    {
        Report::Replica {
            replica: self.id,
            bytes: self.buffer.summary().len,
            rows: self.row_count(),
            // the base is not counted
            applied: self.buffer.applied().len().saturating_sub(1),
            waiting: self.buffer.deferred().len(),
            refused: self.buffer.refused().len() as u64,
        }
    }

    /// Writes what it reports at the end.
    pub fn write_end(&self, alloc: Global, out: &mut Vec<u8>) -> Result<(), OutOfMemory>
        ensures { OnOk result (out.new.items ≡ out.old.items ++ report_text (at_end self.now)) }
    {
        write_line(alloc, out, &self.counts())?;
        let replica = self.id;
        write_refused(alloc, replica, self.buffer.refused(), out)?;
        self.write_text(alloc, TextHead::FinalText { replica }, out)?;
        Ok(())
    }
}

// Copies of operations that are applied, in their order. They share the texts.
fn copies(alloc: Global, applied: &SumTree<Applied>) -> Result<Vec<Operation>, OutOfMemory>
    ensures { IfOk result (λ v. v.items ≡ applied.now.items) }
{
    let mut copies = Vec::with_capacity(alloc, applied.len() as usize)?;
    for i in 0..applied.len() {
        match applied.get(i) {
            Some(applied) => copies.push(applied.op().copy(alloc)?)?,
            None => unreachable!(),
        }
    }
    Ok(copies)
}

// The buffer of the replica with that id, opened with copies of what it has applied.
fn reopened_buffer(alloc: Global, id: u16, buffer: &Buffer) -> Result<Buffer, OutOfMemory>
    requires { buffer.now.replica ≡ id }
    ensures { IfOk result (λ b. b ≡ after_reopen buffer.now) }
{
    buffer.known();
    applied_operations_open(buffer);
    let operations = copies(alloc, buffer.applied())?;
    match Buffer::open(alloc, id, operations, buffer.limits(), buffer.endings()) {
        Ok(buffer) => Ok(buffer),
        Err(OpenFault::OutOfMemory) => Err(OutOfMemory),
        // what a buffer has applied opens under its limits and its rule
        Err(_) => unreachable!(),
    }
}

// Reports what refuses an operation line, which then makes no operation.
fn report_refusal(
    alloc: Global,
    refusal: &Report,
    out: &mut Vec<u8>,
) -> Result<Option<Operation>, OutOfMemory>
    ensures report { OnOk result (out.new.items ≡ out.old.items ++ report_text (refusal.now ∷ [])) }
    ensures made { IfOk result (λ o. o ≡ None) }
{
    write_line(alloc, out, refusal)?;
    Ok(None)
}

// Reports that no operation has a number which an undo names.
fn report_unnamed(
    alloc: Global,
    number: u64,
    named: u64,
    out: &mut Vec<u8>,
) -> Result<Option<Operation>, OutOfMemory>
    ensures report { OnOk result (out.new.items
        ≡ out.old.items ++ report_text (Unnamed number named ∷ [])) }
    ensures made { IfOk result (λ o. o ≡ None) }
{
    report_refusal(alloc, &Report::Unnamed { number, named }, out)
}

// Reports the fault of an undo.
fn report_undo_fault(
    alloc: Global,
    number: u64,
    fault: UndoFault,
    out: &mut Vec<u8>,
) -> Result<Option<Operation>, OutOfMemory>
    ensures report { OnOk result (out.new.items
        ≡ out.old.items ++ report_text (UndoRefused number fault ∷ [])) }
    ensures made { IfOk result (λ o. o ≡ None) }
{
    report_refusal(alloc, &Report::UndoRefused { number, fault }, out)
}

/// Writes a line for each operation that a replica refused while it settled.
fn write_refused(
    alloc: Global,
    replica: u16,
    refused: &[Refused],
    out: &mut Vec<u8>,
) -> Result<(), OutOfMemory>
    ensures { OnOk result (out.new.items
        ≡ out.old.items ++ report_text (map (refused_report replica) (map pair_of refused.now))) }
{
    for entry in refused {
        let Refused { stamp, fault } = *entry;
        write_line(
            alloc,
            out,
            &Report::Refused {
                replica,
                stamp,
                fault,
            },
        )?;
    }
    Ok(())
}
