//! The replicas of a session, and the operations of its operation lines.
ghost use Rattle.op_model.specs.Domains.{IsReplica};
ghost use Rattle.std.specs.Prelude.{◌≡◌, ◌≤◌, ◌<◌, ◌+◌, ◌^◌, ◌++◌, ◌==◌, List, [], ◌∷◌, is_none, is_some, length, map, All, IfOk, OnOk, Some};
ghost use Rattle.std.specs.Option.{option_and_then, option_copied, option_map};
ghost use Rattle.std.specs.Result.{result_ok};
ghost use Rattle.std.specs.List.{count_by, position};
ghost use Rattle.session_lines.specs.Report.{report_text};
ghost use Rattle.text_buffer.specs.Buffer.{BufferState, base_under};
ghost use Rattle.session_work.specs.Later.{AllGrow};
ghost use Rattle.session_work.specs.Packing.{with_line, with_lines};
ghost use Rattle.session_work.specs.Parts.{after_parts_from, numbered, outcomes_from, part_answer, settled_from};
ghost use Rattle.session_work.specs.Exchange.{AreThere, IsThere, applied_at, applied_len, is_named, named_made, operation_in};
ghost use Rattle.session_work.specs.Work.{after_give, after_outcome, after_reopen, applied_count, buffer_of, edit_outcome, first_buffer, first_unnamed, give_answer, operation_of, outcome_reports, reports_at, stamps_under, undo_outcome, with_buffer, session_limit};

use crate::OutOfMemory;
use crate::replica::Replica;
use crate::replicas::Replicas;
use lamport_clock::Lamport;
use op_model::{Endings, Operation, Pieces};
use session_excerpts::SplitParts;
use session_lines::GiveAnswer;
use session_more::{NumberAnswer, NumberAnswers, PartAnswer};
use std::alloc::Global;
use std::marker::Model;

/// How the operation of an operation line is kept.
#[derive(Drop)]
pub enum Named {
    /// A replica made it: the replica's id, and the operation's index among what the replica has applied.
    Made(u16, u64),
    /// It is kept here: the line has it in it, or edits several replicas.
    Read(Box<Operation>),
    /// The line was refused, or is of no piece of the replica, and has none.
    Nothing,
}

/// The replicas of a session, and the operation of each operation line. An operation that a replica made is found among those that the
/// replica has applied, and is not kept a second time. Seen as the buffers and the operations.
#[derive(Drop)]
pub struct Exchange {
    /// The replicas, in the header's order.
    replicas: Replicas,
    /// How the operation of each operation line is kept, in their order.
    named: Vec<Named>,
}

impl Model for Exchange {
    ghost use Rattle.session_work.specs.Exchange.{ExchangeState};

    ghost Value = { ExchangeState };

    ghost use Rattle.session_work.specs.ExchangeInside.{exchange_of, IsExchangeInside};

    ghost view = { exchange_of };

    ghost invariant = { IsExchangeInside };
}

impl Exchange {
    /// The replicas over a base, before the first line, by what their buffers do with line endings.
    pub fn over(
        alloc: Global,
        endings: Endings,
        ids: &[u16],
        base: &str,
    ) -> Result<Exchange, OutOfMemory>
        requires ids { All IsReplica ids.now }
        requires base { length base.now ≤ session_limit }
        ensures buffers { IfOk result
            (λ e. e.buffers ≡ map (first_buffer (base_under endings base.now)) ids.now) }
        ensures operations { IfOk result (λ e. e.operations ≡ []) }
    {
        Ok(Exchange {
            replicas: Replicas::over(alloc, endings, ids, base)?,
            named: Vec::new(alloc),
        })
    }

    /// The replicas, in the header's order.
    pub fn as_slice(&self) -> &[Replica]
        ensures { result.now ≡ self.now.buffers }
    {
        self.replicas.as_slice()
    }

    /// The index of the replica with that id, where it is there.
    pub fn index_of(&self, id: u16) -> Option<usize>
        ensures { result ≡ position (λ b. b.replica == id) self.now.buffers }
    {
        self.replicas.index_of(id)
    }

    /// The replica with that id, where it is there.
    pub fn find(&self, id: u16) -> Option<&Replica>
        ensures { option_copied result ≡ buffer_of id self.now.buffers }
    {
        self.replicas.find(id)
    }

    /// How many operations the replica with that id has applied, the base among them; 0 where it is not there.
    fn applied_len(&self, id: u16) -> u64
        ensures { result ≡ applied_len id self.now.buffers }
    {
        match self.find(id) {
            Some(replica) => replica.applied_len(),
            None => 0,
        }
    }

    /// The operation with that index among those that the replica with that id has applied, where both are there.
    fn applied(&self, id: u16, index: u64) -> Option<&Operation>
        ensures { option_copied result ≡ applied_at id index self.now.buffers }
    {
        match self.find(id) {
            Some(replica) => replica.applied(index),
            None => None,
        }
    }

    /// The number of the operation line that comes next.
    pub fn next_number(&self) -> u64
        ensures { result ≡ length self.now.operations + 1 }
    {
        self.named.len() as u64 + 1
    }

    /// The operation with that number, counted from 1, if there is one. One that a replica made is found in a time that is logarithmic in
    /// the number of those that the replica has applied.
    fn operation_of(&self, number: u64) -> Option<&Operation>
        ensures { option_copied result ≡ operation_of number self.now.operations }
    {
        match self.named.get(number.saturating_sub(1) as usize) {
            Some(Named::Made(id, index)) => self.applied(*id, *index),
            Some(Named::Read(operation)) => Some(&**operation),
            Some(Named::Nothing) => None,
            None => None,
        }
    }

    /// Whether no operation has that number.
    fn is_unnamed(&self, number: u64) -> bool
        ensures { result ≡ is_none (operation_of number self.now.operations) }
    {
        self.operation_of(number).is_none()
    }

    /// The first of the numbers that no operation has.
    fn first_unnamed(&self, numbers: &[u64]) -> Option<u64>
        ensures { result ≡ first_unnamed self.now.operations numbers.now }
    {
        numbers.iter().copied().find(|n| self.is_unnamed(*n))
    }

    /// The stamps of the operations that stand under the numbers.
    fn stamps_under(&self, alloc: Global, numbers: &[u64]) -> Result<Vec<Lamport>, OutOfMemory>
        ensures { IfOk result (λ v. v.items ≡ stamps_under self.now.operations numbers.now) }
    {
        let mut stamps = Vec::new(alloc);
        for number in numbers {
            if let Some(operation) = self.operation_of(*number) {
                stamps.push(operation.stamp())?;
            }
        }
        Ok(stamps)
    }

    /// The operations that stand under the numbers from 1 on, each with its line, where the lines are those of the numbers in turn. An
    /// operation that a replica made is found in a time that is logarithmic in the number of those that the replica has applied.
    pub fn made(&self, alloc: Global, lines: &[u64]) -> Result<Vec<(u64, &Operation)>, OutOfMemory>
        ensures { IfOk result (λ v. map (λ p. (p.0, p.1.now)) v.items
            ≡ with_lines 0 lines.now self.now.operations) }
    {
        let mut made = Vec::new(alloc);
        let mut number = 0;
        for line in lines {
            number += 1;
            push_made(&mut made, *line, self.operation_of(number))?;
        }
        Ok(made)
    }

    /// Edits the text of the replica with that id, where it is there, as the next operation line.
    pub fn edit(
        &mut self,
        alloc: Global,
        id: u16,
        pieces: &Pieces,
        out: &mut Vec<u8>,
    ) -> Result<(), OutOfMemory>
        ensures report { OnOk result (out.new.items ≡ out.old.items
            ++ report_text (reports_at
            (λ b. outcome_reports (length self.old.operations + 1)
            (edit_outcome (length self.old.operations + 1) pieces.now b) b)
            (buffer_of id self.old.buffers))) }
        ensures buffers { OnOk result (self.new.buffers
            ≡ with_buffer id (λ b. after_outcome
            (edit_outcome (length self.old.operations + 1) pieces.now b) b) self.old.buffers) }
        ensures operations { OnOk result (self.new.operations
            ≡ self.old.operations ++ option_and_then
            (λ b. result_ok (edit_outcome (length self.old.operations + 1) pieces.now b))
            (buffer_of id self.old.buffers) ∷ []) }
        ensures grows { AllGrow self.old.buffers self.new.buffers }
    {
        let number = self.next_number();
        let index = self.applied_len(id);
        let made = self.replicas.edit(alloc, id, number, pieces, out)?;
        self.named.push(named_made(id, index, made))?;
        Ok(())
    }

    /// Undoes or redoes the operations with these numbers at the replica with that id, if there is one, as the next operation line.
    pub fn undo(
        &mut self,
        alloc: Global,
        id: u16,
        numbers: &[u64],
        out: &mut Vec<u8>,
    ) -> Result<(), OutOfMemory>
        ensures report { OnOk result (out.new.items ≡ out.old.items
            ++ report_text (reports_at
            (λ b. outcome_reports (length self.old.operations + 1)
            (undo_outcome (length self.old.operations + 1) self.old.operations numbers.now b) b)
            (buffer_of id self.old.buffers))) }
        ensures buffers { OnOk result (self.new.buffers
            ≡ with_buffer id (λ b. after_outcome
            (undo_outcome (length self.old.operations + 1) self.old.operations numbers.now b) b)
            self.old.buffers) }
        ensures operations { OnOk result (self.new.operations
            ≡ self.old.operations ++ option_and_then (λ b. result_ok
            (undo_outcome (length self.old.operations + 1) self.old.operations numbers.now b))
            (buffer_of id self.old.buffers) ∷ []) }
        ensures grows { AllGrow self.old.buffers self.new.buffers }
    {
        let number = self.next_number();
        let index = self.applied_len(id);
        let unnamed = self.first_unnamed(numbers);
        let edits = self.stamps_under(alloc, numbers)?;
        let made = self
            .replicas
            .undo(alloc, id, number, unnamed, edits.as_slice(), out)?;
        self.named.push(named_made(id, index, made))?;
        Ok(())
    }

    /// Edits the text of each replica by its pieces of an edit of excerpts, if it has some, and settles it, each as the next operation
    /// line. Reports the settling alone. Returns what is said of each number. An operation that is made is kept a second time; it shares
    /// the texts.
    pub fn edit_parts(
        &mut self,
        alloc: Global,
        parts: &SplitParts,
        out: &mut Vec<u8>,
    ) -> Result<NumberAnswers, OutOfMemory>
        requires { length self.old.buffers < 2 ^ 32 }
        ensures report { OnOk result (out.new.items
            ≡ out.old.items ++ report_text (settled_from 0 parts.now self.old.buffers)) }
        ensures answers { IfOk result (λ a. a ≡ numbered (length self.old.operations + 1)
            (outcomes_from 0 parts.now self.old.buffers)) }
        ensures buffers { OnOk result (self.new.buffers
            ≡ after_parts_from 0 parts.now self.old.buffers) }
        ensures operations { OnOk result (self.new.operations ≡ self.old.operations
            ++ map result_ok (outcomes_from 0 parts.now self.old.buffers)) }
        ensures grows { AllGrow self.old.buffers self.new.buffers }
    {
        let outcomes = self.replicas.edit_parts(alloc, parts, out)?;
        let answers = keep_outcomes(alloc, &mut self.named, outcomes)?;
        Ok(NumberAnswers::new(answers))
    }

    /// Keeps an operation that the next operation line has in it.
    pub fn keep(&mut self, alloc: Global, operation: Operation) -> Result<(), OutOfMemory>
        ensures buffers { self.new.buffers ≡ self.old.buffers }
        ensures operations { OnOk result (self.new.operations
            ≡ self.old.operations ++ Some operation ∷ []) }
        ensures grows { AllGrow self.old.buffers self.new.buffers }
    {
        let operation = Box::new(alloc, operation)?;
        self.named.push(Named::Read(operation))?;
        Ok(())
    }

    /// Gives the operation with that number, if there is one, to the replica with that id, if there is one. Returns its answer. The copy
    /// that is given shares the texts.
    pub fn give(
        &mut self,
        alloc: Global,
        id: u16,
        number: u64,
    ) -> Result<Option<GiveAnswer>, OutOfMemory>
        ensures answer { IfOk result (λ g. g
            ≡ option_map (give_answer (operation_of number self.old.operations))
            (buffer_of id self.old.buffers)) }
        ensures buffers { OnOk result (self.new.buffers
            ≡ with_buffer id (after_give (operation_of number self.old.operations))
            self.old.buffers) }
        ensures operations { self.new.operations ≡ self.old.operations }
        ensures grows { AllGrow self.old.buffers self.new.buffers }
    {
        let operation = copy_of(alloc, self.operation_of(number))?;
        self.replicas.give(id, operation)
    }

    /// Opens the buffer of the replica with that id, if there is one, with copies of what it has applied. Returns how many operations
    /// that are, the base not counted.
    pub fn reopen(&mut self, alloc: Global, id: u16) -> Result<Option<u64>, OutOfMemory>
        ensures count { IfOk result (λ count. count
            ≡ option_map (λ b. applied_count b.history) (buffer_of id self.old.buffers)) }
        ensures buffers { OnOk result (self.new.buffers
            ≡ with_buffer id after_reopen self.old.buffers) }
        ensures operations { self.new.operations ≡ self.old.operations }
        ensures grows { AllGrow self.old.buffers self.new.buffers }
    {
        self.replicas.reopen(alloc, id)
    }

    /// How many operation lines made an operation.
    pub fn made_count(&self) -> u64
        ensures { result ≡ count_by is_some self.now.operations }
    {
        named_count(self.named.as_slice())
    }
}

/// Appends the operation of a line, if it made one.
fn push_made<'a>(
    made: &mut Vec<(u64, &'a Operation)>,
    line: u64,
    operation: Option<&'a Operation>,
) -> Result<(), OutOfMemory>
    ensures { OnOk result (map (λ p. (p.0, p.1.now)) made.new.items
        ≡ map (λ p. (p.0, p.1.now)) made.old.items
        ++ with_line line (option_copied operation.entry) []) }
{
    if let Some(operation) = operation {
        made.push((line, operation))?;
    }
    Ok(())
}

/// How many operations are kept.
fn named_count(list: &[Named]) -> u64
    ensures { result ≡ count_by is_named list.now }
{
    let mut count = 0;
    for named in list {
        count += is_named(named) as u64;
    }
    count
}

/// Keeps the operations, each as that of the next operation line, or that the line has none. Returns what is said of each number.
fn keep_outcomes(
    alloc: Global,
    named: &mut Vec<Named>,
    outcomes: Vec<Result<Operation, PartAnswer>>,
) -> Result<Vec<NumberAnswer>, OutOfMemory>
    ensures answers { IfOk result (λ v. v.items
        ≡ numbered (length named.old.items + 1) outcomes.items) }
    ensures operations { OnOk result ((bs : List BufferState) → map (operation_in bs) named.new.items
        ≡ map (operation_in bs) named.old.items ++ map result_ok outcomes.items) }
    ensures there { (bs : List BufferState) → AreThere bs named.old.items
        → AreThere bs named.new.items }
{
    let mut answers = Vec::with_capacity(alloc, outcomes.len())?;
    for outcome in outcomes {
        let number = named.len() as u64 + 1;
        let (kept, answer) = name_outcome(alloc, outcome)?;
        named.push(kept)?;
        answers.push(NumberAnswer { number, answer })?;
    }
    Ok(answers)
}

/// How the operation is kept that a replica made, if it did, and what is said of it.
fn name_outcome(
    alloc: Global,
    outcome: Result<Operation, PartAnswer>,
) -> Result<(Named, PartAnswer), OutOfMemory>
    ensures operation { IfOk result (λ p. (bs : List BufferState)
        → operation_in bs p.0 ≡ result_ok outcome) }
    ensures there { IfOk result (λ p. (bs : List BufferState) → IsThere bs p.0) }
    ensures answer { IfOk result (λ p. p.1 ≡ part_answer outcome) }
{
    match outcome {
        Ok(operation) => {
            let stamp = operation.stamp();
            let kept = Named::Read(Box::new(alloc, operation)?);
            Ok((kept, PartAnswer::Made(stamp)))
        }
        Err(answer) => Ok((Named::Nothing, answer)),
    }
}

/// A copy of the operation, if there is one. It shares the texts.
fn copy_of(alloc: Global, operation: Option<&Operation>) -> Result<Option<Operation>, OutOfMemory>
    ensures { IfOk result (λ o. o ≡ option_copied operation.entry) }
{
    match operation {
        Some(operation) => Ok(Some(operation.copy(alloc)?)),
        None => Ok(None),
    }
}

/// How an operation is kept that a replica may have made, where it had applied `index` operations before.
fn named_made(id: u16, index: u64, made: Option<Operation>) -> Named
    ensures { result ≡ named_made id index made }
{
    match made {
        Some(_) => Named::Made(id, index),
        None => Named::Nothing,
    }
}

/// Whether an operation is kept.
fn is_named(named: &Named) -> bool
    ensures { result ≡ is_named named.now }
{
    match named {
        Named::Nothing => false,
        _ => true,
    }
}
