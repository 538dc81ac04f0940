//! Buffers that are opened with a list of operations.
ghost use Rattle.std.specs.Prelude.{◌≡◌, ◌⊎◌, ◌≤◌, ◌^◌, ◌-◌, ◌∷◌, [], ℕ, List, length, map, IfErr, IfNone, IfOk, IfSome, OnErr, OnOk, None, Some};
ghost use Rattle.std.specs.List.{filter};
ghost use Rattle.op_model.specs.Answers.Answer.{Good};
ghost use Rattle.op_model.specs.Cells.{cells};
ghost use Rattle.op_model.specs.Domains.{IsProper};
ghost use Rattle.op_model.specs.Histories.{base};
ghost use Rattle.op_model.specs.Laid.{replay_by_stamps};
ghost use Rattle.op_model.specs.Lawful.{Lawful};
ghost use Rattle.op_model.specs.Opened.{open_fault, state_of};
ghost use Rattle.op_model.specs.Operations.{pieces_of};
ghost use Rattle.op_model.specs.Rules.{answer_under, rule_fault};
ghost use Rattle.op_model.specs.Settled.{full_fault};
ghost use Rattle.op_model.specs.Shown.{byte, shows, text};
ghost use Rattle.op_model.specs.declared.faults.OpenFault.{OpenFault};
ghost use Rattle.op_model.specs.declared.operation.Operation.{Operation};
ghost use Rattle.text_buffer.specs.Bases.{first_text};
ghost use Rattle.text_buffer.specs.Buffer.{after_apply, answer_to, rules, state};
ghost use Rattle.text_buffer.specs.Opening.{IsOpenFault, first_fault, next_fault, opened_with, rules_of};

use crate::content::BASE;
use crate::document::Document;
use crate::{Buffer, Endings, Limits, OpFault, OpenFault, OutOfMemory, Unit};
use deferred_ops::Deferred;
use lamport_clock::is_same;
use op_answers::Verdict;
use op_model::{Operation, rule_fault};
use std::alloc::Global;

// The text of an operation, if it is a base.
fn base_text(op: &Operation) -> Option<&str>
    ensures base { IfSome result (λ t. op.now ≡ base t.now) }
    ensures other { IfNone result ((t : List ℕ) → op.now ≡ base t → ⊥) }
{
    let Operation::Edit(edit) = op else {
        return None;
    };
    let [piece] = edit.pieces.as_slice() else {
        return None;
    };
    if is_same(edit.stamp, BASE) && edit.version.len() == 0 && piece.start == 0 && piece.end == 0 {
        Some(piece.text.as_str())
    } else {
        None
    }
}

// The fault of the first operation of a list: that it is no base, that it breaks the rule, that it passes the limit
// of bytes.
fn first_fault(op: &Operation, limits: Limits, endings: Endings) -> Option<OpenFault>
    ensures fault { result ≡ first_fault (rules_of limits endings) op.now }
    ensures base { IfNone result (op.now ≡ base (first_text (pieces_of op.now))) }
    ensures rule { IfNone result (rule_fault endings op.now ≡ None) }
    ensures room { IfNone result (length (first_text (pieces_of op.now)) ≤ limits.bytes) }
{
    let Some(text) = base_text(op) else {
        return Some(OpenFault::NotBase);
    };
    if let Some(fault) = rule_fault(endings, op) {
        return Some(OpenFault::Op(0, fault));
    }
    let adds = text.len() as u64;
    if limits.bytes < adds {
        let full = OpFault::Full {
            unit: Unit::Bytes,
            held: 0,
            adds,
        };
        return Some(OpenFault::Op(0, full));
    }
    None
}

impl Buffer {
    /// Opens a saved history: the buffer of a replica, 1 to 1023, that has applied these operations, the base first,
    /// with nothing waiting or refused. The limits are at most 2^40 bytes and 2^40 - 1 entries. Nothing of the list
    /// is changed: under `Endings::Lf` none of its texts may hold a CR. The list is moved in, and dropped on an
    /// error.
    ///
    /// To save a buffer, copy what a snapshot of it has applied, in order; the copies share their texts. Besides the
    /// list keep the replica's id, [`Buffer::limits`] and [`Buffer::endings`]. What waits and what was refused are
    /// not part of a list.
    ///
    /// ```text
    /// let snapshot = buffer.snapshot()?;
    /// let mut saved = Vec::new(alloc);
    /// for i in 0..snapshot.applied().len() {
    ///     if let Some(applied) = snapshot.applied().get(i) {
    ///         saved.push(applied.op().copy(alloc)?)?;
    ///     }
    /// }
    /// let opened = Buffer::open(alloc, 1, saved, Limits::MOST, Endings::AsIs)?;
    /// ```
    ///
    /// `saved` and `reopened` of `crates/buffer_tests/src/openings.rt` do this, in the same replica and in another one.
    /// Anchors, versions and the stamps of edits that are to be undone mean the same in each buffer with these
    /// operations.
    ///
    /// Any replica may open a list, but one that goes on under its own id has to open its newest one, with all that
    /// it ever made and sent. With an older list it makes a second operation of a stamp that others may have applied
    /// already; they refuse it as a `Conflict`, and all that depends on it.
    ///
    /// Each operation costs what it costs to take it where nothing waits, but the buffer changes in place, and the
    /// operation is kept as it is. The list is gone through in its order, so a fault of its last operation costs the
    /// opening of all before it, and one of its first operation costs no more than to read that.
    ///
    /// # Errors
    ///
    /// The first of these. `NotBase` where there is no first operation, or it is no edit 1.0 without a version and
    /// with one piece, of the range 0..0. `Op` of operation 0 where its text breaks the rule (`CarriageReturn(0)`),
    /// then where it passes the limit of bytes (`Full`, with 0 held). Then for the first operation that is not good
    /// after those before it: `Op` with the fault that [`Buffer::take`] would answer, `Full` last; `Repeat` where an
    /// equal one stands before it; or `Early`, where `take` would let it wait, with the least replica of which it has
    /// seen more than is before it, and the value. `OutOfMemory` if an allocation fails; the operations up to there
    /// meet none of these faults, and those after it were not looked at.
    pub fn open(
        alloc: Global,
        replica: u16,
        ops: Vec<Operation>,
        limits: Limits,
        endings: Endings,
    ) -> Result<Buffer, OpenFault>
        requires least { 1 ≤ replica }
        requires greatest { replica ≤ 1023 }
        requires bytes { limits.bytes ≤ 2 ^ 40 }
        requires entries { limits.entries ≤ 2 ^ 40 - 1 }
        ensures ok { OnOk result (open_fault (rules_of limits endings) ops.items ≡ None) }
        ensures new { IfOk result (λ b. b ≡ opened_with replica ops.items limits endings) }
        ensures opened { IfOk result (λ b. state b ≡ state_of ops.items) }
        ensures fault { IfErr result (IsOpenFault (rules_of limits endings) ops.items) }
        ensures lawful { OnOk result (Lawful ops.items) }
        ensures replayed { IfOk result (λ b. text b.history ≡ map (byte b.history)
            (filter (shows b.history) (cells (replay_by_stamps b.history)))) }
    {
        let mut ops = ops.into_iter();
        let Some(first) = ops.next() else {
            return Err(OpenFault::NotBase);
        };
        let mut buffer = Buffer::open_first(alloc, replica, first, limits, endings)?;
        while let Some(op) = ops.next() {
            buffer = buffer.open_next(op)?;
        }
        Ok(buffer)
    }

    // The buffer that has applied the first operation of a list.
    fn open_first(
        alloc: Global,
        replica: u16,
        first: Operation,
        limits: Limits,
        endings: Endings,
    ) -> Result<Buffer, OpenFault>
        requires least { 1 ≤ replica }
        requires greatest { replica ≤ 1023 }
        requires bytes { limits.bytes ≤ 2 ^ 40 }
        requires entries { limits.entries ≤ 2 ^ 40 - 1 }
        ensures ok { OnOk result (first_fault (rules_of limits endings) first ≡ None) }
        ensures new { IfOk result (λ b. b ≡ opened_with replica (first ∷ []) limits endings) }
        ensures fault { IfErr result (λ e. (first_fault (rules_of limits endings) first ≡ Some e)
            ⊎ ((first_fault (rules_of limits endings) first ≡ None)
            × (e ≡ OpenFault.OutOfMemory))) }
    {
        if let Some(fault) = first_fault(&first, limits, endings) {
            return Err(fault);
        }
        match Buffer::over_first(alloc, replica, first, limits, endings) {
            Ok(buffer) => Ok(buffer),
            Err(_) => Err(OpenFault::OutOfMemory),
        }
    }

    // The buffer that has applied a base, which meets no fault.
    fn over_first(
        alloc: Global,
        replica: u16,
        first: Operation,
        limits: Limits,
        endings: Endings,
    ) -> Result<Buffer, OutOfMemory>
        requires least { 1 ≤ replica }
        requires greatest { replica ≤ 1023 }
        requires bytes { limits.bytes ≤ 2 ^ 40 }
        requires entries { limits.entries ≤ 2 ^ 40 - 1 }
        requires base { first ≡ base (first_text (pieces_of first)) }
        requires rule { rule_fault endings first ≡ None }
        requires room { length (first_text (pieces_of first)) ≤ limits.bytes }
        ensures { IfOk result (λ b. b ≡ opened_with replica (first ∷ []) limits endings) }
    {
        let waiting = Deferred::new(alloc)?;
        let document = Document::over_base(alloc, first)?;
        document.known();
        Ok(Buffer {
            alloc,
            replica,
            document,
            waiting,
            refused: Vec::new(alloc),
            limits,
            endings,
        })
    }

    // The buffer with the next operation of a list, unless that meets a fault.
    fn open_next(self, op: Operation) -> Result<Buffer, OpenFault>
        ensures ok { OnOk result (answer_to self op ≡ Good) }
        ensures new { IfOk result (λ b. b ≡ after_apply self op) }
        ensures fault { IfErr result (λ e. (next_fault self op ≡ Some e)
            ⊎ ((answer_to self op ≡ Good) × (e ≡ OpenFault.OutOfMemory))) }
    {
        let i = self.count_applied();
        match self.judge(&op) {
            Verdict::Good => self.open_good(i, op),
            Verdict::Repeat => Err(OpenFault::Repeat(i)),
            Verdict::Waits { replica, value } => Err(OpenFault::Early { i, replica, value }),
            Verdict::Refused(fault) => Err(OpenFault::Op(i, fault)),
        }
    }

    // The buffer with operation `i` of a list, which is good, unless it would exceed a limit.
    fn open_good(self, i: u64, op: Operation) -> Result<Buffer, OpenFault>
        requires index { i ≡ length self.history }
        requires good { answer_under self.endings self.history self.waiting op ≡ Good }
        ensures ok { OnOk result (answer_to self op ≡ Good) }
        ensures new { IfOk result (λ b. b ≡ after_apply self op) }
        ensures fault { IfErr result (λ e. (next_fault self op ≡ Some e)
            ⊎ ((answer_to self op ≡ Good) × (e ≡ OpenFault.OutOfMemory))) }
    {
        if let Some(fault) = self.full(&op) {
            return Err(OpenFault::Op(i, fault));
        }
        match self.with_operation(op) {
            Ok(buffer) => Ok(buffer),
            Err(_) => Err(OpenFault::OutOfMemory),
        }
    }

    // The buffer with one operation more, which is good and passes no limit. What nothing else shares changes in
    // place. If an allocation fails, the buffer and the operation are dropped.
    fn with_operation(self, op: Operation) -> Result<Buffer, OutOfMemory>
        requires proper { IsProper op }
        requires good { answer_under self.endings self.history [] op ≡ Good }
        requires room { full_fault (rules self) self.history op ≡ None }
        ensures { IfOk result (λ b. b ≡ after_apply self op) }
    {
        let Buffer {
            alloc,
            replica,
            document,
            waiting,
            refused,
            limits,
            endings,
        } = self;
        let document = document.with_operation(op)?;
        document.known();
        Ok(Buffer {
            alloc,
            replica,
            document,
            waiting,
            refused,
            limits,
            endings,
        })
    }

    // How many operations are applied, the base among them.
    fn count_applied(&self) -> u64
        ensures { result ≡ length self.now.history }
    {
        self.document.operations().len()
    }
}
