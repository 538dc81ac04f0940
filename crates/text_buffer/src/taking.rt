//! Taking the operations of other replicas.
ghost use Rattle.std.specs.Prelude.{◌≡◌, ◌⊎◌, true, map, Some, None, IfErr, IfOk, OnErr, OnOk};
ghost use Rattle.op_model.specs.Sorted.{insert_by};
ghost use Rattle.op_model.specs.Histories.{operation_at};
ghost use Rattle.op_model.specs.Operations.{stamp_of};
ghost use Rattle.op_model.specs.Answers.Answer.{Good, Refused as refused};
ghost use Rattle.op_model.specs.Rules.{answer_under};
ghost use Rattle.op_model.specs.Steps.{older};
ghost use Rattle.op_model.specs.Steps.Step.{Takes};
ghost use Rattle.op_answers.specs.Verdicts.{answer_of};
ghost use Rattle.text_buffer.specs.Outcomes.{pair_of};
ghost use Rattle.text_buffer.specs.Buffer.{answer_to, is_taken_in, number_applied, after_take, rules, took_of};
ghost use Rattle.text_buffer.specs.Calls.{IsStopped};

use crate::{Buffer, OutOfMemory, Refused, Took};
use applied_ops::Applied;
use deferred_ops::Deferred;
use op_answers::Verdict;
use op_model::{OpFault, Operation};
use std::alloc::Global;
use sum_tree::SumTree;

// Lets an operation wait; none with its stamp waits yet. It is shared, so its turn copies no text.
// If an allocation fails, it is dropped.
fn defer(waiting: &mut Deferred, alloc: Global, op: Operation) -> Result<(), OutOfMemory>
    requires { operation_at waiting.old (stamp_of op) ≡ None }
    ensures ok { OnOk result (waiting.new ≡ insert_by older op waiting.old) }
    ensures err { OnErr result (waiting.new ≡ waiting.old) }
{
    waiting.add(op.into_shared(alloc)?)
}

impl Buffer {
    /// Takes an operation of another replica. It is applied, whereupon the buffer settles; or it waits; or an equal one is applied
    /// or waits already, and nothing changes. After `Applied` each operation that waits misses a cause. An operation that is
    /// judged or applied costs a few descents for each of its ranges or counts, and what it touches, not the whole text.
    ///
    /// What waits is kept until its causes come, however long that takes and however many operations wait. A caller that takes
    /// operations from peers that it does not trust bounds this by [`Buffer::forget`]: `take` of
    /// `crates/buffer_tests/src/forgotten.rt` lets a few operations of each author wait, forgets the newest and takes them again
    /// later.
    ///
    /// # Errors
    ///
    /// The first of these that the operation meets: `BadStamp`, `NoBase`, `TextLimit`, `Reversed`, `Overlap`; where the
    /// buffer has LFs alone `CarriageReturn`, with the first piece whose text has a CR; where none is equal to it
    /// `Conflict` (with what is applied or waits), `Forked`; where it misses no cause `OpenVersion`, `PastEnd`,
    /// `InsideChar`, `NoSuchEdit` (a count of no edit that the operation has seen), then `Full` where bytes, then
    /// entries, pass their limit. The buffer is then as before, and the operation is dropped. `OutOfMemory` if an
    /// allocation fails, and only where there is none of these and no equal operation. The buffer is then as before,
    /// unless the operation was applied and an allocation failed while settling: then what was applied stays applied,
    /// and a later `settle` goes on, as is said there.
    pub fn take(&mut self, op: Operation) -> Result<Took, OpFault>
        ensures ok { IfOk result (λ t. took_of (number_applied self.old self.new)
            (answer_to self.old op) ≡ Some t) }
        ensures new { OnOk result (self.new ≡ after_take self.old op) }
        ensures fault { IfErr result (λ e. (answer_to self.old op ≡ refused e)
            ⊎ ((is_taken_in (answer_to self.old op) ≡ true) × (e ≡ OpFault.OutOfMemory))) }
        ensures stopped { OnErr result ((self.new ≡ self.old)
            ⊎ IsStopped (Takes op) self.old self.new) }
    {
        match self.judge(&op) {
            Verdict::Good => self.accept(op),
            Verdict::Repeat => Ok(Took::Repeat),
            Verdict::Waits { replica, value } => {
                defer(&mut self.waiting, self.alloc, op)?;
                Ok(Took::Waits { replica, value })
            }
            Verdict::Refused(fault) => Err(fault),
        }
    }

    // The answer to an operation, before the limits are asked.
    pub(crate) fn judge(&self, op: &Operation) -> Verdict
        ensures { answer_of result ≡ answer_under (rules self.now).endings self.now.history
            self.now.waiting op.now }
    {
        self.document.judge(self.endings, &self.waiting, op)
    }

    // Applies an operation that is good, unless it would exceed a limit, and settles.
    fn accept(&mut self, op: Operation) -> Result<Took, OpFault>
        requires { answer_under (rules self.old).endings self.old.history self.old.waiting op
            ≡ Good }
        ensures ok { IfOk result (λ t. took_of (number_applied self.old self.new)
            (answer_to self.old op) ≡ Some t) }
        ensures new { OnOk result (self.new ≡ after_take self.old op) }
        ensures fault { IfErr result (λ e. (answer_to self.old op ≡ refused e)
            ⊎ ((is_taken_in (answer_to self.old op) ≡ true) × (e ≡ OpFault.OutOfMemory))) }
        ensures stopped { OnErr result ((self.new ≡ self.old)
            ⊎ IsStopped (Takes op) self.old self.new) }
    {
        if let Some(fault) = self.full(&op) {
            return Err(fault);
        }
        let before = self.document.operations().len();
        self.apply(op)?;
        self.settle()?;
        Ok(Took::Applied(self.document.operations().len() - before))
    }

    /// The operations that are applied, in their order, the base first. Constant time; does not allocate.
    pub fn applied(&self) -> &SumTree<Applied>
        ensures { result.now.items ≡ self.now.history }
    {
        self.document.operations().tree()
    }

    /// The operations that wait, the least stamp first. Constant time; does not allocate.
    pub fn deferred(&self) -> &Deferred
        ensures { result.now ≡ self.now.waiting }
    {
        &self.waiting
    }

    /// The operations that were refused while settling, in the order of their turns. Constant time; does not allocate.
    pub fn refused(&self) -> &[Refused]
        ensures { map pair_of result.now ≡ self.now.refused }
    {
        self.refused.as_slice()
    }
}
