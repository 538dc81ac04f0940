//! Settling: what waits is applied, refused or dropped.
ghost use Rattle.std.specs.Prelude.{◌≡◌, IfOk, OnErr, OnOk, option_map};
ghost use Rattle.op_model.specs.Domains.{IsProper};
ghost use Rattle.op_model.specs.Operations.{stamp_of};
ghost use Rattle.op_model.specs.Steps.{Step};
ghost use Rattle.op_model.specs.Steps.Step.{Settles};
ghost use Rattle.op_model.specs.Stopped.{AreAlike};
ghost use Rattle.op_answers.specs.Verdicts.{answer_of};
ghost use Rattle.text_buffer.specs.Outcomes.{pair_of};
ghost use Rattle.text_buffer.specs.Buffer.{BufferState, IsBuffer, after_call, number_applied, after_settle, state};
ghost use Rattle.text_buffer.specs.Calls.{AreStopped, IsStopped};
ghost use Rattle.text_buffer.specs.Settling.{IsStoppedPass, after_answer, after_pass, next_ready, turn_answer, after_next_turn, with_refusal, without_waiting};

use crate::{Buffer, OutOfMemory, Refused};
use deferred_ops::Deferred;
use lamport_clock::Lamport;
use op_answers::Verdict;
use op_model::Operation;

impl Buffer {
    /// Goes through what waits, the least stamp first, in passes, until one applies nothing. At its turn an operation that
    /// misses no cause is applied where it is good, dropped where an equal one is applied, and else put on the refused list
    /// with its fault. Returns how many were applied. Afterwards each operation that waits misses a cause.
    ///
    /// # Errors
    ///
    /// `OutOfMemory` if an allocation fails. What was applied by then stays applied, and a later call goes on: once one returns
    /// `Ok`, the same operations are applied, in the same order, and the same ones wait as if no allocation had failed. The same ones
    /// are refused, but the refused list may have another order and other faults.
    pub fn settle(&mut self) -> Result<u64, OutOfMemory>
        ensures new { OnOk result (self.new ≡ after_settle self.old) }
        ensures applied { IfOk result (λ n. n ≡ number_applied self.old self.new) }
        ensures stopped { OnErr result (IsStopped Settles self.old self.new) }
        ensures goes_on { OnOk result ((c : Step) → (b : BufferState) → IsBuffer b
            → AreStopped c b self.old → AreAlike (state (after_call c b)) (state self.new)) }
    {
        let before = self.document.operations().len();
        self.pass()?;
        if self.document.operations().len() == before {
            return Ok(0);
        }
        // Causes have smaller stamps than what they are causes of, so this pass applies nothing.
        self.pass()?;
        Ok(self.document.operations().len() - before)
    }

    // One pass over what waits.
    fn pass(&mut self) -> Result<(), OutOfMemory>
        ensures ok { OnOk result (self.new ≡ after_pass self.old) }
        ensures stopped { OnErr result (IsStoppedPass self.old self.new) }
    {
        let mut after = None;
        while let Some(stamp) = self.next_turn(after)? {
            after = Some(stamp);
        }
        Ok(())
    }

    // The turn of the least operation past a stamp that misses no cause. Returns its stamp, or None if there is no such operation.
    fn next_turn(&mut self, after: Option<Lamport>) -> Result<Option<Lamport>, OutOfMemory>
        ensures ready { IfOk result (λ t. t ≡ option_map stamp_of (next_ready after self.old)) }
        ensures turn { OnOk result (self.new
            ≡ after_next_turn (next_ready after self.old) self.old) }
        ensures err { OnErr result (self.new ≡ self.old) }
        ensures buffer { IsBuffer self.old }
    {
        self.known();
        self.watch();
        let Some(op) = self.next_ready(after)? else {
            return Ok(None);
        };
        let stamp = op.stamp();
        self.meet(op)?;
        self.leave(stamp);
        Ok(Some(stamp))
    }

    // Lists a missed cause of each operation that waits, unless one misses nothing.
    fn watch(&mut self)
        ensures { self.new ≡ self.old }
    {
        self.waiting.watch(self.document.version());
    }

    // A copy of the least operation past a stamp that misses no cause, if there is one. What waits is
    // shared, so no text is copied.
    fn next_ready(&self, after: Option<Lamport>) -> Result<Option<Operation>, OutOfMemory>
        ensures { IfOk result (λ op. op ≡ next_ready after self.now) }
    {
        match self.waiting.ready(after, self.document.version()) {
            Some(op) => Ok(Some(op.copy(self.alloc)?)),
            None => Ok(None),
        }
    }

    // Applies an operation or puts it on the refused list, by the answer at its turn.
    fn meet(&mut self, op: Operation) -> Result<(), OutOfMemory>
        ensures ok { OnOk result (self.new ≡ after_answer (turn_answer self.old op) op self.old) }
        ensures err { OnErr result (self.new ≡ self.old) }
    {
        match self.turn(&op)? {
            Verdict::Good => self.apply(op),
            Verdict::Refused(fault) => {
                let stamp = op.stamp();
                self.refuse(Refused { stamp, fault })
            }
            Verdict::Repeat | Verdict::Waits { .. } => Ok(()),
        }
    }

    // The answer to an operation at its turn: with nothing waiting, the limits asked last. That its texts are UTF-8 is a clause
    // for callers.
    fn turn(&self, op: &Operation) -> Result<Verdict, OutOfMemory>
        ensures answer { IfOk result (λ v. answer_of v ≡ turn_answer self.now op.now) }
        ensures proper { IfOk result (λ v. v ≡ Verdict.Good → IsProper op.now) }
    {
        let nothing = Deferred::new(self.alloc)?;
        match self.document.judge(self.endings, &nothing, op) {
            Verdict::Good => match self.full(op) {
                Some(fault) => Ok(Verdict::Refused(fault)),
                None => Ok(Verdict::Good),
            },
            verdict => Ok(verdict),
        }
    }

    // One more operation was refused while settling.
    fn refuse(&mut self, refused: Refused) -> Result<(), OutOfMemory>
        ensures ok { OnOk result (self.new ≡ with_refusal (pair_of refused) self.old) }
        ensures err { OnErr result (self.new ≡ self.old) }
    {
        self.refused.push(refused)?;
        Ok(())
    }

    // The operation of a stamp waits no longer.
    fn leave(&mut self, stamp: Lamport)
        ensures { self.new ≡ without_waiting stamp self.old }
    {
        self.waiting.remove(stamp);
    }
}
