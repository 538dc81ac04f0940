//! Operations of other replicas, or own ones that come again.
ghost use Rattle.std.specs.Prelude.{◌≡◌, ◌⊎◌, Ok, Err, None, Some, IfOk, IfErr, OnErr};
ghost use Rattle.selections.specs.declared.faults.SelTook.TheVariants.{Set};
ghost use Rattle.selections.specs.Laws.Call.{Took};
ghost use Rattle.selections.specs.Laws.{IsCall};
ghost use Rattle.selections.specs.Sets.{kept_for};
ghost use Rattle.selections.specs.Taking.{after_answer, answer, answer_beside, bad_stamp, shape_fault};

use crate::{MOST_RANGES, SelFault, SelTook, SelectionOp, SelectionSets};
use lamport_clock::{Lamport, is_later};
use op_model::LAST_REPLICA;

impl SelectionSets {
    /// Takes an operation. It is kept where it is later than the one that is kept for its author, in place of that
    /// one, and the clock then moves past its stamp. It may name bytes that have not come yet. Logarithmic in the
    /// number of authors, and linear in the authors past its own where it is the first of its author. Only that one
    /// allocates.
    ///
    /// An operation that was replaced by a later one is not kept any more: where another one comes with its stamp,
    /// the answer is `Old`, and no `Conflict`.
    ///
    /// # Errors
    ///
    /// Exactly the first of these that applies; the sets are then as before.
    ///
    /// - `BadStamp`: the stamp's value is 0 or 4,294,967,295, or its author's id is not 1 to 1023.
    /// - `TooMany`: there are more than 1,024 ranges.
    /// - `Conflict`: another operation with this stamp is kept.
    /// - `OutOfMemory` if an allocation fails, and only where nothing is kept for the author. The operation is then
    ///   dropped.
    pub fn take(&mut self, op: SelectionOp) -> Result<SelTook, SelFault>
        ensures took { IfOk result (λ t. answer self.old op ≡ Ok t) }
        ensures new { IfOk result (λ t. self.new ≡ after_answer t op self.old) }
        ensures fault { IfErr result (λ e. (answer self.old op ≡ Err e)
            ⊎ ((e ≡ SelFault.OutOfMemory) × (answer self.old op ≡ Ok Set)
            × (kept_for op.stamp.replica self.old ≡ None))) }
        ensures err { OnErr result (self.new ≡ self.old) }
        ensures call { IfOk result (λ t. IsCall (Took op t) self.old self.new) }
    {
        self.known();
        match self.answer(&op)? {
            SelTook::Set => {
                self.keep(op)?;
                Ok(SelTook::Set)
            }
            took => Ok(took),
        }
    }

    // The answer to an operation, if no allocation fails.
    fn answer(&self, op: &SelectionOp) -> Result<SelTook, SelFault>
        ensures { result ≡ answer self.now op.now }
    {
        if let Some(fault) = shape_fault(op) {
            return Err(fault);
        }
        match self.get(op.stamp.replica) {
            Some(kept) => answer_beside(kept, op),
            None => Ok(SelTook::Set),
        }
    }
}

// The fault that shows in the operation alone.
fn shape_fault(op: &SelectionOp) -> Option<SelFault>
    ensures { result ≡ shape_fault op.now }
{
    if is_stamped_badly(op.stamp) {
        return Some(SelFault::BadStamp);
    }
    let count = op.ranges.as_slice().len();
    if MOST_RANGES < count {
        return Some(SelFault::TooMany(count as u64));
    }
    None
}

fn is_stamped_badly(stamp: Lamport) -> bool
    ensures { result ≡ bad_stamp stamp }
{
    stamp.value == 0
        || stamp.value == u32::MAX
        || stamp.replica == 0
        || LAST_REPLICA < stamp.replica
}

// The answer to an operation beside the one that is kept for its author.
fn answer_beside(kept: &SelectionOp, op: &SelectionOp) -> Result<SelTook, SelFault>
    ensures { result ≡ answer_beside (Some kept.now) op.now }
{
    if is_later(op.stamp, kept.stamp) {
        Ok(SelTook::Set)
    } else if is_later(kept.stamp, op.stamp) {
        Ok(SelTook::Old(kept.stamp))
    } else if kept.same(op) {
        Ok(SelTook::Repeat)
    } else {
        Err(SelFault::Conflict(op.stamp))
    }
}
