//! Laws of what snapshots answer, of calls that were stopped, and of what calls leave, shown by functions that do nothing.
ghost use Rattle.std.specs.Prelude.{◌≡◌, ◌≤◌, ◌⊎◌, None};
ghost use Rattle.op_model.specs.Answers.Answer.{Good, Refused as refused};
ghost use Rattle.op_model.specs.Histories.{SameSet};
ghost use Rattle.op_model.specs.declared.faults.OpFault.{OpFault};
ghost use Rattle.op_model.specs.declared.operation.Operation.{Operation};
ghost use Rattle.op_model.specs.Opened.{open_fault};
ghost use Rattle.op_model.specs.Steps.{Step};
ghost use Rattle.op_model.specs.Steps.Step.{Takes};
ghost use Rattle.op_model.specs.Stopped.{AreAlike};
ghost use Rattle.text_buffer.specs.Buffer.{AllMiss, BufferState, IsBuffer, after_call, after_settle, after_take, answer_to, number_applied, rules, state};
ghost use Rattle.text_buffer.specs.Calls.{AreStopped, IsPartly, IsStopped, Reaches};
ghost use Rattle.text_buffer.specs.Document.{IsFront};
ghost use Rattle.text_buffer.specs.Opening.{ActAlike, OpenedBuffersApplyAll, opened_with};
ghost use Rattle.text_buffer.specs.SnapshotLaws.{AnchorsStay, AnswerAlike, EditsMakeTheText};

use crate::{Buffer, Snapshot, snapshots_append};

/// Two snapshots of the same operations, in whatever order, answer alike: with the same anchors, places, orders, texts, edits and
/// faults.
pub fn snapshots_answer_alike(a: &Snapshot, b: &Snapshot)
    ensures { SameSet a.now b.now → AnswerAlike a.now b.now }
{
    a.known();
    b.known();
}

/// Anchors that are known in a snapshot are known in every later one of the same buffer, whatever calls came between the two, even if
/// allocations failed in some of these calls. Two of them keep their order, and the lesser never has the greater place. So it is
/// wherever the operations of one snapshot stand first among those of another.
pub fn anchors_stay(earlier: &Snapshot, later: &Snapshot)
    ensures front { IsFront earlier.now later.now → AnchorsStay earlier.now later.now }
    ensures calls { (b n : BufferState) → Reaches b n → earlier.now ≡ b.history
        → later.now ≡ n.history → AnchorsStay earlier.now later.now }
{
    snapshots_append(earlier, later);
    earlier.known();
    later.known();
}

/// The text at a version, with each old range of the edits since it replaced by the new range of the snapshot's text, is the
/// snapshot's text. The ranges ascend and do not touch.
pub fn edits_make_the_text(snapshot: &Snapshot)
    ensures { EditsMakeTheText snapshot.now }
{
    snapshot.known();
}

/// Whatever call was stopped by a failed allocation while it settled, and however many calls of `settle` after it, settling ends as that
/// call would have ended if no allocation had failed: the same operations are applied, in the same order, the same ones wait, and each stamp
/// is refused as often.
pub fn stopped_calls_go_on()
    ensures { (c : Step) → (b n : BufferState) → IsBuffer b → AreStopped c b n
        → AreAlike (state (after_call c b)) (state (after_settle n)) }
{}

/// What a stopped call applied stays applied, after what was applied before, and waits no longer; nothing waits that did not wait before.
pub fn stopped_calls_apply_partly()
    ensures { (c : Step) → (b n : BufferState) → IsBuffer b → IsStopped c b n → IsPartly b n }
{}

/// What waits misses a cause once a buffer has settled, and once a `take` has applied its operation.
pub fn waiting_operations_miss_causes()
    ensures settle { (b : BufferState) → AllMiss (after_settle b) }
    ensures take { (b : BufferState) → (op : Operation) → answer_to b op ≡ Good
        → AllMiss (after_take b op) }
{}

/// A `take` of a good operation applies one operation at least.
pub fn good_operations_are_applied()
    ensures { (b : BufferState) → (op : Operation) → answer_to b op ≡ Good
        → 1 ≤ number_applied b (after_take b op) }
{}

/// A `take` of an operation that meets a fault leaves the buffer as it was, which is also what the definition makes.
pub fn refused_operations_change_nothing()
    ensures { (b n : BufferState) → (op : Operation) → (e : OpFault) → answer_to b op ≡ refused e
        → (n ≡ b) ⊎ IsStopped (Takes op) b n → (n ≡ b) × (after_take b op ≡ b) }
{}

/// What a buffer has applied opens a buffer without fault, under the same limits and the same rule on line endings:
/// `Buffer::open` can then fail only if an allocation fails.
pub fn applied_operations_open(buffer: &Buffer)
    ensures { open_fault (rules buffer.now) buffer.now.history ≡ None }
{
    buffer.known();
}

/// A buffer that is opened with what another one has applied, as the same replica and under the same rules, acts as
/// that one: both have one text and one version, make and resolve the same anchors in the same order, have the same
/// edits since a version, and make the same operation of the next edit or undo, or meet the same fault.
pub fn opened_buffers_act_alike()
    ensures { (b : BufferState) → ActAlike b
        (opened_with b.replica b.history b.limits b.endings) }
{}

/// If each operation of an honest set is one that a buffer was opened with, or was made or taken by its calls, and
/// besides these it made and took nothing, it has applied the whole set after a last settling, where none was
/// forgotten and no Full came.
pub fn opened_buffers_apply_all()
    ensures { OpenedBuffersApplyAll }
{}
