//! The answer to a taken operation.
ghost use Rattle.std.specs.Prelude.{◌≡◌, option_map};
ghost use Rattle.op_model.specs.Operations.{version_of};
ghost use Rattle.op_model.specs.Histories.{Distinct, History, version};
ghost use Rattle.op_model.specs.Lawful.{Lawful, IsClosed};
ghost use Rattle.op_model.specs.Answers.{fork_fault};
ghost use Rattle.op_model.specs.Rules.{answer_under};
ghost use Rattle.seen_text.specs.Texts.{TellTexts};
ghost use Rattle.op_answers.specs.Verdicts.{answer_of, cause_objection, part_fault, stamp_objection};

use crate::found::{applied_at, count_fault, is_conflict, is_repeat, open_among};
use crate::ranges::range_fault;
use applied_ops::AppliedList;
use deferred_ops::Deferred;
use fragments::Fragment;
use lamport_clock::Version;
use op_model::{Endings, OpFault, Operation, rule_fault, shape};
use rope_chunks::Rope;
use sum_tree::SumTree;

/// What becomes of an operation that is taken, if the limits hold it.
#[derive(Clone, Copy, Debug, PartialEq, Eq)]
pub enum Verdict {
    /// It is good, and is applied.
    Good,
    /// An equal one is applied or waits.
    Repeat,
    /// It waits: of all replicas of which it has seen more than is applied the least, and the value that it has seen.
    Waits { replica: u16, value: u32 },
    Refused(OpFault),
}

// What stands against an operation's stamp: that an equal operation, or another one, has it.
fn stamp_verdict(
    applied: &AppliedList,
    waiting: &Deferred,
    have: &Version,
    op: &Operation,
) -> Option<Verdict>
    requires lawful { Lawful applied.now }
    requires waiting { Distinct waiting.now }
    requires version { have.now ≡ version applied.now }
    ensures { option_map answer_of result ≡ stamp_objection applied.now waiting.now op.now }
{
    let stamp = op.stamp();
    let applied_one = applied_at(applied, have, stamp);
    let waiting_one = waiting.get(stamp);
    if is_repeat(applied_one, waiting_one, op) {
        return Some(Verdict::Repeat);
    }
    if is_conflict(applied_one, waiting_one) {
        return Some(Verdict::Refused(OpFault::Conflict(stamp)));
    }
    None
}

// The last applied operation of an operation's author, where the operation has not seen it.
fn fork_fault(have: &Version, op: &Operation) -> Option<OpFault>
    ensures { (h : History) → have.now ≡ version h → result ≡ fork_fault h op.now }
{
    let replica = op.stamp().replica;
    let kept = have.get(replica);
    if op.version().get(replica) < kept {
        return Some(OpFault::Forked(kept));
    }
    None
}

// What stands against what an operation has seen: that its author went on without it, that some of it is not applied, or
// that its version is not closed.
fn cause_verdict(applied: &AppliedList, have: &Version, op: &Operation) -> Option<Verdict>
    requires lawful { Lawful applied.now }
    requires version { have.now ≡ version applied.now }
    ensures { option_map answer_of result ≡ cause_objection applied.now op.now }
{
    if let Some(fault) = fork_fault(have, op) {
        return Some(Verdict::Refused(fault));
    }
    if let Some((replica, value)) = have.first_missing(op.version()) {
        return Some(Verdict::Waits { replica, value });
    }
    if let Some(replica) = open_among(applied, have, op) {
        return Some(Verdict::Refused(OpFault::OpenVersion(replica)));
    }
    None
}

// The fault of an operation's pieces or counts against what its version sees.
fn part_fault(
    applied: &AppliedList,
    fragments: &SumTree<Fragment>,
    shown: &Rope,
    hidden: &Rope,
    op: &Operation,
) -> Option<OpFault>
    requires lawful { Lawful applied.now }
    requires texts { TellTexts fragments.now.items shown.now hidden.now applied.now }
    requires closed { IsClosed applied.now (version_of op.now) }
    ensures { result ≡ part_fault applied.now op.now }
{
    match op {
        Operation::Edit(edit) => {
            range_fault(
                fragments,
                shown,
                hidden,
                &edit.version,
                edit.pieces.as_slice(),
            )
        }
        Operation::Undo(undo) => count_fault(applied, &undo.version, undo.counts.as_slice()),
    }
}

/// The answer to an operation in a buffer with a rule on line endings, where `applied` is a lawful history, `have` its version,
/// and `fragments`, `shown` and `hidden` its cells, its text and its hidden text. Does not allocate.
///
/// Logarithmic in what is applied and waits for each replica that the operation has seen and each count of an undo. For an edit
/// one descent among the fragments and two for each end of a range, which go round each run of fragments of which the
/// operation has seen all or none; the rule `Lf` reads the operation's texts, and no other text is walked.
pub fn judge(
    endings: Endings,
    applied: &AppliedList,
    waiting: &Deferred,
    have: &Version,
    fragments: &SumTree<Fragment>,
    shown: &Rope,
    hidden: &Rope,
    op: &Operation,
) -> Verdict
    requires lawful { Lawful applied.now }
    requires waiting { Distinct waiting.now }
    requires version { have.now ≡ version applied.now }
    requires texts { TellTexts fragments.now.items shown.now hidden.now applied.now }
    ensures { answer_of result ≡ answer_under endings applied.now waiting.now op.now }
{
    if let Err(fault) = shape(op) {
        return Verdict::Refused(fault.into());
    }
    if let Some(fault) = rule_fault(endings, op) {
        return Verdict::Refused(fault);
    }
    if let Some(verdict) = stamp_verdict(applied, waiting, have, op) {
        return verdict;
    }
    if let Some(verdict) = cause_verdict(applied, have, op) {
        return verdict;
    }
    match part_fault(applied, fragments, shown, hidden, op) {
        Some(fault) => Verdict::Refused(fault),
        None => Verdict::Good,
    }
}
