//! The fault that a local undo meets.
ghost use Rattle.std.specs.Prelude.{◌≡◌, ◌+◌, ◌==◌, [], ◌∷◌, length, option_map, not, Some, None};
ghost use Rattle.std.specs.List.{find};
ghost use Rattle.lamport_clock.specs.Clocks.{last_value};
ghost use Rattle.op_model.specs.Choice.{first_of, when};
ghost use Rattle.op_model.specs.Histories.{Distinct, clock, has_edit};
ghost use Rattle.op_model.specs.Limited.{excess};
ghost use Rattle.op_model.specs.Made.{local_undo_fault};
ghost use Rattle.op_model.specs.declared.limits.Limits.{Limits as LimitsType};
ghost use Rattle.op_model.specs.declared.faults.UndoFault.TheVariants.{ClockEnd, Full};
ghost use Rattle.undo_map.specs.Counts.{count_of};
ghost use Rattle.undo_map.specs.Undos.{undo_entries};
ghost use Rattle.op_answers.specs.LocalUndo.{listed_fault};

use crate::twice::first_twice;
use applied_ops::AppliedList;
use lamport_clock::Lamport;
use op_model::UndoFault;
use std::alloc::Global;
use undo_map::UndoMap;

// The first stamp that is no applied edit.
fn first_unknown(applied: &AppliedList, edits: &[Lamport]) -> Option<Lamport>
    requires { Distinct applied.now }
    ensures { result ≡ find (λ t. not (has_edit applied.now t)) edits.now }
{
    for &edit in edits {
        if !applied.has_edit(edit) {
            return Some(edit);
        }
    }
    None
}

// The first stamp whose count stands at its end.
fn first_at_end(undos: &UndoMap, edits: &[Lamport]) -> Option<Lamport>
    ensures { result ≡ find (λ t. count_of undos.now t == last_value) edits.now }
{
    for &edit in edits {
        if undos.count(edit) == u32::MAX {
            return Some(edit);
        }
    }
    None
}

/// The fault that an undo of edits meets, but for those of the clock and the limits, which come behind: of the faults in
/// the order of `UndoFault` the first, each for the first stamp in the list that meets it. `undos` has the undo counts of
/// the applied operations. It never fails if an allocation does: memory only speeds up the search for a stamp that is named
/// twice. Linear in the list times the logarithm of what is applied.
pub fn listed_fault(
    alloc: Global,
    applied: &AppliedList,
    undos: &UndoMap,
    edits: &[Lamport],
) -> Option<UndoFault>
    requires distinct { Distinct applied.now }
    requires counts { undos.now ≡ undo_entries applied.now }
    ensures fault { result ≡ listed_fault applied.now edits.now }
    ensures local { (l : LimitsType) → local_undo_fault l applied.now edits.now
        ≡ first_of (result ∷ when (clock applied.now == last_value) ClockEnd
        ∷ option_map (λ e. Full e.unit e.held e.adds)
        (excess l applied.now 0 (1 + length edits.now)) ∷ []) }
    ensures room { result ≡ None → find (λ t. count_of undos.now t == last_value) edits.now ≡ None }
{
    if let Some(edit) = first_unknown(applied, edits) {
        return Some(UndoFault::NoSuchEdit(edit));
    }
    if let Some(edit) = first_twice(alloc, edits) {
        return Some(UndoFault::Twice(edit));
    }
    if let Some(edit) = first_at_end(undos, edits) {
        return Some(UndoFault::CountEnd(edit));
    }
    None
}
