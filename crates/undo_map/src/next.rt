//! The counts of a local undo.
ghost use Rattle.std.specs.Prelude.{◌≡◌, ◌==◌, false, IfOk, None, map};
ghost use Rattle.std.specs.List.{find};
ghost use Rattle.lamport_clock.specs.Clocks.{last_value};
ghost use Rattle.op_model.specs.Histories.{History};
ghost use Rattle.op_model.specs.Made.{next_count};
ghost use Rattle.undo_map.specs.Counts.{count_of};
ghost use Rattle.undo_map.specs.Undos.{next_of, undo_entries};

use crate::{OutOfMemory, UndoMap};
use lamport_clock::Lamport;
use op_model::{Counts, UndoCount};
use std::alloc::Global;

// The count that an undo gives an edit: one more than it has.
fn next_count(undos: &UndoMap, edit: Lamport) -> UndoCount
    requires { (count_of undos.now edit == last_value) ≡ false }
    ensures { result ≡ next_of undos.now edit }
{
    UndoCount {
        edit,
        count: undos.count(edit) + 1,
    }
}

/// The counts that an undo of edits, or a redo, gives: each edit's count and one. None of them stands at its end. Where
/// `undos` has the undo counts of a history, these are the counts of the undo made there. For each edit as
/// `UndoMap::count`.
pub fn next_counts(alloc: Global, undos: &UndoMap, edits: &[Lamport]) -> Result<Counts, OutOfMemory>
    requires { find (λ t. count_of undos.now t == last_value) edits.now ≡ None }
    ensures counts { IfOk result (λ cs. cs ≡ map (next_of undos.now) edits.now) }
    ensures history { IfOk result (λ cs. (h : History) → undos.now ≡ undo_entries h
        → cs ≡ map (next_count h) edits.now) }
{
    let mut counts = Vec::with_capacity(alloc, edits.len())?;
    for &edit in edits {
        counts.push(next_count(undos, edit))?;
    }
    Ok(Counts::new(counts))
}
