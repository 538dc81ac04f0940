//! The laws of selections, as functions that do nothing.
ghost use Rattle.std.specs.Prelude.{◌≡◌, Option};
ghost use Rattle.op_model.specs.Histories.{SameSet};
ghost use Rattle.selections.specs.Laws.{EqualSelectionsAreSame, NewestAreKept, OneAuthorChanges, SameOperationsSameKept};
ghost use Rattle.selections.specs.Places.{places_of};
ghost use Rattle.selections.specs.declared.selection.SelectionOp.{SelectionOp};

use text_buffer::{Snapshot, snapshots_answer_alike};

/// `SelectionOp::same` says which operations are equal.
pub fn equal_selections_are_same()
    ensures { EqualSelectionsAreSame }
{}

/// An operation that is kept is the one of its author, and those of the others stay.
pub fn one_author_changes()
    ensures { OneAuthorChanges }
{}

/// Whatever operations a new set makes and takes, in any order and with repeats, it keeps for each author the one
/// with the greatest stamp.
pub fn newest_are_kept()
    ensures { NewestAreKept }
{}

/// Two sets that made or took the same operations, no two of them with one stamp, keep the same.
pub fn same_operations_same_kept()
    ensures { SameOperationsSameKept }
{}

/// On two snapshots of the same operations, in whatever order, selections have the same places, and the same are
/// unknown.
pub fn same_sets_same_places(a: &Snapshot, b: &Snapshot)
    ensures { SameSet a.now b.now → (o : Option SelectionOp)
        → places_of a.now o ≡ places_of b.now o }
{
    snapshots_answer_alike(a, b);
}
