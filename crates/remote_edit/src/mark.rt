//! Fragments that lie in the ranges of an edit.
ghost use Rattle.std.specs.Prelude.{◌≡◌, ◌||◌, not, IfOk};
ghost use Rattle.std.specs.Option.{option_copied};
ghost use Rattle.std.specs.List.{list_all};
ghost use Rattle.lamport_clock.specs.Versions.{sees};
ghost use Rattle.undo_map.specs.Counts.{count_seen, is_odd};
ghost use Rattle.remote_edit.specs.Marks.{was_shown, mark, touch, mark_index, touch_index};

use crate::OutOfMemory;
use fragments::{Fragment, InsertionIndex};
use lamport_clock::{Lamport, Version};
use op_model::EditOp;
use std::alloc::Global;
use undo_map::UndoMap;

/// Marks a fragment in a range of the edit, which deletes it if it was shown to the edit's author, and enters what it
/// deletes in the index. Does nothing if no undo counts are given. Fails only if an allocation fails.
pub fn touch(
    fragment: &mut Fragment,
    alloc: Global,
    edit: &EditOp,
    marks: Option<&UndoMap>,
    index: &mut InsertionIndex,
) -> Result<(), OutOfMemory>
    ensures fragment { IfOk result (λ _. fragment.new ≡ touch
        (option_copied marks.entry) edit.now.stamp edit.now.version fragment.old) }
    ensures index { IfOk result (λ _. index.new ≡ touch_index
        (option_copied marks.entry) edit.now.stamp edit.now.version fragment.old index.old) }
{
    match marks {
        None => Ok(()),
        Some(undos) => mark(fragment, alloc, edit, undos, index),
    }
}

// Marks a fragment in a range of the edit.
fn mark(
    fragment: &mut Fragment,
    alloc: Global,
    edit: &EditOp,
    undos: &UndoMap,
    index: &mut InsertionIndex,
) -> Result<(), OutOfMemory>
    ensures fragment { IfOk result (λ _. fragment.new
        ≡ mark undos.now edit.now.stamp edit.now.version fragment.old) }
    ensures index { IfOk result (λ _. index.new
        ≡ mark_index undos.now edit.now.stamp edit.now.version fragment.old index.old) }
{
    if was_shown(fragment, undos, &edit.version) {
        index.add_deleted(
            alloc,
            edit.stamp,
            fragment.stamp,
            fragment.offset,
            fragment.len,
        )?;
        fragment.visible = false;
        fragment.deletions.insert(edit.stamp)?;
    }
    Ok(())
}

/// Whether a fragment, whose edit the version sees, was shown at that version: its edit was not undone there, and each
/// edit that deletes it and that the version sees was. One look-up of undo counts for each of these edits. Does not
/// allocate.
pub fn was_shown(fragment: &Fragment, undos: &UndoMap, version: &Version) -> bool
    ensures { result ≡ was_shown undos.now version.now fragment.now.stamp fragment.now.deletions }
{
    !undos.was_undone(fragment.stamp, version)
        && all_were_undone(undos, fragment.deletions.as_slice(), version)
}

// Whether each of these edits that the version sees was undone at that version.
fn all_were_undone(undos: &UndoMap, edits: &[Lamport], version: &Version) -> bool
    ensures { result ≡ list_all (λ t. not (sees version.now t) || is_odd
        (count_seen undos.now t version.now)) edits.now }
{
    edits
        .iter()
        .all(|t| !version.sees(*t) || undos.was_undone(*t, version))
}
