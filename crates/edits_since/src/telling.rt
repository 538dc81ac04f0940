//! The edits since a version.
ghost use Rattle.std.specs.Prelude.{◌≡◌, ◌+◌, ◌<◌, ◌^◌, IfOk, OnOk};
ghost use Rattle.edits_since.specs.Fates.{was_in_text};
ghost use Rattle.edits_since.specs.Opened.{old_end, new_end, with_kept, with_bytes};
ghost use Rattle.edits_since.specs.Telling.{AreSince};

use crate::differ::{MayDiffer, was_in_text};
use crate::open_run::OpenRun;
use crate::{Edits, OutOfMemory};
use fragments::Fragment;
use lamport_clock::Version;
use remote_edit::Passed;
use std::alloc::Global;
use sum_tree::SumTree;
use tree_cursor::FilterCursor;
use undo_map::UndoMap;

// Goes over bytes that are kept, and then over a fragment.
fn go_over(
    run: &mut OpenRun,
    kept: u64,
    fragment: &Fragment,
    undos: &UndoMap,
    version: &Version,
) -> Result<(), OutOfMemory>
    requires old { old_end run.old + kept + fragment.now.len < 2 ^ 64 }
    requires new { new_end run.old + kept + fragment.now.len < 2 ^ 64 }
    ensures { OnOk result (run.new
        ≡ with_bytes fragment.now.len
        (was_in_text undos.now version.now fragment.now) fragment.now.visible
        (with_kept kept run.old)) }
{
    run.keep(kept)?;
    run.pass(
        fragment.len,
        was_in_text(fragment, undos, version),
        fragment.visible,
    )
}

/// The edits that take the text that a version saw to the text now, where the fragments and the undo counts stand for a
/// history in which the version is closed. Ranges are in bytes, old ones in the text then and new ones in the text now. There
/// is one edit for each maximal run without a byte that is in both texts, where it has a byte of either; bytes that are in
/// neither join no runs and part none.
///
/// Runs of fragments of which the version has seen all (their edits, their deletions and the undos of these) are passed over
/// whole. So the cost grows with the number of fragments that came, were deleted or were counted by an undo since, times the
/// height, and for each of them with its deletions. It allocates for the edits alone, and fails only if an allocation fails.
pub fn since(
    alloc: Global,
    tree: &SumTree<Fragment>,
    undos: &UndoMap,
    version: &Version,
) -> Result<Edits, OutOfMemory>
    ensures { IfOk result (λ es. AreSince tree.now.items undos.now version.now es) }
{
    tree.known();
    let mut run = OpenRun::new(alloc);
    let mut at = Passed {
        visible: 0,
        hidden: 0,
    };
    let mut found = FilterCursor::new(tree, at, MayDiffer { version })?;
    while let Some(fragment) = found.next()? {
        let kept = found.start().visible - at.visible;
        go_over(&mut run, kept, fragment, undos, version)?;
        at = found.end();
    }
    run.keep(found.start().visible - at.visible)?;
    run.finish()
}
