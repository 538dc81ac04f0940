//! Which fragments may have changed since a version, and which were in its text.
ghost use Rattle.std.specs.Prelude.{◌≡◌};
ghost use Rattle.edits_since.specs.Fates.{was_in_text};

use fragments::{Fragment, FragmentSummary};
use lamport_clock::Version;
use remote_edit::was_shown;
use tree_cursor::Keep;
use undo_map::UndoMap;

// Which runs of fragments may have changed since a version: those that have seen more than it. A fragment's sum has seen its
// edit, its deletions and each undo that counts one of them.
#[derive(Drop)]
pub(crate) struct MayDiffer<'v> {
    pub(crate) version: &'v Version,
}

impl<'v> Keep<FragmentSummary> for MayDiffer<'v> {
    ghost use Rattle.edits_since.specs.Differs.{may_differ};
    ghost use Rattle.edits_since.specs.DifferLaws.{differ_parts};

    ghost keeps = { λ k s. may_differ k.version.now s };

    ghost parts = { λ k a b p q h. differ_parts k.version.now a b p q h };

    fn keep(&self, s: &FragmentSummary) -> bool {
        !self.version.sees_all(&s.greatest)
    }
}

// Whether a fragment was in the text that the version saw: the version sees its edit, and it was shown there. It is a look-up of the
// undo counts for each of the edits that brought and delete it; does not allocate.
pub(crate) fn was_in_text(fragment: &Fragment, undos: &UndoMap, version: &Version) -> bool
    ensures { result ≡ was_in_text undos.now version.now fragment.now }
{
    version.sees(fragment.stamp) && was_shown(fragment, undos, version)
}
