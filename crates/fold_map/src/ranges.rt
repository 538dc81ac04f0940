//! Where folds lie in the text of a snapshot.
ghost use Rattle.std.specs.Prelude.{◌≡◌, true};
ghost use Rattle.op_model.specs.Anchors.{place, is_known};
ghost use Rattle.fold_map.specs.Folds.{IsFold};
ghost use Rattle.fold_map.specs.Numbered.{fold_of, numbered_range};

use crate::Snapshot;
use crate::fold::NumberedFold;
use fold_spans::FoldRange;
use op_model::Anchor;

// The place of an anchor of a fold.
fn place(snapshot: &Snapshot, anchor: &Anchor) -> u64
    requires { is_known snapshot.now anchor.now ≡ true }
    ensures { result ≡ place snapshot.now anchor.now }
{
    let Ok(place) = snapshot.resolve(anchor) else {
        unreachable!()
    };
    place
}

/// The range of a fold. Does not allocate.
pub(crate) fn range_of(snapshot: &Snapshot, numbered: &NumberedFold) -> FoldRange
    requires { IsFold snapshot.now (fold_of numbered.now) }
    ensures { result ≡ numbered_range snapshot.now numbered.now }
{
    FoldRange {
        start: place(snapshot, &numbered.fold.start),
        end: place(snapshot, &numbered.fold.end),
        number: numbered.number,
    }
}
