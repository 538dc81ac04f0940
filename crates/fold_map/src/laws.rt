//! Laws of what fold maps answer, shown by functions that do nothing.
ghost use Rattle.std.specs.Prelude.{◌≡◌};
ghost use Rattle.op_model.specs.Histories.{SameSet};
ghost use Rattle.fold_map.specs.Laws.{ShowAlike, PlacesComeBack};

use crate::map::FoldMap;

/// Maps with the same folds over snapshots of the same operations answer alike, whatever calls have led to them. So after every list
/// of calls a map answers as one that was made from nothing with its present folds and snapshot.
pub fn fold_maps_show_alike(a: &FoldMap, b: &FoldMap)
    ensures { SameSet a.now.history b.now.history → a.now.folds ≡ b.now.folds
        → ShowAlike a.now b.now }
{
    a.known();
    b.known();
}

/// The place of the shown place of a place is that place again, unless it is strictly inside what a ⋯ stands for.
pub fn places_come_back(map: &FoldMap)
    ensures { PlacesComeBack map.now }
{
    map.known();
}
