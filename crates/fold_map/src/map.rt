//! Fold maps.
ghost use Rattle.std.specs.Prelude.{◌≡◌, [], IfOk};
ghost use Rattle.fold_map.specs.State.{IsFoldState};

use crate::folds::Folds;
use crate::{OutOfMemory, Snapshot};
use fold_spans::Spans;
use std::alloc::Global;
use std::marker::Model;

/// A snapshot's text with folds. Contracts see it as the history of the snapshot and the list of the folds, in the order in which
/// they were made: what is shown and all places follow from these two.
#[derive(Drop)]
pub struct FoldMap {
    pub(crate) alloc: Global,
    pub(crate) snapshot: Snapshot,
    pub(crate) folds: Folds,
    pub(crate) spans: Spans,
}

impl Model for FoldMap {
    ghost use Rattle.fold_map.specs.Folds.{FoldState};
    ghost use Rattle.fold_map.specs.Numbered.{state_of, IsFoldMap};

    ghost Value = { FoldState };

    ghost view = { λ m. state_of m.snapshot m.folds };

    ghost invariant = { λ m. IsFoldMap m.snapshot m.folds m.spans };
}

impl FoldMap {
    /// A map of a snapshot, without folds.
    ///
    /// # Errors
    ///
    /// `OutOfMemory` if an allocation fails.
    pub fn new(alloc: Global, snap: Snapshot) -> Result<FoldMap, OutOfMemory>
        ensures { IfOk result (λ m. m ≡ record { history = snap; folds = [] }) }
    {
        let folds = Folds::new(alloc)?;
        let spans = Spans::new(alloc, snap.text().len())?;
        Ok(FoldMap {
            alloc,
            snapshot: snap,
            folds,
            spans,
        })
    }

    /// What holds of every map, for callers that see only its history and its folds. Does nothing when it runs.
    pub fn known(&self)
        ensures { IsFoldState self.now }
    {
        self.snapshot.known();
    }
}
