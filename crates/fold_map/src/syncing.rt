//! Going on to later snapshots.
ghost use Rattle.std.specs.Prelude.{◌≡◌, ℕ, ◌+◌, ◌-◌, ◌^◌, ◌<◌, ◌≤◌, ◌⊎◌, Some, None, IfErr, IfOk, OnErr, OnOk};
ghost use Rattle.op_model.specs.Histories.{version};
ghost use Rattle.op_model.specs.Since.{since};
ghost use Rattle.fold_map.specs.Calls.{older_replica, IsWithin};
ghost use Rattle.fold_map.specs.Numbered.{AreFolds, AreSpansOf};
ghost use Rattle.fold_map.specs.Windows.{run_after, AreInOrder, IsLastWindow};

use crate::folds::Folds;
use crate::map::FoldMap;
use crate::windows::{make_again, ranges_in};
use crate::{OutOfMemory, Snapshot, SyncFault};
use fold_spans::{Spans, Touching};
use op_model::TextEdit;
use std::alloc::Global;
use text_buffer::Edits;

// The edits since an older snapshot. The later one has all its operations, so it knows its version, and only an allocation can fail.
fn edits_since(old: &Snapshot, snapshot: &Snapshot) -> Result<Edits, OutOfMemory>
    ensures { IfOk result (λ edits. edits ≡ since snapshot.now (version old.now)) }
{
    match snapshot.since(old.version()) {
        Ok(edits) => Ok(edits),
        Err(_) => Err(OutOfMemory),
    }
}

// The last edits that share spans: the index of the first of them, and the run of the spans from those that the first one touches
// to those that the last one touches. None if there are no edits. O(log n) for each of them.
fn last_window(spans: &Spans, edits: &[TextEdit]) -> Option<(usize, Touching)>
    requires { AreInOrder edits.now }
    ensures { IsLastWindow spans.now edits.now result }
{
    let last = edits.last()?;
    let mut first = edits.len() - 1;
    let mut run = spans.touching(last.old.0, last.old.1);
    while first > 0 && run.start <= edits[first - 1].old.1 {
        first -= 1;
        run = spans.touching(edits[first].old.0, last.old.1);
    }
    Some((first, run))
}

// A run of spans from those that the edit `first` touches to those that the edit `last` touches, with its places in the new text.
fn run_after(run: &Touching, first: &TextEdit, last: &TextEdit) -> Touching
    requires start { run.now.start ≤ first.now.old.0 }
    requires kept { first.now.old.0 - run.now.start ≤ first.now.new.0 }
    requires end { last.now.old.1 ≤ run.now.end }
    requires room { last.now.new.1 + (run.now.end - last.now.old.1) < 2 ^ 64 }
    ensures { result ≡ run_after run.now first.now last.now }
{
    Touching {
        from: run.from,
        to: run.to,
        start: first.new.0 - (first.old.0 - run.start),
        end: last.new.1 + (run.end - last.old.1),
    }
}

// The spans of a later snapshot: those that its edits touch are made again, window by window from the last one, and the others stay.
fn spans_after(
    alloc: Global,
    old: &Snapshot,
    snapshot: &Snapshot,
    folds: &Folds,
    spans: &Spans,
) -> Result<Spans, OutOfMemory>
    requires within { IsWithin old.now snapshot.now }
    requires folds { AreFolds old.now folds.now }
    requires spans { AreSpansOf old.now folds.now spans.now }
    ensures { IfOk result (λ made. AreSpansOf snapshot.now folds.now made) }
{
    old.known();
    snapshot.known();
    folds.known();
    let edits = edits_since(old, snapshot)?;
    let list = edits.as_slice();
    let mut made = spans.share()?;
    // The edits before this index are not done. The spans before those that the others touch have their indexes still.
    let mut left = list.len();
    while let Some((first, run)) = last_window(spans, &list[..left]) {
        let ranges = ranges_in(alloc, snapshot, folds, spans, &run)?;
        let window = run_after(&run, &list[first], &list[left - 1]);
        make_again(alloc, &mut made, &window, ranges)?;
        left = first;
    }
    Ok(made)
}

impl FoldMap {
    /// Goes on to a snapshot that has all operations of the map's own, of the same buffer or of another one. The folds stay, and
    /// their ranges follow the text.
    ///
    /// # Errors
    ///
    /// `Older` exactly if the snapshot has less of some replica than the map's own, with the least such replica. Else `OutOfMemory`
    /// if an allocation fails. The map is then as before.
    pub fn sync(&mut self, snap: Snapshot) -> Result<(), SyncFault>
        requires { older_replica self.old.history snap ≡ None → IsWithin self.old.history snap }
        ensures ok { OnOk result (self.new ≡ record { history = snap; folds = self.old.folds }) }
        ensures newer { OnOk result (older_replica self.old.history snap ≡ None) }
        ensures fault { IfErr result (λ e. ((r : ℕ) × (older_replica self.old.history snap ≡ Some r)
            × (e ≡ SyncFault.Older r))
            ⊎ ((older_replica self.old.history snap ≡ None) × (e ≡ SyncFault.OutOfMemory))) }
        ensures err { OnErr result (self.new ≡ self.old) }
    {
        if let Some((replica, _)) = snap.version().first_missing(self.snapshot.version()) {
            return Err(SyncFault::Older(replica));
        }
        self.snapshot.known();
        snap.known();
        let spans = spans_after(self.alloc, &self.snapshot, &snap, &self.folds, &self.spans)?;
        self.snapshot = snap;
        self.spans = spans;
        Ok(())
    }
}
