//! The reader of a pair.
ghost use Rattle.std.specs.Prelude.{◌≡◌, ◌⊎◌, ◌∷◌, true, false, IfOk, OnErr, OnOk};
ghost use Rattle.text_buffer.specs.Document.{IsFront};
ghost use Rattle.snapshot_pub.specs.Logs.{pair_of};
ghost use Rattle.snapshot_pub.specs.States.{SeesMore};

use crate::OutOfMemory;
use crate::kept::Kept;
use crate::publisher::Told;
use crate::steps::{ReadEnd, look_in};
use std::marker::{Brand, Model};
use text_buffer::Snapshot;

/// A reader of snapshots, which never gives one that lacks what it gave or learned before. Contracts see which pair it is
/// of, the longest list that it gave or learned, the lists that its steps enter saw, and whether the last Ok of `latest`
/// entered.
///
/// # Examples
///
/// `latest`: `gives`, `learn`: `publish_and_tell`, `entered`: `shows`, of `crates/session_tests/src/pairs.rt`.
#[derive(Drop)]
pub struct SnapReader {
    pub(crate) end: ReadEnd,
    pub(crate) longest: Kept,
    pub(crate) entered: bool,
}

impl Model for SnapReader {
    ghost use Rattle.snapshot_pub.specs.States.{ReaderState};

    ghost Value = { ReaderState };

    ghost use Rattle.snapshot_pub.specs.Fields.{reader_state, IsOwn};

    ghost view = { reader_state };

    ghost invariant = { IsOwn };
}

impl SnapReader {
    /// Whether the last Ok of `latest` entered; false before the first.
    pub fn entered(&self) -> bool
        ensures { result ≡ self.now.entered }
    {
        self.entered
    }

    /// The snapshot that is shown; where the reader cannot enter its pair, the longest that it gave or learned. It begins
    /// with each of these, and is shared, not copied. Waits for nobody.
    ///
    /// # Errors
    ///
    /// `OutOfMemory` alone. What was given and learned is then as before; what is shown may have been seen.
    pub fn latest(&mut self) -> Result<Snapshot, OutOfMemory>
        ensures pair { self.new.pair ≡ self.old.pair }
        ensures gives { IfOk result (λ s. s ≡ self.new.longest) }
        ensures begins { IsFront self.old.longest self.new.longest }
        ensures entered { OnOk result (self.new.entered ≡ true
            → self.new.seen ≡ self.new.longest ∷ self.old.seen) }
        ensures unentered { OnOk result (self.new.entered ≡ false
            → (self.new.longest ≡ self.old.longest) × (self.new.seen ≡ self.old.seen)) }
        ensures seen { SeesMore self.old.seen self.new.seen }
        ensures err { OnErr result ((self.new.longest ≡ self.old.longest)
            × (self.new.entered ≡ self.old.entered)) }
    {
        match look_in::<Brand>(&mut self.end, &self.longest)? {
            Some(kept) => self.take(kept),
            None => {
                let snapshot = self.longest.snapshot.share()?;
                self.entered = false;
                Ok(snapshot)
            }
        }
    }

    // Gives what the step enter has just seen.
    fn take(&mut self, kept: Kept) -> Result<Snapshot, OutOfMemory>
        requires own { pair_of kept.reached.book kept.reached.log ≡ self.old.pair }
        requires begins { IsFront self.old.longest kept.snapshot }
        ensures pair { self.new.pair ≡ self.old.pair }
        ensures seen { self.new.seen ≡ self.old.seen }
        ensures gives { IfOk result (λ s. (s ≡ kept.snapshot)
            × (self.new.longest ≡ kept.snapshot)) }
        ensures entered { OnOk result (self.new.entered ≡ true) }
        ensures err { OnErr result ((self.new.longest ≡ self.old.longest)
            × (self.new.entered ≡ self.old.entered)) }
    {
        let snapshot = kept.snapshot.share()?;
        self.longest = kept;
        self.entered = true;
        Ok(snapshot)
    }

    /// Takes in a token of its own pair. Waits for nobody and does not allocate.
    pub fn learn(&mut self, told: Told)
        requires { told.pair ≡ self.old.pair }
        ensures pair { self.new.pair ≡ self.old.pair }
        ensures learned { IsFront told.list self.new.longest }
        ensures begins { IsFront self.old.longest self.new.longest }
        ensures one { (self.new.longest ≡ self.old.longest) ⊎ (self.new.longest ≡ told.list) }
        ensures stays { (self.new.seen ≡ self.old.seen) × (self.new.entered ≡ self.old.entered) }
    {
        let Told { kept } = told;
        if kept.begins_with(&self.longest) {
            self.longest = kept;
        }
    }
}
