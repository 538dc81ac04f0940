//! The publisher: the writer's ends of all pairs.
ghost use Rattle.std.specs.Prelude.{◌≡◌, ◌<◌, [], ◌∷◌, length, IfOk, MatchResult, slice_set, slice_index_or};
ghost use Rattle.left_right.specs.Sides.{view};
ghost use Rattle.text_buffer.specs.Document.{IsFront};
ghost use Rattle.snapshot_pub.specs.Logs.{log_list, pair_of};

use crate::OutOfMemory;
use crate::growth::Growth;
use crate::kept::Kept;
use crate::steps::{WriteEnd, show_in};
use std::marker::Model;
use std::sync::Wait;
use text_buffer::Snapshot;

/// A token: what was published to one pair, for its reader to learn. Contracts see the pair and the list. It may be sent
/// to any thread.
#[derive(Drop)]
pub struct Told {
    pub(crate) kept: Kept,
}

impl Model for Told {
    ghost use Rattle.snapshot_pub.specs.States.{ToldState};

    ghost Value = { ToldState };

    ghost use Rattle.snapshot_pub.specs.Fields.{told_state};

    ghost view = { told_state };
}

/// The publisher's side of a pair, in which something is shown.
pub struct Side {
    pub(crate) end: WriteEnd,
    pub(crate) growth: Growth,
    ghost seen: { view end.desk.place ≡ end.desk.shown.value ∷ [] },
    ghost own: { pair_of end.desk.shown.value.reached.book end.desk.shown.value.reached.log
        ≡ pair_of growth.reached.book growth.reached.log },
    ghost level: { log_list growth.reached.log ≡ end.desk.shown.value.snapshot },
}

impl Side {
    /// Shows the snapshot. If an allocation fails, readers see what they saw.
    pub(crate) fn publish<R: Wait>(
        &mut self,
        rt: &R,
        snapshot: &Snapshot,
    ) -> Result<(), OutOfMemory>
        requires { IsFront self.old.end.desk.shown.value.snapshot snapshot.now }
        ensures own { pair_of self.new.growth.reached.book self.new.growth.reached.log
            ≡ pair_of self.old.growth.reached.book self.old.growth.reached.log }
        ensures shown { MatchResult result (λ _. self.new.end.desk.shown.value.snapshot
            ≡ snapshot.now) (λ _. self.new.end.desk.shown.value.snapshot
            ≡ self.old.end.desk.shown.value.snapshot) }
    {
        // Only this can fail. Nothing has changed yet.
        let snapshot = snapshot.share()?;
        let kept = self.growth.grow(snapshot);
        show_in(&mut self.end, rt, kept);
        Ok(())
    }

    /// What is shown.
    pub(crate) fn tell(&self) -> Result<Told, OutOfMemory>
        ensures pair { IfOk result (λ t. t.pair
            ≡ pair_of self.now.growth.reached.book self.now.growth.reached.log) }
        ensures list { IfOk result (λ t. t.list ≡ self.now.end.desk.shown.value.snapshot) }
    {
        Ok(Told {
            kept: self.end.published().share()?,
        })
    }

    /// Ends the writer.
    pub(crate) fn close<R: Wait>(self, rt: &R) {
        let Side {
            end,
            growth: _growth,
        } = self;
        end.take(rt);
    }
}

/// Shows snapshots to readers, each in a pair of its own. Contracts see which pairs there are, and the list that was last
/// published to each. It is not `Drop`: end it by `close`.
///
/// # Examples
///
/// `publish`: `publish_both`, `tell`: `publish_and_tell`, `close`: `both_show`, of `crates/session_tests/src/pairs.rt`.
pub struct Publisher {
    pub(crate) sides: Vec<Side>,
}

impl Model for Publisher {
    ghost use Rattle.snapshot_pub.specs.States.{PublisherState};

    ghost Value = { PublisherState };

    ghost use Rattle.snapshot_pub.specs.Fields.{publisher_state};

    ghost view = { publisher_state };
}

impl Publisher {
    /// Shows the snapshot in pair `i` alone, counted from 0, by one exchange. Before that it waits until the pair's reader
    /// has left what was shown before the last publish. Nothing is copied or allocated.
    ///
    /// # Errors
    ///
    /// `OutOfMemory` alone, if the snapshot cannot be shared since the count of its owners is full. This comes first: nothing
    /// has changed then, and a later call may succeed. Nothing after it can fail.
    pub fn publish<R: Wait>(
        &mut self,
        rt: &R,
        i: u32,
        snapshot: &Snapshot,
    ) -> Result<(), OutOfMemory>
        requires pair { i < length self.old.published }
        requires grows { IsFront (slice_index_or self.old.published i []) snapshot.now }
        ensures pairs { self.new.pairs ≡ self.old.pairs }
        ensures published { MatchResult result (λ _. self.new.published
            ≡ slice_set self.old.published i snapshot.now)
            (λ _. self.new.published ≡ self.old.published) }
    {
        self.sides[i as usize].publish(rt, snapshot)
    }

    /// What was last published to pair `i`, counted from 0. Waits for nobody.
    ///
    /// # Errors
    ///
    /// `OutOfMemory` alone.
    pub fn tell(&self, i: u32) -> Result<Told, OutOfMemory>
        requires { i < length self.now.published }
        ensures pair { IfOk result (λ t. t.pair ≡ slice_index_or self.now.pairs i t.pair) }
        ensures list { IfOk result (λ t. t.list ≡ slice_index_or self.now.published i []) }
    {
        self.sides[i as usize].tell()
    }

    /// Ends the writer of each pair. Readers then give the longest that they gave or learned.
    pub fn close<R: Wait>(self, rt: &R) {
        let Publisher { sides } = self;
        close_all(rt, sides);
    }
}

/// Ends the writer of each side.
pub(crate) fn close_all<R: Wait>(rt: &R, mut sides: Vec<Side>) {
    while let Some(side) = sides.pop() {
        side.close(rt);
    }
    sides.destroy_empty();
}
