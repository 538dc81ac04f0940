//! The excerpts of a session, line by line.
ghost use Rattle.std.specs.Prelude.{◌≡◌, ◌<◌, ◌^◌, [], length, Some, IfOk, OnErr, OnOk};
ghost use Rattle.session_excerpts.specs.Lines.{after_excerpt, after_sync_of, excerpt_report, medit_split, multi_report};
ghost use Rattle.session_excerpts.specs.State.{GoOnAt, HasRoomAt, StopsInSync};

use crate::{OutOfMemory, SplitAnswer, multi};
use multi_buffer::MultiBuffer;
use op_model::{Pieces, Text};
use session_more::MoreReport;
use std::alloc::Global;
use std::collections::BTreeMap;
use std::marker::Model;
use text_buffer::Snapshot;

/// The multibuffers of a session, each under its name. Contracts see what is under each name.
///
/// The snapshots that a call takes are of the buffers of all replicas, in the header's order, and each has all
/// operations of the one that the last call of that name took. What is under the name is synced with them first. If an
/// allocation fails, it has been synced with the first of them, maybe with none or all, and nothing else has changed.
///
/// The replica with index I in the header is buffer I of each multibuffer. So the parts of a split line, whose buffers
/// ascend, are in the order in which the report has the replicas.
#[derive(Drop)]
pub struct SessionExcerpts {
    multis: BTreeMap<String, MultiBuffer>,
}

impl Model for SessionExcerpts {
    ghost use Rattle.session_excerpts.specs.State.{Multis};
    ghost use Rattle.session_selections.specs.Names.{by_bytes};

    ghost Value = { Multis };

    ghost view = { λ s. by_bytes s.multis.entries };
}

impl SessionExcerpts {
    /// No excerpts, under no name. Does not allocate.
    pub fn new(alloc: Global) -> SessionExcerpts
        ensures { result ≡ [] }
    {
        SessionExcerpts {
            multis: BTreeMap::new(alloc),
        }
    }

    /// Works an `excerpt` line: a range of the text of the replica with that index becomes the next excerpt under the
    /// name. Returns the line of the report. There may be at most 2^20 excerpts under a name.
    ///
    /// Linear in the number of replicas and in the excerpts of those that have changed, and logarithmic in the names.
    ///
    /// # Errors
    ///
    /// `OutOfMemory` if an allocation fails.
    pub fn excerpt(
        &mut self,
        alloc: Global,
        name: Text,
        replica: usize,
        snapshots: Vec<Snapshot>,
        start: u64,
        end: u64,
    ) -> Result<MoreReport, OutOfMemory>
        requires count { length snapshots.items < 2 ^ 32 }
        requires replica { replica < length snapshots.items }
        requires within { GoOnAt name snapshots.items self.old }
        requires room { HasRoomAt name self.old }
        ensures report { IfOk result
            (λ r. excerpt_report name replica start end snapshots.items self.old ≡ Some r) }
        ensures state { OnOk result
            (self.new ≡ after_excerpt name replica start end snapshots.items self.old) }
        ensures err { OnErr result (StopsInSync name snapshots.items self.old self.new) }
    {
        if let Some(multi) = self.multis.get_mut(name.as_str()) {
            let answer = multi::put_excerpt(multi, replica, snapshots, start, end)?;
            return Ok(MoreReport::Excerpt { name, answer });
        }
        let mut multi = MultiBuffer::new(alloc)?;
        let answer = multi::put_excerpt(&mut multi, replica, snapshots, start, end)?;
        self.multis
            .insert(String::from_str(alloc, name.as_str())?, multi)?;
        Ok(MoreReport::Excerpt { name, answer })
    }

    /// Works a `multi` line: the text of the excerpts under the name. Returns the line of the report, or `None` if no
    /// `excerpt` line of the name was worked.
    ///
    /// Linear in the text, in the number of replicas and in the excerpts of those that have changed, and logarithmic
    /// in the names.
    ///
    /// # Errors
    ///
    /// `OutOfMemory` if an allocation fails.
    pub fn multi(
        &mut self,
        name: Text,
        snapshots: Vec<Snapshot>,
    ) -> Result<Option<MoreReport>, OutOfMemory>
        requires count { length snapshots.items < 2 ^ 32 }
        requires within { GoOnAt name snapshots.items self.old }
        ensures report { IfOk result (λ r. r ≡ multi_report name snapshots.items self.old) }
        ensures state { OnOk result (self.new ≡ after_sync_of name snapshots.items self.old) }
        ensures err { OnErr result (StopsInSync name snapshots.items self.old self.new) }
    {
        let Some(multi) = self.multis.get_mut(name.as_str()) else {
            return Ok(None);
        };
        let text = multi::text(multi, snapshots)?;
        Ok(Some(MoreReport::Multi { name, text }))
    }

    /// Splits the changes of a `medit` line into the pieces by which the replicas are to be edited, or says why none
    /// is. Returns `None` if no `excerpt` line of the name was worked. No replica is edited here.
    ///
    /// Besides `MultiBuffer::split`, linear in the number of replicas and in the excerpts of those that have changed,
    /// and logarithmic in the names.
    ///
    /// # Errors
    ///
    /// `OutOfMemory` if an allocation fails.
    pub fn split(
        &mut self,
        name: &Text,
        snapshots: Vec<Snapshot>,
        changes: &Pieces,
    ) -> Result<Option<SplitAnswer>, OutOfMemory>
        requires count { length snapshots.items < 2 ^ 32 }
        requires within { GoOnAt name.now snapshots.items self.old }
        ensures answer { IfOk result
            (λ a. a ≡ medit_split name.now changes.now snapshots.items self.old) }
        ensures state { OnOk result (self.new ≡ after_sync_of name.now snapshots.items self.old) }
        ensures err { OnErr result (StopsInSync name.now snapshots.items self.old self.new) }
    {
        let Some(multi) = self.multis.get_mut(name.as_str()) else {
            return Ok(None);
        };
        Ok(Some(multi::split(multi, snapshots, changes.as_slice())?))
    }
}
