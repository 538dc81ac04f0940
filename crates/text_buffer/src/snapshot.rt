//! Snapshots: what a buffer was at one time.
ghost use Rattle.std.specs.Prelude.{◌≡◌, IfOk};
ghost use Rattle.op_model.specs.Histories.{SameSet, version};
ghost use Rattle.op_model.specs.Shown.{text};
ghost use Rattle.text_buffer.specs.Buffer.{BufferState};
ghost use Rattle.text_buffer.specs.Calls.{Reaches};
ghost use Rattle.text_buffer.specs.Document.{IsFront, IsBufferHistory};

use crate::document::Document;
use crate::{Buffer, OutOfMemory};
use applied_ops::Applied;
use lamport_clock::Version;
use rope_chunks::Rope;
use std::marker::Model;
use sum_tree::SumTree;

/// What a buffer was at one time: its applied operations, and what they make. Contracts see it as the list of its applied
/// operations, the base first, each of which is good against those before it; all its answers are functions of this list. It
/// shares everything with the buffer and with other snapshots, and never changes.
///
/// # Examples
///
/// [`Buffer::snapshot`] makes one. Each call stands in a function of this repository, of a program or of a test:
///
/// - `text` and `resolve`: `search` of `crates/embed/src/main.rt`; `anchor`: `anchor_at` there
/// - `compare`: `answers`, `text_at`: `text_is`, `since`: `edits_are`, `share`: `count_stays`, and `applied` and `version`:
///   `has_applied`, of `crates/buffer_tests/src/steps.rt`
/// - `known`, which is for proofs: [`snapshots_agree`]
#[derive(Drop)]
pub struct Snapshot {
    pub(crate) document: Document,
}

impl Model for Snapshot {
    ghost use Rattle.std.specs.Prelude.{List};
    ghost use Rattle.op_model.specs.declared.operation.Operation.{Operation};

    ghost Value = { List Operation };

    ghost view = { λ s. s.document };
}

impl Buffer {
    /// What the buffer is now. Everything is shared and nothing is copied: constant time.
    ///
    /// # Errors
    ///
    /// `OutOfMemory` if an allocation fails.
    pub fn snapshot(&self) -> Result<Snapshot, OutOfMemory>
        ensures { IfOk result (λ s. s ≡ self.now.history) }
    {
        let document = self.document.share()?;
        Ok(Snapshot { document })
    }
}

impl Snapshot {
    /// An equal snapshot that shares everything with it. Nothing is copied: constant time.
    ///
    /// # Errors
    ///
    /// `OutOfMemory` if an allocation fails.
    pub fn share(&self) -> Result<Snapshot, OutOfMemory>
        ensures { IfOk result (λ s. s ≡ self.now) }
    {
        Ok(Snapshot {
            document: self.document.share()?,
        })
    }

    /// The text. Constant time; does not allocate.
    pub fn text(&self) -> &Rope
        ensures { result.now ≡ text self.now }
    {
        self.document.text()
    }

    /// The applied operations, in their order, the base first. Constant time; does not allocate.
    pub fn applied(&self) -> &SumTree<Applied>
        ensures { result.now.items ≡ self.now }
    {
        self.document.operations().tree()
    }

    /// The greatest stamp value applied of each replica, the base's among them. Constant time; does not allocate.
    pub fn version(&self) -> &Version
        ensures { result.now ≡ version self.now }
    {
        self.document.version()
    }

    /// Says what is true of every snapshot, for callers' proofs: its list is lawful, and more. Does nothing when it runs.
    pub fn known(&self)
        ensures { IsBufferHistory self.now }
    {
        self.document.known()
    }
}

/// Two snapshots of the same operations, in whatever order, show the same text.
pub fn snapshots_agree(a: &Snapshot, b: &Snapshot)
    ensures { SameSet a.now b.now → text a.now ≡ text b.now }
{
    a.known();
    b.known();
}

/// The operations of a snapshot stand first among those of a later one of the same buffer, in the same order, whatever calls came
/// between the two, even if allocations failed in some of these calls.
pub fn snapshots_append(earlier: &Snapshot, later: &Snapshot)
    ensures { (b n : BufferState) → Reaches b n → earlier.now ≡ b.history
        → later.now ≡ n.history → IsFront earlier.now later.now }
{
    earlier.known();
    later.known();
}
