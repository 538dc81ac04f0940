//! The stamps of the edits that delete a cell.
ghost use Rattle.std.specs.Prelude.{◌≡◌, ◌≤◌, [], length, IsOk, IfOk, OnErr, OnOk};
ghost use Rattle.op_model.specs.Facts.{with_deletion};
ghost use Rattle.fragments.specs.Stamps.{place_of};

use crate::OutOfMemory;
use lamport_clock::{Lamport, is_later};
use smallvec::SmallVec;
use std::alloc::Global;
use std::marker::Model;

/// The number of stamps that are stored inline.
pub const INLINE_STAMPS: usize = 2;

/// A list of stamps. Contracts see it as that list.
///
/// The deletions of a fragment descend. The type itself keeps no such order: `insert` preserves it, and it follows if
/// fragments stand for a history (`Stand`).
///
/// Up to [`INLINE_STAMPS`] stamps are stored inline.
#[derive(Drop)]
pub struct Stamps {
    inner: SmallVec<Lamport, INLINE_STAMPS>,
}

impl Model for Stamps {
    ghost use Rattle.std.specs.Prelude.{List};
    ghost use Rattle.lamport_clock.specs.declared.stamp.Lamport.{Lamport};

    ghost Value = { List Lamport };

    ghost view = { λ s. s.inner.items };
}

impl Stamps {
    /// An empty list. Does not allocate.
    pub fn new(alloc: Global) -> Stamps
        ensures { result ≡ [] }
    {
        Stamps {
            inner: SmallVec::new(alloc),
        }
    }

    /// The stamps of a `Vec`, in its order. Does not allocate: a `Vec` with room for more than [`INLINE_STAMPS`] keeps
    /// its buffer.
    pub fn from_vec(stamps: Vec<Lamport>) -> Stamps
        ensures { result ≡ stamps.items }
    {
        Stamps {
            inner: SmallVec::from_vec(stamps),
        }
    }

    /// The stamps, in order. Does not allocate.
    pub fn as_slice(&self) -> &[Lamport]
        ensures { result.now ≡ self.now }
    {
        self.inner.as_slice()
    }

    /// A copy. Allocates only for more than [`INLINE_STAMPS`] stamps, and fails only if that allocation fails.
    pub fn copy(&self, alloc: Global) -> Result<Stamps, OutOfMemory>
        ensures stamps { IfOk result (λ s. s ≡ self.now) }
        ensures short { length self.now ≤ INLINE_STAMPS → IsOk result }
    {
        Ok(Stamps {
            inner: SmallVec::from_slice(alloc, self.inner.as_slice())?,
        })
    }

    /// Inserts a stamp before the first one that it is later than, so stamps that descend still do. O(n).
    ///
    /// # Errors
    ///
    /// Fails only if an allocation fails. The stamps are then as before.
    pub fn insert(&mut self, t: Lamport) -> Result<(), OutOfMemory>
        ensures ok { OnOk result (self.new ≡ with_deletion t self.old) }
        ensures err { OnErr result (self.new ≡ self.old) }
    {
        let at = place_in(self.inner.as_slice(), t);
        match self.inner.insert(at, t) {
            Ok(()) => Ok(()),
            Err(_) => Err(OutOfMemory),
        }
    }
}

// The number of leading stamps that `t` is not later than.
fn place_in(stamps: &[Lamport], t: Lamport) -> usize
    ensures place { result ≡ place_of t stamps.now }
    ensures within { result ≤ length stamps.now }
{
    let mut at = 0;
    while at < stamps.len() && !is_later(t, stamps[at]) {
        at += 1;
    }
    at
}
