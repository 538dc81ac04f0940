//! Versions: the greatest stamp value seen of each replica.
ghost use Rattle.std.specs.Prelude.{◌≡◌, ℕ, ◌<◌, ◌≤◌, [], max, IsOk, IfOk, IfSome, IfNone, OnErr, OnOk, length, slice_get, IsTrue, ◌↔◌};
ghost use Rattle.lamport_clock.specs.Versions.{entry, sees, within, first_unseen, raise, join_versions, put_entry, place_of, front, behind, IsAt, IsVersion, OfSameReplicas};

use crate::{Lamport, OutOfMemory};
use smallvec::SmallVec;
use std::alloc::Global;
use std::marker::Model;

/// The greatest value seen of each replica, 0 if none was seen. Contracts see a version as the list of its entries
/// (replica, value), in ascending order of the replicas, with values above 0.
///
/// Up to four entries are stored in place, without an allocation.
#[derive(Drop)]
pub struct Version {
    entries: SmallVec<(u16, u32), 4>,
}

impl Model for Version {
    ghost use Rattle.std.specs.Prelude.{ℕ, List};
    ghost use Rattle.lamport_clock.specs.Versions.{IsVersion};

    ghost Value = { List (ℕ × ℕ) };

    ghost view = { λ v. v.entries.items };

    ghost invariant = { λ v. IsVersion v.entries.items };
}

impl Version {
    /// The version that has seen nothing.
    pub fn new(alloc: Global) -> Version
        ensures { result ≡ [] }
    {
        Version {
            entries: SmallVec::new(alloc),
        }
    }

    /// The version that has seen the stamp of each of these entries (replica, value), which stand in any order: of each
    /// replica it has the greatest value given. Entries of value 0 are skipped. O(entries · replicas).
    ///
    /// # Errors
    ///
    /// `OutOfMemory` if an allocation fails.
    pub fn from_entries(alloc: Global, entries: &[(u16, u32)]) -> Result<Version, OutOfMemory>
        ensures { IfOk result (λ v. v ≡ join_versions [] entries.now) }
    {
        let mut version = Version::new(alloc);
        for &(replica, value) in entries {
            version.observe(Lamport { value, replica })?;
        }
        Ok(version)
    }

    /// The version with exactly these entries (replica, value), or `None` unless their replicas ascend and their values
    /// are above 0. Linear in their number, where `from_entries` is quadratic.
    ///
    /// # Errors
    ///
    /// `OutOfMemory` if an allocation fails; if the result is `None`, nothing is allocated.
    pub fn from_ascending(
        alloc: Global,
        entries: &[(u16, u32)],
    ) -> Result<Option<Version>, OutOfMemory>
        ensures same { IfOk result (λ made. IfSome made (λ v. v ≡ entries.now)) }
        ensures none { IfOk result (λ made. IfNone made (IsVersion entries.now → ⊥)) }
    {
        if !ascend(entries) {
            return Ok(None);
        }
        Ok(Some(Version {
            entries: SmallVec::from_slice(alloc, entries)?,
        }))
    }

    /// States for callers what holds of every version. The call does nothing.
    pub fn known(&self)
        ensures { IsVersion self.now }
    {
        let _entries = &self.entries;
    }

    /// The entries, in ascending order of the replicas.
    pub fn as_slice(&self) -> &[(u16, u32)]
        ensures entries { result.now ≡ self.now }
        ensures kept { IsVersion self.now }
    {
        self.entries.as_slice()
    }

    /// The greatest value seen of replica `r`, 0 if none was seen. Linear in the number of replicas seen.
    pub fn get(&self, r: u16) -> u32
        ensures { result ≡ entry self.now r }
    {
        value_in(self.entries.as_slice(), r)
    }

    /// The number of replicas seen.
    pub fn len(&self) -> u64
        ensures { result ≡ length self.now }
    {
        self.entries.as_slice().len() as u64
    }

    /// The entry at index `i`, counted from 0: a replica and the greatest value seen of it. Replicas ascend, and values
    /// are above 0. `None` exactly if `i` is out of range.
    pub fn entry(&self, i: u64) -> Option<(u16, u32)>
        ensures { result ≡ slice_get self.now i }
    {
        self.entries.as_slice().get(i as usize).copied()
    }

    /// Whether the stamp is seen: its value is at most the greatest one seen of its replica. Linear in the number of
    /// replicas.
    pub fn sees(&self, t: Lamport) -> bool
        ensures { result ≡ sees self.now t }
    {
        t.value <= self.get(t.replica)
    }

    /// Whether this version sees all that the other sees. Linear in the replicas of both.
    pub fn sees_all(&self, o: &Version) -> bool
        ensures { result ≡ within o.now self.now }
    {
        self.first_missing(o).is_none()
    }

    /// The least replica of which the other version has seen more, and the greatest value that it has seen of it.
    /// Linear in the replicas of both.
    pub fn first_missing(&self, o: &Version) -> Option<(u16, u32)>
        ensures { result ≡ first_unseen self.now o.now }
    {
        unseen_in(self.entries.as_slice(), o.entries.as_slice())
    }

    /// Sees a stamp: raises the value of its replica to the stamp's, if that is greater. Linear in the number of
    /// replicas. Does not allocate if the stamp is seen already.
    ///
    /// # Errors
    ///
    /// `OutOfMemory` if an allocation fails; the version is then unchanged.
    pub fn observe(&mut self, t: Lamport) -> Result<(), OutOfMemory>
        ensures ok { OnOk result (self.new ≡ raise self.old t) }
        ensures err { OnErr result (self.new ≡ self.old) }
    {
        if self.sees(t) {
            return Ok(());
        }
        put(&mut self.entries, t)?;
        Ok(())
    }

    /// Sees all that the other version has seen: of each replica the greater value. Linear in the replicas of both.
    /// Does not allocate if the other has seen nothing more; if both have seen the same replicas, the values are raised
    /// in place.
    ///
    /// # Errors
    ///
    /// `OutOfMemory` if an allocation fails; the version is then unchanged.
    pub fn join(&mut self, o: &Version) -> Result<(), OutOfMemory>
        ensures ok { OnOk result (self.new ≡ join_versions self.old o.now) }
        ensures greater { OnOk result ((r : ℕ)
            → entry self.new r ≡ max (entry self.old r) (entry o.now r)) }
        ensures seen { IsTrue (within o.now self.old) → IsOk result }
        ensures err { OnErr result (self.new ≡ self.old) }
    {
        if self.sees_all(o) {
            return Ok(());
        }
        join_entries(&mut self.entries, o.entries.as_slice())?;
        Ok(())
    }

    /// Returns an equal version. Linear in the number of replicas.
    ///
    /// # Errors
    ///
    /// `OutOfMemory` if an allocation fails.
    pub fn copy(&self, alloc: Global) -> Result<Version, OutOfMemory>
        ensures { IfOk result (λ v. v ≡ self.now) }
    {
        Ok(Version {
            entries: SmallVec::from_slice(alloc, self.entries.as_slice())?,
        })
    }
}

// Whether the replicas ascend and the values are above 0.
fn ascend(entries: &[(u16, u32)]) -> bool
    ensures { IsTrue result ↔ IsVersion entries.now }
{
    let mut least = 0u32;
    for &(replica, value) in entries {
        if (replica as u32) < least || value == 0 {
            return false;
        }
        least = replica as u32 + 1;
    }
    true
}

// The value of a replica, 0 if it has no entry.
fn value_in(entries: &[(u16, u32)], r: u16) -> u32
    ensures { result ≡ entry entries.now r }
{
    for &(replica, value) in entries {
        if replica == r {
            return value;
        }
    }
    0
}

// The number of entries before the place of a replica.
fn place_in(entries: &[(u16, u32)], r: u16) -> usize
    ensures place { result ≡ place_of entries.now r }
    ensures within { result ≤ length entries.now }
{
    let mut at = 0;
    while at < entries.len() && entries[at].0 < r {
        at += 1;
    }
    at
}

// The value of the first entry if it is the replica's, else 0.
fn value_in_front(entries: &[(u16, u32)], r: u16) -> u32
    ensures { result ≡ front entries.now r }
{
    match entries.first() {
        Some(&(replica, value)) if replica == r => value,
        _ => 0,
    }
}

// The entries after the first one if that is the replica's, else all entries.
fn behind(entries: &[(u16, u32)], r: u16) -> &[(u16, u32)]
    ensures { result.now ≡ behind entries.now r }
{
    match entries.split_first() {
        Some((&(replica, _), rest)) if replica == r => rest,
        _ => entries,
    }
}

// The first entry of theirs whose value is greater than ours of its replica.
fn unseen_in(ours: &[(u16, u32)], theirs: &[(u16, u32)]) -> Option<(u16, u32)>
    requires ours { IsVersion ours.now }
    requires theirs { IsVersion theirs.now }
    ensures { result ≡ first_unseen ours.now theirs.now }
{
    let mut rest = ours;
    for &(replica, value) in theirs {
        rest = rest.split_at(place_in(rest, replica)).1;
        if value_in_front(rest, replica) < value {
            return Some((replica, value));
        }
    }
    None
}

// Joins their entries into ours, in place if both have the same replicas.
fn join_entries(
    entries: &mut SmallVec<(u16, u32), 4>,
    theirs: &[(u16, u32)],
) -> Result<(), OutOfMemory>
    requires ours { IsVersion entries.old.items }
    requires theirs { IsVersion theirs.now }
    ensures ok { OnOk result (entries.new.items ≡ join_versions entries.old.items theirs.now) }
    ensures err { OnErr result (entries.new.items ≡ entries.old.items) }
{
    if same_replicas(entries.as_slice(), theirs) {
        raise_each(entries.as_mut_slice(), theirs);
        return Ok(());
    }
    let alloc = *entries.allocator();
    *entries = merge(alloc, entries.as_slice(), theirs)?;
    Ok(())
}

// Whether both have entries of the same replicas.
fn same_replicas(ours: &[(u16, u32)], theirs: &[(u16, u32)]) -> bool
    ensures { IsTrue result → OfSameReplicas ours.now theirs.now }
{
    if ours.len() != theirs.len() {
        return false;
    }
    for i in 0..theirs.len() {
        if ours[i].0 != theirs[i].0 {
            return false;
        }
    }
    true
}

// Raises each of our values to theirs; both have the same replicas.
fn raise_each(ours: &mut [(u16, u32)], theirs: &[(u16, u32)])
    requires theirs { IsVersion theirs.now }
    requires same { OfSameReplicas ours.old theirs.now }
    ensures { ours.new ≡ join_versions ours.old theirs.now }
{
    for i in 0..theirs.len() {
        let (replica, value) = theirs[i];
        let greater = ours[i].1.max(value);
        ours[i] = (replica, greater);
    }
}

// The entries of both, with the greater value of a replica that is in both.
fn merge(
    alloc: Global,
    ours: &[(u16, u32)],
    theirs: &[(u16, u32)],
) -> Result<SmallVec<(u16, u32), 4>, OutOfMemory>
    requires ours { IsVersion ours.now }
    requires theirs { IsVersion theirs.now }
    ensures { IfOk result (λ all. all.items ≡ join_versions ours.now theirs.now) }
{
    let mut all = SmallVec::new(alloc);
    let mut rest = ours;
    for &(replica, value) in theirs {
        let (before, from) = rest.split_at(place_in(rest, replica));
        all.extend_from_slice(before)?;
        all.push((replica, value_in_front(from, replica).max(value)))?;
        rest = behind(from, replica);
    }
    all.extend_from_slice(rest)?;
    Ok(all)
}

fn is_at(entries: &[(u16, u32)], at: usize, r: u16) -> bool
    ensures { IsTrue result ↔ IsAt entries.now at r }
{
    at < entries.len() && entries[at].0 == r
}

// Sets the value of the stamp's replica to the stamp's.
fn put(entries: &mut SmallVec<(u16, u32), 4>, t: Lamport) -> Result<(), OutOfMemory>
    ensures ok { OnOk result (entries.new.items ≡ put_entry t.replica t.value entries.old.items) }
    ensures err { OnErr result (entries.new.items ≡ entries.old.items) }
{
    let at = place_in(entries.as_slice(), t.replica);
    if is_at(entries.as_slice(), at, t.replica) {
        entries.as_mut_slice()[at] = (t.replica, t.value);
        return Ok(());
    }
    match entries.insert(at, (t.replica, t.value)) {
        Ok(()) => Ok(()),
        Err(_) => Err(OutOfMemory),
    }
}
