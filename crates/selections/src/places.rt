//! Where selections are in a text.
ghost use Rattle.std.specs.Prelude.{◌≡◌, ◌⊎◌, Ok, Err, IfOk, IfErr, IsOk, IsOkAnd, IsSome};
ghost use Rattle.selections.specs.Places.{place_of, places_of, range_places};
ghost use Rattle.selections.specs.Sets.{kept_for};

use crate::{PlacesFault, Selection, SelectionSets};
use std::alloc::Global;
use std::marker::Model;
use text_buffer::Snapshot;

/// Ranges of a text, in bytes: the start of each, and its end, which it does not include. Contracts see their list.
#[derive(Drop)]
pub struct Places {
    ranges: Vec<(u64, u64)>,
}

impl Model for Places {
    ghost use Rattle.std.specs.Prelude.{ℕ, List};

    ghost Value = { List (ℕ × ℕ) };

    ghost view = { λ p. p.ranges.items };
}

impl Places {
    /// Makes places of a vector. Does not allocate.
    pub fn new(ranges: Vec<(u64, u64)>) -> Places
        ensures { result ≡ ranges.items }
    {
        Places { ranges }
    }

    /// Borrows the ranges, in their order. O(1); does not allocate.
    pub fn as_slice(&self) -> &[(u64, u64)]
        ensures { result.now ≡ self.now }
    {
        &self.ranges
    }
}

impl SelectionSets {
    /// Where the kept selections of an author are in a snapshot's text, in the order in which they were given: of
    /// each the lesser and the greater of the places of its anchors, which a taken operation may name in any order.
    /// `None` exactly where nothing is kept for the author. Each selection is a few descents.
    ///
    /// # Errors
    ///
    /// `Unknown`, with the first selection that has an anchor which the snapshot does not know. `OutOfMemory` if all
    /// are known and an allocation fails.
    pub fn places(&self, snapshot: &Snapshot, author: u16) -> Result<Option<Places>, PlacesFault>
        ensures places { IfOk result
            (λ p. places_of snapshot.now (kept_for author self.now) ≡ Ok p) }
        ensures fault { IfErr result
            (λ e. (places_of snapshot.now (kept_for author self.now) ≡ Err e)
            ⊎ ((e ≡ PlacesFault.OutOfMemory) × IsOkAnd
            (places_of snapshot.now (kept_for author self.now)) (λ p. IsSome p))) }
    {
        match self.get(author) {
            Some(op) => {
                let ranges = op.ranges.as_slice();
                Ok(Some(range_places(*self.kept.allocator(), snapshot, ranges)?))
            }
            None => Ok(None),
        }
    }
}

// Where selections are.
fn range_places(
    alloc: Global,
    snapshot: &Snapshot,
    ranges: &[Selection],
) -> Result<Places, PlacesFault>
    ensures places { IfOk result (λ p. range_places snapshot.now ranges.now ≡ Ok p) }
    ensures fault { IfErr result (λ e. (range_places snapshot.now ranges.now ≡ Err e)
        ⊎ ((e ≡ PlacesFault.OutOfMemory) × IsOk (range_places snapshot.now ranges.now))) }
{
    match gather(alloc, snapshot, ranges) {
        Ok(places) => Ok(places),
        Err(PlacesFault::Unknown(i)) => Err(PlacesFault::Unknown(i)),
        Err(PlacesFault::OutOfMemory) => Err(fault_of(snapshot, ranges)),
    }
}

// Where selections are, as long as no allocation fails.
fn gather(alloc: Global, snapshot: &Snapshot, ranges: &[Selection]) -> Result<Places, PlacesFault>
    ensures places { IfOk result (λ p. range_places snapshot.now ranges.now ≡ Ok p) }
    ensures fault { IfErr result (λ e. (range_places snapshot.now ranges.now ≡ Err e)
        ⊎ (e ≡ PlacesFault.OutOfMemory)) }
{
    let mut places = Vec::with_capacity(alloc, ranges.len())?;
    for (i, range) in ranges.iter().enumerate() {
        match place_of(snapshot, *range) {
            Some(place) => places.push(place)?,
            None => return Err(PlacesFault::Unknown(i as u64)),
        }
    }
    Ok(Places::new(places))
}

// Why there are no places if an allocation failed: an unknown anchor comes first.
fn fault_of(snapshot: &Snapshot, ranges: &[Selection]) -> PlacesFault
    ensures { (range_places snapshot.now ranges.now ≡ Err result)
        ⊎ ((result ≡ PlacesFault.OutOfMemory) × IsOk (range_places snapshot.now ranges.now)) }
{
    for (i, range) in ranges.iter().enumerate() {
        if place_of(snapshot, *range).is_none() {
            return PlacesFault::Unknown(i as u64);
        }
    }
    PlacesFault::OutOfMemory
}

// Where a selection is, if both of its anchors are known.
fn place_of(snapshot: &Snapshot, selection: Selection) -> Option<(u64, u64)>
    ensures { result ≡ place_of snapshot.now selection }
{
    let start = snapshot.resolve(&selection.start).ok()?;
    let end = snapshot.resolve(&selection.end).ok()?;
    Some((start.min(end), start.max(end)))
}
