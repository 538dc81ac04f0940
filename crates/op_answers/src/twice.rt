//! The first stamp that is named twice.
ghost use Rattle.std.specs.Prelude.{◌≡◌, [], IfOk};
ghost use Rattle.std.specs.List.{list_any};
ghost use Rattle.lamport_clock.specs.Stamps.{same_stamp};
ghost use Rattle.op_model.specs.Made.{first_twice};

use crate::OutOfMemory;
use lamport_clock::{Lamport, is_same};
use std::alloc::Global;
use std::collections::BTreeSet;

/// The first stamp of a list that stands in it before too. With memory it is found by a set of the stamps gone over, in
/// some n log n steps for n stamps; where memory is wanting, by comparing each with all before it.
pub fn first_twice(alloc: Global, stamps: &[Lamport]) -> Option<Lamport>
    ensures { result ≡ first_twice [] stamps.now }
{
    match find_by_set(alloc, stamps) {
        Ok(found) => found,
        Err(_) => find_by_comparing(stamps),
    }
}

fn find_by_set(alloc: Global, stamps: &[Lamport]) -> Result<Option<Lamport>, OutOfMemory>
    ensures { IfOk result (λ t. t ≡ first_twice [] stamps.now) }
{
    let mut past = BTreeSet::new(alloc);
    for &stamp in stamps {
        let is_new = past.insert(stamp)?;
        if !is_new {
            return Ok(Some(stamp));
        }
    }
    Ok(None)
}

fn find_by_comparing(stamps: &[Lamport]) -> Option<Lamport>
    ensures { result ≡ first_twice [] stamps.now }
{
    for (i, &stamp) in stamps.iter().enumerate() {
        if stands_in(&stamps[..i], stamp) {
            return Some(stamp);
        }
    }
    None
}

fn stands_in(stamps: &[Lamport], stamp: Lamport) -> bool
    ensures { result ≡ list_any (same_stamp stamp) stamps.now }
{
    stamps.iter().any(|other| is_same(stamp, *other))
}
