//! Causes of what waits, one for each operation, in the order of replicas and values.
ghost use Rattle.std.specs.Prelude.{◌≡◌, true, false, IfOk, IfSome, IsNone, OnErr};
ghost use Rattle.std.specs.List.{AllByRecursion};
ghost use Rattle.op_model.specs.Operations.{stamp_of};
ghost use Rattle.deferred_ops.specs.Deferred.{IsListed, KeepsCauses, KeepsOthers, AddsCauses, NoneListed, NoneSeen, ListsFor, has_cause};

use crate::OutOfMemory;
use lamport_clock::Lamport;
use op_model::Operation;
use std::collections::BTreeSet;
use std::ops::Bound;

/// A replica, a value and a stamp: the operation of that stamp sees what the replica made up to that value.
pub type Cause = (u16, u32, Lamport);

/// The least listed cause of the replica, if its value is at most this one. Logarithmic.
pub fn first_seen(causes: &BTreeSet<Cause>, replica: u16, value: u32) -> Option<Cause>
    ensures none { IsNone result → NoneSeen causes.now (replica, value) }
    ensures some { IfSome result (λ c. has_cause causes.now c ≡ true) }
{
    let least = Lamport {
        value: 0,
        replica: 0,
    };
    let start = Bound::Included((replica, 0, least));
    let &first = causes.range((start, Bound::Unbounded)).next()?;
    if first.0 == replica && first.1 <= value {
        Some(first)
    } else {
        None
    }
}

/// Whether no listed cause is seen by the version with these entries. Logarithmic for each entry.
pub fn are_missed(causes: &BTreeSet<Cause>, have: &[(u16, u32)]) -> bool
    ensures { result ≡ true → AllByRecursion (NoneSeen causes.now) have.now }
{
    for &entry in have {
        if first_seen(causes, entry.0, entry.1).is_some() {
            return false;
        }
    }
    true
}

/// Lists a cause of the operation: the first that its version has. False where that is empty, and nothing is listed. Logarithmic.
pub fn list_cause(causes: &mut BTreeSet<Cause>, op: &Operation) -> Result<bool, OutOfMemory>
    ensures listed { IfOk result (λ b. b ≡ true → IsListed causes.new op.now) }
    ensures kept { KeepsCauses causes.old causes.new }
    ensures added { AddsCauses op.now causes.old causes.new }
    ensures err { OnErr result (KeepsCauses causes.new causes.old) }
{
    let Some(&(replica, value)) = op.version().as_slice().first() else {
        return Ok(false);
    };
    causes.insert((replica, value, op.stamp()))?;
    Ok(true)
}

/// Lists a cause in place of another. False if an allocation failed: then neither is listed. Logarithmic.
pub fn replace(causes: &mut BTreeSet<Cause>, seen: Cause, missed: Cause) -> bool
    ensures listed { result ≡ true → ListsFor causes.old causes.new seen missed }
    ensures fewer { result ≡ false → KeepsCauses causes.new causes.old }
{
    causes.remove(&seen);
    match causes.insert(missed) {
        Ok(_) => true,
        Err(_) => false,
    }
}

/// Takes out every cause that is listed of the operation. Logarithmic for each entry of its version; does not allocate.
pub fn unlist(causes: &mut BTreeSet<Cause>, op: &Operation)
    ensures gone { NoneListed causes.new op.now }
    ensures fewer { KeepsCauses causes.new causes.old }
    ensures others { KeepsOthers (stamp_of op.now) causes.old causes.new }
{
    let stamp = op.stamp();
    let seen = op.version().as_slice();
    for &(replica, value) in seen {
        causes.remove(&(replica, value, stamp));
    }
}

/// The same for an operation that is dropped.
pub fn drop_unlisted(causes: &mut BTreeSet<Cause>, op: Operation)
    ensures gone { NoneListed causes.new op }
    ensures fewer { KeepsCauses causes.new causes.old }
    ensures others { KeepsOthers (stamp_of op) causes.old causes.new }
{
    unlist(causes, &op);
}
