//! What waits.
ghost use Rattle.std.specs.Prelude.{◌≡◌, ◌&&◌, [], true, None, IsOk, IfOk, OnErr, OnOk, length};
ghost use Rattle.std.specs.Option.{option_copied};
ghost use Rattle.op_model.specs.Sorted.{insert_by, Ascending};
ghost use Rattle.op_model.specs.Operations.{stamp_of};
ghost use Rattle.op_model.specs.Histories.{operation_at};
ghost use Rattle.op_model.specs.Steps.{older, without};
ghost use Rattle.deferred_ops.specs.Deferred.{NoneReady, least_past, least_ready, start_past};

use crate::OutOfMemory;
use crate::causes::{Cause, are_missed, drop_unlisted, first_seen, list_cause, replace, unlist};
use lamport_clock::{Lamport, Version};
use op_model::Operation;
use std::alloc::Global;
use std::collections::{BTreeMap, BTreeSet};
use std::marker::Model;
use std::ops::Bound;

/// The operations that wait, at most one of each stamp. Contracts see it as their list, the least stamp first.
#[derive(Drop)]
pub struct Deferred {
    waiting: BTreeMap<Lamport, Operation>,
    /// A cause of each operation that waits, so that none is gone over while all of these are missed. There is none of an operation
    /// that does not wait.
    causes: BTreeSet<Cause>,
    /// Whether each has one there; false once an allocation failed for one, or the version of one saw nothing.
    are_listed: bool,
}

impl Model for Deferred {
    ghost use Rattle.std.specs.Prelude.{List};
    ghost use Rattle.std.specs.Map.{values_of};
    ghost use Rattle.op_model.specs.declared.operation.Operation.{Operation};
    ghost use Rattle.std.specs.Prelude.{◌≡◌, true};
    ghost use Rattle.deferred_ops.specs.Deferred.{AreKeyed, AreListed, AreOfWaiting};

    ghost Value = { List Operation };

    ghost view = { λ d. values_of d.waiting.entries };

    ghost invariant = { λ d. AreKeyed d.waiting.entries
        × (d.are_listed ≡ true → AreListed d.causes (values_of d.waiting.entries))
        × AreOfWaiting d.causes (values_of d.waiting.entries) };
}

impl Deferred {
    /// Nothing waits. This does not allocate yet, so it is always Ok.
    pub fn new(alloc: Global) -> Result<Deferred, OutOfMemory>
        ensures empty { IfOk result (λ d. d ≡ []) }
        ensures succeeds { IsOk result }
    {
        Ok(Deferred {
            waiting: BTreeMap::new(alloc),
            causes: BTreeSet::new(alloc),
            are_listed: true,
        })
    }

    /// How many operations wait. Their stamps ascend.
    pub fn len(&self) -> u64
        ensures len { result ≡ length self.now }
        ensures ascending { Ascending older self.now }
    {
        self.waiting.len() as u64
    }

    // Says in which order what waits stands, for proofs. Does nothing when it runs.
    fn known(&self)
        ensures { Ascending older self.now }
    {
        let _count = self.waiting.len();
    }

    /// Lets an operation wait; none with its stamp waits yet. Logarithmic in what waits. If an allocation
    /// fails, the operation is dropped.
    pub fn add(&mut self, op: Operation) -> Result<(), OutOfMemory>
        requires { operation_at self.old (stamp_of op) ≡ None }
        ensures ok { OnOk result (self.new ≡ insert_by older op self.old) }
        ensures err { OnErr result (self.new ≡ self.old) }
    {
        let stamp = op.stamp();
        let is_listed = list_cause(&mut self.causes, &op)?;
        match self.waiting.insert(stamp, op) {
            Ok(_) => {
                self.are_listed = both(self.are_listed, is_listed);
                Ok(())
            }
            Err(refused) => {
                drop_unlisted(&mut self.causes, refused.value.1);
                Err(OutOfMemory)
            }
        }
    }

    /// The operation of a stamp, if it waits. Logarithmic in what waits.
    pub fn get(&self, t: Lamport) -> Option<&Operation>
        ensures { option_copied result ≡ operation_at self.now t }
    {
        self.waiting.get(&t)
    }

    /// The operation with the least stamp past `t`, or of all where that is None. Passing the stamp of each answer as the next `t`
    /// goes through what waits in order, and operations may be removed on the way. Logarithmic in what waits; does not allocate.
    pub fn after(&self, t: Option<Lamport>) -> Option<&Operation>
        ensures { option_copied result ≡ least_past t self.now }
    {
        let (_, op) = self
            .waiting
            .range((start_past(t), Bound::Unbounded))
            .next()?;
        Some(op)
    }

    /// The operation with the least stamp past `after`, or of all where that is None, that misses nothing: all that its
    /// version sees, `have` sees. Logarithmic in what waits for each replica of `have`; then, where `have` sees a listed cause,
    /// linear in what is gone over.
    pub fn ready(&self, after: Option<Lamport>, have: &Version) -> Option<&Operation>
        ensures { option_copied result ≡ least_ready after have.now self.now }
    {
        if self.all_miss(have) {
            return None;
        }
        for (_, op) in self.waiting.range((start_past(after), Bound::Unbounded)) {
            if have.sees_all(op.version()) {
                return Some(op);
            }
        }
        None
    }

    // Whether the listed causes show that each operation misses one. Logarithmic for each replica of `have`.
    fn all_miss(&self, have: &Version) -> bool
        ensures { result ≡ true → NoneReady have.now self.now }
    {
        let are_missed = are_missed(&self.causes, have.as_slice());
        both(self.are_listed, are_missed)
    }

    /// Lists, for each operation whose listed cause `have` sees, one that it misses, so that `ready` need not go over what waits,
    /// which stays as it is. Logarithmic in what waits, for each replica of `have` and each cause that is listed in place of
    /// another. If an allocation fails, `ready` goes over what waits from then on.
    pub fn watch(&mut self, have: &Version)
        ensures { self.new ≡ self.old }
    {
        for &entry in have.as_slice() {
            self.watch_replica(entry.0, entry.1, have);
        }
    }

    // The same for the causes of one replica, up to a value that `have` sees.
    fn watch_replica(&mut self, replica: u16, value: u32, have: &Version)
        ensures { self.new ≡ self.old }
    {
        for _i in 0..self.causes.len() {
            if !self.relist(replica, value, have) {
                return;
            }
        }
    }

    // Lists another cause in place of one that is of the replica, up to that value. False where there is none, and where its
    // operation misses nothing.
    fn relist(&mut self, replica: u16, value: u32, have: &Version) -> bool
        ensures { self.new ≡ self.old }
    {
        self.known();
        let Some(seen) = first_seen(&self.causes, replica, value) else {
            return false;
        };
        let Some(op) = self.waiting.get(&seen.2) else {
            return false;
        };
        let Some((replica, value)) = have.first_missing(op.version()) else {
            return false;
        };
        let missed = (replica, value, op.stamp());
        let is_listed = replace(&mut self.causes, seen, missed);
        self.are_listed = both(self.are_listed, is_listed);
        is_listed
    }

    /// Takes out the operation of a stamp, if it waits, with everything that was kept of its causes, so that nothing is left of it.
    /// Logarithmic in what waits, for each replica that its version has; does not allocate.
    pub fn remove(&mut self, t: Lamport) -> Option<Operation>
        ensures removed { result ≡ operation_at self.old t }
        ensures rest { self.new ≡ without t self.old }
    {
        let op = self.waiting.remove(&t)?;
        unlist(&mut self.causes, &op);
        Some(op)
    }
}

fn both(a: bool, b: bool) -> bool
    ensures { result ≡ (a && b) }
{
    a && b
}

// Where the stamps past one start.
fn start_past(after: Option<Lamport>) -> Bound<Lamport>
    ensures { result ≡ start_past after }
{
    match after {
        Some(stamp) => Bound::Excluded(stamp),
        None => Bound::Unbounded,
    }
}
