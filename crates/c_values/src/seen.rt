//! Versions, as C hands them in.
ghost use Rattle.std.specs.Prelude.{◌≡◌, ◌⊎◌, IfErr, IfOk, map};
ghost use Rattle.lamport_clock.specs.Versions.{IsVersion};
ghost use Rattle.c_values.specs.Answers.{bare, out_of_memory};
ghost use Rattle.c_values.specs.Seen.{entry, seen};

use crate::answer::{Answer, Code};
use lamport_clock::Version;
use op_model::OutOfMemory;
use std::alloc::Global;

/// An entry of a version: the greatest stamp value that is seen of a replica. The replicas of a version ascend, and its
/// values are above 0.
#[repr(C)]
#[derive(Clone, Copy)]
pub struct Seen {
    /// The replica.
    pub replica: u16,
    /// The greatest value that is seen of it.
    pub value: u32,
}

fn entries_of(alloc: Global, seen: &[Seen]) -> Result<Vec<(u16, u32)>, OutOfMemory>
    ensures { IfOk result (λ es. es.items ≡ map entry seen.now) }
{
    let mut entries = Vec::with_capacity(alloc, seen.len())?;
    for it in seen {
        entries.push((it.replica, it.value))?;
    }
    Ok(entries)
}

fn ascending(alloc: Global, entries: &[(u16, u32)]) -> Result<Version, Answer>
    ensures ok { IfOk result (λ v. v ≡ entries.now) }
    ensures err { IfErr result (λ a. ((IsVersion entries.now → ⊥) × (a ≡ bare Code.OutOfRange))
        ⊎ (a ≡ out_of_memory)) }
{
    match Version::from_ascending(alloc, entries) {
        Ok(Some(version)) => Ok(version),
        Ok(None) => Err(Answer::bare(Code::OutOfRange)),
        Err(_) => Err(Answer::bare(Code::OutOfMemory)),
    }
}

/// The version of these entries. Linear in their number; allocates.
///
/// # Errors
///
/// `OutOfRange` where the replicas do not ascend or a value is 0. `OutOfMemory` if an allocation fails.
pub fn version_of(alloc: Global, seen: &[Seen]) -> Result<Version, Answer>
    ensures ok { IfOk result (λ v. v ≡ map entry seen.now) }
    ensures err { IfErr result (λ a. ((IsVersion (map entry seen.now) → ⊥)
        × (a ≡ bare Code.OutOfRange)) ⊎ (a ≡ out_of_memory)) }
{
    match entries_of(alloc, seen) {
        Ok(entries) => ascending(alloc, &entries),
        Err(_) => Err(Answer::bare(Code::OutOfMemory)),
    }
}

/// The entries of a version. Linear in their number; allocates once.
///
/// # Errors
///
/// `OutOfMemory` if an allocation fails.
pub fn seen_of(alloc: Global, version: &Version) -> Result<Vec<Seen>, OutOfMemory>
    ensures { IfOk result (λ es. es.items ≡ map seen version.now) }
{
    let entries = version.as_slice();
    let mut made = Vec::with_capacity(alloc, entries.len())?;
    for &(replica, value) in entries {
        made.push(Seen { replica, value })?;
    }
    Ok(made)
}
