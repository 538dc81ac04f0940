//! Operations that are applied or wait, found by their stamps.
ghost use Rattle.std.specs.Prelude.{◌≡◌, nat_lt, not, ◌&&◌, ◌||◌, is_some, option_map, ℕ, IfSome, IsFalse, IsTrue};
ghost use Rattle.std.specs.List.{find};
ghost use Rattle.std.specs.Option.{option_copied};
ghost use Rattle.lamport_clock.specs.Versions.{within};
ghost use Rattle.op_model.specs.Operations.{version_of};
ghost use Rattle.op_model.specs.Histories.{Distinct, has_edit, operation_at, seen_history, version};
ghost use Rattle.op_model.specs.Answers.{count_fault, is_entry_closed, open_replica};
ghost use Rattle.op_model.specs.Lawful.{Lawful};
ghost use Rattle.op_answers.specs.Verdicts.{equals, causes, tells, IsCause};

use applied_ops::AppliedList;
use lamport_clock::{Lamport, Version, is_same};
use op_model::{OpFault, Operation, UndoCount};

fn either(a: bool, b: bool) -> bool
    ensures { result ≡ (a || b) }
{
    a || b
}

fn is_equal(found: Option<&Operation>, op: &Operation) -> bool
    ensures { result ≡ equals (option_copied found.entry) op.now }
{
    match found {
        Some(held) => held.same(op),
        None => false,
    }
}

fn is_there(found: Option<&Operation>) -> bool
    ensures { result ≡ is_some (option_copied found.entry) }
{
    match found {
        Some(_) => true,
        None => false,
    }
}

fn is_cause(found: Option<&Operation>, version: &Version) -> bool
    ensures { result ≡ causes (option_copied found.entry) version.now }
{
    match found {
        Some(held) => version.sees_all(held.version()),
        None => false,
    }
}

/// The applied operation of a stamp, where `have` is the version of what is applied. One that `have` has not seen is not
/// looked for.
pub fn applied_at<'a>(applied: &'a AppliedList, have: &Version, t: Lamport) -> Option<&'a Operation>
    requires { have.now ≡ version applied.now }
    ensures { option_copied result ≡ operation_at applied.now t }
{
    if !have.sees(t) {
        return None;
    }
    applied.find(t)
}

/// Whether one of the two is equal: the applied operation of its stamp, and the one that waits.
pub fn is_repeat(applied: Option<&Operation>, waiting: Option<&Operation>, op: &Operation) -> bool
    ensures { result ≡ (equals (option_copied applied.entry) op.now || equals
        (option_copied waiting.entry) op.now) }
{
    let is_applied = is_equal(applied, op);
    let is_waiting = is_equal(waiting, op);
    either(is_applied, is_waiting)
}

/// Whether there is one of the two: the applied operation of a stamp, and the one that waits.
pub fn is_conflict(applied: Option<&Operation>, waiting: Option<&Operation>) -> bool
    ensures { result ≡ (is_some (option_copied applied.entry) || is_some
        (option_copied waiting.entry)) }
{
    let is_applied = is_there(applied);
    let is_waiting = is_there(waiting);
    either(is_applied, is_waiting)
}

fn both(a: bool, b: bool) -> bool
    ensures { result ≡ (a && b) }
{
    a && b
}

// Whether an operation tells that an entry is closed: it is its stamp, or its version has it too.
fn tells(latest: Option<&Operation>, entry: (u16, u32)) -> bool
    ensures { result ≡ tells (option_copied latest.entry) entry }
{
    match latest {
        Some(op) => {
            let stamp = Lamport {
                value: entry.1,
                replica: entry.0,
            };
            either(
                is_same(op.stamp(), stamp),
                op.version().get(entry.0) == entry.1,
            )
        }
        None => false,
    }
}

// Whether an entry names no applied operation whose causes the version has seen. None is looked for where `latest` tells
// that there is one.
fn is_open(
    applied: &AppliedList,
    version: &Version,
    latest: Option<&Operation>,
    entry: (u16, u32),
) -> bool
    requires applied { Distinct applied.now }
    requires latest { (e : ℕ × ℕ) → IsTrue (tells (option_copied latest) e)
        → IsFalse (nat_lt 0 e.1 && not (is_entry_closed applied.now version.now e)) }
    ensures { result ≡ (nat_lt 0 entry.1 && not (is_entry_closed applied.now version.now entry)) }
{
    if tells(latest, entry) {
        return false;
    }
    let stamp = Lamport {
        value: entry.1,
        replica: entry.0,
    };
    let is_closed = is_cause(applied.find(stamp), version);
    both(0 < entry.1, !is_closed)
}

// The first of the entries that names no applied operation whose causes the version has seen. None is looked for where
// `latest` tells that.
fn first_open(
    applied: &AppliedList,
    version: &Version,
    latest: Option<&Operation>,
    entries: &[(u16, u32)],
) -> Option<u16>
    requires applied { Distinct applied.now }
    requires latest { (e : ℕ × ℕ) → IsTrue (tells (option_copied latest) e)
        → IsFalse (nat_lt 0 e.1 && not (is_entry_closed applied.now version.now e)) }
    ensures { result ≡ option_map (λ e. e.0)
        (find (λ e. nat_lt 0 e.1 && not (is_entry_closed applied.now version.now e)) entries.now) }
{
    for &entry in entries {
        if is_open(applied, version, latest, entry) {
            return Some(entry.0);
        }
    }
    None
}

/// The least replica of which the version has an entry that names no applied operation whose causes it has seen.
pub fn open_replica(applied: &AppliedList, version: &Version) -> Option<u16>
    requires { Distinct applied.now }
    ensures { result ≡ open_replica applied.now version.now }
{
    first_open(applied, version, None, version.as_slice())
}

// The last operation of its author that an operation has seen, where that is applied and has seen no more than it.
fn latest_of<'a>(applied: &'a AppliedList, op: &Operation) -> Option<&'a Operation>
    ensures { IfSome (option_copied result) (IsCause applied.now (version_of op.now)) }
{
    let theirs = op.version();
    let replica = op.stamp().replica;
    let value = theirs.get(replica);
    match applied.find(Lamport { value, replica }) {
        Some(latest) if theirs.sees_all(latest.version()) => Some(latest),
        _ => None,
    }
}

/// What `open_replica` finds of the version of an operation that has seen no more than `have`, the version of what is
/// applied. Where it has seen all of that, no operation is looked for; else the last one of its author, and those of which
/// that one does not tell.
pub fn open_among(applied: &AppliedList, have: &Version, op: &Operation) -> Option<u16>
    requires lawful { Lawful applied.now }
    requires version { have.now ≡ version applied.now }
    requires known { IsTrue (within (version_of op.now) have.now) }
    ensures { result ≡ open_replica applied.now (version_of op.now) }
{
    let theirs = op.version();
    let entries = theirs.as_slice();
    if theirs.sees_all(have) {
        return None;
    }
    first_open(applied, theirs, latest_of(applied, op), entries)
}

// Whether the stamp is that of an applied edit which the version sees.
fn is_seen_edit(applied: &AppliedList, version: &Version, edit: Lamport) -> bool
    requires { Distinct applied.now }
    ensures { result ≡ has_edit (seen_history applied.now version.now) edit }
{
    let is_seen = version.sees(edit);
    let is_edit = applied.has_edit(edit);
    both(is_seen, is_edit)
}

/// The fault of an undo's counts: the first that is of no applied edit which the version sees.
pub fn count_fault(
    applied: &AppliedList,
    version: &Version,
    counts: &[UndoCount],
) -> Option<OpFault>
    requires { Distinct applied.now }
    ensures { result ≡ count_fault (seen_history applied.now version.now) counts.now }
{
    for count in counts {
        if !is_seen_edit(applied, version, count.edit) {
            return Some(OpFault::NoSuchEdit(count.edit));
        }
    }
    None
}
