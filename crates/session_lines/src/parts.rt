//! The parts of a line.
ghost use Rattle.std.specs.Prelude.{◌≡◌, ◌<◌, ◌≤◌, [], length, map, option_map, IfOk, None, Some};
ghost use Rattle.lamport_clock.specs.Versions.{join_versions};
ghost use Rattle.serde_json.specs.View.{view};
ghost use Rattle.session_lines.specs.Json.{members_of, whole_number};
ghost use Rattle.session_lines.specs.Parts.{AreReadEntries, all_of, bias_of_value, clock_value, count_from, count_of_value, counts_of_value, entry_from, entry_of_value, id_of_value, numbers_of_value, piece_from, piece_of_value, pieces_of_value, stamp_from, stamp_of_value, version_from, version_of_value, version_with};

use crate::OutOfMemory;
use crate::line_value::{is_text, members_of};
use crate::session::Numbers;
use lamport_clock::{Lamport, Version};
use op_model::{Bias, Counts, Piece, Pieces, Text, UndoCount};
use serde_json::Value;
use std::alloc::Global;

/// The id of a replica, of the header or not, or None if the value is not one. O(1); does not allocate.
pub fn id_of_value(value: &Value) -> Option<u16>
    ensures { result ≡ id_of_value (view value.now) }
{
    match value.as_u64() {
        Some(id) => {
            if id <= u64::from(u16::MAX) {
                Some(id as u16)
            } else {
                None
            }
        }
        None => None,
    }
}

/// The value of a stamp or of a version, or an undo count.
fn clock_value(value: &Value) -> Option<u32>
    ensures { result ≡ clock_value (view value.now) }
{
    match value.as_u64() {
        Some(n) => {
            if n <= u64::from(u32::MAX) {
                Some(n as u32)
            } else {
                None
            }
        }
        None => None,
    }
}

fn stamp_from(members: &[Value]) -> Option<Lamport>
    ensures { result ≡ stamp_from (map view members.now) }
{
    let [value, replica] = members else {
        return None;
    };
    match (clock_value(value), id_of_value(replica)) {
        (Some(value), Some(replica)) => Some(Lamport { value, replica }),
        _ => None,
    }
}

/// The stamp `[VALUE,REPLICA]`, or None if the value is not one. O(1); does not allocate.
pub fn stamp_of_value(value: &Value) -> Option<Lamport>
    ensures { result ≡ stamp_of_value (view value.now) }
{
    match members_of(value) {
        Some(members) => stamp_from(members),
        None => None,
    }
}

fn entry_from(members: &[Value]) -> Option<(u16, u32)>
    ensures { result ≡ entry_from (map view members.now) }
{
    let [replica, value] = members else {
        return None;
    };
    match (id_of_value(replica), clock_value(value)) {
        (Some(replica), Some(value)) => {
            if 1 <= value {
                Some((replica, value))
            } else {
                None
            }
        }
        _ => None,
    }
}

fn entry_of_value(value: &Value) -> Option<(u16, u32)>
    ensures { result ≡ entry_of_value (view value.now) }
{
    match members_of(value) {
        Some(members) => entry_from(members),
        None => None,
    }
}

fn piece_from(alloc: Global, members: &[Value]) -> Result<Option<Piece>, OutOfMemory>
    ensures { IfOk result (λ p. p ≡ piece_from (map view members.now)) }
{
    let [start, end, text] = members else {
        return Ok(None);
    };
    match (start.as_u64(), end.as_u64(), text.as_str()) {
        (Some(start), Some(end), Some(text)) => Ok(Some(Piece {
            start,
            end,
            text: Text::new(String::from_str(alloc, text)?),
        })),
        _ => Ok(None),
    }
}

fn piece_of_value(alloc: Global, value: &Value) -> Result<Option<Piece>, OutOfMemory>
    ensures { IfOk result (λ p. p ≡ piece_of_value (view value.now)) }
{
    match members_of(value) {
        Some(members) => piece_from(alloc, members),
        None => Ok(None),
    }
}

fn pieces_from(alloc: Global, members: &[Value]) -> Result<Option<Pieces>, OutOfMemory>
    ensures { IfOk result (λ p. p ≡ all_of piece_of_value (map view members.now)) }
{
    let mut pieces = Vec::with_capacity(alloc, members.len())?;
    for member in members {
        match piece_of_value(alloc, member)? {
            Some(piece) => pieces.push(piece)?,
            None => return Ok(None),
        }
    }
    Ok(Some(Pieces::new(pieces)))
}

/// The pieces of a list of `[START,END,TEXT]`, or None if the value is not one. Linear in them and in their texts, which are copied.
///
/// # Errors
///
/// `OutOfMemory` alone.
pub fn pieces_of_value(alloc: Global, value: &Value) -> Result<Option<Pieces>, OutOfMemory>
    ensures { IfOk result (λ p. p ≡ pieces_of_value (view value.now)) }
{
    match members_of(value) {
        Some(members) => pieces_from(alloc, members),
        None => Ok(None),
    }
}

fn entries_from(alloc: Global, members: &[Value]) -> Result<Option<Vec<(u16, u32)>>, OutOfMemory>
    ensures { IfOk result (λ o. option_map (λ v. v.items) o
        ≡ all_of entry_of_value (map view members.now)) }
{
    let mut entries = Vec::new(alloc);
    for member in members {
        match entry_of_value(member) {
            Some(entry) => entries.push(entry)?,
            None => return Ok(None),
        }
    }
    Ok(Some(entries))
}

// The version that has seen each of the entries, taken one after another.
fn join_of_few(alloc: Global, entries: &[(u16, u32)]) -> Result<Version, OutOfMemory>
    ensures { IfOk result (λ v. v ≡ join_versions [] entries.now) }
{
    let mut version = Version::new(alloc);
    for &(replica, value) in entries {
        version.observe(Lamport { value, replica })?;
    }
    Ok(version)
}

#[tactic(auto, using(crate::proofs::Versions::halves, crate::proofs::Versions::entries_front, crate::proofs::Versions::entries_back))]
fn halves(entries: &[(u16, u32)]) -> (&[(u16, u32)], &[(u16, u32)])
    requires entries { AreReadEntries entries.now }
    requires several { 2 ≤ length entries.now }
    ensures front { AreReadEntries result.0.now }
    ensures back { AreReadEntries result.1.now }
    ensures shorter { (length result.0.now < length entries.now)
        × (length result.1.now < length entries.now) }
    ensures whole { join_versions (join_versions [] result.0.now) (join_versions [] result.1.now)
        ≡ join_versions [] entries.now }
{
    entries.split_at(entries.len() / 2)
}

// The version that has seen each of the entries. Many are taken in halves, so that each is moved few times.
fn join_of(alloc: Global, entries: &[(u16, u32)]) -> Result<Version, OutOfMemory>
    requires { AreReadEntries entries.now }
    ensures { IfOk result (λ v. v ≡ join_versions [] entries.now) }
{
    if entries.len() <= 16 {
        return join_of_few(alloc, entries);
    }
    let (front, back) = halves(entries);
    let mut version = join_of(alloc, front)?;
    let other = join_of(alloc, back)?;
    version.join(&other)?;
    Ok(version)
}

#[tactic(auto, using(crate::proofs::Versions::length_of_join))]
fn version_with(alloc: Global, entries: &[(u16, u32)]) -> Result<Option<Version>, OutOfMemory>
    requires { AreReadEntries entries.now }
    ensures { IfOk result (λ v. v ≡ version_with entries.now) }
{
    let version = join_of(alloc, entries)?;
    // as many entries as the list has, where no id is there twice
    if version.len() == entries.len() as u64 {
        Ok(Some(version))
    } else {
        Ok(None)
    }
}

#[tactic(auto, using(crate::proofs::Versions::entries_of))]
fn version_from(alloc: Global, members: &[Value]) -> Result<Option<Version>, OutOfMemory>
    ensures { IfOk result (λ v. v ≡ version_from (map view members.now)) }
{
    match entries_from(alloc, members)? {
        Some(entries) => version_with(alloc, entries.as_slice()),
        None => Ok(None),
    }
}

/// The version that the value is: ids of replicas, each once, with values of at least 1, in any order.
pub fn version_of_value(alloc: Global, value: &Value) -> Result<Option<Version>, OutOfMemory>
    ensures { IfOk result (λ v. v ≡ version_of_value (view value.now)) }
{
    match members_of(value) {
        Some(members) => version_from(alloc, members),
        None => Ok(None),
    }
}

fn count_from(members: &[Value]) -> Option<UndoCount>
    ensures { result ≡ count_from (map view members.now) }
{
    let [value, replica, count] = members else {
        return None;
    };
    match (clock_value(value), id_of_value(replica), clock_value(count)) {
        (Some(value), Some(replica), Some(count)) => Some(UndoCount {
            edit: Lamport { value, replica },
            count,
        }),
        _ => None,
    }
}

fn count_of_value(value: &Value) -> Option<UndoCount>
    ensures { result ≡ count_of_value (view value.now) }
{
    match members_of(value) {
        Some(members) => count_from(members),
        None => None,
    }
}

fn counts_from(alloc: Global, members: &[Value]) -> Result<Option<Counts>, OutOfMemory>
    ensures { IfOk result (λ c. c ≡ all_of count_of_value (map view members.now)) }
{
    let mut counts = Vec::with_capacity(alloc, members.len())?;
    for member in members {
        match count_of_value(member) {
            Some(count) => counts.push(count)?,
            None => return Ok(None),
        }
    }
    Ok(Some(Counts::new(counts)))
}

/// The undo counts of a list of `[VALUE,REPLICA,COUNT]`, or None if the value is not one. Linear in them.
///
/// # Errors
///
/// `OutOfMemory` alone.
pub fn counts_of_value(alloc: Global, value: &Value) -> Result<Option<Counts>, OutOfMemory>
    ensures { IfOk result (λ c. c ≡ counts_of_value (view value.now)) }
{
    match members_of(value) {
        Some(members) => counts_from(alloc, members),
        None => Ok(None),
    }
}

fn numbers_from(alloc: Global, members: &[Value]) -> Result<Option<Numbers>, OutOfMemory>
    ensures { IfOk result (λ ns. ns ≡ all_of whole_number (map view members.now)) }
{
    let mut numbers = Vec::with_capacity(alloc, members.len())?;
    for member in members {
        match member.as_u64() {
            Some(number) => numbers.push(number)?,
            None => return Ok(None),
        }
    }
    Ok(Some(Numbers::new(numbers)))
}

/// The numbers of a list of whole numbers, or None if the value is not one. Linear in them.
///
/// # Errors
///
/// `OutOfMemory` alone.
pub fn numbers_of_value(alloc: Global, value: &Value) -> Result<Option<Numbers>, OutOfMemory>
    ensures { IfOk result (λ ns. ns ≡ numbers_of_value (view value.now)) }
{
    match members_of(value) {
        Some(members) => numbers_from(alloc, members),
        None => Ok(None),
    }
}

/// The side of its place that an anchor keeps to, by its word.
pub fn bias_of_value(value: &Value) -> Option<Bias>
    ensures { result ≡ bias_of_value (view value.now) }
{
    if is_text(value, "left") {
        return Some(Bias::Left);
    }
    if is_text(value, "right") {
        return Some(Bias::Right);
    }
    None
}
