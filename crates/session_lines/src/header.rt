//! The header of a session.
ghost use Rattle.std.specs.Prelude.{◌≡◌, map, option_and_then, IfOk, None, Some};
ghost use Rattle.std.specs.List.{list_all};
ghost use Rattle.serde_json.specs.View.{view};
ghost use Rattle.session_lines.specs.Json.{members_of};
ghost use Rattle.session_lines.specs.Parts.{all_of, are_distinct, id_of_value};
ghost use Rattle.session_lines.specs.Heading.{is_replica, are_replicas, replicas_from, format_of_value, header_from, header_of_value};

use crate::OutOfMemory;
use crate::line_value::{is_number, is_text, members_of};
use crate::parts::id_of_value;
use crate::session::Ids;
use op_model::{LAST_REPLICA, Text};
use serde_json::Value;
use std::alloc::Global;

/// What the first line says.
#[derive(Drop)]
pub struct Header {
    /// The version of the format, 1 or 2.
    pub version: u32,
    pub base: Text,
    pub replicas: Ids,
}

// The most replicas of a session, `most_replicas` of contracts.
const MOST_REPLICAS: usize = 64;

fn are_ids_of_replicas(ids: &[u16]) -> bool
    ensures { result ≡ list_all is_replica ids.now }
{
    ids.iter().all(|id| 1 <= *id && *id <= LAST_REPLICA)
}

fn are_distinct(ids: &[u16]) -> bool
    ensures { result ≡ are_distinct ids.now }
{
    let mut rest = ids;
    while let [first, others @ ..] = rest {
        if others.contains(first) {
            return false;
        }
        rest = others;
    }
    true
}

fn are_replicas(ids: &[u16]) -> bool
    ensures { result ≡ are_replicas ids.now }
{
    (1 <= ids.len() && ids.len() <= MOST_REPLICAS)
        && (are_ids_of_replicas(ids) && are_distinct(ids))
}

fn ids_from(alloc: Global, members: &[Value]) -> Result<Option<Ids>, OutOfMemory>
    ensures { IfOk result (λ ids. ids ≡ all_of id_of_value (map view members.now)) }
{
    let mut ids = Vec::new(alloc);
    for member in members {
        match id_of_value(member) {
            Some(id) => ids.push(id)?,
            None => return Ok(None),
        }
    }
    Ok(Some(Ids::new(ids)))
}

fn replicas_from(alloc: Global, members: &[Value]) -> Result<Option<Ids>, OutOfMemory>
    ensures { IfOk result (λ ids. ids ≡ replicas_from (map view members.now)) }
{
    match ids_from(alloc, members)? {
        Some(ids) => {
            if are_replicas(ids.as_slice()) {
                Ok(Some(ids))
            } else {
                Ok(None)
            }
        }
        None => Ok(None),
    }
}

fn replicas_of(alloc: Global, value: &Value) -> Result<Option<Ids>, OutOfMemory>
    ensures { IfOk result (λ ids. ids
        ≡ option_and_then replicas_from (members_of (view value.now))) }
{
    match members_of(value) {
        Some(members) => replicas_from(alloc, members),
        None => Ok(None),
    }
}

// The version of the format that the value is.
fn format_of_value(value: &Value) -> Option<u32>
    ensures { result ≡ format_of_value (view value.now) }
{
    if is_number(value, 1) {
        return Some(1);
    }
    if is_number(value, 2) {
        return Some(2);
    }
    None
}

fn header_from(alloc: Global, members: &[Value]) -> Result<Option<Header>, OutOfMemory>
    ensures { IfOk result (λ h. h ≡ header_from (map view members.now)) }
{
    let [word, version, base, replicas] = members else {
        return Ok(None);
    };
    if !is_text(word, "zedbuf") {
        return Ok(None);
    }
    let Some(version) = format_of_value(version) else {
        return Ok(None);
    };
    let Some(base) = base.as_str() else {
        return Ok(None);
    };
    match replicas_of(alloc, replicas)? {
        Some(replicas) => Ok(Some(Header {
            version,
            base: Text::new(String::from_str(alloc, base)?),
            replicas,
        })),
        None => Ok(None),
    }
}

/// The header that a value is.
#[tactic(auto, unfolding(crate::specs::Heading::header_of_value))]
pub fn header_of_value(alloc: Global, value: &Value) -> Result<Option<Header>, OutOfMemory>
    ensures { IfOk result (λ h. h ≡ header_of_value (view value.now)) }
{
    match members_of(value) {
        Some(members) => header_from(alloc, members),
        None => Ok(None),
    }
}
