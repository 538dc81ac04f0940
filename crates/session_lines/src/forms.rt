//! The forms of a line after the header.
ghost use Rattle.std.specs.Prelude.{◌≡◌, map, IfOk, None, Some};
ghost use Rattle.serde_json.specs.View.{view};
ghost use Rattle.session_lines.specs.Json.{members_of};
ghost use Rattle.session_lines.specs.Forms.{edit_from, undo_from, op_from, uop_from, give_from, text_from, anchor_from, name_from, where_from, mark_from, since_from, find_from, point_from, offset_from, reopen_from, asking_form, later_form, line_from, line_of_value};

use crate::OutOfMemory;
use crate::line_value::{is_text, members_of};
use crate::parts::{
    bias_of_value, counts_of_value, id_of_value, numbers_of_value, pieces_of_value, stamp_of_value,
    version_of_value,
};
use crate::session::SessionLine;
use op_model::{EditOp, Text, UndoOp};
use serde_json::Value;
use std::alloc::Global;

fn edit_from(alloc: Global, members: &[Value]) -> Result<Option<SessionLine>, OutOfMemory>
    ensures { IfOk result (λ l. l ≡ edit_from (map view members.now)) }
{
    let [replica, pieces] = members else {
        return Ok(None);
    };
    let Some(replica) = id_of_value(replica) else {
        return Ok(None);
    };
    match pieces_of_value(alloc, pieces)? {
        Some(pieces) => Ok(Some(SessionLine::Edit { replica, pieces })),
        None => Ok(None),
    }
}

fn undo_from(alloc: Global, members: &[Value]) -> Result<Option<SessionLine>, OutOfMemory>
    ensures { IfOk result (λ l. l ≡ undo_from (map view members.now)) }
{
    let [replica, numbers] = members else {
        return Ok(None);
    };
    let Some(replica) = id_of_value(replica) else {
        return Ok(None);
    };
    match numbers_of_value(alloc, numbers)? {
        Some(numbers) => Ok(Some(SessionLine::Undo { replica, numbers })),
        None => Ok(None),
    }
}

// The operation's copies share its pieces.
fn op_from(alloc: Global, members: &[Value]) -> Result<Option<SessionLine>, OutOfMemory>
    ensures { IfOk result (λ l. l ≡ op_from (map view members.now)) }
{
    let [stamp, version, pieces] = members else {
        return Ok(None);
    };
    let Some(stamp) = stamp_of_value(stamp) else {
        return Ok(None);
    };
    let Some(version) = version_of_value(alloc, version)? else {
        return Ok(None);
    };
    match pieces_of_value(alloc, pieces)? {
        Some(pieces) => Ok(Some(SessionLine::Op(EditOp {
            stamp,
            version,
            pieces: pieces.into_shared(alloc)?,
        }))),
        None => Ok(None),
    }
}

// The operation's copies share its counts.
fn uop_from(alloc: Global, members: &[Value]) -> Result<Option<SessionLine>, OutOfMemory>
    ensures { IfOk result (λ l. l ≡ uop_from (map view members.now)) }
{
    let [stamp, version, counts] = members else {
        return Ok(None);
    };
    let Some(stamp) = stamp_of_value(stamp) else {
        return Ok(None);
    };
    let Some(version) = version_of_value(alloc, version)? else {
        return Ok(None);
    };
    match counts_of_value(alloc, counts)? {
        Some(counts) => Ok(Some(SessionLine::Uop(UndoOp {
            stamp,
            version,
            counts: counts.into_shared(alloc)?,
        }))),
        None => Ok(None),
    }
}

fn give_from(members: &[Value]) -> Option<SessionLine>
    ensures { result ≡ give_from (map view members.now) }
{
    let [replica, number] = members else {
        return None;
    };
    match (id_of_value(replica), number.as_u64()) {
        (Some(replica), Some(number)) => Some(SessionLine::Give { replica, number }),
        _ => None,
    }
}

fn text_from(members: &[Value]) -> Option<SessionLine>
    ensures { result ≡ text_from (map view members.now) }
{
    let [replica] = members else {
        return None;
    };
    match id_of_value(replica) {
        Some(replica) => Some(SessionLine::Text { replica }),
        None => None,
    }
}

fn anchor_from(alloc: Global, members: &[Value]) -> Result<Option<SessionLine>, OutOfMemory>
    ensures { IfOk result (λ l. l ≡ anchor_from (map view members.now)) }
{
    let [replica, name, offset, bias] = members else {
        return Ok(None);
    };
    match (
        id_of_value(replica),
        name.as_str(),
        offset.as_u64(),
        bias_of_value(bias),
    ) {
        (Some(replica), Some(name), Some(offset), Some(bias)) => Ok(Some(SessionLine::Anchor {
            replica,
            name: Text::new(String::from_str(alloc, name)?),
            offset,
            bias,
        })),
        _ => Ok(None),
    }
}

// A replica and a name.
fn name_from(alloc: Global, members: &[Value]) -> Result<Option<(u16, Text)>, OutOfMemory>
    ensures { IfOk result (λ p. p ≡ name_from (map view members.now)) }
{
    let [replica, name] = members else {
        return Ok(None);
    };
    match (id_of_value(replica), name.as_str()) {
        (Some(replica), Some(name)) => {
            Ok(Some((replica, Text::new(String::from_str(alloc, name)?))))
        }
        _ => Ok(None),
    }
}

fn where_from(alloc: Global, members: &[Value]) -> Result<Option<SessionLine>, OutOfMemory>
    ensures { IfOk result (λ l. l ≡ where_from (map view members.now)) }
{
    match name_from(alloc, members)? {
        Some((replica, name)) => Ok(Some(SessionLine::Where { replica, name })),
        None => Ok(None),
    }
}

fn mark_from(alloc: Global, members: &[Value]) -> Result<Option<SessionLine>, OutOfMemory>
    ensures { IfOk result (λ l. l ≡ mark_from (map view members.now)) }
{
    match name_from(alloc, members)? {
        Some((replica, name)) => Ok(Some(SessionLine::Mark { replica, name })),
        None => Ok(None),
    }
}

fn since_from(alloc: Global, members: &[Value]) -> Result<Option<SessionLine>, OutOfMemory>
    ensures { IfOk result (λ l. l ≡ since_from (map view members.now)) }
{
    match name_from(alloc, members)? {
        Some((replica, name)) => Ok(Some(SessionLine::Since { replica, name })),
        None => Ok(None),
    }
}

fn find_from(alloc: Global, members: &[Value]) -> Result<Option<SessionLine>, OutOfMemory>
    ensures { IfOk result (λ l. l ≡ find_from (map view members.now)) }
{
    let [replica, needle] = members else {
        return Ok(None);
    };
    match (id_of_value(replica), needle.as_str()) {
        (Some(replica), Some(needle)) => Ok(Some(SessionLine::Find {
            replica,
            needle: Text::new(String::from_str(alloc, needle)?),
        })),
        _ => Ok(None),
    }
}

fn point_from(members: &[Value]) -> Option<SessionLine>
    ensures { result ≡ point_from (map view members.now) }
{
    let [replica, offset] = members else {
        return None;
    };
    match (id_of_value(replica), offset.as_u64()) {
        (Some(replica), Some(offset)) => Some(SessionLine::Point { replica, offset }),
        _ => None,
    }
}

fn offset_from(members: &[Value]) -> Option<SessionLine>
    ensures { result ≡ offset_from (map view members.now) }
{
    let [replica, row, column] = members else {
        return None;
    };
    match (id_of_value(replica), row.as_u64(), column.as_u64()) {
        (Some(replica), Some(row), Some(column)) => Some(SessionLine::Offset {
            replica,
            row,
            column,
        }),
        _ => None,
    }
}

fn reopen_from(members: &[Value]) -> Option<SessionLine>
    ensures { result ≡ reopen_from (map view members.now) }
{
    let [replica] = members else {
        return None;
    };
    match id_of_value(replica) {
        Some(replica) => Some(SessionLine::Reopen { replica }),
        None => None,
    }
}

// The line of the word, where it keeps or asks for something under a name, or is a query.
fn asking_form(
    alloc: Global,
    word: &Value,
    members: &[Value],
) -> Result<Option<SessionLine>, OutOfMemory>
    ensures { IfOk result (λ l. l ≡ asking_form (view word.now) (map view members.now)) }
{
    if is_text(word, "anchor") {
        return anchor_from(alloc, members);
    }
    if is_text(word, "where") {
        return where_from(alloc, members);
    }
    if is_text(word, "mark") {
        return mark_from(alloc, members);
    }
    if is_text(word, "since") {
        return since_from(alloc, members);
    }
    if is_text(word, "find") {
        return find_from(alloc, members);
    }
    if is_text(word, "point") {
        return Ok(point_from(members));
    }
    if is_text(word, "offset") {
        return Ok(offset_from(members));
    }
    Ok(None)
}

// The line of the word, where it is one that version 2 adds, or one that keeps or asks for something or is a query.
fn later_form(
    alloc: Global,
    version: u32,
    word: &Value,
    members: &[Value],
) -> Result<Option<SessionLine>, OutOfMemory>
    ensures { IfOk result (λ l. l ≡ later_form version (view word.now) (map view members.now)) }
{
    if version == 2 && is_text(word, "reopen") {
        return Ok(reopen_from(members));
    }
    asking_form(alloc, word, members)
}

fn line_from(
    alloc: Global,
    version: u32,
    members: &[Value],
) -> Result<Option<SessionLine>, OutOfMemory>
    ensures { IfOk result (λ l. l ≡ line_from version (map view members.now)) }
{
    let [word, members @ ..] = members else {
        return Ok(None);
    };
    if is_text(word, "edit") {
        return edit_from(alloc, members);
    }
    if is_text(word, "undo") {
        return undo_from(alloc, members);
    }
    if is_text(word, "op") {
        return op_from(alloc, members);
    }
    if is_text(word, "uop") {
        return uop_from(alloc, members);
    }
    if is_text(word, "give") {
        return Ok(give_from(members));
    }
    if is_text(word, "text") {
        return Ok(text_from(members));
    }
    later_form(alloc, version, word, members)
}

/// The line of a session of the version that a value is, where it has the form of one.
#[tactic(auto, unfolding(crate::specs::Forms::line_of_value))]
pub fn line_of_value(
    alloc: Global,
    version: u32,
    value: &Value,
) -> Result<Option<SessionLine>, OutOfMemory>
    ensures { IfOk result (λ l. l ≡ line_of_value version (view value.now)) }
{
    match members_of(value) {
        Some(members) => line_from(alloc, version, members),
        None => Ok(None),
    }
}
