//! The forms of the lines that `session_lines` has not.
ghost use Rattle.std.specs.Prelude.{◌≡◌, map, IfOk, IfSome};
ghost use Rattle.serde_json.specs.View.{view};
ghost use Rattle.session_lines.specs.Parts.{all_of};
ghost use Rattle.session_more.specs.Forms.{range_from, range_of_value, ranges_of_value, select_from, share_from, selected_from, fold_from, unfold_from, folded_from, display_from, excerpt_from, multi_from, medit_from, excerpt_form, fold_form, further_form, further_from, further_of_value};
ghost use Rattle.session_more.specs.Lines.{IsFurther};

use crate::session::{MoreLine, TextRanges};
use op_model::Text;
use serde_json::Value;
use session_lines::{OutOfMemory, id_of_value, is_text, members_of, pieces_of_value};
use std::alloc::Global;

fn range_from(members: &[Value]) -> Option<(u64, u64)>
    ensures { result ≡ range_from (map view members.now) }
{
    let [start, end] = members else {
        return None;
    };
    match (start.as_u64(), end.as_u64()) {
        (Some(start), Some(end)) => Some((start, end)),
        _ => None,
    }
}

fn range_of_value(value: &Value) -> Option<(u64, u64)>
    ensures { result ≡ range_of_value (view value.now) }
{
    match members_of(value) {
        Some(members) => range_from(members),
        None => None,
    }
}

fn ranges_from(alloc: Global, members: &[Value]) -> Result<Option<TextRanges>, OutOfMemory>
    ensures { IfOk result (λ r. r ≡ all_of range_of_value (map view members.now)) }
{
    let mut ranges = Vec::with_capacity(alloc, members.len())?;
    for member in members {
        match range_of_value(member) {
            Some(range) => ranges.push(range)?,
            None => return Ok(None),
        }
    }
    Ok(Some(TextRanges::new(ranges)))
}

// The ranges of a list of `[START,END]`, or None if the value is not one.
fn ranges_of_value(alloc: Global, value: &Value) -> Result<Option<TextRanges>, OutOfMemory>
    ensures { IfOk result (λ r. r ≡ ranges_of_value (view value.now)) }
{
    match members_of(value) {
        Some(members) => ranges_from(alloc, members),
        None => Ok(None),
    }
}

fn select_from(alloc: Global, members: &[Value]) -> Result<Option<MoreLine>, OutOfMemory>
    ensures { IfOk result (λ l. l ≡ select_from (map view members.now)) }
{
    let [replica, name, ranges] = members else {
        return Ok(None);
    };
    match (
        id_of_value(replica),
        name.as_str(),
        ranges_of_value(alloc, ranges)?,
    ) {
        (Some(replica), Some(name), Some(ranges)) => Ok(Some(MoreLine::Select {
            replica,
            name: Text::new(String::from_str(alloc, name)?),
            ranges,
        })),
        _ => Ok(None),
    }
}

fn share_from(alloc: Global, members: &[Value]) -> Result<Option<MoreLine>, OutOfMemory>
    ensures { IfOk result (λ l. l ≡ share_from (map view members.now)) }
{
    let [replica, name] = members else {
        return Ok(None);
    };
    match (id_of_value(replica), name.as_str()) {
        (Some(replica), Some(name)) => Ok(Some(MoreLine::Share {
            replica,
            name: Text::new(String::from_str(alloc, name)?),
        })),
        _ => Ok(None),
    }
}

fn selected_from(members: &[Value]) -> Option<MoreLine>
    ensures { result ≡ selected_from (map view members.now) }
{
    let [replica, author] = members else {
        return None;
    };
    match (id_of_value(replica), id_of_value(author)) {
        (Some(replica), Some(author)) => Some(MoreLine::Selected { replica, author }),
        _ => None,
    }
}

fn fold_from(members: &[Value]) -> Option<MoreLine>
    ensures { result ≡ fold_from (map view members.now) }
{
    let [replica, start, end] = members else {
        return None;
    };
    match (id_of_value(replica), start.as_u64(), end.as_u64()) {
        (Some(replica), Some(start), Some(end)) => Some(MoreLine::Fold {
            replica,
            start,
            end,
        }),
        _ => None,
    }
}

fn unfold_from(members: &[Value]) -> Option<MoreLine>
    ensures { result ≡ unfold_from (map view members.now) }
{
    let [replica, start, end] = members else {
        return None;
    };
    match (id_of_value(replica), start.as_u64(), end.as_u64()) {
        (Some(replica), Some(start), Some(end)) => Some(MoreLine::Unfold {
            replica,
            start,
            end,
        }),
        _ => None,
    }
}

fn folded_from(members: &[Value]) -> Option<MoreLine>
    ensures { result ≡ folded_from (map view members.now) }
{
    let [replica] = members else {
        return None;
    };
    match id_of_value(replica) {
        Some(replica) => Some(MoreLine::Folded { replica }),
        None => None,
    }
}

fn display_from(members: &[Value]) -> Option<MoreLine>
    ensures { result ≡ display_from (map view members.now) }
{
    let [replica, offset] = members else {
        return None;
    };
    match (id_of_value(replica), offset.as_u64()) {
        (Some(replica), Some(offset)) => Some(MoreLine::Display { replica, offset }),
        _ => None,
    }
}

fn excerpt_from(alloc: Global, members: &[Value]) -> Result<Option<MoreLine>, OutOfMemory>
    ensures { IfOk result (λ l. l ≡ excerpt_from (map view members.now)) }
{
    let [name, replica, start, end] = members else {
        return Ok(None);
    };
    match (
        name.as_str(),
        id_of_value(replica),
        start.as_u64(),
        end.as_u64(),
    ) {
        (Some(name), Some(replica), Some(start), Some(end)) => Ok(Some(MoreLine::Excerpt {
            name: Text::new(String::from_str(alloc, name)?),
            replica,
            start,
            end,
        })),
        _ => Ok(None),
    }
}

fn multi_from(alloc: Global, members: &[Value]) -> Result<Option<MoreLine>, OutOfMemory>
    ensures { IfOk result (λ l. l ≡ multi_from (map view members.now)) }
{
    let [name] = members else {
        return Ok(None);
    };
    match name.as_str() {
        Some(name) => Ok(Some(MoreLine::Multi {
            name: Text::new(String::from_str(alloc, name)?),
        })),
        None => Ok(None),
    }
}

fn medit_from(alloc: Global, members: &[Value]) -> Result<Option<MoreLine>, OutOfMemory>
    ensures { IfOk result (λ l. l ≡ medit_from (map view members.now)) }
{
    let [name, pieces] = members else {
        return Ok(None);
    };
    match (name.as_str(), pieces_of_value(alloc, pieces)?) {
        (Some(name), Some(pieces)) => Ok(Some(MoreLine::Medit {
            name: Text::new(String::from_str(alloc, name)?),
            pieces,
        })),
        _ => Ok(None),
    }
}

// The line of the word, where it is one of excerpts.
fn excerpt_form(
    alloc: Global,
    word: &Value,
    members: &[Value],
) -> Result<Option<MoreLine>, OutOfMemory>
    ensures { IfOk result (λ l. l ≡ excerpt_form (view word.now) (map view members.now)) }
{
    if is_text(word, "excerpt") {
        return excerpt_from(alloc, members);
    }
    if is_text(word, "multi") {
        return multi_from(alloc, members);
    }
    if is_text(word, "medit") {
        return medit_from(alloc, members);
    }
    Ok(None)
}

// The line of the word, where it is one of folds or of excerpts.
fn fold_form(
    alloc: Global,
    word: &Value,
    members: &[Value],
) -> Result<Option<MoreLine>, OutOfMemory>
    ensures { IfOk result (λ l. l ≡ fold_form (view word.now) (map view members.now)) }
{
    if is_text(word, "fold") {
        return Ok(fold_from(members));
    }
    if is_text(word, "unfold") {
        return Ok(unfold_from(members));
    }
    if is_text(word, "folded") {
        return Ok(folded_from(members));
    }
    if is_text(word, "display") {
        return Ok(display_from(members));
    }
    excerpt_form(alloc, word, members)
}

fn further_form(
    alloc: Global,
    word: &Value,
    members: &[Value],
) -> Result<Option<MoreLine>, OutOfMemory>
    ensures { IfOk result (λ l. l ≡ further_form (view word.now) (map view members.now)) }
{
    if is_text(word, "select") {
        return select_from(alloc, members);
    }
    if is_text(word, "share") {
        return share_from(alloc, members);
    }
    if is_text(word, "selected") {
        return Ok(selected_from(members));
    }
    fold_form(alloc, word, members)
}

fn further_from(alloc: Global, members: &[Value]) -> Result<Option<MoreLine>, OutOfMemory>
    ensures { IfOk result (λ l. l ≡ further_from (map view members.now)) }
{
    let [word, members @ ..] = members else {
        return Ok(None);
    };
    further_form(alloc, word, members)
}

/// The line of a further form that a value is, where it has one. Linear in the value. Allocates for the texts and
/// lists of the line.
///
/// # Errors
///
/// `OutOfMemory` if an allocation fails.
#[tactic(auto, unfolding(crate::specs::Forms::further_of_value), using(crate::proofs::Further::further))]
pub fn further_of_value(alloc: Global, value: &Value) -> Result<Option<MoreLine>, OutOfMemory>
    ensures form { IfOk result (λ l. l ≡ further_of_value (view value.now)) }
    ensures further { IfOk result (λ l. IfSome l IsFurther) }
{
    match members_of(value) {
        Some(members) => further_from(alloc, members),
        None => Ok(None),
    }
}
