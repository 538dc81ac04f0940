//! The text of a report's line.
ghost use Rattle.std.specs.Prelude.{◌≡◌, ◌++◌, false, length, string_bytes, take, true, OnOk, OnErr, IfOk};
ghost use Rattle.std.specs.Iterator.{IsFinite};
ghost use Rattle.json.specs.Print.{escape, quoted};
ghost use Rattle.session_lines.specs.Report.{made_line, settled_line, reopen_line, give_words, give_line, text_line, place_fault_words, anchor_words, anchor_line, where_words, where_line, mark_line, edit_words, edits_words, since_fault_words, since_words, since_line, starts_words, find_words, place_words, clips_words, point_words, offset_words, query_word, query_words, query_line, counts_words, waits_words, replica_line, head_words, OnText, edit_fault_words, op_fault_words, undo_fault_words, refused_edit_line, refused_undo_line, unnamed_line, refused_op_line, checked_line, line_text, has_string, is_end};

use crate::OutOfMemory;
use crate::report::{
    AnchorAnswer, FindAnswer, GiveAnswer, OffsetAnswer, PointAnswer, QueryAnswer, Report,
    SinceAnswer, TextHead, WhereAnswer,
};
use json::Writer;
use lamport_clock::Lamport;
use op_model::{EditFault, OpFault, PlaceFault, SinceFault, TextEdit, UndoFault, Unit};
use std::alloc::Global;
use std::fmt::Write;
use std::mem;

// Appends a text as a JSON string to `out`. If an allocation fails, nothing is written.
fn push_quoted(alloc: Global, out: &mut Vec<u8>, text: &str) -> Result<(), OutOfMemory>
    ensures ok { OnOk result (out.new.items ≡ out.old.items ++ quoted text.now) }
    ensures err { OnErr result (out.new.items ≡ out.old.items) }
{
    let mut writer = Writer::new(mem::replace(out, Vec::new(alloc)));
    let written = writer.string(text);
    *out = writer.into_inner();
    written
}

// Writes a text as a JSON string, with what comes before and after it. If an allocation fails, a part may be written.
fn push_parts(
    alloc: Global,
    out: &mut Vec<u8>,
    front: &str,
    text: &str,
    back: &str,
) -> Result<(), OutOfMemory>
    ensures ok { OnOk result (out.new.items
        ≡ out.old.items ++ (front.now ++ (quoted text.now ++ back.now))) }
    ensures kept { take (length out.old.items) out.new.items ≡ out.old.items }
{
    out.extend_from_slice(front.as_bytes())?;
    push_quoted(alloc, out, text)?;
    out.extend_from_slice(back.as_bytes())
}

// Writes a text as a JSON string, with what comes before and after it. If an allocation fails, nothing is written.
fn push_around(
    alloc: Global,
    out: &mut Vec<u8>,
    front: &str,
    text: &str,
    back: &str,
) -> Result<(), OutOfMemory>
    ensures ok { OnOk result (out.new.items
        ≡ out.old.items ++ (front.now ++ (quoted text.now ++ back.now))) }
    ensures err { OnErr result (out.new.items ≡ out.old.items) }
{
    let start = out.len();
    let pushed = push_parts(alloc, out, front, text, back);
    if pushed.is_err() {
        out.truncate(start);
    }
    pushed
}

// Writes a text as it stands between the quotes of a JSON string, by way of `string`, whose bytes are replaced. On want of
// memory nothing is written.
fn push_escaped(
    alloc: Global,
    out: &mut Vec<u8>,
    string: &mut Vec<u8>,
    text: &str,
) -> Result<(), OutOfMemory>
    ensures ok { OnOk result (out.new.items ≡ out.old.items ++ escape text.now) }
    ensures err { OnErr result (out.new.items ≡ out.old.items) }
{
    string.clear();
    push_quoted(alloc, string, text)?;
    out.extend_from_slice(&string[1..string.len() - 1])
}

// Writes the text of the parts as a JSON string. If an allocation fails, some of it may be written.
#[tactic(auto, using(crate::proofs::Quoted::escape_more))]
fn push_text<'a, I: Iterator<Item = &'a str> + Drop>(
    alloc: Global,
    out: &mut Vec<u8>,
    parts: I,
) -> Result<(), OutOfMemory>
    requires can { I.can_next parts }
    requires ends { IsFinite (I.remaining parts) }
    ensures ok { OnOk result (OnText I.next_gives parts
        (λ text. out.new.items ≡ out.old.items ++ quoted text)) }
    ensures kept { take (length out.old.items) out.new.items ≡ out.old.items }
{
    let mut string = Vec::new(alloc);
    out.push(b'"')?;
    for part in parts {
        push_escaped(alloc, out, &mut string, part)?;
    }
    out.push(b'"')?;
    Ok(())
}

#[tactic(auto, unfolding(crate::specs::Report::made_line))]
fn push_made(out: &mut String, n: u64, stamp: Lamport) -> Result<(), OutOfMemory>
    ensures { OnOk result (string_bytes out.new ≡ string_bytes out.old ++ made_line n stamp) }
{
    let Lamport { value, replica } = stamp;
    write!(out, "{n}: {value}.{replica}\n")
}

/// The words of an edit's fault. O(1).
///
/// # Errors
///
/// `OutOfMemory` if an allocation fails.
pub fn edit_fault_words(alloc: Global, fault: EditFault) -> Result<String, OutOfMemory>
    ensures { IfOk result (λ s. string_bytes s ≡ edit_fault_words fault) }
{
    match fault {
        EditFault::Reversed(i) => format!(in alloc; "reversed {i}"),
        EditFault::Overlap(i) => format!(in alloc; "overlap {i}"),
        EditFault::PastEnd(i, len) => format!(in alloc; "pastend {i} {len}"),
        EditFault::InsideChar(i) => format!(in alloc; "insidechar {i}"),
        EditFault::TextLimit(total) => format!(in alloc; "textlimit {total}"),
        EditFault::ClockEnd => String::from_str(alloc, "clockend"),
        EditFault::Full { unit, held, adds } => match unit {
            Unit::Bytes => format!(in alloc; "full bytes {held} {adds}"),
            Unit::Entries => format!(in alloc; "full entries {held} {adds}"),
        },
        EditFault::OutOfMemory => Ok(String::new(alloc)),
    }
}

// A fault that an edit has too has the same words.
fn op_fault_words(alloc: Global, fault: OpFault) -> Result<String, OutOfMemory>
    ensures { IfOk result (λ s. string_bytes s ≡ op_fault_words fault) }
{
    let shared = match fault {
        OpFault::BadStamp => return String::from_str(alloc, "badstamp"),
        OpFault::NoBase => return String::from_str(alloc, "nobase"),
        OpFault::CarriageReturn(i) => return format!(in alloc; "carriage {i}"),
        OpFault::Conflict(stamp) => return format!(in alloc; "conflict {stamp}"),
        OpFault::Forked(kept) => return format!(in alloc; "forked {kept}"),
        OpFault::OpenVersion(r) => return format!(in alloc; "openversion {r}"),
        OpFault::NoSuchEdit(stamp) => return format!(in alloc; "nosuchedit {stamp}"),
        OpFault::TextLimit(total) => EditFault::TextLimit(total),
        OpFault::Reversed(i) => EditFault::Reversed(i),
        OpFault::Overlap(i) => EditFault::Overlap(i),
        OpFault::PastEnd(i, len) => EditFault::PastEnd(i, len),
        OpFault::InsideChar(i) => EditFault::InsideChar(i),
        OpFault::Full { unit, held, adds } => EditFault::Full { unit, held, adds },
        OpFault::OutOfMemory => EditFault::OutOfMemory,
    };
    edit_fault_words(alloc, shared)
}

// A fault that an edit or a taken operation has too has the same words.
fn undo_fault_words(alloc: Global, fault: UndoFault) -> Result<String, OutOfMemory>
    ensures { IfOk result (λ s. string_bytes s ≡ undo_fault_words fault) }
{
    match fault {
        UndoFault::NoSuchEdit(stamp) => op_fault_words(alloc, OpFault::NoSuchEdit(stamp)),
        UndoFault::Twice(stamp) => format!(in alloc; "twice {stamp}"),
        UndoFault::CountEnd(stamp) => format!(in alloc; "countend {stamp}"),
        UndoFault::ClockEnd => edit_fault_words(alloc, EditFault::ClockEnd),
        UndoFault::Full { unit, held, adds } => {
            edit_fault_words(alloc, EditFault::Full { unit, held, adds })
        }
        UndoFault::OutOfMemory => edit_fault_words(alloc, EditFault::OutOfMemory),
    }
}

#[tactic(auto, unfolding(crate::specs::Report::refused_edit_line))]
fn push_refused_edit(
    alloc: Global,
    out: &mut String,
    n: u64,
    fault: EditFault,
) -> Result<(), OutOfMemory>
    ensures { OnOk result (string_bytes out.new
        ≡ string_bytes out.old ++ refused_edit_line n fault) }
{
    let words = edit_fault_words(alloc, fault)?;
    write!(out, "{n}: {words}\n")
}

#[tactic(auto, unfolding(crate::specs::Report::refused_undo_line))]
fn push_refused_undo(
    alloc: Global,
    out: &mut String,
    n: u64,
    fault: UndoFault,
) -> Result<(), OutOfMemory>
    ensures { OnOk result (string_bytes out.new
        ≡ string_bytes out.old ++ refused_undo_line n fault) }
{
    let words = undo_fault_words(alloc, fault)?;
    write!(out, "{n}: {words}\n")
}

#[tactic(auto, unfolding(crate::specs::Report::unnamed_line))]
fn push_unnamed(out: &mut String, n: u64, named: u64) -> Result<(), OutOfMemory>
    ensures { OnOk result (string_bytes out.new ≡ string_bytes out.old ++ unnamed_line n named) }
{
    write!(out, "{n}: nothing {named}\n")
}

#[tactic(auto, unfolding(crate::specs::Report::settled_line))]
fn push_settled(out: &mut String, r: u16, count: u64) -> Result<(), OutOfMemory>
    ensures { OnOk result (string_bytes out.new ≡ string_bytes out.old ++ settled_line r count) }
{
    write!(out, "settled {r}: {count}\n")
}

#[tactic(auto, unfolding(crate::specs::Report::reopen_line))]
fn push_reopen(out: &mut String, r: u16, count: u64) -> Result<(), OutOfMemory>
    ensures { OnOk result (string_bytes out.new ≡ string_bytes out.old ++ reopen_line r count) }
{
    write!(out, "reopen {r}: {count}\n")
}

fn give_words(alloc: Global, answer: GiveAnswer) -> Result<String, OutOfMemory>
    ensures { IfOk result (λ s. string_bytes s ≡ give_words answer) }
{
    match answer {
        GiveAnswer::Applied(count) => format!(in alloc; "applied {count}"),
        GiveAnswer::Waits { replica, value } => format!(in alloc; "waits {replica} {value}"),
        GiveAnswer::Repeat => String::from_str(alloc, "repeat"),
        GiveAnswer::Nothing => String::from_str(alloc, "nothing"),
        GiveAnswer::Refused(fault) => op_fault_words(alloc, fault),
    }
}

#[tactic(auto, unfolding(crate::specs::Report::give_line))]
fn push_give(
    alloc: Global,
    out: &mut String,
    n: u64,
    r: u16,
    answer: GiveAnswer,
) -> Result<(), OutOfMemory>
    ensures { OnOk result (string_bytes out.new ≡ string_bytes out.old ++ give_line n r answer) }
{
    let words = give_words(alloc, answer)?;
    write!(out, "give {n} to {r}: {words}\n")
}

fn place_fault_words(alloc: Global, fault: PlaceFault) -> Result<String, OutOfMemory>
    ensures { IfOk result (λ s. string_bytes s ≡ place_fault_words fault) }
{
    match fault {
        PlaceFault::PastEnd(len) => format!(in alloc; "pastend {len}"),
        PlaceFault::InsideChar => String::from_str(alloc, "insidechar"),
    }
}

fn anchor_words(alloc: Global, answer: AnchorAnswer) -> Result<String, OutOfMemory>
    ensures { IfOk result (λ s. string_bytes s ≡ anchor_words answer) }
{
    match answer {
        AnchorAnswer::Set => String::from_str(alloc, "set"),
        AnchorAnswer::Fault(fault) => place_fault_words(alloc, fault),
    }
}

#[tactic(auto, unfolding(crate::specs::Report::anchor_line))]
fn push_anchor(
    alloc: Global,
    out: &mut Vec<u8>,
    name: &str,
    answer: AnchorAnswer,
) -> Result<(), OutOfMemory>
    ensures ok { OnOk result (out.new.items ≡ out.old.items ++ anchor_line name.now answer) }
    ensures err { OnErr result (out.new.items ≡ out.old.items) }
{
    let words = anchor_words(alloc, answer)?;
    let back = format!(in alloc; ": {words}\n")?;
    push_around(alloc, out, "anchor ", name, back.as_str())
}

fn where_words(alloc: Global, answer: WhereAnswer) -> Result<String, OutOfMemory>
    ensures { IfOk result (λ s. string_bytes s ≡ where_words answer) }
{
    match answer {
        WhereAnswer::Offset(offset) => format!(in alloc; "{offset}"),
        WhereAnswer::Unknown => String::from_str(alloc, "unknown"),
        WhereAnswer::Nothing => String::from_str(alloc, "nothing"),
    }
}

#[tactic(auto, unfolding(crate::specs::Report::where_line))]
fn push_where(
    alloc: Global,
    out: &mut Vec<u8>,
    name: &str,
    r: u16,
    answer: WhereAnswer,
) -> Result<(), OutOfMemory>
    ensures ok { OnOk result (out.new.items ≡ out.old.items ++ where_line name.now r answer) }
    ensures err { OnErr result (out.new.items ≡ out.old.items) }
{
    let words = where_words(alloc, answer)?;
    let back = format!(in alloc; " at {r}: {words}\n")?;
    push_around(alloc, out, "where ", name, back.as_str())
}

#[tactic(auto, unfolding(crate::specs::Report::mark_line))]
fn push_mark(alloc: Global, out: &mut Vec<u8>, name: &str) -> Result<(), OutOfMemory>
    ensures ok { OnOk result (out.new.items ≡ out.old.items ++ mark_line name.now) }
    ensures err { OnErr result (out.new.items ≡ out.old.items) }
{
    push_around(alloc, out, "mark ", name, ": set\n")
}

fn push_edit(out: &mut String, edit: &TextEdit) -> Result<(), OutOfMemory>
    ensures { OnOk result (string_bytes out.new ≡ string_bytes out.old ++ edit_words edit.now) }
{
    let (start, end) = edit.old;
    let (new_start, new_end) = edit.new;
    write!(out, "{start}..{end} -> {new_start}..{new_end}")
}

fn push_edits(out: &mut String, edits: &[TextEdit]) -> Result<(), OutOfMemory>
    ensures { OnOk result (string_bytes out.new ≡ string_bytes out.old ++ edits_words edits.now) }
{
    let [first, others @ ..] = edits else {
        return out.push_str("none");
    };
    push_edit(out, first)?;
    for edit in others {
        out.push_str(", ")?;
        push_edit(out, edit)?;
    }
    Ok(())
}

fn push_since_fault(out: &mut String, fault: SinceFault) -> Result<(), OutOfMemory>
    ensures { OnOk result (string_bytes out.new ≡ string_bytes out.old ++ since_fault_words fault) }
{
    match fault {
        SinceFault::Unseen(r) => write!(out, "unseen {r}"),
        SinceFault::OpenVersion(r) => write!(out, "openversion {r}"),
        SinceFault::OutOfMemory => Ok(()),
    }
}

fn push_since_words(out: &mut String, answer: &SinceAnswer) -> Result<(), OutOfMemory>
    ensures { OnOk result (string_bytes out.new ≡ string_bytes out.old ++ since_words answer.now) }
{
    match answer {
        SinceAnswer::Edits(edits) => push_edits(out, edits.as_slice()),
        SinceAnswer::Fault(fault) => push_since_fault(out, *fault),
    }
}

#[tactic(auto, unfolding(crate::specs::Report::since_line))]
fn push_since(
    alloc: Global,
    out: &mut Vec<u8>,
    name: &str,
    r: u16,
    answer: &SinceAnswer,
) -> Result<(), OutOfMemory>
    ensures ok { OnOk result (out.new.items ≡ out.old.items ++ since_line name.now r answer.now) }
    ensures err { OnErr result (out.new.items ≡ out.old.items) }
{
    let mut back = format!(in alloc; " at {r}: ")?;
    push_since_words(&mut back, answer)?;
    back.push_str("\n")?;
    push_around(alloc, out, "since ", name, back.as_str())
}

fn push_starts(out: &mut String, starts: &[u64]) -> Result<(), OutOfMemory>
    ensures { OnOk result (string_bytes out.new ≡ string_bytes out.old ++ starts_words starts.now) }
{
    let [first, others @ ..] = starts else {
        return out.push_str("none");
    };
    write!(out, "{first}")?;
    for start in others {
        write!(out, " {start}")?;
    }
    Ok(())
}

fn push_find_words(out: &mut String, answer: &FindAnswer) -> Result<(), OutOfMemory>
    ensures { OnOk result (string_bytes out.new ≡ string_bytes out.old ++ find_words answer.now) }
{
    match answer {
        FindAnswer::Starts(starts) => push_starts(out, starts.as_slice()),
        FindAnswer::EmptyNeedle => out.push_str("empty needle"),
    }
}

fn place_words(alloc: Global, row: u64, column: u64) -> Result<String, OutOfMemory>
    ensures { IfOk result (λ s. string_bytes s ≡ place_words row column) }
{
    format!(in alloc; "{row}:{column}")
}

fn clips_words(alloc: Global, left: &str, right: &str) -> Result<String, OutOfMemory>
    ensures { IfOk result (λ s. string_bytes s ≡ clips_words left.now right.now) }
{
    format!(in alloc; "none {left} {right}")
}

fn point_words(alloc: Global, answer: PointAnswer) -> Result<String, OutOfMemory>
    ensures { IfOk result (λ s. string_bytes s ≡ point_words answer) }
{
    match answer {
        PointAnswer::Point {
            point,
            utf16,
            point_utf16,
        } => {
            let place = place_words(alloc, point.row, point.column)?;
            let units = utf16.0;
            let place_utf16 = place_words(alloc, point_utf16.row, point_utf16.column)?;
            format!(in alloc; "{place} {units} {place_utf16}")
        }
        PointAnswer::Clips { left, right } => format!(in alloc; "none {left} {right}"),
    }
}

fn offset_words(alloc: Global, answer: OffsetAnswer) -> Result<String, OutOfMemory>
    ensures { IfOk result (λ s. string_bytes s ≡ offset_words answer) }
{
    match answer {
        OffsetAnswer::Offset { offset } => format!(in alloc; "{offset}"),
        OffsetAnswer::Clips { left, right } => {
            let left = place_words(alloc, left.row, left.column)?;
            let right = place_words(alloc, right.row, right.column)?;
            clips_words(alloc, left.as_str(), right.as_str())
        }
    }
}

fn query_word(answer: &QueryAnswer) -> &'static str
    ensures { result.now ≡ query_word answer.now }
{
    match answer {
        QueryAnswer::Find(_) => "find",
        QueryAnswer::Point(_) => "point",
        QueryAnswer::Offset(_) => "offset",
    }
}

fn push_query_words(
    alloc: Global,
    out: &mut String,
    answer: &QueryAnswer,
) -> Result<(), OutOfMemory>
    ensures { OnOk result (string_bytes out.new ≡ string_bytes out.old ++ query_words answer.now) }
{
    match answer {
        QueryAnswer::Find(found) => push_find_words(out, found),
        QueryAnswer::Point(point) => {
            let words = point_words(alloc, *point)?;
            out.push_str(words.as_str())
        }
        QueryAnswer::Offset(offset) => {
            let words = offset_words(alloc, *offset)?;
            out.push_str(words.as_str())
        }
    }
}

#[tactic(auto, unfolding(crate::specs::Report::query_line))]
fn push_query(
    alloc: Global,
    out: &mut String,
    number: u64,
    applied: u64,
    answer: &QueryAnswer,
) -> Result<(), OutOfMemory>
    ensures { OnOk result (string_bytes out.new
        ≡ string_bytes out.old ++ query_line number applied answer.now) }
{
    let word = query_word(answer);
    write!(out, "{word} {number} at {applied}: ")?;
    push_query_words(alloc, out, answer)?;
    out.push_str("\n")
}

#[tactic(auto, unfolding(crate::specs::Report::replica_line))]
fn push_replica(
    out: &mut String,
    r: u16,
    bytes: u64,
    rows: u64,
    applied: u64,
    waiting: u64,
    refused: u64,
) -> Result<(), OutOfMemory>
    ensures { OnOk result (string_bytes out.new
        ≡ string_bytes out.old ++ replica_line r bytes rows applied waiting refused) }
{
    push_counts(out, r, bytes, rows, applied)?;
    push_waits(out, waiting, refused)
}

// What is counted of a replica's text and of its operations.
fn push_counts(
    out: &mut String,
    r: u16,
    bytes: u64,
    rows: u64,
    applied: u64,
) -> Result<(), OutOfMemory>
    ensures { OnOk result (string_bytes out.new
        ≡ string_bytes out.old ++ counts_words r bytes rows applied) }
{
    write!(
        out,
        "replica {r}: {bytes} bytes, {rows} rows, {applied} applied, "
    )
}

fn push_waits(out: &mut String, waiting: u64, refused: u64) -> Result<(), OutOfMemory>
    ensures { OnOk result (string_bytes out.new
        ≡ string_bytes out.old ++ waits_words waiting refused) }
{
    write!(out, "{waiting} waiting, {refused} refused\n")
}

#[tactic(auto, unfolding(crate::specs::Report::refused_op_line))]
fn push_refused_op(
    alloc: Global,
    out: &mut String,
    r: u16,
    stamp: Lamport,
    fault: OpFault,
) -> Result<(), OutOfMemory>
    ensures { OnOk result (string_bytes out.new
        ≡ string_bytes out.old ++ refused_op_line r stamp fault) }
{
    let words = op_fault_words(alloc, fault)?;
    write!(out, "refused {r}: {stamp} {words}\n")
}

#[tactic(auto, unfolding(crate::specs::Report::checked_line))]
fn push_checked(
    out: &mut String,
    lines: u64,
    replicas: u64,
    operations: u64,
    queries: u64,
) -> Result<(), OutOfMemory>
    ensures { OnOk result (string_bytes out.new
        ≡ string_bytes out.old ++ checked_line lines replicas operations queries) }
{
    write!(
        out,
        "session ok: {lines} lines, {replicas} replicas, {operations} operations, {queries} queries\n"
    )
}

// What stands before the text.
fn head_words(alloc: Global, head: TextHead) -> Result<String, OutOfMemory>
    ensures { IfOk result (λ s. string_bytes s ≡ head_words head) }
{
    match head {
        TextHead::CurrentText {
            replica,
            bytes,
            row,
            column,
            rows,
        } => {
            format!(in alloc; "text {replica}: {bytes} bytes, end {row}:{column}, {rows} rows, ")
        }
        TextHead::FinalText { replica } => format!(in alloc; "final {replica}: "),
    }
}

// A line at the end of a report.
#[tactic(auto, unfolding(crate::specs::Report::line_text))]
fn push_end(alloc: Global, out: &mut String, line: &Report) -> Result<(), OutOfMemory>
    requires { is_end line.now ≡ true }
    ensures { OnOk result (string_bytes out.new ≡ string_bytes out.old ++ line_text line.now) }
{
    match line {
        Report::Replica {
            replica,
            bytes,
            rows,
            applied,
            waiting,
            refused,
        } => push_replica(out, *replica, *bytes, *rows, *applied, *waiting, *refused),
        Report::Refused {
            replica,
            stamp,
            fault,
        } => push_refused_op(alloc, out, *replica, *stamp, *fault),
        Report::Checked {
            lines,
            replicas,
            operations,
            queries,
        } => push_checked(out, *lines, *replicas, *operations, *queries),
        _ => unreachable!(),
    }
}

// A line with no JSON string in it.
#[tactic(auto, unfolding(crate::specs::Report::line_text))]
fn push_plain(alloc: Global, out: &mut String, line: &Report) -> Result<(), OutOfMemory>
    requires { has_string line.now ≡ false }
    ensures { OnOk result (string_bytes out.new ≡ string_bytes out.old ++ line_text line.now) }
{
    match line {
        Report::Made { number, stamp } => push_made(out, *number, *stamp),
        Report::EditRefused { number, fault } => push_refused_edit(alloc, out, *number, *fault),
        Report::UndoRefused { number, fault } => push_refused_undo(alloc, out, *number, *fault),
        Report::Unnamed { number, named } => push_unnamed(out, *number, *named),
        Report::Settled { replica, count } => push_settled(out, *replica, *count),
        Report::Give {
            number,
            replica,
            answer,
        } => push_give(alloc, out, *number, *replica, *answer),
        Report::Reopen { replica, count } => push_reopen(out, *replica, *count),
        Report::Query {
            number,
            applied,
            answer,
        } => push_query(alloc, out, *number, *applied, answer),
        _ => push_end(alloc, out, line),
    }
}

// Writes a line with no JSON string in it. If an allocation fails, nothing is written.
fn write_plain(alloc: Global, out: &mut Vec<u8>, line: &Report) -> Result<(), OutOfMemory>
    requires { has_string line.now ≡ false }
    ensures ok { OnOk result (out.new.items ≡ out.old.items ++ line_text line.now) }
    ensures err { OnErr result (out.new.items ≡ out.old.items) }
{
    let mut text = String::new(alloc);
    push_plain(alloc, &mut text, line)?;
    out.extend_from_slice(text.as_bytes())
}

/// Writes the line, with its line feed, at the end of `out`. Linear in the line. A text in it is copied once, into `out`.
///
/// # Errors
///
/// `OutOfMemory`; then nothing was written.
#[tactic(auto, unfolding(crate::specs::Report::line_text, crate::specs::Report::text_line))]
pub fn write_line(alloc: Global, out: &mut Vec<u8>, line: &Report) -> Result<(), OutOfMemory>
    ensures ok { OnOk result (out.new.items ≡ out.old.items ++ line_text line.now) }
    ensures err { OnErr result (out.new.items ≡ out.old.items) }
{
    match line {
        Report::Text { head, text } => {
            let front = head_words(alloc, *head)?;
            push_around(alloc, out, front.as_str(), text.as_str(), "\n")
        }
        Report::Anchor { name, answer } => push_anchor(alloc, out, name.as_str(), *answer),
        Report::Where {
            name,
            replica,
            answer,
        } => push_where(alloc, out, name.as_str(), *replica, *answer),
        Report::Mark { name } => push_mark(alloc, out, name.as_str()),
        Report::Since {
            name,
            replica,
            answer,
        } => push_since(alloc, out, name.as_str(), *replica, answer),
        _ => write_plain(alloc, out, line),
    }
}

// A line that ends with the text of the parts. If an allocation fails, some of it may be written.
fn push_with_text<'a, I: Iterator<Item = &'a str> + Drop>(
    alloc: Global,
    out: &mut Vec<u8>,
    head: TextHead,
    parts: I,
) -> Result<(), OutOfMemory>
    requires can { I.can_next parts }
    requires ends { IsFinite (I.remaining parts) }
    ensures ok { OnOk result (OnText I.next_gives parts
        (λ text. out.new.items ≡ out.old.items ++ line_text (Report.Text head text))) }
    ensures kept { take (length out.old.items) out.new.items ≡ out.old.items }
{
    let front = head_words(alloc, head)?;
    out.extend_from_slice(front.as_bytes())?;
    push_text(alloc, out, parts)?;
    out.push(b'\n')?;
    Ok(())
}

/// Writes a line that ends with a text, with its line feed, at the end of `out`: the line with that head and the text that
/// the parts are, one after the other. Linear in the line. The text is nowhere made as a whole: a part is quoted in a buffer
/// of one part, and goes from there into `out`.
///
/// # Errors
///
/// `OutOfMemory`; then nothing was written.
pub fn write_text<'a, I: Iterator<Item = &'a str> + Drop>(
    alloc: Global,
    out: &mut Vec<u8>,
    head: TextHead,
    parts: I,
) -> Result<(), OutOfMemory>
    requires can { I.can_next parts }
    requires ends { IsFinite (I.remaining parts) }
    ensures ok { OnOk result (OnText I.next_gives parts
        (λ text. out.new.items ≡ out.old.items ++ line_text (Report.Text head text))) }
    ensures err { OnErr result (out.new.items ≡ out.old.items) }
{
    let start = out.len();
    let pushed = push_with_text(alloc, out, head, parts);
    if pushed.is_err() {
        out.truncate(start);
    }
    pushed
}
