//! The text of a report's line.
ghost use Rattle.std.specs.Prelude.{◌≡◌, ◌++◌, codes, string_bytes, true, OnErr, OnOk, IfOk};
ghost use Rattle.std.specs.List.{join_by};
ghost use Rattle.json.specs.Print.{quoted};
ghost use Rattle.session_more.specs.Reports.{select_words, select_line, share_words, share_line, range_words, ranges_words, selected_words, selected_line, fold_refusal_words, fold_words, fold_line, unfold_words, unfold_line, folded_line, display_words, display_line, excerpt_words, excerpt_line, multi_line, part_words, number_words, split_words, medit_words, medit_line, more_line_text, is_plain};

use crate::report::{
    DisplayAnswer, ExcerptAnswer, FoldAnswer, FoldRefusal, MeditAnswer, MoreReport, NumberAnswer,
    PartAnswer, SelectAnswer, SelectedAnswer, ShareAnswer, SplitRefusal, UnfoldAnswer,
};
use json::Writer;
use session_lines::{OutOfMemory, edit_fault_words};
use std::alloc::Global;
use std::fmt::Write;
use std::mem;

// Appends a text as a JSON string to `out`. If an allocation fails, nothing is written.
fn push_quoted(alloc: Global, out: &mut Vec<u8>, text: &str) -> Result<(), OutOfMemory>
    ensures ok { OnOk result (out.new.items ≡ out.old.items ++ quoted text.now) }
    ensures err { OnErr result (out.new.items ≡ out.old.items) }
{
    let mut writer = Writer::new(mem::replace(out, Vec::new(alloc)));
    let written = writer.string(text);
    *out = writer.into_inner();
    written
}

// Writes a line that has a text as a JSON string, with what comes before and after it. If an allocation fails,
// nothing is written.
fn push_around(
    alloc: Global,
    out: &mut Vec<u8>,
    front: &str,
    text: &str,
    back: &str,
) -> Result<(), OutOfMemory>
    ensures ok { OnOk result (out.new.items
        ≡ out.old.items ++ (front.now ++ (quoted text.now ++ back.now))) }
    ensures err { OnErr result (out.new.items ≡ out.old.items) }
{
    let mut line = Vec::new(alloc);
    line.extend_from_slice(front.as_bytes())?;
    push_quoted(alloc, &mut line, text)?;
    line.extend_from_slice(back.as_bytes())?;
    out.extend_from_slice(&line)
}

fn select_words(alloc: Global, answer: SelectAnswer) -> Result<String, OutOfMemory>
    ensures { IfOk result (λ s. string_bytes s ≡ select_words answer) }
{
    match answer {
        SelectAnswer::Made(stamp) => format!(in alloc; "{stamp}"),
        SelectAnswer::Reversed(i) => format!(in alloc; "reversed {i}"),
        SelectAnswer::PastEnd(i, len) => format!(in alloc; "pastend {i} {len}"),
        SelectAnswer::InsideChar(i) => format!(in alloc; "insidechar {i}"),
        SelectAnswer::TooMany(count) => format!(in alloc; "toomany {count}"),
        SelectAnswer::ClockEnd => String::from_str(alloc, "clockend"),
    }
}

#[tactic(auto, unfolding(crate::specs::Reports::select_line))]
fn push_select(
    alloc: Global,
    out: &mut Vec<u8>,
    name: &str,
    answer: SelectAnswer,
) -> Result<(), OutOfMemory>
    ensures ok { OnOk result (out.new.items ≡ out.old.items ++ select_line name.now answer) }
    ensures err { OnErr result (out.new.items ≡ out.old.items) }
{
    let words = select_words(alloc, answer)?;
    let back = format!(in alloc; ": {words}\n")?;
    push_around(alloc, out, "select ", name, back.as_str())
}

fn share_words(alloc: Global, answer: ShareAnswer) -> Result<String, OutOfMemory>
    ensures { IfOk result (λ s. string_bytes s ≡ share_words answer) }
{
    match answer {
        ShareAnswer::Set => String::from_str(alloc, "set"),
        ShareAnswer::Repeat => String::from_str(alloc, "repeat"),
        ShareAnswer::Old(stamp) => format!(in alloc; "old {stamp}"),
        ShareAnswer::Nothing => String::from_str(alloc, "nothing"),
        ShareAnswer::BadStamp => String::from_str(alloc, "badstamp"),
        ShareAnswer::TooMany(count) => format!(in alloc; "toomany {count}"),
        ShareAnswer::Conflict(stamp) => format!(in alloc; "conflict {stamp}"),
    }
}

#[tactic(auto, unfolding(crate::specs::Reports::share_line))]
fn push_share(
    alloc: Global,
    out: &mut Vec<u8>,
    name: &str,
    r: u16,
    answer: ShareAnswer,
) -> Result<(), OutOfMemory>
    ensures ok { OnOk result (out.new.items ≡ out.old.items ++ share_line name.now r answer) }
    ensures err { OnErr result (out.new.items ≡ out.old.items) }
{
    let words = share_words(alloc, answer)?;
    let back = format!(in alloc; " to {r}: {words}\n")?;
    push_around(alloc, out, "share ", name, back.as_str())
}

fn push_range(out: &mut String, range: &(u64, u64)) -> Result<(), OutOfMemory>
    ensures { OnOk result (string_bytes out.new ≡ string_bytes out.old ++ range_words range.now) }
{
    let (start, end) = *range;
    write!(out, "{start}..{end}")
}

fn push_ranges(out: &mut String, ranges: &[(u64, u64)]) -> Result<(), OutOfMemory>
    ensures { OnOk result (string_bytes out.new
        ≡ string_bytes out.old ++ ranges_words ranges.now) }
{
    let [first, others @ ..] = ranges else {
        return out.push_str("empty");
    };
    push_range(out, first)?;
    for range in others {
        out.push_str(", ")?;
        push_range(out, range)?;
    }
    Ok(())
}

fn push_selected_words(out: &mut String, answer: &SelectedAnswer) -> Result<(), OutOfMemory>
    ensures { OnOk result (string_bytes out.new
        ≡ string_bytes out.old ++ selected_words answer.now) }
{
    match answer {
        SelectedAnswer::Ranges(ranges) => push_ranges(out, ranges.as_slice()),
        SelectedAnswer::Nothing => out.push_str("none"),
        SelectedAnswer::Unknown(i) => write!(out, "unknown {i}"),
    }
}

#[tactic(auto, unfolding(crate::specs::Reports::selected_line))]
fn push_selected(
    out: &mut String,
    author: u16,
    r: u16,
    answer: &SelectedAnswer,
) -> Result<(), OutOfMemory>
    ensures { OnOk result (string_bytes out.new
        ≡ string_bytes out.old ++ selected_line author r answer.now) }
{
    write!(out, "selected {author} at {r}: ")?;
    push_selected_words(out, answer)?;
    out.push_str("\n")
}

fn fold_refusal_words(alloc: Global, fault: FoldRefusal) -> Result<String, OutOfMemory>
    ensures { IfOk result (λ s. string_bytes s ≡ fold_refusal_words fault) }
{
    match fault {
        FoldRefusal::Reversed(i) => format!(in alloc; "reversed {i}"),
        FoldRefusal::PastEnd(i, len) => format!(in alloc; "pastend {i} {len}"),
        FoldRefusal::InsideChar(i) => format!(in alloc; "insidechar {i}"),
        FoldRefusal::EmptyRange => String::from_str(alloc, "emptyrange"),
    }
}

fn fold_words(alloc: Global, answer: FoldAnswer) -> Result<String, OutOfMemory>
    ensures { IfOk result (λ s. string_bytes s ≡ fold_words answer) }
{
    match answer {
        FoldAnswer::Set => String::from_str(alloc, "set"),
        FoldAnswer::Refused(fault) => fold_refusal_words(alloc, fault),
    }
}

#[tactic(auto, unfolding(crate::specs::Reports::fold_line))]
fn push_fold(alloc: Global, out: &mut String, r: u16, answer: FoldAnswer) -> Result<(), OutOfMemory>
    ensures { OnOk result (string_bytes out.new ≡ string_bytes out.old ++ fold_line r answer) }
{
    let words = fold_words(alloc, answer)?;
    write!(out, "fold {r}: {words}\n")
}

fn unfold_words(alloc: Global, answer: UnfoldAnswer) -> Result<String, OutOfMemory>
    ensures { IfOk result (λ s. string_bytes s ≡ unfold_words answer) }
{
    match answer {
        UnfoldAnswer::Count(count) => format!(in alloc; "{count}"),
        UnfoldAnswer::Refused(fault) => fold_refusal_words(alloc, fault),
    }
}

#[tactic(auto, unfolding(crate::specs::Reports::unfold_line))]
fn push_unfold(
    alloc: Global,
    out: &mut String,
    r: u16,
    answer: UnfoldAnswer,
) -> Result<(), OutOfMemory>
    ensures { OnOk result (string_bytes out.new ≡ string_bytes out.old ++ unfold_line r answer) }
{
    let words = unfold_words(alloc, answer)?;
    write!(out, "unfold {r}: {words}\n")
}

#[tactic(auto, unfolding(crate::specs::Reports::folded_line))]
fn push_folded(alloc: Global, out: &mut Vec<u8>, r: u16, text: &str) -> Result<(), OutOfMemory>
    ensures ok { OnOk result (out.new.items ≡ out.old.items ++ folded_line r text.now) }
    ensures err { OnErr result (out.new.items ≡ out.old.items) }
{
    let bytes = text.len();
    let front = format!(in alloc; "folded {r}: {bytes} bytes, ")?;
    push_around(alloc, out, front.as_str(), text, "\n")
}

fn display_words(alloc: Global, answer: DisplayAnswer) -> Result<String, OutOfMemory>
    ensures { IfOk result (λ s. string_bytes s ≡ display_words answer) }
{
    match answer {
        DisplayAnswer::Places(left, right) => format!(in alloc; "{left} {right}"),
        DisplayAnswer::Nothing => String::from_str(alloc, "none"),
    }
}

#[tactic(auto, unfolding(crate::specs::Reports::display_line))]
fn push_display(
    alloc: Global,
    out: &mut String,
    offset: u64,
    r: u16,
    answer: DisplayAnswer,
) -> Result<(), OutOfMemory>
    ensures { OnOk result (string_bytes out.new
        ≡ string_bytes out.old ++ display_line offset r answer) }
{
    let words = display_words(alloc, answer)?;
    write!(out, "display {offset} at {r}: {words}\n")
}

fn excerpt_words(alloc: Global, answer: ExcerptAnswer) -> Result<String, OutOfMemory>
    ensures { IfOk result (λ s. string_bytes s ≡ excerpt_words answer) }
{
    match answer {
        ExcerptAnswer::Index(i) => format!(in alloc; "{i}"),
        ExcerptAnswer::Reversed(i) => format!(in alloc; "reversed {i}"),
        ExcerptAnswer::PastEnd(i, len) => format!(in alloc; "pastend {i} {len}"),
        ExcerptAnswer::InsideChar(i) => format!(in alloc; "insidechar {i}"),
    }
}

#[tactic(auto, unfolding(crate::specs::Reports::excerpt_line))]
fn push_excerpt(
    alloc: Global,
    out: &mut Vec<u8>,
    name: &str,
    answer: ExcerptAnswer,
) -> Result<(), OutOfMemory>
    ensures ok { OnOk result (out.new.items ≡ out.old.items ++ excerpt_line name.now answer) }
    ensures err { OnErr result (out.new.items ≡ out.old.items) }
{
    let words = excerpt_words(alloc, answer)?;
    let back = format!(in alloc; ": {words}\n")?;
    push_around(alloc, out, "excerpt ", name, back.as_str())
}

#[tactic(auto, unfolding(crate::specs::Reports::multi_line))]
fn push_multi(alloc: Global, out: &mut Vec<u8>, name: &str, text: &str) -> Result<(), OutOfMemory>
    ensures ok { OnOk result (out.new.items ≡ out.old.items ++ multi_line name.now text.now) }
    ensures err { OnErr result (out.new.items ≡ out.old.items) }
{
    let bytes = text.len();
    let back = format!(in alloc; ": {bytes} bytes, ")?;
    let mut line = Vec::new(alloc);
    push_around(alloc, &mut line, "multi ", name, back.as_str())?;
    push_around(alloc, &mut line, "", text, "\n")?;
    out.extend_from_slice(&line)
}

fn part_words(alloc: Global, answer: PartAnswer) -> Result<String, OutOfMemory>
    ensures { IfOk result (λ s. string_bytes s ≡ part_words answer) }
{
    match answer {
        PartAnswer::Made(stamp) => format!(in alloc; "{stamp}"),
        PartAnswer::Nothing => String::from_str(alloc, "nothing"),
        PartAnswer::Refused(fault) => edit_fault_words(alloc, fault),
    }
}

fn push_number(alloc: Global, out: &mut String, answer: &NumberAnswer) -> Result<(), OutOfMemory>
    ensures { OnOk result (string_bytes out.new ≡ string_bytes out.old ++ number_words answer.now) }
{
    let NumberAnswer { number, answer } = *answer;
    let words = part_words(alloc, answer)?;
    write!(out, "{number} {words}")
}

fn push_numbers(
    alloc: Global,
    out: &mut String,
    answers: &[NumberAnswer],
) -> Result<(), OutOfMemory>
    ensures { OnOk result (string_bytes out.new
        ≡ string_bytes out.old ++ join_by number_words (codes ", ") answers.now) }
{
    let [first, others @ ..] = answers else {
        return Ok(());
    };
    push_number(alloc, out, first)?;
    for answer in others {
        out.push_str(", ")?;
        push_number(alloc, out, answer)?;
    }
    Ok(())
}

fn split_words(alloc: Global, fault: SplitRefusal) -> Result<String, OutOfMemory>
    ensures { IfOk result (λ s. string_bytes s ≡ split_words fault) }
{
    match fault {
        SplitRefusal::Reversed(i) => format!(in alloc; "reversed {i}"),
        SplitRefusal::Overlap(i) => format!(in alloc; "overlap {i}"),
        SplitRefusal::PastEnd(i, len) => format!(in alloc; "pastend {i} {len}"),
        SplitRefusal::InsideChar(i) => format!(in alloc; "insidechar {i}"),
        SplitRefusal::TextLimit(total) => format!(in alloc; "textlimit {total}"),
        SplitRefusal::Crosses(i) => format!(in alloc; "crosses {i}"),
        SplitRefusal::Shared(i, excerpt) => format!(in alloc; "shared {i} {excerpt}"),
    }
}

fn push_medit_words(
    alloc: Global,
    out: &mut String,
    answer: &MeditAnswer,
) -> Result<(), OutOfMemory>
    ensures { OnOk result (string_bytes out.new ≡ string_bytes out.old ++ medit_words answer.now) }
{
    match answer {
        MeditAnswer::Numbers(answers) => push_numbers(alloc, out, answers.as_slice()),
        MeditAnswer::Refused(fault) => {
            let words = split_words(alloc, *fault)?;
            out.push_str(words.as_str())
        }
    }
}

#[tactic(auto, unfolding(crate::specs::Reports::medit_line))]
fn push_medit(
    alloc: Global,
    out: &mut Vec<u8>,
    name: &str,
    answer: &MeditAnswer,
) -> Result<(), OutOfMemory>
    ensures ok { OnOk result (out.new.items ≡ out.old.items ++ medit_line name.now answer.now) }
    ensures err { OnErr result (out.new.items ≡ out.old.items) }
{
    let mut back = format!(in alloc; ": ")?;
    push_medit_words(alloc, &mut back, answer)?;
    back.push_str("\n")?;
    push_around(alloc, out, "medit ", name, back.as_str())
}

// A further line with no JSON string in it.
#[tactic(auto, unfolding(crate::specs::Reports::more_line_text))]
fn push_plain(alloc: Global, out: &mut String, line: &MoreReport) -> Result<(), OutOfMemory>
    requires { is_plain line.now ≡ true }
    ensures { OnOk result (string_bytes out.new ≡ string_bytes out.old ++ more_line_text line.now) }
{
    match line {
        MoreReport::Selected {
            author,
            replica,
            answer,
        } => push_selected(out, *author, *replica, answer),
        MoreReport::Fold { replica, answer } => push_fold(alloc, out, *replica, *answer),
        MoreReport::Unfold { replica, answer } => push_unfold(alloc, out, *replica, *answer),
        MoreReport::Display {
            offset,
            replica,
            answer,
        } => push_display(alloc, out, *offset, *replica, *answer),
        _ => unreachable!(),
    }
}

// Writes a further line with no JSON string in it. If an allocation fails, nothing is written.
fn write_plain(alloc: Global, out: &mut Vec<u8>, line: &MoreReport) -> Result<(), OutOfMemory>
    requires { is_plain line.now ≡ true }
    ensures ok { OnOk result (out.new.items ≡ out.old.items ++ more_line_text line.now) }
    ensures err { OnErr result (out.new.items ≡ out.old.items) }
{
    let mut text = String::new(alloc);
    push_plain(alloc, &mut text, line)?;
    out.extend_from_slice(text.as_bytes())
}

/// Writes the line, with its line feed, at the end of `out`. Linear in the line.
///
/// # Errors
///
/// `OutOfMemory` if an allocation fails; then nothing was written.
#[tactic(auto, unfolding(crate::specs::Reports::more_line_text))]
pub fn write_line(alloc: Global, out: &mut Vec<u8>, line: &MoreReport) -> Result<(), OutOfMemory>
    ensures ok { OnOk result (out.new.items ≡ out.old.items ++ more_line_text line.now) }
    ensures err { OnErr result (out.new.items ≡ out.old.items) }
{
    match line {
        MoreReport::Plain(line) => session_lines::write_line(alloc, out, line),
        MoreReport::Select { name, answer } => push_select(alloc, out, name.as_str(), *answer),
        MoreReport::Share {
            name,
            replica,
            answer,
        } => push_share(alloc, out, name.as_str(), *replica, *answer),
        MoreReport::Folded { replica, text } => push_folded(alloc, out, *replica, text.as_str()),
        MoreReport::Excerpt { name, answer } => push_excerpt(alloc, out, name.as_str(), *answer),
        MoreReport::Multi { name, text } => push_multi(alloc, out, name.as_str(), text.as_str()),
        MoreReport::Medit { name, answer } => push_medit(alloc, out, name.as_str(), answer),
        _ => write_plain(alloc, out, line),
    }
}
