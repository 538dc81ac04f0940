//! Reading a session from its bytes.
ghost use Rattle.std.specs.Prelude.{◌≡◌, ◌<◌, ◌≤◌, ◌⊎◌, [], length, IfOk, IfErr, OnErr, Ok, Err, None, Some};
ghost use Rattle.std.specs.List.{list_all};
ghost use Rattle.session_lines.specs.Cut.{lines_of};
ghost use Rattle.session_lines.specs.Before.{header_read, line_read, lines_read, taken_in, whole_read, without_lines, word_after};
ghost use Rattle.session_lines.specs.Session.{IsSession, session_of_text, header_of, is_known, is_number_of, is_numbered, lines_limit};
ghost use Rattle.session_lines.specs.declared.fault.DecodeFault.{DecodeFault};
ghost use Rattle.session_lines.specs.declared.fault.LineFault.{LineFault};
ghost use Rattle.session_lines.specs.declared.fault.Word.{Word};

use crate::before::Before;
use crate::cutting::{first_line, line_count};
use crate::fault::{DecodeFault, LineFault, Word};
use crate::forms::line_of_value;
use crate::header::{Header, header_of_value};
use crate::kept::KeptLine;
use crate::line_list::SessionLines;
use crate::line_value::value_of;
use crate::returns::{brings_return, is_barred_header};
use crate::session::{Session, SessionLine};
use op_model::Text;
use std::alloc::Global;

/// The most lines of a session, `lines_limit` of contracts.
const LINES: usize = 1_048_576;

#[tactic(auto, unfolding(crate::specs::Session::header_of))]
fn header_of(alloc: Global, migrate: bool, line: &[u8]) -> Result<Header, LineFault>
    ensures ok { IfOk result (λ h. header_of migrate line.now ≡ Ok h) }
    ensures bad { (w : Word) → result ≡ Err (LineFault.Bad w) → header_of migrate line.now ≡ Err w }
{
    let value = value_of(alloc, line)?;
    let Some(header) = header_of_value(alloc, &value)? else {
        return Err(LineFault::Bad(Word::Header));
    };
    if is_barred_header(migrate, &header) {
        return Err(LineFault::Bad(Word::Cr));
    }
    Ok(header)
}

/// The base of the header that the first line of a session is, without its line feed, and what the line after it is checked
/// against. Where `migrate` is true the session is read to be written as one of version 2: if it has version 1, no text that it
/// brings into buffers may have a CR. Linear in the line. Allocates for the value of the line, its base and its ids.
///
/// # Errors
///
/// `Bad` with the first word that applies to the line, `Json`, `Header` or, only where `migrate` is true, `Cr`; `OutOfMemory`
/// if an allocation fails.
#[tactic(auto, unfolding(crate::specs::Before::header_read))]
pub fn read_header(alloc: Global, line: &[u8], migrate: bool) -> Result<(Text, Before), LineFault>
    ensures ok { IfOk result (λ p. header_read migrate line.now ≡ Ok p) }
    ensures session { IfOk result (λ p. IsSession (length line.now) (without_lines p)) }
    ensures bad { (w : Word) → result ≡ Err (LineFault.Bad w) → header_read migrate line.now ≡ Err w }
{
    let header = header_of(alloc, migrate, line)?;
    Ok(Before::after_header(alloc, migrate, header))
}

// Whether the replica that acts in the line, if one does, is in the header.
fn is_known(replicas: &[u16], line: &SessionLine) -> bool
    ensures { result ≡ is_known replicas.now line.now }
{
    match line {
        SessionLine::Op(_) | SessionLine::Uop(_) => true,
        SessionLine::Edit { replica, .. }
        | SessionLine::Undo { replica, .. }
        | SessionLine::Give { replica, .. }
        | SessionLine::Text { replica }
        | SessionLine::Anchor { replica, .. }
        | SessionLine::Where { replica, .. }
        | SessionLine::Mark { replica, .. }
        | SessionLine::Since { replica, .. }
        | SessionLine::Find { replica, .. }
        | SessionLine::Point { replica, .. }
        | SessionLine::Offset { replica, .. }
        | SessionLine::Reopen { replica } => replicas.contains(replica),
    }
}

// Whether it is the number of one of the `operations` before.
fn is_number_of(operations: u64, number: u64) -> bool
    ensures { result ≡ is_number_of operations number }
{
    1 <= number && number <= operations
}

fn are_numbers_of(operations: u64, numbers: &[u64]) -> bool
    ensures { result ≡ list_all (is_number_of operations) numbers.now }
{
    numbers.iter().all(|n| is_number_of(operations, *n))
}

// Whether each operation line that the line names is one of the `operations` before it.
fn is_numbered(operations: u64, line: &SessionLine) -> bool
    ensures { result ≡ is_numbered operations line.now }
{
    match line {
        SessionLine::Undo { numbers, .. } => are_numbers_of(operations, numbers.as_slice()),
        SessionLine::Give { number, .. } => is_number_of(operations, *number),
        _ => true,
    }
}

// What is wrong with a line that has the form of one.
fn word_of(before: &Before, line: &SessionLine) -> Option<Word>
    ensures { result ≡ word_after before.now line.now }
{
    if !is_known(before.replicas(), line) {
        return Some(Word::Replica);
    }
    if !is_numbered(before.operations(), line) {
        return Some(Word::Number);
    }
    if !before.is_named(line) {
        return Some(Word::Name);
    }
    if before.bars_return() && brings_return(line) {
        return Some(Word::Cr);
    }
    None
}

#[tactic(auto, unfolding(crate::specs::Before::line_read))]
fn line_of(alloc: Global, before: &Before, line: &[u8]) -> Result<SessionLine, LineFault>
    ensures ok { IfOk result (λ l. line_read before.now line.now ≡ Ok l) }
    ensures bad { (w : Word) → result ≡ Err (LineFault.Bad w) → line_read before.now line.now ≡ Err w }
{
    let value = value_of(alloc, line)?;
    let Some(line) = line_of_value(alloc, before.version(), &value)? else {
        return Err(LineFault::Bad(Word::Shape));
    };
    match word_of(before, &line) {
        Some(word) => Err(LineFault::Bad(word)),
        None => Ok(line),
    }
}

/// The line that a text after the first is, without its line feed, which is then taken into `before`, for the lines after it.
/// Linear in the text, and logarithmic in the number of names. Allocates for the value of the line, its texts and lists, and
/// its name.
///
/// # Errors
///
/// `Bad` with the first word that applies to the line, `Cr` only where the session is read to be migrated; `OutOfMemory` if an
/// allocation fails. `before` is then as it was.
pub fn read_line(alloc: Global, line: &[u8], before: &mut Before) -> Result<SessionLine, LineFault>
    ensures ok { IfOk result (λ l. line_read before.old line.now ≡ Ok l) }
    ensures taken { IfOk result (λ l. before.new ≡ taken_in l before.old) }
    ensures bad { (w : Word) → result ≡ Err (LineFault.Bad w) → line_read before.old line.now ≡ Err w }
    ensures err { OnErr result (before.new ≡ before.old) }
{
    let line = line_of(alloc, before, line)?;
    before.take_in(alloc, &line)?;
    Ok(line)
}

// The lines after the header.
fn rest_of(alloc: Global, before: &mut Before, text: &[u8]) -> Result<SessionLines, DecodeFault>
    ensures ok { IfOk result (λ ls. lines_read before.old [] (lines_of text.now) ≡ Ok ls) }
    ensures header { IfOk result (λ _. (before.new.version ≡ before.old.version)
        × (before.new.replicas ≡ before.old.replicas)) }
    ensures fault { IfErr result (λ e.
        (lines_read before.old [] (lines_of text.now) ≡ Err e)
        ⊎ (e ≡ DecodeFault.OutOfMemory)) }
{
    let mut lines = Vec::with_capacity(alloc, line_count(text))?;
    let mut rest = text;
    while !rest.is_empty() {
        let (line, after) = first_line(rest);
        match read_line(alloc, line, before) {
            Ok(line) => lines.push(KeptLine::new(alloc, line)?)?,
            Err(LineFault::Bad(word)) => {
                return Err(DecodeFault::Bad {
                    line: 2 + lines.len() as u64,
                    word,
                });
            }
            Err(LineFault::OutOfMemory) => return Err(DecodeFault::OutOfMemory),
        }
        rest = after;
    }
    Ok(SessionLines::new(lines))
}

// The session that the lines of the text are.
fn session_of(alloc: Global, migrate: bool, input: &[u8]) -> Result<Session, DecodeFault>
    requires { 0 < length input.now }
    ensures ok { IfOk result (λ s. whole_read migrate (lines_of input.now) ≡ Ok s) }
    ensures fault { IfErr result (λ e. (whole_read migrate (lines_of input.now) ≡ Err e)
        ⊎ (e ≡ DecodeFault.OutOfMemory)) }
{
    let (line, after) = first_line(input);
    match read_header(alloc, line, migrate) {
        Ok((base, mut before)) => {
            let lines = rest_of(alloc, &mut before, after)?;
            Ok(Session {
                version: before.version(),
                base,
                replicas: before.into_replicas(),
                lines,
            })
        }
        Err(LineFault::Bad(word)) => Err(DecodeFault::Bad { line: 1, word }),
        Err(LineFault::OutOfMemory) => Err(DecodeFault::OutOfMemory),
    }
}

/// The session that the bytes are. Linear in their number; the session takes as much memory as the texts in it, and each
/// line is read for itself. Where `migrate` is true the session is read to be written as one of version 2: if it has version 1, no
/// text that it brings into buffers may have a CR.
///
/// # Errors
///
/// `Lines` exactly where there are more than 1,048,576 lines, with their number. Else `Bad` for the first bad line and the
/// first word that applies to it, `Cr` only where `migrate` is true; an input without a line is bad at line 1 with the word
/// `header`. `OutOfMemory` only where there is a line, and not too many.
#[tactic(auto, using(crate::proofs::LinesRead::text_read, crate::proofs::LinesRead::is_session, crate::proofs::Faults::session_of_nothing, crate::proofs::Faults::session_of_many))]
pub fn decode(alloc: Global, input: &[u8], migrate: bool) -> Result<Session, DecodeFault>
    ensures ok { IfOk result (λ s. session_of_text migrate input.now ≡ Ok s) }
    ensures session { IfOk result (λ s. IsSession (length input.now) s) }
    ensures lines { lines_limit < length (lines_of input.now)
        → result ≡ Err (DecodeFault.Lines (length (lines_of input.now))) }
    ensures fault { IfErr result (λ e. (session_of_text migrate input.now ≡ Err e)
        ⊎ ((0 < length input.now) × (length (lines_of input.now) ≤ lines_limit)
        × (e ≡ DecodeFault.OutOfMemory))) }
{
    if input.is_empty() {
        return Err(DecodeFault::Bad {
            line: 1,
            word: Word::Header,
        });
    }
    let count = line_count(input);
    if count > LINES {
        return Err(DecodeFault::Lines(count as u64));
    }
    session_of(alloc, migrate, input)
}
