//! Reading a session from its bytes.
ghost use Rattle.std.specs.Prelude.{◌≡◌, ◌<◌, ◌≤◌, ◌⊎◌, [], length, IfOk, IfErr, OnErr, Ok, Err};
ghost use Rattle.session_lines.specs.Cut.{lines_of};
ghost use Rattle.session_lines.specs.Session.{IsSession, lines_limit};
ghost use Rattle.session_lines.specs.declared.fault.DecodeFault.{DecodeFault};
ghost use Rattle.session_lines.specs.declared.fault.LineFault.{LineFault};
ghost use Rattle.session_lines.specs.declared.fault.Word.{Word};
ghost use Rattle.session_more.specs.Decoding.{further_read, further_word, headed, more_line_read, more_lines_read, more_session_of, more_session_of_text};
ghost use Rattle.session_more.specs.Lines.{IsFurther, more_taken_in};

use crate::before::MoreBefore;
use crate::forms::further_of_value;
use crate::kept::KeptMore;
use crate::line_list::MoreLines;
use crate::session::{MoreLine, MoreSession};
use session_lines::{
    DecodeFault, LineFault, Word, first_line, line_count, read_header, read_line, value_of,
};
use std::alloc::Global;

/// The most lines of a session, `lines_limit` of contracts.
const LINES: usize = 1_048_576;

// What is wrong with a line of a further form.
fn further_word(before: &MoreBefore, line: &MoreLine) -> Option<Word>
    requires { IsFurther line.now }
    ensures { result ≡ further_word before.now line.now }
{
    if !before.is_known(line) {
        return Some(Word::Replica);
    }
    if !before.is_named(line) {
        return Some(Word::Name);
    }
    None
}

// The line of a further form that a text is.
#[tactic(auto, unfolding(crate::specs::Decoding::further_read))]
fn further_of(alloc: Global, before: &MoreBefore, line: &[u8]) -> Result<MoreLine, LineFault>
    ensures ok { IfOk result (λ l. further_read before.now line.now ≡ Ok l) }
    ensures further { IfOk result IsFurther }
    ensures bad { (w : Word) → result ≡ Err (LineFault.Bad w)
        → further_read before.now line.now ≡ Err w }
{
    if before.plain.version() != 2 {
        return Err(LineFault::Bad(Word::Shape));
    }
    let value = value_of(alloc, line)?;
    let Some(line) = further_of_value(alloc, &value)? else {
        return Err(LineFault::Bad(Word::Shape));
    };
    match further_word(before, &line) {
        Some(word) => Err(LineFault::Bad(word)),
        None => Ok(line),
    }
}

// The line of a further form that a text is, which is then taken into `before`.
fn read_further(alloc: Global, line: &[u8], before: &mut MoreBefore) -> Result<MoreLine, LineFault>
    ensures ok { IfOk result (λ l. further_read before.old line.now ≡ Ok l) }
    ensures taken { IfOk result (λ l. before.new ≡ more_taken_in l before.old) }
    ensures bad { (w : Word) → result ≡ Err (LineFault.Bad w)
        → further_read before.old line.now ≡ Err w }
    ensures err { OnErr result (before.new ≡ before.old) }
{
    let line = further_of(alloc, before, line)?;
    before.take_in(alloc, &line)?;
    Ok(line)
}

// The line that a text is, which is then taken into `before`. Only a text without a form of `session_lines` is read
// again.
#[tactic(auto, unfolding(crate::specs::Decoding::more_line_read))]
fn read(alloc: Global, line: &[u8], before: &mut MoreBefore) -> Result<MoreLine, LineFault>
    ensures ok { IfOk result (λ l. more_line_read before.old line.now ≡ Ok l) }
    ensures taken { IfOk result (λ l. before.new ≡ more_taken_in l before.old) }
    ensures bad { (w : Word) → result ≡ Err (LineFault.Bad w)
        → more_line_read before.old line.now ≡ Err w }
    ensures err { OnErr result (before.new ≡ before.old) }
{
    match read_line(alloc, line, &mut before.plain) {
        Ok(line) => Ok(MoreLine::Plain(line)),
        Err(LineFault::Bad(Word::Shape)) => read_further(alloc, line, before),
        Err(fault) => Err(fault),
    }
}

// The lines after the header.
#[tactic(auto, using(crate::proofs::Headers::header_stays))]
fn rest_of(alloc: Global, before: &mut MoreBefore, text: &[u8]) -> Result<MoreLines, DecodeFault>
    ensures ok { IfOk result (λ ls. more_lines_read before.old [] (lines_of text.now) ≡ Ok ls) }
    ensures header { IfOk result (λ _. (before.new.plain.version ≡ before.old.plain.version)
        × (before.new.plain.replicas ≡ before.old.plain.replicas)) }
    ensures fault { IfErr result (λ e.
        (more_lines_read before.old [] (lines_of text.now) ≡ Err e)
        ⊎ (e ≡ DecodeFault.OutOfMemory)) }
{
    let mut lines = Vec::with_capacity(alloc, line_count(text))?;
    let mut rest = text;
    while !rest.is_empty() {
        let (line, after) = first_line(rest);
        match read(alloc, line, before) {
            Ok(line) => lines.push(KeptMore::new(alloc, line)?)?,
            Err(LineFault::Bad(word)) => {
                return Err(DecodeFault::Bad {
                    line: 2 + lines.len() as u64,
                    word,
                });
            }
            Err(LineFault::OutOfMemory) => return Err(DecodeFault::OutOfMemory),
        }
        rest = after;
    }
    Ok(MoreLines::new(lines))
}

// The session that the lines of the text are.
fn session_of(alloc: Global, migrate: bool, input: &[u8]) -> Result<MoreSession, DecodeFault>
    requires { 0 < length input.now }
    ensures ok { IfOk result (λ s. more_session_of migrate (lines_of input.now) ≡ Ok s) }
    ensures fault { IfErr result (λ e. (more_session_of migrate (lines_of input.now) ≡ Err e)
        ⊎ (e ≡ DecodeFault.OutOfMemory)) }
{
    let (line, after) = first_line(input);
    match read_header(alloc, line, migrate) {
        Ok((base, plain)) => {
            let mut before = MoreBefore::new(alloc, plain);
            let lines = rest_of(alloc, &mut before, after)?;
            let MoreBefore { plain, .. } = before;
            Ok(MoreSession {
                version: plain.version(),
                base,
                replicas: plain.into_replicas(),
                lines,
            })
        }
        Err(LineFault::Bad(word)) => Err(DecodeFault::Bad { line: 1, word }),
        Err(LineFault::OutOfMemory) => Err(DecodeFault::OutOfMemory),
    }
}

/// The session that the bytes are. Linear in their number; the session takes as much memory as the texts in it, and
/// each line is read for itself. Where `migrate` is true the session is read to be written as one of version 2: if it
/// has version 1, no text that it brings into buffers may have a CR.
///
/// # Errors
///
/// `Lines` exactly where there are more than 1,048,576 lines, with their number. Else `Bad` for the first bad line
/// and the first word that applies to it, `Cr` only where `migrate` is true; an input without a line is bad at line 1
/// with the word `header`. `OutOfMemory` only where there is a line, and not too many.
#[tactic(auto, unfolding(crate::specs::Decoding::more_session_of_text), using(crate::proofs::Headers::is_session, crate::proofs::Plain::session_of_nothing))]
pub fn decode(alloc: Global, input: &[u8], migrate: bool) -> Result<MoreSession, DecodeFault>
    ensures ok { IfOk result (λ s. more_session_of_text migrate input.now ≡ Ok s) }
    ensures session { IfOk result (λ s. IsSession (length input.now) (headed s)) }
    ensures lines { lines_limit < length (lines_of input.now)
        → result ≡ Err (DecodeFault.Lines (length (lines_of input.now))) }
    ensures fault { IfErr result (λ e. (more_session_of_text migrate input.now ≡ Err e)
        ⊎ ((0 < length input.now) × (length (lines_of input.now) ≤ lines_limit)
        × (e ≡ DecodeFault.OutOfMemory))) }
{
    if input.is_empty() {
        return Err(DecodeFault::Bad {
            line: 1,
            word: Word::Header,
        });
    }
    let count = line_count(input);
    if count > LINES {
        return Err(DecodeFault::Lines(count as u64));
    }
    session_of(alloc, migrate, input)
}
