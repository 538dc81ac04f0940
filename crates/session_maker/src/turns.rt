//! The line of a turn.
ghost use Rattle.std.specs.Prelude.{◌≡◌, ◌<◌, ◌≤◌, ◌^◌, replicate, string_bytes, IfOk};
ghost use Rattle.session_maker.specs.Draws.{next};
ghost use Rattle.session_maker.specs.Turns.{author_of, delete_turn, edit_line, insert_turn, turn_of, undo_turn};

use crate::OutOfMemory;
use crate::draws::Draws;
use op_model::{Piece, Pieces, Text};
use session_lines::{Numbers, SessionLine};
use std::alloc::Global;

/// Draws which of so many replicas has the turn.
pub fn author(draws: &mut Draws, replicas: u16) -> u16
    requires { 0 < replicas }
    ensures author { result ≡ author_of replicas (next draws.old) }
    ensures state { draws.new ≡ next draws.old }
    ensures least { 1 ≤ result }
    ensures greatest { result ≤ replicas }
{
    1 + draws.draw(u64::from(replicas)) as u16
}

fn edit(
    alloc: Global,
    replica: u16,
    start: u64,
    end: u64,
    text: String,
) -> Result<SessionLine, OutOfMemory>
    ensures { IfOk result (λ line. line ≡ edit_line replica start end (string_bytes text)) }
{
    let mut pieces = Vec::new(alloc);
    pieces.push(Piece {
        start,
        end,
        text: Text::new(text),
    })?;
    Ok(SessionLine::Edit {
        replica,
        pieces: Pieces::new(pieces),
    })
}

fn letters(alloc: Global, count: u64, letter: char) -> Result<String, OutOfMemory>
    requires { letter < 128 }
    ensures { IfOk result (λ text. string_bytes text ≡ replicate count letter) }
{
    let mut text = String::new(alloc);
    for _i in 0..count {
        text.push(letter)?;
    }
    Ok(text)
}

fn undo(
    alloc: Global,
    draws: &mut Draws,
    number: u64,
    replica: u16,
) -> Result<SessionLine, OutOfMemory>
    requires { 1 < number }
    ensures { IfOk result (λ line. (line, draws.new) ≡ undo_turn replica number draws.old) }
{
    let mut numbers = Vec::new(alloc);
    numbers.push(1 + draws.draw(number - 1))?;
    Ok(SessionLine::Undo {
        replica,
        numbers: Numbers::new(numbers),
    })
}

fn delete(
    alloc: Global,
    draws: &mut Draws,
    replica: u16,
    length: u64,
) -> Result<SessionLine, OutOfMemory>
    requires { length ≤ 2 ^ 40 }
    ensures { IfOk result (λ line. (line, draws.new) ≡ delete_turn replica length draws.old) }
{
    let start = draws.draw(length + 1);
    let count = 1 + draws.draw(4);
    edit(
        alloc,
        replica,
        start,
        length.min(start + count),
        String::new(alloc),
    )
}

fn insert(
    alloc: Global,
    draws: &mut Draws,
    replica: u16,
    length: u64,
) -> Result<SessionLine, OutOfMemory>
    requires { length ≤ 2 ^ 40 }
    ensures { IfOk result (λ line. (line, draws.new) ≡ insert_turn replica length draws.old) }
{
    let start = draws.draw(length + 1);
    let count = 1 + draws.draw(3);
    let letter = char::from(97 + draws.draw(26) as u8);
    edit(alloc, replica, start, start, letters(alloc, count, letter)?)
}

/// The line of turn `number`, counted from 1, which is the replica's, whose text has `length` bytes: an edit, or an undo of
/// an earlier turn.
///
/// # Errors
///
/// `OutOfMemory` alone.
pub fn turn(
    alloc: Global,
    draws: &mut Draws,
    number: u64,
    replica: u16,
    length: u64,
) -> Result<SessionLine, OutOfMemory>
    requires { length ≤ 2 ^ 40 }
    ensures { IfOk result (λ line. (line, draws.new) ≡ turn_of number replica length draws.old) }
{
    let kind = draws.draw(8);
    if kind == 0 && 1 < number {
        undo(alloc, draws, number, replica)
    } else if kind == 1 || kind == 2 {
        delete(alloc, draws, replica, length)
    } else {
        insert(alloc, draws, replica, length)
    }
}
