//! A session that is made, worked as it is made.
ghost use Rattle.op_model.specs.Domains.{IsReplica};
ghost use Rattle.op_model.specs.Operations.{last_replica};
ghost use Rattle.std.specs.Prelude.{◌≡◌, ◌≤◌, ◌<◌, ◌^◌, ◌++◌, [], ◌∷◌, length, ℕ, string_bytes, IfOk, OnOk};
ghost use Rattle.std.specs.List.{All, flat_map, range_with_len};
ghost use Rattle.session_maker.specs.Made.{gives_behind, gives_to, ids_to, rounds_from};
ghost use Rattle.session_work.specs.Making.{count_lines, have_equal_texts, have_text, length_at, made_line, made_opening, made_session, summary_of, summary_with, texts_line};
ghost use Rattle.session_work.specs.MakingOn.{TakesTurn, Works, WorksRound, work_state};
ghost use Rattle.session_work.specs.Work.{after_all};

use crate::OutOfMemory;
use crate::replay::Progress;
use crate::replica::Replica;
use op_model::Endings;
use session_lines::{SessionLine, write_line};
use session_maker::{Draws, author, turn};
use std::alloc::Global;

/// The text that each replica begins with.
const BASE_TEXT: &str = "ab\ncd\n";

/// After this many turns all replicas are given what was done in them.
const TURNS: u64 = 8;

/// A session as far as it was made.
#[derive(Drop)]
pub struct Making {
    /// What its lines came to.
    progress: Progress,
    /// What the next turn is drawn by.
    draws: Draws,
    /// Its lines after the header.
    lines: Vec<SessionLine>,
}

impl Making {
    fn new(alloc: Global, seed: u32, ids: &[u16]) -> Result<Making, OutOfMemory>
        requires counted { ids.now ≡ ids_to (length ids.now) }
        requires ids { All IsReplica ids.now }
        ensures state { IfOk result (λ m. work_state m ≡ made_opening (length ids.now)) }
        ensures draws { IfOk result (λ m. m.draws ≡ seed) }
        ensures lines { IfOk result (λ m. m.lines.items ≡ []) }
    {
        let progress = Progress::new(alloc, Endings::AsIs, ids, BASE_TEXT)?;
        Ok(Making {
            progress,
            draws: Draws::new(seed),
            lines: Vec::new(alloc),
        })
    }

    /// Adds a line, and works it.
    fn work(&mut self, alloc: Global, line: SessionLine) -> Result<(), OutOfMemory>
        ensures { OnOk result (Works self.old self.new self.old.draws (line ∷ [])) }
    {
        self.progress.work_copy(alloc, &line)?;
        self.lines.push(line)?;
        Ok(())
    }

    /// Gives the replica the operations with these numbers.
    fn give(&mut self, alloc: Global, replica: u16, numbers: &[u64]) -> Result<(), OutOfMemory>
        ensures { OnOk result (Works self.old self.new self.old.draws
            (gives_to numbers.now replica)) }
    {
        for number in numbers {
            self.work(
                alloc,
                SessionLine::Give {
                    replica,
                    number: *number,
                },
            )?;
        }
        Ok(())
    }

    /// Gives all replicas the operations with these numbers.
    fn give_all(&mut self, alloc: Global, ids: &[u16], numbers: &[u64]) -> Result<(), OutOfMemory>
        ensures { OnOk result (Works self.old self.new self.old.draws
            (flat_map (gives_to numbers.now) ids.now)) }
    {
        for id in ids {
            self.give(alloc, *id, numbers)?;
        }
        Ok(())
    }

    /// Makes and works the turn with that number.
    fn take_turn(&mut self, alloc: Global, replicas: u16, number: u64) -> Result<(), OutOfMemory>
        requires { 0 < replicas }
        ensures { OnOk result (TakesTurn self.old self.new replicas number) }
    {
        let replica = author(&mut self.draws, replicas);
        let length = self.progress.text_len(replica);
        let line = turn(alloc, &mut self.draws, number, replica, length)?;
        self.work(alloc, line)?;
        Ok(())
    }

    /// Gives all replicas what was done in the last turns, after each eighth turn.
    fn give_last(&mut self, alloc: Global, ids: &[u16], number: u64) -> Result<(), OutOfMemory>
        requires first { 0 < number }
        requires counted { ids.now ≡ ids_to (length ids.now) }
        ensures { OnOk result (Works self.old self.new self.old.draws
            (gives_behind (length ids.now) number)) }
    {
        if number % TURNS != 0 {
            return Ok(());
        }
        let n = number;
        let latest = [n, n - 1, n - 2, n - 3, n - 4, n - 5, n - 6, n - 7];
        self.give_all(alloc, ids, latest.as_slice())?;
        Ok(())
    }

    /// Makes and works the turn with that number, and what is given after it.
    fn work_round(&mut self, alloc: Global, ids: &[u16], number: u64) -> Result<(), OutOfMemory>
        requires some { 0 < length ids.now }
        requires few { length ids.now < 2 ^ 16 }
        requires counted { ids.now ≡ ids_to (length ids.now) }
        requires first { 0 < number }
        ensures { OnOk result (WorksRound self.old self.new (length ids.now) number) }
    {
        self.take_turn(alloc, ids.len() as u16, number)?;
        self.give_last(alloc, ids, number)?;
        Ok(())
    }

    /// Makes and works this many rounds.
    fn work_rounds(&mut self, alloc: Global, ids: &[u16], edits: u64) -> Result<(), OutOfMemory>
        requires some { 0 < length ids.now }
        requires few { length ids.now < 2 ^ 16 }
        requires counted { ids.now ≡ ids_to (length ids.now) }
        requires edits { edits < 2 ^ 32 }
        ensures lines { OnOk result (self.new.lines.items
            ≡ self.old.lines.items
            ++ rounds_from after_all length_at (length ids.now) edits 1 self.old.draws
            (work_state self.old)) }
        ensures state { OnOk result (work_state self.new
            ≡ after_all (rounds_from after_all length_at (length ids.now) edits 1 self.old.draws
            (work_state self.old)) (work_state self.old)) }
    {
        for done in 0..edits {
            self.work_round(alloc, ids, 1 + done)?;
        }
        Ok(())
    }

    /// The summary of what was made.
    fn summary(&self, alloc: Global) -> Result<Vec<u8>, OutOfMemory>
        ensures { IfOk result (λ v. v.items
            ≡ summary_with (length self.now.lines.items) (work_state self.now)) }
    {
        let mut out = Vec::new(alloc);
        let lines = 1 + self.lines.len() as u64;
        let first = made_line(alloc, lines, self.progress.made_count())?;
        out.extend_from_slice(first.as_bytes())?;
        write_counts(alloc, self.progress.replicas(), &mut out)?;
        let last = texts_line(have_equal_texts(self.progress.replicas())?);
        out.extend_from_slice(last.as_bytes())?;
        Ok(out)
    }
}

#[tactic(auto, unfolding(crate::specs::Making::made_line))]
fn made_line(alloc: Global, lines: u64, operations: u64) -> Result<String, OutOfMemory>
    ensures { IfOk result (λ s. string_bytes s ≡ made_line lines operations) }
{
    format!(in alloc; "made {lines} lines, {operations} operations\n")
}

fn texts_line(equal: bool) -> &'static str
    ensures { result.now ≡ texts_line equal }
{
    if equal {
        "texts equal\n"
    } else {
        "texts differ\n"
    }
}

/// Writes what each replica counts.
fn write_counts(alloc: Global, replicas: &[Replica], out: &mut Vec<u8>) -> Result<(), OutOfMemory>
    ensures { OnOk result (out.new.items ≡ out.old.items ++ count_lines replicas.now) }
{
    for replica in replicas {
        write_line(alloc, out, &replica.counts())?;
    }
    Ok(())
}

/// Whether all of them have that text.
fn have_text(replicas: &[Replica], text: &str) -> Result<bool, OutOfMemory>
    ensures { IfOk result (λ b. b ≡ have_text text.now replicas.now) }
{
    for replica in replicas {
        let own = replica.text()?;
        if own.as_str() != text {
            return Ok(false);
        }
    }
    Ok(true)
}

/// Whether all texts are equal.
fn have_equal_texts(replicas: &[Replica]) -> Result<bool, OutOfMemory>
    ensures { IfOk result (λ b. b ≡ have_equal_texts replicas.now) }
{
    let [first, rest @ ..] = replicas else {
        return Ok(true);
    };
    let text = first.text()?;
    have_text(rest, text.as_str())
}

/// The first numbers from 1 on.
fn ids_to(alloc: Global, count: u16) -> Result<Vec<u16>, OutOfMemory>
    requires { count ≤ last_replica }
    ensures { IfOk result (λ v. v.items ≡ ids_to count) }
{
    let mut ids = Vec::new(alloc);
    for id in 0..count {
        ids.push(id + 1)?;
    }
    Ok(ids)
}

/// The numbers of this many turns.
fn numbers_to(alloc: Global, count: u64) -> Result<Vec<u64>, OutOfMemory>
    requires { count < 2 ^ 32 }
    ensures { IfOk result (λ v. v.items ≡ range_with_len 1 count) }
{
    let mut numbers = Vec::new(alloc);
    for number in 0..count {
        numbers.push(number + 1)?;
    }
    Ok(numbers)
}

/// Makes the session of a seed with this many replicas and edits, works it without workers, and returns its summary.
///
/// The session is held whole. A turn costs what an edit or an undo does, a gift as much as taking one operation; there are
/// at most twice as many gifts as edits times replicas.
///
/// # Errors
///
/// `OutOfMemory` if an allocation fails.
pub fn make(alloc: Global, seed: u32, replicas: u16, edits: u32) -> Result<Vec<u8>, OutOfMemory>
    requires some { 1 ≤ replicas }
    requires few { replicas ≤ last_replica }
    ensures { IfOk result (λ v. v.items ≡ summary_of (made_session seed replicas edits)) }
{
    let ids = ids_to(alloc, replicas)?;
    let mut making = Making::new(alloc, seed, ids.as_slice())?;
    let edits = u64::from(edits);
    making.work_rounds(alloc, ids.as_slice(), edits)?;
    let numbers = numbers_to(alloc, edits)?;
    making.give_all(alloc, ids.as_slice(), numbers.as_slice())?;
    making.summary(alloc)
}
