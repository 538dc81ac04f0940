//! The records of the operations that a session makes.
ghost use Rattle.std.specs.Prelude.{◌≡◌, ◌++◌, length, replicate, Ok, IfErr, IfOk, OnOk};
ghost use Rattle.record_lines.specs.Packing.{PackCause};
ghost use Rattle.session_work.specs.MoreWork.{IsMoreSession, after_all_more};
ghost use Rattle.session_work.specs.Packing.{lines_from, made_operations, session_records};
ghost use Rattle.session_work.specs.Room.{HasRoom};
ghost use Rattle.session_work.specs.Working.{more_state_of};

use crate::OutOfMemory;
use crate::more::MoreProgress;
use record_lines::PackFault;
use session_more::{MoreQueue, MoreSession};
use std::alloc::Global;

/// Appends a line once for each of the numbers that it takes.
fn push_line(lines: &mut Vec<u64>, line: u64, count: u64) -> Result<(), OutOfMemory>
    ensures { OnOk result (lines.new.items ≡ lines.old.items ++ replicate count line) }
{
    for _ in 0..count {
        lines.push(line)?;
    }
    Ok(())
}

/// Works the lines, which come after a header, without a report, and keeps the line of each number that they take in a
/// session of this many replicas.
fn work_lines(
    progress: &mut MoreProgress,
    alloc: Global,
    replicas: u64,
    mut lines: MoreQueue,
    numbered: &mut Vec<u64>,
) -> Result<(), OutOfMemory>
    requires { HasRoom (length lines) (more_state_of progress.old) }
    ensures state { OnOk result (more_state_of progress.new
        ≡ after_all_more lines (more_state_of progress.old)) }
    ensures numbered { OnOk result (numbered.new.items
        ≡ numbered.old.items ++ lines_from replicas 2 lines) }
{
    let end = lines.len() + 2;
    while let Some((line, rest)) = lines.split_first(alloc)? {
        push_line(numbered, end - rest.len() - 1, line.number_count(replicas))?;
        progress.work_line(alloc, line)?;
        progress.clear_report();
        lines = rest;
    }
    Ok(())
}

/// The records of the operations that the operation lines of a session make, by their numbers. Works the session, and
/// no query is answered.
///
/// # Errors
///
/// `Long` exactly if an operation is too long for a record, with the line of the first, counted from 1, the header
/// among them; `OutOfMemory` if an allocation fails.
pub fn pack(alloc: Global, session: MoreSession) -> Result<Vec<u8>, PackFault>
    requires { IsMoreSession session }
    ensures ok { IfOk result (λ v. session_records session ≡ Ok v.items) }
    ensures fault { IfErr result (λ e. PackCause e (made_operations session)) }
{
    let mut progress = MoreProgress::new(alloc, &session)?;
    let replicas = session.replicas.as_slice().len() as u64;
    let mut numbered = Vec::new(alloc);
    let lines = session.lines.into_queue();
    work_lines(&mut progress, alloc, replicas, lines, &mut numbered)?;
    let made = progress.made(alloc, numbered.as_slice())?;
    record_lines::pack(alloc, made.as_slice())
}
