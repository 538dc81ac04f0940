//! The top call.
ghost use Rattle.std.specs.Prelude.{◌≡◌, ◌≤◌, ◌<◌, ◌+◌, ◌⊎◌, ℕ, List, length, string_bytes, false, true, IfOk, IfSome, IsErrOf, Ok, Err, Some, None};
ghost use Rattle.std.specs.Io.KnownBytes.{Appends};
ghost use Rattle.session_io.specs.Causes.{Rose, RoseBy};
ghost use Rattle.session_work.specs.Work.{session_limit};
ghost use Rattle.session_io.specs.Traffic.{AppendsFront, WasRead};
ghost use Rattle.command_words.specs.Words.{clap_takes, command_of};
ghost use Rattle.command_words.specs.declared.command.Command.{Command};
ghost use Rattle.command_words.specs.declared.command.Task.{Task};
ghost use Rattle.session_lines.specs.Cut.{lines_of};
ghost use Rattle.session_lines.specs.Session.{lines_limit};
ghost use Rattle.session_lines.specs.Words.{bad_line, many_line};
ghost use Rattle.session_more.specs.Decoding.{more_session_of_text};
ghost use Rattle.session_more.specs.Reports.{more_line_text, more_session_counts};
ghost use Rattle.session_more.specs.declared.session.MoreSession.{MoreSession};
ghost use Rattle.session_work.specs.Making.{Makes};
ghost use Rattle.session_work.specs.MoreWork.{IsMoreSession};
ghost use Rattle.session_replay.specs.Replies.{IsReport};
ghost use Rattle.session_replay.specs.Replay.{Does, Ends, HasMany, IsBad, IsGood, IsOutput, IsPrepared, IsReady, IsRefused, IsWritten, PreparesSource, RespondsToSource, WasTaken, large_line, migrates, reads_session, refusal, usage_line, works};
ghost use Rattle.session_lines.specs.declared.fault.Word.{Word};
ghost use Rattle.session_lines.specs.declared.fault.DecodeFault.{DecodeFault};

use crate::OutOfMemory;
use crate::beside::report_beside;
use command_words::{Command, Task, command_of};
use op_wire::WireFault;
use queries::Gate;
use record_lines::{PackFault, fault_line, long_line, unpack};
use session_io::{Failed, InputFault, Sink, Source, read_all, write_all};
use session_more::{DecodeFault, MoreReport, MoreSession, Word, decode, write_line};
use session_work::{make, pack, report};
use session_writer::migrate;
use std::alloc::Global;
use std::sync::Wait;
use std::thread::Threads;

/// What the program ends with; its number is the exit status.
#[derive(Clone, Copy, Debug, PartialEq, Eq)]
pub enum Status {
    /// What the command makes was written whole.
    Done = 0,
    /// An allocation failed; nothing was written.
    Memory = 1,
    /// The words are no command words; the usage line was written, and nothing read.
    Usage = 2,
    /// A read failed; nothing was written.
    ReadFault = 3,
    /// A write failed; a prefix of the output was written.
    WriteFault = 4,
    /// The input is no session; the line that says so was written.
    Session = 5,
    /// The input is larger than a session; the line that says so was written.
    TooLarge = 6,
}

// The most bytes of a session, `session_limit` of contracts.
const LIMIT: usize = 67_108_864;

const USAGE: &str =
    "usage: zedbuf replay [--workers N] | check | make --seed N --replicas N --edits N | migrate | pack | unpack\n";

fn bytes_of(alloc: Global, text: &str) -> Result<Vec<u8>, OutOfMemory>
    ensures { IfOk result (λ v. v.items ≡ text.now) }
{
    text.as_bytes().to_vec(alloc)
}

/// The line for an input whose first bad line is that one.
#[tactic(auto, unfolding(session_lines::specs::Words::bad_line))]
fn bad_line(alloc: Global, line: u64, word: Word) -> Result<String, OutOfMemory>
    ensures { IfOk result (λ s. string_bytes s ≡ bad_line line word) }
{
    format!(in alloc; "session line {line}: {word}\n")
}

/// The line with what is counted of a session.
fn check(alloc: Global, session: &MoreSession) -> Result<Vec<u8>, OutOfMemory>
    ensures { IfOk result (λ v. v.items ≡ more_line_text (more_session_counts session.now)) }
{
    let mut line = Vec::new(alloc);
    write_line(alloc, &mut line, &MoreReport::check_line(session))?;
    Ok(line)
}

/// What an input comes to where nobody waits: what is to be written for it, or a session whose queries workers answer.
#[derive(Drop)]
pub enum Prepared {
    /// The status, and the text to be written.
    Response { status: Status, text: Vec<u8> },
    /// A session to be worked beside at least one worker.
    Beside { workers: u32, session: MoreSession },
}

/// The report of a session, each query answered on the spot, as any number of workers may answer it. The gate is not
/// called.
fn plain_report(alloc: Global, workers: u32, session: MoreSession) -> Result<Vec<u8>, OutOfMemory>
    requires { IsMoreSession session }
    ensures { IfOk result (λ v. IsReport session workers v.items) }
{
    let _workers = workers;
    report(alloc, session)
}

/// A text that is written where all went well.
fn done(text: Vec<u8>) -> Prepared
    ensures ready { IsReady result }
    ensures prepared { (task : Task) → (input : List ℕ) → length input ≤ session_limit
        → Does task input text.items → IsPrepared task input result }
{
    Prepared::Response {
        status: Status::Done,
        text,
    }
}

/// A line for an input that is not what its task reads.
fn bad(alloc: Global, line: &str) -> Result<Prepared, OutOfMemory>
    ensures ready { IfOk result IsReady }
    ensures prepared { IfOk result (λ p. (task : Task) → (input : List ℕ)
        → length input ≤ session_limit → IsBad task input line.now → IsPrepared task input p) }
{
    Ok(Prepared::Response {
        status: Status::Session,
        text: bytes_of(alloc, line)?,
    })
}

/// What the report of a session comes to where nobody waits.
fn prepare_report(
    alloc: Global,
    workers: u32,
    session: MoreSession,
) -> Result<Prepared, OutOfMemory>
    requires session { IsMoreSession session }
    ensures ready { IfOk result IsReady }
    ensures prepared { IfOk result (λ p. (input : List ℕ) → length input ≤ session_limit
        → more_session_of_text false input ≡ Ok session
        → IsPrepared (Task.Replay workers) input p) }
{
    if workers > 0 {
        return Ok(Prepared::Beside { workers, session });
    }
    Ok(done(plain_report(alloc, workers, session)?))
}

/// What packing a session comes to.
fn prepare_records(alloc: Global, session: MoreSession) -> Result<Prepared, OutOfMemory>
    requires session { IsMoreSession session }
    ensures ready { IfOk result IsReady }
    ensures prepared { IfOk result (λ p. (input : List ℕ) → length input ≤ session_limit
        → more_session_of_text false input ≡ Ok session → IsPrepared Task.Pack input p) }
{
    match pack(alloc, session) {
        Ok(records) => Ok(done(records)),
        Err(PackFault::Long { line }) => bad(alloc, long_line(alloc, line)?.as_str()),
        Err(PackFault::OutOfMemory) => Err(OutOfMemory),
    }
}

/// What a session comes to where nobody waits, for a task that reads one and does not migrate it.
fn prepare_session(alloc: Global, task: Task, session: MoreSession) -> Result<Prepared, OutOfMemory>
    requires task { works task ≡ true }
    requires session { IsMoreSession session }
    ensures ready { IfOk result IsReady }
    ensures prepared { IfOk result (λ p. (input : List ℕ) → length input ≤ session_limit
        → more_session_of_text (migrates task) input ≡ Ok session → IsPrepared task input p) }
{
    match task {
        Task::Replay { workers } => prepare_report(alloc, workers, session),
        Task::Check => Ok(done(check(alloc, &session)?)),
        Task::Pack => prepare_records(alloc, session),
        Task::Migrate | Task::Unpack => unreachable!(),
    }
}

/// The status and the line for an input that is no session.
fn refusal(alloc: Global, fault: DecodeFault) -> Result<(Status, Vec<u8>), OutOfMemory>
    ensures { IfOk result (λ p. refusal fault ≡ (p.0, p.1.items)) }
{
    match fault {
        DecodeFault::Lines(_) => Ok((Status::TooLarge, bytes_of(alloc, "too large: lines\n")?)),
        DecodeFault::Bad { line, word } => {
            let text = bad_line(alloc, line, word)?;
            Ok((Status::Session, bytes_of(alloc, text.as_str())?))
        }
        DecodeFault::OutOfMemory => Err(OutOfMemory),
    }
}

/// A response to an input that is no session, for a task that reads one.
fn respond_to_fault(alloc: Global, fault: DecodeFault) -> Result<Prepared, OutOfMemory>
    ensures ready { IfOk result IsReady }
    ensures prepared { IfOk result (λ p. (task : Task) → (input : List ℕ) → reads_session task ≡ true
        → length input ≤ session_limit → more_session_of_text (migrates task) input ≡ Err fault
        → IsPrepared task input p) }
{
    let (status, text) = refusal(alloc, fault)?;
    Ok(Prepared::Response { status, text })
}

/// A response to an input that is to be written as a session of version 2.
fn prepare_migration(alloc: Global, input: &[u8]) -> Result<Prepared, OutOfMemory>
    requires { length input.now ≤ session_limit }
    ensures ready { IfOk result IsReady }
    ensures prepared { IfOk result (λ p. IsPrepared Task.Migrate input.now p) }
{
    match migrate(alloc, input) {
        Ok(text) => Ok(Prepared::Response {
            status: Status::Done,
            text,
        }),
        Err(DecodeFault::OutOfMemory) => Err(OutOfMemory),
        Err(fault) => respond_to_fault(alloc, fault),
    }
}

/// What an input comes to that is unpacked.
fn prepare_lines(alloc: Global, input: &[u8]) -> Result<Prepared, OutOfMemory>
    requires { length input.now ≤ session_limit }
    ensures ready { IfOk result IsReady }
    ensures prepared { IfOk result (λ p. IsPrepared Task.Unpack input.now p) }
{
    match unpack(alloc, input) {
        Ok(lines) => Ok(done(lines)),
        Err(WireFault::OutOfMemory) => Err(OutOfMemory),
        Err(fault) => bad(alloc, fault_line(alloc, fault)?.as_str()),
    }
}

/// What an input comes to whose session is worked or counted. The input is dropped once it is decoded.
fn prepare_decoded(alloc: Global, task: Task, input: Vec<u8>) -> Result<Prepared, OutOfMemory>
    requires task { works task ≡ true }
    requires input { length input.items ≤ session_limit }
    ensures ready { IfOk result IsReady }
    ensures prepared { IfOk result (λ p. IsPrepared task input.items p) }
{
    let decoded = decode(alloc, input.as_slice(), false);
    drop(input);
    match decoded {
        Ok(session) => prepare_session(alloc, task, session),
        Err(DecodeFault::OutOfMemory) => Err(OutOfMemory),
        Err(fault) => respond_to_fault(alloc, fault),
    }
}

/// What an input comes to where nobody waits.
fn prepare(alloc: Global, task: Task, input: Vec<u8>) -> Result<Prepared, OutOfMemory>
    requires { length input.items ≤ session_limit }
    ensures ready { IfOk result IsReady }
    ensures prepared { IfOk result (λ p. IsPrepared task input.items p) }
{
    match task {
        Task::Migrate => prepare_migration(alloc, input.as_slice()),
        Task::Unpack => prepare_lines(alloc, input.as_slice()),
        Task::Replay { .. } | Task::Check | Task::Pack => prepare_decoded(alloc, task, input),
    }
}

/// What is to be written, with the status. Only here do workers wait.
fn respond<R: Threads + Wait + Sync, G: Gate>(
    rt: &R,
    alloc: Global,
    gate: &G,
    prepared: Prepared,
) -> Result<(Status, Vec<u8>), OutOfMemory>
    requires { IsReady prepared }
    ensures { IfOk result (λ p. IsWritten prepared p.0 p.1.items) }
{
    match prepared {
        Prepared::Response { status, text } => Ok((status, text)),
        Prepared::Beside { workers, session } => {
            let text = report_beside(rt, alloc, gate, workers, session)?;
            Ok((Status::Done, text))
        }
    }
}

/// Writes the text, and answers the status unless that fails.
fn send<O: Sink>(out: &mut O, text: &[u8], status: Status) -> Status
    requires { status ≡ Status.WriteFault → ⊥ }
    ensures either { (result ≡ status) ⊎ (result ≡ Status.WriteFault) }
    ensures whole { result ≡ status → Appends (O.written out.old) (O.written out.new) text.now }
    ensures front { result ≡ Status.WriteFault
        → AppendsFront (O.written out.old) (O.written out.new) text.now }
    ensures cause { result ≡ Status.WriteFault → Rose (O.faults out.old) (O.faults out.new) }
{
    match write_all(out, text) {
        Ok(()) => status,
        Err(Failed) => Status::WriteFault,
    }
}

/// Reads all that there is, at most one byte past the limit, and prepares what it comes to. It waits for nobody.
fn prepare_source<I: Source>(alloc: Global, task: Task, src: &mut I) -> Result<Prepared, InputFault>
    ensures ready { IfOk result IsReady }
    ensures prepared { IfOk result (λ p. PreparesSource task (I.left src.old) (I.left src.new)
        (I.given src.old) (I.given src.new) (I.ends src.old) (I.ends src.new) p) }
    ensures failed { IsErrOf result InputFault.Failed → Rose (I.faults src.old) (I.faults src.new) }
    ensures answered { IsErrOf result InputFault.TooLarge → ⊥ }
    ensures bounded { I.given src.new ≤ I.given src.old + (session_limit + 1) }
{
    match read_all(alloc, src, LIMIT) {
        Ok(input) => Ok(prepare(alloc, task, input)?),
        Err(InputFault::TooLarge) => Ok(Prepared::Response {
            status: Status::TooLarge,
            text: bytes_of(alloc, "too large: bytes\n")?,
        }),
        Err(fault) => Err(fault),
    }
}

/// Reads all that there is, at most one byte past the limit, and responds to it.
fn respond_to_source<R: Threads + Wait + Sync, I: Source, G: Gate>(
    rt: &R,
    alloc: Global,
    gate: &G,
    task: Task,
    src: &mut I,
) -> Result<(Status, Vec<u8>), InputFault>
    ensures response { IfOk result (λ p. RespondsToSource task (I.left src.old) (I.left src.new)
        (I.given src.old) (I.given src.new) (I.ends src.old) (I.ends src.new) p.0 p.1.items) }
    ensures failed { IsErrOf result InputFault.Failed → Rose (I.faults src.old) (I.faults src.new) }
    ensures answered { IsErrOf result InputFault.TooLarge → ⊥ }
    ensures bounded { I.given src.new ≤ I.given src.old + (session_limit + 1) }
{
    let prepared = prepare_source(alloc, task, src)?;
    Ok(respond(rt, alloc, gate, prepared)?)
}

/// Reads a session, and writes what the task makes of it.
fn work<R: Threads + Wait + Sync, I: Source, O: Sink, G: Gate>(
    rt: &R,
    alloc: Global,
    gate: &G,
    task: Task,
    src: &mut I,
    out: &mut O,
) -> Status
    ensures usage { result ≡ Status.Usage → ⊥ }
    ensures done { result ≡ Status.Done → (input : List ℕ)
        × WasRead (I.left src.old) (I.left src.new) (I.given src.old) (I.given src.new)
        (I.ends src.old) (I.ends src.new) input
        × (length input ≤ session_limit)
        × ((output : List ℕ) × Appends (O.written out.old) (O.written out.new) output
        × Does task input output) }
    ensures session { result ≡ Status.Session → (input : List ℕ)
        × WasRead (I.left src.old) (I.left src.new) (I.given src.old) (I.given src.new)
        (I.ends src.old) (I.ends src.new) input
        × (length input ≤ session_limit)
        × ((line : List ℕ) × IsBad task input line
        × Appends (O.written out.old) (O.written out.new) line) }
    ensures ended { (result ≡ Status.Done) ⊎ (result ≡ Status.Session)
        → Rose (I.ends src.old) (I.ends src.new) }
    ensures large { result ≡ Status.TooLarge →
        (IfSome (I.left src.old) (λ input. session_limit < length input)
        × RoseBy (session_limit + 1) (I.given src.old) (I.given src.new)
        × Appends (O.written out.old) (O.written out.new) large_line)
        ⊎ ((input : List ℕ)
        × WasRead (I.left src.old) (I.left src.new) (I.given src.old) (I.given src.new)
        (I.ends src.old) (I.ends src.new) input
        × (length input ≤ session_limit) × HasMany task input
        × Appends (O.written out.old) (O.written out.new) many_line) }
    ensures bounded { I.given src.new ≤ I.given src.old + (session_limit + 1) }
    ensures read_fault { result ≡ Status.ReadFault
        → Rose (I.faults src.old) (I.faults src.new) × (out.new ≡ out.old) }
    ensures write_fault { result ≡ Status.WriteFault → Rose (O.faults out.old) (O.faults out.new) }
    ensures report_front { result ≡ Status.WriteFault → (input : List ℕ)
        × WasTaken (I.left src.old) (I.left src.new) (I.given src.old) (I.given src.new)
        (I.ends src.old) (I.ends src.new) input
        × ((output : List ℕ) × IsOutput task input output
        × AppendsFront (O.written out.old) (O.written out.new) output) }
    ensures memory { result ≡ Status.Memory → out.new ≡ out.old }
    ensures completes { (Rose (I.faults src.old) (I.faults src.new) → ⊥)
        → (Rose (O.faults out.old) (O.faults out.new) → ⊥)
        → IfSome (I.left src.old) (λ input. length input ≤ session_limit → IsGood task input
        → (result ≡ Status.Done) ⊎ (result ≡ Status.Memory)) }
    ensures refuses { (Rose (I.faults src.old) (I.faults src.new) → ⊥)
        → (Rose (O.faults out.old) (O.faults out.new) → ⊥)
        → IfSome (I.left src.old) (λ input. (session_limit < length input) ⊎ IsRefused task input
        → (result ≡ Status.Session) ⊎ ((result ≡ Status.TooLarge) ⊎ (result ≡ Status.Memory))) }
{
    match respond_to_source(rt, alloc, gate, task, src) {
        Ok((status, text)) => send(out, text.as_slice(), status),
        Err(InputFault::Failed) => Status::ReadFault,
        Err(InputFault::TooLarge | InputFault::OutOfMemory) => Status::Memory,
    }
}

/// Makes a session, and writes its summary.
#[tactic(auto, using(session_work::proofs::Rounds::makes))]
fn make_session<O: Sink>(alloc: Global, seed: u32, replicas: u16, edits: u32, out: &mut O) -> Status
    requires some { 1 ≤ replicas }
    requires few { replicas ≤ 16 }
    requires edits { edits ≤ 20000 }
    ensures done { result ≡ Status.Done → (output : List ℕ)
        × Appends (O.written out.old) (O.written out.new) output
        × Makes seed replicas edits output }
    ensures memory { result ≡ Status.Memory → out.new ≡ out.old }
    ensures front { result ≡ Status.WriteFault → (output : List ℕ)
        × Makes seed replicas edits output
        × AppendsFront (O.written out.old) (O.written out.new) output }
    ensures write_fault { result ≡ Status.WriteFault → Rose (O.faults out.old) (O.faults out.new) }
    ensures whole { (result ≡ Status.Done)
        ⊎ ((result ≡ Status.Memory) ⊎ (result ≡ Status.WriteFault)) }
{
    match make(alloc, seed, replicas, edits) {
        Ok(summary) => send(out, summary.as_slice(), Status::Done),
        Err(OutOfMemory) => Status::Memory,
    }
}

/// Runs the program: reads the words, then the source to its end or to one byte past the limit of 67,108,864 bytes, and
/// decodes the session. Writes its report, for `check` the line with its counts, for `migrate` the session as one of
/// version 2, or for `pack` the records of the operations that it makes; `unpack` reads records, and writes the lines of
/// their operations. `make` reads no source: it makes a session, works it and writes its summary. Only a replay with
/// workers may wait, for the gate and for its threads.
///
/// The output is held whole, the input until it is decoded, or for `migrate` and `unpack` until the output is made. An edit
/// or undo, made or taken, costs a few descents for each of its pieces and for each run of bytes that it shows or hides,
/// and a line that shows a text as much as the text. A `give` shares the operation that it names with the buffer. A
/// `reopen` line costs what applying all that its replica has applied does. A query is answered on a snapshot, for which
/// nothing is copied: a `find` goes over the text once, and keeps 8 bytes for each place; a `point` or an `offset` goes
/// down the rope.
pub fn run<R: Threads + Wait + Sync, I: Source, O: Sink, G: Gate>(
    rt: &R,
    alloc: Global,
    words: &[String],
    src: &mut I,
    out: &mut O,
    gate: &G,
) -> Status
    // Usage exactly by the words, and then nothing is read.
    ensures usage { result ≡ Status.Usage → (command_of words.now ≡ None) × (src.new ≡ src.old)
        × Appends (O.written out.old) (O.written out.new) usage_line }
    ensures refused { command_of words.now ≡ None
        → (result ≡ Status.Usage) ⊎ ((result ≡ Status.WriteFault) ⊎ (result ≡ Status.Memory)) }
    // These are the words in which `clap` finds a fault.
    ensures faulty { result ≡ Status.Usage → clap_takes words.now ≡ false }
    ensures untaken { clap_takes words.now ≡ false
        → (result ≡ Status.Usage) ⊎ ((result ≡ Status.WriteFault) ⊎ (result ≡ Status.Memory)) }

    // Done: what the command makes was written whole; where it reads a session, the input was read to its end.
    ensures done { result ≡ Status.Done → (command : Command)
        × (command_of words.now ≡ Some command)
        × ((output : List ℕ) × Appends (O.written out.old) (O.written out.new) output
        × Ends command (I.left src.old) (I.left src.new) (I.given src.old) (I.given src.new)
        (I.ends src.old) (I.ends src.new) output) }

    // A session that is made is not read, and never refused.
    ensures made { (seed n edits : ℕ)
        → command_of words.now ≡ Some (Command.Make seed n edits)
        → (src.new ≡ src.old)
        × ((result ≡ Status.Done) ⊎ ((result ≡ Status.Memory) ⊎ (result ≡ Status.WriteFault))) }

    // Session: the input was read to its end, and has a first bad line, or a first operation that is too long for a
    // record, or a first fault of records.
    ensures session { result ≡ Status.Session → (task : Task)
        × (command_of words.now ≡ Some (Command.Read task))
        × ((input : List ℕ)
        × WasRead (I.left src.old) (I.left src.new) (I.given src.old) (I.given src.new)
        (I.ends src.old) (I.ends src.new) input
        × (length input ≤ session_limit)
        × ((line : List ℕ) × IsBad task input line
        × Appends (O.written out.old) (O.written out.new) line)) }
    ensures ended { (result ≡ Status.Done) ⊎ (result ≡ Status.Session)
        → (task : Task) → command_of words.now ≡ Some (Command.Read task)
        → Rose (I.ends src.old) (I.ends src.new) }

    // TooLarge: more bytes than the limit were read, or the input was read to its end and has more lines than a session
    // may have.
    ensures large { result ≡ Status.TooLarge → (task : Task)
        × (command_of words.now ≡ Some (Command.Read task))
        × ((IfSome (I.left src.old) (λ input. session_limit < length input)
        × RoseBy (session_limit + 1) (I.given src.old) (I.given src.new)
        × Appends (O.written out.old) (O.written out.new) large_line)
        ⊎ ((input : List ℕ)
        × WasRead (I.left src.old) (I.left src.new) (I.given src.old) (I.given src.new)
        (I.ends src.old) (I.ends src.new) input
        × (length input ≤ session_limit) × HasMany task input
        × Appends (O.written out.old) (O.written out.new) many_line)) }
    ensures bounded { I.given src.new ≤ I.given src.old + (session_limit + 1) }

    // Faults come only where a count rose.
    ensures read_fault { result ≡ Status.ReadFault
        → Rose (I.faults src.old) (I.faults src.new) × (out.new ≡ out.old) }
    ensures write_fault { result ≡ Status.WriteFault → Rose (O.faults out.old) (O.faults out.new) }
    ensures usage_front { result ≡ Status.WriteFault → command_of words.now ≡ None
        → (src.new ≡ src.old)
        × AppendsFront (O.written out.old) (O.written out.new) usage_line }
    ensures report_front { result ≡ Status.WriteFault → (task : Task)
        → command_of words.now ≡ Some (Command.Read task)
        → (input : List ℕ)
        × WasTaken (I.left src.old) (I.left src.new) (I.given src.old) (I.given src.new)
        (I.ends src.old) (I.ends src.new) input
        × ((output : List ℕ) × IsOutput task input output
        × AppendsFront (O.written out.old) (O.written out.new) output) }
    ensures summary_front { result ≡ Status.WriteFault → (seed n edits : ℕ)
        → command_of words.now ≡ Some (Command.Make seed n edits)
        → (output : List ℕ) × Makes seed n edits output
        × AppendsFront (O.written out.old) (O.written out.new) output }

    // Memory is free, and nothing was written.
    ensures memory { result ≡ Status.Memory → out.new ≡ out.old }

    // Where no fault was counted, an input within the limit of which the task can make something is read so, and another
    // one is refused.
    ensures completes { (Rose (I.faults src.old) (I.faults src.new) → ⊥)
        → (Rose (O.faults out.old) (O.faults out.new) → ⊥)
        → (task : Task) → command_of words.now ≡ Some (Command.Read task)
        → IfSome (I.left src.old) (λ input. length input ≤ session_limit → IsGood task input
        → (result ≡ Status.Done) ⊎ (result ≡ Status.Memory)) }
    ensures refuses { (Rose (I.faults src.old) (I.faults src.new) → ⊥)
        → (Rose (O.faults out.old) (O.faults out.new) → ⊥)
        → (task : Task) → command_of words.now ≡ Some (Command.Read task)
        → IfSome (I.left src.old) (λ input. (session_limit < length input) ⊎ IsRefused task input
        → (result ≡ Status.Session) ⊎ ((result ≡ Status.TooLarge) ⊎ (result ≡ Status.Memory))) }
{
    let command = match command_of(alloc, words) {
        Ok(Some(command)) => command,
        Ok(None) => return send(out, USAGE.as_bytes(), Status::Usage),
        Err(OutOfMemory) => return Status::Memory,
    };
    match command {
        Command::Read(task) => work(rt, alloc, gate, task, src, out),
        Command::Make {
            seed,
            replicas,
            edits,
        } => make_session(alloc, seed, replicas, edits, out),
    }
}
