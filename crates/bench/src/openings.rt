//! Lists of operations: buffers that are opened with one, and buffers that take the same operations one by one.
use crate::buffers::{open, take};
use bench_reports::{Answer, Done, Report, long_text, step};
use lamport_clock::{Lamport, Version};
use op_model::{Counts, EditOp, Operation, Piece, Pieces, Text, UndoCount, UndoOp};
use std::alloc::Global;
use sum_tree::OutOfMemory;
use text_buffer::{Buffer, Endings, Limits, OpenFault};

/// What is done with a list: a buffer is opened with it, or takes its operations one by one, or it is dropped.
#[derive(Clone, Copy)]
pub enum Way {
    Open,
    Take,
    Drop,
}

// How many bytes the base has, where letters are put at random.
const BYTES: u32 = 1 << 20;

// Letters that one author puts one after the other; that one puts at random; that four put at random in rounds, each
// without having seen those of its round; and that one puts at random, while each tenth operation undoes the one
// before it.
#[derive(Clone, Copy)]
enum Kind {
    Typed,
    Random,
    Rounds,
    Undone,
}

const KINDS: [(&str, Kind); 4] = [
    ("Typed", Kind::Typed),
    ("Random", Kind::Random),
    ("Rounds", Kind::Rounds),
    ("Undone", Kind::Undone),
];

fn base_text(alloc: Global, kind: Kind) -> Result<String, OutOfMemory> {
    match kind {
        Kind::Typed => Ok(String::new(alloc)),
        _ => long_text(alloc, BYTES, false),
    }
}

// The edit of a stamp that has seen a version and puts a text at a place.
fn insertion(
    alloc: Global,
    stamp: Lamport,
    version: Version,
    at: u64,
    text: String,
) -> Result<Operation, OutOfMemory> {
    Ok(Operation::Edit(EditOp {
        stamp,
        version,
        pieces: Pieces::of(alloc, Piece::new(at, at, Text::new(text)))?,
    }))
}

// The first operation of a list.
fn base(alloc: Global, kind: Kind) -> Result<Operation, OutOfMemory> {
    let stamp = Lamport {
        value: 1,
        replica: 0,
    };
    let text = base_text(alloc, kind)?;
    insertion(alloc, stamp, Version::new(alloc), 0, text)
}

// The version of authors who have made operations up to a value.
fn version_of(alloc: Global, authors: u16, value: u32) -> Result<Version, OutOfMemory> {
    let mut version = Version::from_entries(alloc, &[(0, 1)])?;
    for replica in 0..if value == 1 { 0 } else { authors } {
        version.observe(Lamport {
            value,
            replica: replica.saturating_add(1),
        })?;
    }
    Ok(version)
}

fn letter(
    alloc: Global,
    stamp: Lamport,
    version: Version,
    at: u64,
) -> Result<Operation, OutOfMemory> {
    insertion(alloc, stamp, version, at, String::from_str(alloc, "a")?)
}

// A place drawn in a base to which `more` letters were added.
fn place(more: u32, x: u64) -> u64 {
    (x >> 20) % (u64::from(BYTES) + u64::from(more) + 1)
}

// The undo of an operation, the last that its author has seen.
fn undo(
    alloc: Global,
    stamp: Lamport,
    version: Version,
    last: u32,
) -> Result<Operation, OutOfMemory> {
    let edit = Lamport {
        value: last,
        replica: 1,
    };
    Ok(Operation::Undo(UndoOp {
        stamp,
        version,
        counts: Counts::copy_of(alloc, &[UndoCount { edit, count: 1 }])?,
    }))
}

// Operation `n` after the base, counted from 0, of one author.
fn own(alloc: Global, kind: Kind, n: u32, x: u64) -> Result<Operation, OutOfMemory> {
    let last = n.saturating_add(1);
    let stamp = Lamport {
        value: last.saturating_add(1),
        replica: 1,
    };
    let version = version_of(alloc, 1, last)?;
    match kind {
        Kind::Undone if n % 10 == 9 => undo(alloc, stamp, version, last),
        Kind::Undone => letter(alloc, stamp, version, place(n - n / 10, x)),
        Kind::Typed => letter(alloc, stamp, version, u64::from(n)),
        _ => letter(alloc, stamp, version, place(n, x)),
    }
}

// Operation `n` after the base, counted from 0, of four authors.
fn in_rounds(alloc: Global, n: u32, x: u64) -> Result<Operation, OutOfMemory> {
    let last = n / 4 + 1;
    let stamp = Lamport {
        value: last + 1,
        replica: (n % 4) as u16 + 1,
    };
    letter(
        alloc,
        stamp,
        version_of(alloc, 4, last)?,
        place(n - n % 4, x),
    )
}

// A base, and `count` operations over it.
fn list(alloc: Global, kind: Kind, count: u32) -> Result<Vec<Operation>, OutOfMemory> {
    let mut ops = Vec::with_capacity(alloc, 1)?;
    ops.push(base(alloc, kind)?)?;
    let mut x = 1u64;
    for n in 0..count {
        x = step(x);
        ops.push(match kind {
            Kind::Rounds => in_rounds(alloc, n, x)?,
            _ => own(alloc, kind, n, x)?,
        })?;
    }
    Ok(ops)
}

fn open_list(alloc: Global, ops: Vec<Operation>) -> Result<Buffer, OpenFault> {
    Buffer::open(alloc, 9, ops, Limits::MOST, Endings::AsIs)
}

// The length of the text of a buffer that is opened with a list. Any fault here would be a failed allocation.
fn open_len(alloc: Global, ops: Vec<Operation>) -> Answer {
    Ok(open_list(alloc, ops).or(Err(OutOfMemory))?.summary().len)
}

fn take_all(buffer: &mut Buffer, ops: Vec<Operation>) -> Done {
    for op in ops {
        // The base is that of the buffer.
        if op.stamp().replica != 0 {
            take(buffer, op)?;
        }
    }
    Ok(())
}

// The length of the text of a buffer over a base that takes them one by one.
fn take_len(alloc: Global, base: &str, ops: Vec<Operation>) -> Answer {
    let mut buffer = open(alloc, 9, base)?;
    take_all(&mut buffer, ops)?;
    Ok(buffer.summary().len)
}

// The length of the text that a list makes, or of the list if it is dropped.
fn len(alloc: Global, way: Way, base: &str, ops: Vec<Operation>) -> Answer {
    match way {
        Way::Open => open_len(alloc, ops),
        Way::Take => take_len(alloc, base, ops),
        Way::Drop => Ok(ops.len() as u64),
    }
}

fn work(report: &mut Report<'_>, way: Way, name: &str, kind: Kind, count: u32) -> Done {
    let base = base_text(report.alloc(), kind)?;
    let ops = list(report.alloc(), kind, count)?;
    report.begin();
    let answer = len(report.alloc(), way, base.as_str(), ops)?;
    report.add(name, answer);
    Ok(())
}

/// Works on lists of `count` operations and a base: the lengths of the texts, or of the lists. There is a list for each
/// kind of work, or for the one of that number, counted from 1.
pub fn works(report: &mut Report<'_>, way: Way, count: u32, only: u32) -> Done {
    for (i, &(name, kind)) in KINDS.iter().enumerate() {
        if only == 0 || only as usize == i.saturating_add(1) {
            work(report, way, name, kind, count)?;
        }
    }
    Ok(())
}

// A list in which operation `at` puts its letter past the end.
fn faulty_list(alloc: Global, count: u32, at: u32) -> Result<Vec<Operation>, OutOfMemory> {
    let mut ops = list(alloc, Kind::Random, count)?;
    let stamp = Lamport {
        value: at.saturating_add(1),
        replica: 1,
    };
    let fault = letter(alloc, stamp, version_of(alloc, 1, at)?, u64::MAX)?;
    if let Some(op) = ops.get_mut(at as usize) {
        *op = fault;
    }
    Ok(ops)
}

// The number of the operation that meets a fault.
fn fault_place(alloc: Global, ops: Vec<Operation>) -> u64 {
    match open_list(alloc, ops) {
        Err(OpenFault::Op(i, _)) => i,
        _ => 0,
    }
}

/// Lists are refused in which the first or the last of `count` operations has a fault: its number.
pub fn refusals(report: &mut Report<'_>, count: u32) -> Done {
    for (name, at) in [("FirstFault", 1), ("LastFault", count)] {
        let ops = faulty_list(report.alloc(), count, at)?;
        report.begin();
        report.add(name, fault_place(report.alloc(), ops));
    }
    Ok(())
}
