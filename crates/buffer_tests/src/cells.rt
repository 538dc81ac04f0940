//! The cells of a history in order, by the definitions: a plain slow list, with which fragments are compared.
ghost use Rattle.std.specs.Prelude.{◌≡◌, ◌≤◌, length, map};
ghost use Rattle.op_model.specs.Cells.{Cell as CellType, path_before, same_cell, sibling_first};
ghost use Rattle.buffer_tests.specs.declared.cells.Name.{Name as NameType};

use lamport_clock::{Lamport, Version, is_later, is_same};
use op_model::{EditOp, Operation, Piece, UndoOp};
use std::alloc::Global;
use std::process::Abort;

/// A byte's edit, and the byte's number among those that the edit brought, from 0.
#[derive(Clone, Copy)]
pub struct Name {
    pub stamp: Lamport,
    pub number: u64,
}

/// A byte, shown or hidden, and the edits that delete it, the greatest stamp first.
#[derive(Drop)]
pub struct Cell {
    pub name: Name,
    pub byte: u8,
    pub deletions: Vec<Lamport>,
    // Its left neighbours, from the first cell of the text down, and itself.
    path: Vec<Name>,
}

// The count that the undo `by` gives an edit.
#[derive(Clone, Copy)]
struct UndoCount {
    edit: Lamport,
    by: Lamport,
    count: u32,
}

/// All cells of a history in order, what its undos count, and how many operations it has.
#[derive(Drop)]
pub struct Cells {
    list: Vec<Cell>,
    counts: Vec<UndoCount>,
    operations: u64,
}

impl Cells {
    /// The cells of a history without text.
    pub fn new(alloc: Global) -> Cells {
        Cells {
            list: Vec::new(alloc),
            counts: Vec::new(alloc),
            operations: 0,
        }
    }

    /// How many operations the history has.
    pub fn operations(&self) -> u64 {
        self.operations
    }

    /// The cells in order.
    pub fn as_slice(&self) -> &[Cell] {
        self.list.as_slice()
    }

    /// Whether a cell is shown.
    pub fn is_shown(&self, cell: &Cell) -> bool {
        is_shown(self.counts.as_slice(), cell, None)
    }

    /// The bytes that are shown.
    pub fn text(&self, rt: &impl Abort, alloc: Global) -> Vec<u8> {
        let mut text = Vec::new(alloc);
        for cell in self.list.iter() {
            if self.is_shown(cell) {
                text.push(cell.byte).expect(rt, "memory");
            }
        }
        text
    }

    /// Adds an operation to the history.
    pub fn apply(&mut self, rt: &impl Abort, alloc: Global, op: &Operation) {
        self.operations = after(self.operations, 1);
        match op {
            Operation::Edit(edit) => self.lay(rt, alloc, edit),
            Operation::Undo(undo) => self.count(rt, undo),
        }
    }

    fn count(&mut self, rt: &impl Abort, undo: &UndoOp) {
        for count in undo.counts.as_slice() {
            self.counts
                .push(UndoCount {
                    edit: count.edit,
                    by: undo.stamp,
                    count: count.count,
                })
                .expect(rt, "memory");
        }
    }

    // An edit's own cells are none that its version sees, so the pieces count the same places whether these are there or not.
    fn lay(&mut self, rt: &impl Abort, alloc: Global, edit: &EditOp) {
        self.delete(rt, edit);
        let mut number = 0;
        for piece in edit.pieces.as_slice() {
            let path = self.left_path(rt, alloc, &edit.version, piece.start);
            self.put(rt, alloc, edit.stamp, number, path, piece.text.as_str());
            number = after(number, piece.text.as_str().len() as u64);
        }
    }

    // Deletes the cells in an edit's ranges that were shown to its author.
    fn delete(&mut self, rt: &impl Abort, edit: &EditOp) {
        let counts = self.counts.as_slice();
        let mut place = 0;
        for cell in self.list.iter_mut() {
            if edit.version.sees(cell.name.stamp) {
                if is_in_range(edit.pieces.as_slice(), place)
                    && is_shown(counts, cell, Some(&edit.version))
                {
                    insert(rt, &mut cell.deletions, edit.stamp);
                }
                place = after(place, 1);
            }
        }
    }

    // The path of the cell before a place among those that a version sees; without cells at the front.
    fn left_path(
        &self,
        rt: &impl Abort,
        alloc: Global,
        version: &Version,
        start: u64,
    ) -> Vec<Name> {
        let cells = self.list.iter();
        let seen = cells.filter(|cell| version.sees(cell.name.stamp));
        match seen.take(start as usize).last() {
            Some(cell) => Vec::from_slice(alloc, cell.path.as_slice()).expect(rt, "memory"),
            None => Vec::new(alloc),
        }
    }

    // The cells of a text, each the left neighbour of the next.
    fn put(
        &mut self,
        rt: &impl Abort,
        alloc: Global,
        stamp: Lamport,
        first: u64,
        left: Vec<Name>,
        text: &str,
    ) {
        let mut path = left;
        let mut number = first;
        for byte in text.as_bytes() {
            let name = Name { stamp, number };
            path.push(name).expect(rt, "memory");
            self.add(
                rt,
                Cell {
                    name,
                    byte: *byte,
                    deletions: Vec::new(alloc),
                    path: Vec::from_slice(alloc, path.as_slice()).expect(rt, "memory"),
                },
            );
            number = after(number, 1);
        }
    }

    fn add(&mut self, rt: &impl Abort, cell: Cell) {
        let at = place_of(self.list.as_slice(), cell.path.as_slice());
        self.list.insert(at, cell).expect(rt, "memory");
    }
}

// The number n places on.
fn after(number: u64, n: u64) -> u64 {
    number.wrapping_add(n)
}

fn place_of(cells: &[Cell], path: &[Name]) -> usize
    ensures { result ≤ length cells.now }
{
    cells
        .iter()
        .position(|cell| !stands_before(cell.path.as_slice(), path))
        .unwrap_or(cells.len())
}

// Whether a path stands before another: it is a prefix of it, or its name comes first where they part.
fn stands_before(a: &[Name], b: &[Name]) -> bool
    ensures { let cell_of : NameType → CellType = λ n. record { stamp = n.stamp; k = n.number } in
        result ≡ path_before (map cell_of a.now) (map cell_of b.now) }
{
    match a {
        [] => true,
        [x, p @ ..] => match b {
            [] => false,
            [y, q @ ..] if is_name(*x, *y) => stands_before(p, q),
            [y, ..] => comes_first(*x, *y),
        },
    }
}

#[tactic(auto, unfolding(op_model::specs::Cells::same_cell))]
fn is_name(a: Name, b: Name) -> bool
    ensures { result ≡ same_cell (record { stamp = a.stamp; k = a.number })
        (record { stamp = b.stamp; k = b.number }) }
{
    is_same(a.stamp, b.stamp) && a.number == b.number
}

// Of siblings the later edit's comes first, and of one edit's the first.
#[tactic(auto, unfolding(op_model::specs::Cells::sibling_first))]
fn comes_first(a: Name, b: Name) -> bool
    ensures { result ≡ sibling_first (record { stamp = a.stamp; k = a.number })
        (record { stamp = b.stamp; k = b.number }) }
{
    is_later(a.stamp, b.stamp) || (is_same(a.stamp, b.stamp) && a.number < b.number)
}

fn is_in_range(pieces: &[Piece], place: u64) -> bool {
    pieces
        .iter()
        .any(|piece| piece.start <= place && place < piece.end)
}

// Whether a cell is shown at a version, or now: its edit is not undone, and each edit that deletes it is.
fn is_shown(counts: &[UndoCount], cell: &Cell, version: Option<&Version>) -> bool {
    !is_undone(counts, cell.name.stamp, version)
        && cell.deletions.iter().all(|t| !is_seen(version, *t) || is_undone(counts, *t, version))
}

// Whether the greatest count of an edit is odd.
fn is_undone(counts: &[UndoCount], edit: Lamport, version: Option<&Version>) -> bool {
    let mut greatest = 0;
    for one in counts {
        if is_same(one.edit, edit) && is_seen(version, one.by) {
            greatest = one.count.max(greatest);
        }
    }
    greatest % 2 == 1
}

fn is_seen(version: Option<&Version>, stamp: Lamport) -> bool {
    match version {
        Some(version) => version.sees(stamp),
        None => true,
    }
}

// Puts a stamp among stamps that descend.
fn insert(rt: &impl Abort, stamps: &mut Vec<Lamport>, stamp: Lamport) {
    let at = stamps
        .iter()
        .position(|one| is_later(stamp, *one))
        .unwrap_or(stamps.len());
    stamps.insert(at, stamp).expect(rt, "memory");
}
