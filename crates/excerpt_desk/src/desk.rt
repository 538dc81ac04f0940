//! Buffers and the excerpts of them, as an editor has them: a buffer is synced after each change of it.
ghost use Rattle.std.specs.Prelude.{◌≡◌, ◌<◌, length, nat_lt, IfOk};
ghost use Rattle.multi_buffer.specs.Calls.{IsWithin};
ghost use Rattle.excerpt_desk.specs.Desk.{IsNowIn};

use lamport_clock::Lamport;
use multi_buffer::{MultiBuffer, OutOfMemory, PushFault, Snapshot, SplitFault};
use op_model::{Piece, Text};
use std::alloc::Global;
use std::marker::Model;
use text_buffer::Buffer;

/// A range and the text in its place.
pub type Change = (u64, u64, &'static str);

fn piece(alloc: Global, change: Change) -> Result<Piece, OutOfMemory> {
    let text = Text::new(String::from_str(alloc, change.2)?);
    Ok(Piece::new(change.0, change.1, text))
}

/// The changes as pieces.
pub fn pieces(alloc: Global, changes: &[Change]) -> Result<Vec<Piece>, OutOfMemory> {
    let mut list = Vec::new(alloc);
    for &change in changes {
        list.push(piece(alloc, change)?)?;
    }
    Ok(list)
}

/// Makes an edit. Whether it is made.
pub fn edit(buffer: &mut Buffer, changes: &[Piece]) -> bool
    ensures { IsWithin buffer.old.history buffer.new.history }
{
    buffer.edit_uncounted(changes).is_ok()
}

// Undoes an edit. Whether it is undone.
fn undo(buffer: &mut Buffer, edit: Lamport) -> bool
    ensures { IsWithin buffer.old.history buffer.new.history }
{
    buffer.undo(&[edit]).is_ok()
}

// The most excerpts that there may be.
const MOST_EXCERPTS: u32 = 1 << 20;

/// Excerpts of buffers, which are numbered from 0. There are at most 2^20 excerpts.
#[derive(Drop)]
pub struct Desk {
    alloc: Global,
    multi: MultiBuffer,
    pages: Vec<Buffer>,
    count: u32,
}

impl Model for Desk {
    ghost use Rattle.excerpt_desk.specs.Desk.{DeskState, IsDesk, desk_of};

    ghost Value = { DeskState };

    ghost view = { λ d. desk_of d.multi d.pages.items };

    ghost invariant = { λ d. IsDesk d.multi d.pages.items d.count };
}

impl Desk {
    /// A desk without buffers.
    pub fn new(alloc: Global) -> Result<Desk, OutOfMemory> {
        let multi = MultiBuffer::new(alloc)?;
        Ok(Desk {
            alloc,
            multi,
            pages: Vec::new(alloc),
            count: 0,
        })
    }

    /// The excerpts.
    pub fn multi(&self) -> &MultiBuffer {
        &self.multi
    }

    /// Puts a buffer.
    pub fn open(&mut self, buffer: Buffer) -> Result<(), OutOfMemory> {
        Ok(self.pages.push(buffer)?)
    }

    // Whether there is a buffer of a number.
    fn has(&self, page: u32) -> bool
        ensures { result ≡ nat_lt page (length self.now.pages) }
    {
        (page as usize) < self.pages.len()
    }

    // What a buffer is now.
    fn snapshot(&self, page: u32) -> Result<Snapshot, OutOfMemory>
        requires { page < length self.now.pages }
        ensures { IfOk result (λ s. IsNowIn self.now.pages page s) }
    {
        self.pages[page as usize].snapshot()
    }

    // Takes in what a buffer has become.
    fn sync_page(&mut self, page: u32, snapshot: Snapshot) -> Result<(), OutOfMemory>
        requires { IsNowIn self.old.pages page snapshot }
    {
        self.multi.sync(page, snapshot)
    }

    /// Takes in what a buffer has become. Whether it is taken in.
    pub fn sync(&mut self, page: u32) -> bool {
        if !self.has(page) {
            return false;
        }
        match self.snapshot(page) {
            Ok(snapshot) => self.sync_page(page, snapshot).is_ok(),
            Err(_) => false,
        }
    }

    // Puts an excerpt of what a buffer is now.
    fn push(&mut self, page: u32, snapshot: Snapshot, s: u64, e: u64) -> Result<u32, PushFault>
        requires { IsNowIn self.old.pages page snapshot }
    {
        if MOST_EXCERPTS <= self.count {
            return Err(PushFault::OutOfMemory);
        }
        let index = self.multi.push(page, snapshot, s, e)?;
        self.count += 1;
        Ok(index)
    }

    /// Puts an excerpt. Returns its index.
    pub fn excerpt(&mut self, page: u32, s: u64, e: u64) -> Result<u32, PushFault> {
        if !self.has(page) {
            return Err(PushFault::OutOfMemory);
        }
        let snapshot = self.snapshot(page)?;
        self.push(page, snapshot, s, e)
    }

    // Edits a buffer. Whether it is edited.
    fn edit_page(&mut self, page: u32, changes: &[Piece]) -> bool
        requires { page < length self.old.pages }
    {
        edit(&mut self.pages[page as usize], changes)
    }

    // Undoes an edit of a buffer. Whether it is undone.
    fn undo_page(&mut self, page: u32, stamp: Lamport) -> bool
        requires { page < length self.old.pages }
    {
        undo(&mut self.pages[page as usize], stamp)
    }

    /// Edits a buffer. Whether it is edited, and synced after that.
    pub fn edit(&mut self, page: u32, changes: &[Piece]) -> bool {
        if !self.has(page) {
            return false;
        }
        self.edit_page(page, changes) && self.sync(page)
    }

    /// Undoes an edit of a buffer. Whether it is undone, and the buffer synced after that.
    pub fn undo(&mut self, page: u32, stamp: Lamport) -> bool {
        if !self.has(page) {
            return false;
        }
        self.undo_page(page, stamp) && self.sync(page)
    }

    /// Changes the text of all excerpts. Returns how many buffers were edited.
    pub fn change(&mut self, changes: &[Piece]) -> Result<u32, SplitFault> {
        let groups = self.multi.split(changes)?;
        let mut edited = 0u32;
        for group in &groups {
            if self.edit(group.buffer, group.pieces.as_slice()) {
                edited = edited.saturating_add(1);
            }
        }
        Ok(edited)
    }

    /// Whether the text of all excerpts is this, and that of their rope.
    pub fn shows(&self, want: &str) -> bool {
        self.multi.text().is_ok_and(|text| text.as_str() == want)
            && self.multi.len() == want.len() as u64
            && self.rope_shows(want)
    }

    // Whether the rope of all excerpts has a text.
    fn rope_shows(&self, want: &str) -> bool {
        match self.multi.rope() {
            Ok(Some(rope)) => rope
                .to_string(self.alloc)
                .is_ok_and(|text| text.as_str() == want),
            _ => false,
        }
    }

    /// Whether the text of a buffer is this.
    pub fn page_shows(&self, page: u32, want: &str) -> bool {
        match self.pages.get(page as usize) {
            Some(buffer) => buffer.text().is_ok_and(|text| text.as_str() == want),
            None => false,
        }
    }
}
