//! A text that moves are making.
ghost use Rattle.std.specs.Prelude.{◌≡◌, ◌+◌, ◌^◌, ◌≤◌, ◌++◌, length, take, IfOk, IsUtf8, OnOk, string_bytes};
ghost use Rattle.rope_edits.specs.Sides.{side_len, side_start, pass_bytes, without, with_text};

use crate::OutOfMemory;
use rope_chunks::Rope;
use std::alloc::Global;
use std::marker::Model;

// How many bytes go from one text to another as a copy. A longer part goes with its chunks, which stay shared.
const SHORT: u64 = 512;

/// A text, in which what moves have made stands before what they have not taken.
#[derive(Drop)]
pub struct Side {
    alloc: Global,
    rope: Rope,
    /// How many bytes are made.
    made: u64,
}

impl Model for Side {
    ghost use Rattle.std.specs.Prelude.{take, drop};
    ghost use Rattle.std.specs.Str.{IsCharBoundary};
    ghost use Rattle.rope_edits.specs.Sides.{SideState};

    ghost Value = { SideState };

    ghost view = { λ s. record { made = take s.made s.rope; left = drop s.made s.rope } };

    ghost invariant = { λ s. IsCharBoundary s.rope s.made };
}

impl Side {
    /// Nothing is made of the rope's text.
    pub fn new(alloc: Global, rope: Rope) -> Side
        ensures { result ≡ side_start rope }
    {
        rope.known();
        Side {
            alloc,
            rope,
            made: 0,
        }
    }

    // Where the next bytes end, or all of them.
    fn end_of(&self, bytes: u64) -> u64
        ensures { result ≡ length (self.now.made ++ take bytes self.now.left) }
    {
        let left = self.rope.len() - self.made;
        self.made + left.min(bytes)
    }

    /// The next bytes stay.
    pub fn pass(&mut self, bytes: u64)
        requires { IsUtf8 (take bytes self.old.left) }
        ensures { self.new ≡ pass_bytes bytes self.old }
    {
        self.rope.known();
        self.made = self.end_of(bytes);
    }

    // The next bytes go, as a rope that shares their chunks.
    fn take_rope(&mut self, bytes: u64) -> Result<Rope, OutOfMemory>
        requires { IsUtf8 (take bytes self.old.left) }
        ensures part { IfOk result (λ r. r ≡ take bytes self.old.left) }
        ensures ok { OnOk result (self.new ≡ without bytes self.old) }
    {
        self.rope.known();
        let end = self.end_of(bytes);
        let part = self.rope.slice(self.alloc, self.made, end)?;
        self.rope.replace(self.alloc, self.made, end, "")?;
        Ok(part)
    }

    // The next bytes go, copied.
    fn take_text(&mut self, bytes: u64) -> Result<String, OutOfMemory>
        requires { IsUtf8 (take bytes self.old.left) }
        ensures part { IfOk result (λ t. string_bytes t ≡ take bytes self.old.left) }
        ensures ok { OnOk result (self.new ≡ without bytes self.old) }
    {
        self.rope.known();
        let end = self.end_of(bytes);
        let part = self.rope.text_of(self.alloc, self.made, end)?;
        self.rope.replace(self.alloc, self.made, end, "")?;
        Ok(part)
    }

    /// A text comes.
    pub fn put_text(&mut self, text: &str) -> Result<(), OutOfMemory>
        requires { side_len self.old + length text.now ≤ 2 ^ 40 }
        ensures ok { OnOk result (self.new ≡ with_text text.now self.old) }
    {
        self.rope.known();
        self.rope.replace(self.alloc, self.made, self.made, text)?;
        self.made += text.len() as u64;
        Ok(())
    }

    // A rope's text comes, and is shared.
    fn put_rope(&mut self, part: Rope) -> Result<(), OutOfMemory>
        requires { side_len self.old + length part ≤ 2 ^ 40 }
        ensures ok { OnOk result (self.new ≡ with_text part self.old) }
    {
        self.rope.known();
        part.known();
        let left = self.rope.slice(self.alloc, self.made, self.rope.len())?;
        let mut rope = self.rope.slice(self.alloc, 0, self.made)?;
        rope.append(self.alloc, part)?;
        let made = rope.len();
        rope.append(self.alloc, left)?;
        self.rope = rope;
        self.made = made;
        Ok(())
    }

    /// The next bytes go, and come to another text: up to 512 as a copy, more with their chunks, which stay shared. It fails
    /// for want of memory alone, and neither text is of use then.
    pub fn carry(&mut self, to: &mut Side, bytes: u64) -> Result<(), OutOfMemory>
        requires text { IsUtf8 (take bytes self.old.left) }
        requires room { side_len to.old + length (take bytes self.old.left) ≤ 2 ^ 40 }
        ensures gone { OnOk result (self.new ≡ without bytes self.old) }
        ensures there { OnOk result (to.new ≡ with_text (take bytes self.old.left) to.old) }
    {
        if bytes <= SHORT {
            let part = self.take_text(bytes)?;
            return to.put_text(part.as_str());
        }
        let part = self.take_rope(bytes)?;
        to.put_rope(part)
    }

    /// What was made.
    pub fn into_made(self) -> Result<Rope, OutOfMemory>
        ensures { IfOk result (λ r. r ≡ self.made) }
    {
        if self.made == self.rope.len() {
            return Ok(self.rope);
        }
        self.rope.known();
        self.rope.slice(self.alloc, 0, self.made)
    }
}
