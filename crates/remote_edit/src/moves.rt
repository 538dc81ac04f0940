//! Moves of bytes between the shown and the hidden text.
ghost use Rattle.std.specs.Prelude.{◌≡◌, [], length, OnErr, OnOk};
ghost use Rattle.remote_edit.specs.Moves.{length_of, as_one, with_move};
ghost use Rattle.remote_edit.specs.declared.moves.Move.TheVariants.{Visible, Hidden};
ghost use Rattle.remote_edit.specs.Carried.{move_for};

use crate::OutOfMemory;
use std::alloc::Global;
use std::marker::Model;

/// What becomes of the next bytes of the shown text, of the hidden text or of an operation's new text. Each variant has
/// the number of these bytes.
#[derive(Clone, Copy, Debug, PartialEq, Eq)]
pub enum Move {
    /// Shown bytes stay shown.
    Visible(u64),
    /// Hidden bytes stay hidden.
    Hidden(u64),
    /// Shown bytes are hidden.
    Hide(u64),
    /// Hidden bytes are shown.
    Show(u64),
    /// New bytes are shown.
    Insert(u64),
}

impl Move {
    /// The move of `len` bytes, by whether they were shown before and whether they are shown now.
    pub fn of(was_shown: bool, is_shown: bool, len: u64) -> Move
        ensures { result ≡ move_for was_shown is_shown len }
    {
        match (was_shown, is_shown) {
            (true, true) => Move::Visible(len),
            (true, false) => Move::Hide(len),
            (false, true) => Move::Show(len),
            (false, false) => Move::Hidden(len),
        }
    }

    /// The number of bytes.
    pub fn len(self) -> u64
        ensures { result ≡ length_of self }
    {
        match self {
            Move::Visible(n) | Move::Hidden(n) | Move::Hide(n) | Move::Show(n) | Move::Insert(n) =>
                n,
        }
    }

    // This move and the next as one, if they are of the same kind and their length fits in a `u64`.
    fn as_one(self, next: Move) -> Option<Move>
        ensures { result ≡ as_one self next }
    {
        Some(match (self, next) {
            (Move::Visible(a), Move::Visible(b)) => Move::Visible(a.checked_add(b)?),
            (Move::Hidden(a), Move::Hidden(b)) => Move::Hidden(a.checked_add(b)?),
            (Move::Hide(a), Move::Hide(b)) => Move::Hide(a.checked_add(b)?),
            (Move::Show(a), Move::Show(b)) => Move::Show(a.checked_add(b)?),
            (Move::Insert(a), Move::Insert(b)) => Move::Insert(a.checked_add(b)?),
            _ => return None,
        })
    }
}

/// What an operation does to the shown and the hidden text, from start to end. Contracts see it as the list of its
/// moves.
#[derive(Drop)]
pub struct Moves {
    inner: Vec<Move>,
}

impl Model for Moves {
    ghost use Rattle.std.specs.Prelude.{List};
    ghost use Rattle.remote_edit.specs.declared.moves.Move.{Move};

    ghost Value = { List Move };

    ghost view = { λ m. m.inner.items };
}

impl Moves {
    /// No moves. Does not allocate.
    pub fn new(alloc: Global) -> Moves
        ensures { result ≡ [] }
    {
        Moves {
            inner: Vec::new(alloc),
        }
    }

    /// The moves of a `Vec`, in its order: none is left out or merged with another. Does not allocate.
    pub fn from_vec(moves: Vec<Move>) -> Moves
        ensures { result ≡ moves.items }
    {
        Moves { inner: moves }
    }

    /// The moves, in order. Does not allocate.
    pub fn as_slice(&self) -> &[Move]
        ensures { result.now ≡ self.now }
    {
        &self.inner
    }

    /// The number of moves. Does not allocate.
    pub fn len(&self) -> usize
        ensures { result ≡ length self.now }
    {
        self.inner.len()
    }

    /// Appends a move. A move of 0 bytes changes nothing. A move of the same kind as the last one lengthens that,
    /// unless the length would not fit in a `u64`.
    ///
    /// # Errors
    ///
    /// Fails only if an allocation fails. The moves are then as before.
    pub fn push(&mut self, next: Move) -> Result<(), OutOfMemory>
        ensures ok { OnOk result (self.new ≡ with_move self.old next) }
        ensures err { OnErr result (self.new ≡ self.old) }
    {
        if next.len() == 0 {
            return Ok(());
        }
        let len = self.inner.len();
        if len > 0
            && let Some(one) = self.inner[len - 1].as_one(next)
        {
            self.inner[len - 1] = one;
            return Ok(());
        }
        self.inner.push(next)?;
        Ok(())
    }

    // Appends the moves of a stretch of fragments that stays as it is.
    pub(crate) fn keep(&mut self, visible: u64, hidden: u64) -> Result<(), OutOfMemory>
        ensures { OnOk result (self.new
            ≡ with_move (with_move self.old (Visible visible)) (Hidden hidden)) }
    {
        self.push(Move::Visible(visible))?;
        self.push(Move::Hidden(hidden))
    }
}
