//! What an operation does to the shown and the hidden text, where both are kept as ropes.
ghost use Rattle.std.specs.Prelude.{◌≡◌, ◌+◌, ◌^◌, ◌≤◌, [], ◌∷◌, length, IfOk, OnOk, string_bytes, take, drop, IsUtf8};
ghost use Rattle.op_model.specs.Operations.{text_total};
ghost use Rattle.op_model.specs.Shown.{texts};
ghost use Rattle.remote_edit.specs.Moves.{TakeTexts, after_moves, texts_of};
ghost use Rattle.rope_edits.specs.Sides.{MayTake, sides_len, after_move};

use crate::OutOfMemory;
use crate::side::Side;
use op_model::Piece;
use remote_edit::Move;
use rope_chunks::Rope;
use std::alloc::Global;
use std::marker::Model;

/// The ropes of a shown and of a hidden text.
#[derive(Drop)]
pub struct TextRopes {
    pub shown: Rope,
    pub hidden: Rope,
}

// Both texts on the way.
#[derive(Drop)]
struct Sides<'a> {
    shown: Side,
    hidden: Side,
    // The new text that no move has taken.
    fresh: &'a str,
}

impl<'a> Model for Sides<'a> {
    ghost use Rattle.rope_edits.specs.Sides.{SidesState};

    ghost Value = { SidesState };

    ghost view = { λ s. record { shown = s.shown; hidden = s.hidden; fresh = s.fresh.now } };
}

impl<'a> Sides<'a> {
    // Makes one move.
    fn step(&mut self, next: Move) -> Result<(), OutOfMemory>
        requires texts { MayTake self.old (next ∷ []) }
        requires room { sides_len self.old ≤ 2 ^ 40 }
        ensures ok { OnOk result (self.new ≡ after_move next self.old) }
    {
        match next {
            Move::Visible(n) => {
                self.shown.pass(n);
                Ok(())
            }
            Move::Hidden(n) => {
                self.hidden.pass(n);
                Ok(())
            }
            Move::Hide(n) => self.shown.carry(&mut self.hidden, n),
            Move::Show(n) => self.hidden.carry(&mut self.shown, n),
            Move::Insert(n) => {
                let (text, rest) = cut(self.fresh, n);
                self.fresh = rest;
                self.shown.put_text(text)
            }
        }
    }
}

// A text cut behind so many of its bytes, or behind all of them.
fn cut(text: &str, bytes: u64) -> (&str, &str)
    requires { IsUtf8 (take bytes text.now) }
    ensures front { result.0.now ≡ take bytes text.now }
    ensures back { result.1.now ≡ drop bytes text.now }
{
    let len = (text.len() as u64).min(bytes);
    text.split_at(len as usize)
}

// The texts of pieces, one after the other.
fn texts_of_pieces(alloc: Global, pieces: &[Piece]) -> Result<String, OutOfMemory>
    ensures { IfOk result (λ s. string_bytes s ≡ texts pieces.now) }
{
    let mut all = String::new(alloc);
    for piece in pieces {
        all.push_str(piece.text.as_str())?;
    }
    Ok(all)
}

// What moves make of two texts and of a new one.
fn move_texts(
    alloc: Global,
    shown: Rope,
    hidden: Rope,
    moves: &[Move],
    fresh: &str,
) -> Result<TextRopes, OutOfMemory>
    requires texts { TakeTexts moves.now shown hidden fresh.now }
    requires room { length shown + length hidden + length fresh.now ≤ 2 ^ 40 }
    ensures { IfOk result (λ r. texts_of r.shown r.hidden
        ≡ after_moves moves.now shown hidden fresh.now) }
{
    let mut sides = Sides {
        shown: Side::new(alloc, shown),
        hidden: Side::new(alloc, hidden),
        fresh,
    };
    for next in moves {
        sides.step(*next)?;
    }
    Ok(TextRopes {
        shown: sides.shown.into_made()?,
        hidden: sides.hidden.into_made()?,
    })
}

/// What the moves of an operation make of the ropes of a shown and of a hidden text, and of the operation's new texts, which stand
/// in its pieces. The moves take whole characters, and all bytes are at most 2^40.
///
/// Both ropes are gone along once. Bytes that stay are shared, and those that only change sides too, where they are more than a
/// few chunks; so each move costs a few descents, and those of bytes that stay nothing. The new texts are copied. The ropes that
/// are given stay as they are.
pub fn apply_moves(
    alloc: Global,
    shown: &Rope,
    hidden: &Rope,
    moves: &[Move],
    pieces: &[Piece],
) -> Result<TextRopes, OutOfMemory>
    requires texts { TakeTexts moves.now shown.now hidden.now (texts pieces.now) }
    requires room { length shown.now + length hidden.now + text_total pieces.now ≤ 2 ^ 40 }
    ensures { IfOk result (λ r. texts_of r.shown r.hidden
        ≡ after_moves moves.now shown.now hidden.now (texts pieces.now)) }
{
    let shown = shown.share()?;
    let hidden = hidden.share()?;
    apply_moves_into(alloc, shown, hidden, moves, pieces)
}

/// Does what `apply_moves` does, to ropes that it takes whole: what nothing else shares changes in place.
///
/// # Errors
///
/// Fails only if an allocation fails. The ropes are dropped then.
pub fn apply_moves_into(
    alloc: Global,
    shown: Rope,
    hidden: Rope,
    moves: &[Move],
    pieces: &[Piece],
) -> Result<TextRopes, OutOfMemory>
    requires texts { TakeTexts moves.now shown hidden (texts pieces.now) }
    requires room { length shown + length hidden + text_total pieces.now ≤ 2 ^ 40 }
    ensures { IfOk result (λ r. texts_of r.shown r.hidden
        ≡ after_moves moves.now shown hidden (texts pieces.now)) }
{
    if let [piece] = pieces {
        return move_texts(alloc, shown, hidden, moves, piece.text.as_str());
    }
    let fresh = texts_of_pieces(alloc, pieces)?;
    move_texts(alloc, shown, hidden, moves, fresh.as_str())
}
