//! Excerpts that are made, and those that follow a later snapshot.
ghost use Rattle.std.specs.Prelude.{◌≡◌, None, Some, true, false};
ghost use Rattle.op_model.specs.Anchors.{is_known, place, place_fault};
ghost use Rattle.op_model.specs.Edits.{is_boundary};
ghost use Rattle.anchors.specs.Making.{made_anchor};
ghost use Rattle.multi_buffer.specs.Calls.{excerpt_of, followed};
ghost use Rattle.multi_buffer.specs.Following.{MayFollow};

use crate::{Excerpt, Snapshot};
use op_model::{Anchor, Bias};
use rope_chunks::Rope;

/// Whether a character begins at a place of a text, or the text ends there. One descent; does not allocate.
pub(crate) fn is_boundary(text: &Rope, offset: u64) -> bool
    ensures { result ≡ is_boundary text.now offset }
{
    text.is_char_boundary(offset)
}

// The anchor at an offset where one can be made.
fn anchor_at(snapshot: &Snapshot, offset: u64, bias: Bias) -> Anchor
    requires { place_fault snapshot.now offset ≡ None }
    ensures { made_anchor snapshot.now offset bias ≡ Some result }
{
    match snapshot.anchor(offset, bias) {
        Ok(anchor) => anchor,
        Err(_) => unreachable!(),
    }
}

// The place of an anchor that is known.
fn place(snapshot: &Snapshot, anchor: &Anchor) -> u64
    requires { is_known snapshot.now anchor.now ≡ true }
    ensures { result ≡ place snapshot.now anchor.now }
{
    match snapshot.resolve(anchor) {
        Ok(place) => place,
        Err(_) => unreachable!(),
    }
}

/// The excerpt `start..end` of a buffer. A few descents; does not allocate.
pub(crate) fn excerpt_of(buffer: u32, snapshot: &Snapshot, start: u64, end: u64) -> Excerpt
    requires start { place_fault snapshot.now start ≡ None }
    requires end { place_fault snapshot.now end ≡ None }
    ensures { result ≡ excerpt_of buffer snapshot.now start end }
{
    Excerpt {
        buffer,
        left: anchor_at(snapshot, start, Bias::Left),
        right: anchor_at(snapshot, end, Bias::Right),
        start,
        end,
    }
}

// Whether two anchors are the same.
fn is_same(a: &Anchor, b: &Anchor) -> bool
    ensures same { result ≡ true → a.now ≡ b.now }
    ensures other { result ≡ false → a.now ≡ b.now → ⊥ }
{
    a == b
}

/// Whether two excerpts are not the same.
pub(crate) fn differs(a: &Excerpt, b: &Excerpt) -> bool
    ensures other { result ≡ true → a.now ≡ b.now → ⊥ }
    ensures same { result ≡ false → a.now ≡ b.now }
{
    a.buffer != b.buffer
        || a.start != b.start
        || a.end != b.end
        || !is_same(&a.left, &b.left)
        || !is_same(&a.right, &b.right)
}

/// An excerpt between the places of its anchors in a later snapshot. A few descents; does not allocate.
pub(crate) fn follow(snapshot: &Snapshot, excerpt: &Excerpt) -> Excerpt
    requires { MayFollow snapshot.now excerpt.now }
    ensures { result ≡ followed snapshot.now excerpt.now }
{
    snapshot.known();
    let start = place(snapshot, &excerpt.left);
    let end = place(snapshot, &excerpt.right);
    excerpt_of(excerpt.buffer, snapshot, start, end)
}
