//! Anchors that are made in a snapshot, and looked up in it.
ghost use Rattle.std.specs.Prelude.{◌≡◌, ◌≢◌};
ghost use Rattle.c_values.specs.Anchors.{unflat};
ghost use Rattle.buffer_handles.specs.Anchoring.{IsMade, anchor_answer, compare_answer, order_number, resolve_answer};

use c_values::{Answer, Code, FlatAnchor, anchor_of, bias_at, flat_anchor, place_refusal};
use std::cmp::Ordering;
use text_buffer::Snapshot;

fn order_number(order: Ordering) -> u64
    ensures { result ≡ order_number order }
{
    match order {
        Ordering::Less => 0,
        Ordering::Equal => 1,
        Ordering::Greater => 2,
    }
}

/// Makes an anchor at a byte offset of the text, as [`Snapshot::anchor`] does. A few descents; does not allocate.
///
/// # Errors
///
/// `OutOfRange` where the bias is neither 0 nor 1, `PastEnd`, `InsideChar`; the first of these.
pub fn make_anchor(snapshot: &Snapshot, offset: u64, bias: u32, into: &mut FlatAnchor) -> Answer
    ensures answer { result ≡ anchor_answer snapshot.now offset bias }
    ensures made { result.code ≡ 0 → IsMade snapshot.now offset bias into.new }
    ensures kept { result.code ≢ 0 → into.new ≡ into.old }
{
    let Some(bias) = bias_at(bias) else {
        return Answer::bare(Code::OutOfRange);
    };
    match snapshot.anchor(offset, bias) {
        Ok(anchor) => {
            *into = flat_anchor(anchor);
            Answer::bare(Code::Done)
        }
        Err(fault) => place_refusal(fault),
    }
}

/// The place of an anchor, in bytes, which the answer has. A few descents; does not allocate.
///
/// # Errors
///
/// `OutOfRange` where it is no anchor, `Unknown` where the snapshot does not know it.
pub fn resolve_anchor(snapshot: &Snapshot, flat: &FlatAnchor) -> Answer
    ensures { result ≡ resolve_answer snapshot.now (unflat flat.now) }
{
    let Some(anchor) = anchor_of(flat) else {
        return Answer::bare(Code::OutOfRange);
    };
    match snapshot.resolve(&anchor) {
        Ok(place) => Answer::new(Code::Done, place, 0, 0),
        Err(_) => Answer::bare(Code::Unknown),
    }
}

/// The order of two anchors, which the answer has: 0 where the first is less, 1 where they are at one place, 2 where it
/// is greater. A few descents; does not allocate.
///
/// # Errors
///
/// `OutOfRange` where one of them is no anchor, `Unknown` where the snapshot does not know one of them.
pub fn compare_anchors(snapshot: &Snapshot, first: &FlatAnchor, second: &FlatAnchor) -> Answer
    ensures { result ≡ compare_answer snapshot.now (unflat first.now) (unflat second.now) }
{
    let Some(first) = anchor_of(first) else {
        return Answer::bare(Code::OutOfRange);
    };
    let Some(second) = anchor_of(second) else {
        return Answer::bare(Code::OutOfRange);
    };
    match snapshot.compare(&first, &second) {
        Ok(order) => Answer::new(Code::Done, order_number(order), 0, 0),
        Err(_) => Answer::bare(Code::Unknown),
    }
}
