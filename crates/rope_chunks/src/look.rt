//! Look-ups inside a chunk.
ghost use Rattle.std.specs.Prelude.{◌≡◌, ◌+◌, ◌-◌, ◌<◌, ◌≤◌, length, take, drop, slice_index, IfSome, IsTrue};
ghost use Rattle.text_dims.specs.Places.{PlaceFits, end_place, is_cut, place_after, place_sum, walk};
ghost use Rattle.rope_chunks.specs.Stops.{stop, pick_place, HasRoom};

use crate::at::At;
use text_dims::{LANES, Place, is_char_start, run_at};
use tree_cursor::{Bias, Plain, Target};

/// Where a look-up stops: at the first place at or past its target, if there is one; and the place before that.
#[derive(Clone, Copy)]
pub(crate) struct Stop {
    pub(crate) before: Place,
    pub(crate) here: Option<Place>,
}

// Some first bytes of a text, and the place after them.
#[derive(Clone, Copy)]
struct Front {
    len: usize,
    place: Place,
}

impl Front {
    // The first bytes of a text that begins at a place, unless there are fewer than 16, or the place after them is at
    // the target or past it.
    fn before<G: Target<At>>(bytes: &[u8], start: Place, target: &G) -> Option<Front>
        requires { HasRoom start (length bytes.now) }
        ensures some { IfSome result (λ front. 0 < front.len) }
        ensures within { IfSome result (λ front. front.len ≤ length bytes.now) }
        ensures room { IfSome result (λ front. HasRoom front.place (length bytes.now - front.len)) }
        ensures rest { IfSome result (λ front.
            stop (λ k. G.passes target.now k Bias.Left) start (walk start bytes.now)
            ≡ stop (λ k. G.passes target.now k Bias.Left) front.place
            (walk front.place (drop front.len bytes.now))) }
    {
        if bytes.len() < LANES {
            return None;
        }
        let front = Front::new(bytes, start);
        if target.passed(At(front.place), Bias::Left) {
            return None;
        }
        Some(front)
    }

    // The first bytes of a text that begins at a place: 16 and what is left of their last character, or those up to the
    // first LF with it.
    fn new(bytes: &[u8], start: Place) -> Front
        requires long { LANES ≤ length bytes.now }
        requires room { HasRoom start (length bytes.now) }
        ensures some { 0 < result.len }
        ensures cut { IsTrue (is_cut bytes.now result.len) }
        ensures place { result.place ≡ place_sum start (end_place (take result.len bytes.now)) }
    {
        let mut front = Front::by_lanes(bytes, start);
        while front.len < bytes.len() && !is_char_start(bytes[front.len]) {
            front = front.with_next(bytes);
        }
        front
    }

    // The first 16 bytes of a text that begins at a place, or those up to the first LF with it.
    fn by_lanes(bytes: &[u8], start: Place) -> Front
        requires long { LANES ≤ length bytes.now }
        requires room { HasRoom start (length bytes.now) }
        ensures some { 0 < result.len }
        ensures within { result.len ≤ length bytes.now }
        ensures place { result.place ≡ place_sum start (end_place (take result.len bytes.now)) }
    {
        let run = run_at(bytes, 0);
        let front = Front {
            len: run.len,
            place: start.past_run(run),
        };
        if run.len == LANES {
            return front;
        }
        front.with_next(bytes)
    }

    // With the next byte.
    fn with_next(self, bytes: &[u8]) -> Front
        requires within { self.len < length bytes.now }
        requires fits { PlaceFits (place_after self.place (slice_index bytes.now self.len)) }
        ensures { result ≡ record {
          len = self.len + 1;
          place = place_after self.place (slice_index bytes.now self.len);
        } }
    {
        Front {
            len: self.len + 1,
            place: self.place.after(bytes[self.len]),
        }
    }
}

/// Looks for a target in a text, which begins at a place.
pub(crate) fn stop_in<G: Target<At>>(text: &str, start: Place, target: &G) -> Stop
    requires { HasRoom start (length text.now) }
    ensures { result ≡ stop (λ k. G.passes target.now k Bias.Left) start (walk start text.now) }
{
    let mut rest = text.as_bytes();
    let mut place = start;
    while let Some(front) = Front::before(rest, place, target) {
        place = front.place;
        rest = &rest[front.len..];
    }
    stop_by_bytes(rest, place, target)
}

// Looks for a target byte by byte.
fn stop_by_bytes<G: Target<At>>(bytes: &[u8], start: Place, target: &G) -> Stop
    requires { HasRoom start (length bytes.now) }
    ensures { result ≡ stop (λ k. G.passes target.now k Bias.Left) start (walk start bytes.now) }
{
    let mut before = start;
    let mut at = start;
    for byte in bytes {
        if is_char_start(*byte) {
            if target.passed(At(at), Bias::Left) {
                return Stop {
                    before,
                    here: Some(at),
                };
            }
            before = at;
        }
        at = at.after(*byte);
    }
    if target.passed(At(at), Bias::Left) {
        Stop {
            before,
            here: Some(at),
        }
    } else {
        Stop {
            before: at,
            here: None,
        }
    }
}
