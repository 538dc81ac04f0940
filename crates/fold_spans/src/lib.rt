//! Spans of a text with folded ranges: what is shown of it, and places in both.
#![tactic(auto)]

mod laws;
mod lengths;
mod places;
mod span;
mod spans;
mod sweep;
mod touching;

pub use laws::{
    kept_marks_stay, marks_are_local, parts_are_made_again, shown_at_most_thrice,
    shown_place_by_span, shown_places_come_back, text_place_by_span, windows_fit,
};
pub use lengths::Lengths;
pub use span::{Numbers, Span};
pub use spans::Spans;
pub use sum_tree::OutOfMemory;
pub use sweep::{FoldRange, spans_of};
pub use touching::Touching;

fn sends<T: Send>(_value: &T) {}

fn shares<T: Sync>(_value: &T) {}

/// Spans may be sent to threads and be shared by them.
pub fn crosses_threads(spans: &Spans) {
    sends(spans);
    shares(spans);
}
