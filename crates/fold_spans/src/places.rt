//! Places of the text in what is shown, and the way back.
ghost use Rattle.std.specs.Prelude.{◌≡◌, ◌+◌, ◌≤◌, ◌<◌, ◌^◌};
ghost use Rattle.fold_spans.specs.Marks.{shown_place, text_place};
ghost use Rattle.fold_spans.specs.Spans.{marks_of, span_len, shown_span, text_sum, shown_sum};
ghost use Rattle.fold_spans.specs.Laws.{shown_in, text_in};

use crate::span::{ELLIPSIS_BYTES, Span};
use crate::spans::Spans;
use tree_cursor::Bias;

impl Span {
    // The place in what is shown of the place `offset` bytes into the span, before which `before` bytes are shown.
    fn shown_in(&self, before: u64, offset: u64, bias: Bias) -> u64
        requires within { offset ≤ span_len self.now }
        requires room { before + shown_span self.now < 2 ^ 64 }
        ensures { result ≡ shown_in self.now before offset bias }
    {
        match (self, bias) {
            (Span::Open { .. }, _) => before + offset,
            (Span::Fold { len, .. }, Bias::Left) if offset < *len => before,
            (Span::Fold { .. }, Bias::Right) if offset == 0 => before,
            (Span::Fold { .. }, _) => before + ELLIPSIS_BYTES,
            (Span::Waiting { .. }, _) => before,
        }
    }

    // The place of the place `offset` bytes into what is shown for the span, before which `before` bytes of the text lie.
    fn text_in(&self, before: u64, offset: u64, bias: Bias) -> u64
        requires within { offset ≤ shown_span self.now }
        requires room { before + span_len self.now < 2 ^ 64 }
        ensures { result ≡ text_in self.now before offset bias }
    {
        match (self, bias) {
            (Span::Open { .. }, _) => before + offset,
            (Span::Fold { .. }, Bias::Left) if offset < ELLIPSIS_BYTES => before,
            (Span::Fold { .. }, Bias::Right) if offset == 0 => before,
            (Span::Fold { len, .. }, _) => before + len,
            (Span::Waiting { .. }, _) => before,
        }
    }
}

impl Spans {
    /// The place in what is shown of a place of the text, both in bytes. Strictly inside the bytes of a ⋯ it is the start (Left)
    /// or the end (Right) of the ⋯. `offset` is at most the length of the text.
    ///
    /// One descent, in O(log n) for n spans. Does not allocate.
    pub fn shown_place(&self, offset: u64, bias: Bias) -> u64
        requires { offset ≤ text_sum self.now }
        ensures { result ≡ shown_place (marks_of self.now) offset bias }
    {
        self.known();
        match self.at_text(offset) {
            (Some(span), before) => span.shown_in(before.shown, offset - before.text, bias),
            (None, before) => before.shown,
        }
    }

    /// The place of the text that is shown at a place, both in bytes. Strictly inside a ⋯ it is the start (Left) or the end (Right)
    /// of what the ⋯ stands for. `offset` is at most the length of what is shown.
    ///
    /// One descent, in O(log n) for n spans. Does not allocate.
    pub fn text_place(&self, offset: u64, bias: Bias) -> u64
        requires { offset ≤ shown_sum self.now }
        ensures { result ≡ text_place (marks_of self.now) offset bias }
    {
        self.known();
        match self.at_shown(offset) {
            (Some(span), before) => span.text_in(before.text, offset - before.shown, bias),
            (None, before) => before.text,
        }
    }
}
