//! Runs of spans: those that touch a range of the text, and the folds that are in a run.
ghost use Rattle.std.specs.Prelude.{◌≡◌, ◌≤◌, length, slice_range, IfOk};
ghost use Rattle.fold_spans.specs.Spans.{folds_of};
ghost use Rattle.fold_spans.specs.Found.{IsTouching};

use crate::OutOfMemory;
use crate::lengths::{ByIndex, ByText, Lengths};
use crate::span::{Numbers, Span};
use crate::spans::Spans;
use std::alloc::Global;
use tree_cursor::{Bias, Cursor, look_up};

/// A run of neighbouring spans: the indexes `from..to`, and the bytes `start..end` of the text.
#[derive(Clone, Copy, Debug, PartialEq, Eq)]
pub struct Touching {
    pub from: u64,
    pub to: u64,
    pub start: u64,
    pub end: u64,
}

impl Spans {
    /// The spans that meet the places `start..=end` of the text: those that hold a byte of it, end at its start or begin at its
    /// end, and the ones in which folds wait there. `start` is at most `end`.
    ///
    /// Two descents, in O(log n) for n spans. Does not allocate.
    pub fn touching(&self, start: u64, end: u64) -> Touching
        requires { start ≤ end }
        ensures { IsTouching self.now start end result }
    {
        self.tree.known();
        let (_, first) = look_up(&self.tree, Lengths::none(), &ByText(start), Bias::Left);
        let (last, before) = look_up(&self.tree, Lengths::none(), &ByText(end), Bias::Right);
        match last {
            Some(span) => Touching {
                from: first.spans,
                to: before.spans + 1,
                start: first.text,
                end: before.text + span.len(),
            },
            None => Touching {
                from: first.spans,
                to: before.spans,
                start: first.text,
                end: before.text,
            },
        }
    }

    // A cursor on the span of an index, or past the last.
    fn cursor_at(&self, index: u64) -> Cursor<'_, Span, Lengths>
        requires { index ≤ length self.now }
        ensures items { result.items ≡ self.now }
        ensures index { result.index ≡ index }
    {
        self.tree.known();
        let Ok(mut cursor) = Cursor::new(&self.tree, Lengths::none()) else {
            unreachable!()
        };
        let Ok(()) = cursor.seek(&ByIndex(index), Bias::Right) else {
            unreachable!()
        };
        cursor
    }

    /// The numbers of the folds in the spans `from..to`, in their order.
    ///
    /// One descent, and a step for each of these spans.
    ///
    /// # Errors
    ///
    /// Fails only if an allocation fails.
    pub fn folds(&self, alloc: Global, from: u64, to: u64) -> Result<Numbers, OutOfMemory>
        requires order { from ≤ to }
        requires within { to ≤ length self.now }
        ensures { IfOk result (λ numbers. numbers ≡ folds_of (slice_range self.now from to)) }
    {
        let mut numbers = Vec::new(alloc);
        let mut cursor = self.cursor_at(from);
        for _index in from..to {
            let Some(span) = cursor.item() else {
                unreachable!()
            };
            numbers.extend_from_slice(span.folds())?;
            let Ok(()) = cursor.next() else {
                unreachable!()
            };
        }
        Ok(Numbers::new(numbers))
    }
}
