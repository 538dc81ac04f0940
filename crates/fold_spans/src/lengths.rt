//! The number of spans of a run and of their bytes in both texts, which is a summary and a place.
ghost use Rattle.std.specs.Prelude.{◌≡◌, ◌<◌, ◌^◌, Some};
ghost use Rattle.fold_spans.specs.Lengths.{no_lengths, add_lengths, AnyLengths, LengthsFit, lengths_of_span, move_place, IsLater, PlaceFits};
ghost use Rattle.fold_spans.specs.LengthLaws.{length_laws, place_laws};

use crate::OutOfMemory;
use crate::span::Span;
use std::alloc::Global;
use sum_tree::{Item, Summary};
use tree_cursor::{Bias, Dimension, Moves, Plain, Target};

/// How many spans there are, and how many bytes they have in the text and in what is shown.
#[derive(Clone, Copy, Debug, PartialEq, Eq)]
pub struct Lengths {
    /// The number of spans: the index of the span that follows them.
    pub spans: u64,
    /// The number of their bytes in the text.
    pub text: u64,
    /// The number of bytes that are shown for them.
    pub shown: u64,
}

impl Lengths {
    /// Those of no spans. Does not allocate.
    pub(crate) fn none() -> Lengths
        ensures { result ≡ no_lengths }
    {
        Lengths {
            spans: 0,
            text: 0,
            shown: 0,
        }
    }
}

impl Summary for Lengths {
    ghost empty = { no_lengths };

    ghost op = { add_lengths };

    ghost admits = { AnyLengths };

    ghost fits = { LengthsFit };

    ghost single = { AnyLengths };

    ghost laws = { length_laws };

    fn zero(_alloc: Global) -> Lengths {
        Lengths::none()
    }

    fn add(&mut self, _alloc: Global, other: &Lengths) -> Result<(), OutOfMemory> {
        self.spans += other.spans;
        self.text += other.text;
        self.shown += other.shown;
        Ok(())
    }
}

impl Plain for Lengths {
    ghost use Rattle.fold_spans.specs.declared.lengths.Lengths.{Lengths};

    type Value = Lengths;

    ghost plain = { λ lengths. lengths };

    ghost later = { IsLater };
}

impl Moves<Lengths> for Lengths {
    ghost moved = { move_place };

    ghost fits = { PlaceFits };

    ghost laws = { place_laws };
}

impl<'a> Dimension<'a, Lengths> for Lengths {
    fn try_add(self, lengths: &'a Lengths) -> Option<Lengths> {
        Some(Lengths {
            spans: self.spans + lengths.spans,
            text: self.text + lengths.text,
            shown: self.shown + lengths.shown,
        })
    }
}

impl Item for Span {
    type Summary = Lengths;

    ghost sum_of = { lengths_of_span };

    ghost admitted = { λ span. tt };

    ghost is_single = { λ span. tt };

    fn summary(&self, _alloc: Global) -> Result<Lengths, OutOfMemory> {
        Ok(Lengths {
            spans: 1,
            text: self.len(),
            shown: self.shown_len(),
        })
    }

    fn copy(&self, alloc: Global) -> Result<Span, OutOfMemory> {
        match self {
            Span::Open { len } => Ok(Span::Open { len: *len }),
            Span::Fold { len, folds } => {
                let folds = folds.copy(alloc)?;
                Ok(Span::Fold { len: *len, folds })
            }
            Span::Waiting { folds } => {
                let folds = folds.copy(alloc)?;
                Ok(Span::Waiting { folds })
            }
        }
    }
}

/// An offset in the text, in bytes.
#[derive(Drop)]
pub(crate) struct ByText(pub(crate) u64);

impl Target<Lengths> for ByText {
    ghost use Rattle.tree_cursor.specs.Counting.{number_passes};
    ghost use Rattle.tree_cursor.specs.CountingLaws.{number_stays};

    ghost passes = { λ target place bias. number_passes target.0 place.text bias };

    ghost stays = { λ target p q bias h later. number_stays target.0 p.text q.text bias h later.text };

    fn passed(&self, at: Lengths, bias: Bias) -> bool {
        match bias {
            Bias::Left => self.0 <= at.text,
            Bias::Right => self.0 < at.text,
        }
    }
}

/// An offset in what is shown, in bytes.
#[derive(Drop)]
pub(crate) struct ByShown(pub(crate) u64);

impl Target<Lengths> for ByShown {
    ghost use Rattle.tree_cursor.specs.Counting.{number_passes};
    ghost use Rattle.tree_cursor.specs.CountingLaws.{number_stays};

    ghost passes = { λ target place bias. number_passes target.0 place.shown bias };

    ghost stays = { λ target p q bias h later. number_stays target.0 p.shown q.shown bias h later.shown };

    fn passed(&self, at: Lengths, bias: Bias) -> bool {
        match bias {
            Bias::Left => self.0 <= at.shown,
            Bias::Right => self.0 < at.shown,
        }
    }
}

/// The index of a span.
#[derive(Drop)]
pub(crate) struct ByIndex(pub(crate) u64);

impl Target<Lengths> for ByIndex {
    ghost use Rattle.tree_cursor.specs.Counting.{number_passes};
    ghost use Rattle.tree_cursor.specs.CountingLaws.{number_stays};

    ghost passes = { λ target place bias. number_passes target.0 place.spans bias };

    ghost stays = { λ target p q bias h later. number_stays target.0 p.spans q.spans bias h later.spans };

    fn passed(&self, at: Lengths, bias: Bias) -> bool {
        match bias {
            Bias::Left => self.0 <= at.spans,
            Bias::Right => self.0 < at.spans,
        }
    }
}
