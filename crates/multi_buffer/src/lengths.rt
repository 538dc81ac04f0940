//! The number of excerpts and of their bytes, which is a summary and a place.
ghost use Rattle.std.specs.Prelude.{◌≡◌, ◌<◌, ◌^◌, Some};
ghost use Rattle.multi_buffer.specs.Lengths.{no_lengths, add_lengths, offset_after, AnyLengths, LengthsFit, move_place, IsLater, PlaceFits};
ghost use Rattle.multi_buffer.specs.LengthLaws.{length_laws, offset_stays, place_laws};

use crate::OutOfMemory;
use std::alloc::Global;
use sum_tree::Summary;
use tree_cursor::{Bias, Dimension, Moves, Plain, Target};

/// How many excerpts there are, and how many bytes they have.
#[derive(Clone, Copy, Debug, PartialEq, Eq)]
pub struct Lengths {
    /// The number of excerpts: the index of the excerpt that follows them.
    pub excerpts: u64,
    /// The number of their bytes, without the LFs between them.
    pub bytes: u64,
}

impl Lengths {
    /// Those of no excerpts. Does not allocate.
    pub(crate) fn none() -> Lengths
        ensures { result ≡ no_lengths }
    {
        Lengths {
            excerpts: 0,
            bytes: 0,
        }
    }
}

impl Summary for Lengths {
    ghost empty = { no_lengths };

    ghost op = { add_lengths };

    ghost admits = { AnyLengths };

    ghost fits = { LengthsFit };

    ghost single = { AnyLengths };

    ghost laws = { length_laws };

    fn zero(_alloc: Global) -> Lengths {
        Lengths::none()
    }

    fn add(&mut self, _alloc: Global, other: &Lengths) -> Result<(), OutOfMemory> {
        self.excerpts += other.excerpts;
        self.bytes += other.bytes;
        Ok(())
    }
}

impl Plain for Lengths {
    ghost use Rattle.multi_buffer.specs.declared.lengths.Lengths.{Lengths};

    type Value = Lengths;

    ghost plain = { λ lengths. lengths };

    ghost later = { IsLater };
}

impl Moves<Lengths> for Lengths {
    ghost moved = { move_place };

    ghost fits = { PlaceFits };

    ghost laws = { place_laws };
}

impl<'a> Dimension<'a, Lengths> for Lengths {
    fn try_add(self, lengths: &'a Lengths) -> Option<Lengths> {
        Some(Lengths {
            excerpts: self.excerpts + lengths.excerpts,
            bytes: self.bytes + lengths.bytes,
        })
    }
}

/// An offset in the text of all excerpts, in bytes. Each excerpt has an LF after it.
#[derive(Drop)]
pub(crate) struct ByOffset(pub(crate) u64);

impl Target<Lengths> for ByOffset {
    ghost use Rattle.tree_cursor.specs.Counting.{number_passes};

    ghost passes = { λ target place bias. number_passes target.0 (offset_after place) bias };

    ghost stays = { λ target p q bias h later. offset_stays target.0 p q bias h later };

    fn passed(&self, at: Lengths, bias: Bias) -> bool {
        // Compared so that no sum exceeds its type.
        match self.0.checked_sub(at.bytes) {
            None => true,
            Some(rest) => match bias {
                Bias::Left => rest <= at.excerpts,
                Bias::Right => rest < at.excerpts,
            },
        }
    }
}

/// The index of an excerpt.
#[derive(Drop)]
pub(crate) struct ByIndex(pub(crate) u64);

impl Target<Lengths> for ByIndex {
    ghost use Rattle.tree_cursor.specs.Counting.{number_passes};
    ghost use Rattle.tree_cursor.specs.CountingLaws.{number_stays};

    ghost passes = { λ target place bias. number_passes target.0 place.excerpts bias };

    ghost stays = { λ target p q bias h later. number_stays target.0 p.excerpts q.excerpts bias h
        later.excerpts };

    fn passed(&self, at: Lengths, bias: Bias) -> bool {
        match bias {
            Bias::Left => self.0 <= at.excerpts,
            Bias::Right => self.0 < at.excerpts,
        }
    }
}
