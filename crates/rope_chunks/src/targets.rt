//! What a rope's look-ups look for.
ghost use Rattle.std.specs.Prelude.{◌≡◌};
ghost use Rattle.rope_chunks.specs.Targets.{passes_pair, passes_offset, passes_utf16, passes_point, passes_point_utf16, passes_row};
ghost use Rattle.rope_chunks.specs.TargetLaws.{offset_stays, utf16_stays, point_stays, point_utf16_stays, row_stays};

use crate::at::At;
use text_dims::{OffsetUtf16, Point, PointUtf16};
use tree_cursor::{Bias, Plain, Target};

/// A byte offset.
#[derive(Drop)]
pub(crate) struct ByOffset(pub(crate) u64);

impl Target<At> for ByOffset {
    ghost passes = { λ target place bias. passes_offset target.0 place bias };

    ghost stays = { λ target p q bias. offset_stays target.0 p q bias };

    fn passed(&self, at: At, bias: Bias) -> bool {
        match bias {
            Bias::Left => self.0 <= at.0.offset,
            Bias::Right => self.0 < at.0.offset,
        }
    }
}

/// An offset in UTF-16 units.
#[derive(Drop)]
pub(crate) struct ByUtf16(pub(crate) OffsetUtf16);

impl Target<At> for ByUtf16 {
    ghost passes = { λ target place bias. passes_utf16 target.0 place bias };

    ghost stays = { λ target p q bias. utf16_stays target.0 p q bias };

    fn passed(&self, at: At, bias: Bias) -> bool {
        match bias {
            Bias::Left => self.0.0 <= at.0.utf16,
            Bias::Right => self.0.0 < at.0.utf16,
        }
    }
}

/// A point.
#[derive(Drop)]
pub(crate) struct ByPoint(pub(crate) Point);

impl Target<At> for ByPoint {
    ghost passes = { λ target place bias. passes_point target.0 place bias };

    ghost stays = { λ target p q bias. point_stays target.0 p q bias };

    fn passed(&self, at: At, bias: Bias) -> bool {
        is_passed((self.0.row, self.0.column), (at.0.row, at.0.column), bias)
    }
}

/// A point whose column is in UTF-16 units.
#[derive(Drop)]
pub(crate) struct ByPointUtf16(pub(crate) PointUtf16);

impl Target<At> for ByPointUtf16 {
    ghost passes = { λ target place bias. passes_point_utf16 target.0 place bias };

    ghost stays = { λ target p q bias. point_utf16_stays target.0 p q bias };

    fn passed(&self, at: At, bias: Bias) -> bool {
        is_passed(
            (self.0.row, self.0.column),
            (at.0.row, at.0.column_utf16),
            bias,
        )
    }
}

/// The end of a row: what follows it is in a later row.
#[derive(Drop)]
pub(crate) struct ByRow(pub(crate) u64);

impl Target<At> for ByRow {
    ghost passes = { λ target place bias. passes_row target.0 place };

    ghost stays = { λ target p q bias. row_stays target.0 p q };

    fn passed(&self, at: At, _bias: Bias) -> bool {
        self.0 < at.0.row
    }
}

// Whether a row and a column are at or past those of a target (Left), or strictly past them (Right).
fn is_passed(target: (u64, u64), at: (u64, u64), bias: Bias) -> bool
    ensures { result ≡ passes_pair target.0 target.1 at.0 at.1 bias }
{
    match bias {
        Bias::Left => target.0 < at.0 || (target.0 == at.0 && target.1 <= at.1),
        Bias::Right => target.0 < at.0 || (target.0 == at.0 && target.1 < at.1),
    }
}
