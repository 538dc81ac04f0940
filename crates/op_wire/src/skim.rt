//! Elements of a record that are passed over: nothing is built of them.
ghost use Rattle.std.specs.Prelude.{◌≡◌, ◌+◌, ◌≤◌, length, IfOk};
ghost use Rattle.op_wire.specs.Spelling.{limit};
ghost use Rattle.op_wire.specs.Reading.{Gives, piece_at};
ghost use Rattle.op_wire.specs.Stages.{first_amount_at, sum_at, whole_piece};

use crate::fault::ReadError;
use crate::fields::{amount_of, stamp_of, str_of};
use crate::reading::range_of;

/// The number of entries, after the stamp.
#[tactic(auto, unfolding(crate::specs::Stages::first_amount_at))]
pub(crate) fn first_amount_of(bytes: &[u8]) -> Result<(u32, &[u8]), ReadError>
    ensures { Gives (λ x. (x.0, x.1.now)) result (first_amount_at bytes.now) }
{
    let (_, rest) = stamp_of(bytes)?;
    amount_of(rest)
}

#[tactic(auto, unfolding(crate::specs::Reading::piece_at))]
fn any_piece_in(so_far: u32, bytes: &[u8]) -> Result<(((u64, u64), &str), &[u8]), ReadError>
    ensures { Gives (λ x. (whole_piece x.0.0 x.0.1.now, x.1.now)) result
        (piece_at so_far bytes.now) }
{
    let (range, rest) = range_of(bytes)?;
    let (text, rest) = str_of(so_far, rest)?;
    Ok(((range, text), rest))
}

// The range and the text of a piece, with which the texts so far stay within the limit.
fn piece_in(so_far: u32, bytes: &[u8]) -> Result<(((u64, u64), &str), &[u8]), ReadError>
    ensures read { Gives (λ x. (whole_piece x.0.0 x.0.1.now, x.1.now)) result
        (piece_at so_far bytes.now) }
    ensures short { IfOk result (λ x. so_far + length x.0.1.now ≤ limit) }
{
    any_piece_in(so_far, bytes)
}

/// The bytes of the texts so far, with those of the piece that the bytes begin with.
#[tactic(auto, unfolding(crate::specs::Stages::sum_at))]
pub(crate) fn sum_of(so_far: u32, bytes: &[u8]) -> Result<(u32, &[u8]), ReadError>
    ensures { Gives (λ x. (x.0, x.1.now)) result (sum_at so_far bytes.now) }
{
    let ((_, text), rest) = piece_in(so_far, bytes)?;
    Ok((so_far + text.len() as u32, rest))
}
