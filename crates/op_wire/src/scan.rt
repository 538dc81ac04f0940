//! Looking on in an unfinished record, element by element, so that no feed begins at its front again.
ghost use Rattle.std.specs.Prelude.{◌≡◌, ◌∷◌, IfSome};
ghost use Rattle.op_wire.specs.declared.scan.Stage.TheVariants.{Start, Entries, Pieces, Counts};
ghost use Rattle.op_wire.specs.Stages.{kind, parts, pause, Leads, IsShortAt, Steps};

use crate::fault::{ReadError, Stop};
use crate::fields::amount_of;
use crate::reading::{count_of, entry_of};
use crate::skim::{first_amount_of, sum_of};

/// What comes next in a record, as far as the bytes before it say.
#[derive(Clone, Copy)]
pub(crate) enum Stage {
    /// The kind, the stamp and the number of entries.
    Start,
    /// Entries: whether they are an undo's, how many are left, and the least replica that the next one may have.
    Entries {
        is_undo: bool,
        left: u32,
        least: u32,
    },
    /// Pieces: how many are left, and the bytes of the texts so far.
    Pieces {
        left: u32,
        so_far: u32,
    },
    /// Counts: how many are left.
    Counts {
        left: u32,
    },
}

/// Why there is no step on.
#[derive(Clone, Copy)]
pub(crate) enum Pause {
    /// The bytes end inside the element.
    Waits,
    /// The record is whole, or the element is faulty.
    Ready,
}

fn pause_of(error: ReadError) -> Pause
    ensures { result ≡ pause error }
{
    match error {
        ReadError::OutOfMemory => Pause::Ready,
        ReadError::Stopped(Stop::Short) => Pause::Waits,
        ReadError::Stopped(Stop::Bad(_, _)) => Pause::Ready,
    }
}

fn head(is_undo: bool, bytes: &[u8]) -> Result<(Stage, &[u8]), Pause>
    ensures { Steps (λ x. (x.0, x.1.now)) Start (kind is_undo ∷ bytes.now) result }
{
    match first_amount_of(bytes) {
        Ok((left, rest)) => {
            let least = 0;
            let next = Stage::Entries {
                is_undo,
                left,
                least,
            };
            Ok((next, rest))
        }
        Err(error) => Err(pause_of(error)),
    }
}

#[tactic(auto, unfolding(crate::specs::Reading::record_at))]
fn start(bytes: &[u8]) -> Result<(Stage, &[u8]), Pause>
    ensures { Steps (λ x. (x.0, x.1.now)) Start bytes.now result }
{
    match bytes {
        [] => Err(Pause::Waits),
        [1, rest @ ..] => head(false, rest),
        [2, rest @ ..] => head(true, rest),
        [_, ..] => Err(Pause::Ready),
    }
}

fn parts_of(is_undo: bool, left: u32) -> Stage
    ensures { result ≡ parts is_undo left }
{
    if is_undo {
        Stage::Counts { left }
    } else {
        Stage::Pieces { left, so_far: 0 }
    }
}

// The number of pieces or of counts, after the last entry.
fn tail(is_undo: bool, least: u32, bytes: &[u8]) -> Result<(Stage, &[u8]), Pause>
    ensures { Steps (λ x. (x.0, x.1.now)) (Entries is_undo 0 least) bytes.now result }
{
    match amount_of(bytes) {
        Ok((left, rest)) => Ok((parts_of(is_undo, left), rest)),
        Err(error) => Err(pause_of(error)),
    }
}

fn entry(is_undo: bool, left: u32, least: u32, bytes: &[u8]) -> Result<(Stage, &[u8]), Pause>
    ensures { Steps (λ x. (x.0, x.1.now)) (Entries is_undo left least) bytes.now result }
{
    if left == 0 {
        return tail(is_undo, least, bytes);
    }
    match entry_of(least, bytes) {
        Ok(((replica, _), rest)) => {
            let least = u32::from(replica) + 1;
            let left = left - 1;
            let next = Stage::Entries {
                is_undo,
                left,
                least,
            };
            Ok((next, rest))
        }
        Err(error) => Err(pause_of(error)),
    }
}

fn piece(left: u32, so_far: u32, bytes: &[u8]) -> Result<(Stage, &[u8]), Pause>
    ensures { Steps (λ x. (x.0, x.1.now)) (Pieces left so_far) bytes.now result }
{
    if left == 0 {
        return Err(Pause::Ready);
    }
    match sum_of(so_far, bytes) {
        Ok((sum, rest)) => {
            let next = Stage::Pieces {
                left: left - 1,
                so_far: sum,
            };
            Ok((next, rest))
        }
        Err(error) => Err(pause_of(error)),
    }
}

fn count(left: u32, bytes: &[u8]) -> Result<(Stage, &[u8]), Pause>
    ensures { Steps (λ x. (x.0, x.1.now)) (Counts left) bytes.now result }
{
    if left == 0 {
        return Err(Pause::Ready);
    }
    match count_of(bytes) {
        Ok((_, rest)) => Ok((Stage::Counts { left: left - 1 }, rest)),
        Err(error) => Err(pause_of(error)),
    }
}

// The stage after the element that the bytes begin with, and the bytes after it.
fn step(stage: Stage, bytes: &[u8]) -> Result<(Stage, &[u8]), Pause>
    ensures { Steps (λ x. (x.0, x.1.now)) stage bytes.now result }
{
    match stage {
        Stage::Start => start(bytes),
        Stage::Entries {
            is_undo,
            left,
            least,
        } => entry(is_undo, left, least, bytes),
        Stage::Pieces { left, so_far } => piece(left, so_far, bytes),
        Stage::Counts { left } => count(left, bytes),
    }
}

/// Where the bytes end inside an element: its stage, and its bytes. `None` if the record may be whole, or an element may
/// be faulty. Linear in the elements that are passed; does not allocate.
pub(crate) fn scan(first: Stage, bytes: &[u8]) -> Option<(Stage, &[u8])>
    ensures { IfSome result (λ x. Leads first bytes.now x.0 x.1.now × IsShortAt x.0 x.1.now) }
{
    let mut stage = first;
    let mut rest = bytes;
    loop {
        match step(stage, rest) {
            Ok((next, after)) => {
                stage = next;
                rest = after;
            }
            Err(Pause::Waits) => return Some((stage, rest)),
            Err(Pause::Ready) => return None,
        }
    }
}
