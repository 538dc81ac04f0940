//! What a report says of the calls of sets.
ghost use Rattle.std.specs.Prelude.{◌≡◌, IfOk};
ghost use Rattle.std.specs.Result.{result_ok};
ghost use Rattle.session_selections.specs.Answers.{selected_answer, set_refusal, take_answer};

use crate::OutOfMemory;
use selections::{Places, PlacesFault, SelFault, SelTook, SetFault};
use session_more::{SelectAnswer, SelectedAnswer, ShareAnswer, TextRanges};
use std::alloc::Global;

/// Why ranges were not selected.
pub fn set_refusal(fault: SetFault) -> Result<SelectAnswer, OutOfMemory>
    ensures { result_ok result ≡ set_refusal fault }
{
    match fault {
        SetFault::Reversed(i) => Ok(SelectAnswer::Reversed(i)),
        SetFault::PastEnd(i, len) => Ok(SelectAnswer::PastEnd(i, len)),
        SetFault::InsideChar(i) => Ok(SelectAnswer::InsideChar(i)),
        SetFault::TooMany(count) => Ok(SelectAnswer::TooMany(count)),
        SetFault::ClockEnd => Ok(SelectAnswer::ClockEnd),
        SetFault::OutOfMemory => Err(OutOfMemory),
    }
}

/// What became of an operation that was taken.
pub fn take_answer(taken: Result<SelTook, SelFault>) -> Result<ShareAnswer, OutOfMemory>
    ensures { result_ok result ≡ take_answer taken }
{
    match taken {
        Ok(SelTook::Repeat) => Ok(ShareAnswer::Repeat),
        Ok(SelTook::Old(kept)) => Ok(ShareAnswer::Old(kept)),
        Ok(SelTook::Set) => Ok(ShareAnswer::Set),
        Err(SelFault::BadStamp) => Ok(ShareAnswer::BadStamp),
        Err(SelFault::TooMany(count)) => Ok(ShareAnswer::TooMany(count)),
        Err(SelFault::Conflict(stamp)) => Ok(ShareAnswer::Conflict(stamp)),
        Err(SelFault::OutOfMemory) => Err(OutOfMemory),
    }
}

/// Where selections are, if there are any.
pub fn selected_answer(
    alloc: Global,
    places: Result<Option<Places>, PlacesFault>,
) -> Result<SelectedAnswer, OutOfMemory>
    ensures { IfOk result (λ a. selected_answer places ≡ Some a) }
{
    match places {
        Ok(Some(places)) => {
            let ranges = Vec::from_slice(alloc, places.as_slice())?;
            Ok(SelectedAnswer::Ranges(TextRanges::new(ranges)))
        }
        Ok(None) => Ok(SelectedAnswer::Nothing),
        Err(PlacesFault::Unknown(i)) => Ok(SelectedAnswer::Unknown(i)),
        Err(PlacesFault::OutOfMemory) => Err(OutOfMemory),
    }
}
