//! What a report says of the calls of fold maps.
ghost use Rattle.std.specs.Prelude.{◌≡◌};
ghost use Rattle.std.specs.Result.{result_err, result_ok};
ghost use Rattle.session_folds.specs.Answers.{display_answer, fold_answer, refusal, unfold_answer};

use crate::OutOfMemory;
use fold_map::{Bias, FoldFault, FoldMap};
use session_more::{DisplayAnswer, FoldAnswer, FoldRefusal, UnfoldAnswer};

fn refusal(fault: FoldFault) -> Result<FoldRefusal, OutOfMemory>
    ensures { result_ok result ≡ refusal fault }
{
    match fault {
        FoldFault::Reversed(i) => Ok(FoldRefusal::Reversed(i)),
        FoldFault::PastEnd(i, len) => Ok(FoldRefusal::PastEnd(i, len)),
        FoldFault::InsideChar(i) => Ok(FoldRefusal::InsideChar(i)),
        FoldFault::EmptyRange => Ok(FoldRefusal::EmptyRange),
        FoldFault::OutOfMemory => Err(OutOfMemory),
    }
}

/// What became of a range that was to be folded.
pub fn fold_answer(folded: Result<(), FoldFault>) -> Result<FoldAnswer, OutOfMemory>
    ensures { result_ok result ≡ fold_answer (result_err folded) }
{
    match folded {
        Ok(()) => Ok(FoldAnswer::Set),
        Err(fault) => Ok(FoldAnswer::Refused(refusal(fault)?)),
    }
}

/// What became of a range that was to be unfolded.
pub fn unfold_answer(unfolded: Result<u64, FoldFault>) -> Result<UnfoldAnswer, OutOfMemory>
    ensures { result_ok result ≡ unfold_answer unfolded }
{
    match unfolded {
        Ok(count) => Ok(UnfoldAnswer::Count(count)),
        Err(fault) => Ok(UnfoldAnswer::Refused(refusal(fault)?)),
    }
}

/// The shown places of a place of the text. Two descents; does not allocate.
pub fn display_answer(map: &FoldMap, offset: u64) -> DisplayAnswer
    ensures { result ≡ display_answer map.now offset }
{
    match (
        map.to_shown(offset, Bias::Left),
        map.to_shown(offset, Bias::Right),
    ) {
        (Some(left), Some(right)) => DisplayAnswer::Places(left, right),
        _ => DisplayAnswer::Nothing,
    }
}
