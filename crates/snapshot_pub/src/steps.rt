//! The steps of a pair. The kit's ends take a step by value, so each step has a form for an end that is lent.
ghost use Rattle.std.specs.Prelude.{◌≡◌, ◌∷◌, [], length, MatchOption, MatchResult};
ghost use Rattle.left_right.specs.Sides.{view};
ghost use Rattle.text_buffer.specs.Document.{IsFront};
ghost use Rattle.snapshot_pub.specs.Rule.{AreOf, Follows, IsSeen, MaySee, kept_pair};

use crate::OutOfMemory;
use crate::kept::Kept;
use crate::rule::{Least, See, Show, Shown, View};
use core::mem::replace_with;
use left_right::reader::Reader;
use left_right::writer::Writer;
use std::sync::Wait;

/// The reader's end of a pair.
pub type ReadEnd = Reader<Kept, View, Shown>;

/// The writer's end of a pair.
pub type WriteEnd = Writer<Kept, (), View, Shown>;

// A share of what is shown; `None` where the reader is handed back unentered.
fn look<B: Least>(end: ReadEnd, longest: &Kept) -> (ReadEnd, Result<Option<Kept>, OutOfMemory>)
    requires least { B.least ≡ length longest.now.snapshot }
    requires own { AreOf (kept_pair longest.now) (view end.place) }
    ensures seen { MatchResult result.1 (λ o. MatchOption o (view result.0.place ≡ view end.place)
        (λ k. IsSeen (view end.place) k (view result.0.place)))
        (λ _. MaySee (view end.place) (view result.0.place)) }
    ensures begins { MatchResult result.1
        (λ o. MatchOption o (Unit {0}) (λ k. IsFront longest.now.snapshot k.snapshot))
        (λ _. Unit {0}) }
{
    match end.enter_as::<See<B>>() {
        Ok(reading) => {
            let shared = reading.get().share();
            let end = reading.leave();
            match shared {
                Ok(kept) => {
                    // It always begins with the longest: whatever the reader has learned was shown before. The rule of
                    // the pair knows no tokens, so it cannot say this, and what does not begin with the longest does not
                    // count as seen.
                    if kept.begins_with(longest) {
                        (end, Ok(Some(kept)))
                    } else {
                        (end, Ok(None))
                    }
                }
                Err(refused) => (end, Err(refused)),
            }
        }
        Err(end) => (end, Ok(None)),
    }
}

/// A share of what is shown, by the step enter, which begins with the longest; `None` where the reader is handed back
/// unentered.
pub(crate) fn look_in<B: Least>(
    end: &mut ReadEnd,
    longest: &Kept,
) -> Result<Option<Kept>, OutOfMemory>
    requires least { B.least ≡ length longest.now.snapshot }
    requires own { AreOf (kept_pair longest.now) (view end.old.place) }
    ensures seen { MatchResult result (λ o. MatchOption o (view end.new.place ≡ view end.old.place)
        (λ k. IsSeen (view end.old.place) k (view end.new.place)))
        (λ _. MaySee (view end.old.place) (view end.new.place)) }
    ensures begins { MatchResult result
        (λ o. MatchOption o (Unit {0}) (λ k. IsFront longest.now.snapshot k.snapshot))
        (λ _. Unit {0}) }
{
    replace_with(end, longest, |end, longest| look::<B>(end, longest))
}

// Shows a snapshot that follows what is shown, in the copy that readers have left, by one exchange. Does not allocate and
// cannot fail.
fn show<R: Wait>(end: WriteEnd, rt: &R, kept: Kept) -> WriteEnd
    requires { Follows kept end.desk.shown.value }
    ensures shown { result.desk.shown.value ≡ kept }
    ensures seen { view result.desk.place ≡ kept ∷ [] }
{
    let mut end = end;
    let (open, mut spare) = end.desk.open(rt);
    *spare = kept;
    end.desk = open.show_as::<Show>(spare);
    end
}

/// The same, for a writer's end that is lent.
pub(crate) fn show_in<R: Wait>(end: &mut WriteEnd, rt: &R, kept: Kept)
    requires { Follows kept end.old.desk.shown.value }
    ensures shown { end.new.desk.shown.value ≡ kept }
    ensures seen { view end.new.desk.place ≡ kept ∷ [] }
{
    replace_with(end, (rt, kept), |end, (rt, kept)| (show(end, rt, kept), ()))
}
