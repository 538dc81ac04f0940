//! Lines over the multibuffer of their name.
ghost use Rattle.std.specs.Prelude.{◌≡◌, ◌<◌, ◌^◌, ℕ, length, take, Some, IfOk, OnErr, OnOk};
ghost use Rattle.multi_buffer.specs.State.{multi_text};
ghost use Rattle.session_excerpts.specs.Answers.{after_put, excerpt_answer, push_outcome, split_answer, split_outcome};
ghost use Rattle.session_excerpts.specs.Lines.{history_at};
ghost use Rattle.session_excerpts.specs.State.{sync_all, GoOn};

use crate::OutOfMemory;
use crate::answers::{SplitAnswer, SplitParts, excerpt_answer, refusal};
use multi_buffer::MultiBuffer;
use op_model::{Piece, Text};
use session_more::ExcerptAnswer;
use text_buffer::Snapshot;

// Takes in what the replicas are now. If an allocation fails, the first of them have been taken in.
fn sync_all(multi: &mut MultiBuffer, snapshots: Vec<Snapshot>) -> Result<(), OutOfMemory>
    requires count { length snapshots.items < 2 ^ 32 }
    requires within { GoOn snapshots.items multi.old }
    ensures ok { OnOk result (multi.new ≡ sync_all snapshots.items multi.old) }
    ensures err { OnErr result
        ((k : ℕ) × (multi.new ≡ sync_all (take k snapshots.items) multi.old)) }
{
    let mut snapshots = snapshots.into_iter();
    let mut replica = 0;
    while let Some(snapshot) = snapshots.next() {
        multi.sync(replica, snapshot)?;
        replica += 1;
    }
    Ok(())
}

/// Puts a range of a replica's text as an excerpt.
pub fn put_excerpt(
    multi: &mut MultiBuffer,
    replica: usize,
    snapshots: Vec<Snapshot>,
    start: u64,
    end: u64,
) -> Result<ExcerptAnswer, OutOfMemory>
    requires count { length snapshots.items < 2 ^ 32 }
    requires replica { replica < length snapshots.items }
    requires within { GoOn snapshots.items multi.old }
    requires few { length multi.old.excerpts < 2 ^ 20 }
    ensures answer { IfOk result (λ a. excerpt_answer
        (push_outcome (history_at replica snapshots.items) start end
        (sync_all snapshots.items multi.old)) ≡ Some a) }
    ensures after { OnOk result (multi.new
        ≡ after_put replica (history_at replica snapshots.items) start end
        (sync_all snapshots.items multi.old)) }
    ensures err { OnErr result
        ((k : ℕ) × (multi.new ≡ sync_all (take k snapshots.items) multi.old)) }
{
    let snapshot = snapshots[replica].share()?;
    sync_all(multi, snapshots)?;
    excerpt_answer(multi.push(replica as u32, snapshot, start, end))
}

/// The text of the excerpts.
pub fn text(multi: &mut MultiBuffer, snapshots: Vec<Snapshot>) -> Result<Text, OutOfMemory>
    requires count { length snapshots.items < 2 ^ 32 }
    requires within { GoOn snapshots.items multi.old }
    ensures text { IfOk result (λ t. t ≡ multi_text (sync_all snapshots.items multi.old)) }
    ensures after { OnOk result (multi.new ≡ sync_all snapshots.items multi.old) }
    ensures err { OnErr result
        ((k : ℕ) × (multi.new ≡ sync_all (take k snapshots.items) multi.old)) }
{
    sync_all(multi, snapshots)?;
    Ok(Text::new(multi.text()?))
}

/// What changes of the text of the excerpts are for the replicas.
pub fn split(
    multi: &mut MultiBuffer,
    snapshots: Vec<Snapshot>,
    changes: &[Piece],
) -> Result<SplitAnswer, OutOfMemory>
    requires count { length snapshots.items < 2 ^ 32 }
    requires within { GoOn snapshots.items multi.old }
    ensures answer { IfOk result (λ a. split_answer
        (split_outcome changes.now (sync_all snapshots.items multi.old)) ≡ Some a) }
    ensures after { OnOk result (multi.new ≡ sync_all snapshots.items multi.old) }
    ensures err { OnErr result
        ((k : ℕ) × (multi.new ≡ sync_all (take k snapshots.items) multi.old)) }
{
    sync_all(multi, snapshots)?;
    match multi.split(changes) {
        Ok(parts) => Ok(SplitAnswer::Parts(SplitParts::new(parts))),
        Err(fault) => Ok(SplitAnswer::Refused(refusal(fault)?)),
    }
}
