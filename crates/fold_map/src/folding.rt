//! Folding and unfolding ranges.
ghost use Rattle.std.specs.Prelude.{◌≡◌, ◌⊎◌, ◌++◌, ◌∷◌, [], length, None, Some, IfErr, IfOk, OnErr, OnOk};
ghost use Rattle.std.specs.List.{filter};
ghost use Rattle.op_model.specs.Edits.{is_boundary};
ghost use Rattle.fold_map.specs.Calls.{fold_fault, shares, unfolded, IsFolded, IsFoldOf};
ghost use Rattle.fold_map.specs.Numbered.{without_shared};
ghost use Rattle.fold_map.specs.Windows.{without_each};

use crate::fold::Fold;
use crate::folds::Folds;
use crate::map::FoldMap;
use crate::windows::{made_again, ranges_in, retain_apart, shares};
use crate::{FoldFault, OutOfMemory, Snapshot};
use fold_spans::FoldRange;
use rope_chunks::Rope;
use std::alloc::Global;
use text_buffer::Bias;

/// Whether a character begins at a place of a text, or the text ends there. One descent; does not allocate.
pub(crate) fn is_boundary(text: &Rope, offset: u64) -> bool
    ensures { result ≡ is_boundary text.now offset }
{
    text.is_char_boundary(offset)
}

// The fault of a range that is to be folded or unfolded.
fn fold_fault(snapshot: &Snapshot, s: u64, e: u64) -> Option<FoldFault>
    ensures { result ≡ fold_fault snapshot.now s e }
{
    let text = snapshot.text();
    if e < s {
        return Some(FoldFault::Reversed(0));
    }
    if text.len() < e {
        return Some(FoldFault::PastEnd(0, text.len()));
    }
    if !(is_boundary(text, s) && is_boundary(text, e)) {
        return Some(FoldFault::InsideChar(0));
    }
    if s == e {
        return Some(FoldFault::EmptyRange);
    }
    None
}

// The fold of a range without fault.
fn fold_of(snapshot: &Snapshot, s: u64, e: u64) -> Fold
    requires { fold_fault snapshot.now s e ≡ None }
    ensures { IsFoldOf snapshot.now s e result }
{
    let Ok(start) = snapshot.anchor(s, Bias::Right) else {
        unreachable!()
    };
    let Ok(end) = snapshot.anchor(e, Bias::Left) else {
        unreachable!()
    };
    Fold { start, end }
}

// Puts a range after others.
fn add(ranges: &mut Vec<FoldRange>, range: FoldRange) -> Result<(), OutOfMemory>
    ensures { OnOk result (ranges.new.items ≡ ranges.old.items ++ range ∷ []) }
{
    ranges.push(range)?;
    Ok(())
}

// Takes out the fold of a range if the range shares a byte with `s..e`. If an allocation fails, the folds are as before.
fn remove_if_shared(
    folds: &mut Folds,
    alloc: Global,
    range: &FoldRange,
    s: u64,
    e: u64,
) -> Result<(), OutOfMemory>
    ensures { OnOk result (folds.new ≡ without_shared s e range.now folds.old) }
{
    if shares(range, s, e) {
        folds.remove(alloc, range.number)?;
    }
    Ok(())
}

// The folds without those of the ranges that share a byte with `s..e`.
fn kept_folds(
    alloc: Global,
    folds: &Folds,
    ranges: &[FoldRange],
    s: u64,
    e: u64,
) -> Result<Folds, OutOfMemory>
    ensures { IfOk result (λ kept. kept ≡ without_each s e ranges.now folds.now) }
{
    let mut kept = folds.share()?;
    for range in ranges {
        remove_if_shared(&mut kept, alloc, range, s, e)?;
    }
    Ok(kept)
}

impl FoldMap {
    /// Hides the bytes `s..e` of the text as one ⋯, from now on and through later edits.
    ///
    /// # Errors
    ///
    /// `Reversed(0)` exactly if `e` is less than `s`, else `PastEnd(0, len)` if `e` passes the length of the text, else
    /// `InsideChar(0)` if one of the two is inside a character, else `EmptyRange` if they are equal. Else `OutOfMemory` if an
    /// allocation fails. The map is then as before.
    pub fn fold(&mut self, s: u64, e: u64) -> Result<(), FoldFault>
        ensures ok { OnOk result (IsFolded self.old self.new s e) }
        ensures faultless { OnOk result (fold_fault self.old.history s e ≡ None) }
        ensures fault { IfErr result (λ f. (fold_fault self.old.history s e ≡ Some f)
            ⊎ ((fold_fault self.old.history s e ≡ None) × (f ≡ FoldFault.OutOfMemory))) }
        ensures err { OnErr result (self.new ≡ self.old) }
    {
        if let Some(fault) = fold_fault(&self.snapshot, s, e) {
            return Err(fault);
        }
        self.snapshot.known();
        self.folds.known();
        let fold = fold_of(&self.snapshot, s, e);
        let window = self.spans.touching(s, e);
        let mut ranges = ranges_in(
            self.alloc,
            &self.snapshot,
            &self.folds,
            &self.spans,
            &window,
        )?;
        let mut folds = self.folds.share()?;
        let number = folds.push(self.alloc, fold)?;
        let range = FoldRange {
            start: s,
            end: e,
            number,
        };
        add(&mut ranges, range)?;
        let spans = made_again(self.alloc, &self.spans, &window, ranges)?;
        self.folds = folds;
        self.spans = spans;
        Ok(())
    }

    /// Takes away each fold whose range shares a byte with `s..e`, and returns how many. Folds that only touch the range stay, and
    /// so do those that hold nothing now.
    ///
    /// # Errors
    ///
    /// Those of [`FoldMap::fold`].
    pub fn unfold(&mut self, s: u64, e: u64) -> Result<u64, FoldFault>
        ensures ok { OnOk result (self.new ≡ unfolded s e self.old) }
        ensures count { IfOk result (λ n. n
            ≡ length (filter (shares self.old.history s e) self.old.folds)) }
        ensures faultless { OnOk result (fold_fault self.old.history s e ≡ None) }
        ensures fault { IfErr result (λ f. (fold_fault self.old.history s e ≡ Some f)
            ⊎ ((fold_fault self.old.history s e ≡ None) × (f ≡ FoldFault.OutOfMemory))) }
        ensures err { OnErr result (self.new ≡ self.old) }
    {
        if let Some(fault) = fold_fault(&self.snapshot, s, e) {
            return Err(fault);
        }
        self.snapshot.known();
        self.folds.known();
        // With the neighbours of the spans that the range touches, so that open bytes are joined.
        let near = self.spans.touching(s, e);
        let window = self.spans.touching(near.start, near.end);
        let mut ranges = ranges_in(
            self.alloc,
            &self.snapshot,
            &self.folds,
            &self.spans,
            &window,
        )?;
        let folds = kept_folds(self.alloc, &self.folds, &ranges, s, e)?;
        retain_apart(&mut ranges, s, e);
        let spans = made_again(self.alloc, &self.spans, &window, ranges)?;
        let count = self.folds.len() - folds.len();
        self.folds = folds;
        self.spans = spans;
        Ok(count)
    }
}
