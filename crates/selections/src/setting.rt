//! Ranges of a text, selected by the replica itself.
ghost use Rattle.std.specs.Prelude.{◌≡◌, ◌⊎◌, ◌+◌, None, Some, true, IfOk, IfErr, IfSome, OnErr, OnOk, map};
ghost use Rattle.lamport_clock.specs.Stamps.{later};
ghost use Rattle.op_model.specs.Anchors.{place_fault};
ghost use Rattle.op_model.specs.Edits.{is_boundary};
ghost use Rattle.op_model.specs.Shown.{text};
ghost use Rattle.anchors.specs.Making.{made_anchor};
ghost use Rattle.std.specs.List.{position};
ghost use Rattle.selections.specs.Laws.Call.{Made};
ghost use Rattle.selections.specs.Laws.{IsCall};
ghost use Rattle.selections.specs.Sets.{keep, kept_for};
ghost use Rattle.selections.specs.Setting.{is_inside, is_past, is_reversed, own_stamp, range_fault, selection_of, set_fault};

use crate::{OutOfMemory, Ranges, Selection, SelectionOp, SelectionSets, SetFault};
use lamport_clock::Lamport;
use op_model::{Anchor, Bias};
use rope_chunks::Rope;
use std::alloc::Global;
use text_buffer::Snapshot;

/// The most ranges that one operation has.
pub const MOST_RANGES: usize = 1024;

impl SelectionSets {
    /// Selects ranges of a snapshot's text, given in bytes, in place of those that the replica had selected before.
    /// Returns the operation, for the other replicas, and keeps an equal one, which shares its ranges. The ranges may
    /// be in any order and overlap, and stay as they are given. Which end of a range a user drags is not kept. No
    /// ranges at all say that there is no caret.
    ///
    /// An empty range keeps to the byte after it, so it moves with text that is inserted there. The start of any
    /// other range keeps to the byte after it and its end to the byte before it, so text inserted at either is
    /// outside.
    ///
    /// Each range is a few descents in the text and in the fragments.
    ///
    /// # Errors
    ///
    /// Exactly the first of these that applies, each for the first range that meets it; the sets are then as before.
    ///
    /// - `Reversed`: a range starts past its end.
    /// - `PastEnd`: a range ends past the text; with the text's length.
    /// - `InsideChar`: a range starts or ends inside a character.
    /// - `TooMany`: there are more than 1,024 ranges.
    /// - `ClockEnd`: the clock is at 4,294,967,295. It may come there by a taken operation of another author, too.
    /// - `OutOfMemory` if an allocation fails.
    pub fn set(
        &mut self,
        snapshot: &Snapshot,
        ranges: &[(u64, u64)],
    ) -> Result<SelectionOp, SetFault>
        ensures ok { OnOk result (set_fault self.old snapshot.now ranges.now ≡ None) }
        ensures stamp { IfOk result (λ op. op.stamp ≡ own_stamp self.old) }
        ensures ranges { IfOk result (λ op. map Some op.ranges
            ≡ map (selection_of snapshot.now) ranges.now) }
        ensures new { IfOk result (λ op. self.new ≡ keep op self.old) }
        ensures ticks { OnOk result (self.new.clock ≡ self.old.clock + 1) }
        ensures later { IfOk result (λ op. IfSome (kept_for self.old.replica self.old)
            (λ k. later op.stamp k.stamp ≡ true)) }
        ensures fault { IfErr result (λ e. (set_fault self.old snapshot.now ranges.now ≡ Some e)
            ⊎ ((e ≡ SetFault.OutOfMemory)
            × (set_fault self.old snapshot.now ranges.now ≡ None))) }
        ensures err { OnErr result (self.new ≡ self.old) }
        ensures call { IfOk result (λ op. IsCall (Made op) self.old self.new) }
    {
        self.known();
        match self.set_fault(snapshot, ranges) {
            Some(fault) => Err(fault),
            None => Ok(self.make(snapshot, ranges)?),
        }
    }

    // The fault that ranges meet.
    fn set_fault(&self, snapshot: &Snapshot, ranges: &[(u64, u64)]) -> Option<SetFault>
        ensures { result ≡ set_fault self.now snapshot.now ranges.now }
    {
        if let Some(fault) = range_fault(snapshot.text(), ranges) {
            return Some(fault);
        }
        if MOST_RANGES < ranges.len() {
            return Some(SetFault::TooMany(ranges.len() as u64));
        }
        if self.clock.value() == u32::MAX {
            return Some(SetFault::ClockEnd);
        }
        None
    }

    // Makes an operation of ranges without a fault, and keeps an equal one.
    fn make(
        &mut self,
        snapshot: &Snapshot,
        ranges: &[(u64, u64)],
    ) -> Result<SelectionOp, OutOfMemory>
        requires { set_fault self.old snapshot.now ranges.now ≡ None }
        ensures stamp { IfOk result (λ op. op.stamp ≡ own_stamp self.old) }
        ensures ranges { IfOk result (λ op. map Some op.ranges
            ≡ map (selection_of snapshot.now) ranges.now) }
        ensures new { IfOk result (λ op. self.new ≡ keep op self.old) }
        ensures err { OnErr result (self.new ≡ self.old) }
    {
        let alloc = *self.kept.allocator();
        let op = SelectionOp {
            stamp: Lamport {
                value: self.clock.value(),
                replica: self.replica,
            },
            ranges: ranges_of(alloc, snapshot, ranges)?,
        };
        self.keep(op.copy(alloc)?)?;
        Ok(op)
    }
}

fn is_boundary(rope: &Rope, i: u64) -> bool
    ensures { result ≡ is_boundary rope.now i }
{
    rope.is_char_boundary(i)
}

// The first range that starts past its end.
fn first_reversed(ranges: &[(u64, u64)]) -> Option<usize>
    ensures { result ≡ position is_reversed ranges.now }
{
    ranges.iter().position(|range| range.1 < range.0)
}

// The first range that ends past a text of `len` bytes.
fn first_past(len: u64, ranges: &[(u64, u64)]) -> Option<usize>
    ensures { result ≡ position (is_past len) ranges.now }
{
    ranges.iter().position(|range| len < range.1)
}

// The first range that starts or ends inside a character.
fn inside_char(text: &Rope, ranges: &[(u64, u64)]) -> Option<usize>
    ensures { result ≡ position (is_inside text.now) ranges.now }
{
    ranges.iter().position(|range| !(is_boundary(text, range.0) && is_boundary(text, range.1)))
}

// The first fault of ranges against a text. Each end is one descent.
fn range_fault(text: &Rope, ranges: &[(u64, u64)]) -> Option<SetFault>
    ensures { result ≡ range_fault text.now ranges.now }
{
    if let Some(i) = first_reversed(ranges) {
        return Some(SetFault::Reversed(i as u64));
    }
    if let Some(i) = first_past(text.len(), ranges) {
        return Some(SetFault::PastEnd(i as u64, text.len()));
    }
    if let Some(i) = inside_char(text, ranges) {
        return Some(SetFault::InsideChar(i as u64));
    }
    None
}

// The selections of ranges without a fault. Copies share them.
fn ranges_of(
    alloc: Global,
    snapshot: &Snapshot,
    ranges: &[(u64, u64)],
) -> Result<Ranges, OutOfMemory>
    requires { range_fault (text snapshot.now) ranges.now ≡ None }
    ensures { IfOk result (λ rs. map Some rs ≡ map (selection_of snapshot.now) ranges.now) }
{
    let mut made = Vec::with_capacity(alloc, ranges.len())?;
    for &(start, end) in ranges {
        made.push(selection_of(snapshot, start, end))?;
    }
    Ranges::new(made).into_shared(alloc)
}

// The selection of a range.
fn selection_of(snapshot: &Snapshot, start: u64, end: u64) -> Selection
    requires start { place_fault snapshot.now start ≡ None }
    requires end { place_fault snapshot.now end ≡ None }
    ensures { selection_of snapshot.now (start, end) ≡ Some result }
{
    let first = anchor_at(snapshot, start, Bias::Right);
    if start == end {
        return Selection {
            start: first,
            end: first,
        };
    }
    Selection {
        start: first,
        end: anchor_at(snapshot, end, Bias::Left),
    }
}

// The anchor at an offset where one can be made.
fn anchor_at(snapshot: &Snapshot, o: u64, b: Bias) -> Anchor
    requires { place_fault snapshot.now o ≡ None }
    ensures { made_anchor snapshot.now o b ≡ Some result }
{
    match snapshot.anchor(o, b) {
        Ok(anchor) => anchor,
        Err(_) => unreachable!(),
    }
}
