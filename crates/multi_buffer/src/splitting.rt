//! Changes of the text of all excerpts, as pieces of their buffers.
ghost use Rattle.std.specs.Prelude.{◌≡◌, ◌⊎◌, None, Some, IfErr, IfOk, OnOk};
ghost use Rattle.std.specs.List.{position, AllByRecursion};
ghost use Rattle.op_model.specs.Edits.{is_inside, piece_fault};
ghost use Rattle.multi_buffer.specs.Splits.{crosses, first_sharing, split_fault, split_of, IsFaultless};
ghost use Rattle.multi_buffer.specs.State.{multi_text};

use crate::grouping::{finish, put_in};
use crate::parts::BufferPieces;
use crate::{MultiBuffer, OutOfMemory, SplitFault};
use op_model::{Piece, TEXT_LIMIT, first_overlap, first_past, first_reversed, text_total};

impl MultiBuffer {
    /// The pieces by which the buffers change where the text of all excerpts is changed: of each buffer that changes,
    /// buffers ascending, those to hand to its `edit`, in the order of their starts, and in the order of the changes
    /// where these are equal. The changes are given in bytes and in order, as to `edit`.
    ///
    /// # Errors
    ///
    /// Exactly the first of these that applies, each for the first change that meets it.
    ///
    /// - `Reversed`: a change starts past its end.
    /// - `Overlap`: it starts before the end of the one before it.
    /// - `PastEnd`: it ends past the text; with the text's length.
    /// - `InsideChar`: it starts or ends inside a character.
    /// - `TextLimit`: the new texts have more than 65,536 bytes together, as they are given.
    /// - `Crosses`: no excerpt holds both of its ends. So it is if it takes away an LF between two excerpts.
    /// - `Shared`: another excerpt of its buffer has a place in common with it; with the least such excerpt.
    /// - `OutOfMemory` if an allocation fails.
    pub fn split(&self, changes: &[Piece]) -> Result<Vec<BufferPieces>, SplitFault>
        ensures ok { OnOk result (split_fault self.now changes.now ≡ None) }
        ensures pieces { IfOk result (λ gs. gs.items ≡ split_of self.now changes.now) }
        ensures faultless { IfOk result (λ gs. AllByRecursion (IsFaultless self.now) gs.items) }
        ensures fault { IfErr result (λ f. (split_fault self.now changes.now ≡ Some f)
            ⊎ ((split_fault self.now changes.now ≡ None) × (f ≡ SplitFault.OutOfMemory))) }
    {
        self.known();
        match self.split_fault(changes) {
            Some(fault) => Err(fault),
            None => Ok(self.split_pieces(changes)?),
        }
    }

    // The first fault of changes.
    fn split_fault(&self, changes: &[Piece]) -> Option<SplitFault>
        ensures { result ≡ split_fault self.now changes.now }
    {
        if let Some(i) = first_reversed(changes) {
            return Some(SplitFault::Reversed(i as u64));
        }
        if let Some(i) = first_overlap(changes) {
            return Some(SplitFault::Overlap(i as u64));
        }
        if let Some(i) = first_past(self.len(), changes) {
            return Some(SplitFault::PastEnd(i as u64, self.len()));
        }
        if let Some(i) = self.first_inside(changes) {
            return Some(SplitFault::InsideChar(i as u64));
        }
        let total = text_total(changes);
        if TEXT_LIMIT < total {
            return Some(SplitFault::TextLimit(total));
        }
        if let Some(i) = self.first_crossing(changes) {
            return Some(SplitFault::Crosses(i as u64));
        }
        let (i, excerpt) = self.first_sharing(changes)?;
        Some(SplitFault::Shared(i, excerpt))
    }

    // The first change that starts or ends inside a character.
    fn first_inside(&self, changes: &[Piece]) -> Option<usize>
        ensures { result ≡ position (is_inside (multi_text self.now)) changes.now }
    {
        changes.iter().position(|p| !(self.is_position(p.start) && self.is_position(p.end)))
    }

    // The first change of which no excerpt holds both ends.
    fn first_crossing(&self, changes: &[Piece]) -> Option<usize>
        ensures { result ≡ position (crosses self.now.excerpts) changes.now }
    {
        changes
            .iter()
            .position(|p| self.part_in(p.start, p.end).is_none())
    }

    // The first change that has a place in common with an excerpt that does not hold it, and the least such excerpt.
    fn first_sharing(&self, changes: &[Piece]) -> Option<(u64, u32)>
        ensures { result ≡ first_sharing self.now.excerpts 0 changes.now }
    {
        for (i, change) in changes.iter().enumerate() {
            if let Some(part) = self.part_in(change.start, change.end) {
                if let Some(excerpt) = self.sharing(part) {
                    return Some((i as u64, excerpt));
                }
            }
        }
        None
    }

    // The pieces of changes without a fault.
    fn split_pieces(&self, changes: &[Piece]) -> Result<Vec<BufferPieces>, OutOfMemory>
        ensures { IfOk result (λ gs. gs.items ≡ split_of self.now changes.now) }
    {
        let mut groups = Vec::new(self.alloc);
        for change in changes {
            if let Some(part) = self.part_in(change.start, change.end) {
                let text = change.text.copy(self.alloc)?;
                let piece = Piece::new(part.start, part.end, text);
                put_in(self.alloc, &mut groups, part.buffer, piece)?;
            }
        }
        finish(self.alloc, groups)
    }
}
