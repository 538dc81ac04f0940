//! Excerpts that are put.
ghost use Rattle.std.specs.Prelude.{◌≡◌, ◌⊎◌, ◌<◌, ◌^◌, length, None, Some, IfErr, IfOk, OnErr, OnOk};
ghost use Rattle.op_model.specs.Anchors.{place_fault};
ghost use Rattle.op_model.specs.Shown.{text};
ghost use Rattle.multi_buffer.specs.Calls.{after_push, push_fault, IsWithin};
ghost use Rattle.multi_buffer.specs.State.{history_of};

use crate::making::{excerpt_of, is_boundary};
use crate::source::put;
use crate::{MultiBuffer, OutOfMemory, PushFault, Snapshot, Source};
use rope_chunks::Rope;

// The fault of a range of a text that is to be an excerpt.
fn push_fault(text: &Rope, start: u64, end: u64) -> Option<PushFault>
    ensures { result ≡ push_fault text.now start end }
{
    if end < start {
        return Some(PushFault::Reversed(0));
    }
    if text.len() < end {
        return Some(PushFault::PastEnd(0, text.len()));
    }
    if !(is_boundary(text, start) && is_boundary(text, end)) {
        return Some(PushFault::InsideChar(0));
    }
    None
}

impl MultiBuffer {
    /// Takes in what a buffer has become, as `sync` does, and puts `s..e` of its text after the other excerpts. Returns
    /// the index of the new excerpt. There may be at most 2^20 excerpts.
    ///
    /// # Errors
    ///
    /// Exactly the first of these that applies; the multibuffer is then as before, and the snapshot is dropped.
    ///
    /// - `Reversed`: the range starts past its end.
    /// - `PastEnd`: it ends past the text; with the text's length.
    /// - `InsideChar`: it starts or ends inside a character.
    /// - `OutOfMemory` if an allocation fails.
    pub fn push(&mut self, buffer: u32, snap: Snapshot, s: u64, e: u64) -> Result<u32, PushFault>
        requires within { IsWithin (history_of buffer self.old.synced) snap }
        requires few { length self.old.excerpts < 2 ^ 20 }
        ensures ok { OnOk result (push_fault (text snap) s e ≡ None) }
        ensures index { IfOk result (λ i. i ≡ length self.old.excerpts) }
        ensures new { OnOk result (self.new ≡ after_push buffer snap s e self.old) }
        ensures fault { IfErr result (λ f. (push_fault (text snap) s e ≡ Some f)
            ⊎ ((push_fault (text snap) s e ≡ None) × (f ≡ PushFault.OutOfMemory))) }
        ensures err { OnErr result (self.new ≡ self.old) }
    {
        match push_fault(snap.text(), s, e) {
            Some(fault) => Err(fault),
            None => Ok(self.add(buffer, snap, s, e)?),
        }
    }

    // Puts an excerpt of a range without a fault.
    fn add(&mut self, buffer: u32, snap: Snapshot, s: u64, e: u64) -> Result<u32, OutOfMemory>
        requires within { IsWithin (history_of buffer self.old.synced) snap }
        requires few { length self.old.excerpts < 2 ^ 20 }
        requires faultless { push_fault (text snap) s e ≡ None }
        ensures index { IfOk result (λ i. i ≡ length self.old.excerpts) }
        ensures new { OnOk result (self.new ≡ after_push buffer snap s e self.old) }
        ensures err { OnErr result (self.new ≡ self.old) }
    {
        snap.known();
        let mut excerpts = self.follow(buffer, &snap)?;
        let index = excerpts.len();
        excerpts.push(self.alloc, excerpt_of(buffer, &snap, s, e))?;
        put(
            &mut self.sources,
            Source {
                buffer,
                snapshot: snap,
            },
        )?;
        self.excerpts = excerpts;
        Ok(index as u32)
    }
}
