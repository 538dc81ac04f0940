//! One walk along the bytes of a text and of an older one.
ghost use Rattle.std.specs.Prelude.{◌≡◌, ◌+◌, ◌<◌, ◌^◌, IfOk, OnOk};
ghost use Rattle.edits_since.specs.Opened.{at_start, old_end, new_end, all_edits, with_kept, with_bytes};

use crate::{Edits, OutOfMemory};
use op_model::TextEdit;
use std::alloc::Global;

// The run that a walk is in, which has had no kept byte yet: the edits of the runs before it, where it begins in the old
// and in the new text, and how many gone and new bytes it has so far.
#[derive(Drop)]
pub(crate) struct OpenRun {
    edits: Edits,
    old_start: u64,
    new_start: u64,
    gone: u64,
    fresh: u64,
}

impl OpenRun {
    pub(crate) fn new(alloc: Global) -> OpenRun
        ensures { result ≡ at_start }
    {
        OpenRun {
            edits: Edits::new(alloc),
            old_start: 0,
            new_start: 0,
            gone: 0,
            fresh: 0,
        }
    }

    // Ends the run, and the next one begins after it. It has an edit where it has a gone or a new byte.
    fn close(&mut self) -> Result<(), OutOfMemory>
        requires old { old_end self.old < 2 ^ 64 }
        requires new { new_end self.old < 2 ^ 64 }
        ensures { OnOk result (self.new
            ≡ record {
              edits = all_edits self.old;
              old_start = old_end self.old;
              new_start = new_end self.old;
              gone = 0;
              fresh = 0;
            }) }
    {
        let old = (self.old_start, self.old_start + self.gone);
        let new = (self.new_start, self.new_start + self.fresh);
        if self.gone > 0 || self.fresh > 0 {
            self.edits.push(TextEdit { old, new })?;
        }
        self.old_start = old.1;
        self.new_start = new.1;
        self.gone = 0;
        self.fresh = 0;
        Ok(())
    }

    // Goes over kept bytes: where there are some, the run ends before them.
    pub(crate) fn keep(&mut self, n: u64) -> Result<(), OutOfMemory>
        requires old { old_end self.old + n < 2 ^ 64 }
        requires new { new_end self.old + n < 2 ^ 64 }
        ensures kept { OnOk result (self.new ≡ with_kept n self.old) }
        ensures old { OnOk result (old_end self.new ≡ old_end self.old + n) }
        ensures new { OnOk result (new_end self.new ≡ new_end self.old + n) }
    {
        if n == 0 {
            return Ok(());
        }
        self.close()?;
        self.old_start += n;
        self.new_start += n;
        Ok(())
    }

    // Goes over bytes that were in the text then or not, and are in it now or not.
    pub(crate) fn pass(&mut self, n: u64, was: bool, is: bool) -> Result<(), OutOfMemory>
        requires old { old_end self.old + n < 2 ^ 64 }
        requires new { new_end self.old + n < 2 ^ 64 }
        ensures { OnOk result (self.new ≡ with_bytes n was is self.old) }
    {
        match (was, is) {
            (true, true) => self.keep(n)?,
            (true, false) => self.gone += n,
            (false, true) => self.fresh += n,
            (false, false) => {}
        }
        Ok(())
    }

    // All edits, where the text ends here.
    pub(crate) fn finish(mut self) -> Result<Edits, OutOfMemory>
        requires old { old_end self < 2 ^ 64 }
        requires new { new_end self < 2 ^ 64 }
        ensures { IfOk result (λ es. es ≡ all_edits self) }
    {
        self.close()?;
        Ok(self.edits)
    }
}
