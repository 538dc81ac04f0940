//! Buffers that change.
ghost use Rattle.std.specs.Prelude.{◌≡◌, true, false, map, IfOk, OnErr, OnOk};
ghost use Rattle.multi_buffer.specs.Calls.{after_sync, followed_in, IsWithin};
ghost use Rattle.multi_buffer.specs.State.{history_of};

use crate::excerpts::Excerpts;
use crate::source::{put, source_of};
use crate::{MultiBuffer, OutOfMemory, Snapshot, Source};
use lamport_clock::Version;

impl MultiBuffer {
    /// Takes in what a buffer has become: a snapshot that has all operations of the one that was synced before, if
    /// there was one. The buffer's excerpts are then what lies between their anchors, which are made again there; those
    /// of other buffers stay.
    ///
    /// # Errors
    ///
    /// `OutOfMemory` if an allocation fails. The multibuffer is then as before, and the snapshot is dropped.
    pub fn sync(&mut self, buffer: u32, snap: Snapshot) -> Result<(), OutOfMemory>
        requires { IsWithin (history_of buffer self.old.synced) snap }
        ensures ok { OnOk result (self.new ≡ after_sync buffer snap self.old) }
        ensures err { OnErr result (self.new ≡ self.old) }
    {
        snap.known();
        let excerpts = self.follow(buffer, &snap)?;
        put(
            &mut self.sources,
            Source {
                buffer,
                snapshot: snap,
            },
        )?;
        self.excerpts = excerpts;
        Ok(())
    }

    // Whether the excerpts of a buffer may be others once it has become a snapshot. They are the same if the buffer was
    // not synced before, or has no further operation. One walk over both versions.
    fn may_change(&self, buffer: u32, snap: &Snapshot) -> bool
        requires { IsWithin (history_of buffer self.now.synced) snap.now }
        ensures { result ≡ false → self.now.excerpts
            ≡ map (followed_in buffer snap.now) self.now.excerpts }
    {
        snap.known();
        match source_of(&self.sources, buffer) {
            Some(source) => !is_same(source.snapshot.version(), snap.version()),
            None => false,
        }
    }

    // The excerpts once a buffer has become a snapshot.
    pub(crate) fn follow(&self, buffer: u32, snap: &Snapshot) -> Result<Excerpts, OutOfMemory>
        requires { IsWithin (history_of buffer self.now.synced) snap.now }
        ensures { IfOk result (λ xs. xs ≡ map (followed_in buffer snap.now) self.now.excerpts) }
    {
        snap.known();
        if self.may_change(buffer, snap) {
            self.excerpts.follow(self.alloc, buffer, snap)
        } else {
            self.excerpts.share()
        }
    }
}

// Whether two versions have the same entries.
fn is_same(a: &Version, b: &Version) -> bool
    ensures { result ≡ true → a.now ≡ b.now }
{
    a.known();
    b.known();
    a.sees_all(b) && b.sees_all(a)
}
