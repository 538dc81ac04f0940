//! The multibuffer.
ghost use Rattle.std.specs.Prelude.{◌≡◌, ◌-◌, length, IfOk};
ghost use Rattle.multi_buffer.specs.State.{new_state, multi_text, IsMultiState};

use crate::excerpts::Excerpts;
use crate::{OutOfMemory, Source};
use std::alloc::Global;
use std::marker::Model;

/// Excerpts of several buffers, shown as one text with one LF between two. Contracts see the excerpts, in the order of
/// `push`, and what each buffer was when it was synced last.
///
/// The caller numbers the buffers. An excerpt is a part of the text that its buffer had then; text that is inserted at
/// one of its ends is in it. There are at most 2^20 excerpts.
#[derive(Drop)]
pub struct MultiBuffer {
    pub(crate) alloc: Global,
    pub(crate) excerpts: Excerpts,
    pub(crate) sources: Vec<Source>,
}

impl Model for MultiBuffer {
    ghost use Rattle.multi_buffer.specs.State.{MultiState};
    ghost use Rattle.multi_buffer.specs.Following.{IsMulti, state_of};

    ghost Value = { MultiState };

    ghost view = { λ m. state_of m.excerpts m.sources.items };

    ghost invariant = { λ m. IsMulti m.excerpts m.sources.items };
}

// The number of LFs between excerpts.
fn breaks(excerpts: u64) -> u64
    ensures { result ≡ excerpts - 1 }
{
    excerpts.saturating_sub(1)
}

impl MultiBuffer {
    /// A multibuffer without excerpts. Makes two nodes.
    ///
    /// # Errors
    ///
    /// `OutOfMemory` if an allocation fails.
    pub fn new(alloc: Global) -> Result<MultiBuffer, OutOfMemory>
        ensures { IfOk result (λ m. m ≡ new_state) }
    {
        let excerpts = Excerpts::new(alloc)?;
        Ok(MultiBuffer {
            alloc,
            excerpts,
            sources: Vec::new(alloc),
        })
    }

    /// The length of the text of all excerpts, in bytes. O(1); does not allocate.
    pub fn len(&self) -> u64
        ensures { result ≡ length (multi_text self.now) }
    {
        self.excerpts.known();
        self.excerpts.bytes() + breaks(self.excerpts.len())
    }

    /// What is true of every multibuffer, for callers' proofs. Does nothing when it runs.
    pub fn known(&self)
        ensures { IsMultiState self.now }
    {
        self.excerpts.known();
    }
}
