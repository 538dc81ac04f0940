//! Buffers, each as it was when it was synced last.
ghost use Rattle.std.specs.Prelude.{◌≡◌, IfErr, IfOk, OnErr, OnOk};
ghost use Rattle.std.specs.Option.{option_copied};
ghost use Rattle.multi_buffer.specs.Found.{IsGap, IsPlace};
ghost use Rattle.multi_buffer.specs.State.{AscendFrom, put, source_of};

use crate::{OutOfMemory, Snapshot};

/// A buffer as it was when it was synced last.
#[derive(Drop)]
pub struct Source {
    /// The number by which the caller knows it.
    pub buffer: u32,
    pub snapshot: Snapshot,
}

// The place of a buffer, or where it would go.
fn search(sources: &[Source], buffer: u32) -> Result<usize, usize>
    requires { AscendFrom 0 sources.now }
    ensures place { IfOk result (IsPlace buffer sources.now) }
    ensures gap { IfErr result (IsGap buffer sources.now) }
{
    sources.binary_search_by_key(&buffer, |source| source.buffer)
}

/// A buffer, if it was synced. Logarithmic in the number of buffers; does not allocate.
pub(crate) fn source_of(sources: &[Source], buffer: u32) -> Option<&Source>
    requires { AscendFrom 0 sources.now }
    ensures { option_copied result ≡ source_of buffer sources.now }
{
    match search(sources, buffer) {
        Ok(at) => Some(&sources[at]),
        Err(_) => None,
    }
}

/// Puts a source in place of its buffer's, or before those of greater buffers. Only a further buffer's allocates.
///
/// # Errors
///
/// Fails only if an allocation fails. The sources are then as before, and the new one is dropped.
pub(crate) fn put(sources: &mut Vec<Source>, source: Source) -> Result<(), OutOfMemory>
    requires { AscendFrom 0 sources.old.items }
    ensures ok { OnOk result (sources.new.items ≡ put source sources.old.items) }
    ensures err { OnErr result (sources.new.items ≡ sources.old.items) }
{
    match search(sources.as_slice(), source.buffer) {
        Ok(at) => {
            sources[at] = source;
            Ok(())
        }
        Err(at) => Ok(sources.insert(at, source)?),
    }
}
