//! What `run` is handed in place of the real input and output.
ghost use Rattle.std.specs.Prelude.{◌≡◌, ◌<◌, ℕ, List, Option, IfOk, length};
ghost use Rattle.std.specs.Io.{ReadsAtMost, WritesAtMost};
ghost use Rattle.std.specs.Io.KnownBytes.{ReadConsumes, WriteAppends};
ghost use Rattle.session_io.specs.Causes.{HasCause, saturating_sum, byte_count, ends_met};

use thiserror::Error;

/// A call of a source or a sink failed.
#[derive(Clone, Copy, Debug, PartialEq, Eq, Error)]
#[error("a read or a write failed")]
pub struct Failed;

/// Where bytes are read from. Its three counts never fall, and none passes 2^64 - 1.
pub trait Source {
    /// The bytes that are left, if the source says.
    ghost left: { Self → Option (List ℕ) };

    /// How many bytes it has given.
    ghost given: { Self → ℕ };

    /// How many reads met its end: they had room, and gave nothing.
    ghost ends: { Self → ℕ };

    /// How many reads failed.
    ghost faults: { Self → ℕ };

    /// Reads the first of the bytes that are left into `into`, and returns how many; 0 for a nonempty slice is the end.
    fn read(&mut self, into: &mut [u8]) -> Result<usize, Failed>
        ensures bound { ReadsAtMost result into.new }
        ensures bytes { ReadConsumes (left self.old) (left self.new) result into.new }
        ensures gave { given self.new ≡ saturating_sum (given self.old) (byte_count result) }
        ensures ended { ends self.new ≡ saturating_sum (ends self.old) (ends_met result into.new) }
        ensures cause { HasCause (faults self.old) (faults self.new) result };
}

/// Where bytes are written to.
pub trait Sink {
    /// The bytes written, if the sink says.
    ghost written: { Self → Option (List ℕ) };

    /// How many writes failed. It never falls, and never passes 2^64 - 1.
    ghost faults: { Self → ℕ };

    /// Writes the first bytes of `piece`, at least one unless it is empty, and returns how many.
    fn write(&mut self, piece: &[u8]) -> Result<usize, Failed>
        ensures bound { WritesAtMost result piece.now }
        ensures takes { IfOk result (λ n. 0 < length piece.now → 0 < n) }
        ensures bytes { WriteAppends (written self.old) (written self.new) result piece.now }
        ensures cause { HasCause (faults self.old) (faults self.new) result };
}
