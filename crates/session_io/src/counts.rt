//! What a source counts.
ghost use Rattle.std.specs.Prelude.{◌≡◌};
ghost use Rattle.session_io.specs.Causes.{saturating_sum, end_met};

/// The counts of a source: bytes given, reads that met the end, and reads that failed. None of them passes 2^64 - 1.
#[derive(Clone, Copy, Debug, PartialEq, Eq)]
pub struct ReadCounts {
    pub given: u64,
    pub ends: u64,
    pub faults: u64,
}

impl ReadCounts {
    /// Counts that stand at 0.
    pub fn new() -> ReadCounts
        ensures { result ≡ record { given = 0; ends = 0; faults = 0 } }
    {
        ReadCounts {
            given: 0,
            ends: 0,
            faults: 0,
        }
    }

    /// Counts a read that gave this many bytes into a slice of this length.
    pub fn count_read(&mut self, room: usize, count: usize)
        ensures given { self.new.given ≡ saturating_sum self.old.given count }
        ensures ends { self.new.ends ≡ saturating_sum self.old.ends (end_met room count) }
        ensures faults { self.new.faults ≡ self.old.faults }
    {
        self.given = self.given.saturating_add(count as u64);
        if count == 0 && room > 0 {
            self.ends = self.ends.saturating_add(1);
        }
    }

    /// Counts a read that failed.
    pub fn count_failure(&mut self)
        ensures { self.new ≡ record self.old { faults = saturating_sum self.old.faults 1 } }
    {
        self.faults = self.faults.saturating_add(1);
    }
}
