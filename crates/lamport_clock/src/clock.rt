//! A replica's clock.
ghost use Rattle.std.specs.Prelude.{◌≡◌, ◌+◌, ◌<◌, ◌≤◌, ◌↔◌, IfOk, IsErr, OnErr, OnOk};
ghost use Rattle.lamport_clock.specs.Clocks.{clock_after, last_value};

use crate::Lamport;
use std::marker::Model;
use thiserror::Error;

/// The clock is at its last value, 4,294,967,295, and gives no further stamp.
#[derive(Clone, Copy, Debug, PartialEq, Eq, Error)]
#[error("the clock stands at its end")]
pub struct ClockEnd;

/// A replica's clock. Contracts see it as the stamp that it gives next.
#[derive(Drop)]
pub struct Clock {
    next: Lamport,
}

impl Model for Clock {
    ghost use Rattle.lamport_clock.specs.declared.stamp.Lamport.{Lamport};

    ghost Value = { Lamport };

    ghost view = { λ c. c.next };
}

impl Clock {
    /// The clock of a replica that has seen nothing: its value is 1.
    pub fn new(replica: u16) -> Clock
        ensures { result ≡ record { value = 1; replica = replica } }
    {
        Clock {
            next: Lamport { value: 1, replica },
        }
    }

    /// The value of the next stamp.
    pub fn value(&self) -> u32
        ensures { result ≡ self.now.value }
    {
        self.next.value
    }

    /// Moves the clock past a stamp: to one more than the greater of the two values, but never past the last value.
    pub fn observe(&mut self, t: Lamport)
        ensures { self.new ≡ record self.old { value = clock_after self.old.value t.value } }
    {
        self.next.value = self.next.value.max(t.value).saturating_add(1);
    }

    /// Returns the stamp at the clock's value, and moves the clock on by one.
    ///
    /// # Errors
    ///
    /// `ClockEnd` exactly if the clock is at 4,294,967,295; it stays there.
    pub fn tick(&mut self) -> Result<Lamport, ClockEnd>
        ensures end { IsErr result ↔ (self.old.value ≡ last_value) }
        ensures stamp { IfOk result (λ t. t ≡ self.old) }
        ensures ok { OnOk result (self.new ≡ record self.old { value = self.old.value + 1 }) }
        ensures err { OnErr result (self.new ≡ self.old) }
    {
        if self.next.value == u32::MAX {
            return Err(ClockEnd);
        }
        let stamp = self.next;
        self.next.value += 1;
        Ok(stamp)
    }
}
