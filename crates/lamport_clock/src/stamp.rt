//! Stamps.
ghost use Rattle.std.specs.Prelude.{◌≡◌, Some};
ghost use Rattle.lamport_clock.specs.Stamps.{later, same_stamp, stamp_text};

use std::fmt;

/// A stamp: ordered by value, then by replica. It is written `value.replica`. No operation has the default one, 0.0.
#[derive(Clone, Copy, Debug, Default, PartialEq, Eq, PartialOrd, Ord, Hash)]
pub struct Lamport {
    pub value: u32,
    pub replica: u16,
}

impl fmt::Display for Lamport {
    ghost output = { λ t. Some (stamp_text t) };

    fn fmt<W: fmt::Write>(&self, f: &mut fmt::Formatter<W>) -> fmt::Result {
        write!(f, "{}.{}", self.value, self.replica)
    }
}

/// Whether `s` is the later of two stamps, as `>` says: it has the greater value, or the same value and the
/// greater replica id.
pub fn is_later(s: Lamport, t: Lamport) -> bool
    ensures { result ≡ later s t }
{
    s > t
}

/// Whether two stamps are the same, as `==` says.
pub fn is_same(s: Lamport, t: Lamport) -> bool
    ensures { result ≡ same_stamp s t }
{
    s == t
}
