//! The limits of a buffer.

/// The most that a buffer holds: at most 2^40 bytes of new texts, and at most 2^40 - 1 entries.
#[derive(Clone, Copy, Debug, PartialEq, Eq)]
pub struct Limits {
    /// The bytes of all new texts, including the base's.
    pub bytes: u64,
    /// One for each operation but the base, and one for each of its pieces or counts.
    pub entries: u64,
}

impl Limits {
    /// The greatest limits that a buffer can have.
    pub const MOST: Limits = Limits {
        bytes: 1 << 40,
        entries: (1 << 40) - 1,
    };
}
