//! The commands.

/// What is made of an input that is read, a session or records.
#[derive(Clone, Copy, Debug, PartialEq, Eq)]
pub enum Task {
    /// `replay [--workers N]`: its report, with 0 to 16 threads that answer queries, 2 where their number is not named.
    Replay { workers: u32 },
    /// `check`: a line with what is counted of it.
    Check,
    /// `migrate`: it is written as a session of version 2.
    Migrate,
    /// `pack`: the records of the operations that its operation lines make.
    Pack,
    /// `unpack`: the operations of records, as lines of a session.
    Unpack,
}

/// What the words of a command line ask for.
#[derive(Clone, Copy, Debug, PartialEq, Eq)]
pub enum Command {
    /// Reads its input, and makes that of it.
    Read(Task),
    /// `make --seed N --replicas N --edits N`: makes a session of so many replicas, 1 to 16, and so many lines that edit or
    /// undo, 0 to 20,000, from a seed below 2^31, and sums it up.
    Make {
        seed: u32,
        replicas: u16,
        edits: u32,
    },
}
