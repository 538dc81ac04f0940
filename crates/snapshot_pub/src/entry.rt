//! An entry of a log. It is there for proofs: no value of it is made.
use op_model::Operation;

/// What one publish adds to a log. Clauses read an array as a list, of any length.
pub struct Entry {
    /// The word by which the pair is known.
    pub root: u64,
    /// The operations that the snapshot has beyond those of the one before.
    pub added: [Operation; 0],
    /// The word that comes home when the next entry of the pair is added.
    pub next: u64,
}
