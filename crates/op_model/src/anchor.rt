//! Anchors and the edits since a version, as values.

use lamport_clock::Lamport;

/// The side of its place that an anchor keeps to.
#[derive(Clone, Copy, Debug, PartialEq, Eq)]
pub enum Bias {
    /// It stays after the byte before it.
    Left,
    /// It stays before the byte after it.
    Right,
}

/// A place in a text that keeps to a byte while the text around it changes. The byte is named by its edit and its
/// number.
#[derive(Clone, Copy, Debug, PartialEq, Eq)]
pub enum Anchor {
    /// The start of the text, whatever is inserted there.
    Least,
    /// The end of the text, whatever is inserted there.
    Greatest,
    /// Left: after byte `offset - 1` of all new texts of the edit `stamp`. Right: before byte `offset` of them.
    At {
        stamp: Lamport,
        offset: u64,
        bias: Bias,
    },
}

/// A range of an old text, and the range of the new text that stands in its place, in bytes.
#[derive(Clone, Copy, Debug, PartialEq, Eq)]
pub struct TextEdit {
    /// The range of the old text, in bytes: its start and its end, which it does not include.
    pub old: (u64, u64),
    /// The range of the new text, in bytes: its start and its end, which it does not include.
    pub new: (u64, u64),
}
