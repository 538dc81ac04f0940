//! What is counted of a text, and the kinds of positions in it.
//!
//! A text is UTF-8. A position in it is a byte offset (`u64`), an [`OffsetUtf16`], a [`Point`] (row, and column in bytes) or
//! a [`PointUtf16`] (row, and column in UTF-16 units). Rows are ended by LF alone, and a text has one row more than LFs. A
//! character past U+FFFF has two UTF-16 units, every other one.
//!
//! [`TextSummary`] has the counts of a whole text. The summary of two texts, one after the other, is the sum of their
//! summaries, so summaries are what a tree of pieces of text keeps.
#![tactic(auto)]

mod bytes;
mod lanes;
mod places;
mod points;
mod summary;
mod threads;

pub use bytes::{is_char_start, units_at};
pub use lanes::{LANES, LaneMasks, Run, run_at};
pub use places::Place;
pub use points::{OffsetUtf16, Point, PointUtf16};
pub use sum_tree::OutOfMemory;
pub use summary::TextSummary;
pub use threads::crosses_threads;
