//! Seeking, slicing and filtering a `SumTree` by any dimension.
#![tactic(auto)]

mod cursor;
mod filter;
mod path;
mod ready;
mod seek;
mod tally;
mod traits;
mod walk;

pub use cursor::Cursor;
pub use filter::FilterCursor;
pub use ready::{Greatest, KeySummary};
pub use seek::{locate, look_up};
pub use sum_tree::OutOfMemory;
pub use traits::{Bias, Dimension, Keep, Moves, Plain, Target};
