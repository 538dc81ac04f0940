//! What programs of times share: the words of their command lines, the lines that they write, and texts to work on.
#![tactic(auto)]

mod line;
mod report;
mod texts;

pub use line::{number, words};
pub use report::{Answer, Done, Report, step, sum_of};
pub use texts::{long_text, short_text};
