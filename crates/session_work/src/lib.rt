//! What the lines of a session do to its replicas, and what they report.
//!
//! [`MoreProgress`] is a session as far as it was worked, line by line. [`report`] works a whole session and answers each query on the
//! spot, and [`make`] works a session as it makes it. Where queries are answered beside that, [`more_question_of`] says what a line
//! asks.
#![tactic(auto)]

mod exchange;
mod making;
mod more;
mod names;
mod packing;
mod queries;
mod replay;
mod replica;
mod replicas;

pub use making::make;
pub use more::MoreProgress;
pub use op_model::OutOfMemory;
pub use packing::pack;
pub use queries::{
    Question, answer_of, find_answer, more_question_of, offset_answer, point_answer, query_line,
};
pub use replay::{Progress, report};
pub use replica::Replica;
