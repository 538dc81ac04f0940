//! Queries that workers answer on live snapshots, beside the editor that makes them: they go to the workers in turn, and
//! their answers are in the order of the queries.
//!
//! Each worker has one queue and, for each replica, one reader. The editor has the publishers of all replicas and one
//! dispatcher: it publishes and pushes, and never waits for an answer.
#![tactic(auto)]

mod asking;
mod beside;
mod collecting;
mod desk;
mod dispatcher;
mod gate;
mod gathering;
mod job;
mod open;
mod opening;
mod publishers;
mod publishing;
mod query;
mod queue;
mod renewing;
mod steps;
mod worker;

pub use beside::work_beside;
pub use desk::{Desk, Done, Inbox};
pub use dispatcher::Dispatcher;
pub use gate::Gate;
pub use gathering::Gathering;
pub use op_model::OutOfMemory;
pub use opening::open_desks;
pub use publishers::Publishers;
pub use query::{Answer, Query};
