//! Sessions made by a seed: what is drawn, and the line of each turn.
//!
//! A line goes by the length of its replica's text, so whoever makes a session works it line by line.
#![tactic(auto)]

mod draws;
mod laws;
mod turns;

pub use draws::Draws;
pub use laws::made_sessions_decode;
pub use op_model::OutOfMemory;
pub use turns::{author, turn};
