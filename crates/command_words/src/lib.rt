//! The words of the program's command line, read by `clap`: which command they are, with its numbers.
#![tactic(auto)]

mod command;
mod line;
mod reading;

pub use command::{Command, Task};
pub use reading::command_of;
pub use std::alloc::AllocError as OutOfMemory;
