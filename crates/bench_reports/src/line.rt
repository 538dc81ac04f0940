//! The words of a command line, which name works, and numbers after each.
use std::{env, io};

/// The words after the name of the program.
///
/// # Errors
///
/// Fails if an allocation fails.
pub fn words(rt: &HostRuntime) -> io::Result<Vec<String>> {
    Ok(env::args(rt)?.skip(1).collect(rt.alloc())?)
}

/// The number that is the word at a place, or 0 if no number is there. Does not allocate.
pub fn number(words: &[String], at: usize) -> u32 {
    words.get(at).map_or(0, |word| word.parse().unwrap_or(0))
}
