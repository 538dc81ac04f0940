//! The tests of the lines that `session_more` adds to sessions and to reports, by what the crate shows to all.
#![tactic(auto)]

#[cfg(test)]
mod reading;
#[cfg(test)]
mod writing;
