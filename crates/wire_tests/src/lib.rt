//! The tests of records of operations, and of their lines in sessions, by what their crates show to all.
#![tactic(auto)]

#[cfg(test)]
mod cases;
#[cfg(test)]
mod faults;
#[cfg(test)]
mod limits;
#[cfg(test)]
mod lines;
#[cfg(test)]
mod long;
#[cfg(test)]
mod refused;
#[cfg(test)]
mod rows;
