//! The tests of excerpts of several buffers, by what their crate shows to all.
#![tactic(auto)]

#[cfg(test)]
mod limits;
#[cfg(test)]
mod other;
#[cfg(test)]
mod random;
#[cfg(test)]
mod refused;
#[cfg(test)]
mod rows;
#[cfg(test)]
mod steps;
