//! The tests of selections, by what their crate shows to all.
#![tactic(auto)]

#[cfg(test)]
mod faults;
#[cfg(test)]
mod limits;
#[cfg(test)]
mod made;
#[cfg(test)]
mod refused;
#[cfg(test)]
mod taken;
#[cfg(test)]
mod texts;
#[cfg(test)]
mod unknown;
