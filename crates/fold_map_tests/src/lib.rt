//! The tests of fold maps, by what their crate shows to all.
#![tactic(auto)]

#[cfg(test)]
mod drawn;
#[cfg(test)]
mod editor;
#[cfg(test)]
mod faults;
#[cfg(test)]
mod older;
#[cfg(test)]
mod refused;
#[cfg(test)]
mod rows;
