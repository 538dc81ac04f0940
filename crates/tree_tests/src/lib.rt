//! The tests of trees and their cursors, of texts, ropes and searches, by what these crates show to all.
#![tactic(auto)]

#[cfg(test)]
mod accounts;
#[cfg(test)]
mod bead;
#[cfg(test)]
mod chance;
#[cfg(test)]
mod changes;
#[cfg(test)]
mod counted;
#[cfg(test)]
mod cursors;
#[cfg(test)]
mod keys;
#[cfg(test)]
mod lent;
#[cfg(test)]
mod masks;
#[cfg(test)]
mod mirror;
#[cfg(test)]
mod numbered;
#[cfg(test)]
mod parts;
#[cfg(test)]
mod positions;
#[cfg(test)]
mod ranked;
#[cfg(test)]
mod ropes;
#[cfg(test)]
mod search;
#[cfg(test)]
mod texts;
#[cfg(test)]
mod trees;
#[cfg(test)]
mod wide;
#[cfg(test)]
mod word;
