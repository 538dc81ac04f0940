//! The tests of spans of folds, by what their crate shows to all.
#![tactic(auto)]

#[cfg(test)]
mod life;
#[cfg(test)]
mod made;
#[cfg(test)]
mod rows;
