//! The tests of clocks, locators, operations, fragments and buffers: tables of cases, by what these crates show to all.
#![tactic(auto)]

#[cfg(test)]
mod alike;
#[cfg(test)]
mod anchored;
#[cfg(test)]
mod answers;
#[cfg(test)]
mod calls;
#[cfg(test)]
mod cases;
#[cfg(test)]
mod cells;
#[cfg(test)]
mod clocks;
#[cfg(test)]
mod counted;
#[cfg(test)]
mod edits;
#[cfg(test)]
mod entering;
#[cfg(test)]
mod fault_rows;
#[cfg(test)]
mod faults;
#[cfg(test)]
mod forgotten;
#[cfg(test)]
mod groups;
#[cfg(test)]
mod late_rows;
#[cfg(test)]
mod limits;
#[cfg(test)]
mod names;
#[cfg(test)]
mod open_rows;
#[cfg(test)]
mod openings;
#[cfg(test)]
mod operations;
#[cfg(test)]
mod pasts;
#[cfg(test)]
mod places;
#[cfg(test)]
mod replica;
#[cfg(test)]
mod ropes;
#[cfg(test)]
mod rows;
#[cfg(test)]
mod runs;
#[cfg(test)]
mod seen_texts;
#[cfg(test)]
mod shapes;
#[cfg(test)]
mod steps;
#[cfg(test)]
mod stops;
#[cfg(test)]
mod trees;
#[cfg(test)]
mod turned;
#[cfg(test)]
mod undo_counts;
#[cfg(test)]
mod undos;
#[cfg(test)]
mod waiting;
