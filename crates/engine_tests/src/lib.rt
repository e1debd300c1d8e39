//! Tests of the engine's crates, a module for each file of tests. They stand above those crates, since a crate that has tests is proved twice.
#![tactic(auto)]

#[cfg(test)]
mod blocks;
#[cfg(test)]
mod calendars;
#[cfg(test)]
mod folds;
#[cfg(test)]
mod halves;
#[cfg(test)]
mod indexes;
#[cfg(test)]
mod operations;
#[cfg(test)]
mod running_lines;
#[cfg(test)]
mod steps;
#[cfg(test)]
mod times;
#[cfg(test)]
mod views;
