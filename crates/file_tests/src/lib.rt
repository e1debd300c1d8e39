//! Tests of the types, of the definitions' data, of the crates of files and of the store in memory, a module for each crate. They stand
//! above those crates, since a crate that has tests is proved twice.
#![tactic(auto)]

#[cfg(test)]
mod definitions;
#[cfg(test)]
mod gathering;
#[cfg(test)]
mod outside;
#[cfg(test)]
mod reading;
#[cfg(test)]
mod types;
#[cfg(test)]
mod writing;
