//! Tests of what no script can reach of the crates between files and datasets, and of printing, a module for each crate; the scripts of `run_rows` test the rest. They stand above those crates, since a crate that has tests is proved twice.
#![tactic(auto)]

#[cfg(test)]
mod decoding;
#[cfg(test)]
mod encoding;
#[cfg(test)]
mod printing;
