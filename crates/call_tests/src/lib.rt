//! Tests of what no script can reach of the crates of calls; the scripts of `run_rows` test the rest. They stand above those crates, since a crate that has tests is proved twice.
#![tactic(auto)]

#[cfg(test)]
mod building;
