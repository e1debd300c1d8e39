//! Tests of plans. They stand above those crates, since a crate that has tests is proved twice.
#![tactic(auto)]

#[cfg(test)]
mod plans;
