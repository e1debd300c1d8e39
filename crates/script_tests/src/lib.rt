//! Tests of the crates of the script language, a module for each crate. They stand above those crates, since a crate that has tests is proved twice.
#![tactic(auto)]

#[cfg(test)]
mod scripts;
#[cfg(test)]
mod tokens;
