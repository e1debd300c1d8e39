//! Arrays put one after the other. Those of files keep their bytes: whole blocks of them are put together, and no cell is
//! decoded.
#![tactic(auto)]

mod blocks;
mod concatenate;
mod join;
mod spelt;

pub use concatenate::concat;
