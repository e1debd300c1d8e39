//! Classic netCDF files: what spells one, where bytes break the format, and the bytes that are written.
#![tactic(auto)]

mod file;
mod stop;

pub use file::{CdfDim, CdfFile, CdfVar, VarHead};
pub use stop::Stop;
