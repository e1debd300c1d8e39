//! From datasets to classic netCDF files (CF Conventions; xarray, `Dataset.to_netcdf`).
#![tactic(auto)]

mod array;
mod attrs;
mod check;
mod coding;
mod computed;
mod coords;
mod counts;
mod dims;
mod encode;
mod fill;
mod filled;
mod frame;
mod held;
mod name;
mod number;
mod outline;
mod parts;
mod plain;
mod run;
mod set;
mod size;
mod stored;
mod text;
mod widths;

pub use encode::encode_set;
