//! Arrays and datasets over a plan's nodes, and the values of the script language: what programs keep, and what it stands for.
#![tactic(auto)]

mod args;
mod carrying;
mod coords;
mod data_array;
mod dataset;
mod integers;
mod value;
mod variable;
mod variables;

pub use args::{Args, Cx};
pub use carrying::{carry, without_fills};
pub use coords::{copy_content, copy_coord, copy_coords, same_calendar, same_content, same_coord};
pub use data_array::DataArray;
pub use dataset::Dataset;
pub use integers::integers_of;
pub use value::Value;
pub use variable::Variable;
pub use variables::Variables;
pub use xr_defs::{Carry, Parts};
