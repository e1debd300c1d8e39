//! Writes classic netCDF files, versions 1, 2 and 5, in their one canonical spelling (Unidata, "The NetCDF Classic
//! Format Specification").
#![tactic(auto)]

mod answer;
mod hold;
mod laws;
mod measure;
mod pieces;
mod room;
mod size;
mod spell;
mod text;
mod values;

pub use answer::{Layout, WriteFault};
pub use laws::reads_again;
pub use measure::layout;
pub use room::width;
pub use size::{header_size, padded_size};
pub use spell::{write, write_pieces};
