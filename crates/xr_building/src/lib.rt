//! Arrays that a script writes out, and coordinates that it assigns.
#![tactic(auto)]

mod aligned;
mod assigned;
mod assigned_sets;
mod axes;
mod bare;
mod cells;
mod check;
mod computed;
mod draft;
mod elements;
mod entries;
mod given;
mod header;
mod labels;
mod limits;
mod nesting;
mod placed;
mod placing;
mod plain;
mod put;
mod puts;
mod written;

pub use assigned::assign_to_array;
pub use assigned_sets::assign_to_set;
pub use written::array_written_out;
