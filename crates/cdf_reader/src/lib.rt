//! Reads classic netCDF files, versions 1, 2 and 5, whole: the file that bytes spell, or the first fault and its place.
#![tactic(auto)]

mod cells;
mod data;
mod decode;
mod fault;
mod fields;
mod gather;
mod heads;
mod laws;
mod lists;
mod names;
mod reading;
mod records;
mod sizes;
mod strips;
mod values;
mod variables;

pub use cells::Numbers;
pub use decode::numbers;
pub use fault::CdfFault;
pub use heads::{
    FileHead, copied_values, gathered_values, shared_values, values_at, values_in_pieces,
};
pub use laws::{most_records, one_answer};
pub use reading::{read, read_head};
pub use sizes::is_record;
