//! Times of the CF conventions: the fields and the text of a time, dates of a script, units of a file, and bins.
#![tactic(auto)]

mod binning;
mod calendar;
mod counts;
mod date;
mod each_field;
mod read;
mod run;
mod units;
mod units_text;

pub use binning::bins;
pub use counts::{count, written_unit};
pub use date::{field, text};
pub use each_field::fields;
pub use read::read_date;
pub use units::decode;
pub use units_text::{calendar_named, read_units};
pub use xr_times::BinList;
