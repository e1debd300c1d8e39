//! Times: their calendars, dates, units and bins, and in `specs/` what each stands for.
#![tactic(auto)]

mod bin_list;
mod time;

pub use bin_list::BinList;
pub use time::{Field, Freq, Period};
