//! The calendars `noleap` and `360_day`: the numbers of their dates.
#![tactic(auto)]

mod date;
mod laws;
mod month;
mod number;

pub use date::CalDate;
pub use laws::{date_again, number_again};
pub use month::{month_days, year_days};
pub use number::{date_at, date_of, day_of, place};
