//! Parts of the calendar.

/// A field of a date and time. Monday is day 0 of a week.
#[derive(Clone, Copy, PartialEq, Eq)]
pub enum Field {
    Year,
    Month,
    Day,
    Hour,
    Minute,
    Second,
    DayOfYear,
    DayOfWeek,
}

/// The width of the bins of a resampling: whole seconds from 1 up, calendar months or calendar years.
#[derive(Clone, Copy, PartialEq, Eq)]
pub enum Freq {
    Seconds(u64),
    Months,
    Years,
}

/// A period from its first to its last second, counted from 1970-01-01T00:00:00.
#[derive(Clone, Copy, PartialEq, Eq)]
pub struct Period {
    pub first: i64,
    pub last: i64,
}
