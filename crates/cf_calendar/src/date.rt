//! Dates.

/// A date by its numbers, in the years 1 to 9999.
#[derive(Clone, Copy, PartialEq, Eq)]
pub struct CalDate {
    pub year: u16,
    pub month: u8,
    pub day: u8,
}
