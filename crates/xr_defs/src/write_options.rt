//! How a dataset is written.
use xr_types::Name;

/// The version of the format, the number that stands for a missing cell where a variable names none, and the
/// dimension that becomes the record dimension.
#[derive(Drop)]
pub struct WriteOptions {
    pub version: u8,
    pub fill: Option<i128>,
    pub unlimited: Option<Name>,
}
