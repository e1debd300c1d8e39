//! Where values lie.
use bytes::Bytes;
use cdf_reader::FileHead;
use xr_files::VarHead;
/// Where the values of a variable lie.
#[derive(Drop)]
pub enum Place<'a> {
    /// One behind the other.
    Together(Bytes),
    /// In the records of the file whose bytes and head these are.
    InRecords(&'a Bytes, &'a FileHead, &'a VarHead),
}
