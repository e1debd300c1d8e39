//! The public definitions of values, calls and runs: in `specs/` what each call has to give.
#![tactic(auto)]

mod carrying;
mod grouping;
mod slice;
mod value;
mod write_options;

pub use carrying::{Carry, Parts};
pub use grouping::{BlockSize, Grouping};
pub use slice::Part;
pub use value::{Content, Coord};
pub use write_options::WriteOptions;
