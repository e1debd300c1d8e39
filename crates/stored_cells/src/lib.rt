//! Cells as a classic file stores them: decoded, and hidden where they hold a fill number.
#![tactic(auto)]

mod block;
mod decode;
mod fills;
mod kept;
mod masks;
mod number;
mod sums;
mod typed;

pub use block::shared_block;
pub use decode::decoded_cells;
pub use fills::{Fills, NoFill, OneFill, SomeFills};
pub use masks::mask_for;
pub use number::Number;
pub use sums::sum;
pub use typed::{Typed, as_typed, decoded};
