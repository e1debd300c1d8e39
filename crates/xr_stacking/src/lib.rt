//! What is put one after the other along a dimension: axes, kinds, cells at nodes of a plan and at hand, coordinates.
#![tactic(auto)]

mod axes;
mod coords;
mod held;
mod kinds;
mod members;
mod names;
mod parts;
mod shapes;
mod stack;

pub use axes::axes_of;
pub use coords::coords_concatenated;
pub use kinds::{check_all_kinds, kind_of_all};
pub use members::{parts_called, sizes_called};
pub use names::{axes_called, has_name, result_axes, with_first};
pub use parts::{Part, place_in};
pub use stack::{end_to_end, in_kind};
