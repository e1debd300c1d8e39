//! Parts of arrays and datasets over a plan: names, attributes, single variables, dimensions in another order, and what is
//! dropped.
#![tactic(auto)]

mod attributes;
mod dataset_of;
mod drops;
mod names;
mod orders;
mod picks;
mod texts;

pub use attributes::{array_with_attrs, set_with_attrs};
pub use dataset_of::{as_set, has_axis, to_dataset};
pub use drops::{axes_kept, dropped_of_array, dropped_of_set};
pub use names::{new_name, own_name, renamed};
pub use orders::transposed;
pub use picks::{pick_of_array, pick_of_set};
pub use texts::is_among;
