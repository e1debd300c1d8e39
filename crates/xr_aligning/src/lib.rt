//! Arrays and datasets brought over joined axes: `align`, and a variable that is put into a dataset.
#![tactic(auto)]

mod arrays;
mod assigned;
mod call;
mod cells;
mod coming;
mod coords;
mod filling;
mod fits;
mod labelled;
mod limits;
mod options;
mod sets;
mod sizes;

pub use assigned::{are_apart, is_held, variable_assigned};
pub use call::align;
pub use coords::{axes_after, coords_after};
pub use filling::check_set;
pub use fits::{Change, Fit, fits_of};
pub use limits::{is_set_within, is_variable_within};
pub use options::{check_given, fill_cell};
pub use sets::put_vars;
pub use sizes::check_fitted_sizes;
