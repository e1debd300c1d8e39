//! Selection by label: `sel` over arrays and datasets.
#![tactic(auto)]

mod finding;
mod kinds;
mod labels;
mod located;
mod options;
mod positions;
mod sel;

pub use finding::{are_kin, check_search, found};
pub use kinds::are_all_labels;
pub use labels::as_labels;
pub use options::{Search, is_option, option, search_given};
pub use sel::{sel_array, sel_set};
