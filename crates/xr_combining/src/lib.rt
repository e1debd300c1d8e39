//! Values put together: the arguments, kinds and nodes of `concat`, `merge` and `combine_by_coords`.
#![tactic(auto)]

mod asked;
mod kinds;
mod lists;
mod placing;

pub use asked::{compat_given, fill_given, how_given};
pub use kinds::{common_kind, promoted_all};
pub use lists::sets_given;
pub use placing::{Part, end_to_end};
