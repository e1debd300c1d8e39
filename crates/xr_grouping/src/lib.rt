//! Arrays in groups by a field of dates or by a coordinate (`groupby`), in bins of times (`resample`), in windows (`rolling`) and in
//! blocks (`coarsen`), and their methods; how a grouping groups the positions of dimensions.
#![tactic(auto)]

mod arrays;
mod asked;
mod axes;
mod bins;
mod blocks;
mod cells;
mod changes;
mod checked;
mod coarsens;
mod fields;
mod fills;
mod freqs;
mod keyed;
mod keys;
mod labels;
mod listed;
mod makers;
mod methods;
mod names;
mod rolls;
mod windows;

pub use arrays::masked_after;
pub use asked::{check_has_method, folded_kind, has_method, needs_cells, of_blocks, of_groups};
pub use bins::{folded_chain, masked_by};
pub use checked::grouped_changes;
pub use coarsens::{Asked, coarsen_given};
pub use fields::groupby_given;
pub use fills::{check_filled, check_given, fill_called, fill_option};
pub use freqs::resample_given;
pub use listed::{axes_by, coords_left, feeds_by, is_changed};
pub use makers::{array_grouping, grouping_given};
pub use methods::grouped_array;
pub use names::{maker_named, method_named};
pub use rolls::{Rolled, rolling_given};
pub use windows::{WindowsAsked, of_windows, window_folds};
