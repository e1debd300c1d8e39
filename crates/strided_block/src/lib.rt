//! Blocks of cells, and views and windows of them. A view or window is, to a contract, a finite map from points to cells.
#![tactic(auto)]

mod axes;
mod block;
mod cells;
mod line;
mod memory;
mod place;
mod row;
mod runs;
mod typed;
mod view;
mod win;
mod zip;

pub use block::Block;
pub use cells::{CellBlock, CellView, CellWin};
pub use line::scan_line;
#[doc(hidden)]
pub use memory::{Deed, Origin, Right, Share};
pub use typed::{TypedBlock, TypedView, TypedWin};
pub use view::View;
pub use win::Win;
pub use zip::zip_cells;
