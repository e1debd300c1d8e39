//! The whole numbers of a variable, as cells.
use xr_arrays::Cells;
/// The values of a variable, as cells of its type.
#[derive(Drop)]
pub struct Numbers {
    pub cells: Cells,
}
