//! Strips of tables.
ghost use Rattle.std.specs.Prelude.{◌≡◌, ◌≤◌, ◌+◌, ◌*◌};
ghost use Rattle.xr_arrays.specs.Nodes.{most_node_cells};

/// Neighbouring columns of a table that has a row of `stride` cells for each of `size` positions: in the first row `count` cells
/// from `start` on.
#[derive(Clone, Copy)]
pub struct Strip {
    pub size: u64,
    pub stride: usize,
    pub count: usize,
    pub start: usize,
}

/// Where the cells of a strip at a position begin.
pub fn begin_at(strip: Strip, position: u64) -> usize
    requires few { strip.start + position * strip.stride ≤ most_node_cells }
    requires near { position ≤ most_node_cells }
    ensures { result ≡ strip.start + position * strip.stride }
{
    strip.start + position as usize * strip.stride
}
