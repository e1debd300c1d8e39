//! Arrays one after the other.
ghost use Rattle.std.specs.Prelude.{◌≡◌, ◌<◌, ◌≤◌, length, map, All, IfOk};
ghost use Rattle.xr_types.specs.Points.{size};
ghost use Rattle.xr_arrays.specs.Nodes.{Continues, concatenated, first_array, most_node_cells};

use crate::join::join;
use crate::spelt::all_values;
use std::alloc::{AllocError, Global};
use xr_arrays::{ArrayValue, Form};

/// The arrays one after the other along an axis. Where all stand as files have them, in one type and with the same fill
/// numbers, so does the result: blocks of their bytes are copied once, and one array alone shares its bytes. Others are put
/// together cell by cell.
pub fn concat(alloc: Global, inputs: &[&ArrayValue], axis: usize) -> Result<ArrayValue, AllocError>
    requires some { 0 < length inputs.now }
    requires axis { axis < length (first_array (map (λ a. a.now) inputs.now)).shape }
    requires each { All (λ a. Continues axis (first_array (map (λ a. a.now) inputs.now)) a.now) inputs.now }
    requires small { size (concatenated (map (λ a. a.now) inputs.now) axis).shape ≤ most_node_cells }
    ensures { IfOk result (λ b. b ≡ concatenated (map (λ a. a.now) inputs.now) axis) }
{
    let first = inputs[0];
    if let Form::Stored(array) = first.form() {
        let parts = array.parts();
        if let Some(lists) = all_values(alloc, inputs, parts.kind, parts.fills)? {
            if inputs.len() == 1 {
                return first.copy(alloc);
            }
            return join(alloc, inputs, axis, parts.kind, parts.fills, &lists);
        }
    }
    arrangement::concat(alloc, inputs, axis)
}
