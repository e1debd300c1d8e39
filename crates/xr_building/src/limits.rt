//! The limits of arrays.
ghost use Rattle.std.specs.Prelude.{◌≡◌, ◌&&◌, ◌-◌, ◌^◌, min, nat_le};
ghost use Rattle.std.specs.List.{list_all};
ghost use Rattle.xr_types.specs.Points.{size};
ghost use Rattle.xr_defs.specs.Limits.{most_cells};
ghost use Rattle.xr_types.specs.Names.{shape_over};
ghost use Rattle.xr_defs.specs.Selecting as of;

use xr_defs::Coord;
use xr_types::{Axis, MOST_CELLS, MOST_DIMENSIONS};

// The product of the axes' sizes, as far as 64 bits count.
#[tactic(auto, using(plan_core::proofs::Products::saturates))]
fn points_over(axes: &[Axis]) -> u64
    ensures { result ≡ min (size (shape_over axes.now)) (2 ^ 64 - 1) }
{
    match axes {
        [] => 1,
        [axis, rest @ ..] => axis.size.saturating_mul(points_over(rest)),
    }
}

fn are_short(axes: &[Axis]) -> bool
    ensures { result ≡ list_all (λ n. nat_le n most_cells) (shape_over axes.now) }
{
    match axes {
        [] => true,
        [axis, rest @ ..] => axis.size <= MOST_CELLS && are_short(rest),
    }
}

// No more dimensions, positions along an axis and cells than there may be.
#[tactic(auto, using(crate::proofs::Called::rank))]
fn is_within(axes: &[Axis]) -> bool
    ensures { result ≡ of.is_within (shape_over axes.now) }
{
    axes.len() <= MOST_DIMENSIONS && are_short(axes) && points_over(axes) <= MOST_CELLS
}

fn are_within(coords: &[Coord]) -> bool
    ensures { result ≡ of.are_within coords.now }
{
    coords.iter().all(|coord| is_within(coord.axes.as_slice()))
}

/// Whether an array over these axes and its coordinates have no more dimensions, positions and cells than they may have.
pub fn is_frame_within(axes: &[Axis], coords: &[Coord]) -> bool
    ensures { result ≡ (of.is_within (shape_over axes.now) && of.are_within coords.now) }
{
    is_within(axes) && are_within(coords)
}
