//! The coordinates and data variables of a file.
ghost use Rattle.std.specs.Prelude.{◌≡◌, ◌++◌, ◌∷◌, [], All, length, map, true, IfOk, OnOk};
ghost use Rattle.xr_types.specs.Names.{are_distinct};
ghost use Rattle.xr_defs.specs.Decoding.{axis_in, coordinate_names, others_in, coordinates_in};
ghost use Rattle.xr_arrays.specs.Added.{AddsAtMost};
ghost use Rattle.plan_core.specs.Plans.{Grows};
ghost use Rattle.xr_decode.specs.Held.{data_cells, data_in, AreHeld, Adds};
ghost use Rattle.xr_decode.specs.Listed.{Lists};
ghost use Rattle.xr_decode.specs.Readable.{IsReadableVar, var_names};

use crate::coordinate::coordinate_of;
use crate::listed::Listed;
use crate::role::{Role, role_of};
use crate::stored::{Source, StoredVar};
use crate::variable::variable_of;
use plan_core::Plan;
use std::alloc::Global;
use xr_defs::Coord;
use xr_types::{Axis, Items, NoMemory};
use xr_values::Variables;

/// How many coordinates and data variables there are.
pub(crate) fn count_of(
    alloc: Global,
    source: &Source<'_>,
    listed: &Listed<'_>,
    vars: &[StoredVar<'_>],
) -> Result<usize, NoMemory>
    requires readable { All (IsReadableVar source.now) vars.now }
    requires listed { Lists listed.now (coordinate_names source.now) }
    ensures { IfOk result (λ n. n ≡ length (others_in source.now vars.now)) }
{
    let mut count = 0;
    for var in vars {
        let role = role_of(alloc, source, listed, var)?;
        count += usize::from(role.is_counted());
    }
    Ok(count)
}

// Adds a variable that is a coordinate.
#[tactic(auto, using(crate::proofs::Loaded::is_whole_coordinate))]
fn add_coordinate(
    alloc: Global,
    coords: &mut Items<Coord>,
    source: &Source<'_>,
    axes: &[Axis],
    listed: &Listed<'_>,
    var: &StoredVar<'_>,
    mask: bool,
) -> Result<(), NoMemory>
    requires readable { IsReadableVar source.now var.now }
    requires listed { Lists listed.now (coordinate_names source.now) }
    requires axes { axes.now ≡ map (axis_in source.now) source.now.dims }
    ensures { OnOk result (coords.new ≡ coords.old ++ coordinates_in source.now mask (var.now ∷ [])) }
{
    match role_of(alloc, source, listed, var)? {
        Role::Coordinate => {
            coords.push(coordinate_of(alloc, source, axes, var, mask)?)?;
            Ok(())
        }
        Role::Skipped | Role::Index | Role::Data => Ok(()),
    }
}

/// The coordinates among some variables, in their order. `axes` are those of the file.
pub(crate) fn coordinates_in(
    alloc: Global,
    source: &Source<'_>,
    axes: &[Axis],
    listed: &Listed<'_>,
    vars: &[StoredVar<'_>],
    mask: bool,
) -> Result<Items<Coord>, NoMemory>
    requires readable { All (IsReadableVar source.now) vars.now }
    requires listed { Lists listed.now (coordinate_names source.now) }
    requires axes { axes.now ≡ map (axis_in source.now) source.now.dims }
    ensures { IfOk result (λ cs. cs ≡ coordinates_in source.now mask vars.now) }
{
    let mut coords = Items::new(alloc);
    for var in vars {
        add_coordinate(alloc, &mut coords, source, axes, listed, var, mask)?;
    }
    Ok(coords)
}

// Adds a variable that is a data variable, and its cells to the plan.
#[tactic(auto, using(plan_core::proofs::Added::adds_none))]
fn add_variable(
    alloc: Global,
    plan: &mut Plan,
    kept: &mut Variables,
    source: &Source<'_>,
    listed: &Listed<'_>,
    var: &StoredVar<'_>,
    mask: bool,
) -> Result<(), NoMemory>
    requires readable { IsReadableVar source.now var.now }
    requires listed { Lists listed.now (coordinate_names source.now) }
    ensures grows { Grows plan.old plan.new }
    ensures adds { OnOk result (Adds source.now mask plan.new kept.old kept.new var.now) }
    ensures cells { OnOk result (AddsAtMost plan.old plan.new (data_cells source.now (var.now ∷ []))) }
{
    match role_of(alloc, source, listed, var)? {
        Role::Data => {
            let variable = variable_of(alloc, plan, source, var, mask)?;
            kept.put(alloc, variable)?;
            Ok(())
        }
        Role::Skipped | Role::Index | Role::Coordinate => Ok(()),
    }
}

/// The data variables among some variables, in their order. Their cells become nodes of the plan.
pub(crate) fn variables_in(
    alloc: Global,
    plan: &mut Plan,
    source: &Source<'_>,
    listed: &Listed<'_>,
    vars: &[StoredVar<'_>],
    mask: bool,
) -> Result<Variables, NoMemory>
    requires readable { All (IsReadableVar source.now) vars.now }
    requires distinct { are_distinct (var_names vars.now) ≡ true }
    requires listed { Lists listed.now (coordinate_names source.now) }
    ensures grows { Grows plan.old plan.new }
    ensures held { IfOk result (λ xs. AreHeld source.now mask plan.new xs (data_in source.now vars.now)) }
    ensures cells { IfOk result (λ xs. AddsAtMost plan.old plan.new (data_cells source.now vars.now)) }
{
    let mut kept = Variables::new(alloc);
    for var in vars {
        add_variable(alloc, plan, &mut kept, source, listed, var, mask)?;
    }
    Ok(kept)
}
