//! Datasets without dimensions of one position.
ghost use Rattle.std.specs.Prelude.{◌≡◌, ◌*◌, true, length, map, List, IfOk};
ghost use Rattle.xr_arrays.specs.Added.{AddsAtMost};
ghost use Rattle.xr_arrays.specs.declared.node.Node.{Node};
ghost use Rattle.xr_defs.specs.Room.{span};
ghost use Rattle.xr_defs.specs.Selecting as limits;
ghost use Rattle.plan_core.specs.Plans.{Grows};
ghost use Rattle.xr_operations.specs.Indexing as of;
ghost use Rattle.xr_reducing.specs.Sets.{IsSetOf};
ghost use Rattle.xr_values.specs.Stands.{dataset_in, IsDatasetIn};
ghost use Rattle.xr_squeezing.specs.Alone.{AreAlone};
ghost use Rattle.xr_squeezing.specs.Made.{var_made};

use crate::coords::squeezed_coords;
use crate::dims::{axis_called, check_alone, steps_without};
use plan_core::Plan;
use std::alloc::{AllocError, Global};
use xr_formulas::{Chain, Start};
use xr_reducing::{SetMade, VarMade, axes_left, names_left, realize_set};
use xr_types::{DeepCopy, Items, MOST_VARIABLES, Name, NoMemory};
use xr_values::{Dataset, Variable};

fn vars_made(alloc: Global, gone: &[Name], vars: &[Variable]) -> Result<Items<VarMade>, AllocError>
    ensures { IfOk result (λ ms. ms ≡ map (var_made gone.now) vars.now) }
{
    let mut made = Items::new(alloc);
    for var in vars {
        let dims = var.dims.as_slice();
        let start = Start::Node(var.node);
        let steps = steps_without(alloc, gone, dims)?;
        made.push(VarMade {
            name: var.name.deep_copy(alloc)?,
            dims: names_left(alloc, gone, dims)?,
            kind: var.kind,
            masked: var.masked,
            attrs: var.attrs.deep_copy(alloc)?,
            cells: Chain { start, steps },
        })?;
    }
    Ok(made)
}

/// The dataset without these dimensions, of one position each, which leave their labels as coordinates. The cells of its
/// variables are those of nodes that are added to the plan; a variable that has none of the dimensions keeps its node. A name
/// that stands twice, or that is no dimension of one position, wants memory.
pub fn squeezed_set(
    alloc: Global,
    plan: &mut Plan,
    gone: &[Name],
    on: Dataset,
) -> Result<Dataset, NoMemory>
    requires inside { IsDatasetIn plan.old on }
    requires few { limits.are_few (of.squeezed_set gone.now (dataset_in plan.old on)) ≡ true }
    ensures is { IfOk result (IsSetOf plan.new (of.squeezed_set gone.now (dataset_in plan.old on))) }
    ensures alone { IfOk result (λ t. AreAlone on.axes gone.now) }
    ensures grows { Grows plan.old plan.new }
    ensures space { IfOk result (λ t. AddsAtMost plan.old plan.new (16 * length on.vars * span t.axes)) }
{
    let own = on.axes.as_slice();
    check_alone(own, gone)?;
    let axes = axes_left(alloc, gone, own)?;
    let coords = squeezed_coords(alloc, gone, own, on.coords.as_slice())?;
    let vars = vars_made(alloc, gone, on.vars.as_slice())?;
    let made = SetMade {
        axes,
        coords,
        vars,
        attrs: on.attrs,
        skipped: on.skipped,
    };
    let set = realize_set(alloc, plan, made)?;
    Ok(set)
}

// ---- the limit

/// Whether the dataset without these dimensions has no more coordinates and data variables together than a dataset may have.
#[tactic(auto, using(crate::proofs::Squeezed::count_after))]
pub fn are_few(gone: &[Name], on: &Dataset) -> bool
    ensures { (nodes : List Node) → result ≡ limits.are_few (of.squeezed_set gone.now (dataset_in nodes on.now)) }
{
    let own = on.axes.as_slice();
    let labels = gone
        .iter()
        .filter(|name| axis_called(own, name).is_some_and(|axis| axis.labels.is_some()))
        .count();
    let count = on.coords.as_slice().len().saturating_add(labels);
    count.saturating_add(on.vars.as_slice().len()) <= MOST_VARIABLES
}
