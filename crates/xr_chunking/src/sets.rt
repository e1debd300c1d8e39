//! `chunk(DIM)` of a dataset.
ghost use Rattle.std.specs.Prelude.{◌≡◌, [], ◌∷◌, List, IfOk};
ghost use Rattle.std.specs.List.{AllByRecursion};
ghost use Rattle.xr_types.specs.Points.{size};
ghost use Rattle.xr_arrays.specs.declared.node.Node.{Node};
ghost use Rattle.xr_arrays.specs.Added.{AddsAtMost};
ghost use Rattle.xr_defs.specs.Room.{of_set, room};
ghost use Rattle.plan_core.specs.Plans.{Grows};
ghost use Rattle.xr_chunks.specs.Chunks as of;
ghost use Rattle.xr_values.specs.Answers.{AnswersSet};
ghost use Rattle.xr_values.specs.Meaning.{given};
ghost use Rattle.xr_values.specs.Stands.{dataset_in, IsDatasetIn};
ghost use Rattle.xr_values.specs.Variables.{with_variables};
ghost use Rattle.xr_chunking.specs.Grids.{cells_over, shape_named, AreCutOf, HaveGrids, IsCutOf, IsOver};

use crate::grids::cut;
use crate::pieces::variable_pieces;
use crate::sizes::grid_given;
use plan_core::Plan;
use std::alloc::{AllocError, Global};
use xr_types::{Axis, CallFault, DeepCopy, Items, NoMemory, TextBytes};
use xr_values::{Args, Dataset, Variable, Variables};

fn variable_cut(
    alloc: Global,
    plan: &mut Plan,
    sizes: &[(TextBytes, u128)],
    axes: &[Axis],
    on: &Variable,
) -> Result<Variable, NoMemory>
    requires { IsOver plan.old axes.now on.now }
    ensures var { IfOk result (IsCutOf plan.old plan.new sizes.now axes.now on.now) }
    ensures grows { Grows plan.old plan.new }
    ensures cells { IfOk result (λ w. AddsAtMost plan.old plan.new (size (shape_named axes.now on.now.dims))) }
{
    let pieces = variable_pieces(alloc, sizes, axes, on.dims.as_slice())?;
    let mut var = on.deep_copy(alloc)?;
    var.node = cut(plan, on.node, pieces)?;
    Ok(var)
}

// The variables in their order.
fn variables_cut(
    alloc: Global,
    plan: &mut Plan,
    sizes: &[(TextBytes, u128)],
    axes: &[Axis],
    vars: &[Variable],
) -> Result<Items<Variable>, NoMemory>
    requires { AllByRecursion (IsOver plan.old axes.now) vars.now }
    ensures vars { IfOk result (AreCutOf plan.old plan.new sizes.now axes.now vars.now) }
    ensures grows { Grows plan.old plan.new }
    ensures cells { IfOk result (λ ws. AddsAtMost plan.old plan.new (cells_over axes.now vars.now)) }
{
    let mut out = Items::new(alloc);
    for var in vars {
        out.push(variable_cut(alloc, plan, sizes, axes, var)?)?;
    }
    Ok(out)
}

fn by_name(alloc: Global, vars: &[Variable]) -> Result<Variables, AllocError>
    ensures { IfOk result (λ vs. vs ≡ with_variables [] vars.now) }
{
    let mut out = Variables::new(alloc);
    for var in vars {
        out.put(alloc, var.deep_copy(alloc)?)?;
    }
    Ok(out)
}

/// The dataset as it is, with variables whose cells are computed in pieces of the sizes that the arguments give along the
/// dimensions that each has: nodes that follow theirs. A variable that has none of the dimensions has the same node.
///
/// # Errors
/// `BadArgument` for a plain argument; then, argument by argument, `WrongKind` for what is no whole number and `BadArgument` for
/// one below 1; then `NoDimension` for the first name that is no dimension.
#[tactic(auto, unfolding(xr_chunks::specs::Chunks::chunk_set))]
pub fn set_chunked(
    alloc: Global,
    plan: &mut Plan,
    on: &Dataset,
    args: &Args,
) -> Result<Dataset, CallFault>
    requires { IsDatasetIn plan.old on.now }
    ensures answers { (nodes : List Node) → AnswersSet plan.new result (of.chunk_set (dataset_in plan.old on.now) (given nodes args.now)) }
    ensures grids { (nodes : List Node) → IfOk result (λ t. HaveGrids plan.new (of.grid_given on.now.axes (given nodes args.now)) on.now.axes on.now.vars t.vars) }
    ensures grows { Grows plan.old plan.new }
    ensures room { IfOk result (λ t. AddsAtMost plan.old plan.new (room (of_set (dataset_in plan.old on.now) ∷ of_set (dataset_in plan.new t) ∷ []))) }
{
    let axes = on.axes.as_slice();
    let sizes = grid_given(alloc, axes, args)?;
    let vars = variables_cut(alloc, plan, sizes.as_slice(), axes, on.vars.as_slice())?;
    let mut set = on.deep_copy(alloc)?;
    set.vars = by_name(alloc, vars.as_slice())?;
    Ok(set)
}
