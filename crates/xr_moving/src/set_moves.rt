//! `roll(DIM)` of a dataset.
ghost use Rattle.std.specs.Prelude.{◌≡◌, ◌∷◌, List, [], map, IfOk};
ghost use Rattle.xr_arrays.specs.declared.node.Node.{Node};
ghost use Rattle.xr_arrays.specs.Added.{AddsAtMost};
ghost use Rattle.xr_defs.specs.Room.{of_set, room};
ghost use Rattle.plan_core.specs.Plans.{Grows};
ghost use Rattle.xr_operations.specs.Moves as of;
ghost use Rattle.xr_values.specs.Answers.{AnswersSet};
ghost use Rattle.xr_values.specs.Meaning.{given};
ghost use Rattle.xr_values.specs.Stands.{dataset_in, IsDatasetIn};
ghost use Rattle.xr_moving.specs.Sets as sets;
ghost use Rattle.xr_moving.specs.Sets.{set_moved_by, AnswersSetMade, Fit, MakesSet};

use crate::moves::{Move, Moves, masked_after, moved_cells};
use crate::names::{check_dimensions, distances};
use crate::sets::{SetMade, VarMade, realize_set};
use plan_core::Plan;
use std::alloc::{AllocError, Global};
use xr_types::{Axis, CallFault, DeepCopy, Fault, Items};
use xr_values::{Args, Dataset, Variable, copy_coords};

fn var_made(
    alloc: Global,
    moves: &Moves,
    axes: &[Axis],
    var: &Variable,
) -> Result<VarMade, AllocError>
    ensures { IfOk result (λ m. m ≡ sets.var_made moves.now axes.now var.now) }
{
    let dims = var.dims.as_slice();
    let masked = masked_after(moves, var.masked, dims);
    Ok(VarMade {
        name: var.name.deep_copy(alloc)?,
        dims: var.dims.deep_copy(alloc)?,
        kind: var.kind,
        masked,
        attrs: var.attrs.deep_copy(alloc)?,
        cells: moved_cells(alloc, moves, axes, var.node, dims)?,
    })
}

fn vars_made(
    alloc: Global,
    moves: &Moves,
    axes: &[Axis],
    vars: &[Variable],
) -> Result<Items<VarMade>, AllocError>
    ensures { IfOk result (λ ms. ms ≡ map (sets.var_made moves.now axes.now) vars.now) }
{
    let mut made = Items::new(alloc);
    for var in vars {
        made.push(var_made(alloc, moves, axes, var)?)?;
    }
    Ok(made)
}

/// A dataset with the cells of its variables moved.
pub fn set_moved(alloc: Global, moves: &Moves, on: &Dataset) -> Result<SetMade, AllocError>
    ensures { (nodes : List Node) → IsDatasetIn nodes on.now → Fit moves.now on.now.vars → IfOk result (MakesSet nodes (set_moved_by moves.now (dataset_in nodes on.now))) }
{
    Ok(SetMade {
        axes: on.axes.deep_copy(alloc)?,
        coords: copy_coords(alloc, on.coords.as_slice())?,
        vars: vars_made(alloc, moves, on.axes.as_slice(), on.vars.as_slice())?,
        attrs: on.attrs.deep_copy(alloc)?,
        skipped: on.skipped.deep_copy(alloc)?,
    })
}

// The checks of `roll` in their order, and then what it makes.
#[tactic(auto, using(crate::proofs::SetsAnswered::roll_answered, crate::proofs::SetsAnswered::none_fits), unfolding(xr_operations::specs::Moves::roll_set, xr_types::specs::Results::unless, xr_values::specs::Meaning::given))]
fn typed_roll(alloc: Global, on: &Dataset, args: &Args) -> Result<SetMade, CallFault>
    ensures { (nodes others : List Node) → IsDatasetIn nodes on.now → AnswersSetMade nodes result (of.roll_set (dataset_in nodes on.now) (given others args.now)) }
{
    if args.plain.len() != 0 {
        return Err(CallFault::Refused(Fault::BadArgument));
    }
    let by = distances(alloc, false, args.keyed.as_slice())?;
    check_dimensions(alloc, on.axes.as_slice(), false, args.keyed.as_slice())?;
    let how = Move::Roll;
    let fill = None;
    let moves = Moves { how, fill, by };
    let made = set_moved(alloc, &moves, on)?;
    Ok(made)
}

/// A dataset with the cells of its variables moved round along each dimension that an argument names.
///
/// # Errors
/// `BadArgument` for a plain argument; then `WrongKind` for an argument that is no whole number; then `NoDimension` for the
/// first name that is no dimension.
pub fn set_rolled(
    alloc: Global,
    plan: &mut Plan,
    on: &Dataset,
    args: &Args,
) -> Result<Dataset, CallFault>
    requires { IsDatasetIn plan.old on.now }
    ensures answers { (nodes : List Node) → AnswersSet plan.new result (of.roll_set (dataset_in plan.old on.now) (given nodes args.now)) }
    ensures grows { Grows plan.old plan.new }
    ensures room { IfOk result (λ t. AddsAtMost plan.old plan.new (room (of_set (dataset_in plan.old on.now) ∷ of_set (dataset_in plan.new t) ∷ []))) }
{
    let made = typed_roll(alloc, on, args)?;
    let set = realize_set(alloc, plan, made)?;
    Ok(set)
}
