//! `cumsum(dim)`: the sums of the present cells up to each position along a dimension.
ghost use Rattle.std.specs.Prelude.{◌≡◌, ◌≤◌, [], ◌∷◌, List, length, map, IfOk};
ghost use Rattle.xr_types.specs.Names.{axis_names};
ghost use Rattle.xr_arrays.specs.declared.node.Node.{Node};
ghost use Rattle.xr_arrays.specs.Added.{AddsAtMost};
ghost use Rattle.xr_defs.specs.Room.{of_set, room};
ghost use Rattle.plan_core.specs.Plans.{Grows};
ghost use Rattle.xr_operations.specs.Reductions as calls;
ghost use Rattle.xr_formulas.specs.Mades.{AnswersMade};
ghost use Rattle.xr_values.specs.Answers.{AnswersSet};
ghost use Rattle.xr_values.specs.Meaning.{given};
ghost use Rattle.xr_values.specs.Stands.{array_in, dataset_in, IsArrayIn, IsDatasetIn};
ghost use Rattle.xr_reducing.specs.Reduced.{framed_in, AnswersSetMade, IsFrameIn};
ghost use Rattle.xr_reducing.specs.Running.{scan_chain, set_along, summed_made, var_along, var_summed};

use crate::chars::{Frame, without_chars};
use crate::dims::{dim_given, names_of};
use crate::folds::total_kind;
use crate::realized::{SetMade, VarMade, realize_set};
use crate::sets::same_made;
use plan_core::Plan;
use std::alloc::{AllocError, Global};
use xr_formulas::{Chain, Formula, Made, Step, is_chars, like, one_step};
use xr_parts::is_among;
use xr_types::{Axis, CallFault, DeepCopy, Fault, FoldKind, Items, Name, NodeId, TextBytes};
use xr_values::{Args, DataArray, Dataset, Variable, copy_coords, without_fills};

fn place_in(dims: &[Name], name: &TextBytes) -> usize
    ensures place { result ≡ calls.place_in dims.now name.now }
    ensures inside { result ≤ length dims.now }
{
    match dims {
        [] => 0,
        [dim, rest @ ..] => {
            if name.is(dim) {
                0
            } else {
                place_in(rest, name) + 1
            }
        }
    }
}

fn scan_chain(alloc: Global, node: NodeId, place: usize) -> Result<Chain, AllocError>
    ensures { IfOk result (λ c. c ≡ scan_chain node place) }
{
    one_step(alloc, node, Step::Scan(FoldKind::Sum, place))
}

fn summed_made(alloc: Global, on: &DataArray, place: usize) -> Result<Made, AllocError>
    ensures { IfOk result (λ m. m ≡ summed_made on.now place) }
{
    let attrs = without_fills(alloc, on.attrs.as_slice())?;
    let chain = scan_chain(alloc, on.node, place)?;
    like(
        alloc,
        on,
        total_kind(on.kind),
        false,
        attrs,
        Formula::One(chain),
    )
}

/// An array with the sums of the present cells up to each position along the dimension that `dim` names. It keeps its name, its
/// coordinates, and its attributes but for those that name fill numbers.
///
/// # Errors
/// `WrongKind` for an array of chars; then `BadArgument` for arguments that don't fit; `WrongKind` for a `dim` that is no text;
/// `NoDimension` where there is no such dimension.
#[tactic(auto, unfolding(xr_operations::specs::Reductions::cumsum_array, xr_types::specs::Results::unless))]
pub fn cumsum_array(alloc: Global, on: &DataArray, args: &Args) -> Result<Made, CallFault>
    ensures { (nodes : List Node) → IsArrayIn nodes on.now → AnswersMade nodes result (calls.cumsum_array (array_in nodes on.now) (given nodes args.now)) }
{
    if is_chars(on.kind) {
        return Err(CallFault::Refused(Fault::WrongKind));
    }
    let axes = on.axes.as_slice();
    let name = dim_given(alloc, axes, args)?;
    let dims = names_of(alloc, axes)?;
    let made = summed_made(alloc, on, place_in(dims.as_slice(), name))?;
    Ok(made)
}

fn var_summed(alloc: Global, var: &Variable, place: usize) -> Result<VarMade, AllocError>
    ensures { IfOk result (λ m. m ≡ var_summed var.now place) }
{
    Ok(VarMade {
        name: var.name.deep_copy(alloc)?,
        dims: var.dims.deep_copy(alloc)?,
        kind: total_kind(var.kind),
        masked: false,
        attrs: without_fills(alloc, var.attrs.as_slice())?,
        cells: scan_chain(alloc, var.node, place)?,
    })
}

// A variable that hasn't the dimension stays as it is.
fn var_along(alloc: Global, name: &TextBytes, var: &Variable) -> Result<VarMade, AllocError>
    ensures { IfOk result (λ m. m ≡ var_along name.now var.now) }
{
    let dims = var.dims.as_slice();
    if is_among(dims, name) {
        var_summed(alloc, var, place_in(dims, name))
    } else {
        same_made(alloc, var)
    }
}

fn vars_along(
    alloc: Global,
    name: &TextBytes,
    vars: &[Variable],
) -> Result<Items<VarMade>, AllocError>
    ensures { IfOk result (λ ms. ms ≡ map (var_along name.now) vars.now) }
{
    let mut made = Items::new(alloc);
    for var in vars {
        made.push(var_along(alloc, name, var)?)?;
    }
    Ok(made)
}

fn set_along(
    alloc: Global,
    name: &TextBytes,
    on: &Dataset,
    frame: &Frame,
) -> Result<SetMade, AllocError>
    ensures { IfOk result (λ m. m ≡ set_along name.now on.now frame.now) }
{
    Ok(SetMade {
        axes: frame.axes.deep_copy(alloc)?,
        coords: copy_coords(alloc, on.coords.as_slice())?,
        vars: vars_along(alloc, name, frame.vars.as_slice())?,
        attrs: without_fills(alloc, on.attrs.as_slice())?,
        skipped: on.skipped.deep_copy(alloc)?,
    })
}

// What is made of the variables of other kinds than chars.
#[tactic(auto, unfolding(xr_operations::specs::Reductions::cumsum_of))]
fn frame_summed(
    alloc: Global,
    on: &Dataset,
    frame: &Frame,
    args: &Args,
) -> Result<SetMade, CallFault>
    ensures { (nodes others : List Node) → IsFrameIn nodes on.now frame.now → AnswersSetMade nodes result (calls.cumsum_of (framed_in nodes on.now frame.now) (given others args.now)) }
{
    let name = dim_given(alloc, frame.axes.as_slice(), args)?;
    let made = set_along(alloc, name, on, frame)?;
    Ok(made)
}

// What running sums make of a dataset, before its cells stand in a plan.
fn set_summed(alloc: Global, on: &Dataset, args: &Args) -> Result<SetMade, CallFault>
    ensures { (nodes others : List Node) → IsDatasetIn nodes on.now → AnswersSetMade nodes result (calls.cumsum_set (dataset_in nodes on.now) (given others args.now)) }
{
    let frame = without_chars(alloc, on)?;
    frame_summed(alloc, on, &frame, args)
}

/// A dataset without its variables of chars, each other one that has the dimension with the sums of its present cells up to each
/// position. All coordinates stay.
///
/// # Errors
/// `BadArgument` for arguments that don't fit; `WrongKind` for a `dim` that is no text; `NoDimension` where there is no such
/// dimension.
pub fn cumsum_set(
    alloc: Global,
    plan: &mut Plan,
    on: &Dataset,
    args: &Args,
) -> Result<Dataset, CallFault>
    requires { IsDatasetIn plan.old on.now }
    ensures answers { (nodes : List Node) → AnswersSet plan.new result (calls.cumsum_set (dataset_in plan.old on.now) (given nodes args.now)) }
    ensures grows { Grows plan.old plan.new }
    ensures room { IfOk result (λ t. AddsAtMost plan.old plan.new (room (of_set (dataset_in plan.old on.now) ∷ of_set (dataset_in plan.new t) ∷ []))) }
{
    let made = set_summed(alloc, on, args)?;
    Ok(realize_set(alloc, plan, made)?)
}
