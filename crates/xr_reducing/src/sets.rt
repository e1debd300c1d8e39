//! Datasets reduced over some or all of their dimensions.
ghost use Rattle.std.specs.Prelude.{◌≡◌, false, [], ◌∷◌, List, map, filter, IfOk};
ghost use Rattle.std.specs.List.{list_any};
ghost use Rattle.xr_types.specs.Names.{among};
ghost use Rattle.xr_types.specs.Results.{Answers, all_of};
ghost use Rattle.xr_arrays.specs.declared.node.Node.{Node};
ghost use Rattle.xr_arrays.specs.Nodes.{is_positional};
ghost use Rattle.xr_arrays.specs.Added.{AddsAtMost};
ghost use Rattle.xr_defs.specs.Room.{of_set, room};
ghost use Rattle.plan_core.specs.Plans.{Grows};
ghost use Rattle.xr_operations.specs.Reductions as calls;
ghost use Rattle.xr_values.specs.Answers.{AnswersSet};
ghost use Rattle.xr_values.specs.Meaning.{given};
ghost use Rattle.xr_values.specs.Stands.{dataset_in, IsDatasetIn};
ghost use Rattle.xr_reducing.specs.declared.realized.VarMade.{VarMade as Var};
ghost use Rattle.xr_reducing.specs.Reduced.{check_each, check_each_size, folded_made, framed_in, is_made_busy, same_made, set_made, var_made, AnswersSetMade, IsFrameIn};

use crate::chars::{Frame, have_axis, without_chars};
use crate::checks::{check_dims, check_over};
use crate::dims::dims_given;
use crate::folds::{folded_kind, is_positional, masked_after};
use crate::left::{axes_left, coords_left, feeds_of, names_left};
use crate::realized::{SetMade, VarMade, realize_set};
use plan_core::Plan;
use std::alloc::{AllocError, Global};
use xr_defs::Coord;
use xr_formulas::{Step, cells_of, one_step};
use xr_parts::is_among;
use xr_types::{Axis, CallFault, DeepCopy, Fault, FoldKind, Items, Name, TextBytes};
use xr_values::{Args, Dataset, Variable, without_fills};

fn has_any(names: &[TextBytes], dims: &[Name]) -> bool
    ensures { result ≡ list_any (among names.now) dims.now }
{
    dims.iter().any(|dim| is_among(names, dim))
}

pub(crate) fn same_made(alloc: Global, var: &Variable) -> Result<VarMade, AllocError>
    ensures { IfOk result (λ m. m ≡ same_made var.now) }
{
    Ok(VarMade {
        name: var.name.deep_copy(alloc)?,
        dims: var.dims.deep_copy(alloc)?,
        kind: var.kind,
        masked: var.masked,
        attrs: var.attrs.deep_copy(alloc)?,
        cells: cells_of(alloc, var.node),
    })
}

fn folded_made(
    alloc: Global,
    fold: FoldKind,
    names: &[TextBytes],
    var: &Variable,
) -> Result<VarMade, AllocError>
    ensures { IfOk result (λ m. m ≡ folded_made fold names.now var.now) }
{
    let dims = var.dims.as_slice();
    let feeds = feeds_of(alloc, names, dims)?;
    Ok(VarMade {
        name: var.name.deep_copy(alloc)?,
        dims: names_left(alloc, names, dims)?,
        kind: folded_kind(fold, var.kind),
        masked: masked_after(fold, var.masked),
        attrs: without_fills(alloc, var.attrs.as_slice())?,
        cells: one_step(alloc, var.node, Step::Fold(fold, feeds))?,
    })
}

// A variable that has none of the dimensions stays as it is.
fn var_made(
    alloc: Global,
    fold: FoldKind,
    names: &[TextBytes],
    var: &Variable,
) -> Result<VarMade, AllocError>
    ensures { IfOk result (λ m. m ≡ var_made fold names.now var.now) }
{
    if has_any(names, var.dims.as_slice()) {
        folded_made(alloc, fold, names, var)
    } else {
        same_made(alloc, var)
    }
}

fn vars_made(
    alloc: Global,
    fold: FoldKind,
    names: &[TextBytes],
    vars: &[Variable],
) -> Result<Items<VarMade>, AllocError>
    ensures { IfOk result (λ ms. ms ≡ map (var_made fold names.now) vars.now) }
{
    let mut made = Items::new(alloc);
    for var in vars {
        made.push(var_made(alloc, fold, names, var)?)?;
    }
    Ok(made)
}

fn have_dim(vars: &[VarMade], name: &TextBytes) -> bool
    ensures { result ≡ list_any (λ (m : Var). among m.dims name.now) vars.now }
{
    vars.iter().any(|var| is_among(var.dims.as_slice(), name))
}

fn is_busy(coords: &[Coord], vars: &[VarMade], axis: &Axis) -> bool
    ensures { result ≡ is_made_busy coords.now vars.now axis.now }
{
    axis.labels.is_some() || have_axis(coords, &axis.name) || have_dim(vars, &axis.name)
}

fn busy_axes(
    alloc: Global,
    coords: &[Coord],
    vars: &[VarMade],
    axes: &[Axis],
) -> Result<Items<Axis>, AllocError>
    ensures { IfOk result (λ xs. xs ≡ filter (is_made_busy coords.now vars.now) axes.now) }
{
    let mut out = Items::new(alloc);
    for axis in axes {
        if is_busy(coords, vars, axis) {
            out.push(axis.deep_copy(alloc)?)?;
        }
    }
    Ok(out)
}

fn set_made(
    alloc: Global,
    fold: FoldKind,
    names: &[TextBytes],
    on: &Dataset,
    frame: &Frame,
) -> Result<SetMade, AllocError>
    ensures { IfOk result (λ m. m ≡ set_made fold names.now on.now frame.now) }
{
    let coords = coords_left(alloc, names, on.coords.as_slice())?;
    let vars = vars_made(alloc, fold, names, frame.vars.as_slice())?;
    let all = axes_left(alloc, names, frame.axes.as_slice())?;
    let axes = busy_axes(alloc, coords.as_slice(), vars.as_slice(), all.as_slice())?;
    Ok(SetMade {
        axes,
        coords,
        vars,
        attrs: without_fills(alloc, on.attrs.as_slice())?,
        skipped: on.skipped.deep_copy(alloc)?,
    })
}

// No variable is reduced over a dimension without positions to what needs cells.
fn check_each(
    fold: FoldKind,
    names: &[TextBytes],
    axes: &[Axis],
    vars: &[Variable],
) -> Result<(), CallFault>
    ensures { Answers (λ u. u) result (check_each fold names.now axes.now vars.now) }
{
    for var in vars {
        check_over(fold, names, axes, var.dims.as_slice())?;
    }
    Ok(())
}

// Each variable has no more cells afterwards than an array may have.
fn check_each_size(names: &[TextBytes], axes: &[Axis], vars: &[Variable]) -> Result<(), CallFault>
    ensures { Answers (λ u. u) result (check_each_size names.now axes.now vars.now) }
{
    for var in vars {
        check_dims(names, axes, var.dims.as_slice())?;
    }
    Ok(())
}

// What is made of the variables of other kinds than chars.
#[tactic(auto, using(crate::proofs::AllVariables::checks_in, crate::proofs::AllVariables::sizes_in), unfolding(xr_operations::specs::Reductions::reduced_of))]
fn frame_reduced(
    alloc: Global,
    fold: FoldKind,
    on: &Dataset,
    frame: &Frame,
    args: &Args,
) -> Result<SetMade, CallFault>
    ensures { (nodes others : List Node) → is_positional fold ≡ false → IsFrameIn nodes on.now frame.now → AnswersSetMade nodes result (calls.reduced_of fold (framed_in nodes on.now frame.now) (given others args.now)) }
{
    let axes = frame.axes.as_slice();
    let vars = frame.vars.as_slice();
    let names = dims_given(alloc, axes, args)?;
    let names = names.as_slice();
    check_each(fold, names, axes, vars)?;
    check_each_size(names, axes, vars)?;
    let made = set_made(alloc, fold, names, on, frame)?;
    Ok(made)
}

// What a reduction makes of a dataset, before its cells stand in a plan.
#[tactic(auto, using(crate::proofs::AllVariables::set_begins, crate::proofs::AllVariables::begun_in), unfolding(xr_operations::specs::Reductions::reduced_set, xr_types::specs::Results::unless))]
fn set_reduced(
    alloc: Global,
    fold: FoldKind,
    on: &Dataset,
    args: &Args,
) -> Result<SetMade, CallFault>
    ensures { (nodes others : List Node) → IsDatasetIn nodes on.now → AnswersSetMade nodes result (calls.reduced_set fold (dataset_in nodes on.now) (given others args.now)) }
{
    if is_positional(fold) {
        return Err(CallFault::Refused(Fault::WrongKind));
    }
    let frame = without_chars(alloc, on)?;
    frame_reduced(alloc, fold, on, &frame, args)
}

/// A dataset without its variables of chars, each other one reduced over those of the dimensions that it has: those that `dim`
/// names, a text or a list of distinct texts, or all of them. A variable that has none of them stays as it is. Coordinates that
/// have one of them are dropped, and so are attributes of what is reduced that name fill numbers.
///
/// # Errors
/// `WrongKind` for a fold that tells a position; then `BadArgument` for arguments that don't fit; `WrongKind` for a `dim` that is
/// no text and no list of texts, then `BadArgument` where a name stands twice; `NoDimension` for the first name that isn't there;
/// `EmptyReduce` where a fold that needs cells has a dimension without positions; `TooLarge` past the limit of cells.
pub fn reduced_set(
    alloc: Global,
    plan: &mut Plan,
    fold: FoldKind,
    on: &Dataset,
    args: &Args,
) -> Result<Dataset, CallFault>
    requires { IsDatasetIn plan.old on.now }
    ensures answers { (nodes : List Node) → AnswersSet plan.new result (calls.reduced_set fold (dataset_in plan.old on.now) (given nodes args.now)) }
    ensures grows { Grows plan.old plan.new }
    ensures room { IfOk result (λ t. AddsAtMost plan.old plan.new (room (of_set (dataset_in plan.old on.now) ∷ of_set (dataset_in plan.new t) ∷ []))) }
{
    let made = set_reduced(alloc, fold, on, args)?;
    Ok(realize_set(alloc, plan, made)?)
}
