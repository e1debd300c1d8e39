//! `diff(dim, label="upper")` of a dataset.
ghost use Rattle.std.specs.Prelude.{◌≡◌, ◌<◌, ◌^◌, ◌∷◌, List, [], length, map, IfOk, IfSome};
ghost use Rattle.xr_types.specs.Results.{Answers, all_of};
ghost use Rattle.xr_arrays.specs.declared.node.Node.{Node};
ghost use Rattle.xr_arrays.specs.Added.{AddsAtMost};
ghost use Rattle.xr_defs.specs.Room.{of_set, room};
ghost use Rattle.xr_defs.specs.Selecting as selecting;
ghost use Rattle.plan_core.specs.Plans.{Grows};
ghost use Rattle.xr_operations.specs.Moves as of;
ghost use Rattle.xr_values.specs.Answers.{AnswersSet};
ghost use Rattle.xr_values.specs.Meaning.{given};
ghost use Rattle.xr_values.specs.Stands.{dataset_in, variable_in, IsDatasetIn};
ghost use Rattle.xr_reducing.specs.Reduced.{charless, framed_in, IsFrameIn};
ghost use Rattle.xr_moving.specs.Diffs.{axes_left, coords_left, differed_of, differed_made, same_made, set_made, var_differed, IsFramed};
ghost use Rattle.xr_moving.specs.Sets.{AnswersSetMade};

use crate::diffs::{Asked, diff_given, left_along, neighbours};
use crate::names::position_of;
use crate::sets::{SetMade, VarMade, realize_set};
use plan_core::Plan;
use std::alloc::{AllocError, Global};
use xr_formulas::{Formula, cells_of, is_truths};
use xr_reducing::{Frame, without_chars};
use xr_types::{CallFault, DeepCopy, Fault, Items, Name, NoMemory, TextBytes};
use xr_values::{Args, Dataset, Variable, without_fills};

// The first place of a name.
fn place_of(dims: &[Name], name: &TextBytes) -> Option<usize>
    ensures place { result ≡ selecting.place_of name.now dims.now }
    ensures inside { IfSome result (λ j. j < length dims.now) }
{
    match dims {
        [] => None,
        [dim, rest @ ..] => {
            if dim.is(name) {
                return Some(0);
            }
            match place_of(rest, name) {
                Some(n) => Some(n + 1),
                None => None,
            }
        }
    }
}

fn same_made(alloc: Global, var: &Variable) -> Result<VarMade, AllocError>
    ensures { IfOk result (λ m. m ≡ same_made var.now) }
{
    Ok(VarMade {
        name: var.name.deep_copy(alloc)?,
        dims: var.dims.deep_copy(alloc)?,
        kind: var.kind,
        masked: var.masked,
        attrs: var.attrs.deep_copy(alloc)?,
        cells: Formula::One(cells_of(alloc, var.node)),
    })
}

fn differed_made(alloc: Global, var: &Variable, k: usize, n: u64) -> Result<VarMade, AllocError>
    requires { n < 2 ^ 31 }
    ensures { IfOk result (λ m. m ≡ differed_made var.now k n) }
{
    Ok(VarMade {
        name: var.name.deep_copy(alloc)?,
        dims: var.dims.deep_copy(alloc)?,
        kind: var.kind,
        masked: var.masked,
        attrs: without_fills(alloc, var.attrs.as_slice())?,
        cells: neighbours(alloc, var.node, k, n)?,
    })
}

// A variable that hasn't the dimension stays as it is.
fn var_differed(
    alloc: Global,
    dim: &TextBytes,
    n: u64,
    var: &Variable,
) -> Result<VarMade, AllocError>
    requires { n < 2 ^ 31 }
    ensures { IfOk result (λ m. m ≡ var_differed dim.now n var.now) }
{
    match place_of(var.dims.as_slice(), dim) {
        None => same_made(alloc, var),
        Some(k) => differed_made(alloc, var, k, n),
    }
}

fn vars_differed(
    alloc: Global,
    dim: &TextBytes,
    n: u64,
    vars: &[Variable],
) -> Result<Items<VarMade>, AllocError>
    requires { n < 2 ^ 31 }
    ensures { IfOk result (λ ms. ms ≡ map (var_differed dim.now n) vars.now) }
{
    let mut made = Items::new(alloc);
    for var in vars {
        made.push(var_differed(alloc, dim, n, var)?)?;
    }
    Ok(made)
}

// Refuses truth values along the dimension.
#[tactic(auto, unfolding(xr_operations::specs::Moves::check_numbers, xr_types::specs::Results::unless))]
fn check_numbers(dim: &TextBytes, vars: &[Variable]) -> Result<(), CallFault>
    ensures { (nodes : List Node) → Answers (λ u. u) result (all_of (of.check_numbers dim.now) (map (variable_in nodes) vars.now)) }
{
    match vars {
        [] => Ok(()),
        [var, rest @ ..] => {
            if is_truths(var.kind) && place_of(var.dims.as_slice(), dim).is_some() {
                return Err(CallFault::Refused(Fault::WrongKind));
            }
            check_numbers(dim, rest)
        }
    }
}

// The differences along an axis.
fn set_made(
    alloc: Global,
    upper: bool,
    k: usize,
    on: &Dataset,
    frame: &Frame,
) -> Result<SetMade, NoMemory>
    requires axis { k < length frame.now.axes }
    requires framed { IsFramed frame.now.axes on.now.coords }
    ensures is { IfOk result (λ m. m ≡ set_made upper k on.now frame.now) }
    ensures framed { IfOk result (λ m. IsFramed (axes_left upper frame.now.axes k) (coords_left upper frame.now.axes k on.now.coords)) }
{
    let axis = &frame.axes.as_slice()[k];
    let framed = left_along(alloc, upper, &frame.axes, &on.coords, k)?;
    let vars = vars_differed(alloc, &axis.name, axis.size, frame.vars.as_slice())?;
    let attrs = without_fills(alloc, on.attrs.as_slice())?;
    let skipped = on.skipped.deep_copy(alloc)?;
    Ok(SetMade {
        axes: framed.axes,
        coords: framed.coords,
        vars,
        attrs,
        skipped,
    })
}

// What is made of the variables of other kinds than chars.
#[tactic(auto, unfolding(crate::specs::Diffs::differed_of))]
fn frame_differed(
    alloc: Global,
    on: &Dataset,
    frame: &Frame,
    asked: &Asked<'_>,
) -> Result<SetMade, CallFault>
    requires { IsFramed frame.now.axes on.now.coords }
    ensures { (nodes : List Node) → IsFrameIn nodes on.now frame.now → AnswersSetMade nodes result (differed_of asked.now.dim.now asked.now.upper (framed_in nodes on.now frame.now)) }
{
    match position_of(frame.axes.as_slice(), asked.dim) {
        None => Err(CallFault::Refused(Fault::NoDimension(asked.dim.deep_copy(alloc)?))),
        Some(k) => {
            check_numbers(asked.dim, frame.vars.as_slice())?;
            let made = set_made(alloc, asked.upper, k, on, frame)?;
            Ok(made)
        }
    }
}

// The checks of `diff` in their order, and then what it makes.
#[tactic(auto, unfolding(xr_operations::specs::Moves::diff_set))]
fn typed_diff(alloc: Global, on: &Dataset, args: &Args) -> Result<SetMade, CallFault>
    requires { IsFramed (charless on.now).axes on.now.coords }
    ensures { (nodes others : List Node) → IsDatasetIn nodes on.now → AnswersSetMade nodes result (of.diff_set (dataset_in nodes on.now) (given others args.now)) }
{
    let asked = diff_given(alloc, args)?;
    let frame = without_chars(alloc, on)?;
    frame_differed(alloc, on, &frame, &asked)
}

/// A dataset without its variables of chars, each other one that has the dimension with the differences of its neighbours along
/// it, with the labels of the later one, or with `label="lower"` of the earlier one. What lies along the dimension is chosen with
/// its labels, and attributes of what differs that name fill numbers are dropped.
///
/// # Errors
/// `BadArgument` for arguments that fit no parameter, and where there is no `dim`; then `WrongKind` for a `dim` that is no text;
/// then the same of `label`, and `BadArgument` for one that is neither `"upper"` nor `"lower"`; then `NoDimension`; then
/// `WrongKind` where a variable of truth values has the dimension.
pub fn set_differed(
    alloc: Global,
    plan: &mut Plan,
    on: &Dataset,
    args: &Args,
) -> Result<Dataset, CallFault>
    requires { IsDatasetIn plan.old on.now }
    ensures answers { (nodes : List Node) → AnswersSet plan.new result (of.diff_set (dataset_in plan.old on.now) (given nodes args.now)) }
    ensures grows { Grows plan.old plan.new }
    ensures room { IfOk result (λ t. AddsAtMost plan.old plan.new (room (of_set (dataset_in plan.old on.now) ∷ of_set (dataset_in plan.new t) ∷ []))) }
{
    let made = typed_diff(alloc, on, args)?;
    let set = realize_set(alloc, plan, made)?;
    Ok(set)
}
