//! `diff(dim, label="upper")` of an array.
ghost use Rattle.std.specs.Prelude.{◌≡◌, ◌<◌, ◌+◌, ◌^◌, ◌-◌, List, Some, false, length, map, option_map, IfOk};
ghost use Rattle.std.specs.List.{range_with_len};
ghost use Rattle.xr_types.specs.Results.{Answers};
ghost use Rattle.xr_arrays.specs.declared.node.Node.{Node};
ghost use Rattle.xr_operations.specs.Arithmetic.{is_truths as of_truths};
ghost use Rattle.xr_operations.specs.Moves as of;
ghost use Rattle.xr_values.specs.Meaning.{given, meaning};
ghost use Rattle.xr_values.specs.Stands.{array_in, IsArrayIn};
ghost use Rattle.xr_formulas.specs.Mades.{AnswersMade, Makes};
ghost use Rattle.xr_moving.specs.Diffs.{asked, axes_left, coords_left, neighbours, step_to, IsFramed};

use crate::names::position_of;
use std::alloc::{AllocError, Global};
use xr_arguments::{argument, as_text, bound, option, required};
use xr_arrays::Sources;
use xr_changing::{changed_coords, new_axes};
use xr_defs::Coord;
use xr_formulas::{Formula, Made, Step, is_chars, is_truths, one_step};
use xr_operations::Change;
use xr_types::{Axis, CallFault, DeepCopy, Fault, Items, NoMemory, NodeId, OpKind, TextBytes};
use xr_values::{Args, DataArray, Value, without_fills};

/// What `diff` is asked for.
#[derive(Clone, Copy)]
pub struct Asked<'a> {
    pub dim: &'a TextBytes,
    /// Whether the later one's labels are kept of two neighbours.
    pub upper: bool,
}

#[tactic(auto, unfolding(xr_operations::specs::Moves::label_called))]
fn label_called(text: &TextBytes) -> Result<bool, CallFault>
    ensures { Answers (λ b. b) result (of.label_called text.now) }
{
    if text.as_str() == "upper" {
        Ok(true)
    } else if text.as_str() == "lower" {
        Ok(false)
    } else {
        Err(CallFault::Refused(Fault::BadArgument))
    }
}

#[tactic(auto, unfolding(xr_operations::specs::Moves::label_given))]
fn label_given(value: Option<&Value>) -> Result<bool, CallFault>
    ensures { (nodes : List Node) → Answers (λ b. b) result (of.label_given (option_map (λ v. meaning nodes v.now) value.entry)) }
{
    match value {
        None => Ok(true),
        Some(value) => label_called(as_text(value)?),
    }
}

/// What the arguments of `diff` say.
///
/// # Errors
/// `BadArgument` for arguments that fit no parameter, and where there is no `dim`; then `WrongKind` for a `dim` that is no text;
/// then the same of `label`, and `BadArgument` for one that is neither `"upper"` nor `"lower"`.
#[tactic(auto, unfolding(xr_operations::specs::Moves::diff_given))]
pub fn diff_given<'a>(alloc: Global, args: &'a Args) -> Result<Asked<'a>, CallFault>
    ensures { (nodes : List Node) → Answers asked result (of.diff_given (given nodes args.now)) }
{
    let values = bound(alloc, &["dim", "label"], args)?;
    let values = values.as_slice();
    let dim = as_text(required(argument(values, 0))?)?;
    let upper = label_given(option(values, 1))?;
    Ok(Asked { dim, upper })
}

// So many positions from one on.
#[tactic(auto, using(crate::proofs::Sources::run_on))]
fn run(alloc: Global, from: u64, count: u64) -> Result<Sources, AllocError>
    requires { from + count < 2 ^ 32 }
    ensures { IfOk result (λ ps. ps ≡ map Some (range_with_len from count)) }
{
    let mut out = Items::new(alloc);
    for i in 0..count {
        out.push(Some((from + i) as u32))?;
    }
    Ok(out)
}

// The positions whose labels are kept.
fn kept(alloc: Global, upper: bool, n: u64) -> Result<Sources, AllocError>
    requires { n < 2 ^ 31 }
    ensures { IfOk result (λ ps. ps ≡ map Some (of.labels_kept upper n)) }
{
    let count = n.saturating_sub(1);
    if upper {
        run(alloc, 1, count)
    } else {
        run(alloc, 0, count)
    }
}

fn step_to(alloc: Global, k: usize, upper: bool, n: u64) -> Result<Step, AllocError>
    requires { n < 2 ^ 31 }
    ensures { IfOk result (λ s. s ≡ step_to k upper n) }
{
    let from = kept(alloc, upper, n)?;
    Ok(Step::Take {
        axis: k,
        from,
        fill: None,
        drop: false,
    })
}

/// Each position but the first less the one before it.
pub fn neighbours(alloc: Global, node: NodeId, k: usize, n: u64) -> Result<Formula, AllocError>
    requires { n < 2 ^ 31 }
    ensures { IfOk result (λ f. f ≡ neighbours node k n) }
{
    let later = one_step(alloc, node, step_to(alloc, k, true, n)?)?;
    let earlier = one_step(alloc, node, step_to(alloc, k, false, n)?)?;
    Ok(Formula::Two(OpKind::Subtract, later, earlier))
}

/// Axes, and coordinates over them.
#[derive(Drop)]
pub struct Framed {
    pub axes: Items<Axis>,
    pub coords: Items<Coord>,
}

// The labels of an axis that are kept.
fn keeping(alloc: Global, upper: bool, axis: &Axis) -> Result<Items<Change>, AllocError>
    requires { axis.now.size < 2 ^ 31 }
    ensures { IfOk result (λ cs. cs ≡ of.keeping upper axis.now) }
{
    let name = axis.name.deep_copy(alloc)?;
    let labels = None;
    let from = kept(alloc, upper, axis.size)?;
    let mut changes = Items::new(alloc);
    changes.push(Change { name, labels, from })?;
    Ok(changes)
}

/// What lies along an axis, at the labels of it that are kept.
pub fn left_along(
    alloc: Global,
    upper: bool,
    axes: &Items<Axis>,
    coords: &Items<Coord>,
    k: usize,
) -> Result<Framed, NoMemory>
    requires axis { k < length axes.now }
    requires framed { IsFramed axes.now coords.now }
    ensures axes { IfOk result (λ f. f.axes ≡ axes_left upper axes.now k) }
    ensures coords { IfOk result (λ f. f.coords ≡ coords_left upper axes.now k coords.now) }
    ensures framed { IfOk result (λ f. IsFramed (axes_left upper axes.now k) (coords_left upper axes.now k coords.now)) }
{
    let axes = axes.as_slice();
    let changes = keeping(alloc, upper, &axes[k])?;
    let changes = changes.as_slice();
    let left = new_axes(alloc, changes, axes)?;
    let coords = changed_coords(alloc, changes, left.as_slice(), None, coords.as_slice())?;
    Ok(Framed { axes: left, coords })
}

// The differences along an axis.
fn differences(alloc: Global, on: &DataArray, k: usize, upper: bool) -> Result<Made, NoMemory>
    requires axis { k < length on.now.axes }
    requires framed { IsFramed on.now.axes on.now.coords }
    requires numbers { of_truths on.now.kind ≡ false }
    ensures { (nodes : List Node) → IsArrayIn nodes on.now → IfOk result (Makes nodes (of.array_differences upper k (array_in nodes on.now))) }
{
    let n = on.axes.as_slice()[k].size;
    let cells = neighbours(alloc, on.node, k, n)?;
    let framed = left_along(alloc, upper, &on.axes, &on.coords, k)?;
    let name = on.name.deep_copy(alloc)?;
    let attrs = without_fills(alloc, on.attrs.as_slice())?;
    Ok(Made {
        name,
        axes: framed.axes,
        kind: on.kind,
        masked: on.masked,
        attrs,
        coords: framed.coords,
        cells,
    })
}

/// The differences of neighbours along a dimension, with the labels of the later one, or with `label="lower"` of the earlier
/// one. What lies along the dimension is chosen with its labels, and attributes that name fill numbers are dropped.
///
/// # Errors
/// `WrongKind` for an array of chars; then `BadArgument` for arguments that fit no parameter, and where there is no `dim`;
/// then `WrongKind` for a `dim` that is no text; then the same of `label`, and `BadArgument` for one that is neither
/// `"upper"` nor `"lower"`; then `NoDimension`; then `WrongKind` for an array of truth values.
#[tactic(auto, using(xr_formulas::proofs::Answered::answered), unfolding(xr_operations::specs::Moves::diff_array, xr_types::specs::Results::unless))]
pub fn differed(alloc: Global, on: &DataArray, args: &Args) -> Result<Made, CallFault>
    requires { IsFramed on.now.axes on.now.coords }
    ensures { (nodes : List Node) → IsArrayIn nodes on.now → AnswersMade nodes result (of.diff_array (array_in nodes on.now) (given nodes args.now)) }
{
    if is_chars(on.kind) {
        return Err(CallFault::Refused(Fault::WrongKind));
    }
    let asked = diff_given(alloc, args)?;
    match position_of(on.axes.as_slice(), asked.dim) {
        None => Err(CallFault::Refused(Fault::NoDimension(asked.dim.deep_copy(alloc)?))),
        Some(k) => {
            if is_truths(on.kind) {
                return Err(CallFault::Refused(Fault::WrongKind));
            }
            let made = differences(alloc, on, k, asked.upper)?;
            Ok(made)
        }
    }
}
