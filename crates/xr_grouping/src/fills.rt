//! The fill of bins that are empty, and of windows with too few positions.
ghost use Rattle.std.specs.Prelude.{◌≡◌, ◌≤◌, ◌==◌, ◌++◌, List, length, option_map, IfOk, OnOk};
ghost use Rattle.std.specs.List.{position_or_len, list_any};
ghost use Rattle.std.specs.Str.{bytes_eq};
ghost use Rattle.xr_arrays.specs.declared.node.Node.{Node};
ghost use Rattle.xr_arrays.specs.FeedPositions.{listed};
ghost use Rattle.xr_groups.specs.Methods as methods;
ghost use Rattle.xr_groups.specs.declared.change.Least.TheVariants.{Empty};
ghost use Rattle.xr_operations.specs.Moves as moves;
ghost use Rattle.xr_types.specs.Names.{axis_names};
ghost use Rattle.xr_types.specs.Results.{Answers};
ghost use Rattle.xr_values.specs.Meaning.{given, meaning};
ghost use Rattle.xr_grouping.specs.Fills as fills;
ghost use Rattle.xr_grouping.specs.Mades.{fill_asked, is_empty};

use std::alloc::{AllocError, Global};
use xr_arguments::{bound, option};
use xr_arrays::{Feeds, Positions, Sources};
use xr_formulas::{Step, fits, literal_for};
use xr_groups::Change;
use xr_types::{Axis, CallFault, DType, Fault, Items, TextBytes};
use xr_values::{Args, Value};

// The cell that a fill is, for cells of this kind.
#[tactic(auto, using(xr_arguments::proofs::Variants::is_missing, xr_values::proofs::Meaning::meaning_out), unfolding(xr_operations::specs::Moves::fill_for))]
fn fill_for(kind: DType, value: &Value) -> Result<Option<i128>, CallFault>
    ensures { (nodes : List Node) → Answers (λ n. n) result (moves.fill_for kind (meaning nodes value.now)) }
{
    match value {
        Value::Missing => Ok(None),
        _ => {
            let number = literal_for(kind, value)?;
            Ok(Some(number))
        }
    }
}

#[tactic(auto, unfolding(xr_operations::specs::Moves::fill_called))]
pub fn fill_called(kind: DType, value: Option<&Value>) -> Result<Option<Option<i128>>, CallFault>
    ensures { (nodes : List Node) → Answers (λ n. n) result (moves.fill_called kind (option_map (λ v. meaning nodes v.now) value.entry)) }
{
    match value {
        None => Ok(None),
        Some(value) => {
            let fill = fill_for(kind, value)?;
            Ok(Some(fill))
        }
    }
}

// The argument that is the fill.
#[tactic(auto, unfolding(xr_groups::specs::Methods::fill_option, xr_defs::specs::Building::bound))]
pub fn fill_option<'a>(alloc: Global, args: &'a Args) -> Result<Option<&'a Value>, CallFault>
    ensures { (nodes : List Node) → Answers (λ v. option_map (λ x. meaning nodes x.now) v) result (methods.fill_option (given nodes args.now)) }
{
    let values = bound(alloc, &["fill_value"], args)?;
    let value = option(values.as_slice(), 0);
    Ok(value)
}

/// The fill that a call is given, for cells of this kind.
#[tactic(auto, unfolding(crate::specs::Mades::fill_asked))]
pub(crate) fn fill_given(
    alloc: Global,
    kind: DType,
    args: &Args,
) -> Result<Option<Option<i128>>, CallFault>
    ensures { (nodes : List Node) → Answers (λ f. f) result (fill_asked kind (given nodes args.now)) }
{
    let value = fill_option(alloc, args)?;
    let fill = fill_called(kind, value)?;
    Ok(fill)
}

#[tactic(auto, using(crate::proofs::Binned::range_empty))]
fn is_empty(positions: Positions<'_>) -> bool
    ensures { result ≡ (length (listed positions.entry) == 0) }
{
    match positions {
        Positions::Range { from, to } => to <= from,
        Positions::List(list) => list.len() == 0,
    }
}

// Whether some list has no position.
#[tactic(auto, using(crate::proofs::Binned::next_list, crate::proofs::Binned::last_list))]
fn has_empty(lists: &Feeds) -> bool
    ensures { result ≡ list_any (λ ps. is_empty ps) lists.now }
{
    for at in 0..lists.len() {
        if is_empty(lists.positions(at)) {
            return true;
        }
    }
    false
}

fn have_empty(changes: &[Change]) -> bool
    ensures { result ≡ list_any methods.has_empty changes.now }
{
    match changes {
        [] => false,
        [change, rest @ ..] => has_empty(&change.lists) || have_empty(rest),
    }
}

/// Refuses an empty bin where no fill is given.
#[tactic(auto, unfolding(xr_groups::specs::Methods::check_filled, xr_types::specs::Results::unless))]
pub fn check_filled(changes: &[Change], given: bool) -> Result<(), CallFault>
    ensures { Answers (λ u. u) result (methods.check_filled Empty changes.now given) }
{
    if given || !have_empty(changes) {
        Ok(())
    } else {
        Err(CallFault::Refused(Fault::WouldPromote))
    }
}

/// Refuses a fill that isn't in the range of the kind.
#[tactic(auto, unfolding(xr_groups::specs::Methods::check_given, xr_operations::specs::Moves::check_fill, xr_operations::specs::CellMethods::check_fits, xr_types::specs::Results::unless))]
pub fn check_given(kind: DType, fill: Option<Option<i128>>) -> Result<(), CallFault>
    ensures { Answers (λ u. u) result (methods.check_given kind fill) }
{
    match fill {
        None => Ok(()),
        Some(None) => Ok(()),
        Some(Some(number)) => {
            if fits(kind, number) {
                Ok(())
            } else {
                Err(CallFault::Refused(Fault::DoesNotFit))
            }
        }
    }
}

fn count(positions: Positions<'_>) -> u64
    ensures { result ≡ length (listed positions.entry) }
{
    match positions {
        Positions::Range { from, to } => to.saturating_sub(from),
        Positions::List(list) => list.len() as u64,
    }
}

fn is_short(positions: Positions<'_>, least: u64) -> bool
    ensures { result ≡ fills.is_short least (listed positions.entry) }
{
    count(positions) < least
}

fn shown(positions: Positions<'_>, least: u64, at: u32) -> Option<u32>
    ensures { result ≡ fills.shown least (listed positions.entry) at }
{
    if is_short(positions, least) {
        None
    } else {
        Some(at)
    }
}

// Each position of the lists that has so many.
#[tactic(auto, using(crate::proofs::Gaps::next_gap, crate::proofs::Gaps::last_gap))]
fn gaps(alloc: Global, lists: &Feeds, least: u64) -> Result<Sources, AllocError>
    ensures { IfOk result (λ s. s ≡ fills.gaps least 0 lists.now) }
{
    let count = lists.len();
    if count > u64::from(u32::MAX) {
        return Err(AllocError);
    }
    let mut out = Items::new(alloc);
    for at in 0..count {
        out.push(shown(lists.positions(at), least, at as u32))?;
    }
    Ok(out)
}

fn place(axes: &[Axis], name: &TextBytes) -> usize
    ensures place { result ≡ position_or_len (bytes_eq name.now) (axis_names axes.now) }
    ensures inside { result ≤ length axes.now }
{
    match axes {
        [] => 0,
        [axis, rest @ ..] => {
            if name.is(&axis.name) {
                0
            } else {
                place(rest, name) + 1
            }
        }
    }
}

/// Adds the fill along each dimension that is grouped.
pub(crate) fn push_fills(
    alloc: Global,
    steps: &mut Items<Step>,
    changes: &[Change],
    axes: &[Axis],
    fill: Option<i128>,
) -> Result<(), AllocError>
    ensures { OnOk result (steps.new ≡ steps.old ++ fills.filling changes.now (axis_names axes.now) fill) }
{
    match changes {
        [] => Ok(()),
        [change, rest @ ..] => {
            steps.push(Step::Take {
                axis: place(axes, &change.dimension),
                from: gaps(alloc, &change.lists, 1)?,
                fill,
                drop: false,
            })?;
            push_fills(alloc, steps, rest, axes, fill)
        }
    }
}

// Whether some list has fewer positions than so many.
#[tactic(auto, using(crate::proofs::Gaps::next_short, crate::proofs::Gaps::last_short))]
fn has_short(lists: &Feeds, least: u64) -> bool
    ensures { result ≡ list_any (λ ps. fills.is_short least ps) lists.now }
{
    for at in 0..lists.len() {
        if is_short(lists.positions(at), least) {
            return true;
        }
    }
    false
}

fn is_long(positions: Positions<'_>, most: u64) -> bool
    ensures { result ≡ fills.is_long most (listed positions.entry) }
{
    count(positions) > most
}

// Whether some list has more positions than so many.
#[tactic(auto, using(crate::proofs::Gaps::next_long, crate::proofs::Gaps::last_long))]
fn has_long(lists: &Feeds, most: u64) -> bool
    ensures { result ≡ list_any (λ ps. fills.is_long most ps) lists.now }
{
    for at in 0..lists.len() {
        if is_long(lists.positions(at), most) {
            return true;
        }
    }
    false
}

/// Whether some dimension has a list with more positions than `most`.
pub(crate) fn have_long(changes: &[Change], most: u64) -> bool
    ensures { result ≡ list_any (fills.has_long most) changes.now }
{
    match changes {
        [] => false,
        [change, rest @ ..] => has_long(&change.lists, most) || have_long(rest, most),
    }
}

// Adds the fill along an axis some of whose lists have fewer positions than so many.
fn push_gap(
    alloc: Global,
    steps: &mut Items<Step>,
    least: u64,
    axis: usize,
    lists: &Feeds,
    fill: Option<i128>,
) -> Result<(), AllocError>
    ensures { OnOk result (steps.new ≡ steps.old ++ fills.gap_filling least axis lists.now fill) }
{
    if has_short(lists, least) {
        let from = gaps(alloc, lists, least)?;
        steps.push(Step::Take {
            axis,
            from,
            fill,
            drop: false,
        })
    } else {
        Ok(())
    }
}

/// Adds the fill in the place of lists with fewer positions than `least`, along each dimension that has such lists.
pub(crate) fn push_short_fills(
    alloc: Global,
    steps: &mut Items<Step>,
    least: u64,
    changes: &[Change],
    axes: &[Axis],
    fill: Option<i128>,
) -> Result<(), AllocError>
    ensures { OnOk result (steps.new ≡ steps.old ++ fills.short_filling least changes.now (axis_names axes.now) fill) }
{
    match changes {
        [] => Ok(()),
        [change, rest @ ..] => {
            let axis = place(axes, &change.dimension);
            push_gap(alloc, steps, least, axis, &change.lists, fill)?;
            push_short_fills(alloc, steps, least, rest, axes, fill)
        }
    }
}
