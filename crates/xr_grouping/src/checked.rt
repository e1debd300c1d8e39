//! How a grouping groups the dimensions of an array or a dataset, once a new name is free.
ghost use Rattle.std.specs.Prelude.{◌≡◌, ◌≤◌, ℕ, List, IfOk, true};
ghost use Rattle.std.specs.List.{AllByRecursion};
ghost use Rattle.xr_types.specs.Names.{among, axis_names};
ghost use Rattle.xr_types.specs.Results.{Answers};
ghost use Rattle.xr_defs.specs.WellFormed.{names_of, IsDimension};
ghost use Rattle.xr_groups.specs.Groupings as of;
ghost use Rattle.xr_defs.specs.declared.grouping.Grouping.TheVariants.{Bins, Blocks, Coordinate, Dates, Windows};
ghost use Rattle.xr_parts.specs.Frames.{IsFrame};
ghost use Rattle.xr_grouping.specs.Changes.{IsChange};
ghost use Rattle.xr_defs.specs.declared.value.Coord.{Coord};

use crate::blocks::block_changes;
use crate::changes::{bin_change, date_change, one, window_change};
use crate::fields::field_name;
use crate::keyed::coordinate_change;
use std::alloc::Global;
use xr_defs::{BlockSize, Coord, Grouping};
use xr_groups::Change;
use xr_times::{Field, Freq};
use xr_types::{Axis, CallFault, Fault, FoldKind, Items, TextBytes};

fn is_among(names: &[TextBytes], name: &str) -> bool
    ensures { result ≡ among names.now name.now }
{
    match names {
        [] => false,
        [first, rest @ ..] => name == first.as_str() || is_among(rest, name),
    }
}

fn has_axis(axes: &[Axis], name: &str) -> bool
    ensures { result ≡ among (axis_names axes.now) name.now }
{
    match axes {
        [] => false,
        [axis, rest @ ..] => name == axis.name.as_str() || has_axis(rest, name),
    }
}

fn has_coord(coords: &[Coord], name: &str) -> bool
    ensures { result ≡ among (names_of coords.now) name.now }
{
    match coords {
        [] => false,
        [coord, rest @ ..] => name == coord.name.as_str() || has_coord(rest, name),
    }
}

fn is_free(name: &str, axes: &[Axis], coords: &[Coord], others: &[TextBytes]) -> bool
    ensures { result ≡ of.is_free name.now axes.now coords.now others.now }
{
    !(has_axis(axes, name) || has_coord(coords, name) || is_among(others, name))
}

// The name of the groups is the dimension's own, or a free one.
#[tactic(auto, unfolding(xr_groups::specs::Groupings::check_name, xr_types::specs::Results::unless))]
fn check_name(
    axes: &[Axis],
    coords: &[Coord],
    others: &[TextBytes],
    dimension: &TextBytes,
    field: Field,
) -> Result<(), CallFault>
    ensures { Answers (λ u. u) result (of.check_name axes.now coords.now others.now (Dates dimension.now field)) }
{
    let name = field_name(field);
    if name == dimension.as_str() || is_free(name, axes, coords, others) {
        Ok(())
    } else {
        Err(CallFault::Refused(Fault::DuplicateName))
    }
}

/// How a field of the dates of a dimension groups it, beside data variables of these names.
#[tactic(auto, unfolding(xr_groups::specs::Groupings::grouped_changes, xr_groups::specs::Groupings::changes_of))]
pub(crate) fn dated_changes(
    alloc: Global,
    dimension: &TextBytes,
    field: Field,
    axes: &[Axis],
    coords: &[Coord],
    others: &[TextBytes],
) -> Result<Items<Change>, CallFault>
    requires { AllByRecursion IsDimension axes.now }
    ensures { Answers (λ cs. cs) result (of.grouped_changes (Dates dimension.now field) axes.now coords.now others.now) }
{
    let change = date_change(alloc, dimension, field, axes)?;
    check_name(axes, coords, others, dimension, field)?;
    Ok(one(alloc, change)?)
}

/// How the labels of an index, or the values of a coordinate, group a dimension.
#[tactic(auto, unfolding(xr_groups::specs::Groupings::grouped_changes, xr_groups::specs::Groupings::changes_of, xr_groups::specs::Groupings::check_name))]
fn keyed_changes(
    alloc: Global,
    name: &TextBytes,
    axes: &[Axis],
    coords: &[Coord],
) -> Result<Items<Change>, CallFault>
    ensures { (others : List (List ℕ)) → Answers (λ cs. cs) result (of.grouped_changes (Coordinate name.now) axes.now coords.now others) }
{
    let change = coordinate_change(alloc, name, axes, coords)?;
    Ok(one(alloc, change)?)
}

/// How bins of the times of a dimension group it.
#[tactic(auto, unfolding(xr_groups::specs::Groupings::grouped_changes, xr_groups::specs::Groupings::changes_of, xr_groups::specs::Groupings::check_name))]
pub(crate) fn binned_changes(
    alloc: Global,
    dimension: &TextBytes,
    freq: Freq,
    axes: &[Axis],
) -> Result<Items<Change>, CallFault>
    requires { AllByRecursion IsDimension axes.now }
    ensures { (coords : List Coord) (others : List (List ℕ)) → Answers (λ cs. cs) result (of.grouped_changes (Bins dimension.now freq) axes.now coords others) }
{
    let change = bin_change(alloc, dimension, freq, axes)?;
    Ok(one(alloc, change)?)
}

/// How windows along a dimension, which need so many present cells, group it.
#[tactic(auto, unfolding(xr_groups::specs::Groupings::grouped_changes, xr_groups::specs::Groupings::changes_of, xr_groups::specs::Groupings::check_name, xr_types::specs::Results::unless))]
pub(crate) fn windowed_changes(
    alloc: Global,
    dimension: &TextBytes,
    width: u64,
    center: bool,
    least: u64,
    axes: &[Axis],
) -> Result<Items<Change>, CallFault>
    ensures changes { (coords : List Coord) (others : List (List ℕ)) → Answers (λ cs. cs) result (of.grouped_changes (Windows dimension.now width center least) axes.now coords others) }
    ensures some { IfOk result (λ cs. 1 ≤ least) }
{
    if least < 1 {
        return Err(CallFault::Refused(Fault::BadArgument));
    }
    let change = window_change(alloc, dimension, width, center, axes)?;
    Ok(one(alloc, change)?)
}

// How blocks along dimensions group them.
#[tactic(auto, unfolding(xr_groups::specs::Groupings::grouped_changes, xr_groups::specs::Groupings::changes_of, xr_groups::specs::Groupings::check_name))]
fn blocked_changes(
    alloc: Global,
    sizes: &[BlockSize],
    trim: bool,
    how: Option<FoldKind>,
    axes: &[Axis],
) -> Result<Items<Change>, CallFault>
    requires { AllByRecursion IsDimension axes.now }
    ensures { (coords : List Coord) (others : List (List ℕ)) → Answers (λ cs. cs) result (of.grouped_changes (Blocks sizes.now trim how) axes.now coords others) }
{
    let changes = block_changes(alloc, sizes, trim, how, axes)?;
    Ok(changes)
}

// How a grouping groups dimensions.
fn changes_by(
    alloc: Global,
    grouping: &Grouping,
    axes: &[Axis],
    coords: &[Coord],
    others: &[TextBytes],
) -> Result<Items<Change>, CallFault>
    requires { AllByRecursion IsDimension axes.now }
    ensures { Answers (λ cs. cs) result (of.grouped_changes grouping.now axes.now coords.now others.now) }
{
    match grouping {
        Grouping::Dates(dimension, field) => {
            dated_changes(alloc, dimension, *field, axes, coords, others)
        }
        Grouping::Bins(dimension, freq) => binned_changes(alloc, dimension, *freq, axes),
        Grouping::Windows {
            dimension,
            width,
            center,
            least,
        } => windowed_changes(alloc, dimension, *width, *center, *least, axes),
        Grouping::Coordinate(name) => keyed_changes(alloc, name, axes, coords),
        Grouping::Blocks {
            sizes,
            trim,
            labels,
        } => blocked_changes(alloc, sizes.as_slice(), *trim, *labels, axes),
    }
}

/// How a grouping groups the positions of dimensions, beside data variables of these names.
///
/// # Errors
/// `NoDimension`, `NoVariable`, `NotTime`, and what refuses the grouping: `BadArgument`, `WrongKind`, `NotMonotonic`, `TooLarge`,
/// `NotMultiple`, `WouldPromote`, `LabelKind`, and `DuplicateName` where another dimension, a coordinate or a data variable has the
/// name of the groups.
pub fn grouped_changes(
    alloc: Global,
    grouping: &Grouping,
    axes: &[Axis],
    coords: &[Coord],
    others: &[TextBytes],
) -> Result<Items<Change>, CallFault>
    requires { IsFrame axes.now coords.now }
    ensures answers { Answers (λ cs. cs) result (of.grouped_changes grouping.now axes.now coords.now others.now) }
    ensures changes { IfOk result (AllByRecursion (IsChange axes.now coords.now others.now)) }
{
    let changes = changes_by(alloc, grouping, axes, coords, others)?;
    Ok(changes)
}
