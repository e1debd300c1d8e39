//! What a method of a grouped value depends on by how it is grouped.
ghost use Rattle.std.specs.Prelude.{◌≡◌, List, option_map, IfOk};
ghost use Rattle.xr_arrays.specs.declared.node.Node.{Node};
ghost use Rattle.xr_groups.specs.Listed as lists;
ghost use Rattle.xr_groups.specs.Methods as methods;
ghost use Rattle.xr_types.specs.Results.{Answers, unless};
ghost use Rattle.xr_types.specs.declared.fault.Fault.TheVariants.{BadArgument};
ghost use Rattle.xr_values.specs.Meaning.{given, meaning};

use std::alloc::{AllocError, Global};
use xr_arguments::nothing_given;
use xr_defs::{Coord, Grouping};
use xr_grouping::{coords_left, fill_option, is_changed, of_groups, of_windows};
use xr_groups::{Change, Least};
use xr_types::{CallFault, Fault, FoldKind, Items, Name, TextBytes};
use xr_values::{Args, Value, copy_coords};

/// Whether some of these dimensions are grouped.
pub(crate) fn is_grouped(changes: &[Change], dims: &[Name]) -> bool
    ensures { result ≡ lists.is_grouped changes.now dims.now }
{
    match dims {
        [] => false,
        [dim, rest @ ..] => is_changed(changes, dim) || is_grouped(changes, rest),
    }
}

/// The dimension that stands in a dimension's place.
pub(crate) fn dim_by<'a>(changes: &'a [Change], dim: &'a TextBytes) -> &'a TextBytes
    ensures { result.now ≡ lists.dim_by changes.now dim.now }
{
    match changes {
        [] => dim,
        [change, rest @ ..] => {
            if dim.is(&change.dimension) {
                &change.axis.name
            } else {
                dim_by(rest, dim)
            }
        }
    }
}

/// Which lists are too few.
pub(crate) fn least_of(grouping: &Grouping) -> Least
    ensures { result ≡ methods.least_of grouping.now }
{
    match grouping {
        Grouping::Windows { least, .. } => Least::Fewer(*least),
        Grouping::Bins(_, _) => Least::Empty,
        Grouping::Dates(_, _) | Grouping::Coordinate(_) => Least::Never,
        Grouping::Blocks { .. } => Least::Never,
    }
}

/// Whether coordinates along a grouped dimension stay.
pub(crate) fn keeps_coords(grouping: &Grouping) -> bool
    ensures { result ≡ methods.keeps_coords grouping.now }
{
    match grouping {
        Grouping::Windows { .. } => true,
        Grouping::Bins(_, _) | Grouping::Dates(_, _) | Grouping::Coordinate(_) => false,
        Grouping::Blocks { .. } => false,
    }
}

fn of_blocks(fold: FoldKind) -> bool
    ensures { result ≡ methods.of_blocks fold }
{
    match fold {
        FoldKind::Sum | FoldKind::Prod | FoldKind::Min | FoldKind::Max | FoldKind::Count => true,
        FoldKind::Any | FoldKind::All => true,
        FoldKind::First | FoldKind::Last | FoldKind::ArgMin | FoldKind::ArgMax => false,
    }
}

fn has_method(grouping: &Grouping, fold: FoldKind) -> bool
    ensures { result ≡ methods.has_method grouping.now fold }
{
    match grouping {
        Grouping::Windows { .. } => of_windows(fold),
        Grouping::Bins(_, _) | Grouping::Dates(_, _) | Grouping::Coordinate(_) => of_groups(fold),
        Grouping::Blocks { .. } => of_blocks(fold),
    }
}

/// Refuses a method that the grouping doesn't have.
#[tactic(auto, unfolding(xr_types::specs::Results::unless))]
pub(crate) fn check_method(grouping: &Grouping, fold: FoldKind) -> Result<(), CallFault>
    ensures { Answers (λ u. u) result (unless (methods.has_method grouping.now fold) BadArgument) }
{
    if has_method(grouping, fold) {
        Ok(())
    } else {
        Err(CallFault::Refused(Fault::BadArgument))
    }
}

// No argument is taken.
#[tactic(auto, unfolding(xr_groups::specs::Methods::no_fill))]
fn no_fill(args: &Args) -> Result<Option<&Value>, CallFault>
    ensures { (nodes : List Node) → Answers (λ v. option_map (λ x. meaning nodes x.now) v) result (methods.no_fill (given nodes args.now)) }
{
    nothing_given(args)?;
    Ok(None)
}

/// The fill that a call is given, where it takes one.
#[tactic(auto, unfolding(xr_groups::specs::Methods::fill_given))]
pub(crate) fn fill_given<'a>(
    alloc: Global,
    least: Least,
    args: &'a Args,
) -> Result<Option<&'a Value>, CallFault>
    ensures { (nodes : List Node) → Answers (λ v. option_map (λ x. meaning nodes x.now) v) result (methods.fill_given least (given nodes args.now)) }
{
    match least {
        Least::Never => no_fill(args),
        Least::Empty | Least::Fewer(_) => fill_option(alloc, args),
    }
}

/// Refuses lists that are too few where no fill is given.
#[tactic(auto, unfolding(xr_groups::specs::Methods::check_filled, xr_types::specs::Results::unless))]
pub(crate) fn check_filled(least: Least, changes: &[Change], given: bool) -> Result<(), CallFault>
    ensures { Answers (λ u. u) result (methods.check_filled least changes.now given) }
{
    match least {
        Least::Never => Ok(()),
        Least::Empty => xr_grouping::check_filled(changes, given),
        Least::Fewer(most) => {
            if given || most <= 1 {
                Ok(())
            } else {
                Err(CallFault::Refused(Fault::WouldPromote))
            }
        }
    }
}

/// The coordinates that stay.
pub(crate) fn coords_by(
    alloc: Global,
    keeps: bool,
    changes: &[Change],
    coords: &[Coord],
) -> Result<Items<Coord>, AllocError>
    ensures { IfOk result (λ cs. cs ≡ lists.coords_by keeps changes.now coords.now) }
{
    if keeps {
        copy_coords(alloc, coords)
    } else {
        coords_left(alloc, changes, coords)
    }
}
