//! Blocks of positions along dimensions.
ghost use Rattle.std.specs.Prelude.{◌≡◌, ◌≤◌, ◌<◌, ◌*◌, ◌^◌, ◌++◌, true, is_some, option_map, option_and_then, map, ⊤, MatchOption, IfOk, IfSome, OnOk};
ghost use Rattle.std.specs.List.{AllByRecursion, range_with_len};
ghost use Rattle.xr_arrays.specs.FeedPositions.{block};
ghost use Rattle.xr_defs.specs.Selecting.{axis_called};
ghost use Rattle.xr_defs.specs.Values.{label_count, no_axis};
ghost use Rattle.xr_defs.specs.WellFormed.{IsDimension};
ghost use Rattle.xr_groups.specs.Blocks as blocks;
ghost use Rattle.xr_groups.specs.Groupings as of;
ghost use Rattle.xr_types.specs.Results.{Answers, all_of};
ghost use Rattle.xr_grouping.specs.Sizes.{axis_or_none, HasIndex};

use crate::axes::axis_found;
use crate::changes::copy_attrs;
use crate::labels::block_list;
use std::alloc::{AllocError, Global};
use xr_arrays::Feeds;
use xr_defs::BlockSize;
use xr_groups::Change;
use xr_types::{Axis, CallFault, DeepCopy, Fault, FoldKind, Items, LabelList, Labels, TextBytes};

fn is_func(how: Option<FoldKind>) -> bool
    ensures { result ≡ of.is_func how }
{
    match how {
        None => true,
        Some(FoldKind::Min) | Some(FoldKind::Max) | Some(FoldKind::Sum) => true,
        Some(FoldKind::Prod) | Some(FoldKind::First) | Some(FoldKind::Last) => false,
        Some(FoldKind::ArgMin) | Some(FoldKind::ArgMax) | Some(FoldKind::Count) => false,
        Some(FoldKind::Any) | Some(FoldKind::All) => false,
    }
}

fn is_sum(how: Option<FoldKind>) -> bool
    ensures { result ≡ of.is_sum how }
{
    match how {
        Some(FoldKind::Sum) => true,
        None => false,
        Some(FoldKind::Min) | Some(FoldKind::Max) | Some(FoldKind::Prod) => false,
        Some(FoldKind::First) | Some(FoldKind::Last) | Some(FoldKind::Count) => false,
        Some(FoldKind::ArgMin) | Some(FoldKind::ArgMax) => false,
        Some(FoldKind::Any) | Some(FoldKind::All) => false,
    }
}

fn have_size(sizes: &[BlockSize]) -> bool
    ensures { result ≡ of.have_size sizes.now }
{
    match sizes {
        [] => true,
        [block, rest @ ..] => block.size > 0 && have_size(rest),
    }
}

#[tactic(auto, unfolding(xr_groups::specs::Groupings::check_there))]
fn check_there(alloc: Global, axes: &[Axis], sizes: &[BlockSize]) -> Result<(), CallFault>
    ensures { Answers (λ u. u) result (all_of (of.check_there axes.now) sizes.now) }
{
    match sizes {
        [] => Ok(()),
        [block, rest @ ..] => {
            axis_found(alloc, &block.dimension, axes)?;
            check_there(alloc, axes, rest)
        }
    }
}

#[tactic(auto, using(xr_parts::proofs::Axes::called_cons))]
fn called<'a>(axes: &'a [Axis], name: &TextBytes) -> Option<&'a Axis>
    ensures axis { axis_called axes.now name.now ≡ axis_or_none (option_map (λ x. x.now) result) }
    ensures formed { AllByRecursion IsDimension axes.now → IfSome result (λ x. IsDimension x.now) }
{
    match axes {
        [] => None,
        [axis, rest @ ..] => {
            if axis.name.is(name) {
                return Some(axis);
            }
            called(rest, name)
        }
    }
}

fn size_called(axes: &[Axis], name: &TextBytes) -> u64
    ensures { result ≡ (axis_called axes.now name.now).size }
{
    match called(axes, name) {
        None => 0,
        Some(axis) => axis.size,
    }
}

fn has_labels(axes: &[Axis], name: &TextBytes) -> bool
    ensures { result ≡ is_some (axis_called axes.now name.now).labels }
{
    match called(axes, name) {
        None => false,
        Some(axis) => axis.labels.is_some(),
    }
}

fn are_numbers(list: &LabelList) -> bool
    ensures { result ≡ of.are_numbers list.now }
{
    match list {
        LabelList::Numbers(_, _) => true,
        LabelList::Times(_, _) => false,
        LabelList::Texts(_) => false,
    }
}

fn axis_has_sum(axis: &Axis) -> bool
    ensures { result ≡ of.has_sum axis.now }
{
    match &axis.labels {
        None => true,
        Some(labels) => are_numbers(&labels.list),
    }
}

fn has_sum(axes: &[Axis], name: &TextBytes) -> bool
    ensures { result ≡ of.has_sum (axis_called axes.now name.now) }
{
    match called(axes, name) {
        None => true,
        Some(axis) => axis_has_sum(axis),
    }
}

#[tactic(auto, unfolding(xr_groups::specs::Groupings::check_multiple, xr_types::specs::Results::unless))]
fn check_multiple(trim: bool, axes: &[Axis], sizes: &[BlockSize]) -> Result<(), CallFault>
    requires { of.have_size sizes.now ≡ true }
    ensures { Answers (λ u. u) result (all_of (of.check_multiple trim axes.now) sizes.now) }
{
    match sizes {
        [] => Ok(()),
        [block, rest @ ..] => {
            if !(trim || size_called(axes, &block.dimension) % block.size == 0) {
                return Err(CallFault::Refused(Fault::NotMultiple));
            }
            check_multiple(trim, axes, rest)
        }
    }
}

#[tactic(auto, unfolding(xr_groups::specs::Groupings::check_labels, xr_types::specs::Results::unless))]
fn check_labels(how: Option<FoldKind>, axes: &[Axis], sizes: &[BlockSize]) -> Result<(), CallFault>
    ensures { Answers (λ u. u) result (all_of (of.check_labels how axes.now) sizes.now) }
{
    match sizes {
        [] => Ok(()),
        [block, rest @ ..] => {
            if !(!has_labels(axes, &block.dimension) || how.is_some()) {
                return Err(CallFault::Refused(Fault::WouldPromote));
            }
            check_labels(how, axes, rest)
        }
    }
}

#[tactic(auto, unfolding(xr_groups::specs::Groupings::check_sums, xr_types::specs::Results::unless))]
fn check_sums(how: Option<FoldKind>, axes: &[Axis], sizes: &[BlockSize]) -> Result<(), CallFault>
    ensures { Answers (λ u. u) result (all_of (of.check_sums how axes.now) sizes.now) }
{
    match sizes {
        [] => Ok(()),
        [block, rest @ ..] => {
            if !(!is_sum(how) || has_sum(axes, &block.dimension)) {
                return Err(CallFault::Refused(Fault::LabelKind));
            }
            check_sums(how, axes, rest)
        }
    }
}

fn block_labels(
    alloc: Global,
    how: Option<FoldKind>,
    count: u64,
    width: u64,
    axis: &Axis,
) -> Result<Option<Labels>, AllocError>
    requires func { of.is_func how ≡ true }
    requires some { 0 < width }
    requires small { count * width < 2 ^ 64 }
    requires index { MatchOption axis.now.labels ⊤ (λ l. count * width ≤ label_count l.list) }
    ensures { IfOk result (λ o. o ≡ option_and_then (blocks.block_labels how (map (block width) (range_with_len 0 count))) axis.now.labels) }
{
    match &axis.labels {
        None => Ok(None),
        Some(labels) => match how {
            None => Ok(None),
            Some(fold) => {
                let list = block_list(alloc, fold, &labels.list, count, width)?;
                let attrs = copy_attrs(alloc, labels.attrs.as_slice())?;
                Ok(Some(Labels { list, attrs }))
            }
        },
    }
}

// A dimension in blocks.
#[tactic(auto, using(group_window::proofs::Fits::blocks_end, crate::proofs::BlockFacts::index_long))]
fn change_of(
    alloc: Global,
    how: Option<FoldKind>,
    size: &BlockSize,
    axis: &Axis,
) -> Result<Change, AllocError>
    requires func { of.is_func how ≡ true }
    requires some { 0 < size.now.size }
    requires axis { HasIndex axis.now }
    ensures { IfOk result (λ c. c ≡ record { dimension = size.now.dimension; lists = blocks.blocks axis.now.size size.now.size; axis = blocks.block_axis how size.now.size axis.now }) }
{
    let width = size.size;
    let count = axis.size / width;
    let lists = Feeds::blocks(count, width);
    let labels = block_labels(alloc, how, count, width, axis)?;
    let name = axis.name.deep_copy(alloc)?;
    Ok(Change {
        dimension: size.dimension.deep_copy(alloc)?,
        lists,
        axis: Axis {
            name,
            size: count,
            labels,
        },
    })
}

// No axis.
fn no_axis(alloc: Global) -> Result<Axis, AllocError>
    ensures { IfOk result (λ x. x ≡ no_axis) }
{
    Ok(Axis {
        name: TextBytes::from_str(alloc, "")?,
        size: 0,
        labels: None,
    })
}

#[tactic(auto, using(crate::proofs::BlockFacts::has_index))]
fn block_change(
    alloc: Global,
    how: Option<FoldKind>,
    axes: &[Axis],
    size: &BlockSize,
) -> Result<Change, AllocError>
    requires func { of.is_func how ≡ true }
    requires some { 0 < size.now.size }
    requires axes { AllByRecursion IsDimension axes.now }
    ensures { IfOk result (λ c. c ≡ of.block_change how axes.now size.now) }
{
    match called(axes, &size.dimension) {
        Some(axis) => change_of(alloc, how, size, axis),
        None => {
            let axis = no_axis(alloc)?;
            change_of(alloc, how, size, &axis)
        }
    }
}

fn push_changes(
    alloc: Global,
    out: &mut Items<Change>,
    how: Option<FoldKind>,
    axes: &[Axis],
    sizes: &[BlockSize],
) -> Result<(), AllocError>
    requires func { of.is_func how ≡ true }
    requires some { of.have_size sizes.now ≡ true }
    requires axes { AllByRecursion IsDimension axes.now }
    ensures { OnOk result (out.new ≡ out.old ++ map (of.block_change how axes.now) sizes.now) }
{
    match sizes {
        [] => Ok(()),
        [size, rest @ ..] => {
            out.push(block_change(alloc, how, axes, size)?)?;
            push_changes(alloc, out, how, axes, rest)
        }
    }
}

/// Blocks of these sizes along dimensions.
///
/// # Errors
/// `BadArgument` for blocks of no size and for a function of labels that there isn't, then `NoDimension`, `NotMultiple`, `WouldPromote`
/// where labels have no function, `LabelKind` where it is none for them.
#[tactic(auto, unfolding(xr_groups::specs::Groupings::block_changes, xr_types::specs::Results::unless))]
pub(crate) fn block_changes(
    alloc: Global,
    sizes: &[BlockSize],
    trim: bool,
    how: Option<FoldKind>,
    axes: &[Axis],
) -> Result<Items<Change>, CallFault>
    requires { AllByRecursion IsDimension axes.now }
    ensures { Answers (λ cs. cs) result (of.block_changes sizes.now trim how axes.now) }
{
    if !(is_func(how) && have_size(sizes)) {
        return Err(CallFault::Refused(Fault::BadArgument));
    }
    check_there(alloc, axes, sizes)?;
    check_multiple(trim, axes, sizes)?;
    check_labels(how, axes, sizes)?;
    check_sums(how, axes, sizes)?;
    let mut changes = Items::new(alloc);
    push_changes(alloc, &mut changes, how, axes, sizes)?;
    Ok(changes)
}
