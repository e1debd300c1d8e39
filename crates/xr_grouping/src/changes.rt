//! How a grouping groups the positions of dimensions.
ghost use Rattle.std.specs.Prelude.{◌≡◌, ◌<◌, [], ◌∷◌, length, map, All, IfOk, Ok, true};
ghost use Rattle.std.specs.List.{AllByRecursion};
ghost use Rattle.xr_times.specs.Times.{IsTime};
ghost use Rattle.xr_times.specs.Bins.{IsFreq};
ghost use Rattle.xr_defs.specs.WellFormed.{IsDimension};
ghost use Rattle.xr_types.specs.Results.{Answers};
ghost use Rattle.xr_types.specs.declared.kind.DType.TheVariants as kinds;
ghost use Rattle.xr_groups.specs.Groups as groups;
ghost use Rattle.xr_groups.specs.Groupings as of;
ghost use Rattle.xr_grouping.specs.Found.{bins_made, index_of};

use crate::axes::{TimeIndex, axis_found, times_along};
use crate::fields::field_name;
use crate::keys::{field_keys, integers, present, signed};
use cf_time::bins;
use group_window::{bin_lists, number_groups, rolling, text_groups};
use std::alloc::{AllocError, Global};
use xr_groups::Change;
use xr_times::{BinList, Field, Freq};
use xr_types::{
    Attr, Axis, Calendar, CallFault, DType, DeepCopy, Fault, Items, LabelList, Labels, Name,
    Shared, TextBytes, TimeCoding, copy_all,
};

/// An axis with labels.
fn labelled(name: Name, list: LabelList, size: u64, attrs: Items<Attr>) -> Axis
    ensures { result ≡ of.labelled_axis name list size attrs }
{
    Axis {
        name,
        size,
        labels: Some(Labels { list, attrs }),
    }
}

/// Groups by whole numbers.
pub(crate) fn number_change(
    alloc: Global,
    dimension: &TextBytes,
    name: Name,
    kind: DType,
    attrs: Items<Attr>,
    keys: &[Option<i128>],
) -> Result<Change, AllocError>
    ensures { IfOk result (λ c. c ≡ of.number_groups dimension.now name kind attrs keys.now) }
{
    let groups = number_groups(alloc, keys)?;
    let held = groups.keys.as_slice();
    let size = held.len() as u64;
    let list = LabelList::Numbers(kind, integers(alloc, held)?);
    Ok(Change {
        dimension: dimension.deep_copy(alloc)?,
        lists: groups.lists,
        axis: labelled(name, list, size, attrs),
    })
}

/// Groups by times.
pub(crate) fn time_change(
    alloc: Global,
    dimension: &TextBytes,
    name: Name,
    coding: &TimeCoding,
    attrs: Items<Attr>,
    times: &[i64],
) -> Result<Change, AllocError>
    ensures { IfOk result (λ c. c ≡ of.time_groups dimension.now name coding.now attrs (groups.each_key times.now)) }
{
    let keys = present(alloc, times)?;
    let groups = number_groups(alloc, &keys)?;
    let held = groups.keys.as_slice();
    let size = held.len() as u64;
    let starts = Shared::of(alloc, signed(alloc, held)?)?;
    let list = LabelList::Times(coding.deep_copy(alloc)?, starts);
    Ok(Change {
        dimension: dimension.deep_copy(alloc)?,
        lists: groups.lists,
        axis: labelled(name, list, size, attrs),
    })
}

/// Groups by texts.
pub(crate) fn text_change(
    alloc: Global,
    dimension: &TextBytes,
    name: Name,
    attrs: Items<Attr>,
    texts: &[TextBytes],
) -> Result<Change, AllocError>
    ensures { IfOk result (λ c. c ≡ of.text_groups dimension.now name attrs (groups.each_key texts.now)) }
{
    let groups = text_groups(alloc, texts)?;
    let size = groups.keys.as_slice().len() as u64;
    let list = LabelList::Texts(Shared::of(alloc, groups.keys)?);
    Ok(Change {
        dimension: dimension.deep_copy(alloc)?,
        lists: groups.lists,
        axis: labelled(name, list, size, attrs),
    })
}

fn is_weekday(field: Field) -> bool
    ensures { result ≡ of.is_weekday field }
{
    match field {
        Field::Year | Field::Month | Field::Day | Field::DayOfYear => false,
        Field::Hour | Field::Minute | Field::Second => false,
        Field::DayOfWeek => true,
    }
}

// Only civil dates have weeks.
fn has_field(calendar: Calendar, field: Field) -> bool
    ensures { result ≡ of.has_field calendar field }
{
    match calendar {
        Calendar::Civil => true,
        Calendar::NoLeap | Calendar::Days360 => !is_weekday(field),
    }
}

// Groups by a field of the dates.
#[tactic(auto, unfolding(xr_groups::specs::Groupings::date_change, xr_types::specs::Results::unless))]
pub(crate) fn date_change(
    alloc: Global,
    dimension: &TextBytes,
    field: Field,
    axes: &[Axis],
) -> Result<Change, CallFault>
    requires { AllByRecursion IsDimension axes.now }
    ensures { Answers (λ c. c) result (of.date_change dimension.now field axes.now) }
{
    let axis = axis_found(alloc, dimension, axes)?;
    let index = times_along(axis)?;
    let calendar = index.coding.units.calendar;
    if !has_field(calendar, field) {
        return Err(CallFault::Refused(Fault::BadArgument));
    }
    let keys = field_keys(alloc, index.times, field, calendar)?;
    let name = TextBytes::from_str(alloc, field_name(field))?;
    let change = number_change(
        alloc,
        dimension,
        name,
        DType::Int64,
        Items::new(alloc),
        &keys,
    )?;
    Ok(change)
}

// Bins of a dimension's times.
fn bins_made(
    alloc: Global,
    dimension: &TextBytes,
    index: TimeIndex<'_>,
    list: BinList,
) -> Result<Change, AllocError>
    ensures { IfOk result (λ c. c ≡ bins_made dimension.now (index_of index.entry) list) }
{
    let size = list.starts.as_slice().len() as u64;
    let lists = bin_lists(alloc, size, list.bin.as_slice())?;
    let times = LabelList::Times(
        index.coding.deep_copy(alloc)?,
        Shared::of(alloc, list.starts)?,
    );
    let attrs = copy_attrs(alloc, index.attrs)?;
    Ok(Change {
        dimension: dimension.deep_copy(alloc)?,
        lists,
        axis: labelled(dimension.deep_copy(alloc)?, times, size, attrs),
    })
}

/// A copy of attributes.
pub(crate) fn copy_attrs(alloc: Global, attrs: &[Attr]) -> Result<Items<Attr>, AllocError>
    ensures { IfOk result (λ xs. xs ≡ attrs.now) }
{
    copy_all(alloc, attrs)
}

// The bins of times.
#[tactic(auto, unfolding(xr_groups::specs::Groupings::bins_along))]
fn bins_along(
    alloc: Global,
    dimension: &TextBytes,
    freq: Freq,
    index: TimeIndex<'_>,
) -> Result<Change, CallFault>
    requires times { All (IsTime index.coding.now.units.calendar) index.times.now }
    requires freq { IsFreq freq }
    ensures { Answers (λ c. c) result (of.bins_along dimension.now freq (index_of index.entry)) }
{
    let list = bins(alloc, index.times, freq, index.coding.units.calendar)?;
    let change = bins_made(alloc, dimension, index, list)?;
    Ok(change)
}

fn is_freq(freq: Freq) -> bool
    ensures is { result ≡ of.is_freq freq }
    ensures freq { result ≡ true → IsFreq freq }
{
    match freq {
        Freq::Seconds(width) => width > 0,
        Freq::Months | Freq::Years => true,
    }
}

#[tactic(auto, unfolding(xr_groups::specs::Groupings::bin_change, xr_types::specs::Results::unless))]
pub(crate) fn bin_change(
    alloc: Global,
    dimension: &TextBytes,
    freq: Freq,
    axes: &[Axis],
) -> Result<Change, CallFault>
    requires { AllByRecursion IsDimension axes.now }
    ensures { Answers (λ c. c) result (of.bin_change dimension.now freq axes.now) }
{
    if !is_freq(freq) {
        return Err(CallFault::Refused(Fault::BadArgument));
    }
    let axis = axis_found(alloc, dimension, axes)?;
    let index = times_along(axis)?;
    let change = bins_along(alloc, dimension, freq, index)?;
    Ok(change)
}

/// Windows along a dimension.
#[tactic(auto, unfolding(xr_groups::specs::Groupings::window_change, group_window::specs::Windows::rolled, xr_types::specs::Results::unless))]
pub(crate) fn window_change(
    alloc: Global,
    dimension: &TextBytes,
    width: u64,
    center: bool,
    axes: &[Axis],
) -> Result<Change, CallFault>
    ensures { Answers (λ c. c) result (of.window_change dimension.now width center axes.now) }
{
    let axis = axis_found(alloc, dimension, axes)?;
    let lists = rolling(axis.size, width, center)?;
    Ok(Change {
        dimension: dimension.deep_copy(alloc)?,
        lists,
        axis: axis.deep_copy(alloc)?,
    })
}

/// One dimension alone.
pub(crate) fn one(alloc: Global, change: Change) -> Result<Items<Change>, AllocError>
    ensures { IfOk result (λ cs. cs ≡ change ∷ []) }
{
    let mut changes = Items::new(alloc);
    changes.push(change)?;
    Ok(changes)
}
