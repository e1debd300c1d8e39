//! Printed arrays with coordinates, as no script makes them. Their times are Python's `datetime.timestamp()`.
ghost use Rattle.std.specs.Prelude.{◌≡◌, All, true};
ghost use Rattle.xr_times.specs.Times.{IsTime};
ghost use Rattle.xr_print.specs.Conditions.{AreTimes, HasTimes, HoldsTime};

use std::alloc::{AllocError, Global};
use std::test::Fail;
use xr_arrays::{ArrayValue, Cells};
use xr_defs::{Content, Coord};
use xr_print::{array_text, set_text};
use xr_types::{
    Attr, Axis, Calendar, DType, Items, LabelList, Labels, Name, NcType, Shared, TextBytes,
    TimeCoding, TimeUnit, Units,
};
use xr_values::{DataArray, Dataset};

// ---- what a call asks for

fn is_time(calendar: Calendar, t: i64) -> bool
    ensures { result ≡ true → IsTime calendar t }
{
    match calendar {
        Calendar::Civil => t >= -62_135_596_800 && t < 253_402_300_800,
        Calendar::NoLeap => t >= -62_094_384_000 && t < 253_234_080_000,
        Calendar::Days360 => t >= -61_243_776_000 && t < 249_765_120_000,
    }
}

fn are_times(calendar: Calendar, ts: &[i64]) -> bool
    ensures { result ≡ true → All (IsTime calendar) ts.now }
{
    for i in 0..ts.len() {
        if !is_time(calendar, ts[i]) {
            return false;
        }
    }
    true
}

fn label_times(list: &LabelList) -> bool
    ensures { result ≡ true → AreTimes list.now }
{
    match list {
        LabelList::Numbers(_, _) | LabelList::Texts(_) => true,
        LabelList::Times(coding, ts) => are_times(coding.units.calendar, ts.as_slice()),
    }
}

fn has_times(axis: &Axis) -> bool
    ensures { result ≡ true → HasTimes axis.now }
{
    match &axis.labels {
        Some(labels) => label_times(&labels.list),
        None => true,
    }
}

fn all_have_times(axes: &[Axis]) -> bool
    ensures { result ≡ true → All HasTimes axes.now }
{
    for axis in axes {
        if !has_times(axis) {
            return false;
        }
    }
    true
}

fn holds_time(coord: &Coord) -> bool
    ensures { result ≡ true → HoldsTime coord.now }
{
    match &coord.content {
        Content::Cells(_, _) | Content::Text(_) => true,
        Content::Time(coding, t) => is_time(coding.units.calendar, *t),
    }
}

fn all_hold_times(coords: &[Coord]) -> bool
    ensures { result ≡ true → All HoldsTime coords.now }
{
    for coord in coords {
        if !holds_time(coord) {
            return false;
        }
    }
    true
}

fn prints(alloc: Global, array: &DataArray, cells: &ArrayValue, text: &str) -> bool {
    if cells.kind() != array.kind
        || !all_have_times(array.axes.as_slice())
        || !all_hold_times(array.coords.as_slice())
    {
        return false;
    }
    match array_text(alloc, array, cells) {
        Ok(printed) => printed.as_slice() == text.as_bytes(),
        Err(_) => false,
    }
}

/// Whether a dataset is printed as this text.
pub(crate) fn prints_set(alloc: Global, set: &Dataset, text: &str) -> bool {
    if !all_have_times(set.axes.as_slice()) || !all_hold_times(set.coords.as_slice()) {
        return false;
    }
    match set_text(alloc, set) {
        Ok(printed) => printed.as_slice() == text.as_bytes(),
        Err(_) => false,
    }
}

// ---- values

fn name(alloc: Global, text: &str) -> Result<Name, AllocError> {
    TextBytes::from_str(alloc, text)
}

fn bare(alloc: Global, text: &str, size: u64) -> Result<Axis, AllocError> {
    Ok(Axis {
        name: name(alloc, text)?,
        size,
        labels: None,
    })
}

fn indexed(alloc: Global, text: &str, size: u64, list: LabelList) -> Result<Axis, AllocError> {
    Ok(Axis {
        name: name(alloc, text)?,
        size,
        labels: Some(Labels {
            list,
            attrs: Items::new(alloc),
        }),
    })
}

fn coding(alloc: Global) -> Result<TimeCoding, AllocError> {
    Ok(TimeCoding {
        units: Units {
            unit: TimeUnit::Days,
            reference: -2_208_988_800,
            calendar: Calendar::Civil,
            early: false,
        },
        units_text: name(alloc, "days since 1900-01-01")?,
        calendar_text: None,
    })
}

fn add_coord(
    alloc: Global,
    coords: &mut Items<Coord>,
    text: &str,
    axes: Items<Axis>,
    content: Content,
) -> Result<(), AllocError> {
    let name = name(alloc, text)?;
    coords.push(Coord {
        name,
        axes,
        attrs: Items::new(alloc),
        content,
    })
}

fn add_bare(
    alloc: Global,
    axes: &mut Items<Axis>,
    text: &str,
    size: u64,
) -> Result<(), AllocError> {
    axes.push(bare(alloc, text, size)?)
}

fn add_name(alloc: Global, names: &mut Items<Name>, text: &str) -> Result<(), AllocError> {
    names.push(name(alloc, text)?)
}

fn add_attr(
    alloc: Global,
    attrs: &mut Items<Attr>,
    text: &str,
    kind: NcType,
    raw: &[u8],
) -> Result<(), AllocError> {
    let name = name(alloc, text)?;
    let raw = Items::from_slice(alloc, raw)?;
    attrs.push(Attr { name, kind, raw })
}

fn array(alloc: Global, axes: Items<Axis>, kind: DType, masked: bool) -> DataArray {
    DataArray {
        name: None,
        axes,
        kind,
        masked,
        attrs: Items::new(alloc),
        coords: Items::new(alloc),
        node: 0,
    }
}

fn texts(alloc: Global) -> Result<LabelList, AllocError> {
    let mut labels = Items::new(alloc);
    add_name(alloc, &mut labels, "ab")?;
    add_name(alloc, &mut labels, "c")?;
    Ok(LabelList::Texts(Shared::of(alloc, labels)?))
}

// ---- the monthly maximum

fn two_months(alloc: Global) -> Result<LabelList, AllocError> {
    let times = Items::from_slice(alloc, &[-2_208_988_800, -2_206_310_400])?;
    Ok(LabelList::Times(coding(alloc)?, Shared::of(alloc, times)?))
}

fn monthly_axes(alloc: Global, axes: &mut Items<Axis>) -> Result<(), AllocError> {
    axes.push(indexed(alloc, "time", 2, two_months(alloc)?)?)?;
    add_bare(alloc, axes, "lat", 2)?;
    add_bare(alloc, axes, "lon", 2)
}

fn monthly_cells(alloc: Global) -> Result<ArrayValue, AllocError> {
    let shape = Items::from_slice(alloc, &[2, 2, 2])?;
    let cells = Items::from_slice(alloc, &[4, 2, 3, -999, 5, 9, 7, 8])?;
    let mask = Items::from_slice(alloc, &[0, 0, 0, 1, 0, 0, 0, 0])?;
    Ok(ArrayValue::of(shape, Cells::Int16(cells), Some(mask)))
}

fn monthly(alloc: Global) -> Result<DataArray, AllocError> {
    let mut a = array(alloc, Items::new(alloc), DType::Int16, true);
    a.name = Some(name(alloc, "t")?);
    monthly_axes(alloc, &mut a.axes)?;
    add_attr(alloc, &mut a.attrs, "_FillValue", NcType::Short, &[252, 25])?;
    Ok(a)
}

#[test]
fn a_monthly_maximum_is_printed_with_its_times(rt: HostRuntime) -> Result<(), Fail> {
    let alloc = rt.alloc();
    let a = monthly(alloc)?;
    let cells = monthly_cells(alloc)?;
    assert!(rt;
        prints(
            alloc,
            &a,
            &cells,
            "DataArray t (time: 2, lat: 2, lon: 2) int16 masked\n4 2\n3 NA\n5 9\n7 8\n\
         coord time time (time): 1900-01-01T00:00:00 1900-02-01T00:00:00\n\
         attr _FillValue short: -999\n"
        )
    );
    Ok(())
}

// ---- coordinates

fn chars(alloc: Global) -> Result<ArrayValue, AllocError> {
    let shape = Items::from_slice(alloc, &[2])?;
    let cells = Items::from_slice(alloc, &[0, 255])?;
    Ok(ArrayValue::of(shape, Cells::Char(cells), None))
}

fn bytes(alloc: Global) -> Result<ArrayValue, AllocError> {
    let shape = Items::from_slice(alloc, &[2])?;
    let cells = Items::from_slice(alloc, &[-128, 127])?;
    Ok(ArrayValue::of(shape, Cells::Int8(cells), None))
}

fn masked_bytes(alloc: Global) -> Result<ArrayValue, AllocError> {
    let shape = Items::from_slice(alloc, &[2])?;
    let cells = Items::from_slice(alloc, &[1, 2])?;
    let mask = Items::from_slice(alloc, &[0, 7])?;
    Ok(ArrayValue::of(shape, Cells::Int8(cells), Some(mask)))
}

fn add_scalars(alloc: Global, coords: &mut Items<Coord>) -> Result<(), AllocError> {
    let text = Content::Text(name(alloc, "say \"a\\b\"\n\u{7f}\u{e9}")?);
    add_coord(alloc, coords, "b", Items::new(alloc), text)?;
    let time = Content::Time(coding(alloc)?, 951_805_815);
    add_coord(alloc, coords, "when", Items::new(alloc), time)
}

fn add_along(
    alloc: Global,
    coords: &mut Items<Coord>,
    text: &str,
    cells: ArrayValue,
    masked: bool,
) -> Result<(), AllocError> {
    let mut axes = Items::new(alloc);
    add_bare(alloc, &mut axes, "x", 2)?;
    add_coord(alloc, coords, text, axes, Content::Cells(cells, masked))
}

fn with_coords(alloc: Global) -> Result<DataArray, AllocError> {
    let mut a = array(alloc, Items::new(alloc), DType::Int8, false);
    a.axes.push(indexed(alloc, "x", 2, texts(alloc)?)?)?;
    add_scalars(alloc, &mut a.coords)?;
    add_along(alloc, &mut a.coords, "aa", masked_bytes(alloc)?, true)?;
    add_along(alloc, &mut a.coords, "B", chars(alloc)?, false)?;
    Ok(a)
}

// The index first, then the other coordinates by their bytes, of which capital letters are the least.
#[test]
fn coordinates_are_printed_by_name(rt: HostRuntime) -> Result<(), Fail> {
    let alloc = rt.alloc();
    let a = with_coords(alloc)?;
    let cells = bytes(alloc)?;
    assert!(rt;
        prints(
            alloc,
            &a,
            &cells,
            "DataArray - (x: 2) int8\n-128 127\n\
         coord x text (x): \"ab\" \"c\"\n\
         coord B char (x): 0 255\n\
         coord aa int8 masked (x): 1 NA\n\
         coord b text (): \"say \\\"a\\\\b\\\"\\x0a\\x7f\u{e9}\"\n\
         coord when time (): 2000-02-29T06:30:15\n"
        )
    );
    Ok(())
}
