//! Whole numbers in attributes, and those that stand for missing cells.
ghost use Rattle.std.specs.Prelude.{◌≡◌, ◌++◌, [], map, IfOk, OnOk, if◌then◌else◌};
ghost use Rattle.xr_arrays.specs.Arrays.{wide};
ghost use Rattle.xr_defs.specs.Decoding.{is_integer, attr_numbers, the_one, fill_numbers};
ghost use Rattle.xr_arrays.specs.Numbers.{numbers_of};

use crate::attributes::find_attr;
use crate::kinds::is_integer;
use std::alloc::Global;
use stored_cells::decoded_cells;
use xr_arrays::Cells;
use xr_types::{Attr, Elem, Items, NoMemory};

fn push_row<T: Elem>(out: &mut Items<i128>, numbers: &[T]) -> Result<(), NoMemory>
    ensures { OnOk result (out.new ≡ out.old ++ map T.number numbers.now) }
{
    for n in numbers {
        out.push(n.widen())?;
    }
    Ok(())
}

/// Adds the numbers of cells.
pub(crate) fn push_numbers(out: &mut Items<i128>, cells: &Cells) -> Result<(), NoMemory>
    ensures { OnOk result (out.new ≡ out.old ++ wide cells.now) }
{
    match cells {
        Cells::Bool(v) | Cells::Char(v) | Cells::UInt8(v) => push_row(out, v.as_slice()),
        Cells::Int8(v) => push_row(out, v.as_slice()),
        Cells::Int16(v) => push_row(out, v.as_slice()),
        Cells::Int32(v) => push_row(out, v.as_slice()),
        Cells::Int64(v) => push_row(out, v.as_slice()),
        Cells::UInt16(v) => push_row(out, v.as_slice()),
        Cells::UInt32(v) => push_row(out, v.as_slice()),
        Cells::UInt64(v) => push_row(out, v.as_slice()),
    }
}

#[tactic(auto, using(crate::proofs::Readable::integer_is_whole))]
fn numbers_of_attr(alloc: Global, attr: &Attr) -> Result<Items<i128>, NoMemory>
    ensures { IfOk result (λ ns. ns ≡ (if is_integer attr.now.kind then numbers_of attr.now.kind attr.now.raw else [])) }
{
    let mut numbers = Items::new(alloc);
    if !is_integer(attr.kind) {
        return Ok(numbers);
    }
    let cells = decoded_cells(alloc, attr.kind, attr.raw.as_slice())?;
    push_numbers(&mut numbers, &cells)?;
    Ok(numbers)
}

/// The numbers of the first attribute of a name, where it holds whole numbers.
pub(crate) fn attr_numbers(
    alloc: Global,
    name: &str,
    attrs: &[Attr],
) -> Result<Items<i128>, NoMemory>
    ensures { IfOk result (λ ns. ns ≡ attr_numbers name.now attrs.now) }
{
    match find_attr(name, attrs) {
        Some(attr) => numbers_of_attr(alloc, attr),
        None => Ok(Items::new(alloc)),
    }
}

/// The numbers that stand for missing cells: the one of `_FillValue`, and all of `missing_value`.
pub(crate) fn fill_numbers(alloc: Global, attrs: &[Attr]) -> Result<Items<i128>, NoMemory>
    ensures { IfOk result (λ ns. ns ≡ fill_numbers attrs.now) }
{
    let own = attr_numbers(alloc, "_FillValue", attrs)?;
    let others = attr_numbers(alloc, "missing_value", attrs)?;
    with_the_one(own.as_slice(), others)
}

// The numbers behind the own one. Of several own ones none counts.
fn with_the_one(own: &[i128], others: Items<i128>) -> Result<Items<i128>, NoMemory>
    ensures { IfOk result (λ ns. ns ≡ the_one own.now ++ others) }
{
    match own {
        [one] => {
            let mut all = others.into_vec();
            all.insert(0, *one)?;
            Ok(Items::of(all))
        }
        _ => Ok(others),
    }
}
