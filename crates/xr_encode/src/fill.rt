//! The numbers that stand for missing cells.
ghost use Rattle.std.specs.Prelude.{◌≡◌, ◌++◌, true, find, option_copied, IfOk, OnOk};
ghost use Rattle.xr_arrays.specs.Numbers.{is_whole, numbers_of};
ghost use Rattle.xr_defs.specs.Decoding.{is_attr, attr_numbers, own_fill, fill_numbers};
ghost use Rattle.xr_defs.specs.Encoding.{uses_option, fill_for};
ghost use Rattle.xr_encode.specs.Outlines.{without_cells};

use crate::number::is_integer;
use crate::outline::Outline;
use std::alloc::{AllocError, Global};
use stored_cells::decoded_cells;
use xr_defs::WriteOptions;
use xr_types::{Attr, Integers, Items, NcType};
use xr_values::integers_of;

/// Whether an attribute has a name.
pub fn is_attr(name: &str, attr: &Attr) -> bool
    ensures { result ≡ is_attr name.now attr.now }
{
    attr.name.as_str() == name
}

fn attr_named<'a>(name: &str, attrs: &'a [Attr]) -> Option<&'a Attr>
    ensures { option_copied result ≡ find (is_attr name.now) attrs.now }
{
    for attr in attrs {
        if is_attr(name, attr) {
            return Some(attr);
        }
    }
    None
}

fn push_integers(numbers: &mut Items<i128>, more: &Integers) -> Result<(), AllocError>
    ensures { OnOk result (numbers.new ≡ numbers.old ++ more.now) }
{
    for i in 0..more.len() {
        numbers.push(more.get(i))?;
    }
    Ok(())
}

// Appends the numbers of values.
fn push_numbers(
    alloc: Global,
    numbers: &mut Items<i128>,
    kind: NcType,
    raw: &[u8],
) -> Result<(), AllocError>
    requires { is_whole kind ≡ true }
    ensures { OnOk result (numbers.new ≡ numbers.old ++ numbers_of kind raw.now) }
{
    let cells = decoded_cells(alloc, kind, raw)?;
    let more = integers_of(alloc, &cells)?;
    push_integers(numbers, &more)
}

// Appends the numbers of an attribute of whole numbers.
#[tactic(auto, using(crate::proofs::Values::integer_is_whole))]
fn push_attr_numbers(
    alloc: Global,
    numbers: &mut Items<i128>,
    name: &str,
    attrs: &[Attr],
) -> Result<(), AllocError>
    ensures { OnOk result (numbers.new ≡ numbers.old ++ attr_numbers name.now attrs.now) }
{
    match attr_named(name, attrs) {
        Some(attr) => {
            if is_integer(attr.kind) {
                push_numbers(alloc, numbers, attr.kind, attr.raw.as_slice())
            } else {
                Ok(())
            }
        }
        None => Ok(()),
    }
}

/// The one number of `_FillValue`.
pub fn own_fill(alloc: Global, attrs: &[Attr]) -> Result<Items<i128>, AllocError>
    ensures { IfOk result (λ fills. fills ≡ own_fill attrs.now) }
{
    let mut numbers = Items::new(alloc);
    push_attr_numbers(alloc, &mut numbers, "_FillValue", attrs)?;
    match numbers.as_slice() {
        [] => Ok(numbers),
        [_] => Ok(numbers),
        [_, _, ..] => Ok(Items::new(alloc)),
    }
}

/// The one number of `_FillValue`, and all of `missing_value`.
pub fn fill_numbers(alloc: Global, attrs: &[Attr]) -> Result<Items<i128>, AllocError>
    ensures { IfOk result (λ fills. fills ≡ fill_numbers attrs.now) }
{
    let mut fills = own_fill(alloc, attrs)?;
    push_attr_numbers(alloc, &mut fills, "missing_value", attrs)?;
    Ok(fills)
}

/// Whether missing cells are written as the option's number, given the fill numbers of a variable.
pub fn uses_option(options: &WriteOptions, outline: &Outline, fills: &[i128]) -> bool
    requires { fills.now ≡ fill_numbers outline.now.attrs }
    ensures { result ≡ uses_option options.now (without_cells outline.now) }
{
    match fills {
        [] => outline.masked && options.fill.is_some(),
        [_, ..] => false,
    }
}

/// The number as which missing cells are written, given the fill numbers of a variable.
pub fn fill_for(options: &WriteOptions, outline: &Outline, fills: &[i128]) -> Option<i128>
    requires { fills.now ≡ fill_numbers outline.now.attrs }
    ensures { result ≡ fill_for options.now (without_cells outline.now) }
{
    match fills {
        [] => options.fill,
        [fill, ..] => Some(*fill),
    }
}
