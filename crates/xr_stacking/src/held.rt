//! Cells at hand one after the other.
ghost use Rattle.std.specs.Prelude.{◌≡◌, ◌++◌, map, IfOk, OnOk};
ghost use Rattle.std.specs.List.{AllByRecursion};
ghost use Rattle.xr_arrays.specs.Arrays.{Array, IsArray};
ghost use Rattle.xr_arrays.specs.Nodes.{concatenated};
ghost use Rattle.xr_combination.specs.Pieces.{as_kind};

use crate::shapes::{is_small, joined_shape};
use arrangement::concat;
use cell_strips::unary;
use std::alloc::{AllocError, Global};
use xr_arrays::ArrayValue;
use xr_types::{DType, Items, NoMemory, OpKind};

// More cells than a node has, which no array has, want memory.
fn cast(alloc: Global, kind: DType, array: &ArrayValue) -> Result<ArrayValue, NoMemory>
    requires { IsArray array.now }
    ensures { IfOk result (λ a. a ≡ as_kind kind array.now) }
{
    if !is_small(array.shape()) {
        return Err(NoMemory);
    }
    let cells = unary(alloc, OpKind::Cast, kind, array)?;
    Ok(cells)
}

fn push_cast(
    alloc: Global,
    out: &mut Items<ArrayValue>,
    kind: DType,
    arrays: &[ArrayValue],
) -> Result<(), NoMemory>
    requires { AllByRecursion IsArray arrays.now }
    ensures { OnOk result (out.new ≡ out.old ++ map (as_kind kind) arrays.now) }
{
    match arrays {
        [] => Ok(()),
        [array, rest @ ..] => {
            let one = cast(alloc, kind, array)?;
            out.push(one)?;
            push_cast(alloc, out, kind, rest)
        }
    }
}

fn all_cast(
    alloc: Global,
    kind: DType,
    arrays: &[ArrayValue],
) -> Result<Items<ArrayValue>, NoMemory>
    requires { AllByRecursion IsArray arrays.now }
    ensures { IfOk result (λ made. made ≡ map (as_kind kind) arrays.now) }
{
    let mut out = Items::new(alloc);
    push_cast(alloc, &mut out, kind, arrays)?;
    Ok(out)
}

fn push_shapes(
    alloc: Global,
    out: &mut Items<Items<u64>>,
    arrays: &[ArrayValue],
) -> Result<(), AllocError>
    ensures { OnOk result (out.new ≡ out.old ++ map (λ (a : Array). a.shape) arrays.now) }
{
    match arrays {
        [] => Ok(()),
        [array, rest @ ..] => {
            let shape = Items::from_slice(alloc, array.shape())?;
            out.push(shape)?;
            push_shapes(alloc, out, rest)
        }
    }
}

fn all_shapes(alloc: Global, arrays: &[ArrayValue]) -> Result<Items<Items<u64>>, AllocError>
    ensures { IfOk result (λ ss. ss ≡ map (λ (a : Array). a.shape) arrays.now) }
{
    let mut out = Items::new(alloc);
    push_shapes(alloc, &mut out, arrays)?;
    Ok(out)
}

fn push_each<'a>(
    out: &mut Items<&'a ArrayValue>,
    arrays: &'a [ArrayValue],
) -> Result<(), AllocError>
    ensures { OnOk result (map (λ a. a.now) out.new ≡ map (λ a. a.now) out.old ++ arrays.now) }
{
    match arrays {
        [] => Ok(()),
        [array, rest @ ..] => {
            out.push(array)?;
            push_each(out, rest)
        }
    }
}

fn each<'a>(alloc: Global, arrays: &'a [ArrayValue]) -> Result<Items<&'a ArrayValue>, AllocError>
    ensures { IfOk result (λ made. map (λ a. a.now) made ≡ arrays.now) }
{
    let mut out = Items::new(alloc);
    push_each(&mut out, arrays)?;
    Ok(out)
}

/// The cells of arrays, in a kind, one after the other along an axis. Arrays whose other sizes differ, which none of one name over
/// joined axes have, want memory.
pub fn held_end_to_end(
    alloc: Global,
    kind: DType,
    axis: usize,
    arrays: &[ArrayValue],
) -> Result<ArrayValue, NoMemory>
    requires { AllByRecursion IsArray arrays.now }
    ensures { IfOk result (λ a. a ≡ concatenated (map (as_kind kind) arrays.now) axis) }
{
    let cast = all_cast(alloc, kind, arrays)?;
    let cast = cast.as_slice();
    let shapes = all_shapes(alloc, cast)?;
    joined_shape(alloc, axis, shapes.as_slice())?;
    let inputs = each(alloc, cast)?;
    let cells = concat(alloc, inputs.as_slice(), axis)?;
    Ok(cells)
}
