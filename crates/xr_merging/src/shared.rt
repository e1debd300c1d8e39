//! The cells that several arrays share: at each point the first that isn't missing.
ghost use Rattle.std.specs.Prelude.{◌≡◌, ◌<◌, pos, map, All, IfOk};
ghost use Rattle.std.specs.List.{range_with_len};
ghost use Rattle.xr_types.specs.Kinds.{wrap_to};
ghost use Rattle.xr_types.specs.declared.kind.DType.TheVariants as kinds;
ghost use Rattle.xr_arrays.specs.Arrays.{kind_of, wide, InKind};
ghost use Rattle.xr_arrays.specs.Elements.{cast_to};
ghost use Rattle.xr_combination.specs.Concat.{first_array};
ghost use Rattle.xr_combination.specs.Merge as calls;
ghost use Rattle.xr_combination.specs.Pieces.{as_kind};
ghost use Rattle.xr_merging.specs.Columns.{cast_number, mask_byte, number_or_zero, shared_byte, shared_number, AreWithin, Reach};

use crate::cells::{all_typed, are_alike, are_within, first_count, shared_at};
use std::alloc::{AllocError, Global};
use stored_cells::Typed;
use xr_arrays::{ArrayValue, Cells};
use xr_types::{DType, Elem, Items, NoMemory};

fn number_or_zero(cell: Option<i128>) -> i128
    ensures { result ≡ number_or_zero cell }
{
    match cell {
        Some(n) => n,
        None => 0,
    }
}

fn mask_byte(cell: Option<i128>) -> u8
    ensures { result ≡ mask_byte cell }
{
    match cell {
        Some(_) => 0,
        None => 1,
    }
}

fn truth_of(number: i128) -> u8
    ensures truth { pos result ≡ cast_to kinds.Bool number }
    ensures small { result < 2 }
{
    u8::from(number != 0)
}

fn first_shape(alloc: Global, arrays: &[ArrayValue]) -> Result<Items<u64>, AllocError>
    ensures { IfOk result (λ s. s ≡ (first_array arrays.now).shape) }
{
    match arrays {
        [] => Ok(Items::new(alloc)),
        [array, ..] => Items::from_slice(alloc, array.shape()),
    }
}

// ---- the cell of a place

// The first number, 0 where all are missing.
fn number_at(arrays: &[Typed<'_>], at: usize) -> i128
    requires { Reach at arrays.now }
    ensures { result ≡ shared_number arrays.now at }
{
    number_or_zero(shared_at(arrays, at))
}

fn wrapped_at<T: Elem>(arrays: &[Typed<'_>], at: usize) -> T
    requires { Reach at arrays.now }
    ensures { T.number result ≡ wrap_to T.kind (shared_number arrays.now at) }
{
    T::wrap_from(number_at(arrays, at))
}

fn truth_at(arrays: &[Typed<'_>], at: usize) -> u8
    requires { Reach at arrays.now }
    ensures truth { pos result ≡ cast_number kinds.Bool arrays.now at }
    ensures small { result < 2 }
{
    truth_of(number_at(arrays, at))
}

// ---- the cells of all places

// The numbers that a type's cells keep, 0 where all are missing.
#[tactic(auto, using(crate::proofs::Columns::reach))]
fn wrapped<T: Elem + Drop>(
    alloc: Global,
    arrays: &[Typed<'_>],
    count: usize,
) -> Result<Items<T>, AllocError>
    requires { AreWithin count arrays.now }
    ensures { IfOk result (λ v. map T.number v ≡ map (λ k. wrap_to T.kind (shared_number arrays.now k)) (range_with_len 0 count)) }
{
    let mut out = Items::new(alloc);
    for at in 0..count {
        out.push(wrapped_at(arrays, at))?;
    }
    Ok(out)
}

// Whether they aren't 0, as truth values.
#[tactic(auto, using(crate::proofs::Columns::reach))]
fn truths(alloc: Global, arrays: &[Typed<'_>], count: usize) -> Result<Items<u8>, AllocError>
    requires { AreWithin count arrays.now }
    ensures numbers { IfOk result (λ v. map pos v ≡ map (cast_number kinds.Bool arrays.now) (range_with_len 0 count)) }
    ensures small { IfOk result (All (λ x. x < 2)) }
{
    let mut out = Items::new(alloc);
    for at in 0..count {
        out.push(truth_at(arrays, at))?;
    }
    Ok(out)
}

// A byte for each place, 0 where some array has a cell there.
#[tactic(auto, using(crate::proofs::Columns::reach, crate::proofs::Sharing::mapped_more))]
fn mask_of(alloc: Global, arrays: &[Typed<'_>], count: usize) -> Result<Items<u8>, AllocError>
    requires { AreWithin count arrays.now }
    ensures { IfOk result (λ m. m ≡ map (shared_byte arrays.now) (range_with_len 0 count)) }
{
    let mut out = Items::new(alloc);
    for at in 0..count {
        out.push(mask_byte(shared_at(arrays, at)))?;
    }
    Ok(out)
}

#[tactic(auto, using(crate::proofs::Sharing::same_ints))]
fn typed(
    alloc: Global,
    kind: DType,
    arrays: &[Typed<'_>],
    count: usize,
) -> Result<Cells, AllocError>
    requires { AreWithin count arrays.now }
    ensures kind { IfOk result (λ v. kind_of v ≡ kind) }
    ensures numbers { IfOk result (λ v. wide v ≡ map (cast_number kind arrays.now) (range_with_len 0 count)) }
    ensures range { IfOk result InKind }
{
    match kind {
        DType::Bool => Ok(Cells::Bool(truths(alloc, arrays, count)?)),
        DType::Char => Ok(Cells::Char(wrapped(alloc, arrays, count)?)),
        DType::Int8 => Ok(Cells::Int8(wrapped(alloc, arrays, count)?)),
        DType::Int16 => Ok(Cells::Int16(wrapped(alloc, arrays, count)?)),
        DType::Int32 => Ok(Cells::Int32(wrapped(alloc, arrays, count)?)),
        DType::Int64 => Ok(Cells::Int64(wrapped(alloc, arrays, count)?)),
        DType::UInt8 => Ok(Cells::UInt8(wrapped(alloc, arrays, count)?)),
        DType::UInt16 => Ok(Cells::UInt16(wrapped(alloc, arrays, count)?)),
        DType::UInt32 => Ok(Cells::UInt32(wrapped(alloc, arrays, count)?)),
        DType::UInt64 => Ok(Cells::UInt64(wrapped(alloc, arrays, count)?)),
    }
}

/// The array of the cells that several arrays share, in a kind: at each point the first that isn't missing. Arrays of several shapes,
/// which no values over joined axes have, want memory.
#[tactic(auto, using(crate::proofs::Sharing::mapped_length, crate::proofs::Sharing::shared_done))]
pub fn shared_array(
    alloc: Global,
    kind: DType,
    arrays: &[ArrayValue],
) -> Result<ArrayValue, NoMemory>
    ensures { IfOk result (λ a. a ≡ calls.shared_array kind (map (as_kind kind) arrays.now)) }
{
    if !are_alike(arrays) {
        return Err(NoMemory);
    }
    let all = all_typed(alloc, arrays)?;
    let all = all.as_slice();
    let count = first_count(all);
    if !are_within(count, all) {
        return Err(NoMemory);
    }
    let shape = first_shape(alloc, arrays)?;
    let cells = typed(alloc, kind, all, count)?;
    let mask = mask_of(alloc, all, count)?;
    Ok(ArrayValue::of(shape, cells, Some(mask)))
}
