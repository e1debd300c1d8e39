//! Sums of the numbers of a file, straight from their bytes.
ghost use Rattle.std.specs.Prelude.{◌≡◌, ◌+ℤ◌, pos, [], true, if◌then◌else◌};
ghost use Rattle.xr_types.specs.Kinds.{wrap_to};
ghost use Rattle.xr_types.specs.declared.kind.DType.TheVariants.{Int64};
ghost use Rattle.xr_arrays.specs.Folds.{sum_of};
ghost use Rattle.xr_arrays.specs.Numbers.{is_whole, numbers_of};
ghost use Rattle.xr_arrays.specs.Stored.{is_fill};
ghost use Rattle.stored_cells.specs.Counted.{present};

use crate::fills::{Fills, NoFill, OneFill, SomeFills};
use crate::number::Number;
use xr_types::NcType;

#[tactic(auto, using(std::proofs::lemmas::Int::wraps))]
fn added(a: i64, b: i64) -> i64
    ensures { result ≡ wrap_to Int64 (a +ℤ b) }
{
    a.wrapping_add(b)
}

// What a cell adds to a sum.
fn counted<T: Number, F: Fills>(cell: T, fills: &F) -> i64
    ensures { result ≡ wrap_to Int64 (if is_fill (F.numbers fills.now) (T.number cell) then pos 0 else T.number cell) }
{
    if fills.hide(cell) { 0 } else { cell.low_bits() }
}

fn sum_in<T: Number, F: Fills>(raw: &[u8], fills: &F) -> i64
    ensures { result ≡ wrap_to Int64 (sum_of (present (F.numbers fills.now) (numbers_of T.spelt raw.now))) }
{
    let mut total: i64 = 0;
    for i in 0..T::count(raw) {
        total = added(total, counted(T::at(raw, i), fills));
    }
    total
}

fn sum_but<F: Fills>(kind: NcType, raw: &[u8], fills: &F) -> i64
    requires { is_whole kind ≡ true }
    ensures { result ≡ wrap_to Int64 (sum_of (present (F.numbers fills.now) (numbers_of kind raw.now))) }
{
    match kind {
        NcType::Byte => sum_in::<i8, F>(raw, fills),
        NcType::Char => sum_in::<u8, F>(raw, fills),
        NcType::Short => sum_in::<i16, F>(raw, fills),
        NcType::Int => sum_in::<i32, F>(raw, fills),
        NcType::UByte => sum_in::<u8, F>(raw, fills),
        NcType::UShort => sum_in::<u16, F>(raw, fills),
        NcType::UInt => sum_in::<u32, F>(raw, fills),
        NcType::Int64 => sum_in::<i64, F>(raw, fills),
        NcType::UInt64 => sum_in::<u64, F>(raw, fills),
        // Nobody may ask for these.
        NcType::Float | NcType::Double => 0,
    }
}

/// The sum of the numbers that stand in bytes, but for those that stand for missing cells, as `int64` wraps it.
pub fn sum(kind: NcType, raw: &[u8], fills: &[i128]) -> i64
    requires { is_whole kind ≡ true }
    ensures { result ≡ wrap_to Int64 (sum_of (present fills.now (numbers_of kind raw.now))) }
{
    match fills {
        [] => sum_but(kind, raw, &NoFill),
        [fill] => sum_but(kind, raw, &OneFill { fill: *fill }),
        _ => sum_but(kind, raw, &SomeFills { fills }),
    }
}
