//! The cells of an array as a slice of their type.
ghost use Rattle.std.specs.Prelude.{◌≡◌, map, All};
ghost use Rattle.xr_types.specs.Kinds.{InRange};
ghost use Rattle.xr_types.specs.declared.kind.DType.{DType};
ghost use Rattle.xr_types.specs.declared.kind.DType.TheVariants.{Bool, Int8, Int16, Int32, Int64, UInt16, UInt32, UInt64};
ghost use Rattle.xr_arrays.specs.Arrays.{kind_of, wide, InKind};
ghost use Rattle.plan_core.specs.Concats.{IsBytes};

use xr_arrays::Cells;
use xr_types::Elem;

/// A cell's type, as lists of cells have it.
pub trait Typed: Elem {
    /// The kinds whose cells are of this type.
    ghost Keeps: { DType → Type 0 };

    /// The cells of such a kind.
    fn slice(cells: &Cells) -> &[Self]
        requires kind { Keeps (kind_of cells.now) }
        requires range { InKind cells.now }
        ensures cells { wide cells.now ≡ map Self.number result.now }
        ensures truths { kind_of cells.now ≡ Bool → All (λ x. InRange Bool (Self.number x)) result.now };
}

impl Typed for u8 {
    ghost Keeps = { IsBytes };

    fn slice(cells: &Cells) -> &[u8] {
        match cells {
            Cells::Bool(v) => v.as_slice(),
            Cells::Char(v) => v.as_slice(),
            Cells::UInt8(v) => v.as_slice(),
            _ => unreachable!(),
        }
    }
}

impl Typed for i8 {
    ghost Keeps = { λ t. t ≡ Int8 };

    fn slice(cells: &Cells) -> &[i8] {
        match cells {
            Cells::Int8(v) => v.as_slice(),
            _ => unreachable!(),
        }
    }
}

impl Typed for i16 {
    ghost Keeps = { λ t. t ≡ Int16 };

    fn slice(cells: &Cells) -> &[i16] {
        match cells {
            Cells::Int16(v) => v.as_slice(),
            _ => unreachable!(),
        }
    }
}

impl Typed for i32 {
    ghost Keeps = { λ t. t ≡ Int32 };

    fn slice(cells: &Cells) -> &[i32] {
        match cells {
            Cells::Int32(v) => v.as_slice(),
            _ => unreachable!(),
        }
    }
}

impl Typed for i64 {
    ghost Keeps = { λ t. t ≡ Int64 };

    fn slice(cells: &Cells) -> &[i64] {
        match cells {
            Cells::Int64(v) => v.as_slice(),
            _ => unreachable!(),
        }
    }
}

impl Typed for u16 {
    ghost Keeps = { λ t. t ≡ UInt16 };

    fn slice(cells: &Cells) -> &[u16] {
        match cells {
            Cells::UInt16(v) => v.as_slice(),
            _ => unreachable!(),
        }
    }
}

impl Typed for u32 {
    ghost Keeps = { λ t. t ≡ UInt32 };

    fn slice(cells: &Cells) -> &[u32] {
        match cells {
            Cells::UInt32(v) => v.as_slice(),
            _ => unreachable!(),
        }
    }
}

impl Typed for u64 {
    ghost Keeps = { λ t. t ≡ UInt64 };

    fn slice(cells: &Cells) -> &[u64] {
        match cells {
            Cells::UInt64(v) => v.as_slice(),
            _ => unreachable!(),
        }
    }
}
