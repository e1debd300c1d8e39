//! The types of cells in memory.
ghost use Rattle.std.specs.Prelude.{◌≡◌, ℤ, pos, unsigned_abs, ◌≤ℤ◌, refl};
ghost use Rattle.xr_types.specs.Kinds.{low, high, wrap_to};
ghost use Rattle.xr_types.specs.declared.kind.DType.{DType};
ghost use Rattle.xr_types.specs.declared.kind.DType.TheVariants.{Char, Int8, Int16, Int32, Int64, UInt16, UInt32, UInt64};
ghost use Rattle.xr_types.specs.Cells.{rest_is_natural, again_char, again_int8, again_int16, again_int32, again_int64, again_uint16, again_uint32, again_uint64};

/// A cell's type: the numbers of one kind. `u8` is that of `char`; cells of `uint8` and `bool`, and masks, are kept as `u8` too.
pub trait Elem: Copy {
    /// The kind whose numbers the type holds.
    ghost kind: { DType };

    /// The number that a cell holds.
    ghost number: { Self → ℤ };

    /// The cell that is left of a number.
    ghost of: { ℤ → Self };

    /// The cell that holds the least number.
    fn least() -> Self
        ensures { number result ≡ low kind };

    /// The cell that holds the greatest number.
    fn greatest() -> Self
        ensures { number result ≡ high kind };

    /// The number that a cell holds.
    fn widen(self) -> i128
        ensures value { result ≡ number self }
        ensures from { low kind ≤ℤ result }
        ensures to { result ≤ℤ high kind };

    /// The cell that is left of a number.
    fn wrap_from(n: i128) -> Self
        ensures { result ≡ of n };

    /// A number's cell holds what the kind leaves of the number.
    ghost number_of: { (n : ℤ) → number (of n) ≡ wrap_to kind n };

    /// A cell is that of the number it holds.
    ghost of_number: { (x : Self) → low kind ≤ℤ number x → number x ≤ℤ high kind → of (number x) ≡ x };
}

impl Elem for i8 {
    ghost kind = { Int8 };

    ghost number = { λ x. x };

    ghost of = { wrap_to Int8 };

    ghost number_of = { λ n. refl };

    ghost of_number = { again_int8 };

    fn least() -> i8 {
        i8::MIN
    }

    fn greatest() -> i8 {
        i8::MAX
    }

    fn widen(self) -> i128 {
        i128::from(self)
    }

    fn wrap_from(n: i128) -> i8 {
        (n.rem_euclid(1 << 8) as u8).cast_signed()
    }
}

impl Elem for i16 {
    ghost kind = { Int16 };

    ghost number = { λ x. x };

    ghost of = { wrap_to Int16 };

    ghost number_of = { λ n. refl };

    ghost of_number = { again_int16 };

    fn least() -> i16 {
        i16::MIN
    }

    fn greatest() -> i16 {
        i16::MAX
    }

    fn widen(self) -> i128 {
        i128::from(self)
    }

    fn wrap_from(n: i128) -> i16 {
        (n.rem_euclid(1 << 16) as u16).cast_signed()
    }
}

impl Elem for i32 {
    ghost kind = { Int32 };

    ghost number = { λ x. x };

    ghost of = { wrap_to Int32 };

    ghost number_of = { λ n. refl };

    ghost of_number = { again_int32 };

    fn least() -> i32 {
        i32::MIN
    }

    fn greatest() -> i32 {
        i32::MAX
    }

    fn widen(self) -> i128 {
        i128::from(self)
    }

    fn wrap_from(n: i128) -> i32 {
        (n.rem_euclid(1 << 32) as u32).cast_signed()
    }
}

impl Elem for i64 {
    ghost kind = { Int64 };

    ghost number = { λ x. x };

    ghost of = { wrap_to Int64 };

    ghost number_of = { λ n. refl };

    ghost of_number = { again_int64 };

    fn least() -> i64 {
        i64::MIN
    }

    fn greatest() -> i64 {
        i64::MAX
    }

    fn widen(self) -> i128 {
        i128::from(self)
    }

    fn wrap_from(n: i128) -> i64 {
        (n.rem_euclid(1 << 64) as u64).cast_signed()
    }
}

impl Elem for u8 {
    ghost kind = { Char };

    ghost number = { λ x. pos x };

    ghost of = { λ n. unsigned_abs (wrap_to Char n) };

    ghost number_of = { rest_is_natural 256 };

    ghost of_number = { again_char };

    fn least() -> u8 {
        u8::MIN
    }

    fn greatest() -> u8 {
        u8::MAX
    }

    fn widen(self) -> i128 {
        i128::from(self)
    }

    fn wrap_from(n: i128) -> u8 {
        n.rem_euclid(1 << 8) as u8
    }
}

impl Elem for u16 {
    ghost kind = { UInt16 };

    ghost number = { λ x. pos x };

    ghost of = { λ n. unsigned_abs (wrap_to UInt16 n) };

    ghost number_of = { rest_is_natural 65536 };

    ghost of_number = { again_uint16 };

    fn least() -> u16 {
        u16::MIN
    }

    fn greatest() -> u16 {
        u16::MAX
    }

    fn widen(self) -> i128 {
        i128::from(self)
    }

    fn wrap_from(n: i128) -> u16 {
        n.rem_euclid(1 << 16) as u16
    }
}

impl Elem for u32 {
    ghost kind = { UInt32 };

    ghost number = { λ x. pos x };

    ghost of = { λ n. unsigned_abs (wrap_to UInt32 n) };

    ghost number_of = { rest_is_natural 4294967296 };

    ghost of_number = { again_uint32 };

    fn least() -> u32 {
        u32::MIN
    }

    fn greatest() -> u32 {
        u32::MAX
    }

    fn widen(self) -> i128 {
        i128::from(self)
    }

    fn wrap_from(n: i128) -> u32 {
        n.rem_euclid(1 << 32) as u32
    }
}

impl Elem for u64 {
    ghost kind = { UInt64 };

    ghost number = { λ x. pos x };

    ghost of = { λ n. unsigned_abs (wrap_to UInt64 n) };

    ghost number_of = { rest_is_natural 18446744073709551616 };

    ghost of_number = { again_uint64 };

    fn least() -> u64 {
        u64::MIN
    }

    fn greatest() -> u64 {
        u64::MAX
    }

    fn widen(self) -> i128 {
        i128::from(self)
    }

    fn wrap_from(n: i128) -> u64 {
        n.rem_euclid(1 << 64) as u64
    }
}
