//! Numbers that stand in bytes, big-endian.
ghost use Rattle.std.specs.Prelude.{◌≡◌, ◌/◌, ◌<◌, length};
ghost use Rattle.xr_types.specs.Kinds.{wrap_to};
ghost use Rattle.xr_types.specs.declared.attr.NcType.{NcType};
ghost use Rattle.xr_types.specs.declared.attr.NcType.TheVariants.{Byte, Char, Short, Int, UShort, UInt, Int64, UInt64};
ghost use Rattle.xr_types.specs.declared.kind.DType.TheVariants as kinds;
ghost use Rattle.xr_types.specs.Widths.{width};
ghost use Rattle.xr_arrays.specs.Numbers.{number_in, value_at};

use xr_types::Elem;

/// The cells of a type of numbers of a file. `u8` serves `char` and `ubyte`.
pub trait Number: Elem {
    ghost spelt: { NcType };

    /// How many of them stand in bytes.
    fn count(raw: &[u8]) -> usize
        ensures { result ≡ length raw.now / width spelt };

    /// The one at a place.
    fn at(raw: &[u8], i: usize) -> Self
        requires { i < length raw.now / width spelt }
        ensures { Self.number result ≡ number_in spelt (value_at spelt raw.now i) };

    /// What 64 bits with a sign leave of its number.
    fn low_bits(self) -> i64
        ensures { result ≡ wrap_to kinds.Int64 (Self.number self) };
}

impl Number for i8 {
    ghost spelt = { Byte };

    fn count(raw: &[u8]) -> usize {
        raw.len()
    }

    fn at(raw: &[u8], i: usize) -> i8 {
        raw[i].cast_signed()
    }

    fn low_bits(self) -> i64 {
        i64::from(self)
    }
}

impl Number for u8 {
    ghost spelt = { Char };

    fn count(raw: &[u8]) -> usize {
        raw.len()
    }

    fn at(raw: &[u8], i: usize) -> u8 {
        raw[i]
    }

    fn low_bits(self) -> i64 {
        i64::from(self)
    }
}

impl Number for i16 {
    ghost spelt = { Short };

    fn count(raw: &[u8]) -> usize {
        raw.len() / 2
    }

    fn at(raw: &[u8], i: usize) -> i16 {
        let at = i * 2;
        i16::from_be_bytes([raw[at], raw[at + 1]])
    }

    fn low_bits(self) -> i64 {
        i64::from(self)
    }
}

impl Number for i32 {
    ghost spelt = { Int };

    fn count(raw: &[u8]) -> usize {
        raw.len() / 4
    }

    fn at(raw: &[u8], i: usize) -> i32 {
        let at = i * 4;
        i32::from_be_bytes([raw[at], raw[at + 1], raw[at + 2], raw[at + 3]])
    }

    fn low_bits(self) -> i64 {
        i64::from(self)
    }
}

impl Number for u16 {
    ghost spelt = { UShort };

    fn count(raw: &[u8]) -> usize {
        raw.len() / 2
    }

    fn at(raw: &[u8], i: usize) -> u16 {
        let at = i * 2;
        u16::from_be_bytes([raw[at], raw[at + 1]])
    }

    fn low_bits(self) -> i64 {
        i64::from(self)
    }
}

impl Number for u32 {
    ghost spelt = { UInt };

    fn count(raw: &[u8]) -> usize {
        raw.len() / 4
    }

    fn at(raw: &[u8], i: usize) -> u32 {
        let at = i * 4;
        u32::from_be_bytes([raw[at], raw[at + 1], raw[at + 2], raw[at + 3]])
    }

    fn low_bits(self) -> i64 {
        i64::from(self)
    }
}

impl Number for i64 {
    ghost spelt = { Int64 };

    fn count(raw: &[u8]) -> usize {
        raw.len() / 8
    }

    fn at(raw: &[u8], i: usize) -> i64 {
        let at = i * 8;
        i64::from_be_bytes([
            raw[at],
            raw[at + 1],
            raw[at + 2],
            raw[at + 3],
            raw[at + 4],
            raw[at + 5],
            raw[at + 6],
            raw[at + 7],
        ])
    }

    fn low_bits(self) -> i64 {
        self
    }
}

impl Number for u64 {
    ghost spelt = { UInt64 };

    fn count(raw: &[u8]) -> usize {
        raw.len() / 8
    }

    fn at(raw: &[u8], i: usize) -> u64 {
        let at = i * 8;
        u64::from_be_bytes([
            raw[at],
            raw[at + 1],
            raw[at + 2],
            raw[at + 3],
            raw[at + 4],
            raw[at + 5],
            raw[at + 6],
            raw[at + 7],
        ])
    }

    fn low_bits(self) -> i64 {
        i64::wrap_from(i128::from(self))
    }
}
