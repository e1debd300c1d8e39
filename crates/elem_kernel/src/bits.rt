//! `& | ^` on the bits of numbers.
ghost use Rattle.std.specs.Prelude.{◌≡◌, Some};
ghost use Rattle.xr_arrays.specs.Elements.{elem};
ghost use Rattle.xr_types.specs.declared.operation.OpKind.TheVariants.{And, Or, Xor};

use xr_types::Elem;

/// A cell's type, with the operations on its bits in two's complement.
pub trait Bits: Elem {
    /// The bits that both numbers have.
    fn both(self, other: Self) -> Self
        ensures { Some (Self.number result) ≡ elem And Self.kind (Some (Self.number self)) (Some (Self.number other)) };

    /// The bits that one of the numbers has.
    fn either(self, other: Self) -> Self
        ensures { Some (Self.number result) ≡ elem Or Self.kind (Some (Self.number self)) (Some (Self.number other)) };

    /// The bits that exactly one of the numbers has.
    fn one_of(self, other: Self) -> Self
        ensures { Some (Self.number result) ≡ elem Xor Self.kind (Some (Self.number self)) (Some (Self.number other)) };
}

impl Bits for u8 {
    fn both(self, other: u8) -> u8 {
        self & other
    }

    fn either(self, other: u8) -> u8 {
        self | other
    }

    fn one_of(self, other: u8) -> u8 {
        self ^ other
    }
}

impl Bits for i8 {
    fn both(self, other: i8) -> i8 {
        self & other
    }

    fn either(self, other: i8) -> i8 {
        self | other
    }

    fn one_of(self, other: i8) -> i8 {
        self ^ other
    }
}

impl Bits for i16 {
    fn both(self, other: i16) -> i16 {
        self & other
    }

    fn either(self, other: i16) -> i16 {
        self | other
    }

    fn one_of(self, other: i16) -> i16 {
        self ^ other
    }
}

impl Bits for i32 {
    fn both(self, other: i32) -> i32 {
        self & other
    }

    fn either(self, other: i32) -> i32 {
        self | other
    }

    fn one_of(self, other: i32) -> i32 {
        self ^ other
    }
}

impl Bits for i64 {
    fn both(self, other: i64) -> i64 {
        self & other
    }

    fn either(self, other: i64) -> i64 {
        self | other
    }

    fn one_of(self, other: i64) -> i64 {
        self ^ other
    }
}

impl Bits for u16 {
    fn both(self, other: u16) -> u16 {
        self & other
    }

    fn either(self, other: u16) -> u16 {
        self | other
    }

    fn one_of(self, other: u16) -> u16 {
        self ^ other
    }
}

impl Bits for u32 {
    fn both(self, other: u32) -> u32 {
        self & other
    }

    fn either(self, other: u32) -> u32 {
        self | other
    }

    fn one_of(self, other: u32) -> u32 {
        self ^ other
    }
}

impl Bits for u64 {
    fn both(self, other: u64) -> u64 {
        self & other
    }

    fn either(self, other: u64) -> u64 {
        self | other
    }

    fn one_of(self, other: u64) -> u64 {
        self ^ other
    }
}
