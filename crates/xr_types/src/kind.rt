//! The kinds of cells: NumPy's fixed-width whole numbers, truth values and bytes of text.
ghost use Rattle.std.specs.Prelude.{◌≡◌, ◌≢◌, ℤ};
ghost use Rattle.xr_types.specs.Kinds.{is_unsigned, signed_bits, signed_kind, promoted, promoted_integers, wrap_to, InRange, IsWrapped};
ghost use Rattle.xr_types.specs.declared.kind.DType.{DType};
ghost use Rattle.xr_types.specs.declared.kind.DType.TheVariants as kinds;

/// The kind of an array's cells.
#[derive(Clone, Copy, PartialEq, Eq)]
pub enum DType {
    /// Truth values, as 0 and 1.
    Bool,
    /// Bytes of text, from 0 to 255.
    Char,
    Int8,
    Int16,
    Int32,
    Int64,
    UInt8,
    UInt16,
    UInt32,
    UInt64,
}

impl DType {
    ghost use Rattle.std.specs.Prelude.{◌≡◌};
    ghost use Rattle.xr_types.specs.Kinds.{kind_name};

    /// The name of the kind, as it is printed and as a script writes it.
    pub fn name(self) -> &'static str
        ensures { result.now ≡ kind_name self }
    {
        match self {
            DType::Bool => "bool",
            DType::Char => "char",
            DType::Int8 => "int8",
            DType::Int16 => "int16",
            DType::Int32 => "int32",
            DType::Int64 => "int64",
            DType::UInt8 => "uint8",
            DType::UInt16 => "uint16",
            DType::UInt32 => "uint32",
            DType::UInt64 => "uint64",
        }
    }
}

/// Whether a kind is one of whole numbers without a sign.
pub fn is_unsigned(kind: DType) -> bool
    ensures { result ≡ is_unsigned kind }
{
    match kind {
        DType::UInt8 | DType::UInt16 | DType::UInt32 | DType::UInt64 => true,
        DType::Int8 | DType::Int16 | DType::Int32 | DType::Int64 => false,
        DType::Bool | DType::Char => false,
    }
}

fn signed_bits(kind: DType) -> u32
    ensures { result ≡ signed_bits kind }
{
    match kind {
        DType::Bool | DType::Char => 0,
        DType::Int8 => 8,
        DType::Int16 | DType::UInt8 => 16,
        DType::Int32 | DType::UInt16 => 32,
        DType::Int64 | DType::UInt32 => 64,
        DType::UInt64 => 128,
    }
}

fn signed_kind(bits: u32) -> Option<DType>
    ensures { result ≡ signed_kind bits }
{
    match bits {
        8 => Some(DType::Int8),
        16 => Some(DType::Int16),
        32 => Some(DType::Int32),
        64 => Some(DType::Int64),
        _ => None,
    }
}

fn promote_integers(a: DType, b: DType) -> Option<DType>
    ensures { result ≡ promoted_integers a b }
{
    let (one, other) = (signed_bits(a), signed_bits(b));
    if is_unsigned(a) != is_unsigned(b) {
        signed_kind(one.max(other))
    } else if one <= other {
        Some(b)
    } else {
        Some(a)
    }
}

/// The kind of an operation on two kinds, where there is one (NumPy, "Data type promotion in NumPy").
pub fn promote(a: DType, b: DType) -> Option<DType>
    ensures { result ≡ promoted a b }
{
    match (a, b) {
        (DType::Char, DType::Char) => Some(DType::Char),
        (DType::Char, _) | (_, DType::Char) => None,
        (DType::Bool, kind) | (kind, DType::Bool) => Some(kind),
        _ => promote_integers(a, b),
    }
}

/// The number of a kind that is left of a number: the one in the kind's range that is congruent to it.
pub fn wrap(kind: DType, n: i128) -> i128
    requires { kind ≢ kinds.Bool }
    ensures { result ≡ wrap_to kind n }
{
    match kind {
        DType::Bool => n,
        DType::Char => n.rem_euclid(1 << 8),
        DType::Int8 => i128::from((n.rem_euclid(1 << 8) as u8).cast_signed()),
        DType::Int16 => i128::from((n.rem_euclid(1 << 16) as u16).cast_signed()),
        DType::Int32 => i128::from((n.rem_euclid(1 << 32) as u32).cast_signed()),
        DType::Int64 => i128::from((n.rem_euclid(1 << 64) as u64).cast_signed()),
        DType::UInt8 => n.rem_euclid(1 << 8),
        DType::UInt16 => n.rem_euclid(1 << 16),
        DType::UInt32 => n.rem_euclid(1 << 32),
        DType::UInt64 => n.rem_euclid(1 << 64),
    }
}

/// What `wrap` gives lies in the kind's range and is congruent to the number, and no other number does.
pub fn wrap_is_the_one()
    ensures is { (kind : DType) (n : ℤ) → IsWrapped kind n (wrap_to kind n) }
    ensures only { (kind : DType) (n m : ℤ) → IsWrapped kind n m → m ≡ wrap_to kind n }
{}
