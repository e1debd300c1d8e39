//! The kinds of cells by what they hold, and by their names.
ghost use Rattle.std.specs.Prelude.{◌≡◌, ◌≢◌, MatchOption, ⊤};
ghost use Rattle.xr_types.specs.declared.kind.DType.TheVariants as kinds;
ghost use Rattle.xr_types.specs.Kinds.{high, in_range, low};
ghost use Rattle.xr_defs.specs.Building.{is_chars as of_chars, is_integer_kind as of_integers, kind_named as named, kinds_named, truth_number as number_of_truth};
ghost use Rattle.xr_operations.specs.Arithmetic.{is_truths as of_truths, number_kind as kind_of_numbers};

use xr_types::DType;

/// Whether a kind is one of whole numbers.
pub fn is_integer_kind(kind: DType) -> bool
    ensures { result ≡ of_integers kind }
{
    !matches!(kind, DType::Bool | DType::Char)
}

/// Whether a kind is that of bytes of text.
pub fn is_chars(kind: DType) -> bool
    ensures { result ≡ of_chars kind }
{
    matches!(kind, DType::Char)
}

/// Whether a kind is that of truth values.
pub fn is_truths(kind: DType) -> bool
    ensures { result ≡ of_truths kind }
{
    !(is_integer_kind(kind) || is_chars(kind))
}

/// The kind that a whole number takes beside cells of a kind.
pub fn number_kind(kind: DType) -> DType
    ensures { result ≡ kind_of_numbers kind }
{
    if is_truths(kind) { DType::Int64 } else { kind }
}

/// The kind of numbers or truth values of this name.
pub fn kind_named(text: &str) -> Option<DType>
    ensures value { result ≡ named text.now kinds_named }
    ensures number { MatchOption result ⊤ (λ k. k ≢ kinds.Char) }
{
    if "bool" == text {
        Some(DType::Bool)
    } else if "int8" == text {
        Some(DType::Int8)
    } else if "int16" == text {
        Some(DType::Int16)
    } else if "int32" == text {
        Some(DType::Int32)
    } else if "int64" == text {
        Some(DType::Int64)
    } else if "uint8" == text {
        Some(DType::UInt8)
    } else if "uint16" == text {
        Some(DType::UInt16)
    } else if "uint32" == text {
        Some(DType::UInt32)
    } else if "uint64" == text {
        Some(DType::UInt64)
    } else {
        None
    }
}

/// The least number of a kind.
pub fn least(kind: DType) -> i128
    ensures { result ≡ low kind }
{
    match kind {
        DType::Bool | DType::Char => 0,
        DType::Int8 => -128,
        DType::Int16 => -32_768,
        DType::Int32 => -2_147_483_648,
        DType::Int64 => -9_223_372_036_854_775_808,
        DType::UInt8 | DType::UInt16 | DType::UInt32 | DType::UInt64 => 0,
    }
}

/// The greatest number of a kind.
pub fn greatest(kind: DType) -> i128
    ensures { result ≡ high kind }
{
    match kind {
        DType::Bool => 1,
        DType::Char | DType::UInt8 => 255,
        DType::Int8 => 127,
        DType::Int16 => 32_767,
        DType::Int32 => 2_147_483_647,
        DType::Int64 => 9_223_372_036_854_775_807,
        DType::UInt16 => 65_535,
        DType::UInt32 => 4_294_967_295,
        DType::UInt64 => 18_446_744_073_709_551_615,
    }
}

/// Whether a number is one of the kind.
pub fn fits(kind: DType, n: i128) -> bool
    ensures { result ≡ in_range kind n }
{
    least(kind) <= n && n <= greatest(kind)
}

/// A truth value as a number.
pub fn truth_number(truth: bool) -> i128
    ensures { result ≡ number_of_truth truth }
{
    if truth { 1 } else { 0 }
}
