//! Labels.
ghost use Rattle.std.specs.Prelude.{◌≡◌, true, pos, map, All};
ghost use Rattle.std.specs.List.{list_all};
ghost use Rattle.xr_types.specs.Kinds.{in_range};
ghost use Rattle.xr_defs.specs.Building.{is_integer_kind};
ghost use Rattle.xr_defs.specs.Values.{label_count};
ghost use Rattle.xr_defs.specs.WellFormed.{AreLabels, IsIndex};
ghost use Rattle.xr_times.specs.Times.{IsTime};

use crate::attributes::are_attributes;
use xr_types::{Calendar, DType, Integers, IntegersForm, LabelList, Labels};

fn is_integer_kind(kind: DType) -> bool
    ensures { result ≡ is_integer_kind kind }
{
    match kind {
        DType::Bool | DType::Char => false,
        DType::Int8 | DType::Int16 | DType::Int32 | DType::Int64 => true,
        DType::UInt8 | DType::UInt16 | DType::UInt32 | DType::UInt64 => true,
    }
}

fn is_in_range(kind: DType, number: i128) -> bool
    ensures { result ≡ in_range kind number }
{
    match kind {
        DType::Bool => 0 <= number && number <= 1,
        DType::Char | DType::UInt8 => 0 <= number && number <= 255,
        DType::Int8 => -128 <= number && number <= 127,
        DType::Int16 => -32_768 <= number && number <= 32_767,
        DType::Int32 => -2_147_483_648 <= number && number <= 2_147_483_647,
        DType::Int64 => {
            -9_223_372_036_854_775_808 <= number && number <= 9_223_372_036_854_775_807
        }
        DType::UInt16 => 0 <= number && number <= 65_535,
        DType::UInt32 => 0 <= number && number <= 4_294_967_295,
        DType::UInt64 => 0 <= number && number <= 18_446_744_073_709_551_615,
    }
}

fn are_signed_in(kind: DType, numbers: &[i64]) -> bool
    ensures { result ≡ list_all (in_range kind) numbers.now }
{
    for number in numbers {
        if !is_in_range(kind, i128::from(*number)) {
            return false;
        }
    }
    true
}

fn are_unsigned_in(kind: DType, numbers: &[u64]) -> bool
    ensures { result ≡ list_all (in_range kind) (map pos numbers.now) }
{
    for number in numbers {
        if !is_in_range(kind, i128::from(*number)) {
            return false;
        }
    }
    true
}

fn are_in_range(kind: DType, numbers: &Integers) -> bool
    ensures { result ≡ list_all (in_range kind) numbers.now }
{
    match numbers.form() {
        IntegersForm::Signed(numbers) => are_signed_in(kind, numbers),
        IntegersForm::Unsigned(numbers) => are_unsigned_in(kind, numbers),
    }
}

pub(crate) fn is_time(calendar: Calendar, time: i64) -> bool
    ensures { result ≡ true → IsTime calendar time }
{
    match calendar {
        Calendar::Civil => time >= -62_135_596_800 && time < 253_402_300_800,
        Calendar::NoLeap => time >= -62_094_384_000 && time < 253_234_080_000,
        Calendar::Days360 => time >= -61_243_776_000 && time < 249_765_120_000,
    }
}

fn are_times(calendar: Calendar, times: &[i64]) -> bool
    ensures { result ≡ true → All (IsTime calendar) times.now }
{
    for time in times {
        if !is_time(calendar, *time) {
            return false;
        }
    }
    true
}

#[tactic(auto, using(xr_building::proofs::Fitting::fit_in_range))]
fn are_labels(list: &LabelList) -> bool
    ensures { result ≡ true → AreLabels list.now }
{
    match list {
        LabelList::Numbers(kind, numbers) => is_integer_kind(*kind) && are_in_range(*kind, numbers),
        LabelList::Times(coding, times) => are_times(coding.units.calendar, times.as_slice()),
        LabelList::Texts(_) => true,
    }
}

fn label_count(list: &LabelList) -> usize
    ensures { result ≡ label_count list.now }
{
    match list {
        LabelList::Numbers(_, numbers) => numbers.len(),
        LabelList::Times(_, times) => times.as_slice().len(),
        LabelList::Texts(texts) => texts.as_slice().len(),
    }
}

/// Whether labels are an index of so many positions.
pub(crate) fn is_index(size: u64, labels: &Labels) -> bool
    ensures { result ≡ true → IsIndex size labels.now }
{
    label_count(&labels.list) as u64 == size
        && are_labels(&labels.list)
        && are_attributes(labels.attrs.as_slice())
}
