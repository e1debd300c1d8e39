//! Keys of groups, and labels of keys.
ghost use Rattle.std.specs.Prelude.{◌≡◌, map, pos, All, IfOk};
ghost use Rattle.xr_times.specs.Times.{IsTime};
ghost use Rattle.xr_groups.specs.Groups as of;

use cf_time::fields;
use std::alloc::{AllocError, Global};
use xr_times::Field;
use xr_types::{Calendar, Integers, Items, NoMemory};

/// Numbers as keys, none of which is missing.
pub(crate) fn present(alloc: Global, numbers: &[i64]) -> Result<Vec<Option<i128>>, AllocError>
    ensures { IfOk result (λ v. v.items ≡ of.each_key numbers.now) }
{
    let mut keys = Vec::with_capacity(alloc, numbers.len())?;
    for number in numbers {
        keys.push(Some(i128::from(*number)))?;
    }
    Ok(keys)
}

/// Labels as keys.
#[tactic(auto, using(plan_core::proofs::Steps::first_at))]
pub(crate) fn integer_keys(
    alloc: Global,
    numbers: &Integers,
) -> Result<Vec<Option<i128>>, AllocError>
    ensures { IfOk result (λ v. v.items ≡ of.each_key numbers.now) }
{
    let mut keys = Vec::with_capacity(alloc, numbers.len())?;
    for at in 0..numbers.len() {
        keys.push(Some(numbers.get(at)))?;
    }
    Ok(keys)
}

/// A field of each time as its key.
#[tactic(auto, using(crate::proofs::KeysHeld::field_keys_are))]
pub(crate) fn field_keys(
    alloc: Global,
    times: &[i64],
    field: Field,
    calendar: Calendar,
) -> Result<Vec<Option<i128>>, NoMemory>
    requires { All (IsTime calendar) times.now }
    ensures { IfOk result (λ v. v.items ≡ of.field_keys calendar field times.now) }
{
    let numbers = fields(alloc, times, field, calendar)?;
    let keys = present(alloc, &numbers)?;
    Ok(keys)
}

// Whether 64 bits with a sign hold each number.
fn are_signed(numbers: &[i128]) -> bool {
    for number in numbers {
        if *number < -9_223_372_036_854_775_808 || *number > 9_223_372_036_854_775_807 {
            return false;
        }
    }
    true
}

/// Numbers in 64 bits with a sign. None of them is past that.
pub(crate) fn signed(alloc: Global, numbers: &[i128]) -> Result<Items<i64>, AllocError>
    ensures { IfOk result (λ ns. ns ≡ numbers.now) }
{
    let mut out = Items::new(alloc);
    for number in numbers {
        out.push(signed_one(*number)?)?;
    }
    Ok(out)
}

fn signed_one(number: i128) -> Result<i64, AllocError>
    ensures { IfOk result (λ n. n ≡ number) }
{
    if number < -9_223_372_036_854_775_808 || number > 9_223_372_036_854_775_807 {
        return Err(AllocError);
    }
    Ok(number as i64)
}

fn unsigned_one(number: i128) -> Result<u64, AllocError>
    ensures { IfOk result (λ n. pos n ≡ number) }
{
    if number < 0 || number > 18_446_744_073_709_551_615 {
        return Err(AllocError);
    }
    Ok(number as u64)
}

fn unsigned(alloc: Global, numbers: &[i128]) -> Result<Items<u64>, AllocError>
    ensures { IfOk result (λ ns. map pos ns ≡ numbers.now) }
{
    let mut out = Items::new(alloc);
    for number in numbers {
        out.push(unsigned_one(*number)?)?;
    }
    Ok(out)
}

/// Whole numbers as labels.
pub(crate) fn integers(alloc: Global, numbers: &[i128]) -> Result<Integers, AllocError>
    ensures { IfOk result (λ ns. ns ≡ numbers.now) }
{
    if are_signed(numbers) {
        let held = signed(alloc, numbers)?;
        Integers::signed(alloc, held)
    } else {
        let held = unsigned(alloc, numbers)?;
        Integers::unsigned(alloc, held)
    }
}
