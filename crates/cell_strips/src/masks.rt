//! The masks of results. Where no operand has a mask, none is made.
ghost use Rattle.std.specs.Prelude.{◌≡◌, ◌<◌, ℕ, length, get_or, max, true, Option, None, IfOk, option_map};
ghost use Rattle.elem_kernel.specs.Masks.{first_at_zero};
ghost use Rattle.cell_strips.specs.Rows.{byte_at, Covers, Joined};

use crate::rows::{map_row, zip_row, zip_three};
use elem_kernel::first_or_second;
use std::alloc::{AllocError, Global};
use xr_types::Items;

fn join_bytes(alloc: Global, a: &[u8], b: &[u8]) -> Result<Items<u8>, AllocError>
    requires { length b.now ≡ length a.now }
    ensures long { IfOk result (λ v. length v ≡ length a.now) }
    ensures bytes { IfOk result (λ v. (i x y z : ℕ) → i < length a.now → get_or v i z ≡ max (get_or a.now i x) (get_or b.now i y)) }
{
    zip_row(
        alloc,
        |x: u8, y: u8| -> u8
            ensures { result ≡ max x y }
        { x.max(y) },
        a,
        b,
    )
}

/// Hides the cells that are hidden by one of two masks.
pub(crate) fn join_masks(
    alloc: Global,
    count: usize,
    a: Option<&Items<u8>>,
    b: Option<&Items<u8>>,
) -> Result<Option<Items<u8>>, AllocError>
    requires first { Covers count (option_map (λ m. m.now) a) }
    requires second { Covers count (option_map (λ m. m.now) b) }
    ensures long { IfOk result (Covers count) }
    ensures bytes { IfOk result (Joined count (option_map (λ m. m.now) a.entry) (option_map (λ m. m.now) b.entry)) }
{
    match (a, b) {
        (Some(a), Some(b)) => Ok(Some(join_bytes(alloc, a.as_slice(), b.as_slice())?)),
        (Some(a), None) => Ok(Some(Items::from_slice(alloc, a.as_slice())?)),
        (None, Some(b)) => Ok(Some(Items::from_slice(alloc, b.as_slice())?)),
        (None, None) => Ok(None),
    }
}

/// An equal mask.
pub(crate) fn copy_mask(
    alloc: Global,
    mask: Option<&Items<u8>>,
) -> Result<Option<Items<u8>>, AllocError>
    ensures { IfOk result (λ m. m ≡ option_map (λ m. m.now) mask.entry) }
{
    match mask {
        Some(mask) => Ok(Some(Items::from_slice(alloc, mask.as_slice())?)),
        None => Ok(None),
    }
}

/// The bytes of a mask: zeros where there is none.
pub(crate) fn bytes_of(
    alloc: Global,
    count: usize,
    mask: Option<&Items<u8>>,
) -> Result<Items<u8>, AllocError>
    requires { Covers count (option_map (λ m. m.now) mask) }
    ensures long { IfOk result (λ v. length v ≡ count) }
    ensures bytes { IfOk result (λ v. (i : ℕ) → i < count → get_or v i 0 ≡ byte_at (option_map (λ m. m.now) mask.entry) i) }
{
    match mask {
        Some(mask) => Items::from_slice(alloc, mask.as_slice()),
        None => Ok(Items::of(Vec::from_elem(alloc, 0u8, count)?)),
    }
}

/// One byte for each shown cell, and another for each hidden one.
pub(crate) fn tell(
    alloc: Global,
    count: usize,
    mask: Option<&Items<u8>>,
    shown: u8,
    hidden: u8,
) -> Result<Items<u8>, AllocError>
    requires { Covers count (option_map (λ m. m.now) mask) }
    ensures long { IfOk result (λ v. length v ≡ count) }
    ensures bytes { IfOk result (λ v. (i : ℕ) → i < count → get_or v i 0 ≡ first_at_zero (byte_at (option_map (λ m. m.now) mask.entry) i) shown hidden) }
{
    match mask {
        Some(mask) => map_row(
            alloc,
            |x: u8| -> u8
                ensures { result ≡ first_at_zero x shown hidden }
            { first_or_second(shown, hidden, x) },
            mask.as_slice(),
        ),
        None => Ok(Items::of(Vec::from_elem(alloc, shown, count)?)),
    }
}

// The first bytes where the byte of `by` is 0, else the second.
fn pick_bytes(alloc: Global, by: &[u8], a: &[u8], b: &[u8]) -> Result<Items<u8>, AllocError>
    requires { (length a.now ≡ length by.now) × (length b.now ≡ length by.now) }
    ensures long { IfOk result (λ v. length v ≡ length by.now) }
    ensures bytes { IfOk result (λ v. (i k x y z : ℕ) → i < length by.now → get_or v i z ≡ first_at_zero (get_or by.now i k) (get_or a.now i x) (get_or b.now i y)) }
{
    zip_three(
        alloc,
        |by: u8, x: u8, y: u8| -> u8
            ensures { result ≡ first_at_zero by x y }
        { first_or_second(x, y, by) },
        by,
        a,
        b,
    )
}

// Whether neither mask is there.
fn no_masks(a: Option<&Items<u8>>, b: Option<&Items<u8>>) -> bool
    ensures first { result ≡ true → option_map (λ m. m.now) a.entry ≡ None }
    ensures second { result ≡ true → option_map (λ m. m.now) b.entry ≡ None }
{
    match (a, b) {
        (None, None) => true,
        _ => false,
    }
}

/// A mask that is lent.
pub(crate) fn lent(mask: &Option<Items<u8>>) -> Option<&Items<u8>>
    ensures { option_map (λ m. m.now) result ≡ mask.now }
{
    match mask {
        Some(mask) => Some(mask),
        None => None,
    }
}

/// The byte of the first mask where that of `by` is 0, else that of the second.
#[tactic(auto, using(crate::proofs::OneType::zero_picked))]
pub(crate) fn pick_masks(
    alloc: Global,
    by: &[u8],
    a: Option<&Items<u8>>,
    b: Option<&Items<u8>>,
) -> Result<Option<Items<u8>>, AllocError>
    requires first { Covers (length by.now) (option_map (λ m. m.now) a) }
    requires second { Covers (length by.now) (option_map (λ m. m.now) b) }
    ensures long { IfOk result (Covers (length by.now)) }
    ensures bytes { IfOk result (λ m. (i : ℕ) → i < length by.now → byte_at m i ≡ first_at_zero (get_or by.now i 0) (byte_at (option_map (λ m. m.now) a.entry) i) (byte_at (option_map (λ m. m.now) b.entry) i)) }
{
    if no_masks(a, b) {
        return Ok(None);
    }
    let xs = bytes_of(alloc, by.len(), a)?;
    let ys = bytes_of(alloc, by.len(), b)?;
    Ok(Some(pick_bytes(alloc, by, xs.as_slice(), ys.as_slice())?))
}
