//! Rows whose cells are made from those at the same place of other rows.
ghost use Rattle.std.specs.Prelude.{◌≡◌, ◌<◌, ℕ, length, get_or, IfOk};

use std::alloc::{AllocError, Global};
use xr_types::{Elem, Items};

fn map_into<A: Copy + Drop, T: Copy + Drop, F: Fn(A) -> T>(f: &F, a: &[A], out: &mut [T])
    requires callable { F.IsAlwaysCallable f.now }
    requires long { length out.old ≡ length a.now }
    ensures long { length out.new ≡ length a.now }
    ensures cells { (i : ℕ) (x : A) (z : T) → i < length a.now → F.post f.now (get_or a.now i x) (get_or out.new i z) }
{
    for i in 0..a.len() {
        out[i] = f(a[i]);
    }
}

fn zip_into<A: Copy + Drop, B: Copy + Drop, T: Copy + Drop, F: Fn(A, B) -> T>(
    f: &F,
    a: &[A],
    b: &[B],
    out: &mut [T],
)
    requires callable { F.IsAlwaysCallable f.now }
    requires long { (length b.now ≡ length a.now) × (length out.old ≡ length a.now) }
    ensures long { length out.new ≡ length a.now }
    ensures cells { (i : ℕ) (x : A) (y : B) (z : T) → i < length a.now → F.post f.now (get_or a.now i x) (get_or b.now i y) (get_or out.new i z) }
{
    for i in 0..a.len() {
        out[i] = f(a[i], b[i]);
    }
}

fn pick_into<A: Copy + Drop, B: Copy + Drop, C: Copy + Drop, T: Copy + Drop, F: Fn(A, B, C) -> T>(
    f: &F,
    a: &[A],
    b: &[B],
    c: &[C],
    out: &mut [T],
)
    requires callable { F.IsAlwaysCallable f.now }
    requires long { (length b.now ≡ length a.now) × (length c.now ≡ length a.now) × (length out.old ≡ length a.now) }
    ensures long { length out.new ≡ length a.now }
    ensures cells { (i : ℕ) (x : A) (y : B) (u : C) (z : T) → i < length a.now → F.post f.now (get_or a.now i x) (get_or b.now i y) (get_or c.now i u) (get_or out.new i z) }
{
    for i in 0..a.len() {
        out[i] = f(a[i], b[i], c[i]);
    }
}

/// What a function gives of each cell of a row.
pub(crate) fn map_row<A: Copy + Drop, T: Elem + Drop, F: Fn(A) -> T + Drop>(
    alloc: Global,
    f: F,
    a: &[A],
) -> Result<Items<T>, AllocError>
    requires callable { F.IsAlwaysCallable f }
    ensures long { IfOk result (λ v. length v ≡ length a.now) }
    ensures cells { IfOk result (λ v. (i : ℕ) (x : A) (z : T) → i < length a.now → F.post f (get_or a.now i x) (get_or v i z)) }
{
    let mut out = Vec::from_elem(alloc, T::least(), a.len())?;
    map_into(&f, a, out.as_mut_slice());
    Ok(Items::of(out))
}

/// What a function gives of the cells of two rows.
pub(crate) fn zip_row<A: Copy + Drop, B: Copy + Drop, T: Elem + Drop, F: Fn(A, B) -> T + Drop>(
    alloc: Global,
    f: F,
    a: &[A],
    b: &[B],
) -> Result<Items<T>, AllocError>
    requires callable { F.IsAlwaysCallable f }
    requires long { length b.now ≡ length a.now }
    ensures long { IfOk result (λ v. length v ≡ length a.now) }
    ensures cells { IfOk result (λ v. (i : ℕ) (x : A) (y : B) (z : T) → i < length a.now → F.post f (get_or a.now i x) (get_or b.now i y) (get_or v i z)) }
{
    let mut out = Vec::from_elem(alloc, T::least(), a.len())?;
    zip_into(&f, a, b, out.as_mut_slice());
    Ok(Items::of(out))
}

/// What a function gives of the cells of three rows.
pub(crate) fn zip_three<
    A: Copy + Drop,
    B: Copy + Drop,
    C: Copy + Drop,
    T: Elem + Drop,
    F: Fn(A, B, C) -> T + Drop,
>(alloc: Global, f: F, a: &[A], b: &[B], c: &[C]) -> Result<Items<T>, AllocError>
    requires callable { F.IsAlwaysCallable f }
    requires long { (length b.now ≡ length a.now) × (length c.now ≡ length a.now) }
    ensures long { IfOk result (λ v. length v ≡ length a.now) }
    ensures cells { IfOk result (λ v. (i : ℕ) (x : A) (y : B) (u : C) (z : T) → i < length a.now → F.post f (get_or a.now i x) (get_or b.now i y) (get_or c.now i u) (get_or v i z)) }
{
    let mut out = Vec::from_elem(alloc, T::least(), a.len())?;
    pick_into(&f, a, b, c, out.as_mut_slice());
    Ok(Items::of(out))
}
