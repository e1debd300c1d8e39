//! Casts: what a kind leaves of the numbers of another, and whether they aren't 0.
ghost use Rattle.std.specs.Prelude.{◌≡◌, ◌<◌, ℕ, List};
ghost use Rattle.xr_types.specs.Kinds.{wrap_to};
ghost use Rattle.xr_types.specs.declared.kind.DType.TheVariants.{Bool};
ghost use Rattle.xr_types.specs.Points.{IsPoint};
ghost use Rattle.xr_arrays.specs.Elements.{cast_to};
ghost use Rattle.xr_types.specs.declared.operation.OpKind.TheVariants.{Cast};
ghost use Rattle.strided_block.specs.Boxes.{plus};
ghost use Rattle.strided_block.specs.Views.{Cut, KeptOutside, shown, cell_at};
ghost use Rattle.strided_block.specs.Typed.{truth, view_shape, number_shown, win_kind, win_box, number_held};
ghost use Rattle.elem_kernel.specs.Numbers.{HoldsOne};
ghost use Rattle.elem_kernel.specs.Pairs.{Maps};

use crate::pairs::map_cells;
use strided_block::{TypedView, TypedWin, View, Win};
use xr_types::Elem;

/// The cell that is left of another's number.
pub fn cast_cell<A: Elem, T: Elem>(x: A) -> T
    ensures { T.number result ≡ wrap_to T.kind (A.number x) }
{
    T::wrap_from(x.widen())
}

// The cell of a truth value.
fn cast_truth<T: Elem>(x: u8) -> T
    ensures { T.number result ≡ wrap_to T.kind (truth x) }
{
    T::wrap_from(i128::from(x != 0))
}

/// Whether a cell's number isn't 0, as a truth value.
pub fn test_cell<A: Elem>(x: A) -> u8
    ensures small { result < 2 }
    ensures truth { truth result ≡ cast_to Bool (A.number x) }
{
    u8::from(x.widen() != 0)
}

// The truth value as 0 or 1.
fn test_truth(x: u8) -> u8
    ensures { truth result ≡ cast_to Bool (truth x) }
{
    u8::from(x != 0)
}

fn cast_cells<'v, A: Elem + Drop, T: Elem + Drop>(a: &View<'v, A>, out: &mut Win<T>)
    requires { a.now.shape ≡ out.old.shape }
    ensures place { Cut out.old out.new out.old.low out.old.shape }
    ensures cells { (p : List ℕ) → IsPoint out.old.shape p → Maps (λ x z. T.number z ≡ wrap_to T.kind (A.number x)) (shown a.now p) (cell_at out.new p) }
    ensures others { KeptOutside out.old out.new }
{
    map_cells(
        |x: A| -> T
            ensures { T.number result ≡ wrap_to T.kind (A.number x) }
        { cast_cell(x) },
        a,
        out,
    );
}

fn cast_truths<'v, T: Elem + Drop>(a: &View<'v, u8>, out: &mut Win<T>)
    requires { a.now.shape ≡ out.old.shape }
    ensures place { Cut out.old out.new out.old.low out.old.shape }
    ensures cells { (p : List ℕ) → IsPoint out.old.shape p → Maps (λ x z. T.number z ≡ wrap_to T.kind (truth x)) (shown a.now p) (cell_at out.new p) }
    ensures others { KeptOutside out.old out.new }
{
    map_cells(
        |x: u8| -> T
            ensures { T.number result ≡ wrap_to T.kind (truth x) }
        { cast_truth(x) },
        a,
        out,
    );
}

fn test_cells<'v, A: Elem + Drop>(a: &View<'v, A>, out: &mut Win<u8>)
    requires { a.now.shape ≡ out.old.shape }
    ensures place { Cut out.old out.new out.old.low out.old.shape }
    ensures cells { (p : List ℕ) → IsPoint out.old.shape p → Maps (λ x z. truth z ≡ cast_to Bool (A.number x)) (shown a.now p) (cell_at out.new p) }
    ensures others { KeptOutside out.old out.new }
{
    map_cells(
        |x: A| -> u8
            ensures { truth result ≡ cast_to Bool (A.number x) }
        { test_cell(x) },
        a,
        out,
    );
}

fn test_truths<'v>(a: &View<'v, u8>, out: &mut Win<u8>)
    requires { a.now.shape ≡ out.old.shape }
    ensures place { Cut out.old out.new out.old.low out.old.shape }
    ensures cells { (p : List ℕ) → IsPoint out.old.shape p → Maps (λ x z. truth z ≡ cast_to Bool (truth x)) (shown a.now p) (cell_at out.new p) }
    ensures others { KeptOutside out.old out.new }
{
    map_cells(
        |x: u8| -> u8
            ensures { truth result ≡ cast_to Bool (truth x) }
        { test_truth(x) },
        a,
        out,
    );
}

// Writes what the kind of the window leaves of the numbers of a view.
fn cast_into<'v, T: Elem + Drop>(a: &TypedView<'v>, out: &mut Win<T>)
    requires { view_shape a.now ≡ out.old.shape }
    ensures place { Cut out.old out.new out.old.low out.old.shape }
    ensures cells { (p : List ℕ) → IsPoint out.old.shape p → Maps (λ m z. T.number z ≡ wrap_to T.kind m) (number_shown a.now p) (cell_at out.new p) }
    ensures others { KeptOutside out.old out.new }
{
    match a {
        TypedView::Bool(a) => cast_truths(a, out),
        TypedView::Char(a) => cast_cells(a, out),
        TypedView::Int8(a) => cast_cells(a, out),
        TypedView::Int16(a) => cast_cells(a, out),
        TypedView::Int32(a) => cast_cells(a, out),
        TypedView::Int64(a) => cast_cells(a, out),
        TypedView::UInt8(a) => cast_cells(a, out),
        TypedView::UInt16(a) => cast_cells(a, out),
        TypedView::UInt32(a) => cast_cells(a, out),
        TypedView::UInt64(a) => cast_cells(a, out),
    }
}

// Writes whether the numbers of a view aren't 0, as truth values.
fn test_numbers<'v>(a: &TypedView<'v>, out: &mut Win<u8>)
    requires { view_shape a.now ≡ out.old.shape }
    ensures place { Cut out.old out.new out.old.low out.old.shape }
    ensures cells { (p : List ℕ) → IsPoint out.old.shape p → Maps (λ m z. truth z ≡ cast_to Bool m) (number_shown a.now p) (cell_at out.new p) }
    ensures others { KeptOutside out.old out.new }
{
    match a {
        TypedView::Bool(a) => test_truths(a, out),
        TypedView::Char(a) => test_cells(a, out),
        TypedView::Int8(a) => test_cells(a, out),
        TypedView::Int16(a) => test_cells(a, out),
        TypedView::Int32(a) => test_cells(a, out),
        TypedView::Int64(a) => test_cells(a, out),
        TypedView::UInt8(a) => test_cells(a, out),
        TypedView::UInt16(a) => test_cells(a, out),
        TypedView::UInt32(a) => test_cells(a, out),
        TypedView::UInt64(a) => test_cells(a, out),
    }
}

/// Writes the numbers of a view as those of the window's kind.
pub(crate) fn cast_numbers<'v>(a: &TypedView<'v>, out: &mut TypedWin)
    requires { view_shape a.now ≡ (win_box out.old).shape }
    ensures kind { win_kind out.new ≡ win_kind out.old }
    ensures place { win_box out.new ≡ win_box out.old }
    ensures cells { (p : List ℕ) → IsPoint (win_box out.old).shape p → HoldsOne Cast (win_kind out.old) (number_shown a.now p) (number_held out.new (plus (win_box out.old).low p)) }
    ensures others { (cs : List ℕ) → IsPoint (win_box out.old).whole cs → ((p : List ℕ) → IsPoint (win_box out.old).shape p → ¬ (cs ≡ plus (win_box out.old).low p)) → number_held out.new cs ≡ number_held out.old cs }
{
    match out {
        TypedWin::Bool(w) => test_numbers(a, w),
        TypedWin::Char(w) => cast_into(a, w),
        TypedWin::Int8(w) => cast_into(a, w),
        TypedWin::Int16(w) => cast_into(a, w),
        TypedWin::Int32(w) => cast_into(a, w),
        TypedWin::Int64(w) => cast_into(a, w),
        TypedWin::UInt8(w) => cast_into(a, w),
        TypedWin::UInt16(w) => cast_into(a, w),
        TypedWin::UInt32(w) => cast_into(a, w),
        TypedWin::UInt64(w) => cast_into(a, w),
    }
}
