//! Windows whose cells are made from those of one view or of two.
ghost use Rattle.std.specs.Prelude.{◌≡◌, ℕ, List};
ghost use Rattle.xr_types.specs.Points.{IsPoint};
ghost use Rattle.strided_block.specs.Views.{Cut, KeptOutside, shown, cell_at};
ghost use Rattle.elem_kernel.specs.Pairs.{Maps, Pairs};

use strided_block::{View, Win, zip_cells};
use xr_types::Elem;

/// Writes what a function gives of the cells of a view at each point of a window.
pub(crate) fn map_cells<'v, A: Elem + Drop, T: Elem + Drop, F: Fn(A) -> T + Drop>(
    f: F,
    a: &View<'v, A>,
    out: &mut Win<T>,
)
    requires callable { F.IsAlwaysCallable f }
    requires shape { a.now.shape ≡ out.old.shape }
    ensures place { Cut out.old out.new out.old.low out.old.shape }
    ensures cells { (p : List ℕ) → IsPoint out.old.shape p → Maps (F.post f) (shown a.now p) (cell_at out.new p) }
    ensures others { KeptOutside out.old out.new }
{
    zip_cells(|x: A, _y: A, _u: A, _v: A| f(x), a, a, a, a, out);
}

/// Writes what a function gives of the cells of two views at each point of a window.
pub(crate) fn zip_pairs<
    'v,
    A: Elem + Drop,
    B: Elem + Drop,
    T: Elem + Drop,
    F: Fn(A, B) -> T + Drop,
>(f: F, a: &View<'v, A>, b: &View<'v, B>, out: &mut Win<T>)
    requires callable { F.IsAlwaysCallable f }
    requires shapes { (a.now.shape ≡ out.old.shape) × (b.now.shape ≡ out.old.shape) }
    ensures place { Cut out.old out.new out.old.low out.old.shape }
    ensures cells { (p : List ℕ) → IsPoint out.old.shape p → Pairs (F.post f) (shown a.now p) (shown b.now p) (cell_at out.new p) }
    ensures others { KeptOutside out.old out.new }
{
    zip_cells(|x: A, y: B, _u: A, _v: B| f(x, y), a, b, a, b, out);
}
