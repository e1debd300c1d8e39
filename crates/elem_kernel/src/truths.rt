//! Operations on truth values: `== != < <= > >=`, `& | ^` and `~`.
ghost use Rattle.std.specs.Prelude.{◌≡◌, ℕ, List, Some, None};
ghost use Rattle.xr_types.specs.Points.{IsPoint};
ghost use Rattle.xr_arrays.specs.Elements.{elem};
ghost use Rattle.xr_types.specs.declared.operation.OpKind.TheVariants.{Equal, NotEqual, Less, LessEqual, And, Or, Xor, Invert};
ghost use Rattle.xr_types.specs.declared.kind.DType.TheVariants.{Bool};
ghost use Rattle.strided_block.specs.Views.{Cut, KeptOutside, shown, cell_at};
ghost use Rattle.strided_block.specs.Typed.{truth};
ghost use Rattle.elem_kernel.specs.Conditions.{IsBitwise, IsComparison};
ghost use Rattle.elem_kernel.specs.Pairs.{Maps, Pairs};

use crate::number::{at_most, differs, equal, less};
use crate::pairs::{map_cells, zip_pairs};
use strided_block::{View, Win};
use xr_types::OpKind;

fn equals<'v>(a: &View<'v, u8>, b: &View<'v, u8>, out: &mut Win<u8>)
    requires { (a.now.shape ≡ out.old.shape) × (b.now.shape ≡ out.old.shape) }
    ensures place { Cut out.old out.new out.old.low out.old.shape }
    ensures cells { (p : List ℕ) → IsPoint out.old.shape p → Pairs (λ x y z. Some (truth z) ≡ elem Equal Bool (Some (truth x)) (Some (truth y))) (shown a.now p) (shown b.now p) (cell_at out.new p) }
    ensures others { KeptOutside out.old out.new }
{
    zip_pairs(
        |x: u8, y: u8| -> u8
            ensures { Some (truth result) ≡ elem Equal Bool (Some (truth x)) (Some (truth y)) }
        { equal(u8::from(x != 0), u8::from(y != 0)) },
        a,
        b,
        out,
    );
}

fn differences<'v>(a: &View<'v, u8>, b: &View<'v, u8>, out: &mut Win<u8>)
    requires { (a.now.shape ≡ out.old.shape) × (b.now.shape ≡ out.old.shape) }
    ensures place { Cut out.old out.new out.old.low out.old.shape }
    ensures cells { (p : List ℕ) → IsPoint out.old.shape p → Pairs (λ x y z. Some (truth z) ≡ elem NotEqual Bool (Some (truth x)) (Some (truth y))) (shown a.now p) (shown b.now p) (cell_at out.new p) }
    ensures others { KeptOutside out.old out.new }
{
    zip_pairs(
        |x: u8, y: u8| -> u8
            ensures { Some (truth result) ≡ elem NotEqual Bool (Some (truth x)) (Some (truth y)) }
        { differs(u8::from(x != 0), u8::from(y != 0)) },
        a,
        b,
        out,
    );
}

fn lesses<'v>(a: &View<'v, u8>, b: &View<'v, u8>, out: &mut Win<u8>)
    requires { (a.now.shape ≡ out.old.shape) × (b.now.shape ≡ out.old.shape) }
    ensures place { Cut out.old out.new out.old.low out.old.shape }
    ensures cells { (p : List ℕ) → IsPoint out.old.shape p → Pairs (λ x y z. Some (truth z) ≡ elem Less Bool (Some (truth x)) (Some (truth y))) (shown a.now p) (shown b.now p) (cell_at out.new p) }
    ensures others { KeptOutside out.old out.new }
{
    zip_pairs(
        |x: u8, y: u8| -> u8
            ensures { Some (truth result) ≡ elem Less Bool (Some (truth x)) (Some (truth y)) }
        { less(u8::from(x != 0), u8::from(y != 0)) },
        a,
        b,
        out,
    );
}

fn at_mosts<'v>(a: &View<'v, u8>, b: &View<'v, u8>, out: &mut Win<u8>)
    requires { (a.now.shape ≡ out.old.shape) × (b.now.shape ≡ out.old.shape) }
    ensures place { Cut out.old out.new out.old.low out.old.shape }
    ensures cells { (p : List ℕ) → IsPoint out.old.shape p → Pairs (λ x y z. Some (truth z) ≡ elem LessEqual Bool (Some (truth x)) (Some (truth y))) (shown a.now p) (shown b.now p) (cell_at out.new p) }
    ensures others { KeptOutside out.old out.new }
{
    zip_pairs(
        |x: u8, y: u8| -> u8
            ensures { Some (truth result) ≡ elem LessEqual Bool (Some (truth x)) (Some (truth y)) }
        { at_most(u8::from(x != 0), u8::from(y != 0)) },
        a,
        b,
        out,
    );
}

/// Writes whether the comparison holds of the truth values of two views.
pub(crate) fn compare_truths<'v>(op: OpKind, a: &View<'v, u8>, b: &View<'v, u8>, out: &mut Win<u8>)
    requires op { IsComparison op }
    requires shapes { (a.now.shape ≡ out.old.shape) × (b.now.shape ≡ out.old.shape) }
    ensures place { Cut out.old out.new out.old.low out.old.shape }
    ensures cells { (p : List ℕ) → IsPoint out.old.shape p → Pairs (λ x y z. Some (truth z) ≡ elem op Bool (Some (truth x)) (Some (truth y))) (shown a.now p) (shown b.now p) (cell_at out.new p) }
    ensures others { KeptOutside out.old out.new }
{
    match op {
        OpKind::Equal => equals(a, b, out),
        OpKind::NotEqual => differences(a, b, out),
        OpKind::Less => lesses(a, b, out),
        OpKind::LessEqual => at_mosts(a, b, out),
        OpKind::Greater => lesses(b, a, out),
        OpKind::GreaterEqual => at_mosts(b, a, out),
        _ => unreachable!(),
    }
}

/// Writes what `& | ^` gives of the truth values of two views.
pub(crate) fn combine_truths<'v>(op: OpKind, a: &View<'v, u8>, b: &View<'v, u8>, out: &mut Win<u8>)
    requires op { IsBitwise op }
    requires shapes { (a.now.shape ≡ out.old.shape) × (b.now.shape ≡ out.old.shape) }
    ensures place { Cut out.old out.new out.old.low out.old.shape }
    ensures cells { (p : List ℕ) → IsPoint out.old.shape p → Pairs (λ x y z. Some (truth z) ≡ elem op Bool (Some (truth x)) (Some (truth y))) (shown a.now p) (shown b.now p) (cell_at out.new p) }
    ensures others { KeptOutside out.old out.new }
{
    match op {
        OpKind::And => zip_pairs(
            |x: u8, y: u8| -> u8
                ensures { Some (truth result) ≡ elem And Bool (Some (truth x)) (Some (truth y)) }
            { u8::from(x != 0) & u8::from(y != 0) },
            a,
            b,
            out,
        ),
        OpKind::Or => zip_pairs(
            |x: u8, y: u8| -> u8
                ensures { Some (truth result) ≡ elem Or Bool (Some (truth x)) (Some (truth y)) }
            { u8::from(x != 0) | u8::from(y != 0) },
            a,
            b,
            out,
        ),
        OpKind::Xor => zip_pairs(
            |x: u8, y: u8| -> u8
                ensures { Some (truth result) ≡ elem Xor Bool (Some (truth x)) (Some (truth y)) }
            { u8::from(x != 0) ^ u8::from(y != 0) },
            a,
            b,
            out,
        ),
        _ => unreachable!(),
    }
}

/// Writes the opposite truth values.
pub(crate) fn invert_truths<'v>(a: &View<'v, u8>, out: &mut Win<u8>)
    requires { a.now.shape ≡ out.old.shape }
    ensures place { Cut out.old out.new out.old.low out.old.shape }
    ensures cells { (p : List ℕ) → IsPoint out.old.shape p → Maps (λ x z. Some (truth z) ≡ elem Invert Bool (Some (truth x)) None) (shown a.now p) (cell_at out.new p) }
    ensures others { KeptOutside out.old out.new }
{
    map_cells(
        |x: u8| -> u8
            ensures { Some (truth result) ≡ elem Invert Bool (Some (truth x)) None }
        { u8::from(x == 0) },
        a,
        out,
    );
}
