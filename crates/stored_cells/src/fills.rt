//! Numbers that stand for missing cells.
ghost use Rattle.std.specs.Prelude.{◌≡◌, ℤ, List, [], ◌∷◌};
ghost use Rattle.xr_arrays.specs.Stored.{is_fill};

use crate::masks::holds;
use xr_types::Elem;

/// Numbers that stand for missing cells.
pub trait Fills: Copy {
    /// These numbers.
    ghost numbers: { Self → List ℤ };

    /// Whether a cell holds one of them.
    fn hide<T: Elem>(&self, cell: T) -> bool
        ensures { result ≡ is_fill (numbers self.now) (T.number cell) };
}

/// No number.
#[derive(Clone, Copy)]
pub struct NoFill;

impl Fills for NoFill {
    ghost numbers = { λ f. [] };

    fn hide<T: Elem>(&self, _cell: T) -> bool {
        false
    }
}

/// One number.
#[derive(Clone, Copy)]
pub struct OneFill {
    pub fill: i128,
}

impl Fills for OneFill {
    ghost numbers = { λ f. f.fill ∷ [] };

    fn hide<T: Elem>(&self, cell: T) -> bool {
        holds(cell, self.fill)
    }
}

/// Some numbers.
#[derive(Clone, Copy)]
pub struct SomeFills<'a> {
    pub fills: &'a [i128],
}

impl<'a> Fills for SomeFills<'a> {
    ghost numbers = { λ f. f.fills.now };

    fn hide<T: Elem>(&self, cell: T) -> bool {
        is_fill(self.fills, cell.widen())
    }
}

fn is_fill(fills: &[i128], n: i128) -> bool
    ensures { result ≡ is_fill fills.now n }
{
    for fill in fills {
        if n == *fill {
            return true;
        }
    }
    false
}
