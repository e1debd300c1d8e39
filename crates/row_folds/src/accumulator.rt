//! What folds of cells keep, each at its own width.
ghost use Rattle.std.specs.Prelude.{◌≡◌, ◌≤◌, ◌<◌, ◌^◌, ◌+ℤ◌, ◌*ℤ◌, ◌||◌, ◌&&◌, ℕ, ℤ, pos, not, List, [], ◌∷◌, ◌++◌, Option, Some, length, if◌then◌else◌, int_lt};
ghost use Rattle.std.specs.Int.{int_wrap, w64};
ghost use Rattle.xr_types.specs.Kinds.{low, high};
ghost use Rattle.xr_types.specs.declared.kind.DType.TheVariants.{Int64};
ghost use Rattle.xr_types.specs.declared.operation.FoldKind.TheVariants.{Sum, Prod, Min, Max, First as Firsts, Last as Lasts, ArgMin, ArgMax, Count, Any, All};
ghost use Rattle.xr_arrays.specs.Folds.{fold_of, truth, is_nonzero};
ghost use Rattle.row_folds.specs.Rows.{shown, or_number, has_some, is_better};

use xr_types::Elem;

/// A fold of cells of a type that is under way.
pub trait Accumulator<T: Elem>: Copy + Drop {
    /// It is the fold of these cells.
    ghost Is: { Self → List (ℕ × Option ℤ) → Type 0 };

    /// The fold with one more cell behind the others, at a position of the axis that is folded.
    fn with(self, position: u64, cell: T, present: bool) -> Self
        requires { position < 2 ^ 62 }
        ensures { (before : List (ℕ × Option ℤ)) → Is self before → Is result (before ++ (position, shown present (T.number cell)) ∷ []) };

    /// The fold of the cells of both, those of the other behind.
    fn combine(self, after: Self) -> Self
        ensures { (a b : List (ℕ × Option ℤ)) → Is self a → Is after b → Is result (a ++ b) };
}

#[tactic(auto, using(std::proofs::lemmas::Int::wraps))]
pub(crate) fn added(a: i64, b: i64) -> i64
    ensures { result ≡ int_wrap w64 (a +ℤ b) }
{
    a.wrapping_add(b)
}

#[tactic(auto, using(std::proofs::lemmas::Int::wraps))]
fn multiplied(a: i64, b: i64) -> i64
    ensures { result ≡ int_wrap w64 (a *ℤ b) }
{
    a.wrapping_mul(b)
}

// What 64 bits leave of a cell's number, or of another number where the cell is missing.
pub(crate) fn number_or<T: Elem>(cell: T, present: bool, other: i64) -> i64
    ensures { result ≡ int_wrap w64 (or_number other (shown present (T.number cell))) }
{
    let number = if present {
        cell.widen()
    } else {
        i128::from(other)
    };
    i64::wrap_from(number)
}

// Whether a cell is there and isn't 0.
fn is_nonzero<T: Elem>(cell: T, present: bool) -> bool
    ensures { result ≡ (present && is_nonzero (T.number cell)) }
{
    present & (cell.widen() != 0)
}

// Whether a cell is there and is 0.
fn is_zero<T: Elem>(cell: T, present: bool) -> bool
    ensures { result ≡ (present && not (is_nonzero (T.number cell))) }
{
    present & (cell.widen() == 0)
}

fn is_less<T: Elem>(a: T, b: T) -> bool
    ensures { result ≡ int_lt (T.number a) (T.number b) }
{
    a.widen() < b.widen()
}

// Whether a cell is taken in the place of the one before.
fn is_better(present: bool, some: bool, better: bool) -> bool
    ensures { result ≡ is_better present some better }
{
    present & (!some | better)
}

/// The sum, wrapped at 64 bits.
impl<T: Elem> Accumulator<T> for i64 {
    ghost Is = { λ a cells. fold_of Sum Int64 cells ≡ Some a };

    #[tactic(auto, using(crate::proofs::Steps::sum_more))]
    fn with(self, _position: u64, cell: T, present: bool) -> i64 {
        added(self, number_or(cell, present, 0))
    }

    #[tactic(auto, using(crate::proofs::Joined::sum_both))]
    fn combine(self, after: i64) -> i64 {
        added(self, after)
    }
}

/// The product, wrapped at 64 bits.
#[derive(Clone, Copy)]
pub struct Product {
    pub product: i64,
}

impl<T: Elem> Accumulator<T> for Product {
    ghost Is = { λ a cells. fold_of Prod Int64 cells ≡ Some a.product };

    #[tactic(auto, using(crate::proofs::Steps::product_more))]
    fn with(self, _position: u64, cell: T, present: bool) -> Product {
        Product {
            product: multiplied(self.product, number_or(cell, present, 1)),
        }
    }

    #[tactic(auto, using(crate::proofs::Joined::product_both))]
    fn combine(self, after: Product) -> Product {
        Product {
            product: multiplied(self.product, after.product),
        }
    }
}

/// How many cells are present.
#[derive(Clone, Copy)]
pub struct Counted {
    pub count: i64,
}

impl<T: Elem> Accumulator<T> for Counted {
    ghost Is = { λ a cells. length cells ≤ 2 ^ 62 → fold_of Count Int64 cells ≡ Some a.count };

    #[tactic(auto, using(crate::proofs::Steps::count_more))]
    fn with(self, _position: u64, _cell: T, present: bool) -> Counted {
        Counted {
            count: added(self.count, i64::from(present)),
        }
    }

    #[tactic(auto, using(crate::proofs::Joined::count_both))]
    fn combine(self, after: Counted) -> Counted {
        Counted {
            count: added(self.count, after.count),
        }
    }
}

/// Whether a cell isn't 0.
#[derive(Clone, Copy)]
pub struct AnyNonzero {
    pub any: bool,
}

impl<T: Elem> Accumulator<T> for AnyNonzero {
    ghost Is = { λ a cells. fold_of Any Int64 cells ≡ Some (truth a.any) };

    #[tactic(auto, using(crate::proofs::Steps::any_more))]
    fn with(self, _position: u64, cell: T, present: bool) -> AnyNonzero {
        AnyNonzero {
            any: self.any | is_nonzero(cell, present),
        }
    }

    #[tactic(auto, using(crate::proofs::Joined::any_both))]
    fn combine(self, after: AnyNonzero) -> AnyNonzero {
        AnyNonzero {
            any: self.any | after.any,
        }
    }
}

/// Whether no cell is 0.
#[derive(Clone, Copy)]
pub struct AllNonzero {
    pub all: bool,
}

impl<T: Elem> Accumulator<T> for AllNonzero {
    ghost Is = { λ a cells. fold_of All Int64 cells ≡ Some (truth a.all) };

    #[tactic(auto, using(crate::proofs::Steps::all_more))]
    fn with(self, _position: u64, cell: T, present: bool) -> AllNonzero {
        AllNonzero {
            all: self.all & !is_zero(cell, present),
        }
    }

    #[tactic(auto, using(crate::proofs::Joined::all_both))]
    fn combine(self, after: AllNonzero) -> AllNonzero {
        AllNonzero {
            all: self.all & after.all,
        }
    }
}

/// Whether a cell is present.
#[derive(Clone, Copy)]
pub struct Present {
    pub some: bool,
}

impl<T: Elem> Accumulator<T> for Present {
    ghost Is = { λ a cells. has_some cells ≡ a.some };

    #[tactic(auto, using(crate::proofs::Steps::some_more))]
    fn with(self, _position: u64, _cell: T, present: bool) -> Present {
        Present {
            some: self.some | present,
        }
    }

    #[tactic(auto, using(crate::proofs::Joined::some_both))]
    fn combine(self, after: Present) -> Present {
        Present {
            some: self.some | after.some,
        }
    }
}

/// The least number, or the greatest one of the type where no cell is present.
#[derive(Clone, Copy)]
pub struct Least<T> {
    pub number: T,
}

impl<T: Elem> Accumulator<T> for Least<T> {
    ghost Is = { λ a cells. T.number a.number ≡ or_number (high T.kind) (fold_of Min Int64 cells) };

    #[tactic(auto, using(crate::proofs::Steps::least_more))]
    fn with(self, _position: u64, cell: T, present: bool) -> Least<T> {
        let _range = cell.widen();
        if present & is_less(cell, self.number) {
            Least { number: cell }
        } else {
            self
        }
    }

    #[tactic(auto, using(crate::proofs::Joined::least_both))]
    fn combine(self, after: Least<T>) -> Least<T> {
        let _range = self.number.widen();
        let _other_range = after.number.widen();
        if is_less(after.number, self.number) {
            after
        } else {
            self
        }
    }
}

/// The greatest number, or the least one of the type where no cell is present.
#[derive(Clone, Copy)]
pub struct Greatest<T> {
    pub number: T,
}

impl<T: Elem> Accumulator<T> for Greatest<T> {
    ghost Is = { λ a cells. T.number a.number ≡ or_number (low T.kind) (fold_of Max Int64 cells) };

    #[tactic(auto, using(crate::proofs::Steps::greatest_more))]
    fn with(self, _position: u64, cell: T, present: bool) -> Greatest<T> {
        let _range = cell.widen();
        if present & is_less(self.number, cell) {
            Greatest { number: cell }
        } else {
            self
        }
    }

    #[tactic(auto, using(crate::proofs::Joined::greatest_both))]
    fn combine(self, after: Greatest<T>) -> Greatest<T> {
        let _range = self.number.widen();
        let _other_range = after.number.widen();
        if is_less(self.number, after.number) {
            after
        } else {
            self
        }
    }
}

/// The first present cell.
#[derive(Clone, Copy)]
pub struct First<T> {
    pub some: bool,
    pub number: T,
}

impl<T: Elem> Accumulator<T> for First<T> {
    ghost Is = { λ a cells. fold_of Firsts Int64 cells ≡ shown a.some (T.number a.number) };

    #[tactic(auto, using(crate::proofs::Steps::first_kept, crate::proofs::Steps::first_taken))]
    fn with(self, _position: u64, cell: T, present: bool) -> First<T> {
        if self.some {
            self
        } else {
            First {
                some: present,
                number: cell,
            }
        }
    }

    #[tactic(auto, using(crate::proofs::Joined::first_before, crate::proofs::Joined::first_both))]
    fn combine(self, after: First<T>) -> First<T> {
        if self.some { self } else { after }
    }
}

/// The last present cell.
#[derive(Clone, Copy)]
pub struct Last<T> {
    pub some: bool,
    pub number: T,
}

impl<T: Elem> Accumulator<T> for Last<T> {
    ghost Is = { λ a cells. fold_of Lasts Int64 cells ≡ shown a.some (T.number a.number) };

    #[tactic(auto, using(crate::proofs::Steps::last_kept, crate::proofs::Steps::last_taken))]
    fn with(self, _position: u64, cell: T, present: bool) -> Last<T> {
        if present {
            Last {
                some: true,
                number: cell,
            }
        } else {
            self
        }
    }

    #[tactic(auto, using(crate::proofs::Joined::last_behind, crate::proofs::Joined::last_both))]
    fn combine(self, after: Last<T>) -> Last<T> {
        if after.some { after } else { self }
    }
}

/// The first of the least cells, with its position.
#[derive(Clone, Copy)]
pub struct LeastAt<T> {
    pub some: bool,
    pub number: T,
    pub position: u64,
}

impl<T: Elem> Accumulator<T> for LeastAt<T> {
    ghost Is = { λ a cells. (fold_of Min Int64 cells ≡ shown a.some (T.number a.number)) × (fold_of ArgMin Int64 cells ≡ shown a.some (pos a.position)) × (a.position < 2 ^ 62) };

    #[tactic(auto, using(crate::proofs::Steps::least_at_kept, crate::proofs::Steps::least_at_taken))]
    fn with(self, position: u64, cell: T, present: bool) -> LeastAt<T> {
        if is_better(present, self.some, is_less(cell, self.number)) {
            LeastAt {
                some: true,
                number: cell,
                position,
            }
        } else {
            self
        }
    }

    #[tactic(auto, using(crate::proofs::Joined::least_at_before, crate::proofs::Joined::least_at_behind))]
    fn combine(self, after: LeastAt<T>) -> LeastAt<T> {
        if is_better(after.some, self.some, is_less(after.number, self.number)) {
            after
        } else {
            self
        }
    }
}

/// The first of the greatest cells, with its position.
#[derive(Clone, Copy)]
pub struct GreatestAt<T> {
    pub some: bool,
    pub number: T,
    pub position: u64,
}

impl<T: Elem> Accumulator<T> for GreatestAt<T> {
    ghost Is = { λ a cells. (fold_of Max Int64 cells ≡ shown a.some (T.number a.number)) × (fold_of ArgMax Int64 cells ≡ shown a.some (pos a.position)) × (a.position < 2 ^ 62) };

    #[tactic(auto, using(crate::proofs::Steps::greatest_at_kept, crate::proofs::Steps::greatest_at_taken))]
    fn with(self, position: u64, cell: T, present: bool) -> GreatestAt<T> {
        if is_better(present, self.some, is_less(self.number, cell)) {
            GreatestAt {
                some: true,
                number: cell,
                position,
            }
        } else {
            self
        }
    }

    #[tactic(auto, using(crate::proofs::Joined::greatest_at_before, crate::proofs::Joined::greatest_at_behind))]
    fn combine(self, after: GreatestAt<T>) -> GreatestAt<T> {
        if is_better(after.some, self.some, is_less(self.number, after.number)) {
            after
        } else {
            self
        }
    }
}
