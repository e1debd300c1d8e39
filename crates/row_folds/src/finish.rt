//! Arrays whose cells are folds.
ghost use Rattle.std.specs.Prelude.{◌≡◌, ◌<◌, ◌≤◌, ℕ, ℤ, Bool, true, false, List, [], length, get_or, Option, All, IfOk};
ghost use Rattle.xr_types.specs.declared.operation.FoldKind.{FoldKind};
ghost use Rattle.xr_arrays.specs.Arrays.{IsCell};
ghost use Rattle.xr_arrays.specs.Folds.{fold_of, folded_kind};
ghost use Rattle.xr_arrays.specs.Nodes.{folded, most_node_cells};
ghost use Rattle.row_folds.specs.Rows.{array_of, has_some, shown, IsFolding};

use crate::accumulator::{Accumulator, Present};
use crate::celled::{Celled, array};
use crate::kinds::folded_kind;
use crate::outcome::{Chosen, Extreme, Finish, Finished, Reached};
use crate::rows::folded_rows;
use crate::source::InRuns;
use std::alloc::{AllocError, Global};
use xr_arrays::{ArrayValue, Feed};
use xr_types::{DType, Elem, FoldKind};

/// The array of a fold whose accumulators hold their results.
pub fn finished<T: Elem, O: Celled, A: Accumulator<T> + Finish<O>, S: InRuns<T>>(
    alloc: Global,
    fold: FoldKind,
    kind: DType,
    start: A,
    feeds: &[Feed],
    shape: &[u64],
    sizes: &[u64],
    source: S,
) -> Result<ArrayValue, AllocError>
    requires ready { S.Ready source }
    requires start { A.Is start [] }
    requires folding { IsFolding feeds.now shape.now sizes.now (length (S.cells source)) }
    requires range { All (IsCell kind) (S.cells source) }
    requires keeps { O.Keeps (folded_kind fold kind) }
    requires meaning { (a : A) (cells : List (ℕ × Option ℤ)) → length cells ≤ most_node_cells → A.Is a cells → A.cell a ≡ fold_of fold kind cells }
    ensures { IfOk result (λ b. b ≡ folded fold feeds.now (array_of kind shape.now (S.cells source))) }
{
    let rows = folded_rows(alloc, start, feeds, shape, sizes, source)?;
    array(
        alloc,
        folded_kind(fold, kind),
        sizes,
        Finished { rows: &rows },
    )
}

fn differs<T: Elem>(a: T, b: T) -> bool
    ensures { result ≡ true → ¬ (T.number a ≡ T.number b) }
{
    a.widen() != b.widen()
}

// Whether each number differs from that of no cell, so that each row has a cell that is present.
fn are_reached<T: Elem, A: Extreme<T>>(rows: &[A], none: T) -> bool
    ensures { result ≡ true → (r : ℕ) (a : A) → r < length rows.now → ¬ (A.extreme (get_or rows.now r a) ≡ T.number none) }
{
    let mut all = true;
    for i in 0..rows.len() {
        all = all & differs(rows[i].extreme(), none);
    }
    all
}

/// The array of least or greatest numbers.
pub fn chosen<T: Celled, A: Accumulator<T> + Extreme<T>, S: InRuns<T>>(
    alloc: Global,
    fold: FoldKind,
    kind: DType,
    start: A,
    feeds: &[Feed],
    shape: &[u64],
    sizes: &[u64],
    source: S,
) -> Result<ArrayValue, AllocError>
    requires ready { S.Ready source }
    requires start { A.Is start [] }
    requires folding { IsFolding feeds.now shape.now sizes.now (length (S.cells source)) }
    requires range { All (IsCell kind) (S.cells source) }
    requires keeps { T.Keeps (folded_kind fold kind) }
    requires meaning { (a : A) (some : Bool) (cells : List (ℕ × Option ℤ)) → A.Is a cells → has_some cells ≡ some → shown some (A.extreme a) ≡ fold_of fold kind cells }
    requires none { (a : A) (cells : List (ℕ × Option ℤ)) → A.Is a cells → has_some cells ≡ false → A.extreme a ≡ A.extreme start }
    ensures { IfOk result (λ b. b ≡ folded fold feeds.now (array_of kind shape.now (S.cells source))) }
{
    let rows = folded_rows(alloc, start, feeds, shape, sizes, source)?;
    if are_reached(&rows, start.extreme()) {
        return array(
            alloc,
            folded_kind(fold, kind),
            sizes,
            Reached { rows: &rows },
        );
    }
    let some = folded_rows(alloc, Present { some: false }, feeds, shape, sizes, source)?;
    array(
        alloc,
        folded_kind(fold, kind),
        sizes,
        Chosen {
            rows: &rows,
            some: &some,
        },
    )
}
