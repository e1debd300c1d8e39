//! The fold of an array, whatever the fold and its cells.
ghost use Rattle.std.specs.Prelude.{◌≡◌, ◌≤◌, false, length, All, IfOk};
ghost use Rattle.xr_types.specs.Kinds.{is_unsigned};
ghost use Rattle.xr_types.specs.Points.{size};
ghost use Rattle.xr_types.specs.declared.operation.FoldKind.{FoldKind};
ghost use Rattle.xr_types.specs.declared.operation.FoldKind.TheVariants.{Sum, Prod, Min, Max, First as Firsts, Last as Lasts, ArgMin, ArgMax, Count, Any, All as Alls};
ghost use Rattle.xr_arrays.specs.Arrays.{IsArray, IsCell};
ghost use Rattle.xr_arrays.specs.Nodes.{folded, kept, AreFed, most_node_cells};
ghost use Rattle.row_folds.specs.Rows.{array_of, IsFolding};

use crate::accumulator::{
    AllNonzero, AnyNonzero, Counted, First, Greatest, GreatestAt, Last, Least, LeastAt, Product,
};
use crate::celled::{Celled, whole_array};
use crate::finish::{chosen, finished};
use crate::rows::folded_rows;
use crate::source::InRuns;
use std::alloc::{AllocError, Global};
use xr_arrays::{ArrayValue, Feed};
use xr_types::{DType, Elem, FoldKind, is_unsigned};

// The sums of signed cells, which the accumulators are.
fn signed_sum<T: Elem, S: InRuns<T>>(
    alloc: Global,
    kind: DType,
    feeds: &[Feed],
    shape: &[u64],
    sizes: &[u64],
    source: S,
) -> Result<ArrayValue, AllocError>
    requires ready { S.Ready source }
    requires folding { IsFolding feeds.now shape.now sizes.now (length (S.cells source)) }
    requires range { All (IsCell kind) (S.cells source) }
    requires signed { is_unsigned kind ≡ false }
    ensures { IfOk result (λ b. b ≡ folded Sum feeds.now (array_of kind shape.now (S.cells source))) }
{
    let rows = folded_rows::<T, i64, S>(alloc, 0, feeds, shape, sizes, source)?;
    whole_array(alloc, DType::Int64, sizes, rows)
}

#[tactic(auto, using(crate::proofs::Meanings::sum_unsigned, crate::proofs::Meanings::unsigned_total, crate::proofs::Meanings::sum_none_is))]
fn sum<T: Elem, S: InRuns<T>>(
    alloc: Global,
    kind: DType,
    feeds: &[Feed],
    shape: &[u64],
    sizes: &[u64],
    source: S,
) -> Result<ArrayValue, AllocError>
    requires ready { S.Ready source }
    requires folding { IsFolding feeds.now shape.now sizes.now (length (S.cells source)) }
    requires range { All (IsCell kind) (S.cells source) }
    ensures { IfOk result (λ b. b ≡ folded Sum feeds.now (array_of kind shape.now (S.cells source))) }
{
    if is_unsigned(kind) {
        finished::<T, u64, i64, S>(alloc, FoldKind::Sum, kind, 0, feeds, shape, sizes, source)
    } else {
        signed_sum(alloc, kind, feeds, shape, sizes, source)
    }
}

#[tactic(auto, using(crate::proofs::Meanings::product_signed, crate::proofs::Meanings::product_unsigned, crate::proofs::Meanings::signed_total, crate::proofs::Meanings::unsigned_total, crate::proofs::Meanings::product_none_is))]
fn product<T: Elem, S: InRuns<T>>(
    alloc: Global,
    kind: DType,
    feeds: &[Feed],
    shape: &[u64],
    sizes: &[u64],
    source: S,
) -> Result<ArrayValue, AllocError>
    requires ready { S.Ready source }
    requires folding { IsFolding feeds.now shape.now sizes.now (length (S.cells source)) }
    requires range { All (IsCell kind) (S.cells source) }
    ensures { IfOk result (λ b. b ≡ folded Prod feeds.now (array_of kind shape.now (S.cells source))) }
{
    if is_unsigned(kind) {
        finished::<T, u64, Product, S>(
            alloc,
            FoldKind::Prod,
            kind,
            Product { product: 1 },
            feeds,
            shape,
            sizes,
            source,
        )
    } else {
        finished::<T, i64, Product, S>(
            alloc,
            FoldKind::Prod,
            kind,
            Product { product: 1 },
            feeds,
            shape,
            sizes,
            source,
        )
    }
}

#[tactic(auto, using(crate::proofs::Meanings::count_meaning))]
fn count<T: Elem, S: InRuns<T>>(
    alloc: Global,
    kind: DType,
    feeds: &[Feed],
    shape: &[u64],
    sizes: &[u64],
    source: S,
) -> Result<ArrayValue, AllocError>
    requires ready { S.Ready source }
    requires folding { IsFolding feeds.now shape.now sizes.now (length (S.cells source)) }
    requires range { All (IsCell kind) (S.cells source) }
    ensures { IfOk result (λ b. b ≡ folded Count feeds.now (array_of kind shape.now (S.cells source))) }
{
    finished::<T, i64, Counted, S>(
        alloc,
        FoldKind::Count,
        kind,
        Counted { count: 0 },
        feeds,
        shape,
        sizes,
        source,
    )
}

#[tactic(auto, using(crate::proofs::Meanings::any_meaning))]
fn any<T: Elem, S: InRuns<T>>(
    alloc: Global,
    kind: DType,
    feeds: &[Feed],
    shape: &[u64],
    sizes: &[u64],
    source: S,
) -> Result<ArrayValue, AllocError>
    requires ready { S.Ready source }
    requires folding { IsFolding feeds.now shape.now sizes.now (length (S.cells source)) }
    requires range { All (IsCell kind) (S.cells source) }
    ensures { IfOk result (λ b. b ≡ folded Any feeds.now (array_of kind shape.now (S.cells source))) }
{
    finished::<T, u8, AnyNonzero, S>(
        alloc,
        FoldKind::Any,
        kind,
        AnyNonzero { any: false },
        feeds,
        shape,
        sizes,
        source,
    )
}

#[tactic(auto, using(crate::proofs::Meanings::all_meaning))]
fn all<T: Elem, S: InRuns<T>>(
    alloc: Global,
    kind: DType,
    feeds: &[Feed],
    shape: &[u64],
    sizes: &[u64],
    source: S,
) -> Result<ArrayValue, AllocError>
    requires ready { S.Ready source }
    requires folding { IsFolding feeds.now shape.now sizes.now (length (S.cells source)) }
    requires range { All (IsCell kind) (S.cells source) }
    ensures { IfOk result (λ b. b ≡ folded Alls feeds.now (array_of kind shape.now (S.cells source))) }
{
    finished::<T, u8, AllNonzero, S>(
        alloc,
        FoldKind::All,
        kind,
        AllNonzero { all: true },
        feeds,
        shape,
        sizes,
        source,
    )
}

#[tactic(auto, using(crate::proofs::Meanings::least_meaning))]
fn min<T: Celled, S: InRuns<T>>(
    alloc: Global,
    kind: DType,
    feeds: &[Feed],
    shape: &[u64],
    sizes: &[u64],
    source: S,
) -> Result<ArrayValue, AllocError>
    requires ready { S.Ready source }
    requires folding { IsFolding feeds.now shape.now sizes.now (length (S.cells source)) }
    requires range { All (IsCell kind) (S.cells source) }
    requires keeps { T.Keeps kind }
    ensures { IfOk result (λ b. b ≡ folded Min feeds.now (array_of kind shape.now (S.cells source))) }
{
    let start = Least {
        number: T::greatest(),
    };
    chosen::<T, Least<T>, S>(
        alloc,
        FoldKind::Min,
        kind,
        start,
        feeds,
        shape,
        sizes,
        source,
    )
}

#[tactic(auto, using(crate::proofs::Meanings::greatest_meaning))]
fn max<T: Celled, S: InRuns<T>>(
    alloc: Global,
    kind: DType,
    feeds: &[Feed],
    shape: &[u64],
    sizes: &[u64],
    source: S,
) -> Result<ArrayValue, AllocError>
    requires ready { S.Ready source }
    requires folding { IsFolding feeds.now shape.now sizes.now (length (S.cells source)) }
    requires range { All (IsCell kind) (S.cells source) }
    requires keeps { T.Keeps kind }
    ensures { IfOk result (λ b. b ≡ folded Max feeds.now (array_of kind shape.now (S.cells source))) }
{
    let start = Greatest { number: T::least() };
    chosen::<T, Greatest<T>, S>(
        alloc,
        FoldKind::Max,
        kind,
        start,
        feeds,
        shape,
        sizes,
        source,
    )
}

#[tactic(auto, using(crate::proofs::Meanings::first_meaning))]
fn first<T: Celled, S: InRuns<T>>(
    alloc: Global,
    kind: DType,
    feeds: &[Feed],
    shape: &[u64],
    sizes: &[u64],
    source: S,
) -> Result<ArrayValue, AllocError>
    requires ready { S.Ready source }
    requires folding { IsFolding feeds.now shape.now sizes.now (length (S.cells source)) }
    requires range { All (IsCell kind) (S.cells source) }
    requires keeps { T.Keeps kind }
    ensures { IfOk result (λ b. b ≡ folded Firsts feeds.now (array_of kind shape.now (S.cells source))) }
{
    let start = First {
        some: false,
        number: T::least(),
    };
    finished::<T, T, First<T>, S>(
        alloc,
        FoldKind::First,
        kind,
        start,
        feeds,
        shape,
        sizes,
        source,
    )
}

#[tactic(auto, using(crate::proofs::Meanings::last_meaning))]
fn last<T: Celled, S: InRuns<T>>(
    alloc: Global,
    kind: DType,
    feeds: &[Feed],
    shape: &[u64],
    sizes: &[u64],
    source: S,
) -> Result<ArrayValue, AllocError>
    requires ready { S.Ready source }
    requires folding { IsFolding feeds.now shape.now sizes.now (length (S.cells source)) }
    requires range { All (IsCell kind) (S.cells source) }
    requires keeps { T.Keeps kind }
    ensures { IfOk result (λ b. b ≡ folded Lasts feeds.now (array_of kind shape.now (S.cells source))) }
{
    let start = Last {
        some: false,
        number: T::least(),
    };
    finished::<T, T, Last<T>, S>(
        alloc,
        FoldKind::Last,
        kind,
        start,
        feeds,
        shape,
        sizes,
        source,
    )
}

#[tactic(auto, using(crate::proofs::Meanings::least_at_meaning))]
fn least_at<T: Elem, S: InRuns<T>>(
    alloc: Global,
    kind: DType,
    feeds: &[Feed],
    shape: &[u64],
    sizes: &[u64],
    source: S,
) -> Result<ArrayValue, AllocError>
    requires ready { S.Ready source }
    requires folding { IsFolding feeds.now shape.now sizes.now (length (S.cells source)) }
    requires range { All (IsCell kind) (S.cells source) }
    ensures { IfOk result (λ b. b ≡ folded ArgMin feeds.now (array_of kind shape.now (S.cells source))) }
{
    let start = LeastAt {
        some: false,
        number: T::least(),
        position: 0,
    };
    finished::<T, i64, LeastAt<T>, S>(
        alloc,
        FoldKind::ArgMin,
        kind,
        start,
        feeds,
        shape,
        sizes,
        source,
    )
}

#[tactic(auto, using(crate::proofs::Meanings::greatest_at_meaning))]
fn greatest_at<T: Elem, S: InRuns<T>>(
    alloc: Global,
    kind: DType,
    feeds: &[Feed],
    shape: &[u64],
    sizes: &[u64],
    source: S,
) -> Result<ArrayValue, AllocError>
    requires ready { S.Ready source }
    requires folding { IsFolding feeds.now shape.now sizes.now (length (S.cells source)) }
    requires range { All (IsCell kind) (S.cells source) }
    ensures { IfOk result (λ b. b ≡ folded ArgMax feeds.now (array_of kind shape.now (S.cells source))) }
{
    let start = GreatestAt {
        some: false,
        number: T::least(),
        position: 0,
    };
    finished::<T, i64, GreatestAt<T>, S>(
        alloc,
        FoldKind::ArgMax,
        kind,
        start,
        feeds,
        shape,
        sizes,
        source,
    )
}

/// The fold of the cells of a source.
pub fn folded<T: Celled, S: InRuns<T>>(
    alloc: Global,
    fold: FoldKind,
    kind: DType,
    feeds: &[Feed],
    shape: &[u64],
    sizes: &[u64],
    source: S,
) -> Result<ArrayValue, AllocError>
    requires ready { S.Ready source }
    requires folding { IsFolding feeds.now shape.now sizes.now (length (S.cells source)) }
    requires range { All (IsCell kind) (S.cells source) }
    requires keeps { T.Keeps kind }
    ensures { IfOk result (λ b. b ≡ folded fold feeds.now (array_of kind shape.now (S.cells source))) }
{
    match fold {
        FoldKind::Sum => sum(alloc, kind, feeds, shape, sizes, source),
        FoldKind::Prod => product(alloc, kind, feeds, shape, sizes, source),
        FoldKind::Min => min(alloc, kind, feeds, shape, sizes, source),
        FoldKind::Max => max(alloc, kind, feeds, shape, sizes, source),
        FoldKind::First => first(alloc, kind, feeds, shape, sizes, source),
        FoldKind::Last => last(alloc, kind, feeds, shape, sizes, source),
        FoldKind::ArgMin => least_at(alloc, kind, feeds, shape, sizes, source),
        FoldKind::ArgMax => greatest_at(alloc, kind, feeds, shape, sizes, source),
        FoldKind::Count => count(alloc, kind, feeds, shape, sizes, source),
        FoldKind::Any => any(alloc, kind, feeds, shape, sizes, source),
        FoldKind::All => all(alloc, kind, feeds, shape, sizes, source),
    }
}
