//! Folds at each kind against NumPy's.
ghost use Rattle.std.specs.Prelude.{◌≡◌, ◌≤◌, ◌^◌, length};

use fold_kernel::{Partial, scan_masked, scan_run};
use std::process::Abort;
use xr_types::{DType, Elem, FoldKind};

fn folds() -> [FoldKind; 11] {
    [
        FoldKind::Sum,
        FoldKind::Prod,
        FoldKind::Min,
        FoldKind::Max,
        FoldKind::First,
        FoldKind::Last,
        FoldKind::ArgMin,
        FoldKind::ArgMax,
        FoldKind::Count,
        FoldKind::Any,
        FoldKind::All,
    ]
}

/// The fold of cells from position 0 on, as one run.
fn of_run<T: Elem>(fold: FoldKind, of: DType, cells: &[T]) -> Option<i128>
    requires { length cells.now ≤ 100 }
{
    let mut partial = Partial::empty(fold, of);
    partial.absorb_run(0, cells);
    partial.finish()
}

/// The same as two runs with a mask, put together.
fn of_masked<T: Elem>(fold: FoldKind, of: DType, cells: &[T], mask: &[u8]) -> Option<i128>
    requires few { length cells.now ≤ 100 }
    requires mask { length mask.now ≡ length cells.now }
{
    let half = cells.len() / 2;
    let mut partial = Partial::empty(fold, of);
    partial.absorb_masked(0, &cells[..half], &mask[..half]);
    let mut later = Partial::empty(fold, of);
    later.absorb_masked(half as u64, &cells[half..], &mask[half..]);
    partial.combine(later).finish()
}

/// The same cell by cell.
fn of_cells<T: Elem>(fold: FoldKind, of: DType, cells: &[T], mask: &[u8]) -> Option<i128>
    requires few { length cells.now ≤ 100 }
    requires mask { length mask.now ≡ length cells.now }
{
    let mut partial = Partial::empty(fold, of);
    for i in 0..cells.len() {
        let cell = if mask[i] == 0 {
            Some(cells[i].widen())
        } else {
            None
        };
        partial.absorb(i as u64, cell);
    }
    partial.finish()
}

fn mask() -> [u8; 6] {
    [1, 0, 0, 0, 1, 0]
}

/// Tries each fold of the six cells, without the mask above and with it.
fn try_kind<T: Elem>(
    rt: &impl Abort,
    of: DType,
    cells: &[T; 6],
    whole: &[i128; 11],
    masked: &[i128; 11],
) {
    let folds = folds();
    for i in 0..11 {
        let fold = folds[i];
        assert_eq!(rt; of_run(fold, of, cells), Some(whole[i]), "fold {i}");
        assert_eq!(rt;
            of_cells(fold, of, cells, &[0; 6]),
            Some(whole[i]),
            "fold {i}"
        );
        assert_eq!(rt;
            of_masked(fold, of, cells, &mask()),
            Some(masked[i]),
            "fold {i}"
        );
        assert_eq!(rt;
            of_cells(fold, of, cells, &mask()),
            Some(masked[i]),
            "fold {i}"
        );
    }
}

// The numbers are NumPy 1.24's: `numpy.ma.array(cells, mask=[1, 0, 0, 0, 1, 0], dtype=kind)` and the same without a
// mask, under `sum(dtype="int64")`, `prod(dtype="int64")`, `min()`, `max()`, `compressed()[0]`, `compressed()[-1]`,
// `argmin()`, `argmax()`, `count()`, `any()` and `all()`; `uint8` for bytes of text.
#[test]
fn narrow_kinds(rt: HostRuntime) {
    try_kind(
        &rt,
        DType::Bool,
        &[1u8, 0, 1, 1, 0, 1],
        &[4, 0, 0, 1, 1, 1, 1, 0, 6, 1, 0],
        &[3, 0, 0, 1, 0, 1, 1, 2, 4, 1, 0],
    );
    try_kind(
        &rt,
        DType::Char,
        &[97u8, 0, 255, 65, 255, 0],
        &[672, 0, 0, 255, 97, 0, 1, 2, 6, 1, 0],
        &[320, 0, 0, 255, 0, 0, 1, 2, 4, 1, 0],
    );
    try_kind(
        &rt,
        DType::Int8,
        &[3i8, -128, 127, -128, 127, 100],
        &[101, 79277260800, -128, 127, 3, 100, 1, 2, 6, 1, 1],
        &[-29, 208076800, -128, 127, -128, 100, 1, 2, 4, 1, 1],
    );
    try_kind(
        &rt,
        DType::Int16,
        &[-32768i16, 32767, 32767, -32768, 5, -1],
        &[
            2,
            -5764255684682055680,
            -32768,
            32767,
            -32768,
            -1,
            0,
            1,
            6,
            1,
            1,
        ],
        &[
            32765,
            35182224637952,
            -32768,
            32767,
            32767,
            -1,
            3,
            1,
            4,
            1,
            1,
        ],
    );
}

#[test]
fn wide_kinds(rt: HostRuntime) {
    const LEAST: i128 = -9223372036854775808;
    const MOST: i128 = 9223372036854775807;
    try_kind(
        &rt,
        DType::Int32,
        &[2147483647, 2147483647, -2147483648, 7, -2147483648, 1],
        &[
            6,
            -4611686018427387904,
            -2147483648,
            2147483647,
            2147483647,
            1,
            2,
            0,
            6,
            1,
            1,
        ],
        &[
            7,
            4611686033459773440,
            -2147483648,
            2147483647,
            2147483647,
            1,
            2,
            1,
            4,
            1,
            1,
        ],
    );
    try_kind(
        &rt,
        DType::Int64,
        &[i64::MAX, i64::MAX, i64::MIN, i64::MIN, 3, 5],
        &[6, 0, LEAST, MOST, MOST, 5, 2, 0, 6, 1, 1],
        &[-9223372036854775804, 0, LEAST, MOST, MOST, 5, 2, 1, 4, 1, 1],
    );
}

// `sum(dtype="uint64")` and `prod(dtype="uint64")`, which wrap at 64 bits; the numbers are those of Python's whole
// numbers.
#[test]
fn kinds_without_a_sign(rt: HostRuntime) {
    try_kind(
        &rt,
        DType::UInt8,
        &[200u8, 100, 255, 100, 7, 255],
        &[917, 910350000000, 7, 255, 200, 255, 4, 2, 6, 1, 1],
        &[710, 650250000, 100, 255, 100, 255, 1, 2, 4, 1, 1],
    );
    try_kind(
        &rt,
        DType::UInt16,
        &[65535u16, 40000, 65535, 3, 1, 40001],
        &[
            211075,
            2168985186637448384,
            1,
            65535,
            65535,
            40001,
            4,
            0,
            6,
            1,
            1,
        ],
        &[
            145539,
            314575864200000,
            3,
            65535,
            40000,
            40001,
            3,
            2,
            4,
            1,
            1,
        ],
    );
    try_kind(
        &rt,
        DType::UInt32,
        &[4294967295u32, 4294967295, 2147483648, 7, 2147483648, 1],
        &[
            12884901894,
            13835058055282163712,
            1,
            4294967295,
            4294967295,
            1,
            5,
            0,
            6,
            1,
            1,
        ],
        &[
            6442450951,
            9223372021822390272,
            1,
            4294967295,
            4294967295,
            1,
            5,
            1,
            4,
            1,
            1,
        ],
    );
    try_kind(
        &rt,
        DType::UInt64,
        &[
            18446744073709551615u64,
            9223372036854775808,
            3,
            18446744073709551615,
            5,
            9223372036854775809,
        ],
        &[
            7,
            9223372036854775808,
            3,
            18446744073709551615,
            18446744073709551615,
            9223372036854775809,
            2,
            0,
            6,
            1,
            1,
        ],
        &[
            3,
            9223372036854775808,
            3,
            18446744073709551615,
            9223372036854775808,
            9223372036854775809,
            2,
            3,
            4,
            1,
            1,
        ],
    );
}

/// What a fold of missing cells gives, as two runs with a mask.
fn of_hidden(fold: FoldKind) -> Option<i128> {
    of_masked::<i16>(fold, DType::Int16, &[4, 5], &[1, 1])
}

fn of_no_cells(fold: FoldKind) -> Option<i128> {
    of_run::<i16>(fold, DType::Int16, &[])
}

fn of_nothing() -> [Option<i128>; 11] {
    [
        Some(0),
        Some(1),
        None,
        None,
        None,
        None,
        None,
        None,
        Some(0),
        Some(0),
        Some(1),
    ]
}

// Over missing cells alone a sum is 0, a product 1, a count 0, any false, all true, and the others give a missing cell.
#[test]
fn nothing_present(rt: HostRuntime) {
    let folds = folds();
    let wanted = of_nothing();
    for i in 0..11 {
        assert_eq!(rt; of_hidden(folds[i]), wanted[i], "fold {i}");
        assert_eq!(rt; of_no_cells(folds[i]), wanted[i], "fold {i}");
    }
}

fn cells() -> [i8; 4] {
    [100, -128, 127, 5]
}

/// The second is hidden.
fn mask_of_cells() -> [u8; 4] {
    [0, 1, 0, 0]
}

fn are(rt: &impl Abort, sums: [i64; 4], wanted: [i64; 4]) {
    for i in 0..4 {
        assert_eq!(rt; sums[i], wanted[i], "cell {i}");
    }
}

// `1000 + numpy.cumsum(numpy.array([100, -128, 127, 5], dtype="int8"), dtype="int64")`, and the same from 1104 on with
// the second cell masked and filled by 0.
#[test]
fn running_sums(rt: HostRuntime) {
    let mut before = Partial::empty(FoldKind::Sum, DType::Int8);
    before.absorb(0, Some(1000));
    let mut whole = [0; 4];
    let after = scan_run(before, &cells(), &mut whole);
    let mut masked = [0; 4];
    let last = scan_masked(after, &cells(), &mask_of_cells(), &mut masked);
    are(&rt, whole, [1100, 972, 1099, 1104]);
    are(&rt, masked, [1204, 1204, 1331, 1336]);
    assert_eq!(rt; last.finish(), Some(1336));
}

// The same of `uint8`, whose sums are `uint64`.
#[test]
fn running_sums_without_a_sign(rt: HostRuntime) {
    let mut before = Partial::empty(FoldKind::Sum, DType::UInt8);
    before.absorb(0, Some(255));
    let mut sums = [0u64; 3];
    let after = scan_run(before, &[200u8, 0, 255], &mut sums);
    for (sum, wanted) in sums.iter().zip([455, 455, 710]) {
        assert_eq!(rt; *sum, wanted);
    }
    assert_eq!(rt; after.finish(), Some(710));
}
