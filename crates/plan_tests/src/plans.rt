//! Nodes computed over two small arrays, worked out by hand, and folds against numpy.ma.
ghost use Rattle.std.specs.Prelude.{◌≡◌, ◌<◌, ◌≤◌, ◌++◌, [], ◌∷◌, length, map, zip, get_or, true, Option, None, option_map, All, IfOk, IfSome, OnOk};
ghost use denote.Param.Send.{IsSync};
ghost use Rattle.xr_types.specs.declared.kind.DType.TheVariants.{Int16};
ghost use Rattle.xr_types.specs.Points.{size};
ghost use Rattle.xr_arrays.specs.Arrays.{cell, hidden, IsArray, IsCell};
ghost use Rattle.xr_types.specs.Widths.{width};
ghost use Rattle.xr_arrays.specs.Numbers.{is_whole};
ghost use Rattle.xr_arrays.specs.Stored.{stored_array, IsStored};
ghost use Rattle.xr_arrays.specs.Nodes.{folded_axes, is_positional, kept, values, AreFed, IsBelow, IsNode, most_axes, most_node_cells};
ghost use Rattle.xr_arrays.specs.declared.node.Feed.TheVariants.{By};
ghost use Rattle.xr_arrays.specs.declared.node.Node.TheVariants.{Source};
ghost use Rattle.plan_tests.specs.Sources.{AreSources};
ghost use Rattle.plan_core.specs.Takes.{taking_sizes};

use arrangement::taken;
use bytes::Bytes;
use graph_pool::{NoGate, Pool, Settings, execute};
use plan_core::{Compute, Plan};
use std::alloc::{AllocError, Global};
use std::test::Fail;
use std::thread::Threads;
use stored_cells::{Typed, as_typed};
use xr_arrays::{ArrayValue, Cells, Feed, Feeds, Form, Node, StoredArray};
use xr_types::{DType, Elem, FoldKind, Items, NcType, NoMemory, NodeId, OpKind, Shape};

// A number, unless its byte in the mask isn't 0.
fn shown<T: Elem>(x: T, byte: u8) -> Option<i128>
    ensures cell { result ≡ cell (T.number x, byte) }
    ensures range { IsCell T.kind result }
{
    if byte == 0 { Some(x.widen()) } else { None }
}

fn under_mask<T: Elem>(
    alloc: Global,
    cells: &[T],
    mask: &[u8],
) -> Result<Vec<Option<i128>>, AllocError>
    requires { length mask.now ≡ length cells.now }
    ensures cells { IfOk result (λ v. v.items ≡ map cell (zip (map T.number cells.now) mask.now)) }
    ensures range { IfOk result (λ v. All (IsCell T.kind) v.items) }
    ensures whole { IfOk result (λ v. length v.items ≡ length cells.now) }
{
    let mut numbers = Vec::with_capacity(alloc, cells.len())?;
    for i in 0..cells.len() {
        numbers.push(shown(cells[i], mask[i]))?;
    }
    Ok(numbers)
}

fn numbers_in<T: Elem>(
    alloc: Global,
    cells: &[T],
    mask: Option<&Items<u8>>,
) -> Result<Vec<Option<i128>>, AllocError>
    requires { IfSome mask (λ m. length m.now ≡ length cells.now) }
    ensures cells { IfOk result (λ v. v.items ≡ hidden (map T.number cells.now) (option_map (λ m. m.now) mask.entry)) }
    ensures range { IfOk result (λ v. All (IsCell T.kind) v.items) }
{
    match mask {
        Some(mask) => under_mask(alloc, cells, mask.as_slice()),
        None => {
            let zeros = Vec::from_elem(alloc, 0u8, cells.len())?;
            under_mask(alloc, cells, &zeros)
        }
    }
}

fn typed_numbers(alloc: Global, typed: &Typed) -> Result<Vec<Option<i128>>, AllocError>
    ensures cells { IfOk result (λ v. v.items ≡ typed.now.cells) }
    ensures range { IfOk result (λ v. All (IsCell typed.now.kind) v.items) }
{
    let (cells, mask) = typed.parts();
    match cells {
        Cells::Bool(v) => numbers_in(alloc, v.as_slice(), mask),
        Cells::Char(v) => numbers_in(alloc, v.as_slice(), mask),
        Cells::Int8(v) => numbers_in(alloc, v.as_slice(), mask),
        Cells::Int16(v) => numbers_in(alloc, v.as_slice(), mask),
        Cells::Int32(v) => numbers_in(alloc, v.as_slice(), mask),
        Cells::Int64(v) => numbers_in(alloc, v.as_slice(), mask),
        Cells::UInt8(v) => numbers_in(alloc, v.as_slice(), mask),
        Cells::UInt16(v) => numbers_in(alloc, v.as_slice(), mask),
        Cells::UInt32(v) => numbers_in(alloc, v.as_slice(), mask),
        Cells::UInt64(v) => numbers_in(alloc, v.as_slice(), mask),
    }
}

// The cells of an array, as numbers or holes.
fn numbers_of(alloc: Global, a: &ArrayValue) -> Result<Vec<Option<i128>>, AllocError>
    ensures cells { IfOk result (λ v. v.items ≡ a.now.cells) }
    ensures range { IfOk result (λ v. All (IsCell a.now.kind) v.items) }
{
    let typed = as_typed(alloc, a)?;
    typed_numbers(alloc, &typed)
}

// An array of shorts with a mask.
fn shorts(
    alloc: Global,
    shape: &[u64],
    cells: &[i16],
    mask: &[u8],
) -> Result<ArrayValue, AllocError>
    requires cells { length cells.now ≡ size shape.now }
    requires mask { length mask.now ≡ size shape.now }
    ensures kind { IfOk result (λ a. a.kind ≡ Int16) }
    ensures shape { IfOk result (λ a. a.shape ≡ shape.now) }
    ensures array { IfOk result IsArray }
{
    // Its contract says that each cell is in the range of its kind.
    under_mask(alloc, cells, mask)?;
    let sizes = Items::from_slice(alloc, shape)?;
    let typed = Cells::Int16(Items::from_slice(alloc, cells)?);
    let hidden = Items::from_slice(alloc, mask)?;
    Ok(ArrayValue::of(sizes, typed, Some(hidden)))
}

// 3 1 -
// 2 5 1
fn left(alloc: Global) -> Result<ArrayValue, AllocError>
    ensures kind { IfOk result (λ a. a.kind ≡ Int16) }
    ensures shape { IfOk result (λ a. a.shape ≡ 2 ∷ 3 ∷ []) }
    ensures array { IfOk result IsArray }
{
    shorts(alloc, &[2, 3], &[3, 1, 9, 2, 5, 1], &[0, 0, 1, 0, 0, 0])
}

// 7
// -
fn right(alloc: Global) -> Result<ArrayValue, AllocError>
    ensures kind { IfOk result (λ a. a.kind ≡ Int16) }
    ensures shape { IfOk result (λ a. a.shape ≡ 2 ∷ 1 ∷ []) }
    ensures array { IfOk result IsArray }
{
    shorts(alloc, &[2, 1], &[7, 8], &[0, 1])
}

fn width_of(kind: NcType) -> Option<usize>
    ensures width { IfSome result (λ w. w ≡ width kind) }
    ensures whole { IfSome result (λ w. is_whole kind ≡ true) }
{
    match kind {
        NcType::Byte | NcType::Char | NcType::UByte => Some(1),
        NcType::Short | NcType::UShort => Some(2),
        NcType::Int | NcType::UInt => Some(4),
        NcType::Int64 | NcType::UInt64 => Some(8),
        NcType::Float | NcType::Double => None,
    }
}

fn stored(
    alloc: Global,
    shape: &[u64],
    kind: NcType,
    bytes: &[u8],
    fills: &[i128],
) -> Result<ArrayValue, AllocError>
    requires { IsStored shape.now kind bytes.now }
    ensures { IfOk result (λ a. a ≡ stored_array shape.now kind bytes.now fills.now) }
{
    let sizes = Items::from_slice(alloc, shape)?;
    let hidden = Items::from_slice(alloc, fills)?;
    let raw = Bytes::from_vec(Vec::from_slice(alloc, bytes)?)?;
    Ok(ArrayValue::stored(StoredArray::of(sizes, kind, raw, hidden)))
}

// An array as a file has it.
fn in_file(
    alloc: Global,
    shape: &[u64],
    count: usize,
    kind: NcType,
    bytes: &[u8],
    fills: &[i128],
) -> Result<ArrayValue, Fail>
    requires count { size shape.now ≡ count }
    requires few { count ≤ 8 }
    ensures shape { IfOk result (λ a. a.shape ≡ shape.now) }
    ensures array { IfOk result IsArray }
{
    let width = width_of(kind).ok_or("no whole numbers")?;
    if bytes.len() != count * width {
        return Err("another length".into());
    }
    let array = stored(alloc, shape, kind, bytes, fills)?;
    // Its contract says that each cell is in the range of its kind.
    numbers_of(alloc, &array)?;
    Ok(array)
}

// The bytes of an array that is kept as a file has it.
fn bytes_of(alloc: Global, a: &ArrayValue) -> Result<Option<Bytes>, AllocError> {
    match a.form() {
        Form::Stored(array) => {
            let parts = array.parts();
            Ok(Some(parts.pieces.bytes(alloc, parts.kind)?))
        }
        Form::Typed(_) => Ok(None),
    }
}

fn push(plan: &mut Plan, node: Node) -> Result<(), AllocError>
    requires { IsNode (values plan.old) node }
    ensures { OnOk result (plan.new ≡ plan.old ++ node ∷ []) }
{
    match plan.push(node) {
        Ok(_) => Ok(()),
        Err(NoMemory) => Err(AllocError),
    }
}

// The plan of one source.
fn source(alloc: Global, a: ArrayValue) -> Result<Plan, AllocError>
    requires array { IsArray a }
    requires few { size a.shape ≤ most_node_cells }
    requires rank { length a.shape ≤ most_axes }
    ensures { IfOk result (λ plan. plan ≡ Source a ∷ []) }
{
    let mut plan = Plan::new(alloc);
    push(&mut plan, Node::Source { cells: a })?;
    Ok(plan)
}

// The plan of both arrays.
fn sources(alloc: Global) -> Result<Plan, AllocError>
    ensures { IfOk result AreSources }
{
    let a = left(alloc)?;
    let mut plan = source(alloc, a)?;
    let b = right(alloc)?;
    push(&mut plan, Node::Source { cells: b })?;
    Ok(plan)
}

fn computed<R: Threads + Sync>(
    rt: &R,
    alloc: Global,
    plan: &Plan,
    asked: NodeId,
) -> Option<ArrayValue>
    requires sync { IsSync R.row }
    requires asked { asked < length plan.now }
{
    match execute(rt, alloc, plan, asked, &Settings::new(), &NoGate) {
        Ok(array) => Some(array),
        Err(_) => None,
    }
}

// Fails unless the array has these cells.
fn has_cells(alloc: Global, a: &ArrayValue, cells: &[Option<i128>]) -> Result<(), Fail> {
    let numbers = numbers_of(alloc, a)?;
    if numbers.as_slice() == cells {
        Ok(())
    } else {
        Err("other cells".into())
    }
}

// Fails unless the array has this shape and these cells.
fn is_array(
    alloc: Global,
    a: &ArrayValue,
    shape: &[u64],
    cells: &[Option<i128>],
) -> Result<(), Fail> {
    if a.shape() != shape {
        return Err("another shape".into());
    }
    has_cells(alloc, a, cells)
}

// Adds a node to the plan, and fails unless the asked one has this shape and these cells.
fn shows<R: Threads + Sync>(
    rt: &R,
    alloc: Global,
    mut plan: Plan,
    node: Node,
    asked: NodeId,
    shape: &[u64],
    cells: &[Option<i128>],
) -> Result<(), Fail>
    requires sync { IsSync R.row }
    requires node { IsNode (values plan) node }
    requires asked { asked ≤ length plan }
{
    push(&mut plan, node)?;
    let array = computed(rt, alloc, &plan, asked).ok_or("no cells")?;
    is_array(alloc, &array, shape, cells)
}

#[test]
fn positions_are_taken_along_an_axis(rt: HostRuntime) -> Result<(), Fail> {
    let alloc = rt.alloc();
    let plan = sources(alloc)?;
    let from = Items::from_slice(alloc, &[Some(2), Some(0), None, Some(1)])?;
    let node = Node::Take {
        input: 0,
        axis: 1,
        from,
        fill: Some(6),
        drop: false,
    };
    let rows = [
        None,
        Some(3),
        Some(6),
        Some(1),
        Some(1),
        Some(2),
        Some(6),
        Some(5),
    ];
    shows(&rt, alloc, plan, node, 2, &[2, 4], &rows)
}

#[test]
fn one_position_drops_its_axis(rt: HostRuntime) -> Result<(), Fail> {
    let alloc = rt.alloc();
    let plan = sources(alloc)?;
    let from = Items::from_slice(alloc, &[Some(2)])?;
    let node = Node::Take {
        input: 0,
        axis: 1,
        from,
        fill: None,
        drop: true,
    };
    shows(&rt, alloc, plan, node, 2, &[2], &[None, Some(1)])
}

#[test]
fn axes_are_reordered(rt: HostRuntime) -> Result<(), Fail> {
    let alloc = rt.alloc();
    let plan = sources(alloc)?;
    let order = Shape::from_slice(&[1, 0]);
    let node = Node::Reorder { input: 0, order };
    let columns = [Some(3), Some(2), Some(1), Some(5), None, Some(1)];
    shows(&rt, alloc, plan, node, 2, &[3, 2], &columns)
}

#[test]
fn an_axis_is_added(rt: HostRuntime) -> Result<(), Fail> {
    let alloc = rt.alloc();
    let plan = sources(alloc)?;
    let node = Node::Widen {
        input: 1,
        axis: 1,
        size: 3,
    };
    let rows = [Some(7), Some(7), Some(7), None, None, None];
    shows(&rt, alloc, plan, node, 2, &[2, 3, 1], &rows)
}

#[test]
fn arrays_stand_one_after_the_other(rt: HostRuntime) -> Result<(), Fail> {
    let alloc = rt.alloc();
    let plan = sources(alloc)?;
    let inputs = Items::from_slice(alloc, &[0, 1])?;
    let node = Node::Concat { inputs, axis: 1 };
    let rows = [
        Some(3),
        Some(1),
        None,
        Some(7),
        Some(2),
        Some(5),
        Some(1),
        None,
    ];
    shows(&rt, alloc, plan, node, 2, &[2, 4], &rows)
}

fn feeds_of(alloc: Global, first: Feed, second: Feed) -> Result<Items<Feed>, AllocError>
    ensures { IfOk result (λ feeds. feeds ≡ first ∷ second ∷ []) }
{
    let mut feeds = Vec::new(alloc);
    feeds.push(first)?;
    feeds.push(second)?;
    Ok(Items::of(feeds))
}

// Fails unless the fold of the first array by these feeds, or the source that is asked for, is such an array.
fn folds_to<R: Threads + Sync>(
    rt: &R,
    alloc: Global,
    fold: FoldKind,
    first: Feed,
    second: Feed,
    asked: NodeId,
    shape: &[u64],
    cells: &[Option<i128>],
) -> Result<(), Fail>
    requires sync { IsSync R.row }
    requires fed { AreFed (first ∷ second ∷ []) (2 ∷ 3 ∷ []) }
    requires one { is_positional fold ≡ true → folded_axes (first ∷ second ∷ []) ≡ 1 }
    requires small { size (kept (first ∷ second ∷ []) (2 ∷ 3 ∷ [])) ≤ most_node_cells }
    requires asked { asked ≤ 2 }
{
    let plan = sources(alloc)?;
    let feeds = feeds_of(alloc, first, second)?;
    let node = Node::Fold {
        fold,
        input: 0,
        feeds,
    };
    shows(rt, alloc, plan, node, asked, shape, cells)
}

// numpy.ma over the columns of the first array.
#[test]
fn columns_are_folded(rt: HostRuntime) -> Result<(), Fail> {
    let alloc = rt.alloc();
    let table = [
        (FoldKind::Sum, [5, 6, 1]),
        (FoldKind::Prod, [6, 5, 1]),
        (FoldKind::Min, [2, 1, 1]),
        (FoldKind::Max, [3, 5, 1]),
        (FoldKind::First, [3, 1, 1]),
        (FoldKind::Last, [2, 5, 1]),
        (FoldKind::ArgMin, [1, 0, 1]),
        (FoldKind::ArgMax, [0, 1, 1]),
        (FoldKind::Count, [2, 2, 1]),
        (FoldKind::Any, [1, 1, 1]),
        (FoldKind::All, [1, 1, 1]),
    ];
    for (fold, want) in table {
        let row = want.map(Some);
        folds_to(&rt, alloc, fold, Feed::All, Feed::Keep, 2, &[3], &row)?;
    }
    Ok(())
}

#[test]
fn all_cells_are_summed_and_sources_are_shown(rt: HostRuntime) -> Result<(), Fail> {
    let alloc = rt.alloc();
    folds_to(
        &rt,
        alloc,
        FoldKind::Sum,
        Feed::All,
        Feed::All,
        2,
        &[],
        &[Some(12)],
    )?;
    folds_to(
        &rt,
        alloc,
        FoldKind::Sum,
        Feed::All,
        Feed::All,
        1,
        &[2, 1],
        &[Some(7), None],
    )
}

// The first column, and behind it the other two.
fn runs(alloc: Global) -> Result<Feed, AllocError>
    ensures { IfOk result (λ feed. feed ≡ By ((0 ∷ []) ∷ (1 ∷ 2 ∷ []) ∷ [])) }
{
    let ends = Items::from_slice(alloc, &[1, 3])?;
    Ok(Feed::By(Feeds::runs(ends)))
}

#[test]
fn columns_are_folded_by_runs(rt: HostRuntime) -> Result<(), Fail> {
    let alloc = rt.alloc();
    let table = [
        (FoldKind::Sum, [3, 1, 2, 6]),
        (FoldKind::ArgMax, [0, 1, 0, 1]),
    ];
    for (fold, want) in table {
        let by = runs(alloc)?;
        let cells = want.map(Some);
        folds_to(&rt, alloc, fold, Feed::Keep, by, 2, &[2, 2], &cells)?;
    }
    Ok(())
}

#[test]
fn cells_are_negated(rt: HostRuntime) -> Result<(), Fail> {
    let alloc = rt.alloc();
    let plan = sources(alloc)?;
    let node = Node::Unary {
        op: OpKind::Negate,
        kind: DType::Int16,
        input: 0,
    };
    let rows = [Some(-3), Some(-1), None, Some(-2), Some(-5), Some(-1)];
    shows(&rt, alloc, plan, node, 2, &[2, 3], &rows)
}

#[test]
fn cells_of_two_arrays_are_added(rt: HostRuntime) -> Result<(), Fail> {
    let alloc = rt.alloc();
    let plan = sources(alloc)?;
    let node = Node::Binary {
        op: OpKind::Add,
        a: 0,
        b: 0,
    };
    let rows = [Some(6), Some(2), None, Some(4), Some(10), Some(2)];
    shows(&rt, alloc, plan, node, 2, &[2, 3], &rows)
}

#[test]
fn rows_are_summed_up(rt: HostRuntime) -> Result<(), Fail> {
    let alloc = rt.alloc();
    let plan = sources(alloc)?;
    let node = Node::Scan {
        fold: FoldKind::Sum,
        input: 0,
        axis: 1,
    };
    let rows = [Some(3), Some(4), Some(4), Some(2), Some(7), Some(8)];
    shows(&rt, alloc, plan, node, 2, &[2, 3], &rows)
}

// Fails unless this is the sum of an array of two rows and three columns that is kept as a file has it.
fn stored_sum<R: Threads + Sync>(
    rt: &R,
    alloc: Global,
    kind: NcType,
    bytes: &[u8],
    fills: &[i128],
    want: i128,
) -> Result<(), Fail>
    requires { IsSync R.row }
{
    let a = in_file(alloc, &[2, 3], 6, kind, bytes, fills)?;
    let plan = source(alloc, a)?;
    let feeds = feeds_of(alloc, Feed::All, Feed::All)?;
    let node = Node::Fold {
        fold: FoldKind::Sum,
        input: 0,
        feeds,
    };
    shows(rt, alloc, plan, node, 1, &[], &[Some(want)])
}

#[test]
fn stored_bytes_are_summed(rt: HostRuntime) -> Result<(), Fail> {
    let alloc = rt.alloc();
    let bytes = [1, 2, 3, 255, 254, 128];
    let table: [(NcType, &[i128], i128); 5] = [
        (NcType::Byte, &[], -125),
        (NcType::Byte, &[-1], -124),
        (NcType::Byte, &[-1, 7, 3], -127),
        (NcType::Char, &[], 643),
        (NcType::Char, &[255], 388),
    ];
    for (kind, fills, want) in table {
        stored_sum(&rt, alloc, kind, &bytes, fills, want)?;
    }
    Ok(())
}

#[test]
fn stored_shorts_are_summed(rt: HostRuntime) -> Result<(), Fail> {
    let alloc = rt.alloc();
    let bytes = [0, 1, 1, 0, 255, 255, 128, 0, 127, 255, 0, 0];
    stored_sum(&rt, alloc, NcType::Short, &bytes, &[], 255)?;
    stored_sum(&rt, alloc, NcType::Short, &bytes, &[-32768], 33023)
}

#[test]
fn stored_unsigned_shorts_are_summed(rt: HostRuntime) -> Result<(), Fail> {
    let alloc = rt.alloc();
    let bytes = [0, 1, 1, 0, 255, 255, 128, 0, 127, 255, 0, 0];
    stored_sum(&rt, alloc, NcType::UShort, &bytes, &[], 131327)?;
    stored_sum(&rt, alloc, NcType::UShort, &bytes, &[65535, -1], 65792)
}

#[test]
fn stored_unsigned_longs_are_summed(rt: HostRuntime) -> Result<(), Fail> {
    let alloc = rt.alloc();
    let bytes = [
        255, 255, 255, 255, 255, 255, 255, 255, 0, 0, 0, 0, 0, 0, 0, 2, 0, 0, 0, 0, 0, 0, 0, 0,
        255, 255, 255, 255, 255, 255, 255, 254, 0, 0, 0, 0, 0, 0, 0, 0, 0, 0, 0, 0, 0, 0, 0, 0,
    ];
    let fills = [18446744073709551615];
    stored_sum(
        &rt,
        alloc,
        NcType::UInt64,
        &bytes,
        &[],
        18446744073709551615,
    )?;
    stored_sum(&rt, alloc, NcType::UInt64, &bytes, &fills, 0)?;
    stored_sum(&rt, alloc, NcType::Int64, &bytes, &[], -1)
}

#[test]
fn stored_ints_are_summed(rt: HostRuntime) -> Result<(), Fail> {
    let alloc = rt.alloc();
    let bytes = [
        0, 0, 0, 1, 127, 255, 255, 255, 127, 255, 255, 255, 255, 255, 255, 254, 128, 0, 0, 0, 0, 0,
        1, 0,
    ];
    let table: [(&[i128], i128); 3] = [
        (&[], 2147483901),
        (&[2147483647], -2147483393),
        (&[2147483647, -2], -2147483391),
    ];
    for (fills, want) in table {
        stored_sum(&rt, alloc, NcType::Int, &bytes, fills, want)?;
    }
    Ok(())
}

// Fails unless the array has these cells, and these bytes where it is kept as a file has it.
fn is_kept(
    alloc: Global,
    a: &ArrayValue,
    bytes: Option<&[u8]>,
    cells: &[Option<i128>],
) -> Result<(), Fail> {
    let same = match (&bytes_of(alloc, a)?, bytes) {
        (Some(kept), Some(bytes)) => kept.as_slice() == bytes,
        (None, None) => true,
        _ => false,
    };
    if !same {
        return Err("other bytes".into());
    }
    has_cells(alloc, a, cells)
}

// Fails unless the cells at these positions are such an array: its bytes where it is kept as a file has it, and its cells.
fn takes(
    alloc: Global,
    a: &ArrayValue,
    axis: usize,
    from: &[Option<u32>],
    drops: bool,
    bytes: Option<&[u8]>,
    cells: &[Option<i128>],
) -> Result<(), Fail>
    requires axis { axis < length a.now.shape }
    requires inside { All (IsBelow (get_or a.now.shape axis 0)) from.now }
    requires one { drops ≡ true → length from.now ≡ 1 }
    requires few { size a.now.shape ≤ most_node_cells }
    requires small { size (taking_sizes drops a.now.shape axis from.now) ≤ most_node_cells }
{
    let taken = taken(alloc, a, axis, from, drops)?;
    is_kept(alloc, &taken, bytes, cells)
}

// 1 2
// 3 -
// 5 6
const ROWS: [u8; 12] = [0, 1, 0, 2, 0, 3, 0, 4, 0, 5, 0, 6];

// Those rows twice, side by side.
fn rows_twice(alloc: Global, fills: &[i128]) -> Result<Plan, Fail>
    ensures { IfOk result (λ plan. length plan ≡ 2) }
{
    let a = in_file(alloc, &[3, 2], 6, NcType::Short, &ROWS, fills)?;
    let mut plan = source(alloc, a)?;
    let inputs = Items::from_slice(alloc, &[0, 0])?;
    push(&mut plan, Node::Concat { inputs, axis: 1 })?;
    Ok(plan)
}

#[test]
fn stored_rows_stand_one_after_the_other(rt: HostRuntime) -> Result<(), Fail> {
    let alloc = rt.alloc();
    let plan = rows_twice(alloc, &[4])?;
    let array = computed(&rt, alloc, &plan, 1).ok_or("no cells")?;
    let bytes = [
        0, 1, 0, 2, 0, 1, 0, 2, 0, 3, 0, 4, 0, 3, 0, 4, 0, 5, 0, 6, 0, 5, 0, 6,
    ];
    let (one, two, three, five, six) = (Some(1), Some(2), Some(3), Some(5), Some(6));
    let cells = [
        one, two, one, two, three, None, three, None, five, six, five, six,
    ];
    is_kept(alloc, &array, Some(&bytes), &cells)
}

// Fails unless a pool of these settings computes the rows twice.
fn pool_computes<R: Threads + Sync>(rt: &R, alloc: Global, settings: Settings) -> Result<(), Fail>
    requires { IsSync R.row }
{
    let plan = rows_twice(alloc, &[])?;
    let mut pool = Pool {
        settings,
        gate: &NoGate,
    };
    let array = pool.cells(rt, alloc, &plan, 1).ok().ok_or("no cells")?;
    let cells = [1, 2, 1, 2, 3, 4, 3, 4, 5, 6, 5, 6];
    has_cells(alloc, &array, &cells.map(Some))
}

#[test]
fn a_pool_computes_the_same_whatever_its_settings_are(rt: HostRuntime) -> Result<(), Fail> {
    pool_computes(&rt, rt.alloc(), Settings::new())?;
    let settings = Settings::of(64, 1).ok_or("no settings")?;
    pool_computes(&rt, rt.alloc(), settings)
}

#[test]
fn settings_stay_within_their_bounds() -> Result<(), Fail> {
    let settings = Settings::of(4, 7).ok_or("no settings")?;
    let taken = (settings.workers, settings.chunk) == (4, 7);
    let refused = [Settings::of(0, 7), Settings::of(65, 7), Settings::of(4, 0)];
    if taken && refused.iter().all(|it| it.is_none()) {
        Ok(())
    } else {
        Err("other settings".into())
    }
}

// The same of those rows, where these numbers are missing.
fn takes_of_rows(
    alloc: Global,
    fills: &[i128],
    axis: usize,
    from: &[Option<u32>],
    drops: bool,
    bytes: Option<&[u8]>,
    cells: &[Option<i128>],
) -> Result<(), Fail>
    requires axis { axis < 2 }
    requires inside { All (IsBelow (get_or (3 ∷ 2 ∷ []) axis 0)) from.now }
    requires one { drops ≡ true → length from.now ≡ 1 }
    requires small { size (taking_sizes drops (3 ∷ 2 ∷ []) axis from.now) ≤ most_node_cells }
{
    let a = in_file(alloc, &[3, 2], 6, NcType::Short, &ROWS, fills)?;
    takes(alloc, &a, axis, from, drops, bytes, cells)
}

#[test]
fn stored_rows_share_their_bytes(rt: HostRuntime) -> Result<(), Fail> {
    let alloc = rt.alloc();
    let from = [Some(1), Some(2)];
    let bytes = [0, 3, 0, 4, 0, 5, 0, 6];
    let cells = [Some(3), None, Some(5), Some(6)];
    takes_of_rows(alloc, &[4], 0, &from, false, Some(&bytes), &cells)
}

#[test]
fn one_stored_row_shares_its_bytes(rt: HostRuntime) -> Result<(), Fail> {
    let alloc = rt.alloc();
    let bytes = [0, 3, 0, 4];
    let cells = [Some(3), None];
    takes_of_rows(alloc, &[4], 0, &[Some(1)], true, Some(&bytes), &cells)
}

#[test]
fn stored_rows_behind_an_axis_of_one_share_their_bytes(rt: HostRuntime) -> Result<(), Fail> {
    let alloc = rt.alloc();
    let a = in_file(alloc, &[1, 4, 1], 4, NcType::Byte, &[1, 254, 3, 4], &[])?;
    let from = [Some(1), Some(2)];
    let bytes = [254, 3];
    let cells = [Some(-2), Some(3)];
    takes(alloc, &a, 1, &from, false, Some(&bytes), &cells)
}

#[test]
fn stored_rows_that_lie_apart_are_decoded(rt: HostRuntime) -> Result<(), Fail> {
    let alloc = rt.alloc();
    let from = [Some(0), Some(2)];
    let cells = [Some(1), Some(2), None, Some(6)];
    takes_of_rows(alloc, &[5], 0, &from, false, None, &cells)
}

#[test]
fn a_stored_column_is_decoded(rt: HostRuntime) -> Result<(), Fail> {
    let alloc = rt.alloc();
    let cells = [Some(2), None, Some(6)];
    takes_of_rows(alloc, &[4], 1, &[Some(1)], true, None, &cells)
}

// Those rows, their axes in their order, and their cells as another kind or their own.
fn cast_rows(alloc: Global, kind: DType) -> Result<Plan, Fail>
    ensures { IfOk result (λ plan. length plan ≡ 3) }
{
    let a = in_file(alloc, &[3, 2], 6, NcType::Short, &ROWS, &[4])?;
    let mut plan = source(alloc, a)?;
    let order = Shape::from_slice(&[0, 1]);
    push(&mut plan, Node::Reorder { input: 0, order })?;
    let node = Node::Unary {
        op: OpKind::Cast,
        kind,
        input: 1,
    };
    push(&mut plan, node)?;
    Ok(plan)
}

// Fails unless the rows as this kind have these bytes where they are kept as a file has them, and their cells.
fn casts<R: Threads + Sync>(
    rt: &R,
    alloc: Global,
    kind: DType,
    bytes: Option<&[u8]>,
) -> Result<(), Fail>
    requires { IsSync R.row }
{
    let plan = cast_rows(alloc, kind)?;
    let array = computed(rt, alloc, &plan, 2).ok_or("no cells")?;
    let cells = [Some(1), Some(2), Some(3), None, Some(5), Some(6)];
    is_kept(alloc, &array, bytes, &cells)
}

#[test]
fn stored_cells_that_stay_share_their_bytes(rt: HostRuntime) -> Result<(), Fail> {
    casts(&rt, rt.alloc(), DType::Int16, Some(&ROWS))
}

#[test]
fn stored_cells_of_another_kind_are_decoded(rt: HostRuntime) -> Result<(), Fail> {
    casts(&rt, rt.alloc(), DType::Int32, None)
}
