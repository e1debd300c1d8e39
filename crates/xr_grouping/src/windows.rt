//! Methods of arrays in windows.
ghost use Rattle.std.specs.Prelude.{◌≡◌, ◌≤◌, ◌*◌, ◌++◌, List, length, false, true, IfOk, OnOk};
ghost use Rattle.xr_arrays.specs.declared.node.Node.{Node};
ghost use Rattle.xr_arrays.specs.Added.{AddsAtMost};
ghost use Rattle.xr_defs.specs.Room.{span, AddsForAny};
ghost use Rattle.xr_defs.specs.declared.grouping.Grouping.TheVariants.{Windows};
ghost use Rattle.plan_core.specs.Plans.{Grows};
ghost use Rattle.xr_formulas.specs.Chains.{IsValueOf};
ghost use Rattle.xr_formulas.specs.declared.made.Formula.TheVariants.{One};
ghost use Rattle.xr_formulas.specs.Spread as spreads;
ghost use Rattle.xr_groups.specs.Listed as lists;
ghost use Rattle.xr_groups.specs.Methods as methods;
ghost use Rattle.xr_groups.specs.declared.change.Change.{Change};
ghost use Rattle.xr_groups.specs.declared.change.Least.TheVariants.{Fewer};
ghost use Rattle.xr_types.specs.Results.{Answers, unless};
ghost use Rattle.xr_types.specs.declared.fault.Fault.TheVariants.{BadArgument};
ghost use Rattle.xr_values.specs.Answers.{AnswersArray};
ghost use Rattle.xr_values.specs.Meaning.{given};
ghost use Rattle.xr_values.specs.Stands.{array_in, IsArrayIn};
ghost use Rattle.xr_grouping.specs.Windowed as of;

use crate::arrays::check_axes;
use crate::asked::{folded_kind, needs_cells};
use crate::checked::windowed_changes;
use crate::fills::{check_given, fill_given, have_long, push_short_fills};
use crate::listed::{axes_by, feeds_by};
use plan_core::Plan;
use std::alloc::{AllocError, Global};
use xr_arrays::Sources;
use xr_formulas::{
    Chain, Formula, Start, Step, cells_of, literal, one_step, push_chain, push_formula,
};
use xr_groups::Change;
use xr_types::{
    Axis, CallFault, DType, DeepCopy, Fault, FoldKind, Items, NoMemory, NodeId, OpKind, TextBytes,
};
use xr_values::{Args, DataArray, copy_coords, without_fills};

// ---- cells

fn push_widens(steps: &mut Items<Step>, axes: &[Axis]) -> Result<(), AllocError>
    ensures { OnOk result (steps.new ≡ steps.old ++ spreads.widens axes.now) }
{
    match axes {
        [] => Ok(()),
        [axis, rest @ ..] => {
            push_widens(steps, rest)?;
            steps.push(Step::Widen(0, axis.size))
        }
    }
}

fn has_none(axes: &[Axis]) -> bool
    ensures { result ≡ spreads.has_none axes.now }
{
    match axes {
        [] => false,
        [axis, rest @ ..] => axis.size == 0 || has_none(rest),
    }
}

fn nowhere(alloc: Global) -> Result<Sources, AllocError>
    ensures { IfOk result (λ from. from ≡ of.nowhere) }
{
    let mut from = Items::new(alloc);
    from.push(None)?;
    Ok(from)
}

// A cell, which may be missing, at all points of some axes.
fn spread(
    alloc: Global,
    axes: &[Axis],
    kind: DType,
    fill: Option<i128>,
) -> Result<Chain, AllocError>
    requires { length axes.now ≤ 16 }
    ensures { IfOk result (λ c. c ≡ of.spread axes.now kind fill) }
{
    if has_none(axes) {
        return literal(alloc, axes, kind, 0);
    }
    let from = nowhere(alloc)?;
    let mut steps = Items::new(alloc);
    steps.push(Step::Widen(0, 1))?;
    steps.push(Step::Take {
        axis: 0,
        from,
        fill,
        drop: true,
    })?;
    push_widens(&mut steps, axes)?;
    let start = Start::Cell(kind, 0);
    Ok(Chain { start, steps })
}

fn folds_of(
    alloc: Global,
    fold: FoldKind,
    changes: &[Change],
    on: &DataArray,
) -> Result<Chain, AllocError>
    ensures { IfOk result (λ c. c ≡ of.folds_of fold changes.now on.now) }
{
    let feeds = feeds_by(alloc, changes, on.axes.as_slice())?;
    one_step(alloc, on.node, Step::Fold(fold, feeds))
}

// No list has 2^40 cells.
fn enough_cells(least: u64) -> i128
    ensures { result ≡ of.enough_cells least }
{
    i128::from(least.min(1_099_511_627_776))
}

// The folds of windows of an array that misses no cell, and the fill in the place of those with too few positions.
fn plain(
    alloc: Global,
    fold: FoldKind,
    changes: &[Change],
    least: u64,
    fill: Option<i128>,
    on: &DataArray,
) -> Result<Chain, AllocError>
    ensures { IfOk result (λ c. c ≡ of.plain fold changes.now least fill on.now) }
{
    let own = on.axes.as_slice();
    let mut steps = Items::new(alloc);
    steps.push(Step::Fold(fold, feeds_by(alloc, changes, own)?))?;
    push_short_fills(alloc, &mut steps, least, changes, own, fill)?;
    Ok(Chain {
        start: Start::Node(on.node),
        steps,
    })
}

// Which windows have enough present cells, by their number.
fn counted(
    alloc: Global,
    changes: &[Change],
    least: u64,
    axes: &[Axis],
    on: &DataArray,
) -> Result<Formula, AllocError>
    requires { length axes.now ≤ 16 }
    ensures { IfOk result (λ f. f ≡ of.counted changes.now least axes.now on.now) }
{
    let counts = folds_of(alloc, FoldKind::Count, changes, on)?;
    let wanted = spread(alloc, axes, DType::Int64, Some(enough_cells(least)))?;
    Ok(Formula::Two(OpKind::GreaterEqual, counts, wanted))
}

// The first steps, to truth values that tell which cells are present, and their folds.
fn told_folds(
    alloc: Global,
    fold: FoldKind,
    changes: &[Change],
    on: &DataArray,
) -> Result<Items<Step>, AllocError>
    ensures { IfOk result (λ s. s ≡ of.told_folds fold changes.now on.now) }
{
    let mut steps = Items::new(alloc);
    steps.push(Step::Unary(OpKind::NotNull, DType::Bool))?;
    steps.push(Step::Fold(fold, feeds_by(alloc, changes, on.axes.as_slice())?))?;
    Ok(steps)
}

// Which windows have a present cell.
fn some_cell(alloc: Global, changes: &[Change], on: &DataArray) -> Result<Formula, AllocError>
    ensures { IfOk result (λ f. f ≡ One (of.some_cell changes.now on.now)) }
{
    let steps = told_folds(alloc, FoldKind::Any, changes, on)?;
    let start = Start::Node(on.node);
    Ok(Formula::One(Chain { start, steps }))
}

// Which windows have so many positions, and a present cell at each.
fn each_cell(
    alloc: Global,
    changes: &[Change],
    least: u64,
    on: &DataArray,
) -> Result<Formula, AllocError>
    ensures { IfOk result (λ f. f ≡ One (of.each_cell changes.now least on.now)) }
{
    let mut steps = told_folds(alloc, FoldKind::All, changes, on)?;
    let own = on.axes.as_slice();
    push_short_fills(alloc, &mut steps, least, changes, own, Some(0))?;
    let start = Start::Node(on.node);
    Ok(Formula::One(Chain { start, steps }))
}

// Which windows have enough present cells.
fn enough(
    alloc: Global,
    changes: &[Change],
    least: u64,
    axes: &[Axis],
    on: &DataArray,
) -> Result<Formula, AllocError>
    requires { length axes.now ≤ 16 }
    ensures { IfOk result (λ f. f ≡ of.enough changes.now least axes.now on.now) }
{
    if least == 1 {
        some_cell(alloc, changes, on)
    } else if have_long(changes, least) {
        counted(alloc, changes, least, axes, on)
    } else {
        each_cell(alloc, changes, least, on)
    }
}

// The folds of windows with enough present cells, and the fill in the place of the others.
fn chosen(
    alloc: Global,
    fold: FoldKind,
    changes: &[Change],
    fill: Option<i128>,
    test: NodeId,
    axes: &[Axis],
    on: &DataArray,
) -> Result<Formula, AllocError>
    requires { length axes.now ≤ 16 }
    ensures { IfOk result (λ f. f ≡ of.chosen fold changes.now fill test axes.now on.now) }
{
    let folds = folds_of(alloc, fold, changes, on)?;
    let fills = spread(alloc, axes, folded_kind(fold, on.kind), fill)?;
    Ok(Formula::Three(cells_of(alloc, test), folds, fills))
}

// ---- what is asked

pub fn of_windows(fold: FoldKind) -> bool
    ensures { result ≡ methods.of_windows fold }
{
    match fold {
        FoldKind::Sum | FoldKind::Prod | FoldKind::Min | FoldKind::Max | FoldKind::Count => true,
        FoldKind::Any | FoldKind::All | FoldKind::First | FoldKind::Last => false,
        FoldKind::ArgMin | FoldKind::ArgMax => false,
    }
}

#[tactic(auto, unfolding(xr_types::specs::Results::unless))]
fn check_method(fold: FoldKind) -> Result<(), CallFault>
    ensures { Answers (λ u. u) result (unless (methods.of_windows fold) BadArgument) }
{
    if of_windows(fold) {
        Ok(())
    } else {
        Err(CallFault::Refused(Fault::BadArgument))
    }
}

// Refuses windows that need more than one cell where no fill is given.
#[tactic(auto, unfolding(xr_groups::specs::Methods::check_filled, xr_types::specs::Results::unless))]
fn check_filled(least: u64, given: bool) -> Result<(), CallFault>
    ensures { (cs : List Change) → Answers (λ u. u) result (methods.check_filled (Fewer least) cs given) }
{
    if given || least <= 1 {
        Ok(())
    } else {
        Err(CallFault::Refused(Fault::WouldPromote))
    }
}

fn fill_cell(fill: Option<Option<i128>>) -> Option<i128>
    ensures { result ≡ methods.fill_cell fill }
{
    match fill {
        None => None,
        Some(cell) => cell,
    }
}

// Whether a window with too few present cells has by itself what is to stand in its place.
fn needs_no_test(fold: FoldKind, least: u64, fill: Option<i128>) -> bool
    ensures { result ≡ of.needs_no_test fold least fill }
{
    needs_cells(fold) && least == 1 && fill.is_none()
}

fn is_masked(masked: bool, fill: Option<Option<i128>>) -> bool
    ensures { result ≡ methods.window_masked masked fill }
{
    match fill {
        None => masked,
        Some(None) => true,
        Some(Some(_)) => false,
    }
}

/// A method of windows that nothing refuses: how the dimension is grouped, the fill that is given, and the axes, which stay.
#[derive(Drop)]
pub struct WindowsAsked {
    pub changes: Items<Change>,
    pub fill: Option<Option<i128>>,
    pub axes: Items<Axis>,
}

// What a method of windows is asked.
#[tactic(auto, unfolding(crate::specs::Windowed::windowed_of))]
fn windows_asked(
    alloc: Global,
    fold: FoldKind,
    dimension: &TextBytes,
    width: u64,
    center: bool,
    least: u64,
    on: &DataArray,
    args: &Args,
) -> Result<WindowsAsked, CallFault>
    ensures answers { (nodes others : List Node) → Answers (λ p. methods.array_by fold (Fewer least) true p.changes p.fill (array_in nodes on.now)) result (of.windowed_of fold dimension.now width center least (array_in nodes on.now) (given others args.now)) }
    ensures asked { IfOk result (of.IsAsked fold dimension.now width center least on.now) }
    ensures some { IfOk result (λ p. 1 ≤ least) }
{
    check_method(fold)?;
    let kind = folded_kind(fold, on.kind);
    let fill = fill_given(alloc, kind, args)?;
    let own = on.axes.as_slice();
    let changes = windowed_changes(alloc, dimension, width, center, least, own)?;
    check_filled(least, fill.is_some())?;
    check_given(kind, fill)?;
    let axes = axes_by(alloc, changes.as_slice(), own)?;
    check_axes(axes.as_slice())?;
    Ok(WindowsAsked {
        changes,
        fill,
        axes,
    })
}

// ---- the node

// Each window is tested.
fn push_tested(
    alloc: Global,
    plan: &mut Plan,
    fold: FoldKind,
    least: u64,
    on: &DataArray,
    asked: &WindowsAsked,
) -> Result<NodeId, NoMemory>
    requires some { 1 ≤ least }
    requires is { IsArrayIn plan.old on.now }
    requires asked { of.AreAsked fold least on.now asked.now }
    ensures value { IfOk result (IsValueOf plan.new (of.windows fold least asked.now (array_in plan.old on.now))) }
    ensures grows { Grows plan.old plan.new }
    ensures cells { IfOk result (λ n. AddsAtMost plan.old plan.new (256 * span (lists.axes_by asked.now.changes on.now.axes))) }
{
    let changes = asked.changes.as_slice();
    let axes = asked.axes.as_slice();
    let tests = enough(alloc, changes, least, axes, on)?;
    let test = push_formula(alloc, plan, &tests)?;
    let cells = chosen(alloc, fold, changes, fill_cell(asked.fill), test, axes, on)?;
    let node = push_formula(alloc, plan, &cells)?;
    Ok(node)
}

// Each window has as many present cells as positions.
fn push_plain(
    alloc: Global,
    plan: &mut Plan,
    fold: FoldKind,
    least: u64,
    on: &DataArray,
    asked: &WindowsAsked,
) -> Result<NodeId, NoMemory>
    requires some { 1 ≤ least }
    requires is { IsArrayIn plan.old on.now }
    requires asked { of.AreAsked fold least on.now asked.now }
    requires whole { on.now.masked ≡ false }
    ensures value { IfOk result (IsValueOf plan.new (of.windows fold least asked.now (array_in plan.old on.now))) }
    ensures grows { Grows plan.old plan.new }
    ensures cells { IfOk result (λ n. AddsAtMost plan.old plan.new (256 * span (lists.axes_by asked.now.changes on.now.axes))) }
{
    let changes = asked.changes.as_slice();
    let cells = plain(alloc, fold, changes, least, fill_cell(asked.fill), on)?;
    let node = push_chain(alloc, plan, &cells)?;
    Ok(node)
}

// The fold of a window with too few present cells is what is to stand in its place.
fn push_folds(
    alloc: Global,
    plan: &mut Plan,
    fold: FoldKind,
    least: u64,
    on: &DataArray,
    asked: &WindowsAsked,
) -> Result<NodeId, NoMemory>
    requires some { 1 ≤ least }
    requires is { IsArrayIn plan.old on.now }
    requires asked { of.AreAsked fold least on.now asked.now }
    requires untested { of.needs_no_test fold least (methods.fill_cell asked.now.fill) ≡ true }
    ensures value { IfOk result (IsValueOf plan.new (of.windows fold least asked.now (array_in plan.old on.now))) }
    ensures grows { Grows plan.old plan.new }
    ensures cells { IfOk result (λ n. AddsAtMost plan.old plan.new (256 * span (lists.axes_by asked.now.changes on.now.axes))) }
{
    let changes = asked.changes.as_slice();
    let cells = folds_of(alloc, fold, changes, on)?;
    let node = push_chain(alloc, plan, &cells)?;
    Ok(node)
}

// Each window has its own number of present cells.
fn push_masked(
    alloc: Global,
    plan: &mut Plan,
    fold: FoldKind,
    least: u64,
    on: &DataArray,
    asked: &WindowsAsked,
) -> Result<NodeId, NoMemory>
    requires some { 1 ≤ least }
    requires is { IsArrayIn plan.old on.now }
    requires asked { of.AreAsked fold least on.now asked.now }
    ensures value { IfOk result (IsValueOf plan.new (of.windows fold least asked.now (array_in plan.old on.now))) }
    ensures grows { Grows plan.old plan.new }
    ensures cells { IfOk result (λ n. AddsAtMost plan.old plan.new (256 * span (lists.axes_by asked.now.changes on.now.axes))) }
{
    if needs_no_test(fold, least, fill_cell(asked.fill)) {
        push_folds(alloc, plan, fold, least, on, asked)
    } else {
        push_tested(alloc, plan, fold, least, on, asked)
    }
}

fn push_windows(
    alloc: Global,
    plan: &mut Plan,
    fold: FoldKind,
    least: u64,
    on: &DataArray,
    asked: &WindowsAsked,
) -> Result<NodeId, NoMemory>
    requires some { 1 ≤ least }
    requires is { IsArrayIn plan.old on.now }
    requires asked { of.AreAsked fold least on.now asked.now }
    ensures value { IfOk result (IsValueOf plan.new (of.windows fold least asked.now (array_in plan.old on.now))) }
    ensures grows { Grows plan.old plan.new }
    ensures cells { IfOk result (λ n. AddsAtMost plan.old plan.new (256 * span (lists.axes_by asked.now.changes on.now.axes))) }
{
    if on.masked {
        push_masked(alloc, plan, fold, least, on, asked)
    } else {
        push_plain(alloc, plan, fold, least, on, asked)
    }
}

// ---- the array

fn array_at(
    alloc: Global,
    fold: FoldKind,
    changes: &[Change],
    axes: Items<Axis>,
    fill: Option<Option<i128>>,
    node: NodeId,
    on: &DataArray,
) -> Result<DataArray, AllocError>
    requires { axes ≡ lists.axes_by changes.now on.now.axes }
    ensures { IfOk result (λ b. b ≡ of.array_at fold changes.now fill node on.now) }
{
    Ok(DataArray {
        name: on.name.deep_copy(alloc)?,
        axes,
        kind: folded_kind(fold, on.kind),
        masked: is_masked(on.masked, fill),
        attrs: without_fills(alloc, on.attrs.as_slice())?,
        coords: copy_coords(alloc, on.coords.as_slice())?,
        node,
    })
}

/// The array of a method of windows that nothing refuses: each window gives the fold of its present cells where they are `least` or
/// more, and else the fill. The array keeps its name, its coordinates, and its attributes but for those that name fill numbers.
pub fn window_folds(
    alloc: Global,
    plan: &mut Plan,
    fold: FoldKind,
    least: u64,
    on: &DataArray,
    asked: WindowsAsked,
) -> Result<DataArray, NoMemory>
    requires some { 1 ≤ least }
    requires is { IsArrayIn plan.old on.now }
    requires asked { of.AreAsked fold least on.now asked }
    ensures array { IfOk result (λ b. (methods.array_by fold (Fewer least) true asked.changes asked.fill (array_in plan.old on.now) ≡ array_in plan.new b) × IsArrayIn plan.new b) }
    ensures grows { Grows plan.old plan.new }
    ensures room { IfOk result (λ b. AddsForAny plan.old plan.new (array_in plan.new b)) }
    ensures cells { IfOk result (λ b. AddsAtMost plan.old plan.new (256 * span b.axes)) }
{
    let node = push_windows(alloc, plan, fold, least, on, &asked)?;
    let changes = asked.changes.as_slice();
    let array = array_at(
        alloc,
        fold,
        changes,
        asked.axes.deep_copy(alloc)?,
        asked.fill,
        node,
        on,
    )?;
    Ok(array)
}

/// A method of an array in windows along a dimension: each window gives the fold of its present cells where they are as many as it
/// needs, and else the fill. The array keeps its name, its coordinates, and its attributes but for those that name fill numbers.
#[tactic(auto, using(crate::proofs::Grouped::windowed_is))]
pub(crate) fn windowed_array(
    alloc: Global,
    plan: &mut Plan,
    fold: FoldKind,
    dimension: &TextBytes,
    width: u64,
    center: bool,
    least: u64,
    on: &DataArray,
    args: &Args,
) -> Result<DataArray, CallFault>
    requires { IsArrayIn plan.old on.now }
    ensures answers { (nodes : List Node) → AnswersArray plan.new result (methods.grouped_array fold (Windows dimension.now width center least) (array_in plan.old on.now) (given nodes args.now)) }
    ensures grows { Grows plan.old plan.new }
    ensures room { IfOk result (λ b. AddsForAny plan.old plan.new (array_in plan.new b)) }
{
    let asked = windows_asked(alloc, fold, dimension, width, center, least, on, args)?;
    let array = window_folds(alloc, plan, fold, least, on, asked)?;
    Ok(array)
}
