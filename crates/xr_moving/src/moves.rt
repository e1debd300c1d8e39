//! Steps that move cells along dimensions.
ghost use Rattle.std.specs.Prelude.{◌≡◌, ◌<◌, ◌^◌, ◌&&◌, ◌||◌, ◌+◌, ◌++◌, length, map, IfOk, OnOk};
ghost use Rattle.xr_defs.specs.Selecting.{axis_called};
ghost use Rattle.xr_operations.specs.Moves as of;
ghost use Rattle.xr_moving.specs.Steps as steps;

use crate::names::{distance, position_of};
use std::alloc::{AllocError, Global};
use xr_arrays::Sources;
use xr_formulas::{Chain, Formula, Start, Step};
use xr_types::{Axis, Items, Name, NodeId, TextBytes};

/// How cells move along a dimension.
#[derive(Clone, Copy)]
pub enum Move {
    /// Away from its beginning, or from its end.
    Shift,
    /// Round.
    Roll,
}

/// How cells move along dimensions.
#[derive(Drop)]
pub struct Moves {
    pub how: Move,
    /// The number where no cell moves in. Where there is none, such a cell is missing.
    pub fill: Option<i128>,
    /// How far each dimension moves.
    pub by: Items<(TextBytes, i128)>,
}

fn shift_source(n: u64, by: i128, i: u64) -> Option<u32>
    requires small { n < 2 ^ 32 }
    requires inside { i < n }
    ensures { result ≡ of.shift_source n by i }
{
    let far = by.unsigned_abs();
    let i = i as u128;
    if by >= 0 {
        if i < far {
            None
        } else {
            Some((i - far) as u32)
        }
    } else if i + far < n as u128 {
        Some((i + far) as u32)
    } else {
        None
    }
}

fn roll_source(n: u64, by: i128, i: u64) -> Option<u32>
    requires small { n < 2 ^ 32 }
    requires inside { i < n }
    ensures { result ≡ of.roll_source n by i }
{
    let far = by.unsigned_abs();
    let i = i as u128;
    let n = n as u128;
    if by >= 0 {
        Some(((i + (n - far % n)) % n) as u32)
    } else {
        Some(((i + far) % n) as u32)
    }
}

impl Move {
    fn source(self, n: u64, by: i128, i: u64) -> Option<u32>
        requires small { n < 2 ^ 32 }
        requires inside { i < n }
        ensures { result ≡ steps.source_by self n by i }
    {
        match self {
            Move::Shift => shift_source(n, by, i),
            Move::Roll => roll_source(n, by, i),
        }
    }
}

// The position that each position of an axis shows.
#[tactic(auto, using(crate::proofs::Sources::one_more))]
fn positions(alloc: Global, how: Move, by: i128, n: u64) -> Result<Sources, AllocError>
    ensures { IfOk result (λ from. from ≡ steps.positions_by how by n) }
{
    if n > u32::MAX as u64 {
        return Err(AllocError);
    }
    let mut from = Items::new(alloc);
    for i in 0..n {
        from.push(how.source(n, by, i))?;
    }
    Ok(from)
}

// Whether missing cells move in.
fn hides(how: Move, fill: Option<i128>) -> bool
    ensures { result ≡ steps.hides how fill }
{
    match how {
        Move::Shift => fill.is_none(),
        Move::Roll => false,
    }
}

// Adds the step along an axis of this size, if it moves.
fn push_step(
    alloc: Global,
    out: &mut Items<Step>,
    moves: &Moves,
    k: usize,
    name: &TextBytes,
    size: u64,
) -> Result<(), AllocError>
    ensures { OnOk result (out.new ≡ out.old ++ steps.step_at moves.now.how moves.now.fill k size (of.distance moves.now.by name.now)) }
{
    match distance(moves.by.as_slice(), name) {
        None => Ok(()),
        Some(by) => {
            let from = positions(alloc, moves.how, by, size)?;
            out.push(Step::Take {
                axis: k,
                from,
                fill: moves.fill,
                drop: false,
            })
        }
    }
}

fn size_called(axes: &[Axis], name: &TextBytes) -> u64
    ensures { result ≡ (axis_called axes.now name.now).size }
{
    match position_of(axes, name) {
        Some(k) => axes[k].size,
        None => 0,
    }
}

// Adds the steps along the axes of these names, the first of which is number `k`.
fn push_steps(
    alloc: Global,
    out: &mut Items<Step>,
    moves: &Moves,
    axes: &[Axis],
    k: usize,
    dims: &[Name],
) -> Result<(), AllocError>
    requires { k + length dims.now < 2 ^ 64 }
    ensures { OnOk result (out.new ≡ out.old ++ steps.steps_along moves.now axes.now k dims.now) }
{
    match dims {
        [] => Ok(()),
        [dim, rest @ ..] => {
            push_step(alloc, out, moves, k, dim, size_called(axes, dim))?;
            push_steps(alloc, out, moves, axes, k + 1, rest)
        }
    }
}

/// The cells of a node over the axes of these names, moved.
pub fn moved_cells(
    alloc: Global,
    moves: &Moves,
    axes: &[Axis],
    node: NodeId,
    dims: &[Name],
) -> Result<Formula, AllocError>
    ensures { IfOk result (λ f. f ≡ steps.moved_cells moves.now axes.now node dims.now) }
{
    let mut steps = Items::new(alloc);
    push_steps(alloc, &mut steps, moves, axes, 0, dims)?;
    let start = Start::Node(node);
    Ok(Formula::One(Chain { start, steps }))
}

/// Whether cells over these dimensions move.
pub fn is_moved(bys: &[(TextBytes, i128)], dims: &[Name]) -> bool
    ensures { result ≡ of.is_moved bys.now dims.now }
{
    match dims {
        [] => false,
        [dim, rest @ ..] => distance(bys, dim).is_some() || is_moved(bys, rest),
    }
}

/// Whether cells over these dimensions may be missing after a move.
pub fn masked_after(moves: &Moves, masked: bool, dims: &[Name]) -> bool
    ensures { result ≡ (masked || steps.hides moves.now.how moves.now.fill && of.is_moved moves.now.by dims.now) }
{
    masked || (hides(moves.how, moves.fill) && is_moved(moves.by.as_slice(), dims))
}
