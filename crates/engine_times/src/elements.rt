//! Operations on the cells of whole blocks, and running sums along a line of one.
ghost use Rattle.std.specs.Prelude.{◌≡◌, ◌≤◌, [], ◌∷◌, ℕ, List, Some, IfOk, IfSome, length, if◌then◌else◌};
ghost use Rattle.xr_types.specs.declared.kind.DType.TheVariants as kinds;
ghost use Rattle.xr_types.specs.Points.{size, IsPoint};
ghost use Rattle.elem_kernel.specs.Conditions.{IsBinary};
ghost use Rattle.strided_block.specs.Cells.{SameWindow};
ghost use Rattle.strided_block.specs.Typed.{block_kind, block_shape, win_kind};
ghost use Rattle.strided_block.specs.Views.{kept};

use anyhow::{Context, Result};
use elem_kernel::{binary, cast, choose, compare};
use fold_kernel::{Partial, scan};
use std::alloc::{AllocError, Global};
use std::rt::Clock;
use std::time::Instant;
use strided_block::{Block, CellBlock, CellWin, TypedBlock};
use xr_types::{DType, FoldKind, NoMemory, OpKind, Shape};

/// The operands of a job in blocks of so many rows and columns, of which the first columns are read.
#[derive(Drop)]
pub struct Operands {
    rows: u64,
    columns: u64,
    read: u64,
    unsigned: bool,
    a: CellBlock,
    b: CellBlock,
    cond: CellBlock,
    ghost within: { read ≤ columns },
    ghost kinds: { (block_kind a.cells ≡ (if unsigned then kinds.UInt32 else kinds.Int32)) × (block_kind b.cells ≡ (if unsigned then kinds.UInt32 else kinds.Int32)) × (block_kind cond.cells ≡ kinds.Bool) },
    ghost shapes: { (a.mask.shape ≡ rows ∷ columns ∷ []) × (b.mask.shape ≡ rows ∷ columns ∷ []) × (cond.mask.shape ≡ rows ∷ columns ∷ []) },
}

/// A job's operands, and a block of its results.
#[derive(Drop)]
struct Work {
    operands: Operands,
    made: CellBlock,
    ghost fits: { made.mask.shape ≡ operands.rows ∷ operands.read ∷ [] },
}

// How many cells a block has.
fn count_of(rows: u64, columns: u64) -> Option<usize>
    ensures { IfSome result (λ n. n ≡ size (rows ∷ columns ∷ [])) }
{
    let count = rows.checked_mul(columns)?;
    Some(count as usize)
}

// Numbers from -504 to 504, without 0.
fn spread(cells: &mut [i32], by: u64) {
    for i in 0..cells.len() {
        let n = ((i as u64).wrapping_mul(by) % 1009) as i32 - 504;
        cells[i] = if n == 0 { 7 } else { n };
    }
}

// Numbers from 1 to 1008.
fn spread_unsigned(cells: &mut [u32], by: u64) {
    for i in 0..cells.len() {
        let n = ((i as u64).wrapping_mul(by) % 1009) as u32;
        cells[i] = if n == 0 { 7 } else { n };
    }
}

// Every seventh byte is 1.
fn mark(bytes: &mut [u8], from: u64) {
    for i in 0..bytes.len() {
        bytes[i] = u8::from((i as u64).wrapping_add(from) % 7 == 0);
    }
}

fn numbers(alloc: Global, count: usize, by: u64) -> Result<Vec<i32>, AllocError>
    ensures { IfOk result (λ v. length v.items ≡ count) }
{
    let mut cells = Vec::new(alloc);
    cells.resize(count, 0)?;
    spread(cells.as_mut_slice(), by);
    Ok(cells)
}

fn unsigned_numbers(alloc: Global, count: usize, by: u64) -> Result<Vec<u32>, AllocError>
    ensures { IfOk result (λ v. length v.items ≡ count) }
{
    let mut cells = Vec::new(alloc);
    cells.resize(count, 0)?;
    spread_unsigned(cells.as_mut_slice(), by);
    Ok(cells)
}

fn marks(alloc: Global, count: usize, from: u64) -> Result<Vec<u8>, AllocError>
    ensures { IfOk result (λ v. length v.items ≡ count) }
{
    let mut bytes = Vec::new(alloc);
    bytes.resize(count, 0)?;
    mark(bytes.as_mut_slice(), from);
    Ok(bytes)
}

// The mask of a block without a missing cell.
#[tactic(auto, using(strided_block::proofs::Puts::alike))]
fn clear_mask(alloc: Global, shape: &Shape) -> Result<Block<u8>, NoMemory>
    ensures shape { IfOk result (λ b. b.shape ≡ shape.now) }
    ensures clear { IfOk result (λ b. (p : List ℕ) → IsPoint shape.now p → kept b p ≡ Some 0) }
{
    Block::zeroed(alloc, shape)
}

// A block of cells, of which every seventh is missing if they are to have holes.
fn with_mask(
    alloc: Global,
    shape: &Shape,
    cells: TypedBlock,
    count: usize,
    holes: Option<u64>,
) -> Result<CellBlock>
    requires shape { block_shape cells ≡ shape.now }
    requires count { count ≡ size shape.now }
    ensures kind { IfOk result (λ b. block_kind b.cells ≡ block_kind cells) }
    ensures shape { IfOk result (λ b. b.mask.shape ≡ shape.now) }
{
    let Some(from) = holes else {
        let mask = clear_mask(alloc, shape).ok().context("memory")?;
        return Ok(CellBlock {
            cells,
            mask,
            masked: false,
        });
    };
    let bytes = marks(alloc, count, from)?;
    let mask = Block::from_slice(alloc, shape, bytes.as_slice())
        .ok()
        .context("memory")?;
    Ok(CellBlock {
        cells,
        mask,
        masked: true,
    })
}

// Numbers of kind uint32 or int32.
fn typed_numbers(
    alloc: Global,
    shape: &Shape,
    unsigned: bool,
    count: usize,
    by: u64,
) -> Result<TypedBlock>
    requires { count ≡ size shape.now }
    ensures kind { IfOk result (λ b. block_kind b ≡ (if unsigned then kinds.UInt32 else kinds.Int32)) }
    ensures shape { IfOk result (λ b. block_shape b ≡ shape.now) }
{
    if unsigned {
        let list = unsigned_numbers(alloc, count, by)?;
        let cells = Block::from_slice(alloc, shape, list.as_slice())
            .ok()
            .context("memory")?;
        return Ok(TypedBlock::UInt32(cells));
    }
    let list = numbers(alloc, count, by)?;
    let cells = Block::from_slice(alloc, shape, list.as_slice())
        .ok()
        .context("memory")?;
    Ok(TypedBlock::Int32(cells))
}

fn number_block(
    alloc: Global,
    shape: &Shape,
    unsigned: bool,
    count: usize,
    by: u64,
    holes: Option<u64>,
) -> Result<CellBlock>
    requires { count ≡ size shape.now }
    ensures kind { IfOk result (λ b. block_kind b.cells ≡ (if unsigned then kinds.UInt32 else kinds.Int32)) }
    ensures shape { IfOk result (λ b. b.mask.shape ≡ shape.now) }
{
    let cells = typed_numbers(alloc, shape, unsigned, count, by)?;
    with_mask(alloc, shape, cells, count, holes)
}

fn truth_block(alloc: Global, shape: &Shape, count: usize, holes: Option<u64>) -> Result<CellBlock>
    requires { count ≡ size shape.now }
    ensures kind { IfOk result (λ b. block_kind b.cells ≡ kinds.Bool) }
    ensures shape { IfOk result (λ b. b.mask.shape ≡ shape.now) }
{
    let list = marks(alloc, count, 3)?;
    let cells = Block::from_slice(alloc, shape, list.as_slice())
        .ok()
        .context("memory")?;
    with_mask(alloc, shape, TypedBlock::Bool(cells), count, holes)
}

fn zeros(alloc: Global, kind: DType, shape: &Shape) -> Result<CellBlock>
    ensures kind { IfOk result (λ b. block_kind b.cells ≡ kind) }
    ensures shape { IfOk result (λ b. b.mask.shape ≡ shape.now) }
{
    Ok(
        CellBlock::zeroed(alloc, kind, shape)
            .ok()
            .context("memory")?,
    )
}

// The kind of a job's results.
fn kind_of(job: &str, unsigned: bool) -> DType {
    match job {
        "less" => DType::Bool,
        "cast" | "line scan" => DType::Int64,
        _ => {
            if unsigned {
                DType::UInt32
            } else {
                DType::Int32
            }
        }
    }
}

fn operation_of(job: &str) -> OpKind
    ensures { IsBinary result }
{
    match job {
        "subtract" => OpKind::Subtract,
        "multiply" => OpKind::Multiply,
        "floor divide" => OpKind::FloorDivide,
        "remainder" => OpKind::Remainder,
        "and" => OpKind::And,
        _ => OpKind::Add,
    }
}

impl Operands {
    fn new(
        alloc: Global,
        rows: u64,
        columns: u64,
        read: u64,
        unsigned: bool,
        masked: bool,
    ) -> Result<Operands>
        requires { read ≤ columns }
        ensures { IfOk result (λ o. (o.rows ≡ rows) × (o.read ≡ read)) }
    {
        let shape = Shape::from_slice(&[rows, columns]);
        let count = count_of(rows, columns).context("too many cells")?;
        let a = number_block(alloc, &shape, unsigned, count, 31, masked.then_some(0))?;
        let b = number_block(alloc, &shape, unsigned, count, 77, masked.then_some(2))?;
        let cond = truth_block(alloc, &shape, count, masked.then_some(4))?;
        Ok(Operands {
            rows,
            columns,
            read,
            unsigned,
            a,
            b,
            cond,
        })
    }

    fn combine(&self, op: OpKind, out: &mut CellWin)
        requires op { IsBinary op }
        requires kind { win_kind out.old.cells ≡ (if self.now.unsigned then kinds.UInt32 else kinds.Int32) }
        requires shape { out.old.mask.shape ≡ self.now.rows ∷ self.now.read ∷ [] }
        ensures { SameWindow out.old out.new }
    {
        let left = self.a.view().sub(1, 0, self.read);
        let right = self.b.view().sub(1, 0, self.read);
        binary(op, &left, &right, out);
    }

    fn less(&self, out: &mut CellWin)
        requires kind { win_kind out.old.cells ≡ kinds.Bool }
        requires shape { out.old.mask.shape ≡ self.now.rows ∷ self.now.read ∷ [] }
        ensures { SameWindow out.old out.new }
    {
        let left = self.a.view().sub(1, 0, self.read);
        let right = self.b.view().sub(1, 0, self.read);
        compare(OpKind::Less, &left, &right, out);
    }

    fn pick(&self, out: &mut CellWin)
        requires kind { win_kind out.old.cells ≡ (if self.now.unsigned then kinds.UInt32 else kinds.Int32) }
        requires shape { out.old.mask.shape ≡ self.now.rows ∷ self.now.read ∷ [] }
        ensures { SameWindow out.old out.new }
    {
        let cond = self.cond.view().sub(1, 0, self.read);
        let left = self.a.view().sub(1, 0, self.read);
        let right = self.b.view().sub(1, 0, self.read);
        choose(&cond, &left, &right, out);
    }

    fn widen(&self, out: &mut CellWin)
        requires { out.old.mask.shape ≡ self.now.rows ∷ self.now.read ∷ [] }
        ensures { SameWindow out.old out.new }
    {
        cast(&self.a.view().sub(1, 0, self.read), out);
    }

    fn sum_along(&self, out: &mut CellWin)
        requires kind { win_kind out.old.cells ≡ kinds.Int64 }
        requires shape { out.old.mask.shape ≡ self.now.rows ∷ self.now.read ∷ [] }
        ensures { SameWindow out.old out.new }
    {
        if self.rows == 1 && self.read != 0 && !self.unsigned {
            let row = self.a.view().sub(1, 0, self.read);
            let before = Partial::empty(FoldKind::Sum, DType::Int32);
            scan(before, &row, 1, &Shape::from_slice(&[0, 0]), out);
        }
    }

    // Does a job once.
    fn write(&self, job: &str, out: &mut CellWin)
        requires { out.old.mask.shape ≡ self.now.rows ∷ self.now.read ∷ [] }
        ensures { SameWindow out.old out.new }
    {
        match (out.kind(), self.unsigned) {
            (DType::Bool, _) => self.less(out),
            (DType::Int64, _) => {
                if job == "cast" {
                    self.widen(out);
                } else {
                    self.sum_along(out);
                }
            }
            (DType::Int32, false) | (DType::UInt32, true) => {
                if job == "choose" {
                    self.pick(out);
                } else {
                    self.combine(operation_of(job), out);
                }
            }
            _ => {}
        }
    }
}

impl Work {
    fn new(alloc: Global, job: &str, operands: Operands) -> Result<Work> {
        let shape = Shape::from_slice(&[operands.rows, operands.read]);
        let made = zeros(alloc, kind_of(job, operands.unsigned), &shape)?;
        Ok(Work { operands, made })
    }

    #[tactic(auto, using(strided_block::proofs::Wholes::still_whole, strided_block::proofs::Wholes::same_shape))]
    fn done(self, job: &str) -> Work {
        let Work { operands, made } = self;
        let mut out = CellWin::whole(made);
        operands.write(job, &mut out);
        Work {
            operands,
            made: out.into_block(),
        }
    }

    // A number that depends on the last result.
    fn last(&self) -> Option<i128> {
        let rows = self.operands.rows;
        let columns = self.operands.read;
        if rows == 0 || columns == 0 {
            return None;
        }
        let at = Shape::from_slice(&[rows - 1, columns - 1]);
        self.made.view().get(&at)
    }
}

/// The least time of a job in nanoseconds, and a number that depends on its results. The job reads the first columns of
/// so many rows. Its numbers are of kind uint32 where they are to be unsigned, and else of kind int32.
pub fn timed<C: Clock>(
    clock: &C,
    alloc: Global,
    job: &str,
    rows: u64,
    columns: u64,
    read: u64,
    unsigned: bool,
    masked: bool,
    times: u32,
) -> Result<(u128, i128)>
    requires { read ≤ columns }
{
    let operands = Operands::new(alloc, rows, columns, read, unsigned, masked)?;
    let mut work = Work::new(alloc, job, operands)?;
    let mut least = u128::MAX;
    for _ in 0..times {
        let start = Instant::now(clock)?;
        work = work.done(job);
        least = least.min(start.elapsed(clock)?.as_nanos());
    }
    Ok((least, work.last().unwrap_or(-1)))
}
