//! Cells of one kind with their mask: blocks, views and windows.
ghost use Rattle.std.specs.Prelude.{◌≡◌, false, ℕ, List, Some};
ghost use Rattle.xr_types.specs.Points.{IsPoint};
ghost use Rattle.strided_block.specs.Views.{kept, shown, cell_at};
ghost use Rattle.strided_block.specs.Typed.{block_shape, view_shape, win_box, box_of};

use crate::block::{Block, mask_of};
use crate::row::some_missing;
use crate::typed::{TypedBlock, TypedView, TypedWin};
use crate::view::View;
use crate::win::Win;
use std::alloc::Global;
use xr_types::{DType, NoMemory, Shape};

/// A block of cells of one kind and of their mask, whose bytes are 0 where a cell is present.
#[derive(Drop)]
pub struct CellBlock {
    pub cells: TypedBlock,
    pub mask: Block<u8>,
    /// Whether a byte of the mask may differ from 0.
    pub masked: bool,
    /// The cells and the mask have one shape.
    pub ghost same_shape: { mask.shape ≡ block_shape cells },
    /// Without the flag no cell is missing.
    pub ghost clear: { masked ≡ false → (p : List ℕ) → IsPoint mask.shape p → kept mask p ≡ Some 0 },
}

/// A view of cells of one kind and of their mask, whose bytes are 0 where a cell is present.
#[derive(Drop)]
pub struct CellView<'a> {
    pub cells: TypedView<'a>,
    pub mask: View<'a, u8>,
    /// Whether a byte of the mask may differ from 0.
    pub masked: bool,
    /// The cells and the mask have one shape.
    pub ghost same_shape: { mask.shape ≡ view_shape cells },
    /// Without the flag no cell is missing.
    pub ghost clear: { masked ≡ false → (p : List ℕ) → IsPoint mask.shape p → shown mask p ≡ Some 0 },
}

/// A window of cells of one kind and of their mask, whose bytes are 0 where a cell is present. It has to be spent.
pub struct CellWin {
    pub cells: TypedWin,
    pub mask: Win<u8>,
    /// Whether a byte of the mask may differ from 0.
    pub masked: bool,
    /// The cells and the mask have one box.
    pub ghost same_box: { box_of mask ≡ win_box cells },
    /// Without the flag no cell is missing.
    pub ghost clear: { masked ≡ false → (p : List ℕ) → IsPoint mask.shape p → cell_at mask p ≡ Some 0 },
}

impl CellBlock {
    ghost use Rattle.std.specs.Prelude.{◌≡◌, ℕ, pos, List, Option, Some, None, length, get_or, All, IfOk};
    ghost use Rattle.xr_arrays.specs.Arrays.{IsCell};
    ghost use Rattle.xr_types.specs.Points.{size, place, IsPoint};
    ghost use Rattle.strided_block.specs.Typed.{block_kind, view_kind};
    ghost use Rattle.strided_block.specs.Cells.{cell_kept, cell_shown};

    /// A block whose cells hold 0.
    pub fn zeroed(alloc: Global, kind: DType, shape: &Shape) -> Result<CellBlock, NoMemory>
        ensures kind { IfOk result (λ b. block_kind b.cells ≡ kind) }
        ensures shape { IfOk result (λ b. b.mask.shape ≡ shape.now) }
        ensures cells { IfOk result (λ b. (p : List ℕ) → IsPoint shape.now p → cell_kept b p ≡ Some (pos 0)) }
    {
        let cells = TypedBlock::zeroed(alloc, kind, shape)?;
        let mask = Block::zeroed(alloc, shape)?;
        Ok(CellBlock {
            cells,
            mask,
            masked: false,
        })
    }

    /// A block of these cells, in row order.
    pub fn from_slice(
        alloc: Global,
        kind: DType,
        shape: &Shape,
        cells: &[Option<i128>],
    ) -> Result<CellBlock, NoMemory>
        requires count { length cells.now ≡ size shape.now }
        requires range { All (IsCell kind) cells.now }
        ensures kind { IfOk result (λ b. block_kind b.cells ≡ kind) }
        ensures shape { IfOk result (λ b. b.mask.shape ≡ shape.now) }
        ensures cells { IfOk result (λ b. (p : List ℕ) → IsPoint shape.now p → cell_kept b p ≡ get_or cells.now (place shape.now p) None) }
    {
        let numbers = TypedBlock::from_slice(alloc, kind, shape, cells)?;
        let mask = mask_of(alloc, shape, cells)?;
        Ok(CellBlock {
            cells: numbers,
            mask,
            masked: some_missing(cells),
        })
    }

    /// The kind of the cells.
    pub fn kind(&self) -> DType
        ensures { result ≡ block_kind self.now.cells }
    {
        self.cells.kind()
    }

    /// The sizes of the block.
    pub fn shape(&self) -> &Shape
        ensures { result.now ≡ self.now.mask.shape }
    {
        self.mask.shape()
    }

    /// The cells of the block.
    pub fn view(&self) -> CellView<'_>
        ensures kind { view_kind result.cells ≡ block_kind self.now.cells }
        ensures shape { result.mask.shape ≡ self.now.mask.shape }
        ensures cells { (p : List ℕ) → IsPoint self.now.mask.shape p → cell_shown result p ≡ cell_kept self.now p }
    {
        CellView {
            cells: self.cells.view(),
            mask: self.mask.view(),
            masked: self.masked,
        }
    }
}

impl<'a> CellView<'a> {
    ghost use Rattle.std.specs.Prelude.{◌≡◌, ◌-◌, ◌≤◌, ◌<◌, ℕ, List, length, get_or, map, insert, slice_set};
    ghost use Rattle.xr_types.specs.Points.{IsPoint};
    ghost use Rattle.xr_arrays.specs.Nodes.{IsOrder, without, moved as in_order};
    ghost use Rattle.strided_block.specs.Steps.{stepped, StepsWithin};
    ghost use Rattle.xr_arrays.specs.Arrays.{IsCell};
    ghost use Rattle.strided_block.specs.Boxes.{moved};
    ghost use Rattle.strided_block.specs.Typed.{view_kind};
    ghost use Rattle.strided_block.specs.Cells.{cell_shown};

    /// The kind of the cells.
    pub fn kind(&self) -> DType
        ensures { result ≡ view_kind self.now.cells }
    {
        self.cells.kind()
    }

    /// The sizes of the view.
    pub fn shape(&self) -> &Shape
        ensures { result.now ≡ self.now.mask.shape }
    {
        self.mask.shape()
    }

    /// The cell at a point.
    pub fn get(&self, point: &Shape) -> Option<i128>
        requires { IsPoint self.now.mask.shape point.now }
        ensures value { result ≡ cell_shown self.now point.now }
        ensures range { IsCell (view_kind self.now.cells) result }
    {
        let number = self.cells.get(point);
        if self.mask.get(point) == 0 {
            Some(number)
        } else {
            None
        }
    }

    /// The part from `from` up to `to` along an axis.
    #[tactic(auto, using(crate::proofs::CellLaws::moved_inside))]
    pub fn sub(self, axis: usize, from: u64, to: u64) -> CellView<'a>
        requires axis { axis < length self.mask.shape }
        requires range { (from ≤ to) × (to ≤ get_or self.mask.shape axis 0) }
        ensures kind { view_kind result.cells ≡ view_kind self.entry.cells }
        ensures shape { result.mask.shape ≡ slice_set self.entry.mask.shape axis (to - from) }
        ensures cells { (ps : List ℕ) → IsPoint result.mask.shape ps → cell_shown result ps ≡ cell_shown self.entry (moved ps axis from) }
    {
        let CellView {
            cells,
            mask,
            masked,
        } = self;
        CellView {
            cells: cells.sub(axis, from, to),
            mask: mask.sub(axis, from, to),
            masked,
        }
    }

    /// `count` positions along an axis, `from` and each next one `step` further on. A step below 0 goes back, and one of 0 repeats a position.
    #[tactic(auto, using(crate::proofs::Steps::step_inside))]
    pub fn step(self, axis: usize, from: u64, step: i64, count: u64) -> CellView<'a>
        requires axis { axis < length self.mask.shape }
        requires range { StepsWithin (get_or self.mask.shape axis 0) from step count }
        ensures kind { view_kind result.cells ≡ view_kind self.entry.cells }
        ensures shape { result.mask.shape ≡ slice_set self.entry.mask.shape axis count }
        ensures cells { (ps : List ℕ) → IsPoint result.mask.shape ps → cell_shown result ps ≡ cell_shown self.entry (slice_set ps axis (stepped from step (get_or ps axis 0))) }
    {
        let CellView {
            cells,
            mask,
            masked,
        } = self;
        CellView {
            cells: cells.step(axis, from, step, count),
            mask: mask.step(axis, from, step, count),
            masked,
        }
    }

    /// The axes in another order: axis number i is the view's axis `order[i]`.
    #[tactic(auto, using(crate::proofs::Orders::order_inside))]
    pub fn permute(self, order: &Shape) -> CellView<'a>
        requires { IsOrder (length self.mask.shape) order.now }
        ensures kind { view_kind result.cells ≡ view_kind self.entry.cells }
        ensures shape { result.mask.shape ≡ map (λ k. get_or self.entry.mask.shape k 0) order.now }
        ensures cells { (ps : List ℕ) → IsPoint result.mask.shape ps → cell_shown result ps ≡ cell_shown self.entry (in_order order.now ps) }
    {
        let CellView {
            cells,
            mask,
            masked,
        } = self;
        CellView {
            cells: cells.permute(order),
            mask: mask.permute(order),
            masked,
        }
    }

    /// One axis more, before `axis`, of `size` positions that all show the same cell.
    #[tactic(auto, using(crate::proofs::Steps::without_inside))]
    pub fn widen(self, axis: usize, size: u64) -> CellView<'a>
        requires axis { axis ≤ length self.mask.shape }
        requires few { length self.mask.shape < 16 }
        ensures kind { view_kind result.cells ≡ view_kind self.entry.cells }
        ensures shape { result.mask.shape ≡ insert self.entry.mask.shape axis size }
        ensures cells { (ps : List ℕ) → IsPoint result.mask.shape ps → cell_shown result ps ≡ cell_shown self.entry (without axis ps) }
    {
        let CellView {
            cells,
            mask,
            masked,
        } = self;
        CellView {
            cells: cells.widen(axis, size),
            mask: mask.widen(axis, size),
            masked,
        }
    }
}

impl CellWin {
    ghost use Rattle.std.specs.Prelude.{◌≡◌, ◌<◌, ◌≤◌, ℕ, List, Option, None, length, get_or, All};
    ghost use Rattle.xr_types.specs.Points.{IsPoint};
    ghost use Rattle.xr_arrays.specs.Arrays.{IsCell};
    ghost use Rattle.strided_block.specs.Boxes.{plus, along, IsRow};
    ghost use Rattle.strided_block.specs.Typed.{view_kind, block_kind, win_kind, AreHalves, low_part, high_part, both_parts};
    ghost use Rattle.strided_block.specs.Views.{IsWhole};
    ghost use Rattle.strided_block.specs.Cells.{cell_shown, cell_kept, cell_held, cell_in, SameWindow, SameBlocks, SameCells, IsPart};

    /// The window of a whole block.
    pub fn whole(block: CellBlock) -> CellWin
        ensures kind { win_kind result.cells ≡ block_kind block.cells }
        ensures place { IsWhole result.mask }
        ensures shape { result.mask.whole ≡ block.mask.shape }
        ensures cells { (cs : List ℕ) → IsPoint block.mask.shape cs → cell_held result cs ≡ cell_kept block cs }
    {
        let CellBlock {
            cells,
            mask,
            masked,
        } = block;
        CellWin {
            cells: TypedWin::whole(cells),
            mask: Win::whole(mask),
            masked,
        }
    }

    /// The kind of the cells.
    pub fn kind(&self) -> DType
        ensures { result ≡ win_kind self.now.cells }
    {
        self.cells.kind()
    }

    /// The sizes of the window.
    pub fn shape(&self) -> &Shape
        ensures { result.now ≡ self.now.mask.shape }
    {
        self.mask.shape()
    }

    /// The cells of the window.
    pub fn view(&self) -> CellView<'_>
        ensures kind { view_kind result.cells ≡ win_kind self.now.cells }
        ensures shape { result.mask.shape ≡ self.now.mask.shape }
        ensures cells { (p : List ℕ) → IsPoint self.now.mask.shape p → cell_shown result p ≡ cell_in self.now p }
    {
        CellView {
            cells: self.cells.view(),
            mask: self.mask.view(),
            masked: self.masked,
        }
    }

    /// Writes the cell at a point.
    pub fn set(&mut self, point: &Shape, cell: Option<i128>)
        requires inside { IsPoint self.old.mask.shape point.now }
        requires range { IsCell (win_kind self.old.cells) cell }
        ensures place { SameWindow self.old self.new }
        ensures blocks { SameBlocks self.old self.new }
        ensures written { cell_in self.new point.now ≡ cell }
        ensures others { (cs : List ℕ) → IsPoint self.old.mask.whole cs → ¬ (cs ≡ plus self.old.mask.low point.now) → cell_held self.new cs ≡ cell_held self.old cs }
    {
        match cell {
            Some(number) => {
                self.cells.set(point, number);
                self.mask.set(point, 0);
            }
            None => {
                self.masked = true;
                self.mask.set(point, 1);
            }
        }
    }

    /// Writes cells from a point on along the last axis.
    pub fn put_row(&mut self, point: &Shape, cells: &[Option<i128>])
        requires row { IsRow self.old.mask.shape point.now (length cells.now) }
        requires range { All (IsCell (win_kind self.old.cells)) cells.now }
        ensures place { SameWindow self.old self.new }
        ensures blocks { SameBlocks self.old self.new }
        ensures written { (j : ℕ) → j < length cells.now → cell_in self.new (along point.now j) ≡ get_or cells.now j None }
        ensures others { (cs : List ℕ) → IsPoint self.old.mask.whole cs → ((j : ℕ) → j < length cells.now → ¬ (cs ≡ plus self.old.mask.low (along point.now j))) → cell_held self.new cs ≡ cell_held self.old cs }
    {
        let missing = some_missing(cells);
        self.cells.put_row(point, cells);
        self.mask.put_mask(point, cells);
        let masked = self.masked | missing;
        self.masked = masked;
    }

    /// The part below `at` along an axis, and the rest.
    pub fn split(self, axis: usize, at: u64) -> (CellWin, CellWin)
        requires axis { axis < length self.mask.shape }
        requires at { at ≤ get_or self.mask.shape axis 0 }
        ensures first { IsPart self result.0 (low_part (box_of self.mask) axis at) }
        ensures second { IsPart self result.1 (high_part (box_of self.mask) axis at) }
    {
        let CellWin {
            cells,
            mask,
            masked,
        } = self;
        let (one, two) = cells.split(axis, at);
        let (first, second) = mask.split(axis, at);
        (
            CellWin {
                cells: one,
                mask: first,
                masked,
            },
            CellWin {
                cells: two,
                mask: second,
                masked,
            },
        )
    }

    /// The two halves of a split, as one window.
    pub fn join(self, other: CellWin, axis: usize) -> CellWin
        requires axis { axis < length self.mask.shape }
        requires blocks { SameBlocks self other × (win_kind other.cells ≡ win_kind self.cells) }
        requires halves { AreHalves (box_of self.mask) (box_of other.mask) axis }
        ensures blocks { SameBlocks self result × (win_kind result.cells ≡ win_kind self.cells) }
        ensures place { box_of result.mask ≡ both_parts (box_of self.mask) (box_of other.mask) axis }
        ensures cells { SameCells self result × SameCells other result }
    {
        let CellWin {
            cells,
            mask,
            masked,
        } = self;
        let CellWin {
            cells: others,
            mask: bytes,
            masked: hides,
        } = other;
        CellWin {
            cells: cells.join(others, axis),
            mask: mask.join(bytes, axis),
            masked: masked | hides,
        }
    }

    /// The block of a window of the whole.
    pub fn into_block(self) -> CellBlock
        requires { IsWhole self.mask }
        ensures kind { block_kind result.cells ≡ win_kind self.cells }
        ensures shape { result.mask.shape ≡ self.mask.whole }
        ensures cells { (cs : List ℕ) → IsPoint result.mask.shape cs → cell_kept result cs ≡ cell_held self cs }
    {
        let CellWin {
            cells,
            mask,
            masked,
        } = self;
        CellBlock {
            cells: cells.into_block(),
            mask: mask.into_block(),
            masked,
        }
    }

    /// Writes one cell everywhere.
    pub fn fill(&mut self, cell: Option<i128>)
        requires { IsCell (win_kind self.old.cells) cell }
        ensures place { SameWindow self.old self.new }
        ensures blocks { SameBlocks self.old self.new }
        ensures cells { (p : List ℕ) → IsPoint self.old.mask.shape p → cell_in self.new p ≡ cell }
        ensures others { (cs : List ℕ) → IsPoint self.old.mask.whole cs → ((p : List ℕ) → IsPoint self.old.mask.shape p → ¬ (cs ≡ plus self.old.mask.low p)) → cell_held self.new cs ≡ cell_held self.old cs }
    {
        match cell {
            Some(number) => {
                self.cells.fill(number);
                self.mask.fill(0);
            }
            None => {
                self.masked = true;
                self.mask.fill(1);
            }
        }
    }
}
