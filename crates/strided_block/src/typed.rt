//! Blocks, views and windows of cells of one kind, each at the width of its kind.
use crate::block::Block;
use crate::view::View;
use crate::win::Win;
use std::alloc::Global;
use xr_types::{DType, NoMemory, Shape};

/// A block of cells of one kind. A byte of `Bool` is true where it isn't 0; the calls here write 0 and 1.
#[derive(Drop)]
pub enum TypedBlock {
    Bool(Block<u8>),
    Char(Block<u8>),
    Int8(Block<i8>),
    Int16(Block<i16>),
    Int32(Block<i32>),
    Int64(Block<i64>),
    UInt8(Block<u8>),
    UInt16(Block<u16>),
    UInt32(Block<u32>),
    UInt64(Block<u64>),
}

/// A view of cells of one kind. A byte of `Bool` is true where it isn't 0; the calls here write 0 and 1.
#[derive(Drop)]
pub enum TypedView<'a> {
    Bool(View<'a, u8>),
    Char(View<'a, u8>),
    Int8(View<'a, i8>),
    Int16(View<'a, i16>),
    Int32(View<'a, i32>),
    Int64(View<'a, i64>),
    UInt8(View<'a, u8>),
    UInt16(View<'a, u16>),
    UInt32(View<'a, u32>),
    UInt64(View<'a, u64>),
}

/// A window of cells of one kind. A byte of `Bool` is true where it isn't 0; the calls here write 0 and 1.
pub enum TypedWin {
    Bool(Win<u8>),
    Char(Win<u8>),
    Int8(Win<i8>),
    Int16(Win<i16>),
    Int32(Win<i32>),
    Int64(Win<i64>),
    UInt8(Win<u8>),
    UInt16(Win<u16>),
    UInt32(Win<u32>),
    UInt64(Win<u64>),
}

impl TypedBlock {
    ghost use Rattle.std.specs.Prelude.{◌≡◌, ℕ, ℤ, pos, List, Option, Some, None, length, get_or, All, IfOk};
    ghost use Rattle.xr_arrays.specs.Arrays.{IsCell};
    ghost use Rattle.xr_types.specs.Points.{size, place, IsPoint};
    ghost use Rattle.strided_block.specs.Typed.{block_kind, block_shape, number_kept, view_kind, view_shape, number_shown};

    /// The kind of the cells.
    pub fn kind(&self) -> DType
        ensures { result ≡ block_kind self.now }
    {
        match self {
            TypedBlock::Bool(_) => DType::Bool,
            TypedBlock::Char(_) => DType::Char,
            TypedBlock::Int8(_) => DType::Int8,
            TypedBlock::Int16(_) => DType::Int16,
            TypedBlock::Int32(_) => DType::Int32,
            TypedBlock::Int64(_) => DType::Int64,
            TypedBlock::UInt8(_) => DType::UInt8,
            TypedBlock::UInt16(_) => DType::UInt16,
            TypedBlock::UInt32(_) => DType::UInt32,
            TypedBlock::UInt64(_) => DType::UInt64,
        }
    }

    /// A block whose cells hold 0.
    pub fn zeroed(alloc: Global, kind: DType, shape: &Shape) -> Result<TypedBlock, NoMemory>
        ensures kind { IfOk result (λ b. block_kind b ≡ kind) }
        ensures shape { IfOk result (λ b. block_shape b ≡ shape.now) }
        ensures cells { IfOk result (λ b. (p : List ℕ) → IsPoint shape.now p → number_kept b p ≡ Some (pos 0)) }
    {
        match kind {
            DType::Bool => Ok(TypedBlock::Bool(Block::zeroed(alloc, shape)?)),
            DType::Char => Ok(TypedBlock::Char(Block::zeroed(alloc, shape)?)),
            DType::Int8 => Ok(TypedBlock::Int8(Block::zeroed(alloc, shape)?)),
            DType::Int16 => Ok(TypedBlock::Int16(Block::zeroed(alloc, shape)?)),
            DType::Int32 => Ok(TypedBlock::Int32(Block::zeroed(alloc, shape)?)),
            DType::Int64 => Ok(TypedBlock::Int64(Block::zeroed(alloc, shape)?)),
            DType::UInt8 => Ok(TypedBlock::UInt8(Block::zeroed(alloc, shape)?)),
            DType::UInt16 => Ok(TypedBlock::UInt16(Block::zeroed(alloc, shape)?)),
            DType::UInt32 => Ok(TypedBlock::UInt32(Block::zeroed(alloc, shape)?)),
            DType::UInt64 => Ok(TypedBlock::UInt64(Block::zeroed(alloc, shape)?)),
        }
    }

    /// A block of the numbers of these cells, in row order. What stands at a missing cell is left open.
    pub fn from_slice(
        alloc: Global,
        kind: DType,
        shape: &Shape,
        cells: &[Option<i128>],
    ) -> Result<TypedBlock, NoMemory>
        requires count { length cells.now ≡ size shape.now }
        requires range { All (IsCell kind) cells.now }
        ensures kind { IfOk result (λ b. block_kind b ≡ kind) }
        ensures shape { IfOk result (λ b. block_shape b ≡ shape.now) }
        ensures cells { IfOk result (λ b. (p : List ℕ) (n : ℤ) → IsPoint shape.now p → get_or cells.now (place shape.now p) None ≡ Some n → number_kept b p ≡ Some n) }
    {
        match kind {
            DType::Bool => Ok(TypedBlock::Bool(Block::of_cells(alloc, shape, cells)?)),
            DType::Char => Ok(TypedBlock::Char(Block::of_cells(alloc, shape, cells)?)),
            DType::Int8 => Ok(TypedBlock::Int8(Block::of_cells(alloc, shape, cells)?)),
            DType::Int16 => Ok(TypedBlock::Int16(Block::of_cells(alloc, shape, cells)?)),
            DType::Int32 => Ok(TypedBlock::Int32(Block::of_cells(alloc, shape, cells)?)),
            DType::Int64 => Ok(TypedBlock::Int64(Block::of_cells(alloc, shape, cells)?)),
            DType::UInt8 => Ok(TypedBlock::UInt8(Block::of_cells(alloc, shape, cells)?)),
            DType::UInt16 => Ok(TypedBlock::UInt16(Block::of_cells(alloc, shape, cells)?)),
            DType::UInt32 => Ok(TypedBlock::UInt32(Block::of_cells(alloc, shape, cells)?)),
            DType::UInt64 => Ok(TypedBlock::UInt64(Block::of_cells(alloc, shape, cells)?)),
        }
    }

    /// The cells of the block.
    pub fn view(&self) -> TypedView<'_>
        ensures kind { view_kind result ≡ block_kind self.now }
        ensures shape { view_shape result ≡ block_shape self.now }
        ensures cells { (p : List ℕ) → IsPoint (block_shape self.now) p → number_shown result p ≡ number_kept self.now p }
    {
        match self {
            TypedBlock::Bool(b) => TypedView::Bool(b.view()),
            TypedBlock::Char(b) => TypedView::Char(b.view()),
            TypedBlock::Int8(b) => TypedView::Int8(b.view()),
            TypedBlock::Int16(b) => TypedView::Int16(b.view()),
            TypedBlock::Int32(b) => TypedView::Int32(b.view()),
            TypedBlock::Int64(b) => TypedView::Int64(b.view()),
            TypedBlock::UInt8(b) => TypedView::UInt8(b.view()),
            TypedBlock::UInt16(b) => TypedView::UInt16(b.view()),
            TypedBlock::UInt32(b) => TypedView::UInt32(b.view()),
            TypedBlock::UInt64(b) => TypedView::UInt64(b.view()),
        }
    }
}

impl<'a> TypedView<'a> {
    ghost use Rattle.std.specs.Prelude.{◌≡◌, ◌-◌, ◌<◌, ◌≤◌, ℕ, List, Some, length, get_or, map, insert, slice_set};
    ghost use Rattle.xr_arrays.specs.Nodes.{IsOrder, without, moved as in_order};
    ghost use Rattle.strided_block.specs.Boxes.{moved};
    ghost use Rattle.strided_block.specs.Steps.{stepped, StepsWithin};
    ghost use Rattle.xr_types.specs.Kinds.{InRange};
    ghost use Rattle.xr_types.specs.Points.{IsPoint};
    ghost use Rattle.strided_block.specs.Typed.{view_kind, view_shape, number_shown};

    /// The kind of the cells.
    pub fn kind(&self) -> DType
        ensures { result ≡ view_kind self.now }
    {
        match self {
            TypedView::Bool(_) => DType::Bool,
            TypedView::Char(_) => DType::Char,
            TypedView::Int8(_) => DType::Int8,
            TypedView::Int16(_) => DType::Int16,
            TypedView::Int32(_) => DType::Int32,
            TypedView::Int64(_) => DType::Int64,
            TypedView::UInt8(_) => DType::UInt8,
            TypedView::UInt16(_) => DType::UInt16,
            TypedView::UInt32(_) => DType::UInt32,
            TypedView::UInt64(_) => DType::UInt64,
        }
    }

    /// The number at a point.
    pub fn get(&self, point: &Shape) -> i128
        requires { IsPoint (view_shape self.now) point.now }
        ensures value { number_shown self.now point.now ≡ Some result }
        ensures range { InRange (view_kind self.now) result }
    {
        match self {
            TypedView::Bool(v) => i128::from(v.get(point) != 0),
            TypedView::Char(v) => i128::from(v.get(point)),
            TypedView::Int8(v) => i128::from(v.get(point)),
            TypedView::Int16(v) => i128::from(v.get(point)),
            TypedView::Int32(v) => i128::from(v.get(point)),
            TypedView::Int64(v) => i128::from(v.get(point)),
            TypedView::UInt8(v) => i128::from(v.get(point)),
            TypedView::UInt16(v) => i128::from(v.get(point)),
            TypedView::UInt32(v) => i128::from(v.get(point)),
            TypedView::UInt64(v) => i128::from(v.get(point)),
        }
    }

    /// The part from `from` up to `to` along an axis.
    pub fn sub(self, axis: usize, from: u64, to: u64) -> TypedView<'a>
        requires axis { axis < length (view_shape self) }
        requires range { (from ≤ to) × (to ≤ get_or (view_shape self) axis 0) }
        ensures kind { view_kind result ≡ view_kind self.entry }
        ensures shape { view_shape result ≡ slice_set (view_shape self.entry) axis (to - from) }
        ensures cells { (ps : List ℕ) → IsPoint (view_shape result) ps → number_shown result ps ≡ number_shown self.entry (moved ps axis from) }
    {
        match self {
            TypedView::Bool(v) => TypedView::Bool(v.sub(axis, from, to)),
            TypedView::Char(v) => TypedView::Char(v.sub(axis, from, to)),
            TypedView::Int8(v) => TypedView::Int8(v.sub(axis, from, to)),
            TypedView::Int16(v) => TypedView::Int16(v.sub(axis, from, to)),
            TypedView::Int32(v) => TypedView::Int32(v.sub(axis, from, to)),
            TypedView::Int64(v) => TypedView::Int64(v.sub(axis, from, to)),
            TypedView::UInt8(v) => TypedView::UInt8(v.sub(axis, from, to)),
            TypedView::UInt16(v) => TypedView::UInt16(v.sub(axis, from, to)),
            TypedView::UInt32(v) => TypedView::UInt32(v.sub(axis, from, to)),
            TypedView::UInt64(v) => TypedView::UInt64(v.sub(axis, from, to)),
        }
    }

    /// `count` positions along an axis, `from` and each next one `step` further on. A step below 0 goes back, and one of 0 repeats a position.
    pub fn step(self, axis: usize, from: u64, step: i64, count: u64) -> TypedView<'a>
        requires axis { axis < length (view_shape self) }
        requires range { StepsWithin (get_or (view_shape self) axis 0) from step count }
        ensures kind { view_kind result ≡ view_kind self.entry }
        ensures shape { view_shape result ≡ slice_set (view_shape self.entry) axis count }
        ensures cells { (ps : List ℕ) → IsPoint (view_shape result) ps → number_shown result ps ≡ number_shown self.entry (slice_set ps axis (stepped from step (get_or ps axis 0))) }
    {
        match self {
            TypedView::Bool(v) => TypedView::Bool(v.step(axis, from, step, count)),
            TypedView::Char(v) => TypedView::Char(v.step(axis, from, step, count)),
            TypedView::Int8(v) => TypedView::Int8(v.step(axis, from, step, count)),
            TypedView::Int16(v) => TypedView::Int16(v.step(axis, from, step, count)),
            TypedView::Int32(v) => TypedView::Int32(v.step(axis, from, step, count)),
            TypedView::Int64(v) => TypedView::Int64(v.step(axis, from, step, count)),
            TypedView::UInt8(v) => TypedView::UInt8(v.step(axis, from, step, count)),
            TypedView::UInt16(v) => TypedView::UInt16(v.step(axis, from, step, count)),
            TypedView::UInt32(v) => TypedView::UInt32(v.step(axis, from, step, count)),
            TypedView::UInt64(v) => TypedView::UInt64(v.step(axis, from, step, count)),
        }
    }

    /// The axes in another order: axis number i is the view's axis `order[i]`.
    pub fn permute(self, order: &Shape) -> TypedView<'a>
        requires { IsOrder (length (view_shape self)) order.now }
        ensures kind { view_kind result ≡ view_kind self.entry }
        ensures shape { view_shape result ≡ map (λ k. get_or (view_shape self.entry) k 0) order.now }
        ensures cells { (ps : List ℕ) → IsPoint (view_shape result) ps → number_shown result ps ≡ number_shown self.entry (in_order order.now ps) }
    {
        match self {
            TypedView::Bool(v) => TypedView::Bool(v.permute(order)),
            TypedView::Char(v) => TypedView::Char(v.permute(order)),
            TypedView::Int8(v) => TypedView::Int8(v.permute(order)),
            TypedView::Int16(v) => TypedView::Int16(v.permute(order)),
            TypedView::Int32(v) => TypedView::Int32(v.permute(order)),
            TypedView::Int64(v) => TypedView::Int64(v.permute(order)),
            TypedView::UInt8(v) => TypedView::UInt8(v.permute(order)),
            TypedView::UInt16(v) => TypedView::UInt16(v.permute(order)),
            TypedView::UInt32(v) => TypedView::UInt32(v.permute(order)),
            TypedView::UInt64(v) => TypedView::UInt64(v.permute(order)),
        }
    }

    /// One axis more, before `axis`, of `size` positions that all show the same cell.
    pub fn widen(self, axis: usize, size: u64) -> TypedView<'a>
        requires axis { axis ≤ length (view_shape self) }
        requires few { length (view_shape self) < 16 }
        ensures kind { view_kind result ≡ view_kind self.entry }
        ensures shape { view_shape result ≡ insert (view_shape self.entry) axis size }
        ensures cells { (ps : List ℕ) → IsPoint (view_shape result) ps → number_shown result ps ≡ number_shown self.entry (without axis ps) }
    {
        match self {
            TypedView::Bool(v) => TypedView::Bool(v.widen(axis, size)),
            TypedView::Char(v) => TypedView::Char(v.widen(axis, size)),
            TypedView::Int8(v) => TypedView::Int8(v.widen(axis, size)),
            TypedView::Int16(v) => TypedView::Int16(v.widen(axis, size)),
            TypedView::Int32(v) => TypedView::Int32(v.widen(axis, size)),
            TypedView::Int64(v) => TypedView::Int64(v.widen(axis, size)),
            TypedView::UInt8(v) => TypedView::UInt8(v.widen(axis, size)),
            TypedView::UInt16(v) => TypedView::UInt16(v.widen(axis, size)),
            TypedView::UInt32(v) => TypedView::UInt32(v.widen(axis, size)),
            TypedView::UInt64(v) => TypedView::UInt64(v.widen(axis, size)),
        }
    }
}

impl TypedWin {
    ghost use Rattle.std.specs.Prelude.{◌≡◌, ◌<◌, ◌≤◌, ℕ, ℤ, List, Option, Some, None, length, get_or, All};
    ghost use Rattle.xr_types.specs.Kinds.{InRange};
    ghost use Rattle.xr_arrays.specs.Arrays.{IsCell};
    ghost use Rattle.xr_types.specs.Points.{IsPoint};
    ghost use Rattle.strided_block.specs.Boxes.{plus, along, IsRow};
    ghost use Rattle.strided_block.specs.Typed.{view_kind, view_shape, block_kind, block_shape, win_kind, win_box, win_block, IsWide, OfBlock, AreHalves, SameNumbers, low_part, high_part, both_parts, number_shown, number_kept, number_held};

    /// The window of a whole block.
    pub fn whole(block: TypedBlock) -> TypedWin
        ensures kind { win_kind result ≡ block_kind block }
        ensures place { IsWide (win_box result) }
        ensures shape { (win_box result).whole ≡ block_shape block }
        ensures cells { (cs : List ℕ) → number_held result cs ≡ number_kept block cs }
    {
        match block {
            TypedBlock::Bool(b) => TypedWin::Bool(Win::whole(b)),
            TypedBlock::Char(b) => TypedWin::Char(Win::whole(b)),
            TypedBlock::Int8(b) => TypedWin::Int8(Win::whole(b)),
            TypedBlock::Int16(b) => TypedWin::Int16(Win::whole(b)),
            TypedBlock::Int32(b) => TypedWin::Int32(Win::whole(b)),
            TypedBlock::Int64(b) => TypedWin::Int64(Win::whole(b)),
            TypedBlock::UInt8(b) => TypedWin::UInt8(Win::whole(b)),
            TypedBlock::UInt16(b) => TypedWin::UInt16(Win::whole(b)),
            TypedBlock::UInt32(b) => TypedWin::UInt32(Win::whole(b)),
            TypedBlock::UInt64(b) => TypedWin::UInt64(Win::whole(b)),
        }
    }

    /// The kind of the cells.
    pub fn kind(&self) -> DType
        ensures { result ≡ win_kind self.now }
    {
        match self {
            TypedWin::Bool(_) => DType::Bool,
            TypedWin::Char(_) => DType::Char,
            TypedWin::Int8(_) => DType::Int8,
            TypedWin::Int16(_) => DType::Int16,
            TypedWin::Int32(_) => DType::Int32,
            TypedWin::Int64(_) => DType::Int64,
            TypedWin::UInt8(_) => DType::UInt8,
            TypedWin::UInt16(_) => DType::UInt16,
            TypedWin::UInt32(_) => DType::UInt32,
            TypedWin::UInt64(_) => DType::UInt64,
        }
    }

    /// The cells of the window.
    pub fn view(&self) -> TypedView<'_>
        ensures kind { view_kind result ≡ win_kind self.now }
        ensures shape { view_shape result ≡ (win_box self.now).shape }
        ensures cells { (p : List ℕ) → IsPoint (win_box self.now).shape p → number_shown result p ≡ number_held self.now (plus (win_box self.now).low p) }
    {
        match self {
            TypedWin::Bool(w) => TypedView::Bool(w.view()),
            TypedWin::Char(w) => TypedView::Char(w.view()),
            TypedWin::Int8(w) => TypedView::Int8(w.view()),
            TypedWin::Int16(w) => TypedView::Int16(w.view()),
            TypedWin::Int32(w) => TypedView::Int32(w.view()),
            TypedWin::Int64(w) => TypedView::Int64(w.view()),
            TypedWin::UInt8(w) => TypedView::UInt8(w.view()),
            TypedWin::UInt16(w) => TypedView::UInt16(w.view()),
            TypedWin::UInt32(w) => TypedView::UInt32(w.view()),
            TypedWin::UInt64(w) => TypedView::UInt64(w.view()),
        }
    }

    /// Writes the number at a point.
    pub fn set(&mut self, point: &Shape, number: i128)
        requires inside { IsPoint (win_box self.old).shape point.now }
        requires range { InRange (win_kind self.old) number }
        ensures kind { win_kind self.new ≡ win_kind self.old }
        ensures place { win_box self.new ≡ win_box self.old }
        ensures block { win_block self.new ≡ win_block self.old }
        ensures written { number_held self.new (plus (win_box self.old).low point.now) ≡ Some number }
        ensures others { (cs : List ℕ) → IsPoint (win_box self.old).whole cs → ¬ (cs ≡ plus (win_box self.old).low point.now) → number_held self.new cs ≡ number_held self.old cs }
    {
        match self {
            TypedWin::Bool(w) => w.set(point, u8::from(number != 0)),
            TypedWin::Char(w) => w.set(point, number as u8),
            TypedWin::Int8(w) => w.set(point, number as i8),
            TypedWin::Int16(w) => w.set(point, number as i16),
            TypedWin::Int32(w) => w.set(point, number as i32),
            TypedWin::Int64(w) => w.set(point, number as i64),
            TypedWin::UInt8(w) => w.set(point, number as u8),
            TypedWin::UInt16(w) => w.set(point, number as u16),
            TypedWin::UInt32(w) => w.set(point, number as u32),
            TypedWin::UInt64(w) => w.set(point, number as u64),
        }
    }

    /// Writes the numbers of cells from a point on along the last axis. What is written for a missing cell is left open.
    pub fn put_row(&mut self, point: &Shape, cells: &[Option<i128>])
        requires row { IsRow (win_box self.old).shape point.now (length cells.now) }
        requires range { All (IsCell (win_kind self.old)) cells.now }
        ensures kind { win_kind self.new ≡ win_kind self.old }
        ensures place { win_box self.new ≡ win_box self.old }
        ensures block { win_block self.new ≡ win_block self.old }
        ensures written { (j : ℕ) (n : ℤ) → j < length cells.now → get_or cells.now j None ≡ Some n → number_held self.new (plus (win_box self.old).low (along point.now j)) ≡ Some n }
        ensures others { (cs : List ℕ) → IsPoint (win_box self.old).whole cs → ((j : ℕ) → j < length cells.now → ¬ (cs ≡ plus (win_box self.old).low (along point.now j))) → number_held self.new cs ≡ number_held self.old cs }
    {
        match self {
            TypedWin::Bool(w) => w.put_cells(point, cells),
            TypedWin::Char(w) => w.put_cells(point, cells),
            TypedWin::Int8(w) => w.put_cells(point, cells),
            TypedWin::Int16(w) => w.put_cells(point, cells),
            TypedWin::Int32(w) => w.put_cells(point, cells),
            TypedWin::Int64(w) => w.put_cells(point, cells),
            TypedWin::UInt8(w) => w.put_cells(point, cells),
            TypedWin::UInt16(w) => w.put_cells(point, cells),
            TypedWin::UInt32(w) => w.put_cells(point, cells),
            TypedWin::UInt64(w) => w.put_cells(point, cells),
        }
    }

    /// The part below `at` along an axis, and the rest.
    pub fn split(self, axis: usize, at: u64) -> (TypedWin, TypedWin)
        requires axis { axis < length (win_box self).shape }
        requires at { at ≤ get_or (win_box self).shape axis 0 }
        ensures blocks { OfBlock self result.0 × OfBlock self result.1 }
        ensures first { (win_box result.0 ≡ low_part (win_box self) axis at) × SameNumbers result.0 self }
        ensures second { (win_box result.1 ≡ high_part (win_box self) axis at) × SameNumbers result.1 self }
    {
        match self {
            TypedWin::Bool(w) => {
                let (one, two) = w.split(axis, at);
                (TypedWin::Bool(one), TypedWin::Bool(two))
            }
            TypedWin::Char(w) => {
                let (one, two) = w.split(axis, at);
                (TypedWin::Char(one), TypedWin::Char(two))
            }
            TypedWin::Int8(w) => {
                let (one, two) = w.split(axis, at);
                (TypedWin::Int8(one), TypedWin::Int8(two))
            }
            TypedWin::Int16(w) => {
                let (one, two) = w.split(axis, at);
                (TypedWin::Int16(one), TypedWin::Int16(two))
            }
            TypedWin::Int32(w) => {
                let (one, two) = w.split(axis, at);
                (TypedWin::Int32(one), TypedWin::Int32(two))
            }
            TypedWin::Int64(w) => {
                let (one, two) = w.split(axis, at);
                (TypedWin::Int64(one), TypedWin::Int64(two))
            }
            TypedWin::UInt8(w) => {
                let (one, two) = w.split(axis, at);
                (TypedWin::UInt8(one), TypedWin::UInt8(two))
            }
            TypedWin::UInt16(w) => {
                let (one, two) = w.split(axis, at);
                (TypedWin::UInt16(one), TypedWin::UInt16(two))
            }
            TypedWin::UInt32(w) => {
                let (one, two) = w.split(axis, at);
                (TypedWin::UInt32(one), TypedWin::UInt32(two))
            }
            TypedWin::UInt64(w) => {
                let (one, two) = w.split(axis, at);
                (TypedWin::UInt64(one), TypedWin::UInt64(two))
            }
        }
    }

    /// The two halves of a split, as one window.
    pub fn join(self, other: TypedWin, axis: usize) -> TypedWin
        requires axis { axis < length (win_box self).shape }
        requires halves { OfBlock self other × AreHalves (win_box self) (win_box other) axis }
        ensures block { OfBlock self result }
        ensures place { win_box result ≡ both_parts (win_box self) (win_box other) axis }
        ensures cells { SameNumbers self result × SameNumbers other result }
    {
        match self {
            TypedWin::Bool(w) => {
                let TypedWin::Bool(v) = other else {
                    unreachable!()
                };
                TypedWin::Bool(w.join(v, axis))
            }
            TypedWin::Char(w) => {
                let TypedWin::Char(v) = other else {
                    unreachable!()
                };
                TypedWin::Char(w.join(v, axis))
            }
            TypedWin::Int8(w) => {
                let TypedWin::Int8(v) = other else {
                    unreachable!()
                };
                TypedWin::Int8(w.join(v, axis))
            }
            TypedWin::Int16(w) => {
                let TypedWin::Int16(v) = other else {
                    unreachable!()
                };
                TypedWin::Int16(w.join(v, axis))
            }
            TypedWin::Int32(w) => {
                let TypedWin::Int32(v) = other else {
                    unreachable!()
                };
                TypedWin::Int32(w.join(v, axis))
            }
            TypedWin::Int64(w) => {
                let TypedWin::Int64(v) = other else {
                    unreachable!()
                };
                TypedWin::Int64(w.join(v, axis))
            }
            TypedWin::UInt8(w) => {
                let TypedWin::UInt8(v) = other else {
                    unreachable!()
                };
                TypedWin::UInt8(w.join(v, axis))
            }
            TypedWin::UInt16(w) => {
                let TypedWin::UInt16(v) = other else {
                    unreachable!()
                };
                TypedWin::UInt16(w.join(v, axis))
            }
            TypedWin::UInt32(w) => {
                let TypedWin::UInt32(v) = other else {
                    unreachable!()
                };
                TypedWin::UInt32(w.join(v, axis))
            }
            TypedWin::UInt64(w) => {
                let TypedWin::UInt64(v) = other else {
                    unreachable!()
                };
                TypedWin::UInt64(w.join(v, axis))
            }
        }
    }

    /// The block of a window of the whole.
    pub fn into_block(self) -> TypedBlock
        requires { IsWide (win_box self) }
        ensures kind { block_kind result ≡ win_kind self }
        ensures shape { block_shape result ≡ (win_box self).whole }
        ensures cells { (cs : List ℕ) → number_kept result cs ≡ number_held self cs }
    {
        match self {
            TypedWin::Bool(w) => TypedBlock::Bool(w.into_block()),
            TypedWin::Char(w) => TypedBlock::Char(w.into_block()),
            TypedWin::Int8(w) => TypedBlock::Int8(w.into_block()),
            TypedWin::Int16(w) => TypedBlock::Int16(w.into_block()),
            TypedWin::Int32(w) => TypedBlock::Int32(w.into_block()),
            TypedWin::Int64(w) => TypedBlock::Int64(w.into_block()),
            TypedWin::UInt8(w) => TypedBlock::UInt8(w.into_block()),
            TypedWin::UInt16(w) => TypedBlock::UInt16(w.into_block()),
            TypedWin::UInt32(w) => TypedBlock::UInt32(w.into_block()),
            TypedWin::UInt64(w) => TypedBlock::UInt64(w.into_block()),
        }
    }

    /// Writes one number everywhere.
    pub fn fill(&mut self, number: i128)
        requires { InRange (win_kind self.old) number }
        ensures kind { win_kind self.new ≡ win_kind self.old }
        ensures place { win_box self.new ≡ win_box self.old }
        ensures block { win_block self.new ≡ win_block self.old }
        ensures cells { (p : List ℕ) → IsPoint (win_box self.old).shape p → number_held self.new (plus (win_box self.old).low p) ≡ Some number }
        ensures others { (cs : List ℕ) → IsPoint (win_box self.old).whole cs → ((p : List ℕ) → IsPoint (win_box self.old).shape p → ¬ (cs ≡ plus (win_box self.old).low p)) → number_held self.new cs ≡ number_held self.old cs }
    {
        match self {
            TypedWin::Bool(w) => w.fill(u8::from(number != 0)),
            TypedWin::Char(w) => w.fill(number as u8),
            TypedWin::Int8(w) => w.fill(number as i8),
            TypedWin::Int16(w) => w.fill(number as i16),
            TypedWin::Int32(w) => w.fill(number as i32),
            TypedWin::Int64(w) => w.fill(number as i64),
            TypedWin::UInt8(w) => w.fill(number as u8),
            TypedWin::UInt16(w) => w.fill(number as u16),
            TypedWin::UInt32(w) => w.fill(number as u32),
            TypedWin::UInt64(w) => w.fill(number as u64),
        }
    }
}
