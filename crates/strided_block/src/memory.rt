//! The memory of blocks: where a block begins, and the cells of it that one owner has.
ghost use Rattle.std.specs.Prelude.{◌≡◌, ℕ, List, Option, Some, length, map, take, drop, replicate, IfOk};
ghost use Rattle.std.specs.Borrow.{sem};
ghost use Rattle.core.specs.Mem.Slots.{slots_items, slots_ptr, slots_len, IsFull};
ghost use denote.RawPtr.{Ptr};
ghost use Rattle.std.specs.Vec.Ownership.{FitsInBlock};
ghost use Rattle.strided_block.specs.Memory.{cells_owned, cells_lent, right_owned};
ghost use Rattle.strided_block.specs.Parts.{dealt, joined, below, above, IsRun};

use core::slots::Slots;
use std::alloc::{AllocError, Allocator, Global};
use std::marker::{Model, PhantomData, Send, Sync};
use std::mem::{align_of, size_of};
use std::slice;
use std_alloc::room::may_hold;

/// The pointer to the first cell of a block, which whoever has some of its cells has.
#[derive(Drop)]
pub struct Origin<T> {
    ptr: *mut T,
}

impl<T> Clone for Origin<T> {
    ghost use Rattle.std.specs.Prelude.{⊤};

    ghost is_clone = { λ x y. y ≡ x };

    ghost is_infallible = { λ _. ⊤ };

    fn clone(&self) -> Result<Origin<T>, AllocError> {
        Ok(*self)
    }
}

impl<T> Copy for Origin<T> {}

unsafe impl<T> Send for Origin<T> {}

unsafe impl<T> Sync for Origin<T> {}

/// A share of a block's cells: the cells that one owner has, where other shares have the rest. It is there for the proof alone.
#[derive(Drop)]
pub struct Share<T> {
    mark: PhantomData<*const T>,
    ghost at: { Ptr },
    ghost slots: { List (Option T) },
}

impl<T> Model for Share<T> {
    ghost also_owns = { λ c. cells_owned T.row c.at c.slots };

    ghost also_shares = { λ c _ κ. cells_lent T.row c.at c.slots κ };
}

unsafe impl<T: Send> Send for Share<T> {}

unsafe impl<T: Sync> Sync for Share<T> {}

/// The right to give the memory of so many cells back to its allocator, for the proof alone.
pub struct Right<T, A: Allocator> {
    mark: PhantomData<*const (T, A)>,
    ghost at: { Ptr },
    ghost count: { ℕ },
    ghost alloc: { A },
}

impl<T, A: Allocator> Model for Right<T, A> {
    ghost also_owns = { λ r. right_owned (A.dealloc_token r.alloc) T.row r.at r.count };
}

unsafe impl<T, A: Allocator + Send> Send for Right<T, A> {}

unsafe impl<T, A: Allocator + Send> Sync for Right<T, A> {}

/// A row of empty places, and the right to free it.
fn take<T, A: Allocator>(alloc: &A, count: usize) -> Result<(Slots<T>, Right<T, A>), AllocError>
    requires { FitsInBlock T.row count × T }
    ensures { IfOk result (λ r. (slots_len r.0 ≡ count) × (r.1.at ≡ slots_ptr r.0) × (r.1.count ≡ count) × (r.1.alloc ≡ alloc.now)) }
{
    match alloc.allocate(count * size_of::<T>(), align_of::<T>()) {
        Ok(block) => {
            let row = unsafe { Slots::from_raw_parts(block as *mut T, count) };
            Ok((row, Right { mark: PhantomData }))
        }
        Err(refused) => Err(refused),
    }
}

/// Gives the memory of a row back.
fn give<T, A: Allocator>(alloc: &A, row: Slots<T>, right: Right<T, A>)
    requires { (right.at ≡ slots_ptr row) × (right.count ≡ slots_len row) × (right.alloc ≡ alloc.now) }
{
    let Right { mark: _ } = right;
    let parts = unsafe { row.into_raw_parts() };
    unsafe {
        alloc.deallocate(
            parts.0 as *mut u8,
            parts.1 * size_of::<T>(),
            align_of::<T>(),
        );
    }
}

/// The right to free a block.
pub struct Deed<T> {
    right: Right<T, Global>,
    heap: Global,
    ghost own: { right.alloc ≡ heap },
}

// A row of empty places in memory of its own.
fn reserve<T>(heap: Global, count: usize) -> Result<(Slots<T>, Deed<T>), AllocError>
    requires { T }
    ensures { IfOk result (λ r. (slots_len r.0 ≡ count) × (r.1.right.at ≡ slots_ptr r.0) × (r.1.right.count ≡ slots_len r.0)) }
{
    if !may_hold::<T>(count) {
        return Err(AllocError);
    }
    let (row, right) = take(&heap, count)?;
    Ok((row, Deed { right, heap }))
}

/// The cells in memory of their own, and the right to free it.
pub(crate) fn copied<T: Copy>(heap: Global, cells: &[T]) -> Result<(Slots<T>, Deed<T>), AllocError>
    requires { T }
    ensures row { IfOk result (λ r. IsFull r.0 × (slots_items r.0 ≡ cells.now)) }
    ensures deed { IfOk result (λ r. (r.1.right.at ≡ slots_ptr r.0) × (r.1.right.count ≡ slots_len r.0)) }
{
    let (mut row, deed) = reserve(heap, cells.len())?;
    row.copy_in(0, cells);
    Ok((row, deed))
}

// Writes one cell everywhere. The loop writes nothing else, so that it can become a `memset`.
fn fill_row<T: Copy>(row: &mut Slots<T>, count: usize, cell: T)
    requires { slots_len row.old ≡ count }
    ensures { IsFull row.new × (slots_items row.new ≡ replicate count cell) × (slots_ptr row.new ≡ slots_ptr row.old) × (slots_len row.new ≡ slots_len row.old) }
{
    for i in 0..count {
        row.put(i, cell);
    }
}

/// As many times one cell in memory of its own, and the right to free it.
pub(crate) fn filled<T: Copy>(
    heap: Global,
    count: usize,
    cell: T,
) -> Result<(Slots<T>, Deed<T>), AllocError>
    ensures row { IfOk result (λ r. IsFull r.0 × (slots_items r.0 ≡ replicate count cell)) }
    ensures deed { IfOk result (λ r. (r.1.right.at ≡ slots_ptr r.0) × (r.1.right.count ≡ slots_len r.0)) }
{
    let (mut row, deed) = reserve(heap, count)?;
    fill_row(&mut row, count, cell);
    Ok((row, deed))
}

/// Frees the memory of a block.
pub(crate) fn free<T>(row: Slots<T>, deed: Deed<T>)
    requires { (deed.right.at ≡ slots_ptr row) × (deed.right.count ≡ slots_len row) }
{
    let Deed { right, heap } = deed;
    give(&heap, row, right);
}

impl<T> Share<T> {
    ghost use Rattle.strided_block.specs.Lends.{lends_run};

    /// All cells of a row.
    pub(crate) fn of(row: Slots<T>) -> (Origin<T>, Share<T>)
        requires { IsFull row }
        ensures { (result.0.ptr ≡ slots_ptr row) × (result.1.at ≡ slots_ptr row) × (result.1.slots ≡ map Some (slots_items row)) }
    {
        let parts = unsafe { row.into_raw_parts() };
        (Origin { ptr: parts.0 }, Share { mark: PhantomData })
    }

    /// The row of all cells.
    pub(crate) fn into_row(self, base: Origin<T>, count: usize) -> Slots<T>
        requires { (base.ptr ≡ self.at) × (count ≡ length self.slots) × IsRun self.slots 0 count }
        ensures { (slots_ptr result ≡ self.at) × (slots_len result ≡ count) × IsFull result × (map Some (slots_items result) ≡ self.slots) }
    {
        let Share { mark: _ } = self;
        unsafe { Slots::from_raw_parts(base.ptr, count) }
    }

    /// The cells from a place on.
    #[inline(always)]
    pub(crate) fn run(&self, base: Origin<T>, from: usize, count: usize) -> &[T]
        requires { (base.ptr ≡ self.now.at) × IsRun self.now.slots from count }
        ensures { take count (drop from self.now.slots) ≡ map Some result.now }
    {
        unsafe { slice::from_raw_parts(base.ptr.add(from), count) }
    }

    /// The cells from a place on, to be written.
    #[inline(always)]
    pub(crate) fn run_mut(&mut self, base: Origin<T>, from: usize, count: usize) -> &mut [T]
        requires { (base.ptr ≡ self.old.at) × IsRun self.old.slots from count }
        ensures* writes_back { sem 𝓛 (lends_run T.row self.entry from count result) }
        ensures value { take count (drop from self.old.slots) ≡ map Some result.now }
    {
        unsafe { slice::from_raw_parts_mut(base.ptr.add(from), count) }
    }

    /// The cells whose position along an axis of this step and size is below the bound, and the others.
    pub(crate) fn cut(self, _step: u64, _size: u64, _bound: u64) -> (Share<T>, Share<T>)
        ensures { (result.0.at ≡ self.at) × (result.1.at ≡ self.at) × (result.0.slots ≡ dealt (below _step _size _bound) 0 self.slots) × (result.1.slots ≡ dealt (above _step _size _bound) 0 self.slots) }
    {
        let Share { mark: _ } = self;
        (Share { mark: PhantomData }, Share { mark: PhantomData })
    }

    /// The cells of both.
    pub(crate) fn meet(self, other: Share<T>) -> Share<T>
        requires { other.at ≡ self.at }
        ensures { (result.at ≡ self.at) × (result.slots ≡ joined self.slots other.slots) }
    {
        let Share { mark: _ } = self;
        let Share { mark: _ } = other;
        Share { mark: PhantomData }
    }
}
