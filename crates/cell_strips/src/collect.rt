//! Arrays that come strip by strip.
ghost use Rattle.std.specs.Prelude.{◌≡◌, ◌<◌, ◌≤◌, ◌+◌, ◌++◌, ℕ, List, [], length, replicate, take, MatchOption, ⊤, Option, None, IfOk, option_map};
ghost use Rattle.xr_types.specs.Points.{size};
ghost use Rattle.xr_arrays.specs.Arrays.{Array, kind_of, wide, hidden, InKind, IsArray};
ghost use Rattle.xr_arrays.specs.Nodes.{most_node_cells};
ghost use Rattle.cell_strips.specs.Rows.{count, Covers};
ghost use Rattle.cell_strips.specs.Strips.{strip, joined_masks, IsWhole};

use crate::arrays::{array, parts};
use crate::cells::count;
use std::alloc::{AllocError, Global};
use stored_cells::as_typed;
use xr_arrays::{ArrayValue, Cells};
use xr_types::{DType, Elem, Items};

// How many cells a strip has: few enough for the strips of some operands and their masks to stay in a processor's own memory,
// and to be laid each time where those before them lay: the C library hands memory back to the system, and takes it fresh from
// there again, where more than 128 KiB at the end of its heap are free.
const STRIP: usize = 4_096;

/// What gives the strips of an array.
pub trait Strips {
    /// The array.
    ghost whole: { Self → Array };

    /// What a call needs.
    ghost Ready: { Self → Type 0 };

    /// So many of its cells in row order from a place on.
    fn strip(&self, alloc: Global, from: usize, n: usize) -> Result<ArrayValue, AllocError>
        requires ready { Ready self.now }
        requires inside { from + n ≤ size (whole self.now).shape }
        ensures { IfOk result (λ b. b ≡ strip from n (whole self.now)) };
}

// The cells of the strips so far.
#[derive(Drop)]
struct Collected {
    cells: Cells,
    mask: Option<Items<u8>>,
}

fn room_for<T: Elem>(alloc: Global, room: usize) -> Result<Items<T>, AllocError>
    ensures { IfOk result (λ v. v ≡ []) }
{
    Ok(Items::of(Vec::with_capacity(alloc, room)?))
}

// No cells, with room for so many.
fn no_cells(alloc: Global, kind: DType, room: usize) -> Result<Cells, AllocError>
    ensures kind { IfOk result (λ c. kind_of c ≡ kind) }
    ensures none { IfOk result (λ c. wide c ≡ []) }
    ensures count { IfOk result (λ c. count c ≡ 0) }
    ensures range { IfOk result InKind }
{
    match kind {
        DType::Bool => Ok(Cells::Bool(room_for(alloc, room)?)),
        DType::Char => Ok(Cells::Char(room_for(alloc, room)?)),
        DType::Int8 => Ok(Cells::Int8(room_for(alloc, room)?)),
        DType::Int16 => Ok(Cells::Int16(room_for(alloc, room)?)),
        DType::Int32 => Ok(Cells::Int32(room_for(alloc, room)?)),
        DType::Int64 => Ok(Cells::Int64(room_for(alloc, room)?)),
        DType::UInt8 => Ok(Cells::UInt8(room_for(alloc, room)?)),
        DType::UInt16 => Ok(Cells::UInt16(room_for(alloc, room)?)),
        DType::UInt32 => Ok(Cells::UInt32(room_for(alloc, room)?)),
        DType::UInt64 => Ok(Cells::UInt64(room_for(alloc, room)?)),
    }
}

fn append_row<T: Copy + Drop>(row: Items<T>, more: &[T]) -> Result<Items<T>, AllocError>
    ensures { IfOk result (λ v. v ≡ row ++ more.now) }
{
    let mut all = row.into_vec();
    all.extend_from_slice(more)?;
    Ok(Items::of(all))
}

// More cells of the same kind behind those so far.
fn append_cells(cells: Cells, more: &Cells) -> Result<Cells, AllocError>
    requires kinds { kind_of more.now ≡ kind_of cells }
    requires range { InKind cells × InKind more.now }
    ensures kind { IfOk result (λ c. kind_of c ≡ kind_of cells) }
    ensures cells { IfOk result (λ c. wide c ≡ wide cells ++ wide more.now) }
    ensures count { IfOk result (λ c. count c ≡ count cells + count more.now) }
    ensures range { IfOk result InKind }
{
    match (cells, more) {
        (Cells::Bool(v), Cells::Bool(w)) => Ok(Cells::Bool(append_row(v, w.as_slice())?)),
        (Cells::Char(v), Cells::Char(w)) => Ok(Cells::Char(append_row(v, w.as_slice())?)),
        (Cells::Int8(v), Cells::Int8(w)) => Ok(Cells::Int8(append_row(v, w.as_slice())?)),
        (Cells::Int16(v), Cells::Int16(w)) => Ok(Cells::Int16(append_row(v, w.as_slice())?)),
        (Cells::Int32(v), Cells::Int32(w)) => Ok(Cells::Int32(append_row(v, w.as_slice())?)),
        (Cells::Int64(v), Cells::Int64(w)) => Ok(Cells::Int64(append_row(v, w.as_slice())?)),
        (Cells::UInt8(v), Cells::UInt8(w)) => Ok(Cells::UInt8(append_row(v, w.as_slice())?)),
        (Cells::UInt16(v), Cells::UInt16(w)) => Ok(Cells::UInt16(append_row(v, w.as_slice())?)),
        (Cells::UInt32(v), Cells::UInt32(w)) => Ok(Cells::UInt32(append_row(v, w.as_slice())?)),
        (Cells::UInt64(v), Cells::UInt64(w)) => Ok(Cells::UInt64(append_row(v, w.as_slice())?)),
        _ => unreachable!(),
    }
}

// So many zeros, with room for more.
fn zeros(alloc: Global, n: usize, room: usize) -> Result<Items<u8>, AllocError>
    requires { n ≤ room }
    ensures { IfOk result (λ v. v ≡ replicate n 0) }
{
    let mut bytes = Vec::from_elem(alloc, 0u8, room)?;
    bytes.truncate(n);
    Ok(Items::of(bytes))
}

// The mask of n cells and k more.
fn append_mask(
    alloc: Global,
    mask: Option<Items<u8>>,
    n: usize,
    more: Option<&Items<u8>>,
    k: usize,
    room: usize,
) -> Result<Option<Items<u8>>, AllocError>
    requires { n ≤ room }
    ensures { IfOk result (λ m. m ≡ joined_masks n k mask (option_map (λ m. m.now) more.entry)) }
{
    match (mask, more) {
        (Some(mask), Some(more)) => Ok(Some(append_row(mask, more.as_slice())?)),
        (Some(mask), None) => {
            let shown = zeros(alloc, k, k)?;
            Ok(Some(append_row(mask, shown.as_slice())?))
        }
        (None, Some(more)) => {
            let shown = zeros(alloc, n, room)?;
            Ok(Some(append_row(shown, more.as_slice())?))
        }
        (None, None) => Ok(None),
    }
}

// The cells of one more strip behind those so far.
fn append(
    alloc: Global,
    so_far: Collected,
    strip: &ArrayValue,
    room: usize,
) -> Result<Collected, AllocError>
    requires whole { IsWhole so_far }
    requires kind { strip.now.kind ≡ kind_of so_far.cells }
    requires room { count so_far.cells ≤ room }
    ensures whole { IfOk result IsWhole }
    ensures kind { IfOk result (λ c. kind_of c.cells ≡ kind_of so_far.cells) }
    ensures cells { IfOk result (λ c. hidden (wide c.cells) c.mask ≡ hidden (wide so_far.cells) so_far.mask ++ strip.now.cells) }
{
    let typed = as_typed(alloc, strip)?;
    let (cells, mask) = parts(&typed);
    let mask = append_mask(
        alloc,
        so_far.mask,
        count(&so_far.cells),
        mask,
        count(cells),
        room,
    )?;
    let cells = append_cells(so_far.cells, cells)?;
    Ok(Collected { cells, mask })
}

/// How many cells the next strip has, where so many are left.
pub fn strip_length(left: usize) -> usize
    ensures inside { result ≤ left }
    ensures some { 0 < left → 0 < result }
{
    if left < STRIP { left } else { STRIP }
}

// The cells so far, and those of the next strip.
fn one_more<S: Strips>(
    alloc: Global,
    source: &S,
    so_far: Collected,
    from: usize,
    n: usize,
    room: usize,
) -> Result<Collected, AllocError>
    requires ready { S.Ready source.now }
    requires array { IsArray (S.whole source.now) }
    requires inside { from + n ≤ size (S.whole source.now).shape }
    requires room { size (S.whole source.now).shape ≤ room }
    requires whole { IsWhole so_far }
    requires kind { kind_of so_far.cells ≡ (S.whole source.now).kind }
    requires cells { hidden (wide so_far.cells) so_far.mask ≡ take from (S.whole source.now).cells }
    ensures whole { IfOk result IsWhole }
    ensures kind { IfOk result (λ c. kind_of c.cells ≡ (S.whole source.now).kind) }
    ensures cells { IfOk result (λ c. hidden (wide c.cells) c.mask ≡ take (from + n) (S.whole source.now).cells) }
{
    let strip = source.strip(alloc, from, n)?;
    append(alloc, so_far, &strip, room)
}

fn collect_cells<S: Strips>(
    alloc: Global,
    source: &S,
    total: usize,
) -> Result<Collected, AllocError>
    requires ready { S.Ready source.now }
    requires array { IsArray (S.whole source.now) }
    requires total { total ≡ size (S.whole source.now).shape }
    ensures whole { IfOk result IsWhole }
    ensures kind { IfOk result (λ c. kind_of c.cells ≡ (S.whole source.now).kind) }
    ensures cells { IfOk result (λ c. hidden (wide c.cells) c.mask ≡ (S.whole source.now).cells) }
{
    let none = source.strip(alloc, 0, 0)?;
    let mut all = Collected {
        cells: no_cells(alloc, none.kind(), total)?,
        mask: None,
    };
    let mut from = 0;
    'strips: while from < total {
        let n = strip_length(total - from);
        all = one_more(alloc, source, all, from, n, total)?;
        from += n;
    }
    Ok(all)
}

/// The array whose strips are given. `shape` is its shape, and `total` the number of its cells.
pub fn collect_strips<S: Strips>(
    alloc: Global,
    source: &S,
    shape: &[u64],
    total: usize,
) -> Result<ArrayValue, AllocError>
    requires ready { S.Ready source.now }
    requires array { IsArray (S.whole source.now) }
    requires shape { shape.now ≡ (S.whole source.now).shape }
    requires total { total ≡ size (S.whole source.now).shape }
    ensures { IfOk result (λ a. a ≡ S.whole source.now) }
{
    let all = collect_cells(alloc, source, total)?;
    let shape = Items::from_slice(alloc, shape)?;
    Ok(array(shape, all.cells, all.mask))
}
