//! Coordinates: copies of them, and whether two are equal.
ghost use Rattle.std.specs.Prelude.{◌≡◌, ◌<◌, ◌&&◌, ⊤, map, length, nat_eq, option_map, get_or, None, MatchOption, IfOk};
ghost use Rattle.std.specs.Str.{bytes_eq};
ghost use Rattle.std.specs.Cmp.Lexicographic.{pointwise};
ghost use Rattle.xr_arrays.specs.Arrays.{hidden, wide};
ghost use Rattle.xr_types.specs.Names.{axis_names};
ghost use Rattle.xr_times.specs.Times.{same_calendar};
ghost use Rattle.xr_defs.specs.Carrying.{same_cell, same_content, same_coord};

use std::alloc::{AllocError, Global};
use stored_cells::as_typed;
use xr_arrays::{ArrayValue, Cells};
use xr_defs::{Content, Coord};
use xr_types::{Axis, Calendar, DeepCopy, Elem, Items};

/// What a coordinate holds, again.
pub fn copy_content(alloc: Global, content: &Content) -> Result<Content, AllocError>
    ensures { IfOk result (λ c. c ≡ content.now) }
{
    Ok(match content {
        Content::Cells(cells, masked) => Content::Cells(cells.copy(alloc)?, *masked),
        Content::Text(text) => Content::Text(text.deep_copy(alloc)?),
        Content::Time(coding, time) => Content::Time(coding.deep_copy(alloc)?, *time),
    })
}

/// A coordinate again.
pub fn copy_coord(alloc: Global, coord: &Coord) -> Result<Coord, AllocError>
    ensures { IfOk result (λ c. c ≡ coord.now) }
{
    Ok(Coord {
        name: coord.name.deep_copy(alloc)?,
        axes: coord.axes.deep_copy(alloc)?,
        attrs: coord.attrs.deep_copy(alloc)?,
        content: copy_content(alloc, &coord.content)?,
    })
}

/// Coordinates again.
pub fn copy_coords(alloc: Global, coords: &[Coord]) -> Result<Items<Coord>, AllocError>
    ensures { IfOk result (λ cs. cs ≡ coords.now) }
{
    let mut copies = Items::new(alloc);
    for coord in coords {
        copies.push(copy_coord(alloc, coord)?)?;
    }
    Ok(copies)
}

/// Whether the axes have the same names in the same order.
fn same_dimensions(a: &[Axis], b: &[Axis]) -> bool
    ensures { result ≡ pointwise bytes_eq (axis_names a.now) (axis_names b.now) }
{
    match (a, b) {
        ([], []) => true,
        ([x, xs @ ..], [y, ys @ ..]) => x.name.is(&y.name) && same_dimensions(xs, ys),
        _ => false,
    }
}

fn same_cell(a: Option<i128>, b: Option<i128>) -> bool
    ensures { result ≡ same_cell a b }
{
    match (a, b) {
        (None, None) => true,
        (Some(m), Some(n)) => m == n,
        _ => false,
    }
}

#[tactic(auto, using(crate::proofs::Equal::masked, crate::proofs::Equal::unmasked, crate::proofs::Equal::masked_off))]
fn cell_at<T: Elem>(cells: &[T], mask: Option<&Items<u8>>, at: usize) -> Option<i128>
    requires at { at < length cells.now }
    requires mask { MatchOption mask ⊤ (λ m. length m.now ≡ length cells.now) }
    ensures { result ≡ get_or (hidden (map T.number cells.now) (option_map (λ m. m.now) mask.entry)) at None }
{
    match mask {
        Some(bytes) => {
            if bytes.as_slice()[at] == 0 {
                Some(cells[at].widen())
            } else {
                None
            }
        }
        None => Some(cells[at].widen()),
    }
}

#[tactic(auto, using(crate::proofs::Equal::hidden_long, crate::proofs::Equal::other_length, crate::proofs::Equal::same_on, crate::proofs::Equal::same_all))]
fn same_typed<A: Elem, B: Elem>(
    a: &[A],
    a_mask: Option<&Items<u8>>,
    b: &[B],
    b_mask: Option<&Items<u8>>,
) -> bool
    requires a_mask { MatchOption a_mask ⊤ (λ m. length m.now ≡ length a.now) }
    requires b_mask { MatchOption b_mask ⊤ (λ m. length m.now ≡ length b.now) }
    ensures { result ≡ pointwise same_cell (hidden (map A.number a.now) (option_map (λ m. m.now) a_mask.entry)) (hidden (map B.number b.now) (option_map (λ m. m.now) b_mask.entry)) }
{
    if a.len() != b.len() {
        return false;
    }
    for i in 0..a.len() {
        if !same_cell(cell_at(a, a_mask, i), cell_at(b, b_mask, i)) {
            return false;
        }
    }
    true
}

// The cells of any kind, by their type.
macro_rules! at_width {
    ($cells:expr, $typed:ident, $body:expr) => {
        match $cells {
            Cells::Bool($typed) | Cells::Char($typed) | Cells::UInt8($typed) => $body,
            Cells::Int8($typed) => $body,
            Cells::Int16($typed) => $body,
            Cells::Int32($typed) => $body,
            Cells::Int64($typed) => $body,
            Cells::UInt16($typed) => $body,
            Cells::UInt32($typed) => $body,
            Cells::UInt64($typed) => $body,
        }
    };
}

fn same_as_typed<T: Elem>(
    a: &[T],
    a_mask: Option<&Items<u8>>,
    b: &Cells,
    b_mask: Option<&Items<u8>>,
) -> bool
    requires a_mask { MatchOption a_mask ⊤ (λ m. length m.now ≡ length a.now) }
    requires b_mask { MatchOption b_mask ⊤ (λ m. length m.now ≡ length (wide b.now)) }
    ensures { result ≡ pointwise same_cell (hidden (map T.number a.now) (option_map (λ m. m.now) a_mask.entry)) (hidden (wide b.now) (option_map (λ m. m.now) b_mask.entry)) }
{
    at_width!(b, v, same_typed(a, a_mask, v.as_slice(), b_mask))
}

fn same_cells(a: &Cells, a_mask: Option<&Items<u8>>, b: &Cells, b_mask: Option<&Items<u8>>) -> bool
    requires a_mask { MatchOption a_mask ⊤ (λ m. length m.now ≡ length (wide a.now)) }
    requires b_mask { MatchOption b_mask ⊤ (λ m. length m.now ≡ length (wide b.now)) }
    ensures { result ≡ pointwise same_cell (hidden (wide a.now) (option_map (λ m. m.now) a_mask.entry)) (hidden (wide b.now) (option_map (λ m. m.now) b_mask.entry)) }
{
    at_width!(a, v, same_as_typed(v.as_slice(), a_mask, b, b_mask))
}

fn same_arrays(alloc: Global, a: &ArrayValue, b: &ArrayValue) -> Result<bool, AllocError>
    ensures { IfOk result (λ same. same ≡ (pointwise nat_eq a.now.shape b.now.shape && pointwise same_cell a.now.cells b.now.cells)) }
{
    let one = as_typed(alloc, a)?;
    let other = as_typed(alloc, b)?;
    let (cells, mask) = one.parts();
    let (others, hides) = other.parts();
    Ok(a.shape() == b.shape() && same_cells(cells, mask, others, hides))
}

/// Whether times of the one calendar are labels of the same kind as those of the other.
pub fn same_calendar(a: Calendar, b: Calendar) -> bool
    ensures { result ≡ same_calendar a b }
{
    match a {
        Calendar::Civil => matches!(b, Calendar::Civil),
        Calendar::NoLeap => matches!(b, Calendar::NoLeap),
        Calendar::Days360 => matches!(b, Calendar::Days360),
    }
}

/// Whether two coordinates hold the same: numbers are compared whatever their kind; a text, a time and cells are never equal to one
/// another.
#[tactic(auto, unfolding(xr_defs::specs::Carrying::same_content))]
pub fn same_content(alloc: Global, a: &Content, b: &Content) -> Result<bool, AllocError>
    ensures { IfOk result (λ same. same ≡ same_content a.now b.now) }
{
    match (a, b) {
        (Content::Cells(cells, _), Content::Cells(others, _)) => same_arrays(alloc, cells, others),
        (Content::Text(text), Content::Text(other)) => Ok(text.is(other)),
        (Content::Time(coding, time), Content::Time(others, other)) => {
            Ok(same_calendar(coding.units.calendar, others.units.calendar) && time == other)
        }
        _ => Ok(false),
    }
}

/// Whether two coordinates have the same dimensions and equal cells. Numbers are compared whatever their kind.
#[tactic(auto, unfolding(xr_defs::specs::Carrying::same_coord))]
pub fn same_coord(alloc: Global, a: &Coord, b: &Coord) -> Result<bool, AllocError>
    ensures { IfOk result (λ same. same ≡ same_coord a.now b.now) }
{
    if !same_dimensions(a.axes.as_slice(), b.axes.as_slice()) {
        return Ok(false);
    }
    same_content(alloc, &a.content, &b.content)
}
