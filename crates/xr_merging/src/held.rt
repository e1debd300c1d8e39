//! Coordinates of one name that all have cells.
ghost use Rattle.std.specs.Prelude.{◌≡◌, ◌++◌, ◌∷◌, [], List, flat_map, map, true, IfOk, OnOk};
ghost use Rattle.std.specs.List.{list_all};
ghost use Rattle.xr_types.specs.Results.{Answers};
ghost use Rattle.xr_types.specs.declared.kind.DType.{DType as Kind};
ghost use Rattle.xr_combination.specs.Concat.{coord_pieces};
ghost use Rattle.xr_combination.specs.Merge as calls;
ghost use Rattle.xr_combination.specs.Pieces as pieces;
ghost use Rattle.xr_combination.specs.declared.compat.Compat.TheVariants as compats;
ghost use Rattle.xr_values.specs.Carrying.{the_attrs};
ghost use Rattle.xr_merging.specs.Held.{held_piece, merged_piece};

use crate::cells::{agree, all_same};
use crate::contents::{joined_attrs, with_attrs};
use crate::order::in_order;
use crate::shared::shared_array;
use std::alloc::{AllocError, Global};
use xr_arrays::ArrayValue;
use xr_chaining::names_of;
use xr_combination::Compat;
use xr_combining::common_kind;
use xr_defs::{Content, Coord};
use xr_types::{Attr, CallFault, DType, DeepCopy, Fault, Items, Name, NoMemory};
use xr_values::DataArray;

/// Cells with the names of their dimensions, as a coordinate has them.
#[derive(Drop)]
pub struct Held<'a> {
    pub dims: Items<Name>,
    pub cells: &'a ArrayValue,
    pub masked: bool,
    pub attrs: &'a Items<Attr>,
}

/// What is made of them.
#[derive(Drop)]
pub struct Merged {
    pub dims: Items<Name>,
    pub cells: ArrayValue,
    pub masked: bool,
    pub attrs: Items<Attr>,
}

// ---- coordinates that have cells

/// Whether they all have cells, which are then added.
pub(crate) fn push_held<'a>(
    alloc: Global,
    out: &mut Items<Held<'a>>,
    coords: &[&'a Coord],
) -> Result<bool, AllocError>
    ensures all { IfOk result (λ b. b ≡ calls.have_cells (map (λ c. c.now) coords.now)) }
    ensures held { IfOk result (λ b. b ≡ true → map held_piece out.new ≡ map held_piece out.old ++ flat_map coord_pieces (map (λ c. c.now) coords.now)) }
{
    for coord in coords {
        match &coord.content {
            Content::Cells(cells, masked) => {
                let dims = names_of(alloc, coord.axes.as_slice())?;
                out.push(Held {
                    dims,
                    cells,
                    masked: *masked,
                    attrs: &coord.attrs,
                })?;
            }
            Content::Text(_) => return Ok(false),
            Content::Time(_, _) => return Ok(false),
        }
    }
    Ok(true)
}

// ---- parts of all

fn push_in_order(
    alloc: Global,
    out: &mut Items<ArrayValue>,
    dims: &[Name],
    held: &[Held<'_>],
) -> Result<(), NoMemory>
    ensures { OnOk result (out.new ≡ out.old ++ map (pieces.in_order dims.now) (map held_piece held.now)) }
{
    for one in held {
        let cells = in_order(alloc, dims, one.dims.as_slice(), one.cells)?;
        out.push(cells)?;
    }
    Ok(())
}

/// The cells of each over the dimensions of the first, in the order in which the first has them. Dimensions that are not those of the
/// first want memory.
pub fn in_first_order(alloc: Global, held: &[Held<'_>]) -> Result<Items<ArrayValue>, NoMemory>
    ensures { IfOk result (λ arrays. arrays ≡ pieces.in_first_order (map held_piece held.now)) }
{
    let mut out = Items::new(alloc);
    match held {
        [] => Ok(out),
        [first, ..] => {
            push_in_order(alloc, &mut out, first.dims.as_slice(), held)?;
            Ok(out)
        }
    }
}

fn push_kinds(out: &mut Items<DType>, held: &[Held<'_>]) -> Result<(), AllocError>
    ensures { OnOk result (out.new ≡ out.old ++ pieces.kinds_of (map held_piece held.now)) }
{
    for one in held {
        out.push(one.cells.kind())?;
    }
    Ok(())
}

fn are_all_masked(held: &[Held<'_>]) -> bool
    ensures { result ≡ calls.are_all_masked (map held_piece held.now) }
{
    match held {
        [] => true,
        [one, rest @ ..] => one.masked && are_all_masked(rest),
    }
}

fn push_attrs(
    alloc: Global,
    out: &mut Items<DataArray>,
    held: &[Held<'_>],
) -> Result<(), AllocError>
    ensures { OnOk result (the_attrs out.new ≡ the_attrs out.old ++ map (λ (p : pieces.Piece). p.attrs) (map held_piece held.now)) }
{
    for one in held {
        out.push(with_attrs(alloc, one.attrs)?)?;
    }
    Ok(())
}

/// The attributes that all have in common.
pub fn all_attrs(alloc: Global, held: &[Held<'_>]) -> Result<Items<Attr>, NoMemory>
    ensures { IfOk result (λ attrs. attrs ≡ pieces.all_attrs (map held_piece held.now)) }
{
    let mut lists = Items::new(alloc);
    push_attrs(alloc, &mut lists, held)?;
    joined_attrs(alloc, lists.as_slice())
}

/// The kind to which the cells of all are promoted.
///
/// # Errors
/// `WrongKind` for bytes of text among others; then `WouldPromote` for kinds that aren't promoted to one.
pub fn kind_of_all(alloc: Global, held: &[Held<'_>]) -> Result<DType, CallFault>
    ensures { Answers (λ (t : Kind). t) result (pieces.common_kind_of (map held_piece held.now)) }
{
    let mut kinds = Items::new(alloc);
    push_kinds(&mut kinds, held)?;
    common_kind(kinds.as_slice())
}

// ---- one of several

// The same with other attributes.
fn with_attrs_of(alloc: Global, one: &Held<'_>, attrs: Items<Attr>) -> Result<Merged, AllocError>
    ensures { IfOk result (λ m. merged_piece m ≡ record (held_piece one.now) { attrs = attrs }) }
{
    Ok(Merged {
        dims: one.dims.deep_copy(alloc)?,
        cells: one.cells.copy(alloc)?,
        masked: one.masked,
        attrs,
    })
}

// The first, with the attributes that all have in common.
fn first_of(alloc: Global, held: &[Held<'_>]) -> Result<Merged, NoMemory>
    ensures { IfOk result (λ m. merged_piece m ≡ record (pieces.first_piece (map held_piece held.now)) { attrs = pieces.all_attrs (map held_piece held.now) }) }
{
    let attrs = all_attrs(alloc, held)?;
    match held {
        [] => Err(NoMemory),
        [first, ..] => Ok(with_attrs_of(alloc, first, attrs)?),
    }
}

// The cells that all share, over the dimensions of the first.
fn shared_of(
    alloc: Global,
    kind: DType,
    arrays: &[ArrayValue],
    held: &[Held<'_>],
) -> Result<Merged, NoMemory>
    ensures { IfOk result (λ m. merged_piece m ≡ record { dims = (pieces.first_piece (map held_piece held.now)).dims; array = calls.shared_array kind (map (pieces.as_kind kind) arrays.now); masked = calls.are_all_masked (map held_piece held.now); attrs = pieces.all_attrs (map held_piece held.now) }) }
{
    match held {
        [] => Err(NoMemory),
        [first, ..] => Ok(Merged {
            dims: first.dims.deep_copy(alloc)?,
            cells: shared_array(alloc, kind, arrays)?,
            masked: are_all_masked(held),
            attrs: all_attrs(alloc, held)?,
        }),
    }
}

#[tactic(auto, using(crate::proofs::Merging::conflicting, crate::proofs::Merging::agreeing, crate::proofs::Merging::unlike_kinds))]
fn without_conflicts(alloc: Global, held: &[Held<'_>]) -> Result<Merged, CallFault>
    ensures { Answers merged_piece result (calls.merged_pieces compats.NoConflicts (map held_piece held.now)) }
{
    let arrays = in_first_order(alloc, held)?;
    let arrays = arrays.as_slice();
    if !agree(alloc, arrays)? {
        return Err(CallFault::Refused(Fault::Conflict));
    }
    let kind = kind_of_all(alloc, held)?;
    Ok(shared_of(alloc, kind, arrays, held)?)
}

#[tactic(auto, using(crate::proofs::Merging::unequal, crate::proofs::Merging::equal))]
fn of_equals(alloc: Global, held: &[Held<'_>]) -> Result<Merged, CallFault>
    ensures { Answers merged_piece result (calls.merged_pieces compats.Equals (map held_piece held.now)) }
{
    let arrays = in_first_order(alloc, held)?;
    if !all_same(alloc, arrays.as_slice())? {
        return Err(CallFault::Refused(Fault::Conflict));
    }
    Ok(first_of(alloc, held)?)
}

#[tactic(auto, unfolding(xr_combination::specs::Merge::merged_pieces))]
fn merged_pieces(alloc: Global, compat: Compat, held: &[Held<'_>]) -> Result<Merged, CallFault>
    ensures { Answers merged_piece result (calls.merged_pieces compat (map held_piece held.now)) }
{
    match compat {
        Compat::NoConflicts => without_conflicts(alloc, held),
        Compat::Equals => of_equals(alloc, held),
        Compat::Override => Ok(first_of(alloc, held)?),
    }
}

// What is alone stays as it is.
fn own(alloc: Global, one: &Held<'_>) -> Result<Merged, AllocError>
    ensures { IfOk result (λ m. merged_piece m ≡ held_piece one.now) }
{
    let attrs = one.attrs.deep_copy(alloc)?;
    with_attrs_of(alloc, one, attrs)
}

/// One coordinate's cells of those of a name.
///
/// # Errors
/// `Conflict` where they may not stand beside one another; then, for `NoConflicts`, `WrongKind` and `WouldPromote` for kinds that
/// don't become one.
#[tactic(auto, unfolding(xr_combination::specs::Merge::merged_or_own))]
pub fn merged_or_own(alloc: Global, compat: Compat, held: &[Held<'_>]) -> Result<Merged, CallFault>
    ensures { Answers merged_piece result (calls.merged_or_own compat (map held_piece held.now)) }
{
    match held {
        [one] => Ok(own(alloc, one)?),
        _ => merged_pieces(alloc, compat, held),
    }
}
