//! Coordinates of one name of which some has no cells.
ghost use Rattle.std.specs.Prelude.{◌≡◌, ◌++◌, [], List, map, filter, IfOk, OnOk};
ghost use Rattle.std.specs.List.{list_all};
ghost use Rattle.xr_types.specs.Results.{Answers};
ghost use Rattle.xr_types.specs.declared.attr.Attr.{Attr as AnAttr};
ghost use Rattle.xr_arrays.specs.declared.node.Node.{Node};
ghost use Rattle.xr_defs.specs.Carrying.{joined_attrs, joined_coord, named_as, same_content};
ghost use Rattle.xr_defs.specs.declared.value.Coord.{Coord as ACoord};
ghost use Rattle.xr_combination.specs.Merge as calls;
ghost use Rattle.xr_values.specs.Carrying.{the_attrs};
ghost use Rattle.xr_values.specs.declared.data_array.DataArray.{DataArray as AnArray};
ghost use Rattle.xr_merging.specs.Contents.{with_attrs};

use std::alloc::{AllocError, Global};
use xr_combination::Compat;
use xr_defs::{Content, Coord};
use xr_types::{Attr, CallFault, DType, DeepCopy, Fault, Items, NoMemory};
use xr_values::{Carry, DataArray, carry, copy_content, same_content};

// ---- attributes that all have alike

/// An array that has nothing but attributes.
pub fn with_attrs(alloc: Global, attrs: &Items<Attr>) -> Result<DataArray, AllocError>
    ensures { IfOk result (λ a. a ≡ with_attrs attrs.now) }
{
    Ok(DataArray {
        name: None,
        axes: Items::new(alloc),
        kind: DType::Bool,
        masked: false,
        attrs: attrs.deep_copy(alloc)?,
        coords: Items::new(alloc),
        node: 0,
    })
}

/// The attributes that all lists have alike which have one of that name.
pub fn joined_attrs(alloc: Global, lists: &[DataArray]) -> Result<Items<Attr>, NoMemory>
    ensures { IfOk result (λ attrs. attrs ≡ joined_attrs (the_attrs lists.now)) }
{
    let parts = carry(alloc, lists, &[], Carry::First)?;
    Ok(parts.attrs)
}

fn push_attrs(
    alloc: Global,
    out: &mut Items<DataArray>,
    coord: &Coord,
    coords: &[&Coord],
) -> Result<(), AllocError>
    ensures { OnOk result (the_attrs out.new ≡ the_attrs out.old ++ map (λ (d : ACoord). d.attrs) (filter (named_as coord.now) (map (λ c. c.now) coords.now))) }
{
    for one in coords {
        if one.name.is(&coord.name) {
            out.push(with_attrs(alloc, &one.attrs)?)?;
        }
    }
    Ok(())
}

// The coordinate with the attributes that those of its name have in common.
fn joined_coord(alloc: Global, coord: &Coord, coords: &[&Coord]) -> Result<Coord, NoMemory>
    ensures { IfOk result (λ c. c ≡ joined_coord (map (λ c. c.now) coords.now) coord.now) }
{
    let mut lists = Items::new(alloc);
    push_attrs(alloc, &mut lists, coord, coords)?;
    let attrs = joined_attrs(alloc, lists.as_slice())?;
    Ok(Coord {
        name: coord.name.deep_copy(alloc)?,
        axes: coord.axes.deep_copy(alloc)?,
        attrs,
        content: copy_content(alloc, &coord.content)?,
    })
}

// ---- equal contents

fn all_hold(alloc: Global, content: &Content, coords: &[&Coord]) -> Result<bool, AllocError>
    ensures { IfOk result (λ b. b ≡ list_all (λ (c : ACoord). same_content content.now c.content) (map (λ c. c.now) coords.now)) }
{
    for coord in coords {
        if !same_content(alloc, content, &coord.content)? {
            return Ok(false);
        }
    }
    Ok(true)
}

fn may_stand(
    alloc: Global,
    compat: Compat,
    first: &Coord,
    coords: &[&Coord],
) -> Result<bool, AllocError>
    requires { calls.first_coord (map (λ c. c.now) coords.now) ≡ first.now }
    ensures { IfOk result (λ b. b ≡ calls.may_stand compat (map (λ c. c.now) coords.now)) }
{
    match compat {
        Compat::Override => Ok(true),
        Compat::NoConflicts | Compat::Equals => all_hold(alloc, &first.content, coords),
    }
}

/// One coordinate of those of a name, of which there are some and not all have cells: the first, where the others hold the same.
///
/// # Errors
/// `Conflict` where one holds something else, unless it is overridden.
#[tactic(auto, unfolding(xr_combination::specs::Merge::contents_merged, xr_types::specs::Results::unless))]
pub fn contents_merged(alloc: Global, compat: Compat, coords: &[&Coord]) -> Result<Coord, CallFault>
    ensures { Answers (λ c. c) result (calls.contents_merged compat (map (λ c. c.now) coords.now)) }
{
    match coords {
        [] => Err(CallFault::NoMemory),
        [first, ..] => {
            if !may_stand(alloc, compat, first, coords)? {
                return Err(CallFault::Refused(Fault::Conflict));
            }
            Ok(joined_coord(alloc, first, coords)?)
        }
    }
}
