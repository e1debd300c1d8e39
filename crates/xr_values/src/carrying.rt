//! The name, the attributes and the coordinates of a result, by those of its operands.
ghost use Rattle.std.specs.Prelude.{◌≡◌, ◌||◌, ◌++◌, List, map, not, OnOk, IfOk};
ghost use Rattle.std.specs.List.{list_all, AllByRecursion};
ghost use Rattle.xr_arrays.specs.declared.node.Node.{Node};
ghost use Rattle.xr_types.specs.Names.{among, axis_names};
ghost use Rattle.xr_types.specs.declared.axis.Axis.{Axis as AxisOf};
ghost use Rattle.xr_defs.specs.Carries.{AreParts, IsOperand};
ghost use Rattle.xr_defs.specs.Carrying.{attrs_among, called_as, carried, coords_among, first_attrs, has_place, is_agreed, is_shared, joined_attrs, joined_coord, name_among, named_as, same_attr, same_name, shared_attrs, shared_name};
ghost use Rattle.xr_defs.specs.Values.{names_fill, without_fills};
ghost use Rattle.xr_defs.specs.WellFormed.{AreDimensions};
ghost use Rattle.xr_values.specs.Carrying.{kept_here, shared_here, the_attrs, the_coords, the_names};
ghost use Rattle.xr_values.specs.Stands.{array_in};

use crate::coords::{copy_content, same_coord};
use crate::data_array::DataArray;
use std::alloc::{AllocError, Global};
use xr_defs::{Carry, Coord, Parts};
use xr_types::{Attr, Axis, DeepCopy, Items, Name, NoMemory};

// ---- the name

fn same_name(a: &Option<Name>, b: &Option<Name>) -> bool
    ensures { result ≡ same_name a.now b.now }
{
    match (a, b) {
        (None, None) => true,
        (Some(name), Some(other)) => name.is(other),
        _ => false,
    }
}

fn have_name(name: &Option<Name>, operands: &[DataArray]) -> bool
    ensures { result ≡ list_all (same_name name.now) (the_names operands.now) }
{
    match operands {
        [] => true,
        [operand, rest @ ..] => same_name(name, &operand.name) && have_name(name, rest),
    }
}

fn shared_name(alloc: Global, operands: &[DataArray]) -> Result<Option<Name>, AllocError>
    ensures { IfOk result (λ name. name ≡ shared_name (the_names operands.now)) }
{
    match operands {
        [] => Ok(None),
        [first, others @ ..] => {
            if have_name(&first.name, others) {
                first.name.deep_copy(alloc)
            } else {
                Ok(None)
            }
        }
    }
}

fn name_among(alloc: Global, how: Carry, operands: &[DataArray]) -> Result<Option<Name>, AllocError>
    ensures { IfOk result (λ name. name ≡ name_among how (the_names operands.now)) }
{
    match how {
        Carry::Binary | Carry::First => shared_name(alloc, operands),
        _ => match operands {
            [] => Ok(None),
            [first, ..] => first.name.deep_copy(alloc),
        },
    }
}

// ---- the attributes

#[tactic(auto, using(crate::proofs::Carries::kinds_same))]
fn same_attr(a: &Attr, b: &Attr) -> bool
    ensures { result ≡ same_attr a.now b.now }
{
    a.kind == b.kind && a.raw.as_slice() == b.raw.as_slice()
}

fn is_new_attr(before: &[&Attr], attr: &Attr) -> bool
    ensures { result ≡ list_all (λ b. not (called_as attr.now b.now)) before.now }
{
    before.iter().all(|other| !other.name.is(&attr.name))
}

// Whether those of its name have its type and values.
fn is_shared(others: &[&Attr], attr: &Attr) -> bool
    ensures { result ≡ list_all (λ b. not (called_as attr.now b.now) || same_attr attr.now b.now) others.now }
{
    others.iter().all(|other| !other.name.is(&attr.name) || same_attr(attr, other))
}

#[tactic(auto, using(crate::proofs::Firsts::through_map), unfolding(xr_defs::specs::Carrying::is_shared))]
fn push_shared(
    alloc: Global,
    shared: &mut Items<Attr>,
    before: &[&Attr],
    attr: &Attr,
    behind: &[&Attr],
) -> Result<(), AllocError>
    ensures { OnOk result (shared.new ≡ shared.old ++ shared_here (map (λ a. a.now) before.now) attr.now (map (λ a. a.now) behind.now)) }
{
    if is_new_attr(before, attr) && is_shared(behind, attr) {
        shared.push(attr.deep_copy(alloc)?)?;
    }
    Ok(())
}

/// The attributes that all have alike who have one of that name, in the order of first appearance.
#[tactic(auto, using(crate::proofs::Carries::attrs_end), unfolding(xr_defs::specs::Carrying::first_called))]
fn shared_attrs(alloc: Global, all: &[&Attr]) -> Result<Items<Attr>, AllocError>
    ensures { IfOk result (λ shared. shared ≡ shared_attrs (map (λ a. a.now) all.now)) }
{
    let mut shared = Items::new(alloc);
    for i in 0..all.len() {
        let (before, rest) = all.split_at(i);
        let (_, behind) = rest.split_at(1);
        push_shared(alloc, &mut shared, before, all[i], behind)?;
    }
    Ok(shared)
}

/// Puts each of these behind the others.
fn push_each<'a, T>(all: &mut Vec<&'a T>, items: &'a [T]) -> Result<(), AllocError>
    ensures { OnOk result (map (λ t. t.now) all.new.items ≡ map (λ t. t.now) all.old.items ++ items.now) }
{
    for item in items {
        all.push(item)?;
    }
    Ok(())
}

fn joined_attrs(alloc: Global, operands: &[DataArray]) -> Result<Items<Attr>, AllocError>
    ensures { IfOk result (λ attrs. attrs ≡ joined_attrs (the_attrs operands.now)) }
{
    let mut all = Vec::new(alloc);
    for operand in operands {
        push_each(&mut all, operand.attrs.as_slice())?;
    }
    shared_attrs(alloc, &all)
}

fn first_attrs(alloc: Global, operands: &[DataArray]) -> Result<Items<Attr>, AllocError>
    ensures { IfOk result (λ attrs. attrs ≡ first_attrs (the_attrs operands.now)) }
{
    match operands {
        [] => Ok(Items::new(alloc)),
        [first, ..] => first.attrs.deep_copy(alloc),
    }
}

fn names_fill(attr: &Attr) -> bool
    ensures { result ≡ names_fill attr.now }
{
    attr.name.as_str() == "_FillValue" || attr.name.as_str() == "missing_value"
}

/// The attributes without those that name the numbers of missing cells.
pub fn without_fills(alloc: Global, attrs: &[Attr]) -> Result<Items<Attr>, AllocError>
    ensures { IfOk result (λ kept. kept ≡ without_fills attrs.now) }
{
    let mut kept = Items::new(alloc);
    for attr in attrs {
        if !names_fill(attr) {
            kept.push(attr.deep_copy(alloc)?)?;
        }
    }
    Ok(kept)
}

/// The attributes of a result.
fn attrs_among(alloc: Global, how: Carry, operands: &[DataArray]) -> Result<Items<Attr>, AllocError>
    ensures { IfOk result (λ attrs. attrs ≡ attrs_among how (the_attrs operands.now)) }
{
    match how {
        Carry::Keep | Carry::Where => first_attrs(alloc, operands),
        Carry::First => joined_attrs(alloc, operands),
        Carry::Method => without_fills(alloc, first_attrs(alloc, operands)?.as_slice()),
        Carry::Binary => without_fills(alloc, joined_attrs(alloc, operands)?.as_slice()),
    }
}

// ---- the coordinates

fn has_axis(axes: &[Axis], name: &Name) -> bool
    ensures { result ≡ among (axis_names axes.now) name.now }
{
    match axes {
        [] => false,
        [axis, rest @ ..] => name.is(&axis.name) || has_axis(rest, name),
    }
}

fn have_axes(axes: &[Axis], some: &[Axis]) -> bool
    ensures { result ≡ list_all (λ (x : AxisOf). among (axis_names axes.now) x.name) some.now }
{
    some.iter().all(|axis| has_axis(axes, &axis.name))
}

#[tactic(auto, using(crate::proofs::Firsts::through_map), unfolding(xr_defs::specs::Carrying::has_place))]
fn has_place(axes: &[Axis], coord: &Coord) -> bool
    ensures { result ≡ has_place axes.now coord.now }
{
    !has_axis(axes, &coord.name) && have_axes(axes, coord.axes.as_slice())
}

fn is_new_coord(before: &[&Coord], coord: &Coord) -> bool
    ensures { result ≡ list_all (λ c. not (named_as coord.now c.now)) before.now }
{
    before.iter().all(|other| !other.name.is(&coord.name))
}

// Whether those of its name are equal to it.
#[tactic(auto, unfolding(xr_defs::specs::Carrying::is_agreed))]
fn is_agreed(alloc: Global, others: &[&Coord], coord: &Coord) -> Result<bool, AllocError>
    ensures { IfOk result (λ agreed. agreed ≡ is_agreed (map (λ c. c.now) others.now) coord.now) }
{
    for other in others {
        if other.name.is(&coord.name) && !same_coord(alloc, coord, other)? {
            return Ok(false);
        }
    }
    Ok(true)
}

// The coordinate with the attributes that all of its name have in common.
fn joined_coord(alloc: Global, all: &[&Coord], coord: &Coord) -> Result<Coord, AllocError>
    ensures { IfOk result (λ c. c ≡ joined_coord (map (λ c. c.now) all.now) coord.now) }
{
    let mut attrs = Vec::new(alloc);
    for other in all {
        if other.name.is(&coord.name) {
            push_each(&mut attrs, other.attrs.as_slice())?;
        }
    }
    Ok(Coord {
        name: coord.name.deep_copy(alloc)?,
        axes: coord.axes.deep_copy(alloc)?,
        attrs: shared_attrs(alloc, &attrs)?,
        content: copy_content(alloc, &coord.content)?,
    })
}

// Puts the coordinate between these behind the others, where it is kept.
#[tactic(auto, using(crate::proofs::Firsts::through_map))]
fn push_kept(
    alloc: Global,
    kept: &mut Items<Coord>,
    axes: &[Axis],
    all: &[&Coord],
    before: &[&Coord],
    coord: &Coord,
    behind: &[&Coord],
) -> Result<(), AllocError>
    ensures { OnOk result (kept.new ≡ kept.old ++ kept_here axes.now (map (λ c. c.now) all.now) (map (λ c. c.now) before.now) coord.now (map (λ c. c.now) behind.now)) }
{
    if is_new_coord(before, coord) && has_place(axes, coord) && is_agreed(alloc, behind, coord)? {
        kept.push(joined_coord(alloc, all, coord)?)?;
    }
    Ok(())
}

#[tactic(auto, unfolding(xr_defs::specs::Carrying::first_named))]
fn coords_among(
    alloc: Global,
    axes: &[Axis],
    operands: &[DataArray],
) -> Result<Items<Coord>, AllocError>
    ensures { IfOk result (λ coords. coords ≡ coords_among axes.now (the_coords operands.now)) }
{
    let mut gathered = Vec::new(alloc);
    for operand in operands {
        push_each(&mut gathered, operand.coords.as_slice())?;
    }
    let all = gathered.as_slice();
    let mut kept = Items::new(alloc);
    for i in 0..all.len() {
        let (before, rest) = all.split_at(i);
        let (_, behind) = rest.split_at(1);
        push_kept(alloc, &mut kept, axes, all, before, all[i], behind)?;
    }
    Ok(kept)
}

/// The name, the attributes and the coordinates that are no index of a result over these axes, by the kind of operation that
/// gives it. `Keep` and `Method` have one operand, the others one or more.
///
/// A method keeps the name, a binary operation and a combination the name that all operands have. `Keep`, `Method` and `Where`
/// keep the attributes of the first operand; a binary operation and a combination keep those that all operands have alike who
/// have one of that name. `Method` and `Binary` drop those that name fill numbers. A coordinate is kept where its dimensions are
/// among the result's and no dimension of the result has its name; where several operands have one of that name, the first one
/// is kept if all are equal, with the attributes that they have in common. Of well-formed operands comes what is well formed.
#[tactic(auto, using(crate::proofs::Carries::in_any_plan))]
pub fn carry(
    alloc: Global,
    operands: &[DataArray],
    axes: &[Axis],
    how: Carry,
) -> Result<Parts, NoMemory>
    ensures carried { IfOk result (λ p. (nodes : List Node) → p ≡ carried how (map (array_in nodes) operands.now) axes.now) }
    ensures formed { IfOk result (λ p. (nodes : List Node) → AreDimensions axes.now → AllByRecursion (IsOperand axes.now) (map (array_in nodes) operands.now) → AreParts axes.now p) }
{
    Ok(Parts {
        name: name_among(alloc, how, operands)?,
        attrs: attrs_among(alloc, how, operands)?,
        coords: coords_among(alloc, axes, operands)?,
    })
}
