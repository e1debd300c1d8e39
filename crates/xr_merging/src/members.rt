//! The variables and coordinates of a name, of each of several datasets.
ghost use Rattle.std.specs.Prelude.{◌≡◌, ◌++◌, List, find, flat_map, map, option_map, IfOk, OnOk};
ghost use Rattle.std.specs.Str.{bytes_eq};
ghost use Rattle.xr_arrays.specs.declared.node.Node.{Node};
ghost use Rattle.xr_defs.specs.declared.value.Coord.{Coord as ACoord};
ghost use Rattle.xr_values.specs.Stands.{dataset_in};
ghost use Rattle.xr_values.specs.declared.variable.Variable.{Variable as Var};
ghost use Rattle.xr_combination.specs.Pieces as pieces;
ghost use Rattle.xr_merging.specs.Members.{coords_of, variables_called, variables_of};

use std::alloc::{AllocError, Global};
use xr_defs::Coord;
use xr_types::{Items, Name};
use xr_values::{Dataset, Variable};

fn variable_called<'a>(vars: &'a [Variable], name: &Name) -> Option<&'a Variable>
    ensures { option_map (λ v. v.now) result ≡ find (λ (v : Var). bytes_eq v.name name.now) vars.now }
{
    match vars {
        [] => None,
        [var, rest @ ..] => {
            if var.name.is(name) {
                Some(var)
            } else {
                variable_called(rest, name)
            }
        }
    }
}

#[tactic(auto, using(crate::proofs::Called::found_here, crate::proofs::Called::found_none), unfolding(crate::specs::Members::variables_of))]
fn add_variable<'a>(
    out: &mut Items<&'a Variable>,
    set: &'a Dataset,
    name: &Name,
) -> Result<(), AllocError>
    ensures { OnOk result (map (λ v. v.now) out.new ≡ map (λ v. v.now) out.old ++ variables_of name.now set.now) }
{
    match variable_called(set.vars.as_slice(), name) {
        None => Ok(()),
        Some(var) => {
            out.push(var)?;
            Ok(())
        }
    }
}

fn push_variables<'a>(
    out: &mut Items<&'a Variable>,
    sets: &'a [Dataset],
    name: &Name,
) -> Result<(), AllocError>
    ensures { OnOk result (map (λ v. v.now) out.new ≡ map (λ v. v.now) out.old ++ flat_map (variables_of name.now) sets.now) }
{
    match sets {
        [] => Ok(()),
        [set, rest @ ..] => {
            add_variable(out, set, name)?;
            push_variables(out, rest, name)
        }
    }
}

/// The data variables of a name, of each dataset that has one.
#[tactic(auto, using(crate::proofs::Called::variables_are))]
pub fn variables_called<'a>(
    alloc: Global,
    sets: &'a [Dataset],
    name: &Name,
) -> Result<Items<&'a Variable>, AllocError>
    ensures { IfOk result (λ vs. map (λ v. v.now) vs ≡ variables_called name.now sets.now) }
{
    let mut out = Items::new(alloc);
    push_variables(&mut out, sets, name)?;
    Ok(out)
}

fn coord_called<'a>(coords: &'a [Coord], name: &Name) -> Option<&'a Coord>
    ensures { option_map (λ c. c.now) result ≡ find (λ (c : ACoord). bytes_eq c.name name.now) coords.now }
{
    match coords {
        [] => None,
        [coord, rest @ ..] => {
            if coord.name.is(name) {
                Some(coord)
            } else {
                coord_called(rest, name)
            }
        }
    }
}

#[tactic(auto, using(crate::proofs::Called::found_here, crate::proofs::Called::found_none), unfolding(crate::specs::Members::coords_of))]
fn add_coord<'a>(
    out: &mut Items<&'a Coord>,
    set: &'a Dataset,
    name: &Name,
) -> Result<(), AllocError>
    ensures { (nodes : List Node) → OnOk result (map (λ c. c.now) out.new ≡ map (λ c. c.now) out.old ++ coords_of name.now (dataset_in nodes set.now)) }
{
    match coord_called(set.coords.as_slice(), name) {
        None => Ok(()),
        Some(coord) => {
            out.push(coord)?;
            Ok(())
        }
    }
}

fn push_coords<'a>(
    out: &mut Items<&'a Coord>,
    sets: &'a [Dataset],
    name: &Name,
) -> Result<(), AllocError>
    ensures { (nodes : List Node) → OnOk result (map (λ c. c.now) out.new ≡ map (λ c. c.now) out.old ++ flat_map (coords_of name.now) (map (dataset_in nodes) sets.now)) }
{
    match sets {
        [] => Ok(()),
        [set, rest @ ..] => {
            add_coord(out, set, name)?;
            push_coords(out, rest, name)
        }
    }
}

/// The coordinates of a name, of each dataset that has one.
#[tactic(auto, using(crate::proofs::Called::coords_are))]
pub fn coords_called<'a>(
    alloc: Global,
    sets: &'a [Dataset],
    name: &Name,
) -> Result<Items<&'a Coord>, AllocError>
    ensures { (nodes : List Node) → IfOk result (λ cs. map (λ c. c.now) cs ≡ pieces.coords_called name.now (map (dataset_in nodes) sets.now)) }
{
    let mut out = Items::new(alloc);
    push_coords(&mut out, sets, name)?;
    Ok(out)
}
