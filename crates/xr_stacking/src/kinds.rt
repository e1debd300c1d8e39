//! The dimensions and kinds of data variables of one name.
ghost use Rattle.std.specs.Prelude.{◌≡◌, ◌++◌, List, map, IfOk, OnOk};
ghost use Rattle.std.specs.List.{list_all};
ghost use Rattle.xr_types.specs.Names.{among};
ghost use Rattle.xr_types.specs.Results.{Answers, all_of};
ghost use Rattle.xr_types.specs.declared.kind.DType.{DType as Kind};
ghost use Rattle.xr_arrays.specs.declared.node.Node.{Node};
ghost use Rattle.xr_combination.specs.Concat as calls;
ghost use Rattle.xr_combination.specs.Pieces as pieces;
ghost use Rattle.xr_values.specs.Stands.{dataset_in};
ghost use Rattle.xr_values.specs.declared.variable.Variable.{Variable as Var};
ghost use Rattle.xr_merging.specs.Dims as dims;
ghost use Rattle.xr_merging.specs.Names.{names_in};

use crate::names::has_name;
use std::alloc::{AllocError, Global};
use xr_combining::common_kind;
use xr_merging::variables_called;
use xr_types::{CallFault, DType, Fault, Items, Name};
use xr_values::{Dataset, Variable};

// ---- dimensions

fn has_names(names: &[Name], others: &[Name]) -> bool
    ensures { result ≡ list_all (among names.now) others.now }
{
    match others {
        [] => true,
        [other, rest @ ..] => has_name(names, other) && has_names(names, rest),
    }
}

fn have_same_dims(dims: &[Name], others: &[Name]) -> bool
    ensures { result ≡ pieces.have_same_dims dims.now others.now }
{
    has_names(dims, others) && has_names(others, dims)
}

fn are_over(dims: &[Name], vars: &[&Variable]) -> bool
    ensures { result ≡ list_all (λ (v : Var). pieces.have_same_dims dims.now v.dims) (map (λ v. v.now) vars.now) }
{
    match vars {
        [] => true,
        [var, rest @ ..] => have_same_dims(dims, var.dims.as_slice()) && are_over(dims, rest),
    }
}

fn are_over_first(vars: &[&Variable]) -> bool
    ensures { result ≡ dims.are_over_first (map (λ v. v.now) vars.now) }
{
    match vars {
        [] => true,
        [first, ..] => are_over(first.dims.as_slice(), vars),
    }
}

// ---- kinds

fn push_kinds(out: &mut Items<DType>, vars: &[&Variable]) -> Result<(), AllocError>
    ensures { OnOk result (out.new ≡ out.old ++ map (λ (v : Var). v.kind) (map (λ v. v.now) vars.now)) }
{
    match vars {
        [] => Ok(()),
        [var, rest @ ..] => {
            out.push(var.kind)?;
            push_kinds(out, rest)
        }
    }
}

/// The kind to which the cells of variables are promoted.
///
/// # Errors
/// `WrongKind` for bytes of text among others; then `WouldPromote` for kinds that aren't promoted to one.
pub fn kind_of_all(alloc: Global, vars: &[&Variable]) -> Result<DType, CallFault>
    ensures { Answers (λ (t : Kind). t) result (pieces.common_kind_in (map (λ (v : Var). v.kind) (map (λ v. v.now) vars.now))) }
{
    let mut kinds = Items::new(alloc);
    push_kinds(&mut kinds, vars)?;
    common_kind(kinds.as_slice())
}

// ---- name by name

#[tactic(auto, using(crate::proofs::Alike::unlike_dims, crate::proofs::Alike::unlike_kinds, crate::proofs::Alike::like))]
fn check_kinds(alloc: Global, sets: &[Dataset], name: &Name) -> Result<(), CallFault>
    ensures { (nodes : List Node) → Answers (λ u. u) result (calls.check_kinds (map (dataset_in nodes) sets.now) name.now) }
{
    let vars = variables_called(alloc, sets, name)?;
    let vars = vars.as_slice();
    if !are_over_first(vars) {
        return Err(CallFault::Refused(Fault::Conflict));
    }
    kind_of_all(alloc, vars)?;
    Ok(())
}

fn check_each(alloc: Global, sets: &[Dataset], vars: &[Variable]) -> Result<(), CallFault>
    ensures { (nodes : List Node) → Answers (λ u. u) result (all_of (calls.check_kinds (map (dataset_in nodes) sets.now)) (names_in nodes vars.now)) }
{
    match vars {
        [] => Ok(()),
        [var, rest @ ..] => {
            check_kinds(alloc, sets, &var.name)?;
            check_each(alloc, sets, rest)
        }
    }
}

/// Refuses data variables of one name that haven't one set of dimensions, or kinds that don't become one.
///
/// # Errors
/// Name by name `Conflict`; then `WrongKind` and `WouldPromote`.
pub fn check_all_kinds(alloc: Global, sets: &[Dataset]) -> Result<(), CallFault>
    ensures { (nodes : List Node) → Answers (λ u. u) result (all_of (calls.check_kinds (map (dataset_in nodes) sets.now)) (calls.set_names (pieces.first_set (map (dataset_in nodes) sets.now)))) }
{
    match sets {
        [] => Ok(()),
        [first, ..] => check_each(alloc, sets, first.vars.as_slice()),
    }
}
