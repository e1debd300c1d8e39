//! Data variables without the dimension, which have to be the same in all datasets.
ghost use Rattle.std.specs.Prelude.{◌≡◌, ◌||◌, ◌++◌, List, map, true, IfOk};
ghost use denote.Param.Send.{IsSync};
ghost use Rattle.xr_types.specs.Names.{among};
ghost use Rattle.xr_types.specs.Results.{Answers, all_of};
ghost use Rattle.xr_arrays.specs.declared.node.Node.{Node};
ghost use Rattle.xr_combination.specs.Concat as calls;
ghost use Rattle.xr_combination.specs.Pieces as pieces;
ghost use Rattle.xr_merging.specs.Members as members;
ghost use Rattle.xr_merging.specs.Names.{names_in};
ghost use Rattle.xr_values.specs.Stands.{dataset_in};
ghost use Rattle.xr_joint.specs.Joint.{AllPlaced};
ghost use Rattle.xr_concat.specs.Named.{AreHeldIn};

use plan_core::Plan;
use std::alloc::Global;
use std::thread::Threads;
use xr_arrays::ArrayValue;
use xr_chaining::is_new;
use xr_joint::{push_held, push_pieces};
use xr_merging::{all_same, in_first_order, variables_called};
use xr_stacking::has_name;
use xr_types::{CallFault, Fault, Items, Name, NoMemory};
use xr_values::{Dataset, Variable};

/// Whether the first of variables has a dimension.
pub(crate) fn first_has(dim: &Name, vars: &[&Variable]) -> bool
    ensures { (nodes : List Node) → result ≡ among (pieces.first_piece (map (members.piece_in nodes) (map (λ v. v.now) vars.now))).dims dim.now }
{
    match vars {
        [] => false,
        [first, ..] => has_name(first.dims.as_slice(), dim),
    }
}

// Whether what variables give has the dimension, as all have it where it is new.
fn is_along(dim: &Name, sets: &[Dataset], vars: &[&Variable]) -> bool
    ensures { (nodes : List Node) → result ≡ calls.is_new dim.now (map (dataset_in nodes) sets.now) || among (pieces.first_piece (map (members.piece_in nodes) (map (λ v. v.now) vars.now))).dims dim.now }
{
    is_new(dim, sets) || first_has(dim, vars)
}

// The cells of variables in the order of the dimensions of the first.
fn arrays_of<R: Threads + Sync>(
    rt: &R,
    alloc: Global,
    plan: &Plan,
    vars: &[&Variable],
) -> Result<Items<ArrayValue>, NoMemory>
    requires sync { IsSync R.row }
    requires placed { AllPlaced plan.now (map (λ v. v.now) vars.now) }
    ensures { IfOk result (λ arrays. arrays ≡ pieces.in_first_order (map (members.piece_in plan.now) (map (λ v. v.now) vars.now))) }
{
    let mut pieces = Items::new(alloc);
    push_pieces(rt, alloc, plan, &mut pieces, vars)?;
    let mut held = Items::new(alloc);
    push_held(alloc, &mut held, pieces.as_slice())?;
    in_first_order(alloc, held.as_slice())
}

#[tactic(auto, using(crate::proofs::Constant::no_constant, crate::proofs::Constant::unequal, crate::proofs::Constant::equal))]
fn check_constant<R: Threads + Sync>(
    rt: &R,
    alloc: Global,
    plan: &Plan,
    dim: &Name,
    sets: &[Dataset],
    name: &Name,
) -> Result<(), CallFault>
    requires sync { IsSync R.row }
    requires held { AreHeldIn plan.now sets.now }
    ensures { Answers (λ u. u) result (calls.check_constant dim.now (map (dataset_in plan.now) sets.now) name.now) }
{
    let vars = variables_called(alloc, sets, name)?;
    let vars = vars.as_slice();
    if is_along(dim, sets, vars) {
        return Ok(());
    }
    let arrays = arrays_of(rt, alloc, plan, vars)?;
    if !all_same(alloc, arrays.as_slice())? {
        return Err(CallFault::Refused(Fault::Conflict));
    }
    Ok(())
}

fn check_each<R: Threads + Sync>(
    rt: &R,
    alloc: Global,
    plan: &Plan,
    dim: &Name,
    sets: &[Dataset],
    vars: &[Variable],
) -> Result<(), CallFault>
    requires sync { IsSync R.row }
    requires held { AreHeldIn plan.now sets.now }
    ensures { Answers (λ u. u) result (all_of (calls.check_constant dim.now (map (dataset_in plan.now) sets.now)) (names_in plan.now vars.now)) }
{
    match vars {
        [] => Ok(()),
        [var, rest @ ..] => {
            check_constant(rt, alloc, plan, dim, sets, &var.name)?;
            check_each(rt, alloc, plan, dim, sets, rest)
        }
    }
}

/// Refuses data variables without the dimension, which isn't new, whose cells aren't the same in all datasets.
///
/// # Errors
/// `Conflict`.
pub(crate) fn check_constants<R: Threads + Sync>(
    rt: &R,
    alloc: Global,
    plan: &Plan,
    dim: &Name,
    sets: &[Dataset],
) -> Result<(), CallFault>
    requires sync { IsSync R.row }
    requires held { AreHeldIn plan.now sets.now }
    ensures { Answers (λ u. u) result (all_of (calls.check_constant dim.now (map (dataset_in plan.now) sets.now)) (calls.set_names (pieces.first_set (map (dataset_in plan.now) sets.now)))) }
{
    match sets {
        [] => Ok(()),
        [first, ..] => check_each(rt, alloc, plan, dim, sets, first.vars.as_slice()),
    }
}
