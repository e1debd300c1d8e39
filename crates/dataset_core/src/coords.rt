//! `assign_coords`: the arrays that become coordinates are computed.
ghost use Rattle.std.specs.Prelude.{◌≡◌, ℕ, List, Ok, false};
ghost use denote.Param.Send.{IsSync};
ghost use Rattle.xr_arrays.specs.declared.node.Node.{Node};
ghost use Rattle.xr_defs.specs.Building.{assigned_to_array, assigned_to_set};
ghost use Rattle.xr_runs.specs.Calls.{of_both};
ghost use Rattle.xr_values.specs.Meaning.{meaning, given, IsValueIn, AreArgsIn};
ghost use Rattle.dataset_core.specs.Answers.{AnswersValue};
ghost use Rattle.dataset_core.specs.Assigned.{coords_told, FollowsValue};

use crate::held::{array_value, set_value};
use plan_core::Compute;
use std::alloc::Global;
use std::thread::Threads;
use xr_building::{assign_to_array, assign_to_set};
use xr_types::{CallFault, Fault};
use xr_values::{Args, Cx, Value};

/// `assign_coords(name=value)` of arrays and datasets.
#[tactic(auto, using(xr_arguments::proofs::Variants::is_array, xr_arguments::proofs::Variants::is_set, xr_arguments::proofs::Inside::held_array, xr_arguments::proofs::Inside::held_set, xr_values::proofs::Meaning::meaning_out), unfolding(xr_runs::specs::Calls::of_both))]
pub(crate) fn assign_coords<R: Threads + Sync, C: Compute>(
    rt: &R,
    alloc: Global,
    cx: &mut Cx<C>,
    on: &Value,
    args: &Args,
) -> Result<Value, CallFault>
    requires sync { IsSync R.row }
    requires inside { IsValueIn cx.old.plan on.now }
    requires given { AreArgsIn cx.old.plan args.now }
    ensures told { FollowsValue cx.old.plan result (coords_told (C.declines cx.old.compute cx.old.plan) cx.old.plan on.now args.now) }
    ensures undeclined { ((n : ℕ) → C.declines cx.old.compute cx.old.plan n ≡ false) → AnswersValue cx.old.plan result (of_both (λ a. assigned_to_array a (given cx.old.plan args.now)) (λ s. assigned_to_set s (given cx.old.plan args.now)) (meaning cx.old.plan on.now)) }
    ensures plan { cx.new.plan ≡ cx.old.plan }
    ensures keeps { (nodes : List Node) (n : ℕ) → C.declines cx.new.compute nodes n ≡ C.declines cx.old.compute nodes n }
{
    match on {
        Value::Array(array) => {
            let answer = assign_to_array(rt, alloc, cx, array, args)?;
            Ok(array_value(alloc, answer)?)
        }
        Value::Set(set) => {
            let answer = assign_to_set(rt, alloc, cx, set, args)?;
            Ok(set_value(alloc, answer)?)
        }
        _ => Err(CallFault::Refused(Fault::WrongKind)),
    }
}
