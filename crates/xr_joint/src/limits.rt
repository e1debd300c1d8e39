//! The limits of several datasets over joined axes.
ghost use Rattle.std.specs.Prelude.{ℤ, List, Option, map};
ghost use Rattle.std.specs.List.{AllByRecursion};
ghost use Rattle.xr_types.specs.Results.{Answers, all_of};
ghost use Rattle.xr_arrays.specs.declared.node.Node.{Node};
ghost use Rattle.xr_defs.specs.Selecting.{check_set};
ghost use Rattle.xr_relations.specs.Aligning.{fitted_set};
ghost use Rattle.xr_values.specs.Stands.{dataset_in};
ghost use Rattle.xr_joint.specs.Fitting.{HasFrame, IsOpenIn};

use std::alloc::Global;
use xr_aligning::check_fitted_sizes;
use xr_types::{Axis, CallFault};
use xr_values::Dataset;

/// Refuses datasets of which one would have more of any, over these joined axes, than a dataset may have.
///
/// # Errors
/// `TooLarge`.
#[tactic(auto, using(crate::proofs::Nodes::open_vars))]
pub fn check_limits(alloc: Global, joined: &[Axis], sets: &[Dataset]) -> Result<(), CallFault>
    requires { AllByRecursion HasFrame sets.now }
    ensures { (nodes : List Node) (fill : Option ℤ) → AllByRecursion (IsOpenIn nodes) sets.now → Answers (λ u. u) result (all_of check_set (map (fitted_set joined.now fill) (map (dataset_in nodes) sets.now))) }
{
    check_fitted_sizes(alloc, joined, sets)
}
