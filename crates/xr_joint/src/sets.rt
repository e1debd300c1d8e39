//! Datasets whose variables have the sizes of joined axes.
ghost use Rattle.std.specs.Prelude.{◌≡◌, true, List};
ghost use Rattle.std.specs.List.{AllByRecursion};
ghost use Rattle.xr_arrays.specs.declared.node.Node.{Node};
ghost use Rattle.xr_joint.specs.Fitting.{IsOpenIn};
ghost use Rattle.xr_joint.specs.Joint.{AllOver};

use crate::cells::have_sizes;
use xr_types::Axis;
use xr_values::Dataset;

/// Whether the variables of datasets have the sizes of these axes.
#[tactic(auto, using(crate::proofs::Over::set_over))]
pub fn are_over(axes: &[Axis], sets: &[Dataset]) -> bool
    ensures { (nodes : List Node) → result ≡ true → AllByRecursion (IsOpenIn nodes) sets.now → AllOver nodes axes.now sets.now }
{
    match sets {
        [] => true,
        [set, rest @ ..] => {
            have_sizes(set.axes.as_slice(), axes, set.vars.as_slice()) && are_over(axes, rest)
        }
    }
}
