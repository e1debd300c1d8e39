//! The axes of several datasets, joined.
ghost use Rattle.std.specs.Prelude.{◌≡◌, ◌++◌, List, map, All, OnOk};
ghost use Rattle.xr_types.specs.Results.{Answers};
ghost use Rattle.xr_types.specs.declared.axis.Axis.{Axis as AnAxis};
ghost use Rattle.xr_arrays.specs.declared.node.Node.{Node};
ghost use Rattle.align_join.specs.Joined.{HasFew};
ghost use Rattle.xr_defs.specs.Values.{Dataset as TheSet};
ghost use Rattle.xr_operations.specs.Alignment as alignment;
ghost use Rattle.xr_values.specs.Stands.{dataset_in};

use align_join::aligned;
use std::alloc::Global;
use xr_joining::have_few;
use xr_types::{Axis, CallFault, How, Items, NoMemory};
use xr_values::Dataset;

// Labels past those that can be looked up want memory.
fn push_axes<'a>(out: &mut Items<&'a [Axis]>, sets: &'a [Dataset]) -> Result<(), NoMemory>
    requires { All (λ v. All HasFew v.now) out.old }
    ensures axes { (nodes : List Node) → OnOk result (map (λ v. v.now) out.new ≡ map (λ v. v.now) out.old ++ map (λ (s : TheSet). s.axes) (map (dataset_in nodes) sets.now)) }
    ensures few { OnOk result (All (λ v. All HasFew v.now) out.new) }
{
    match sets {
        [] => Ok(()),
        [set, rest @ ..] => {
            let axes = set.axes.as_slice();
            if !have_few(axes) {
                return Err(NoMemory);
            }
            out.push(axes)?;
            push_axes(out, rest)
        }
    }
}

/// The axes of the datasets, those of one name joined.
///
/// # Errors
/// Of the dimensions in the order in which they appear, that of the first that can't be joined.
pub(crate) fn joined_axes(
    alloc: Global,
    sets: &[Dataset],
    how: How,
    filled: bool,
) -> Result<Items<Axis>, CallFault>
    ensures { (nodes : List Node) → Answers (λ (xs : List AnAxis). xs) result (alignment.aligned how filled (map (λ (s : TheSet). s.axes) (map (dataset_in nodes) sets.now))) }
{
    let mut lists = Items::new(alloc);
    push_axes(&mut lists, sets)?;
    let axes = aligned(alloc, lists.as_slice(), how, filled)?;
    Ok(axes)
}
