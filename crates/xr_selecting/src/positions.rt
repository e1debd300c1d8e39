//! The arguments of `isel` for those of `sel`.
ghost use Rattle.std.specs.Prelude.{List};
ghost use Rattle.std.specs.List.{AllByRecursion};
ghost use Rattle.xr_arrays.specs.declared.node.Node.{Node};
ghost use Rattle.xr_types.specs.Results.{Answers};
ghost use Rattle.xr_defs.specs.WellFormed.{IsDimension};
ghost use Rattle.xr_operations.specs.Selection as of;
ghost use Rattle.xr_values.specs.Meaning.{given};

use crate::kinds::check_kind;
use crate::located::positions_along;
use crate::options::{is_option, search_given};
use std::alloc::Global;
use xr_indexing::check_dimension;
use xr_types::{Axis, CallFault, DeepCopy, Fault};
use xr_values::Args;

/// The arguments of `isel` that have the positions which the arguments of `sel` name.
///
/// # Errors
/// `BadArgument` for a plain argument; then the faults of the method and the tolerance; then, for each other argument, `WrongKind`
/// unless it is a label, a list or a slice of labels, or what `isel` takes, where the dimension is bare; then `NoDimension`; then,
/// dimension by dimension, `BadArgument`, `LabelKind`, `NotUnique`, `NotMonotonic` and `NoSuchLabel`.
#[tactic(auto, using(crate::proofs::Behind::put_behind, crate::proofs::Behind::none_behind, xr_indexing::proofs::Loops::behind_none), unfolding(xr_operations::specs::Selection::positions_given, xr_operations::specs::Selection::each_located, xr_types::specs::Results::unless, xr_values::specs::Meaning::given))]
pub fn positions_given(alloc: Global, axes: &[Axis], args: &Args) -> Result<Args, CallFault>
    requires { AllByRecursion IsDimension axes.now }
    ensures { (nodes : List Node) → Answers (given nodes) result (of.positions_given axes.now (given nodes args.now)) }
{
    if args.plain.len() != 0 {
        return Err(CallFault::Refused(Fault::BadArgument));
    }
    let keyed = args.keyed.as_slice();
    let by = search_given(keyed)?;
    'kinds: for argument in keyed {
        if !is_option(&argument.0) {
            check_kind(alloc, axes, argument)?;
        }
    }
    'names: for argument in keyed {
        if !is_option(&argument.0) {
            check_dimension(alloc, axes, argument)?;
        }
    }
    let mut located = Vec::new(alloc);
    'places: for argument in keyed {
        if !is_option(&argument.0) {
            let positions = positions_along(alloc, by, axes, argument)?;
            located.push((argument.0.deep_copy(alloc)?, positions))?;
        }
    }
    Ok(Args {
        plain: Vec::new(alloc),
        keyed: located,
    })
}
