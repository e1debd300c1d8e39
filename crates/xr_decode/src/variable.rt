//! Data variables.
ghost use Rattle.std.specs.Prelude.{◌≡◌, false, true, IfOk};
ghost use Rattle.xr_defs.specs.Decoding.{is_skipped, var_shape, variable_of};
ghost use Rattle.xr_types.specs.Points.{size};
ghost use Rattle.xr_arrays.specs.Added.{AddsAtMost};
ghost use Rattle.plan_core.specs.Plans.{Grows};
ghost use Rattle.xr_values.specs.Stands.{variable_in, IsNodeOf};
ghost use Rattle.xr_decode.specs.Readable.{IsReadableVar};

use crate::decoded::decode_var;
use crate::dims::var_dims;
use crate::stored::{Source, StoredVar};
use plan_core::Plan;
use std::alloc::Global;
use xr_arrays::Node;
use xr_types::{DeepCopy, NoMemory};
use xr_values::Variable;

/// A loaded variable, whose cells become a node of the plan.
pub(crate) fn variable_of(
    alloc: Global,
    plan: &mut Plan,
    source: &Source<'_>,
    var: &StoredVar<'_>,
    mask: bool,
) -> Result<Variable, NoMemory>
    requires readable { IsReadableVar source.now var.now }
    requires loaded { is_skipped source.now var.now ≡ false }
    ensures grows { Grows plan.old plan.new }
    ensures variable { IfOk result (λ x. variable_in plan.new x ≡ variable_of source.now mask var.now) }
    ensures node { IfOk result (λ x. IsNodeOf plan.new x.node (var_shape source.now var.now) x.kind) }
    ensures cells { IfOk result (λ x. AddsAtMost plan.old plan.new (size (var_shape source.now var.now))) }
{
    var.holds_bytes();
    let parts = decode_var(alloc, source, var, mask)?;
    let name = var.name().deep_copy(alloc)?;
    let dims = var_dims(alloc, source, var)?;
    let kind = parts.array.kind();
    let node = plan.push(Node::Source { cells: parts.array })?;
    Ok(Variable {
        name,
        dims,
        kind,
        masked: parts.masked,
        attrs: parts.attrs,
        node,
    })
}
