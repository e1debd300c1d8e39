//! The dimensions that a call names.
ghost use Rattle.std.specs.Prelude.{◌≡◌, [], ◌∷◌, List, option_map, IfOk};
ghost use Rattle.xr_arrays.specs.declared.node.Node.{Node};
ghost use Rattle.xr_types.specs.Names.{among, are_distinct, axis_names};
ghost use Rattle.xr_types.specs.Results.{Answers, unless};
ghost use Rattle.xr_types.specs.declared.fault.Fault.TheVariants as faults;
ghost use Rattle.xr_defs.specs.Parts as parts;
ghost use Rattle.xr_operations.specs.Reductions as calls;
ghost use Rattle.xr_values.specs.Meaning.{meaning, given};

use std::alloc::{AllocError, Global};
use xr_arguments::{as_text, bound, only, option, texts_in};
use xr_parts::{has_axis, is_among};
use xr_types::{Axis, CallFault, DeepCopy, Fault, Items, TextBytes};
use xr_values::{Args, Value};

fn are_distinct(names: &[TextBytes]) -> bool
    ensures { result ≡ are_distinct names.now }
{
    match names {
        [] => true,
        [first, rest @ ..] => !is_among(rest, first) && are_distinct(rest),
    }
}

/// The names of axes.
pub fn names_of(alloc: Global, axes: &[Axis]) -> Result<Items<TextBytes>, AllocError>
    ensures { IfOk result (λ names. names ≡ axis_names axes.now) }
{
    let mut names = Items::new(alloc);
    for axis in axes {
        names.push(axis.name.deep_copy(alloc)?)?;
    }
    Ok(names)
}

fn one_name(alloc: Global, name: &TextBytes) -> Result<Items<TextBytes>, AllocError>
    ensures { IfOk result (λ names. names ≡ name.now ∷ []) }
{
    let mut names = Items::new(alloc);
    names.push(name.deep_copy(alloc)?)?;
    Ok(names)
}

// The names that a text or a list of texts gives.
#[tactic(auto, using(xr_arguments::proofs::Variants::is_text, xr_arguments::proofs::Variants::is_list, xr_values::proofs::Meaning::meaning_out), unfolding(xr_defs::specs::Parts::as_names))]
fn as_names(alloc: Global, value: &Value) -> Result<Items<TextBytes>, CallFault>
    ensures { (nodes : List Node) → Answers (λ ts. ts) result (parts.as_names (meaning nodes value.now)) }
{
    match value {
        Value::Text(text) => Ok(one_name(alloc, text)?),
        Value::List(values) => texts_in(alloc, values.as_slice()),
        _ => Err(CallFault::Refused(Fault::WrongKind)),
    }
}

#[tactic(auto, unfolding(xr_operations::specs::Reductions::distinct_names, xr_types::specs::Results::unless))]
fn distinct_names(alloc: Global, value: &Value) -> Result<Items<TextBytes>, CallFault>
    ensures { (nodes : List Node) → Answers (λ ts. ts) result (calls.distinct_names (meaning nodes value.now)) }
{
    let names = as_names(alloc, value)?;
    if !are_distinct(names.as_slice()) {
        return Err(CallFault::Refused(Fault::BadArgument));
    }
    Ok(names)
}

// All dimensions where none is given.
#[tactic(auto, unfolding(xr_operations::specs::Reductions::dims_named))]
fn dims_named(
    alloc: Global,
    axes: &[Axis],
    value: Option<&Value>,
) -> Result<Items<TextBytes>, CallFault>
    ensures { (nodes : List Node) → Answers (λ ts. ts) result (calls.dims_named (axis_names axes.now) (option_map (λ v. meaning nodes v.now) value.entry)) }
{
    match value {
        None => Ok(names_of(alloc, axes)?),
        Some(value) => distinct_names(alloc, value),
    }
}

#[tactic(auto, unfolding(xr_types::specs::Results::unless))]
fn check_dim(alloc: Global, axes: &[Axis], name: &TextBytes) -> Result<(), CallFault>
    ensures { Answers (λ u. u) result (unless (among (axis_names axes.now) name.now) (faults.NoDimension name.now)) }
{
    if has_axis(axes, name) {
        Ok(())
    } else {
        Err(CallFault::Refused(Fault::NoDimension(name.deep_copy(alloc)?)))
    }
}

#[tactic(auto, unfolding(xr_operations::specs::Reductions::check_dims))]
fn check_dims(alloc: Global, axes: &[Axis], names: &[TextBytes]) -> Result<(), CallFault>
    ensures { Answers (λ u. u) result (calls.check_dims (axis_names axes.now) names.now) }
{
    for name in names {
        check_dim(alloc, axes, name)?;
    }
    Ok(())
}

#[tactic(auto, unfolding(xr_operations::specs::Reductions::dim_option))]
fn dim_option<'a>(alloc: Global, args: &'a Args) -> Result<Option<&'a Value>, CallFault>
    ensures { (nodes : List Node) → Answers (λ v. option_map (λ w. meaning nodes w.now) v) result (calls.dim_option (given nodes args.now)) }
{
    let values = bound(alloc, &["dim"], args)?;
    let value = option(values.as_slice(), 0);
    Ok(value)
}

/// The dimensions that are reduced, among those of an array or dataset.
#[tactic(auto, unfolding(xr_operations::specs::Reductions::dims_given))]
pub(crate) fn dims_given(
    alloc: Global,
    axes: &[Axis],
    args: &Args,
) -> Result<Items<TextBytes>, CallFault>
    ensures { (nodes : List Node) → Answers (λ ts. ts) result (calls.dims_given (axis_names axes.now) (given nodes args.now)) }
{
    let value = dim_option(alloc, args)?;
    let names = dims_named(alloc, axes, value)?;
    check_dims(alloc, axes, names.as_slice())?;
    Ok(names)
}

/// The dimension along which sums run.
#[tactic(auto, unfolding(xr_operations::specs::Reductions::dim_given))]
pub(crate) fn dim_given<'a>(
    alloc: Global,
    axes: &[Axis],
    args: &'a Args,
) -> Result<&'a TextBytes, CallFault>
    ensures { (nodes : List Node) → Answers (λ t. t.now) result (calls.dim_given (axis_names axes.now) (given nodes args.now)) }
{
    let name = as_text(only(args, "dim")?)?;
    check_dim(alloc, axes, name)?;
    Ok(name)
}
