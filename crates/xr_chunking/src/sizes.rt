//! Sizes of pieces along dimensions, as a call is given them.
ghost use Rattle.std.specs.Prelude.{◌≡◌, ◌∷◌, List, map};
ghost use Rattle.xr_arrays.specs.declared.node.Node.{Node};
ghost use Rattle.xr_types.specs.Results.{Answers, all_of};
ghost use Rattle.xr_defs.specs.Arguments as calls;
ghost use Rattle.xr_defs.specs.Selecting as selecting;
ghost use Rattle.xr_chunks.specs.Chunks as of;
ghost use Rattle.xr_values.specs.Meaning.{given, meaning, with_key};
ghost use Rattle.xr_chunking.specs.Sizes.{behind};

use std::alloc::Global;
use xr_indexing::check_dimension;
use xr_types::{Axis, CallFault, DeepCopy, Fault, Items, TextBytes};
use xr_values::{Args, Value};

/// For dimensions by their names, how long the pieces along them are.
pub type Sizes = Items<(TextBytes, u128)>;

#[tactic(auto, using(xr_arguments::proofs::Variants::is_number, xr_values::proofs::Meaning::meaning_out), unfolding(xr_defs::specs::Selecting::as_number))]
fn as_number(value: &Value) -> Result<i128, CallFault>
    ensures { (nodes : List Node) → Answers (λ n. n) result (selecting.as_number (meaning nodes value.now)) }
{
    match value {
        Value::Number(n) => Ok(*n),
        _ => Err(CallFault::Refused(Fault::WrongKind)),
    }
}

#[tactic(auto, unfolding(xr_chunks::specs::Chunks::size_of, xr_types::specs::Results::unless))]
fn size_of(n: i128) -> Result<u128, CallFault>
    ensures { Answers (λ k. k) result (of.size_of n) }
{
    if n >= 1 {
        Ok(n.unsigned_abs())
    } else {
        Err(CallFault::Refused(Fault::BadArgument))
    }
}

#[tactic(auto, unfolding(xr_chunks::specs::Chunks::size_given))]
fn size_given(alloc: Global, argument: &(TextBytes, Value)) -> Result<(TextBytes, u128), CallFault>
    ensures { (nodes : List Node) → Answers (λ s. s) result (of.size_given (with_key nodes argument.now)) }
{
    let n = as_number(&argument.1)?;
    let size = size_of(n)?;
    let name = argument.0.deep_copy(alloc)?;
    Ok((name, size))
}

// Adds the sizes that arguments give.
#[tactic(auto, using(crate::proofs::Read::behind_both, crate::proofs::Read::behind_nothing), unfolding(xr_chunks::specs::Chunks::sizes_given))]
fn push_sizes(alloc: Global, out: &mut Sizes, keyed: &[(TextBytes, Value)]) -> Result<(), CallFault>
    ensures { (nodes : List Node) → Answers (λ u. out.new) result (behind out.old (of.sizes_given (map (with_key nodes) keyed.now))) }
{
    match keyed {
        [] => Ok(()),
        [argument, rest @ ..] => {
            let size = size_given(alloc, argument)?;
            out.push(size)?;
            push_sizes(alloc, out, rest)
        }
    }
}

#[tactic(auto, using(crate::proofs::Read::behind_none))]
fn sizes_given(alloc: Global, keyed: &[(TextBytes, Value)]) -> Result<Sizes, CallFault>
    ensures { (nodes : List Node) → Answers (λ ss. ss) result (of.sizes_given (map (with_key nodes) keyed.now)) }
{
    let mut out = Items::new(alloc);
    push_sizes(alloc, &mut out, keyed)?;
    Ok(out)
}

fn check_dimensions(
    alloc: Global,
    axes: &[Axis],
    keyed: &[(TextBytes, Value)],
) -> Result<(), CallFault>
    ensures { (nodes : List Node) → Answers (λ u. u) result (all_of (calls.check_dimension axes.now) (map (with_key nodes) keyed.now)) }
{
    for argument in keyed {
        check_dimension(alloc, axes, argument)?;
    }
    Ok(())
}

/// The sizes that a call is given along dimensions that are there.
///
/// # Errors
/// `BadArgument` for a plain argument; then, argument by argument, `WrongKind` for what is no whole number and `BadArgument` for
/// one below 1; then `NoDimension` for the first name that is no dimension.
#[tactic(auto, unfolding(xr_chunks::specs::Chunks::grid_given, xr_types::specs::Results::unless, xr_values::specs::Meaning::given))]
pub fn grid_given(alloc: Global, axes: &[Axis], args: &Args) -> Result<Sizes, CallFault>
    ensures { (nodes : List Node) → Answers (λ ss. ss) result (of.grid_given axes.now (given nodes args.now)) }
{
    if args.plain.len() != 0 {
        return Err(CallFault::Refused(Fault::BadArgument));
    }
    let keyed = args.keyed.as_slice();
    let sizes = sizes_given(alloc, keyed)?;
    check_dimensions(alloc, axes, keyed)?;
    Ok(sizes)
}
