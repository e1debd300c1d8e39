//! How far dimensions move, as a call is given it.
ghost use Rattle.std.specs.Prelude.{◌≡◌, ◌<◌, List, map, length, codes, IfSome};
ghost use Rattle.std.specs.Str.{bytes_eq};
ghost use Rattle.xr_arrays.specs.declared.node.Node.{Node};
ghost use Rattle.xr_types.specs.Results.{Answers, all_of};
ghost use Rattle.xr_defs.specs.Arguments.{check_dimension};
ghost use Rattle.xr_defs.specs.Selecting as selecting;
ghost use Rattle.xr_defs.specs.Values.{axis_position};
ghost use Rattle.xr_operations.specs.Moves as of;
ghost use Rattle.xr_values.specs.Meaning.{meaning, with_key};
ghost use Rattle.xr_moving.specs.Steps.{behind, named};

use std::alloc::Global;
use xr_types::{Axis, CallFault, DeepCopy, Fault, Items, TextBytes};
use xr_values::Value;

#[tactic(auto, using(xr_arguments::proofs::Variants::is_number, xr_values::proofs::Meaning::meaning_out), unfolding(xr_defs::specs::Selecting::as_number))]
fn as_number(value: &Value) -> Result<i128, CallFault>
    ensures { (nodes : List Node) → Answers (λ n. n) result (selecting.as_number (meaning nodes value.now)) }
{
    match value {
        Value::Number(n) => Ok(*n),
        _ => Err(CallFault::Refused(Fault::WrongKind)),
    }
}

/// Whether a keyword is that of the fill.
pub fn is_fill(name: &TextBytes) -> bool
    ensures { result ≡ bytes_eq name.now (codes "fill_value") }
{
    name.as_str() == "fill_value"
}

// Adds how far each dimension moves that an argument names.
#[tactic(auto, using(crate::proofs::Loops::behind_both, crate::proofs::Loops::behind_nothing, crate::proofs::Loops::named_next, crate::proofs::Loops::named_none), unfolding(xr_operations::specs::Moves::distances, xr_operations::specs::Moves::distance_given))]
fn push_distances(
    alloc: Global,
    out: &mut Items<(TextBytes, i128)>,
    filled: bool,
    keyed: &[(TextBytes, Value)],
) -> Result<(), CallFault>
    ensures { (nodes : List Node) → Answers (λ u. out.new) result (behind out.old (of.distances (named filled (map (with_key nodes) keyed.now)))) }
{
    match keyed {
        [] => Ok(()),
        [argument, rest @ ..] => {
            if filled && is_fill(&argument.0) {
                return push_distances(alloc, out, filled, rest);
            }
            let by = as_number(&argument.1)?;
            out.push((argument.0.deep_copy(alloc)?, by))?;
            push_distances(alloc, out, filled, rest)
        }
    }
}

/// How far each dimension moves that an argument names. Where a call takes a fill, `fill_value` names no dimension.
///
/// # Errors
/// `WrongKind` for an argument that is no whole number.
#[tactic(auto, using(crate::proofs::Loops::behind_none))]
pub fn distances(
    alloc: Global,
    filled: bool,
    keyed: &[(TextBytes, Value)],
) -> Result<Items<(TextBytes, i128)>, CallFault>
    ensures { (nodes : List Node) → Answers (λ bys. bys) result (of.distances (named filled (map (with_key nodes) keyed.now))) }
{
    let mut out = Items::new(alloc);
    push_distances(alloc, &mut out, filled, keyed)?;
    Ok(out)
}

/// How far a dimension moves, if it is named.
pub fn distance(bys: &[(TextBytes, i128)], name: &TextBytes) -> Option<i128>
    ensures { result ≡ of.distance bys.now name.now }
{
    match bys {
        [] => None,
        [by, rest @ ..] => {
            if by.0.is(name) {
                Some(by.1)
            } else {
                distance(rest, name)
            }
        }
    }
}

/// The first position of an axis of this name.
pub fn position_of(axes: &[Axis], name: &TextBytes) -> Option<usize>
    ensures place { result ≡ axis_position name.now axes.now }
    ensures inside { IfSome result (λ k. k < length axes.now) }
{
    match axes {
        [] => None,
        [axis, rest @ ..] => {
            if axis.name.is(name) {
                return Some(0);
            }
            match position_of(rest, name) {
                Some(n) => Some(n + 1),
                None => None,
            }
        }
    }
}

/// Refuses the first argument whose name is no dimension. Where a call takes a fill, `fill_value` is none that names one.
///
/// # Errors
/// `NoDimension`.
#[tactic(auto, using(crate::proofs::Loops::named_next, crate::proofs::Loops::named_none), unfolding(xr_defs::specs::Arguments::check_dimension))]
pub fn check_dimensions(
    alloc: Global,
    axes: &[Axis],
    filled: bool,
    keyed: &[(TextBytes, Value)],
) -> Result<(), CallFault>
    ensures { (nodes : List Node) → Answers (λ u. u) result (all_of (check_dimension axes.now) (named filled (map (with_key nodes) keyed.now))) }
{
    match keyed {
        [] => Ok(()),
        [argument, rest @ ..] => {
            let name = &argument.0;
            if !(filled && is_fill(name)) && position_of(axes, name).is_none() {
                return Err(CallFault::Refused(Fault::NoDimension(name.deep_copy(alloc)?)));
            }
            check_dimensions(alloc, axes, filled, rest)
        }
    }
}
