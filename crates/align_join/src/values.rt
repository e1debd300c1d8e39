//! The axes of several values together.
ghost use Rattle.std.specs.Prelude.{◌≡◌, [], ◌∷◌, ◌++◌, List, map, fold, All, IfOk, IfSome, OnOk};
ghost use Rattle.std.specs.Option.{option_map};
ghost use Rattle.xr_types.specs.declared.axis.Axis.{Axis as AnAxis};
ghost use Rattle.xr_types.specs.Names.{among, axis_names};
ghost use Rattle.xr_types.specs.Results.{Answers};
ghost use Rattle.xr_operations.specs.Alignment.{add_name, aligned, all_names, axes_named, axis_of, joined_each, joined_or_own, names_once};
ghost use Rattle.align_join.specs.Joined.{HasFew};

use crate::alignment;
use std::alloc::{AllocError, Global};
use xr_types::{Axis, CallFault, DeepCopy, How, Items, Name};

/// The axis of a name, if there is one.
fn axis_of<'a>(axes: &'a [Axis], name: &Name) -> Option<&'a Axis>
    requires { All HasFew axes.now }
    ensures axis { option_map (λ x. x.now) result ≡ axis_of name.now axes.now }
    ensures few { IfSome result (λ x. HasFew x.now) }
{
    for axis in axes {
        if axis.name.is(name) {
            return Some(axis);
        }
    }
    None
}

/// The axes of a name, of each value that has one.
fn axes_named<'a>(
    alloc: Global,
    name: &Name,
    values: &[&'a [Axis]],
) -> Result<Vec<&'a Axis>, AllocError>
    requires { All (λ v. All HasFew v.now) values.now }
    ensures axes { IfOk result (λ v. map (λ x. x.now) v.items ≡ axes_named name.now (map (λ v. v.now) values.now)) }
    ensures few { IfOk result (λ v. All (λ x. HasFew x.now) v.items) }
{
    let mut named = Vec::new(alloc);
    for axes in values {
        if let Some(axis) = axis_of(axes, name) {
            named.push(axis)?;
        }
    }
    Ok(named)
}

fn is_among(names: &[&Name], name: &Name) -> bool
    ensures { result ≡ among (map (λ n. n.now) names.now) name.now }
{
    for other in names {
        if name.is(other) {
            return true;
        }
    }
    false
}

/// Adds a name, unless it is there.
fn add_name<'a>(names: &mut Vec<&'a Name>, name: &'a Name) -> Result<(), AllocError>
    ensures { OnOk result (map (λ n. n.now) names.new.items ≡ add_name (map (λ n. n.now) names.old.items) name.now) }
{
    if !is_among(names.as_slice(), name) {
        names.push(name)?;
    }
    Ok(())
}

fn add_names<'a>(names: &mut Vec<&'a Name>, axes: &'a [Axis]) -> Result<(), AllocError>
    ensures { OnOk result (map (λ n. n.now) names.new.items ≡ fold add_name (map (λ n. n.now) names.old.items) (axis_names axes.now)) }
{
    for axis in axes {
        add_name(names, &axis.name)?;
    }
    Ok(())
}

/// The names of the axes of all values, each once, in the order of first appearance.
fn names_once<'a>(alloc: Global, values: &[&'a [Axis]]) -> Result<Vec<&'a Name>, AllocError>
    ensures { IfOk result (λ v. map (λ n. n.now) v.items ≡ names_once (all_names (map (λ v. v.now) values.now))) }
{
    let mut names = Vec::new(alloc);
    for axes in values {
        add_names(&mut names, axes)?;
    }
    Ok(names)
}

/// Axes of one name joined; an axis alone stays as it is.
#[tactic(auto, unfolding(xr_operations::specs::Alignment::joined_or_own))]
fn joined_or_own(alloc: Global, axes: &[&Axis], how: How, filled: bool) -> Result<Axis, CallFault>
    requires { All (λ x. HasFew x.now) axes.now }
    ensures { Answers (λ x. x) result (joined_or_own how filled (map (λ x. x.now) axes.now)) }
{
    match axes {
        [] => Ok(Axis {
            name: Name::from_str(alloc, "")?,
            size: 0,
            labels: None,
        }),
        [axis] => Ok(axis.deep_copy(alloc)?),
        [_, _, ..] => alignment::joined_axis(alloc, axes, how, filled),
    }
}

/// The axes of a name, joined.
fn joined_of(
    alloc: Global,
    name: &Name,
    values: &[&[Axis]],
    how: How,
    filled: bool,
) -> Result<Axis, CallFault>
    requires { All (λ v. All HasFew v.now) values.now }
    ensures { Answers (λ x. x) result (joined_or_own how filled (axes_named name.now (map (λ v. v.now) values.now))) }
{
    let named = axes_named(alloc, name, values)?;
    joined_or_own(alloc, named.as_slice(), how, filled)
}

/// The axes of each name, joined.
fn joined_each(
    alloc: Global,
    names: &[&Name],
    values: &[&[Axis]],
    how: How,
    filled: bool,
) -> Result<Items<Axis>, CallFault>
    requires { All (λ v. All HasFew v.now) values.now }
    ensures { Answers (λ (xs : List AnAxis). xs) result (joined_each how filled (map (λ v. v.now) values.now) (map (λ n. n.now) names.now)) }
{
    let mut joined = Items::new(alloc);
    for name in names {
        let axis = joined_of(alloc, name, values, how, filled)?;
        joined.push(axis)?;
    }
    Ok(joined)
}

/// The axes of several values, those of one name joined, in the order of first appearance. An axis of one value alone stays as it
/// is.
///
/// # Errors
/// The first, in that order, of [`joined_axis`](crate::joined_axis).
#[tactic(auto, unfolding(xr_operations::specs::Alignment::aligned))]
pub fn aligned(
    alloc: Global,
    values: &[&[Axis]],
    how: How,
    filled: bool,
) -> Result<Items<Axis>, CallFault>
    requires { All (λ v. All HasFew v.now) values.now }
    ensures { Answers (λ (xs : List AnAxis). xs) result (aligned how filled (map (λ v. v.now) values.now)) }
{
    let names = names_once(alloc, values)?;
    joined_each(alloc, names.as_slice(), values, how, filled)
}
