//! The join of axes.
ghost use Rattle.std.specs.Prelude.{◌≡◌, ◌<◌, ◌||◌, map, length, All, IfOk};
ghost use Rattle.std.specs.List.{list_all};
ghost use Rattle.xr_types.specs.declared.axis.Axis.{Axis as AnAxis};
ghost use Rattle.xr_types.specs.Results.{Answers};
ghost use Rattle.xr_operations.specs.Alignment.{has_all, join, sources};
ghost use Rattle.align_join.specs.Joined.{HasFew, checked};

use crate::axes;
use std::alloc::Global;
use xr_arrays::Sources;
use xr_types::{Axis, CallFault, Fault, How, Items, NoMemory};

/// A joined axis, and for each axis that was joined its position that stands for each new one.
#[derive(Drop)]
pub struct Joined {
    pub axis: Axis,
    pub from: Items<Sources>,
}

/// Whether there is a fill, or each axis has each joined label.
fn are_covered(alloc: Global, joined: &Axis, axes: &[&Axis], filled: bool) -> Result<bool, NoMemory>
    requires { All (λ x. HasFew x.now) axes.now }
    ensures { IfOk result (λ b. b ≡ (filled || list_all (has_all joined.now) (map (λ x. x.now) axes.now))) }
{
    if filled {
        return Ok(true);
    }
    axes::all_have(alloc, joined, axes)
}

/// Whether bare axes have the size of the joined one and, without a fill, each axis has each joined label.
#[tactic(auto, using(crate::proofs::Told::missized, crate::proofs::Told::covered, crate::proofs::Told::uncovered))]
fn check(alloc: Global, joined: &Axis, axes: &[&Axis], filled: bool) -> Result<(), CallFault>
    requires { All (λ x. HasFew x.now) axes.now }
    ensures { Answers (λ u. u) result (checked filled joined.now (map (λ x. x.now) axes.now)) }
{
    if !axes::all_sized(joined, axes) {
        return Err(CallFault::Refused(Fault::SizeConflict));
    }
    if !are_covered(alloc, joined, axes, filled)? {
        return Err(CallFault::Refused(Fault::WouldPromote));
    }
    Ok(())
}

/// The join of axes of one name by their labels. With a fill, an axis may lack a joined label.
///
/// # Errors
/// First `LabelKind` for labels of two kinds, then `WouldPromote` for whole numbers of kinds that aren't promoted to one. For
/// lists of labels that differ `NotAligned` with `How::Exact`, else `NotUnique` where one holds a label twice. Then
/// `SizeConflict` for a bare axis of another size than the joined one, and `WouldPromote` where an axis lacks a joined label and
/// there is no fill.
pub fn joined_axis(alloc: Global, axes: &[&Axis], how: How, filled: bool) -> Result<Axis, CallFault>
    requires some { 0 < length axes.now }
    requires few { All (λ x. HasFew x.now) axes.now }
    ensures { Answers (λ x. x) result (join how filled (map (λ x. x.now) axes.now)) }
{
    let axis = axes::labelled_axis(alloc, how, axes[0], axes)?;
    check(alloc, &axis, axes, filled)?;
    Ok(axis)
}

/// The join of axes of one name, with the positions that each of them takes there.
///
/// # Errors
/// As [`joined_axis`].
pub fn join(alloc: Global, axes: &[&Axis], how: How, filled: bool) -> Result<Joined, CallFault>
    requires some { 0 < length axes.now }
    requires few { All (λ x. HasFew x.now) axes.now }
    ensures joined { Answers (λ (j : Joined). j.axis) result (join how filled (map (λ x. x.now) axes.now)) }
    ensures from { IfOk result (λ j. j.from ≡ map (λ x. sources x.now j.axis) axes.now) }
{
    let axis = joined_axis(alloc, axes, how, filled)?;
    let from = axes::all_sources(alloc, &axis, axes)?;
    Ok(Joined { axis, from })
}
