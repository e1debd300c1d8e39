//! How the axes of a value come to joined ones.
ghost use Rattle.std.specs.Prelude.{◌≡◌, ◌≤◌, ◌-◌, ◌^◌, ◌∷◌, ◌++◌, [], List, false, None, Some, length, map, min, nat_le, option_map, is_none, All, IfOk, OnOk};
ghost use Rattle.xr_aligning.specs.Common.{AllByRecursion, HasFew, IsBelow, IsThere, axes_called, axis_called, is_within, joined_in, list_all, list_any, most_cells, size};
ghost use Rattle.xr_operations.specs.Alignment.{sources as sources_of};
ghost use Rattle.xr_aligning.specs.Fits.{any_hole, fit_called, fit_of, sizes, Arrive, Arrives};
ghost use Rattle.xr_aligning.specs.Fitted.{IsChange};

use crate::cells::are_below;
use align_join::{sources, stays};
use std::alloc::Global;
use xr_arrays::Sources;
use xr_joining::have_few;
use xr_types::{Axis, DeepCopy, Items, MOST_CELLS, MOST_DIMENSIONS, Name, NoMemory, TextBytes};

/// How an axis comes to a joined one.
#[derive(Drop)]
pub struct Fit {
    pub name: Name,
    /// Its size, and that of the joined axis.
    pub own: u64,
    pub size: u64,
    /// For each position of the joined axis that of its own, unless those stay.
    pub from: Option<Sources>,
    /// Whether some of them has none.
    pub hole: bool,
}

/// Axes that come to joined ones, and what stands where a position has no source.
#[derive(Clone, Copy)]
pub struct Change<'a> {
    pub joined: &'a [Axis],
    pub own: &'a [Axis],
    pub fits: &'a [Fit],
    pub fill: Option<i128>,
}

/// The joined axis of an axis' name, or the axis itself where there is none.
#[tactic(auto, using(xr_joining::proofs::NamedAxes::in_here, xr_joining::proofs::NamedAxes::in_rest))]
pub fn joined_in<'a>(joined: &'a [Axis], own: &'a Axis) -> &'a Axis
    ensures { result.now ≡ joined_in joined.now own.now }
{
    match joined {
        [] => own,
        [axis, rest @ ..] => {
            if axis.name.is(&own.name) {
                axis
            } else {
                joined_in(rest, own)
            }
        }
    }
}

fn has_hole(from: &[Option<u32>]) -> bool
    ensures { result ≡ list_any is_none from.now }
{
    from.iter().any(|at| at.is_none())
}

// Where the positions stay.
fn staying(alloc: Global, own: &Axis, new: &Axis) -> Result<Fit, NoMemory>
    ensures fit { IfOk result (λ f. f ≡ record { name = own.now.name; own = own.now.size; size = new.now.size; from = None; hole = false }) }
    ensures kept { IfOk result (λ f. own.now.size ≡ new.now.size) }
{
    if own.size != new.size {
        return Err(NoMemory);
    }
    let name = own.name.deep_copy(alloc)?;
    let size = new.size;
    let from = None;
    let hole = false;
    Ok(Fit {
        name,
        own: own.size,
        size,
        from,
        hole,
    })
}

// Where other positions are taken.
fn taking(alloc: Global, own: &Axis, new: &Axis) -> Result<Fit, NoMemory>
    requires { HasFew own.now }
    ensures fit { IfOk result (λ f. f ≡ record { name = own.now.name; own = own.now.size; size = new.now.size; from = Some (sources_of own.now new.now); hole = list_any is_none (sources_of own.now new.now) }) }
    ensures long { IfOk result (λ f. length (sources_of own.now new.now) ≡ new.now.size) }
    ensures below { IfOk result (λ f. All (IsBelow own.now.size) (sources_of own.now new.now)) }
{
    let from = sources(alloc, own, new)?;
    if from.as_slice().len() as u64 != new.size || !are_below(from.as_slice(), own.size) {
        return Err(NoMemory);
    }
    let name = own.name.deep_copy(alloc)?;
    let size = new.size;
    let hole = has_hole(from.as_slice());
    let from = Some(from);
    Ok(Fit {
        name,
        own: own.size,
        size,
        from,
        hole,
    })
}

// Sizes and positions that don't meet, which no axes that are joined have, want memory.
#[tactic(auto, using(crate::proofs::Reaching::reaches_staying, crate::proofs::Reaching::reaches_taking, crate::proofs::Reaching::fit_staying, crate::proofs::Reaching::fit_taking))]
fn fit_of(alloc: Global, joined: &[Axis], own: &Axis) -> Result<Fit, NoMemory>
    requires { HasFew own.now }
    ensures fit { IfOk result (λ f. f ≡ fit_of joined.now own.now) }
    ensures arrives { IfOk result (λ f. Arrives joined.now own.now) }
{
    let new = joined_in(joined, own);
    if stays(own, new) {
        let fit = staying(alloc, own, new)?;
        Ok(fit)
    } else {
        let fit = taking(alloc, own, new)?;
        Ok(fit)
    }
}

#[tactic(auto, using(xr_joining::proofs::Few::few_head, xr_joining::proofs::Few::few_tail))]
fn push_fits(
    alloc: Global,
    fits: &mut Items<Fit>,
    joined: &[Axis],
    own: &[Axis],
) -> Result<(), NoMemory>
    requires { All HasFew own.now }
    ensures fits { OnOk result (fits.new ≡ fits.old ++ map (fit_of joined.now) own.now) }
    ensures arrive { OnOk result (Arrive joined.now own.now) }
{
    match own {
        [] => Ok(()),
        [axis, rest @ ..] => {
            let fit = fit_of(alloc, joined, axis)?;
            fits.push(fit)?;
            push_fits(alloc, fits, joined, rest)
        }
    }
}

/// How axes come to joined ones.
pub fn fits_of(alloc: Global, joined: &[Axis], own: &[Axis]) -> Result<Items<Fit>, NoMemory>
    ensures fits { IfOk result (λ fs. fs ≡ map (fit_of joined.now) own.now) }
    ensures arrive { IfOk result (λ fs. Arrive joined.now own.now) }
{
    if !have_few(own) {
        return Err(NoMemory);
    }
    let mut fits = Items::new(alloc);
    push_fits(alloc, &mut fits, joined, own)?;
    Ok(fits)
}

// ---- those of some axes

fn fit_called<'a>(fits: &'a [Fit], name: &TextBytes) -> Option<&'a Fit>
    ensures { option_map (λ f. f.now) result ≡ fit_called fits.now name.now }
{
    match fits {
        [] => None,
        [fit, rest @ ..] => {
            if fit.name.is(name) {
                Some(fit)
            } else {
                fit_called(rest, name)
            }
        }
    }
}

// An axis that isn't there, which no variable or coordinate has, wants memory.
#[tactic(auto, using(crate::proofs::Called::called_fit))]
fn fit_over<'a>(change: &Change<'a>, name: &TextBytes) -> Result<&'a Fit, NoMemory>
    requires { IsChange change.now }
    ensures { IfOk result (λ f. f.now ≡ fit_of change.now.joined.now (axis_called change.now.own.now name.now)) }
{
    match fit_called(change.fits, name) {
        Some(fit) => Ok(fit),
        None => Err(NoMemory),
    }
}

#[tactic(auto, using(crate::proofs::Called::over_more))]
fn push_over_axes<'a>(
    out: &mut Items<&'a Fit>,
    change: &Change<'a>,
    axes: &[Axis],
) -> Result<(), NoMemory>
    requires { IsChange change.now }
    ensures { OnOk result (AllByRecursion (IsThere change.now.own.now) axes.now → map (λ f. f.now) out.new ≡ map (λ f. f.now) out.old ++ map (fit_of change.now.joined.now) axes.now) }
{
    match axes {
        [] => Ok(()),
        [axis, rest @ ..] => {
            let fit = fit_over(change, &axis.name)?;
            out.push(fit)?;
            push_over_axes(out, change, rest)
        }
    }
}

/// How these of the axes come to the joined ones.
pub fn over_axes<'a>(
    alloc: Global,
    change: &Change<'a>,
    axes: &[Axis],
) -> Result<Items<&'a Fit>, NoMemory>
    requires { IsChange change.now }
    ensures { IfOk result (λ fs. AllByRecursion (IsThere change.now.own.now) axes.now → map (λ f. f.now) fs ≡ map (fit_of change.now.joined.now) axes.now) }
{
    let mut out = Items::new(alloc);
    push_over_axes(&mut out, change, axes)?;
    Ok(out)
}

fn push_over_names<'a>(
    out: &mut Items<&'a Fit>,
    change: &Change<'a>,
    names: &[Name],
) -> Result<(), NoMemory>
    requires { IsChange change.now }
    ensures { OnOk result (map (λ f. f.now) out.new ≡ map (λ f. f.now) out.old ++ map (fit_of change.now.joined.now) (axes_called change.now.own.now names.now)) }
{
    match names {
        [] => Ok(()),
        [name, rest @ ..] => {
            let fit = fit_over(change, name)?;
            out.push(fit)?;
            push_over_names(out, change, rest)
        }
    }
}

/// How the axes of these names come to the joined ones.
pub fn over_names<'a>(
    alloc: Global,
    change: &Change<'a>,
    names: &[Name],
) -> Result<Items<&'a Fit>, NoMemory>
    requires { IsChange change.now }
    ensures { IfOk result (λ fs. map (λ f. f.now) fs ≡ map (fit_of change.now.joined.now) (axes_called change.now.own.now names.now)) }
{
    let mut out = Items::new(alloc);
    push_over_names(&mut out, change, names)?;
    Ok(out)
}

/// Whether some position of the joined axes has no source.
pub fn any_hole(fits: &[&Fit]) -> bool
    ensures { result ≡ any_hole (map (λ f. f.now) fits.now) }
{
    match fits {
        [] => false,
        [fit, rest @ ..] => fit.hole || any_hole(rest),
    }
}

// ---- sizes

/// Whether no joined axis has more positions than it may have.
pub fn are_short(fits: &[&Fit]) -> bool
    ensures { result ≡ list_all (λ n. nat_le n most_cells) (sizes (map (λ f. f.now) fits.now)) }
{
    match fits {
        [] => true,
        [fit, rest @ ..] => fit.size <= MOST_CELLS && are_short(rest),
    }
}

#[tactic(auto, using(xr_joining::proofs::Products::saturates))]
fn cells_over(fits: &[&Fit]) -> u64
    ensures { result ≡ min (size (sizes (map (λ f. f.now) fits.now))) (2 ^ 64 - 1) }
{
    match fits {
        [] => 1,
        [fit, rest @ ..] => fit.size.saturating_mul(cells_over(rest)),
    }
}

/// Whether an array over the joined axes has no more of all than it may have.
#[tactic(auto, using(crate::proofs::Called::sizes_long))]
pub fn is_within(fits: &[&Fit]) -> bool
    ensures { result ≡ is_within (sizes (map (λ f. f.now) fits.now)) }
{
    fits.len() <= MOST_DIMENSIONS && are_short(fits) && cells_over(fits) <= MOST_CELLS
}
