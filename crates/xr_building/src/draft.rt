//! Axes and coordinates with what entries come to.
ghost use Rattle.std.specs.Prelude.{◌≡◌, ◌<◌, true, length, map, IfOk, IfSome};
ghost use Rattle.std.specs.List.{list_all};
ghost use Rattle.xr_types.specs.Kinds.{in_range};
ghost use Rattle.xr_types.specs.Results.{unless, all_of, Answers};
ghost use Rattle.xr_types.specs.declared.fault.Fault.TheVariants.{DoesNotFit};
ghost use Rattle.xr_types.specs.declared.kind.DType.TheVariants as kinds;
ghost use Rattle.xr_types.specs.declared.axis.Axis.{Axis as Dimension};
ghost use Rattle.xr_defs.specs.Building as of;
ghost use Rattle.xr_defs.specs.Selecting.{axis_called};
ghost use Rattle.xr_building.specs.Puts.{after, check_put, coord_place, frame_of, labels_fit, labels_of, number_coord, over_called, put_on};

use crate::axes::axis_called;
use crate::cells::array_value;
use crate::puts::{NewLabels, Put};
use std::alloc::{AllocError, Global};
use xr_defs::{Content, Coord};
use xr_formulas::fits;
use xr_types::{
    Axis, CallFault, DType, DeepCopy, Fault, Integers, Items, LabelList, Labels, TextBytes,
};
use xr_values::{copy_content, copy_coord};

/// Axes with the coordinates over them.
#[derive(Drop)]
pub struct Draft {
    pub axes: Items<Axis>,
    pub coords: Items<Coord>,
}

// ---- labels

// An axis with these labels where it has the name.
fn relabelled(
    alloc: Global,
    axis: &Axis,
    name: &TextBytes,
    labels: &Labels,
) -> Result<Axis, AllocError>
    ensures { IfOk result (λ x. x ≡ of.relabelled name.now labels.now axis.now) }
{
    if axis.name.is(name) {
        Ok(Axis {
            name: axis.name.deep_copy(alloc)?,
            size: axis.size,
            labels: Some(labels.deep_copy(alloc)?),
        })
    } else {
        axis.deep_copy(alloc)
    }
}

fn axes_relabelled(
    alloc: Global,
    axes: &[Axis],
    name: &TextBytes,
    labels: &Labels,
) -> Result<Items<Axis>, AllocError>
    ensures { IfOk result (λ xs. xs ≡ map (of.relabelled name.now labels.now) axes.now) }
{
    let mut out = Items::new(alloc);
    for axis in axes {
        out.push(relabelled(alloc, axis, name, labels)?)?;
    }
    Ok(out)
}

fn coords_relabelled(
    alloc: Global,
    coords: &[Coord],
    name: &TextBytes,
    labels: &Labels,
) -> Result<Items<Coord>, AllocError>
    ensures { IfOk result (λ cs. cs ≡ map (of.coord_relabelled name.now labels.now) coords.now) }
{
    let mut out = Items::new(alloc);
    for coord in coords {
        out.push(Coord {
            name: coord.name.deep_copy(alloc)?,
            axes: axes_relabelled(alloc, coord.axes.as_slice(), name, labels)?,
            attrs: coord.attrs.deep_copy(alloc)?,
            content: copy_content(alloc, &coord.content)?,
        })?;
    }
    Ok(out)
}

// Refuses a number that 64 bits don't hold.
#[tactic(auto, using(crate::proofs::Fitting::fits_in_range), unfolding(xr_types::specs::Results::unless))]
fn integers(alloc: Global, numbers: &[i128]) -> Result<Integers, CallFault>
    ensures fit { Answers (λ ns. tt) result (unless (list_all (in_range kinds.Int64) numbers.now) DoesNotFit) }
    ensures same { IfOk result (λ ns. ns ≡ numbers.now) }
{
    let mut out = Items::new(alloc);
    for number in numbers {
        if !fits(DType::Int64, *number) {
            return Err(CallFault::Refused(Fault::DoesNotFit));
        }
        out.push(*number as i64)?;
    }
    let integers = Integers::signed(alloc, out)?;
    Ok(integers)
}

#[tactic(auto, unfolding(xr_types::specs::Results::unless))]
fn labels_of(alloc: Global, labels: &NewLabels) -> Result<Labels, CallFault>
    ensures fit { Answers (λ l. tt) result (unless (labels_fit labels.now) DoesNotFit) }
    ensures same { IfOk result (λ l. l ≡ labels_of labels.now) }
{
    match labels {
        NewLabels::Numbers(numbers) => Ok(Labels {
            list: LabelList::Numbers(DType::Int64, integers(alloc, numbers.as_slice())?),
            attrs: Items::new(alloc),
        }),
        NewLabels::Labels(labels) => Ok(labels.deep_copy(alloc)?),
    }
}

// ---- coordinates

#[tactic(auto, unfolding(crate::specs::Puts::coord_place))]
fn coord_place(coords: &[Coord], name: &TextBytes) -> Option<usize>
    ensures place { result ≡ coord_place coords.now name.now }
    ensures inside { IfSome result (λ k. k < length coords.now) }
{
    coords.iter().position(|coord| coord.name.is(name))
}

// A coordinate of one number, which 64 bits have to hold.
#[tactic(auto, using(crate::proofs::Fitting::one_in_range), unfolding(xr_types::specs::Results::unless))]
fn number_coord(alloc: Global, name: &TextBytes, n: i128) -> Result<Coord, CallFault>
    ensures fit { Answers (λ c. tt) result (unless (in_range kinds.Int64 n) DoesNotFit) }
    ensures same { IfOk result (λ c. c ≡ number_coord name.now n) }
{
    if !fits(DType::Int64, n) {
        return Err(CallFault::Refused(Fault::DoesNotFit));
    }
    let cells = array_value(
        alloc,
        DType::Int64,
        Items::new(alloc),
        false,
        [Some(n)].as_slice(),
    )?;
    Ok(Coord {
        name: name.deep_copy(alloc)?,
        axes: Items::new(alloc),
        attrs: Items::new(alloc),
        content: Content::Cells(cells, false),
    })
}

fn axes_called(alloc: Global, axes: &[Axis], own: &[Axis]) -> Result<Items<Axis>, AllocError>
    ensures { IfOk result (λ xs. xs ≡ map (λ (x : Dimension). axis_called axes.now x.name) own.now) }
{
    let mut out = Items::new(alloc);
    for axis in own {
        out.push(axis_called(alloc, axes, &axis.name)?)?;
    }
    Ok(out)
}

fn over_called(alloc: Global, axes: &[Axis], coord: &Coord) -> Result<Coord, AllocError>
    ensures { IfOk result (λ c. c ≡ over_called axes.now coord.now) }
{
    let own = axes_called(alloc, axes, coord.axes.as_slice())?;
    let mut coord = copy_coord(alloc, coord)?;
    coord.axes = own;
    Ok(coord)
}

// In the place of the one of its name, or at the end.
#[tactic(auto, using(crate::proofs::After::put_there, crate::proofs::After::put_behind))]
fn with_coord(draft: Draft, coord: Coord) -> Result<Draft, AllocError>
    ensures { IfOk result (λ d. frame_of d ≡ record { axes = draft.axes; coords = of.with_coord draft.coords coord }) }
{
    let mut draft = draft;
    match coord_place(draft.coords.as_slice(), &coord.name) {
        Some(k) => draft.coords.set(k, coord),
        None => draft.coords.push(coord)?,
    }
    Ok(draft)
}

// ---- both

#[tactic(auto, unfolding(xr_types::specs::Results::unless))]
fn with_put(alloc: Global, draft: Draft, put: &Put) -> Result<Draft, CallFault>
    ensures fit { Answers (λ d. tt) result (check_put put.now) }
    ensures frame { IfOk result (λ d. frame_of d ≡ put_on (frame_of draft) put.now) }
{
    match put {
        Put::Labels(name, labels) => {
            let labels = labels_of(alloc, labels)?;
            Ok(Draft {
                axes: axes_relabelled(alloc, draft.axes.as_slice(), name, &labels)?,
                coords: coords_relabelled(alloc, draft.coords.as_slice(), name, &labels)?,
            })
        }
        Put::Number(name, n) => {
            let coord = number_coord(alloc, name, *n)?;
            Ok(with_coord(draft, coord)?)
        }
        Put::Coord(coord) => {
            let coord = over_called(alloc, draft.axes.as_slice(), coord)?;
            Ok(with_coord(draft, coord)?)
        }
    }
}

/// Axes and coordinates with these puts.
///
/// # Errors
/// `DoesNotFit` for a number that 64 bits don't hold.
pub fn with_puts(alloc: Global, draft: Draft, puts: &[Put]) -> Result<Draft, CallFault>
    ensures fit { Answers (λ d. tt) result (all_of check_put puts.now) }
    ensures frame { IfOk result (λ d. frame_of d ≡ after (frame_of draft) puts.now) }
{
    let mut draft = draft;
    for put in puts {
        draft = with_put(alloc, draft, put)?;
    }
    Ok(draft)
}
