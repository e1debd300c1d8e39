//! The variables whose cells a dataset holds itself: indexes and other coordinates.
ghost use Rattle.std.specs.Prelude.{◌≡◌, Ok, map};
ghost use Rattle.std.specs.List.{filter_map, AllByRecursion};
ghost use Rattle.xr_types.specs.Results.{Answers, all_of};
ghost use Rattle.xr_defs.specs.Encoding.{stored_index, stored_labels, stored_coord, check_fit};
ghost use Rattle.xr_defs.specs.WellFormed.{AreLabels, IsDimension};
ghost use Rattle.xr_encode.specs.Walk.{var_checked, vars_from, Puts, HasContent};

use crate::counts::counted;
use crate::filled::array_var;
use crate::outline::{coord_outline, labels_outline};
use crate::plain::{integers_var, run_var, texts_var};
use std::alloc::Global;
use std::slice::from_ref;
use xr_defs::{Content, Coord, WriteOptions};
use xr_files::{CdfDim, CdfVar};
use xr_types::{Axis, CallFault, Items, LabelList, Labels, Name};

// The variable of the labels of an axis.
#[tactic(auto, using(crate::proofs::Runs::themselves))]
fn index_var(
    alloc: Global,
    dims: &[CdfDim],
    options: &WriteOptions,
    name: &Name,
    labels: &Labels,
    small: bool,
) -> Result<CdfVar, CallFault>
    requires { AreLabels labels.now.list }
    ensures { Answers (λ v. v) result (var_checked small dims.now options.now (stored_labels name.now labels.now.attrs labels.now.list)) }
{
    let outline = labels_outline(alloc, name, labels.attrs.as_slice(), &labels.list)?;
    match &labels.list {
        LabelList::Numbers(_, numbers) => {
            integers_var(alloc, dims, options, &outline, numbers, small)
        }
        LabelList::Times(coding, times) => {
            let run = counted(coding.units, times.as_slice());
            run_var(alloc, dims, options, &outline, run, small)
        }
        LabelList::Texts(texts) => {
            texts_var(alloc, dims, options, &outline, texts.as_slice(), small)
        }
    }
}

/// Adds the variables of the labels of axes, each checked before it is written.
pub fn push_indexes(
    alloc: Global,
    vars: &mut Items<CdfVar>,
    dims: &[CdfDim],
    options: &WriteOptions,
    axes: &[Axis],
    small: bool,
) -> Result<(), CallFault>
    requires { AllByRecursion IsDimension axes.now }
    ensures { Puts result vars.new (vars_from small dims.now options.now vars.old (filter_map stored_index axes.now)) }
{
    for axis in axes {
        if let Some(labels) = &axis.labels {
            vars.push(index_var(alloc, dims, options, &axis.name, labels, small)?)?;
        }
    }
    Ok(())
}

// The variable of a coordinate that is no index.
#[tactic(auto, using(crate::proofs::Runs::themselves))]
fn coord_var(
    alloc: Global,
    dims: &[CdfDim],
    options: &WriteOptions,
    coord: &Coord,
    small: bool,
) -> Result<CdfVar, CallFault>
    requires content { HasContent coord.now }
    requires fit { check_fit options.now (stored_coord coord.now) ≡ Ok tt }
    ensures { Answers (λ v. v) result (var_checked small dims.now options.now (stored_coord coord.now)) }
{
    let outline = coord_outline(alloc, coord)?;
    match &coord.content {
        Content::Cells(array, _) => array_var(alloc, dims, options, &outline, array, small),
        Content::Text(text) => texts_var(alloc, dims, options, &outline, from_ref(text), small),
        Content::Time(coding, time) => {
            let run = counted(coding.units, from_ref(time));
            run_var(alloc, dims, options, &outline, run, small)
        }
    }
}

/// Adds the variables of coordinates, each checked before it is written.
pub fn push_coords(
    alloc: Global,
    vars: &mut Items<CdfVar>,
    dims: &[CdfDim],
    options: &WriteOptions,
    coords: &[&Coord],
    small: bool,
) -> Result<(), CallFault>
    requires content { AllByRecursion HasContent (map (λ c. c.now) coords.now) }
    requires fit { all_of (check_fit options.now) (map stored_coord (map (λ c. c.now) coords.now)) ≡ Ok tt }
    ensures { Puts result vars.new (vars_from small dims.now options.now vars.old (map stored_coord (map (λ c. c.now) coords.now))) }
{
    for coord in coords {
        vars.push(coord_var(alloc, dims, options, coord, small)?)?;
    }
    Ok(())
}
