//! From a dataset to its file.
ghost use Rattle.std.specs.Prelude.{◌≡◌, ℕ, List, true, false, map, Ok, IfOk};
ghost use denote.Param.Send.{IsSync};
ghost use Rattle.xr_types.specs.Results.{Answers, all_of};
ghost use Rattle.xr_files.specs.Canonical.{IsFile, can_hold, is_small};
ghost use Rattle.xr_files.specs.Files.{is_version};
ghost use Rattle.xr_defs.specs.Printing.{by_name};
ghost use Rattle.xr_defs.specs.Encoding.{check_fit, file_of};
ghost use Rattle.xr_arrays.specs.declared.node.Node.{Node};
ghost use Rattle.xr_values.specs.Stands.{dataset_in, IsDatasetIn};
ghost use Rattle.xr_encode.specs.Outlines.{without_cells};
ghost use Rattle.xr_encode.specs.Sets.{outlines_of};
ghost use Rattle.xr_encode.specs.Encoded.{file_in, Follows};
ghost use Rattle.xr_encode.specs.Frames.{parts_of, parts_checked, vars_walked, file_walked};

use crate::check::{check_fills, check_fits, check_names, check_records, check_unlimited};
use crate::computed::push_variables;
use crate::coords::by_name;
use crate::frame::frame_of;
use crate::held::{push_coords, push_indexes};
use crate::parts::{Parts, parts_of};
use crate::size::is_small;
use crate::widths::read_widths;
use plan_core::Compute;
use std::alloc::Global;
use std::thread::Threads;
use xr_defs::{Coord, WriteOptions};
use xr_files::{CdfDim, CdfFile, CdfVar};
use xr_types::{CallFault, Fault, Items};
use xr_values::{Cx, Dataset};

// The checks that look at no cells.
#[tactic(auto, unfolding(crate::specs::Frames::parts_checked))]
fn check_parts(
    alloc: Global,
    set: &Dataset,
    parts: &Parts,
    options: &WriteOptions,
) -> Result<(), CallFault>
    ensures { Answers (λ u. u) result (parts_checked set.now parts.now options.now) }
{
    let axes = set.axes.as_slice();
    let outlines = parts.outlines.as_slice();
    check_unlimited(alloc, axes, options)?;
    check_names(
        alloc,
        axes,
        parts.widths.as_slice(),
        outlines,
        set.attrs.as_slice(),
        parts.unlisted.as_slice(),
        options,
    )?;
    check_records(
        alloc,
        axes,
        outlines,
        set.coords.as_slice(),
        set.attrs.as_slice(),
        options,
    )?;
    check_fills(alloc, options, outlines)?;
    check_fits(alloc, options, outlines)
}

// The variables, each checked before it is written; of a file that is too large they get no values.
#[tactic(auto, unfolding(crate::specs::Frames::vars_walked))]
fn vars_of<R: Threads + Sync, C: Compute>(
    rt: &R,
    alloc: Global,
    cx: &mut Cx<C>,
    dims: &[CdfDim],
    options: &WriteOptions,
    set: &Dataset,
    sorted: &[&Coord],
    small: bool,
) -> Result<Items<CdfVar>, CallFault>
    requires sync { IsSync R.row }
    requires set { IsDatasetIn cx.old.plan set.now }
    requires sorted { map (λ c. c.now) sorted.now ≡ by_name set.now.coords }
    requires fit { all_of (check_fit options.now) (map without_cells (outlines_of set.now)) ≡ Ok tt }
    ensures told { Follows result (vars_walked (C.declines cx.old.compute cx.old.plan) cx.old.plan small dims.now options.now set.now) }
    ensures plan { cx.new.plan ≡ cx.old.plan }
    ensures keeps { (nodes : List Node) (n : ℕ) → C.declines cx.new.compute nodes n ≡ C.declines cx.old.compute nodes n }
{
    let mut vars = Items::new(alloc);
    push_indexes(alloc, &mut vars, dims, options, set.axes.as_slice(), small)?;
    push_coords(alloc, &mut vars, dims, options, sorted, small)?;
    push_variables(
        rt,
        alloc,
        cx,
        &mut vars,
        dims,
        options,
        set.coords.as_slice(),
        set.vars.as_slice(),
        small,
    )?;
    Ok(vars)
}

// The file of these parts.
#[tactic(auto, unfolding(crate::specs::Frames::file_walked, xr_types::specs::Results::unless))]
fn encode_parts<R: Threads + Sync, C: Compute>(
    rt: &R,
    alloc: Global,
    cx: &mut Cx<C>,
    set: &Dataset,
    sorted: &[&Coord],
    parts: &Parts,
    options: &WriteOptions,
) -> Result<CdfFile, CallFault>
    requires sync { IsSync R.row }
    requires set { IsDatasetIn cx.old.plan set.now }
    requires sorted { map (λ c. c.now) sorted.now ≡ by_name set.now.coords }
    requires parts { parts.now ≡ parts_of set.now }
    ensures told { Follows result (file_walked (C.declines cx.old.compute cx.old.plan) cx.old.plan set.now parts.now options.now) }
    ensures plan { cx.new.plan ≡ cx.old.plan }
    ensures keeps { (nodes : List Node) (n : ℕ) → C.declines cx.new.compute nodes n ≡ C.declines cx.old.compute nodes n }
{
    check_parts(alloc, set, parts, options)?;
    let frame = frame_of(alloc, set, parts, options)?;
    let small = is_small(&frame);
    let dims = frame.dims.as_slice();
    let vars = vars_of(rt, alloc, cx, dims, options, set, sorted, small)?;
    if !small {
        return Err(CallFault::Refused(Fault::TooLarge));
    }
    Ok(CdfFile {
        version: frame.version,
        numrecs: frame.numrecs,
        dims: frame.dims,
        attrs: frame.attrs,
        vars,
    })
}

/// The classic file of a dataset of the plan, or why there is none (CF Conventions; xarray, `Dataset.to_netcdf`).
///
/// The first fault in this order is the answer: the dimension that is asked for isn't there; a name would stand twice;
/// the version has no place for the record dimensions, or not the type of an attribute; a masked variable has no number for its missing cells; a number
/// that stands for them doesn't fit; variable by variable in the order of the file a number that its type doesn't
/// hold, or one that would read as missing; the file is too large. The cells of a data variable are computed when its
/// turn comes, and where its node is declined that is the answer. The plan stays as it is.
///
/// Times are written as counts of their own unit where all of a variable are whole, else of the first of days, hours, minutes and
/// seconds in which all are, from the reference as its text gives it.
pub fn encode_set<R: Threads + Sync, C: Compute>(
    rt: &R,
    alloc: Global,
    cx: &mut Cx<C>,
    set: &Dataset,
    options: &WriteOptions,
) -> Result<CdfFile, CallFault>
    requires sync { IsSync R.row }
    requires set { IsDatasetIn cx.old.plan set.now }
    requires version { is_version options.now.version ≡ true }
    ensures told { Follows result (file_in (C.declines cx.old.compute cx.old.plan) cx.old.plan set.now options.now) }
    ensures undeclined { ((n : ℕ) → C.declines cx.old.compute cx.old.plan n ≡ false) → Answers (λ f. f) result (file_of (dataset_in cx.old.plan set.now) options.now) }
    ensures file { IfOk result IsFile }
    ensures held { IfOk result (λ f. can_hold f ≡ true) }
    ensures small { IfOk result (λ f. is_small f ≡ true) }
    ensures plan { cx.new.plan ≡ cx.old.plan }
    ensures keeps { (nodes : List Node) (n : ℕ) → C.declines cx.new.compute nodes n ≡ C.declines cx.old.compute nodes n }
{
    let sorted = by_name(alloc, set.coords.as_slice())?;
    let parts = parts_of(alloc, set, sorted.as_slice())?;
    read_widths(parts.widths.as_slice());
    encode_parts(rt, alloc, cx, set, sorted.as_slice(), &parts, options)
}
