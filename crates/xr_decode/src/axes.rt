//! The axes of a file and of its variables.
ghost use Rattle.std.specs.Prelude.{◌≡◌, ◌<◌, ◌++◌, All, List, map, take, drop, find, length, option_map, IfOk, IfSome};
ghost use Rattle.std.specs.List.{Contains};
ghost use Rattle.std.specs.Str.{bytes_eq};
ghost use Rattle.xr_files.specs.declared.file.CdfVar.{CdfVar};
ghost use Rattle.xr_files.specs.Classic.{dim_at};
ghost use Rattle.xr_defs.specs.Decoding.{loaded_in, index_among, axis_in, var_axes};
ghost use Rattle.xr_defs.specs.Values.{chosen, no_axis};
ghost use Rattle.xr_decode.specs.Readable.{IsReadableVar};

use crate::labels::index_in;
use crate::shapes::positions;
use crate::skip::is_skipped;
use crate::stored::{Source, StoredVar};
use std::alloc::{AllocError, Global};
use xr_files::CdfDim;
use xr_types::{Axis, DeepCopy, Items, Labels, Name, NoMemory};

// The loaded variable of a name.
fn find_loaded<'s, 'a>(
    source: &Source<'a>,
    name: &Name,
    vars: &'s [StoredVar<'a>],
) -> Option<&'s StoredVar<'a>>
    ensures found { option_map (λ v. v.now) result ≡ find (λ (v : CdfVar). bytes_eq v.name name.now) (loaded_in source.now vars.now) }
    ensures one { IfSome result (λ v. Contains vars.now v.now) }
{
    for var in vars {
        if var.name().is(name) && !is_skipped(source, var) {
            return Some(var);
        }
    }
    None
}

// The index that the loaded variable of a name holds.
#[tactic(auto, using(crate::proofs::Readable::one_of_all))]
fn index_among(
    alloc: Global,
    source: &Source<'_>,
    name: &Name,
    vars: &[StoredVar<'_>],
) -> Result<Option<Labels>, NoMemory>
    requires { All (IsReadableVar source.now) vars.now }
    ensures { IfOk result (λ o. o ≡ index_among source.now name.now vars.now) }
{
    match find_loaded(source, name, vars) {
        Some(var) => index_in(alloc, source, var),
        None => Ok(None),
    }
}

fn axis_in(alloc: Global, source: &Source<'_>, dim: &CdfDim) -> Result<Axis, NoMemory>
    ensures { IfOk result (λ x. x ≡ axis_in source.now dim.now) }
{
    let name = dim.name.deep_copy(alloc)?;
    let labels = index_among(alloc, source, &dim.name, source.vars())?;
    Ok(Axis {
        name,
        size: positions(source.numrecs(), dim),
        labels,
    })
}

/// All axes of a file.
pub(crate) fn axes_of(alloc: Global, source: &Source<'_>) -> Result<Items<Axis>, NoMemory>
    ensures { IfOk result (λ xs. xs ≡ map (axis_in source.now) source.now.dims) }
{
    let mut axes = Items::new(alloc);
    for dim in source.dims() {
        axes.push(axis_in(alloc, source, dim)?)?;
    }
    Ok(axes)
}

/// The axes of a variable, from those of its file.
pub(crate) fn axes_at(alloc: Global, axes: &[Axis], ids: &[u64]) -> Result<Items<Axis>, AllocError>
    requires { All (λ i. i < length axes.now) ids.now }
    ensures { IfOk result (λ xs. xs ≡ chosen no_axis axes.now ids.now) }
{
    let mut chosen = Items::new(alloc);
    for id in ids {
        chosen.push(axes[*id as usize].deep_copy(alloc)?)?;
    }
    Ok(chosen)
}
