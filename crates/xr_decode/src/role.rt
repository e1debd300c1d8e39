//! What a variable of a file becomes.
ghost use Rattle.std.specs.Prelude.{◌≡◌, ◌++◌, List, ℕ, flat_map, map, IfOk, OnOk};
ghost use Rattle.xr_files.specs.declared.file.CdfVar.{CdfVar};
ghost use Rattle.xr_files.specs.declared.file.CdfDim.{CdfDim as Dim};
ghost use Rattle.xr_types.specs.Names.{among};
ghost use Rattle.xr_defs.specs.Decoding.{is_skipped, is_index, is_coordinate, coordinate_names, listed_in};
ghost use Rattle.xr_decode.specs.Listed.{Lists};
ghost use Rattle.xr_decode.specs.Readable.{IsReadableVar};
ghost use Rattle.xr_decode.specs.Roles.{IsRole, is_counted};

use crate::labels::is_index;
use crate::listed::{Listed, add_listed, is_listed, none_listed};
use crate::skip::is_skipped;
use crate::stored::{Source, StoredVar};
use std::alloc::Global;
use xr_files::CdfDim;
use xr_types::{Name, NoMemory};

/// What a variable becomes.
#[derive(Clone, Copy, PartialEq, Eq)]
pub enum Role {
    /// It isn't loaded.
    Skipped,
    Index,
    Coordinate,
    /// A data variable.
    Data,
}

impl Role {
    /// Whether it is one of those of which a dataset may have no more than a limit.
    pub(crate) fn is_counted(self) -> bool
        ensures { result ≡ is_counted self }
    {
        matches!(self, Role::Coordinate | Role::Data)
    }
}

fn add_all_listed<'a>(
    alloc: Global,
    listed: &mut Listed<'a>,
    vars: &[StoredVar<'a>],
) -> Result<(), NoMemory>
    ensures { OnOk result ((names : List (List ℕ)) → Lists listed.old names → Lists listed.new (names ++ flat_map (λ (v : CdfVar). listed_in v.attrs) vars.now)) }
{
    for var in vars {
        add_listed(alloc, listed, var.attrs())?;
    }
    Ok(())
}

/// The names that the attributes of a file and of its variables list as coordinates.
pub(crate) fn coordinate_names<'a>(
    alloc: Global,
    source: &Source<'a>,
) -> Result<Listed<'a>, NoMemory>
    ensures { IfOk result (λ m. Lists m (coordinate_names source.now)) }
{
    let mut listed = none_listed(alloc);
    add_all_listed(alloc, &mut listed, source.vars())?;
    add_listed(alloc, &mut listed, source.attrs())?;
    Ok(listed)
}

fn is_dimension(dims: &[CdfDim], name: &Name) -> bool
    ensures { result ≡ among (map (λ (d : Dim). d.name) dims.now) name.now }
{
    for dim in dims {
        if name.is(&dim.name) {
            return true;
        }
    }
    false
}

#[tactic(auto, unfolding(xr_defs::specs::Decoding::is_coordinate))]
fn is_coordinate(source: &Source<'_>, listed: &Listed<'_>, var: &StoredVar<'_>) -> bool
    requires { Lists listed.now (coordinate_names source.now) }
    ensures { result ≡ is_coordinate source.now var.now }
{
    is_listed(listed, var.name()) && !is_dimension(source.dims(), var.name())
}

/// What a variable becomes. `listed` are the names that are listed in its file.
pub(crate) fn role_of(
    alloc: Global,
    source: &Source<'_>,
    listed: &Listed<'_>,
    var: &StoredVar<'_>,
) -> Result<Role, NoMemory>
    requires readable { IsReadableVar source.now var.now }
    requires listed { Lists listed.now (coordinate_names source.now) }
    ensures { IfOk result (IsRole source.now var.now) }
{
    if is_skipped(source, var) {
        return Ok(Role::Skipped);
    }
    if is_index(alloc, source, var)? {
        return Ok(Role::Index);
    }
    if is_coordinate(source, listed, var) {
        return Ok(Role::Coordinate);
    }
    Ok(Role::Data)
}
