//! A file as it is decoded, with the values of its variables where they lie.
ghost use Rattle.std.specs.Prelude.{◌≡◌, ◌≤◌, ◌%◌, ◌++◌, length, map, take, All, IfOk, IfSome};
ghost use Rattle.xr_types.specs.Widths.{width};
ghost use Rattle.xr_arrays.specs.Pieces.{together, AreInside};
ghost use Rattle.xr_files.specs.Files.{most_bytes};
ghost use Rattle.cdf_reader.specs.Heads.{file_seen, var_seen};
ghost use Rattle.xr_decode.specs.Readable.{IsReadable};
ghost use Rattle.xr_decode.specs.Sought.{values_seen};
ghost use Rattle.xr_decode.specs.Stored.{AreBytes, HoldsBytes};

use crate::sought::{found_in, next_found};
use crate::values::Values;
use bytes::Bytes;
use cdf_reader::{FileHead, is_record, shared_values};
use std::alloc::{AllocError, Global};
use std::marker::Model;
use xr_arrays::Pieces;
use xr_files::{CdfDim, CdfFile, CdfVar, VarHead};
use xr_types::{Attr, Name, NcType};

/// A variable of a file.
#[derive(Drop)]
pub(crate) struct StoredVar<'a> {
    pub name: &'a Name,
    pub dims: &'a [u64],
    pub attrs: &'a [Attr],
    pub kind: NcType,
    pub values: Values<'a>,
}

impl<'a> Model for StoredVar<'a> {
    ghost use Rattle.std.specs.Prelude.{All};
    ghost use Rattle.xr_files.specs.declared.file.CdfVar.{CdfVar};
    ghost use Rattle.xr_decode.specs.Stored.{AreBytes};

    ghost Value = { CdfVar };

    ghost view = { λ v. record { name = v.name.now; dims = v.dims.now; attrs = v.attrs.now; kind = v.kind; raw = v.values } };

    ghost invariant = { λ v. AreBytes v.values };
}

impl<'a> StoredVar<'a> {
    pub(crate) fn new(
        name: &'a Name,
        dims: &'a [u64],
        attrs: &'a [Attr],
        kind: NcType,
        values: Values<'a>,
    ) -> StoredVar<'a>
        ensures { result ≡ record { name = name.now; dims = dims.now; attrs = attrs.now; kind = kind; raw = values.entry } }
    {
        values.are_bytes();
        StoredVar {
            name,
            dims,
            attrs,
            kind,
            values,
        }
    }

    pub(crate) fn name(&self) -> &'a Name
        ensures { result.now ≡ self.now.name }
    {
        self.name
    }

    /// The numbers of its dimensions.
    pub(crate) fn dims(&self) -> &'a [u64]
        ensures { result.now ≡ self.now.dims }
    {
        self.dims
    }

    pub(crate) fn attrs(&self) -> &'a [Attr]
        ensures { result.now ≡ self.now.attrs }
    {
        self.attrs
    }

    pub(crate) fn kind(&self) -> NcType
        ensures { result ≡ self.now.kind }
    {
        self.kind
    }

    /// The bytes of its values, which are shared where they lie together.
    pub(crate) fn raw(&self, alloc: Global) -> Result<Bytes, AllocError>
        ensures { IfOk result (λ r. r ≡ self.now.raw) }
    {
        self.values.raw(alloc)
    }

    /// Its values where they lie: they share the bytes of the file.
    pub(crate) fn pieces(&self, alloc: Global) -> Result<Pieces, AllocError>
        requires { length self.now.raw % width self.now.kind ≡ 0 }
        ensures values { IfOk result (λ p. together self.now.kind p ≡ self.now.raw) }
        ensures inside { IfOk result (AreInside self.now.kind) }
    {
        self.values.pieces(alloc, self.kind)
    }

    /// Its values are bytes.
    pub(crate) fn holds_bytes(&self)
        ensures { HoldsBytes self.now }
    {
        let _ = &self.name;
    }
}

/// A file, the parts of which fit together.
#[derive(Drop)]
pub(crate) struct Source<'a> {
    version: u8,
    numrecs: u64,
    dims: &'a [CdfDim],
    attrs: &'a [Attr],
    vars: Vec<StoredVar<'a>>,
}

impl<'a> Model for Source<'a> {
    ghost use Rattle.std.specs.Prelude.{All};
    ghost use Rattle.xr_files.specs.declared.file.CdfFile.{CdfFile};
    ghost use Rattle.xr_decode.specs.Readable.{IsReadable};
    ghost use Rattle.xr_decode.specs.Stored.{HoldsBytes, file_of, IsSource};

    ghost Value = { CdfFile };

    ghost view = { λ s. file_of s.version s.numrecs s.dims.now s.attrs.now s.vars.items };

    ghost invariant = { λ s. IsSource (file_of s.version s.numrecs s.dims.now s.attrs.now s.vars.items) };
}

// A variable of a file that is read whole.
fn file_var<'a>(var: &'a CdfVar) -> Result<StoredVar<'a>, AllocError>
    ensures { IfOk result (λ v. v ≡ var.now) }
{
    let values = Values::together(var.raw.slice(..)?);
    Ok(StoredVar::new(
        &var.name,
        var.dims.as_slice(),
        var.attrs.as_slice(),
        var.kind,
        values,
    ))
}

// The variables of a file that is read whole.
fn file_vars<'a>(alloc: Global, vars: &'a [CdfVar]) -> Result<Vec<StoredVar<'a>>, AllocError>
    ensures vars { IfOk result (λ v. v.items ≡ vars.now) }
    ensures bytes { IfOk result (λ v. All HoldsBytes v.items) }
{
    let mut stored = Vec::with_capacity(alloc, vars.len())?;
    for var in vars {
        let var = file_var(var)?;
        var.holds_bytes();
        stored.push(var)?;
    }
    Ok(stored)
}

// The values of a variable of a head: those that were found, or else where they lie in the bytes of its file.
fn values_of<'a>(
    bytes: &'a Bytes,
    head: &'a FileHead,
    var: &'a VarHead,
    found: Option<Bytes>,
) -> Result<Values<'a>, AllocError>
    requires short { length bytes.now ≤ most_bytes }
    requires found { IfSome found (λ raw. raw ≡ values_seen bytes.now head.now var.now) }
    ensures { IfOk result (λ v. v ≡ (var_seen bytes.now head.now var.now).raw) }
{
    if let Some(raw) = found {
        return Ok(Values::together(raw));
    }
    if is_record(head.dims.as_slice(), var.dims.as_slice()) {
        return Ok(Values::in_records(bytes, head, var));
    }
    let raw = shared_values(bytes, head, var)?;
    Ok(Values::together(raw))
}

// A variable of a head.
fn head_var<'a>(
    bytes: &'a Bytes,
    head: &'a FileHead,
    var: &'a VarHead,
    found: Option<Bytes>,
) -> Result<StoredVar<'a>, AllocError>
    requires short { length bytes.now ≤ most_bytes }
    requires found { IfSome found (λ raw. raw ≡ values_seen bytes.now head.now var.now) }
    ensures { IfOk result (λ v. v ≡ var_seen bytes.now head.now var.now) }
{
    let values = values_of(bytes, head, var, found)?;
    Ok(StoredVar::new(
        &var.name,
        var.dims.as_slice(),
        var.attrs.as_slice(),
        var.kind,
        values,
    ))
}

// The variables of a head.
fn head_vars<'a>(
    alloc: Global,
    bytes: &'a Bytes,
    head: &'a FileHead,
) -> Result<Vec<StoredVar<'a>>, AllocError>
    requires { length bytes.now ≤ most_bytes }
    ensures vars { IfOk result (λ v. v.items ≡ map (var_seen bytes.now head.now) head.now.vars) }
    ensures bytes { IfOk result (λ v. All HoldsBytes v.items) }
{
    let heads = head.vars.as_slice();
    let mut found = found_in(alloc, bytes, head)?;
    let mut stored = Vec::with_capacity(alloc, heads.len())?;
    for head_of_var in heads {
        let values = next_found(head, head_of_var, &mut found);
        let var = head_var(bytes, head, head_of_var, values)?;
        var.holds_bytes();
        stored.push(var)?;
    }
    Ok(stored)
}

impl<'a> Source<'a> {
    /// A file that is read whole. Its values are shared.
    pub(crate) fn of_file(alloc: Global, file: &'a CdfFile) -> Result<Source<'a>, AllocError>
        requires { IsReadable file.now }
        ensures { IfOk result (λ s. s ≡ file.now) }
    {
        let vars = file_vars(alloc, file.vars.as_slice())?;
        Ok(Source {
            version: file.version,
            numrecs: file.numrecs,
            dims: file.dims.as_slice(),
            attrs: file.attrs.as_slice(),
            vars,
        })
    }

    /// The file of which the bytes and the head are these.
    pub(crate) fn of_head(
        alloc: Global,
        bytes: &'a Bytes,
        head: &'a FileHead,
    ) -> Result<Source<'a>, AllocError>
        requires short { length bytes.now ≤ most_bytes }
        requires readable { IsReadable (file_seen bytes.now head.now) }
        ensures { IfOk result (λ s. s ≡ file_seen bytes.now head.now) }
    {
        let vars = head_vars(alloc, bytes, head)?;
        Ok(Source {
            version: head.version,
            numrecs: head.numrecs,
            dims: head.dims.as_slice(),
            attrs: head.attrs.as_slice(),
            vars,
        })
    }

    pub(crate) fn numrecs(&self) -> u64
        ensures { result ≡ self.now.numrecs }
    {
        self.numrecs
    }

    pub(crate) fn dims(&self) -> &'a [CdfDim]
        ensures { result.now ≡ self.now.dims }
    {
        self.dims
    }

    pub(crate) fn attrs(&self) -> &'a [Attr]
        ensures { result.now ≡ self.now.attrs }
    {
        self.attrs
    }

    pub(crate) fn vars(&self) -> &[StoredVar<'a>]
        ensures vars { result.now ≡ self.now.vars }
        ensures readable { IsReadable self.now }
        ensures bytes { All HoldsBytes self.now.vars }
    {
        &self.vars
    }
}
