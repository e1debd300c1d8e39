//! The variables of a header, and the header.
ghost use Rattle.std.specs.Prelude.{◌≡◌, ◌++◌, ◌∷◌, [], ℕ, List, length, IfOk};
ghost use Rattle.xr_files.specs.Format.{each};
ghost use Rattle.xr_files.specs.Classic.{list, is_dim_number, dim_number, var_names, var_head, variable, header};
ghost use Rattle.cdf_reader.specs.Answers.{Reads, Gives};
ghost use Rattle.cdf_reader.specs.Names.{Knows};
ghost use Rattle.cdf_reader.specs.Parts.{header_of};

use crate::fault::WalkFault;
use crate::fields::{count_at, numrecs_at, place_at, type_at};
use crate::lists::{attributes_at, dimensions_at, entries_at, tag_at};
use crate::names::{Known, new_name_at, none_known};
use std::alloc::Global;
use xr_files::{CdfDim, Stop, VarHead};
use xr_types::{Attr, CdfKind, Items, TextBytes};

/// What stands in a header. The number of records is none in a streamed file.
#[derive(Drop)]
pub(crate) struct HeaderParts {
    pub numrecs: Option<u64>,
    pub dims: Items<CdfDim>,
    pub attrs: Items<Attr>,
    pub vars: Items<VarHead>,
}

fn is_number_of(dims: &[CdfDim], place: usize, n: u64) -> bool
    ensures { result ≡ is_dim_number dims.now place n }
{
    match dims.get(n as usize) {
        Some(d) => place == 0 || d.len != 0,
        None => false,
    }
}

#[tactic(auto, unfolding(xr_files::specs::Classic::dim_number))]
fn dim_number_at<'a>(
    version: u8,
    dims: &[CdfDim],
    seen: &[u64],
    bytes: &'a [u8],
) -> Result<(u64, &'a [u8]), Stop>
    ensures { Reads (λ x. (x.0, x.1.now)) result ((dim_number version dims.now seen.now).reads bytes.now) }
{
    let (n, rest) = count_at(version, bytes)?;
    if !is_number_of(dims, seen.len(), n) {
        return Err(Stop {
            kind: CdfKind::BadDimension,
            left: bytes.len(),
        });
    }
    Ok((n, rest))
}

fn dim_numbers_in<'a>(
    alloc: Global,
    version: u8,
    dims: &[CdfDim],
    rank: u64,
    bytes: &'a [u8],
) -> Result<(Items<u64>, &'a [u8]), WalkFault>
    ensures { Gives (λ x. (x.0, x.1.now)) result ((each rank (dim_number version dims.now) []).reads bytes.now) }
{
    let mut seen = Items::new(alloc);
    let mut rest = bytes;
    for _ in 0..rank {
        let (one, after) = dim_number_at(version, dims, seen.as_slice(), rest)?;
        seen.push(one)?;
        rest = after;
    }
    Ok((seen, rest))
}

#[tactic(auto, unfolding(xr_files::specs::Classic::var_head))]
fn var_head_at<'a>(
    alloc: Global,
    version: u8,
    dims: &[CdfDim],
    text: &str,
    bytes: &'a [u8],
) -> Result<(VarHead, &'a [u8]), WalkFault>
    ensures read { Gives (λ x. (x.0, x.1.now)) result ((var_head version dims.now text.now).reads bytes.now) }
    ensures named { IfOk result (λ x. x.0.name ≡ text.now) }
{
    let (rank, rest) = count_at(version, bytes)?;
    let (ids, rest) = dim_numbers_in(alloc, version, dims, rank, rest)?;
    let (attrs, rest) = attributes_at(alloc, version, rest)?;
    let (kind, rest) = type_at(version, rest)?;
    let (_, rest) = count_at(version, rest)?;
    let (begin, rest) = place_at(version, rest)?;
    let name = TextBytes::from_str(alloc, text)?;
    let head = VarHead {
        name,
        dims: ids,
        attrs,
        kind,
        begin,
    };
    Ok((head, rest))
}

#[tactic(auto, unfolding(xr_files::specs::Classic::variable))]
fn variable_at<'a>(
    alloc: Global,
    version: u8,
    dims: &[CdfDim],
    known: &mut Known<'a>,
    seen: &[VarHead],
    bytes: &'a [u8],
) -> Result<(VarHead, &'a [u8]), WalkFault>
    requires { Knows known.old (var_names seen.now) }
    ensures read { Gives (λ x. (x.0, x.1.now)) result ((variable version dims.now seen.now).reads bytes.now) }
    ensures known { IfOk result (λ x. Knows known.new (var_names seen.now ++ x.0.name ∷ [])) }
{
    let (text, rest) = new_name_at(version, known, bytes)?;
    var_head_at(alloc, version, dims, text, rest)
}

fn variables_in<'a>(
    alloc: Global,
    version: u8,
    dims: &[CdfDim],
    count: u64,
    bytes: &'a [u8],
) -> Result<(Items<VarHead>, &'a [u8]), WalkFault>
    ensures { Gives (λ x. (x.0, x.1.now)) result ((each count (variable version dims.now) []).reads bytes.now) }
{
    let mut known = none_known(alloc);
    let mut seen = Items::new(alloc);
    let mut rest = bytes;
    for _ in 0..count {
        let (one, after) = variable_at(alloc, version, dims, &mut known, seen.as_slice(), rest)?;
        seen.push(one)?;
        rest = after;
    }
    Ok((seen, rest))
}

#[tactic(auto, unfolding(xr_files::specs::Classic::list))]
fn variables_at<'a>(
    alloc: Global,
    version: u8,
    dims: &[CdfDim],
    bytes: &'a [u8],
) -> Result<(Items<VarHead>, &'a [u8]), WalkFault>
    ensures { Gives (λ x. (x.0, x.1.now)) result ((list version 11 (variable version dims.now)).reads bytes.now) }
{
    let (tag, rest) = tag_at(11, bytes)?;
    let (count, rest) = entries_at(version, tag, rest)?;
    variables_in(alloc, version, dims, count, rest)
}

/// The header behind the magic.
#[tactic(auto, unfolding(xr_files::specs::Classic::header))]
pub(crate) fn header_at<'a>(
    alloc: Global,
    version: u8,
    bytes: &'a [u8],
) -> Result<(HeaderParts, &'a [u8]), WalkFault>
    ensures { Gives (λ x. (header_of x.0, x.1.now)) result ((header version).reads bytes.now) }
{
    let (numrecs, rest) = numrecs_at(version, bytes)?;
    let (dims, rest) = dimensions_at(alloc, version, rest)?;
    let (attrs, rest) = attributes_at(alloc, version, rest)?;
    let (vars, rest) = variables_at(alloc, version, dims.as_slice(), rest)?;
    let parts = HeaderParts {
        numrecs,
        dims,
        attrs,
        vars,
    };
    Ok((parts, rest))
}
