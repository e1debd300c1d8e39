//! The lists of a header: dimensions and attributes.
ghost use Rattle.std.specs.Prelude.{◌≡◌, ◌==◌, ◌||◌, ◌++◌, ◌∷◌, [], ℕ, List, not, IfOk};
ghost use Rattle.std.specs.List.{list_any};
ghost use Rattle.xr_types.specs.declared.fault.CdfKind.TheVariants as kinds;
ghost use Rattle.xr_types.specs.declared.attr.Attr.{Attr};
ghost use Rattle.xr_files.specs.declared.file.CdfDim.{CdfDim};
ghost use Rattle.xr_files.specs.Format.{each, rule};
ghost use Rattle.xr_files.specs.Classic.{word, count, list, is_record_dim, is_length, dim_names, dimension, attr_names, values, attribute};
ghost use Rattle.cdf_reader.specs.Answers.{Reads, Gives};
ghost use Rattle.cdf_reader.specs.Names.{Knows};

use crate::fault::WalkFault;
use crate::fields::{chars_at, count_at, padding_of, raw_values, type_at, word_at};
use crate::names::{Known, new_name_at, none_known};
use std::alloc::Global;
use xr_files::{CdfDim, Stop};
use xr_types::{Attr, CdfKind, Items, TextBytes};

/// The tag of a list: 0 or the list's own.
pub(crate) fn tag_at(own: u32, bytes: &[u8]) -> Result<(u32, &[u8]), Stop>
    ensures { Reads (λ x. (x.0, x.1.now)) result ((rule kinds.BadTag (λ t. t == 0 || t == own) word).reads bytes.now) }
{
    let (tag, rest) = word_at(bytes)?;
    if tag != 0 && tag != own {
        return Err(Stop {
            kind: CdfKind::BadTag,
            left: bytes.len(),
        });
    }
    Ok((tag, rest))
}

/// How many entries a list has: none behind the tag 0.
pub(crate) fn entries_at(version: u8, tag: u32, bytes: &[u8]) -> Result<(u64, &[u8]), Stop>
    ensures { Reads (λ x. (x.0, x.1.now)) result ((rule kinds.BadTag (λ n. not (tag == 0) || n == 0) (count version)).reads bytes.now) }
{
    let (count, rest) = count_at(version, bytes)?;
    if tag == 0 && count != 0 {
        return Err(Stop {
            kind: CdfKind::BadTag,
            left: bytes.len(),
        });
    }
    Ok((count, rest))
}

fn has_record_dim(dims: &[CdfDim]) -> bool
    ensures { result ≡ list_any is_record_dim dims.now }
{
    dims.iter().any(|d| d.len == 0)
}

fn is_length_of(seen: &[CdfDim], n: u64) -> bool
    ensures { result ≡ is_length seen.now n }
{
    n != 0 || !has_record_dim(seen)
}

#[tactic(auto, unfolding(xr_files::specs::Classic::dimension))]
fn dimension_at<'a>(
    alloc: Global,
    version: u8,
    known: &mut Known<'a>,
    seen: &[CdfDim],
    bytes: &'a [u8],
) -> Result<(CdfDim, &'a [u8]), WalkFault>
    requires { Knows known.old (dim_names seen.now) }
    ensures read { Gives (λ x. (x.0, x.1.now)) result ((dimension version seen.now).reads bytes.now) }
    ensures known { IfOk result (λ x. Knows known.new (dim_names seen.now ++ x.0.name ∷ [])) }
{
    let (text, rest) = new_name_at(version, known, bytes)?;
    let (len, last) = count_at(version, rest)?;
    if !is_length_of(seen, len) {
        return Err(WalkFault::At(Stop {
            kind: CdfKind::BadDimension,
            left: rest.len(),
        }));
    }
    let name = TextBytes::from_str(alloc, text)?;
    Ok((CdfDim { name, len }, last))
}

#[tactic(auto, unfolding(xr_files::specs::Classic::values))]
fn values_at<'a>(
    alloc: Global,
    version: u8,
    text: &str,
    bytes: &'a [u8],
) -> Result<(Attr, &'a [u8]), WalkFault>
    ensures read { Gives (λ x. (x.0, x.1.now)) result ((values version text.now).reads bytes.now) }
    ensures named { IfOk result (λ x. x.0.name ≡ text.now) }
{
    let (kind, rest) = type_at(version, bytes)?;
    let (count, rest) = count_at(version, rest)?;
    let (raw, rest) = raw_values(count, kind, rest)?;
    let (_, rest) = chars_at(rest, padding_of(raw.len()))?;
    let name = TextBytes::from_str(alloc, text)?;
    let raw = Items::from_slice(alloc, raw)?;
    Ok((Attr { name, kind, raw }, rest))
}

#[tactic(auto, unfolding(xr_files::specs::Classic::attribute))]
fn attribute_at<'a>(
    alloc: Global,
    version: u8,
    known: &mut Known<'a>,
    seen: &[Attr],
    bytes: &'a [u8],
) -> Result<(Attr, &'a [u8]), WalkFault>
    requires { Knows known.old (attr_names seen.now) }
    ensures read { Gives (λ x. (x.0, x.1.now)) result ((attribute version seen.now).reads bytes.now) }
    ensures known { IfOk result (λ x. Knows known.new (attr_names seen.now ++ x.0.name ∷ [])) }
{
    let (text, rest) = new_name_at(version, known, bytes)?;
    values_at(alloc, version, text, rest)
}

fn dimensions_in<'a>(
    alloc: Global,
    version: u8,
    count: u64,
    bytes: &'a [u8],
) -> Result<(Items<CdfDim>, &'a [u8]), WalkFault>
    ensures { Gives (λ x. (x.0, x.1.now)) result ((each count (dimension version) []).reads bytes.now) }
{
    let mut known = none_known(alloc);
    let mut seen = Items::new(alloc);
    let mut rest = bytes;
    for _ in 0..count {
        let (one, after) = dimension_at(alloc, version, &mut known, seen.as_slice(), rest)?;
        seen.push(one)?;
        rest = after;
    }
    Ok((seen, rest))
}

fn attributes_in<'a>(
    alloc: Global,
    version: u8,
    count: u64,
    bytes: &'a [u8],
) -> Result<(Items<Attr>, &'a [u8]), WalkFault>
    ensures { Gives (λ x. (x.0, x.1.now)) result ((each count (attribute version) []).reads bytes.now) }
{
    let mut known = none_known(alloc);
    let mut seen = Items::new(alloc);
    let mut rest = bytes;
    for _ in 0..count {
        let (one, after) = attribute_at(alloc, version, &mut known, seen.as_slice(), rest)?;
        seen.push(one)?;
        rest = after;
    }
    Ok((seen, rest))
}

/// The list of dimensions.
#[tactic(auto, unfolding(xr_files::specs::Classic::list))]
pub(crate) fn dimensions_at<'a>(
    alloc: Global,
    version: u8,
    bytes: &'a [u8],
) -> Result<(Items<CdfDim>, &'a [u8]), WalkFault>
    ensures { Gives (λ x. (x.0, x.1.now)) result ((list version 10 (dimension version)).reads bytes.now) }
{
    let (tag, rest) = tag_at(10, bytes)?;
    let (count, rest) = entries_at(version, tag, rest)?;
    dimensions_in(alloc, version, count, rest)
}

/// A list of attributes.
#[tactic(auto, unfolding(xr_files::specs::Classic::list))]
pub(crate) fn attributes_at<'a>(
    alloc: Global,
    version: u8,
    bytes: &'a [u8],
) -> Result<(Items<Attr>, &'a [u8]), WalkFault>
    ensures { Gives (λ x. (x.0, x.1.now)) result ((list version 12 (attribute version)).reads bytes.now) }
{
    let (tag, rest) = tag_at(12, bytes)?;
    let (count, rest) = entries_at(version, tag, rest)?;
    attributes_in(alloc, version, count, rest)
}
