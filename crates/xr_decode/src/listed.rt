//! The names that attributes list as coordinates.
ghost use Rattle.std.specs.Prelude.{◌≡◌, ◌++◌, ◌∷◌, [], ℕ, List, map, filter, length, not, ◌==◌, IfOk, OnOk, OnErr, true};
ghost use Rattle.std.specs.List.{slice_split};
ghost use Rattle.xr_types.specs.Names.{among};
ghost use Rattle.xr_defs.specs.Decoding.{is_blank, words, listed_in};
ghost use Rattle.xr_decode.specs.Listed.{Lists};

use crate::attributes::text_attr;
use std::alloc::{AllocError, Global};
use std::collections::BTreeMap;
use xr_types::{Attr, Name, NoMemory};

/// Names in order, so that many are looked up in a short time.
pub(crate) type Listed<'a> = BTreeMap<&'a [u8], ()>;

/// No names.
pub(crate) fn none_listed<'a>(alloc: Global) -> Listed<'a>
    ensures { Lists result [] }
{
    BTreeMap::new(alloc)
}

/// Whether a name is there.
pub(crate) fn is_listed(listed: &Listed<'_>, name: &Name) -> bool
    ensures { (names : List (List ℕ)) → Lists listed.now names → result ≡ among names name.now }
{
    listed.contains_key(name.as_bytes())
}

fn is_blank(byte: u8) -> bool
    ensures { result ≡ is_blank byte }
{
    byte == b' ' || byte == b'\t'
}

fn parts_of(alloc: Global, text: &[u8]) -> Result<Vec<&[u8]>, AllocError>
    ensures { IfOk result (λ v. map (λ x. x.now) v.items ≡ slice_split is_blank text.now) }
{
    text.split(|b| is_blank(*b)).collect(alloc)
}

fn add<'a>(listed: &mut Listed<'a>, text: &'a [u8]) -> Result<(), NoMemory>
    ensures { OnOk result ((names : List (List ℕ)) → Lists listed.old names → Lists listed.new (names ++ text.now ∷ [])) }
{
    listed.insert(text, ())?;
    Ok(())
}

// Adds a name, unless it is empty.
fn add_word<'a>(listed: &mut Listed<'a>, text: &'a [u8]) -> Result<(), NoMemory>
    ensures { OnOk result ((names : List (List ℕ)) → Lists listed.old names → Lists listed.new (names ++ filter (λ w. not (length w == 0)) (text.now ∷ []))) }
{
    if text.is_empty() {
        return Ok(());
    }
    add(listed, text)?;
    Ok(())
}

fn add_words<'a>(listed: &mut Listed<'a>, parts: &[&'a [u8]]) -> Result<(), NoMemory>
    ensures { OnOk result ((names : List (List ℕ)) → Lists listed.old names → Lists listed.new (names ++ filter (λ w. not (length w == 0)) (map (λ x. x.now) parts.now))) }
{
    for part in parts {
        add_word(listed, part)?;
    }
    Ok(())
}

/// Adds the names that an attribute `coordinates` lists.
pub(crate) fn add_listed<'a>(
    alloc: Global,
    listed: &mut Listed<'a>,
    attrs: &'a [Attr],
) -> Result<(), NoMemory>
    ensures { OnOk result ((names : List (List ℕ)) → Lists listed.old names → Lists listed.new (names ++ listed_in attrs.now)) }
{
    match text_attr("coordinates", attrs) {
        Some(text) => {
            let parts = parts_of(alloc, text)?;
            add_words(listed, &parts)?;
            Ok(())
        }
        None => Ok(()),
    }
}
