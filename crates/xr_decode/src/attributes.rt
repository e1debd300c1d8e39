//! Attributes by their names, and what they hold.
ghost use Rattle.std.specs.Prelude.{◌≡◌, ◌++◌, filter, find, not, drop, option_map, IfOk, IfSome};
ghost use Rattle.std.specs.List.{Contains};
ghost use Rattle.xr_defs.specs.Decoding.{is_attr, is_char_attr, text_attr, without_text_attr, attr_says};

use crate::kinds::is_char;
use std::alloc::{AllocError, Global};
use xr_types::{Attr, DeepCopy, Items};

/// Whether an attribute has a name.
pub(crate) fn is_attr(name: &str, attr: &Attr) -> bool
    ensures { result ≡ is_attr name.now attr.now }
{
    attr.name.as_str() == name
}

fn is_char_attr(name: &str, attr: &Attr) -> bool
    ensures { result ≡ is_char_attr name.now attr.now }
{
    is_attr(name, attr) && is_char(attr.kind)
}

/// The first attribute of a name.
pub(crate) fn find_attr<'a>(name: &str, attrs: &'a [Attr]) -> Option<&'a Attr>
    ensures found { option_map (λ a. a.now) result ≡ find (is_attr name.now) attrs.now }
    ensures one { IfSome result (λ a. Contains attrs.now a.now) }
{
    for attr in attrs {
        if is_attr(name, attr) {
            return Some(attr);
        }
    }
    None
}

/// The text of the first attribute of a name that is of type `char`.
pub(crate) fn text_attr<'a>(name: &str, attrs: &'a [Attr]) -> Option<&'a [u8]>
    ensures { option_map (λ t. t.now) result ≡ text_attr name.now attrs.now }
{
    for attr in attrs {
        if is_char_attr(name, attr) {
            return Some(attr.raw.as_slice());
        }
    }
    None
}

/// Whether the attribute of a name says this text.
pub(crate) fn attr_says(name: &str, text: &str, attrs: &[Attr]) -> bool
    ensures { result ≡ attr_says name.now text.now attrs.now }
{
    match text_attr(name, attrs) {
        Some(said) => *said == *text.as_bytes(),
        None => false,
    }
}

/// A copy of the attributes without those of a name that are of type `char`.
pub(crate) fn copy_without(
    alloc: Global,
    name: &str,
    attrs: &[Attr],
) -> Result<Items<Attr>, AllocError>
    ensures { IfOk result (λ s. s ≡ without_text_attr name.now attrs.now) }
{
    let mut copies = Items::new(alloc);
    for attr in attrs {
        if !is_char_attr(name, attr) {
            copies.push(attr.deep_copy(alloc)?)?;
        }
    }
    Ok(copies)
}

/// The attributes without those of a name that are of type `char`.
pub(crate) fn left_without(attrs: Items<Attr>, name: &str) -> Items<Attr>
    ensures { result ≡ without_text_attr name.now attrs }
{
    let mut left = attrs.into_vec();
    left.retain(
        |attr: &Attr| -> bool
            ensures { result ≡ not (is_char_attr name.entry.now attr.now) }
        { !is_char_attr(name, attr) },
    );
    Items::of(left)
}
