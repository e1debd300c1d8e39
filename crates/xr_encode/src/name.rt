//! The dimensions of texts: their width and their name.
ghost use Rattle.std.specs.Prelude.{◌≡◌, ◌∷◌, [], max, IfOk};
ghost use Rattle.xr_defs.specs.Decoding.{string_name};
ghost use Rattle.xr_defs.specs.Encoding.{text_width};

use std::alloc::{AllocError, Global};
use xr_types::{Name, TextBytes};

fn greater(a: u64, b: u64) -> u64
    ensures { result ≡ max a b }
{
    if a < b { b } else { a }
}

/// Bytes of the longest text, and at least one.
pub fn text_width(texts: &[TextBytes]) -> u64
    ensures { result ≡ text_width texts.now }
{
    let mut width: u64 = 1;
    for text in texts {
        width = greater(width, text.as_bytes().len() as u64);
    }
    width
}

/// The width of a text that stands by itself.
pub fn lone_width(text: &TextBytes) -> u64
    ensures { result ≡ text_width (text.now ∷ []) }
{
    greater(1, text.as_bytes().len() as u64)
}

/// `string` and the width.
pub fn string_name(alloc: Global, width: u64) -> Result<Name, AllocError>
    ensures { IfOk result (λ name. name ≡ string_name width) }
{
    let text = format!(in alloc; "string{width}")?;
    Ok(Name::of(text))
}
