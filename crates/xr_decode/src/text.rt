//! Texts in bytes.
ghost use Rattle.std.specs.Prelude.{◌≡◌, ◌∷◌, ◌*◌, [], length, option_map, is_some, Some, None, IfOk, if◌then◌else◌};
ghost use Rattle.std.specs.Str.{is_utf8};
ghost use Rattle.xr_defs.specs.Decoding.{without_nuls, text_in, rows_of};

use std::alloc::{AllocError, Global};
use xr_types::{Items, TextBytes};

fn without_nuls(bytes: &[u8]) -> &[u8]
    ensures { result.now ≡ without_nuls bytes.now }
{
    let mut count = bytes.len();
    while count > 0 && bytes[count - 1] == 0 {
        count -= 1;
    }
    let (front, _) = bytes.split_at(count);
    front
}

fn utf8_text(bytes: &[u8]) -> Option<&str>
    ensures { option_map (λ t. t.now) result ≡ (if is_utf8 bytes.now then Some bytes.now else None) }
{
    match str::from_utf8(bytes) {
        Ok(text) => Some(text),
        Err(_) => None,
    }
}

/// The text in bytes without their trailing NULs, where it is UTF-8.
pub(crate) fn text_in(bytes: &[u8]) -> Option<&str>
    ensures { option_map (λ t. t.now) result ≡ text_in bytes.now }
{
    utf8_text(without_nuls(bytes))
}

/// Whether each of so many rows of one width holds a text.
pub(crate) fn are_texts(raw: &[u8], count: u64, width: u64) -> bool
    requires { length raw.now ≡ count * width }
    ensures { result ≡ is_some (rows_of (count ∷ width ∷ []) raw.now) }
{
    let mut rest = raw;
    for i in 0..count {
        let (row, behind) = rest.split_at(width as usize);
        match text_in(row) {
            Some(_) => rest = behind,
            None => return false,
        }
    }
    true
}

/// The texts in so many rows of one width, where each holds one.
pub(crate) fn texts_in(
    alloc: Global,
    raw: &[u8],
    count: u64,
    width: u64,
) -> Result<Option<Items<TextBytes>>, AllocError>
    requires { length raw.now ≡ count * width }
    ensures { IfOk result (λ o. o ≡ rows_of (count ∷ width ∷ []) raw.now) }
{
    let mut texts = Items::new(alloc);
    let mut rest = raw;
    for i in 0..count {
        let (row, behind) = rest.split_at(width as usize);
        match text_in(row) {
            Some(text) => texts.push(TextBytes::from_str(alloc, text)?)?,
            None => return Ok(None),
        }
        rest = behind;
    }
    Ok(Some(texts))
}
