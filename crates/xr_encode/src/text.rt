//! Texts as rows of bytes.
ghost use Rattle.std.specs.Prelude.{◌≡◌, ◌++◌, replicate, flat_map, IfOk, OnOk};
ghost use Rattle.xr_defs.specs.Encoding.{filled_up, text_width};
ghost use Rattle.xr_encode.specs.Texts.{AreBytes};

use crate::name::text_width;
use bytes::Bytes;
use std::alloc::{AllocError, Global};
use xr_types::TextBytes;

/// What texts hold are bytes, which is known once they are read.
pub fn read_texts(texts: &[TextBytes])
    ensures { AreBytes texts.now }
{
    for text in texts {
        let _text = text.as_str();
    }
}

fn push_nuls(out: &mut Vec<u8>, count: usize) -> Result<(), AllocError>
    ensures { OnOk result (out.new.items ≡ out.old.items ++ replicate count 0) }
{
    match out.len().checked_add(count) {
        Some(end) => out.resize(end, 0),
        None => Err(AllocError),
    }
}

// Appends a text, filled up with NULs to a width.
fn push_text(out: &mut Vec<u8>, text: &TextBytes, width: usize) -> Result<(), AllocError>
    ensures { OnOk result (out.new.items ≡ out.old.items ++ filled_up width text.now) }
{
    let bytes = text.as_bytes();
    out.extend_from_slice(bytes)?;
    push_nuls(out, width.saturating_sub(bytes.len()))
}

/// The texts one after the other, each filled up to the width of the longest.
pub fn texts_bytes(alloc: Global, texts: &[TextBytes]) -> Result<Bytes, AllocError>
    ensures { IfOk result (λ raw. raw ≡ flat_map (filled_up (text_width texts.now)) texts.now) }
{
    let width = text_width(texts) as usize;
    let mut out = Vec::with_capacity(alloc, texts.len().saturating_mul(width))?;
    for text in texts {
        push_text(&mut out, text, width)?;
    }
    Ok(Bytes::from_vec(out)?)
}
