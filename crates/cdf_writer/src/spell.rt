//! The canonical bytes of a file.
ghost use Rattle.std.specs.Prelude.{◌≡◌, ◌↔◌, ◌++◌, Err, OnOk, IfOk, map, true, false};
ghost use Rattle.xr_files.specs.Canonical.{IsFile, can_hold, canonical, header_text, is_small, placed};

use crate::answer::{Layout, WriteFault};
use crate::measure::layout;
use crate::pieces::push_values;
use crate::text::put_header;
use bytes::{Bytes, BytesQueue};
use std::alloc::{AllocError, Global};
use xr_files::CdfFile;
// the header of a small file with these places, as one piece
fn push_header(
    alloc: Global,
    out: &mut BytesQueue,
    file: &CdfFile,
    places: &Layout,
) -> Result<(), AllocError>
    requires file { IsFile file.now }
    requires small { is_small file.now ≡ true }
    requires begins { places.now.begins ≡ map (λ x. x.1) (placed file.now) }
    ensures { OnOk result (out.new ≡ out.old ++ header_text file.now (placed file.now)) }
{
    let mut header = Vec::with_capacity(alloc, places.header as usize)?;
    put_header(&mut header, file, places.begins.as_slice())?;
    Ok(out.push(Bytes::from_vec(header)?)?)
}

/// The canonical bytes of a file whose parts fit together, in pieces. Values that stand in the file one behind the other
/// are shared with it and not copied: those of fixed variables, and those of a variable that alone has records.
#[tactic(auto, unfolding(xr_files::specs::Canonical::canonical))]
pub fn write_pieces(alloc: Global, file: &CdfFile) -> Result<BytesQueue, WriteFault>
    requires { IsFile file.now }
    ensures bytes { IfOk result (λ pieces. pieces ≡ canonical file.now) }

    ensures held { OnOk result (can_hold file.now ≡ true) }
    ensures small { OnOk result (is_small file.now ≡ true) }
    ensures cannot_hold { (result ≡ Err WriteFault.CannotHold) ↔ (can_hold file.now ≡ false) }
    ensures too_large { (result ≡ Err WriteFault.TooLarge) ↔ ((can_hold file.now ≡ true) × (is_small file.now ≡ false)) }
{
    let places = layout(alloc, file)?;
    let mut out = BytesQueue::new(alloc);
    push_header(alloc, &mut out, file, &places)?;
    let records = places.recsize.saturating_mul(file.numrecs);
    push_values(alloc, &mut out, file, records as usize)?;
    Ok(out)
}

// what the pieces hold, in one
fn joined(alloc: Global, pieces: BytesQueue) -> Result<Vec<u8>, AllocError>
    ensures { IfOk result (λ bytes. bytes.items ≡ pieces) }
{
    let mut rest = pieces;
    let mut out = Vec::with_capacity(alloc, rest.len())?;
    while let Some(piece) = rest.pop() {
        out.extend_from_slice(piece.as_slice())?;
    }
    Ok(out)
}

/// The canonical bytes of a file whose parts fit together.
pub fn write(alloc: Global, file: &CdfFile) -> Result<Vec<u8>, WriteFault>
    requires { IsFile file.now }
    ensures bytes { IfOk result (λ bytes. bytes.items ≡ canonical file.now) }

    ensures held { OnOk result (can_hold file.now ≡ true) }
    ensures small { OnOk result (is_small file.now ≡ true) }
    ensures cannot_hold { (result ≡ Err WriteFault.CannotHold) ↔ (can_hold file.now ≡ false) }
    ensures too_large { (result ≡ Err WriteFault.TooLarge) ↔ ((can_hold file.now ≡ true) × (is_small file.now ≡ false)) }
{
    let pieces = write_pieces(alloc, file)?;
    Ok(joined(alloc, pieces)?)
}
