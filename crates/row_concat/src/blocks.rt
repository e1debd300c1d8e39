//! Values that are cut into as many blocks each, whose bytes are put in turn.
ghost use Rattle.std.specs.Prelude.{◌≡◌, ◌<◌, ◌≤◌, ◌+◌, ◌*◌, ◌%◌, ◌++◌, length, map, flat_map, take, drop, sum, All, OnOk, IfOk};
ghost use Rattle.xr_types.specs.Widths.{width};
ghost use Rattle.xr_arrays.specs.Pieces.{together, values_in, AreInside};
ghost use Rattle.row_concat.specs.Blocks.{block, rows};
ghost use Rattle.row_concat.specs.Spelt.{AreValues};

use crate::spelt::Values;
use std::alloc::{AllocError, Global};
use xr_arrays::{Pieces, width};
use xr_types::NcType;

/// How many bytes the values take together. More than 64 bits count can't be held.
pub fn total(kind: NcType, lists: &[Values<'_>]) -> Result<usize, AllocError>
    requires { All (AreValues kind) lists.now }
    ensures { IfOk result (λ n. n ≡ sum (map (λ v. length (together kind v.pieces.now)) lists.now)) }
{
    let mut total: usize = 0;
    for list in lists {
        total = match total.checked_add(list.count * width(kind)) {
            Some(total) => total,
            None => return Err(AllocError),
        };
    }
    Ok(total)
}

// Puts the bytes of so many values from one on behind others.
fn push_values(
    out: &mut Vec<u8>,
    kind: NcType,
    pieces: &Pieces,
    from: usize,
    n: usize,
) -> Result<(), AllocError>
    requires inside { AreInside kind pieces.now }
    requires within { from + n ≤ values_in pieces.now }
    ensures { OnOk result (out.new.items ≡ out.old.items ++ take (n * width kind) (drop (from * width kind) (together kind pieces.now))) }
{
    let width = width(kind);
    let mut done = 0;
    while done < n {
        let run = pieces.run(kind, from + done);
        let more = run.count.min(n - done);
        out.extend_from_slice(&run.bytes[..more * width])?;
        done += more;
    }
    Ok(())
}

// The bytes of a block of each list.
fn push_row(
    out: &mut Vec<u8>,
    kind: NcType,
    lists: &[Values<'_>],
    outer: usize,
    number: usize,
) -> Result<(), AllocError>
    requires number { number < outer }
    requires counted { All (AreValues kind) lists.now }
    requires even { All (λ v. v.count % outer ≡ 0) lists.now }
    ensures { OnOk result (out.new.items ≡ out.old.items ++ flat_map (λ v. block outer number (together kind v.pieces.now)) lists.now) }
{
    for list in lists {
        let count = list.count / outer;
        push_values(out, kind, list.pieces, number * count, count)?;
    }
    Ok(())
}

/// The bytes of the first block of each list, then of the second of each, and so on. Each has so many blocks, and all have so
/// many bytes together.
pub fn in_turn(
    alloc: Global,
    kind: NcType,
    lists: &[Values<'_>],
    outer: usize,
    total: usize,
) -> Result<Vec<u8>, AllocError>
    requires counted { All (AreValues kind) lists.now }
    requires even { 0 < outer → All (λ v. v.count % outer ≡ 0) lists.now }
    ensures { IfOk result (λ v. v.items ≡ rows outer (map (λ l. together kind l.pieces.now) lists.now)) }
{
    let mut out = Vec::with_capacity(alloc, total)?;
    for number in 0..outer {
        push_row(&mut out, kind, lists, outer, number)?;
    }
    Ok(out)
}
