//! What of a dataset's file is known without the cells of its data variables.
ghost use Rattle.std.specs.Prelude.{◌≡◌, map, IfOk};
ghost use Rattle.xr_defs.specs.Printing.{by_name};
ghost use Rattle.xr_encode.specs.Frames.{parts_of};

use crate::outline::Outline;
use crate::set::{outlines_of, unlisted_by};
use crate::widths::text_widths;
use std::alloc::{AllocError, Global};
use xr_defs::Coord;
use xr_types::{Items, Name};
use xr_values::Dataset;

/// The variables but for their cells, the widths of texts, and the coordinates that no variable lists.
#[derive(Drop)]
pub struct Parts {
    pub outlines: Items<Outline>,
    pub widths: Items<u64>,
    pub unlisted: Items<Name>,
}

/// The parts of a dataset's file, given its coordinates by name.
pub fn parts_of(alloc: Global, set: &Dataset, sorted: &[&Coord]) -> Result<Parts, AllocError>
    requires { map (λ c. c.now) sorted.now ≡ by_name set.now.coords }
    ensures { IfOk result (λ parts. parts ≡ parts_of set.now) }
{
    let outlines = outlines_of(alloc, set, sorted)?;
    let widths = text_widths(alloc, set.axes.as_slice(), sorted)?;
    let unlisted = unlisted_by(alloc, sorted, outlines.as_slice())?;
    Ok(Parts {
        outlines,
        widths,
        unlisted,
    })
}
