//! Datasets by their positions among others.
ghost use Rattle.std.specs.Prelude.{◌≡◌, ◌+◌, ◌*◌, Some, map, slice_get, IfOk};
ghost use Rattle.xr_combine.specs.Sets.{held};
ghost use Rattle.xr_combine.specs.Steps.{line_of, lines_of};

use std::alloc::Global;
use std::rc::Rc;
use xr_types::{Items, NoMemory};
use xr_values::Dataset;

// A position past the others, of which there is none, wants memory.
fn one_at(sets: &[Rc<Dataset>], at: u64) -> Result<Rc<Dataset>, NoMemory>
    ensures { IfOk result (λ s. Some s.value ≡ slice_get (held sets.now) at) }
{
    match sets.get(at as usize) {
        Some(set) => Ok(set.clone()?),
        None => Err(NoMemory),
    }
}

/// The datasets at these positions.
pub(crate) fn picked(
    alloc: Global,
    sets: &[Rc<Dataset>],
    positions: &[u64],
) -> Result<Items<Rc<Dataset>>, NoMemory>
    ensures { IfOk result (λ ss. map Some (held ss) ≡ map (slice_get (held sets.now)) positions.now) }
{
    let mut out = Items::new(alloc);
    for at in positions {
        let set = one_at(sets, *at)?;
        out.push(set)?;
    }
    Ok(out)
}

// A position is one of so many as there are datasets: none passes 64 bits.
fn position(place: u64, step: u64, start: u64) -> Result<u64, NoMemory>
    ensures { IfOk result (λ n. n ≡ place * step + start) }
{
    match place.checked_mul(step) {
        None => Err(NoMemory),
        Some(before) => match before.checked_add(start) {
            None => Err(NoMemory),
            Some(position) => Ok(position),
        },
    }
}

// So many positions, each a step behind the one before.
fn line_of(alloc: Global, count: u64, step: u64, start: u64) -> Result<Items<u64>, NoMemory>
    ensures { IfOk result (λ ps. ps ≡ line_of count step start) }
{
    let mut positions = Items::new(alloc);
    for place in 0..count {
        let position = position(place, step, start)?;
        positions.push(position)?;
    }
    Ok(positions)
}

/// The positions of each line of so many in a grid in row order, of which the later dimensions have so many places.
pub(crate) fn lines_of(alloc: Global, count: u64, step: u64) -> Result<Items<Items<u64>>, NoMemory>
    ensures { IfOk result (λ lines. lines ≡ lines_of count step) }
{
    let mut lines = Items::new(alloc);
    for start in 0..step {
        let line = line_of(alloc, count, step, start)?;
        lines.push(line)?;
    }
    Ok(lines)
}
