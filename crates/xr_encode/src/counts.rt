//! Times as whole counts of a unit from a reference.
ghost use Rattle.std.specs.Prelude.{◌≡◌, true, Some, map};
ghost use Rattle.xr_defs.specs.Encoding.{count_of};
ghost use Rattle.xr_times.specs.Counts.{are_counts, written_unit};

use crate::run::Run;
use cf_time::{count, written_unit};
use xr_types::Units;

/// Times, each of which is a whole count of a unit.
#[derive(Clone, Copy)]
pub struct Counts<'a> {
    pub units: Units,
    pub times: &'a [i64],
    pub ghost whole: { are_counts units.unit units.reference times.now ≡ true },
}

impl<'a> Run for Counts<'a> {
    ghost cells = { λ r. map (λ t. Some (count_of r.units.unit r.units.reference t)) r.times.now };

    fn len(self) -> usize {
        self.times.len()
    }

    fn number(self, i: usize) -> Option<i128> {
        count(&self.units, self.times[i])
    }
}

/// Times as counts of the unit in which they are written.
pub fn counted<'a>(units: Units, times: &'a [i64]) -> Counts<'a>
    ensures unit { result.units.unit ≡ written_unit units times.now }
    ensures reference { result.units.reference ≡ units.reference }
    ensures times { result.times.now ≡ times.now }
{
    let unit = written_unit(&units, times);
    Counts {
        units: Units { unit, ..units },
        times,
    }
}
