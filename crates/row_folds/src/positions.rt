//! Positions that one position of a result uses.
ghost use Rattle.std.specs.Prelude.{◌≡◌, ◌<◌, length, get_or};
ghost use Rattle.xr_arrays.specs.FeedPositions.{listed};

use xr_arrays::Positions;

/// How many there are.
pub fn count(positions: Positions<'_>) -> u64
    ensures { result ≡ length (listed positions.entry) }
{
    match positions {
        Positions::Range { from, to } => to.saturating_sub(from),
        Positions::List(positions) => positions.len() as u64,
    }
}

/// The one at a place.
pub fn nth(positions: Positions<'_>, i: u64) -> u64
    requires { i < length (listed positions) }
    ensures { result ≡ get_or (listed positions.entry) i 0 }
{
    match positions {
        Positions::Range { from, .. } => from + i,
        Positions::List(positions) => u64::from(positions[i as usize]),
    }
}
