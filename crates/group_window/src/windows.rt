//! Windows and blocks of positions.
ghost use Rattle.std.specs.Prelude.{◌≡◌, ◌<◌, ◌≤◌, ◌==◌, ◌%◌, ◌&&◌, ◌||◌, ◌^◌, not};
ghost use Rattle.xr_types.specs.Results.{Answers, unless};
ghost use Rattle.xr_types.specs.declared.fault.Fault.TheVariants.{BadArgument, NotMultiple};
ghost use Rattle.xr_groups.specs.Blocks as of;
ghost use Rattle.group_window.specs.Windows.{rolled, coarsened};

use xr_arrays::Feeds;
use xr_types::{CallFault, Fault};

/// For each position of an axis the window of a width that ends there, or, centered, has it in its middle. It is cut at the axis's
/// ends.
///
/// # Errors
/// `BadArgument` for a window of an even width that has its position in the middle.
#[tactic(auto, unfolding(crate::specs::Windows::rolled, xr_types::specs::Results::unless))]
pub fn rolling(size: u64, width: u64, center: bool) -> Result<Feeds, CallFault>
    ensures { Answers (λ f. f) result (rolled size width center) }
{
    if center && width % 2 == 0 {
        return Err(CallFault::Refused(Fault::BadArgument));
    }
    let before = width.saturating_sub(1);
    let feeds = if center {
        Feeds::windows(size, before / 2, before / 2)
    } else {
        Feeds::windows(size, before, 0)
    };
    Ok(feeds)
}

/// The blocks of a width along an axis, one after the other. With `trim` a rest that fills no block is left out.
///
/// # Errors
/// `NotMultiple` where there is a rest that isn't left out.
#[tactic(auto, using(crate::proofs::Fits::blocks_end), unfolding(crate::specs::Windows::coarsened, xr_types::specs::Results::unless))]
pub fn coarsen(size: u64, width: u64, trim: bool) -> Result<Feeds, CallFault>
    requires { 0 < width }
    ensures { Answers (λ f. f) result (coarsened size width trim) }
{
    if !trim && size % width != 0 {
        return Err(CallFault::Refused(Fault::NotMultiple));
    }
    Ok(Feeds::blocks(size / width, width))
}
