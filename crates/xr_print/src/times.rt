//! Times.
ghost use Rattle.std.specs.Prelude.{◌≡◌, ◌++◌, OnOk};
ghost use Rattle.xr_times.specs.Times.{IsTime};
ghost use Rattle.xr_print.specs.Pieces.{shown_time};

use std::alloc::AllocError;
use xr_types::Calendar;

/// Appends the text of a time of a calendar.
#[tactic(auto, unfolding(crate::specs::Pieces::shown_time))]
pub(crate) fn push_time(out: &mut Vec<u8>, time: i64, calendar: Calendar) -> Result<(), AllocError>
    requires { IsTime calendar time }
    ensures { OnOk result (out.new.items ≡ out.old.items ++ shown_time calendar time) }
{
    out.extend_from_slice(&cf_time::text(time, calendar))
}
