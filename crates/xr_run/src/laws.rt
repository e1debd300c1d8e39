//! That a run has one end.
ghost use Rattle.std.specs.Prelude.{◌≡◌, ℕ, List, Option};
ghost use Rattle.xr_defs.specs.Stores.{Files};
ghost use Rattle.xr_runs.specs.Runs.{Ended, Run};

use xr_grammar::one_answer_fits;

/// Of the ends that the definitions give the run of the command, one at most fits.
pub fn one_end_fits()
    ensures { (files : Files) (script : Option (List ℕ)) (d e : Ended) → Run files script d → Run files script e → d ≡ e }
{
    one_answer_fits();
}
