//! The file that a statement puts.
ghost use Rattle.std.specs.Prelude.{◌≡◌, true, IfOk};
ghost use denote.Param.Send.{IsSync};
ghost use Rattle.xr_runs.specs.Calls.{set_written};
ghost use Rattle.xr_files.specs.Canonical.{IsFile};
ghost use Rattle.xr_defs.specs.Encoding.{file_of};
ghost use Rattle.xr_files.specs.Files.{is_version};
ghost use Rattle.xr_values.specs.Stands.{dataset_in, IsDatasetIn};
ghost use Rattle.xr_values.specs.Meaning.{meaning, given, IsValueIn, AreArgsIn};
ghost use Rattle.xr_run.specs.Answers.{Gives};

use crate::stopped::Stopped;
use bytes::BytesQueue;
use cdf_writer::write_pieces;
use dataset_core::write_request;
use graph_pool::{Gate, Pool};
use std::alloc::Global;
use std::thread::Threads;
use xr_defs::WriteOptions;
use xr_encode::encode_set;
use xr_files::CdfFile;
use xr_types::TextBytes;
use xr_values::{Args, Cx, Dataset, Value};

// The file of a dataset. Nothing is declined.
fn encoded<R: Threads + Sync, G: Gate>(
    rt: &R,
    alloc: Global,
    cx: &mut Cx<Pool<'_, G>>,
    set: &Dataset,
    options: &WriteOptions,
) -> Result<CdfFile, Stopped>
    requires sync { IsSync R.row }
    requires set { IsDatasetIn cx.old.plan set.now }
    requires version { is_version options.now.version ≡ true }
    ensures answers { Gives (λ f. f) result (file_of (dataset_in cx.old.plan set.now) options.now) }
    ensures file { IfOk result IsFile }
    ensures keeps { cx.new.plan ≡ cx.old.plan }
{
    match encode_set(rt, alloc, cx, set, options) {
        Ok(file) => Ok(file),
        Err(fault) => Err(Stopped::from(fault)),
    }
}

/// The name of the file that `to_netcdf` puts, and its bytes in pieces, once all checks are passed.
#[tactic(auto, unfolding(xr_runs::specs::Calls::set_written))]
pub(crate) fn written<R: Threads + Sync, G: Gate>(
    rt: &R,
    alloc: Global,
    cx: &mut Cx<Pool<'_, G>>,
    value: &Value,
    args: &Args,
) -> Result<(TextBytes, BytesQueue), Stopped>
    requires sync { IsSync R.row }
    requires inside { IsValueIn cx.old.plan value.now }
    requires given { AreArgsIn cx.old.plan args.now }
    ensures put { Gives (λ w. w) result (set_written (meaning cx.old.plan value.now) (given cx.old.plan args.now)) }
    ensures keeps { cx.new.plan ≡ cx.old.plan }
{
    let request = write_request(alloc, value, args)?;
    let file = encoded(rt, alloc, cx, &request.set, &request.options)?;
    match write_pieces(alloc, &file) {
        Ok(pieces) => Ok((request.name, pieces)),
        // The checks leave want of memory alone.
        Err(_) => Err(Stopped::NoMemory),
    }
}
