//! From a file, or from its bytes, to a dataset.
ghost use Rattle.std.specs.Prelude.{◌≡◌, ◌∷◌, [], IfOk};
ghost use Rattle.xr_defs.specs.Decoding.{set_of};
ghost use Rattle.xr_defs.specs.Decoding.{set_in};
ghost use Rattle.xr_arrays.specs.Added.{AddsAtMost};
ghost use Rattle.xr_defs.specs.Room.{of_set, room};
ghost use Rattle.plan_core.specs.Plans.{Grows};
ghost use Rattle.xr_values.specs.Answers.{AnswersSet};
ghost use Rattle.xr_values.specs.Stands.{dataset_in};
ghost use Rattle.xr_decode.specs.Readable.{IsReadable};

use crate::stored::Source;
use crate::values::are_bytes;
use crate::whole::set_of;
use bytes::Bytes;
use cdf_reader::{CdfFault, read_head};
use plan_core::{Compute, Plan};
use std::alloc::Global;
use xr_files::CdfFile;
use xr_types::{CallFault, Fault};
use xr_values::{Cx, Dataset};

/// The dataset of a file, with missing cells where `mask` asks for them (CF Conventions; xarray, `decode_cf`). The cells of its
/// data variables become nodes of the plan. The numbers of an index become times, where its attributes say how they count them and
/// each is a time of the calendar.
///
/// The parts of the file have to fit together; the values of `float` and `double` variables aren't looked at.
///
/// # Errors
/// `TooLarge` where there are more data variables and coordinates than a dataset may have, and want of memory.
pub fn decode_into(
    alloc: Global,
    plan: &mut Plan,
    file: &CdfFile,
    mask: bool,
) -> Result<Dataset, CallFault>
    requires { IsReadable file.now }
    ensures answers { AnswersSet plan.new result (set_of file.now mask) }
    ensures grows { Grows plan.old plan.new }
    ensures room { IfOk result (λ s. AddsAtMost plan.old plan.new (room (of_set (dataset_in plan.new s) ∷ []))) }
{
    let source = Source::of_file(alloc, file)?;
    set_of(alloc, plan, &source, mask)
}

/// The dataset of a file, as `decode_into` gives it.
pub fn decode_set<C: Compute>(
    alloc: Global,
    cx: &mut Cx<C>,
    file: &CdfFile,
    mask: bool,
) -> Result<Dataset, CallFault>
    requires { IsReadable file.now }
    ensures answers { AnswersSet cx.new.plan result (set_of file.now mask) }
    ensures grows { Grows cx.old.plan cx.new.plan }
    ensures room { IfOk result (λ s. AddsAtMost cx.old.plan cx.new.plan (room (of_set (dataset_in cx.new.plan s) ∷ []))) }
{
    decode_into(alloc, &mut cx.plan, file, mask)
}

/// The dataset of the file that the bytes spell, as `decode_into` gives it. Whole numbers stay as they stand in the file: those of a
/// variable that has no records share its bytes, and those of a record variable are put together in new memory.
///
/// # Errors
/// `BadFile`, with the first fault and its byte, where the bytes spell no file; and what `decode_into` answers.
#[tactic(auto, unfolding(xr_defs::specs::Decoding::set_in))]
pub fn decode_bytes(
    alloc: Global,
    plan: &mut Plan,
    bytes: &Bytes,
    mask: bool,
) -> Result<Dataset, CallFault>
    ensures answers { AnswersSet plan.new result (set_in bytes.now mask) }
    ensures grows { Grows plan.old plan.new }
    ensures room { IfOk result (λ s. AddsAtMost plan.old plan.new (room (of_set (dataset_in plan.new s) ∷ []))) }
{
    let all = bytes.as_slice();
    are_bytes(all);
    match read_head(alloc, all) {
        Ok(head) => {
            let source = Source::of_head(alloc, bytes, &head)?;
            set_of(alloc, plan, &source, mask)
        }
        Err(CdfFault::At(kind, at)) => Err(CallFault::Refused(Fault::BadFile(kind, at))),
        Err(CdfFault::NoMemory) => Err(CallFault::NoMemory),
    }
}
