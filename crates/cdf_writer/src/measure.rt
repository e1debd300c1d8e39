//! Where the parts of a canonical file stand, and which files have one.
ghost use Rattle.std.specs.Prelude.{◌≡◌, ◌↔◌, ◌==◌, ◌+◌, ◌<◌, ◌^◌, Err, OnOk, IfOk, IfErr, length, map, true, false};
ghost use Rattle.xr_files.specs.Canonical.{IsFile, can_hold, canonical, fixed_size, header_size, is_small, placed, placed_from, record_vars, recsize};

use crate::answer::{Layout, WriteFault};
use crate::hold::can_hold;
use crate::room::{fixed_size, has_lone_record, is_record, record_size, room};
use crate::size::header_size;
use std::alloc::Global;
use xr_files::CdfFile;
use xr_types::{Items, MOST_FILE_BYTES};

// where each variable's values begin: the fixed ones from one place on, the record ones from the other on
fn begins(
    alloc: Global,
    file: &CdfFile,
    lone: bool,
    fixed_from: u64,
    records_from: u64,
) -> Result<Items<u64>, WriteFault>
    requires file { IsFile file.now }
    requires lone { lone ≡ (length (record_vars file.now) == 1) }
    requires fixed_fits { fixed_from + fixed_size file.now < 2 ^ 32 }
    requires records_fit { records_from + recsize file.now < 2 ^ 32 }
    ensures begins { IfOk result (λ places. places ≡ map (λ x. x.1) (placed_from file.now file.now.vars fixed_from records_from)) }
    ensures only_memory { IfErr result (λ e. e ≡ WriteFault.NoMemory) }
{
    let mut places = Items::new(alloc);
    let mut fixed = fixed_from;
    let mut records = records_from;
    for var in file.vars.as_slice() {
        let size = room(file, var, lone);
        if is_record(file, var) {
            places.push(records)?;
            records += size;
        } else {
            places.push(fixed)?;
            fixed += size;
        }
    }
    Ok(places)
}

/// The places of the canonical bytes of a file whose parts fit together.
pub fn layout(alloc: Global, file: &CdfFile) -> Result<Layout, WriteFault>
    requires { IsFile file.now }
    ensures header { IfOk result (λ l. l.header ≡ header_size file.now) }
    ensures begins { IfOk result (λ l. l.begins ≡ map (λ x. x.1) (placed file.now)) }
    ensures recsize { IfOk result (λ l. l.recsize ≡ recsize file.now) }
    ensures length { IfOk result (λ l. l.length ≡ length (canonical file.now)) }

    ensures held { OnOk result (can_hold file.now ≡ true) }
    ensures small { OnOk result (is_small file.now ≡ true) }
    ensures cannot_hold { (result ≡ Err WriteFault.CannotHold) ↔ (can_hold file.now ≡ false) }
    ensures too_large { (result ≡ Err WriteFault.TooLarge) ↔ ((can_hold file.now ≡ true) × (is_small file.now ≡ false)) }
{
    if !can_hold(file) {
        return Err(WriteFault::CannotHold);
    }
    let lone = has_lone_record(file);
    let header = header_size(file);
    let fixed = fixed_size(file, lone);
    let recsize = record_size(file, lone);
    let records = recsize.saturating_mul(file.numrecs);
    let length = header.saturating_add(fixed).saturating_add(records);
    let most = MOST_FILE_BYTES as u64;
    if length > most || recsize > most {
        return Err(WriteFault::TooLarge);
    }
    let begins = begins(alloc, file, lone, header, header + fixed)?;
    Ok(Layout {
        header,
        begins,
        recsize,
        length,
    })
}
