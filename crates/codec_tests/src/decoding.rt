//! The form in which cells are kept, and how times stand in a file, which no script can tell; and the two calls besides `decode_bytes`
//! that give a file's dataset, which a run doesn't make.
ghost use Rattle.std.specs.Prelude.{◌≡◌, false, refl, IfSome};
ghost use Rattle.xr_decode.specs.Readable.{IsReadable};

use crate::printing::prints_set;
use bytes::Bytes;
use cdf_reader::read;
use plan_core::{Compute, Plan};
use std::alloc::Global;
use std::test::*;
use std::thread::Threads;
use xr_arrays::{ArrayValue, Form, Node};
use xr_decode::{decode_bytes, decode_into, decode_set};
use xr_files::CdfFile;
use xr_types::{Axis, ComputeFault, LabelList, Labels, NodeId};
use xr_values::{Cx, Variable};

// Two records of the index `time` and of the shorts `t` over `time` and `lat`, and the float `lat`.
const RECORDS: [u8; 248] = [
    67, 68, 70, 1, 0, 0, 0, 2, 0, 0, 0, 10, 0, 0, 0, 2, 0, 0, 0, 4, 116, 105, 109, 101, 0, 0, 0, 0,
    0, 0, 0, 3, 108, 97, 116, 0, 0, 0, 0, 2, 0, 0, 0, 0, 0, 0, 0, 0, 0, 0, 0, 11, 0, 0, 0, 3, 0, 0,
    0, 3, 108, 97, 116, 0, 0, 0, 0, 1, 0, 0, 0, 1, 0, 0, 0, 0, 0, 0, 0, 0, 0, 0, 0, 5, 0, 0, 0, 8,
    0, 0, 0, 224, 0, 0, 0, 4, 116, 105, 109, 101, 0, 0, 0, 1, 0, 0, 0, 0, 0, 0, 0, 12, 0, 0, 0, 1,
    0, 0, 0, 10, 95, 70, 105, 108, 108, 86, 97, 108, 117, 101, 0, 0, 0, 0, 0, 4, 0, 0, 0, 1, 0, 0,
    0, 15, 0, 0, 0, 4, 0, 0, 0, 4, 0, 0, 0, 232, 0, 0, 0, 1, 116, 0, 0, 0, 0, 0, 0, 2, 0, 0, 0, 0,
    0, 0, 0, 1, 0, 0, 0, 12, 0, 0, 0, 1, 0, 0, 0, 10, 95, 70, 105, 108, 108, 86, 97, 108, 117, 101,
    0, 0, 0, 0, 0, 3, 0, 0, 0, 1, 252, 25, 0, 0, 0, 0, 0, 3, 0, 0, 0, 4, 0, 0, 0, 236, 0, 0, 0, 0,
    0, 0, 0, 0, 0, 0, 0, 0, 0, 1, 252, 25, 0, 0, 0, 15, 0, 3, 255, 255,
];

// What `ncdump -h` and xarray tell of it, in the words of a printed dataset.
const SHOWN: &str =
    "Dataset\ndim time: 2\ndim lat: 2\ncoord time int32 (time): 0 15\nvar t int16 (time, lat) masked\nskipped lat\n";

// Shorts with two own fill numbers and two others, bytes that list a name of a dimension, shorts of that name, a truth value that is
// missing, and bytes over a dimension twice.
const FILLS: [u8; 496] = [
    67, 68, 70, 1, 0, 0, 0, 0, 0, 0, 0, 10, 0, 0, 0, 3, 0, 0, 0, 1, 120, 0, 0, 0, 0, 0, 0, 4, 0, 0,
    0, 1, 121, 0, 0, 0, 0, 0, 0, 2, 0, 0, 0, 1, 122, 0, 0, 0, 0, 0, 0, 3, 0, 0, 0, 0, 0, 0, 0, 0,
    0, 0, 0, 11, 0, 0, 0, 5, 0, 0, 0, 1, 118, 0, 0, 0, 0, 0, 0, 1, 0, 0, 0, 0, 0, 0, 0, 12, 0, 0,
    0, 2, 0, 0, 0, 10, 95, 70, 105, 108, 108, 86, 97, 108, 117, 101, 0, 0, 0, 0, 0, 3, 0, 0, 0, 2,
    0, 1, 0, 7, 0, 0, 0, 13, 109, 105, 115, 115, 105, 110, 103, 95, 118, 97, 108, 117, 101, 0, 0,
    0, 0, 0, 0, 4, 0, 0, 0, 2, 255, 255, 252, 25, 255, 255, 255, 255, 0, 0, 0, 3, 0, 0, 0, 8, 0, 0,
    1, 200, 0, 0, 0, 1, 119, 0, 0, 0, 0, 0, 0, 1, 0, 0, 0, 0, 0, 0, 0, 12, 0, 0, 0, 3, 0, 0, 0, 10,
    95, 70, 105, 108, 108, 86, 97, 108, 117, 101, 0, 0, 0, 0, 0, 3, 0, 0, 0, 1, 0, 5, 0, 0, 0, 0,
    0, 13, 109, 105, 115, 115, 105, 110, 103, 95, 118, 97, 108, 117, 101, 0, 0, 0, 0, 0, 0, 4, 0,
    0, 0, 1, 0, 1, 17, 112, 0, 0, 0, 11, 99, 111, 111, 114, 100, 105, 110, 97, 116, 101, 115, 0, 0,
    0, 0, 2, 0, 0, 0, 1, 121, 0, 0, 0, 0, 0, 0, 1, 0, 0, 0, 4, 0, 0, 1, 208, 0, 0, 0, 1, 121, 0, 0,
    0, 0, 0, 0, 1, 0, 0, 0, 0, 0, 0, 0, 0, 0, 0, 0, 0, 0, 0, 0, 3, 0, 0, 0, 8, 0, 0, 1, 212, 0, 0,
    0, 1, 102, 0, 0, 0, 0, 0, 0, 0, 0, 0, 0, 12, 0, 0, 0, 2, 0, 0, 0, 10, 95, 70, 105, 108, 108,
    86, 97, 108, 117, 101, 0, 0, 0, 0, 0, 1, 0, 0, 0, 1, 7, 0, 0, 0, 0, 0, 0, 5, 100, 116, 121,
    112, 101, 0, 0, 0, 0, 0, 0, 2, 0, 0, 0, 4, 98, 111, 111, 108, 0, 0, 0, 1, 0, 0, 0, 4, 0, 0, 1,
    220, 0, 0, 0, 5, 116, 119, 105, 99, 101, 0, 0, 0, 0, 0, 0, 2, 0, 0, 0, 0, 0, 0, 0, 0, 0, 0, 0,
    0, 0, 0, 0, 0, 0, 0, 0, 1, 0, 0, 0, 16, 0, 0, 1, 224, 0, 1, 252, 25, 0, 7, 255, 255, 5, 4, 255,
    0, 0, 1, 0, 2, 0, 3, 0, 4, 7, 0, 0, 0, 0, 0, 0, 0, 0, 0, 0, 0, 0, 0, 0, 0, 0, 0, 0, 0,
];

// A file of version 5: an index of type `uint64`, and variables of the types `ubyte`, `ushort`, `uint` and `int64`, of which two have
// fill numbers.
const UNSIGNED: [u8; 496] = [
    67, 68, 70, 5, 0, 0, 0, 0, 0, 0, 0, 0, 0, 0, 0, 10, 0, 0, 0, 0, 0, 0, 0, 1, 0, 0, 0, 0, 0, 0,
    0, 1, 120, 0, 0, 0, 0, 0, 0, 0, 0, 0, 0, 2, 0, 0, 0, 0, 0, 0, 0, 0, 0, 0, 0, 0, 0, 0, 0, 11, 0,
    0, 0, 0, 0, 0, 0, 5, 0, 0, 0, 0, 0, 0, 0, 1, 120, 0, 0, 0, 0, 0, 0, 0, 0, 0, 0, 1, 0, 0, 0, 0,
    0, 0, 0, 0, 0, 0, 0, 0, 0, 0, 0, 0, 0, 0, 0, 0, 0, 0, 0, 11, 0, 0, 0, 0, 0, 0, 0, 16, 0, 0, 0,
    0, 0, 0, 1, 192, 0, 0, 0, 0, 0, 0, 0, 1, 98, 0, 0, 0, 0, 0, 0, 0, 0, 0, 0, 1, 0, 0, 0, 0, 0, 0,
    0, 0, 0, 0, 0, 0, 0, 0, 0, 0, 0, 0, 0, 0, 0, 0, 0, 7, 0, 0, 0, 0, 0, 0, 0, 4, 0, 0, 0, 0, 0, 0,
    1, 208, 0, 0, 0, 0, 0, 0, 0, 1, 104, 0, 0, 0, 0, 0, 0, 0, 0, 0, 0, 1, 0, 0, 0, 0, 0, 0, 0, 0,
    0, 0, 0, 12, 0, 0, 0, 0, 0, 0, 0, 1, 0, 0, 0, 0, 0, 0, 0, 10, 95, 70, 105, 108, 108, 86, 97,
    108, 117, 101, 0, 0, 0, 0, 0, 8, 0, 0, 0, 0, 0, 0, 0, 1, 255, 255, 0, 0, 0, 0, 0, 8, 0, 0, 0,
    0, 0, 0, 0, 4, 0, 0, 0, 0, 0, 0, 1, 212, 0, 0, 0, 0, 0, 0, 0, 1, 119, 0, 0, 0, 0, 0, 0, 0, 0,
    0, 0, 1, 0, 0, 0, 0, 0, 0, 0, 0, 0, 0, 0, 0, 0, 0, 0, 0, 0, 0, 0, 0, 0, 0, 0, 9, 0, 0, 0, 0, 0,
    0, 0, 8, 0, 0, 0, 0, 0, 0, 1, 216, 0, 0, 0, 0, 0, 0, 0, 1, 110, 0, 0, 0, 0, 0, 0, 0, 0, 0, 0,
    1, 0, 0, 0, 0, 0, 0, 0, 0, 0, 0, 0, 12, 0, 0, 0, 0, 0, 0, 0, 1, 0, 0, 0, 0, 0, 0, 0, 13, 109,
    105, 115, 115, 105, 110, 103, 95, 118, 97, 108, 117, 101, 0, 0, 0, 0, 0, 0, 11, 0, 0, 0, 0, 0,
    0, 0, 1, 255, 255, 255, 255, 255, 255, 255, 255, 0, 0, 0, 10, 0, 0, 0, 0, 0, 0, 0, 16, 0, 0, 0,
    0, 0, 0, 1, 224, 0, 0, 0, 0, 0, 0, 0, 1, 255, 255, 255, 255, 255, 255, 255, 255, 255, 1, 0, 0,
    255, 255, 156, 64, 255, 255, 255, 255, 0, 0, 0, 0, 255, 255, 255, 255, 255, 255, 255, 255, 0,
    0, 0, 0, 0, 0, 0, 2,
];

const UNSIGNED_SHOWN: &str =
    "Dataset\ndim x: 2\ncoord x uint64 (x): 1 18446744073709551615\nvar b uint8 (x)\nvar h uint16 (x) masked\nvar w uint32 (x)\nvar n int64 (x) masked\n";

// Five indexes: times of the calendar `standard`, which isn't named, of `noleap` and of `360_day`; numbers whose units are none of time;
// and numbers of which one counts a day behind the year 9999.
const TIMES: [u8; 736] = [
    67, 68, 70, 1, 0, 0, 0, 0, 0, 0, 0, 10, 0, 0, 0, 5, 0, 0, 0, 5, 99, 105, 118, 105, 108, 0, 0,
    0, 0, 0, 0, 3, 0, 0, 0, 6, 110, 111, 108, 101, 97, 112, 0, 0, 0, 0, 0, 2, 0, 0, 0, 6, 109, 111,
    110, 116, 104, 115, 0, 0, 0, 0, 0, 3, 0, 0, 0, 6, 117, 110, 114, 101, 97, 100, 0, 0, 0, 0, 0,
    2, 0, 0, 0, 3, 102, 97, 114, 0, 0, 0, 0, 2, 0, 0, 0, 0, 0, 0, 0, 0, 0, 0, 0, 11, 0, 0, 0, 5, 0,
    0, 0, 5, 99, 105, 118, 105, 108, 0, 0, 0, 0, 0, 0, 1, 0, 0, 0, 0, 0, 0, 0, 12, 0, 0, 0, 2, 0,
    0, 0, 5, 117, 110, 105, 116, 115, 0, 0, 0, 0, 0, 0, 2, 0, 0, 0, 21, 100, 97, 121, 115, 32, 115,
    105, 110, 99, 101, 32, 50, 48, 48, 48, 45, 48, 49, 45, 48, 49, 0, 0, 0, 0, 0, 0, 4, 97, 120,
    105, 115, 0, 0, 0, 2, 0, 0, 0, 1, 84, 0, 0, 0, 0, 0, 0, 4, 0, 0, 0, 12, 0, 0, 2, 180, 0, 0, 0,
    6, 110, 111, 108, 101, 97, 112, 0, 0, 0, 0, 0, 1, 0, 0, 0, 1, 0, 0, 0, 12, 0, 0, 0, 3, 0, 0, 0,
    4, 97, 120, 105, 115, 0, 0, 0, 2, 0, 0, 0, 1, 84, 0, 0, 0, 0, 0, 0, 5, 117, 110, 105, 116, 115,
    0, 0, 0, 0, 0, 0, 2, 0, 0, 0, 28, 104, 111, 117, 114, 115, 32, 115, 105, 110, 99, 101, 32, 50,
    48, 48, 48, 45, 48, 50, 45, 50, 56, 32, 49, 50, 58, 48, 48, 0, 0, 0, 8, 99, 97, 108, 101, 110,
    100, 97, 114, 0, 0, 0, 2, 0, 0, 0, 6, 110, 111, 108, 101, 97, 112, 0, 0, 0, 0, 0, 3, 0, 0, 0,
    4, 0, 0, 2, 192, 0, 0, 0, 6, 109, 111, 110, 116, 104, 115, 0, 0, 0, 0, 0, 1, 0, 0, 0, 2, 0, 0,
    0, 12, 0, 0, 0, 2, 0, 0, 0, 8, 99, 97, 108, 101, 110, 100, 97, 114, 0, 0, 0, 2, 0, 0, 0, 7, 51,
    54, 48, 95, 100, 97, 121, 0, 0, 0, 0, 5, 117, 110, 105, 116, 115, 0, 0, 0, 0, 0, 0, 2, 0, 0, 0,
    21, 100, 97, 121, 115, 32, 115, 105, 110, 99, 101, 32, 50, 48, 48, 48, 45, 48, 50, 45, 50, 56,
    0, 0, 0, 0, 0, 0, 4, 0, 0, 0, 12, 0, 0, 2, 196, 0, 0, 0, 6, 117, 110, 114, 101, 97, 100, 0, 0,
    0, 0, 0, 1, 0, 0, 0, 3, 0, 0, 0, 12, 0, 0, 0, 2, 0, 0, 0, 5, 117, 110, 105, 116, 115, 0, 0, 0,
    0, 0, 0, 2, 0, 0, 0, 21, 100, 97, 121, 115, 32, 97, 102, 116, 101, 114, 32, 50, 48, 48, 48, 45,
    48, 49, 45, 48, 49, 0, 0, 0, 0, 0, 0, 8, 99, 97, 108, 101, 110, 100, 97, 114, 0, 0, 0, 2, 0, 0,
    0, 8, 115, 116, 97, 110, 100, 97, 114, 100, 0, 0, 0, 4, 0, 0, 0, 8, 0, 0, 2, 208, 0, 0, 0, 3,
    102, 97, 114, 0, 0, 0, 0, 1, 0, 0, 0, 4, 0, 0, 0, 12, 0, 0, 0, 2, 0, 0, 0, 5, 117, 110, 105,
    116, 115, 0, 0, 0, 0, 0, 0, 2, 0, 0, 0, 21, 100, 97, 121, 115, 32, 115, 105, 110, 99, 101, 32,
    50, 48, 48, 48, 45, 48, 49, 45, 48, 49, 0, 0, 0, 0, 0, 0, 8, 99, 97, 108, 101, 110, 100, 97,
    114, 0, 0, 0, 2, 0, 0, 0, 19, 112, 114, 111, 108, 101, 112, 116, 105, 99, 95, 103, 114, 101,
    103, 111, 114, 105, 97, 110, 0, 0, 0, 0, 4, 0, 0, 0, 8, 0, 0, 2, 216, 0, 0, 0, 0, 0, 0, 0, 59,
    0, 0, 1, 110, 0, 0, 0, 12, 0, 0, 0, 2, 0, 0, 0, 3, 0, 0, 1, 47, 0, 0, 0, 5, 0, 0, 0, 7, 0, 0,
    0, 0, 0, 45, 198, 192,
];

const TIMES_SHOWN: &str =
    "Dataset\ndim civil: 3\ndim noleap: 2\ndim months: 3\ndim unread: 2\ndim far: 2\ncoord civil time (civil): 2000-01-01T00:00:00 2000-02-29T00:00:00 2001-01-01T00:00:00\ncoord noleap time (noleap): 2000-02-28T12:00:00 2000-03-01T00:00:00\ncoord months time (months): 2000-02-30T00:00:00 2000-03-01T00:00:00 2001-01-01T00:00:00\ncoord unread int32 (unread): 5 7\ncoord far int32 (far): 0 3000000\n";

const TIMES_KEPT: &str =
    "civil: axis; days since 2000-01-01\nnoleap: axis; hours since 2000-02-28 12:00 in noleap\nmonths:; days since 2000-02-28 in 360_day\nunread: units calendar\nfar: units calendar\n";

// How the cells of each variable are kept: as the file stores them, or at the width of their kind.
fn forms(alloc: Global, bytes: &[u8]) -> Result<String, Fail> {
    let mut plan = Plan::new(alloc);
    let bytes = Bytes::copy_from_slice(alloc, bytes)?;
    let set = decode_bytes(alloc, &mut plan, &bytes, true)
        .ok()
        .ok_or("no dataset")?;
    let mut out = String::new(alloc);
    for var in set.vars.as_slice() {
        out.push_str(var.name.as_str())?;
        out.push_str(form_of(&plan, var))?;
    }
    Ok(out)
}

fn form_of(plan: &Plan, var: &Variable) -> &'static str {
    match plan.nodes().get(var.node as usize) {
        Some(Node::Source { cells }) => match cells.form() {
            Form::Stored(_) => " stored ",
            Form::Typed(_) => " typed ",
        },
        _ => " no cells ",
    }
}

#[test]
fn whole_numbers_stay_as_they_stand_in_the_file(rt: HostRuntime) -> Result<(), Fail> {
    let alloc = rt.alloc();
    // `f` holds truth values.
    let shared = forms(alloc, &FILLS)?;
    assert_eq!(rt; shared.as_str(), "v stored w stored y stored f typed ");
    let in_records = forms(alloc, &RECORDS)?;
    assert_eq!(rt; in_records.as_str(), "t stored ");
    let unsigned = forms(alloc, &UNSIGNED)?;
    assert_eq!(rt; unsigned.as_str(), "b stored h stored w stored n stored ");
    Ok(())
}

// Computes nothing.
#[derive(Drop)]
struct Nothing;

impl Compute for Nothing {
    ghost declines = { λ s nodes n. false };

    ghost early = { λ s nodes more n lt. refl };

    fn cells<R: Threads + Sync>(
        &mut self,
        _rt: &R,
        _alloc: Global,
        _plan: &Plan,
        _node: NodeId,
    ) -> Result<ArrayValue, ComputeFault> {
        Err(ComputeFault::NoMemory)
    }
}

// The file that bytes spell.
fn file_in(alloc: Global, bytes: &[u8]) -> Option<CdfFile>
    ensures { IfSome result (λ f. IsReadable f) }
{
    match read(alloc, bytes) {
        Ok(file) => Some(file),
        Err(_) => None,
    }
}

#[test]
fn a_file_gives_the_dataset_of_its_bytes(rt: HostRuntime) -> Result<(), Fail> {
    let alloc = rt.alloc();
    let file = file_in(alloc, &RECORDS).ok_or("no file")?;
    let mut plan = Plan::new(alloc);
    let set = decode_into(alloc, &mut plan, &file, true)
        .ok()
        .ok_or("no dataset")?;
    assert!(rt; prints_set(alloc, &set, SHOWN));
    let mut cx = Cx {
        plan: Plan::new(alloc),
        compute: Nothing,
    };
    let set = decode_set(alloc, &mut cx, &file, true)
        .ok()
        .ok_or("no dataset")?;
    assert!(rt; prints_set(alloc, &set, SHOWN));
    Ok(())
}

#[test]
fn types_of_version_5_keep_their_kinds(rt: HostRuntime) -> Result<(), Fail> {
    let alloc = rt.alloc();
    let mut plan = Plan::new(alloc);
    let bytes = Bytes::copy_from_slice(alloc, &UNSIGNED)?;
    let set = decode_bytes(alloc, &mut plan, &bytes, true)
        .ok()
        .ok_or("no dataset")?;
    assert!(rt; prints_set(alloc, &set, UNSIGNED_SHOWN));
    Ok(())
}

fn push_coding(out: &mut String, list: &LabelList) -> Result<(), Fail> {
    let LabelList::Times(coding, _) = list else {
        return Ok(());
    };
    out.push_str("; ")?;
    out.push_str(coding.units_text.as_str())?;
    if let Some(calendar) = &coding.calendar_text {
        out.push_str(" in ")?;
        out.push_str(calendar.as_str())?;
    }
    Ok(())
}

fn push_index(out: &mut String, labels: &Labels) -> Result<(), Fail> {
    for attr in labels.attrs.as_slice() {
        out.push_str(" ")?;
        out.push_str(attr.name.as_str())?;
    }
    push_coding(out, &labels.list)
}

// The names of the attributes of each index, and how its times stand in a file.
fn indexes(alloc: Global, axes: &[Axis]) -> Result<String, Fail> {
    let mut out = String::new(alloc);
    for axis in axes {
        out.push_str(axis.name.as_str())?;
        out.push_str(":")?;
        if let Some(labels) = &axis.labels {
            push_index(&mut out, labels)?;
        }
        out.push_str("\n")?;
    }
    Ok(out)
}

#[test]
fn an_index_that_counts_times_is_one_of_times(rt: HostRuntime) -> Result<(), Fail> {
    let alloc = rt.alloc();
    let mut plan = Plan::new(alloc);
    let bytes = Bytes::copy_from_slice(alloc, &TIMES)?;
    let set = decode_bytes(alloc, &mut plan, &bytes, true)
        .ok()
        .ok_or("no dataset")?;
    assert!(rt; prints_set(alloc, &set, TIMES_SHOWN));
    let kept = indexes(alloc, set.axes.as_slice())?;
    assert_eq!(rt; kept.as_str(), TIMES_KEPT);
    Ok(())
}
