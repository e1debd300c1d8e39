//! From bytes to a file.
ghost use Rattle.std.specs.Prelude.{◌≡◌, ◌≤◌, [], length, drop, MatchOption, IfOk};
ghost use Rattle.xr_files.specs.Files.{most_bytes, version_in, filed, file_in, Spells, Meets};
ghost use Rattle.cdf_reader.specs.Answers.{Answers, IfAt};
ghost use Rattle.cdf_reader.specs.Heads.{head_of, file_seen, Sees, Lists};
ghost use Rattle.cdf_reader.specs.Parts.{header_of};

use crate::data::Places;
use crate::fault::{CdfFault, WalkFault};
use crate::heads::FileHead;
use crate::records::records_of_file;
use crate::sizes::distance_of;
use crate::values::{are_inside, vars_of};
use crate::variables::{HeaderParts, header_at};
use std::alloc::Global;
use xr_files::CdfFile;
use xr_types::{CdfKind, MOST_FILE_BYTES, NoMemory};

fn after_magic(bytes: &[u8]) -> Option<(u8, &[u8])>
    ensures { MatchOption result (version_in bytes.now ≡ None) (λ x. (version_in bytes.now ≡ Some x.0) × (x.1.now ≡ drop 4 bytes.now)) }
{
    match bytes {
        [67, 68, 70, 1, rest @ ..] => Some((1, rest)),
        [67, 68, 70, 2, rest @ ..] => Some((2, rest)),
        [67, 68, 70, 5, rest @ ..] => Some((5, rest)),
        _ => None,
    }
}

// The head of a file whose values all lie in the bytes.
fn head_with(version: u8, bytes: &[u8], parts: HeaderParts) -> Result<FileHead, CdfFault>
    requires { length bytes.now ≤ most_bytes }
    ensures exact { Sees bytes.now result (filed version bytes.now (Ok (header_of parts, []))) }
    ensures listed { IfOk result (λ h. h ≡ head_of version bytes.now (header_of parts)) }
{
    let distance = distance_of(parts.dims.as_slice(), parts.vars.as_slice());
    let numrecs = records_of_file(&parts, distance, bytes.len());
    let places = Places {
        dims: parts.dims.as_slice(),
        numrecs,
        distance,
    };
    if !are_inside(places, bytes.len(), parts.vars.as_slice()) {
        return Err(CdfFault::At(CdfKind::CutData, bytes.len() as u64));
    }
    Ok(FileHead {
        version,
        numrecs,
        dims: parts.dims,
        attrs: parts.attrs,
        vars: parts.vars,
    })
}

/// The file that the bytes spell, without its values, or the fault that a walk from their front meets first, with
/// its byte. No value is copied.
#[tactic(auto, unfolding(xr_files::specs::Files::file_in))]
pub fn read_head(alloc: Global, bytes: &[u8]) -> Result<FileHead, CdfFault>
    ensures exact { Sees bytes.now result (file_in bytes.now) }
    ensures listed { IfOk result (λ h. Lists bytes.now h) }
    ensures short { IfOk result (λ h. length bytes.now ≤ most_bytes) }
{
    if bytes.len() > MOST_FILE_BYTES {
        return Err(CdfFault::At(CdfKind::TooLarge, 0));
    }
    let Some((version, behind)) = after_magic(bytes) else {
        return Err(CdfFault::At(CdfKind::BadMagic, 0));
    };
    match header_at(alloc, version, behind) {
        Ok((parts, _)) => head_with(version, bytes, parts),
        Err(WalkFault::At(stop)) => {
            let offset = bytes.len().saturating_sub(stop.left);
            Err(CdfFault::At(stop.kind, offset as u64))
        }
        Err(WalkFault::NoMemory) => Err(CdfFault::NoMemory),
    }
}

// The file that a head stands for.
fn file_with(alloc: Global, bytes: &[u8], head: FileHead) -> Result<CdfFile, NoMemory>
    requires { length bytes.now ≤ most_bytes }
    ensures { IfOk result (λ f. f ≡ file_seen bytes.now head) }
{
    let FileHead {
        version,
        numrecs,
        dims,
        attrs,
        vars,
    } = head;
    let places = Places {
        dims: dims.as_slice(),
        numrecs,
        distance: distance_of(dims.as_slice(), vars.as_slice()),
    };
    let vars = vars_of(alloc, places, bytes, vars.into_vec())?;
    Ok(CdfFile {
        version,
        numrecs,
        dims,
        attrs,
        vars,
    })
}

/// The file that the bytes spell, or the fault that a walk from their front meets first, with its byte.
pub fn read(alloc: Global, bytes: &[u8]) -> Result<CdfFile, CdfFault>
    ensures exact { Answers result (file_in bytes.now) }
    ensures found { IfOk result (λ f. Spells bytes.now f) }
    ensures fault { IfAt result (λ kind offset. Meets bytes.now kind offset) }
{
    read_exactly(alloc, bytes)
}

#[tactic(auto, using(crate::proofs::Seen::same_fault))]
fn read_exactly(alloc: Global, bytes: &[u8]) -> Result<CdfFile, CdfFault>
    ensures { Answers result (file_in bytes.now) }
{
    match read_head(alloc, bytes) {
        Ok(head) => Ok(file_with(alloc, bytes, head)?),
        Err(fault) => Err(fault),
    }
}
