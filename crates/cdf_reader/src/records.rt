//! How many records a file has, and whether its values lie in it.
ghost use Rattle.std.specs.Prelude.{◌≡◌, ◌≤◌, ◌+◌, [], ◌∷◌, ℕ, List, length, map};
ghost use Rattle.std.specs.List.{list_all};
ghost use Rattle.xr_files.specs.declared.file.VarHead.{VarHead};
ghost use Rattle.xr_files.specs.Classic.{Header};
ghost use Rattle.xr_files.specs.Files.{most_bytes, head_size, recsize, record_vars, records_in, least, records_of, is_inside, all_inside};
ghost use Rattle.cdf_reader.specs.Parts.{header_of};
ghost use Rattle.cdf_reader.specs.Sizes.{capped};
ghost use Rattle.cdf_reader.specs.Fewest.{IsLeast};

use crate::sizes::{cells_of, distance_of, head_size_of, is_record};
use crate::variables::HeaderParts;
use xr_files::VarHead;

/// How many records of a variable lie in a file of so many bytes.
fn records_in_bytes(begin: u64, size: u64, distance: u64, bytes: usize) -> u64
    requires { bytes ≤ most_bytes }
    ensures { (h : Header) (v : VarHead) → begin ≡ v.begin → size ≡ capped (head_size h.dims v) → distance ≡ capped (recsize h) → result ≡ records_in h bytes v }
{
    let bytes = bytes as u64;
    let end = begin.saturating_add(size);
    if bytes < end {
        return 0;
    }
    match (bytes - end).checked_div(distance) {
        Some(more) => more + 1,
        None => 1,
    }
}

// The least of some numbers, where there are any.
#[derive(Clone, Copy)]
struct Fewest {
    least: Option<u64>,
}

fn with_count(rest: Fewest, n: u64) -> Fewest
    ensures { (ns : List ℕ) → IsLeast rest ns → IsLeast result (n ∷ ns) }
{
    match rest.least {
        Some(m) => {
            if n < m {
                Fewest { least: Some(n) }
            } else {
                rest
            }
        }
        None => Fewest { least: Some(n) },
    }
}

fn least_of(all: Fewest) -> u64
    ensures { (ns : List ℕ) → IsLeast all ns → result ≡ least ns }
{
    match all.least {
        Some(n) => n,
        None => 0,
    }
}

/// The greatest number of records that all lie in the file.
fn streamed_records(parts: &HeaderParts, distance: u64, bytes: usize) -> u64
    requires short { bytes ≤ most_bytes }
    requires distance { distance ≡ capped (recsize (header_of parts.now)) }
    ensures { result ≡ least (map (records_in (header_of parts.now) bytes) (record_vars parts.now.dims parts.now.vars)) }
{
    let mut fewest = Fewest { least: None };
    let dims = parts.dims.as_slice();
    let vars = parts.vars.as_slice();
    let mut i = vars.len();
    while i > 0 {
        i -= 1;
        let var = &vars[i];
        if is_record(dims, var.dims.as_slice()) {
            let size = head_size_of(dims, var);
            fewest = with_count(fewest, records_in_bytes(var.begin, size, distance, bytes));
        }
    }
    least_of(fewest)
}

/// The number of records: the counted one, or of a streamed file the greatest whose records all lie in it.
pub(crate) fn records_of_file(parts: &HeaderParts, distance: u64, bytes: usize) -> u64
    requires short { bytes ≤ most_bytes }
    requires distance { distance ≡ capped (recsize (header_of parts.now)) }
    ensures { result ≡ records_of (header_of parts.now) bytes }
{
    match parts.numrecs {
        Some(numrecs) => numrecs,
        None => streamed_records(parts, distance, bytes),
    }
}
