//! Sizes and places. Sums and products stop at the greatest number of 64 bits, which is far beyond a file's bytes.
ghost use Rattle.std.specs.Prelude.{◌≡◌, ◌==◌, ◌≤◌, ◌+◌, ◌/◌, [], ◌∷◌, ℕ, List, length, map, sum, get_or, min, nat_lt};
ghost use Rattle.xr_files.specs.declared.file.VarHead.{VarHead};
ghost use Rattle.xr_types.specs.Points.{size};
ghost use Rattle.xr_files.specs.Classic.{dim_at};
ghost use Rattle.xr_files.specs.Files.{positions, shape_of, is_record_var, padded, head_size, sizes_together, record_vars};
ghost use Rattle.cdf_reader.specs.Sizes.{capped, record_sizes, distance};
ghost use Rattle.cdf_reader.specs.Together.{Sum};

use crate::fields::width_of;
use xr_files::{CdfDim, VarHead};

fn positions_of(dims: &[CdfDim], numrecs: u64, i: u64) -> u64
    ensures { result ≡ positions numrecs (dim_at dims.now i) }
{
    match dims.get(i as usize) {
        Some(d) => { if d.len == 0 { numrecs } else { d.len } }
        None => 1,
    }
}

/// How many cells stand over these dimensions.
pub(crate) fn cells_of(dims: &[CdfDim], numrecs: u64, ids: &[u64]) -> u64
    ensures { result ≡ capped (size (shape_of dims.now numrecs ids.now)) }
{
    let mut cells: u64 = 1;
    let mut i = ids.len();
    while i > 0 {
        i -= 1;
        cells = positions_of(dims, numrecs, ids[i]).saturating_mul(cells);
    }
    cells
}

/// Whether the first dimension is the record dimension.
pub fn is_record(dims: &[CdfDim], ids: &[u64]) -> bool
    ensures { result ≡ is_record_var dims.now ids.now }
{
    match ids.first() {
        Some(i) => match dims.get(*i as usize) {
            Some(d) => d.len == 0,
            None => false,
        },
        None => false,
    }
}

/// Bytes of a variable's values, of a record variable per record.
pub(crate) fn head_size_of(dims: &[CdfDim], var: &VarHead) -> u64
    ensures { result ≡ capped (head_size dims.now var.now) }
{
    cells_of(dims, 1, var.dims.as_slice()).saturating_mul(width_of(var.kind))
}

fn padded_of(n: u64) -> u64
    ensures { (m : ℕ) → n ≡ capped m → result ≡ capped (padded m) }
{
    n.saturating_add((4 - n % 4) % 4)
}

// Sizes of record variables put together: how many there are (2 stands for more), the first one, and their padded sum.
#[derive(Clone, Copy)]
struct Together {
    count: u8,
    first: u64,
    total: u64,
}

fn with_size(rest: Together, size: u64) -> Together
    ensures { (ns : List ℕ) (n : ℕ) → Sum rest ns → size ≡ capped n → Sum result (n ∷ ns) }
{
    Together {
        count: if rest.count == 0 { 1 } else { 2 },
        first: size,
        total: padded_of(size).saturating_add(rest.total),
    }
}

fn size_of(all: Together) -> u64
    ensures { (ns : List ℕ) → Sum all ns → result ≡ capped (sizes_together ns) }
{
    if all.count == 1 { all.first } else { all.total }
}

/// Bytes from one record to the next.
pub(crate) fn distance_of(dims: &[CdfDim], vars: &[VarHead]) -> u64
    ensures { result ≡ capped (distance dims.now vars.now) }
{
    let mut sizes = Together {
        count: 0,
        first: 0,
        total: 0,
    };
    let mut i = vars.len();
    while i > 0 {
        i -= 1;
        let var = &vars[i];
        if is_record(dims, var.dims.as_slice()) {
            sizes = with_size(sizes, head_size_of(dims, var));
        }
    }
    size_of(sizes)
}
