//! Folds of cells.
use crate::Job;
use fold_kernel::{Partial, scan_run};
use std::alloc::{AllocError, Global};
use xr_types::{DType, Elem, FoldKind};

// Numbers from -504 to 504.
fn numbers(alloc: Global, count: u32) -> Result<Vec<i32>, AllocError> {
    let mut cells = Vec::new(alloc);
    cells.reserve_exact(count as usize)?;
    for i in 0..count {
        let n = (u64::from(i) * 31 % 1009) as i32;
        cells.push(n - 504)?;
    }
    Ok(cells)
}

// Numbers from 0 to 1008.
fn unsigned_numbers(alloc: Global, count: u32) -> Result<Vec<u32>, AllocError> {
    let mut cells = Vec::new(alloc);
    cells.reserve_exact(count as usize)?;
    for i in 0..count {
        cells.push((u64::from(i) * 31 % 1009) as u32)?;
    }
    Ok(cells)
}

// Every seventh cell is missing.
fn holes(alloc: Global, count: u32) -> Result<Vec<u8>, AllocError> {
    let mut mask = Vec::new(alloc);
    mask.reserve_exact(count as usize)?;
    for i in 0..count {
        mask.push(u8::from(i % 7 == 0))?;
    }
    Ok(mask)
}

// What a job is a fold of.
fn fold_of(job: &str) -> FoldKind {
    if job.ends_with("sum") {
        FoldKind::Sum
    } else if job.ends_with("max") {
        FoldKind::Max
    } else if job.ends_with("min") {
        FoldKind::Min
    } else {
        FoldKind::Count
    }
}

fn mask_of(alloc: Global, count: u32, masked: bool) -> Result<Option<Vec<u8>>, AllocError> {
    if masked {
        Ok(Some(holes(alloc, count)?))
    } else {
        Ok(None)
    }
}

/// A fold of one run of cells of a kind.
#[derive(Drop)]
pub struct Fold<T> {
    fold: FoldKind,
    kind: DType,
    cells: Vec<T>,
    mask: Option<Vec<u8>>,
}

impl Fold<i32> {
    pub fn new(
        alloc: Global,
        job: &str,
        count: u32,
        masked: bool,
    ) -> Result<Fold<i32>, AllocError> {
        Ok(Fold {
            fold: fold_of(job),
            kind: DType::Int32,
            cells: numbers(alloc, count)?,
            mask: mask_of(alloc, count, masked)?,
        })
    }
}

impl Fold<u32> {
    pub fn unsigned(
        alloc: Global,
        job: &str,
        count: u32,
        masked: bool,
    ) -> Result<Fold<u32>, AllocError> {
        Ok(Fold {
            fold: fold_of(job),
            kind: DType::UInt32,
            cells: unsigned_numbers(alloc, count)?,
            mask: mask_of(alloc, count, masked)?,
        })
    }
}

impl<T: Elem> Job for Fold<T> {
    fn work(&mut self, _alloc: Global) -> Option<i128> {
        let cells = self.cells.as_slice();
        if cells.len() > 1 << 30 {
            return None;
        }
        let mut partial = Partial::empty(self.fold, self.kind);
        match &self.mask {
            Some(mask) => {
                let mask = mask.as_slice();
                if mask.len() != cells.len() {
                    return None;
                }
                partial.absorb_masked(0, cells, mask);
            }
            None => partial.absorb_run(0, cells),
        }
        partial.finish()
    }
}

/// Running sums along one run.
#[derive(Drop)]
pub struct Scan {
    cells: Vec<i32>,
    sums: Vec<i64>,
}

impl Scan {
    pub fn new(alloc: Global, count: u32) -> Result<Scan, AllocError> {
        let mut sums = Vec::new(alloc);
        sums.resize(count as usize, 0)?;
        Ok(Scan {
            cells: numbers(alloc, count)?,
            sums,
        })
    }
}

impl Job for Scan {
    fn work(&mut self, _alloc: Global) -> Option<i128> {
        if self.sums.len() != self.cells.len() {
            return None;
        }
        let before = Partial::empty(FoldKind::Sum, DType::Int32);
        let after = scan_run(before, self.cells.as_slice(), self.sums.as_mut_slice());
        after.finish()
    }
}
