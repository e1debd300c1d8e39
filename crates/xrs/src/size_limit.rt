//! The limit on the size of a file, past which a write would end the process.

use std::fs::{File, Files};
use std::io::Read;

// What the system says of the limits of this process.
const LIMITS: &str = "/proc/self/limits";

// How its line on files begins. The limit follows, in bytes or `unlimited`.
const LINE: &str = "Max file size";

// More bytes than the system says.
const MOST: usize = 4_096;

// The limit in this text.
fn limit_in(text: &str) -> Option<u64> {
    for line in text.lines() {
        if let Some(rest) = line.strip_prefix(LINE) {
            let word = rest.split_whitespace().next()?;
            return word.parse::<u64>().ok();
        }
    }
    None
}

/// How many bytes a file of this process may have, where the system sets a limit and tells it.
pub fn size_limit<R: Files>(rt: &R) -> Option<u64> {
    let mut file = File::open(rt, LIMITS).ok()?;
    let mut text = [0u8; MOST];
    let count = file.read(text.as_mut_slice()).ok()?;
    let told = text.get(..count)?;
    limit_in(str::from_utf8(told).ok()?)
}
