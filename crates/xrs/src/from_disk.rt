//! The bytes of a file, many of them read by four threads.
ghost use Rattle.std.specs.Prelude.{ℕ, IfOk};
ghost use Rattle.xr_outside.specs.Outside.{IsWithin};

use std::alloc::Global;
use std::fs::{File, OpenFile};
use std::io::{Error, ErrorKind, Read, Seek, SeekFrom};
use std::os::unix::fs::FileExt;
use std::thread::Threads;
use std::{io, thread};
use xr_run::Got;

// So many bytes take far longer to read than threads take to start.
const LARGE: usize = 16 << 20;

// The length of a regular file. That of another isn't known: a pipe has 0, and a folder's says nothing of bytes.
fn known_length(file: &File) -> io::Result<u64> {
    let metadata = file.metadata()?;
    Ok(if metadata.is_file() {
        metadata.len()
    } else {
        0
    })
}

// Fills the bytes from the front of a file on, a quarter by each of four threads.
fn read_quarters<T: Threads>(threads: &T, file: &File, bytes: &mut [u8]) -> io::Result<()> {
    let quarter = bytes.len() / 4;
    let (first, rest) = bytes.split_at_mut(quarter);
    let (second, rest) = rest.split_at_mut(quarter);
    let (third, fourth) = rest.split_at_mut(quarter);
    let at = quarter as u64;
    let (second, (third, (fourth, first))) = thread::join(
        threads,
        || file.read_exact_at(second, at),
        || {
            thread::join(
                threads,
                || file.read_exact_at(third, at.saturating_mul(2)),
                || {
                    thread::join(
                        threads,
                        || file.read_exact_at(fourth, at.saturating_mul(3)),
                        || file.read_exact_at(first, 0),
                    )
                },
            )
        },
    );
    first?;
    second?;
    third?;
    fourth
}

/// The bytes of an open file, read no further than one byte past the limit. A large file that becomes shorter meanwhile
/// is an error.
pub fn read_within<T: Threads>(
    threads: &T,
    alloc: Global,
    mut file: File,
    limit: u64,
) -> io::Result<Got>
    ensures { IfOk result (λ got. IsWithin limit got) }
{
    let known = known_length(&file)?;
    if known > limit {
        return Ok(Got::TooLong);
    }
    let Ok(length) = usize::try_from(known) else {
        return Err(Error::from(ErrorKind::OutOfMemory));
    };
    let mut bytes = Vec::new(alloc);
    bytes.reserve_exact(length.saturating_add(1))?;
    if length >= LARGE {
        bytes.resize(length, 0)?;
        read_quarters(threads, &file, bytes.as_mut_slice())?;
        file.seek(SeekFrom::Start(known))?;
    }
    // All of a small file, and what was added to a large one meanwhile.
    let most = limit.saturating_add(1).saturating_sub(bytes.len() as u64);
    file.take(most).read_to_end(&mut bytes)?;
    if bytes.len() as u64 > limit {
        return Ok(Got::TooLong);
    }
    Ok(Got::Found(bytes))
}
