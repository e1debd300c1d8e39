//! Bytes that are written to a file and to the disk.

use bytes::Buf;
use std::fs::{File, OpenFile};
use std::io::Write;
use std::sync::atomic::{AtomicBool, Ordering};
use std::thread::Threads;
use std::{io, thread};

// So many bytes take far longer to the disk than a thread takes to start.
const LARGE: usize = 4 << 20;

/// Writes all bytes, those that lie together at once. None is copied.
pub fn write_all_of<W: Write, B: Buf>(writer: &mut W, mut bytes: B) -> io::Result<()>
where
    B: Drop,
{
    while bytes.has_remaining() {
        let chunk = bytes.chunk();
        let count = chunk.len();
        writer.write_all(chunk)?;
        bytes.advance(count);
    }
    Ok(())
}

// Sends to the disk what is written of the file, again and again until all is written.
fn sync_until(file: &File, is_written: &AtomicBool) -> io::Result<()> {
    for _ in 0..u64::MAX {
        if is_written.load(Ordering::SeqCst) {
            return Ok(());
        }
        file.sync_data()?;
        thread::yield_now();
    }
    Ok(())
}

// Writes all bytes while another thread sends to the disk those that are written, and then waits for the rest. A failure of
// either is told, since the system tells one of the disk only once.
fn write_and_sync<T: Threads, B: Buf + Drop>(
    threads: &T,
    file: &mut File,
    beside: File,
    bytes: B,
) -> io::Result<()> {
    let is_written = AtomicBool::new(false);
    let (sent, written) = thread::join(
        threads,
        || sync_until(&beside, &is_written),
        || {
            let written = write_all_of(file, bytes);
            is_written.store(true, Ordering::SeqCst);
            written?;
            file.sync_all()
        },
    );
    written?;
    sent
}

/// Writes all bytes to a file, and returns once they are on the disk. Of many bytes the first are sent there while the
/// rest is written.
pub fn write_to_disk<T: Threads, B: Buf + Drop>(
    threads: &T,
    mut file: File,
    bytes: B,
) -> io::Result<()> {
    if bytes.remaining() >= LARGE
        && let Ok(beside) = file.try_clone()
    {
        return write_and_sync(threads, &mut file, beside, bytes);
    }
    write_all_of(&mut file, bytes)?;
    file.sync_all()
}
